//! Moves the gap to where a change begins.

ghost use Rattle.std.specs.Prelude.{◌≡◌, ◌++◌};
ghost use Rattle.region_bands.specs.Bands.{first_row};
ghost use Rattle.region_sets.specs.Sets.{AreBands, EndBy};
ghost use Rattle.region_sets.specs.Room.{ends_below, ends_by, IsGap, GapMoved};

use region_bands::{BandList, Reader, Rows};
use region_rows::Keep;

fn ends_below(rows: Option<Rows>, y: i32) -> bool
    ensures { result ≡ ends_below y rows }
{
    match rows {
        Some(r) => y < r.bottom,
        None => false,
    }
}

fn ends_by(rows: Option<Rows>, y: i32) -> bool
    ensures { result ≡ ends_by y rows }
{
    match rows {
        Some(r) => r.bottom <= y,
        None => false,
    }
}

// Moves the gap up until the bands above it end at `y` or above it.
fn retreat_to(bands: &mut BandList, y: i32)
    requires { AreBands (bands.old.above ++ bands.old.below) }
    ensures ends { EndBy y bands.new.above }
    ensures moved { GapMoved bands.old bands.new }
{
    'bands: while ends_below(bands.last_rows(), y) {
        bands.retreat();
    }
}

// Moves the gap down past the bands that end at `y` or above it.
fn advance_to(bands: &mut BandList, y: i32)
    requires { EndBy y bands.old.above }
    ensures ends { EndBy y bands.new.above }
    ensures moved { GapMoved bands.old bands.new }
{
    'bands: while ends_by(bands.first_rows(), y) {
        bands.advance();
    }
}

// Moves the gap between the bands that end at `y` or above it and the others.
fn move_to(bands: &mut BandList, y: i32)
    requires { AreBands (bands.old.above ++ bands.old.below) }
    ensures ends { EndBy y bands.new.above }
    ensures moved { GapMoved bands.old bands.new }
{
    retreat_to(bands, y);
    advance_to(bands, y);
}

// Moves the gap before all bands, or, if `keep` keeps the places of the bands alone, past those that end where the reader's
// bands begin or above it.
fn move_before(bands: &mut BandList, other: &Reader, keep: Keep)
    requires { AreBands (bands.old.above ++ bands.old.below) }
    ensures gap { IsGap keep bands.new.above other.now.bands }
    ensures moved { GapMoved bands.old bands.new }
{
    match other.first_rows() {
        Some(rows) if keep.keeps(true, false) => move_to(bands, rows.top),
        _ => bands.rewind(),
    }
}

/// Moves the gap to where `keep_bands` may begin. The first band below it is then to be read from its first interval.
pub fn move_gap(bands: &mut BandList, other: &Reader, keep: Keep)
    requires { AreBands (bands.old.above ++ bands.old.below) }
    ensures gap { IsGap keep bands.new.above other.now.bands }
    ensures left { bands.new.left ≡ first_row bands.new.below }
    ensures moved { GapMoved bands.old bands.new }
{
    move_before(bands, other, keep);
    bands.reread();
}
