//! One step of a walk over two lists of bands.

ghost use Rattle.std.specs.Prelude.{◌≡◌, ◌≤◌, ◌+◌, [], cond, int_le};
ghost use Rattle.region_bands.specs.Bands.{first_row, nodes_in, reading};
ghost use Rattle.region_sets.specs.Strips.{edge_of, nearer, next_strip, start_of, later};

use region_bands::{BandList, Reader, Rows};
use region_rows::skip_row;

/// How far down both lists are the same, and whether they have rows up to there.
#[derive(Clone, Copy)]
pub(crate) struct Strip {
    pub bottom: i32,
    pub in_first: bool,
    pub in_second: bool,
}

fn nearer(a: i32, b: i32) -> i32
    ensures { result ≡ nearer a b }
{
    if a < b { a } else { b }
}

fn has_begun(rows: Rows, y: i32) -> bool
    ensures { result ≡ int_le rows.top y }
{
    rows.top <= y
}

/// Returns where `rows` begin, or where they end if they have begun by `y`.
fn edge_of(rows: Rows, y: i32) -> i32
    ensures { result ≡ edge_of y rows }
{
    if rows.top <= y { rows.bottom } else { rows.top }
}

/// Returns the strip from `y` on, of two lists of bands by their first bands' rows; `None` if both have ended.
pub(crate) fn next_strip(first: Option<Rows>, second: Option<Rows>, y: i32) -> Option<Strip>
    ensures { result ≡ next_strip y first second }
{
    match (first, second) {
        (Some(a), Some(b)) => Some(Strip {
            bottom: nearer(edge_of(a, y), edge_of(b, y)),
            in_first: has_begun(a, y),
            in_second: has_begun(b, y),
        }),
        (Some(a), None) => Some(Strip {
            bottom: edge_of(a, y),
            in_first: has_begun(a, y),
            in_second: false,
        }),
        (None, Some(b)) => Some(Strip {
            bottom: edge_of(b, y),
            in_first: false,
            in_second: has_begun(b, y),
        }),
        (None, None) => None,
    }
}

/// Returns where the first of two lists of bands begins, by their first bands' rows; 0 if both have ended.
pub(crate) fn bands_start(first: Option<Rows>, second: Option<Rows>) -> i32
    ensures { result ≡ start_of first second }
{
    match (first, second) {
        (Some(a), Some(b)) => nearer(a.top, b.top),
        (Some(a), None) => a.top,
        (None, Some(b)) => b.top,
        (None, None) => 0,
    }
}

/// Removes the first band below the gap, if it ends by `edge`.
pub(crate) fn drop_ended(bands: &mut BandList, edge: i32)
    requires { bands.old.left ≡ first_row bands.old.below }
    ensures spare { bands.old.spare + nodes_in bands.old.below ≤ bands.new.spare + nodes_in bands.new.below }
    ensures ended { bands.new ≡ record bands.old {
      left = first_row (later edge bands.old.below);
      below = later edge bands.old.below;
      spare = bands.new.spare;
    } }
{
    if let Some(rows) = bands.first_rows() {
        if rows.bottom <= edge {
            bands.remove_first();
        }
    }
}

/// Reads on past the first band, if it ends by `edge`.
pub(crate) fn pass_ended(reader: &mut Reader, edge: i32)
    requires { reader.old.left ≡ first_row reader.old.bands }
    ensures { reader.new ≡ reading (later edge reader.old.bands) }
{
    if let Some(rows) = reader.first_rows() {
        if rows.bottom <= edge {
            reader.advance();
        }
    }
}

/// Leaves what is left of the reader's first band to be read if that band is in a strip, and nothing of it otherwise.
pub(crate) fn enter_strip(reader: &mut Reader, is_in: bool)
    ensures { reader.new ≡ record reader.old { left = cond is_in reader.old.left [] } }
{
    if !is_in {
        skip_row(reader);
    }
}

/// Reads the first band from its first interval again, or on past that band if it ends by `edge`.
pub(crate) fn leave_strip(reader: &mut Reader, edge: i32)
    ensures { reader.new ≡ reading (later edge reader.old.bands) }
{
    reader.reread();
    pass_ended(reader, edge);
}
