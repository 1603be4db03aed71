//! Takes an interval out of the topmost band or the bottommost.

ghost use Rattle.std.specs.Prelude.{◌≡◌, ◌≢◌, ◌≤◌, ◌+◌, ◌++◌, ◌∷◌, [], List, true, false, IfSome, Some, None, ℤ};
ghost use Rattle.region_bands.specs.Bands.{Band, first_row};
ghost use Rattle.region_sets.specs.Sets.{AreBands, has};
ghost use Rattle.region_sets.specs.Seams.{StandAbove};
ghost use Rattle.region_sets.specs.Ends.{end_of, end_rectangle, without_end, IsChanged, IsWithout};

use crate::queries::Rectangle;
use crate::seams::join_seam;
use region_bands::{BandList, Interval};

// Removes an end of the first band below the gap: its first interval, or its last if `reverse_x`.
fn take_end(bands: &mut BandList, reverse_x: bool) -> Interval
    requires band { bands.old.below ≢ [] }
    requires interval { first_row bands.old.below ≢ [] }
    ensures interval { end_of reverse_x (first_row bands.old.below) ≡ Some result }
    ensures taken { (first : Band) (rest : List Band) → bands.old.below ≡ first ∷ rest →
        bands.new ≡ record bands.old {
          left = without_end reverse_x first.row;
          below = record first { row = without_end reverse_x first.row } ∷ rest;
          spare = bands.old.spare + 1;
        } }
{
    if reverse_x {
        bands.take_last_interval()
    } else {
        bands.take_first_interval()
    }
}

fn none_left(bands: &BandList) -> bool
    ensures yes { result ≡ true → bands.now.left ≡ [] }
    ensures no { result ≡ false → bands.now.left ≢ [] }
{
    match bands.first_left() {
        Some(_) => false,
        None => true,
    }
}

// Makes bands of the topmost one, which was changed, and those below it. The gap stands above all.
fn mend_top(bands: &mut BandList)
    requires above { bands.old.above ≡ [] }
    requires band { bands.old.below ≢ [] }
    requires left { bands.old.left ≡ first_row bands.old.below }
    requires changed { (first : Band) (rest : List Band) → bands.old.below ≡ first ∷ rest → IsChanged first × AreBands rest ×
        StandAbove (first ∷ []) rest }
    ensures are_bands { AreBands (bands.new.above ++ bands.new.below) }
    ensures has { (x y : ℤ) → has (bands.new.above ++ bands.new.below) x y ≡ has bands.old.below x y }
    ensures row { bands.new.row ≡ bands.old.row }
    ensures spare { bands.old.spare ≤ bands.new.spare }
{
    if none_left(bands) {
        bands.remove_first();
    } else {
        bands.advance();
        join_seam(bands);
    }
}

// Makes bands of the bottommost one, which was changed, and those above it. The gap stands between.
fn mend_bottom(bands: &mut BandList)
    requires above { AreBands bands.old.above }
    requires order { StandAbove bands.old.above bands.old.below }
    requires band { bands.old.below ≢ [] }
    requires left { bands.old.left ≡ first_row bands.old.below }
    requires changed { (first : Band) (rest : List Band) → bands.old.below ≡ first ∷ rest → IsChanged first × (rest ≡ []) }
    ensures are_bands { AreBands (bands.new.above ++ bands.new.below) }
    ensures has { (x y : ℤ) → has (bands.new.above ++ bands.new.below) x y ≡ has (bands.old.above ++ bands.old.below) x y }
    ensures row { bands.new.row ≡ bands.old.row }
    ensures spare { bands.old.spare ≤ bands.new.spare }
{
    if none_left(bands) {
        bands.remove_first();
    } else {
        join_seam(bands);
    }
}

/// Removes an interval of the topmost band: its first, or its last if `reverse_x`.
pub(crate) fn pop_top(bands: &mut BandList, reverse_x: bool) -> Option<Rectangle>
    requires { AreBands (bands.old.above ++ bands.old.below) }
    ensures popped { result ≡ end_rectangle reverse_x false (bands.old.above ++ bands.old.below) }
    ensures none { result ≡ None → (bands.old.above ++ bands.old.below ≡ []) × (bands.new.above ++ bands.new.below ≡ []) }
    ensures taken { IfSome result (λ r. IsWithout r (bands.old.above ++ bands.old.below) (bands.new.above ++ bands.new.below)) }
    ensures row { bands.new.row ≡ bands.old.row }
    ensures spare { bands.old.spare ≤ bands.new.spare }
{
    bands.rewind();
    let rows = bands.first_rows()?;
    let columns = take_end(bands, reverse_x);
    mend_top(bands);
    Some(Rectangle { rows, columns })
}

/// Removes an interval of the bottommost band: its first, or its last if `reverse_x`.
pub(crate) fn pop_bottom(bands: &mut BandList, reverse_x: bool) -> Option<Rectangle>
    requires { AreBands (bands.old.above ++ bands.old.below) }
    ensures popped { result ≡ end_rectangle reverse_x true (bands.old.above ++ bands.old.below) }
    ensures none { result ≡ None → (bands.old.above ++ bands.old.below ≡ []) × (bands.new.above ++ bands.new.below ≡ []) }
    ensures taken { IfSome result (λ r. IsWithout r (bands.old.above ++ bands.old.below) (bands.new.above ++ bands.new.below)) }
    ensures row { bands.new.row ≡ bands.old.row }
    ensures spare { bands.old.spare ≤ bands.new.spare }
{
    bands.wind();
    let rows = bands.last_rows()?;
    bands.retreat();
    let columns = take_end(bands, reverse_x);
    mend_bottom(bands);
    Some(Rectangle { rows, columns })
}
