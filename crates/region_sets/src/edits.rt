//! Changes of bands where they stand: those of a reader are copied, a rectangle is taken out at an end, and all are moved.

ghost use Rattle.std.specs.Prelude.{◌≡◌, ◌↔◌, ◌≤◌, ◌+◌, ◌++◌, ◌&&◌, not, [], IfSome, None, ℤ, ◌+ℤ◌, map};
ghost use Rattle.std.specs.List.{AllByRecursion};
ghost use Rattle.region_bands.specs.Bands.{first_row, nodes_in, reading};
ghost use Rattle.region_sets.specs.Sets.{AreBands, has};
ghost use Rattle.region_sets.specs.Queries.{in_rectangle};
ghost use Rattle.region_sets.specs.Ends.{end_rectangle};
ghost use Rattle.region_sets.specs.Moves.{moved_band, IsMovable};

use crate::ends::{pop_bottom, pop_top};
use crate::moves::{move_row, moved_rows};
use crate::queries::Rectangle;
use region_bands::{BandList, Reader};
use region_rows::copy_other;

/// Copies the bands that the reader still has to read above the gap, behind those that stand there. Reads all of them.
pub fn copy_bands(to: &mut BandList, from: &mut Reader)
    requires row { to.old.row ≡ [] }
    requires left { from.old.left ≡ first_row from.old.bands }
    requires room { nodes_in from.old.bands ≤ to.old.spare }
    ensures copied { to.new ≡ record to.old { above = to.old.above ++ from.old.bands; spare = to.new.spare } }
    ensures spare { to.old.spare ≤ to.new.spare + nodes_in from.old.bands }
    ensures read { from.new ≡ reading [] }
{
    while let Some(rows) = from.first_rows() {
        copy_other(to, from);
        to.put_row(rows);
        from.advance();
    }
}

/// Removes an interval at an end of the bands, and returns its rectangle: in the topmost band, or in the bottommost if
/// `reverse_y`, the first from the left, or from the right if `reverse_x`; `None` if there is no band. May move the gap. Takes
/// no memory.
pub fn pop(bands: &mut BandList, reverse_x: bool, reverse_y: bool) -> Option<Rectangle>
    requires { AreBands (bands.old.above ++ bands.old.below) }
    ensures none { (result ≡ None) ↔ (bands.old.above ++ bands.old.below ≡ []) }
    ensures unchanged { result ≡ None → bands.new.above ++ bands.new.below ≡ [] }
    ensures popped { result ≡ end_rectangle reverse_x reverse_y (bands.old.above ++ bands.old.below) }
    ensures are_bands { AreBands (bands.new.above ++ bands.new.below) }
    ensures has { IfSome result (λ r. (x y : ℤ) →
        has (bands.new.above ++ bands.new.below) x y ≡ (has (bands.old.above ++ bands.old.below) x y && not (in_rectangle r x y))) }
    ensures row { bands.new.row ≡ bands.old.row }
    ensures spare { bands.old.spare ≤ bands.new.spare }
{
    if reverse_y {
        pop_bottom(bands, reverse_x)
    } else {
        pop_top(bands, reverse_x)
    }
}

/// Moves all bands by `dx` columns and `dy` rows. The gap is then below all. Takes no memory.
pub fn offset(bands: &mut BandList, dx: i32, dy: i32)
    requires row { bands.old.row ≡ [] }
    requires movable { AllByRecursion (IsMovable dx dy) (bands.old.above ++ bands.old.below) }
    ensures moved { bands.new ≡ record bands.old {
      above = map (moved_band dx dy) (bands.old.above ++ bands.old.below);
      left = [];
      below = [];
      spare = bands.new.spare;
    } }
    ensures are_bands { AreBands (bands.old.above ++ bands.old.below) → AreBands bands.new.above }
    ensures has { (x y : ℤ) → has bands.new.above (x +ℤ dx) (y +ℤ dy) ≡ has (bands.old.above ++ bands.old.below) x y }
    ensures spare { bands.old.spare ≤ bands.new.spare }
{
    bands.rewind();
    while let Some(rows) = bands.first_rows() {
        move_row(bands, dx);
        bands.remove_first();
        bands.put_row(moved_rows(rows, dy));
    }
}
