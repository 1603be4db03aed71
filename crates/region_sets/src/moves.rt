//! Moves bands, one after the other.

ghost use Rattle.std.specs.Prelude.{◌≡◌, ◌≢◌, ◌≤◌, [], map, ◌+ℤ◌, FitsSigned};
ghost use Rattle.std.specs.Int.{w32};
ghost use Rattle.std.specs.List.{AllByRecursion};
ghost use Rattle.region_bands.specs.Bands.{first_row};
ghost use Rattle.region_sets.specs.Moves.{moved_interval, moved_rows, with_first_row, AreMovableRows, IsMovableInterval};

use region_bands::{BandList, Interval, Rows};

fn moved(x: i32, by: i32) -> i32
    requires { FitsSigned w32 (x +ℤ by) }
    ensures { result ≡ x +ℤ by }
{
    x + by
}

fn moved_interval(interval: Interval, dx: i32) -> Interval
    requires { IsMovableInterval dx interval }
    ensures { result ≡ moved_interval dx interval }
{
    Interval {
        from: moved(interval.from, dx),
        to: moved(interval.to, dx),
    }
}

/// Returns `rows` moved down by `dy`.
pub(crate) fn moved_rows(rows: Rows, dy: i32) -> Rows
    requires { AreMovableRows dy rows }
    ensures { result ≡ moved_rows dy rows }
{
    Rows {
        top: moved(rows.top, dy),
        bottom: moved(rows.bottom, dy),
    }
}

/// Makes the row in the making of the intervals of the first band below the gap, `dx` columns further. Takes them out of that
/// band, and uses their room.
pub(crate) fn move_row(bands: &mut BandList, dx: i32)
    requires empty { bands.old.row ≡ [] }
    requires band { bands.old.below ≢ [] }
    requires left { bands.old.left ≡ first_row bands.old.below }
    requires movable { AllByRecursion (IsMovableInterval dx) (first_row bands.old.below) }
    ensures moved { bands.new ≡ record bands.old {
      row = map (moved_interval dx) (first_row bands.old.below);
      left = [];
      below = with_first_row [] bands.old.below;
      spare = bands.new.spare;
    } }
    ensures spare { bands.old.spare ≤ bands.new.spare }
{
    while let Some(interval) = bands.first_left() {
        bands.take_first_interval();
        bands.push_interval(moved_interval(interval, dx));
    }
}
