//! The bands on both sides of the gap, where they touch.

ghost use Rattle.std.specs.Prelude.{◌≡◌, ◌≤◌, ◌++◌, ◌∷◌, [], List, slice_get, ℤ};
ghost use Rattle.std.specs.List.{last_or};
ghost use Rattle.std.specs.Option.{option_map};
ghost use Rattle.region_bands.specs.Bands.{Band, rows_of};
ghost use Rattle.region_sets.specs.Sets.{AreBands, has};
ghost use Rattle.region_sets.specs.Seams.{StandAbove, touch};

use region_bands::{BandList, Rows};

// Says whether both are there, and the first ends where the second begins.
fn touch(above: Option<Rows>, below: Option<Rows>) -> bool
    ensures { result ≡ touch above below }
{
    match (above, below) {
        (Some(a), Some(b)) => a.bottom == b.top,
        (Some(_), None) => false,
        (None, _) => false,
    }
}

/// Joins the last band above the gap and the first below it if they touch and have the same row.
pub fn join_seam(bands: &mut BandList)
    requires above { AreBands bands.old.above }
    requires below { AreBands bands.old.below }
    requires order { StandAbove bands.old.above bands.old.below }
    ensures are_bands { AreBands (bands.new.above ++ bands.new.below) }
    ensures has { (x y : ℤ) → has (bands.new.above ++ bands.new.below) x y ≡ has (bands.old.above ++ bands.old.below) x y }
    ensures row { bands.new.row ≡ bands.old.row }
    ensures spare { bands.old.spare ≤ bands.new.spare }
{
    let below = bands.first_rows();
    if touch(bands.last_rows(), below) && bands.first_is_as_last() {
        if let Some(rows) = below {
            bands.stretch(rows.bottom);
            bands.remove_first();
        }
    }
}
