//! What is kept of two lists of bands, made beside them and not in the place of one.

ghost use Rattle.std.specs.Prelude.{◌≡◌, ◌||◌, ◌&&◌, ◌<ℤ◌, [], ℤ, OnOk};
ghost use Rattle.region_bands.specs.Bands.{first_row, nothing};
ghost use Rattle.region_rows.specs.Rows.{IsRow, row_has, keeps_place};
ghost use Rattle.region_sets.specs.Sets.{AreBands, EndBy, IsKept, has, in_rows};

use crate::add_row;
use crate::strips::{bands_start, enter_strip, leave_strip, next_strip};
use region_bands::{BandList, Reader, Rows};
use region_rows::{Keep, merge_row};
use std::alloc::AllocError;

// Adds to the bands above the gap, below which `rows` stand, what `keep` keeps of what is left of the two readers' first bands.
fn merge_strip(
    bands: &mut BandList,
    first: &mut Reader,
    second: &mut Reader,
    keep: Keep,
    rows: Rows,
) -> Result<(), AllocError>
    requires empty { bands.old.row ≡ [] }
    requires first_row { IsRow first.old.left }
    requires second_row { IsRow second.old.left }
    requires some { rows.top <ℤ rows.bottom }
    requires are_bands { AreBands bands.old.above }
    requires ends { EndBy rows.top bands.old.above }
    ensures are_bands { OnOk result (AreBands bands.new.above) }
    ensures ends { OnOk result (EndBy rows.bottom bands.new.above) }
    ensures has { OnOk result ((x y : ℤ) →
        has bands.new.above x y ≡
        (has bands.old.above x y || (in_rows rows y && keeps_place keep (row_has first.old.left x) (row_has second.old.left x)))) }
    ensures same { OnOk result (bands.new ≡ record bands.old { above = bands.new.above; spare = bands.new.spare }) }
    ensures first_read { OnOk result (first.new ≡ record first.old { left = [] }) }
    ensures second_read { OnOk result (second.new ≡ record second.old { left = [] }) }
{
    merge_row(bands, first, second, keep)?;
    bands.reserve(2)?;
    add_row(bands, rows);
    Ok(())
}

/// Makes the bands of the places that `keep` keeps of those that both readers still have to read, in a list that has none.
/// Makes the room as the bands come. Promises nothing of the list after an `AllocError`: it is of no more use.
pub fn merge_bands(
    bands: &mut BandList,
    first: &mut Reader,
    second: &mut Reader,
    keep: Keep,
) -> Result<(), AllocError>
    requires bands { bands.old ≡ nothing }
    requires first { AreBands first.old.bands }
    requires second { AreBands second.old.bands }
    requires first_left { first.old.left ≡ first_row first.old.bands }
    requires second_left { second.old.left ≡ first_row second.old.bands }
    ensures kept { OnOk result (IsKept keep first.old.bands second.old.bands bands.new.above) }
    ensures same { OnOk result (bands.new ≡ record nothing { above = bands.new.above; spare = bands.new.spare }) }
{
    let mut top = bands_start(first.first_rows(), second.first_rows());
    while let Some(strip) = next_strip(first.first_rows(), second.first_rows(), top) {
        let rows = Rows {
            top,
            bottom: strip.bottom,
        };
        enter_strip(first, strip.in_first);
        enter_strip(second, strip.in_second);
        merge_strip(bands, first, second, keep, rows)?;
        leave_strip(first, strip.bottom);
        leave_strip(second, strip.bottom);
        top = strip.bottom;
    }
    Ok(())
}
