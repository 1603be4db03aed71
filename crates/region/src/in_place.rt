//! The bands of regions in linked spans: made of a rectangle, copied, and changed where they stand.

ghost use Rattle.std.specs.Prelude.{◌≡◌, ◌≤◌, ◌+◌, ◌++◌, ◌∷◌, [], List, IfOk, OnOk, OnErr};
ghost use Rattle.region_bands.specs.Bands.{Band, first_row, nothing, nodes_in};
ghost use Rattle.region_sets.specs.Sets.{AreBands, IsKept};
ghost use Rattle.region_sets.specs.Room.{start, Enough, IsGap};
ghost use Rattle.region.specs.Rects.{band_of};
ghost use Rattle.region.specs.Forms.{HasPlaces, IsPlain, plain_bands};

use crate::Rect;
use crate::stacking::{columns_of, rows_of};
use region_bands::{BandList, Reader};
use region_rows::Keep;
use region_sets::{count_room, keep_bands, move_gap};
use std::alloc::{AllocError, Global};

// Makes the band of `rect`, which has places.
fn band_of_rect(alloc: Global, rect: Rect) -> Result<BandList, AllocError>
    ensures { IfOk result (λ bands. bands ≡ record nothing { above = band_of rect ∷ []; spare = bands.spare }) }
{
    let mut bands = BandList::new(alloc);
    bands.reserve(3)?;
    bands.push_interval(columns_of(rect));
    bands.put_row(rows_of(rect));
    Ok(bands)
}

/// Makes the band of `rect`, or none, in linked spans.
pub(crate) fn bands_of_plain(alloc: Global, rect: Option<Rect>) -> Result<BandList, AllocError>
    ensures { IfOk result (λ bands. bands ≡ record nothing { above = plain_bands rect; spare = bands.spare }) }
{
    match rect {
        Some(rect) => band_of_rect(alloc, rect),
        None => Ok(BandList::new(alloc)),
    }
}

/// Makes the bands of the places that `keep` keeps of the bands and of those of `other`, in room that is there.
pub(crate) fn put_kept(bands: &mut BandList, other: &mut Reader, keep: Keep)
    requires first { AreBands (bands.old.above ++ bands.old.below) }
    requires second { AreBands other.old.bands }
    requires second_left { other.old.left ≡ first_row other.old.bands }
    requires empty { bands.old.row ≡ [] }
    requires room { (result : List Band) →
        IsKept keep (bands.old.above ++ bands.old.below) other.old.bands result →
        nodes_in result + nodes_in result ≤ bands.old.spare }
    ensures kept { IsKept keep (bands.old.above ++ bands.old.below) other.old.bands
        (bands.new.above ++ bands.new.below) }
    ensures row { bands.new.row ≡ [] }
{
    move_gap(bands, other, keep);
    keep_bands(bands, other, keep);
}

// Moves the gap to where `keep_bands` may begin, and makes room for it. Changes no band, even if the room is refused.
fn make_room(bands: &mut BandList, other: &Reader, keep: Keep) -> Result<(), AllocError>
    requires first { AreBands (bands.old.above ++ bands.old.below) }
    requires second { AreBands other.now.bands }
    requires second_left { other.now.left ≡ first_row other.now.bands }
    ensures gap { IsGap keep bands.new.above other.now.bands }
    ensures left { bands.new.left ≡ first_row bands.new.below }
    ensures ok { OnOk result (Enough keep (start bands.new.below other.now.bands) bands.new.below other.now.bands bands.new.spare) }
    ensures kept { bands.old.spare ≤ bands.new.spare }
    ensures same { bands.new.above ++ bands.new.below ≡ bands.old.above ++ bands.old.below }
    ensures row { bands.new.row ≡ bands.old.row }
{
    move_gap(bands, other, keep);
    let room = count_room(&mut bands.reader_below(), &mut other.again(), keep);
    bands.reserve(room)
}

/// Leaves what `keep` keeps of the bands and of those of `other`, in the room that is there and in more that it makes first.
/// After an `AllocError` the bands are as they were, but for more room.
pub(crate) fn keep_where_they_stand(
    bands: &mut BandList,
    other: &mut Reader,
    keep: Keep,
) -> Result<(), AllocError>
    requires first { AreBands (bands.old.above ++ bands.old.below) }
    requires second { AreBands other.old.bands }
    requires second_left { other.old.left ≡ first_row other.old.bands }
    requires empty { bands.old.row ≡ [] }
    ensures kept { OnOk result (IsKept keep (bands.old.above ++ bands.old.below) other.old.bands (bands.new.above ++ bands.new.below)) }
    ensures err { OnErr result ((bands.new.above ++ bands.new.below ≡ bands.old.above ++ bands.old.below) ×
        (bands.old.spare ≤ bands.new.spare)) }
    ensures row { bands.new.row ≡ [] }
{
    make_room(bands, other, keep)?;
    keep_bands(bands, other, keep);
    Ok(())
}

/// Copies `bands` into no more room than they take.
pub(crate) fn packed(alloc: Global, bands: &BandList) -> Result<BandList, AllocError>
    requires { AreBands (bands.now.above ++ bands.now.below) }
    ensures bands { IfOk result (λ copy. copy.above ++ copy.below ≡ bands.now.above ++ bands.now.below) }
    ensures row { IfOk result (λ copy. copy.row ≡ []) }
{
    let mut copy = BandList::new(alloc);
    copy.reserve(region_sets::count_nodes(&mut bands.reader()))?;
    region_sets::copy_bands(&mut copy, &mut bands.reader());
    Ok(copy)
}
