//! How much room is enough for what is kept of two lists of bands.

ghost use Rattle.std.specs.Prelude.{◌≡◌, ◌≤◌};
ghost use Rattle.region_bands.specs.Bands.{first_row};
ghost use Rattle.region_rows.specs.Rows.{IsRow};
ghost use Rattle.region_sets.specs.Sets.{AreBands};
ghost use Rattle.region_sets.specs.Room.{is_over, keeps_nothing, start, strip_to_count, Enough, HoldsStrip};

use crate::is_whole;
use crate::strips::{Strip, bands_start, enter_strip, leave_strip, next_strip};
use region_bands::{Reader, Rows};
use region_rows::{Keep, count_row};

fn is_over(keep: Keep, first: Option<Rows>, second: Option<Rows>, y: i32) -> bool
    ensures { result ≡ is_over keep y first second }
{
    match (first, second) {
        (Some(rows), None) => y <= rows.top,
        (None, None) => true,
        (None, Some(_)) => !keep.keeps(false, true),
        (Some(_), Some(_)) => false,
    }
}

// Returns the strip from `y` on for which there is to be room; `None` if nothing is left that is made.
fn strip_to_count(keep: Keep, first: Option<Rows>, second: Option<Rows>, y: i32) -> Option<Strip>
    ensures { result ≡ strip_to_count keep y first second }
{
    if is_over(keep, first, second, y) {
        None
    } else {
        next_strip(first, second, y)
    }
}

// Says whether nothing is kept of a strip, which is not in bands of both lists.
fn keeps_nothing(keep: Keep, in_first: bool, in_second: bool) -> bool
    ensures { result ≡ keeps_nothing keep in_first in_second }
{
    !(in_first && in_second) && !keep.keeps(in_first, in_second)
}

// Returns how much room is enough for what `keep` keeps of a strip of rows.
fn count_strip_room(
    first: &Reader,
    second: &Reader,
    keep: Keep,
    rows: Rows,
    in_first: bool,
    in_second: bool,
) -> usize
    requires first_row { IsRow first.now.left }
    requires second_row { IsRow second.now.left }
    ensures room { HoldsStrip keep in_first in_second rows first.now.bands first.now.left second.now.left result }
    ensures few { result ≤ 2147483650 }
{
    if keeps_nothing(keep, in_first, in_second) {
        return 0;
    }
    if is_whole(first.first_rows(), rows, in_first, in_second) {
        return 0;
    }
    let mut counted_first = first.again();
    let mut counted_second = second.again();
    enter_strip(&mut counted_first, in_first);
    enter_strip(&mut counted_second, in_second);
    count_row(&mut counted_first, &mut counted_second, keep) + 2
}

/// Returns how much room is enough for `keep_bands` with the bands that both readers still have to read: the first's are those
/// below the gap. Reads nothing behind the place from which on nothing is made. Takes no memory.
pub fn count_room(first: &mut Reader, second: &mut Reader, keep: Keep) -> usize
    requires first { AreBands first.old.bands }
    requires second { AreBands second.old.bands }
    requires first_left { first.old.left ≡ first_row first.old.bands }
    requires second_left { second.old.left ≡ first_row second.old.bands }
    ensures { Enough keep (start first.old.bands second.old.bands) first.old.bands second.old.bands result }
{
    let mut top = bands_start(first.first_rows(), second.first_rows());
    let mut count = 0;
    while let Some(strip) = strip_to_count(keep, first.first_rows(), second.first_rows(), top) {
        let rows = Rows {
            top,
            bottom: strip.bottom,
        };
        count += count_strip_room(first, second, keep, rows, strip.in_first, strip.in_second);
        leave_strip(first, strip.bottom);
        leave_strip(second, strip.bottom);
        top = strip.bottom;
    }
    count
}
