//! Sets of places as bands of rows: combined by one walk over both lists, from where they differ on; asked; and changed where they
//! stand.
//!
//! `strips` has one step of the walk, `gaps` moves the gap to where it begins, `counts` says how much room is enough for it, and
//! `merges` makes a list of its own of two. `queries` has what is asked, with `rows` for the walks over what is left of a row.
//! `edits` has the changes: `seams` joins the bands on both sides of the gap, `ends` takes an interval out at an end of the bands,
//! and `moves` moves one band.
#![tactic(auto)]

ghost use Rattle.std.specs.Prelude.{◌≡◌, ◌≢◌, ◌↔◌, ◌≤◌, ◌+◌, ◌||◌, ◌&&◌, ◌⊎◌, [], ◌∷◌, ◌++◌, List, length, IsTrue, Some, None};
ghost use Rattle.std.specs.Prelude.{true, false, ℤ, ◌<ℤ◌, ◌≤ℤ◌};
ghost use Rattle.std.specs.List.{last_or};
ghost use Rattle.std.specs.Option.{option_map};
ghost use Rattle.std.specs.Ordering.{int_eq};
ghost use Rattle.region_bands.specs.declared.Interval.{Interval};
ghost use Rattle.region_bands.specs.Bands.{Band, Bands, rows_of, first_row, nodes_in, reading};
ghost use Rattle.region_rows.specs.Rows.{IsRow, IsKept as IsRowKept, row_has, keeps_place};
ghost use Rattle.region_sets.specs.Sets.{AreBands, Counts, EndBy, IsKept, has, in_rows};
ghost use Rattle.region_sets.specs.Strips.{IsStripRow, FirstIs, NoneKept, Rests, first_rows_of, later, next_strip as strip_below};
ghost use Rattle.region_sets.specs.Room.{IsGap, IsRoom, IsWhole, GapMoved, Enough, HoldsStrip, start};

mod counts;
mod edits;
mod ends;
mod gaps;
mod merges;
mod moves;
mod queries;
mod rows;
mod seams;
mod strips;

pub use counts::count_room;
pub use edits::{copy_bands, offset, pop};
pub use gaps::move_gap;
pub use merges::merge_bands;
pub use queries::{Rectangle, bounds, contains, count_intervals, count_nodes, meets};
use region_bands::{BandList, Reader, Rows};
use region_rows::{Keep, copy_left, copy_other, count_row, make_row, same_kept, skip_row};
use strips::{Strip, bands_start, drop_ended, enter_strip, leave_strip, next_strip, pass_ended};

fn is_same(a: i32, b: i32) -> bool
    ensures { result ≡ int_eq a b }
{
    a == b
}

// Says whether there is a last band above the gap that ends at `y`.
fn last_ends_at(bands: &BandList, y: i32) -> bool
    ensures yes { result ≡ true → (front : List Band) × (last : Band) × (bands.now.above ≡ front ++ last ∷ []) × (last.bottom ≡ y) }
    ensures no { result ≡ false → (front : List Band) (last : Band) → bands.now.above ≡ front ++ last ∷ [] → last.bottom ≢ y }
{
    match bands.last_rows() {
        Some(rows) => is_same(rows.bottom, y),
        None => false,
    }
}

/// Adds the row in the making to the bands above the gap, in the rows `rows`, which stand below those bands. Leaves the row in
/// the making empty. A row that goes on the last band lengthens it, and a row without columns adds nothing.
pub fn add_row(bands: &mut BandList, rows: Rows)
    requires some { rows.top <ℤ rows.bottom }
    requires row { IsRow bands.old.row }
    requires are_bands { AreBands bands.old.above }
    requires ends { EndBy rows.top bands.old.above }
    requires room { bands.old.row ≢ [] → 2 ≤ bands.old.spare }
    ensures are_bands { AreBands bands.new.above }
    ensures ends { EndBy rows.bottom bands.new.above }
    ensures has { (x y : ℤ) → has bands.new.above x y ≡ (has bands.old.above x y || (in_rows rows y && row_has bands.old.row x)) }
    ensures same { bands.new ≡ record bands.old { above = bands.new.above; row = []; spare = bands.new.spare } }
    ensures spare { bands.old.spare + nodes_in bands.old.above + length bands.old.row ≤ bands.new.spare + nodes_in bands.new.above }
{
    if bands.row_is_empty() {
        return;
    }
    if last_ends_at(bands, rows.top) && bands.row_is_as_last() {
        bands.stretch(rows.bottom);
        bands.drop_row();
    } else {
        bands.put_row(rows);
    }
}

/// Makes the row in the making: the columns that `keep` keeps of a strip of rows, which is in the first band below the gap, in
/// the reader's first band, in both or in neither. What is left of their rows may be read then.
fn make_strip(bands: &mut BandList, other: &mut Reader, keep: Keep, in_first: bool, in_second: bool)
    requires empty { bands.old.row ≡ [] }
    requires first_row { IsRow bands.old.left }
    requires second_row { IsRow other.old.left }
    requires room { (row : List Interval) → IsStripRow keep in_first in_second bands.old.left other.old.left row →
        length row ≤ bands.old.spare }
    ensures kept { IsStripRow keep in_first in_second bands.old.left other.old.left bands.new.row }
    ensures spare { bands.old.spare ≤ bands.new.spare + length bands.new.row }
    ensures same { bands.new ≡ record bands.old { row = bands.new.row; left = bands.new.left; spare = bands.new.spare } }
    ensures read { other.new ≡ record other.old { left = other.new.left } }
{
    if in_first && in_second {
        make_row(bands, other, keep);
    } else if in_first {
        if keep.keeps(true, false) {
            copy_left(bands);
        }
    } else if in_second {
        if keep.keeps(false, true) {
            copy_other(bands, other);
        }
    }
}

/// Adds what `keep` keeps of a strip of rows to the bands above the gap, below which it stands. Both first bands are then to be
/// read from their first intervals again.
fn keep_strip(
    bands: &mut BandList,
    other: &mut Reader,
    keep: Keep,
    rows: Rows,
    in_first: bool,
    in_second: bool,
)
    requires empty { bands.old.row ≡ [] }
    requires first_row { IsRow bands.old.left }
    requires second_row { IsRow other.old.left }
    requires some { rows.top <ℤ rows.bottom }
    requires are_bands { AreBands bands.old.above }
    requires ends { EndBy rows.top bands.old.above }
    requires room { (row : List Interval) → IsStripRow keep in_first in_second bands.old.left other.old.left row → row ≢ [] →
        2 + length row ≤ bands.old.spare }
    ensures are_bands { AreBands bands.new.above }
    ensures ends { EndBy rows.bottom bands.new.above }
    ensures has { (x y : ℤ) → has bands.new.above x y ≡
        (has bands.old.above x y ||
        (in_rows rows y && keeps_place keep (in_first && row_has bands.old.left x) (in_second && row_has other.old.left x))) }
    ensures spare { bands.old.spare + nodes_in bands.old.above ≤ bands.new.spare + nodes_in bands.new.above }
    ensures same { bands.new ≡ record bands.old
        { above = bands.new.above; left = first_row bands.old.below; spare = bands.new.spare } }
    ensures read { other.new ≡ reading other.old.bands }
{
    make_strip(bands, other, keep, in_first, in_second);
    add_row(bands, rows);
    bands.reread();
    other.reread();
}

// Says whether the first band below the gap goes on the last band above it: they touch, and have the same intervals.
fn first_goes_on(bands: &BandList) -> bool
    ensures yes { result ≡ true → (front : List Band) × (last : Band) × (first : Band) × (rest : List Band) ×
        (bands.now.above ≡ front ++ last ∷ []) × (bands.now.below ≡ first ∷ rest) × (last.bottom ≡ first.top) ×
        (last.row ≡ first.row) }
    ensures no { result ≡ false → (front : List Band) (last first : Band) (rest : List Band) →
        bands.now.above ≡ front ++ last ∷ [] → bands.now.below ≡ first ∷ rest → last.bottom ≡ first.top → last.row ≢ first.row }
{
    match bands.first_rows() {
        Some(rows) => last_ends_at(bands, rows.top) && bands.first_is_as_last(),
        None => false,
    }
}

// Keeps the first band below the gap, which has the rows `rows`, or removes it. The reader has nothing of its rows. A band that
// is kept stays where it is, or lengthens the last band above the gap.
fn keep_first(bands: &mut BandList, keep: Keep, rows: Rows)
    requires first { FirstIs rows bands.old.below }
    requires first_left { bands.old.left ≡ first_row bands.old.below }
    requires below { AreBands bands.old.below }
    requires are_bands { AreBands bands.old.above }
    requires ends { EndBy rows.top bands.old.above }
    ensures are_bands { AreBands bands.new.above }
    ensures ends { EndBy rows.bottom bands.new.above }
    ensures has { (x y : ℤ) → has bands.new.above x y ≡
        (has bands.old.above x y || (in_rows rows y && keeps_place keep (row_has bands.old.left x) false)) }
    ensures spare { bands.old.spare + nodes_in bands.old.above + nodes_in bands.old.below ≤
        bands.new.spare + nodes_in bands.new.above + nodes_in bands.new.below }
    ensures same { bands.new ≡ record bands.old {
      above = bands.new.above;
      left = first_row (later rows.bottom bands.old.below);
      below = later rows.bottom bands.old.below;
      spare = bands.new.spare;
    } }
{
    if !keep.keeps(true, false) {
        bands.remove_first();
    } else if first_goes_on(bands) {
        bands.stretch(rows.bottom);
        bands.remove_first();
    } else {
        bands.advance();
    }
}

fn are_same(a: Rows, b: Rows) -> bool
    ensures { IsTrue result ↔ (a ≡ b) }
{
    a.top == b.top && a.bottom == b.bottom
}

// Says whether the rows of a strip are the whole first band, and nothing of the other list is in them.
pub(crate) fn is_whole(first: Option<Rows>, rows: Rows, in_first: bool, in_second: bool) -> bool
    ensures { IsTrue result ↔ ((in_first ≡ true) × (in_second ≡ false) × (first ≡ Some rows)) }
{
    match first {
        Some(band) => in_first && !in_second && are_same(band, rows),
        None => false,
    }
}

// Adds what `keep` keeps of the rows of a strip to the bands above the gap. If they are the whole first band below the gap, and
// nothing of the reader's first band, doesn't make that band again.
fn keep_next(
    bands: &mut BandList,
    other: &mut Reader,
    keep: Keep,
    rows: Rows,
    in_first: bool,
    in_second: bool,
)
    requires empty { bands.old.row ≡ [] }
    requires below { AreBands bands.old.below }
    requires others { AreBands other.old.bands }
    requires first_left { bands.old.left ≡ first_row bands.old.below }
    requires second_left { other.old.left ≡ first_row other.old.bands }
    requires some { rows.top <ℤ rows.bottom }
    requires are_bands { AreBands bands.old.above }
    requires ends { EndBy rows.top bands.old.above }
    requires room { HoldsStrip keep in_first in_second rows bands.old.below bands.old.left other.old.left bands.old.spare }
    ensures are_bands { AreBands bands.new.above }
    ensures ends { EndBy rows.bottom bands.new.above }
    ensures has { (x y : ℤ) → has bands.new.above x y ≡
        (has bands.old.above x y ||
        (in_rows rows y && keeps_place keep (in_first && row_has bands.old.left x) (in_second && row_has other.old.left x))) }
    ensures spare { bands.old.spare + nodes_in bands.old.above + nodes_in bands.old.below ≤
        bands.new.spare + nodes_in bands.new.above + nodes_in bands.new.below }
    ensures same { bands.new ≡ record bands.old {
      above = bands.new.above;
      left = first_row (later rows.bottom bands.old.below);
      below = later rows.bottom bands.old.below;
      spare = bands.new.spare;
    } }
    ensures read { other.new ≡ reading other.old.bands }
{
    if is_whole(bands.first_rows(), rows, in_first, in_second) {
        keep_first(bands, keep, rows);
    } else {
        keep_strip(bands, other, keep, rows, in_first, in_second);
        drop_ended(bands, rows.bottom);
    }
}

// Says whether the first band below the gap would stay where it is: `keep` keeps the places of the first alone, and the band
// doesn't go on the last band above the gap.
fn first_stays(bands: &BandList, keep: Keep) -> bool
    ensures kept { result ≡ true → keeps_place keep true false ≡ true }
    ensures apart { result ≡ true → (front : List Band) (last first : Band) (rest : List Band) →
        bands.now.above ≡ front ++ last ∷ [] → bands.now.below ≡ first ∷ rest → last.bottom ≡ first.top → last.row ≢ first.row }
{
    keep.keeps(true, false) && !first_goes_on(bands)
}

fn is_by(a: i32, b: i32) -> bool
    ensures { result ≡ true → a ≤ℤ b }
{
    a <= b
}

// Says whether the bands below the gap stay as they are from `y` on: the reader has ended, nothing of the first band is above
// `y`, and it stays; or there are none, and nothing is kept of the reader's.
fn rest_stays(bands: &BandList, other: &Reader, keep: Keep, y: i32) -> bool
    ensures { result ≡ true → Rests keep y bands.now.above bands.now.below other.now.bands ⊎ NoneKept keep bands.now.below }
{
    match (bands.first_rows(), other.first_rows()) {
        (Some(rows), None) => is_by(y, rows.top) && first_stays(bands, keep),
        (None, Some(_)) => !keep.keeps(false, true),
        _ => false,
    }
}

// Returns the strip from `y` on that is to be kept next; `None` if the bands below the gap stay as they are.
fn strip_to_keep(bands: &BandList, other: &Reader, keep: Keep, y: i32) -> Option<Strip>
    ensures some { (strip : Strip) → result ≡ Some strip →
        strip_below y (first_rows_of bands.now.below) (first_rows_of other.now.bands) ≡ Some strip }
    ensures none { result ≡ None → Rests keep y bands.now.above bands.now.below other.now.bands ⊎ NoneKept keep bands.now.below }
{
    if rest_stays(bands, other, keep, y) {
        None
    } else {
        next_strip(bands.first_rows(), other.first_rows(), y)
    }
}

/// Makes the bands of the places that `keep` keeps of the bands and of those that the reader still has to read, from the gap
/// on. A band that the reader's bands don't reach, and whose places are kept, stays where it is; the gap is then below what
/// changed.
pub fn keep_bands(bands: &mut BandList, other: &mut Reader, keep: Keep)
    requires gap { IsGap keep bands.old.above other.old.bands }
    requires empty { bands.old.row ≡ [] }
    requires first { AreBands (bands.old.above ++ bands.old.below) }
    requires second { AreBands other.old.bands }
    requires first_left { bands.old.left ≡ first_row bands.old.below }
    requires second_left { other.old.left ≡ first_row other.old.bands }
    requires room { IsRoom keep bands.old.above bands.old.below other.old.bands bands.old.spare }
    ensures kept { IsKept keep (bands.old.above ++ bands.old.below) other.old.bands (bands.new.above ++ bands.new.below) }
    ensures row { bands.new.row ≡ [] }
    ensures spare { bands.old.spare + nodes_in (bands.old.above ++ bands.old.below) ≤
        bands.new.spare + nodes_in (bands.new.above ++ bands.new.below) }
{
    let mut top = bands_start(bands.first_rows(), other.first_rows());
    while let Some(strip) = strip_to_keep(bands, other, keep, top) {
        let rows = Rows {
            top,
            bottom: strip.bottom,
        };
        keep_next(bands, other, keep, rows, strip.in_first, strip.in_second);
        pass_ended(other, strip.bottom);
        top = strip.bottom;
    }
}

// Counts the nodes that a strip's row takes, which is kept of what is left of two readers' first bands, behind that of the
// strip above it: none if it has no columns, or goes on that one. Reads the readers above as far as it takes.
fn count_strip(
    above_first: &mut Reader,
    above_second: &mut Reader,
    first: &Reader,
    second: &Reader,
    keep: Keep,
) -> usize
    requires above_first { IsRow above_first.old.left }
    requires above_second { IsRow above_second.old.left }
    requires first { IsRow first.now.left }
    requires second { IsRow second.now.left }
    ensures count { (above row : List Interval) → IsRowKept keep above_first.old.left above_second.old.left above →
        IsRowKept keep first.now.left second.now.left row → Counts above row result }
    ensures few { result ≤ 2147483650 }
{
    let mut counted_first = first.again();
    let mut counted_second = second.again();
    let length = count_row(&mut counted_first, &mut counted_second, keep);
    if length == 0 {
        return 0;
    }
    let mut below_first = first.again();
    let mut below_second = second.again();
    let goes_on = same_kept(
        above_first,
        above_second,
        &mut below_first,
        &mut below_second,
        keep,
    );
    if goes_on { 0 } else { length + 2 }
}

/// Counts the nodes that the bands take that `keep_bands` would make of the bands that both readers still have to read. Takes
/// no memory.
pub fn count_kept(first: &mut Reader, second: &mut Reader, keep: Keep) -> usize
    requires first { AreBands first.old.bands }
    requires second { AreBands second.old.bands }
    requires first_left { first.old.left ≡ first_row first.old.bands }
    requires second_left { second.old.left ≡ first_row second.old.bands }
    ensures count { (bands : List Band) → IsKept keep first.old.bands second.old.bands bands → result ≡ nodes_in bands }
{
    let mut above_first = first.again();
    let mut above_second = second.again();
    skip_row(&mut above_first);
    skip_row(&mut above_second);
    let mut top = bands_start(first.first_rows(), second.first_rows());
    let mut count = 0;
    while let Some(strip) = next_strip(first.first_rows(), second.first_rows(), top) {
        enter_strip(first, strip.in_first);
        enter_strip(second, strip.in_second);
        count += count_strip(&mut above_first, &mut above_second, first, second, keep);
        above_first = first.again();
        above_second = second.again();
        leave_strip(first, strip.bottom);
        leave_strip(second, strip.bottom);
        top = strip.bottom;
    }
    count
}
