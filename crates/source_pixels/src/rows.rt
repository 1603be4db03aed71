//! The colours of a row's pixels beside those of a row of a picture.

ghost use Rattle.std.specs.Prelude.{◌≡◌, ◌≢◌, ◌+◌, ◌≤◌, ◌-◌, ◌<◌, ◌^◌, ◌↔◌, IsTrue, length, map, slice_index, IfSome, MatchOption};
ghost use Rattle.source_pixels.specs.Rows.{AreSame, IsDifference, difference_count};
ghost use Rattle.source_pixels.specs.RowLemmas.{with_block};

use crate::colours::Colours;

/// How many places are compared at once: a loop over so many goes by vectors, without a branch, and where one differs, few others are
/// looked at again.
const BLOCK: usize = 64;

/// Where a row differs from a row of a picture: the columns from the first to behind the last of the places that differ, and how
/// many places differ.
#[derive(Clone, Copy)]
pub struct RowDifference {
    pub from: usize,
    pub to: usize,
    pub places: usize,
}

/// Returns whether the pixels' colours are a row's. No place ends the loop, so that it goes by vectors.
fn are_same<P: Copy, C: Colours<P>>(colours: &C, pixels: &[P], row: &[u32]) -> bool
    requires { length row.now ≤ length pixels.now }
    ensures { IsTrue result ↔ AreSame (map (C.colour_of colours.now) pixels.now) row.now 0 (length row.now) }
{
    let mut other = 0;
    for x in 0..row.len() {
        other |= colours.colour(pixels[x]) ^ row[x];
    }
    other == 0
}

/// Counts the places in which the pixels' colours differ from a row's.
fn count_differences<P: Copy, C: Colours<P>>(colours: &C, pixels: &[P], row: &[u32]) -> usize
    requires { length row.now ≤ length pixels.now }
    ensures { result ≡ difference_count (map (C.colour_of colours.now) pixels.now) row.now (length row.now) }
{
    let mut places = 0;
    for x in 0..row.len() {
        if colours.colour(pixels[x]) != row[x] {
            places += 1;
        }
    }
    places
}

/// Returns the first column whose colours differ, or the row's length.
fn first_difference<P: Copy, C: Colours<P>>(colours: &C, pixels: &[P], row: &[u32]) -> usize
    requires { length row.now ≤ length pixels.now }
    ensures within { result ≤ length row.now }
    ensures before { AreSame (map (C.colour_of colours.now) pixels.now) row.now 0 result }
    ensures found { result < length row.now → slice_index (map (C.colour_of colours.now) pixels.now) result ≢ slice_index row.now result }
{
    for x in 0..row.len() {
        if colours.colour(pixels[x]) != row[x] {
            return x;
        }
    }
    row.len()
}

/// Returns the column behind the last whose colours differ, or 0.
fn end_of_differences<P: Copy, C: Colours<P>>(colours: &C, pixels: &[P], row: &[u32]) -> usize
    requires { length row.now ≤ length pixels.now }
    ensures within { result ≤ length row.now }
    ensures behind { AreSame (map (C.colour_of colours.now) pixels.now) row.now result (length row.now) }
    ensures found { 0 < result → slice_index (map (C.colour_of colours.now) pixels.now) (result - 1) ≢ slice_index row.now (result - 1) }
{
    for x in (0..row.len()).rev() {
        if colours.colour(pixels[x]) != row[x] {
            return x + 1;
        }
    }
    0
}

/// Returns where the pixels' colours differ from a row's, if they do: of a block, or of what is left behind the last.
fn compare_block<P: Copy, C: Colours<P>>(
    colours: &C,
    pixels: &[P],
    row: &[u32],
) -> Option<RowDifference>
    requires { length row.now ≤ length pixels.now }
    ensures { MatchOption result (AreSame (map (C.colour_of colours.now) pixels.now) row.now 0 (length row.now))
        (λ d. IsDifference (map (C.colour_of colours.now) pixels.now) row.now d) }
{
    let places = count_differences(colours, pixels, row);
    if places == 0 {
        return None;
    }
    Some(RowDifference {
        from: first_difference(colours, pixels, row),
        to: end_of_differences(colours, pixels, row),
        places,
    })
}

/// Joins where a row differs in its columns to below one with where it does in the block from that one on.
fn with_block(
    so_far: Option<RowDifference>,
    from: usize,
    block: Option<RowDifference>,
) -> Option<RowDifference>
    requires inside { IfSome block (λ d. (d.from < d.to) × (from + d.to < 2 ^ 64)) }
    requires few { IfSome so_far (λ before. IfSome block (λ d. before.places + d.places < 2 ^ 64)) }
    ensures { result ≡ with_block so_far from block }
{
    let Some(block) = block else {
        return so_far;
    };
    Some(match so_far {
        None => RowDifference {
            from: from + block.from,
            to: from + block.to,
            places: block.places,
        },
        Some(before) => RowDifference {
            from: before.from,
            to: from + block.to,
            places: before.places + block.places,
        },
    })
}

/// Returns where the pixels' colours differ from a row's, if they do. Looks again only at a block that differs.
pub(crate) fn compare<P: Copy, C: Colours<P>>(
    colours: &C,
    pixels: &[P],
    row: &[u32],
) -> Option<RowDifference>
    requires { length row.now ≤ length pixels.now }
    ensures { MatchOption result (AreSame (map (C.colour_of colours.now) pixels.now) row.now 0 (length row.now))
        (λ d. IsDifference (map (C.colour_of colours.now) pixels.now) row.now d) }
{
    let mut difference = None;
    let blocks = row.len() / BLOCK;
    for block in 0..blocks {
        let from = block * BLOCK;
        let to = from + BLOCK;
        if !are_same(colours, &pixels[from..to], &row[from..to]) {
            let found = compare_block(colours, &pixels[from..to], &row[from..to]);
            difference = with_block(difference, from, found);
        }
    }
    let from = blocks * BLOCK;
    let to = row.len();
    let rest = compare_block(colours, &pixels[from..to], &row[from..to]);
    with_block(difference, from, rest)
}

/// Writes the colours of pixels, of which there are as many as places.
pub(crate) fn write_colours<P: Copy, C: Colours<P>>(colours: &C, pixels: &[P], places: &mut [u32])
    requires { length places.old ≡ length pixels.now }
    ensures { places.new ≡ map (C.colour_of colours.now) pixels.now }
{
    for x in 0..places.len() {
        places[x] = colours.colour(pixels[x]);
    }
}
