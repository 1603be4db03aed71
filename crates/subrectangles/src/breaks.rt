//! A quick test for rectangles with too many subrectangles, whatever their background is.
//!
//! A place whose pixel differs from the one before it and from the one above it begins a
//! subrectangle, unless its pixel is the background. In one row no two places of the background are
//! such places and stand side by side, so at most half of a row's places are left out. Where that is
//! too many, such places are counted by their pixels.

ghost use Rattle.std.specs.Prelude.{◌≡◌, ℕ, ◌+◌, ◌*◌, ◌^◌, ◌<◌, ◌≤◌, true, length, slice_index, IfOk};
ghost use Rattle.subrectangles.specs.Breaks.{breaks, breaks_like};
ghost use Rattle.subrectangles.specs.Subrectangles.{subrectangles};
ghost use Rattle.subrectangles.specs.Pixels.{pixel_lines};

use crate::translated::Pixels;
use std::alloc::{AllocError, Global};

/// Returns how many places of `row` differ from the one before them and from the one in `above`. Has no branch in its loop, so that
/// one step looks at many places.
fn breaks_in(row: &[u32], above: &[u32]) -> usize
    requires wide { length above.now ≡ length row.now }
    requires columns { length row.now < 2 ^ 16 }
    ensures { result ≡ breaks row.now above.now (length row.now) }
{
    let mut count = 0u32;
    for x in 1..row.len() {
        let here = row[x];
        let begins = (row[x - 1] != here) & (above[x] != here);
        count += u32::from(begins);
    }
    count as usize
}

/// Counts such places of `row` in `buckets`, by their pixel modulo 251, and returns how many there are.
fn add_breaks(buckets: &mut [usize; 251], row: &[u32], above: &[u32]) -> usize
    requires wide { length above.now ≡ length row.now }
    requires columns { length row.now < 2 ^ 16 }
    requires room { (k : ℕ) → k < 251 → slice_index buckets.old k < 2 ^ 40 }
    ensures count { result ≡ breaks row.now above.now (length row.now) }
    ensures each { (k : ℕ) → k < 251 →
        slice_index buckets.new k ≡ slice_index buckets.old k + breaks_like k row.now above.now (length row.now) }
{
    let mut count = 0usize;
    for x in 1..row.len() {
        let here = row[x];
        let begins = usize::from((row[x - 1] != here) & (above[x] != here));
        buckets[(here % 251) as usize] += begins;
        count += begins;
    }
    count
}

/// Returns the greatest number of `buckets`.
fn most_of(buckets: &[usize; 251]) -> usize
    ensures { (k : ℕ) → k < 251 → slice_index buckets.now k ≤ result }
{
    let mut most = 0;
    for count in buckets {
        most = most.max(*count);
    }
    most
}

/// Says whether more than `limit` such places are left without as many as the fullest bucket has: at most so many have the
/// background's pixel.
fn has_too_many_kinds(alloc: Global, pixels: &Pixels, limit: usize) -> Result<bool, AllocError>
    ensures { IfOk result (λ many. many ≡ true → (b : ℕ) → limit < length (subrectangles b (pixel_lines pixels.now))) }
{
    let mut rows = pixels.first_rows(alloc)?;
    let mut buckets = [0usize; 251];
    let mut count = 0;
    for y in 1..pixels.colours.height {
        pixels.go_on(&mut rows, y);
        let row = pixels.row(y, &rows.row);
        let above = pixels.row(y - 1, &rows.above);
        count += add_breaks(&mut buckets, row, above);
    }
    Ok(limit < count.saturating_sub(most_of(&buckets)))
}

/// Guesses whether there may be enough such places to be too many: there are few rows, or the rows that it looks at, one in 16,
/// have together more than half as many as would be too many there. It is only a guess.
fn may_have_too_many(alloc: Global, pixels: &Pixels, limit: usize) -> Result<bool, AllocError> {
    if pixels.colours.height < 64 {
        return Ok(true);
    }
    let mut rows = pixels.first_rows(alloc)?;
    let mut count = 0usize;
    for k in 0..pixels.colours.height / 16 {
        let y = 16 * k + 1 + k % 15;
        pixels.go_to(&mut rows, y);
        let row = pixels.row(y, &rows.row);
        let above = pixels.row(y - 1, &rows.above);
        count = count.saturating_add(breaks_in(row, above));
    }
    Ok(limit / 32 < count)
}

/// Says whether there are more than `limit` subrectangles for certain. Looks further only if a part of the rows has many such
/// places: first leaves out the half of each row, and then, if there are enough such places, counts them by their pixels.
pub fn has_too_many(alloc: Global, pixels: &Pixels, limit: usize) -> Result<bool, AllocError>
    requires limited { limit < 2 ^ 32 }
    ensures { IfOk result (λ many. many ≡ true → (b : ℕ) → limit < length (subrectangles b (pixel_lines pixels.now))) }
{
    if !may_have_too_many(alloc, pixels, limit)? {
        return Ok(false);
    }
    let mut rows = pixels.first_rows(alloc)?;
    let mut count = 0;
    for y in 1..pixels.colours.height {
        pixels.go_on(&mut rows, y);
        let row = pixels.row(y, &rows.row);
        let above = pixels.row(y - 1, &rows.above);
        count += breaks_in(row, above);
        if limit + (y + 1) * pixels.colours.width / 2 < count {
            return Ok(true);
        }
    }
    if count <= limit {
        return Ok(false);
    }
    has_too_many_kinds(alloc, pixels, limit)
}
