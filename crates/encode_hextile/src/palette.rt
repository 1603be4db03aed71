//! The background of a tile, and which pixels it has beside it.

ghost use Rattle.std.specs.Prelude.{◌≡◌, ◌+◌, ◌-◌, ◌*◌, ◌<◌, ◌≤◌, ℕ, ◌%◌, true, List, length, slice_index, MatchOption};
ghost use Rattle.subrectangles.specs.Subrectangles.{times, background_of, row_at, subrectangles_in, subrectangles};
ghost use Rattle.subrectangles.specs.Rows.{rows_in};
ghost use Rattle.encode_hextile.specs.Palettes.{IsPaletteOf, HasSeveral, AreLong};

use crate::TilePixels;
use pixel_translate::PixelFormat;
use subrectangles::rows::Rows;
use subrectangles::{is_better, stretch_from, times};

/// The background of a tile, and which pixels it has beside it.
#[derive(Clone, Copy)]
pub(crate) struct Palette {
    pub(crate) background: u32,
    pub(crate) others: TilePixels,
}

/// Returns the background, and which pixel there is beside it. `None` if there are more than two different pixels.
fn few_pixels(pixels: &[u32]) -> Option<Palette>
    requires some { 0 < length pixels.now }
    requires few { length pixels.now ≤ 256 }
    ensures { MatchOption result (HasSeveral pixels.now) (IsPaletteOf pixels.now) }
{
    let first = pixels[0];
    let first_count = times(pixels, first);
    if first_count == pixels.len() {
        return Some(Palette {
            background: first,
            others: TilePixels::Alone,
        });
    }
    let second = pixels[stretch_from(pixels, 0)];
    let second_count = times(pixels, second);
    if first_count + second_count < pixels.len() {
        return None;
    }
    if is_better(second, second_count, first, first_count) {
        Some(Palette {
            background: second,
            others: TilePixels::OneOther(first),
        })
    } else {
        Some(Palette {
            background: first,
            others: TilePixels::OneOther(second),
        })
    }
}

/// Returns the number of the bucket that counts `pixel`.
fn bucket_of(pixel: u32) -> usize
    ensures value { result ≡ pixel % 251 }
    ensures inside { result < 251 }
{
    pixel as usize % 251
}

/// Returns how many pixels fall into each bucket. Each pixel stands there at most as often.
fn buckets_of(pixels: &[u32]) -> [u16; 251]
    requires { length pixels.now ≤ 256 }
    ensures { (pixel : ℕ) → times pixel pixels.now ≤ slice_index result (pixel % 251) }
{
    let mut buckets = [0; 251];
    for pixel in pixels {
        buckets[bucket_of(*pixel)] += 1;
    }
    buckets
}

/// Returns how many pixels the fullest bucket has.
fn fullest(buckets: &[u16; 251]) -> u16
    ensures { (k : ℕ) → k < 251 → slice_index buckets.now k ≤ result }
{
    let mut most = 0;
    for count in buckets {
        most = most.max(*count);
    }
    most
}

/// Returns the most frequent pixel, of several the smallest. Counts a pixel only if its bucket has as many as the best before it.
fn most_frequent(pixels: &[u32], buckets: &[u16; 251]) -> u32
    requires some { 0 < length pixels.now }
    requires few { length pixels.now ≤ 256 }
    requires counted { (pixel : ℕ) → times pixel pixels.now ≤ slice_index buckets.now (pixel % 251) }
    ensures { result ≡ background_of pixels.now }
{
    let mut best = pixels[0];
    let mut most = times(pixels, best);
    for p in pixels {
        let pixel = *p;
        if is_better(pixel, usize::from(buckets[bucket_of(pixel)]), best, most) {
            let count = times(pixels, pixel);
            if is_better(pixel, count, best, most) {
                best = pixel;
                most = count;
            }
        }
    }
    best
}

/// Says whether another pixel stands before place `x` of `row`, and another above it.
fn starts_at(row: &[u32], above: &[u32], x: usize) -> bool
    requires before { 0 < x }
    requires inside { x < length row.now }
    requires len { length above.now ≡ length row.now }
    ensures left { result ≡ true → slice_index row.now (x - 1) ≡ slice_index row.now x → ⊥ }
    ensures top { result ≡ true → slice_index above.now x ≡ slice_index row.now x → ⊥ }
{
    row[x - 1] != row[x] && above[x] != row[x]
}

/// Returns how many places of `row` have another pixel than the place before them and the one above.
fn starts_in(row: &[u32], above: &[u32]) -> usize
    requires { length above.now ≡ length row.now }
    ensures few { result ≤ length row.now }
    ensures begin { (rows : List (List ℕ)) (y b : ℕ) → 0 < y → row_at rows y ≡ row.now → row_at rows (y - 1) ≡ above.now →
        result ≤ length (subrectangles_in b rows y) + times b row.now }
{
    let mut starts = 0;
    for x in 1..row.len() {
        if starts_at(row, above, x) {
            starts += 1;
        }
    }
    starts
}

/// Returns a number of places at which subrectangles begin, but for those of the background.
fn starts_of(pixels: &Rows) -> usize
    requires columns { pixels.now.width ≤ 16 }
    requires rows { pixels.now.height ≤ 16 }
    ensures few { result ≤ 256 }
    ensures begin { (b : ℕ) → result ≤ length (subrectangles b (rows_in pixels.now)) + times b pixels.now.values.now }
{
    let mut starts = 0;
    for y in 1..pixels.height {
        let above = pixels.row(y - 1);
        starts += starts_in(pixels.row(y), above);
    }
    starts
}

/// Says whether the subrectangles are surely as long as the pixels, whatever the background.
fn is_noise(pixels: &Rows, format: &PixelFormat, buckets: &[u16; 251]) -> bool
    requires columns { pixels.now.width ≤ 16 }
    requires rows { pixels.now.height ≤ 16 }
    requires counted { (pixel : ℕ) → times pixel pixels.now.values.now ≤ slice_index buckets.now (pixel % 251) }
    ensures { result ≡ true → (b : ℕ) → AreLong format.now pixels.now.width pixels.now.height pixels.now.values.now b }
{
    let pixel_len = format.bytes_per_pixel();
    let starts = starts_of(pixels);
    let others = starts.saturating_sub(usize::from(fullest(buckets)));
    pixels.values.len() * pixel_len <= others * (pixel_len + 2)
}

/// Returns the background, and which pixels there are beside it. `None` if these are several and their subrectangles are surely as
/// long as the pixels.
pub(crate) fn palette_of(pixels: &Rows, format: &PixelFormat) -> Option<Palette>
    requires columns { pixels.now.width ≤ 16 }
    requires rows { pixels.now.height ≤ 16 }
    ensures { MatchOption result (HasSeveral pixels.now.values.now ×
        AreLong format.now pixels.now.width pixels.now.height pixels.now.values.now (background_of pixels.now.values.now))
        (IsPaletteOf pixels.now.values.now) }
{
    if let Some(palette) = few_pixels(pixels.values) {
        return Some(palette);
    }
    let buckets = buckets_of(pixels.values);
    if is_noise(pixels, format, &buckets) {
        return None;
    }
    Some(Palette {
        background: most_frequent(pixels.values, &buckets),
        others: TilePixels::Several,
    })
}
