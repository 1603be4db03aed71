//! The background of a rectangle: a guess that is tested, or else found with a table of the pixels that
//! were seen.

ghost use Rattle.std.specs.Prelude.{◌≡◌, ◌≢◌, ℕ, ◌+◌, ◌*◌, ◌<◌, ◌≤◌, ◌⊎◌, ◌^◌, true, false, nat_eq, length, IfOk, OnOk, IfSome};
ghost use Rattle.std.specs.HashMap as hash;
ghost use Rattle.std.specs.Option.{unwrap_or};
ghost use Rattle.subrectangles.specs.Counted.{count_in, IsBestOf};
ghost use Rattle.subrectangles.specs.Subrectangles.{background_of, times, row_at};
ghost use Rattle.subrectangles.specs.Lines.{lines_in};
ghost use Rattle.subrectangles.specs.Pixels.{pixels_in};

use crate::lines::Lines;
use crate::scan::stretch_from;
use crate::translated::Pixels;
use std::alloc::{AllocError, Global};
use std::collections::HashMap;

/// Says whether `pixel`, which stands there `count` times, is a better background than `best`, which stands there `most` times:
/// more frequent, or as frequent and smaller.
pub fn is_better(pixel: u32, count: usize, best: u32, most: usize) -> bool
    ensures yes { result ≡ true → (most < count) ⊎ ((most ≡ count) × (pixel < best)) }
    ensures no { result ≡ false → (count ≤ most) × (most ≡ count → best ≤ pixel) }
{
    if most == count {
        pixel < best
    } else {
        most < count
    }
}

/// A pixel that may be the most frequent one, and by how many votes it is ahead.
#[derive(Drop)]
struct Guess {
    pixel: u32,
    votes: usize,
}

/// Gives `pixel` a vote: the guess gains one if it is `pixel`, and else loses one, or becomes `pixel` if it has none.
fn vote(guess: &mut Guess, pixel: u32) {
    if pixel == guess.pixel {
        guess.votes = guess.votes.saturating_add(1);
    } else if guess.votes == 0 {
        guess.pixel = pixel;
        guess.votes = 1;
    } else {
        guess.votes -= 1;
    }
}

/// Gives a vote to the pixel of one in 128 colours of `row`, from `first` on, but to none that is `beside`.
fn vote_in_row(guess: &mut Guess, pixels: &Pixels, row: &[u32], first: usize, beside: Option<u32>)
    requires { length row.now < 2 ^ 16 }
{
    let mut x = first;
    while x < row.len() {
        let pixel = pixels.pixel_of(row[x]);
        if beside != Some(pixel) {
            vote(guess, pixel);
        }
        x += 128;
    }
}

/// Guesses the most frequent pixel, or the most frequent but `beside`: gives a vote to one in 128 pixels of each row, or to one of a
/// narrower row, and a pixel with more than half of the votes wins. It is only a guess.
fn likely(pixels: &Pixels, beside: Option<u32>) -> u32 {
    let mut guess = Guess { pixel: 0, votes: 0 };
    let some = pixels.colours.width.min(128);
    for y in 0..pixels.colours.height {
        vote_in_row(
            &mut guess,
            pixels,
            pixels.colours.row(y),
            37 * y % some,
            beside,
        );
    }
    guess.pixel
}

/// Returns how often `pixel` stands in `pixels`. Has no branch in its loop, so that one step looks at many places.
pub fn times(pixels: &[u32], pixel: u32) -> usize
    requires { length pixels.now < 2 ^ 32 }
    ensures { result ≡ times pixel pixels.now }
{
    let mut count = 0u32;
    for other in pixels {
        count += u32::from(*other == pixel);
    }
    count as usize
}

/// Returns how often `pixel` stands there. Counts row by row, and no further once there are more than `enough`.
fn times_until(
    alloc: Global,
    pixels: &Pixels,
    pixel: u32,
    enough: usize,
) -> Result<usize, AllocError>
    ensures some { IfOk result (λ count. count ≤ times pixel (pixels_in pixels.now)) }
    ensures all { IfOk result (λ count. count ≤ enough → count ≡ times pixel (pixels_in pixels.now)) }
{
    let mut rows = pixels.first_rows(alloc)?;
    let mut count = 0;
    let mut y = 0;
    while y < pixels.colours.height && count <= enough {
        pixels.go_on(&mut rows, y);
        count += times(pixels.row(y, &rows.row), pixel);
        y += 1;
    }
    Ok(count)
}

/// Returns the better background of `one`, which stands there `ones` times, and `other`, if no other pixel can be as frequent as
/// the more frequent of the two: all others together have fewer places. `None` if another may be, or if `one` is `other`.
fn best_of_two(
    alloc: Global,
    pixels: &Pixels,
    one: u32,
    ones: usize,
    other: u32,
) -> Result<Option<u32>, AllocError>
    requires { ones ≡ times one (pixels_in pixels.now) }
    ensures { IfOk result (λ best. IfSome best (λ b. b ≡ background_of (pixels_in pixels.now))) }
{
    let places = pixels.colours.width * pixels.colours.height;
    let others = times_until(alloc, pixels, other, places)?;
    if one == other || ones + others + ones.max(others) <= places {
        return Ok(None);
    }
    if is_better(one, ones, other, others) {
        Ok(Some(one))
    } else {
        Ok(Some(other))
    }
}

/// Adds `places` to the count of `pixel` with one look-up, and returns the sum.
fn add(counts: &mut HashMap<u32, usize>, pixel: u32, places: usize) -> Result<usize, AllocError>
    requires { unwrap_or (hash.get nat_eq counts.old pixel) 0 + places < 2 ^ 64 }
    ensures sum { IfOk result (λ n. n ≡ unwrap_or (hash.get nat_eq counts.old pixel) 0 + places) }
    ensures itself { IfOk result (λ n. unwrap_or (hash.get nat_eq counts.new pixel) 0 ≡ n) }
    ensures others { OnOk result ((q : ℕ) → pixel ≢ q →
        unwrap_or (hash.get nat_eq counts.new q) 0 ≡ unwrap_or (hash.get nat_eq counts.old q) 0) }
{
    let count = counts.entry(pixel)?.or_insert(0);
    *count += places;
    Ok(*count)
}

/// How often each pixel was counted, and the best background of those.
#[derive(Drop)]
struct Counter {
    counts: HashMap<u32, usize>,
    best: u32,
    most: usize,
}

/// Counts the pixels of a row that stands there `rows` times. Counts each run of one pixel at once, so takes one look-up a run, and
/// memory for each pixel that differs.
fn count_row(counter: &mut Counter, row: &[u32], rows: usize) -> Result<(), AllocError>
    requires some { 0 < rows }
    requires few { rows < 2 ^ 16 }
    requires columns { length row.now < 2 ^ 16 }
    requires room { (q : ℕ) → count_in counter.old q < 2 ^ 40 }
    requires best { IsBestOf (count_in counter.old) counter.old.best counter.old.most }
    ensures counted { OnOk result ((q : ℕ) → count_in counter.new q ≡ count_in counter.old q + rows * times q row.now) }
    ensures best { OnOk result (IsBestOf (count_in counter.new) counter.new.best counter.new.most) }
{
    let mut start = 0;
    while start < row.len() {
        let pixel = row[start];
        let run = stretch_from(row, start);
        let count = add(&mut counter.counts, pixel, rows * run)?;
        if is_better(pixel, count, counter.best, counter.most) {
            counter.best = pixel;
            counter.most = count;
        }
        start += run;
    }
    Ok(())
}

/// Returns how many rows of colours from `top` on, one below another, are like the one there.
fn rows_like(colours: &Lines, top: usize) -> usize
    requires inside { top < colours.now.height }
    ensures some { 0 < result }
    ensures within { top + result ≤ colours.now.height }
    ensures same { (k : ℕ) → k < result → row_at (lines_in colours.now) (top + k) ≡ row_at (lines_in colours.now) top }
{
    let row = colours.row(top);
    for y in top + 1..colours.height {
        if colours.row(y) != row {
            return y - top;
        }
    }
    colours.height - top
}

/// Returns the most frequent pixel, of several the smallest. Counts row by row, and rows that are alike, one below another, at
/// once.
fn counted_background(alloc: Global, pixels: &Pixels) -> Result<u32, AllocError>
    ensures { IfOk result (λ b. b ≡ background_of (pixels_in pixels.now)) }
{
    let mut places = pixels.places(alloc)?;
    let mut counter = Counter {
        counts: HashMap::new(alloc),
        best: 0,
        most: 0,
    };
    let mut y = 0;
    while y < pixels.colours.height {
        let rows = rows_like(&pixels.colours, y);
        pixels.fill(y, &mut places);
        count_row(&mut counter, pixels.row(y, &places), rows)?;
        y += rows;
    }
    Ok(counter.best)
}

/// Returns the most frequent pixel, of several the smallest. If a pixel that seems likely has more than half of the places, it is
/// the one, and if two have enough of them, it is one of these; else counts all pixels.
pub fn background_of(alloc: Global, pixels: &Pixels) -> Result<u32, AllocError>
    ensures { IfOk result (λ b. b ≡ background_of (pixels_in pixels.now)) }
{
    let guess = likely(pixels, None);
    let half = pixels.colours.width * pixels.colours.height / 2;
    let count = times_until(alloc, pixels, guess, half)?;
    if half < count {
        return Ok(guess);
    }
    let other = likely(pixels, Some(guess));
    match best_of_two(alloc, pixels, guess, count, other)? {
        Some(best) => Ok(best),
        None => counted_background(alloc, pixels),
    }
}
