//! Runs of pixels looked for in rows of colours that aren't translated: a colour that begins a run needs no translation where it
//! is met again.

ghost use Rattle.std.specs.Prelude.{◌≡◌, ℕ, ◌+◌, ◌<◌, ◌≤◌, ◌^◌, ◌==◌, true, length, drop, map, slice_index};
ghost use Rattle.std.specs.List.{prefix_len};
ghost use Rattle.pixel_translate.specs.Pixel.{pixel};
ghost use Rattle.subrectangles.specs.Lines.{lines_in};
ghost use Rattle.subrectangles.specs.Pixels.{translated_lines};
ghost use Rattle.subrectangles.specs.Subrectangles.{row_at, has_run};

use crate::lines::Lines;
use crate::scan::{Run, are_all};
use pixel_translate::Table;

/// A run, with a colour that has its pixel by a table.
#[derive(Clone, Copy)]
pub(crate) struct ColourRun<'a> {
    pub(crate) run: Run,
    pub(crate) colour: u32,
    pub(crate) table: &'a Table,
    pub(crate) ghost same: { run.pixel ≡ pixel table.now colour },
    pub(crate) ghost some: { 0 < run.w },
}

impl<'a> ColourRun<'a> {
    /// Says whether `colour` has the run's pixel.
    #[inline(always)]
    fn has(&self, colour: u32) -> bool
        ensures { result ≡ (pixel self.now.table.now colour == self.now.run.pixel) }
    {
        colour == self.colour || self.table.translate(colour) == self.run.pixel
    }

    /// Says whether each of `colours` has the run's pixel.
    fn has_all(&self, colours: &[u32]) -> bool
        requires { length colours.now < 2 ^ 16 }
        ensures yes { result ≡ true → (k : ℕ) → k < length colours.now →
            pixel self.now.table.now (slice_index colours.now k) ≡ self.now.run.pixel }
        ensures no { ((k : ℕ) → k < length colours.now →
            pixel self.now.table.now (slice_index colours.now k) ≡ self.now.run.pixel) → result ≡ true }
    {
        if are_all(colours, self.colour) {
            return true;
        }
        for colour in colours {
            if !self.has(*colour) {
                return false;
            }
        }
        true
    }

    /// Says whether the pixels of `row`, a row of colours, have the run.
    fn is_in(&self, row: &[u32]) -> bool
        requires inside { self.now.run.x + self.now.run.w ≤ length row.now }
        requires columns { length row.now < 2 ^ 16 }
        ensures { result ≡ has_run self.now.run (map (pixel self.now.table.now) row.now) }
    {
        let start = self.run.x;
        let end = start + self.run.w;
        if !self.has(row[start]) {
            return false;
        }
        if start != 0 && self.has(row[start - 1]) {
            return false;
        }
        if end != row.len() && self.has(row[end]) {
            return false;
        }
        self.has_all(&row[start..end])
    }

    /// Returns how many rows of colours from `top` on, one below another, have the run in their pixels. The one at `top` has it.
    pub(crate) fn rows_with(&self, colours: &Lines, top: usize) -> usize
        requires inside { top < colours.now.height }
        requires within { self.now.run.x + self.now.run.w ≤ colours.now.width }
        requires has { has_run self.now.run (row_at (translated_lines self.now.table.now colours.now) top) ≡ true }
        ensures rows { result ≡ prefix_len (has_run self.now.run) (drop top (translated_lines self.now.table.now colours.now)) }
        ensures within { top + result ≤ colours.now.height }
    {
        for y in top + 1..colours.height {
            if !self.is_in(colours.row(y)) {
                return y - top;
            }
        }
        colours.height - top
    }
}
