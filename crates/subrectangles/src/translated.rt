//! The pixels of a rectangle, row by row: its colours themselves, or their translations, of which two rows are kept at a time.

ghost use Rattle.std.specs.Prelude.{◌≡◌, ℕ, ◌-◌, ◌<◌, [], true, length, IfOk};
ghost use Rattle.subrectangles.specs.Pixels.{pixel_by, pixel_lines, HasRow, HasRoom, HasRows, HaveRoom};
ghost use Rattle.subrectangles.specs.Subrectangles.{row_at, subrectangles_in};

use crate::lines::Lines;
use crate::pixels::write_row;
use pixel_translate::Table;
use std::alloc::{AllocError, Global};
use std::mem;

/// The pixels of a rectangle: of its colours, by a table of the format, or the colours themselves where there is no table.
#[derive(Clone, Copy)]
pub struct Pixels<'a> {
    pub colours: Lines<'a>,
    pub table: Option<&'a Table>,
}

/// Places for the pixels of a row, and for those of the row above it; there are none where pixels are the colours themselves.
#[derive(Drop)]
pub(crate) struct TwoRows {
    pub(crate) row: Vec<u32>,
    pub(crate) above: Vec<u32>,
}

impl<'a> Pixels<'a> {
    /// Returns the pixel of `colour`.
    #[inline]
    pub(crate) fn pixel_of(&self, colour: u32) -> u32
        ensures { result ≡ pixel_by self.now.table colour }
    {
        match self.table {
            Some(table) => table.translate(colour),
            None => colour,
        }
    }

    /// Makes places for the pixels of one row; none if there is no table.
    pub(crate) fn places(&self, alloc: Global) -> Result<Vec<u32>, AllocError>
        ensures { IfOk result (λ places. HasRoom self.now places.items) }
    {
        match self.table {
            Some(_) => vec![in alloc; 0u32; self.colours.width],
            None => Ok(Vec::new(alloc)),
        }
    }

    /// Writes the pixels of the row at `y` into `places`, unless they are its colours.
    pub(crate) fn fill(&self, y: usize, places: &mut [u32])
        requires inside { y < self.now.colours.height }
        requires room { HasRoom self.now places.old }
        ensures { HasRow self.now y places.new }
    {
        if let Some(table) = self.table {
            write_row(places, self.colours.row(y), table);
        }
    }

    /// Returns the pixels of the row at `y`: `places`, which have them, or its colours.
    #[inline(always)]
    pub(crate) fn row<'b>(&self, y: usize, places: &'b [u32]) -> &'b [u32]
    where
        'a: 'b,
        requires inside { y < self.now.colours.height }
        requires has { HasRow self.now y places.now }
        ensures row { result.now ≡ row_at (pixel_lines self.now) y }
        ensures len { length result.now ≡ self.now.colours.width }
    {
        match self.table {
            Some(_) => places,
            None => self.colours.row(y),
        }
    }

    /// Says whether the row at `y` has the colours of the one above it, so that no subrectangle begins in it.
    #[inline(always)]
    pub(crate) fn repeats(&self, y: usize) -> bool
        requires { y < self.now.colours.height }
        ensures { result ≡ true → (b : ℕ) → subrectangles_in b (pixel_lines self.now) y ≡ [] }
    {
        0 < y && self.colours.row(y) == self.colours.row(y - 1)
    }

    /// Makes places for two rows, at the top: the first row has none above it, and stands in both.
    pub(crate) fn first_rows(&self, alloc: Global) -> Result<TwoRows, AllocError>
        ensures { IfOk result (λ rows. HasRows self.now 0 rows) }
    {
        let mut row = self.places(alloc)?;
        let mut above = self.places(alloc)?;
        self.fill(0, &mut row);
        self.fill(0, &mut above);
        Ok(TwoRows { row, above })
    }

    /// Goes with `rows` to the row at `y`, from any other.
    pub(crate) fn go_to(&self, rows: &mut TwoRows, y: usize)
        requires below { 0 < y }
        requires inside { y < self.now.colours.height }
        requires room { HaveRoom self.now rows.old }
        ensures { HasRows self.now y rows.new }
    {
        self.fill(y - 1, &mut rows.above);
        self.fill(y, &mut rows.row);
    }

    /// Goes on with `rows` to the row at `y` from the one above it; at the top they stand there already. Doesn't translate a row
    /// again that has the colours of the one above it.
    pub(crate) fn go_on(&self, rows: &mut TwoRows, y: usize)
        requires inside { y < self.now.colours.height }
        requires above { HasRows self.now (y - 1) rows.old }
        ensures { HasRows self.now y rows.new }
    {
        let Some(table) = self.table else {
            return;
        };
        if y == 0 {
            return;
        }
        let row = self.colours.row(y);
        if row == self.colours.row(y - 1) {
            rows.above.copy_from_slice(&rows.row);
        } else {
            mem::swap(&mut rows.above, &mut rows.row);
            write_row(&mut rows.row, row, table);
        }
    }
}
