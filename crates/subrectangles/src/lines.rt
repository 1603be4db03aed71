//! The rows of a rectangle whose colours or pixels stand in one list, or each row in a list of its own.

ghost use Rattle.std.specs.Prelude.{◌≡◌, ◌*◌, ◌<◌, ◌≤◌, ◌^◌, true, length, All};
ghost use Rattle.subrectangles.specs.Laid.{all_in, are_apart, rows_apart};

/// Where the values of a rectangle stand, row by row from the top, each row from left to right.
#[derive(Clone, Copy)]
pub enum Values<'a> {
    /// In one list, row behind row.
    Whole(&'a [u32]),
    /// Each row in a list of its own.
    Apart(&'a [&'a [u32]]),
}

/// The values of a rectangle with its size: at least one row of one place, and fewer than 2^16 of each.
#[derive(Clone, Copy)]
pub struct Lines<'a> {
    pub values: Values<'a>,
    pub width: usize,
    pub height: usize,
    pub ghost whole: { length (all_in values) ≡ width * height },
    pub ghost rows: { are_apart values ≡ true → length (rows_apart values) ≡ height },
    pub ghost even: { All (λ row. length row ≡ width) (rows_apart values) },
    pub ghost wide: { 1 ≤ width },
    pub ghost high: { 1 ≤ height },
    pub ghost columns: { width < 2 ^ 16 },
    pub ghost lines: { height < 2 ^ 16 },
}

impl<'a> Lines<'a> {
    ghost use Rattle.std.specs.Prelude.{◌≡◌, ◌<◌, ℕ, [], true, length};
    ghost use Rattle.subrectangles.specs.Lines.{lines_in};
    ghost use Rattle.subrectangles.specs.Subrectangles.{row_at, subrectangles_in};

    /// Returns the row at `y`.
    #[inline(always)]
    pub fn row(&self, y: usize) -> &'a [u32]
        requires { y < self.now.height }
        ensures row { result.now ≡ row_at (lines_in self.now) y }
        ensures len { length result.now ≡ self.now.width }
    {
        match self.values {
            Values::Whole(values) => {
                let start = y * self.width;
                &values[start..start + self.width]
            }
            Values::Apart(rows) => rows[y],
        }
    }

    /// Says whether the row at `y` equals the one above it, so that no subrectangle begins in it.
    #[inline(always)]
    pub fn repeats(&self, y: usize) -> bool
        requires { y < self.now.height }
        ensures { result ≡ true → (b : ℕ) → subrectangles_in b (lines_in self.now) y ≡ [] }
    {
        0 < y && self.row(y) == self.row(y - 1)
    }
}
