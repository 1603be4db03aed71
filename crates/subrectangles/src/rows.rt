//! The rows of a rectangle whose colours or pixels stand one row behind another.

ghost use Rattle.std.specs.Prelude.{◌≡◌, ◌*◌, ◌<◌, ◌≤◌, ◌^◌, length};

/// The values of a rectangle, row by row from the top, with its size: at least one row of one place, and fewer than
/// 2^16 of each.
#[derive(Clone, Copy)]
pub struct Rows<'a> {
    pub values: &'a [u32],
    pub width: usize,
    pub height: usize,
    pub ghost whole: { length values.now ≡ width * height },
    pub ghost wide: { 1 ≤ width },
    pub ghost high: { 1 ≤ height },
    pub ghost columns: { width < 2 ^ 16 },
    pub ghost lines: { height < 2 ^ 16 },
}

impl<'a> Rows<'a> {
    ghost use Rattle.std.specs.Prelude.{◌≡◌, ◌<◌, length};
    ghost use Rattle.subrectangles.specs.Rows.{rows_in};
    ghost use Rattle.subrectangles.specs.Subrectangles.{row_at};

    /// Returns the row at `y`.
    #[inline(always)]
    pub fn row(&self, y: usize) -> &'a [u32]
        requires { y < self.now.height }
        ensures row { result.now ≡ row_at (rows_in self.now) y }
        ensures len { length result.now ≡ self.now.width }
    {
        let start = y * self.width;
        &self.values[start..start + self.width]
    }
}
