//! The part of a screen's picture that lies beside a program's pixels.

ghost use Rattle.std.specs.Prelude.{◌≡◌, ◌-◌, ◌*◌, ◌^◌, ◌<◌, ◌≤◌, min, MatchOption, None};
ghost use Rattle.region.specs.Places.{longest_side};
ghost use Rattle.source_pixels.specs.Source.{source_refusal};
ghost use Rattle.source_pixels.specs.Differences.{rows_beside};
ghost use Rattle.screen.specs.Taken.{part_from};

use crate::Screen;
use region::LONGEST_SIDE;
use source_pixels::{Beside, MOST_PLACES, PixelSource};

/// A screen's picture from a place on.
#[derive(Drop)]
pub(crate) struct ScreenPart<'a> {
    pub screen: &'a Screen,
    pub left: u32,
    pub top: u32,
}

/// Returns how many of a screen's `all` columns, or rows, are left from `first` on.
fn count_from(all: u32, first: u32) -> usize
    ensures { result ≡ min all longest_side - first }
{
    all.min(LONGEST_SIDE as u32).saturating_sub(first) as usize
}

impl<'a> Beside for ScreenPart<'a> {
    ghost part = { λ p. part_from p.screen.now.picture p.left p.top };

    fn columns(&self) -> usize {
        count_from(self.screen.width(), self.left)
    }

    fn rows(&self) -> usize {
        count_from(self.screen.height(), self.top)
    }

    fn row(&self, y: usize) -> &[u32] {
        let Some(row) = self.screen.row(self.top + y as u32) else {
            unreachable!();
        };
        &row[row.len().min(self.left as usize)..]
    }
}

/// Returns how many rows of `columns` columns are taken at a time: as many as have `MOST_PLACES`, so that pixels that are found to differ
/// are still in a processor's cache when they are painted, and at least one.
fn rows_at_a_time(columns: usize) -> usize
    ensures { 1 ≤ result }
{
    (MOST_PLACES / columns.max(1)).max(1)
}

/// Returns the end of the next rows to be taken of a program's pixels, whose corner is at column `left` of row `top`, where those above
/// row `y` are taken; None if no further row lies beside the picture.
pub(crate) fn end_of_rows(
    screen: &Screen,
    left: u32,
    top: u32,
    source: &PixelSource<'_>,
    y: usize,
) -> Option<usize>
    ensures next { MatchOption result (rows_beside source.now (part_from screen.now.picture left top) ≤ y)
        (λ end. (y < end) × (end ≤ rows_beside source.now (part_from screen.now.picture left top))) }
    ensures accepted { source_refusal source.now ≡ None }
    ensures few { source.now.width * source.now.height < 2 ^ 64 }
{
    let part = ScreenPart { screen, left, top };
    let columns = source.width().min(part.columns());
    let rows = source.height().min(part.rows());
    if rows <= y {
        return None;
    }
    Some(y.saturating_add(rows_at_a_time(columns)).min(rows))
}
