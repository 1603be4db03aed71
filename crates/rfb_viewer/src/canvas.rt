//! What the places of a screen show.

ghost use Rattle.std.specs.Prelude.{◌≡◌, ℕ, ◌+◌, ◌*◌, ◌^◌, ◌<◌, ◌≤◌, min, length, slice_index_or, None, IfOk, OnOk, OnErr};
ghost use Rattle.rfb_viewer.specs.Canvas.{dot_at, blank, filled, copied_dot, copied_dots, row_filled};

use crate::stages::Block;
use pixel_translate::{Area, PixelFormat};
use std::alloc::{AllocError, Global};
use std::marker::Model;

/// What a place shows: a pixel, and the format in which it was read.
#[derive(Clone, Copy)]
pub struct Dot {
    pub format: PixelFormat,
    pub pixel: u32,
}

/// What each place of a screen shows, row by row from the top: a dot, or nothing.
#[derive(Drop)]
pub(crate) struct Canvas {
    alloc: Global,
    columns: usize,
    rows: usize,
    dots: Vec<Option<Dot>>,
}

impl Model for Canvas {
    ghost use Rattle.std.specs.Prelude.{◌≡◌, ◌*◌, ◌<◌, ◌^◌, length};
    ghost use Rattle.rfb_viewer.specs.Canvas.{Dots, IsCanvas};

    ghost Value = { Dots };

    ghost view = { λ c. record { columns = c.columns; rows = c.rows; dots = c.dots.items } };

    ghost invariant = { λ c. IsCanvas (record { columns = c.columns; rows = c.rows; dots = c.dots.items }) };
}

/// Sets each of `places` to `dot`.
fn fill_row(places: &mut [Option<Dot>], dot: Option<Dot>)
    ensures { (k : ℕ) → k < length places.old → slice_index_or places.new k None ≡ dot }
{
    for i in 0..places.len() {
        places[i] = dot;
    }
}

/// Sets the places from column `across.0` up to `across.1`, in the rows from `down.0` up to `down.1`, to `dot`. A row has `columns`
/// places.
fn fill_rows(
    dots: &mut [Option<Dot>],
    columns: usize,
    across: (usize, usize),
    down: (usize, usize),
    dot: Option<Dot>,
)
    requires some { across.0 ≤ across.1 }
    requires order { down.0 ≤ down.1 }
    requires wide { across.1 ≤ columns }
    requires high { down.1 * columns ≤ length dots.old }
    requires small { columns < 2 ^ 16 }
    requires few { down.1 < 2 ^ 16 }
    ensures size { length dots.new ≡ length dots.old }
    ensures dots { (y x : ℕ) → x < columns →
        slice_index_or dots.new (y * columns + x) None ≡ row_filled columns across down dot dots.old y x }
{
    for y in down.0..down.1 {
        let start = y * columns;
        fill_row(&mut dots[start + across.0..start + across.1], dot);
    }
}

/// Returns where a side of `length` from `start` on begins and ends once it is cut to `places` places.
fn cut(start: u32, length: u16, places: usize) -> (usize, usize)
    ensures start { result.0 ≡ min start places }
    ensures end { result.1 ≡ min (start + length) places }
{
    let start = start as usize;
    let end = start + usize::from(length);
    (start.min(places), end.min(places))
}

impl Canvas {
    /// Returns the canvas of no screen.
    pub(crate) fn empty(alloc: Global) -> Canvas
        ensures { result ≡ blank 0 0 }
    {
        Canvas {
            alloc,
            columns: 0,
            rows: 0,
            dots: Vec::new(alloc),
        }
    }

    /// Returns a screen that shows nothing.
    pub(crate) fn new(alloc: Global, columns: u16, rows: u16) -> Result<Canvas, AllocError>
        ensures { IfOk result (λ c. c ≡ blank columns rows) }
    {
        let columns = usize::from(columns);
        let rows = usize::from(rows);
        let dots = vec![in alloc; None; rows * columns]?;
        Ok(Canvas {
            alloc,
            columns,
            rows,
            dots,
        })
    }

    /// Returns what the place in column `x` of row `y` shows; nothing off the screen.
    pub(crate) fn dot(&self, x: usize, y: usize) -> Option<Dot>
        ensures { result ≡ dot_at self.now x y }
    {
        if x < self.columns && y < self.rows {
            self.dots[y * self.columns + x]
        } else {
            None
        }
    }

    /// Fills the part of `block` that lies on the screen with `dot`, or with nothing.
    pub(crate) fn fill(&mut self, block: Block, dot: Option<Dot>)
        ensures columns { self.new.columns ≡ self.old.columns }
        ensures rows { self.new.rows ≡ self.old.rows }
        ensures dots { (x y : ℕ) → dot_at self.new x y ≡ filled self.old block dot x y }
    {
        let across = cut(block.x, block.columns, self.columns);
        let down = cut(block.y, block.rows, self.rows);
        fill_rows(&mut self.dots, self.columns, across, down, dot);
    }

    /// Returns what the place in column `x` of row `y` shows once `area` shows what the area of its size at `from` shows.
    fn dot_behind(&self, area: Area, from: (u16, u16), x: usize, y: usize) -> Option<Dot>
        requires x { x < 2 ^ 16 }
        requires y { y < 2 ^ 16 }
        ensures { result ≡ copied_dot self.now area from x y }
    {
        let (left, top) = (usize::from(area.x), usize::from(area.y));
        let inside = left <= x
            && x - left < usize::from(area.w)
            && top <= y
            && y - top < usize::from(area.h);
        if inside {
            self.dot(
                x - left + usize::from(from.0),
                y - top + usize::from(from.1),
            )
        } else {
            self.dot(x, y)
        }
    }

    /// Gives `area` what the area of its size at `from` shows, all at once. After an `AllocError` nothing has changed.
    pub(crate) fn copy(&mut self, area: Area, from: (u16, u16)) -> Result<(), AllocError>
        ensures ok { OnOk result (self.new ≡ record self.old { dots = copied_dots self.old area from }) }
        ensures err { OnErr result (self.new ≡ self.old) }
    {
        let mut dots = Vec::with_capacity(self.alloc, self.dots.len())?;
        for k in 0..self.dots.len() {
            dots.push(self.dot_behind(area, from, k % self.columns, k / self.columns))?;
        }
        self.dots = dots;
        Ok(())
    }
}
