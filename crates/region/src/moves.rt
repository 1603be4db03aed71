//! Whether rectangles are in the range of coordinates, and whether bands leave it where they are moved.

ghost use Rattle.std.specs.Prelude.{◌≡◌, ℤ, ◌+ℤ◌, ◌&&◌, not, true, map};
ghost use Rattle.std.specs.List.{list_any};
ghost use Rattle.region.specs.RegionView.{coordinate, in_range, moved_rect, leaves_range};
ghost use Rattle.region_bands.specs.Bands.{first_row};
ghost use Rattle.region.specs.Rects.{rect_of, rects_in};

use crate::Rect;
use region_bands::{Interval, Reader, Rows};

/// The largest coordinate; the smallest is its negative.
const LIMIT: i64 = 1 << 20;

/// A move by `dx` columns to the right and `dy` rows down.
#[derive(Clone, Copy)]
pub(crate) struct Offset {
    pub dx: i32,
    pub dy: i32,
}

fn is_coordinate(x: i64) -> bool
    ensures { result ≡ coordinate x }
{
    -LIMIT <= x && x <= LIMIT
}

fn is_corner(x: i32, y: i32) -> bool
    ensures { result ≡ (coordinate x && coordinate y) }
{
    is_coordinate(i64::from(x)) && is_coordinate(i64::from(y))
}

/// Says whether each coordinate of `rect` is from -2^20 to 2^20.
pub(crate) fn is_in_range(rect: Rect) -> bool
    ensures { result ≡ in_range rect }
{
    is_corner(rect.x1, rect.y1) && is_corner(rect.x2, rect.y2)
}

/// Says whether a coordinate of some rectangle is not from -2^20 to 2^20.
pub(crate) fn are_out_of_range(rects: &[Rect]) -> bool
    ensures { result ≡ list_any (λ r. not (in_range r)) rects.now }
{
    rects.iter().any(|rect| !is_in_range(*rect))
}

fn is_coordinate_moved(x: i32, by: i32) -> bool
    ensures { result ≡ coordinate (x +ℤ by) }
{
    is_coordinate(i64::from(x) + i64::from(by))
}

// Says whether both ends are coordinates, moved by `by`.
fn stay(from: i32, to: i32, by: i32) -> bool
    ensures { result ≡ (coordinate (from +ℤ by) && coordinate (to +ℤ by)) }
{
    is_coordinate_moved(from, by) && is_coordinate_moved(to, by)
}

// Says whether all sides of a rectangle are coordinates, moved by `by`.
fn sides_stay(rows: Rows, columns: Interval, by: Offset) -> bool
    ensures { result ≡ ((coordinate (rows.top +ℤ by.dy) && coordinate (rows.bottom +ℤ by.dy)) &&
        (coordinate (columns.from +ℤ by.dx) && coordinate (columns.to +ℤ by.dx))) }
{
    stay(rows.top, rows.bottom, by.dy) && stay(columns.from, columns.to, by.dx)
}

fn leaves_range(rows: Rows, columns: Interval, by: Offset) -> bool
    ensures { result ≡ not (in_range (moved_rect by.dx by.dy (rect_of rows columns))) }
{
    !sides_stay(rows, columns, by)
}

// Returns `rect` moved by (`dx`, `dy`), which leads it nowhere out of the range.
pub(crate) fn moved(rect: Rect, dx: i32, dy: i32) -> Rect
    requires { in_range (moved_rect dx dy rect) ≡ true }
    ensures { result ≡ moved_rect dx dy rect }
{
    Rect {
        x1: rect.x1 + dx,
        y1: rect.y1 + dy,
        x2: rect.x2 + dx,
        y2: rect.y2 + dy,
    }
}

// Says whether a rectangle of what is left of the reader's first band, which has the rows `rows`, leaves the range, moved by
// `by`.
fn row_leaves_range(bands: &mut Reader, rows: Rows, by: Offset) -> bool
    ensures leaves { result ≡ leaves_range by.dx by.dy (map (rect_of rows) bands.old.left) }
    ensures read { bands.new ≡ record bands.old { left = bands.new.left } }
{
    while let Some(columns) = bands.first_left() {
        if leaves_range(rows, columns, by) {
            return true;
        }
        bands.skip_left();
    }
    false
}

/// Says whether a rectangle of the bands that are to be read has a coordinate that is not from -2^20 to 2^20, moved by `by`.
pub(crate) fn some_leave_range(bands: &mut Reader, by: Offset) -> bool
    requires { bands.old.left ≡ first_row bands.old.bands }
    ensures { result ≡ leaves_range by.dx by.dy (rects_in bands.old.bands) }
{
    while let Some(rows) = bands.first_rows() {
        if row_leaves_range(bands, rows, by) {
            return true;
        }
        bands.advance();
    }
    false
}
