//! Colours that move within a picture, all at once: one rectangle after the other, in an order in which none is moved over the
//! source of a later one, and each row by row, from the side to which its colours move.

ghost use Rattle.std.specs.Prelude.{◌≡◌, ℕ, ℤ, ◌+◌, ◌-◌, ◌*◌, ◌<◌, ◌≤◌, ◌≤ℤ◌, ◌<ℤ◌, ◌-ℤ◌, ◌==◌, [], ◌∷◌, All, length, map, get_or};
ghost use Rattle.std.specs.Prelude.{pos, nat_abs, slice_index, false, true, if◌then◌else◌, nat_le, nat_lt, ◌&&◌, ◌||◌, IfOk};
ghost use Rattle.std.specs.Prelude.{IfSome};
ghost use Rattle.region.specs.Region.{covers};
ghost use Rattle.region.specs.Copies.{InOrder};
ghost use Rattle.region.specs.Places.{IsOnScreen, source_rect, longest_side};
ghost use Rattle.framebuffer.specs.Moves.{between, colour_moved, is_among, row_number};
ghost use Rattle.framebuffer.specs.declared.rows.Row.{Row};
ghost use Rattle.framebuffer.specs.Rows.{row_colours, colours_of_rows, is_own, IsOfWidth, AreOwn, AreOwnIn, StayOwn};

use crate::rows::{Row, colours_of, copy_in_row, own_rows};
use region::{Rect, Region};
use std::alloc::{AllocError, Global};

/// Returns the places of `pieces` as rectangles in an order for copies by `offset`, in which no rectangle has a place of a
/// later one's source.
pub fn in_copy_order(
    alloc: Global,
    pieces: &[Rect],
    offset: (i32, i32),
) -> Result<Vec<Rect>, AllocError>
    requires { All (IsOnScreen longest_side longest_side) pieces.now }
    ensures places { IfOk result (λ rects. (x y : ℤ) → covers rects.items x y ≡ covers pieces.now x y) }
    ensures inside { IfOk result (λ rects. (w h : ℕ) → All (IsOnScreen w h) pieces.now → All (IsOnScreen w h) rects.items) }
    ensures sources { IfOk result (λ rects. (w h : ℕ) → All (λ r. IsOnScreen w h (source_rect offset r)) pieces.now →
        All (λ r. IsOnScreen w h (source_rect offset r)) rects.items) }
    ensures ordered { IfOk result (λ rects. InOrder offset rects.items) }
{
    let region = Region::from_rects_in_range(alloc, pieces)?;
    let rects = region.rects(0 < offset.0, 0 < offset.1)?;
    Ok(rects.into_vec())
}

/// Returns the rectangle of `pieces`, if it is the only one, has whole rows and moves straight up or down.
pub fn whole_rows(pieces: &[Rect], offset: (i32, i32), width: u32) -> Option<Rect>
    requires { width ≤ longest_side }
    ensures only { IfSome result (λ r. pieces.now ≡ r ∷ []) }
    ensures left { IfSome result (λ r. r.x1 ≡ pos 0) }
    ensures right { IfSome result (λ r. r.x2 ≡ pos width) }
    ensures upright { IfSome result (λ r. offset.0 ≡ pos 0) }
{
    match pieces {
        [piece] if offset.0 == 0 && piece.x1 == 0 && piece.x2 == width as i32 => Some(*piece),
        _ => None,
    }
}

/// Returns the row from which the first row of `piece` moves.
pub fn first_source(piece: Rect, offset: (i32, i32), height: u32) -> usize
    requires rows { height ≤ longest_side }
    requires inside { IsOnScreen longest_side height piece }
    requires source { IsOnScreen longest_side height (source_rect offset piece) }
    ensures { result ≡ nat_abs (piece.y1 -ℤ offset.1) }
{
    (piece.y1 - offset.1) as usize
}

/// Makes the rows of `piece` the picture's own, with their colours as they are.
fn own_piece(
    alloc: Global,
    rows: &mut [Row],
    retired: &mut [Row],
    piece: Rect,
) -> Result<(), AllocError>
    requires inside { IsOnScreen longest_side (length rows.old) piece }
    requires room { length rows.old ≤ length retired.old }
    ensures same { map row_colours rows.new ≡ map row_colours rows.old }
    ensures stay { StayOwn rows.old rows.new }
    ensures own { IfOk result (λ _. AreOwn (nat_abs piece.y1) (nat_abs piece.y2) rows.new) }
{
    own_rows(alloc, rows, retired, piece.y1 as usize, piece.y2 as usize)
}

/// Does the same as `own_piece` for each of `pieces`.
pub fn own_pieces(
    alloc: Global,
    rows: &mut [Row],
    retired: &mut [Row],
    pieces: &[Rect],
) -> Result<(), AllocError>
    requires inside { All (IsOnScreen longest_side (length rows.old)) pieces.now }
    requires room { length rows.old ≤ length retired.old }
    ensures same { map row_colours rows.new ≡ map row_colours rows.old }
    ensures own { IfOk result (λ _. AreOwnIn pieces.now rows.new) }
{
    for piece in pieces {
        own_piece(alloc, rows, retired, *piece)?;
    }
    Ok(())
}

/// A place of a picture.
#[derive(Clone, Copy)]
struct Place {
    column: usize,
    row: usize,
}

/// Returns the place in column `x` of row `y`.
fn place_at(x: i32, y: i32) -> Place
    requires left { pos 0 ≤ℤ x }
    requires top { pos 0 ≤ℤ y }
    ensures { result ≡ record { column = nat_abs x; row = nat_abs y } }
{
    Place {
        column: x as usize,
        row: y as usize,
    }
}

/// Copies the colours of `count` places of a row, from `from` on, to as many places from `to` on, by way of `buffer`. What the
/// buffer holds doesn't matter.
fn copy_places(
    rows: &mut [Row],
    width: usize,
    from: Place,
    to: Place,
    count: usize,
    buffer: &mut [u32],
)
    requires wide { All (IsOfWidth width) rows.old }
    requires from { from.row < length rows.old }
    requires from_wide { from.column + count ≤ width }
    requires to { to.row < length rows.old }
    requires to_wide { to.column + count ≤ width }
    requires own { (d : Row) → is_own (get_or rows.old to.row d) ≡ true }
    requires buffer { count ≤ length buffer.old }
    ensures wide { All (IsOfWidth width) rows.new }
    ensures own { StayOwn rows.old rows.new }
    ensures colours { (k : ℕ) → slice_index (colours_of_rows rows.new) k ≡
        (if nat_le (to.row * width + to.column) k &&
        nat_lt k (to.row * width + to.column + count) then slice_index (colours_of_rows rows.old)
        (from.row * width + from.column + (k - (to.row * width + to.column))) else slice_index (colours_of_rows rows.old) k) }
{
    let part = &mut buffer[..count];
    let source = colours_of(&rows[from.row]);
    part.copy_from_slice(&source[from.column..from.column + count]);
    copy_in_row(&mut rows[to.row], to.column, part);
}

/// Gives the places of `piece` in row `y` the colours of the places `offset` before them.
fn move_row(
    rows: &mut [Row],
    width: u32,
    height: u32,
    piece: Rect,
    y: u32,
    offset: (i32, i32),
    buffer: &mut [u32],
)
    requires columns { width ≤ longest_side }
    requires rows { height ≤ longest_side }
    requires count { length rows.old ≡ height }
    requires wide { All (IsOfWidth width) rows.old }
    requires own { AreOwn (nat_abs piece.y1) (nat_abs piece.y2) rows.old }
    requires buffer { length buffer.old ≡ width }
    requires inside { IsOnScreen width height piece }
    requires source { IsOnScreen width height (source_rect offset piece) }
    requires top { piece.y1 ≤ℤ pos y }
    requires bottom { pos y <ℤ piece.y2 }
    ensures wide { All (IsOfWidth width) rows.new }
    ensures own { StayOwn rows.old rows.new }
    ensures colours { (k x : ℕ) → k < height → x < width →
        slice_index (colours_of_rows rows.new) (k * width + x) ≡
        colour_moved width height (piece ∷ []) offset (λ row. row == y) (colours_of_rows rows.old) k x }
{
    let columns = (piece.x2 - piece.x1) as usize;
    let from = place_at(piece.x1 - offset.0, y as i32 - offset.1);
    let to = place_at(piece.x1, y as i32);
    copy_places(rows, width as usize, from, to, columns, buffer);
}

/// Returns the row that comes after `n` others: from the bottom if `down`, else from the top.
fn row_after(n: u32, height: u32, down: bool) -> u32
    requires { n < height }
    ensures value { result ≡ row_number down height n }
    ensures bound { result < height }
    ensures next { (k : ℕ) → k < height → is_among down height (n + 1) k ≡ (is_among down height n k || (k == result)) }
    ensures before { is_among down height n result ≡ false }
{
    if down { height - 1 - n } else { n }
}

/// Returns how many rows come before those of `piece`, and how many up to the last of its own: from the bottom if `down`, else
/// from the top.
fn rows_of(piece: Rect, height: u32, down: bool) -> (u32, u32)
    requires top { pos 0 ≤ℤ piece.y1 }
    requires some { piece.y1 <ℤ piece.y2 }
    requires bottom { piece.y2 ≤ℤ pos height }
    requires rows { height ≤ longest_side }
    ensures none { (k : ℕ) → k < height → between piece.y1 (pos k) piece.y2 ≡ true → is_among down height result.0 k ≡ false }
    ensures all { (n k : ℕ) → result.1 ≤ n → k < height → between piece.y1 (pos k) piece.y2 ≡ true →
        is_among down height n k ≡ true }
    ensures from { (n : ℕ) → result.0 ≤ n → n < result.1 → piece.y1 ≤ℤ pos (row_number down height n) }
    ensures to { (n : ℕ) → result.0 ≤ n → n < result.1 → pos (row_number down height n) <ℤ piece.y2 }
    ensures bound { result.1 ≤ height }
{
    let (first, end) = (piece.y1 as u32, piece.y2 as u32);
    if down {
        (height - end, height - first)
    } else {
        (first, end)
    }
}

/// Gives the places of `piece` the colours that the places `offset` before them had before the call, all at once.
fn move_piece(
    rows: &mut [Row],
    width: u32,
    height: u32,
    piece: Rect,
    offset: (i32, i32),
    buffer: &mut [u32],
)
    requires columns { width ≤ longest_side }
    requires rows { height ≤ longest_side }
    requires count { length rows.old ≡ height }
    requires wide { All (IsOfWidth width) rows.old }
    requires own { AreOwn (nat_abs piece.y1) (nat_abs piece.y2) rows.old }
    requires buffer { length buffer.old ≡ width }
    requires inside { IsOnScreen width height piece }
    requires source { IsOnScreen width height (source_rect offset piece) }
    ensures wide { All (IsOfWidth width) rows.new }
    ensures own { StayOwn rows.old rows.new }
    ensures colours { (k x : ℕ) → k < height → x < width →
        slice_index (colours_of_rows rows.new) (k * width + x) ≡
        colour_moved width height (piece ∷ []) offset (λ row. true) (colours_of_rows rows.old) k x }
{
    let down = offset.1 > 0;
    let (first, end) = rows_of(piece, height, down);
    for n in first..end {
        let y = row_after(n, height, down);
        move_row(rows, width, height, piece, y, offset, buffer);
    }
}

/// Gives the places of `pieces` the colours that the places `offset` before them had before the call, all at once. The
/// rectangles stand in an order for copies by `offset`, and their rows are the picture's own. Each has places, all of them on
/// the screen, and so has the rectangle `offset` before it. `buffer` has as many places as the screen has columns; what it
/// holds doesn't matter.
pub fn move_pieces(
    rows: &mut [Row],
    width: u32,
    height: u32,
    pieces: &[Rect],
    offset: (i32, i32),
    buffer: &mut [u32],
)
    requires columns { width ≤ longest_side }
    requires rows { height ≤ longest_side }
    requires count { length rows.old ≡ height }
    requires wide { All (IsOfWidth width) rows.old }
    requires own { AreOwnIn pieces.now rows.old }
    requires buffer { length buffer.old ≡ width }
    requires inside { All (IsOnScreen width height) pieces.now }
    requires sources { All (λ r. IsOnScreen width height (source_rect offset r)) pieces.now }
    requires ordered { InOrder offset pieces.now }
    ensures wide { All (IsOfWidth width) rows.new }
    ensures colours { (k x : ℕ) → k < height → x < width →
        slice_index (colours_of_rows rows.new) (k * width + x) ≡
        colour_moved width height pieces.now offset (λ row. true) (colours_of_rows rows.old) k x }
{
    for piece in pieces {
        move_piece(rows, width, height, *piece, offset, buffer);
    }
}
