//! The places that a copy moves colours to: of the places that it names, those that are on the screen with their sources.

ghost use Rattle.std.specs.Prelude.{◌≡◌, ℤ, ◌≤◌, ◌≤ℤ◌, ◌<ℤ◌, ◌+ℤ◌, ◌-ℤ◌, ◌&&◌, All, pos, ◌++◌, int_le, int_lt, IfOk, OnOk};
ghost use Rattle.region.specs.Region.{in_rect, covers, on_screen};
ghost use Rattle.region.specs.RegionView.{one_if};
ghost use Rattle.region.specs.Places.{cut_destination, IsOnScreen, source_rect, longest_side};
ghost use Rattle.framebuffer.specs.Picture.{straight, places_in};
ghost use Rattle.framebuffer.specs.Moves.{between};

use region::Rect;
use std::alloc::{AllocError, Global};

/// The numbers from `from` to below `to`.
#[derive(Clone, Copy)]
struct Span {
    from: i32,
    to: i32,
}

fn larger(a: i64, b: i64) -> i64
    ensures test { (x : ℤ) → int_le result x ≡ (int_le a x && int_le b x) }
    ensures first { a ≤ℤ result }
    ensures second { b ≤ℤ result }
{
    a.max(b)
}

fn smaller(a: i64, b: i64) -> i64
    ensures test { (x : ℤ) → int_lt x result ≡ (int_lt x a && int_lt x b) }
    ensures first { result ≤ℤ a }
    ensures second { result ≤ℤ b }
{
    a.min(b)
}

/// Returns the span of the numbers from `start` to below `end`, or an empty one if there are none.
fn span_of(start: i64, end: i64) -> Span
    requires low { pos 0 ≤ℤ start }
    requires high { end ≤ℤ pos longest_side }
    ensures same { (x : ℤ) → between result.from x result.to ≡ between start x end }
    ensures start { result.from <ℤ result.to → start ≤ℤ result.from }
    ensures end { result.from <ℤ result.to → result.to ≤ℤ end }
{
    if start < end {
        Span {
            from: start as i32,
            to: end as i32,
        }
    } else {
        Span { from: 0, to: 0 }
    }
}

/// Returns those of the numbers from `from` to below `to` that are from 0 to below `limit`, and are so when they are `by` less.
fn kept_span(from: i32, to: i32, by: i32, limit: u32) -> Span
    requires { limit ≤ longest_side }
    ensures same { (x : ℤ) → between result.from x result.to ≡
        (between from x to && between (pos 0) x (pos limit) && between (pos 0) (x -ℤ by) (pos limit)) }
    ensures low { result.from <ℤ result.to → pos 0 ≤ℤ result.from }
    ensures high { result.from <ℤ result.to → result.to ≤ℤ pos limit }
    ensures source_low { result.from <ℤ result.to → by ≤ℤ result.from }
    ensures source_high { result.from <ℤ result.to → result.to ≤ℤ (pos limit +ℤ by) }
{
    let limit = i64::from(limit);
    let by = i64::from(by);
    let start = larger(larger(i64::from(from), by), 0);
    let end = smaller(smaller(i64::from(to), limit + by), limit);
    span_of(start, end)
}

/// Returns those places of `rect` that are on the screen with the places (`dx`, `dy`) before them.
fn destination(rect: Rect, dx: i32, dy: i32, width: u32, height: u32) -> Rect
    requires width { width ≤ longest_side }
    requires height { height ≤ longest_side }
    ensures places { (x y : ℤ) → in_rect result x y ≡
        (in_rect rect x y && on_screen width height x y && on_screen width height (x -ℤ dx) (y -ℤ dy)) }
    ensures inside { result.x1 <ℤ result.x2 → result.y1 <ℤ result.y2 → IsOnScreen width height result }
    ensures source { result.x1 <ℤ result.x2 → result.y1 <ℤ result.y2 → IsOnScreen width height (source_rect (dx, dy) result) }
{
    let columns = kept_span(rect.x1, rect.x2, dx, width);
    let rows = kept_span(rect.y1, rect.y2, dy, height);
    Rect {
        x1: columns.from,
        y1: rows.from,
        x2: columns.to,
        y2: rows.to,
    }
}

/// Returns `rect` with its corners in order.
fn straight(rect: Rect) -> Rect
    ensures { result ≡ straight rect }
{
    Rect {
        x1: rect.x1.min(rect.x2),
        y1: rect.y1.min(rect.y2),
        x2: rect.x1.max(rect.x2),
        y2: rect.y1.max(rect.y2),
    }
}

fn has_places(rect: &Rect) -> bool
    ensures { result ≡ (int_lt rect.now.x1 rect.now.x2 && int_lt rect.now.y1 rect.now.y2) }
{
    let (x1, x2) = (rect.x1, rect.x2);
    let (y1, y2) = (rect.y1, rect.y2);
    x1 < x2 && y1 < y2
}

/// Appends `piece` if it has places.
fn push_piece(pieces: &mut Vec<Rect>, piece: Rect) -> Result<(), AllocError>
    ensures { OnOk result (pieces.new.items ≡
        pieces.old.items ++ one_if (int_lt piece.x1 piece.x2 && int_lt piece.y1 piece.y2) piece) }
{
    if has_places(&piece) {
        pieces.push(piece)?;
    }
    Ok(())
}

/// Returns those places of `rects`, whose corners may stand in the wrong order, that are on the screen with the places (`dx`,
/// `dy`) before them, as rectangles that each have places. Corners and offsets are any `i32`, in places.
pub fn destinations(
    alloc: Global,
    rects: &[Rect],
    dx: i32,
    dy: i32,
    width: u32,
    height: u32,
) -> Result<Vec<Rect>, AllocError>
    requires width { width ≤ longest_side }
    requires height { height ≤ longest_side }
    ensures places { IfOk result (λ pieces. covers pieces.items ≡ cut_destination width height (places_in rects.now) (dx, dy)) }
    ensures inside { IfOk result (λ pieces. All (IsOnScreen width height) pieces.items) }
    ensures sources { IfOk result (λ pieces. All (λ r. IsOnScreen width height (source_rect (dx, dy) r)) pieces.items) }
{
    let mut pieces = Vec::with_capacity(alloc, rects.len())?;
    for rect in rects {
        let piece = destination(straight(*rect), dx, dy, width, height);
        push_piece(&mut pieces, piece)?;
    }
    Ok(pieces)
}
