//! Rectangles that stand as a canonical list stands, made into bands in one pass.

ghost use Rattle.std.specs.Prelude.{◌≡◌, ◌≢◌, ◌≤◌, ◌+◌, ◌*◌, ◌∷◌, ◌++◌, ◌&&◌, ◌||◌, [], List, true, false, length, ℤ, ◌<ℤ◌, int_lt};
ghost use Rattle.std.specs.Prelude.{int_le, IfOk, IfSome};
ghost use Rattle.std.specs.Ordering.{int_eq};
ghost use Rattle.region.specs.Region.{in_rect};
ghost use Rattle.region_bands.specs.Bands.{Band, nothing};
ghost use Rattle.region_rows.specs.Rows.{IsRow};
ghost use Rattle.region_sets.specs.Sets.{AreBands, EndBy};
ghost use Rattle.region.specs.Rects.{rows_in, columns_in, AreBandsOf, IsStack, IsClosed, stack_has};

use crate::Rect;
use region_bands::{BandList, Interval, Rows};
use std::alloc::{AllocError, Global};

pub(crate) fn has_places(rect: Rect) -> bool
    ensures { result ≡ (int_lt rect.x1 rect.x2 && int_lt rect.y1 rect.y2) }
{
    rect.x1 < rect.x2 && rect.y1 < rect.y2
}

pub(crate) fn rows_of(rect: Rect) -> Rows
    ensures { result ≡ rows_in rect }
{
    Rows {
        top: rect.y1,
        bottom: rect.y2,
    }
}

pub(crate) fn columns_of(rect: Rect) -> Interval
    ensures { result ≡ columns_in rect }
{
    Interval {
        from: rect.x1,
        to: rect.x2,
    }
}

fn has_rows_of(last: Rect, rect: Rect) -> bool
    ensures { result ≡ (int_eq last.y1 rect.y1 && int_eq last.y2 rect.y2) }
{
    last.y1 == rect.y1 && last.y2 == rect.y2
}

fn is_beyond(last: Rect, rect: Rect) -> bool
    ensures { result ≡ int_lt last.x2 rect.x1 }
{
    last.x2 < rect.x1
}

// Says whether `rect` has the rows of the last rectangle and begins beyond its end. One that begins where that ends would have
// to be joined with it.
fn goes_on_row(last: Rect, rect: Rect) -> bool
    ensures { result ≡ ((int_eq last.y1 rect.y1 && int_eq last.y2 rect.y2) && int_lt last.x2 rect.x1) }
{
    has_rows_of(last, rect) && is_beyond(last, rect)
}

fn is_below(last: Rect, rect: Rect) -> bool
    ensures { result ≡ int_le last.y2 rect.y1 }
{
    last.y2 <= rect.y1
}

fn is_same(a: i32, b: i32) -> bool
    ensures { result ≡ int_eq a b }
{
    a == b
}

// Says whether there is a last band above the gap that ends where `rows` begin.
fn touches_last(bands: &BandList, rows: Rows) -> bool
    ensures { result ≡ false → (front : List Band) (last : Band) → bands.now.above ≡ front ++ last ∷ [] → last.bottom ≢ rows.top }
{
    match bands.last_rows() {
        Some(last) => is_same(last.bottom, rows.top),
        None => false,
    }
}

// Says whether the row in the making would have to be joined with the last band above the gap: they touch, and have the same
// intervals.
fn goes_on_last(bands: &BandList, rows: Rows) -> bool
    ensures { result ≡ false → (front : List Band) (last : Band) → bands.now.above ≡ front ++ last ∷ [] → last.bottom ≡ rows.top →
        last.row ≢ bands.now.row }
{
    touches_last(bands, rows) && bands.row_is_as_last()
}

// Makes a band of the row in the making; returns false if it would have to be joined with the band above it.
fn close_row(bands: &mut BandList, rows: Rows) -> bool
    requires some { rows.top <ℤ rows.bottom }
    requires row { IsRow bands.old.row }
    requires columns { bands.old.row ≢ [] }
    requires are_bands { AreBands bands.old.above }
    requires ends { EndBy rows.top bands.old.above }
    requires room { 2 ≤ bands.old.spare }
    ensures closed { result ≡ true → IsClosed rows bands.old bands.new }
    ensures spare { bands.old.spare ≤ bands.new.spare + 2 }
{
    if goes_on_last(bands, rows) {
        return false;
    }
    bands.put_row(rows);
    true
}

// Begins a row with `rect` below the row that ends with `last`; returns false if it doesn't stand there.
fn put_below(bands: &mut BandList, last: Rect, rect: Rect) -> bool
    requires columns { rect.x1 <ℤ rect.x2 }
    requires rows { rect.y1 <ℤ rect.y2 }
    requires stack { IsStack last bands.old }
    requires room { 3 ≤ bands.old.spare }
    ensures stack { result ≡ true → IsStack rect bands.new }
    ensures places { result ≡ true → (x y : ℤ) → stack_has rect bands.new x y ≡ (stack_has last bands.old x y || in_rect rect x y) }
    ensures spare { bands.old.spare ≤ bands.new.spare + 3 }
{
    if !is_below(last, rect) || !close_row(bands, rows_of(last)) {
        return false;
    }
    bands.push_interval(columns_of(rect));
    true
}

// Puts `rect` behind the last rectangle, or below its row; returns false if it doesn't stand so.
fn put_next(bands: &mut BandList, last: Rect, rect: Rect) -> bool
    requires stack { IsStack last bands.old }
    requires room { 3 ≤ bands.old.spare }
    ensures stack { result ≡ true → IsStack rect bands.new }
    ensures places { result ≡ true → (x y : ℤ) → stack_has rect bands.new x y ≡ (stack_has last bands.old x y || in_rect rect x y) }
    ensures spare { bands.old.spare ≤ bands.new.spare + 3 }
{
    if !has_places(rect) {
        return false;
    }
    if goes_on_row(last, rect) {
        bands.push_interval(columns_of(rect));
        return true;
    }
    put_below(bands, last, rect)
}

// Puts rectangles into an empty list of bands; returns false if they don't stand row by row.
fn stack(bands: &mut BandList, first: Rect, rest: &[Rect]) -> bool
    requires empty { bands.old ≡ record nothing { spare = bands.old.spare } }
    requires room { 3 * length rest.now + 3 ≤ bands.old.spare }
    ensures { result ≡ true → AreBandsOf (first ∷ rest.now) bands.new }
{
    if !has_places(first) {
        return false;
    }
    bands.push_interval(columns_of(first));
    let mut last = first;
    for rect in rest {
        if !put_next(bands, last, *rect) {
            return false;
        }
        last = *rect;
    }
    close_row(bands, rows_of(last))
}

/// Makes the bands of rectangles that stand row by row, top to bottom and left to right in each row; `None` if they don't stand
/// so.
pub(crate) fn stacked(alloc: Global, rects: &[Rect]) -> Result<Option<BandList>, AllocError>
    ensures { IfOk result (λ found. IfSome found (λ bands. AreBandsOf rects.now bands)) }
{
    let Some((first, rest)) = rects.split_first() else {
        return Ok(None);
    };
    let mut bands = BandList::new(alloc);
    bands.reserve(3 * rects.len())?;
    if !stack(&mut bands, *first, rest) {
        return Ok(None);
    }
    Ok(Some(bands))
}
