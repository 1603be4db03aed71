//! Sets of places as plain lists of rectangles, made anew by each call from the cells between all edges: bands top to bottom, the
//! intervals of each left to right.

use region::Rect;
use std::alloc::{AllocError, Global};

/// What is kept of two sets.
#[derive(Clone, Copy)]
pub(super) enum Keep {
    Either,
    Both,
    FirstAlone,
}

/// Says whether one of the rectangles holds the place in column `x` of row `y`.
fn holds(rects: &[Rect], x: i32, y: i32) -> bool {
    rects.iter().any(|rect| rect.x1 <= x && x < rect.x2 && rect.y1 <= y && y < rect.y2)
}

/// Says whether a place is kept of both lists.
fn is_kept(first: &[Rect], second: &[Rect], keep: Keep, x: i32, y: i32) -> bool {
    let (first, second) = (holds(first, x, y), holds(second, x, y));
    match keep {
        Keep::Either => first || second,
        Keep::Both => first && second,
        Keep::FirstAlone => first && !second,
    }
}

/// Appends where rectangles begin and end, from left to right if `across`, and else from top to bottom.
fn push_edges(edges: &mut Vec<i32>, rects: &[Rect], across: bool) -> Result<(), AllocError> {
    for rect in rects {
        let (low, high) = if across {
            (rect.x1, rect.x2)
        } else {
            (rect.y1, rect.y2)
        };
        edges.push(low)?;
        edges.push(high)?;
    }
    Ok(())
}

/// Puts each edge of both lists into `edges` once, in order.
fn put_edges(
    edges: &mut Vec<i32>,
    first: &[Rect],
    second: &[Rect],
    across: bool,
) -> Result<(), AllocError> {
    push_edges(edges, first, across)?;
    push_edges(edges, second, across)?;
    edges.sort()?;
    edges.dedup();
    Ok(())
}

/// Puts `cell` behind a row's rectangles, as one with the last of them if they touch.
fn put_cell(row: &mut Vec<Rect>, cell: Rect) -> Result<(), AllocError> {
    let mut cell = cell;
    if let Some(last) = row.pop() {
        if last.x2 == cell.x1 {
            cell.x1 = last.x1;
        } else {
            row.push(last)?;
        }
    }
    row.push(cell)?;
    Ok(())
}

/// Puts into `row` what is kept from row `y1` to before `y2`, between which no rectangle begins or ends.
fn put_kept(
    row: &mut Vec<Rect>,
    lists: (&[Rect], &[Rect]),
    keep: Keep,
    columns: &[i32],
    (y1, y2): (i32, i32),
) -> Result<(), AllocError> {
    for i in 1..columns.len() {
        let (x1, x2) = (columns[i - 1], columns[i]);
        if is_kept(lists.0, lists.1, keep, x1, y1) {
            put_cell(row, Rect { x1, y1, x2, y2 })?;
        }
    }
    Ok(())
}

/// Says whether rows touch and have the same intervals.
fn goes_on(above: &[Rect], below: &[Rect]) -> bool {
    for (high, low) in above.iter().zip(below) {
        if high.x1 != low.x1 || high.x2 != low.x2 || high.y2 != low.y1 {
            return false;
        }
    }
    above.len() == below.len()
}

/// Puts `row` below the last one: as one with it if it goes on that, or else in its place, once that is listed.
fn put_row(
    list: &mut Vec<Rect>,
    last: &mut Vec<Rect>,
    row: Vec<Rect>,
    bottom: i32,
) -> Result<(), AllocError> {
    if goes_on(last, &row) {
        for rect in last.iter_mut() {
            rect.y2 = bottom;
        }
        return Ok(());
    }
    list.extend_from_slice(last)?;
    *last = row;
    Ok(())
}

/// Puts the rows between edges one below the other; doesn't list the last one yet.
fn put_rows(
    list: &mut Vec<Rect>,
    last: &mut Vec<Rect>,
    lists: (&[Rect], &[Rect]),
    keep: Keep,
    (columns, rows): (&[i32], &[i32]),
) -> Result<(), AllocError> {
    for i in 1..rows.len() {
        let mut row = Vec::new(*list.allocator());
        put_kept(&mut row, lists, keep, columns, (rows[i - 1], rows[i]))?;
        put_row(list, last, row, rows[i])?;
    }
    Ok(())
}

/// Returns the canonical list of what is kept of two lists.
pub(super) fn combined(
    alloc: Global,
    first: &[Rect],
    second: &[Rect],
    keep: Keep,
) -> Result<Vec<Rect>, AllocError> {
    let (mut columns, mut rows) = (Vec::new(alloc), Vec::new(alloc));
    put_edges(&mut columns, first, second, true)?;
    put_edges(&mut rows, first, second, false)?;
    let (mut list, mut last) = (Vec::new(alloc), Vec::new(alloc));
    put_rows(
        &mut list,
        &mut last,
        (first, second),
        keep,
        (&columns, &rows),
    )?;
    list.extend_from_slice(&last)?;
    Ok(list)
}

/// Says whether `a` comes before `b` in a list: bands from the bottom if `reverse_y`, intervals from the right if `reverse_x`.
fn comes_before(a: &Rect, b: &Rect, reverse_x: bool, reverse_y: bool) -> bool {
    if a.y1 != b.y1 {
        (a.y1 < b.y1) != reverse_y
    } else {
        a.x1 != b.x1 && (a.x1 < b.x1) != reverse_x
    }
}

/// Says whether `rects` are the list's rectangles, in this order.
pub(super) fn is_in_order(rects: &[Rect], list: &[Rect], reverse_x: bool, reverse_y: bool) -> bool {
    for i in 0..rects.len() {
        if i > 0 && !comes_before(&rects[i - 1], &rects[i], reverse_x, reverse_y) {
            return false;
        }
        if !list.contains(&rects[i]) {
            return false;
        }
    }
    rects.len() == list.len()
}

/// Says whether `rects` are the list's rectangles from the last to the first.
pub(super) fn is_reversed(rects: &[Rect], list: &[Rect]) -> bool {
    for (rect, other) in rects.iter().zip(list.iter().rev()) {
        if rect != other {
            return false;
        }
    }
    rects.len() == list.len()
}

/// Returns the first rectangle of a list in an order.
pub(super) fn first_in(list: &[Rect], reverse_x: bool, reverse_y: bool) -> Option<Rect> {
    let mut first = *list.first()?;
    for rect in list {
        if comes_before(rect, &first, reverse_x, reverse_y) {
            first = *rect;
        }
    }
    Some(first)
}
