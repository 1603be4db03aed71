//! What is asked of the bands of a region: whether a place is in them, whether two regions share one, the least rectangle that
//! holds them, and how much they take. Nothing here takes memory.

ghost use Rattle.std.specs.Prelude.{◌≡◌, ◌≢◌, ◌↔◌, ◌≤◌, ◌+◌, ◌*◌, [], ◌∷◌, List, length, IsTrue, IfSome, Some, None, true, false};
ghost use Rattle.std.specs.Option.{option_map};
ghost use Rattle.region_bands.specs.Bands.{Band, first_row, nodes_in, reading};
ghost use Rattle.region_sets.specs.Sets.{AreBands, has};
ghost use Rattle.region_sets.specs.Queries.{SharePlace, IsBounds, intervals_in_all};
ghost use Rattle.region_sets.specs.Walks.{below, columns_of, counted, farther, first_bottom, first_bounds, joined, rest_of};
ghost use Rattle.region_sets.specs.Walks.{rows_end_by, rows_overlap, FirstsApart, IsJoined};

use crate::rows::{count_left, last_end, nearer, row_contains, rows_meet};
use region_bands::{Interval, Reader, Rows};

/// A rectangle of places.
#[derive(Clone, Copy)]
pub struct Rectangle {
    pub rows: Rows,
    pub columns: Interval,
}

fn rows_end_by(rows: Option<Rows>, y: i32) -> bool
    ensures { result ≡ rows_end_by y rows }
{
    match rows {
        Some(r) => r.bottom <= y,
        None => false,
    }
}

// Reads on past the bands that end at `y` or above it.
fn pass_above(bands: &mut Reader, y: i32)
    requires { bands.old.left ≡ first_row bands.old.bands }
    ensures { bands.new ≡ reading (below y bands.old.bands) }
{
    'bands: while rows_end_by(bands.first_rows(), y) {
        bands.advance();
    }
}

/// Says whether the place (`x`, `y`) is in one of the bands. Reads nothing behind it.
pub fn contains(bands: &mut Reader, x: i32, y: i32) -> bool
    requires are_bands { AreBands bands.old.bands }
    requires left { bands.old.left ≡ first_row bands.old.bands }
    ensures { result ≡ has bands.old.bands x y }
{
    pass_above(bands, y);
    match bands.first_rows() {
        Some(rows) => rows.top <= y && row_contains(bands, x),
        None => false,
    }
}

fn first_bottom(first: Option<Rows>, second: Option<Rows>) -> Option<i32>
    ensures { result ≡ first_bottom first second }
{
    match (first, second) {
        (Some(a), Some(b)) => Some(nearer(a.bottom, b.bottom)),
        (Some(_), None) => None,
        (None, _) => None,
    }
}

// Says whether both are there and share a row.
fn rows_overlap(first: Option<Rows>, second: Option<Rows>) -> bool
    ensures { result ≡ rows_overlap first second }
{
    match (first, second) {
        (Some(a), Some(b)) => a.top < b.bottom && b.top < a.bottom,
        (Some(_), None) => false,
        (None, _) => false,
    }
}

// Says whether both have a first band, and the two share a place. Both bands are then to be read from their first intervals
// again.
fn first_bands_meet(first: &mut Reader, second: &mut Reader) -> bool
    requires first_are_bands { AreBands first.old.bands }
    requires second_are_bands { AreBands second.old.bands }
    requires first_left { first.old.left ≡ first_row first.old.bands }
    requires second_left { second.old.left ≡ first_row second.old.bands }
    ensures yes { result ≡ true → SharePlace first.old.bands second.old.bands }
    ensures no { result ≡ false → FirstsApart first.old.bands second.old.bands }
    ensures first_stays { first.new ≡ first.old }
    ensures second_stays { second.new ≡ second.old }
{
    let found = rows_overlap(first.first_rows(), second.first_rows()) && rows_meet(first, second);
    first.reread();
    second.reread();
    found
}

/// Says whether a place is in the bands of both. Reads both as far as it takes to know.
pub fn meets(first: &mut Reader, second: &mut Reader) -> bool
    requires first_are_bands { AreBands first.old.bands }
    requires second_are_bands { AreBands second.old.bands }
    requires first_left { first.old.left ≡ first_row first.old.bands }
    requires second_left { second.old.left ≡ first_row second.old.bands }
    ensures { IsTrue result ↔ SharePlace first.old.bands second.old.bands }
{
    while let Some(edge) = first_bottom(first.first_rows(), second.first_rows()) {
        if first_bands_meet(first, second) {
            return true;
        }
        pass_above(first, edge);
        pass_above(second, edge);
    }
    false
}

fn farther(a: i32, b: i32) -> i32
    ensures { result ≡ farther a b }
{
    if a < b { b } else { a }
}

// Returns the least rectangle that holds both.
fn joined(a: Rectangle, b: Rectangle) -> Rectangle
    ensures { result ≡ joined a b }
{
    Rectangle {
        rows: Rows {
            top: nearer(a.rows.top, b.rows.top),
            bottom: farther(a.rows.bottom, b.rows.bottom),
        },
        columns: Interval {
            from: nearer(a.columns.from, b.columns.from),
            to: farther(a.columns.to, b.columns.to),
        },
    }
}

// Returns the columns from the first that is left of the row to the last. Reads the row to its end.
fn left_columns(bands: &mut Reader) -> Option<Interval>
    ensures columns { result ≡ columns_of bands.old.left }
    ensures read { bands.new ≡ record bands.old { left = [] } }
{
    let first = bands.first_left()?;
    let to = last_end(bands, first.to);
    Some(Interval {
        from: first.from,
        to,
    })
}

// Returns the least rectangle that holds the first band, and reads on past that band.
fn first_bounds(bands: &mut Reader) -> Option<Rectangle>
    requires are_bands { AreBands bands.old.bands }
    requires left { bands.old.left ≡ first_row bands.old.bands }
    ensures bounds { result ≡ first_bounds bands.old.bands }
    ensures read { bands.new ≡ reading (rest_of bands.old.bands) }
{
    let rows = bands.first_rows()?;
    let columns = left_columns(bands)?;
    bands.advance();
    Some(Rectangle { rows, columns })
}

// Returns the least rectangle that holds the bands and `given`. Reads all bands.
fn bounds_with(bands: &mut Reader, given: Rectangle) -> Rectangle
    requires are_bands { AreBands bands.old.bands }
    requires left { bands.old.left ≡ first_row bands.old.bands }
    ensures { IsJoined given bands.old.bands result }
{
    let mut bounds = given;
    while let Some(next) = first_bounds(bands) {
        bounds = joined(bounds, next);
    }
    bounds
}

/// Returns the least rectangle that holds all places; `None` if there are none. Reads all bands.
pub fn bounds(bands: &mut Reader) -> Option<Rectangle>
    requires are_bands { AreBands bands.old.bands }
    requires left { bands.old.left ≡ first_row bands.old.bands }
    ensures none { (result ≡ None) ↔ (bands.old.bands ≡ []) }
    ensures some { IfSome result (λ b. IsBounds b bands.old.bands) }
{
    let first = first_bounds(bands)?;
    Some(bounds_with(bands, first))
}

// Counts `each` for each band, and one for each interval. Reads all bands.
fn count_all(bands: &mut Reader, each: usize) -> usize
    requires are_bands { AreBands bands.old.bands }
    requires left { bands.old.left ≡ first_row bands.old.bands }
    requires each { each ≤ 2 }
    ensures { result ≡ counted each bands.old.bands }
{
    let mut count = 0;
    while let Some(_) = bands.first_rows() {
        count += each + count_left(bands);
        bands.advance();
    }
    count
}

/// Counts the intervals that all bands have together. Reads all bands.
pub fn count_intervals(bands: &mut Reader) -> usize
    requires are_bands { AreBands bands.old.bands }
    requires left { bands.old.left ≡ first_row bands.old.bands }
    ensures { result ≡ intervals_in_all bands.old.bands }
{
    count_all(bands, 0)
}

/// Counts the nodes that the bands take. Reads all bands.
pub fn count_nodes(bands: &mut Reader) -> usize
    requires are_bands { AreBands bands.old.bands }
    requires left { bands.old.left ≡ first_row bands.old.bands }
    ensures { result ≡ nodes_in bands.old.bands }
{
    count_all(bands, 2)
}
