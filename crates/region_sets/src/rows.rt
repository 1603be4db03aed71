//! Walks over what is left of one row, or of two.

ghost use Rattle.std.specs.Prelude.{◌≡◌, ◌≤◌, ◌↔◌, [], IsTrue, length};
ghost use Rattle.region_rows.specs.Rows.{IsRow, row_has};
ghost use Rattle.region_sets.specs.Strips.{nearer};
ghost use Rattle.region_sets.specs.Queries.{ShareColumn};
ghost use Rattle.region_sets.specs.Walks.{behind, ends_by, first_end, intervals_meet, row_end};

use region_bands::{Interval, Reader};

pub(crate) fn nearer(a: i32, b: i32) -> i32
    ensures { result ≡ nearer a b }
{
    if a < b { a } else { b }
}

fn ends_by(interval: Option<Interval>, x: i32) -> bool
    ensures { result ≡ ends_by x interval }
{
    match interval {
        Some(i) => i.to <= x,
        None => false,
    }
}

/// Reads on past the intervals that end at `x` or before it.
pub(crate) fn skip_before(bands: &mut Reader, x: i32)
    ensures { bands.new ≡ record bands.old { left = behind x bands.old.left } }
{
    'intervals: while ends_by(bands.first_left(), x) {
        bands.skip_left();
    }
}

/// Says whether the column `x` is in what is left of the row. Reads nothing behind it.
pub(crate) fn row_contains(bands: &mut Reader, x: i32) -> bool
    requires { IsRow bands.old.left }
    ensures { result ≡ row_has bands.old.left x }
{
    skip_before(bands, x);
    match bands.first_left() {
        Some(interval) => interval.from <= x,
        None => false,
    }
}

fn first_end(first: Option<Interval>, second: Option<Interval>) -> Option<i32>
    ensures { result ≡ first_end first second }
{
    match (first, second) {
        (Some(i), Some(j)) => Some(nearer(i.to, j.to)),
        (Some(_), None) => None,
        (None, _) => None,
    }
}

// Says whether both intervals are there and share a column.
fn intervals_meet(first: Option<Interval>, second: Option<Interval>) -> bool
    ensures { result ≡ intervals_meet first second }
{
    match (first, second) {
        (Some(i), Some(j)) => i.from < j.to && j.from < i.to,
        (Some(_), None) => false,
        (None, _) => false,
    }
}

/// Says whether what is left of two rows shares a column. Reads both as far as it takes to know.
pub(crate) fn rows_meet(first: &mut Reader, second: &mut Reader) -> bool
    requires first_row { IsRow first.old.left }
    requires second_row { IsRow second.old.left }
    ensures share { IsTrue result ↔ ShareColumn first.old.left second.old.left }
    ensures first_bands { first.new ≡ record first.old { left = first.new.left } }
    ensures second_bands { second.new ≡ record second.old { left = second.new.left } }
{
    while let Some(edge) = first_end(first.first_left(), second.first_left()) {
        if intervals_meet(first.first_left(), second.first_left()) {
            return true;
        }
        skip_before(first, edge);
        skip_before(second, edge);
    }
    false
}

/// Returns where the last interval that is left ends; `x` if none is left. Reads the row to its end.
pub(crate) fn last_end(bands: &mut Reader, x: i32) -> i32
    ensures end { result ≡ row_end x bands.old.left }
    ensures read { bands.new ≡ record bands.old { left = [] } }
{
    let mut end = x;
    while let Some(interval) = bands.first_left() {
        end = interval.to;
        bands.skip_left();
    }
    end
}

/// Counts the intervals that are left. Reads the row to its end.
pub(crate) fn count_left(bands: &mut Reader) -> usize
    requires { IsRow bands.old.left }
    ensures count { result ≡ length bands.old.left }
    ensures few { result ≤ 2147483648 }
    ensures read { bands.new ≡ record bands.old { left = [] } }
{
    let mut count = 0;
    while let Some(_) = bands.first_left() {
        count += 1;
        bands.skip_left();
    }
    count
}
