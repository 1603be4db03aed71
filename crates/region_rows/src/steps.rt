//! One step of a walk over two rows.

ghost use Rattle.std.specs.Prelude.{◌≡◌, int_le, slice_get};
ghost use Rattle.region_rows.specs.Steps.{edge_of, next_step, later, nearer, start_of, common_step};

use crate::Keep;
use region_bands::{BandList, Interval, Reader};

/// How far both rows are the same, and whether they have the columns up to there.
#[derive(Clone, Copy)]
pub(crate) struct Step {
    pub edge: i32,
    pub in_first: bool,
    pub in_second: bool,
}

/// Returns the lesser of two edges.
pub(crate) fn nearer(a: i32, b: i32) -> i32
    ensures { result ≡ nearer a b }
{
    if a < b { a } else { b }
}

fn has_begun(interval: Interval, x: i32) -> bool
    ensures { result ≡ int_le interval.from x }
{
    interval.from <= x
}

/// Returns where `interval` begins, or where it ends if it has begun by `x`.
fn edge_of(interval: Interval, x: i32) -> i32
    ensures { result ≡ edge_of x interval }
{
    if interval.from <= x {
        interval.to
    } else {
        interval.from
    }
}

/// Returns the step from `x` on, of two rows by their first intervals; `None` if both have ended.
pub(crate) fn next_step(first: Option<Interval>, second: Option<Interval>, x: i32) -> Option<Step>
    ensures { result ≡ next_step x first second }
{
    match (first, second) {
        (Some(a), Some(b)) => Some(Step {
            edge: nearer(edge_of(a, x), edge_of(b, x)),
            in_first: has_begun(a, x),
            in_second: has_begun(b, x),
        }),
        (Some(a), None) => Some(Step {
            edge: edge_of(a, x),
            in_first: has_begun(a, x),
            in_second: false,
        }),
        (None, Some(b)) => Some(Step {
            edge: edge_of(b, x),
            in_first: false,
            in_second: has_begun(b, x),
        }),
        (None, None) => None,
    }
}

/// Returns where the first of two rows begins, by their first intervals; 0 if both have ended.
pub(crate) fn rows_start(first: Option<Interval>, second: Option<Interval>) -> i32
    ensures { result ≡ start_of first second }
{
    match (first, second) {
        (Some(a), Some(b)) => nearer(a.from, b.from),
        (Some(a), None) => a.from,
        (None, Some(b)) => b.from,
        (None, None) => 0,
    }
}

/// Reads on past `first`, the first interval that is left, if it ends by `edge`, and returns the first that is left then.
pub(crate) fn first_after(
    bands: &mut BandList,
    first: Option<Interval>,
    edge: i32,
) -> Option<Interval>
    requires { first ≡ slice_get bands.old.left 0 }
    ensures left { bands.new ≡ record bands.old { left = later edge bands.old.left } }
    ensures first { result ≡ slice_get (later edge bands.old.left) 0 }
{
    let interval = first?;
    if interval.to <= edge {
        bands.skip_left();
        bands.first_left()
    } else {
        first
    }
}

/// Reads on past `first`, the first interval that is left, if it ends by `edge`, and returns the first that is left then.
pub(crate) fn first_after_of(
    reader: &mut Reader,
    first: Option<Interval>,
    edge: i32,
) -> Option<Interval>
    requires { first ≡ slice_get reader.old.left 0 }
    ensures left { reader.new ≡ record reader.old { left = later edge reader.old.left } }
    ensures first { result ≡ slice_get (later edge reader.old.left) 0 }
{
    let interval = first?;
    if interval.to <= edge {
        reader.skip_left();
        reader.first_left()
    } else {
        first
    }
}

/// How far two pairs of rows are the same, and whether what is kept of both pairs is the same up to there.
#[derive(Clone, Copy)]
pub(crate) struct Common {
    pub edge: i32,
    pub agrees: bool,
}

/// Returns the step of two pairs of rows, by each pair's step; `None` if all four have ended.
pub(crate) fn common_step(keep: Keep, one: Option<Step>, other: Option<Step>) -> Option<Common>
    ensures { result ≡ common_step keep one other }
{
    match (one, other) {
        (Some(s), Some(t)) => Some(Common {
            edge: nearer(s.edge, t.edge),
            agrees: keep.keeps(s.in_first, s.in_second) == keep.keeps(t.in_first, t.in_second),
        }),
        (Some(s), None) => Some(Common {
            edge: s.edge,
            agrees: !keep.keeps(s.in_first, s.in_second),
        }),
        (None, Some(t)) => Some(Common {
            edge: t.edge,
            agrees: !keep.keeps(t.in_first, t.in_second),
        }),
        (None, None) => None,
    }
}
