//! Calls of a region, each with what is to be seen of it.

use super::{Rects, region_of};
use region::{Rect, Region, RegionError};
use std::alloc::{AllocError, Global};

/// A call of a region, or what is to be seen of it.
enum Step {
    /// The region is that of these rectangles from here on.
    From(Rects),
    /// One of these is out of range.
    OutOfRange(Rects),
    /// The region's clone is used from here on, once the region is cleared.
    Cloned,
    Clear,
    Or(Rects),
    /// Room is made for `or`, and there was none.
    ReserveOr(Rects),
    /// `or` in the room that there is.
    OrReserved(Rects),
    /// Whether places are left.
    And(Rects, bool),
    Subtract(Rects, bool),
    /// The region is subtracted from itself, which leaves none.
    SubtractItself,
    /// The region stays, and this is made of both.
    Union(Rects, Rects),
    Intersection(Rects, Rects),
    Difference(Rects, Rects),
    /// Whether the region is moved, and else out of range.
    Offset(i32, i32, bool),
    /// The rectangle that is popped in an order.
    Pop(bool, bool, Option<Rect>),
    /// The canonical list, and the list in an order.
    Is(Rects),
    IsFrom(bool, bool, Rects),
    Contains(i32, i32, bool),
    Meets(Rects, bool),
    Box(Option<Rect>),
}

use Step::{
    And, Box, Clear, Cloned, Contains, Difference, From, Intersection, Is, IsFrom, Meets, Offset,
    Or, OrReserved, OutOfRange, Pop, ReserveOr, Subtract, SubtractItself, Union,
};

/// Says whether the region has `list` in an order, and what goes with it: how many rectangles it has.
fn has_list(
    region: &Region,
    reverse_x: bool,
    reverse_y: bool,
    list: &[Rect],
) -> Result<bool, AllocError> {
    let rects = region.rects(reverse_x, reverse_y)?;
    Ok(
        rects.as_slice() == list
            && region.count_rects() == list.len()
            && region.is_empty() == list.is_empty(),
    )
}

fn is_made(made: Result<Region, AllocError>, list: &[Rect]) -> Result<bool, AllocError> {
    let made = made?;
    has_list(&made, false, false, list)
}

/// Makes room for `or`. Returns whether there is room then, and was none before.
fn has_new_room(region: &mut Region, other: &Region) -> Result<bool, AllocError> {
    let had_room = region.is_reserved_for(other);
    region.reserve_or(other)?;
    Ok(!had_room && region.is_reserved_for(other))
}

fn or_in_room(region: &mut Region, other: &Region) -> bool {
    let has_room = region.is_reserved_for(other);
    if has_room {
        region.or_reserved(other);
    }
    has_room
}

/// Says whether a step with `other` is as it says.
fn holds_with(region: &mut Region, step: &Step, other: &Region) -> Result<bool, AllocError> {
    match step {
        Or(_) => {
            region.or(other)?;
            Ok(true)
        }
        ReserveOr(_) => has_new_room(region, other),
        OrReserved(_) => Ok(or_in_room(region, other)),
        And(_, left) => Ok(region.and(other)? == *left),
        Subtract(_, left) => Ok(region.subtract(other)? == *left),
        Union(_, list) => is_made(region.union(other), list),
        Intersection(_, list) => is_made(region.intersection(other), list),
        Difference(_, list) => is_made(region.difference(other), list),
        Meets(_, meets) => Ok(region.meets(other) == *meets),
        _ => Ok(false),
    }
}

/// Replaces the region by its clone, and clears the first. Returns whether that is empty then.
fn replace_by_clone(region: &mut Region, alloc: Global) -> Result<bool, AllocError> {
    let copy = region.try_clone(alloc)?;
    region.clear();
    let is_cleared = region.is_empty();
    *region = copy;
    Ok(is_cleared)
}

fn subtract_itself(region: &mut Region, alloc: Global) -> Result<bool, AllocError> {
    let itself = region.try_clone(alloc)?;
    Ok(!region.subtract(&itself)? && region.is_empty())
}

/// Says whether a step that needs no other region is as it says.
fn holds_alone(region: &mut Region, alloc: Global, step: &Step) -> Result<bool, AllocError> {
    match step {
        From(rects) => {
            *region = region_of(alloc, rects)?;
            Ok(true)
        }
        OutOfRange(rects) => {
            let made = match rects {
                [rect] => Region::from_rect(alloc, *rect),
                _ => Region::from_rects(alloc, rects),
            };
            Ok(matches!(made, Err(RegionError::OutOfRange)))
        }
        Cloned => replace_by_clone(region, alloc),
        Clear => {
            region.clear();
            Ok(true)
        }
        SubtractItself => subtract_itself(region, alloc),
        Offset(dx, dy, true) => Ok(region.offset(*dx, *dy).is_ok()),
        Offset(dx, dy, false) => {
            Ok(matches!(region.offset(*dx, *dy), Err(RegionError::OutOfRange)))
        }
        Pop(from_right, from_bottom, rect) => {
            Ok(region.pop_rect(*from_right, *from_bottom) == *rect)
        }
        Is(list) => has_list(region, false, false, list),
        IsFrom(right, bottom, list) => has_list(region, *right, *bottom, list),
        Contains(x, y, is_inside) => Ok(region.contains(*x, *y) == *is_inside),
        Box(rect) => Ok(region.bbox() == *rect),
        _ => Ok(false),
    }
}

/// Says whether the region is as `step` says, once it is made.
fn holds(region: &mut Region, alloc: Global, step: &Step) -> Result<bool, AllocError> {
    match step {
        Or(rects)
        | ReserveOr(rects)
        | OrReserved(rects)
        | And(rects, _)
        | Subtract(rects, _)
        | Union(rects, _)
        | Intersection(rects, _)
        | Difference(rects, _)
        | Meets(rects, _) => {
            let other = region_of(alloc, rects)?;
            holds_with(region, step, &other)
        }
        _ => holds_alone(region, alloc, step),
    }
}

/// Says whether the region is as `step` says, once it is made, at the second time at the latest.
fn holds_at_last(region: &mut Region, alloc: Global, step: &Step) -> bool {
    match holds(region, alloc, step) {
        Ok(is_so) => is_so,
        Err(_) => matches!(holds(region, alloc, step), Ok(true)),
    }
}

/// Returns how many of the steps hold of a region, one after the other.
fn count_held(alloc: Global, steps: &[Step]) -> usize {
    let mut region = Region::new(alloc);
    for (number, step) in steps.iter().enumerate() {
        if !holds_at_last(&mut region, alloc, step) {
            return number;
        }
    }
    steps.len()
}

#[test]
fn regions_whichever_allocation_is_refused(rt: HostRuntime) {
    for (name, steps) in &EXAMPLES {
        let held = count_held(rt.alloc(), steps);
        assert!(rt; held == steps.len(), "{name}: step {held}");
    }
}

/// The end of what a coordinate may be.
const FAR: i32 = 1 << 20;

static EXAMPLES: [(&str, &[Step]); 21] = [
    (
        "a rectangle",
        &[
            Is(&[]),
            From(&[rect!(0, 0, 2, 2)]),
            Contains(1, 1, true),
            Contains(2, 1, false),
            Cloned,
            Is(&[rect!(0, 0, 2, 2)]),
            Clear,
            Is(&[]),
        ],
    ),
    (
        "corners",
        &[
            From(&[rect!(-FAR, -FAR, FAR, FAR)]),
            Contains(-FAR, FAR - 1, true),
            Contains(0, FAR, false),
            Contains(0, i32::MAX, false),
            Contains(0, i32::MIN, false),
            OutOfRange(&[rect!(0, 0, FAR + 1, 1)]),
            From(&[rect!(3, 0, 3, 5)]),
            Is(&[]),
        ],
    ),
    (
        "a frame",
        &[
            From(&[rect!(0, 0, 4, 4)]),
            Subtract(&[rect!(1, 1, 3, 3)], true),
            Is(&[
                rect!(0, 0, 4, 1),
                rect!(0, 1, 1, 3),
                rect!(3, 1, 4, 3),
                rect!(0, 3, 4, 4),
            ]),
            IsFrom(
                true,
                true,
                &[
                    rect!(0, 3, 4, 4),
                    rect!(3, 1, 4, 3),
                    rect!(0, 1, 1, 3),
                    rect!(0, 0, 4, 1),
                ],
            ),
            Box(Some(rect!(0, 0, 4, 4))),
        ],
    ),
    (
        "touching rectangles join",
        &[
            From(&[rect!(0, 0, 2, 1)]),
            Or(&[rect!(2, 0, 4, 1)]),
            Is(&[rect!(0, 0, 4, 1)]),
            Or(&[rect!(0, 1, 4, 2)]),
            Is(&[rect!(0, 0, 4, 2)]),
            Box(Some(rect!(0, 0, 4, 2))),
            And(&[rect!(9, 9, 10, 10)], false),
            Is(&[]),
            Box(None),
        ],
    ),
    (
        "moves",
        &[
            From(&[rect!(0, 0, 1, 1)]),
            Offset(FAR, 0, false),
            Is(&[rect!(0, 0, 1, 1)]),
            Offset(FAR - 1, 0, true),
            Is(&[rect!(FAR - 1, 0, FAR, 1)]),
            From(&[rect!(0, 0, 2, 2)]),
            Offset(-3, 4, true),
            Is(&[rect!(-3, 4, -1, 6)]),
            Clear,
            Offset(i32::MAX, i32::MIN, true),
        ],
    ),
    (
        "two squares",
        &[
            From(&[rect!(0, 0, 2, 2)]),
            Meets(&[rect!(1, 1, 3, 3)], true),
            Meets(&[rect!(2, 0, 3, 1)], false),
            Meets(&[rect!(0, 2, 1, 3)], false),
            And(&[rect!(1, 1, 3, 3)], true),
            Is(&[rect!(1, 1, 2, 2)]),
            Subtract(&[rect!(1, 1, 2, 2)], false),
            Is(&[]),
        ],
    ),
    (
        "two squares and what is made of both",
        &[
            From(&[rect!(0, 0, 2, 2)]),
            Union(
                &[rect!(1, 1, 3, 3)],
                &[rect!(0, 0, 2, 1), rect!(0, 1, 3, 2), rect!(1, 2, 3, 3)],
            ),
            Intersection(&[rect!(1, 1, 3, 3)], &[rect!(1, 1, 2, 2)]),
            Difference(
                &[rect!(1, 1, 3, 3)],
                &[rect!(0, 0, 2, 1), rect!(0, 1, 1, 2)],
            ),
            Is(&[rect!(0, 0, 2, 2)]),
        ],
    ),
    (
        "room for a union",
        &[
            From(&[rect!(0, 0, 2, 1)]),
            ReserveOr(&[rect!(2, 0, 4, 1)]),
            Is(&[rect!(0, 0, 2, 1)]),
            OrReserved(&[rect!(2, 0, 4, 1)]),
            Is(&[rect!(0, 0, 4, 1)]),
        ],
    ),
    (
        "the rest joins",
        &[
            From(&[rect!(2, 0, 4, 2)]),
            Or(&[rect!(0, 0, 1, 1)]),
            Is(&[rect!(0, 0, 1, 1), rect!(2, 0, 4, 1), rect!(2, 1, 4, 2)]),
            Cloned,
            Pop(false, false, Some(rect!(0, 0, 1, 1))),
            Is(&[rect!(2, 0, 4, 2)]),
            Pop(true, true, Some(rect!(2, 0, 4, 2))),
            Pop(false, false, None),
        ],
    ),
    (
        "each order pops",
        &[
            From(&[rect!(2, 0, 4, 2), rect!(0, 0, 1, 1)]),
            Pop(true, false, Some(rect!(2, 0, 4, 1))),
            From(&[rect!(2, 0, 4, 2), rect!(0, 0, 1, 1)]),
            Pop(false, true, Some(rect!(2, 1, 4, 2))),
            From(&[rect!(2, 0, 4, 2), rect!(0, 0, 1, 1)]),
            Pop(true, true, Some(rect!(2, 1, 4, 2))),
            Clear,
            Pop(false, false, None),
        ],
    ),
    (
        "two rows with the same columns are one band where they touch",
        &[
            From(&[
                rect!(0, 0, 2, 1),
                rect!(3, 0, 5, 1),
                rect!(0, 1, 2, 4),
                rect!(3, 1, 5, 4),
            ]),
            Is(&[rect!(0, 0, 2, 4), rect!(3, 0, 5, 4)]),
            From(&[rect!(0, 0, 2, 1), rect!(0, 2, 2, 4)]),
            Is(&[rect!(0, 0, 2, 1), rect!(0, 2, 2, 4)]),
        ],
    ),
    (
        "two rows with other columns are two bands",
        &[
            From(&[rect!(0, 0, 2, 1), rect!(0, 1, 3, 2)]),
            Is(&[rect!(0, 0, 2, 1), rect!(0, 1, 3, 2)]),
        ],
    ),
    (
        "columns that touch, and rectangles from the right",
        &[
            From(&[rect!(0, 0, 2, 1), rect!(2, 0, 5, 1)]),
            Is(&[rect!(0, 0, 5, 1)]),
            From(&[rect!(3, 0, 5, 1), rect!(0, 0, 2, 1)]),
            Is(&[rect!(0, 0, 2, 1), rect!(3, 0, 5, 1)]),
        ],
    ),
    (
        "a row that begins above the end of the last one",
        &[
            From(&[rect!(0, 0, 4, 4), rect!(1, 2, 6, 3)]),
            Is(&[rect!(0, 0, 4, 2), rect!(0, 2, 6, 3), rect!(0, 3, 4, 4)]),
        ],
    ),
    (
        "a row of which a rectangle ends elsewhere",
        &[
            From(&[rect!(0, 0, 2, 2), rect!(3, 0, 5, 1)]),
            Is(&[rect!(0, 0, 2, 1), rect!(3, 0, 5, 1), rect!(0, 1, 2, 2)]),
        ],
    ),
    (
        "rectangles without places",
        &[
            From(&[rect!(3, 0, 3, 1), rect!(4, 0, 5, 1)]),
            Is(&[rect!(4, 0, 5, 1)]),
            From(&[rect!(3, 0, 3, 5), rect!(0, 4, 9, 2)]),
            Is(&[]),
            From(&[]),
            Is(&[]),
        ],
    ),
    (
        "one of several is out of range",
        &[OutOfRange(&[rect!(0, 0, 1, 1), rect!(5, -FAR - 1, 5, 2)])],
    ),
    (
        "the widest region",
        &[
            From(&[rect!(0, 0, FAR, FAR), rect!(-FAR, -FAR, FAR, FAR)]),
            Is(&[rect!(-FAR, -FAR, FAR, FAR)]),
        ],
    ),
    (
        "a frame in the other orders, and its hole filled in room",
        &[
            From(&[
                rect!(0, 0, 4, 1),
                rect!(0, 1, 1, 3),
                rect!(3, 1, 4, 3),
                rect!(0, 3, 4, 4),
            ]),
            IsFrom(
                true,
                false,
                &[
                    rect!(0, 0, 4, 1),
                    rect!(3, 1, 4, 3),
                    rect!(0, 1, 1, 3),
                    rect!(0, 3, 4, 4),
                ],
            ),
            IsFrom(
                false,
                true,
                &[
                    rect!(0, 3, 4, 4),
                    rect!(0, 1, 1, 3),
                    rect!(3, 1, 4, 3),
                    rect!(0, 0, 4, 1),
                ],
            ),
            From(&[rect!(1, 1, 3, 3)]),
            ReserveOr(&[
                rect!(0, 0, 4, 1),
                rect!(0, 1, 1, 3),
                rect!(3, 1, 4, 3),
                rect!(0, 3, 4, 4),
            ]),
            Is(&[rect!(1, 1, 3, 3)]),
            OrReserved(&[
                rect!(0, 0, 4, 1),
                rect!(0, 1, 1, 3),
                rect!(3, 1, 4, 3),
                rect!(0, 3, 4, 4),
            ]),
            Is(&[rect!(0, 0, 4, 4)]),
        ],
    ),
    (
        "bands that touch, and a region subtracted from itself",
        &[
            From(&[rect!(0, 0, 2, 1), rect!(4, 0, 5, 1)]),
            Or(&[rect!(0, 1, 2, 3), rect!(4, 1, 5, 3)]),
            Is(&[rect!(0, 0, 2, 3), rect!(4, 0, 5, 3)]),
            Or(&[rect!(0, -2, 5, 0)]),
            Is(&[rect!(0, -2, 5, 0), rect!(0, 0, 2, 3), rect!(4, 0, 5, 3)]),
            Cloned,
            Is(&[rect!(0, -2, 5, 0), rect!(0, 0, 2, 3), rect!(4, 0, 5, 3)]),
            SubtractItself,
            Is(&[]),
        ],
    ),
    (
        "boards, each of which has the places that the other lacks",
        &[
            From(EVEN),
            Is(EVEN),
            Meets(ODD, false),
            Intersection(ODD, &[]),
            Difference(ODD, EVEN),
            Union(ODD, &[rect!(0, 0, 8, 8)]),
            Subtract(ODD, true),
            Is(EVEN),
            Cloned,
            ReserveOr(ODD),
            OrReserved(ODD),
            Is(&[rect!(0, 0, 8, 8)]),
            Subtract(EVEN, true),
            Is(ODD),
            Or(EVEN),
            Is(&[rect!(0, 0, 8, 8)]),
            And(EVEN, true),
            Is(EVEN),
            SubtractItself,
        ],
    ),
];

/// The places of 8 columns and rows whose column and row add up to an even number, and the others.
const EVEN: Rects = &[
    rect!(0, 0, 1, 1),
    rect!(2, 0, 3, 1),
    rect!(4, 0, 5, 1),
    rect!(6, 0, 7, 1),
    rect!(1, 1, 2, 2),
    rect!(3, 1, 4, 2),
    rect!(5, 1, 6, 2),
    rect!(7, 1, 8, 2),
    rect!(0, 2, 1, 3),
    rect!(2, 2, 3, 3),
    rect!(4, 2, 5, 3),
    rect!(6, 2, 7, 3),
    rect!(1, 3, 2, 4),
    rect!(3, 3, 4, 4),
    rect!(5, 3, 6, 4),
    rect!(7, 3, 8, 4),
    rect!(0, 4, 1, 5),
    rect!(2, 4, 3, 5),
    rect!(4, 4, 5, 5),
    rect!(6, 4, 7, 5),
    rect!(1, 5, 2, 6),
    rect!(3, 5, 4, 6),
    rect!(5, 5, 6, 6),
    rect!(7, 5, 8, 6),
    rect!(0, 6, 1, 7),
    rect!(2, 6, 3, 7),
    rect!(4, 6, 5, 7),
    rect!(6, 6, 7, 7),
    rect!(1, 7, 2, 8),
    rect!(3, 7, 4, 8),
    rect!(5, 7, 6, 8),
    rect!(7, 7, 8, 8),
];

const ODD: Rects = &[
    rect!(1, 0, 2, 1),
    rect!(3, 0, 4, 1),
    rect!(5, 0, 6, 1),
    rect!(7, 0, 8, 1),
    rect!(0, 1, 1, 2),
    rect!(2, 1, 3, 2),
    rect!(4, 1, 5, 2),
    rect!(6, 1, 7, 2),
    rect!(1, 2, 2, 3),
    rect!(3, 2, 4, 3),
    rect!(5, 2, 6, 3),
    rect!(7, 2, 8, 3),
    rect!(0, 3, 1, 4),
    rect!(2, 3, 3, 4),
    rect!(4, 3, 5, 4),
    rect!(6, 3, 7, 4),
    rect!(1, 4, 2, 5),
    rect!(3, 4, 4, 5),
    rect!(5, 4, 6, 5),
    rect!(7, 4, 8, 5),
    rect!(0, 5, 1, 6),
    rect!(2, 5, 3, 6),
    rect!(4, 5, 5, 6),
    rect!(6, 5, 7, 6),
    rect!(1, 6, 2, 7),
    rect!(3, 6, 4, 7),
    rect!(5, 6, 6, 7),
    rect!(7, 6, 8, 7),
    rect!(0, 7, 1, 8),
    rect!(2, 7, 3, 8),
    rect!(4, 7, 5, 8),
    rect!(6, 7, 7, 8),
];
