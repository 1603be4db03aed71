//! Rows of 2,000 calls on a region and on a plain list of rectangles, by stated sequences of numbers: after each, both have the same
//! list in each of the four orders, and hold the same of all places.

ghost use Rattle.std.specs.Prelude.{◌<◌};

mod banded;

use banded::{Keep, combined, first_in, is_in_order, is_reversed};
use region::{Rect, Region};
use std::alloc::{AllocError, Global};

/// The same set of places in both forms, and how far it was moved from where it was drawn.
#[derive(Drop)]
struct Both {
    region: Region,
    list: Vec<Rect>,
    moved: (i32, i32),
}

#[derive(Clone, Copy)]
enum Call {
    Or,
    And,
    Subtract,
    Offset,
    PopRect,
    OrReserved,
    Union,
    Intersection,
    Difference,
    TryClone,
    FromRects,
}

/// The calls of either row, each as often as it is to be drawn.
static FIVE: [Call; 16] = [
    Call::Or,
    Call::Or,
    Call::Or,
    Call::Or,
    Call::Or,
    Call::Or,
    Call::Or,
    Call::And,
    Call::Subtract,
    Call::Subtract,
    Call::Subtract,
    Call::PopRect,
    Call::PopRect,
    Call::PopRect,
    Call::Offset,
    Call::Offset,
];

static ALL: [Call; 16] = [
    Call::Or,
    Call::OrReserved,
    Call::OrReserved,
    Call::OrReserved,
    Call::Union,
    Call::Union,
    Call::Union,
    Call::And,
    Call::Intersection,
    Call::Subtract,
    Call::Difference,
    Call::Difference,
    Call::PopRect,
    Call::Offset,
    Call::TryClone,
    Call::FromRects,
];

/// Draws a number below `below` from the high bits of the next number of the sequence n * 6364136223846793005 + 1442695040888963407
/// modulo 2^64.
fn drawn(seed: &mut u64, below: u8) -> i32
    requires { 0 < below }
{
    *seed = seed
        .wrapping_mul(6_364_136_223_846_793_005)
        .wrapping_add(1_442_695_040_888_963_407);
    ((*seed >> 33) % u64::from(below)) as i32
}

/// Draws a rectangle of the first 10 columns and rows; some have no places.
fn drawn_rect(seed: &mut u64) -> Rect {
    let (x1, y1) = (drawn(seed, 10), drawn(seed, 10));
    Rect {
        x1,
        y1,
        x2: x1.wrapping_add(drawn(seed, 6)).min(10),
        y2: y1.wrapping_add(drawn(seed, 6)).min(10),
    }
}

/// Appends one drawn rectangle as often as several, up to `most`, of which many overlap.
fn put_drawn(rects: &mut Vec<Rect>, seed: &mut u64, most: u8) -> Result<(), AllocError>
    requires { 0 < most }
{
    rects.push(drawn_rect(seed))?;
    if drawn(seed, 2) == 0 {
        return Ok(());
    }
    for _ in 0..drawn(seed, most) {
        rects.push(drawn_rect(seed))?;
    }
    Ok(())
}

fn region_of(alloc: Global, rects: &[Rect]) -> Result<Region, AllocError> {
    let region = match rects {
        [rect] => Region::from_rect(alloc, *rect),
        _ => Region::from_rects(alloc, rects),
    };
    match region {
        Ok(region) => Ok(region),
        Err(_) => Err(AllocError),
    }
}

fn replace(region: &mut Region, by: Result<Region, AllocError>) -> Result<bool, AllocError> {
    *region = by?;
    Ok(true)
}

/// Makes room in `region` for the places of `other`, and adds them in it. Returns whether there was room then.
fn or_in_room(region: &mut Region, other: &Region) -> Result<bool, AllocError> {
    region.reserve_or(other)?;
    let has_room = region.is_reserved_for(other);
    if has_room {
        region.or_reserved(other);
    }
    Ok(has_room)
}

/// Replaces the region by its clone. Returns whether nothing is left of the first, which it clears.
fn clone_and_clear(region: &mut Region, alloc: Global) -> Result<bool, AllocError> {
    let copy = region.try_clone(alloc)?;
    region.clear();
    let is_cleared = region.is_empty();
    *region = copy;
    Ok(is_cleared)
}

/// Makes a call of the region's with `other`. Returns whether its answer is right: whether places are left.
fn change_region(region: &mut Region, call: Call, other: &Region) -> Result<bool, AllocError> {
    match call {
        Call::Or => {
            region.or(other)?;
            Ok(true)
        }
        Call::And => Ok(region.and(other)? != region.is_empty()),
        Call::Subtract => Ok(region.subtract(other)? != region.is_empty()),
        Call::OrReserved => or_in_room(region, other),
        Call::Union => replace(region, region.union(other)),
        Call::Intersection => replace(region, region.intersection(other)),
        Call::Difference => replace(region, region.difference(other)),
        _ => Ok(false),
    }
}

/// Makes the same call on both sides, with the places of `rects` as the other set. Returns whether the region's answer is right.
fn change_both(
    both: &mut Both,
    alloc: Global,
    call: Call,
    rects: &[Rect],
) -> Result<bool, AllocError> {
    let keep = match call {
        Call::And | Call::Intersection => Keep::Both,
        Call::Subtract | Call::Difference => Keep::FirstAlone,
        _ => Keep::Either,
    };
    both.list = combined(alloc, &both.list, rects, keep)?;
    let other = region_of(alloc, rects)?;
    change_region(&mut both.region, call, &other)
}

/// Moves both away, or back from where they were moved. Returns whether the region was moved.
fn move_both(both: &mut Both, seed: &mut u64) -> bool {
    let (x, y) = both.moved;
    let (dx, dy) = if (x, y) == (0, 0) {
        (
            drawn(seed, 3).wrapping_sub(1),
            drawn(seed, 3).wrapping_sub(1),
        )
    } else {
        (x.wrapping_neg(), y.wrapping_neg())
    };
    both.moved = (x.wrapping_add(dx), y.wrapping_add(dy));
    for rect in both.list.iter_mut() {
        rect.x1 = rect.x1.wrapping_add(dx);
        rect.x2 = rect.x2.wrapping_add(dx);
        rect.y1 = rect.y1.wrapping_add(dy);
        rect.y2 = rect.y2.wrapping_add(dy);
    }
    both.region.offset(dx, dy).is_ok()
}

fn pop_both(both: &mut Both, alloc: Global, seed: &mut u64) -> Result<bool, AllocError> {
    let (reverse_x, reverse_y) = (drawn(seed, 2) == 1, drawn(seed, 2) == 1);
    let first = first_in(&both.list, reverse_x, reverse_y);
    if let Some(rect) = first {
        both.list = combined(alloc, &both.list, &[rect], Keep::FirstAlone)?;
    }
    Ok(both.region.pop_rect(reverse_x, reverse_y) == first)
}

/// Replaces both by the places of `rects`, which are at most 40.
fn draw_both(both: &mut Both, alloc: Global, rects: &[Rect]) -> Result<bool, AllocError> {
    both.list = combined(alloc, rects, &[], Keep::Either)?;
    replace(&mut both.region, region_of(alloc, rects))
}

/// Makes one more call on both. Returns whether the region's answer is right.
fn step(both: &mut Both, alloc: Global, seed: &mut u64, call: Call) -> Result<bool, AllocError> {
    let mut rects = Vec::new(alloc);
    match call {
        Call::Offset => Ok(move_both(both, seed)),
        Call::PopRect => pop_both(both, alloc, seed),
        Call::TryClone => clone_and_clear(&mut both.region, alloc),
        Call::FromRects => {
            put_drawn(&mut rects, seed, 40)?;
            draw_both(both, alloc, &rects)
        }
        _ => {
            put_drawn(&mut rects, seed, 10)?;
            change_both(both, alloc, call, &rects)
        }
    }
}

/// Says whether both have the same list in each order.
fn have_same_lists(region: &Region, list: &[Rect]) -> Result<bool, AllocError> {
    let (straight, turned) = (region.rects(false, false)?, region.rects(true, true)?);
    let (across, down) = (region.rects(true, false)?, region.rects(false, true)?);
    Ok(
        straight.as_slice() == list
            && is_reversed(turned.as_slice(), list)
            && is_in_order(across.as_slice(), list, true, false)
            && is_reversed(down.as_slice(), across.as_slice())
            && region.count_rects() == list.len(),
    )
}

/// Returns which of the places that can be drawn, moved ones too, `list` holds: 14 columns and rows from -2 on.
fn board_of(list: &[Rect]) -> [bool; 196] {
    let mut board = [false; 196];
    for rect in list {
        for y in rect.y1..rect.y2 {
            for x in rect.x1..rect.x2 {
                let at = y.wrapping_mul(14).wrapping_add(x).wrapping_add(30);
                if let Some(place) = board.get_mut(usize::try_from(at).unwrap_or(196)) {
                    *place = true;
                }
            }
        }
    }
    board
}

/// Says whether both hold the same of all these places.
fn hold_alike(region: &Region, list: &[Rect]) -> bool {
    for (at, is_held) in board_of(list).iter().enumerate() {
        let (x, y) = ((at % 14) as i32, (at / 14 % 14) as i32);
        if region.contains(x - 2, y - 2) != *is_held {
            return false;
        }
    }
    true
}

/// Says whether 2,000 such calls leave both alike.
fn stay_alike(alloc: Global, calls: &[Call; 16]) -> Result<bool, AllocError> {
    let mut both = Both {
        region: Region::new(alloc),
        list: Vec::new(alloc),
        moved: (0, 0),
    };
    let mut seed = 3;
    for _ in 0..2000 {
        let call = calls[usize::try_from(drawn(&mut seed, 16)).unwrap_or(0) % 16];
        if !step(&mut both, alloc, &mut seed, call)?
            || !have_same_lists(&both.region, &both.list)?
            || !hold_alike(&both.region, &both.list)
        {
            return Ok(false);
        }
    }
    Ok(true)
}

#[test]
fn five_calls_as_on_a_plain_list(rt: HostRuntime) {
    assert!(rt; matches!(stay_alike(rt.alloc(), &FIVE), Ok(true)));
}

#[test]
fn all_calls_as_on_a_plain_list(rt: HostRuntime) {
    assert!(rt; matches!(stay_alike(rt.alloc(), &ALL), Ok(true)));
}
