//! Regions of a screen's places: its own, moved ones, and the parts of rectangles and of regions that are on it.

ghost use Rattle.std.specs.Prelude.{◌≡◌, ◌≤◌, ◌||◌, ◌&&◌, true, ℤ, ◌-ℤ◌, IfOk, All};
ghost use Rattle.region.specs.Region.{covers, in_rect, on_screen};
ghost use Rattle.region.specs.Places.{longest_side};
ghost use Rattle.copy_schedule.specs.MarkSets.{LiesOn};
ghost use Rattle.copy_schedule.specs.Sets.{is_far_by, lies_between, window_rect};

use crate::windows::{Window, window_of};
use region::{LONGEST_SIDE, Rect, Region};
use std::alloc::{AllocError, Global};

fn is_far(by: i32) -> bool
    ensures { result ≡ is_far_by by }
{
    by <= -LONGEST_SIDE || LONGEST_SIDE <= by
}

/// Says whether `offset`, (dx, dy), leads from every place of a screen, whatever its size, off it.
pub fn leads_off(offset: (i32, i32)) -> bool
    ensures { result ≡ (is_far_by offset.0 || is_far_by offset.1) }
{
    is_far(offset.0) || is_far(offset.1)
}

/// Returns the places whose places `offset`, (dx, dy), before them are in `region`, as far as the largest screen goes.
pub fn moved_by(alloc: Global, region: &Region, offset: (i32, i32)) -> Result<Region, AllocError>
    requires { LiesOn longest_side longest_side region.now.list }
    ensures { IfOk result (λ moved. (x y : ℤ) → on_screen longest_side longest_side x y ≡ true →
        covers moved.list x y ≡ covers region.now.list (x -ℤ offset.0) (y -ℤ offset.1)) }
{
    if leads_off(offset) {
        return Ok(Region::new(alloc));
    }
    let mut moved = region.try_clone(alloc)?;
    moved.list_is_canonical();
    let _ = moved.offset(offset.0, offset.1);
    Ok(moved)
}

/// Returns the places of a screen of `width` columns and `height` rows.
pub fn screen_places(alloc: Global, width: u32, height: u32) -> Region
    requires width { width ≤ longest_side }
    requires height { height ≤ longest_side }
    ensures { (x y : ℤ) → covers result.list x y ≡ on_screen width height x y }
{
    let screen = Rect {
        x1: 0,
        y1: 0,
        x2: width as i32,
        y2: height as i32,
    };
    Region::from_rect_in_range(alloc, screen)
}

/// Returns the rectangle of a window of a screen.
fn window_rect(window: Window) -> Rect
    requires left { window.x1 ≤ longest_side }
    requires top { window.y1 ≤ longest_side }
    requires right { window.x2 ≤ longest_side }
    requires bottom { window.y2 ≤ longest_side }
    ensures { result ≡ window_rect window }
{
    Rect {
        x1: window.x1 as i32,
        y1: window.y1 as i32,
        x2: window.x2 as i32,
        y2: window.y2 as i32,
    }
}

/// Returns the places of a screen of `width` columns and `height` rows whose places `offset`, (dx, dy), before them are in `rect`.
pub fn part_of(alloc: Global, rect: Rect, offset: (i32, i32), width: u32, height: u32) -> Region
    requires width { width ≤ longest_side }
    requires height { height ≤ longest_side }
    ensures { (x y : ℤ) →
        covers result.list x y ≡ (in_rect rect (x -ℤ offset.0) (y -ℤ offset.1) && on_screen width height x y) }
{
    let window = window_of(rect, offset.0, offset.1, width, height);
    Region::from_rect_in_range(alloc, window_rect(window))
}

/// Says whether 0 <= `low` and `high` <= `end`. Then the numbers from `low` to before `high` are from 0 to before `end`.
fn is_between(low: i32, high: i32, end: u32) -> bool
    ensures { result ≡ lies_between end low high }
{
    0 <= low && i64::from(high) <= i64::from(end)
}

/// Says whether a rectangle lies on a screen of `width` columns and `height` rows.
fn is_rect_on_screen(rect: Rect, width: u32, height: u32) -> bool
    ensures { result ≡ (lies_between width rect.x1 rect.x2 && lies_between height rect.y1 rect.y2) }
{
    is_between(rect.x1, rect.x2, width) && is_between(rect.y1, rect.y2, height)
}

/// Says whether a region's box is on a screen of `width` columns and `height` rows, or the region has no box, being empty.
pub fn fits(region: &Region, width: u32, height: u32) -> bool
    ensures { result ≡ true → LiesOn width height region.now.list }
{
    match region.bbox() {
        Some(hull) => is_rect_on_screen(hull, width, height),
        None => true,
    }
}

/// Says whether a rectangle is all of a screen of `width` columns and `height` rows.
fn is_screen_rect(rect: Rect, width: u32, height: u32) -> bool
    ensures { result ≡ true → (x y : ℤ) → in_rect rect x y ≡ on_screen width height x y }
{
    let right = i64::from(rect.x2);
    let bottom = i64::from(rect.y2);
    rect.x1 == 0 && rect.y1 == 0 && right == i64::from(width) && bottom == i64::from(height)
}

/// Says whether a region is known to be all of a screen of `width` columns and `height` rows.
pub fn is_screen(region: &Region, width: u32, height: u32) -> bool
    ensures { result ≡ true → (x y : ℤ) → covers region.now.list x y ≡ on_screen width height x y }
{
    match region.only_rect() {
        Some(rect) => is_screen_rect(rect, width, height),
        None => false,
    }
}

/// Returns the places of `region` that are on a screen of `width` columns and `height` rows, as a region of its own.
pub fn part_on_screen(
    alloc: Global,
    region: &Region,
    width: u32,
    height: u32,
) -> Result<Region, AllocError>
    requires width { width ≤ longest_side }
    requires height { height ≤ longest_side }
    ensures { IfOk result (λ part. (x y : ℤ) → covers part.list x y ≡ (covers region.now.list x y && on_screen width height x y)) }
{
    let screen = screen_places(alloc, width, height);
    let part = region.intersection(&screen)?;
    Ok(part)
}
