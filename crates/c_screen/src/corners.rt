//! Rectangles as another language lays them out.

ghost use Rattle.std.specs.Prelude.{◌≡◌, map, IfOk, IsOkUnless, not, false};
ghost use Rattle.std.specs.List.{list_any};
ghost use Rattle.region.specs.RegionView.{in_range, coordinate as coordinate_in_range};
ghost use Rattle.c_screen.specs.Desk.{rect_of, IsListOf};

use screen::{Rect, Region, ScreenError};
use std::alloc::{AllocError, Global};
use std::mem::size_of;

/// The places (x, y) with x1 <= x < x2 and y1 <= y < y2; none where x1 >= x2 or y1 >= y2.
#[repr(C)]
#[derive(Clone, Copy)]
pub struct Corners {
    pub x1: i32,
    pub y1: i32,
    pub x2: i32,
    pub y2: i32,
}

// As `vnc_rect` of C.
const _: () = prove!(size_of::<Corners>() == 16);

/// The furthest coordinate of a region's rectangle, and its opposite.
const FURTHEST: i32 = 1 << 20;

fn is_near(coordinate: i32) -> bool
    ensures { result ≡ coordinate_in_range coordinate }
{
    -FURTHEST <= coordinate && coordinate <= FURTHEST
}

fn is_far(corners: Corners) -> bool
    ensures { result ≡ not (in_range (rect_of corners)) }
{
    let is_first_near = is_near(corners.x1) & is_near(corners.y1);
    let is_second_near = is_near(corners.x2) & is_near(corners.y2);
    !(is_first_near & is_second_near)
}

/// Returns whether a coordinate of a rectangle in `list` is not from -2^20 to 2^20.
pub fn are_far(list: &[Corners]) -> bool
    ensures { result ≡ list_any (λ r. not (in_range r)) (map rect_of list.now) }
{
    for corners in list {
        if is_far(*corners) {
            return true;
        }
    }
    false
}

fn rect_of(corners: Corners) -> Rect
    ensures { result ≡ rect_of corners }
{
    Rect {
        x1: corners.x1,
        y1: corners.y1,
        x2: corners.x2,
        y2: corners.y2,
    }
}

/// Returns the rectangles of `list` as `Rect`s.
fn rects_of(alloc: Global, list: &[Corners]) -> Result<Vec<Rect>, AllocError>
    ensures { IfOk result (λ rects. rects.items ≡ map rect_of list.now) }
{
    let mut rects = Vec::with_capacity(alloc, list.len())?;
    for corners in list {
        rects.push(rect_of(*corners))?;
    }
    Ok(rects)
}

/// Returns the places of the rectangles in `list`, whose coordinates are from -2^20 to 2^20. Refuses them as `OutOfMemory` where memory
/// is refused.
pub fn region_of(alloc: Global, list: &[Corners]) -> Result<Region, ScreenError>
    requires { list_any (λ r. not (in_range r)) (map rect_of list.now) ≡ false }
    ensures places { IfOk result (λ region. IsListOf (map rect_of list.now) region.list) }
    ensures refused { IsOkUnless result ScreenError.OutOfMemory }
{
    let rects = rects_of(alloc, list)?;
    let region = Region::from_rects_in_range(alloc, &rects)?;
    region.list_is_canonical();
    Ok(region)
}
