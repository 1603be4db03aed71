//! What drawing calls tell the viewers: places that are owed, and copies that they may make themselves.
//!
//! A drawing call is prepared for the viewers first, then changes the picture, and is then told to the viewers by steps that take
//! no memory. Of its places it makes one region, for all viewers.

ghost use Rattle.std.specs.Prelude.{◌≡◌, ◌≢◌, ◌⊎◌, true, false, pos, ◌≤◌, ℤ, [], All, IfOk, OnOk, OnErr};
ghost use Rattle.std.specs.Map.{values_of};
ghost use Rattle.client_list.specs.Connected.{changed};
ghost use Rattle.region.specs.Region.{covers, in_rect, on_screen};
ghost use Rattle.region.specs.RegionView.{in_range};
ghost use Rattle.region.specs.Places.{same_offset, IsOnScreen, longest_side};
ghost use Rattle.copy_schedule.specs.Log.{IsCutEntry};
ghost use Rattle.framebuffer.specs.Picture.{places_in};
ghost use Rattle.viewer.specs.Viewer.{viewer_marked};
ghost use Rattle.viewer_list.specs.Viewers.{drawn, IsWhole, IsOfSize};

use framebuffer::destinations;
use region::{Rect, Region};
use std::alloc::{AllocError, Global};
use viewer::LogEntry;
use viewer_list::ViewerList;

/// Returns whether a copy by (dx, dy) to these rectangles, which each have places, does nothing: it moves no place, or none far.
pub fn moves_nothing(rects: &[Rect], offset: (i32, i32)) -> bool
    ensures yes { result ≡ true → (same_offset offset (pos 0, pos 0) ≡ true) ⊎ (rects.now ≡ []) }
    ensures no { result ≡ false → (same_offset offset (pos 0, pos 0) ≡ false) × (rects.now ≢ []) }
{
    (offset.0 == 0 && offset.1 == 0) || rects.is_empty()
}

/// Returns the region of rectangles of a screen.
pub fn region_of(alloc: Global, rects: &[Rect]) -> Result<Region, AllocError>
    requires { All (IsOnScreen longest_side longest_side) rects.now }
    ensures { IfOk result (λ region. covers region.list ≡ covers rects.now) }
{
    Region::from_rects_in_range(alloc, rects)
}

/// Returns the region of a rectangle of a screen.
pub fn region_of_rect(alloc: Global, rect: Rect) -> Region
    requires { in_range rect ≡ true }
    ensures { covers result.list ≡ in_rect rect }
{
    Region::from_rect_in_range(alloc, rect)
}

/// Tells each viewer of a drawing call, whose copy is on its screen with its sources.
pub fn tell(viewers: &mut ViewerList, call: LogEntry) -> Result<(), AllocError>
    requires cut { All (λ v. IsCutEntry v.marks.width v.marks.height call) (values_of viewers.old.pairs) }
    ensures ok { OnOk result (viewers.new.pairs ≡ changed (drawn call) viewers.old.pairs) }
    ensures err { OnErr result (viewers.new.pairs ≡ viewers.old.pairs) }
{
    viewers.prepare()?;
    viewers.commit(call);
    Ok(())
}

/// Owes the places of a region to each viewer. Changes nothing if the region has no places.
fn owe(viewers: &mut ViewerList, region: Region) -> Result<(), AllocError>
    requires whole { All IsWhole (values_of viewers.old.pairs) }
    ensures ok { OnOk result (viewers.new.pairs ≡ changed (viewer_marked (covers region.list)) viewers.old.pairs) }
    ensures err { OnErr result (viewers.new.pairs ≡ viewers.old.pairs) }
{
    if region.is_empty() {
        return Ok(());
    }
    tell(viewers, LogEntry::Mark(region))
}

/// Owes the places of rectangles that are on the screen to each viewer. Corners may stand in the wrong order, anywhere.
pub fn owe_rects(
    alloc: Global,
    width: u32,
    height: u32,
    viewers: &mut ViewerList,
    rects: &[Rect],
) -> Result<(), AllocError>
    requires some_columns { 1 ≤ width }
    requires columns { width ≤ longest_side }
    requires rows { height ≤ longest_side }
    requires sized { All (IsOfSize width height) (values_of viewers.old.pairs) }
    ensures ok { OnOk result (viewers.new.pairs ≡ changed (viewer_marked (places_in rects.now)) viewers.old.pairs) }
    ensures err { OnErr result (viewers.new.pairs ≡ viewers.old.pairs) }
{
    if viewers.is_empty() {
        return Ok(());
    }
    let pieces = destinations(alloc, rects, 0, 0, width, height)?;
    let region = region_of(alloc, &pieces)?;
    owe(viewers, region)
}

/// Returns whether no place of a region is off the screen, for certain.
fn is_on_screen(width: u32, height: u32, region: &Region) -> bool
    requires columns { width ≤ longest_side }
    requires rows { height ≤ longest_side }
{
    match region.bbox() {
        Some(rect) => {
            0 <= rect.x1 && 0 <= rect.y1 && rect.x2 <= width as i32 && rect.y2 <= height as i32
        }
        None => true,
    }
}

/// Returns a region with the places of another that are on the screen. It is a plain copy where its box is on the screen.
fn clip_to_screen(
    alloc: Global,
    width: u32,
    height: u32,
    region: &Region,
) -> Result<Region, AllocError>
    requires columns { width ≤ longest_side }
    requires rows { height ≤ longest_side }
    ensures { IfOk result (λ cut. (x y : ℤ) → on_screen width height x y ≡ true →
        covers cut.list x y ≡ covers region.now.list x y) }
{
    if is_on_screen(width, height, region) {
        return region.try_clone(alloc);
    }
    let screen = Rect {
        x1: 0,
        y1: 0,
        x2: width as i32,
        y2: height as i32,
    };
    let screen = region_of_rect(alloc, screen);
    region.intersection(&screen)
}

/// Owes the places of a region that are on the screen to each viewer.
pub fn owe_region(
    alloc: Global,
    width: u32,
    height: u32,
    viewers: &mut ViewerList,
    region: &Region,
) -> Result<(), AllocError>
    requires some_columns { 1 ≤ width }
    requires columns { width ≤ longest_side }
    requires rows { height ≤ longest_side }
    requires sized { All (IsOfSize width height) (values_of viewers.old.pairs) }
    ensures ok { OnOk result (viewers.new.pairs ≡ changed (viewer_marked (covers region.now.list)) viewers.old.pairs) }
    ensures err { OnErr result (viewers.new.pairs ≡ viewers.old.pairs) }
{
    if viewers.is_empty() {
        return Ok(());
    }
    let cut = clip_to_screen(alloc, width, height, region)?;
    owe(viewers, cut)
}
