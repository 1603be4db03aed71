//! The drawing calls.

ghost use Rattle.std.specs.Prelude.{◌∷◌, [], Result};
ghost use Rattle.scene.specs.Calls.{event_of};
ghost use Rattle.scene.specs.declared.Event.{Event};
ghost use Rattle.scene.specs.declared.ScreenError.{ScreenError};

use region::{Rect, Region};
use scene::{Drawing, ScreenError};

/// What an application draws on. Whoever does a drawing call that is given as a value has all of them. Each may be refused as
/// `OutOfMemory` besides what it says itself.
pub trait Draw {
    // What a drawing call, which is an event, does, with its result.
    ghost draws: { Self → Event → Result (Unit {0}) ScreenError → Self → Type 0 };

    /// Does a drawing call, one of those below, as a value. Refuses what that call refuses.
    fn draw(&mut self, drawing: &Drawing<'_>) -> Result<(), ScreenError>
        ensures { draws self.old (event_of drawing.now) result self.new };

    /// Replaces the colours of `rect` by `colours`, `0x00RRGGBB` row by row, whose top bytes it clears, and owes the rectangle to every
    /// viewer. Refuses it as `BadRect` unless 0 <= x1 <= x2 <= width and 0 <= y1 <= y2 <= height, then as `BadPixelCount` unless there
    /// are as many colours as places.
    fn paint(&mut self, rect: Rect, colours: &[u32]) -> Result<(), ScreenError>
        ensures { draws self.old (Event.Paint rect colours.now) result self.new }
    {
        self.draw(&Drawing::Paint { rect, colours })
    }

    /// Replaces the colours of `rect` by `colours`, `0x00RRGGBB` row by row, whose top bytes it clears, and tells no viewer: `mark_rect`
    /// and `mark_region` do. Refuses what `paint` refuses.
    fn write_pixels(&mut self, rect: Rect, colours: &[u32]) -> Result<(), ScreenError>
        ensures { draws self.old (Event.Write rect colours.now) result self.new }
    {
        self.draw(&Drawing::Write { rect, colours })
    }

    /// Owes the places of a rectangle that are on the screen to every viewer (`rfbMarkRectAsModified` of `rfb.h`). Swaps corners in the
    /// wrong order. Refuses it as `OutOfMemory` alone.
    fn mark_rect(&mut self, x1: i32, y1: i32, x2: i32, y2: i32) -> Result<(), ScreenError>
        ensures { draws self.old (Event.Mark (record { x1 = x1; y1 = y1; x2 = x2; y2 = y2 } ∷ [])) result self.new }
    {
        self.draw(&Drawing::MarkRect(Rect { x1, y1, x2, y2 }))
    }

    /// Owes the places of a region that are on the screen to every viewer (`rfbMarkRegionAsModified` of `rfb.h`). Refuses it as
    /// `OutOfMemory` alone.
    fn mark_region(&mut self, region: &Region) -> Result<(), ScreenError>
        ensures { draws self.old (Event.Mark region.now.list) result self.new }
    {
        self.draw(&Drawing::MarkRegion(region))
    }

    /// Tells every viewer that the places of a rectangle that are on the screen with their sources get the colours of the places (dx, dy)
    /// before them (`rfbScheduleCopyRect` of `rfb.h`); the picture stays, since the application moves them itself. A viewer that uses
    /// CopyRect may make the copy on its own side.
    ///
    /// Swaps corners in the wrong order; corners and offsets are any `i32`. A copy by (0, 0), or of no place, does nothing. Refuses it as
    /// `OutOfMemory` alone.
    fn schedule_copy_rect(
        &mut self,
        x1: i32,
        y1: i32,
        x2: i32,
        y2: i32,
        dx: i32,
        dy: i32,
    ) -> Result<(), ScreenError>
        ensures { draws self.old (Event.ScheduleCopy (record { x1 = x1; y1 = y1; x2 = x2; y2 = y2 } ∷ []) dx dy) result self.new }
    {
        let rect = Rect { x1, y1, x2, y2 };
        self.draw(&Drawing::ScheduleCopyRect { rect, dx, dy })
    }

    /// Does what `schedule_copy_rect` does for the places of a region (`rfbScheduleCopyRegion` of `rfb.h`).
    fn schedule_copy_region(&mut self, region: &Region, dx: i32, dy: i32) -> Result<(), ScreenError>
        ensures { draws self.old (Event.ScheduleCopy region.now.list dx dy) result self.new }
    {
        self.draw(&Drawing::ScheduleCopyRegion { region, dx, dy })
    }

    /// Gives the places of a rectangle that are on the screen with their sources the colours that the places (dx, dy) before them had,
    /// all at once, and tells every viewer (`rfbDoCopyRect` of `rfb.h`). A viewer that uses CopyRect may make the copy on its own side.
    ///
    /// Swaps corners in the wrong order; corners and offsets are any `i32`. A copy by (0, 0), or of no place, does nothing. Refuses it as
    /// `OutOfMemory` alone.
    fn do_copy_rect(
        &mut self,
        x1: i32,
        y1: i32,
        x2: i32,
        y2: i32,
        dx: i32,
        dy: i32,
    ) -> Result<(), ScreenError>
        ensures { draws self.old (Event.DoCopy (record { x1 = x1; y1 = y1; x2 = x2; y2 = y2 } ∷ []) dx dy) result self.new }
    {
        let rect = Rect { x1, y1, x2, y2 };
        self.draw(&Drawing::DoCopyRect { rect, dx, dy })
    }

    /// Does what `do_copy_rect` does for the places of a region (`rfbDoCopyRegion` of `rfb.h`).
    fn do_copy_region(&mut self, region: &Region, dx: i32, dy: i32) -> Result<(), ScreenError>
        ensures { draws self.old (Event.DoCopy region.now.list dx dy) result self.new }
    {
        self.draw(&Drawing::DoCopyRegion { region, dx, dy })
    }

    /// Keeps a bell for every open viewer for which fewer than 64 notices wait (`rfbSendBell` of `rfb.h`). Refuses it as `OutOfMemory`
    /// alone.
    fn bell(&mut self) -> Result<(), ScreenError>
        ensures { draws self.old Event.Bell result self.new }
    {
        self.draw(&Drawing::Bell)
    }

    /// Keeps a text for every open viewer for which fewer than 64 notices wait (`rfbSendServerCutText` of `rfb.h`). Refuses more than
    /// 65,536 bytes as `TextTooLong`.
    fn cut_text(&mut self, text: &[u8]) -> Result<(), ScreenError>
        ensures { draws self.old (Event.CutText text.now) result self.new }
    {
        self.draw(&Drawing::CutText(text))
    }

    /// Replaces the framebuffer by one of `width` columns and `height` rows that is 0 everywhere (`rfbNewFramebuffer` of `rfb.h`), and
    /// owes every place to every viewer. A viewer that lists DesktopSize learns the size before anything else of the screen, where it
    /// asks; any other sees as much of the screen as its own size holds. Refuses a size as `BadSize` unless each is 1 to 8192, with at
    /// most 2^24 places.
    fn new_framebuffer(&mut self, width: u32, height: u32) -> Result<(), ScreenError>
        ensures { draws self.old (Event.Resize width height) result self.new }
    {
        self.draw(&Drawing::NewFramebuffer { width, height })
    }
}
