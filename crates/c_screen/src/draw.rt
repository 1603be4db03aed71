//! The drawing calls, as C makes them: by corners, lists of corners and codes.

ghost use Rattle.std.specs.Prelude.{◌≡◌, ◌∷◌, [], List, ℤ, map};
ghost use Rattle.region.specs.declared.Rect.{Rect};
ghost use Rattle.screen.specs.Calls.{event_of};
ghost use Rattle.screen.specs.declared.Event.{Event};
ghost use Rattle.c_screen.specs.Desk.{rect_of};
ghost use Rattle.c_screen.specs.Places.{event_by};

use crate::corners::Corners;
use region::Region;
use screen::{Drawing, Rect};

/// A drawing call of the places of a region.
#[derive(Clone, Copy)]
pub enum RegionCall {
    /// `mark_region`.
    Mark,
    /// `schedule_copy_region`, from the places (dx, dy) before them.
    ScheduleCopy { dx: i32, dy: i32 },
    /// `do_copy_region`, from the places (dx, dy) before them.
    DoCopy { dx: i32, dy: i32 },
}

impl RegionCall {
    /// Returns the call for the places of `region`.
    pub fn with(self, region: &Region) -> Drawing<'_>
        ensures { event_of result ≡ event_by self region.now.list }
    {
        match self {
            RegionCall::Mark => Drawing::MarkRegion(region),
            RegionCall::ScheduleCopy { dx, dy } => Drawing::ScheduleCopyRegion { region, dx, dy },
            RegionCall::DoCopy { dx, dy } => Drawing::DoCopyRegion { region, dx, dy },
        }
    }
}

/// What C draws on. Whoever does a drawing call that is given as a value, and one of the places of a list of rectangles, has all of them,
/// which do what the calls of these names of `screen::Draw` do. Each answers 0 or the code of a refusal, of `OutOfMemory` besides those
/// that it says itself; a shut desk answers `SHUT`. After a refusal nothing has changed.
pub trait DrawByCode {
    // What a drawing call, which is an event, does, with the code that it answers.
    ghost draws: { Event → Self → Self → ℤ → Type 0 };

    // The same for the places of rectangles, by the event that has their canonical list.
    ghost draws_places: { List Rect → (List Rect → Event) → Self → Self → ℤ → Type 0 };

    /// Does a drawing call, one of those below, as a value. Refuses what that call refuses.
    fn draw(&mut self, drawing: &Drawing<'_>) -> i32
        ensures { draws (event_of drawing.now) self.old self.new result };

    /// Does a drawing call of the places of the rectangles in `list`. Answers `OUT_OF_RANGE` where a coordinate is not from -2^20 to 2^20.
    fn draw_places(&mut self, list: &[Corners], call: RegionCall) -> i32
        ensures { draws_places (map rect_of list.now) (event_by call) self.old self.new result };

    /// Replaces the colours of a rectangle, row by row, and owes it to every viewer. Answers the code of `BadRect` or `BadPixelCount` too.
    fn paint(&mut self, x1: i32, y1: i32, x2: i32, y2: i32, colours: &[u32]) -> i32
        ensures { draws (Event.Paint (record { x1 = x1; y1 = y1; x2 = x2; y2 = y2 }) colours.now) self.old self.new result }
    {
        let rect = Rect { x1, y1, x2, y2 };
        self.draw(&Drawing::Paint { rect, colours })
    }

    /// Replaces the colours of a rectangle, row by row, and tells no viewer. Answers what `paint` answers.
    fn write_pixels(&mut self, x1: i32, y1: i32, x2: i32, y2: i32, colours: &[u32]) -> i32
        ensures { draws (Event.Write (record { x1 = x1; y1 = y1; x2 = x2; y2 = y2 }) colours.now) self.old self.new result }
    {
        let rect = Rect { x1, y1, x2, y2 };
        self.draw(&Drawing::Write { rect, colours })
    }

    /// Owes the places of a rectangle that are on the screen to every viewer (`rfbMarkRectAsModified` of `rfb.h`).
    fn mark_rect(&mut self, x1: i32, y1: i32, x2: i32, y2: i32) -> i32
        ensures { draws (Event.Mark (record { x1 = x1; y1 = y1; x2 = x2; y2 = y2 } ∷ [])) self.old self.new result }
    {
        self.draw(&Drawing::MarkRect(Rect { x1, y1, x2, y2 }))
    }

    /// Owes the places of the rectangles in `list` that are on the screen to every viewer (`rfbMarkRegionAsModified` of `rfb.h`). Answers
    /// what `draw_places` answers.
    fn mark_region(&mut self, list: &[Corners]) -> i32
        ensures { draws_places (map rect_of list.now) (λ places. Event.Mark places) self.old self.new result }
    {
        self.draw_places(list, RegionCall::Mark)
    }

    /// Tells every viewer that the places of a rectangle get the colours of the places (dx, dy) before them (`rfbScheduleCopyRect` of
    /// `rfb.h`). The picture stays.
    fn schedule_copy_rect(&mut self, x1: i32, y1: i32, x2: i32, y2: i32, dx: i32, dy: i32) -> i32
        ensures { draws (Event.ScheduleCopy (record { x1 = x1; y1 = y1; x2 = x2; y2 = y2 } ∷ []) dx dy) self.old self.new result }
    {
        let rect = Rect { x1, y1, x2, y2 };
        self.draw(&Drawing::ScheduleCopyRect { rect, dx, dy })
    }

    /// Does what `schedule_copy_rect` does for the places of the rectangles in `list` (`rfbScheduleCopyRegion` of `rfb.h`). Answers what
    /// `draw_places` answers.
    fn schedule_copy_region(&mut self, list: &[Corners], dx: i32, dy: i32) -> i32
        ensures { draws_places (map rect_of list.now) (λ places. Event.ScheduleCopy places dx dy) self.old self.new result }
    {
        self.draw_places(list, RegionCall::ScheduleCopy { dx, dy })
    }

    /// Gives the places of a rectangle the colours that the places (dx, dy) before them had, all at once, and tells every viewer
    /// (`rfbDoCopyRect` of `rfb.h`).
    fn do_copy_rect(&mut self, x1: i32, y1: i32, x2: i32, y2: i32, dx: i32, dy: i32) -> i32
        ensures { draws (Event.DoCopy (record { x1 = x1; y1 = y1; x2 = x2; y2 = y2 } ∷ []) dx dy) self.old self.new result }
    {
        let rect = Rect { x1, y1, x2, y2 };
        self.draw(&Drawing::DoCopyRect { rect, dx, dy })
    }

    /// Does what `do_copy_rect` does for the places of the rectangles in `list` (`rfbDoCopyRegion` of `rfb.h`). Answers what `draw_places`
    /// answers.
    fn do_copy_region(&mut self, list: &[Corners], dx: i32, dy: i32) -> i32
        ensures { draws_places (map rect_of list.now) (λ places. Event.DoCopy places dx dy) self.old self.new result }
    {
        self.draw_places(list, RegionCall::DoCopy { dx, dy })
    }

    /// Keeps a bell for every open viewer for which fewer than 64 notices wait (`rfbSendBell` of `rfb.h`).
    fn bell(&mut self) -> i32
        ensures { draws Event.Bell self.old self.new result }
    {
        self.draw(&Drawing::Bell)
    }

    /// Keeps a text for every open viewer for which fewer than 64 notices wait (`rfbSendServerCutText` of `rfb.h`). Answers the code of
    /// `TextTooLong` too.
    fn cut_text(&mut self, text: &[u8]) -> i32
        ensures { draws (Event.CutText text.now) self.old self.new result }
    {
        self.draw(&Drawing::CutText(text))
    }

    /// Replaces the framebuffer by one that is 0 everywhere, and owes every place to every viewer (`rfbNewFramebuffer` of `rfb.h`). Answers
    /// the code of `BadSize` too.
    fn new_framebuffer(&mut self, width: u32, height: u32) -> i32
        ensures { draws (Event.Resize width height) self.old self.new result }
    {
        self.draw(&Drawing::NewFramebuffer { width, height })
    }
}
