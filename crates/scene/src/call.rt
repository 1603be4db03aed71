//! The drawing calls of an application, as one value each.

ghost use Rattle.std.specs.Prelude.{◌≡◌, ◌∷◌, [], IfOk};
ghost use Rattle.scene.specs.Calls.{call_refusal, event_of};

use crate::limits::{pixels_refusal, size_refusal, text_refusal};
use crate::{Event, ScreenError};
use listed::Listed;
use region::{Rect, Region};
use std::alloc::{AllocError, Global};

/// Returns a rectangle as a list.
fn list_of(alloc: Global, rect: Rect) -> Result<Listed<Rect>, AllocError>
    ensures { IfOk result (λ rects. rects ≡ rect ∷ []) }
{
    Listed::from_slice(alloc, &[rect])
}

/// Returns a region's canonical list.
fn rects_of(region: &Region) -> Result<Listed<Rect>, AllocError>
    ensures { IfOk result (λ rects. rects ≡ region.now.list) }
{
    region.rects(false, false)
}

/// One drawing call with what it draws. Rectangles are as they were given.
#[derive(Drop)]
pub enum Drawing<'a> {
    /// The colours of a rectangle are replaced by others, row by row, and no viewer is told.
    Write {
        rect: Rect,
        colours: &'a [u32],
    },
    /// The same, and the rectangle is owed to every viewer.
    Paint {
        rect: Rect,
        colours: &'a [u32],
    },
    /// A rectangle is owed to every viewer (`rfbMarkRectAsModified` of `rfb.h`).
    MarkRect(Rect),
    /// A region is owed to every viewer (`rfbMarkRegionAsModified` of `rfb.h`).
    MarkRegion(&'a Region),
    /// Viewers are told that a rectangle gets the colours of the places (dx, dy) before it (`rfbScheduleCopyRect` of `rfb.h`).
    ScheduleCopyRect {
        rect: Rect,
        dx: i32,
        dy: i32,
    },
    /// The same of a region (`rfbScheduleCopyRegion` of `rfb.h`).
    ScheduleCopyRegion {
        region: &'a Region,
        dx: i32,
        dy: i32,
    },
    /// A rectangle gets the colours of the places (dx, dy) before it, and viewers are told (`rfbDoCopyRect` of `rfb.h`).
    DoCopyRect {
        rect: Rect,
        dx: i32,
        dy: i32,
    },
    /// The same of a region (`rfbDoCopyRegion` of `rfb.h`).
    DoCopyRegion {
        region: &'a Region,
        dx: i32,
        dy: i32,
    },
    /// A bell for every open viewer (`rfbSendBell` of `rfb.h`).
    Bell,
    /// A text for every open viewer (`rfbSendServerCutText` of `rfb.h`).
    CutText(&'a [u8]),
    /// The framebuffer is replaced by one of this size that is 0 everywhere (`rfbNewFramebuffer` of `rfb.h`).
    NewFramebuffer {
        width: u32,
        height: u32,
    },
}

impl<'a> Drawing<'a> {
    /// Returns why the call is refused on a screen of `width` columns and `height` rows, if it is.
    pub fn refusal(&self, width: u32, height: u32) -> Option<ScreenError>
        ensures { result ≡ call_refusal width height self.now }
    {
        match self {
            Drawing::Write { rect, colours } | Drawing::Paint { rect, colours } => {
                pixels_refusal(width, height, *rect, colours)
            }
            Drawing::CutText(text) => text_refusal(text),
            Drawing::NewFramebuffer { width, height } => size_refusal(*width, *height),
            _ => None,
        }
    }

    /// Returns the event that the call is: with a rectangle as it was given, with a region's canonical list.
    pub fn to_event(&self, alloc: Global) -> Result<Event, AllocError>
        ensures { IfOk result (λ event. event ≡ event_of self.now) }
    {
        Ok(match self {
            Drawing::Write { rect, colours } => Event::Write {
                rect: *rect,
                colours: Listed::from_slice(alloc, colours)?,
            },
            Drawing::Paint { rect, colours } => Event::Paint {
                rect: *rect,
                colours: Listed::from_slice(alloc, colours)?,
            },
            Drawing::MarkRect(rect) => Event::Mark {
                rects: list_of(alloc, *rect)?,
            },
            Drawing::MarkRegion(region) => Event::Mark {
                rects: rects_of(region)?,
            },
            Drawing::ScheduleCopyRect { rect, dx, dy } => Event::ScheduleCopy {
                rects: list_of(alloc, *rect)?,
                dx: *dx,
                dy: *dy,
            },
            Drawing::ScheduleCopyRegion { region, dx, dy } => Event::ScheduleCopy {
                rects: rects_of(region)?,
                dx: *dx,
                dy: *dy,
            },
            Drawing::DoCopyRect { rect, dx, dy } => Event::DoCopy {
                rects: list_of(alloc, *rect)?,
                dx: *dx,
                dy: *dy,
            },
            Drawing::DoCopyRegion { region, dx, dy } => Event::DoCopy {
                rects: rects_of(region)?,
                dx: *dx,
                dy: *dy,
            },
            Drawing::Bell => Event::Bell,
            Drawing::CutText(text) => Event::CutText {
                text: Listed::from_slice(alloc, text)?,
            },
            Drawing::NewFramebuffer { width, height } => Event::Resize {
                width: *width,
                height: *height,
            },
        })
    }
}
