//! One viewer's marks of the places of a framebuffer: what the viewer lacks of it, what it may copy on its own side, what it
//! asked for, and so what the next update sends by CopyRect and what by pixels.
//!
//! Each call is one equation with a definition of `specs/Marks.antt`, or of `specs/Log.antt` for a log. The rectangles that an update
//! sends are the first ones of the canonical list of a set of places: its rows in maximal bands of equal contents, each band in maximal
//! intervals.
//!
//! `marks` holds three regions: the owed, the copied and the asked places. `sets` has set operations, for which `windows` finds
//! a rectangle's part of a screen; `mark_sets` has what drawing and requests do to the owed and the copied places, and `chosen` what
//! an update sends. `log` has drawing that a viewer's marks lack yet: a list of entries, as several viewers share it, of which
//! each may catch up later. Every call makes its new regions first and then puts them in place, so a refused one changes nothing.
#![tactic(auto)]

ghost use Rattle.std.specs.Prelude.{◌≡◌};
ghost use Rattle.region.specs.Copies.{copies_are_in_order};
ghost use Rattle.copy_schedule.specs.Log.{drawn_by};

mod chosen;
mod log;
mod mark_sets;
mod marks;
mod sets;
mod windows;

use listed::Listed;
pub use log::joined_log;
pub use marks::{Marks, Prepared, PreparedCut};
use region::{Rect, Region};

/// The error of a call that is refused memory.
pub use std::alloc::AllocError as OutOfMemory;

/// Proves that an update sends its copies in an order in which none is drawn over the source of a later one.
pub fn copies_are_in_order()
    ensures { copies_are_in_order }
{}

/// What a viewer has of a place.
#[derive(Clone, Copy, Debug, PartialEq, Eq)]
pub enum Mark {
    /// The viewer shows it, as far as it asked.
    Clean,
    /// The viewer has its colour at the place less the offset.
    Copied,
    /// The viewer has neither.
    Owed,
}

/// What one update sends: a FramebufferUpdate (RFC 6143, section 7.6.1) with the copies, in this order, and then the pixels.
#[derive(Drop)]
pub struct Cut {
    /// Rectangles that the viewer copies from the places less the offset (CopyRect, RFC 6143, section 7.7.2), in an order in
    /// which none is drawn over a later one's source.
    pub copies: Listed<Rect>,
    /// The offset (dx, dy) of the copies, in places, to the right and down; also where there are none.
    pub offset: (i32, i32),
    /// Rectangles whose pixels the viewer needs, from the top, each row from the left.
    pub pixels: Listed<Rect>,
}

/// One drawing call, as it stands in a log that several viewers share.
#[derive(Drop)]
pub enum LogEntry {
    /// The region's places are owed, as far as they are on the screen.
    Mark(Region),
    /// A copy by (dx, dy) drew the region, which is on the screen with its sources.
    Copy { region: Region, dx: i32, dy: i32 },
}

impl LogEntry {
    /// Returns the places that the call drew.
    pub fn region(&self) -> &Region
        ensures { result.now.list ≡ drawn_by self.now }
    {
        match self {
            LogEntry::Mark(region) => region,
            LogEntry::Copy { region, .. } => region,
        }
    }
}
