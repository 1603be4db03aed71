//! One picture, many viewers: drawing, the viewers' bytes, and what is sent to each. A scene knows what stands now, and
//! nothing of how it came to that.
#![tactic(auto)]

ghost use Rattle.std.specs.Prelude.{◌≡◌, IfOk};

mod answers;
mod call;
mod connecting;
mod drawing;
mod laws;
mod limits;
mod scene;

pub use call::Drawing;
pub use laws::{
    accepted_happens_again, accepted_is_enough, held_as_alone, maps_are_there, one_viewer_is_alone,
    pictures_are_shown, refusals_are_due, viewers_are_alone,
};
pub use limits::{
    LONGEST_NAME, LONGEST_TEXT, MOST_PLACES, MOST_RECTS, config_refusal, pixels_refusal,
    size_refusal, text_refusal,
};
pub use listed::Listed;
pub use messages::{Fault, Input};
pub use region::{Rect, Region, RegionError};
pub use scene::Scene;
use std::alloc::{AllocError, AllocFailed, Global};
use thiserror::Error;
pub use viewer::Update;

/// What a screen is made with.
#[derive(Debug, Drop)]
pub struct Config {
    /// Columns, 1 to 8192; at most 2^24 places in all.
    pub width: u32,
    /// Rows, 1 to 8192.
    pub height: u32,
    /// The desktop's name (RFC 6143, 7.3.2), at most 255 bytes.
    pub name: Listed<u8>,
    /// How many copies, and how many pixel rectangles, one update has at most: 1 to 1000.
    pub rects_per_update: u32,
    /// Whether the events are kept.
    pub history: History,
}

impl Config {
    /// Returns a copy of the configuration. `AllocError` where memory for its name is refused.
    pub fn try_clone(&self, alloc: Global) -> Result<Config, AllocError>
        ensures { IfOk result (λ config. config ≡ self.now) }
    {
        Ok(Config {
            width: self.width,
            height: self.height,
            name: Listed::from_slice(alloc, self.name.as_slice())?,
            rects_per_update: self.rects_per_update,
            history: self.history,
        })
    }
}

/// Whether a screen keeps the events that it accepted.
#[derive(Clone, Copy, Debug, PartialEq, Eq)]
pub enum History {
    /// Each accepted event is kept, with its data: for checking, since it grows with each call, by a whole screen's colours
    /// (4 bytes a place) where a whole screen is painted.
    Kept,
    /// No event is kept: for a server.
    NotKept,
}

/// Why a call is refused. Nothing has changed then, but for what `Screen::take` says. Its text is the variant's name.
#[derive(Clone, Copy, Debug, PartialEq, Eq, Error)]
pub enum ScreenError {
    /// The width or the height is not from 1 to 8192, or there are more than 2^24 places: make a smaller screen.
    #[error("BadSize")]
    BadSize,
    /// The name has more than 255 bytes: shorten it.
    #[error("BadName")]
    BadName,
    /// The limit of rectangles is not from 1 to 1000: 50 serves where nothing is known of the viewers.
    #[error("BadRectLimit")]
    BadRectLimit,
    /// The rectangle is not on the screen, or its corners are in the wrong order: clip it first.
    #[error("BadRect")]
    BadRect,
    /// There are not as many colours as places: give one for each, row by row.
    #[error("BadPixelCount")]
    BadPixelCount,
    /// The text has more than 65,536 bytes: shorten it.
    #[error("TextTooLong")]
    TextTooLong,
    /// No live viewer has the number: it never connected, or was closed.
    #[error("NoViewer")]
    NoViewer,
    /// A live viewer has the number already: close it first, or take another number.
    #[error("NumberInUse")]
    NumberInUse,
    /// A growth was refused: make the call again once there is memory.
    #[error("OutOfMemory")]
    OutOfMemory,
}

impl From<AllocError> for ScreenError {
    ghost use Rattle.std.specs.Prelude.{◌≡◌};
    ghost use Rattle.scene.specs.declared.ScreenError.TheVariants.{OutOfMemory};

    ghost from_gives = { λ _ e. e ≡ OutOfMemory };

    fn from(_error: AllocError) -> ScreenError {
        ScreenError::OutOfMemory
    }
}

impl<T: Drop> From<AllocFailed<T>> for ScreenError {
    ghost use Rattle.std.specs.Prelude.{◌≡◌};
    ghost use Rattle.scene.specs.declared.ScreenError.TheVariants.{OutOfMemory};

    ghost from_gives = { λ _ e. e ≡ OutOfMemory };

    fn from(_error: AllocFailed<T>) -> ScreenError {
        ScreenError::OutOfMemory
    }
}

/// One event of the screen: a drawing call, or an event of one viewer.
#[derive(Debug, Drop)]
pub enum Event {
    /// The rectangle's colours `0x00RRGGBB`, row by row, replace those of the picture; no viewer is told.
    Write {
        rect: Rect,
        colours: Listed<u32>,
    },
    /// The same, and the rectangle is owed to every viewer.
    Paint {
        rect: Rect,
        colours: Listed<u32>,
    },
    /// The places of the rectangles are owed to every viewer. Here, and in copies, a list of rectangles stands for the places
    /// of all of them, each with its corners in order.
    Mark {
        rects: Listed<Rect>,
    },
    /// Every viewer is told of a copy to the rectangles' places from the places (dx, dy) before them; the picture stays.
    ScheduleCopy {
        rects: Listed<Rect>,
        dx: i32,
        dy: i32,
    },
    /// The copy is made in the picture, and every viewer is told.
    DoCopy {
        rects: Listed<Rect>,
        dx: i32,
        dy: i32,
    },
    /// A bell for every open viewer.
    Bell,
    /// A text for every open viewer.
    CutText {
        text: Listed<u8>,
    },
    /// The screen gets `width` columns and `height` rows, and is 0 everywhere; every place is owed to every viewer.
    Resize {
        width: u32,
        height: u32,
    },
    /// A viewer connects.
    Connect {
        viewer: u64,
    },
    /// A piece of a viewer's bytes is heard.
    Hear {
        viewer: u64,
        piece: Listed<u8>,
    },
    /// An update is cut for a viewer.
    Cut {
        viewer: u64,
    },
    /// A viewer's connection is closed.
    Close {
        viewer: u64,
    },
}

/// What an event gave.
#[derive(Debug, Drop)]
pub struct Answer {
    /// For the viewer.
    pub bytes: Listed<u8>,
    /// For the application.
    pub inputs: Listed<Input>,
    /// Why the viewer is heard no further.
    pub closed: Option<Fault>,
    /// Why nothing happened.
    pub refused: Option<ScreenError>,
}
