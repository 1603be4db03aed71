//! One screen, many viewers, and the events that led to what stands there, where they are kept.
//!
//! A viewer opens, asks for the framebuffer, and is sent the place that was painted red beside a black one:
//!
//! ```
//! use screen::{Draw, Rect, Screen};
//!
//! let mut screen = Screen::new(alloc, config)?; // 2 by 1
//! screen.connect(1)?;
//! screen.hear(1, b"RFB 003.008\n\x01\x01")?;
//! screen.hear(1, b"\x03\x00\x00\x00\x00\x00\x00\x02\x00\x01")?;
//! screen.paint(Rect { x1: 0, y1: 0, x2: 1, y2: 1 }, &[0xff_0000])?;
//! if let Some(update) = screen.cut(1)? {
//!     let bytes = update.encode()?; // 0000 0001 0000 0000 0002 0001 00000000 0000ff00 00000000
//! }
//! ```
//!
//! A program may have a framebuffer of its own, of 320 columns in 32 bits, and say that 64 columns and 48 rows of it from (16, 8) on
//! may have changed:
//!
//! ```
//! let first = &framebuffer[8 * 1280 + 16 * 4..];
//! let source = PixelSource::new(first, 1280, 64, 48, SourceFormat::TrueColour(TrueColour::server()))?;
//! let places = screen.take(alloc, 16, 8, &source)?; // how many places changed
//! ```
//!
//! A program that draws through another type than `Screen` asks for the `differences`, and paints each piece in the `rect_of` it.
#![tactic(auto)]

mod draw;
mod kept_events;
mod painting;
mod part;
mod runs;
mod screen;
mod taking;
mod witness;

pub use draw::Draw;
pub use kept_events::{event_in, list_for};
pub use listed::Listed;
pub use messages::{Fault, Input};
pub use region::{Rect, Region, RegionError};
pub use runs::{kept_is_enough, kept_is_kept, run};
pub use scene::{
    Answer, Config, Drawing, Event, History, LONGEST_NAME, LONGEST_TEXT, MOST_PLACES, MOST_RECTS,
    ScreenError, config_refusal, held_as_alone, maps_are_there, one_viewer_is_alone,
    pictures_are_shown, pixels_refusal, size_refusal, text_refusal, viewers_are_alone,
};
pub use screen::Screen;
pub use source_pixels::{
    BytesPerPixel, Differences, Piece, PixelSource, SourceError, SourceFormat, TrueColour,
};
pub use taking::rect_of;
pub use viewer::{BitsPerPixel, Component, Encoding, PixelFormat, Pixels, Settings, Update};
pub use witness::{Nobody, Witness};

/// The error of a call that is refused memory.
pub use std::alloc::AllocError as OutOfMemory;
