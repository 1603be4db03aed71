//! A reader of what a VNC server says to a viewer behind its ServerInit (RFC 6143, 7.6 and 7.7): it is told pieces of any length, and gives
//! what they do to the picture, step by step.
//!
//! ```
//! let mut reader = Reader::new(640, 480);
//! let mut left = piece;
//! while let Some(next) = reader.next(left)? {
//!     // do next.step to the picture
//!     left = next.rest;
//! }
//! ```
//!
//! Pixels are in the server's own format, 32 bits, the lowest byte first, red at 16, green at 8, blue at 0, which the server was asked for
//! (7.5.1). CopyRect, RRE, Hextile and DesktopSize are taken as listed (7.5.2). The reader takes no memory: it keeps at most 11 bytes of a
//! head. Rows of Raw and texts are handed on where they stand in the piece.
//!
//! How long a text, or how large a picture may be, is for the caller to say: each length is a step before what it is the length of.
#![tactic(auto)]

mod fault;
mod groups;
mod heads;
mod laws;
mod pixels;
mod reader;
mod rectangles;
mod stage;
mod step;
mod tiles;

pub use fault::ReadFault;
pub use laws::{reads_as_the_rfc, steps_are_drawn};
pub use pixel_translate::Area;
pub use reader::Reader;
pub use step::{Next, Step};
