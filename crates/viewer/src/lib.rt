//! One viewer of a screen: what is kept of its bytes, what it asked for, what it is owed, the notices that wait for it, and
//! what it is sent.
//!
//! `viewer` is what is kept of a viewer, `hearing` what its messages do to it, `cutting` what it is sent next, `settings` what it has
//! set, and `views` what of the screen it sees. `updates` has what one update is made of, and its bytes.
#![tactic(auto)]

mod cutting;
mod hearing;
mod settings;
mod viewer;
mod views;

pub use copy_schedule::{LogEntry, Prepared};
pub use cutting::PreparedUpdate;
use listed::Listed;
pub use messages::Encoding;
use messages::{Fault, Input};
pub use pixel_translate::{BitsPerPixel, Component, PixelFormat, Pixels};
pub use settings::Settings;
pub use updates::{Notice, STREAM_BUFFER, STREAM_PIECE, Size, Stream, Text, Update};
pub use viewer::Viewer;

/// What a viewer's bytes give (RFC 6143, 7.1 to 7.5).
#[derive(Drop)]
pub struct Reply {
    /// For the viewer.
    pub bytes: Listed<u8>,
    /// For the application.
    pub inputs: Listed<Input>,
    /// Why the viewer is heard no further.
    pub fault: Option<Fault>,
}

/// What comes of a piece of a viewer's bytes.
#[derive(Drop)]
pub struct HeardPiece {
    /// What the viewer is answered.
    pub reply: Reply,
    /// Whether the viewer's marks know the drawing of the log now that came with the piece. Inputs alone change no marks, so they
    /// lack it as before then.
    pub knows_log: bool,
}
