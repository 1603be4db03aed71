//! What a VNC server says of its picture, drawn on a canvas (RFC 6143, 7.6 and 7.7).
//!
//! ```
//! let mut picture = SourcePicture::new(alloc, width, height);
//! let mut left = piece;
//! while !left.is_empty() {
//!     left = picture.draw(canvas, left)?;
//! }
//! if picture.request() != Request::None {
//!     // request all of it, or what changes, and then
//!     picture.asked();
//! }
//! ```
//!
//! The bytes come in pieces of any length. What they say is read by `server_reader`, and is on the canvas as `draw` returns; small areas
//! that lie side by side wait until then, and are done together. Pixels are compared with the canvas, so that only what differs is
//! painted. Bells and texts go to the viewers.
#![tactic(auto)]

mod asking;
mod band;
mod laws;
mod painter;
mod source;
mod text;

pub use laws::mirrors_as_the_rfc;
pub use source::{DrawEnd, Request, SourcePicture};
