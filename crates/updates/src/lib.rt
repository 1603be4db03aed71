//! What a viewer is sent in one step: what it is made of, and its bytes (RFC 6143, 7.6 and 7.7).
//!
//! `update` is one, `parts` what it says of the screen, and `taking` takes that out of the picture. `colours` are those of one rectangle,
//! `translation` is a viewer's format with what makes pixels of them, `notices` go before the rectangles, and `sizes` a screen's size.
//! `remaining` is what of an update is still to be encoded, and `stream` gives an update in pieces.
#![tactic(auto)]

mod colours;
mod notices;
mod parts;
mod remaining;
mod sizes;
mod stream;
mod taking;
mod translation;
mod update;

pub use notices::{Notice, Notices, Text};
pub use parts::Part;
pub use remaining::RemainingRectangles;
pub use sizes::Size;
pub use stream::{STREAM_BUFFER, STREAM_PIECE, Stream};
pub use taking::{pixels_to_encode, places_of, shared_places_of};
pub use translation::Translation;
pub use update::Update;
