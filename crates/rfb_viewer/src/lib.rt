//! A viewer by RFC 6143, for tests: it reads what a server sends, in any pieces, and says what each place of the screen shows.
//!
//! It is written from the RFC alone, and shares no code with the server's encoders but the format of pixels (`pixel_translate`). `groups`
//! has the numbers in a group of bytes, `stages` says what comes next and how many bytes it has, `opening`, `updates`, `rectangles` and
//! `tiles` read one group each, `canvas` has what is shown, and `shown` the calls.
#![tactic(auto)]

mod canvas;
mod fault;
mod groups;
mod opening;
mod rectangles;
mod shown;
mod stages;
mod tiles;
mod updates;

pub use canvas::Dot;
pub use fault::{Fault, FaultKind};
pub use messages::Version;
pub use pixel_translate::{Area, PixelFormat};
pub use shown::Shown;
