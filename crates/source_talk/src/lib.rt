//! The conversation with a VNC server whose picture is shown on, a source, at the viewer's side (RFC 6143, 7.1 to 7.3 and 7.5), without its
//! socket: what its opening says and is answered, and what is written to it from then on.
//!
//! ```
//! let mut opening = Opening::new(alloc);
//! let (count, heard) = opening.hear(piece)?;   // so many bytes of the piece were taken
//! opening.answer(&mut outbox)?;                // what they are answered waits to be written
//! ```
//!
//! Versions 3.3, 3.7 and 3.8 are spoken, and each other one as 3.3; the one security type is None; others may watch the source too.
#![tactic(auto)]

mod laws;
mod naming;
mod numbers;
mod opening;
mod outbox;
mod requests;

pub use laws::{
    answers_stay, heard_stays, messages_are_spelled, opening_is_read, opening_is_short,
};
pub use naming::Naming;
pub use opening::{Answered, Heard, Init, Opening, OpeningEnd, heard_by};
pub use outbox::{LONGEST_TEXT, MOST_WAITING, Outbox};
