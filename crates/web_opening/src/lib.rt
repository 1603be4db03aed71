//! A browser's opening handshake (RFC 6455, 4.2), with no socket and no clock: it takes a request's head in whatever pieces it comes,
//! says who is let in, and makes the bytes of the answer. Another layer reads and writes.
//!
//! Any target is a WebSocket's: there is no 404. A page that is served at the same port is another layer's.
//!
//! ```
//! let taken = opening.take(piece)?;
//! if let Some(verdict) = opening.verdict(&admission) {
//!     write(&verdict.response(alloc)?);
//!     if verdict.is_accepted() {
//!         frames.take(&piece[taken..]);
//!     }
//! }
//! ```
#![tactic(auto)]

mod admission;
mod answers;
mod head;
mod judge;
mod laws;
mod lines;
mod opening;
mod text;

pub use admission::Admission;
pub use answers::{Acceptance, Refusal, Verdict};
pub use head::MOST_BYTES;
pub use judge::MOST_LINES;
pub use laws::{accepts_what_is_allowed, takes_any_cut};
pub use opening::Opening;
