//! A session without what was typed, pointed at and copied at its viewers: zeros stand in the place of these bytes, and the
//! server sends each viewer the same.
//!
//! Zeros are all bytes of a KeyEvent and of a PointerEvent behind the type, and those of a ClientCutText behind its length (RFC
//! 6143 sections 7.5.4 to 7.5.6). So are the bytes that nobody hears: those behind a fault, and those of a viewer that isn't
//! there. All else stays, the padding and the length of a text among it, and what the application gives to viewers.
//!
//! ```
//! let mut redactor = Redactor::new(alloc);
//! for event in events {
//!     let event = redactor.redacted(event)?;
//!     ..
//! }
//! ```
#![tactic(auto)]

mod fronts;
mod laws;
mod place;
mod redactor;

pub use laws::{redacted_is_answered_alike, secrets_leave_no_trace};
pub use redactor::Redactor;
