//! Reads a session that a server recorded, and says who was there, what a viewer was sent, what it saw, and what was drawn; or writes it
//! again without what is secret.
//!
//! A session is a script with a few lines more (`session_line`), and is read a line at a time. Of its events only those are done on which
//! the answer depends: for one viewer the drawing calls and its own.
#![tactic(auto)]

mod answered;
mod laws;
mod lines;
mod pictures;
mod reading;
mod redacted;
mod replaying;
mod seen;
mod sent;
mod session;
mod stop;
mod texts;
mod viewers;

pub use laws::{
    accepted_is_sent, accepted_is_sound, beginnings_are_sessions, good_lines_are_read,
    lines_are_read, recorded_is_replayed, redacted_is_read, said_is_answered_alike,
    secrets_are_not_written, sessions_are_read,
};
pub use lines::session_line;
pub use reading::LINE_LIMIT;
pub use replaying::{Asked, Question, replay_over};
