//! One viewer's connection: its transport, what was read of it, what waits to be written to it, and why it ended. It knows of no screen:
//! what is read is given back, and what is to be written is given to it.
//!
//! ```
//! let mut connection = Connection::new(alloc, transport, number, is_kept, now);
//! connection.give(version, None);
//! connection.write(&mut buffer);
//! match connection.receive(&mut piece, now) {
//!     Got::Piece(count) => hear(&piece[..count]),
//!     _ => {}
//! }
//! ```
#![tactic(auto)]

mod backlog;
mod connection;
mod recording;
mod transport;

pub use backlog::Written;
pub use connection::{Connection, Departed, Got};
pub use transport::{Both, Readiness, Transport};
