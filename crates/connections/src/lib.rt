//! The connections of a screen's viewers, served in one thread: what each viewer says is read and heard, what it is given is
//! written as far as its transport takes it, and the application draws in between. Nothing here waits, and no socket is named: a
//! program says which transports are ready, and takes turns.
//!
//! ```
//! use connections::{Connections, Draw};
//!
//! let mut connections = Connections::new(alloc, config)?;
//! let key = connections.admit(transport)?;
//! connections.turn(&mut application)?;
//! connections.canvas().paint(rect, &[0xff_0000])?;
//! connections.turn(&mut application)?;
//! ```
//!
//! Whatever the others do, each transport is written what the screen with this one viewer gives: `Connections::turn`.
#![tactic(auto)]

mod agenda;
mod application;
mod canvas;
mod connections;
mod laws;
mod listing;
mod record;
mod turn;

pub use application::Application;
pub use canvas::Canvas;
pub use connection::{Both, Departed, Readiness, Transport};
pub use connections::Connections;
pub use held_inputs::HeldInputs;
pub use laws::drawn_is_served;
pub use receipts::{Ended, Receipt};
pub use record_writer::{PrivateFile, RecordWriter};
pub use screen::{Config, Draw, Fault, History, Input, Listed, Rect, Region, Screen, ScreenError};
