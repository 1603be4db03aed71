//! A shared screen served over TCP: each connection is a viewer with a reader and a sender thread of its own, and one
//! application draws, and is told what the viewers do.
//!
//! Whatever stream a viewer is served on, its receipt tells what was read of it and written to it (`serve_connection`). No clause says
//! what a socket delivers, or that two threads ran: tests over loopback show it.
//!
//! A server of one viewer, whole in the crate `example_pointer`:
//!
//! ```
//! let (shared, mut brush) = Shared::<L>::new(alloc, blank, config)?;
//! let mut application = Square::on(WIDTH, HEIGHT, 0, 0); // an Application
//! let receipts = serve_viewers(rt, alloc, &listener, &shared, &mut brush, 1, &mut application)?;
//! ```
#![tactic(auto)]

mod accepting;
mod application;
mod connection;
mod doorbell;
mod guests;
mod open_connections;
mod opening_time;
mod receiving;
mod service;
mod serving;
mod socket;
mod stop;
mod turning_away;

pub use application::{Application, Departed};
pub use input_queue::Told;
pub use listed::Listed;
pub use messages::Input;
pub use serving::{
    INPUTS, ServeError, serve_forever, serve_viewers, serve_viewers_until, serve_viewers_with_queue,
};
pub use stop::Stop;
pub use update_sender::{
    Brush, Config, Ended, FinishError, History, Rect, Region, Report, ScreenError, Sent, Shared,
    finish,
};
