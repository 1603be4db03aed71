//! A screen served over TCP by one thread: an event loop over the readiness of sockets. No lock is taken, no thread is started, and
//! a turn waits for as long as it is told.
//!
//! A program takes turns by `EventLoop::process_events` (`rfbProcessEvents` of `rfb.h`) and draws in between, or it calls
//! `EventLoop::run`, and its application draws when it is told something, and when its time has come:
//!
//! ```
//! let listener = TcpListener::bind(rt, address)?;
//! let mut served = EventLoop::new(rt, alloc, listener, config, Limits::usual())?;
//! served.run(rt, &mut application)?;
//! ```
//!
//! A loop without a listener is made by `EventLoop::unbound`. Any loop listens further by `EventLoop::listen`, or at a socket of UNIX by
//! `EventLoop::listen_unix`, and takes in connections that the program has by `EventLoop::adopt`. `EventLoop::listen_web` lets browsers in
//! by a listener of their own, over WebSockets (RFC 6455). `EventLoop::watch` has the application told where a stream of the program's own
//! is ready.
//!
//! What a viewer is sent is what its stream is written, whatever stream that is, and nothing else; no clause says what a socket delivers,
//! or when: tests over loopback show it.
#![tactic(auto)]

mod event_loop;
mod limits;
mod opening;
mod traffic;
mod turns;
mod viewers;

pub use connections::{
    Application, Canvas, Config, Draw, Ended, Fault, History, Input, Listed, PrivateFile,
    Readiness, Receipt, RecordWriter, Rect, Region, Screen, ScreenError, drawn_is_served,
};
pub use event_loop::{EventLoop, LoopError};
pub use limits::{Limits, WhenFull};
pub use mio::Waker;
pub use traffic::Traffic;
pub use viewers::Admission;
pub use web_opening::Admission as LetIn;
