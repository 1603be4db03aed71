//! What ends a wait from another thread.

ghost use Rattle.std.specs.Prelude.{◌≡◌, false, is_some};
ghost use Rattle.c_screen.specs.Codes as codes;
ghost use Rattle.c_server.specs.Calls.{Wakes};

use crate::codes::NETWORK_FAILED;
use c_screen::SHUT;
use event_loop::Waker;
use std::marker::Model;

/// What ends a wait of a desk's `process_events`, or the next one's, from another thread; or nothing, where it is shut. Contracts see
/// whether it is open.
#[derive(Drop)]
pub struct ServerWaker {
    waker: Option<Waker>,
}

impl Model for ServerWaker {
    ghost use Rattle.std.specs.Prelude.{Bool, is_some};

    ghost Value = { Bool };

    ghost view = { λ a. is_some a.waker };
}

impl ServerWaker {
    /// Returns what wakes by `waker`, or is shut where there is none.
    pub(crate) fn new(waker: Option<Waker>) -> ServerWaker
        ensures { result ≡ is_some waker }
    {
        ServerWaker { waker }
    }

    /// Ends the wait: 0. `SHUT` where it is shut, and `NETWORK_FAILED` where the system refuses it. It doesn't wait.
    pub fn wake(&mut self) -> i32
        ensures { Wakes self.old self.new result }
    {
        let Some(waker) = &self.waker else {
            return SHUT;
        };
        match waker.wake() {
            Ok(()) => 0,
            Err(_) => NETWORK_FAILED,
        }
    }

    /// Shuts it. Answers 0, also where it was shut.
    pub fn close(&mut self) -> i32
        ensures { (self.new ≡ false) × (result ≡ codes.done) }
    {
        self.waker = None;
        0
    }
}
