//! Ending a server from another thread.

ghost use Rattle.std.specs.Prelude.{◌≡◌, IfErr, true};

use crate::doorbell::Doorbell;
use crate::serving::ServeError;
use std::net::TcpListener;
use std::sync::atomic::{AtomicBool, Ordering};

/// Ends servers from another thread. One may end several servers; what was stopped stays so.
#[derive(Drop)]
pub struct Stop {
    is_called: AtomicBool,
    // is rung once it is called, and never quiet again
    bell: Doorbell,
}

impl Stop {
    /// Makes one that wasn't called yet. `Network` where the system has no descriptor for it.
    pub fn new() -> Result<Stop, ServeError>
        ensures { IfErr result (λ e. e ≡ ServeError.Network) }
    {
        match Doorbell::new() {
            Some(bell) => Ok(Stop::with(bell)),
            None => Err(ServeError::Network),
        }
    }

    /// Makes one that nobody can call, which takes no descriptor.
    pub(crate) fn never() -> Stop {
        Stop::with(Doorbell::silent())
    }

    /// Makes one that wasn't called yet, with its bell.
    fn with(bell: Doorbell) -> Stop {
        Stop {
            is_called: AtomicBool::new(false),
            bell,
        }
    }

    /// Ends the servers that were given this, and each that is given it later: their connections are shut, and they return once their
    /// threads have ended. Returns at once; it may be called from any thread, and often.
    pub fn stop(&self) {
        self.is_called.store(true, Ordering::SeqCst);
        self.bell.ring();
    }

    /// Returns whether `stop` was called.
    pub fn is_stopped(&self) -> bool {
        self.is_called.load(Ordering::SeqCst)
    }

    /// Returns what rings once it is called.
    pub(crate) fn bell(&self) -> &Doorbell {
        &self.bell
    }
}

/// Where connections come from, and what ends the waiting for them.
#[derive(Drop)]
pub(crate) struct Door<'s> {
    pub listener: &'s TcpListener,
    pub stop: &'s Stop,
    // whether the server may be stopped; else nobody has its `stop`
    pub may_stop: bool,
}

impl<'s> Door<'s> {
    /// Returns whether the server was stopped.
    pub fn is_stopped(&self) -> bool
        ensures { result ≡ true → self.now.may_stop ≡ true }
    {
        if !self.may_stop {
            return false;
        }
        self.stop.is_stopped()
    }
}
