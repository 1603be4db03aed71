//! What wakes the thread that accepts, beside a connection.

use libc::net::{EFD_CLOEXEC, EFD_NONBLOCK, POLLIN, eventfd, poll};
use libc::types::pollfd;
use std::net::TcpListener;
use std::os::fd::{AsRawFd, RawFd};

/// A bell that any thread may ring. It is a descriptor, so that one thread can wait for it and for a connection at once.
pub(crate) struct Doorbell {
    // a counter of the system's, which can be read once it was rung
    counter: RawFd,
}

impl Drop for Doorbell {
    fn drop(self) {
        let Doorbell { counter } = self;
        if counter >= 0 {
            libc::close(counter);
        }
    }
}

/// Why a wait for a connection ended.
#[derive(Clone, Copy)]
pub(crate) enum Woken {
    /// A connection can be accepted, or the listener failed.
    ByListener,
    /// One of the bells was rung.
    ByBell,
    /// The system didn't wait.
    Refused,
}

/// Has the system tell when something can be read.
fn watched(descriptor: RawFd) -> pollfd {
    pollfd {
        fd: descriptor,
        events: POLLIN,
        revents: 0,
    }
}

impl Doorbell {
    /// Makes a bell that wasn't rung. None where the system has no descriptor for it.
    pub fn new() -> Option<Doorbell> {
        let counter = eventfd(0, EFD_NONBLOCK | EFD_CLOEXEC);
        if counter < 0 {
            return None;
        }
        Some(Doorbell { counter })
    }

    /// Makes a bell that can't be rung, and takes no descriptor: the system looks at none below 0.
    pub fn silent() -> Doorbell {
        Doorbell { counter: -1 }
    }

    /// Rings the bell: a wait ends, now or as soon as there is one.
    pub fn ring(&self) {
        libc::write(self.counter, &1u64.to_ne_bytes());
    }

    /// Waits until a listener has a connection, or the bell is rung, which then is quiet again, or another is, which stays so.
    pub fn wait(&self, listener: &TcpListener, other: &Doorbell) -> Woken {
        let mut files = [
            watched(listener.as_raw_fd()),
            watched(self.counter),
            watched(other.counter),
        ];
        if poll(&mut files, -1) < 0 {
            return Woken::Refused;
        }
        if files[2].revents != 0 {
            return Woken::ByBell;
        }
        if files[1].revents == 0 {
            return Woken::ByListener;
        }
        let mut rings = [0u8; 8];
        libc::read(self.counter, &mut rings);
        Woken::ByBell
    }
}
