//! A listener.

ghost use Rattle.std.specs.Prelude.{◌≡◌, ◌⊎◌, ◌-◌, ◌+◌, ◌||◌, true, false, None, IsSome, IfSome, IsSomeAnd, MatchOption};
ghost use Rattle.std.specs.Duration.{as_nanos};
ghost use Rattle.std.specs.Time.{instant_nanos};
ghost use Rattle.sockets.specs.Doors.{asked_again};

use mio::net::{TcpListener, TcpStream, UnixListener};
use std::io;
use std::io::ErrorKind;
use std::os::fd::{AsRawFd, OwnedFd, RawFd};
use std::time::{Duration, Instant};

/// After how many milliseconds a listener is asked again where the system had no room for a connection.
const RETRY: u64 = 100;

/// What connections come by.
#[derive(Drop)]
pub enum Listener {
    /// A port.
    Tcp(TcpListener),
    /// A socket of UNIX.
    Unix(UnixListener),
}

impl Listener {
    /// Accepts a connection that waits. One of UNIX is a stream by its descriptor, and has no address.
    fn accept(&self) -> io::Result<TcpStream> {
        match self {
            Listener::Tcp(listener) => {
                let (stream, _address) = listener.accept()?;
                Ok(stream)
            }
            Listener::Unix(listener) => {
                let (stream, _address) = listener.accept()?;
                Ok(TcpStream::from(OwnedFd::from(stream)))
            }
        }
    }
}

impl AsRawFd for Listener {
    fn as_raw_fd(&self) -> RawFd {
        match self {
            Listener::Tcp(listener) => listener.as_raw_fd(),
            Listener::Unix(listener) => listener.as_raw_fd(),
        }
    }
}

/// A listener, and whether a connection may wait there.
#[derive(Drop)]
pub(crate) struct Door {
    listener: Listener,
    // which one it is of those for viewers
    number: usize,
    // a connection may wait
    may_accept: bool,
    // the system had no room for one, and is asked again then
    retry: Option<Instant>,
}

impl Door {
    /// Returns a listener at which a connection may wait, with a number.
    pub fn new(listener: Listener, number: usize) -> Door
        ensures { result ≡ record { listener = listener; number = number; may_accept = true; retry = None } }
    {
        Door {
            listener,
            number,
            may_accept: true,
            retry: None,
        }
    }

    /// Returns its number.
    pub fn number(&self) -> usize
        ensures { result ≡ self.now.number }
    {
        self.number
    }

    /// Returns whether a connection may wait.
    pub fn may_accept(&self) -> bool
        ensures { result ≡ self.now.may_accept }
    {
        self.may_accept
    }

    /// Notes that a connection may wait, where it is so.
    pub fn note(&mut self, may_accept: bool)
        ensures { self.new ≡ record self.old { may_accept = self.old.may_accept || may_accept } }
    {
        self.may_accept |= may_accept;
    }

    /// Asks the listener again, where the time for this has come.
    pub fn retry(&mut self, now: Instant)
        ensures { self.new ≡ asked_again (instant_nanos now) self.old }
    {
        let Some(then) = self.retry else {
            return;
        };
        if now.checked_duration_since(then).is_some() {
            self.retry = None;
            self.may_accept = true;
        }
    }

    /// Returns after how long it is asked again; None where nothing is wanted of the system.
    pub fn retry_after(&self, now: Instant) -> Option<Duration>
        ensures { MatchOption self.now.retry (result ≡ None) (λ time. IsSomeAnd result (λ wait.
            as_nanos wait ≡ instant_nanos time - instant_nanos now)) }
    {
        let then = self.retry?;
        Some(then.duration_since(now))
    }

    /// Returns a connection that waited. None where none waits; where the one that waited is gone, or the call was interrupted: then
    /// another may wait still; and where the system has no room for one: then it is asked again a little later.
    pub fn next_stream(&mut self, now: Instant) -> Option<TcpStream>
        ensures closed { self.old.may_accept ≡ false → result ≡ None }
        ensures some { IsSome result → self.new ≡ self.old }
        ensures none { (self.new ≡ self.old) ⊎ (self.new ≡ record self.old { may_accept = false; retry = self.new.retry }) }
        ensures retry { (self.new.retry ≡ self.old.retry) ⊎ IfSome self.new.retry (λ time. instant_nanos time ≡ instant_nanos now + 100_000_000) }
    {
        if !self.may_accept {
            return None;
        }
        match self.listener.accept() {
            Ok(stream) => return Some(stream),
            Err(e) => match e.kind() {
                ErrorKind::ConnectionAborted | ErrorKind::Interrupted => {}
                ErrorKind::WouldBlock => self.may_accept = false,
                _ => {
                    self.may_accept = false;
                    self.retry = now.checked_add(Duration::from_millis(RETRY));
                }
            },
        }
        None
    }
}
