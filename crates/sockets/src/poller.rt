//! Which sockets are ready.

ghost use Rattle.std.specs.Prelude.{◌<◌};

use connection::Readiness;
use mio::event::Event;
use mio::net::{TcpListener, TcpStream};
use mio::unix::SourceFd;
use mio::{Events, Interest, Poll, Token, Waker};
use std::alloc::Global;
use std::io;
use std::net::Net;
use std::os::fd::{AsRawFd, RawFd};
use std::time::Duration;

/// How many sockets are reported at once, at most.
const EVENTS: usize = 256;

/// How many listeners for viewers there are, at most.
pub(crate) const MOST_LISTENERS: usize = 8;

/// The token of the first listener for viewers; those of the others follow. Connections have keys of a slab, which are smaller.
const LISTENERS: usize = usize::MAX - 7;

/// The token of what other threads wake.
const WAKER: Token = Token(usize::MAX - 8);

/// The token of the listener for browsers.
const WEB_LISTENER: Token = Token(usize::MAX - 9);

/// The token of all browsers that are no viewers.
const REQUEST: Token = Token(usize::MAX - 10);

/// The token of a stream of the program's own.
const WATCHED: Token = Token(usize::MAX - 11);

/// Waits until sockets are ready. Each is reported once when it becomes so, and not again before it was found unready.
pub struct Poller {
    poll: Poll,
    events: Events,
}

// Written out, so that who holds one proves one call here, and not the drop of each field.
impl Drop for Poller {
    fn drop(self) {
        let Poller {
            poll: _poll,
            events: _events,
        } = self;
    }
}

/// What an event says. It may be out of date.
#[derive(Clone, Copy)]
pub enum Found {
    /// A connection waits at the listener for viewers with this number.
    Listener(usize),
    /// A browser's connection waits.
    WebListener,
    /// More came of a request.
    Request,
    /// Another thread woke the loop.
    Woken,
    /// The program's own stream is ready.
    Watched(Readiness),
    /// The connection with this key is ready.
    Connection(usize, Readiness),
}

impl Poller {
    /// Returns a poller that reports nothing yet. Fails where the system or memory refuses it.
    pub fn new<R: Net>(rt: &R, alloc: Global) -> io::Result<Poller> {
        Ok(Poller {
            poll: Poll::new(rt)?,
            events: Events::with_capacity(alloc, EVENTS)?,
        })
    }

    /// Reports from now on that a connection waits at the listener for viewers with this number.
    pub(crate) fn add_listener(&self, listener: &impl AsRawFd, number: usize) -> io::Result<()>
        requires { number < 8 }
    {
        let descriptor = listener.as_raw_fd();
        self.poll.registry().register(
            &mut SourceFd(&descriptor),
            Token(LISTENERS + number),
            Interest::READABLE,
        )
    }

    /// Reports from now on that a connection waits at the listener for browsers. Fails where the system refuses it.
    pub fn add_web_listener(&self, listener: &mut TcpListener) -> io::Result<()> {
        self.poll
            .registry()
            .register(listener, WEB_LISTENER, Interest::READABLE)
    }

    /// Reports from now on that more came of a request.
    pub(crate) fn add_request(&self, socket: &impl AsRawFd) -> io::Result<()> {
        let descriptor = socket.as_raw_fd();
        self.poll
            .registry()
            .register(&mut SourceFd(&descriptor), REQUEST, Interest::READABLE)
    }

    /// Reports nothing of a socket from now on.
    pub(crate) fn remove(&self, socket: &impl AsRawFd) -> io::Result<()> {
        let descriptor = socket.as_raw_fd();
        self.poll.registry().deregister(&mut SourceFd(&descriptor))
    }

    /// Reports from now on what the socket of the connection with a key is ready for. It is looked at alone: what it holds stays.
    /// Fails where the system refuses it.
    pub fn add(&self, socket: &impl AsRawFd, key: usize) -> io::Result<()> {
        let both = Interest::READABLE | Interest::WRITABLE;
        let descriptor = socket.as_raw_fd();
        self.poll
            .registry()
            .register(&mut SourceFd(&descriptor), Token(key), both)
    }

    /// Reports from now on what a stream of the program's own is ready for. Fails where the system refuses it.
    pub fn watch(&self, stream: &mut TcpStream) -> io::Result<()> {
        let both = Interest::READABLE | Interest::WRITABLE;
        self.poll.registry().register(stream, WATCHED, both)
    }

    /// Returns what ends a wait from another thread. Fails where the system refuses it.
    pub fn waker(&self) -> io::Result<Waker> {
        Waker::new(self.poll.registry(), WAKER)
    }

    /// Waits until a socket is ready or the time is up. Fails where the system does.
    pub fn wait(&mut self, timeout: Option<Duration>) -> io::Result<()> {
        self.poll.poll(&mut self.events, timeout)
    }

    /// Returns the system's handle that is ready to be read where something was found that no wait has told yet.
    pub fn handle(&self) -> RawFd {
        self.poll.as_raw_fd()
    }

    /// Returns what was found at the last wait.
    pub fn events(&self) -> mio::event::Iter<'_> {
        self.events.iter()
    }
}

/// Returns what an event says.
pub fn found_in(event: &Event) -> Found {
    let token = event.token().0;
    if token >= LISTENERS {
        return Found::Listener(token - LISTENERS);
    }
    if event.token() == WAKER {
        return Found::Woken;
    }
    if event.token() == WEB_LISTENER {
        return Found::WebListener;
    }
    if event.token() == REQUEST {
        return Found::Request;
    }
    let is_hung_up = event.is_read_closed() || event.is_error();
    let readiness = Readiness {
        may_read: event.is_readable() || is_hung_up,
        may_write: event.is_writable() || event.is_write_closed(),
        is_hung_up,
    };
    if event.token() == WATCHED {
        return Found::Watched(readiness);
    }
    Found::Connection(token, readiness)
}
