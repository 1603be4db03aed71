//! Where connections come in: listeners for viewers, and one for browsers, whose requests are answered before they are viewers.

ghost use Rattle.std.specs.Prelude.{◌≡◌, ◌<◌, ◌≤◌, ◌-◌, ◌||◌, [], None, Some, Err, true, map, All, length, OnErr, IfErr, IfSome, IsSomeAnd, slice_get};
ghost use Rattle.sockets.specs.declared.doors.ListenError.TheVariants as error;
ghost use Rattle.std.specs.Duration.{as_nanos};
ghost use Rattle.std.specs.Time.{instant_nanos};
ghost use Rattle.sockets.specs.Doors.{IsAskedBy, IsUnreachable, asked_again, noted, noted_at};
ghost use Rattle.sockets.specs.Entrance.{may_accept_browser, may_accept_viewer, is_due, goes_on};

use crate::browsers::Browsers;
use crate::door::Listener;
use crate::doors::{Doors, ListenError};
use crate::poller::Poller;
use crate::socket::Peer;
use crate::times::shorter;
use mio::net::TcpStream;
use std::alloc::Global;
use std::time::{Duration, Instant};

/// The listeners of a server, those for viewers and that for browsers, and browsers that are no viewers.
pub struct Entrance {
    viewers: Doors,
    browsers: Option<Browsers>,
}

// Written out, so that who holds one proves one call here, and not the drop of each field.
impl Drop for Entrance {
    fn drop(self) {
        let Entrance {
            viewers: _viewers,
            browsers: _browsers,
        } = self;
    }
}

impl Entrance {
    /// Returns one without a listener.
    pub fn new(alloc: Global) -> Entrance
        ensures viewers { result.viewers.doors.items ≡ [] }
        ensures browsers { result.browsers ≡ None }
    {
        Entrance {
            viewers: Doors::new(alloc),
            browsers: None,
        }
    }

    /// Adds a listener for viewers, at which a connection may wait. Refused as `TooManyListeners` where there are eight, then as
    /// `OutOfMemory` for want of memory, and then as `Network` where the poller is; nothing has changed then.
    pub fn listen(&mut self, poller: &Poller, listener: Listener) -> Result<(), ListenError>
        ensures full { 8 ≤ length self.old.viewers.doors.items → result ≡ Err error.TooManyListeners }
        ensures room { length self.old.viewers.doors.items < 8 → IfErr result IsUnreachable }
        ensures err { OnErr result (self.new.viewers.doors.items ≡ self.old.viewers.doors.items) }
        ensures browsers { self.new.browsers ≡ self.old.browsers }
    {
        self.viewers.open(poller, listener)
    }

    /// Lets browsers in from now on, in place of those that came by an earlier listener and whose requests are not answered.
    pub fn open(&mut self, browsers: Browsers)
        ensures { self.new ≡ record self.old { browsers = Some browsers } }
    {
        self.browsers = Some(browsers);
    }

    /// Begins a turn: where more could be read of a browser's request in the last one, it can in this one.
    pub fn begin_turn(&mut self)
        ensures viewers { self.new.viewers ≡ self.old.viewers }
    {
        if let Some(browsers) = &mut self.browsers {
            browsers.begin_turn();
        }
    }

    /// Notes that a connection waits at the listener for viewers with this number.
    pub fn note_viewer(&mut self, number: usize)
        ensures viewers { self.new.viewers.doors.items ≡ map (noted_at number) self.old.viewers.doors.items }
        ensures browsers { self.new.browsers ≡ self.old.browsers }
    {
        self.viewers.note(number);
    }

    /// Notes that one waits at the listener for browsers.
    pub fn note_browser(&mut self)
        ensures noted { IfSome self.new.browsers (λ browsers. browsers.door.may_accept ≡ true) }
        ensures viewers { self.new.viewers ≡ self.old.viewers }
    {
        if let Some(browsers) = &mut self.browsers {
            browsers.door.note(true);
        }
    }

    /// Notes that more came of a request.
    pub fn note_request(&mut self)
        ensures viewers { self.new.viewers ≡ self.old.viewers }
    {
        if let Some(browsers) = &mut self.browsers {
            browsers.note();
        }
    }

    /// Notes that a viewer left: the system may have room for a connection.
    pub fn note_left(&mut self)
        ensures viewers { self.new.viewers.doors.items ≡ map noted self.old.viewers.doors.items }
        ensures browsers { IfSome self.new.browsers (λ browsers. browsers.door.may_accept ≡ true) }
    {
        self.viewers.note_all();
        self.note_browser();
    }

    /// Asks the listeners again, where the time for this has come.
    pub fn retry(&mut self, now: Instant)
        ensures viewers { self.new.viewers.doors.items ≡ map (asked_again (instant_nanos now)) self.old.viewers.doors.items }
    {
        self.viewers.retry(now);
        if let Some(browsers) = &mut self.browsers {
            browsers.door.retry(now);
        }
    }

    /// Returns whether a browser's connection may wait.
    fn may_accept_browser(&self) -> bool
        ensures { result ≡ may_accept_browser self.now.browsers }
    {
        match &self.browsers {
            Some(browsers) => browsers.door.may_accept(),
            None => false,
        }
    }

    /// Returns whether a connection may wait.
    pub fn may_accept(&self) -> bool
        ensures { result ≡ (may_accept_viewer self.now.viewers || may_accept_browser self.now.browsers) }
    {
        self.viewers.may_accept() || self.may_accept_browser()
    }

    /// Returns a viewer's connection that waited at one of the listeners, which are asked in turn, each once. None where none waits at any;
    /// where those that waited are gone: then others may wait still; and where the system has no room for one: then it is asked again a
    /// little later.
    pub fn next_stream(&mut self, now: Instant) -> Option<TcpStream>
        ensures count { length self.new.viewers.doors.items ≡ length self.old.viewers.doors.items }
        ensures browsers { self.new.browsers ≡ self.old.browsers }
    {
        self.viewers.next_stream(now)
    }

    /// Accepts the connection of a browser, if one waits.
    pub fn accept_browser(&mut self, poller: &Poller, now: Instant)
        ensures viewers { self.new.viewers ≡ self.old.viewers }
    {
        if let Some(browsers) = &mut self.browsers {
            browsers.accept(poller, now);
        }
    }

    /// Returns whether more may have come of a request, in this turn.
    pub fn is_due(&self) -> bool
        ensures { result ≡ is_due self.now.browsers }
    {
        match &self.browsers {
            Some(browsers) => browsers.is_due(),
            None => false,
        }
    }

    /// Returns whether more may be read of a request at once, in the next turn.
    pub fn goes_on(&self) -> bool
        ensures { result ≡ goes_on self.now.browsers }
    {
        match &self.browsers {
            Some(browsers) => browsers.goes_on(),
            None => false,
        }
    }

    /// Goes on with a request, and returns the viewer's socket once it is accepted.
    pub fn go_on(&mut self, poller: &Poller) -> Option<Peer>
        ensures viewers { self.new.viewers ≡ self.old.viewers }
    {
        match &mut self.browsers {
            Some(browsers) => browsers.go_on(poller),
            None => None,
        }
    }

    /// Lets browsers go whose time is up.
    pub fn let_go(&mut self, now: Instant)
        ensures in_time { IfSome self.new.browsers (λ browsers. IfSome (slice_get browsers.waiting.items 0) (λ first.
            instant_nanos now - instant_nanos first.since < as_nanos browsers.patience)) }
        ensures viewers { self.new.viewers ≡ self.old.viewers }
    {
        if let Some(browsers) = &mut self.browsers {
            browsers.let_go(now);
        }
    }

    /// Returns after how long a listener is asked again at the first, or a browser's time is up.
    pub fn next_after(&self, now: Instant) -> Option<Duration>
        ensures viewers { All (IsAskedBy (instant_nanos now) result) self.now.viewers.doors.items }
        ensures door { IfSome self.now.browsers (λ browsers. IsAskedBy (instant_nanos now) result browsers.door) }
        ensures browser { IfSome self.now.browsers (λ browsers. IfSome (slice_get browsers.waiting.items 0) (λ first. IsSomeAnd result (λ wait.
            as_nanos wait ≤ as_nanos browsers.patience - (instant_nanos now - instant_nanos first.since)))) }
    {
        let retry = self.viewers.retry_after(now);
        match &self.browsers {
            Some(browsers) => {
                let own = shorter(browsers.door.retry_after(now), browsers.next_after(now));
                shorter(retry, own)
            }
            None => retry,
        }
    }
}
