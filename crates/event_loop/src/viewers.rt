//! The viewers of a loop: how many there may be, and who is in its opening.

ghost use Rattle.std.specs.Prelude.{◌≡◌, ◌≢◌, ℕ, ◌+◌, ◌-◌, ◌<◌, ◌^◌, min, ◌++◌, ◌∷◌, [], true, false, Some, None, Ok, IfOk, IfSome, OnOk, MatchResult, slice_get, is_some, count_by};
ghost use Rattle.std.specs.Duration.{as_nanos};
ghost use Rattle.std.specs.Time.{instant_nanos};
ghost use Rattle.receipts.specs.declared.Ended.TheVariants as ended;
ghost use Rattle.connection.specs.Recording.{none_yet};
ghost use Rattle.connections.specs.Telling.{Stays};
ghost use Rattle.connections.specs.Serving.{GoesOn, at_key, number_at};
ghost use Rattle.event_loop.specs.declared.viewers.Admission.TheVariants as admission;
ghost use Rattle.event_loop.specs.Admitting.{GoesOnFrom, IsAdmittedOr, came_with, one_more};
ghost use Rattle.event_loop.specs.Parting.{IsEndedAt};
ghost use Rattle.event_loop.specs.Patience.{LetsGo, from_opening, is_opening};
ghost use Rattle.event_loop.specs.Room.{accepts_next, all_came, has_room, turns_away};

use crate::limits::{Limits, WhenFull};
use crate::opening::Newcomers;
use connections::{Application, Connections, ScreenError, Transport};
use sockets::{Poller, SendsAtOnce, TakesLeave, set_up, turn_away};
use std::alloc::{AllocError, Global};
use std::os::fd::AsRawFd;
use std::time::{Duration, Instant};

/// What becomes of a connection that came.
#[derive(Clone, Copy)]
pub enum Admission {
    /// It is the viewer with this number.
    Viewer(u64),
    /// There was no room for it: it was told that there are too many (RFC 6143, 7.1.2), and closed.
    TurnedAway,
    /// There was room, but the system refused to report what it is ready for, or memory, or there is no further number. It was closed.
    Refused,
}

/// The viewers of a loop.
pub(crate) struct Viewers<T: Transport> {
    pub connections: Connections<T>,
    pub newcomers: Newcomers,
    limits: Limits,
    // how many came
    came: u64,
}

// Written out, so that who holds one proves one call here, and not the drop of each field.
impl<T: Transport> Drop for Viewers<T> {
    fn drop(self) {
        let Viewers {
            connections: _connections,
            newcomers: _newcomers,
            limits: _limits,
            came: _came,
        } = self;
    }
}

impl<T: Transport> Viewers<T> {
    /// Returns the viewers of connections that were made, of whom none came yet.
    pub fn new(alloc: Global, connections: Connections<T>, limits: Limits) -> Viewers<T>
        ensures connections { result.connections ≡ connections }
        ensures limits { result.limits ≡ limits }
        ensures came { result.came ≡ 0 }
        ensures newcomers { result.newcomers.waiting.items ≡ [] }
        ensures patience { result.newcomers.patience ≡ limits.opening_time }
    {
        Viewers {
            connections,
            newcomers: Newcomers::new(alloc, limits.opening_time),
            limits,
            came: 0,
        }
    }

    /// Returns how long a viewer may take for its opening.
    pub fn opening_time(&self) -> Duration
        ensures { result ≡ self.now.limits.opening_time }
    {
        self.limits.opening_time
    }

    /// Returns whether all viewers that are served have come.
    fn have_all_come(&self) -> bool
        ensures { result ≡ all_came self.now.limits self.now.came }
    {
        self.came >= self.limits.all_viewers
    }

    /// Returns whether one viewer more may be live.
    fn has_room(&self) -> bool
        ensures { result ≡ has_room self.now.limits self.now.came (count_by is_some self.now.connections.slots) }
    {
        !self.have_all_come() && self.connections.len() < self.limits.live_viewers
    }

    /// Returns whether a connection for which there is no room is turned away. Else it waits.
    fn turns_away(&self) -> bool
        ensures { result ≡ turns_away self.now.limits self.now.came }
    {
        self.have_all_come() || matches!(self.limits.when_full, WhenFull::LetGo)
    }

    /// Returns whether the next connection is accepted, be it to be turned away.
    pub fn accepts_next(&self) -> bool
        ensures { result ≡ accepts_next self.now.limits self.now.came (count_by is_some self.now.connections.slots) }
    {
        self.has_room() || self.turns_away()
    }

    /// Makes a transport that came at the time `now` the next viewer's, and returns that one's number. None where memory is refused, or
    /// there is no further number: then nobody came.
    fn admit_transport(&mut self, now: Instant, transport: T) -> Option<u64>
        ensures served { GoesOnFrom (record { unread = T.unread transport; written = T.written transport; sent = none_yet self.old.connections.kept }) self.old.connections self.new.connections }
        ensures limits { self.new.limits ≡ self.old.limits }
        ensures patience { self.new.newcomers.patience ≡ self.old.newcomers.patience }
        ensures number { IfSome result (λ viewer. viewer ≡ self.old.connections.next) }
        ensures key { IfSome result (λ viewer. number_at self.new.connections.slots self.old.connections.vacant ≡ Some viewer) }
        ensures came { IfSome result (λ viewer. self.new.came ≡ one_more self.old.came) }
        ensures newcomer { IfSome result (λ viewer. self.new.newcomers.waiting.items ≡
            self.old.newcomers.waiting.items ++ (record { key = self.old.connections.vacant; viewer = viewer; since = now }) ∷ []) }
        ensures none { result ≡ None → self.new ≡ record self.old { newcomers = self.new.newcomers } }
        ensures waiting { result ≡ None → self.new.newcomers.waiting.items ≡ self.old.newcomers.waiting.items }
    {
        self.newcomers.make_room().ok()?;
        let Ok(key) = self.connections.admit(transport) else {
            return None;
        };
        let viewer = self.connections.viewer(key)?;
        self.newcomers.push(key, viewer, now);
        self.came = self.came.saturating_add(1);
        Some(viewer)
    }

    /// Returns whether a viewer has the key that has not had its ServerInit, and is the one with this number.
    fn is_opening(&self, key: usize, viewer: u64) -> bool
        ensures { result ≡ is_opening self.now.connections key viewer }
    {
        match self.connections.viewer(key) {
            Some(number) => number == viewer && !self.connections.is_open(key),
            None => false,
        }
    }

    /// Forgets newcomers that are open or gone, up to the first one that is neither.
    fn forget_opened(&mut self)
        ensures same { self.new ≡ record self.old { newcomers = self.new.newcomers } }
        ensures patience { self.new.newcomers.patience ≡ self.old.newcomers.patience }
        ensures waiting { self.new.newcomers.waiting.items ≡ from_opening self.old.connections self.old.newcomers.waiting.items }
    {
        'waiting: while let Some((key, viewer)) = self.newcomers.first() {
            if self.is_opening(key, viewer) {
                return;
            }
            self.newcomers.pop_first();
        }
    }

    /// Lets a viewer go, unless it had its ServerInit, or another one has its key by now.
    fn let_go_unopened(&mut self, key: usize, viewer: u64) -> Result<(), AllocError>
        ensures served { GoesOn self.old.connections self.new.connections }
        ensures same { self.new ≡ record self.old { connections = self.new.connections } }
        ensures surface { self.new.connections.surface ≡ self.old.connections.surface }
        ensures opened { is_opening self.old.connections key viewer ≡ false → self.new.connections ≡ self.old.connections }
        ensures unopened { is_opening self.old.connections key viewer ≡ true → OnOk result (IsEndedAt ended.Closed key self.old.connections self.new.connections) }
        ensures others { (other : ℕ) → other ≢ key → at_key self.new.connections.slots other ≡ at_key self.old.connections.slots other }
    {
        if !self.is_opening(key, viewer) {
            return Ok(());
        }
        self.connections.close(key)
    }

    /// Lets viewers go that took too long for their opening, until the time `now`, and waits for these no longer, nor for the first ones
    /// that are open or gone.
    pub fn let_go(&mut self, now: Instant) -> Result<(), AllocError>
        ensures served { GoesOn self.old.connections self.new.connections }
        ensures limits { self.new.limits ≡ self.old.limits }
        ensures came { self.new.came ≡ self.old.came }
        ensures let_go { OnOk result (LetsGo (as_nanos self.old.newcomers.patience) (instant_nanos now) self.old.connections self.new.connections
            self.old.newcomers.waiting.items self.new.newcomers.waiting.items) }
        ensures in_time { OnOk result (IfSome (slice_get self.new.newcomers.waiting.items 0)
            (λ first. instant_nanos now - instant_nanos first.since < as_nanos self.old.newcomers.patience)) }
    {
        self.forget_opened();
        'late: while let Some((key, viewer)) = self.newcomers.pop_late(now) {
            self.let_go_unopened(key, viewer)?;
        }
        Ok(())
    }
}

impl<T: Transport + AsRawFd + SendsAtOnce + TakesLeave> Viewers<T> {
    /// Takes in a connection that came at the time `now`, and tells the application, or turns it away where there is no room for it. Where
    /// the application fails, its viewer came all the same.
    pub fn admit<A: Application>(
        &mut self,
        poller: &Poller,
        now: Instant,
        mut transport: T,
        application: &mut A,
    ) -> Result<Admission, ScreenError>
        ensures served { GoesOnFrom (record { unread = T.unread transport; written = T.written transport; sent = none_yet self.old.connections.kept }) self.old.connections self.new.connections }
        ensures stands { Stays A.stands application.old application.new }
        ensures full { has_room self.old.limits self.old.came (count_by is_some self.old.connections.slots) ≡ false →
            (result ≡ Ok admission.TurnedAway) × (self.new ≡ self.old) }
        ensures room { has_room self.old.limits self.old.came (count_by is_some self.old.connections.slots) ≡ true →
            result ≢ Ok admission.TurnedAway }
        ensures admitted { IfOk result (IsAdmittedOr self.old.connections self.new.connections) }
        ensures came { MatchResult result (λ admission. self.new.came ≡ came_with admission self.old.came) (λ _. self.new.came ≡ one_more self.old.came) }
        ensures limits { self.new.limits ≡ self.old.limits }
    {
        if !self.has_room() {
            let _said = turn_away(&mut transport);
            transport.take_leave();
            return Ok(Admission::TurnedAway);
        }
        if poller.add(&transport, self.connections.next_key()).is_err() {
            return Ok(Admission::Refused);
        }
        set_up(&transport);
        let Some(viewer) = self.admit_transport(now, transport) else {
            return Ok(Admission::Refused);
        };
        self.connections.tell_came(viewer, application)?;
        Ok(Admission::Viewer(viewer))
    }
}
