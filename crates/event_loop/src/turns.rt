//! How a turn is taken: what waits for it, and what is done in it.

ghost use Rattle.std.specs.Prelude.{◌≡◌, IfOk};
ghost use Rattle.connections.specs.Telling.{Stays};
ghost use Rattle.event_loop.specs.Sockets.{GoesOnServing, GoesOnServingTelling};
ghost use Rattle.event_loop.specs.Admitting.{IsAdmittedOr};

use crate::event_loop::{EventLoop, LoopError};
use crate::viewers::Admission;
use connections::{Application, Connections, Readiness};
use mio::event::Event;
use mio::net::TcpStream;
use sockets::{Entrance, Found, Peer, Poller, TakesLeave, WAITING, found_in, shorter};
use std::alloc::AllocError;
use std::time::{Clock, Duration, Instant};

/// How many connections are accepted in one turn, at most, of each kind.
const ACCEPTED: u32 = 32;

/// For how many milliseconds an open viewer counts as active whose socket was found ready.
const ACTIVE: u64 = 5;

/// In how many milliseconds one connection is accepted, while a viewer is active.
const APART: u64 = 1;

/// How many milliseconds ahead of that they may be who come at once: 65 of them, the first one being none ahead.
const AHEAD: u64 = 64 * APART;

/// What the poller found besides what is a connection's.
#[derive(Clone, Copy)]
struct Noted {
    /// The socket of an open viewer is ready.
    is_active: bool,
    /// Another thread woke the loop.
    is_woken: bool,
    /// What the program's own stream is ready for.
    watched: Option<Readiness>,
}

/// Records one event of the poller; in `noted` what isn't a connection's alone.
fn note(
    event: &Event,
    connections: &mut Connections<Peer>,
    entrance: &mut Entrance,
    noted: &mut Noted,
) -> Result<(), AllocError>
    ensures served { GoesOnServing connections.old connections.new }
{
    match found_in(event) {
        Found::Listener(number) => entrance.note_viewer(number),
        Found::WebListener => entrance.note_browser(),
        Found::Request => entrance.note_request(),
        Found::Woken => noted.is_woken = true,
        Found::Watched(readiness) => noted.watched = Some(readiness),
        Found::Connection(key, readiness) => {
            noted.is_active = noted.is_active || connections.is_open(key);
            connections.note(key, readiness)?;
        }
    }
    Ok(())
}

/// Records what the poller found. Returns what of it isn't a connection's alone.
fn note_found(
    poller: &Poller,
    connections: &mut Connections<Peer>,
    entrance: &mut Entrance,
) -> Result<Noted, AllocError>
    ensures served { GoesOnServing connections.old connections.new }
{
    let mut noted = Noted {
        is_active: false,
        is_woken: false,
        watched: None,
    };
    for event in poller.events() {
        note(event, connections, entrance, &mut noted)?;
    }
    Ok(noted)
}

/// Returns what was found before, and what was found now.
fn both(before: Option<Readiness>, now: Option<Readiness>) -> Option<Readiness> {
    let (Some(one), Some(other)) = (before, now) else {
        return before.or(now);
    };
    Some(Readiness {
        may_read: one.may_read || other.may_read,
        may_write: one.may_write || other.may_write,
        is_hung_up: one.is_hung_up || other.is_hung_up,
    })
}

/// Takes leave of a peer, and closes its connection.
fn take_leave(mut peer: Peer) {
    peer.take_leave();
}

/// Returns the clock's time.
pub(crate) fn now_by<C: Clock>(clock: &C) -> Result<Instant, LoopError> {
    Instant::now(clock).map_err(|_| LoopError::Clock)
}

impl EventLoop {
    /// Returns whether a connection that waits is accepted, be it to be turned away.
    fn accepts(&self) -> bool {
        self.entrance.may_accept() && self.viewers.accepts_next()
    }

    /// Returns whether somebody came who is to be seen to: a connection, or more of a request.
    fn has_come(&self) -> bool {
        self.accepts() || self.entrance.is_due() || self.entrance.goes_on()
    }

    /// Returns whether the socket of an open viewer was found ready lately.
    fn is_active_at(&self, now: Instant) -> bool {
        self.active.is_some_and(|then| now.duration_since(then) < Duration::from_millis(ACTIVE))
    }

    /// Returns how long who comes is to wait. Nobody waits while no viewer is active. Else it is one in a millisecond behind the first 65,
    /// so that who comes takes little of an active viewer's time, however many they are.
    fn pause(&self, now: Instant) -> Duration {
        match self.next_due {
            Some(due) if self.is_active_at(now) => due
                .duration_since(now)
                .saturating_sub(Duration::from_millis(AHEAD)),
            _ => Duration::ZERO,
        }
    }

    /// Returns how many connections of each kind are accepted now, at most: one, which is counted, while a viewer is active.
    fn most_at(&mut self, now: Instant) -> u32
        ensures same { self.new ≡ self.old }
    {
        if !self.is_active_at(now) {
            return ACCEPTED;
        }
        let due = self.next_due.unwrap_or(now);
        let from = if now < due { due } else { now };
        self.next_due = from.checked_add(Duration::from_millis(APART));
        1
    }

    /// Returns how long a turn may wait.
    pub(crate) fn wait_for(&self, now: Instant, timeout: Option<Duration>) -> Option<Duration> {
        if !self.has_ticked || self.watched.is_some() {
            return Some(Duration::ZERO);
        }
        let until = |then: Instant| then.duration_since(now);
        let mut wait = shorter(timeout, self.viewers.newcomers.next_after(now));
        if self.has_come() {
            wait = shorter(wait, Some(self.pause(now)));
        }
        wait = shorter(wait, self.next_tick.map(until));
        wait = shorter(wait, self.entrance.next_after(now));
        shorter(
            wait,
            self.viewers.connections.is_busy().then_some(Duration::ZERO),
        )
    }

    /// Waits until something is ready, the application's time comes, or the time is up, and notes what was found. Returns the time.
    pub(crate) fn wait<C: Clock>(
        &mut self,
        clock: &C,
        timeout: Option<Duration>,
    ) -> Result<Instant, LoopError>
        ensures served { GoesOnServing self.old self.new }
    {
        self.viewers.connections.flush_record();
        let wait = self.wait_for(now_by(clock)?, timeout);
        if self.poller.wait(wait).is_err() {
            return Err(LoopError::Network);
        }
        self.entrance.begin_turn();
        let noted = note_found(
            &self.poller,
            &mut self.viewers.connections,
            &mut self.entrance,
        )?;
        self.is_woken = noted.is_woken;
        self.watched = both(self.watched, noted.watched);
        self.is_active = noted.is_active;
        now_by(clock)
    }

    /// Tells the application that it was woken, that its own stream is ready, and that its time has come, where this is so.
    pub(crate) fn tell_time<A: Application>(
        &mut self,
        now: Instant,
        application: &mut A,
    ) -> Result<(), LoopError>
        ensures served { GoesOnServing self.old self.new }
        ensures stands { Stays A.stands application.old application.new }
    {
        self.tell_woken(application)?;
        self.tell_ready(application)?;
        self.tick(now, application)
    }

    /// Sees to those who come, and lets viewers go that took too long for their opening.
    pub(crate) fn come_and_go<A: Application>(
        &mut self,
        now: Instant,
        application: &mut A,
    ) -> Result<(), LoopError>
        ensures served { GoesOnServing self.old self.new }
        ensures stands { Stays A.stands application.old application.new }
    {
        self.retry(now);
        self.see_to(now, application)?;
        self.viewers.let_go(now)?;
        Ok(())
    }

    /// Accepts connections that wait, and answers browsers' requests, unless these are to wait.
    fn see_to<A: Application>(&mut self, now: Instant, application: &mut A) -> Result<(), LoopError>
        ensures served { GoesOnServing self.old self.new }
        ensures stands { Stays A.stands application.old application.new }
    {
        if !self.has_come() || self.pause(now) > Duration::ZERO {
            return Ok(());
        }
        let most = self.most_at(now);
        self.accept_some(now, most, application)?;
        self.answer_some(now, application)
    }

    /// Returns how many milliseconds passed since the first turn.
    fn milliseconds(&mut self, now: Instant) -> u64
        ensures same { self.new ≡ self.old }
    {
        let began = self.began.unwrap_or(now);
        self.began = Some(began);
        self.time = u64::try_from(now.duration_since(began).as_millis()).unwrap_or(u64::MAX);
        self.time
    }

    /// Hears what viewers sent, writes what they are given, and parts with those that ended.
    pub(crate) fn turn<A: Application>(
        &mut self,
        now: Instant,
        application: &mut A,
    ) -> Result<(), LoopError>
        ensures served { GoesOnServingTelling A.stands self.old self.new application.old application.new result }
    {
        let milliseconds = self.milliseconds(now);
        self.viewers.connections.set_time(milliseconds);
        self.viewers.connections.turn(application)?;
        self.part(application)
    }

    /// Tells the application that it was woken, where it was.
    fn tell_woken<A: Application>(&mut self, application: &mut A) -> Result<(), LoopError>
        ensures served { GoesOnServing self.old self.new }
        ensures stands { Stays A.stands application.old application.new }
    {
        if !self.is_woken {
            return Ok(());
        }
        self.viewers.connections.tell_woken(application)?;
        Ok(())
    }

    /// Tells the application that its own stream is ready, where it is, or where more could be done with it.
    fn tell_ready<A: Application>(&mut self, application: &mut A) -> Result<(), LoopError>
        ensures served { GoesOnServing self.old self.new }
        ensures stands { Stays A.stands application.old application.new }
    {
        let Some(found) = self.watched else {
            return Ok(());
        };
        let has_more = self.viewers.connections.tell_ready(found, application)?;
        self.watched = has_more.then_some(found);
        Ok(())
    }

    /// Notes that a viewer is active, where one is, asks the listeners again, where the time for this has come, and lets browsers go whose
    /// requests took too long.
    fn retry(&mut self, now: Instant)
        ensures same { self.new ≡ self.old }
    {
        if self.is_active {
            self.active = Some(now);
        }
        self.entrance.retry(now);
        self.entrance.let_go(now);
    }

    /// Tells the application that its time has come, where it has.
    fn tick<A: Application>(&mut self, now: Instant, application: &mut A) -> Result<(), LoopError>
        ensures served { GoesOnServing self.old self.new }
        ensures stands { Stays A.stands application.old application.new }
    {
        if self.has_ticked && !self.next_tick.is_some_and(|then| then <= now) {
            return Ok(());
        }
        let after = self.viewers.connections.tick(application)?;
        self.has_ticked = true;
        self.next_tick = after.and_then(|after| now.checked_add(after));
        Ok(())
    }

    /// Accepts connections that wait, so many at most of each kind.
    fn accept_some<A: Application>(
        &mut self,
        now: Instant,
        most: u32,
        application: &mut A,
    ) -> Result<(), LoopError>
        ensures served { GoesOnServing self.old self.new }
        ensures stands { Stays A.stands application.old application.new }
    {
        for _ in 0..most {
            if !self.accepts() {
                return Ok(());
            }
            self.accept(now, application)?;
        }
        Ok(())
    }

    /// Accepts a connection of each kind, if one waits, and takes a viewer's in.
    fn accept<A: Application>(&mut self, now: Instant, application: &mut A) -> Result<(), LoopError>
        ensures served { GoesOnServing self.old self.new }
        ensures stands { Stays A.stands application.old application.new }
    {
        self.accept_browser(now);
        if let Some(stream) = self.next_stream(now) {
            self.admit(now, Peer::plain(stream), application)?;
        }
        Ok(())
    }

    /// Accepts a browser's connection, if one waits, and reads its request from now on.
    fn accept_browser(&mut self, now: Instant)
        ensures same { self.new ≡ self.old }
    {
        self.entrance.accept_browser(&self.poller, now);
    }

    /// Returns a connection that waited at a listener for viewers. None where none waits; where those that waited are gone: then others may
    /// wait still; and where the system has no room for one: then it is asked again a little later.
    fn next_stream(&mut self, now: Instant) -> Option<TcpStream>
        ensures same { self.new ≡ self.old }
    {
        self.entrance.next_stream(now)
    }

    /// Goes on with each request of which more may have come, and takes those in that are accepted.
    fn answer_some<A: Application>(
        &mut self,
        now: Instant,
        application: &mut A,
    ) -> Result<(), LoopError>
        ensures served { GoesOnServing self.old self.new }
        ensures stands { Stays A.stands application.old application.new }
    {
        for _ in 0..WAITING {
            if !self.entrance.is_due() {
                return Ok(());
            }
            self.answer(now, application)?;
        }
        Ok(())
    }

    /// Goes on with one of them, and takes it in once it is accepted.
    fn answer<A: Application>(&mut self, now: Instant, application: &mut A) -> Result<(), LoopError>
        ensures served { GoesOnServing self.old self.new }
        ensures stands { Stays A.stands application.old application.new }
    {
        if let Some(peer) = self.next_accepted() {
            self.admit(now, peer, application)?;
        }
        Ok(())
    }

    /// Goes on with one of them, and returns its socket once it is accepted.
    fn next_accepted(&mut self) -> Option<Peer>
        ensures same { self.new ≡ self.old }
    {
        self.entrance.go_on(&self.poller)
    }

    /// Takes in a connection that came, or turns it away where there is no room for it, as `Viewers::admit` does.
    pub(crate) fn admit<A: Application>(
        &mut self,
        now: Instant,
        peer: Peer,
        application: &mut A,
    ) -> Result<Admission, LoopError>
        ensures served { GoesOnServing self.old self.new }
        ensures stands { Stays A.stands application.old application.new }
        ensures admitted { IfOk result (IsAdmittedOr self.old self.new) }
    {
        let admission = self.viewers.admit(&self.poller, now, peer, application)?;
        Ok(admission)
    }

    /// Parts with the viewers that ended, and tells the application.
    fn part<A: Application>(&mut self, application: &mut A) -> Result<(), LoopError>
        ensures served { GoesOnServingTelling A.stands self.old self.new application.old application.new result }
    {
        for _ in 0..self.viewers.connections.len() {
            if !self.part_with_one(application)? {
                return Ok(());
            }
        }
        Ok(())
    }

    /// Parts with one viewer that ended, and tells the application. Returns whether there was one.
    fn part_with_one<A: Application>(&mut self, application: &mut A) -> Result<bool, LoopError>
        ensures served { GoesOnServingTelling A.stands self.old self.new application.old application.new result }
    {
        let Some(departed) = self.viewers.connections.take_departed() else {
            return Ok(false);
        };
        self.entrance.note_left();
        take_leave(departed.transport);
        self.viewers
            .connections
            .tell_left(departed.held, departed.receipt, application)?;
        Ok(true)
    }
}
