//! The listener for browsers, and those that came there, until their requests are answered.

ghost use Rattle.std.specs.Prelude.{◌≡◌, ◌≤◌, ◌<◌, ◌-◌, ◌+◌, false, None, nat_le, nat_lt, if◌then◌else◌, IfSome, IsSomeAnd, MatchOption, slice_get};
ghost use Rattle.std.specs.Duration.{as_nanos};
ghost use Rattle.std.specs.Time.{instant_nanos};
ghost use Rattle.std.specs.VecDeque.{deque_len};

use crate::door::{Door, Listener};
use crate::poller::Poller;
use crate::request::{Request, Step};
use crate::socket::{Peer, Socket};
use mio::net::{TcpListener, TcpStream};
use std::alloc::Global;
use std::collections::VecDeque;
use std::time::{Duration, Instant};
use web_opening::Admission;

/// How many requests wait at once, at most.
pub const WAITING: usize = 64;

/// The listener for browsers, and those that came there and are no viewers: their requests are not answered yet, or are refused. The one
/// that has waited longest is the first.
#[derive(Drop)]
pub struct Browsers {
    alloc: Global,
    pub(crate) door: Door,
    admission: Admission,
    patience: Duration,
    waiting: VecDeque<Request<Socket<TcpStream>>>,
    // of how many of them, the first ones, more may have come
    due: usize,
    // more may be read of one of them at once, in the next turn
    goes_on: bool,
}

impl Browsers {
    /// Returns a listener at which nobody was yet; each request may take `patience`.
    pub fn new(
        alloc: Global,
        listener: TcpListener,
        admission: Admission,
        patience: Duration,
    ) -> Browsers
        ensures nobody { deque_len result.waiting ≡ 0 }
    {
        Browsers {
            alloc,
            door: Door::new(Listener::Tcp(listener), 0),
            admission,
            patience,
            waiting: VecDeque::new(alloc),
            due: 0,
            goes_on: false,
        }
    }

    /// Notes that more may have come of each of them.
    pub(crate) fn note(&mut self)
        ensures { self.new ≡ record self.old { due = deque_len self.old.waiting } }
    {
        self.due = self.waiting.len();
    }

    /// Begins a turn: where more could be read of one of them in the last one, it can in this one.
    pub(crate) fn begin_turn(&mut self)
        ensures { self.new ≡ record self.old { due = if self.old.goes_on then deque_len self.old.waiting else self.old.due; goes_on = false } }
    {
        if self.goes_on {
            self.due = self.waiting.len();
            self.goes_on = false;
        }
    }

    /// Returns whether more may be read of one of them at once, in the next turn.
    pub(crate) fn goes_on(&self) -> bool
        ensures { result ≡ self.now.goes_on }
    {
        self.goes_on
    }

    /// Returns whether more may have come of one of them, in this turn.
    pub(crate) fn is_due(&self) -> bool
        ensures { result ≡ nat_lt 0 self.now.due }
    {
        self.due > 0
    }

    /// Lets the one go that has waited longest, where as many wait as may.
    fn make_place(&mut self)
        ensures few { deque_len self.old.waiting ≤ 64 → deque_len self.new.waiting < 64 }
    {
        if self.waiting.len() >= WAITING {
            self.waiting.pop_front();
        }
    }

    /// Takes in a connection that came at the time `now`, in place of the one that has waited longest where as many wait as may. It is closed
    /// where the poller or memory is refused.
    fn take_in(&mut self, poller: &Poller, now: Instant, stream: TcpStream)
        ensures few { deque_len self.old.waiting ≤ 64 → deque_len self.new.waiting ≤ 64 }
    {
        self.make_place();
        let request = Request::new(self.alloc, Socket::new(stream), now);
        if poller.add_request(&request).is_err() {
            return;
        }
        let _kept = self.waiting.push_back(request);
        self.due = self.waiting.len();
    }

    /// Accepts a connection, if one waits, and reads its request from now on.
    pub(crate) fn accept(&mut self, poller: &Poller, now: Instant)
        ensures few { deque_len self.old.waiting ≤ 64 → deque_len self.new.waiting ≤ 64 }
    {
        if let Some(stream) = self.door.next_stream(now) {
            self.take_in(poller, now, stream);
        }
    }

    /// Puts one back, behind the others. There is room for it, since it was taken out.
    fn put_back(&mut self, request: Request<Socket<TcpStream>>)
        ensures same { self.new ≡ record self.old { waiting = self.new.waiting } }
        ensures few { deque_len self.new.waiting ≤ deque_len self.old.waiting + 1 }
    {
        let _kept = self.waiting.push_back(request);
    }

    /// Goes on with the first of them. Returns the viewer's socket once its request is accepted; one whose connection stands waits behind the
    /// others.
    pub(crate) fn go_on(&mut self, poller: &Poller) -> Option<Peer>
        ensures few { deque_len self.new.waiting ≤ deque_len self.old.waiting }
        ensures due { self.new.due ≡ self.old.due - 1 }
    {
        self.due = self.due.saturating_sub(1);
        let mut request = self.waiting.pop_front()?;
        match request.go_on(self.alloc, &self.admission) {
            Step::Waits => self.put_back(request),
            Step::Continues => {
                self.goes_on = true;
                self.put_back(request);
            }
            Step::Over => {}
            Step::Accepted(answered) => {
                let _removed = poller.remove(&request);
                return request.into_peer(self.alloc, answered);
            }
        }
        None
    }

    /// Returns after how long the time is up of the one that has waited longest; None where nobody waits.
    pub(crate) fn next_after(&self, now: Instant) -> Option<Duration>
        ensures { MatchOption (slice_get self.now.waiting.items 0) (result ≡ None) (λ first. IsSomeAnd result (λ wait.
            as_nanos wait ≡ as_nanos self.now.patience - (instant_nanos now - instant_nanos first.since))) }
    {
        let first = self.waiting.front()?;
        Some(
            self.patience
                .saturating_sub(now.duration_since(first.since())),
        )
    }

    /// Returns whether the time is up of the one that has waited longest.
    fn is_first_late(&self, now: Instant) -> bool
        ensures { MatchOption (slice_get self.now.waiting.items 0) (result ≡ false) (λ first.
            result ≡ nat_le (as_nanos self.now.patience) (instant_nanos now - instant_nanos first.since)) }
    {
        let Some(first) = self.waiting.front() else {
            return false;
        };
        let waited = now.duration_since(first.since());
        self.patience.as_nanos() <= waited.as_nanos()
    }

    /// Lets the first ones go whose time is up.
    pub(crate) fn let_go(&mut self, now: Instant)
        ensures patience { self.new.patience ≡ self.old.patience }
        ensures few { deque_len self.new.waiting ≤ deque_len self.old.waiting }
        ensures in_time { IfSome (slice_get self.new.waiting.items 0) (λ first. instant_nanos now - instant_nanos first.since < as_nanos self.old.patience) }
    {
        'late: while self.is_first_late(now) {
            self.waiting.pop_front();
        }
    }
}
