//! Which viewers have not had their ServerInit, and until when they may take for it.

ghost use Rattle.std.specs.Prelude.{◌≡◌, ◌≤◌, ◌<◌, ◌-◌, ◌++◌, ◌∷◌, [], drop, None, Some, OnOk, IfSome, MatchOption, slice_get};
ghost use Rattle.std.specs.Duration.{as_nanos};
ghost use Rattle.std.specs.Time.{instant_nanos};
ghost use Rattle.std.specs.VecDeque.{deque_capacity, deque_len};
ghost use Rattle.event_loop.specs.declared.opening.Newcomer.{Newcomer};

use std::alloc::{AllocError, Global};
use std::collections::VecDeque;
use std::time::{Duration, Instant};

/// A viewer that connected at a time.
#[derive(Clone, Copy)]
struct Newcomer {
    key: usize,
    viewer: u64,
    since: Instant,
}

/// Those that connected lately, the first one first.
#[derive(Drop)]
pub(crate) struct Newcomers {
    patience: Duration,
    waiting: VecDeque<Newcomer>,
}

impl Newcomers {
    /// Returns a list of nobody; each may take `patience` for its opening.
    pub fn new(alloc: Global, patience: Duration) -> Newcomers
        ensures nobody { result.waiting.items ≡ [] }
        ensures patience { result.patience ≡ patience }
    {
        Newcomers {
            patience,
            waiting: VecDeque::new(alloc),
        }
    }

    /// Makes room for one more.
    pub fn make_room(&mut self) -> Result<(), AllocError>
        ensures patience { self.new.patience ≡ self.old.patience }
        ensures same { self.new.waiting.items ≡ self.old.waiting.items }
        ensures room { OnOk result (deque_len self.new.waiting < deque_capacity self.new.waiting) }
    {
        self.waiting.reserve(1)
    }

    /// Appends a viewer that connected at the time `since`, in room that was made.
    pub fn push(&mut self, key: usize, viewer: u64, since: Instant)
        requires { deque_len self.old.waiting < deque_capacity self.old.waiting }
        ensures patience { self.new.patience ≡ self.old.patience }
        ensures pushed { self.new.waiting.items ≡
            self.old.waiting.items ++ (record { key = key; viewer = viewer; since = since }) ∷ [] }
    {
        let _pushed = self.waiting.push_back(Newcomer { key, viewer, since });
    }

    /// Returns the key and the number of the first.
    pub fn first(&self) -> Option<(usize, u64)>
        ensures { MatchOption (slice_get self.now.waiting.items 0) (result ≡ None) (λ first. result ≡ Some (first.key, first.viewer)) }
    {
        let first = self.waiting.front()?;
        Some((first.key, first.viewer))
    }

    /// Takes out the first, if there is one.
    pub fn pop_first(&mut self)
        ensures patience { self.new.patience ≡ self.old.patience }
        ensures rest { self.new.waiting.items ≡ drop 1 self.old.waiting.items }
    {
        self.waiting.pop_front();
    }

    /// Takes out the first, where its time is up, and returns its key and number. None where there is nobody, or the first one's time is not
    /// up.
    pub fn pop_late(&mut self, now: Instant) -> Option<(usize, u64)>
        ensures patience { self.new.patience ≡ self.old.patience }
        ensures late { IfSome result (λ late. (first : Newcomer) × (self.old.waiting.items ≡ first ∷ self.new.waiting.items) ×
            (late ≡ (first.key, first.viewer)) × (as_nanos self.old.patience ≤ instant_nanos now - instant_nanos first.since)) }
        ensures none { result ≡ None → self.new.waiting.items ≡ self.old.waiting.items }
        ensures in_time { result ≡ None → IfSome (slice_get self.old.waiting.items 0)
            (λ first. instant_nanos now - instant_nanos first.since < as_nanos self.old.patience) }
    {
        let first = self.waiting.front()?;
        let waited = now.duration_since(first.since);
        if waited.as_nanos() < self.patience.as_nanos() {
            return None;
        }
        let first = self.waiting.pop_front()?;
        Some((first.key, first.viewer))
    }

    /// Returns after how long the first one's time is up; None where there is nobody.
    pub fn next_after(&self, now: Instant) -> Option<Duration>
        ensures { MatchOption (slice_get self.now.waiting.items 0) (result ≡ None) (λ first. IfSome result (λ wait.
            as_nanos wait ≡ as_nanos self.now.patience - (instant_nanos now - instant_nanos first.since))) }
    {
        let first = self.waiting.front()?;
        Some(
            self.patience
                .saturating_sub(now.duration_since(first.since)),
        )
    }
}
