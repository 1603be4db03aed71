//! What the threads of a run tell one another, and where a sender is held.

use std::sync::atomic::{AtomicU64, Ordering};
use std::thread;
use update_sender::Gate;

/// How far a viewer's sender is.
#[derive(Drop)]
pub struct Progress {
    /// Bytes of updates that were written whole.
    pub wrote: AtomicU64,
    /// How many updates these are, and ends.
    pub steps: AtomicU64,
    /// How often it has ended.
    pub ended: AtomicU64,
}

/// Where a sender is held: before its update is encoded, before the update's first bytes are written, or in its first write after
/// the opening.
#[derive(Clone, Copy)]
pub enum Point {
    Encoding,
    Writing,
    Write,
}

/// Who is held.
#[derive(Clone, Copy)]
pub enum Hold {
    Nobody,
    /// Viewer 1, until viewer 2's sender has ended.
    First(Point),
    /// Viewer 1 as long, and then the gate refuses it.
    Refused(Point),
    /// Each of two threads, until the other has come as far.
    Both(Point),
}

/// Holds senders, and notes what they report of viewers 1 and 2.
#[derive(Drop)]
pub struct Guard {
    pub hold: Hold,
    pub one: Progress,
    pub two: Progress,
    /// How many threads have come where two meet.
    pub met: AtomicU64,
}

/// Waits until `count` is at least `least`, for at most `turns` turns, and returns whether it is.
pub fn waits(count: &AtomicU64, least: u64, turns: u64) -> bool {
    for _ in 0..turns {
        if count.load(Ordering::SeqCst) >= least {
            return true;
        }
        thread::yield_now();
    }
    false
}

/// How many turns a thread waits for another.
pub const TURNS: u64 = 1_000_000;

impl Progress {
    fn new() -> Progress {
        Progress {
            wrote: AtomicU64::new(0),
            steps: AtomicU64::new(0),
            ended: AtomicU64::new(0),
        }
    }
}

impl Guard {
    /// Returns a guard that has noted nothing yet.
    pub fn new(hold: Hold) -> Guard {
        Guard {
            hold,
            one: Progress::new(),
            two: Progress::new(),
            met: AtomicU64::new(0),
        }
    }

    /// Returns how far the sender of `viewer` is.
    pub fn progress(&self, viewer: u64) -> &Progress {
        if viewer == 1 { &self.one } else { &self.two }
    }

    /// Holds the sender of `viewer` if it is to be held at the point `at`, and returns whether it goes on.
    pub fn passes(&self, viewer: u64, at: Point) -> bool {
        match self.hold {
            Hold::First(point) if viewer == 1 && point as u8 == at as u8 => {
                waits(&self.two.ended, 1, TURNS)
            }
            Hold::Refused(point) if viewer == 1 && point as u8 == at as u8 => {
                !waits(&self.two.ended, 1, TURNS)
            }
            Hold::Both(point) if point as u8 == at as u8 => {
                self.met.fetch_add(1, Ordering::SeqCst);
                waits(&self.met, 2, TURNS)
            }
            _ => true,
        }
    }
}

impl Gate for Guard {
    fn encoding(&self, viewer: u64) -> bool {
        self.passes(viewer, Point::Encoding)
    }

    fn writing(&self, viewer: u64) -> bool {
        self.passes(viewer, Point::Writing)
    }

    fn wrote(&self, viewer: u64, bytes: u64) {
        let progress = self.progress(viewer);
        progress.wrote.fetch_add(bytes, Ordering::SeqCst);
        progress.steps.fetch_add(1, Ordering::SeqCst);
    }

    fn ended(&self, viewer: u64) {
        let progress = self.progress(viewer);
        progress.ended.fetch_add(1, Ordering::SeqCst);
        progress.steps.fetch_add(1, Ordering::SeqCst);
    }
}
