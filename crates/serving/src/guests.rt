//! The viewers of a server without end. Of one that has ended nothing is kept.

ghost use Rattle.std.specs.Prelude.{◌≡◌, ◌<◌, ◌≤◌, ◌+◌, ◌-◌, ◌^◌, ◌++◌, ◌∷◌, [], length, min, IfSome, OnOk, true, false, vec_len, vec_capacity};

use crate::service::Service;
use std::alloc::{AllocError, Global};
use std::thread::Threads;

/// A viewer's service, and the viewer's number.
#[derive(Drop)]
pub(crate) struct Guest {
    pub viewer: u64,
    pub service: Service,
}

/// Those that are served, at most so many at once, and how many have come.
#[derive(Drop)]
pub(crate) struct Guests {
    pub came: u64,
    pub limit: usize,
    pub present: Vec<Guest>,
    ghost few: { length present.items ≤ limit },
}

impl Guests {
    /// Makes a list in which none has come.
    pub fn new(alloc: Global, limit: usize) -> Guests
        ensures limit { result.limit ≡ limit }
        ensures came { result.came ≡ 0 }
        ensures none { result.present.items ≡ [] }
    {
        Guests {
            came: 0,
            limit,
            present: Vec::new(alloc),
        }
    }

    /// Returns whether as many are there as may be.
    pub fn are_full(&self) -> bool
        ensures full { result ≡ true → length self.now.present.items ≡ self.now.limit }
        ensures free { result ≡ false → length self.now.present.items < self.now.limit }
    {
        self.present.len() >= self.limit
    }

    /// Returns the number of the one that comes next; it stops at 2^64 - 1.
    pub fn next(&self) -> u64
        ensures { result ≡ min (self.now.came + 1) (2 ^ 64 - 1) }
    {
        self.came.saturating_add(1)
    }

    /// Makes room for one more.
    pub fn make_room(&mut self) -> Result<(), AllocError>
        ensures room { OnOk result (vec_len self.new.present < vec_capacity self.new.present) }
        ensures present { self.new.present.items ≡ self.old.present.items }
        ensures came { self.new.came ≡ self.old.came }
        ensures limit { self.new.limit ≡ self.old.limit }
    {
        self.present.reserve(1)
    }

    /// Adds one that comes, for whom there is room.
    pub fn add(&mut self, guest: Guest)
        requires free { length self.old.present.items < self.old.limit }
        requires room { vec_len self.old.present < vec_capacity self.old.present }
        ensures present { self.new.present.items ≡ self.old.present.items ++ guest ∷ [] }
        ensures came { self.new.came ≡ guest.viewer }
        ensures limit { self.new.limit ≡ self.old.limit }
    {
        self.came = guest.viewer;
        self.present.push_reserved(guest);
    }

    /// Returns where a viewer is among them.
    fn place_of(&self, viewer: u64) -> Option<usize>
        ensures { IfSome result (λ at. at < length self.now.present.items) }
    {
        for (at, guest) in self.present.iter().enumerate() {
            if guest.viewer == viewer {
                return Some(at);
            }
        }
        None
    }

    /// Lets a viewer go, if it is among them: joins its thread, and keeps nothing of it.
    pub fn part<R: Threads>(&mut self, rt: &R, viewer: u64)
        ensures came { self.new.came ≡ self.old.came }
        ensures limit { self.new.limit ≡ self.old.limit }
        ensures fewer { length self.new.present.items ≤ length self.old.present.items }
    {
        if let Some(at) = self.place_of(viewer) {
            let Guest { service, .. } = self.present.swap_remove(at);
            let _receipt = service.receipt(rt);
        }
    }

    /// Joins the threads of all.
    pub fn end<R: Threads>(self, rt: &R) {
        let Guests { present, .. } = self;
        for guest in present {
            let Guest { service, .. } = guest;
            let _receipt = service.receipt(rt);
        }
    }
}
