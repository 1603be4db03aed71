//! Senders that wait, in 64 groups by their viewers' numbers, so that a call wakes the groups alone in which it may give a sender
//! something.

ghost use Rattle.std.specs.Prelude.{◌≡◌, vec_len};

use std::alloc::{AllocError, Global};
use std::sync::Condvar;

/// How many groups there are: a set of them is a number of 64 bits, in which bit `n` says whether group `n` is among them.
const GROUPS: u64 = 64;

/// The set of all groups.
pub(crate) const ALL_GROUPS: u64 = u64::MAX;

/// Returns the set of the one group that a viewer's sender is in. The viewers 0 to 63 are each in the group of that number.
pub(crate) fn group_of(viewer: u64) -> u64 {
    1 << (viewer % GROUPS) as u32
}

/// The conditions on which senders wait, one for each group.
pub(crate) struct Senders {
    wakes: Vec<Condvar>,
    ghost all: { vec_len wakes ≡ 64 },
}

// Written out, so that who holds one proves one call here, and not the drop of each field.
impl Drop for Senders {
    fn drop(self) {
        let Senders { wakes: _wakes } = self;
    }
}

impl Senders {
    /// Returns the conditions of all groups.
    pub(crate) fn new(alloc: Global) -> Result<Senders, AllocError> {
        let mut wakes = Vec::new(alloc);
        for _group in 0..GROUPS {
            wakes.push(Condvar::new())?;
        }
        Ok(Senders { wakes })
    }

    /// Returns the condition on which a viewer's sender waits.
    pub(crate) fn of(&self, viewer: u64) -> &Condvar {
        &self.wakes[(viewer % GROUPS) as usize]
    }

    /// Wakes the senders that wait in these groups.
    pub(crate) fn wake(&self, groups: u64) {
        if groups == 0 {
            return;
        }
        for (group, wake) in self.wakes.iter().enumerate() {
            if groups & group_of(group as u64) != 0 {
                wake.notify_all();
            }
        }
    }
}
