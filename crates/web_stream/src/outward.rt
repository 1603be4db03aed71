//! What goes: the frame that is on its way.

ghost use Rattle.std.specs.Prelude.{◌≡◌, ◌+◌, ◌-◌, ◌≤◌, [], length, drop};

use crate::answer::OWN;
use arrayvec::ArrayVec;

/// What is to be written of the frame that is on its way: bytes of the server's own, and behind these so many bytes of payload.
#[derive(Drop)]
pub(crate) struct Outward {
    /// What is left of a data frame's head, or of a control frame.
    pub own: ArrayVec<u8, OWN>,
    /// How many bytes of a data frame's payload are left.
    pub owed: usize,
}

/// Returns bytes of the server's own.
fn copied(bytes: &[u8]) -> ArrayVec<u8, OWN>
    requires { length bytes.now ≤ 127 }
    ensures { result.items ≡ bytes.now }
{
    let mut own = ArrayVec::new();
    own.try_extend_from_slice(bytes).unwrap();
    own
}

impl Outward {
    /// Returns that no frame is on its way.
    pub fn new() -> Outward
        ensures own { result.own.items ≡ [] }
        ensures owed { result.owed ≡ 0 }
    {
        Outward {
            own: ArrayVec::new(),
            owed: 0,
        }
    }

    /// Counts bytes that were written of the frame. Returns how many of them were payload.
    pub fn count(&mut self, written: usize) -> usize
        requires { written ≤ length self.old.own.items + self.old.owed }
        ensures payload { result ≡ written - length self.old.own.items }
        ensures own { self.new.own.items ≡ drop written self.old.own.items }
        ensures owed { self.new.owed ≡ self.old.owed - (written - length self.old.own.items) }
    {
        let own = self.own.len();
        if written < own {
            self.own = copied(&self.own[written..]);
            return 0;
        }
        self.own.clear();
        self.owed -= written - own;
        written - own
    }
}
