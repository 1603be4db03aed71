//! The name in ServerInit.

ghost use Rattle.std.specs.Prelude.{◌≡◌, ◌==◌, ◌≤◌, [], length, take, min, IfOk, OnOk, OnErr};
ghost use Rattle.source_talk.specs.Opening.{most_named, named};

use crate::opening::Init;
use std::alloc::{AllocError, Global};
use std::marker::Model;

/// How much of a name is kept, in bytes: as much as a screen's name may have.
const MOST_NAMED: usize = 255;

/// The name that comes behind the head of ServerInit (RFC 6143, 7.3.2), of which the first 255 bytes are kept and the rest is passed over.
#[derive(Drop)]
pub struct Naming {
    init: Init,
    left: u32,
    kept: Vec<u8>,
}

impl Model for Naming {
    ghost use Rattle.std.specs.Prelude.{◌≤◌, length};
    ghost use Rattle.source_talk.specs.Opening.{Name, most_named};

    ghost Value = { Name };

    ghost view = { λ a. record { init = a.init; left = a.left; kept = a.kept.items } };

    ghost invariant = { λ a. length a.kept.items ≤ most_named };
}

impl Naming {
    /// Returns that nothing of the name came yet.
    pub fn new(alloc: Global, init: Init) -> Naming
        ensures { result ≡ record { init = init; left = init.name; kept = [] } }
    {
        Naming {
            init,
            left: init.name,
            kept: Vec::new(alloc),
        }
    }

    /// Returns whether all of the name came.
    pub fn is_whole(&self) -> bool
        ensures { result ≡ (self.now.left == 0) }
    {
        self.left == 0
    }

    /// Returns the picture's columns and rows.
    pub fn size(&self) -> (u16, u16)
        ensures { result ≡ (self.now.init.width, self.now.init.height) }
    {
        (self.init.width, self.init.height)
    }

    /// Returns what is kept of the name.
    pub fn name(&self) -> &[u8]
        ensures value { result.now ≡ self.now.kept }
        ensures few { length result.now ≤ most_named }
    {
        &self.kept
    }

    /// Takes the name's bytes from the front of `piece`. Returns how many these are. If memory is refused nothing is taken.
    pub fn take(&mut self, piece: &[u8]) -> Result<usize, AllocError>
        ensures count { IfOk result (λ n. n ≡ min self.old.left (length piece.now)) }
        ensures named { OnOk result (self.new ≡ named self.old piece.now) }
        ensures err { OnErr result (self.new ≡ self.old) }
    {
        let count = piece.len().min(self.left as usize);
        let room = MOST_NAMED - self.kept.len();
        self.kept.extend_from_slice(&piece[..count.min(room)])?;
        self.left -= count as u32;
        Ok(count)
    }
}
