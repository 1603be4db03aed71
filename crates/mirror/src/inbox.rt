//! What came of a source and wasn't read.

ghost use Rattle.std.specs.Prelude.{◌≡◌, ◌==◌, ◌-◌, ◌≤◌, [], length, drop, IfOk, OnErr};
ghost use Rattle.mirror.specs.Inbox.{IsFilled};

use std::alloc::{AllocError, Global};
use std::io;
use std::io::Read;
use std::marker::Model;

/// How many bytes are read at once, at most.
const READ_SIZE: usize = 65_536;

/// Bytes that came and weren't read: those of the room from `start` on, below `end`. Contracts see these.
#[derive(Drop)]
pub(crate) struct Inbox {
    room: Vec<u8>,
    start: usize,
    end: usize,
}

impl Model for Inbox {
    ghost use Rattle.std.specs.Prelude.{ℕ, ◌-◌, List, take, drop};
    ghost use Rattle.mirror.specs.Inbox.{IsWithin};

    ghost Value = { List ℕ };

    ghost view = { λ a. take (a.end - a.start) (drop a.start a.room.items) };

    ghost invariant = { λ a. IsWithin a.start a.end a.room.items };
}

impl Inbox {
    /// Returns an inbox of nothing, with room for 64 KB.
    pub fn new(alloc: Global) -> Result<Inbox, AllocError>
        ensures { IfOk result (λ inbox. inbox ≡ []) }
    {
        Ok(Inbox {
            room: Vec::from_elem(alloc, 0, READ_SIZE)?,
            start: 0,
            end: 0,
        })
    }

    /// Returns whether all is read.
    pub fn is_empty(&self) -> bool
        ensures { result ≡ (length self.now == 0) }
    {
        self.start == self.end
    }

    /// Returns the bytes.
    pub fn bytes(&self) -> &[u8]
        ensures { result.now ≡ self.now }
    {
        &self.room[self.start..self.end]
    }

    /// Forgets bytes at the front, which were read.
    #[tactic(auto, using(crate::proofs::Inboxes::forgotten))]
    pub fn forget(&mut self, count: usize)
        requires { count ≤ length self.old }
        ensures { self.new ≡ drop count self.old }
    {
        self.start += count;
    }

    /// Forgets all but the last bytes, which are to be read yet.
    pub fn keep_last(&mut self, count: usize)
        requires { count ≤ length self.old }
        ensures { self.new ≡ drop (length self.old - count) self.old }
    {
        self.forget(self.bytes().len() - count);
    }

    /// Reads once in place of all bytes that are there. Returns how many came, of which there are none at the stream's end alone; after an error
    /// there are none.
    pub fn fill<S: Read>(&mut self, stream: &mut S) -> io::Result<usize>
        ensures filled { IsFilled (S.remaining stream.old) (S.remaining stream.new) result self.new }
        ensures count { IfOk result (λ n. n ≡ length self.new) }
        ensures few { length self.new ≤ 65536 }
        ensures err { OnErr result (self.new ≡ []) }
    {
        self.start = 0;
        self.end = 0;
        let count = stream.read(&mut self.room)?;
        self.end = count;
        Ok(count)
    }
}
