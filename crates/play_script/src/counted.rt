//! A reader whose reads are counted. Only `play_over`, `play_uncounted` and `play_counted` are given the reader itself, and none of them
//! reads from it.
ghost use Rattle.std.specs.Prelude.{◌≡◌, ◌+◌};
ghost use Rattle.std.specs.Io.{ReadsAtMost};
ghost use Rattle.std.specs.Io.KnownBytes.{ReadConsumes};

use crate::steps::Steps;
use std::io;
use std::io::Read;
use std::sync::ledger::Ledger;

/// A reader and the count of its reads. Both are private: `read` alone reaches the reader, and it counts.
#[derive(Drop)]
pub struct CountedReader<'a, R, L: Ledger> {
    reader: &'a mut R,
    steps: &'a mut Steps<L>,
}

impl<'a, R: Read, L: Ledger> CountedReader<'a, R, L> {
    /// Returns `reader` with a count of its reads: each adds one to `steps`.
    pub fn new(reader: &'a mut R, steps: &'a mut Steps<L>) -> CountedReader<'a, R, L>
        ensures reader { result.reader.now ≡ reader.old }
        ensures count { result.steps.now ≡ steps.old }
        ensures same_count { result.steps.ghost_name ≡ steps.entry.ghost_name }
    {
        CountedReader { reader, steps }
    }

    /// Reads once, and counts it.
    pub fn read(&mut self, piece: &mut [u8]) -> io::Result<usize>
        ensures count { self.new.steps.now ≡ self.old.steps.now + 1 }
        ensures same_count { self.new.steps.ghost_name ≡ self.old.steps.ghost_name }
        ensures bound { ReadsAtMost result piece.new }
        ensures bytes { ReadConsumes (R.remaining self.old.reader.now) (R.remaining self.new.reader.now) result piece.new }
    {
        self.steps.tick();
        self.reader.read(piece)
    }
}
