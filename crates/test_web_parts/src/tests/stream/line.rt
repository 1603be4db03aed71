//! A stream in memory.

use std::alloc::Global;
use std::io;
use std::io::{ErrorKind, IoSlice, Read, Write};
use web_stream::WriteBoth;

/// What gives bytes in pieces, and takes few bytes at once.
#[derive(Drop)]
pub(crate) struct Line {
    /// What it has still to give.
    pub bytes: &'static [u8],
    /// How many of these come before a cut.
    pub cut: usize,
    /// How many it gives at once at most.
    pub gives: usize,
    /// How many it takes at once at most.
    pub takes: usize,
    /// Whether the next write would wait.
    pub is_full: bool,
    /// What was written to it.
    pub written: Vec<u8>,
}

impl Line {
    /// Returns a line that gives these bytes, the first `cut` of them apart from the others.
    pub fn new(alloc: Global, bytes: &'static [u8], cut: usize) -> Line {
        Line {
            bytes,
            cut,
            gives: 1_000,
            takes: 100_000,
            is_full: false,
            written: Vec::new(alloc),
        }
    }
}

impl Read for Line {
    fn read(&mut self, room: &mut [u8]) -> io::Result<usize> {
        let mut count = room.len().min(self.bytes.len()).min(self.gives);
        if self.cut > 0 {
            count = count.min(self.cut);
            self.cut -= count;
        }
        room[..count].copy_from_slice(&self.bytes[..count]);
        self.bytes = &self.bytes[count..];
        Ok(count)
    }
}

impl Write for Line {
    fn write(&mut self, bytes: &[u8]) -> io::Result<usize> {
        if self.is_full {
            self.is_full = false;
            return Err(io::Error::from(ErrorKind::WouldBlock));
        }
        let count = bytes.len().min(self.takes);
        self.is_full = count < bytes.len();
        self.written.extend_from_slice(&bytes[..count])?;
        Ok(count)
    }

    fn flush(&mut self) -> io::Result<()> {
        Ok(())
    }
}

impl WriteBoth for Line {
    fn write_both(&mut self, first: &[u8], second: &[u8]) -> io::Result<usize> {
        self.write_vectored(&[IoSlice::new(first), IoSlice::new(second)])
    }
}
