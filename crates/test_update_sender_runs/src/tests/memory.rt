//! Readers and writers over memory, which fail.

use super::drawing::GREETED;
use super::gates::{Guard, Point};
use std::io;
use std::io::{Read, Write};

/// Gives the bytes of `rest`, in a first piece of at most `first` bytes and then in pieces of at most `others`; then it is at its end,
/// or fails.
#[derive(Drop)]
pub struct Source<'a> {
    pub rest: &'a [u8],
    pub first: usize,
    pub others: usize,
    pub fails: bool,
}

impl Read for Source<'_> {
    fn read(&mut self, buf: &mut [u8]) -> io::Result<usize> {
        if self.rest.is_empty() && self.fails {
            return Err(io::Error::from(io::ErrorKind::BrokenPipe));
        }
        let count = self.first.min(self.rest.len()).min(buf.len());
        let (piece, rest) = self.rest.split_at(count);
        buf[..count].copy_from_slice(piece);
        self.rest = rest;
        self.first = self.others;
        Ok(count)
    }
}

/// Takes `room` bytes of a viewer in all, and then fails. The first write after the opening may be held.
#[derive(Drop)]
pub struct Sink<'a> {
    pub written: Vec<u8>,
    pub room: usize,
    pub viewer: u64,
    pub guard: &'a Guard,
}

impl Write for Sink<'_> {
    fn write(&mut self, buf: &[u8]) -> io::Result<usize> {
        let is_held = self.written.len() == GREETED
            && !self.guard.passes(self.viewer, Point::Write);
        if is_held || self.room == 0 {
            return Err(io::Error::from(io::ErrorKind::BrokenPipe));
        }
        let count = buf.len().min(self.room);
        self.written.extend_from_slice(&buf[..count])?;
        self.room -= count;
        Ok(count)
    }

    fn flush(&mut self) -> io::Result<()> {
        Ok(())
    }
}
