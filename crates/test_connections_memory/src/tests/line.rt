//! A viewer's transport in memory.

use connections::Transport;
use std::io;

/// What a transport does once its viewer has said everything.
#[derive(Clone, Copy)]
pub enum Then {
    /// It would wait.
    Waits,
    /// It is at its end.
    Ends,
    /// It fails.
    Fails,
}

/// What a viewer says, in pieces of at most `piece` bytes, and what follows; how many bytes it takes in a write at most, and in
/// all; and whether each second read and each second write would wait.
#[derive(Clone, Copy)]
pub struct Talk {
    pub says: &'static [u8],
    pub piece: usize,
    pub then: Then,
    pub takes: usize,
    pub most: usize,
    pub blocks: bool,
}

/// A transport of such a viewer.
#[derive(Drop)]
pub struct Line<'a> {
    /// What it was sent.
    pub taken: Vec<u8>,
    /// What it has still to say.
    pub rest: &'a [u8],
    pub talk: Talk,
    pub read_waits: bool,
    pub write_waits: bool,
}

impl Transport for Line<'_> {
    fn receive(&mut self, room: &mut [u8]) -> io::Result<usize> {
        self.read_waits = self.talk.blocks && !self.read_waits;
        if self.read_waits {
            return Err(io::ErrorKind::WouldBlock.into());
        }
        let count = self.talk.piece.min(self.rest.len()).min(room.len());
        if count == 0 {
            return match self.talk.then {
                Then::Waits => Err(io::ErrorKind::WouldBlock.into()),
                Then::Ends => Ok(0),
                Then::Fails => Err(io::ErrorKind::ConnectionReset.into()),
            };
        }
        let (piece, rest) = self.rest.split_at(count);
        room[..count].copy_from_slice(piece);
        self.rest = rest;
        Ok(count)
    }

    fn send(&mut self, bytes: &[u8]) -> io::Result<usize> {
        self.write_waits = self.talk.blocks && !self.write_waits;
        if self.write_waits {
            return Err(io::ErrorKind::WouldBlock.into());
        }
        let left = self.talk.most.saturating_sub(self.taken.len());
        let count = self.talk.takes.min(left).min(bytes.len());
        if count == 0 {
            return Err(io::ErrorKind::BrokenPipe.into());
        }
        self.taken.extend_from_slice(&bytes[..count])?;
        Ok(count)
    }
}
