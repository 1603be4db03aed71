//! The connections that are served: all can be shut at once, and each one's end is noted.

ghost use Rattle.std.specs.Prelude.{◌≡◌, true};

use crate::application::Departed;
use crate::doorbell::{Doorbell, Woken};
use slab::Slab;
use std::alloc::{AllocError, Global};
use std::net::{Shutdown, TcpListener, TcpStream};
use std::sync::{Arc, Mutex, Wait};

/// A connection that its threads and `OpenConnections` share.
pub(crate) type SharedStream = Arc<TcpStream, Global>;

/// The connections that are served, the numbers of viewers that ended since somebody asked, and those that left since the application
/// was told.
#[derive(Drop)]
struct Streams {
    streams: Slab<SharedStream>,
    ended: Vec<u64>,
    departed: Vec<Departed>,
    are_shut: bool,
}

/// Lets connections in, until all are shut.
#[derive(Drop)]
pub(crate) struct OpenConnections {
    streams: Mutex<Streams>,
    bell: Doorbell,
}

/// Where a connection is kept.
#[derive(Clone, Copy)]
pub(crate) struct Slot {
    key: usize,
}

/// Shuts a connection both ways: its reader is at its end then, and its writer fails. Where the system refuses, it was shut
/// already.
pub(crate) fn shut(stream: &TcpStream) {
    let _shut = stream.shutdown(Shutdown::Both);
}

impl Streams {
    /// Keeps a connection, with room for notes of its end. It is shut where all are.
    fn admit(&mut self, stream: &SharedStream) -> Result<Slot, AllocError>
        ensures { self.new.are_shut ≡ self.old.are_shut }
    {
        let further = self.streams.len().saturating_add(1);
        self.ended.reserve(further)?;
        self.departed.reserve(further)?;
        let key = self.streams.insert(Arc::try_clone(stream)?)?;
        if self.are_shut {
            shut(stream);
        }
        Ok(Slot { key })
    }

    /// Keeps a connection no longer.
    fn leave(&mut self, slot: Slot)
        ensures { self.new.are_shut ≡ self.old.are_shut }
    {
        let _stream = self.streams.try_remove(slot.key);
    }

    /// Keeps a viewer's connection no longer that has ended, and notes its end.
    fn end(&mut self, slot: Slot, viewer: u64)
        ensures { self.new.are_shut ≡ self.old.are_shut }
    {
        self.leave(slot);
        // There is room since the connection was admitted.
        let _noted = self.ended.push(viewer);
    }

    /// Notes a viewer that was open as gone.
    fn depart(&mut self, departed: Departed)
        ensures { self.new.are_shut ≡ self.old.are_shut }
    {
        // There is room since the connection was admitted.
        let _noted = self.departed.push(departed);
    }

    /// Returns the earliest of those that left, which is noted no longer.
    fn take_departed(&mut self) -> Option<Departed>
        ensures { self.new.are_shut ≡ self.old.are_shut }
    {
        if self.departed.is_empty() {
            return None;
        }
        Some(self.departed.remove(0))
    }

    /// Shuts one connection.
    fn shut_one(&self, slot: Slot) {
        if let Some(stream) = self.streams.get(slot.key) {
            shut(stream);
        }
    }

    /// Shuts all that are served, and each that comes later.
    fn shut_all(&mut self)
        ensures { self.new.are_shut ≡ true }
    {
        self.are_shut = true;
        for (_key, stream) in &self.streams {
            shut(stream);
        }
    }
}

impl OpenConnections {
    /// Makes a list in which no connection was let in yet. None where the system has no descriptor for the bell.
    pub fn new(alloc: Global) -> Option<OpenConnections> {
        let bell = Doorbell::new()?;
        let streams = Streams {
            streams: Slab::new(alloc),
            ended: Vec::new(alloc),
            departed: Vec::new(alloc),
            are_shut: false,
        };
        Some(OpenConnections {
            streams: Mutex::new(streams),
            bell,
        })
    }

    /// Waits until a listener has a connection, or a viewer has ended, or all connections were shut, or another bell rings.
    pub fn wait(&self, listener: &TcpListener, other: &Doorbell) -> Woken {
        self.bell.wait(listener, other)
    }

    /// Lets a connection in.
    pub fn admit<R: Wait>(&self, rt: &R, stream: &SharedStream) -> Result<Slot, AllocError> {
        self.streams.lock(rt).admit(stream)
    }

    /// Keeps a connection no longer that was let in and becomes no viewer.
    pub fn leave<R: Wait>(&self, rt: &R, slot: Slot) {
        self.streams.lock(rt).leave(slot);
    }

    /// Notes that a viewer has ended, whose thread has nothing left to do.
    pub fn end<R: Wait>(&self, rt: &R, slot: Slot, viewer: u64) {
        self.streams.lock(rt).end(slot, viewer);
        self.bell.ring();
    }

    /// Returns a viewer that has ended since, each once.
    pub fn take_ended<R: Wait>(&self, rt: &R) -> Option<u64> {
        self.streams.lock(rt).ended.pop()
    }

    /// Notes that a viewer that was open has left, whose last input was put.
    pub fn depart<R: Wait>(&self, rt: &R, departed: Departed) {
        self.streams.lock(rt).depart(departed);
    }

    /// Returns a viewer that has left since, the earliest first, each once.
    pub fn take_departed<R: Wait>(&self, rt: &R) -> Option<Departed> {
        self.streams.lock(rt).take_departed()
    }

    /// Returns whether no connection is served, or all were shut.
    pub fn are_over<R: Wait>(&self, rt: &R) -> bool {
        let streams = self.streams.lock(rt);
        streams.are_shut || streams.streams.is_empty()
    }

    /// Returns whether all were shut.
    pub fn are_shut<R: Wait>(&self, rt: &R) -> bool {
        self.streams.lock(rt).are_shut
    }

    /// Shuts one connection.
    pub fn shut_one<R: Wait>(&self, rt: &R, slot: Slot) {
        self.streams.lock(rt).shut_one(slot);
    }

    /// Shuts all connections, and each that is let in later.
    pub fn shut_all<R: Wait>(&self, rt: &R) {
        self.streams.lock(rt).shut_all();
        self.bell.ring();
    }
}
