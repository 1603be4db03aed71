//! What a viewer was given, and what of it is not written yet.

ghost use Rattle.std.specs.Prelude.{◌≡◌, ◌≢◌, ◌≤◌, ◌++◌, [], List, ℕ, not, OnOk, OnErr, length, take};
ghost use Rattle.screen.specs.Alone.{some_bytes};
ghost use Rattle.connection.specs.Waiting.{waiting_bytes, IsFew};
ghost use Rattle.connection.specs.Connection.{Moves};
ghost use Rattle.connection.specs.Bounds.{AreWrittenAtMost};
ghost use Rattle.connection.specs.Carrying.{carried_by};
ghost use Rattle.connection.specs.Reasons.{flushed_by, taken_by, written_by, written_error};
ghost use Rattle.connection.specs.declared.backlog.Written.TheVariants as outcome;

use crate::recording::Recording;
use crate::transport::Transport;
use screen::Update;
use std::alloc::{AllocError, Global};
use std::io::ErrorKind;
use std::marker::Model;
use std::{io, mem};
use viewer::{STREAM_BUFFER, Stream};

/// Bytes on their way to a viewer: those that are made, from `done` on, then those that an update is still to give, and then those
/// that came behind it. Only an opening is answered, before any update, so nothing ever comes behind one. With nothing on its way
/// it holds no memory.
#[derive(Drop)]
pub(crate) struct Backlog {
    alloc: Global,
    made: Vec<u8>,
    done: usize,
    update: Option<Stream>,
    behind: Vec<u8>,
}

impl Model for Backlog {
    ghost use Rattle.std.specs.Prelude.{length, drop};
    ghost use Rattle.connection.specs.Waiting.{Waiting, IsWithin};

    ghost Value = { Waiting };

    ghost view = { λ a. record { made = drop a.done a.made.items; update = a.update; behind = a.behind.items } };

    ghost invariant = { λ a. IsWithin a.done (length a.made.items) (length a.behind.items) a.update };
}

/// Appends bytes. Refuses more than 64 KB in all as out of memory; the answers of an opening take less than 1 KB.
fn append(all: &mut Vec<u8>, bytes: &[u8]) -> Result<(), AllocError>
    requires { length all.old.items ≤ 65536 }
    ensures ok { OnOk result (all.new.items ≡ all.old.items ++ bytes.now) }
    ensures few { length all.new.items ≤ 65536 }
    ensures err { OnErr result (all.new.items ≡ all.old.items) }
{
    if bytes.len() > STREAM_BUFFER - all.len() {
        return Err(AllocError);
    }
    all.extend_from_slice(bytes)
}

/// What came of a write.
#[derive(Clone, Copy)]
pub enum Written {
    /// Bytes were taken.
    Some,
    /// The transport takes none now, or the write was interrupted.
    Blocked,
    /// The transport failed, or takes no more.
    Failed,
    /// Memory was refused.
    Memory,
}

/// Returns what a write is that failed with this kind of error.
fn written_error(kind: ErrorKind) -> Written
    ensures { result ≡ written_error kind }
{
    match kind {
        ErrorKind::WouldBlock | ErrorKind::Interrupted => Written::Blocked,
        ErrorKind::OutOfMemory => Written::Memory,
        _ => Written::Failed,
    }
}

/// Returns how many bytes a write took, and what came of it: a transport that takes none takes no more.
fn written_of(sent: io::Result<usize>) -> (usize, Written)
    ensures count { result.0 ≡ taken_by sent }
    ensures came { result.1 ≡ written_by sent }
{
    match sent {
        Ok(0) => (0, Written::Failed),
        Ok(count) => (count, Written::Some),
        Err(error) => (0, written_error(error.kind())),
    }
}

/// Returns what came of a flush.
pub(crate) fn flushed_of(flushed: io::Result<()>) -> Written
    ensures { result ≡ flushed_by flushed }
{
    match flushed {
        Ok(()) => Written::Some,
        Err(error) => written_error(error.kind()),
    }
}

/// Writes the first 64 KB of `bytes` at most, once. Returns how many the transport took, and what came of it.
fn write_once<T: Transport>(transport: &mut Recording<T>, bytes: &[u8]) -> (usize, Written)
    ensures bound { result.0 ≤ length bytes.now }
    ensures most { result.0 ≤ 65536 }
    ensures moved { Moves (carried_by T.unread T.written transport.old) (carried_by T.unread T.written transport.new) [] (take result.0 bytes.now) }
{
    let first = &bytes[..bytes.len().min(STREAM_BUFFER)];
    written_of(transport.send(first))
}

impl Backlog {
    /// Returns a backlog of nothing, which holds no memory.
    pub fn new(alloc: Global) -> Backlog
        ensures { waiting_bytes result ≡ [] }
    {
        Backlog {
            alloc,
            made: Vec::new(alloc),
            done: 0,
            update: None,
            behind: Vec::new(alloc),
        }
    }

    /// Returns whether all that was given is written.
    #[tactic(auto, using(crate::proofs::Pieces::some_made, crate::proofs::Pieces::some_update))]
    pub fn is_empty(&self) -> bool
        ensures { result ≡ not (some_bytes (waiting_bytes self.now)) }
    {
        self.done >= self.made.len() && self.update.is_none() && self.behind.is_empty()
    }

    /// Takes bytes, to be written behind all others.
    pub fn give(&mut self, bytes: &[u8]) -> Result<(), AllocError>
        ensures ok { OnOk result (waiting_bytes self.new ≡ waiting_bytes self.old ++ bytes.now) }
        ensures err { OnErr result (self.new ≡ self.old) }
        ensures few { IsFew self.new }
    {
        if self.update.is_none() && self.behind.is_empty() {
            append(&mut self.made, bytes)
        } else {
            append(&mut self.behind, bytes)
        }
    }

    /// Takes an update of some bytes, where nothing waits.
    pub fn start(&mut self, update: Update)
        requires none { waiting_bytes self.old ≡ [] }
        requires some { update ≢ [] }
        ensures bytes { waiting_bytes self.new ≡ update }
        ensures few { IsFew self.new }
    {
        self.update = Some(update.into_stream());
    }

    /// Writes the next bytes once, 64 KB at most; `buffer` is for those that are not made yet. What was written, and then what waits, is
    /// what waited before, unless memory was refused.
    pub fn write_some<T: Transport>(
        &mut self,
        transport: &mut Recording<T>,
        buffer: &mut Vec<u8>,
    ) -> Written
        ensures sent { (written unwritten : List ℕ) ×
            Moves (carried_by T.unread T.written transport.old) (carried_by T.unread T.written transport.new) [] written ×
            (written ++ unwritten ≡ waiting_bytes self.old) × (result ≢ outcome.Memory → unwritten ≡ waiting_bytes self.new) }
        ensures bound { AreWrittenAtMost 65536 (T.written transport.old.transport) (T.written transport.new.transport) }
        ensures few { IsFew self.new }
    {
        if self.done < self.made.len() {
            self.write_made(transport)
        } else {
            self.write_update(transport, buffer)
        }
    }

    /// Writes bytes that are made, once.
    fn write_made<T: Transport>(&mut self, transport: &mut Recording<T>) -> Written
        ensures sent { (written : List ℕ) ×
            Moves (carried_by T.unread T.written transport.old) (carried_by T.unread T.written transport.new) [] written ×
            (written ++ waiting_bytes self.new ≡ waiting_bytes self.old) }
        ensures bound { AreWrittenAtMost 65536 (T.written transport.old.transport) (T.written transport.new.transport) }
        ensures few { IsFew self.new }
    {
        let (count, outcome) = write_once(transport, &self.made[self.done..]);
        self.done += count;
        if self.done >= self.made.len() {
            self.made = Vec::new(self.alloc);
            self.done = 0;
        }
        outcome
    }

    /// Makes the next bytes of the update in `buffer`, where none are made, and writes them once. Keeps what the transport doesn't take.
    fn write_update<T: Transport>(
        &mut self,
        transport: &mut Recording<T>,
        buffer: &mut Vec<u8>,
    ) -> Written
        requires { self.old.made ≡ [] }
        ensures sent { (written unwritten : List ℕ) ×
            Moves (carried_by T.unread T.written transport.old) (carried_by T.unread T.written transport.new) [] written ×
            (written ++ unwritten ≡ waiting_bytes self.old) × (result ≢ outcome.Memory → unwritten ≡ waiting_bytes self.new) }
        ensures bound { AreWrittenAtMost 65536 (T.written transport.old.transport) (T.written transport.new.transport) }
        ensures few { IsFew self.new }
    {
        if self.make(buffer).is_err() {
            return Written::Memory;
        }
        let (count, outcome) = write_once(transport, buffer);
        match self.keep(&buffer[count..]) {
            Ok(()) => outcome,
            Err(_) => Written::Memory,
        }
    }

    /// Makes the next bytes in `buffer`, where none are made.
    fn make(&mut self, buffer: &mut Vec<u8>) -> Result<(), AllocError>
        requires { self.old.made ≡ [] }
        ensures made { OnOk result (self.new.made ≡ []) }
        ensures bytes { OnOk result (buffer.new.items ++ waiting_bytes self.new ≡ waiting_bytes self.old) }
        ensures bound { OnOk result (length buffer.new.items ≤ 65536) }
        ensures few { IsFew self.new }
    {
        match self.update.take() {
            Some(mut update) => {
                update.fill(buffer)?;
                if !update.is_ended() {
                    self.update = Some(update);
                }
            }
            None => {
                mem::swap(buffer, &mut self.behind);
                self.behind = Vec::new(self.alloc);
            }
        }
        Ok(())
    }

    /// Puts bytes that the transport didn't take before all others, where none are made.
    fn keep(&mut self, bytes: &[u8]) -> Result<(), AllocError>
        requires none { self.old.made ≡ [] }
        requires few { length bytes.now ≤ 65536 }
        ensures bytes { OnOk result (waiting_bytes self.new ≡ bytes.now ++ waiting_bytes self.old) }
        ensures few { IsFew self.new }
    {
        self.made.clear();
        self.done = 0;
        self.made.extend_from_slice(bytes)
    }
}
