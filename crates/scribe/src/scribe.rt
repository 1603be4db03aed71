//! The buffer and its writer.

ghost use Rattle.std.specs.Prelude.{◌≡◌, ◌≢◌, ◌+◌, ◌≤◌, ℕ, List, [], ◌++◌, true, false, length, take, drop, vec_len, IfOk};
ghost use Rattle.std.specs.Io.KnownBytes.{Appends};
ghost use Rattle.scribe.specs.Scribing.{Puts, StaysBroken};

use std::alloc::{AllocError, Global};
use std::io::{ErrorKind, Write};
use std::marker::Model;

/// How many bytes the buffer has.
const CAPACITY: usize = 8192;

/// A writer, what waits for it, and whether something is lost.
#[derive(Drop)]
pub struct Scribe<W: Write + Drop> {
    writer: W,
    buffer: Vec<u8>,
    used: usize,
    is_broken: bool,
}

impl<W: Write + Drop> Model for Scribe<W> {
    ghost use Rattle.std.specs.Prelude.{◌≤◌, take, vec_len};
    ghost use Rattle.scribe.specs.Scribing.{Scribed};

    ghost Value = { Scribed };

    ghost view = { λ a. record { held = W.contents a.writer; waiting = take a.used a.buffer.items; broken = a.is_broken } };

    ghost invariant = { λ a. a.used ≤ vec_len a.buffer };
}

/// Makes an empty buffer.
fn zeros(alloc: Global) -> Result<Vec<u8>, AllocError> {
    vec![in alloc; 0u8; CAPACITY]
}

/// Writes bytes until all are written or a write fails, and returns how many were written. A write that was interrupted is tried again;
/// one of no bytes failed.
fn write_out<W: Write>(writer: &mut W, bytes: &[u8]) -> usize
    ensures bound { result ≤ length bytes.now }
    ensures bytes { Appends (W.contents writer.old) (W.contents writer.new) (take result bytes.now) }
{
    let mut done = 0;
    for _ in 0..u64::MAX {
        if done == bytes.len() {
            return done;
        }
        match writer.write(&bytes[done..]) {
            Ok(0) => return done,
            Ok(count) => done += count,
            Err(error) => {
                if error.kind() != ErrorKind::Interrupted {
                    return done;
                }
            }
        }
    }
    done
}

/// Puts bytes into a buffer, behind so many others.
fn copy_behind(buffer: &mut Vec<u8>, used: usize, bytes: &[u8])
    requires { used + length bytes.now ≤ vec_len buffer.old }
    ensures copied { buffer.new.items ≡ take used buffer.old.items ++ (bytes.now ++ drop (used + length bytes.now) buffer.old.items) }
    ensures same { vec_len buffer.new ≡ vec_len buffer.old }
{
    buffer[used..used + bytes.len()].copy_from_slice(bytes);
}

impl<W: Write + Drop> Scribe<W> {
    /// Makes a scribe with an empty buffer. This takes all memory that it ever takes.
    pub fn new(alloc: Global, writer: W) -> Result<Scribe<W>, AllocError>
        ensures { IfOk result (λ s. s ≡ record { held = W.contents writer; waiting = []; broken = false }) }
    {
        Ok(Scribe {
            writer,
            buffer: zeros(alloc)?,
            used: 0,
            is_broken: false,
        })
    }

    /// Puts bytes behind what was put. They wait in the buffer; where it has no room for them, what waits is written first, and they too
    /// where they are more than it takes. Where something is lost, they are too.
    ///
    /// No clause says that bytes are lost only where a write failed: the contract of `Write` doesn't tell what a writer that fails holds
    /// from one that is never asked.
    pub fn put(&mut self, bytes: &[u8])
        ensures puts { Puts bytes.now self.old self.new }
        ensures ended { StaysBroken self.old self.new }
    {
        if self.is_broken {
            return;
        }
        if bytes.len() <= self.buffer.len() - self.used {
            copy_behind(&mut self.buffer, self.used, bytes);
            self.used += bytes.len();
        } else {
            self.flush();
            self.put_first(bytes);
        }
    }

    /// Writes what waits. The writer itself isn't flushed.
    pub fn flush(&mut self)
        ensures puts { Puts [] self.old self.new }
        ensures flushed { self.new.broken ≡ false → self.new.waiting ≡ [] }
        ensures ended { StaysBroken self.old self.new }
    {
        if self.is_broken {
            return;
        }
        let count = write_out(&mut self.writer, &self.buffer[..self.used]);
        self.is_broken = count < self.used;
        self.used = 0;
    }

    /// Writes what waits, and loses what is put from here on: whatever bytes should have come next, they are lost.
    pub fn break_off(&mut self)
        ensures puts { (more : List ℕ) → more ≢ [] → Puts more self.old self.new }
        ensures broken { self.new.broken ≡ true }
        ensures ended { StaysBroken self.old self.new }
    {
        self.flush();
        self.is_broken = true;
    }

    /// Returns whether something is lost, by a write that failed or by `break_off`. Then nothing is written any more.
    pub fn is_broken(&self) -> bool
        ensures { result ≡ self.now.broken }
    {
        self.is_broken
    }

    /// Lends the writer, to be looked at.
    pub fn writer(&self) -> &W
        ensures { W.contents result.now ≡ self.now.held }
    {
        &self.writer
    }

    /// Puts bytes where nothing waits: into the buffer where they fit, and else they are written at once.
    fn put_first(&mut self, bytes: &[u8])
        requires { self.old.broken ≡ false → self.old.waiting ≡ [] }
        ensures { Puts bytes.now self.old self.new }
    {
        if self.is_broken {
            return;
        }
        if bytes.len() <= self.buffer.len() {
            copy_behind(&mut self.buffer, 0, bytes);
            self.used = bytes.len();
        } else {
            self.is_broken = write_out(&mut self.writer, bytes) < bytes.len();
        }
    }
}
