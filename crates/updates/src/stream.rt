//! An update that is written in pieces.

ghost use Rattle.std.specs.Prelude.{◌≡◌, ◌≢◌, ◌+◌, ◌≤◌, ◌<◌, ◌++◌, ◌↔◌, [], IsTrue, OnOk, OnErr, length};

use crate::remaining::RemainingUpdate;
use std::alloc::{AllocError, Global};
use std::marker::Model;

/// How many bytes `Stream::fill` puts in a buffer at most: 64 KB.
pub const STREAM_BUFFER: usize = 65_536;

/// How many bytes `Stream::put` appends at most: 8 KB.
pub const STREAM_PIECE: usize = 8192;

/// An update on its way to a viewer, piece by piece. Contracts see it as the bytes that are still to come.
///
/// Pixels in Raw are appended as they are made, and short heads. Of other parts no more is made at once, in a vector that the stream
/// keeps, than a row of tiles in Hextile, a rectangle in RRE, the copies, the colour map, or a notice.
pub struct Stream {
    remaining: RemainingUpdate,
    made: Vec<u8>,
    given: usize,
}

// Written out, so that who holds one proves one call here, and not the drop of each field.
impl Drop for Stream {
    fn drop(self) {
        let Stream {
            remaining: _remaining,
            made: _made,
            given: _given,
        } = self;
    }
}

impl Model for Stream {
    ghost use Rattle.std.specs.Prelude.{ℕ, ◌≤◌, ◌++◌, List, length, drop};

    ghost Value = { List ℕ };

    ghost view = { λ a. drop a.given a.made.items ++ a.remaining };

    ghost invariant = { λ a. a.given ≤ length a.made.items };
}

/// Makes the next part of what is left. Where memory is refused, nothing is made and all of it is left.
fn make_part(made: &mut Vec<u8>, remaining: &mut RemainingUpdate) -> Result<(), AllocError>
    ensures bytes { OnOk result (made.new.items ++ remaining.new ≡ remaining.old) }
    ensures more { OnOk result (remaining.old ≢ [] → 0 < length made.new.items) }
    ensures none { OnErr result (made.new.items ≡ []) }
    ensures same { OnErr result (remaining.new ≡ remaining.old) }
{
    made.clear();
    let done = remaining.put_part(made);
    if done.is_err() {
        made.clear();
    }
    done
}

impl Stream {
    /// Returns all of an update.
    pub fn new(alloc: Global, remaining: RemainingUpdate) -> Stream
        ensures { result ≡ remaining }
    {
        Stream {
            remaining,
            made: Vec::new(alloc),
            given: 0,
        }
    }

    /// Tells whether all of the update was given.
    pub fn is_ended(&self) -> bool
        ensures { IsTrue result ↔ (self.now ≡ []) }
    {
        self.given == self.made.len() && self.remaining.is_ended()
    }

    /// Appends the next piece of the update, of at most 8,192 bytes; nothing where all of it was given. The pieces one after
    /// the other are the update's bytes. Where memory is refused, nothing is appended, and the same call may be made again.
    pub fn put(&mut self, out: &mut Vec<u8>) -> Result<(), AllocError>
        ensures ok { OnOk result (out.new.items ++ self.new ≡ out.old.items ++ self.old) }
        ensures more { OnOk result (self.old ≢ [] → length out.old.items < length out.new.items) }
        ensures bound { length out.new.items ≤ length out.old.items + 8192 }
        ensures err { OnErr result (out.new.items ≡ out.old.items) }
        ensures kept { OnErr result (self.new ≡ self.old) }
    {
        if self.given >= self.made.len() {
            if self.remaining.put_short(out)? {
                return Ok(());
            }
            self.given = 0;
            make_part(&mut self.made, &mut self.remaining)?;
        }
        let end = self.made.len().min(self.given.saturating_add(STREAM_PIECE));
        out.extend_from_slice(&self.made[self.given..end])?;
        self.given = end;
        Ok(())
    }

    /// Replaces what `buffer` has by the next bytes of the update: all that are to come, or as many as leave no capacity for a further
    /// piece in 64 KB. Where memory is refused, those in `buffer` and those still to come are what was to come.
    pub fn fill(&mut self, buffer: &mut Vec<u8>) -> Result<(), AllocError>
        ensures bytes { buffer.new.items ++ self.new ≡ self.old }
        ensures more { OnOk result (self.old ≢ [] → 0 < length buffer.new.items) }
        ensures full { OnOk result (self.new ≢ [] → 57344 < length buffer.new.items) }
        ensures bound { length buffer.new.items ≤ 65536 }
    {
        buffer.clear();
        while buffer.len() <= STREAM_BUFFER - STREAM_PIECE && !self.is_ended() {
            self.put(buffer)?;
        }
        Ok(())
    }
}
