//! What waits to be written to a source.

ghost use Rattle.std.specs.Prelude.{◌≡◌, ◌+◌, ◌-◌, ◌≤◌, ◌++◌, ◌==◌, [], length, take, drop, nat_lt, true, false, IfOk, OnOk, OnErr, vec_len, vec_capacity};
ghost use Rattle.std.specs.Io.{WritesAtMost};
ghost use Rattle.std.specs.Io.KnownBytes.{WriteAppends};
ghost use Rattle.source_talk.specs.Requests.{format_message, encodings_message, listed_by, request_message, pointer_message};
ghost use Rattle.source_talk.specs.Outbox.{nothing_waits, has_room, without, put, room_of, with_key, is_move, with_pointer, with_text, with_input, written, most_waiting, most_pressing};

use crate::requests::{
    encodings_bytes, format_bytes, key_bytes, pointer_bytes, request_bytes, text_head,
};
use messages::Input;
use std::alloc::{AllocError, Global};
use std::io;
use std::io::Write;
use std::marker::Model;

/// How many bytes may wait.
pub const MOST_WAITING: usize = 65_536;

/// How many may wait where one more key or button goes down, a text comes, or a pointer moves with a button down: what lets go has room
/// behind them.
const MOST_PRESSING: usize = 61_440;

/// How many bytes of a text are handed on.
pub const LONGEST_TEXT: usize = 32_768;

/// How many bytes a PointerEvent has.
const POINTER: usize = 6;

/// Bytes that wait to be written to a source, at most 64 KB, in whole messages but for the first, of which a part may have been written.
#[derive(Drop)]
pub struct Outbox {
    bytes: Vec<u8>,
    // the buttons of a pointer that stands whole at the end
    last_mask: Option<u8>,
    left_out: u64,
}

impl Model for Outbox {
    ghost use Rattle.source_talk.specs.Outbox.{Waiting, IsWaiting};

    ghost Value = { Waiting };

    ghost view = { λ a. record { bytes = a.bytes.items; last = a.last_mask; left_out = a.left_out } };

    ghost invariant = { λ a. IsWaiting (record { bytes = a.bytes.items; last = a.last_mask; left_out = a.left_out }) };
}

/// Appends both, or nothing if memory is refused.
fn append_both(all: &mut Vec<u8>, first: &[u8], second: &[u8]) -> Result<(), AllocError>
    requires { length all.old.items + length first.now + length second.now ≤ 65536 }
    ensures ok { OnOk result (all.new.items ≡ all.old.items ++ first.now ++ second.now) }
    ensures err { OnErr result (all.new.items ≡ all.old.items) }
{
    all.reserve(first.len() + second.len())?;
    all.extend_from_slice(first).unwrap();
    all.extend_from_slice(second).unwrap();
    Ok(())
}

/// Puts a pointer's message in the place of the last six bytes.
fn replace_last(all: &mut Vec<u8>, message: &[u8; 6])
    requires { 6 ≤ length all.old.items }
    ensures { all.new.items ≡ take (length all.old.items - 6) all.old.items ++ message.now }
{
    let at = all.len() - POINTER;
    all[at..].copy_from_slice(message);
}

/// Returns up to which length what `presses` may wait, and what lets go.
fn room_of(presses: bool) -> usize
    ensures { result ≡ room_of presses }
{
    if presses { MOST_PRESSING } else { MOST_WAITING }
}

impl Outbox {
    /// Returns an outbox in which nothing waits.
    pub fn new(alloc: Global) -> Outbox
        ensures { result ≡ nothing_waits }
    {
        Outbox {
            bytes: Vec::new(alloc),
            last_mask: None,
            left_out: 0,
        }
    }

    /// Returns whether nothing waits.
    pub fn is_empty(&self) -> bool
        ensures { result ≡ (length self.now.bytes == 0) }
    {
        self.bytes.is_empty()
    }

    /// Returns how many messages found no room, up to 2^64 - 1.
    pub fn left_out(&self) -> u64
        ensures { result ≡ self.now.left_out }
    {
        self.left_out
    }

    /// Returns whether so many bytes more may wait, where `most` may.
    fn has_room(&self, most: usize, count: usize) -> bool
        requires { most ≤ 65536 }
        ensures { result ≡ has_room most count self.now }
    {
        count <= most && self.bytes.len() <= most - count
    }

    /// Counts a message that found no room.
    fn leave_out(&mut self)
        ensures { self.new ≡ without self.old }
    {
        self.left_out = self.left_out.saturating_add(1);
    }

    /// Puts a message of two parts behind what waits, where there is room for all of it; else it is left out and counted.
    fn put_both(&mut self, most: usize, first: &[u8], second: &[u8]) -> Result<(), AllocError>
        requires { most ≤ 65536 }
        ensures ok { OnOk result (self.new ≡ put most (first.now ++ second.now) self.old) }
        ensures err { OnErr result (self.new ≡ self.old) }
    {
        if !self.has_room(most, first.len().saturating_add(second.len())) {
            self.leave_out();
            return Ok(());
        }
        append_both(&mut self.bytes, first, second)?;
        self.last_mask = None;
        Ok(())
    }

    /// Puts a message behind what waits, where it finds room; else it is left out and counted. If memory is refused nothing has changed.
    pub fn put(&mut self, message: &[u8]) -> Result<(), AllocError>
        ensures ok { OnOk result (self.new ≡ put most_waiting message.now self.old) }
        ensures err { OnErr result (self.new ≡ self.old) }
    {
        self.put_both(MOST_WAITING, message, &[])
    }

    /// Returns whether a request finds room.
    pub fn has_room_for_request(&self) -> bool
        ensures { result ≡ has_room most_waiting 10 self.now }
    {
        self.has_room(MOST_WAITING, 10)
    }

    /// Puts what is said first: SetPixelFormat to the server's own format, and SetEncodings, CopyRect, Hextile, RRE, Raw and DesktopSize, or with
    /// `raw` Raw, CopyRect and DesktopSize (RFC 6143, 7.5.1 and 7.5.2). If memory is refused, the first may stand there.
    pub fn put_first(&mut self, raw: bool) -> Result<(), AllocError>
        ensures ok { OnOk result (self.new ≡ put most_waiting (encodings_message (listed_by raw)) (put most_waiting format_message self.old)) }
    {
        self.put(&format_bytes())?;
        self.put(&encodings_bytes(raw))
    }

    /// Puts a request for all of a picture (RFC 6143, 7.5.3).
    pub fn put_request(
        &mut self,
        incremental: bool,
        width: u16,
        height: u16,
    ) -> Result<(), AllocError>
        ensures ok { OnOk result (self.new ≡ put most_waiting (request_message incremental width height) self.old) }
        ensures err { OnErr result (self.new ≡ self.old) }
    {
        self.put(&request_bytes(incremental, width, height))
    }

    /// Puts a key (RFC 6143, 7.5.4).
    fn put_key(&mut self, down: bool, key: u32) -> Result<(), AllocError>
        ensures ok { OnOk result (self.new ≡ with_key down key self.old) }
        ensures err { OnErr result (self.new ≡ self.old) }
    {
        self.put_both(room_of(down), &key_bytes(down, key), &[])
    }

    /// Puts a pointer (RFC 6143, 7.5.5). It takes the place of one that waits last, of which nothing was written, and that has the same buttons.
    fn put_pointer(&mut self, mask: u8, x: u16, y: u16) -> Result<(), AllocError>
        ensures ok { OnOk result (self.new ≡ with_pointer mask x y self.old) }
        ensures err { OnErr result (self.new ≡ self.old) }
    {
        let message = pointer_bytes(mask, x, y);
        if self.last_mask == Some(mask) {
            replace_last(&mut self.bytes, &message);
            return Ok(());
        }
        if !self.has_room(room_of(mask > 0), POINTER) {
            self.leave_out();
            return Ok(());
        }
        self.bytes.extend_from_slice(&message)?;
        self.last_mask = Some(mask);
        Ok(())
    }

    /// Puts a text, its first 32,768 bytes (RFC 6143, 7.5.6).
    fn put_text(&mut self, text: &[u8]) -> Result<(), AllocError>
        ensures ok { OnOk result (self.new ≡ with_text text.now self.old) }
        ensures err { OnErr result (self.new ≡ self.old) }
    {
        let kept = &text[..text.len().min(LONGEST_TEXT)];
        self.put_both(MOST_PRESSING, &text_head(kept.len() as u32), kept)
    }

    /// Puts what a viewer did (RFC 6143, 7.5.4 to 7.5.6). What finds no room is left out and counted, never a part of a message; what lets go
    /// finds room longer than what presses. A pointer takes the place of one that waits last and has the same buttons. Of a text the first
    /// 32,768 bytes are handed on. If memory is refused nothing has changed.
    pub fn put_input(&mut self, input: &Input) -> Result<(), AllocError>
        ensures ok { OnOk result (self.new ≡ with_input input.now self.old) }
        ensures err { OnErr result (self.new ≡ self.old) }
    {
        match input {
            Input::Key { down, key } => self.put_key(*down, *key),
            Input::Pointer { mask, x, y } => self.put_pointer(*mask, *x, *y),
            Input::Text { text, .. } => self.put_text(text.as_slice()),
        }
    }

    /// Forgets bytes that were written.
    fn forget(&mut self, count: usize)
        requires { count ≤ length self.old.bytes }
        ensures { self.new ≡ written count self.old }
    {
        let left = self.bytes.len() - count;
        self.bytes.copy_within(count.., 0);
        self.bytes.truncate(left);
        if left < POINTER {
            self.last_mask = None;
        }
    }

    /// Writes what waits once, as far as the writer takes it. Returns how many bytes it took. Where the writer fails, all waits on.
    pub fn write<W: Write>(&mut self, writer: &mut W) -> io::Result<usize>
        ensures bound { WritesAtMost result self.old.bytes }
        ensures bytes { WriteAppends (W.contents writer.old) (W.contents writer.new) result self.old.bytes }
        ensures written { IfOk result (λ n. self.new ≡ written n self.old) }
        ensures err { OnErr result (self.new ≡ self.old) }
    {
        let count = writer.write(&self.bytes)?;
        self.forget(count);
        Ok(count)
    }
}
