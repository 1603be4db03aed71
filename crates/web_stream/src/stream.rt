//! A WebSocket as a stream.

ghost use Rattle.std.specs.Prelude.{◌≡◌, ℕ, ◌<◌, ◌≤◌, List, [], None, Some, false, length, unwrap_or, option_map, IfOk, IfSome, OnOk};
ghost use Rattle.std.specs.Io.{ReadsAtMost, WritesAtMost};
ghost use Rattle.std.specs.Io.KnownBytes.{Appends, ReadConsumes, WriteAppends, Keeps, IsAtEnd};
ghost use Rattle.web_stream.specs.Reading.{at_start, payloads, closed};
ghost use Rattle.web_stream.specs.Stream.{remaining_in, contents_in, stream_in, reading_in, fault_in, owes_in, has_more_in};
ghost use Rattle.web_stream.specs.Stream.{TakesPiece, ReadsOn, own_bytes};
ghost use Rattle.web_stream.specs.Standing.{reading_of};

use crate::answer::data_head;
use crate::fault::WebFault;
use crate::inward::{Inward, Over};
use crate::outward::Outward;
use crate::write_both::WriteBoth;
use std::io;
use std::io::{ErrorKind, Read, Write};
use std::os::fd::{AsRawFd, RawFd};

/// How many bytes are read of the stream below at once, at most.
const READ_SIZE: usize = 256;

/// A WebSocket over a stream, at the server's side.
///
/// What is read is the payloads of the binary frames that the stream gives, one behind the other. What is written goes as the payloads of
/// binary frames. A read writes nothing: what answers a ping waits until `flush` or a write, and what answers a close or a fault until
/// `flush`. `owes` says whether one waits that can be written now.
#[derive(Drop)]
pub struct WebStream<S> {
    stream: S,
    inward: Inward,
    outward: Outward,
    begun: usize,
    was_full: bool,
}

impl<S: Read + Write> WebStream<S> {
    /// Returns a WebSocket over a stream from which its request was read, and to which `begun` bytes were written, the last of them the end
    /// of the answer to that request.
    #[tactic(auto, using(crate::proofs::WritingLemmas::nothing_yet))]
    pub fn new(stream: S, begun: usize) -> WebStream<S>
        ensures stream { stream_in result ≡ stream }
        ensures unread { remaining_in S.remaining result ≡ option_map (payloads at_start) (S.remaining stream) }
        ensures written { (bytes : List ℕ) → S.contents stream ≡ Some bytes → length bytes ≡ begun →
            contents_in S.contents result ≡ Some [] }
    {
        WebStream {
            stream,
            inward: Inward::new(),
            outward: Outward::new(),
            begun,
            was_full: false,
        }
    }
}

impl<S> WebStream<S> {
    /// Returns the stream below.
    pub fn get_ref(&self) -> &S
        ensures { result.now ≡ stream_in self.now }
    {
        &self.stream
    }

    /// Returns what the client did wrong, where that ended it: reads fail as `InvalidData` then.
    pub fn fault(&self) -> Option<WebFault>
        ensures { result ≡ fault_in self.now }
    {
        match self.inward.over() {
            Some(Over::Fault(fault)) => Some(fault),
            _ => None,
        }
    }

    /// Returns whether the close is written, or on its way: no data goes behind it (RFC 6455, section 5.5.1).
    fn has_closed(&self) -> bool {
        self.inward.over().is_some() && !self.inward.has_answer()
    }

    /// Returns whether a pong or a close waits that `flush` would write.
    pub fn owes(&self) -> bool
        ensures { result ≡ owes_in self.now }
    {
        self.outward.owed == 0 && (self.inward.has_answer() || !self.outward.own.is_empty())
    }

    /// Returns whether a read may give more at once, though the last one didn't fill its room: the last read of the stream below filled its
    /// own, or the frames are over, which the next read tells.
    pub fn has_more(&self) -> bool
        ensures { result ≡ has_more_in self.now }
    {
        self.was_full || self.inward.over().is_some()
    }

    /// Closes it with a code (RFC 6455, section 7.1.2), unless it is over. Nothing is read from it from then on. The close is written by
    /// `flush`, not within a data frame, and nothing behind it.
    pub fn close(&mut self, code: u16)
        ensures { reading_in self.new ≡ closed (reading_in self.old) code }
    {
        self.inward.close(code);
    }
}

impl<S: Read> WebStream<S> {
    /// Reads once from the stream below. Returns how many bytes of payload came, which may be none, or `None` at the stream's end.
    #[tactic(auto, using(crate::proofs::StreamLemmas::one_piece))]
    fn take_piece(&mut self, room: &mut [u8]) -> io::Result<Option<usize>>
        ensures bound { IfOk result (λ count. IfSome count (λ n. n ≤ length room.new)) }
        ensures bytes { TakesPiece (remaining_in S.remaining self.old) (remaining_in S.remaining self.new) result room.new }
        ensures reading { ReadsOn (S.remaining self.old.stream) (S.remaining self.new.stream) (reading_of self.old.inward) (reading_of self.new.inward) }
    {
        let mut all = [0u8; READ_SIZE];
        let most = room.len().min(READ_SIZE);
        let piece = &mut all[..most];
        self.was_full = false;
        let count = self.stream.read(piece)?;
        self.was_full = count == most;
        if count == 0 {
            return Ok(None);
        }
        Ok(Some(self.inward.take_all(&piece[..count], room)))
    }

    /// Returns what a read answers that has no payload to give: the end behind a close, the error behind a fault, and else that the read
    /// may be made again at once.
    #[tactic(auto, using(crate::proofs::ReadingLemmas::over_at_end))]
    fn without_payload(&self) -> io::Result<usize>
        ensures { IfOk result (λ n. (n ≡ 0) × IsAtEnd (remaining_in S.remaining self.now)) }
    {
        match self.inward.over() {
            None => Err(io::Error::from(ErrorKind::Interrupted)),
            Some(Over::Closed) => Ok(0),
            Some(Over::Fault(_)) => Err(io::Error::from(ErrorKind::InvalidData)),
        }
    }
}

impl<S: Read> Read for WebStream<S> {
    ghost remaining = { remaining_in S.remaining };

    /// Reads payload, by one read of the stream below at most. Fails as `Interrupted` where that gave none and more may come, and as
    /// `InvalidData` where the client did wrong. At a close it is at its end.
    #[tactic(auto, using(crate::proofs::StreamLemmas::nothing))]
    fn read(&mut self, room: &mut [u8]) -> io::Result<usize>
        ensures bound { ReadsAtMost result room.new }
        ensures bytes { ReadConsumes (remaining_in S.remaining self.old) (remaining_in S.remaining self.new) result room.new }
        ensures reading { ReadsOn (S.remaining self.old.stream) (S.remaining self.new.stream) (reading_of self.old.inward) (reading_of self.new.inward) }
    {
        if self.inward.over().is_some() {
            return self.without_payload();
        }
        match self.take_piece(room)? {
            None => Ok(0),
            Some(0) => self.without_payload(),
            Some(count) => Ok(count),
        }
    }
}

impl<S: WriteBoth> WebStream<S> {
    /// Begins a binary frame of `size` bytes, unless one is on its way.
    #[tactic(auto, using(crate::proofs::WritingLemmas::frame_begins))]
    fn begin(&mut self, size: usize)
        requires some { 0 < size }
        requires whole { self.old.outward.owed ≡ 0 → self.old.outward.own.items ≡ [] }
        ensures kept { Keeps (contents_in S.contents self.old) (contents_in S.contents self.new) }
    {
        if self.outward.owed == 0 {
            self.outward.own = data_head(size);
            self.outward.owed = size;
        }
    }

    /// Begins the frame of an answer that waits, which doesn't wait any more then. None is on its way.
    #[tactic(auto, using(crate::proofs::WritingLemmas::frame_begins))]
    fn begin_answer(&mut self)
        requires none { self.old.outward.own.items ≡ [] }
        requires whole { self.old.outward.owed ≡ 0 }
        ensures kept { Keeps (contents_in S.contents self.old) (contents_in S.contents self.new) }
        ensures owed { self.new.outward.owed ≡ 0 }
        ensures taken { self.new.inward.answer ≡ None }
        ensures stream { self.new.stream ≡ self.old.stream }
        ensures own { self.new.outward.own.items ≡ unwrap_or (reading_of self.old.inward).answer [] }
    {
        if let Some(answer) = self.inward.take_answer() {
            self.outward.own = answer.frame();
        }
    }

    /// Writes once what is left of a head or a control frame. Fails as `Interrupted` where the stream below takes a part, and as
    /// `WriteZero` where it takes none.
    #[tactic(auto, using(crate::proofs::WritingLemmas::one_write))]
    fn write_own(&mut self) -> io::Result<()>
        ensures kept { Keeps (contents_in S.contents self.old) (contents_in S.contents self.new) }
        ensures owed { self.new.outward.owed ≡ self.old.outward.owed }
        ensures whole { OnOk result (self.new.outward.own.items ≡ []) }
        ensures own { OnOk result (Appends (S.contents self.old.stream) (S.contents self.new.stream) self.old.outward.own.items) }
        ensures inward { self.new.inward ≡ self.old.inward }
    {
        if self.outward.own.is_empty() {
            return Ok(());
        }
        let written = self.stream.write(&self.outward.own)?;
        let _payload = self.outward.count(written);
        if written == 0 {
            return Err(io::Error::from(ErrorKind::WriteZero));
        }
        if !self.outward.own.is_empty() {
            return Err(io::Error::from(ErrorKind::Interrupted));
        }
        Ok(())
    }

    /// Writes a control frame that is on its way, and then the answer that waits, unless a data frame is on its way.
    #[tactic(auto, using(crate::proofs::WritingLemmas::behind_answers))]
    fn write_answer(&mut self) -> io::Result<()>
        ensures kept { Keeps (contents_in S.contents self.old) (contents_in S.contents self.new) }
        ensures whole { OnOk result (self.new.outward.owed ≡ 0 → self.new.outward.own.items ≡ []) }
        ensures written { OnOk result (owes_in self.new ≡ false) }
        ensures own { OnOk result (Appends (S.contents self.old.stream) (S.contents self.new.stream) (own_bytes self.old)) }
    {
        if self.outward.owed > 0 {
            return Ok(());
        }
        self.write_own()?;
        self.begin_answer();
        self.write_own()
    }

    /// Writes what goes before a data frame begins, unless one is on its way: what is left of a control frame, and the answer that waits. A
    /// close waits for `flush`, since no data goes behind it.
    fn write_before(&mut self) -> io::Result<()>
        ensures kept { Keeps (contents_in S.contents self.old) (contents_in S.contents self.new) }
        ensures whole { OnOk result (self.new.outward.owed ≡ 0 → self.new.outward.own.items ≡ []) }
    {
        if self.inward.over().is_none() {
            return self.write_answer();
        }
        match self.outward.owed {
            0 => self.write_own(),
            _ => Ok(()),
        }
    }

    /// Writes once what is left of a head, and the payload of its frame behind it. Returns how many bytes of payload were taken, which may be
    /// none.
    fn write_joined(&mut self, bytes: &[u8]) -> io::Result<usize>
        ensures bound { WritesAtMost result bytes.now }
        ensures bytes { WriteAppends (contents_in S.contents self.old) (contents_in S.contents self.new) result bytes.now }
    {
        let most = bytes.len().min(self.outward.owed);
        let written = self.stream.write_both(&self.outward.own, &bytes[..most])?;
        Ok(self.outward.count(written))
    }

    /// Writes bytes as payload of the frame that is on its way, in one write. Fails as `Interrupted` where bytes of the head were left and
    /// the stream below took no payload.
    #[tactic(auto, using(crate::proofs::WritingLemmas::head_alone))]
    fn write_frame(&mut self, bytes: &[u8]) -> io::Result<usize>
        ensures bound { WritesAtMost result bytes.now }
        ensures bytes { WriteAppends (contents_in S.contents self.old) (contents_in S.contents self.new) result bytes.now }
    {
        let has_head = !self.outward.own.is_empty();
        let count = self.write_joined(bytes)?;
        if count == 0 && has_head {
            return Err(io::Error::from(ErrorKind::Interrupted));
        }
        Ok(count)
    }
}

impl<S: WriteBoth> Write for WebStream<S> {
    ghost contents = { contents_in S.contents };

    /// Writes bytes as the payload of a binary frame of their length, after a pong that waits and before a close that does. Where the stream
    /// below takes fewer, the bytes of the next write go on with that frame.
    ///
    /// Fails as `BrokenPipe` once the close is written or on its way; as `Interrupted` where the stream below took no payload while bytes
    /// that are none were to go before it; and as `WriteZero` where it took no byte of a control frame.
    #[tactic(auto, using(crate::proofs::WritingLemmas::behind_answers))]
    fn write(&mut self, bytes: &[u8]) -> io::Result<usize> {
        if self.has_closed() {
            return Err(io::Error::from(ErrorKind::BrokenPipe));
        }
        if bytes.is_empty() {
            return Ok(0);
        }
        self.write_before()?;
        self.begin(bytes.len());
        self.write_frame(bytes)
    }

    /// Writes the pong or the close that waits, and nothing else, unless a data frame is on its way, and flushes the stream below. Where that
    /// goes well none waits any more that could be written. Fails as `Interrupted` where the stream below takes a part of it, and as
    /// `WriteZero` where it takes none.
    fn flush(&mut self) -> io::Result<()>
        ensures kept { Keeps (contents_in S.contents self.old) (contents_in S.contents self.new) }
        ensures written { OnOk result (owes_in self.new ≡ false) }
        ensures own { OnOk result (Appends (S.contents self.old.stream) (S.contents self.new.stream) (own_bytes self.old)) }
    {
        self.write_answer()?;
        self.stream.flush()
    }
}

impl<S: AsRawFd> AsRawFd for WebStream<S> {
    fn as_raw_fd(&self) -> RawFd {
        self.stream.as_raw_fd()
    }
}
