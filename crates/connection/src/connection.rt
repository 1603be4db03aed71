//! One viewer's connection: its transport, what is known of that one's readiness, and what is on its way to the viewer.

ghost use Rattle.std.specs.Prelude.{◌≡◌, ◌≢◌, ◌≤◌, ◌++◌, ◌+◌, ◌*◌, ◌-◌, ◌^◌, min, [], List, ℕ, None, Some, true, false, not, ◌&&◌, ◌||◌, ◌⊎◌, nat_le, OnOk, length, unwrap_or};
ghost use Rattle.receipts.specs.Checking.{may_break_off};
ghost use Rattle.receipts.specs.declared.Ended.TheVariants as ended;
ghost use Rattle.connection.specs.Waiting.{waiting_bytes, IsFew};
ghost use Rattle.connection.specs.Bounds.{AreWrittenAtMost, AreReadAtMost};
ghost use Rattle.connection.specs.Known.{noted, floods, says_much};
ghost use Rattle.connection.specs.Counting.{no_counts, with_piece, with_cut, HasCounts};
ghost use Rattle.connection.specs.declared.backlog.Written.TheVariants as outcome;
ghost use Rattle.connection.specs.Reasons.{got_error, got_of, ended_by_read, known_by_read, ended_by_write, may_write_by, ended_by_fault};
ghost use Rattle.connection.specs.Connection.{Carried, ViewerConnection, Moves, CanKeep, breaks_off, ended_by, may_read, may_write, has_waiting, over, can_send, has_work};
ghost use Rattle.connection.specs.Recording.{none_yet};
ghost use Rattle.connection.specs.Holding.{held_behind};
ghost use Rattle.connection.specs.Reasons.{IsWithin, got_bytes};
ghost use Rattle.held_inputs.specs.Held.{after, nothing, room_release, roomy};

use crate::backlog::{Backlog, Written, flushed_of};
use crate::recording::{Recording, no_bytes};
use crate::transport::{Readiness, Transport};
use held_inputs::{Change, HeldInputs};
use kept_list::KeptList;
use receipts::{Ended, Receipt};
use screen::{Fault, Input, Update};
use std::alloc::{AllocError, Global};
use std::io;
use std::io::ErrorKind;
use std::marker::Model;

/// A viewer that sent more bytes than this lately counts as a flood. A pasted text may be this long.
const LONG: u64 = 65_536;

/// How many bytes of this count leak in each millisecond (a leaky bucket).
const FORGOTTEN: u64 = 64;

/// How many updates of a viewer don't wait for what is encoded for several, once what it waited for was lost.
const HURRIED: u32 = 64;

/// How much a viewer said of late, as a leaky bucket.
#[derive(Clone, Copy)]
struct Flow {
    // how many bytes were left
    level: u64,
    // at this time, in milliseconds
    since: u64,
}

impl Flow {
    /// Returns the level at a time that is no earlier: 64 bytes less for each millisecond.
    fn level_at(self, now: u64) -> u64
        ensures { result ≡ self.level - (now - self.since) * 64 }
    {
        let gone = now.saturating_sub(self.since).saturating_mul(FORGOTTEN);
        self.level.saturating_sub(gone)
    }

    /// Adds `count` bytes, said at the time `now`.
    fn add(&mut self, count: usize, now: u64)
        ensures level { self.new.level ≡ min (self.old.level - (now - self.old.since) * 64 + count) (2 ^ 64 - 1) }
        ensures since { self.new.since ≡ now }
    {
        self.level = self.level_at(now).saturating_add(count as u64);
        self.since = now;
    }
}

/// What is left of a viewer that ended.
#[derive(Drop)]
pub struct Departed<T> {
    /// Its transport.
    pub transport: T,
    /// The keys and buttons that it held down.
    pub held: HeldInputs,
    /// What was heard of it and sent to it, and why it ended.
    pub receipt: Receipt,
}

/// A viewer's connection. It is heard until it ends, and what waits for it then is written still, unless it ended by a failure.
#[derive(Drop)]
pub struct Connection<T: Transport> {
    transport: Recording<T>,
    number: u64,
    backlog: Backlog,
    ended: Option<Ended>,
    // how many pieces were heard, what they were, where that is kept, and how many updates were cut
    pieces: u64,
    heard: KeptList<u8>,
    cuts: u64,
    readiness: Readiness,
    // its last read filled the buffer, or its transport had more at once
    was_full: bool,
    flow: Flow,
    // an update may be ready: since none was found it was heard, or looked at after drawing, or an update was cut that left a request open
    may_cut: bool,
    // it was heard since an update was cut for it, or has a request that none answered
    may_ask: bool,
    // how often what is encoded for several viewers had been lost when its next update began to wait for it
    waits_for: Option<u64>,
    // how many further updates don't wait for it
    hurried: u32,
    // the keys and buttons that its viewer holds down: 2 KB, behind all else
    held: HeldInputs,
}

impl<T: Transport> Model for Connection<T> {
    ghost use Rattle.connection.specs.Connection.{ViewerConnection};
    ghost use Rattle.connection.specs.Carrying.{carried_by};

    ghost Value = { ViewerConnection };

    ghost view = { λ a. record {
      number = a.number;
      carried = carried_by T.unread T.written a.transport;
      waiting = a.backlog;
      held = a.held;
      ended = a.ended;
      known = record { may_read = a.readiness.may_read; may_write = a.readiness.may_write; may_cut = a.may_cut; may_ask = a.may_ask; hung_up = a.readiness.is_hung_up; was_full = a.was_full; level = a.flow.level; since = a.flow.since };
      counts = record { pieces = a.pieces; cuts = a.cuts; heard = a.heard.items };
      room = a.heard.room;
    } };
}

/// What came of a read.
#[derive(Clone, Copy)]
pub enum Got {
    /// So many bytes, at least one.
    Piece(usize),
    /// Nothing now: the read would wait.
    Nothing,
    /// Nothing: the read was interrupted, and can be made again at once.
    Again,
    /// The end.
    End,
    /// The transport failed.
    Failed,
    /// The peer did what its transport doesn't allow, and is answered by a close with this code (RFC 6455, section 7.4.1).
    Wrong(u16),
}

/// Returns what a read is that failed with this kind of error, where a peer that does wrong is answered by `close_code`.
fn got_error(kind: ErrorKind, close_code: u16) -> Got
    ensures { result ≡ got_error close_code kind }
{
    match kind {
        ErrorKind::WouldBlock => Got::Nothing,
        ErrorKind::Interrupted => Got::Again,
        ErrorKind::InvalidData => Got::Wrong(close_code),
        _ => Got::Failed,
    }
}

/// Returns what a read comes to, where a peer that does wrong is answered by `close_code`.
fn got_of(read: io::Result<usize>, close_code: u16) -> Got
    ensures { result ≡ got_of close_code read }
{
    match read {
        Ok(0) => Got::End,
        Ok(count) => Got::Piece(count),
        Err(error) => got_error(error.kind(), close_code),
    }
}

impl<T: Transport> Connection<T> {
    /// Returns a connection that came at the time `now`, in milliseconds, whose transport may give bytes and may take some, and whose viewer
    /// may ask. Keeps what moves where `is_kept`.
    pub fn new(alloc: Global, transport: T, number: u64, is_kept: bool, now: u64) -> Connection<T>
        ensures number { result.number ≡ number }
        ensures carried { result.carried ≡ record { unread = T.unread transport; written = T.written transport; sent = none_yet is_kept } }
        ensures waiting { waiting_bytes result.waiting ≡ [] }
        ensures held { result.held ≡ nothing }
        ensures ended { result.ended ≡ None }
        ensures known { result.known ≡ record { may_read = true; may_write = true; may_cut = true; may_ask = true; hung_up = false; was_full = false; level = 0; since = now } }
        ensures counts { result.counts ≡ no_counts (none_yet is_kept) }
    {
        Connection {
            transport: Recording::new(alloc, transport, is_kept),
            number,
            backlog: Backlog::new(alloc),
            ended: None,
            pieces: 0,
            heard: no_bytes(alloc, is_kept),
            cuts: 0,
            readiness: Readiness {
                may_read: true,
                may_write: true,
                is_hung_up: false,
            },
            was_full: false,
            flow: Flow {
                level: 0,
                since: now,
            },
            may_cut: true,
            may_ask: true,
            waits_for: None,
            hurried: 0,
            held: HeldInputs::new(),
        }
    }

    /// Returns the viewer's number.
    pub fn number(&self) -> u64
        ensures { result ≡ self.now.number }
    {
        self.number
    }

    /// Returns its transport.
    pub fn transport(&self) -> &T
        ensures unread { T.unread result.now ≡ self.now.carried.unread }
        ensures written { T.written result.now ≡ self.now.carried.written }
    {
        &self.transport.transport
    }

    /// Returns how many updates were cut for its viewer.
    pub fn cuts(&self) -> u64
        ensures { result ≡ self.now.counts.cuts }
    {
        self.cuts
    }

    /// Returns when its last bytes came, or, before any came, it, in milliseconds.
    pub fn heard_at(&self) -> u64
        ensures { result ≡ self.now.known.since }
    {
        self.flow.since
    }

    /// Returns why it ended, if it did.
    pub fn ended(&self) -> Option<Ended>
        ensures { result ≡ self.now.ended }
    {
        self.ended
    }

    /// Notes what its transport was found ready for, besides what was known before.
    pub fn note(&mut self, found: Readiness)
        ensures { self.new ≡ record self.old { known = noted found self.old.known } }
    {
        self.readiness.may_read = self.readiness.may_read || found.may_read;
        self.readiness.may_write = self.readiness.may_write || found.may_write;
        self.readiness.is_hung_up = self.readiness.is_hung_up || found.is_hung_up;
    }

    /// Returns whether a request may be open: it was heard since its last update was cut, or that one left a request open.
    pub fn may_ask(&self) -> bool
        ensures { result ≡ self.now.known.may_ask }
    {
        self.may_ask
    }

    /// Returns whether an update may be ready.
    pub fn may_cut(&self) -> bool
        ensures { result ≡ self.now.known.may_cut }
    {
        self.may_cut
    }

    /// Sets whether an update may be ready.
    pub fn look(&mut self, may_cut: bool)
        ensures { self.new ≡ record self.old { known = record self.old.known { may_cut = may_cut } } }
    {
        self.may_cut = may_cut;
    }

    /// Returns whether its next update waits for what is encoded for several viewers, which was lost `losses` times before. Where it was
    /// lost since the wait began, the update doesn't wait, nor do the next 63.
    pub fn waits(&mut self, losses: u64) -> bool
        ensures { self.new ≡ self.old }
    {
        if self.waits_for.is_some_and(|before| before != losses) {
            self.hurried = HURRIED;
        }
        self.waits_for = Some(losses);
        self.hurried == 0
    }

    /// Returns whether a read may give something.
    pub fn may_read(&self) -> bool
        ensures { result ≡ may_read self.now }
    {
        self.ended.is_none() && self.readiness.may_read
    }

    /// Returns whether its last read filled the buffer or left more to be read at once, or it said more than 64 KB of late.
    pub fn is_flooding(&self) -> bool
        ensures { result ≡ floods self.now.known }
    {
        self.was_full || self.says_much()
    }

    /// Returns whether it said more than 64 KB of late.
    pub fn says_much(&self) -> bool
        ensures { result ≡ says_much self.now.known }
    {
        self.flow.level > LONG
    }

    /// Returns whether a write may take something.
    pub fn may_write(&self) -> bool
        ensures { result ≡ may_write self.now }
    {
        !self.has_broken_off() && self.readiness.may_write
    }

    /// Returns whether all that it was given is written.
    pub fn is_idle(&self) -> bool
        ensures { result ≡ not (has_waiting self.now) }
    {
        self.backlog.is_empty()
    }

    /// Returns whether it ended by a failure.
    fn has_broken_off(&self) -> bool
        ensures { result ≡ breaks_off self.now.ended }
    {
        match self.ended {
            Some(ended) => ended.may_break_off(),
            None => false,
        }
    }

    /// Returns why it ended, where nothing is left to be done for it.
    pub fn over(&self) -> Option<Ended>
        ensures { result ≡ over self.now }
    {
        if self.has_broken_off() || self.is_idle() {
            self.ended
        } else {
            None
        }
    }

    /// Returns whether bytes can be written to it at once.
    fn can_send(&self) -> bool
        ensures { result ≡ can_send self.now }
    {
        self.may_write() && (self.may_cut || !self.is_idle())
    }

    /// Returns whether something can be done for it at once.
    pub fn has_work(&self) -> bool
        ensures { result ≡ has_work self.now }
    {
        self.may_read() || self.can_send() || self.over().is_some()
    }

    /// Ends it for this reason, in place of an earlier one.
    pub fn end(&mut self, ended: Ended)
        ensures { self.new ≡ record self.old { ended = Some ended } }
    {
        self.ended = Some(ended);
    }

    /// Ends it for this reason, unless it ended before.
    pub fn close(&mut self, reason: Ended)
        ensures ended { self.new ≡ ended_by reason self.old }
        ensures either { (self.new ≡ self.old) ⊎ ((self.old.ended ≡ None) × (self.new ≡ record self.old { ended = Some reason })) }
    {
        if self.ended.is_none() {
            self.ended = Some(reason);
        }
    }

    /// Takes in what a read came to at the time `now`: that more may be read, how much was said of late, and that it ended. A piece that
    /// isn't full was all that there was, unless the peer hung up: then its bytes are read to their end.
    fn take_in(&mut self, got: Got, is_full: bool, now: u64)
        ensures { self.new ≡ record self.old { ended = ended_by_read got self.old.ended; known = known_by_read got is_full now self.old.known } }
    {
        match got {
            Got::Piece(count) => {
                self.flow.add(count, now);
                self.was_full = is_full;
                self.readiness.may_read = is_full | self.readiness.is_hung_up;
            }
            Got::Nothing => {
                self.was_full = false;
                self.readiness.may_read = false;
            }
            Got::Again => self.was_full = is_full,
            Got::End => self.ended = Some(Ended::EndOfInput),
            Got::Failed => self.ended = Some(Ended::ReadFailed),
            Got::Wrong(code) => self.ended = Some(Ended::Frames(code)),
        }
    }

    /// Returns whether a read of at most `size` bytes came to so many, or its transport has more at once, also behind bytes that were its own
    /// alone.
    fn is_full(&self, got: Got, size: usize) -> bool
        ensures full { (count : ℕ) → got ≡ Got.Piece count → size ≤ count → result ≡ true }
        ensures some { T.holds_back ≡ false → (count : ℕ) → got ≡ Got.Piece count → result ≡ nat_le size count }
    {
        match got {
            Got::Piece(count) => size <= count || self.transport.transport.has_more(),
            Got::Again => self.transport.transport.has_more(),
            _ => false,
        }
    }

    /// Reads once, at the time `now` in milliseconds. At its end, where the transport failed, and where the peer did what its transport
    /// doesn't allow, it has ended.
    #[tactic(auto, using(crate::proofs::Reading::full_as_known))]
    pub fn receive(&mut self, buffer: &mut [u8], now: u64) -> Got
        ensures same { self.new ≡ record self.old { carried = self.new.carried; ended = ended_by_read result self.old.ended; known = known_by_read result self.new.known.was_full now self.old.known } }
        ensures full { (count : ℕ) → result ≡ Got.Piece count → length buffer.new ≤ count → self.new.known.was_full ≡ true }
        ensures some { T.holds_back ≡ false → (count : ℕ) → result ≡ Got.Piece count →
            self.new.known.was_full ≡ nat_le (length buffer.new) count }
        ensures moved { Moves self.old.carried self.new.carried (got_bytes result buffer.new) [] }
        ensures within { IsWithin result buffer.new }
        ensures bound { AreReadAtMost (length buffer.new) self.old.carried.unread self.new.carried.unread }
    {
        let size = buffer.len();
        let read = self.transport.transport.receive(buffer);
        let got = got_of(read, self.transport.transport.close_code());
        let is_full = self.is_full(got, size);
        self.take_in(got, is_full, now);
        got
    }

    /// Takes bytes to be written, and ends it where its viewer met a fault, and where memory is refused.
    pub fn give(&mut self, bytes: &[u8], fault: Option<Fault>)
        ensures same { self.new ≡ record self.old { waiting = self.new.waiting; ended = self.new.ended } }
        ensures bytes { breaks_off self.new.ended ≡ false → waiting_bytes self.new.waiting ≡ waiting_bytes self.old.waiting ++ bytes.now }
        ensures ended { (self.new.ended ≡ ended_by_fault fault self.old.ended) ⊎ (self.new.ended ≡ Some ended.Memory) }
        ensures few { IsFew self.new.waiting }
    {
        if let Some(fault) = fault {
            self.ended = Some(Ended::Fault(fault));
        }
        if self.backlog.give(bytes).is_err() {
            self.ended = Some(Ended::Memory);
        }
    }

    /// Reserves memory to keep a piece that is to be heard, where pieces are kept.
    pub fn make_room(&mut self, piece: &[u8]) -> Result<(), AllocError>
        ensures same { self.new ≡ record self.old { room = self.new.room } }
        ensures room { OnOk result (CanKeep (length piece.now) self.new) }
    {
        self.heard.reserve(piece.len())
    }

    /// Counts a piece that was heard: an update may be ready, and a request may be open. Keeps the piece, in room that was made.
    pub fn count_piece(&mut self, piece: &[u8])
        requires { CanKeep (length piece.now) self.old }
        ensures { self.new ≡ record self.old { known = record self.old.known { may_cut = true; may_ask = true }; counts = with_piece piece.now self.old.counts; room = self.new.room } }
    {
        self.pieces = self.pieces.saturating_add(1);
        self.may_cut = true;
        self.may_ask = true;
        self.heard.append(piece);
    }

    /// Takes in what an input changes in what the viewer holds down. Before that it lets the earliest key go where no other could go down,
    /// and returns its release.
    pub fn hold(&mut self, input: &Input) -> Option<Input>
        ensures same { self.new ≡ record self.old { held = self.new.held } }
        ensures held { self.new.held ≡ after (roomy self.old.held) input.now }
        ensures release { result ≡ room_release self.old.held.keys }
    {
        let release = self.held.let_earliest_go();
        self.held.change(Change::of(input));
        release
    }

    /// Does the same with inputs in order, whose releases nobody is told.
    pub fn hold_all(&mut self, inputs: &[Input])
        ensures same { self.new ≡ record self.old { held = self.new.held } }
        ensures held { self.new.held ≡ held_behind self.old.held inputs.now }
    {
        for input in inputs {
            let _release = self.hold(input);
        }
    }

    /// Takes an update that was cut, where nothing waits. `is_asking` says whether the update left a request open; only then a further one
    /// may be ready.
    pub fn start(&mut self, update: Update, is_asking: bool)
        requires none { waiting_bytes self.old.waiting ≡ [] }
        requires some { update ≢ [] }
        ensures same { self.new ≡ record self.old { waiting = self.new.waiting; known = self.new.known; counts = with_cut self.old.counts } }
        ensures known { self.new.known ≡ record self.old.known { may_cut = is_asking; may_ask = self.old.known.may_ask && is_asking } }
        ensures bytes { waiting_bytes self.new.waiting ≡ update }
        ensures few { IsFew self.new.waiting }
    {
        self.cuts = self.cuts.saturating_add(1);
        self.waits_for = None;
        self.hurried = self.hurried.saturating_sub(1);
        self.may_cut = is_asking;
        self.may_ask = self.may_ask && is_asking;
        self.backlog.start(update);
    }

    /// Writes what waits once, 64 KB at most. A failure ends it, and so does memory that is refused. What was written, and then what waits,
    /// is what waited before, unless it has broken off then.
    pub fn write(&mut self, buffer: &mut Vec<u8>)
        ensures same { self.new ≡ record self.old { carried = self.new.carried; waiting = self.new.waiting; ended = self.new.ended; known = record self.old.known { may_write = self.new.known.may_write } } }
        ensures sent { (written unwritten : List ℕ) × Moves self.old.carried self.new.carried [] written ×
            (written ++ unwritten ≡ waiting_bytes self.old.waiting) ×
            (breaks_off self.new.ended ≡ false → unwritten ≡ waiting_bytes self.new.waiting) }
        ensures ended { self.new.ended ≢ self.old.ended → breaks_off self.new.ended ≡ true }
        ensures bound { AreWrittenAtMost 65536 self.old.carried.written self.new.carried.written }
        ensures few { IsFew self.new.waiting }
    {
        let written = self.backlog.write_some(&mut self.transport, buffer);
        self.take_note(written);
    }

    /// Has its transport write what it has to say of its own, once, and returns what that came to. A failure ends it. A transport that has
    /// nothing of its own to say ends nobody.
    #[tactic(auto, using(crate::specs::MovesLemmas::moves_kept))]
    pub fn flush(&mut self) -> Written
        ensures same { self.new ≡ record self.old { carried = self.new.carried; ended = ended_by_write result self.old.ended; known = record self.old.known { may_write = may_write_by result self.old.known.may_write } } }
        ensures silent { T.speaks ≡ false → result ≡ outcome.Some }
        ensures moved { Moves self.old.carried self.new.carried [] [] }
    {
        let flushed = flushed_of(self.transport.flush());
        self.take_note(flushed);
        flushed
    }

    /// Takes note of what a write came to: that nothing more can be written now, or that it ended.
    fn take_note(&mut self, written: Written)
        ensures { self.new ≡ record self.old { ended = ended_by_write written self.old.ended; known = record self.old.known { may_write = may_write_by written self.old.known.may_write } } }
    {
        match written {
            Written::Some => {}
            Written::Blocked => self.readiness.may_write = false,
            Written::Failed => self.ended = Some(Ended::WriteFailed),
            Written::Memory => self.ended = Some(Ended::Memory),
        }
    }

    /// Returns what is left of it where it ended so.
    pub fn into_departed(self, ended: Ended) -> Departed<T>
        ensures carried { (record { unread = T.unread result.transport; written = T.written result.transport; sent = self.carried.sent }) ≡ self.carried }
        ensures held { result.held ≡ self.held }
        ensures viewer { result.receipt.viewer ≡ self.number }
        ensures ended { result.receipt.ended ≡ ended }
        ensures sent { result.receipt.sent ≡ unwrap_or self.carried.sent [] }
        ensures counts { HasCounts self.counts result.receipt }
    {
        let Connection {
            transport,
            number,
            held,
            pieces,
            heard,
            cuts,
            ..
        } = self;
        let (transport, sent) = transport.into_parts();
        let receipt = Receipt {
            viewer: number,
            pieces,
            cuts,
            heard: heard.into_listed(),
            sent,
            ended,
        };
        Departed {
            transport,
            held,
            receipt,
        }
    }
}
