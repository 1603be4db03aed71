//! A viewer's reader: what it says is heard, and its inputs go into the application's queue.

ghost use Rattle.std.specs.Prelude.{◌≡◌, ◌≤◌, ◌+◌, List, ℕ, [], ◌∷◌, ◌++◌, IsOk, MatchOption, MatchResult};
ghost use Rattle.messages.specs.declared.Input.{Input};
ghost use Rattle.receipts.specs.declared.Ended.TheVariants as ended;
ghost use Rattle.update_sender.specs.Ends.{all_of};
ghost use Rattle.update_sender.specs.Ends.{Listening, counted};
ghost use Rattle.held_inputs.specs.Held.{after, roomy};
ghost use Rattle.input_queue.specs.Ends.{Putting, Settles};
ghost use Rattle.update_sender.specs.Inputs.{Puts, PutsBehind, PutsBetween, held_after};
ghost use Rattle.update_sender.specs.Serving.{Hears, ReadingEnds};

use crate::hearing::hear_piece;
use crate::line::Listener;
use crate::reasons::no_fault;
use crate::shared::Shared;
use held_inputs::{Change, HeldInputs};
use input_queue::{InputEnds, InputHub, InputSeat};
use listed::Listed;
use messages::Input;
use receipts::Ended;
use screen::Answer;
use std::io::Read;
use std::sync::Wait;
use std::sync::ledger::Ledger;

/// What a viewer's reader leaves.
#[derive(Drop)]
pub struct ReadHalf {
    /// The viewer's number.
    pub viewer: u64,
    /// How many pieces were heard; the count stops at 2^64 - 1.
    pub pieces: u64,
    /// The bytes that were heard, where the history is kept.
    pub heard: Listed<u8>,
    /// How many inputs met a full queue; the count stops at 2^64 - 1.
    pub dropped: u64,
    /// Why the reader ended.
    pub ended: Ended,
    /// The seat at which the inputs were put.
    pub seat: InputSeat,
}

/// Reads pieces of at most 4,096 bytes, hears each, and puts its inputs at the seat, the listener's waiting ones first. An
/// input that meets a full queue is dropped and counted. Where a release was dropped, or a press or a release of a button, that is made
/// good with what is heard next of the viewer: the application is told the key's release, or the pointer as it is. It ends, and closes
/// the viewer, where the reader is at its end, a read fails, memory is refused, the viewer was closed by somebody else, or it says what
/// no message says. Where the closing is refused for memory, it ends all the same, and the viewer stays (`Shared::close`).
pub fn serve_reader<L: Ledger, Rd: Read, R: Wait>(
    rt: &R,
    shared: &Shared<L>,
    listener: Listener,
    reader: &mut Rd,
    hub: &InputHub,
    seat: InputSeat,
) -> ReadHalf
    requires queue { seat.queue ≡ hub.now.queue }
    requires viewer { seat.viewer ≡ listener.viewer }
    ensures viewer { result.viewer ≡ listener.viewer }
    ensures heard { (l : Listening) × (unheard : List ℕ) ×
        Hears (Rd.remaining reader.old) (Rd.remaining reader.new) listener l unheard ×
        ReadingEnds result.ended (Rd.remaining reader.new) unheard
        × (result.pieces ≡ l.pieces) × (result.heard ≡ all_of l.heard) }
    ensures puts { (later : List Input) × (dropped : ℕ) × Puts (listener.waiting ++ later) seat result.seat dropped ×
        (result.dropped ≡ counted dropped) }
    ensures seat { result.seat ≡ record seat { accepted = result.seat.accepted } }
{
    serve_listener(rt, shared, listener, reader, hub.ends(), seat)
}

/// Serves a viewer's reader as `serve_reader` does, where what makes the queue's seats is elsewhere.
pub fn serve_listener<L: Ledger, Rd: Read, R: Wait>(
    rt: &R,
    shared: &Shared<L>,
    mut listener: Listener,
    reader: &mut Rd,
    ends: &InputEnds,
    mut seat: InputSeat,
) -> ReadHalf
    requires queue { seat.queue ≡ ends.now.queue }
    requires viewer { seat.viewer ≡ listener.viewer }
    ensures viewer { result.viewer ≡ listener.viewer }
    ensures heard { (l : Listening) × (unheard : List ℕ) ×
        Hears (Rd.remaining reader.old) (Rd.remaining reader.new) listener l unheard ×
        ReadingEnds result.ended (Rd.remaining reader.new) unheard
        × (result.pieces ≡ l.pieces) × (result.heard ≡ all_of l.heard) }
    ensures puts { (later : List Input) × (dropped : ℕ) × Puts (listener.waiting ++ later) seat result.seat dropped ×
        (result.dropped ≡ counted dropped) }
    ensures seat { result.seat ≡ record seat { accepted = result.seat.accepted } }
{
    let waiting = listener.take_waiting();
    let mut held = HeldInputs::new();
    let dropped = put_all(rt, ends, &mut seat, &mut held, waiting);
    let (ended, more) = hear_all(
        rt,
        shared,
        &mut listener,
        reader,
        ends,
        &mut seat,
        &mut held,
    );
    let _closed = shared.close(rt, listener.viewer);
    ReadHalf {
        viewer: listener.viewer,
        pieces: listener.pieces,
        heard: listener.heard.into_listed(),
        dropped: dropped.saturating_add(more),
        ended,
        seat,
    }
}

/// Puts an input. Returns how many met a full queue, 0 or 1.
fn put_one<R: Wait>(rt: &R, ends: &InputEnds, seat: &mut InputSeat, input: Input) -> u64
    requires { seat.old.queue ≡ ends.now.queue }
    ensures puts { Puts (input ∷ []) seat.old seat.new result }
    ensures seat { seat.new ≡ record seat.old { accepted = seat.new.accepted } }
    ensures few { result ≤ 1 }
{
    match ends.put(rt, seat, input) {
        Ok(()) => 0,
        Err(_) => 1,
    }
}

/// Puts inputs in order, and keeps in `held` what their viewer holds behind them. Returns how many met a full queue.
fn put_all<R: Wait>(
    rt: &R,
    ends: &InputEnds,
    seat: &mut InputSeat,
    held: &mut HeldInputs,
    inputs: Listed<Input>,
) -> u64
    requires { seat.old.queue ≡ ends.now.queue }
    ensures puts { (dropped : ℕ) × Puts inputs seat.old seat.new dropped × (result ≡ counted dropped) }
    ensures seat { seat.new ≡ record seat.old { accepted = seat.new.accepted } }
{
    let mut dropped = 0u64;
    for input in inputs.into_vec() {
        held.change(Change::of(&input));
        dropped = dropped.saturating_add(put_one(rt, ends, seat, input));
    }
    dropped
}

/// Puts an input of a viewer behind what is owed of what it held before. Returns how many met a full queue, 0 or 1.
fn put_behind<R: Wait>(
    rt: &R,
    ends: &InputEnds,
    seat: &mut InputSeat,
    held: &HeldInputs,
    input: Input,
) -> u64
    requires { seat.old.queue ≡ ends.now.queue }
    ensures puts { PutsBehind held.now input seat.old seat.new result }
    ensures few { result ≤ 1 }
{
    if ends.settle(rt, seat, held) {
        put_one(rt, ends, seat, input)
    } else {
        1
    }
}

/// Does the same, and keeps in `held` what the viewer holds behind it. So that another key can go down, the earliest is let go before,
/// where the viewer holds as many as are known.
fn put_next<R: Wait>(
    rt: &R,
    ends: &InputEnds,
    seat: &mut InputSeat,
    held: &mut HeldInputs,
    input: Input,
) -> u64
    requires { seat.old.queue ≡ ends.now.queue }
    ensures puts { PutsBehind (roomy held.old) input seat.old seat.new result }
    ensures held { held.new ≡ after (roomy held.old) input }
    ensures few { result ≤ 1 }
{
    let change = Change::of(&input);
    held.make_room();
    let dropped = put_behind(rt, ends, seat, held, input);
    held.change(change);
    dropped
}

/// Does the same with inputs in order.
fn put_each<R: Wait>(
    rt: &R,
    ends: &InputEnds,
    seat: &mut InputSeat,
    held: &mut HeldInputs,
    inputs: Listed<Input>,
) -> u64
    requires { seat.old.queue ≡ ends.now.queue }
    ensures puts { (dropped : ℕ) × PutsBetween held.old inputs seat.old seat.new dropped × (result ≡ counted dropped) }
    ensures held { held.new ≡ held_after held.old inputs }
{
    let mut dropped = 0u64;
    for input in inputs.into_vec() {
        dropped = dropped.saturating_add(put_next(rt, ends, seat, held, input));
    }
    dropped
}

/// Puts the inputs of a piece that was heard, and what is owed behind them, and adds to `dropped` how many met a full queue. Fails with
/// why reading ends with this piece, if it does.
fn take_in<R: Wait>(
    rt: &R,
    ends: &InputEnds,
    seat: &mut InputSeat,
    held: &mut HeldInputs,
    dropped: &mut u64,
    answer: Answer,
) -> Result<(), Ended>
    requires { seat.old.queue ≡ ends.now.queue }
    ensures puts { (more : ℕ) × (then : Putting) × (owing : List Input) × PutsBetween held.old answer.inputs seat.old then more ×
        Settles held.new owing then seat.new × (dropped.new ≡ counted (dropped.old + counted more)) }
    ensures held { held.new ≡ held_after held.old answer.inputs }
    ensures fault { MatchOption answer.closed (IsOk result) (λ fault. result ≡ Err (ended.Fault fault)) }
{
    *dropped = dropped.saturating_add(put_each(rt, ends, seat, held, answer.inputs));
    ends.settle(rt, seat, held);
    no_fault(answer.closed)
}

/// Hears until reading ends. Returns why it does, and how many inputs met a full queue.
fn hear_all<L: Ledger, Rd: Read, R: Wait>(
    rt: &R,
    shared: &Shared<L>,
    listener: &mut Listener,
    reader: &mut Rd,
    ends: &InputEnds,
    seat: &mut InputSeat,
    held: &mut HeldInputs,
) -> (Ended, u64)
    requires { seat.old.queue ≡ ends.now.queue }
    ensures heard { (unheard : List ℕ) ×
        Hears (Rd.remaining reader.old) (Rd.remaining reader.new) listener.old listener.new unheard ×
        ReadingEnds result.0 (Rd.remaining reader.new) unheard }
    ensures puts { (inputs : List Input) × (dropped : ℕ) × Puts inputs seat.old seat.new dropped ×
        (result.1 ≡ counted dropped) }
    ensures seat { seat.new ≡ record seat.old { accepted = seat.new.accepted } }
{
    let mut dropped = 0u64;
    for _ in rt.forever() {
        let answer = match hear_piece(rt, shared, listener, reader) {
            Ok(heard) => heard.answer,
            Err(ended) => return (ended, dropped),
        };
        if let Err(ended) = take_in(rt, ends, seat, held, &mut dropped, answer) {
            return (ended, dropped);
        }
    }
    unreachable!()
}
