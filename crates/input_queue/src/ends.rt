//! What threads share of a queue: its seats put, and its taker takes.

ghost use Rattle.std.specs.Prelude.{◌≡◌, [], ◌++◌, ◌∷◌, List, Some, length, IfOk, MatchResult, MatchOption, true, false};
ghost use Rattle.messages.specs.declared.Input.{Input};
ghost use Rattle.held_inputs.specs.Held.{HoldsNoMore, let_go, owed};
ghost use Rattle.input_queue.specs.Ends.{QueuedBeside, AllTaken, accepting, held_by, Settles};
ghost use Rattle.input_queue.specs.declared.Told.{Told};
ghost use Rattle.crossbeam_queue.specs.Passes.{ruled_capacity};

use crate::closing::Closing;
use crate::hub::{InputSeat, Taker};
use crate::rule::{Puts, Queue, Takes};
use crate::{AtEnd, Full, Told};
use held_inputs::{Change, HeldInputs};
use messages::Input;
use std::marker::Model;
use std::sync::Wait;
use std::thread::Parker;

/// A queue of inputs, apart from what makes its seats, so that threads can share it while seats are made (`InputHub::split`). Contracts
/// see which queue it is, and how many inputs it can hold.
#[derive(Drop)]
pub struct InputEnds {
    pub(crate) queue: Queue,
    // the taker sleeps on it
    arrival: Parker,
    closing: Closing,
}

impl Model for InputEnds {
    ghost use Rattle.input_queue.specs.Ends.{Ends};
    ghost use Rattle.crossbeam_queue.specs.Passes.{ruled_capacity};

    ghost Value = { Ends };

    ghost view = { λ a. record { queue = a.queue.table.shared.table_id; capacity = ruled_capacity a.queue } };
}

impl InputEnds {
    /// Makes the ends of a queue that is open.
    pub(crate) fn of(queue: Queue) -> InputEnds
        ensures queue { result.queue ≡ queue.table.shared.table_id }
        ensures capacity { result.capacity ≡ ruled_capacity queue }
    {
        InputEnds {
            queue,
            arrival: Parker::new(),
            closing: Closing::new(),
        }
    }

    /// Puts an input behind the others, and wakes the taker, as `InputHub::put` does. Gives the input back as `Full`.
    pub fn put<R: Wait>(&self, rt: &R, seat: &mut InputSeat, input: Input) -> Result<(), Full>
        requires { seat.old.queue ≡ self.now.queue }
        ensures accepted { IfOk result (λ _. seat.new ≡ accepting input seat.old) }
        ensures back { MatchResult result (λ _. Unit {0}) (λ full. (full.0 ≡ input) × (seat.new ≡ seat.old)) }
        ensures full { MatchResult result (λ _. Unit {0}) (λ _. (items : List Told) × (length items ≡ self.now.capacity) ×
            QueuedBeside seat.old.number seat.old.accepted items) }
    {
        let change = Change::of(&input);
        let told = Told {
            viewer: seat.viewer,
            input,
        };
        match self.queue.push_as::<Puts, R>(rt, &mut seat.pass, told) {
            Ok(()) => {
                seat.held.change(change);
                self.arrival.unpark();
                Ok(())
            }
            Err(told) => Err(Full(told.input)),
        }
    }

    /// Puts what the application is owed at this seat, as `InputHub::settle` does.
    pub fn settle<R: Wait>(&self, rt: &R, seat: &mut InputSeat, held: &HeldInputs) -> bool
        requires { seat.old.queue ≡ self.now.queue }
        ensures put { (inputs : List Input) × Settles held.now inputs seat.old seat.new }
        ensures seat { seat.new ≡ record seat.old { accepted = seat.new.accepted } }
        ensures settled { result ≡ true → HoldsNoMore (held_by seat.new.accepted) held.now }
        ensures full { result ≡ false → (items : List Told) × (length items ≡ self.now.capacity) ×
            QueuedBeside seat.new.number seat.new.accepted items }
        ensures owes { result ≡ false → (input : Input) × (owed (held_by seat.new.accepted) held.now ≡ Some input) }
    {
        for _ in rt.forever() {
            let Some(input) = seat.held.owed(held) else {
                return true;
            };
            if self.put(rt, seat, input).is_err() {
                return false;
            }
        }
        unreachable!()
    }

    /// Puts what the application is owed once the viewer has left, as `InputHub::let_go` does.
    pub fn let_go<R: Wait>(&self, rt: &R, seat: &mut InputSeat) -> bool
        requires { seat.old.queue ≡ self.now.queue }
        ensures put { (inputs : List Input) × Settles (let_go (held_by seat.old.accepted)) inputs seat.old seat.new }
        ensures seat { seat.new ≡ record seat.old { accepted = seat.new.accepted } }
        ensures settled { result ≡ true → HoldsNoMore (held_by seat.new.accepted) (let_go (held_by seat.old.accepted)) }
        ensures full { result ≡ false → (items : List Told) × (length items ≡ self.now.capacity) ×
            QueuedBeside seat.new.number seat.new.accepted items }
        ensures owes { result ≡ false → (input : Input) ×
            (owed (held_by seat.new.accepted) (let_go (held_by seat.old.accepted)) ≡ Some input) }
    {
        let held = seat.held.let_go();
        self.settle(rt, seat, &held)
    }

    /// Takes the input in front, as `InputHub::take` does.
    pub fn take<R: Wait>(&self, rt: &R, taker: &mut Taker) -> Option<Told>
        requires { taker.old.queue ≡ self.now.queue }
        ensures { MatchOption result ((taker.new ≡ taker.old) ×
            AllTaken taker.old.taken) (λ told. taker.new ≡ record taker.old { taken = taker.old.taken ++ told ∷ [] }) }
    {
        self.queue.pop_as::<Takes, R>(rt, &mut taker.pass)
    }

    /// Takes the input in front once there is one, as `InputHub::take_wait` does.
    pub fn take_wait<R: Wait>(&self, rt: &R, taker: &mut Taker) -> Result<Told, AtEnd>
        requires { taker.old.queue ≡ self.now.queue }
        ensures { MatchResult result (λ told. taker.new ≡ record taker.old { taken = taker.old.taken ++ told ∷ [] })
            (λ _. (taker.new ≡ taker.old) × AllTaken taker.old.taken) }
    {
        for _ in rt.forever() {
            if let Some(seen) = self.closing.seen() {
                return seen.then_take(rt, self, taker);
            }
            if let Some(told) = self.take(rt, taker) {
                return Ok(told);
            }
            self.arrival.park(rt);
        }
        unreachable!()
    }

    /// Takes the input in front, or is woken, as `InputHub::take_or_woken` says.
    pub fn take_or_woken<R: Wait>(&self, rt: &R, taker: &mut Taker) -> Result<Option<Told>, AtEnd>
        requires { taker.old.queue ≡ self.now.queue }
        ensures { MatchResult result (λ front. MatchOption front ((taker.new ≡ taker.old) × AllTaken taker.old.taken)
            (λ told. taker.new ≡ record taker.old { taken = taker.old.taken ++ told ∷ [] }))
            (λ _. (taker.new ≡ taker.old) × AllTaken taker.old.taken) }
    {
        for _ in rt.forever() {
            if let Some(seen) = self.closing.seen() {
                return Ok(Some(seen.then_take(rt, self, taker)?));
            }
            let is_woken = self.closing.take_wake();
            if let Some(told) = self.take(rt, taker) {
                if is_woken {
                    self.closing.wake();
                }
                return Ok(Some(told));
            }
            if is_woken {
                return Ok(None);
            }
            self.arrival.park(rt);
        }
        unreachable!()
    }

    /// Wakes the taker, now or when it next sleeps.
    pub fn wake(&self) {
        self.closing.wake();
        self.arrival.unpark();
    }

    /// Closes the hub, as `InputHub::close` does.
    pub fn close(&self) {
        self.closing.close();
        self.arrival.unpark();
    }
}
