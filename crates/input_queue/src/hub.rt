//! The queue's ends.
ghost use Rattle.std.specs.Prelude.{◌≡◌, ◌≤◌, ◌<◌, ◌+◌, ◌-◌, ◌^◌, [], ◌++◌, ◌∷◌, ℕ, List, length, map, All, min, IfOk, MatchResult};
ghost use Rattle.std.specs.Prelude.{true, false, Some, MatchOption, IsOkUnless, nat_le, ◌&&◌, MatchBool, sum_by};
ghost use Rattle.messages.specs.declared.Input.{Input};
ghost use Rattle.held_inputs.specs.Held.{HoldsNoMore, let_go, owed};
ghost use Rattle.input_queue.specs.Ends.{Putting, of_viewer, ViewersApart, QueuedBeside, AllTaken, note_of, accepting, held_by, Settles};
ghost use Rattle.input_queue.specs.declared.Told.{Told};
ghost use Rattle.crossbeam_queue.specs.Passes.{view as known, IsPassOf};
ghost use Rattle.crossbeam_queue.specs.Fifo.{Held};
ghost use Rattle.input_queue.specs.Views.{hub, taker, joined};
ghost use Rattle.input_queue.specs.Rule.{Reached, Closed};

use crate::ends::InputEnds;
use crate::rule::{Queue, SeatBack, SeatMade, TakerBack, TakerMade, Takes, Ticket, Whole};
use crate::{AtEnd, Full, Left, QueueError, Told};
use held_inputs::HeldInputs;
use listed::Listed;
use messages::Input;
use std::alloc::{AllocError, Global};
use std::marker::Model;
use std::sync::Wait;

/// A queue of inputs, which threads share: a seat for each viewer puts, and one taker takes. Contracts
/// see which queue it is, how many inputs it can hold, and how many seats it has made.
#[derive(Drop)]
pub struct InputHub {
    alloc: Global,
    ends: InputEnds,
    maker: SeatMaker,
}

impl Model for InputHub {
    ghost use Rattle.input_queue.specs.Ends.{Hub};
    ghost use Rattle.std.specs.Prelude.{◌≡◌};

    ghost Value = { Hub };

    ghost view = { λ a. record { queue = a.ends.queue; capacity = a.ends.capacity; seats = a.maker.seats } };

    ghost invariant = { λ a. a.maker.queue ≡ a.ends.queue };
}

/// What makes a queue's seats. Contracts see of which queue, and how many it has made.
#[derive(Drop)]
pub struct SeatMaker {
    pass: Ticket,
    seats: u64,
}

impl Model for SeatMaker {
    ghost use Rattle.input_queue.specs.Ends.{Making};
    ghost use Rattle.std.specs.Prelude.{◌≡◌, ◌<◌, ◌-◌, ◌^◌, []};
    ghost use Rattle.crossbeam_queue.specs.Passes.{view as known};
    ghost use Rattle.input_queue.specs.Views.{hub};

    ghost Value = { Making };

    ghost view = { λ a. record { queue = a.pass.table_id; seats = a.seats } };

    ghost invariant = { λ a. (a.pass.me.1 ≡ []) × (known a.pass ≡ hub (known a.pass).number) ×
        (a.seats < 2 ^ 64 - 1 → (known a.pass).number ≡ a.seats) };
}

/// The end that takes. Contracts see what it took.
#[derive(Drop)]
pub struct Taker {
    pub(crate) pass: Ticket,
}

impl Model for Taker {
    ghost use Rattle.input_queue.specs.Ends.{Taking};
    ghost use Rattle.std.specs.Prelude.{◌≡◌, []};
    ghost use Rattle.crossbeam_queue.specs.Passes.{view as known};
    ghost use Rattle.input_queue.specs.Views.{taker};

    ghost Value = { Taking };

    ghost view = { λ a. record { queue = a.pass.table_id; taken = (known a.pass).taken } };

    ghost invariant = { λ a. (a.pass.me.1 ≡ []) × (known a.pass ≡ taker (known a.pass).taken []) };
}

/// The end of one viewer, which puts. Contracts see what was accepted at it.
#[derive(Drop)]
pub struct InputSeat {
    pub(crate) viewer: u64,
    pub(crate) pass: Ticket,
    // what is down by what was accepted
    pub(crate) held: HeldInputs,
}

impl Model for InputSeat {
    ghost use Rattle.input_queue.specs.Ends.{Putting, held_by};
    ghost use Rattle.std.specs.Prelude.{◌≡◌, [], All};
    ghost use Rattle.crossbeam_queue.specs.Passes.{view as known};
    ghost use Rattle.input_queue.specs.Views.{seat};

    ghost Value = { Putting };

    ghost view = { λ a. record {
      queue = a.pass.table_id;
      number = (known a.pass).number;
      viewer = a.viewer;
      accepted =
          (known a.pass).accepted;
    } };

    ghost invariant = { λ a. (a.pass.me.1 ≡ []) × (known a.pass ≡ seat (known a.pass).number (known a.pass).accepted) ×
        All (λ t. t.viewer ≡ a.viewer) (known a.pass).accepted × (a.held ≡ held_by (known a.pass).accepted) };
}

impl InputHub {
    /// Makes an empty queue that can hold `capacity` inputs, with its taker, and all room for them. Refuses a capacity that isn't 1 to
    /// 65,536 as `BadCapacity`, and else for want of memory as `OutOfMemory`.
    pub fn new(alloc: Global, capacity: usize) -> Result<(InputHub, Taker), QueueError>
        ensures refused { MatchBool (nat_le 1 capacity && nat_le capacity 65536) (IsOkUnless result QueueError.OutOfMemory)
            (result ≡ Err QueueError.BadCapacity) }
        ensures hub { IfOk result (λ made. (made.0.capacity ≡ capacity) × (made.0.seats ≡ 0)) }
        ensures taker { IfOk result (λ made. (made.1.queue ≡ made.0.queue) × (made.1.taken ≡ [])) }
    {
        if capacity == 0 || capacity > 65_536 {
            return Err(QueueError::BadCapacity);
        }
        let (queue, mut pass) = Queue::ruled(alloc, capacity)?;
        let taking = queue.another::<TakerMade>(&mut pass);
        let hub = InputHub {
            alloc,
            ends: InputEnds::of(queue),
            maker: SeatMaker { pass, seats: 0 },
        };
        Ok((hub, Taker { pass: taking }))
    }

    /// Parts what threads share from what makes seats, so that a server without end makes these as its viewers come. Nothing joins the
    /// two again.
    pub fn split(self) -> (InputEnds, SeatMaker)
        ensures ends { result.0 ≡ record { queue = self.queue; capacity = self.capacity } }
        ensures maker { result.1 ≡ record { queue = self.queue; seats = self.seats } }
    {
        (self.ends, self.maker)
    }

    /// Returns what threads share of it.
    pub fn ends(&self) -> &InputEnds
        ensures { result.now ≡ record { queue = self.now.queue; capacity = self.now.capacity } }
    {
        &self.ends
    }

    /// Makes a seat for a viewer, and counts it; the count stops at 2^64 - 1.
    pub fn seat(&mut self, viewer: u64) -> InputSeat
        ensures hub { self.new ≡ record self.old { seats = min (self.old.seats + 1) (2 ^ 64 - 1) } }
        ensures queue { result.queue ≡ self.old.queue }
        ensures viewer { result.viewer ≡ viewer }
        ensures number { self.old.seats < 2 ^ 64 - 1 → result.number ≡ self.old.seats }
        ensures accepted { result.accepted ≡ [] }
    {
        self.maker.seat(&self.ends, viewer)
    }

    /// Puts an input behind the others, and wakes the taker where it waits. Gives the input back as `Full` where the queue held as many
    /// as it can at that step: that it does so nowhere else rests on this body, since no clause can tell. After 2^62 accepted inputs this
    /// waits for ever.
    pub fn put<R: Wait>(&self, rt: &R, seat: &mut InputSeat, input: Input) -> Result<(), Full>
        requires { seat.old.queue ≡ self.now.queue }
        ensures accepted { IfOk result (λ _. seat.new ≡ accepting input seat.old) }
        ensures back { MatchResult result (λ _. Unit {0}) (λ full. (full.0 ≡ input) × (seat.new ≡ seat.old)) }
        ensures full { MatchResult result (λ _. Unit {0}) (λ _. (items : List Told) × (length items ≡ self.now.capacity) ×
            QueuedBeside seat.old.number seat.old.accepted items) }
    {
        self.ends.put(rt, seat, input)
    }

    /// Puts what the application is owed at this seat, so that no key is down for it that the viewer doesn't hold, and the same buttons
    /// are: releases, and the pointer, as long as there is room. Returns whether nothing is left of it; else the queue held as many
    /// inputs as it can.
    pub fn settle<R: Wait>(&self, rt: &R, seat: &mut InputSeat, held: &HeldInputs) -> bool
        requires { seat.old.queue ≡ self.now.queue }
        ensures put { (inputs : List Input) × Settles held.now inputs seat.old seat.new }
        ensures seat { seat.new ≡ record seat.old { accepted = seat.new.accepted } }
        ensures settled { result ≡ true → HoldsNoMore (held_by seat.new.accepted) held.now }
        ensures full { result ≡ false → (items : List Told) × (length items ≡ self.now.capacity) ×
            QueuedBeside seat.new.number seat.new.accepted items }
        ensures owes { result ≡ false → (input : Input) × (owed (held_by seat.new.accepted) held.now ≡ Some input) }
    {
        self.ends.settle(rt, seat, held)
    }

    /// Does what `settle` does, for a viewer that has left, and holds nothing.
    pub fn let_go<R: Wait>(&self, rt: &R, seat: &mut InputSeat) -> bool
        requires { seat.old.queue ≡ self.now.queue }
        ensures put { (inputs : List Input) × Settles (let_go (held_by seat.old.accepted)) inputs seat.old seat.new }
        ensures seat { seat.new ≡ record seat.old { accepted = seat.new.accepted } }
        ensures settled { result ≡ true → HoldsNoMore (held_by seat.new.accepted) (let_go (held_by seat.old.accepted)) }
        ensures full { result ≡ false → (items : List Told) × (length items ≡ self.now.capacity) ×
            QueuedBeside seat.new.number seat.new.accepted items }
        ensures owes { result ≡ false → (input : Input) ×
            (owed (held_by seat.new.accepted) (let_go (held_by seat.old.accepted)) ≡ Some input) }
    {
        self.ends.let_go(rt, seat)
    }

    /// Takes the input in front. Returns None if the queue was empty at some moment of the call: that it does so nowhere else rests on
    /// this body, since no clause can tell.
    pub fn take<R: Wait>(&self, rt: &R, taker: &mut Taker) -> Option<Told>
        requires { taker.old.queue ≡ self.now.queue }
        ensures { MatchOption result ((taker.new ≡ taker.old) ×
            AllTaken taker.old.taken) (λ told. taker.new ≡ record taker.old { taken = taker.old.taken ++ told ∷ [] }) }
    {
        self.ends.take(rt, taker)
    }

    /// Takes the input in front, and sleeps until there is one or the hub is closed. A closed hub gives what it still holds, and then
    /// `AtEnd`, as often as it is asked.
    pub fn take_wait<R: Wait>(&self, rt: &R, taker: &mut Taker) -> Result<Told, AtEnd>
        requires { taker.old.queue ≡ self.now.queue }
        ensures { MatchResult result (λ told. taker.new ≡ record taker.old { taken = taker.old.taken ++ told ∷ [] })
            (λ _. (taker.new ≡ taker.old) × AllTaken taker.old.taken) }
    {
        self.ends.take_wait(rt, taker)
    }

    /// Takes the input in front, and sleeps until there is one, or `wake` wakes the taker, or the hub is closed. Returns None once the
    /// taker was woken, and what had been put before is taken. A closed hub gives what it still holds, and then `AtEnd`, as often as it
    /// is asked.
    pub fn take_or_woken<R: Wait>(&self, rt: &R, taker: &mut Taker) -> Result<Option<Told>, AtEnd>
        requires { taker.old.queue ≡ self.now.queue }
        ensures { MatchResult result (λ front. MatchOption front ((taker.new ≡ taker.old) × AllTaken taker.old.taken)
            (λ told. taker.new ≡ record taker.old { taken = taker.old.taken ++ told ∷ [] }))
            (λ _. (taker.new ≡ taker.old) × AllTaken taker.old.taken) }
    {
        self.ends.take_or_woken(rt, taker)
    }

    /// Wakes the taker, now or when it next sleeps.
    pub fn wake(&self) {
        self.ends.wake();
    }

    /// Closes the hub: the taker waits for no further input. Call it once every seat has put its last.
    pub fn close(&self) {
        self.ends.close();
    }

    /// Gives back the seats, takes what is left, and gives back the taker. Where these are all seats that the hub made and no two have one
    /// viewer, each viewer's inputs, those taken and then those left, are what its seat accepted, in order. `AllocError` where memory for
    /// what is left is refused; then that is lost.
    pub fn join<R: Wait>(
        self,
        rt: &R,
        taker: Taker,
        seats: Vec<InputSeat>,
    ) -> Result<Left, AllocError>
        requires taker { taker.queue ≡ self.queue }
        requires seats { All (λ s. s.queue ≡ self.queue) seats.items }
        ensures each { IfOk result (λ left. length seats.items ≡ self.seats → self.seats < 2 ^ 64 - 1 → ViewersApart seats.items →
            All (λ s. of_viewer s.viewer (taker.taken ++ left.items) ≡ s.accepted) seats.items) }
        ensures no_other { IfOk result (λ left. length seats.items ≡ self.seats → self.seats < 2 ^ 64 - 1 →
            length (taker.taken ++ left.items) ≡ sum_by (λ s. length s.accepted) seats.items) }
    {
        let InputHub { alloc, ends, maker } = self;
        let (queue, mut pass) = (ends.queue, maker.pass);
        let mut taking = give_back_all(&queue, taker.pass, seats);
        let items = take_all(rt, alloc, &queue, &mut taking)?;
        queue.absorb::<TakerBack>(&mut pass, taking);
        queue.learn_as::<Whole>(&mut pass);
        Ok(Left {
            items: Listed::from_vec(items),
        })
    }
}

impl SeatMaker {
    /// Makes a seat for a viewer, as `InputHub::seat`, at the queue of these ends.
    pub fn seat(&mut self, ends: &InputEnds, viewer: u64) -> InputSeat
        requires { self.old.queue ≡ ends.now.queue }
        ensures maker { self.new ≡ record self.old { seats = min (self.old.seats + 1) (2 ^ 64 - 1) } }
        ensures queue { result.queue ≡ self.old.queue }
        ensures viewer { result.viewer ≡ viewer }
        ensures number { self.old.seats < 2 ^ 64 - 1 → result.number ≡ self.old.seats }
        ensures accepted { result.accepted ≡ [] }
    {
        let pass = ends.queue.another::<SeatMade>(&mut self.pass);
        self.seats = self.seats.saturating_add(1);
        InputSeat {
            viewer,
            pass,
            held: HeldInputs::new(),
        }
    }
}

/// Notes with the taker what a seat accepted.
fn give_back(queue: &Queue, taking: &mut Ticket, seat: InputSeat)
    requires queue { IsPassOf queue.now taking.old × (seat.queue ≡ queue.now.table.shared.table_id) }
    requires taker { known taking.old ≡ taker (known taking.old).taken (known taking.old).noted }
    ensures queue { IsPassOf queue.now taking.new }
    ensures noted { known taking.new ≡ taker (known taking.old).taken (note_of seat ∷ (known taking.old).noted) }
    ensures own { All (λ t. t.viewer ≡ seat.viewer) seat.accepted }
{
    queue.absorb::<SeatBack>(taking, seat.pass);
}

/// Notes with the taker what each seat accepted.
fn give_back_all(queue: &Queue, mut taking: Ticket, mut seats: Vec<InputSeat>) -> Ticket
    requires queue { IsPassOf queue.now taking × All (λ s. s.queue ≡ queue.now.table.shared.table_id) seats.items }
    requires taker { known taking ≡ taker (known taking).taken [] }
    ensures queue { IsPassOf queue.now result }
    ensures noted { known result ≡ taker (known taking).taken (map note_of seats.items) }
    ensures own { All (λ s. All (λ t. t.viewer ≡ s.viewer) s.accepted) seats.items }
{
    while let Some(seat) = seats.pop() {
        give_back(queue, &mut taking, seat);
    }
    taking
}

/// Takes until the queue is empty.
fn take_all<R: Wait>(
    rt: &R,
    alloc: Global,
    queue: &Queue,
    taking: &mut Ticket,
) -> Result<Vec<Told>, AllocError>
    requires queue { IsPassOf queue.now taking.old }
    requires taker { known taking.old ≡ taker (known taking.old).taken (known taking.old).noted }
    ensures queue { IsPassOf queue.now taking.new }
    ensures taken { IfOk result (λ items. known taking.new ≡
        taker ((known taking.old).taken ++ items.items) (known taking.old).noted) }
    ensures empty { IfOk result (λ _. Held 0 (Reached (known taking.new))) }
{
    let mut items = Vec::new(alloc);
    for _ in rt.forever() {
        items.reserve(1)?;
        match queue.pop_as::<Takes, R>(rt, taking) {
            Some(told) => items.push_reserved(told),
            None => return Ok(items),
        }
    }
    unreachable!()
}
