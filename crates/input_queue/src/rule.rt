//! The rule of the queue, and its kinds of step.
//!
//! 1. The queue and its taker are made: the taker's pass is split off the first (`TakerMade`).
//! 2. A seat is made: its pass is split off the hub's, which stays (`SeatMade`).
//! 3. An input is accepted; 4. one is refused (`Puts`).
//! 5. An input is taken; 6. none is there (`Takes`).
//! 7. A seat is given back: the taker notes what it accepted (`SeatBack`).
//! 8. The taker is given back to the hub (`TakerBack`).
ghost use Rattle.std.specs.Prelude.{◌≡◌, ◌++◌, ◌∷◌, []};

use crate::Told;
use crossbeam_queue::protocol::{Join, Lesson, Outcome, Protocol, Split};
use crossbeam_queue::{Pass, RuledArrayQueue};
use std::collections::LinkedList;

// What the taker keeps of a seat that was given back. No value of it is made.
pub struct Note {
    pub number: u64,
    pub accepted: LinkedList<Told>,
}

// What a pass may do, and what it knows. No value of it is made.
pub struct View {
    pub makes: bool,
    pub takes: bool,
    pub puts: bool,
    pub joined: bool,
    pub number: u64,
    pub accepted: LinkedList<Told>,
    pub taken: LinkedList<Told>,
    pub noted: LinkedList<Note>,
}

pub type Queue = RuledArrayQueue<Told, View, InOrder>;

pub type Ticket = Pass<Told, View>;

pub struct InOrder;

impl Protocol<Told, View> for InOrder {
    ghost use Rattle.input_queue.specs.Views.{newcomer};
    ghost use Rattle.input_queue.specs.Rule.{Holds};

    ghost holds = { Holds };

    ghost first = { newcomer };
}

pub struct TakerMade;

impl Split<View> for TakerMade {
    ghost use Rattle.std.specs.Prelude.{[]};
    ghost use Rattle.input_queue.specs.Views.{hub, taker};

    ghost left = { λ v. hub 0 };

    ghost right = { λ v. taker [] [] };
}

pub struct SeatMade;

impl Split<View> for SeatMade {
    ghost use Rattle.std.specs.Prelude.{[], ◌+◌};
    ghost use Rattle.input_queue.specs.Views.{hub, seat};

    ghost left = { λ v. hub (v.number + 1) };

    ghost right = { λ v. seat v.number [] };
}

pub struct Puts;

impl Outcome<Told, View> for Puts {
    ghost then = { λ v x w. w ≡ record v { accepted = v.accepted ++ x ∷ [] } };
}

impl Lesson<Told, View> for Puts {
    ghost use Rattle.input_queue.specs.Ends.{QueuedBeside};

    ghost fact = { λ v items. QueuedBeside v.number v.accepted items };
}

pub struct Takes;

impl Outcome<Told, View> for Takes {
    ghost then = { λ v x w. w ≡ record v { taken = v.taken ++ x ∷ [] } };
}

impl Lesson<Told, View> for Takes {
    ghost use Rattle.input_queue.specs.Rule.{Reached};

    ghost fact = { Reached };
}

pub struct SeatBack;

impl Join<View> for SeatBack {
    ghost use Rattle.std.specs.Prelude.{◌∷◌};
    ghost use Rattle.input_queue.specs.Views.{spent};

    ghost both = { λ v w. record v { noted = record { number = w.number; accepted = w.accepted } ∷ v.noted } };

    ghost spent = { spent };
}

pub struct TakerBack;

impl Join<View> for TakerBack {
    ghost use Rattle.input_queue.specs.Views.{joined, spent};

    ghost both = { λ v w. joined v.number w.taken w.noted };

    ghost spent = { spent };
}

pub struct Whole;

impl Lesson<Told, View> for Whole {
    ghost use Rattle.input_queue.specs.Rule.{Closed};

    ghost fact = { Closed };
}
