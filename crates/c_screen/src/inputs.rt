//! The inputs that wait to be fetched.

ghost use Rattle.std.specs.Prelude.{◌≡◌, ◌++◌, ◌∷◌, [], List, ℕ, length, MatchOption, IsTrue, OnOk, ◌↔◌};
ghost use Rattle.std.specs.Prelude.{◌<◌};
ghost use Rattle.std.specs.VecDeque.{deque_len, deque_capacity};
ghost use Rattle.c_screen.specs.Inputs.{in_order, told_by, IsFetched};

use crate::told::{Told, told_as};
use listed::Listed;
use screen::Input;
use std::alloc::{AllocError, Global};
use std::collections::VecDeque;
use std::marker::Model;

/// What one viewer told at once, the last first.
#[derive(Drop)]
pub(crate) struct ToldAtOnce {
    viewer: u64,
    last_first: Vec<Input>,
}

impl Model for ToldAtOnce {
    ghost use Rattle.std.specs.Prelude.{ℕ, List, reverse};
    ghost use Rattle.screen.specs.declared.Input.{Input};
    ghost use Rattle.c_screen.specs.Inputs.{told_by};

    ghost Value = { List (ℕ × Input) };

    ghost view = { λ a. told_by a.viewer (reverse a.last_first.items) };
}

impl ToldAtOnce {
    /// Returns whether nothing is left of it.
    fn is_empty(&self) -> bool
        ensures { IsTrue result ↔ (self.now ≡ []) }
    {
        self.last_first.is_empty()
    }

    /// Takes out the first input, with the number of its viewer, if one is left.
    fn pop(&mut self) -> Option<(u64, Input)>
        ensures { MatchOption result ((self.old ≡ []) × (self.new ≡ [])) (λ first. self.old ≡ first ∷ self.new) }
    {
        match self.last_first.pop() {
            Some(input) => Some((self.viewer, input)),
            None => None,
        }
    }
}

/// What viewers told and was not fetched, in order: what is left of what was told at once, and what was told later.
#[derive(Drop)]
pub(crate) struct Inputs {
    next: ToldAtOnce,
    later: VecDeque<ToldAtOnce>,
}

impl Inputs {
    /// Returns an empty queue.
    pub fn new(alloc: Global) -> Inputs
        ensures { in_order result.next result.later.items ≡ [] }
    {
        Inputs {
            next: ToldAtOnce {
                viewer: 0,
                last_first: Vec::new(alloc),
            },
            later: VecDeque::new(alloc),
        }
    }

    /// Makes room for what a viewer tells at once: for one `put`.
    pub fn make_room(&mut self) -> Result<(), AllocError>
        ensures same { in_order self.new.next self.new.later.items ≡ in_order self.old.next self.old.later.items }
        ensures ok { OnOk result (deque_len self.new.later < deque_capacity self.new.later) }
    {
        self.later.reserve(1)
    }

    /// Appends `inputs`, which `viewer` told at once, in room that was made.
    pub fn put(&mut self, viewer: u64, inputs: Listed<Input>)
        requires { deque_len self.old.later < deque_capacity self.old.later }
        ensures { in_order self.new.next self.new.later.items ≡ in_order self.old.next self.old.later.items ++ told_by viewer inputs }
    {
        if inputs.is_empty() {
            return;
        }
        let mut last_first = inputs.into_vec();
        last_first.reverse();
        self.later
            .push_back_reserved(ToldAtOnce { viewer, last_first });
    }

    /// Goes on to what was told next, where nothing is left of what was told at once.
    fn go_on(&mut self)
        ensures same { in_order self.new.next self.new.later.items ≡ in_order self.old.next self.old.later.items }
        ensures none { self.new.next ≡ [] → self.new.later.items ≡ [] }
    {
        while self.next.is_empty() {
            match self.later.pop_front() {
                Some(next) => self.next = next,
                None => return,
            }
        }
    }

    /// Takes out the first input, with the number of its viewer, if one waits.
    fn pop(&mut self) -> Option<(u64, Input)>
        ensures { MatchOption result ((in_order self.old.next self.old.later.items ≡ []) × (in_order self.new.next self.new.later.items ≡ []))
            (λ first. in_order self.old.next self.old.later.items ≡ first ∷ in_order self.new.next self.new.later.items) }
    {
        self.go_on();
        self.next.pop()
    }

    /// Fetches the first inputs into the start of `room`, as many as fit, up to the first text, whose bytes replace those of `text`. The
    /// other inputs wait on, and the rest of `room` stays. Returns how many were fetched.
    pub fn fetch(&mut self, room: &mut [Told], text: &mut Listed<u8>) -> usize
        ensures { IsFetched (length room.old) (in_order self.old.next self.old.later.items) (in_order self.new.next self.new.later.items)
            room.old room.new text.old text.new result }
    {
        let mut count = 0;
        while count < room.len() {
            let Some((viewer, input)) = self.pop() else {
                return count;
            };
            room[count] = told_as(viewer, &input);
            count += 1;
            if let Input::Text { text: bytes, .. } = input {
                *text = bytes;
                return count;
            }
        }
        count
    }
}
