//! The viewers of a screen in their order of connecting: a doubly linked list whose nodes lie in a slab and whose links
//! are keys of it, and a map from numbers to positions. Contracts see the list of pairs of number and value, and beside it
//! the list of their positions.
//!
//! `links` has the nodes and changes their links. A walk goes from `first` by `next`, and `at_mut` may change each value
//! on the way; `specs/WalkLemmas.antt` has what a caller's loop needs.
#![tactic(auto)]

ghost use Rattle.std.specs.Prelude.{◌≡◌, ◌+◌, ◌++◌, ◌∷◌, ◌↔◌, [], ℕ, None, Some, IsTrue, IfSome, IfOk, MatchOption, MatchResult};
ghost use Rattle.std.specs.Prelude.{IsOkUnless, OnOk, OnErr, length, slice_get, option_copied, is_some, ◌==◌, not};
ghost use Rattle.std.specs.Map.{keys_of};
ghost use Rattle.std.specs.Option.{option_copied_mut};
ghost use Rattle.std.specs.Borrow.{sem};
ghost use Rattle.std.specs.List.{remove as without_index, filter};
ghost use Rattle.client_list.specs.Connected.{index_of, index_of_number, value_of, value_at, number_at, IsPosition, IsListed};
ghost use Rattle.client_list.specs.Connected.{IsPositionOf, passed};
ghost use Rattle.client_list.specs.declared.ConnectError.TheVariants.{NumberInUse, OutOfMemory};

mod links;

use links::{Node, add, set_next, set_previous};
use slab::Slab;
use std::alloc::{AllocError, Global};
use std::collections::HashMap;
use std::marker::Model;

/// The position of a viewer in the list. It stays the viewer's until that viewer is removed.
#[derive(Clone, Copy, Debug, PartialEq, Eq)]
pub struct Position {
    key: usize,
}

impl Model for Position {
    ghost use Rattle.std.specs.Prelude.{ℕ};

    ghost Value = { ℕ };

    ghost view = { λ a. a.key };

    ghost inverse = { λ key. record { key = key } };
}

/// Why `connect` takes in no viewer.
#[derive(Clone, Copy, Debug, PartialEq, Eq)]
pub enum ConnectError {
    /// A viewer has the number.
    NumberInUse,
    /// Memory was refused.
    OutOfMemory,
}

impl From<AllocError> for ConnectError {
    ghost from_gives = { λ _ e. e ≡ OutOfMemory };

    fn from(_error: AllocError) -> ConnectError {
        ConnectError::OutOfMemory
    }
}

/// No viewer has the number.
#[derive(Clone, Copy, Debug, PartialEq, Eq)]
pub struct NoViewer;

/// Values by number, in the order in which their numbers connected.
#[derive(Drop)]
pub struct Clients<T> {
    nodes: Slab<Node<T>>,
    first: Option<Position>,
    last: Option<Position>,
    by_number: HashMap<u64, Position>,
    // the position of the viewer that was found last, unless one came or left since: the next call for that viewer finds it there
    recent: Option<Position>,
}

impl<T> Model for Clients<T> {
    ghost use Rattle.client_list.specs.Connected.{Connected, connected_code};

    ghost Value = { Connected T };

    ghost coded = { connected_code T.code };

    ghost use Rattle.client_list.specs.Links.{linked, IsHeld, IsByNumber, IsRecent};

    ghost view = { λ a. linked a.nodes a.first };

    ghost invariant = { λ a. IsHeld a.nodes a.first a.last × IsByNumber a.by_number (linked a.nodes a.first)
        × IsRecent a.recent (linked a.nodes a.first) };
}

impl<T> Clients<T> {
    ghost use Rattle.client_list.specs.Lending.{lends_at, lends_number};

    /// Creates a list of no viewers. Takes no memory.
    pub fn new(alloc: Global) -> Self
        ensures pairs { result.pairs ≡ [] }
        ensures positions { result.positions ≡ [] }
    {
        Clients {
            nodes: Slab::new(alloc),
            first: None,
            last: None,
            by_number: HashMap::new(alloc),
            recent: None,
        }
    }

    /// Returns how many viewers there are.
    pub fn len(&self) -> usize
        ensures pairs { result ≡ length self.now.pairs }
        ensures positions { result ≡ length self.now.positions }
        ensures listed { IsListed self.now }
    {
        self.nodes.len()
    }

    /// Says whether there are no viewers.
    pub fn is_empty(&self) -> bool
        ensures { IsTrue result ↔ (self.now.pairs ≡ []) }
    {
        self.nodes.is_empty()
    }

    /// Returns the position of the viewer that connected first; `None` if there are no viewers.
    pub fn first(&self) -> Option<Position>
        ensures first { result ≡ slice_get self.now.positions 0 }
        ensures position { IfSome result (IsPosition self.now) }
        ensures passed { passed self.now result ≡ 0 }
        ensures listed { IsListed self.now }
    {
        self.first
    }

    /// Returns the position of the viewer that connected next after the one at `position`; `None` if that is the last.
    pub fn next(&self, position: Position) -> Option<Position>
        requires { IsPosition self.now position }
        ensures next { result ≡ slice_get self.now.positions (index_of self.now.positions position + 1) }
        ensures position { IfSome result (IsPosition self.now) }
        ensures passed { passed self.now result ≡ index_of self.now.positions position + 1 }
    {
        self.nodes[position.key].next
    }

    /// Returns the number of the viewer at `position`.
    pub fn number_at(&self, position: Position) -> u64
        requires { IsPosition self.now position }
        ensures { number_at self.now position ≡ Some result }
    {
        self.nodes[position.key].number
    }

    /// Returns the value of the viewer at `position`.
    pub fn at(&self, position: Position) -> &T
        requires { IsPosition self.now position }
        ensures { value_at self.now position ≡ Some result.now }
    {
        &self.nodes[position.key].value
    }

    /// Lends the value of the viewer at `position`, for writing. The other values stay, and so do all numbers, positions
    /// and their order.
    pub fn at_mut(&mut self, position: Position) -> &mut T
        requires { IsPosition self.old position }
        ensures* writes_back { sem 𝓛 (lends_at T.row self.entry position result) }
        ensures value { value_at self.old position ≡ Some result.now }
    {
        let node = &mut self.nodes[position.key];
        &mut node.value
    }

    /// Returns the viewers' numbers, in the order in which they connected. `AllocError` if memory is refused.
    pub fn numbers(&self, alloc: Global) -> Result<Vec<u64>, AllocError>
        ensures { IfOk result (λ numbers. numbers.items ≡ keys_of self.now.pairs) }
    {
        let mut numbers = Vec::with_capacity(alloc, self.len())?;
        let mut position = self.first();
        while let Some(at) = position {
            numbers.push(self.number_at(at))?;
            position = self.next(at);
        }
        Ok(numbers)
    }

    /// Returns the position of the viewer with `number`; `None` if no viewer has it. Takes one look-up, or none if that
    /// viewer was found last.
    pub fn position_of(&self, number: u64) -> Option<Position>
        ensures position { result ≡ slice_get self.now.positions (index_of_number self.now number) }
        ensures found { MatchOption result (value_of self.now number ≡ None) (IsPositionOf self.now number) }
        ensures listed { IsListed self.now }
    {
        match self.recent_of(number) {
            Some(position) => Some(position),
            None => self.looked_up(number),
        }
    }

    /// Says whether a viewer has `number`. Calls for it that follow need no further look-up.
    pub fn find(&mut self, number: u64) -> bool
        ensures found { result ≡ is_some (value_of self.old number) }
        ensures same { self.new ≡ self.old }
    {
        let Some(position) = self.position_of(number) else {
            return false;
        };
        self.recent = Some(position);
        true
    }

    /// Returns the position of the viewer that was found last, if that has `number`.
    fn recent_of(&self, number: u64) -> Option<Position>
        ensures found { IfSome result (IsPositionOf self.now number) }
        ensures listed { IsListed self.now }
    {
        let Some(position) = self.recent else {
            return None;
        };
        if self.number_at(position) == number {
            Some(position)
        } else {
            None
        }
    }

    /// Looks up the position of the viewer with `number` in the map; `None` if no viewer has it.
    fn looked_up(&self, number: u64) -> Option<Position>
        ensures position { result ≡ slice_get self.now.positions (index_of_number self.now number) }
        ensures found { MatchOption result (value_of self.now number ≡ None) (IsPositionOf self.now number) }
        ensures listed { IsListed self.now }
    {
        self.by_number.get(&number).copied()
    }

    /// Returns the value of the viewer with `number`; `None` if no viewer has it.
    pub fn get(&self, number: u64) -> Option<&T>
        ensures { option_copied result ≡ value_of self.now number }
    {
        match self.position_of(number) {
            Some(position) => Some(self.at(position)),
            None => None,
        }
    }

    /// Lends the value of the viewer with `number`, for writing; `None` if no viewer has it. The other values stay, and so
    /// do all numbers, positions and their order.
    pub fn get_mut(&mut self, number: u64) -> Option<&mut T>
        ensures* writes_back { sem 𝓛 (lends_number T.row self.entry number result) }
        ensures value { option_copied_mut result ≡ value_of self.old number }
    {
        match self.position_of(number) {
            Some(position) => {
                self.recent = Some(position);
                Some(self.at_mut(position))
            }
            None => None,
        }
    }

    /// Takes out the viewer with `number`, and returns its value; the others stay in their order, each at its position.
    /// `NoViewer` if no viewer has the number, and then nothing changes. Takes no memory.
    pub fn remove(&mut self, number: u64) -> Result<T, NoViewer>
        ensures value { MatchResult result (λ value. value_of self.old number ≡ Some value) (λ _. value_of self.old number ≡ None) }
        ensures pairs { OnOk result (self.new.pairs ≡ without_index self.old.pairs (index_of_number self.old number)) }
        ensures positions { OnOk result (self.new.positions ≡ without_index self.old.positions (index_of_number self.old number)) }
        ensures others { OnOk result (self.new.pairs ≡ filter (λ pair. not (pair.0 == number)) self.old.pairs) }
        ensures err { OnErr result (self.new ≡ self.old) }
    {
        self.recent = None;
        let Some(position) = self.by_number.remove(&number) else {
            return Err(NoViewer);
        };
        let node = self.nodes.remove(position.key);
        set_next(&mut self.nodes, &mut self.first, node.previous, node.next);
        set_previous(&mut self.nodes, &mut self.last, node.next, node.previous);
        Ok(node.value)
    }
}

impl<T: Drop> Clients<T> {
    /// Takes in a viewer with `number`, behind all others. `NumberInUse` if a viewer has the number, else `OutOfMemory` if
    /// the room is refused; either way drops the value, and changes nothing else.
    pub fn connect(&mut self, number: u64, value: T) -> Result<(), ConnectError>
        ensures pairs { OnOk result (self.new.pairs ≡ self.old.pairs ++ (number, value) ∷ []) }
        ensures positions { OnOk result ((position : ℕ) × (self.new.positions ≡ self.old.positions ++ position ∷ [])) }
        ensures refused { MatchOption (value_of self.old number) (IsOkUnless result OutOfMemory) (λ _. result ≡ Err NumberInUse) }
        ensures err { OnErr result (self.new ≡ self.old) }
    {
        if self.position_of(number).is_some() {
            return Err(ConnectError::NumberInUse);
        }
        self.recent = None;
        self.by_number.reserve(1)?;
        let position = add(&mut self.nodes, number, value, self.last)?;
        set_next(&mut self.nodes, &mut self.first, self.last, Some(position));
        self.last = Some(position);
        // The room for it was reserved.
        let inserted: Result<_, _> = self.by_number.insert(number, position);
        inserted.unwrap();
        Ok(())
    }
}
