//! Lists of spans of numbers in one arena: doubly linked lists whose nodes lie in a slab and whose links are keys of it, so
//! that a span comes in or goes out, and a list is freed, with no other span moved. A span may have a list of its own below
//! it. Contracts see each list as its spans' ids in order, each id's span, and how much more fits with no allocation.
//!
//! `nodes` has the nodes and changes their links.
#![tactic(auto)]

ghost use Rattle.std.specs.Prelude.{◌≡◌, ◌<◌, ◌≤◌, ◌+◌, ◌++◌, ◌∷◌, [], ℕ, List, None, Some, true, IsOk, IsSome, IfOk, OnOk, OnErr};
ghost use Rattle.std.specs.Prelude.{length, slice_get, if◌then◌else◌, ◌==◌};
ghost use Rattle.span_arena.specs.Arena.{list_of, ids_of, span_of, last_in, IsIn, IsSound, SetsList, SetsSpan, SpansGone};
ghost use Rattle.span_arena.specs.Arena.{SameLists, SameSpans};

mod nodes;

use nodes::{Node, cut, put, put_head};
use slab::Slab;
use std::alloc::{AllocError, Global};
use std::marker::Model;

/// The error of a call that is refused memory.
pub use std::alloc::AllocError as OutOfMemory;

/// The id of a list. It stays the list's until that list is freed.
#[derive(Clone, Copy, Debug, PartialEq, Eq)]
pub struct ListId {
    key: usize,
}

impl Model for ListId {
    ghost use Rattle.std.specs.Prelude.{ℕ};

    ghost Value = { ℕ };

    ghost view = { λ a. a.key };

    ghost inverse = { λ key. record { key = key } };
}

/// The id of a span in a list. It stays the span's until that span is removed or its list is freed.
#[derive(Clone, Copy, Debug, PartialEq, Eq)]
pub struct SpanId {
    key: usize,
}

impl Model for SpanId {
    ghost use Rattle.std.specs.Prelude.{ℕ};

    ghost Value = { ℕ };

    ghost view = { λ a. a.key };

    ghost inverse = { λ key. record { key = key } };
}

/// The numbers from `start` up to `stop`, and the list that belongs to them, if there is one.
#[derive(Clone, Copy, Debug, PartialEq, Eq)]
pub struct Span {
    pub start: i32,
    pub stop: i32,
    pub sub: Option<ListId>,
}

/// Lists of spans, and room for more.
#[derive(Drop)]
pub struct Spans {
    nodes: Slab<Node>,
}

impl Model for Spans {
    ghost use Rattle.span_arena.specs.Arena.{Arena};

    ghost Value = { Arena };

    ghost use Rattle.slab.specs.Slab.{get};
    ghost use Rattle.span_arena.specs.Links.{view_of, IsHeld};

    ghost view = { λ a. view_of a.nodes };

    ghost invariant = { λ a. IsHeld (get a.nodes) };
}

// Returns the id of the span that a link leads to; `None` if it leads to the list's head.
fn span_id(list: usize, key: usize) -> Option<SpanId>
    ensures { result ≡ (if key == list then None else Some key) }
{
    if key == list {
        return None;
    }
    Some(SpanId { key })
}

impl Spans {
    /// Makes an arena with no lists, and no room. Takes no memory.
    pub fn new(alloc: Global) -> Self
        ensures lists { result.lists ≡ [] }
        ensures spans { result.spans ≡ [] }
        ensures spare { result.spare ≡ 0 }
    {
        Spans {
            nodes: Slab::new(alloc),
        }
    }

    /// Copies the lists and spans under the same ids, into an arena of their own.
    pub fn try_clone(&self) -> Result<Self, AllocError>
        ensures lists { IfOk result (λ copy. copy.lists ≡ self.now.lists) }
        ensures spans { IfOk result (λ copy. copy.spans ≡ self.now.spans) }
    {
        Ok(Spans {
            nodes: self.nodes.clone()?,
        })
    }

    /// Says whether more than three quarters of the arena are room, so that a copy of it is much larger than its lists. No
    /// clause says which arenas these are, but that there is room.
    pub fn is_sparse(&self) -> bool
        ensures { result ≡ true → 0 < self.now.spare }
    {
        self.nodes.len() < self.nodes.capacity() / 4
    }

    /// Makes room for `more` lists and spans more, so that as many calls of `new_list`, `push_back` and `insert_before` take no
    /// memory. Changes no list and no span.
    pub fn reserve(&mut self, more: usize) -> Result<(), AllocError>
        ensures room { OnOk result (more ≤ self.new.spare) }
        ensures kept { self.old.spare ≤ self.new.spare }
        ensures same { self.new ≡ record self.old { spare = self.new.spare } }
    {
        self.nodes.reserve(more)
    }

    /// Makes a list with no spans.
    pub fn new_list(&mut self) -> Result<ListId, AllocError>
        ensures fresh { IfOk result (λ list. list_of self.old list ≡ None) }
        ensures lists { IfOk result (λ list. SetsList self.old self.new list (Some [])) }
        ensures spans { OnOk result (SameSpans self.old self.new) }
        ensures spare { self.old.spare ≤ self.new.spare + 1 }
        ensures succeeds { 0 < self.old.spare → IsOk result }
        ensures err { OnErr result (self.new ≡ record self.old { spare = self.new.spare }) }
        ensures kept { OnErr result (self.old.spare ≤ self.new.spare) }
    {
        self.nodes.reserve(1)?;
        Ok(ListId {
            key: put_head(&mut self.nodes),
        })
    }

    /// Appends `span` to `list`.
    pub fn push_back(&mut self, list: ListId, span: Span) -> Result<SpanId, AllocError>
        requires { IsSome (list_of self.old list) }
        ensures fresh { IfOk result (λ at. span_of self.old at ≡ None) }
        ensures lists { IfOk result (λ at. SetsList self.old self.new list (Some (ids_of self.old list ++ at ∷ []))) }
        ensures spans { IfOk result (λ at. SetsSpan self.old self.new at (Some span)) }
        ensures spare { self.old.spare ≤ self.new.spare + 1 }
        ensures succeeds { 0 < self.old.spare → IsOk result }
        ensures err { OnErr result (self.new ≡ record self.old { spare = self.new.spare }) }
        ensures kept { OnErr result (self.old.spare ≤ self.new.spare) }
    {
        self.nodes.reserve(1)?;
        Ok(SpanId {
            key: put(&mut self.nodes, list.key, list.key, span),
        })
    }

    /// Puts `span` into `list`, before the span `at`.
    pub fn insert_before(
        &mut self,
        list: ListId,
        at: SpanId,
        span: Span,
    ) -> Result<SpanId, AllocError>
        requires { IsIn self.old list at }
        ensures fresh { IfOk result (λ new. span_of self.old new ≡ None) }
        ensures lists { IfOk result (λ new. (front back : List ℕ) → list_of self.old list ≡ Some (front ++ at ∷ back) →
            SetsList self.old self.new list (Some (front ++ new ∷ at ∷ back))) }
        ensures spans { IfOk result (λ new. SetsSpan self.old self.new new (Some span)) }
        ensures spare { self.old.spare ≤ self.new.spare + 1 }
        ensures succeeds { 0 < self.old.spare → IsOk result }
        ensures err { OnErr result (self.new ≡ record self.old { spare = self.new.spare }) }
        ensures kept { OnErr result (self.old.spare ≤ self.new.spare) }
    {
        self.nodes.reserve(1)?;
        Ok(SpanId {
            key: put(&mut self.nodes, list.key, at.key, span),
        })
    }

    /// Removes the span `at` from `list`, and gives its room back. Takes no memory.
    pub fn remove(&mut self, list: ListId, at: SpanId) -> Span
        requires { IsIn self.old list at }
        ensures span { span_of self.old at ≡ Some result }
        ensures lists { (front back : List ℕ) → list_of self.old list ≡ Some (front ++ at ∷ back) →
            SetsList self.old self.new list (Some (front ++ back)) }
        ensures spans { SetsSpan self.old self.new at None }
        ensures spare { self.new.spare ≡ self.old.spare + 1 }
    {
        cut(&mut self.nodes, at.key)
    }

    /// Returns the span with the id `at`.
    pub fn get(&self, at: SpanId) -> Span
        requires { IsSome (span_of self.now at) }
        ensures { span_of self.now at ≡ Some result }
    {
        self.nodes[at.key].span
    }

    /// Replaces the span with the id `at` by `span`. Changes no list.
    pub fn set(&mut self, at: SpanId, span: Span)
        requires { IsSome (span_of self.old at) }
        ensures spans { SetsSpan self.old self.new at (Some span) }
        ensures lists { SameLists self.old self.new }
        ensures spare { self.new.spare ≡ self.old.spare }
    {
        self.nodes[at.key].span = span;
    }

    /// Returns the first span of `list`; `None` if it has none.
    pub fn first(&self, list: ListId) -> Option<SpanId>
        requires { IsSome (list_of self.now list) }
        ensures { result ≡ slice_get (ids_of self.now list) 0 }
    {
        span_id(list.key, self.nodes[list.key].next)
    }

    /// Returns the last span of `list`; `None` if it has none.
    pub fn last(&self, list: ListId) -> Option<SpanId>
        requires { IsSome (list_of self.now list) }
        ensures { result ≡ last_in (ids_of self.now list) }
    {
        span_id(list.key, self.nodes[list.key].previous)
    }

    /// Returns the span behind the span `at` in its list; `None` behind the last.
    pub fn next(&self, at: SpanId) -> Option<SpanId>
        requires { IsSome (span_of self.now at) }
        ensures { (list : ℕ) (front back : List ℕ) → list_of self.now list ≡ Some (front ++ at ∷ back) → result ≡ slice_get back 0 }
    {
        let node = self.nodes[at.key];
        span_id(node.list, node.next)
    }

    /// Returns the span before the span `at` in its list; `None` before the first.
    pub fn prev(&self, at: SpanId) -> Option<SpanId>
        requires { IsSome (span_of self.now at) }
        ensures { (list : ℕ) (front back : List ℕ) → list_of self.now list ≡ Some (front ++ at ∷ back) → result ≡ last_in front }
    {
        let node = self.nodes[at.key];
        span_id(node.list, node.previous)
    }

    /// Frees `list` and its spans, and gives their room back. Lists below its spans stay, so the caller frees them before.
    /// Takes no memory.
    pub fn free_list(&mut self, list: ListId)
        requires { IsSome (list_of self.old list) }
        ensures lists { SetsList self.old self.new list None }
        ensures spans { SpansGone self.old self.new (ids_of self.old list) }
        ensures spare { self.new.spare ≡ self.old.spare + length (ids_of self.old list) + 1 }
    {
        while let Some(at) = self.first(list) {
            self.remove(list, at);
        }
        self.drop_head(list);
    }

    /// States a law: each id in a list is a span's, and is in that list alone, and there once; and each span's id is in a list.
    pub fn lists_are_sound(&self)
        ensures { IsSound self.now }
    {
        let _ = self.nodes.len();
    }

    // Frees `list`, which has no spans.
    fn drop_head(&mut self, list: ListId)
        requires { list_of self.old list ≡ Some [] }
        ensures lists { SetsList self.old self.new list None }
        ensures spans { SameSpans self.old self.new }
        ensures spare { self.new.spare ≡ self.old.spare + 1 }
    {
        self.nodes.remove(list.key);
    }
}
