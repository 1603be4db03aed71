//! The nodes of the lists, each the head of a list or a span in one, and what changes their links.

ghost use Rattle.std.specs.Prelude.{◌≡◌, ◌+◌, ℕ};
ghost use Rattle.slab.specs.Slab.{get, slab_len, ContainsKey, HasRoomFor};
ghost use Rattle.span_arena.specs.Links.{NextSet, PreviousSet, IsPut, IsCut, HeadPut, IsLinked, IsBetween, value_in};

use crate::Span;
use slab::Slab;

/// A head, which stands under the key of its own list, or a span of the list. The links lead from the head through the list's
/// spans and to the head again.
#[derive(Clone, Copy)]
pub struct Node {
    pub list: usize,
    pub previous: usize,
    pub next: usize,
    pub span: Span,
}

/// Sets the link that leads on from the node `at` to `next`.
pub fn set_next(nodes: &mut Slab<Node>, at: usize, next: usize)
    requires { ContainsKey nodes.old at }
    ensures set { NextSet (get nodes.old) (get nodes.new) at next }
    ensures len { slab_len nodes.new ≡ slab_len nodes.old }
    ensures capacity { nodes.new.capacity ≡ nodes.old.capacity }
{
    nodes[at].next = next;
}

/// Sets the link that leads back from the node `at` to `previous`.
pub fn set_previous(nodes: &mut Slab<Node>, at: usize, previous: usize)
    requires { ContainsKey nodes.old at }
    ensures set { PreviousSet (get nodes.old) (get nodes.new) at previous }
    ensures len { slab_len nodes.new ≡ slab_len nodes.old }
    ensures capacity { nodes.new.capacity ≡ nodes.old.capacity }
{
    nodes[at].previous = previous;
}

/// Inserts the head of a list that has no spans, in room that was made.
pub fn put_head(nodes: &mut Slab<Node>) -> usize
    requires { HasRoomFor nodes.old 1 }
    ensures put { HeadPut (get nodes.old) (get nodes.new) result }
    ensures len { slab_len nodes.new ≡ slab_len nodes.old + 1 }
    ensures capacity { nodes.new.capacity ≡ nodes.old.capacity }
{
    let list = nodes.vacant_key();
    let head = Node {
        list,
        previous: list,
        next: list,
        span: Span {
            start: 0,
            stop: 0,
            sub: None,
        },
    };
    nodes.insert_reserved(head)
}

/// Inserts `span` before the node `at` of its list, in room that was made.
pub fn put(nodes: &mut Slab<Node>, list: usize, at: usize, span: Span) -> usize
    requires room { HasRoomFor nodes.old 1 }
    requires linked { (before : ℕ) × IsLinked (get nodes.old) before at }
    ensures put { (before : ℕ) → IsLinked (get nodes.old) before at →
        IsPut (get nodes.old) (get nodes.new) list before at result span }
    ensures len { slab_len nodes.new ≡ slab_len nodes.old + 1 }
    ensures capacity { nodes.new.capacity ≡ nodes.old.capacity }
{
    let previous = nodes[at].previous;
    let node = Node {
        list,
        previous,
        next: at,
        span,
    };
    let key = nodes.insert_reserved(node);
    set_next(nodes, previous, key);
    set_previous(nodes, at, key);
    key
}

/// Removes a span from between its neighbours.
pub fn cut(nodes: &mut Slab<Node>, at: usize) -> Span
    requires { (before : ℕ) × (after : ℕ) × IsBetween (get nodes.old) before at after }
    ensures span { value_in (get nodes.old) at ≡ Some result }
    ensures cut { (before after : ℕ) → IsBetween (get nodes.old) before at after →
        IsCut (get nodes.old) (get nodes.new) before after at }
    ensures len { slab_len nodes.new + 1 ≡ slab_len nodes.old }
    ensures room { HasRoomFor nodes.new 1 }
    ensures capacity { nodes.new.capacity ≡ nodes.old.capacity }
{
    let node = nodes.remove(at);
    set_next(nodes, node.previous, node.next);
    set_previous(nodes, node.next, node.previous);
    node.span
}
