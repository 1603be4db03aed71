//! The nodes of the list, and what changes one link.

ghost use Rattle.std.specs.Prelude.{◌≡◌, ◌+◌, None, Some, IfSome, MatchOption, IfOk, OnOk, OnErr, IsOkUnless};
ghost use Rattle.slab.specs.Slab.{get, slab_len, ContainsKey, Updates, SameValues};
ghost use Rattle.client_list.specs.Links.{node_of, NextChanged, PreviousChanged};
ghost use Rattle.client_list.specs.declared.ConnectError.TheVariants.{OutOfMemory};

use crate::{ConnectError, Position};
use slab::Slab;

/// A viewer: its number and value, and the positions of the viewers before and behind it.
#[derive(Drop)]
pub struct Node<T> {
    pub number: u64,
    pub value: T,
    pub previous: Option<Position>,
    pub next: Option<Position>,
}

/// Links the viewer at `position` to `next` behind it; makes `next` the first if `position` is `None`.
pub fn set_next<T>(
    nodes: &mut Slab<Node<T>>,
    first: &mut Option<Position>,
    position: Option<Position>,
    next: Option<Position>,
)
    requires { IfSome position (ContainsKey nodes.old) }
    ensures changed { NextChanged nodes.old nodes.new first.old first.new position next }
    ensures len { slab_len nodes.new ≡ slab_len nodes.old }
{
    match position {
        Some(position) => nodes[position.key].next = next,
        None => *first = next,
    }
}

/// Links the viewer at `position` to `previous` before it; makes `previous` the last if `position` is `None`.
pub fn set_previous<T>(
    nodes: &mut Slab<Node<T>>,
    last: &mut Option<Position>,
    position: Option<Position>,
    previous: Option<Position>,
)
    requires { IfSome position (ContainsKey nodes.old) }
    ensures changed { PreviousChanged nodes.old nodes.new last.old last.new position previous }
    ensures len { slab_len nodes.new ≡ slab_len nodes.old }
{
    match position {
        Some(position) => nodes[position.key].previous = previous,
        None => *last = previous,
    }
}

/// Inserts a node that leads back to `previous` and on to none; no link leads to it yet. `OutOfMemory` if the room is
/// refused; then drops the value, and no node changes.
pub fn add<T: Drop>(
    nodes: &mut Slab<Node<T>>,
    number: u64,
    value: T,
    previous: Option<Position>,
) -> Result<Position, ConnectError>
    ensures was_vacant { IfOk result (λ position. get nodes.old position ≡ None) }
    ensures updates { IfOk result (λ position.
        Updates nodes.old nodes.new position (Some (node_of (number, value) previous None))) }
    ensures len { OnOk result (slab_len nodes.new ≡ slab_len nodes.old + 1) }
    ensures refused { IsOkUnless result OutOfMemory }
    ensures values { OnErr result (SameValues nodes.old nodes.new) }
    ensures len_kept { OnErr result (slab_len nodes.new ≡ slab_len nodes.old) }
{
    let node = Node {
        number,
        value,
        previous,
        next: None,
    };
    match nodes.insert(node) {
        Ok(key) => Ok(Position { key }),
        Err(_) => Err(ConnectError::OutOfMemory),
    }
}
