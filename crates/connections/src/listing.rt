//! Which connections are to be looked at.

ghost use Rattle.std.specs.Prelude.{◌≡◌, ℕ, ◌<◌, ◌⊎◌, Some, None, ◌≢◌, true, false, IfSome, OnOk, length, slice_index_or};
ghost use Rattle.key_set.specs.Among.{is_among};
ghost use Rattle.connections.specs.Serving.{at_key, number_at, may_ask_at, may_cut_at, works_at};

use connection::{Connection, Transport};
use key_set::KeySet;
use slab::Slab;
use std::alloc::AllocError;

/// Returns whether something can be done at once for the connection that has the key.
fn has_work<T: Transport>(connections: &Slab<Connection<T>>, key: usize) -> bool
    ensures { result ≡ works_at connections.now.slots key }
{
    match connections.get(key) {
        Some(connection) => connection.has_work(),
        None => false,
    }
}

/// Returns whether a request of the viewer that has the key may be unanswered.
fn may_ask<T: Transport>(connections: &Slab<Connection<T>>, key: usize) -> bool
    ensures { result ≡ may_ask_at connections.now.slots key }
{
    match connections.get(key) {
        Some(connection) => connection.may_ask(),
        None => false,
    }
}

/// Returns the key of the viewer with a number, if it is connected.
pub(crate) fn key_of<T: Transport>(connections: &Slab<Connection<T>>, viewer: u64) -> Option<usize>
    ensures found { IfSome result (λ key. number_at connections.now.slots key ≡ Some viewer) }
    ensures none { result ≡ None → (key : ℕ) → number_at connections.now.slots key ≢ Some viewer }
{
    for (key, connection) in connections {
        if connection.number() == viewer {
            return Some(key);
        }
    }
    None
}

/// Puts the keys of all connections on the agenda.
pub(crate) fn list_keys<T: Transport>(
    connections: &Slab<Connection<T>>,
    agenda: &mut KeySet,
) -> Result<(), AllocError>
    ensures listed { OnOk result ((key : ℕ) → may_cut_at connections.now.slots key ≡ false → is_among key agenda.new.list ≡ true) }
    ensures more { (key : ℕ) → is_among key agenda.old.list ≡ true → is_among key agenda.new.list ≡ true }
{
    for (key, _connection) in connections {
        agenda.insert(key)?;
    }
    Ok(())
}

/// Lists in `kept` those of `asking` that may still have a request open, and puts these on the agenda.
pub(crate) fn keep_asking<T: Transport>(
    connections: &Slab<Connection<T>>,
    asking: &KeySet,
    agenda: &mut KeySet,
    kept: &mut KeySet,
) -> Result<(), AllocError>
    ensures kept { OnOk result ((key : ℕ) → may_ask_at connections.now.slots key ≡ true → is_among key asking.now.list ≡ true → is_among key kept.new.list ≡ true) }
    ensures listed { OnOk result ((key : ℕ) → is_among key kept.new.list ≡ true → is_among key agenda.new.list ≡ true) }
    ensures more { (key : ℕ) → is_among key agenda.old.list ≡ true → is_among key agenda.new.list ≡ true }
{
    kept.clear();
    for index in 0..asking.len() {
        if let Some(key) = asking.get(index)
            && may_ask(connections, key)
        {
            agenda.insert(key)?;
            kept.insert(key)?;
        }
    }
    Ok(())
}

/// Lists in `kept`, in order, those of the agenda with work left, and none else; `last` comes at the end.
pub(crate) fn keep_busy<T: Transport>(
    connections: &Slab<Connection<T>>,
    agenda: &KeySet,
    last: Option<usize>,
    kept: &mut KeySet,
) -> Result<(), AllocError>
    ensures all { OnOk result ((key : ℕ) → works_at connections.now.slots key ≡ true → is_among key agenda.now.list ≡ true → is_among key kept.new.list ≡ true) }
    ensures work { (key : ℕ) → is_among key kept.new.list ≡ true → works_at connections.now.slots key ≡ true }
{
    kept.clear();
    for key in agenda.as_slice() {
        keep_unless_last(connections, *key, last, kept)?;
    }
    if let Some(key) = last {
        keep_if_busy(connections, key, kept)?;
    }
    Ok(())
}

/// Keeps a key whose connection has work left, unless it is the one that comes last.
fn keep_unless_last<T: Transport>(
    connections: &Slab<Connection<T>>,
    key: usize,
    last: Option<usize>,
    kept: &mut KeySet,
) -> Result<(), AllocError>
    ensures kept { OnOk result (works_at connections.now.slots key ≡ true → (last ≡ Some key) ⊎ (is_among key kept.new.list ≡ true)) }
    ensures more { (k : ℕ) → is_among k kept.old.list ≡ true → is_among k kept.new.list ≡ true }
    ensures work { (k : ℕ) → is_among k kept.new.list ≡ true → (is_among k kept.old.list ≡ true) ⊎ (works_at connections.now.slots k ≡ true) }
{
    match last {
        Some(other) if other == key => Ok(()),
        _ => keep_if_busy(connections, key, kept),
    }
}

/// Keeps a key whose connection has work left.
fn keep_if_busy<T: Transport>(
    connections: &Slab<Connection<T>>,
    key: usize,
    kept: &mut KeySet,
) -> Result<(), AllocError>
    ensures kept { OnOk result (works_at connections.now.slots key ≡ true → is_among key kept.new.list ≡ true) }
    ensures more { (k : ℕ) → is_among k kept.old.list ≡ true → is_among k kept.new.list ≡ true }
    ensures work { (k : ℕ) → is_among k kept.new.list ≡ true → (is_among k kept.old.list ≡ true) ⊎ (works_at connections.now.slots k ≡ true) }
{
    if !has_work(connections, key) {
        return Ok(());
    }
    kept.insert(key)
}
