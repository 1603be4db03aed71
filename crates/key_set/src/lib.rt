//! A set of small numbers, as the keys of a slab are, in the order in which they came. Whether one is there is known at once, and who holds
//! room for the greatest key puts each in without memory.
#![tactic(auto)]

ghost use Rattle.std.specs.Prelude.{◌≡◌, ◌<◌, ◌≤◌, ◌++◌, ◌∷◌, [], ℕ, ◌==◌, true, false, None, Some, OnOk, OnErr, IfSome, ◌⊎◌, length, slice_index_or};
ghost use Rattle.key_set.specs.Among.{is_among, with_key, without_key, IsFlagged, HasRoom};

use std::alloc::{AllocError, Global};
use std::marker::Model;

/// Keys in the order in which they came. Whether one is among them is known at once.
#[derive(Drop)]
pub struct KeySet {
    keys: Vec<usize>,
    // by key: it is among them
    flags: Vec<bool>,
}

impl Model for KeySet {
    ghost use Rattle.std.specs.Prelude.{length};
    ghost use Rattle.std.specs.Vec.{vec_capacity};
    ghost use Rattle.key_set.specs.Among.{Keys, IsFlagged};

    ghost Value = { Keys };

    ghost view = { λ a. record { list = a.keys.items; room = vec_capacity a.keys; top = length a.flags.items } };

    ghost invariant = { λ a. IsFlagged a.flags.items a.keys.items };
}

/// Lowers the flag of a key, if it has one.
fn lower(flags: &mut Vec<bool>, key: usize)
    ensures lowered { slice_index_or flags.new.items key false ≡ false }
    ensures length { length flags.new.items ≡ length flags.old.items }
    ensures others { (k : ℕ) → (k == key) ≡ false → slice_index_or flags.new.items k false ≡ slice_index_or flags.old.items k false }
{
    if let Some(flag) = flags.get_mut(key) {
        *flag = false;
    }
}

/// Raises the flag of a key, if it has one.
fn raise(flags: &mut Vec<bool>, key: usize)
    ensures raised { key < length flags.old.items → slice_index_or flags.new.items key false ≡ true }
    ensures length { length flags.new.items ≡ length flags.old.items }
    ensures others { (k : ℕ) → (k == key) ≡ false → slice_index_or flags.new.items k false ≡ slice_index_or flags.old.items k false }
{
    if let Some(flag) = flags.get_mut(key) {
        *flag = true;
    }
}

/// Makes the flags at least `count`; further ones are down.
#[tactic(auto, using(crate::proofs::Among::down_behind))]
fn lengthen(flags: &mut Vec<bool>, count: usize) -> Result<(), AllocError>
    ensures same { (k : ℕ) → slice_index_or flags.new.items k false ≡ slice_index_or flags.old.items k false }
    ensures long { OnOk result (count ≤ length flags.new.items) }
    ensures no_shorter { length flags.old.items ≤ length flags.new.items }
{
    if count > flags.len() {
        flags.resize(count, false)?;
    }
    Ok(())
}

/// Returns the index of a key, if it is there.
fn index_of(keys: &[usize], key: usize) -> Option<usize>
    ensures found { IfSome result (λ index. (index < length keys.now) × (slice_index_or keys.now index 0 ≡ key)) }
    ensures none { result ≡ None → is_among key keys.now ≡ false }
{
    for (index, other) in keys.iter().enumerate() {
        if *other == key {
            return Some(index);
        }
    }
    None
}

/// Takes out all keys, and lowers their flags.
#[tactic(auto, using(crate::proofs::Among::flagged_popped))]
fn take_all(flags: &mut Vec<bool>, keys: &mut Vec<usize>)
    requires { IsFlagged flags.old.items keys.old.items }
    ensures keys { keys.new.items ≡ [] }
    ensures flags { IsFlagged flags.new.items [] }
{
    while let Some(key) = keys.pop() {
        lower(flags, key);
    }
}

impl KeySet {
    /// Returns a set of no keys, which holds no memory.
    pub fn new(alloc: Global) -> KeySet
        ensures { result.list ≡ [] }
    {
        KeySet {
            keys: Vec::new(alloc),
            flags: Vec::new(alloc),
        }
    }

    /// Returns how many there are.
    pub fn len(&self) -> usize
        ensures { result ≡ length self.now.list }
    {
        self.keys.len()
    }

    /// Returns whether there are none.
    pub fn is_empty(&self) -> bool
        ensures { result ≡ (length self.now.list == 0) }
    {
        self.keys.is_empty()
    }

    /// Returns the key at an index; None behind the last.
    #[tactic(auto, using(crate::proofs::Among::among_at))]
    pub fn get(&self, index: usize) -> Option<usize>
        ensures value { index < length self.now.list → result ≡ Some (slice_index_or self.now.list index 0) }
        ensures there { IfSome result (λ key. is_among key self.now.list ≡ true) }
    {
        self.keys.get(index).copied()
    }

    /// Returns all of them.
    pub fn as_slice(&self) -> &[usize]
        ensures { result.now ≡ self.now.list }
    {
        self.keys.as_slice()
    }

    /// Returns whether a key is among them.
    pub fn contains(&self, key: usize) -> bool
        ensures { result ≡ is_among key self.now.list }
    {
        match self.flags.get(key) {
            Some(flag) => *flag,
            None => false,
        }
    }

    /// Reserves memory for any key up to `key`: for one more, and for all of them where no greater one is there. `AllocError` where memory
    /// is refused, or `key` is `usize::MAX`.
    #[tactic(auto, using(crate::proofs::Among::flagged_same))]
    pub fn make_room(&mut self, key: usize) -> Result<(), AllocError>
        ensures room { OnOk result ((k : ℕ) → k ≤ key → HasRoom k self.new) }
        ensures same { self.new.list ≡ self.old.list }
    {
        let count = key.checked_add(1).ok_or(AllocError)?;
        lengthen(&mut self.flags, count)?;
        self.keys
            .reserve(count.saturating_sub(self.keys.len()).max(1))
    }

    /// Inserts a key at the end, unless it is there.
    pub fn insert(&mut self, key: usize) -> Result<(), AllocError>
        ensures ok { OnOk result (self.new.list ≡ with_key key self.old.list) }
        ensures err { OnErr result (self.new.list ≡ self.old.list) }
        ensures there { OnOk result (is_among key self.new.list ≡ true) }
        ensures came { OnOk result ((self.new.list ≡ self.old.list) ⊎ (self.new.list ≡ self.old.list ++ key ∷ [])) }
        ensures kept { (k : ℕ) → is_among k self.old.list ≡ true → is_among k self.new.list ≡ true }
    {
        if self.contains(key) {
            return Ok(());
        }
        self.make_room(key)?;
        self.insert_reserved(key);
        Ok(())
    }

    /// Does the same, where memory was reserved.
    pub fn insert_reserved(&mut self, key: usize)
        requires { HasRoom key self.old }
        ensures with { self.new.list ≡ with_key key self.old.list }
        ensures there { is_among key self.new.list ≡ true }
        ensures came { (self.new.list ≡ self.old.list) ⊎ (self.new.list ≡ self.old.list ++ key ∷ []) }
        ensures kept { (k : ℕ) → is_among k self.old.list ≡ true → is_among k self.new.list ≡ true }
    {
        if !self.contains(key) {
            self.keys.push_reserved(key);
            raise(&mut self.flags, key);
        }
    }

    /// Removes a key, if it is there; the others stay, in their order.
    #[tactic(auto, using(crate::proofs::Among::removed_once, crate::proofs::Among::without_none))]
    pub fn remove(&mut self, key: usize)
        ensures without { self.new.list ≡ without_key key self.old.list }
        ensures others { (k : ℕ) → (k == key) ≡ false → is_among k self.old.list ≡ true → is_among k self.new.list ≡ true }
    {
        if let Some(index) = index_of(&self.keys, key) {
            self.keys.remove(index);
            lower(&mut self.flags, key);
        }
    }

    /// Removes all keys.
    pub fn clear(&mut self)
        ensures { self.new.list ≡ [] }
    {
        take_all(&mut self.flags, &mut self.keys);
    }
}
