//! A list that is kept only where it is asked for, as a history: the events of a screen, the calls of a brush, the bytes that a viewer
//! was sent. Its room is made before what it notes has happened, so that noting it can't fail.
#![tactic(auto)]

ghost use Rattle.std.specs.Prelude.{◌≡◌, ◌≤◌, ◌+◌, true, Some, None, ◌∷◌, ◌++◌, [], length, is_some, option_map, unwrap_or, vec_len, vec_capacity, IfOk, OnOk};
ghost use Rattle.kept_list.specs.Kept.{HasRoom};

use listed::Listed;
use std::alloc::{AllocError, Global};
use std::marker::Model;

/// A list that may not be kept, and room for more of it.
#[derive(Drop)]
pub struct KeptList<T> {
    alloc: Global,
    items: Option<Vec<T>>,
}

impl<T> Model for KeptList<T> {
    ghost use Rattle.kept_list.specs.Kept.{KeptItems, kept_code, kept_by};

    ghost Value = { KeptItems T };

    ghost coded = { kept_code T.code };

    ghost view = { λ a. kept_by a.items };
}

impl<T> KeptList<T> {
    /// Makes a list that is kept, of nothing yet. Takes no memory.
    pub fn new(alloc: Global) -> Self
        ensures { result.items ≡ Some [] }
    {
        KeptList {
            alloc,
            items: Some(Vec::new(alloc)),
        }
    }

    /// Makes a list that isn't kept. Takes no memory.
    pub fn none(alloc: Global) -> Self
        ensures { result.items ≡ None }
    {
        KeptList { alloc, items: None }
    }

    /// Says whether the list is kept.
    pub fn is_kept(&self) -> bool
        ensures { result ≡ is_some self.now.items }
    {
        self.items.is_some()
    }

    /// Returns all of the list; `None` if it isn't kept.
    pub fn as_slice(&self) -> Option<&[T]>
        ensures { option_map (λ items. items.now) result ≡ self.now.items }
    {
        match &self.items {
            Some(items) => Some(items.as_slice()),
            None => None,
        }
    }

    /// Makes room for `more` elements, if the list is kept. `AllocError` if the room is refused. The elements stay the same.
    pub fn reserve(&mut self, more: usize) -> Result<(), AllocError>
        ensures same { self.new.items ≡ self.old.items }
        ensures room { OnOk result (HasRoom more self.new) }
    {
        match &mut self.items {
            Some(items) => items.reserve(more),
            None => Ok(()),
        }
    }

    /// Copies `parts`, what an element holds, as a list of its own; returns an empty list if this one isn't kept.
    pub fn copy_of<U: Copy>(&self, parts: &[U]) -> Result<Listed<U>, AllocError>
        ensures { is_some self.now.items ≡ true → IfOk result (λ copy. copy ≡ parts.now) }
    {
        if self.is_kept() {
            Listed::from_slice(self.alloc, parts)
        } else {
            Ok(Listed::new(self.alloc))
        }
    }

    /// Returns all of the list; an empty one if it isn't kept. Takes no memory.
    pub fn into_listed(self) -> Listed<T>
        ensures { result ≡ unwrap_or self.items [] }
    {
        match self.items {
            Some(items) => Listed::from_vec(items),
            None => Listed::new(self.alloc),
        }
    }

    /// Returns the allocator that the list was made with.
    pub fn allocator(&self) -> Global {
        self.alloc
    }
}

impl<T: Drop> KeptList<T> {
    /// Appends `item`, in room that was made; drops it if the list isn't kept.
    pub fn push(&mut self, item: T)
        requires room { HasRoom 1 self.old }
        ensures { self.new.items ≡ option_map (λ items. items ++ item ∷ []) self.old.items }
    {
        if let Some(items) = &mut self.items {
            items.push_reserved(item);
        }
    }
}

/// Appends copies of `more` to a vector, in room that was made.
fn append_reserved<T: Copy>(items: &mut Vec<T>, more: &[T])
    requires room { vec_len items.old + length more.now ≤ vec_capacity items.old }
    ensures { items.new.items ≡ items.old.items ++ more.now }
{
    for element in more {
        items.push_reserved(*element);
    }
}

impl<T: Copy> KeptList<T> {
    /// Appends copies of `more`, in room that was made; does nothing if the list isn't kept.
    pub fn append(&mut self, more: &[T])
        requires room { HasRoom (length more.now) self.old }
        ensures { self.new.items ≡ option_map (λ items. items ++ more.now) self.old.items }
    {
        if let Some(items) = &mut self.items {
            append_reserved(items, more);
        }
    }
}
