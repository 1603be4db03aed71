//! An update on its way to a viewer, apart from its desk.

ghost use Rattle.std.specs.Prelude.{◌≡◌, ◌++◌, ◌≤◌, ◌^◌, ◌⊎◌, [], List, ℕ, IfOk, OnErr, drop, length, not};
ghost use Rattle.screen.specs.Alone.{some_bytes};
ghost use Rattle.c_screen.specs.Codes as code;
ghost use Rattle.c_screen.specs.Calls.{GivesHeld};

use crate::codes::count_or;
use crate::output::Output;
use std::alloc::AllocError;
use std::marker::Model;

/// An update that was cut for a viewer, or nothing. It is encoded as it is fetched, and has nothing in common with its desk: a thread may
/// fetch it while another calls the desk. Contracts see the bytes that are still to come.
#[derive(Drop)]
pub struct DeskUpdate {
    output: Option<Output>,
}

impl Model for DeskUpdate {
    ghost use Rattle.std.specs.Prelude.{ℕ, List};
    ghost use Rattle.c_screen.specs.Desk.{held_in};

    ghost Value = { List ℕ };

    ghost view = { λ a. held_in a.output };
}

impl DeskUpdate {
    /// Returns an update that holds nothing. Takes no memory.
    pub fn new() -> DeskUpdate
        ensures { result ≡ [] }
    {
        DeskUpdate { output: None }
    }

    /// Returns whether nothing is left of it.
    pub(crate) fn is_fetched(&self) -> bool
        ensures { result ≡ not (some_bytes self.now) }
    {
        match &self.output {
            Some(output) => output.is_ended(),
            None => true,
        }
    }

    /// Replaces what it holds by `output`.
    pub(crate) fn put(&mut self, output: Output)
        ensures { self.new ≡ output.1 }
    {
        self.output = Some(output);
    }

    /// Fetches the next bytes into the start of `room`, as many as are made and fit; the rest of `room` stays. Returns how many. After an
    /// `AllocError` nothing was fetched.
    fn fetch(&mut self, room: &mut [u8]) -> Result<usize, AllocError>
        ensures given { IfOk result (λ count. (bytes : List ℕ) × (length bytes ≡ count) × (bytes ++ self.new ≡ self.old) ×
            (room.new ≡ bytes ++ drop count room.old)) }
        ensures some { IfOk result (λ count. count ≡ 0 → (room.old ≡ []) ⊎ (self.old ≡ [])) }
        ensures few { IfOk result (λ count. count ≤ 2 ^ 30) }
        ensures err { OnErr result ((self.new ≡ self.old) × (room.new ≡ room.old)) }
    {
        let Some(output) = &mut self.output else {
            return Ok(0);
        };
        let count = output.fetch(room)?;
        if output.is_ended() {
            self.output = None;
        }
        Ok(count)
    }

    /// Fetches the next bytes into the start of `room`, as many as are made and fit; the rest of `room` stays. Returns how many, and 0
    /// where nothing is left or `room` has no place; or the code of `OutOfMemory`.
    pub fn output(&mut self, room: &mut [u8]) -> i32
        ensures { GivesHeld self.old self.new room.old room.new result }
    {
        count_or(self.fetch(room))
    }

    /// Drops what it holds, and returns 0.
    pub fn clear(&mut self) -> i32
        ensures { (self.new ≡ []) × (result ≡ code.done) }
    {
        self.output = None;
        0
    }
}
