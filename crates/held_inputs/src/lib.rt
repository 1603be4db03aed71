//! Which keys and buttons a viewer holds down, as its inputs tell (RFC 6143, 7.5.4 and 7.5.5), and how they are let go in order:
//! where an input was lost, or a viewer left, an application would else take them to be down for ever.
//!
//! ```
//! let mut held = HeldInputs::new();
//! held.change(Change::of(&Input::Key { down: true, key: 0xffe3 }));
//! held.owed(&held.let_go()) // Some(Input::Key { down: false, key: 0xffe3 })
//! ```
#![tactic(auto)]

ghost use Rattle.std.specs.Prelude.{◌≡◌, ◌==◌, None};
ghost use Rattle.std.specs.List.{position};
ghost use Rattle.held_inputs.specs.Held.{change_of, changed, is_among, let_go, lifted, missing, nothing, owed, owed_buttons, pressed, room_release, roomy, HoldsNoMore};

use arrayvec::ArrayVec;
use messages::Input;
use std::marker::Model;

/// How many keys are known as down, at most. So that one more can go down, the earliest is let go (`HeldInputs::let_earliest_go`). No more
/// can go down by the inputs of 4,096 bytes.
pub const KEYS: usize = 512;

/// What an input changes in what its viewer holds.
#[derive(Clone, Copy)]
pub enum Change {
    /// A key goes down or up.
    Key { down: bool, key: u32 },
    /// These buttons are down, and the pointer is there.
    Pointer { mask: u8, x: u16, y: u16 },
    /// None.
    None,
}

/// Keys and buttons that are down, and where the pointer is. Contracts see them in `Held`.
#[derive(Drop)]
pub struct HeldInputs {
    // the earliest first
    keys: ArrayVec<u32, KEYS>,
    mask: u8,
    x: u16,
    y: u16,
}

impl Model for HeldInputs {
    ghost use Rattle.held_inputs.specs.Held.{Held};

    ghost Value = { Held };

    ghost view = { λ a. record { keys = a.keys.items; mask = a.mask; x = a.x; y = a.y } };
}

impl Change {
    /// Returns what an input changes.
    pub fn of(input: &Input) -> Change
        ensures { result ≡ change_of input.now }
    {
        match input {
            Input::Key { down, key } => Change::Key {
                down: *down,
                key: *key,
            },
            Input::Pointer { mask, x, y } => Change::Pointer {
                mask: *mask,
                x: *x,
                y: *y,
            },
            Input::Text { .. } => Change::None,
        }
    }
}

/// Returns the place of a key, if it is there.
fn place_of(keys: &[u32], key: u32) -> Option<usize>
    ensures { result ≡ position (λ k. k == key) keys.now }
{
    keys.iter().position(|held| *held == key)
}

/// Returns the first of some keys that isn't held.
fn missing(keys: &[u32], held: &[u32]) -> Option<u32>
    ensures { result ≡ missing keys.now held.now }
{
    for key in keys {
        if !held.contains(key) {
            return Some(*key);
        }
    }
    None
}

impl HeldInputs {
    /// Returns what a viewer holds that said nothing yet: nothing.
    pub fn new() -> HeldInputs
        ensures { result ≡ nothing }
    {
        HeldInputs {
            keys: ArrayVec::new(),
            mask: 0,
            x: 0,
            y: 0,
        }
    }

    /// Takes a key for down.
    fn press(&mut self, key: u32)
        ensures { self.new ≡ record self.old { keys = pressed key self.old.keys } }
    {
        if self.keys.as_slice().contains(&key) {
            return;
        }
        self.make_room();
        self.keys.push(key);
    }

    /// Takes a key for up.
    fn lift(&mut self, key: u32)
        ensures { self.new ≡ record self.old { keys = lifted key self.old.keys } }
    {
        if let Some(place) = place_of(self.keys.as_slice(), key) {
            self.keys.remove(place);
        }
    }

    /// Forgets the earliest key where no other could go down, and returns its release.
    pub fn let_earliest_go(&mut self) -> Option<Input>
        ensures held { self.new ≡ roomy self.old }
        ensures release { result ≡ room_release self.old.keys }
    {
        if !self.keys.is_full() {
            return None;
        }
        let key = self.keys.remove(0);
        Some(Input::Key { down: false, key })
    }

    /// Forgets the earliest key where no other could go down.
    pub fn make_room(&mut self)
        ensures { self.new ≡ roomy self.old }
    {
        let _release = self.let_earliest_go();
    }

    /// Takes in what an input changes.
    pub fn change(&mut self, change: Change)
        ensures { self.new ≡ changed self.old change }
    {
        match change {
            Change::Key { down: true, key } => self.press(key),
            Change::Key { down: false, key } => self.lift(key),
            Change::Pointer { mask, x, y } => {
                self.mask = mask;
                self.x = x;
                self.y = y;
            }
            Change::None => {}
        }
    }

    /// Returns what is held by whom let all go: nothing, with the pointer where it is.
    pub fn let_go(&self) -> HeldInputs
        ensures { result ≡ let_go self.now }
    {
        HeldInputs {
            keys: ArrayVec::new(),
            mask: 0,
            x: self.x,
            y: self.y,
        }
    }

    /// Returns the pointer as it is held, where other buttons are down here.
    fn owed_buttons(&self, held: &HeldInputs) -> Option<Input>
        ensures { result ≡ owed_buttons self.now held.now }
    {
        if self.mask == held.mask {
            return None;
        }
        Some(Input::Pointer {
            mask: held.mask,
            x: held.x,
            y: held.y,
        })
    }

    /// Returns what is to be told next to an application that knows these as down, so that it knows what is held: the release of a key,
    /// or else the pointer. None where no key is down that isn't held, and the buttons are the same.
    pub fn owed(&self, held: &HeldInputs) -> Option<Input>
        ensures owed { result ≡ owed self.now held.now }
        ensures none { result ≡ None → HoldsNoMore self.now held.now }
    {
        match missing(self.keys.as_slice(), held.keys.as_slice()) {
            Some(key) => Some(Input::Key { down: false, key }),
            None => self.owed_buttons(held),
        }
    }
}
