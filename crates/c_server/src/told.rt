//! What a viewer told.

ghost use Rattle.std.specs.Prelude.{◌≡◌, true, false, IfOk, OnErr};
ghost use Rattle.c_server.specs.Desk.{text_size, has_text};

use event_loop::{Input, Listed};
use std::alloc::{AllocError, Global};
use std::marker::Model;

/// An input, with the number of the viewer that told it.
#[derive(Drop)]
pub(crate) struct ToldBy {
    viewer: u64,
    input: Input,
}

impl Model for ToldBy {
    ghost use Rattle.std.specs.Prelude.{ℕ};
    ghost use Rattle.screen.specs.declared.Input.{Input};

    ghost Value = { ℕ × Input };

    ghost view = { λ a. (a.viewer, a.input) };
}

impl ToldBy {
    /// Returns the input as told by the viewer.
    pub fn new(viewer: u64, input: Input) -> ToldBy
        ensures { result ≡ (viewer, input) }
    {
        ToldBy { viewer, input }
    }

    /// Returns how many bytes of text it has.
    pub fn text_len(&self) -> usize
        ensures { result ≡ text_size self.now.1 }
    {
        text_len(&self.input)
    }

    /// Returns the viewer's number, and the input.
    pub fn into_parts(self) -> (u64, Input)
        ensures { result ≡ self }
    {
        (self.viewer, self.input)
    }
}

/// Returns the same input. `AllocError` where the room for its text is refused.
pub(crate) fn copy_of(alloc: Global, input: &Input) -> Result<Input, AllocError>
    ensures copy { IfOk result (λ copy. copy ≡ input.now) }
    ensures refused { OnErr result (has_text input.now ≡ true) }
{
    match input {
        Input::Key { down, key } => Ok(Input::Key {
            down: *down,
            key: *key,
        }),
        Input::Pointer { mask, x, y } => Ok(Input::Pointer {
            mask: *mask,
            x: *x,
            y: *y,
        }),
        Input::Text { text, shortened } => Ok(Input::Text {
            text: Listed::from_slice(alloc, text.as_slice())?,
            shortened: *shortened,
        }),
    }
}

/// Returns how many bytes of text an input has.
pub(crate) fn text_len(input: &Input) -> usize
    ensures size { result ≡ text_size input.now }
    ensures none { has_text input.now ≡ false → result ≡ 0 }
{
    match input {
        Input::Text { text, .. } => text.len(),
        _ => 0,
    }
}
