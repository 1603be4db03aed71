//! What a viewer told, in numbers.

ghost use Rattle.std.specs.Prelude.{◌≡◌, if◌then◌else◌};
ghost use Rattle.c_screen.specs.Inputs.{told_as, one_if};

use screen::Input;
use std::mem::size_of;

/// What a viewer told the application (RFC 6143, 7.5.4 to 7.5.6). Fields of other kinds are 0.
#[repr(C)]
#[derive(Clone, Copy)]
pub struct Told {
    /// The number of the viewer.
    pub viewer: u64,
    /// 1 for a key, 2 for the pointer, 3 for a text.
    pub kind: u32,
    /// Of a key: 1 where it went down, 0 where it went up.
    pub down: u32,
    /// Of a key: its keysym of the X Window System.
    pub key: u32,
    /// Of the pointer: the buttons that are down, a bit each.
    pub buttons: u32,
    /// Of the pointer: its column, which may lie off the screen.
    pub x: u32,
    /// Of the pointer: its row, which may lie off the screen.
    pub y: u32,
    /// Of a text: how many bytes it has, at most 262,144.
    pub length: u64,
    /// Of a text: 1 where only its first 262,144 bytes are kept.
    pub shortened: u32,
}

// As `vnc_input` of C.
const _: () = prove!(size_of::<Told>() == 48);

/// Returns 1 for true, and 0 for false.
pub(crate) fn one_if(truth: bool) -> u32
    ensures { result ≡ one_if truth }
{
    if truth { 1 } else { 0 }
}

const NOTHING: Told = Told {
    viewer: 0,
    kind: 0,
    down: 0,
    key: 0,
    buttons: 0,
    x: 0,
    y: 0,
    length: 0,
    shortened: 0,
};

/// Returns what `viewer` told by `input`, in numbers.
pub fn told_as(viewer: u64, input: &Input) -> Told
    ensures { result ≡ told_as viewer input.now }
{
    match input {
        Input::Key { down, key } => Told {
            viewer,
            kind: 1,
            down: one_if(*down),
            key: *key,
            ..NOTHING
        },
        Input::Pointer { mask, x, y } => Told {
            viewer,
            kind: 2,
            buttons: u32::from(*mask),
            x: u32::from(*x),
            y: u32::from(*y),
            ..NOTHING
        },
        Input::Text { text, shortened } => Told {
            viewer,
            kind: 3,
            length: text.len() as u64,
            shortened: one_if(*shortened),
            ..NOTHING
        },
    }
}
