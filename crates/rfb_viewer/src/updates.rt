//! The server's messages, but for an update's rectangles (RFC 6143 section 7.6).

ghost use Rattle.std.specs.Prelude.{◌≡◌, ◌<◌, ◌⊎◌, Ok, Err};
ghost use Rattle.rfb_viewer.specs.Read.{update_begun};

use crate::fault::{FaultKind, Halt};
use crate::groups::{Group, four, two};
use crate::stages::{Effect, Reading, Stage, Step, halt, silent};

/// Reads a message's type: 0 for an update, 1 for entries of the colour map, 2 for a bell, 3 for a text. Refuses any other as `Message`.
/// Reads an update in the format that was asked for before it begins.
fn read_type(reading: Reading, kind: u8) -> Result<Step, Halt>
    ensures update { kind ≡ 0 → result ≡ Ok (update_begun reading) }
    ensures bell { kind ≡ 2 → result ≡ Ok (record { reading = reading; effect = Effect.Nothing }) }
    ensures unknown { 3 < kind → result ≡ Err (record { kind = FaultKind.Message; offset = 0 }) }
{
    match kind {
        0 => {
            let format = reading.chosen.unwrap_or(reading.format);
            silent(Reading {
                format,
                stage: Stage::Update,
                ..reading
            })
        }
        1 => silent(reading.at(Stage::Map)),
        2 => silent(reading),
        3 => silent(reading.at(Stage::Text)),
        _ => halt(FaultKind::Message, 0),
    }
}

/// Reads which entry of the colour map comes first, and how many come.
fn read_map(reading: Reading, bytes: &Group) -> Result<Step, Halt> {
    let map = Reading {
        entry: u32::from(two(bytes, 1)),
        ..reading
    };
    let count = u32::from(two(bytes, 3));
    silent(map.repeated(count, Stage::Entry, Stage::Message))
}

/// Reads an entry of the colour map: red, green and blue.
fn read_entry(reading: Reading, bytes: &Group) -> Result<Step, Halt> {
    let next = Reading {
        entry: reading.entry.saturating_add(1),
        ..reading
    };
    Ok(Step {
        reading: next.one_less(Stage::Message),
        effect: Effect::Entry {
            entry: reading.entry,
            colour: (two(bytes, 0), two(bytes, 2), two(bytes, 4)),
        },
    })
}

/// Reads a group of a message.
pub(crate) fn read(reading: Reading, bytes: &Group) -> Result<Step, Halt> {
    match reading.stage {
        Stage::Message => read_type(reading, bytes[0]),
        Stage::Update => {
            let update = Reading {
                rectangles: two(bytes, 1),
                ..reading
            };
            silent(update.next_rectangle())
        }
        Stage::Map => read_map(reading, bytes),
        Stage::Entry => read_entry(reading, bytes),
        Stage::Text => silent(reading.text_bytes(four(bytes, 3))),
        _ => silent(reading.text_bytes(reading.left.saturating_sub(1))),
    }
}
