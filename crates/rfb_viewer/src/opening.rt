//! What the server says until the conversation is open (RFC 6143 sections 7.1 to 7.3, appendix A).

use crate::fault::{FaultKind, Halt};
use crate::groups::{Group, four, two};
use crate::stages::{Effect, Reading, Stage, Step, halt, silent};
use messages::Version;
use pixel_translate::{FormatFault, PixelFormat};

/// Returns whether `byte` may stand at `at` in the text of a version of the RFC that isn't below the viewer's: `RFB 003.003`,
/// `RFB 003.007` or `RFB 003.008`, and a line feed.
fn is_of_version(version: Version, at: usize, byte: u8) -> bool {
    match at {
        0 => byte == b'R',
        1 => byte == b'F',
        2 => byte == b'B',
        3 => byte == b' ',
        4 | 5 | 8 | 9 => byte == b'0',
        6 => byte == b'3',
        7 => byte == b'.',
        10 => match version {
            Version::V33 => byte == b'3' || byte == b'7' || byte == b'8',
            Version::V37 => byte == b'7' || byte == b'8',
            Version::V38 => byte == b'8',
        },
        _ => byte == b'\n',
    }
}

/// Returns where the first byte of a version is that can't stand there, if there is one.
fn wrong_in_version(version: Version, bytes: &Group) -> Option<u64> {
    for i in 0..12 {
        if !is_of_version(version, i, bytes[i]) {
            return Some(i as u64);
        }
    }
    None
}

/// Reads the server's version. Refuses it as `Version` at its first wrong byte.
fn read_version(reading: Reading, bytes: &Group) -> Result<Step, Halt> {
    if let Some(at) = wrong_in_version(reading.version, bytes) {
        return halt(FaultKind::Version, at);
    }
    silent(reading.at(match reading.version {
        Version::V33 => Stage::SecurityType,
        Version::V37 | Version::V38 => Stage::SecurityCount,
    }))
}

/// Returns what comes behind the security types: only in 3.8 the server says whether it accepts the choice.
fn behind_security(version: Version) -> Stage {
    match version {
        Version::V38 => Stage::SecurityResult,
        Version::V33 | Version::V37 => Stage::Init,
    }
}

/// Reads one of the security types; `listed` says whether None was among those before. Refuses the last as `SecurityType` if None is not
/// among them all.
fn read_security_type(reading: Reading, kind: u8, listed: bool) -> Result<Step, Halt> {
    let listed = listed || kind == 1;
    if reading.left <= 1 && !listed {
        return halt(FaultKind::SecurityType, 0);
    }
    let again = reading.at(Stage::SecurityTypes { listed });
    silent(again.one_less(behind_security(reading.version)))
}

/// Reads the screen's size, the format that pixels have at first, and how long the name is. Refuses a format as `BitsPerPixel` or
/// `ColourMap`.
fn read_init(reading: Reading, bytes: &Group) -> Result<Step, Halt> {
    let mut sixteen = [0; 16];
    sixteen.copy_from_slice(&bytes[4..20]);
    let format = match PixelFormat::from_bytes(&sixteen) {
        Ok(format) => format,
        Err(FormatFault::BadBitsPerPixel) => return halt(FaultKind::BitsPerPixel, 4),
        Err(FormatFault::ColourMapUnsupported) => return halt(FaultKind::ColourMap, 7),
    };
    let (columns, rows) = (two(bytes, 0), two(bytes, 2));
    let open = Reading {
        columns,
        rows,
        format,
        ..reading
    };
    Ok(Step {
        reading: open.repeated(four(bytes, 20), Stage::Name, Stage::Message),
        effect: Effect::Screen { columns, rows },
    })
}

/// Reads a group of the opening.
pub(crate) fn read(reading: Reading, bytes: &Group) -> Result<Step, Halt> {
    match reading.stage {
        Stage::Version => read_version(reading, bytes),
        Stage::SecurityCount if bytes[0] == 0 => halt(FaultKind::SecurityType, 0),
        Stage::SecurityCount => silent(reading.repeated(
            u32::from(bytes[0]),
            Stage::SecurityTypes { listed: false },
            Stage::Init,
        )),
        Stage::SecurityTypes { listed } => read_security_type(reading, bytes[0], listed),
        Stage::SecurityType if four(bytes, 0) == 1 => silent(reading.at(Stage::Init)),
        Stage::SecurityType => halt(FaultKind::SecurityType, 0),
        Stage::SecurityResult if four(bytes, 0) == 0 => silent(reading.at(Stage::Init)),
        Stage::SecurityResult => halt(FaultKind::SecurityResult, 0),
        Stage::Init => read_init(reading, bytes),
        _ => silent(reading.one_less(Stage::Message)),
    }
}
