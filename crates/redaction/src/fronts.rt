//! The front of a message: all of it, or up to its count or its length (RFC 6143 sections 7.1 to 7.5).
ghost use Rattle.std.specs.Prelude.{◌≡◌, length, slice_index, is_ok};
ghost use Rattle.std.specs.List.{list_all};
ghost use Rattle.std.specs.Char.{is_ascii_digit};
ghost use Rattle.messages.specs.declared.Phase.TheVariants as phase;
ghost use Rattle.messages.specs.Grammar.{version_of};
ghost use Rattle.messages.specs.Reading.{is_version, format_meaning};
ghost use Rattle.messages.specs.Steps.{has_form, front_length, head_length, head_of, head_meaning, encodings_head, text_head, message_head};
ghost use Rattle.pixel_translate.specs.Pixel.{format_of};
ghost use Rattle.redaction.specs.Places.{head_spot};

use crate::place::Place;
use byteorder::{BigEndian, ByteOrder};
use messages::{Item, Phase, Version, phase_after};
use pixel_translate::PixelFormat;

/// Returns how many bytes the front of a message has, by its type.
fn front_length(kind: u8) -> usize
    ensures { result ≡ front_length kind }
{
    match kind {
        0 => 20,
        2 => 4,
        3 => 10,
        4 | 6 => 8,
        5 => 6,
        _ => 1,
    }
}

/// Returns how many bytes are read at once, by where the conversation stands and by the first of them.
pub fn head_length(phase: Phase, first: u8) -> usize
    ensures { result ≡ head_length phase first }
{
    match phase {
        Phase::Version => 12,
        Phase::Choice(_) | Phase::Init(_) => 1,
        Phase::Open(_) => front_length(first),
    }
}

/// Returns whether all of `digits` are ASCII digits.
fn is_number(digits: &[u8]) -> bool
    ensures { result ≡ list_all is_ascii_digit digits.now }
{
    digits.iter().all(|digit| digit.is_ascii_digit())
}

/// Returns whether twelve bytes are a version but for its digits.
fn has_form(bytes: &[u8]) -> bool
    requires { length bytes.now ≡ 12 }
    ensures { result ≡ has_form bytes.now }
{
    bytes[..4] == b"RFB "[..] && bytes[7] == b'.' && bytes[11] == b'\n'
}

/// Returns whether twelve bytes are a version.
#[tactic(auto, using(messages::proofs::Versions::is_version_by_parts))]
fn is_version(bytes: &[u8]) -> bool
    requires { length bytes.now ≡ 12 }
    ensures { result ≡ is_version bytes.now }
{
    let major = is_number(&bytes[4..7]);
    let minor = is_number(&bytes[8..11]);
    has_form(bytes) && major && minor
}

/// Returns the version that is served to the digits of two numbers.
fn version_of(major: &[u8], minor: &[u8]) -> Version
    ensures { result ≡ version_of major.now minor.now }
{
    let three = b"003".as_slice();
    if major == three && minor == b"007".as_slice() {
        Version::V37
    } else if major == three && minor == b"008".as_slice() {
        Version::V38
    } else {
        Version::V33
    }
}

/// Returns what is kept behind the viewer's version.
fn behind_version(bytes: &[u8]) -> Place
    requires { length bytes.now ≡ 12 }
    ensures { result ≡ head_spot phase.Version (head_of phase.Version bytes.now) }
{
    if !is_version(bytes) {
        return Place::over(Phase::Version);
    }
    let version = version_of(&bytes[4..7], &bytes[8..11]);
    Place::begin(phase_after(Phase::Version, &Item::Version(version)))
}

/// Returns whether sixteen bytes are a pixel format that is served.
fn is_format(bytes: &[u8]) -> bool
    requires { length bytes.now ≡ 16 }
    ensures { result ≡ is_ok (format_of bytes.now) }
{
    let format: [u8; 16] = bytes.try_into().unwrap();
    PixelFormat::from_bytes(&format).is_ok()
}

/// Returns what is kept behind a SetPixelFormat.
fn behind_format(version: Version, bytes: &[u8]) -> Place
    requires { length bytes.now ≡ 16 }
    ensures { result ≡ head_spot (phase.Open version) (head_meaning (format_meaning (format_of bytes.now))) }
{
    if is_format(bytes) {
        Place::begin(Phase::Open(version))
    } else {
        Place::over(Phase::Open(version))
    }
}

/// Returns what is kept behind the count of a list of encodings, of four bytes each.
fn behind_count(version: Version, count: u16) -> Place
    ensures { result ≡ head_spot (phase.Open version) (encodings_head count) }
{
    if count == 0 {
        Place::begin(Phase::Open(version))
    } else {
        Place::list(Phase::Open(version), 4 * u32::from(count))
    }
}

/// Returns what is kept behind the length of a text.
fn behind_length(version: Version, length: u32) -> Place
    ensures { result ≡ head_spot (phase.Open version) (text_head length) }
{
    if length == 0 {
        Place::begin(Phase::Open(version))
    } else {
        Place::text(Phase::Open(version), length)
    }
}

/// Returns what is kept behind the front of an open conversation's message.
fn behind_message(version: Version, bytes: &[u8]) -> Place
    requires { length bytes.now ≡ front_length (slice_index bytes.now 0) }
    ensures { result ≡ head_spot (phase.Open version) (message_head bytes.now) }
{
    match bytes[0] {
        0 => behind_format(version, &bytes[4..]),
        2 => behind_count(version, BigEndian::read_u16(&bytes[2..])),
        3 | 4 | 5 => Place::begin(Phase::Open(version)),
        6 => behind_length(version, BigEndian::read_u32(&bytes[4..])),
        _ => Place::over(Phase::Open(version)),
    }
}

/// Returns what is kept behind a whole front.
pub fn behind_front(phase: Phase, bytes: &[u8]) -> Place
    requires { length bytes.now ≡ head_length phase (slice_index bytes.now 0) }
    ensures { result ≡ head_spot phase (head_of phase bytes.now) }
{
    match phase {
        Phase::Version => behind_version(bytes),
        Phase::Choice(_) if bytes[0] != 1 => Place::over(phase),
        Phase::Choice(version) => Place::begin(Phase::Init(version)),
        Phase::Init(version) => Place::begin(Phase::Open(version)),
        Phase::Open(version) => behind_message(version, bytes),
    }
}
