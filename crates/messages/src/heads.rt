//! The front of a message: all of it, or up to its count or its length.
ghost use Rattle.std.specs.Prelude.{◌≡◌, ◌≤◌, length, slice_index};
ghost use Rattle.std.specs.List.{list_all};
ghost use Rattle.std.specs.Char.{is_ascii_digit};
ghost use Rattle.pixel_translate.specs.Pixel.{format_of};
ghost use Rattle.messages.specs.declared.Phase.TheVariants as phase;
ghost use Rattle.messages.specs.Grammar.{version_of};
ghost use Rattle.messages.specs.Reading.{meaning, is_version, format_meaning, request_in, key_in, pointer_in};
ghost use Rattle.messages.specs.Steps.{has_form, front_length, head_length, head_of, head_meaning, encodings_head, text_head};
ghost use Rattle.messages.specs.Steps.{message_head};

use crate::numbers::{be16_at, be32_at};
use crate::{Encoding, Fault, Input, Item, Phase, Version};
use listed::Listed;
use pixel_translate::{Area, FormatFault, PixelFormat};
use std::alloc::Global;

/// What a whole front says.
#[derive(Drop)]
pub enum Head {
    /// The message is whole.
    Item(Item),
    Fault(Fault),
    /// So many encodings follow, at least one.
    Encodings(u16),
    /// A text of so many bytes follows, at least one.
    Text(u32),
}

/// Returns how many bytes the front of a message of type `kind` has.
fn front_length(kind: u8) -> usize
    ensures { result ≡ front_length kind }
{
    match kind {
        0 => 20,
        2 => 4,
        3 => 10,
        4 | 6 => 8,
        5 => 6,
        _ => 1,
    }
}

/// Returns how many bytes come next where the conversation stands at `phase`, by the `first` of them.
pub fn head_length(phase: Phase, first: u8) -> usize
    ensures { result ≡ head_length phase first }
{
    match phase {
        Phase::Version => 12,
        Phase::Choice(_) | Phase::Init(_) => 1,
        Phase::Open(_) => front_length(first),
    }
}

/// Returns what a whole front says.
pub fn head_of(alloc: Global, phase: Phase, bytes: &[u8]) -> Head
    requires { length bytes.now ≡ head_length phase (slice_index bytes.now 0) }
    ensures { result ≡ head_of phase bytes.now }
{
    match phase {
        Phase::Version => version_head(bytes),
        Phase::Choice(_) => {
            if bytes[0] == 1 {
                Head::Item(Item::Choice)
            } else {
                Head::Fault(Fault::BadSecurityType)
            }
        }
        Phase::Init(_) => Head::Item(Item::Init {
            shared: bytes[0] != 0,
        }),
        Phase::Open(_) => message_head(alloc, bytes),
    }
}

/// Tells whether all bytes are ASCII digits.
fn is_number(digits: &[u8]) -> bool
    ensures { result ≡ list_all is_ascii_digit digits.now }
{
    digits.iter().all(|digit| digit.is_ascii_digit())
}

/// Tells whether twelve bytes are a version but for its digits.
fn has_form(bytes: &[u8]) -> bool
    requires { length bytes.now ≡ 12 }
    ensures { result ≡ has_form bytes.now }
{
    bytes[..4] == b"RFB "[..] && bytes[7] == b'.' && bytes[11] == b'\n'
}

/// Tells whether twelve bytes are a version.
#[tactic(auto, using(crate::proofs::Versions::is_version_by_parts))]
fn is_version(bytes: &[u8]) -> bool
    requires { length bytes.now ≡ 12 }
    ensures { result ≡ is_version bytes.now }
{
    let major = is_number(&bytes[4..7]);
    let minor = is_number(&bytes[8..11]);
    has_form(bytes) && major && minor
}

/// Returns the version that is served to a viewer of version `major`.`minor`, in digits.
fn version_of(major: &[u8], minor: &[u8]) -> Version
    ensures { result ≡ version_of major.now minor.now }
{
    let three = b"003".as_slice();
    if major == three && minor == b"007".as_slice() {
        Version::V37
    } else if major == three && minor == b"008".as_slice() {
        Version::V38
    } else {
        Version::V33
    }
}

/// Returns what the viewer's first twelve bytes say.
fn version_head(bytes: &[u8]) -> Head
    requires { length bytes.now ≡ 12 }
    ensures { result ≡ head_meaning (meaning phase.Version bytes.now) }
{
    if is_version(bytes) {
        Head::Item(Item::Version(version_of(&bytes[4..7], &bytes[8..11])))
    } else {
        Head::Fault(Fault::BadVersion)
    }
}

/// Returns what sixteen bytes of a pixel format say.
fn format_head(bytes: &[u8]) -> Head
    requires { length bytes.now ≡ 16 }
    ensures { result ≡ head_meaning (format_meaning (format_of bytes.now)) }
{
    let format: [u8; 16] = bytes.try_into().unwrap();
    match PixelFormat::from_bytes(&format) {
        Ok(format) => Head::Item(Item::Format(format)),
        Err(FormatFault::BadBitsPerPixel) => Head::Fault(Fault::BadBitsPerPixel),
        Err(FormatFault::ColourMapUnsupported) => Head::Fault(Fault::ColourMapUnsupported),
    }
}

/// Returns what the count of a list of encodings says.
fn encodings_head(count: u16) -> Head
    ensures { result ≡ encodings_head count }
{
    if count == 0 {
        Head::Item(Item::Encodings {
            preferred: Encoding::Raw,
            copyrect: false,
            resize: false,
        })
    } else {
        Head::Encodings(count)
    }
}

/// Returns what the length of a text says.
fn text_head(alloc: Global, length: u32) -> Head
    ensures { result ≡ text_head length }
{
    if length == 0 {
        Head::Item(Item::Input(Input::Text {
            text: Listed::new(alloc),
            shortened: false,
        }))
    } else {
        Head::Text(length)
    }
}

/// Returns what a FramebufferUpdateRequest says.
#[inline(always)]
pub fn request(bytes: &[u8]) -> Item
    requires { 10 ≤ length bytes.now }
    ensures { result ≡ request_in bytes.now }
{
    Item::Request {
        incremental: bytes[1] != 0,
        area: Area {
            x: be16_at(bytes, 2),
            y: be16_at(bytes, 4),
            w: be16_at(bytes, 6),
            h: be16_at(bytes, 8),
        },
    }
}

/// Returns what a KeyEvent says.
#[inline(always)]
pub fn key(bytes: &[u8]) -> Item
    requires { 8 ≤ length bytes.now }
    ensures { result ≡ key_in bytes.now }
{
    Item::Input(Input::Key {
        down: bytes[1] != 0,
        key: be32_at(bytes, 4),
    })
}

/// Returns what a PointerEvent says.
#[inline(always)]
pub fn pointer(bytes: &[u8]) -> Item
    requires { 6 ≤ length bytes.now }
    ensures { result ≡ pointer_in bytes.now }
{
    Item::Input(Input::Pointer {
        mask: bytes[1],
        x: be16_at(bytes, 2),
        y: be16_at(bytes, 4),
    })
}

/// Returns what the whole front of a message says.
fn message_head(alloc: Global, bytes: &[u8]) -> Head
    requires { length bytes.now ≡ front_length (slice_index bytes.now 0) }
    ensures { result ≡ message_head bytes.now }
{
    match bytes[0] {
        0 => format_head(&bytes[4..]),
        2 => encodings_head(be16_at(bytes, 2)),
        3 => Head::Item(request(bytes)),
        4 => Head::Item(key(bytes)),
        5 => Head::Item(pointer(bytes)),
        6 => text_head(alloc, be32_at(bytes, 4)),
        kind => Head::Fault(Fault::UnknownMessage(kind)),
    }
}
