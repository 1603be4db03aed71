//! The groups of bytes that are read at once, and the numbers in them.

ghost use Rattle.std.specs.Prelude.{◌≡◌, ◌+◌, ◌<◌, ◌≤◌, ◌++◌, length, slice_index};
ghost use Rattle.pixel_translate.specs.Pixel.{be16_at, be32_at};
ghost use Rattle.encode_hextile.specs.Reading.{has_bit};
ghost use Rattle.server_reader.specs.Groups.{message_length, tile_length, part_length, needed, pixel_in, encoding_in, area_in};

use crate::stage::Stage;
use byteorder::{BigEndian, ByteOrder};
use pixel_translate::Area;

/// Returns the number in the two bytes at `at`, the highest first (RFC 6143, 3).
pub(crate) fn be16_at(bytes: &[u8], at: usize) -> u16
    requires { at + 2 ≤ length bytes.now }
    ensures { result ≡ be16_at bytes.now at }
{
    BigEndian::read_u16(&bytes[at..])
}

/// Returns the number in the four bytes at `at`, the highest first (RFC 6143, 3).
pub(crate) fn be32_at(bytes: &[u8], at: usize) -> u32
    requires { at + 4 ≤ length bytes.now }
    ensures { result ≡ be32_at bytes.now at }
{
    BigEndian::read_u32(&bytes[at..])
}

/// Returns the pixel in the four bytes at `at`, the lowest first.
pub(crate) fn pixel_at(bytes: &[u8], at: usize) -> u32
    requires { at + 4 ≤ length bytes.now }
    ensures { result ≡ pixel_in bytes.now at }
{
    u32::from_le_bytes([bytes[at], bytes[at + 1], bytes[at + 2], bytes[at + 3]])
}

/// Returns the encoding in the last four bytes of a rectangle's head.
pub(crate) fn encoding_in(head: &[u8]) -> i32
    requires { 12 ≤ length head.now }
    ensures { result ≡ encoding_in head.now }
{
    BigEndian::read_i32(&head[8..])
}

/// Returns the corner and the size in the eight bytes at `at` (RFC 6143, 7.6.1).
pub(crate) fn area_in(bytes: &[u8], at: usize) -> Area
    requires { at + 8 ≤ length bytes.now }
    ensures { result ≡ area_in bytes.now at }
{
    Area {
        x: be16_at(bytes, at),
        y: be16_at(bytes, at + 2),
        w: be16_at(bytes, at + 4),
        h: be16_at(bytes, at + 6),
    }
}

/// Returns whether the bit `index` of a tile's first byte is set (RFC 6143, 7.7.4).
pub(crate) fn has(bits: u8, index: u32) -> bool
    requires { index < 8 }
    ensures { result ≡ has_bit bits index }
{
    (bits >> index) % 2 == 1
}

/// Returns how many bytes the head of a message of type `kind` has (RFC 6143, 7.6), its first byte among them.
fn message_length(kind: u8) -> usize
    ensures { result ≡ message_length kind }
{
    match kind {
        0 => 4,
        1 => 6,
        3 => 8,
        _ => 1,
    }
}

/// Returns `length` where a bit of a tile's first byte is set, else 0.
pub(crate) fn length_if(bits: u8, index: u32, length: usize) -> usize
    requires { index < 8 }
    ensures { result ≡ part_length (has_bit bits index) length }
{
    if has(bits, index) { length } else { 0 }
}

/// Returns how many bytes a tile has up to its pixels or its subrectangles (RFC 6143, 7.7.4), its first byte among them.
fn tile_length(bits: u8) -> usize
    ensures { result ≡ tile_length bits }
{
    if has(bits, 0) {
        return 1;
    }
    1 + length_if(bits, 1, 4) + length_if(bits, 2, 4) + length_if(bits, 3, 1)
}

/// Returns how many bytes are read at once at `stage`, of which `first` is the first. An update's end needs none.
pub(crate) fn needed(stage: Stage, first: u8) -> usize
    ensures value { result ≡ needed stage first }
    ensures bound { result ≤ 12 }
{
    match stage {
        Stage::Message => message_length(first),
        Stage::UpdateEnd => 0,
        Stage::Faulted(_) => 1,
        Stage::Rectangle { .. } | Stage::RreParts(_) => 12,
        Stage::Pixels(_) | Stage::Source(_) => 4,
        Stage::Rre(_) => 8,
        Stage::Tile(_) => tile_length(first),
        Stage::TileParts(parts) => { if parts.coloured { 6 } else { 2 } }
        Stage::MapEntries(_) => 6,
    }
}

/// Returns the first of some bytes; 0 where there are none.
fn first_of(bytes: &[u8]) -> u8
    ensures { result ≡ slice_index bytes.now 0 }
{
    match bytes {
        [] => 0,
        [first, ..] => *first,
    }
}

/// Returns how many bytes a group lacks of which `held` came, and `piece` follows.
pub(crate) fn missing(stage: Stage, held: &[u8], piece: &[u8]) -> usize
    requires { 0 < length held.now → length held.now < needed stage (slice_index held.now 0) }
    ensures all { length held.now + result ≡ needed stage (slice_index (held.now ++ piece.now) 0) }
    ensures some { 0 < length held.now → 0 < result }
    ensures bound { length held.now + result ≤ 12 }
{
    match held {
        [] => needed(stage, first_of(piece)),
        [first, ..] => needed(stage, *first) - held.len(),
    }
}
