//! The numbers in a group of bytes that are read at once.

ghost use Rattle.std.specs.Prelude.{◌≡◌, ◌+◌, ◌*◌, ◌≤◌, slice_index, IfSome, IfNone};
ghost use Rattle.rfb_viewer.specs.Groups.{area_of_bytes, four_at, pixel_of_bytes};

use pixel_translate::{Area, BitsPerPixel, PixelFormat};

/// A group of bytes, from its first place on; what stands behind it doesn't matter.
pub(crate) type Group = [u8; 24];

/// Reads the number of two bytes at `at`, the highest first.
pub(crate) fn two(bytes: &Group, at: usize) -> u16
    requires { at + 2 ≤ 24 }
    ensures { result ≡ slice_index bytes.now at * 256 + slice_index bytes.now (at + 1) }
{
    u16::from_be_bytes([bytes[at], bytes[at + 1]])
}

/// Reads the number of four bytes at `at`, the highest first.
pub(crate) fn four(bytes: &Group, at: usize) -> u32
    requires { at + 4 ≤ 24 }
    ensures { result ≡ four_at bytes.now at }
{
    u32::from_be_bytes([bytes[at], bytes[at + 1], bytes[at + 2], bytes[at + 3]])
}

/// Reads the place and the size at `at`, of two bytes for each number (RFC 6143 section 7.6.1).
pub(crate) fn area_in(bytes: &Group, at: usize) -> Area
    requires { at + 8 ≤ 24 }
    ensures { result ≡ area_of_bytes bytes.now at }
{
    Area {
        x: two(bytes, at),
        y: two(bytes, at + 2),
        w: two(bytes, at + 4),
        h: two(bytes, at + 6),
    }
}

/// Reads the pixel of `format` at `at`, in the format's order of bytes (RFC 6143 section 7.4).
pub(crate) fn pixel_in(format: &PixelFormat, bytes: &Group, at: usize) -> u32
    requires { at + 4 ≤ 24 }
    ensures { result ≡ pixel_of_bytes format.now bytes.now at }
{
    let all = [bytes[at], bytes[at + 1], bytes[at + 2], bytes[at + 3]];
    match format.bits() {
        BitsPerPixel::Eight => u32::from(all[0]),
        BitsPerPixel::Sixteen if format.big_endian => u32::from(u16::from_be_bytes([
            all[0], all[1],
        ])),
        BitsPerPixel::Sixteen => u32::from(u16::from_le_bytes([all[0], all[1]])),
        BitsPerPixel::ThirtyTwo if format.big_endian => u32::from_be_bytes(all),
        BitsPerPixel::ThirtyTwo => u32::from_le_bytes(all),
    }
}

/// Returns the first number of `area`, by the place of its first byte, with which the area leaves a screen or a rectangle of `columns`
/// columns and `rows` rows, if it leaves it.
pub(crate) fn leaves(area: Area, columns: u16, rows: u16) -> Option<u64>
    ensures bound { IfSome result (λ k. k ≤ 6) }
    ensures inside { IfNone result ((area.x + area.w ≤ columns) × (area.y + area.h ≤ rows)) }
{
    let right = u32::from(area.x) + u32::from(area.w);
    let bottom = u32::from(area.y) + u32::from(area.h);
    if area.x > columns {
        Some(0)
    } else if area.y > rows {
        Some(2)
    } else if right > u32::from(columns) {
        Some(4)
    } else if bottom > u32::from(rows) {
        Some(6)
    } else {
        None
    }
}
