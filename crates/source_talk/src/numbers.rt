//! Numbers in bytes.

ghost use Rattle.std.specs.Prelude.{◌≡◌, ◌+◌, ◌≤◌, length};
ghost use Rattle.pixel_translate.specs.Pixel.{be16_at, be32_at};

use byteorder::{BigEndian, ByteOrder};

/// Returns the number in the two bytes at `at`, the highest first (RFC 6143, 3).
pub(crate) fn be16_at(bytes: &[u8], at: usize) -> u16
    requires { at + 2 ≤ length bytes.now }
    ensures { result ≡ be16_at bytes.now at }
{
    BigEndian::read_u16(&bytes[at..])
}

/// Returns the number in the four bytes at `at`, the highest first (RFC 6143, 3).
pub(crate) fn be32_at(bytes: &[u8], at: usize) -> u32
    requires { at + 4 ≤ length bytes.now }
    ensures { result ≡ be32_at bytes.now at }
{
    BigEndian::read_u32(&bytes[at..])
}
