//! Numbers in bytes, the highest byte first (RFC 6143 section 3).
ghost use Rattle.std.specs.Prelude.{◌≡◌, ◌+◌, ◌≤◌, length};
ghost use Rattle.pixel_translate.specs.Pixel.{be16_at, be32_at};
ghost use Rattle.messages.specs.Steps.{number_in};

use byteorder::{BigEndian, ByteOrder};

/// Returns the number in the two bytes at index `at`.
#[inline(always)]
pub fn be16_at(bytes: &[u8], at: usize) -> u16
    requires { at + 2 ≤ length bytes.now }
    ensures { result ≡ be16_at bytes.now at }
{
    BigEndian::read_u16(&bytes[at..])
}

/// Returns the number in the four bytes at index `at`.
#[inline(always)]
pub fn be32_at(bytes: &[u8], at: usize) -> u32
    requires { at + 4 ≤ length bytes.now }
    ensures { result ≡ be32_at bytes.now at }
{
    BigEndian::read_u32(&bytes[at..])
}

/// Returns the signed number in the first four bytes.
pub fn number_in(bytes: &[u8]) -> i32
    requires { 4 ≤ length bytes.now }
    ensures { result ≡ number_in bytes.now }
{
    BigEndian::read_i32(bytes)
}
