//! Pixels as bytes in a format's order: one of them, or many at once in places that are there already.

ghost use Rattle.std.specs.Prelude.{◌≡◌, ℕ, ◌*◌, ◌++◌, length, flat_map, OnOk, OnErr};
ghost use Rattle.std.specs.Int.{w16, w32, to_be_bytes, to_le_bytes};
ghost use Rattle.pixel_translate.specs.Pixel.{pixel_bytes, bytes_per_pixel, bits_of};
ghost use Rattle.pixel_translate.specs.Bytes.{Gives, bytes_by};

use crate::{BitsPerPixel, PixelFormat};
use std::alloc::AllocError;

/// Returns the byte of `pixel` in a format of 8 bits.
pub fn bytes_8(format: &PixelFormat, pixel: u32) -> [u8; 1]
    requires { bits_of format.now ≡ BitsPerPixel.Eight }
    ensures { result ≡ pixel_bytes format.now pixel }
{
    let [_, _, _, b0] = pixel.to_be_bytes();
    [b0]
}

/// Returns the bytes of `pixel` in a format of 16 bits, in the format's order.
pub fn bytes_16(format: &PixelFormat, pixel: u32) -> [u8; 2]
    requires { bits_of format.now ≡ BitsPerPixel.Sixteen }
    ensures { result ≡ pixel_bytes format.now pixel }
{
    let [_, _, b1, b0] = pixel.to_be_bytes();
    if format.big_endian {
        [b1, b0]
    } else {
        [b0, b1]
    }
}

/// Returns the bytes of `pixel` in a format of 32 bits, in the format's order.
pub fn bytes_32(format: &PixelFormat, pixel: u32) -> [u8; 4]
    requires { bits_of format.now ≡ BitsPerPixel.ThirtyTwo }
    ensures { result ≡ pixel_bytes format.now pixel }
{
    if format.big_endian {
        pixel.to_be_bytes()
    } else {
        pixel.to_le_bytes()
    }
}

/// Appends the bytes of `pixel`: 1, 2 or 4 of them (RFC 6143, 7.4).
pub fn put_bytes(out: &mut Vec<u8>, format: &PixelFormat, pixel: u32) -> Result<(), AllocError>
    ensures ok { OnOk result (out.new.items ≡ out.old.items ++ pixel_bytes format.now pixel) }
    ensures err { OnErr result (out.new.items ≡ out.old.items) }
{
    match format.bits() {
        BitsPerPixel::Eight => out.extend_from_slice(&bytes_8(format, pixel)),
        BitsPerPixel::Sixteen => out.extend_from_slice(&bytes_16(format, pixel)),
        BitsPerPixel::ThirtyTwo => out.extend_from_slice(&bytes_32(format, pixel)),
    }
}

/// Writes the pixel of each value in a format of 8 bits.
fn write_8<F: Fn(u32) -> u32>(places: &mut [u8], values: &[u32], format: &PixelFormat, pixel_of: F)
    requires callable { F.IsAlwaysCallable pixel_of }
    requires bits { bits_of format.now ≡ BitsPerPixel.Eight }
    requires room { length places.old ≡ 1 * length values.now }
    ensures { (number : ℕ → ℕ) → Gives (F.post pixel_of) number → places.new ≡ flat_map (bytes_by format.now number) values.now }
{
    for i in 0..values.len() {
        places[i..i + 1].copy_from_slice(&bytes_8(format, pixel_of(values[i])));
    }
}

/// Writes the pixel of each value in 16 bits, the lowest byte first.
fn write_16_little<F: Fn(u32) -> u32>(places: &mut [u8], values: &[u32], pixel_of: F)
    requires callable { F.IsAlwaysCallable pixel_of }
    requires room { length places.old ≡ 2 * length values.now }
    ensures { (number : ℕ → ℕ) → Gives (F.post pixel_of) number →
        places.new ≡ flat_map (λ value. to_le_bytes w16 (number value)) values.now }
{
    for i in 0..values.len() {
        let [_, _, b1, b0] = pixel_of(values[i]).to_be_bytes();
        places[2 * i..2 * i + 2].copy_from_slice(&[b0, b1]);
    }
}

/// Writes the pixel of each value in 16 bits, the highest byte first.
fn write_16_big<F: Fn(u32) -> u32>(places: &mut [u8], values: &[u32], pixel_of: F)
    requires callable { F.IsAlwaysCallable pixel_of }
    requires room { length places.old ≡ 2 * length values.now }
    ensures { (number : ℕ → ℕ) → Gives (F.post pixel_of) number →
        places.new ≡ flat_map (λ value. to_be_bytes w16 (number value)) values.now }
{
    for i in 0..values.len() {
        let [_, _, b1, b0] = pixel_of(values[i]).to_be_bytes();
        places[2 * i..2 * i + 2].copy_from_slice(&[b1, b0]);
    }
}

/// Writes the pixel of each value in 32 bits, the lowest byte first.
fn write_32_little<F: Fn(u32) -> u32>(places: &mut [u8], values: &[u32], pixel_of: F)
    requires callable { F.IsAlwaysCallable pixel_of }
    requires room { length places.old ≡ 4 * length values.now }
    ensures { (number : ℕ → ℕ) → Gives (F.post pixel_of) number →
        places.new ≡ flat_map (λ value. to_le_bytes w32 (number value)) values.now }
{
    for i in 0..values.len() {
        places[4 * i..4 * i + 4].copy_from_slice(&pixel_of(values[i]).to_le_bytes());
    }
}

/// Writes the pixel of each value in 32 bits, the highest byte first.
fn write_32_big<F: Fn(u32) -> u32>(places: &mut [u8], values: &[u32], pixel_of: F)
    requires callable { F.IsAlwaysCallable pixel_of }
    requires room { length places.old ≡ 4 * length values.now }
    ensures { (number : ℕ → ℕ) → Gives (F.post pixel_of) number →
        places.new ≡ flat_map (λ value. to_be_bytes w32 (number value)) values.now }
{
    for i in 0..values.len() {
        places[4 * i..4 * i + 4].copy_from_slice(&pixel_of(values[i]).to_be_bytes());
    }
}

/// Writes the pixel that `pixel_of` gives for each value of `values` into `places`, which have just their size. Looks at the order of
/// bytes once for all of them.
pub fn write_pixels<F: Fn(u32) -> u32>(
    places: &mut [u8],
    values: &[u32],
    format: &PixelFormat,
    pixel_of: F,
)
    requires callable { F.IsAlwaysCallable pixel_of }
    requires room { length places.old ≡ bytes_per_pixel format.now * length values.now }
    ensures { (number : ℕ → ℕ) → Gives (F.post pixel_of) number → places.new ≡ flat_map (bytes_by format.now number) values.now }
{
    match (format.bits(), format.big_endian) {
        (BitsPerPixel::Eight, _) => write_8(places, values, format, pixel_of),
        (BitsPerPixel::Sixteen, false) => write_16_little(places, values, pixel_of),
        (BitsPerPixel::Sixteen, true) => write_16_big(places, values, pixel_of),
        (BitsPerPixel::ThirtyTwo, false) => write_32_little(places, values, pixel_of),
        (BitsPerPixel::ThirtyTwo, true) => write_32_big(places, values, pixel_of),
    }
}
