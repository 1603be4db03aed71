//! The pixels of a raw tile, many at once, in places that are there already.

ghost use Rattle.std.specs.Prelude.{◌≡◌, ◌+◌, ◌*◌, ◌++◌, ◌∷◌, length, flat_map, OnOk, OnErr};
ghost use Rattle.pixel_translate.specs.Pixel.{pixel_bytes, bytes_per_pixel};

use pixel_translate::{PixelFormat, bytes};
use std::alloc::AllocError;

/// Writes pixels into `places`, which have just their size.
fn write_pixels(places: &mut [u8], pixels: &[u32], format: &PixelFormat)
    requires { length places.old ≡ bytes_per_pixel format.now * length pixels.now }
    ensures { places.new ≡ flat_map (pixel_bytes format.now) pixels.now }
{
    bytes::write_pixels(places, pixels, format, |pixel| pixel);
}

/// Writes a raw tile into `places`, which have just its size: the bit 1, and the pixels.
fn write_tile(places: &mut [u8], pixels: &[u32], format: &PixelFormat)
    requires { length places.old ≡ 1 + bytes_per_pixel format.now * length pixels.now }
    ensures { places.new ≡ 1 ∷ flat_map (pixel_bytes format.now) pixels.now }
{
    places[..1].copy_from_slice(&[1]);
    write_pixels(&mut places[1..], pixels, format);
}

/// Appends a raw tile: the bit 1, and the pixels. If memory is refused, appends nothing.
pub(crate) fn put_raw(
    out: &mut Vec<u8>,
    pixels: &[u32],
    format: &PixelFormat,
) -> Result<(), AllocError>
    ensures ok { OnOk result (out.new.items ≡ out.old.items ++ 1 ∷ flat_map (pixel_bytes format.now) pixels.now) }
    ensures err { OnErr result (out.new.items ≡ out.old.items) }
{
    let start = out.len();
    let body = format.bytes_per_pixel() * pixels.len();
    let Some(end) = start.checked_add(1 + body) else {
        return Err(AllocError);
    };
    out.resize(end, 0)?;
    write_tile(&mut out[start..], pixels, format);
    Ok(())
}
