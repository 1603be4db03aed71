//! A rectangle in RRE as bytes.

ghost use Rattle.std.specs.Prelude.{◌≡◌, ◌+◌, ◌≤◌, ◌++◌, length, take, drop, pos, OnOk, OnErr};
ghost use Rattle.subrectangles.specs.Begins.{BeginsWith};
ghost use Rattle.std.specs.Int.{w32, to_le_bytes};
ghost use Rattle.pixel_translate.specs.Pixel.{be16, be32, pixel_bytes};
ghost use Rattle.encode_raw.specs.Raw.{head};
ghost use Rattle.subrectangles.specs.Bytes.{subrectangle_bytes};

use crate::Subrectangle;
use encode_raw::rect_header;
use pixel_translate::bytes::put_bytes;
use pixel_translate::{Area, BitsPerPixel, PixelFormat};
use std::alloc::AllocError;

/// Appends `number` in four bytes, the lowest first, and the place and size of `sub`, at once.
fn put_twelve(out: &mut Vec<u8>, number: u32, sub: Subrectangle) -> Result<(), AllocError>
    ensures ok { OnOk result (out.new.items ≡
        out.old.items ++ (to_le_bytes w32 number ++ be16 sub.x ++ be16 sub.y ++ be16 sub.w ++ be16 sub.h)) }
    ensures err { OnErr result (out.new.items ≡ out.old.items) }
{
    let [b0, b1, b2, b3] = number.to_le_bytes();
    let [x1, x0] = sub.x.to_be_bytes();
    let [y1, y0] = sub.y.to_be_bytes();
    let [w1, w0] = sub.w.to_be_bytes();
    let [h1, h0] = sub.h.to_be_bytes();
    out.extend_from_slice(&[b0, b1, b2, b3, x1, x0, y1, y0, w1, w0, h1, h0])
}

/// Appends a subrectangle: its pixel, place and size.
pub(crate) fn put_subrectangle(
    out: &mut Vec<u8>,
    format: &PixelFormat,
    sub: Subrectangle,
) -> Result<(), AllocError>
    ensures ok { OnOk result (out.new.items ≡ out.old.items ++ subrectangle_bytes format.now sub) }
    ensures err { OnErr result (BeginsWith out.old.items out.new.items) }
{
    if format.bits() == BitsPerPixel::ThirtyTwo && !format.big_endian {
        return put_twelve(out, sub.pixel, sub);
    }
    let [x_high, x_low] = sub.x.to_be_bytes();
    let [y_high, y_low] = sub.y.to_be_bytes();
    let [w_high, w_low] = sub.w.to_be_bytes();
    let [h_high, h_low] = sub.h.to_be_bytes();
    put_bytes(out, format, sub.pixel)?;
    out.extend_from_slice(&[x_high, x_low, y_high, y_low, w_high, w_low, h_high, h_low])
}

/// Appends what stands before the subrectangles: the rectangle's head, four places for their number, and the background.
pub fn put_front(
    out: &mut Vec<u8>,
    area: Area,
    format: &PixelFormat,
    background: u32,
) -> Result<(), AllocError>
    ensures ok { OnOk result (out.new.items ≡
        (out.old.items ++ head area (pos 2)) ++ (be32 0 ++ pixel_bytes format.now background)) }
    ensures err { OnErr result (BeginsWith out.old.items out.new.items) }
{
    rect_header(out, area, 2)?;
    out.extend_from_slice(&0u32.to_be_bytes())?;
    put_bytes(out, format, background)
}

/// Writes the number of subrectangles, `count`, in its four places from `start` on.
pub fn write_count(out: &mut Vec<u8>, start: usize, count: u32)
    requires { start + 4 ≤ length out.old.items }
    ensures { out.new.items ≡ take start out.old.items ++ (be32 count ++ drop (start + 4) out.old.items) }
{
    out[start..start + 4].copy_from_slice(&count.to_be_bytes());
}
