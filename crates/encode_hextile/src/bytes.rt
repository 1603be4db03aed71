//! A tile as bytes.

ghost use Rattle.std.specs.Prelude.{◌≡◌, ◌+◌, ◌*◌, ◌<◌, ◌≤◌, ◌++◌, ◌∷◌, [], true, false, length, flat_map, IfOk, OnOk, OnErr};
ghost use Rattle.pixel_translate.specs.Pixel.{pixel_bytes, bytes_per_pixel};
ghost use Rattle.arrayvec.specs.ArrayVec.{array_vec_len};
ghost use Rattle.subrectangles.specs.Subrectangles.{subrectangles, background_of};
ghost use Rattle.subrectangles.specs.Rows.{rows_in};
ghost use Rattle.subrectangles.specs.Begins.{BeginsWith};
ghost use Rattle.encode_hextile.specs.Hextile.{is_carried, bytes_unless, bits_of, said_bytes, list_bytes, next_of, tile};
ghost use Rattle.encode_hextile.specs.Palettes.{IsPaletteOf};

use crate::palette::{Palette, palette_of};
use crate::raw::put_raw;
use crate::scan::{ROOM, list_subrectangles, put_number};
use crate::{Carried, TilePixels};
use arrayvec::ArrayVec;
use pixel_translate::PixelFormat;
use std::alloc::AllocError;
use subrectangles::background_is_most_frequent;
use subrectangles::rows::Rows;

/// Room for the byte of bits, two pixels, and the number of subrectangles.
const FRONT: usize = 10;

/// What is carried to the first tile, and behind a raw one.
pub(crate) const NOTHING: Carried = Carried {
    background: None,
    foreground: None,
};

/// Says whether `pixel` is the one that is carried.
fn is_said(carried: Option<u32>, pixel: u32) -> bool
    ensures { result ≡ is_carried carried pixel }
{
    match carried {
        Some(before) => before == pixel,
        None => false,
    }
}

/// Returns the bits that a tile begins with.
fn bits_of(carried: Carried, palette: Palette) -> u8
    ensures { result ≡ bits_of carried palette.background palette.others }
{
    let background = if is_said(carried.background, palette.background) {
        0
    } else {
        2
    };
    match palette.others {
        TilePixels::Alone => background,
        TilePixels::OneOther(pixel) => {
            let foreground = if is_said(carried.foreground, pixel) {
                0
            } else {
                4
            };
            background + foreground + 8
        }
        TilePixels::Several => background + 8 + 16,
    }
}

/// Returns what a coded tile leaves to the next.
fn next_of(carried: Carried, palette: Palette) -> Carried
    ensures { result ≡ next_of carried palette.background palette.others }
{
    let foreground = match palette.others {
        TilePixels::Alone => carried.foreground,
        TilePixels::OneOther(pixel) => Some(pixel),
        TilePixels::Several => None,
    };
    Carried {
        background: Some(palette.background),
        foreground,
    }
}

/// Appends `pixel`, unless it is carried.
fn put_unless_said(
    front: &mut ArrayVec<u8, FRONT>,
    format: &PixelFormat,
    carried: Option<u32>,
    pixel: u32,
)
    requires { array_vec_len front.old + 4 ≤ FRONT }
    ensures items { front.new.items ≡ front.old.items ++ bytes_unless (is_carried carried pixel) (pixel_bytes format.now pixel) }
    ensures len { array_vec_len front.new ≤ array_vec_len front.old + 4 }
{
    if !is_said(carried, pixel) {
        put_number(front, format, pixel);
    }
}

/// Writes the bits, and the background and the foreground as far as the tile says them.
fn put_front(
    front: &mut ArrayVec<u8, FRONT>,
    format: &PixelFormat,
    carried: Carried,
    palette: Palette,
)
    requires { front.old.items ≡ [] }
    ensures items { front.new.items ≡
        bits_of carried palette.background palette.others ∷ said_bytes format.now carried palette.background palette.others }
    ensures len { array_vec_len front.new ≤ 9 }
{
    front.push(bits_of(carried, palette));
    put_unless_said(front, format, carried.background, palette.background);
    if let TilePixels::OneOther(pixel) = palette.others {
        put_unless_said(front, format, carried.foreground, pixel);
    }
}

/// Writes the subrectangles to `list` and, behind `front`, their number. Returns false, and writes no number, if they are at least
/// as long as the tile's pixels. If all pixels of the tile are the background, there are none, and it writes nothing.
fn put_list(
    front: &mut ArrayVec<u8, FRONT>,
    list: &mut ArrayVec<u8, ROOM>,
    pixels: &Rows,
    format: &PixelFormat,
    palette: Palette,
) -> bool
    requires room { array_vec_len front.old ≤ 9 }
    requires empty { list.old.items ≡ [] }
    requires columns { pixels.now.width ≤ 16 }
    requires rows { pixels.now.height ≤ 16 }
    requires stands { palette.background ≡ background_of pixels.now.values.now }
    ensures yes { result ≡ true → front.new.items ++ list.new.items ≡
        front.old.items ++ list_bytes format.now (subrectangles palette.background (rows_in pixels.now)) palette.others }
    ensures no { result ≡ false → length pixels.now.values.now * bytes_per_pixel format.now ≤
        length (list_bytes format.now (subrectangles palette.background (rows_in pixels.now)) palette.others) }
{
    let coloured = match palette.others {
        TilePixels::Alone => return true,
        TilePixels::OneOther(_) => false,
        TilePixels::Several => true,
    };
    background_is_most_frequent();
    let background = palette.background;
    match list_subrectangles(list, pixels, background, format, coloured) {
        Some(count) => {
            front.push(count as u8);
            true
        }
        None => false,
    }
}

/// Appends a tile whose pixels `palette` tells, coded if that is shorter, and else raw. Returns what it leaves to the next.
fn put_coded(
    out: &mut Vec<u8>,
    pixels: &Rows,
    format: &PixelFormat,
    carried: Carried,
    palette: Palette,
) -> Result<Carried, AllocError>
    requires columns { pixels.now.width ≤ 16 }
    requires rows { pixels.now.height ≤ 16 }
    requires stands { IsPaletteOf pixels.now.values.now palette }
    ensures next { IfOk result (λ next. next ≡ (tile format.now carried (rows_in pixels.now)).next) }
    ensures ok { OnOk result (out.new.items ≡
        out.old.items ++ (tile format.now carried (rows_in pixels.now)).bits ∷
        (tile format.now carried (rows_in pixels.now)).bytes) }
    ensures err { OnErr result (BeginsWith out.old.items out.new.items) }
{
    let mut front = ArrayVec::new();
    let mut list = ArrayVec::new();
    put_front(&mut front, format, carried, palette);
    let raw_len = pixels.values.len() * format.bytes_per_pixel();
    if put_list(&mut front, &mut list, pixels, format, palette)
        && front.len() + list.len() <= raw_len
    {
        out.extend_from_slice(&front)?;
        out.extend_from_slice(&list)?;
        return Ok(next_of(carried, palette));
    }
    put_raw(out, pixels.values, format)?;
    Ok(NOTHING)
}

/// Appends a tile, coded if that is shorter, and else raw. Returns what it leaves to the next.
pub(crate) fn put_tile(
    out: &mut Vec<u8>,
    pixels: &Rows,
    format: &PixelFormat,
    carried: Carried,
) -> Result<Carried, AllocError>
    requires columns { pixels.now.width ≤ 16 }
    requires rows { pixels.now.height ≤ 16 }
    ensures next { IfOk result (λ next. next ≡ (tile format.now carried (rows_in pixels.now)).next) }
    ensures ok { OnOk result (out.new.items ≡
        out.old.items ++ (tile format.now carried (rows_in pixels.now)).bits ∷
        (tile format.now carried (rows_in pixels.now)).bytes) }
    ensures err { OnErr result (BeginsWith out.old.items out.new.items) }
{
    let Some(palette) = palette_of(pixels, format) else {
        put_raw(out, pixels.values, format)?;
        return Ok(NOTHING);
    };
    put_coded(out, pixels, format, carried, palette)
}
