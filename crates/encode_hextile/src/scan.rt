//! The subrectangles of a tile, found row by row and written as bytes.

ghost use Rattle.std.specs.Prelude.{◌≡◌, ℕ, ◌+◌, ◌-◌, ◌*◌, ◌<◌, ◌≤◌, ◌++◌, [], length, slice_index, flat_map, MatchOption};
ghost use Rattle.std.specs.Prelude.{if◌then◌else◌};
ghost use Rattle.pixel_translate.specs.Pixel.{pixel_bytes, bytes_per_pixel};
ghost use Rattle.arrayvec.specs.ArrayVec.{array_vec_len};
ghost use Rattle.subrectangles.specs.Rows.{rows_in};
ghost use Rattle.subrectangles.specs.Subrectangles.{stretch, subrectangles_in, subrectangles};
ghost use Rattle.encode_hextile.specs.Hextile.{subrectangle_bytes};

use arrayvec::ArrayVec;
use pixel_translate::bytes::{bytes_8, bytes_16, bytes_32};
use pixel_translate::{BitsPerPixel, PixelFormat};
use subrectangles::lines::{Lines, Values};
use subrectangles::rows::Rows;
use subrectangles::{Subrectangle, subrectangle_at};

/// Room for a tile's subrectangles as bytes: as many as its pixels have, and a row's more.
pub(crate) const ROOM: usize = 1120;

/// Returns how many pixels are the same from each place of `row` on. Finds them from the right with no branch.
fn widths_of(row: &[u32]) -> [u8; 16]
    requires { length row.now ≤ 16 }
    ensures { (x : ℕ) → x < length row.now → slice_index result x ≡ stretch row.now x }
{
    let mut widths = [0; 16];
    let mut width = 0;
    let mut after = 0;
    for k in 0..row.len() {
        let x = row.len() - 1 - k;
        width = if row[x] == after { width + 1 } else { 1 };
        after = row[x];
        widths[x] = width;
    }
    widths
}

/// Returns how many pixels are the same from `x` on, which `widths` has of each place.
fn width_at(row: &[u32], widths: &[u8; 16], x: usize) -> usize
    requires inside { x < length row.now }
    requires narrow { length row.now ≤ 16 }
    requires known { (k : ℕ) → k < length row.now → slice_index widths.now k ≡ stretch row.now k }
    ensures same { result ≡ stretch row.now x }
    ensures some { 0 < result }
    ensures within { x + result ≤ length row.now }
{
    usize::from(widths[x])
}

/// Appends the pixel `number`, in the format's byte order.
pub(crate) fn put_number<const N: usize>(
    bytes: &mut ArrayVec<u8, N>,
    format: &PixelFormat,
    number: u32,
)
    requires { array_vec_len bytes.old + 4 ≤ N }
    ensures items { bytes.new.items ≡ bytes.old.items ++ pixel_bytes format.now number }
    ensures len { array_vec_len bytes.new ≤ array_vec_len bytes.old + 4 }
{
    let fits = match format.bits() {
        BitsPerPixel::Eight => bytes.try_extend_from_slice(&bytes_8(format, number)),
        BitsPerPixel::Sixteen => bytes.try_extend_from_slice(&bytes_16(format, number)),
        BitsPerPixel::ThirtyTwo => bytes.try_extend_from_slice(&bytes_32(format, number)),
    };
    let _ = fits;
}

/// Appends a subrectangle, with its pixel if `coloured`, its place, and its size less one.
fn put_subrectangle(
    list: &mut ArrayVec<u8, ROOM>,
    format: &PixelFormat,
    coloured: bool,
    sub: Subrectangle,
)
    requires room { array_vec_len list.old + 6 ≤ ROOM }
    requires x { sub.x < 16 }
    requires y { sub.y < 16 }
    requires wide { 1 ≤ sub.w }
    requires narrow { sub.w ≤ 16 }
    requires high { 1 ≤ sub.h }
    requires low { sub.h ≤ 16 }
    ensures items { list.new.items ≡ list.old.items ++ subrectangle_bytes format.now coloured sub }
    ensures len { array_vec_len list.new ≤ array_vec_len list.old + 6 }
{
    if coloured {
        put_number(list, format, sub.pixel);
    }
    list.push((sub.x * 16 + sub.y) as u8);
    list.push(((sub.w - 1) * 16 + (sub.h - 1)) as u8);
}

/// Appends the subrectangles that begin in the row at `y`. If the row is as the one above, none do.
fn put_row(
    list: &mut ArrayVec<u8, ROOM>,
    pixels: &Rows,
    background: u32,
    y: usize,
    format: &PixelFormat,
    coloured: bool,
)
    requires room { array_vec_len list.old + 96 ≤ ROOM }
    requires inside { y < pixels.now.height }
    requires columns { pixels.now.width ≤ 16 }
    requires rows { pixels.now.height ≤ 16 }
    ensures { list.new.items ≡ list.old.items ++ flat_map (subrectangle_bytes format.now coloured)
        (subrectangles_in background (rows_in pixels.now) y) }
{
    let lines = Lines {
        values: Values::Whole(pixels.values),
        width: pixels.width,
        height: pixels.height,
    };
    if lines.repeats(y) {
        return;
    }
    let row = lines.row(y);
    let widths = widths_of(row);
    let mut x = 0;
    while x < pixels.width {
        let w = width_at(row, &widths, x);
        if let Some(sub) = subrectangle_at(&lines, background, y, x, w) {
            put_subrectangle(list, format, coloured, sub);
        }
        x += w;
    }
}

/// Returns how many bytes a subrectangle has.
fn unit_of(format: &PixelFormat, coloured: bool) -> usize
    ensures { result ≡ (if coloured then bytes_per_pixel format.now + 2 else 2) }
{
    if coloured {
        format.bytes_per_pixel() + 2
    } else {
        2
    }
}

/// Writes the subrectangles by y and then by x, and returns how many they are. `None` if they are at least as long as the tile's
/// pixels.
pub(crate) fn list_subrectangles(
    list: &mut ArrayVec<u8, ROOM>,
    pixels: &Rows,
    background: u32,
    format: &PixelFormat,
    coloured: bool,
) -> Option<usize>
    requires empty { list.old.items ≡ [] }
    requires columns { pixels.now.width ≤ 16 }
    requires rows { pixels.now.height ≤ 16 }
    ensures { MatchOption result (length pixels.now.values.now * bytes_per_pixel format.now ≤
        length (flat_map (subrectangle_bytes format.now coloured) (subrectangles background (rows_in pixels.now))))
        (λ count. (count ≡ length (subrectangles background (rows_in pixels.now))) ×
        (list.new.items ≡ flat_map (subrectangle_bytes format.now coloured) (subrectangles background (rows_in pixels.now)))) }
{
    let raw_len = pixels.values.len() * format.bytes_per_pixel();
    for y in 0..pixels.height {
        put_row(list, pixels, background, y, format, coloured);
        if raw_len <= list.len() {
            return None;
        }
    }
    Some(list.len() / unit_of(format, coloured))
}
