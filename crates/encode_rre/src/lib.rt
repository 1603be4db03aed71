//! The encoding RRE (RFC 6143, 7.7.3): a background and subrectangles of one pixel each, or Raw
//! where that is no shorter.
//!
//! `subrectangles` finds the background and the subrectangles; here they are written, with their number, or what is written is taken back.
//!
//! A white line of two places on four by two black ones, which appends the head, the count `00000001`, the background `00000000`
//! and the subrectangle `ffffff00 0002 0000 0002 0001`:
//!
//! ```
//! let mut out = Vec::new(alloc);
//! let area = Area { x: 0, y: 0, w: 4, h: 2 };
//! let colours = [0, 0, 0xff_ffff, 0xff_ffff, 0, 0, 0, 0];
//! encode_rre(&mut out, area, &colours, &PixelFormat::server())?;
//! ```
#![tactic(auto)]

ghost use Rattle.std.specs.Prelude.{◌≡◌, ℕ, ◌+◌, ◌*◌, ◌<◌, ◌≤◌, ◌^◌, ◌++◌, true, false, length, map, flat_map, slice_index, All};
ghost use Rattle.std.specs.Prelude.{IfOk, OnOk, OnErr};
ghost use Rattle.pixel_translate.specs.Pixel.{pixel, colour_bytes};
ghost use Rattle.encode_raw.specs.Raw.{raw};
ghost use Rattle.encode_rre.specs.Claims.{rre_reads_back};
ghost use Rattle.encode_rre.specs.Rre.{rre};
ghost use Rattle.subrectangles.specs.Begins.{BeginsWith};
ghost use Rattle.subrectangles.specs.Lines.{values_in};
ghost use Rattle.subrectangles.specs.Pixels.{pixels_in};

use encode_raw::{put_raw_pixels, raw_is_read_back, rect_header};
use pixel_translate::{Table, server_pixels_are_colours};
pub use pixel_translate::{Area, PixelFormat};
use std::alloc::AllocError;
use subrectangles::lines::{Lines, Values};
use subrectangles::{
    Pixels, background_of, has_too_many, put_front, put_subrectangles, write_count,
};

/// The error of a call that is refused memory.
pub use std::alloc::AllocError as OutOfMemory;

/// Returns the greatest colour, or 0 if there is none.
fn greatest(colours: &[u32]) -> u32
    ensures { (k : ℕ) → k < length colours.now → slice_index colours.now k ≤ result }
{
    let mut greatest = 0;
    for colour in colours {
        greatest = greatest.max(*colour);
    }
    greatest
}

/// Says whether no colour has a top byte.
fn are_low(colours: &Lines) -> bool
    ensures { result ≡ true → (k : ℕ) → k < length (values_in colours.now) → slice_index (values_in colours.now) k < 2 ^ 24 }
{
    for y in 0..colours.height {
        if greatest(colours.row(y)) >= 1 << 24 {
            return false;
        }
    }
    true
}

/// Says whether each colour is its own pixel: the format has the server's components, and no colour has a top byte.
fn are_pixels(colours: &Lines, format: &PixelFormat) -> bool
    ensures { result ≡ true → values_in colours.now ≡ map (pixel format.now) (values_in colours.now) }
{
    server_pixels_are_colours();
    format.has_server_components() && are_low(colours)
}

/// Appends a rectangle in RRE, from the pixels of its colours, and returns whether its data is shorter than Raw's. If not, it may
/// have appended a part of it.
fn put_coded(
    out: &mut Vec<u8>,
    area: Area,
    pixels: &Pixels,
    format: &PixelFormat,
) -> Result<bool, AllocError>
    requires width { pixels.now.colours.width ≡ area.w }
    requires height { pixels.now.colours.height ≡ area.h }
    requires translated { pixels_in pixels.now ≡ map (pixel format.now) (values_in pixels.now.colours) }
    ensures coded { IfOk result (λ shorter. shorter ≡ true → out.new.items ≡
        out.old.items ++ rre format.now area (values_in pixels.now.colours)) }
    ensures longer { IfOk result (λ shorter. shorter ≡ false → rre format.now area (values_in pixels.now.colours) ≡
        raw format.now area (values_in pixels.now.colours)) }
    ensures front { BeginsWith out.old.items out.new.items }
{
    let alloc = *out.allocator();
    let pixel_len = format.bytes_per_pixel();
    let raw_len = pixels.colours.width * pixels.colours.height * pixel_len;
    let many = has_too_many(alloc, pixels, raw_len / (pixel_len + 8))?;
    if many {
        return Ok(false);
    }
    let background = background_of(alloc, pixels)?;
    let start = out.len() + 12;
    put_front(out, area, format, background)?;
    let shorter = put_subrectangles(out, pixels, format, background, start + raw_len)?;
    if shorter {
        let count = (out.len() - (start + 4 + pixel_len)) / (pixel_len + 8);
        write_count(out, start, count as u32);
    }
    Ok(shorter)
}

/// Appends a rectangle in Raw, row by row, in room that it makes at once.
fn put_raw(out: &mut Vec<u8>, area: Area, colours: &Lines, table: &Table) -> Result<(), AllocError>
    ensures ok { OnOk result (out.new.items ≡ out.old.items ++ raw table.now area (values_in colours.now)) }
    ensures err { OnErr result (BeginsWith out.old.items out.new.items) }
{
    let body = colours.width * colours.height * table.format().bytes_per_pixel();
    out.reserve(12 + body)?;
    rect_header(out, area, 0)?;
    for y in 0..colours.height {
        put_raw_pixels(out, colours.row(y), table)?;
    }
    Ok(())
}

/// Appends a rectangle, from the pixels of its colours, in RRE if its data is shorter, and else in Raw.
fn put_shorter(
    out: &mut Vec<u8>,
    area: Area,
    pixels: &Pixels,
    table: &Table,
) -> Result<(), AllocError>
    requires width { pixels.now.colours.width ≡ area.w }
    requires height { pixels.now.colours.height ≡ area.h }
    requires translated { pixels_in pixels.now ≡ map (pixel table.now) (values_in pixels.now.colours) }
    ensures ok { OnOk result (out.new.items ≡ out.old.items ++ rre table.now area (values_in pixels.now.colours)) }
    ensures err { OnErr result (BeginsWith out.old.items out.new.items) }
{
    let before = out.len();
    let shorter = put_coded(out, area, pixels, &table.format())?;
    if shorter {
        return Ok(());
    }
    out.truncate(before);
    put_raw(out, area, &pixels.colours, table)
}

/// Appends a rectangle. If memory is refused, what was there stays in front.
fn put_rectangle(
    out: &mut Vec<u8>,
    area: Area,
    colours: &Lines,
    table: &Table,
) -> Result<(), AllocError>
    requires width { colours.now.width ≡ area.w }
    requires height { colours.now.height ≡ area.h }
    ensures ok { OnOk result (out.new.items ≡ out.old.items ++ rre table.now area (values_in colours.now)) }
    ensures err { OnErr result (BeginsWith out.old.items out.new.items) }
{
    let table_used = if are_pixels(colours, &table.format()) {
        None
    } else {
        Some(table)
    };
    let pixels = Pixels {
        colours: *colours,
        table: table_used,
    };
    put_shorter(out, area, &pixels, table)
}

/// Appends a rectangle. If memory is refused, appends nothing.
fn put_or_nothing(
    out: &mut Vec<u8>,
    area: Area,
    colours: &Lines,
    table: &Table,
) -> Result<(), AllocError>
    requires width { colours.now.width ≡ area.w }
    requires height { colours.now.height ≡ area.h }
    ensures ok { OnOk result (out.new.items ≡ out.old.items ++ rre table.now area (values_in colours.now)) }
    ensures err { OnErr result (out.new.items ≡ out.old.items) }
{
    let before = out.len();
    let done = put_rectangle(out, area, colours, table);
    if done.is_err() {
        out.truncate(before);
    }
    done
}

/// Appends a rectangle in RRE (RFC 6143, 7.7.3), or in Raw if RRE's data is no shorter: the colours `0x00RRGGBB` stand row by row
/// from the top, each from left to right, as many as the area has places. The background is the most frequent pixel, of several the
/// smallest; the subrectangles stand by y and then by x. If memory is refused, appends nothing.
pub fn encode_rre(
    out: &mut Vec<u8>,
    area: Area,
    colours: &[u32],
    format: &PixelFormat,
) -> Result<(), AllocError>
    requires wide { 1 ≤ area.w }
    requires high { 1 ≤ area.h }
    requires whole { length colours.now ≡ area.w * area.h }
    ensures ok { OnOk result (out.new.items ≡ out.old.items ++ rre format.now area colours.now) }
    ensures err { OnErr result (out.new.items ≡ out.old.items) }
{
    encode_rre_with_table(out, area, colours, &Table::new(format))
}

/// Appends what `encode_rre` does, by a table of the format, which one call after another can use.
pub fn encode_rre_with_table(
    out: &mut Vec<u8>,
    area: Area,
    colours: &[u32],
    table: &Table,
) -> Result<(), AllocError>
    requires wide { 1 ≤ area.w }
    requires high { 1 ≤ area.h }
    requires whole { length colours.now ≡ area.w * area.h }
    ensures ok { OnOk result (out.new.items ≡ out.old.items ++ rre table.now area colours.now) }
    ensures err { OnErr result (out.new.items ≡ out.old.items) }
{
    let lines = Lines {
        values: Values::Whole(colours),
        width: usize::from(area.w),
        height: usize::from(area.h),
    };
    put_or_nothing(out, area, &lines, table)
}

/// Appends what `encode_rre` does, by a table of the format, for rows of colours that stand each in a list of its own, from the
/// top, as many as the area is high, each with as many colours as it is wide.
pub fn encode_rre_by_rows(
    out: &mut Vec<u8>,
    area: Area,
    rows: &[&[u32]],
    table: &Table,
) -> Result<(), AllocError>
    requires wide { 1 ≤ area.w }
    requires high { 1 ≤ area.h }
    requires count { length rows.now ≡ area.h }
    requires each { All (λ row. length row.now ≡ area.w) rows.now }
    ensures ok { OnOk result (out.new.items ≡ out.old.items ++ rre table.now area (flat_map (λ row. row.now) rows.now)) }
    ensures err { OnErr result (out.new.items ≡ out.old.items) }
{
    let lines = Lines {
        values: Values::Apart(rows),
        width: usize::from(area.w),
        height: usize::from(area.h),
    };
    put_or_nothing(out, area, &lines, table)
}

/// Proves that a viewer that reads a rectangle in RRE, or in Raw, by RFC 6143 shows each colour's pixel at its place, and every
/// other place as before.
pub fn rre_is_read_back()
    ensures { rre_reads_back }
{
    raw_is_read_back();
}
