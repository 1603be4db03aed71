//! The rectangles of an update, in Raw, CopyRect and RRE (RFC 6143 sections 7.7.1 to 7.7.3), and a new size (7.8.2).

ghost use Rattle.std.specs.Prelude.{◌≡◌, ◌≢◌, ◌+◌, ◌≤◌, ◌<◌, Err, IsErr, Ok, IfOk};
ghost use Rattle.rfb_viewer.specs.Read.{block_of};
ghost use Rattle.rfb_viewer.specs.Groups.{area_of_bytes, pixel_of_bytes, four_at};

use crate::fault::{FaultKind, Halt};
use crate::groups::{Group, area_in, four, leaves, pixel_in, two};
use crate::stages::{Block, Cursor, Effect, Reading, Stage, Step, halt, pixel_size, silent};
use crate::tiles;
use pixel_translate::Area;

/// Returns the places of `area`.
pub(crate) fn whole(area: Area) -> Block
    ensures { result ≡ block_of area }
{
    Block {
        x: u32::from(area.x),
        y: u32::from(area.y),
        columns: area.w,
        rows: area.h,
    }
}

/// Goes on to the first pixel of `block`, which has places and comes pixel by pixel.
pub(crate) fn by_pixels(reading: Reading, block: Block) -> Reading
    ensures { result.area ≡ reading.area }
{
    Reading {
        cursor: Cursor {
            block,
            column: 0,
            row: 0,
        },
        stage: Stage::Pixel,
        ..reading
    }
}

/// The encoding DesktopSize, -223 (RFC 6143 section 7.8.2).
const DESKTOP_SIZE: u32 = 0xffff_ff21;

/// Reads a rectangle's place, size and encoding. Refuses one that leaves the screen as `Rectangle`, then an encoding that isn't Raw,
/// CopyRect, RRE or Hextile as `Encoding`.
fn read_rectangle(reading: Reading, bytes: &Group) -> Result<Step, Halt>
    ensures known { IfOk result (λ step. four_at bytes.now 8 < 6) }
    ensures three { four_at bytes.now 8 ≡ 3 → IsErr result }
    ensures four { four_at bytes.now 8 ≡ 4 → IsErr result }
    ensures area { IfOk result (λ step. step.reading.area ≡ area_of_bytes bytes.now 0) }
    ensures columns { IfOk result (λ step. step.reading.area.x + step.reading.area.w ≤ reading.columns) }
    ensures rows { IfOk result (λ step. step.reading.area.y + step.reading.area.h ≤ reading.rows) }
{
    let area = area_in(bytes, 0);
    if let Some(offset) = leaves(area, reading.columns, reading.rows) {
        return halt(FaultKind::Rectangle, offset);
    }
    let reading = Reading {
        area,
        tile: None,
        ..reading
    };
    let empty = area.w == 0 || area.h == 0;
    match four(bytes, 8) {
        0 if empty => silent(reading.next_rectangle()),
        0 => silent(by_pixels(reading, whole(area))),
        1 => silent(reading.at(Stage::Source)),
        2 => silent(reading.at(Stage::Rre)),
        5 if empty => silent(reading.next_rectangle()),
        5 => silent(tiles::first_tile(reading)),
        _ => halt(FaultKind::Encoding, 8),
    }
}

/// Reads the screen's new size, that of `area`, whose place says nothing: every place shows nothing then (RFC 6143 section 7.8.2). No
/// data come behind it.
fn read_size(reading: Reading, area: Area) -> Result<Step, Halt>
    ensures effect { IfOk result (λ step. step.effect ≡ Effect.Screen area.w area.h) }
    ensures columns { IfOk result (λ step. step.reading.columns ≡ area.w) }
    ensures rows { IfOk result (λ step. step.reading.rows ≡ area.h) }
{
    let reading = Reading {
        columns: area.w,
        rows: area.h,
        ..reading
    };
    Ok(Step {
        reading: reading.next_rectangle(),
        effect: Effect::Screen {
            columns: area.w,
            rows: area.h,
        },
    })
}

/// Reads what a rectangle begins with, or the screen's new size.
fn read_head(reading: Reading, bytes: &Group) -> Result<Step, Halt>
    ensures size { four_at bytes.now 8 ≡ DESKTOP_SIZE → IfOk result (λ step. step.effect ≡
        Effect.Screen (area_of_bytes bytes.now 0).w (area_of_bytes bytes.now 0).h) }
    ensures area { four_at bytes.now 8 ≢ DESKTOP_SIZE → IfOk result (λ step. step.reading.area ≡ area_of_bytes bytes.now 0) }
    ensures three { four_at bytes.now 8 ≡ 3 → IsErr result }
    ensures four { four_at bytes.now 8 ≡ 4 → IsErr result }
{
    if four(bytes, 8) == DESKTOP_SIZE {
        read_size(reading, area_in(bytes, 0))
    } else {
        read_rectangle(reading, bytes)
    }
}

/// Reads where a copy is from. Refuses a source that leaves the screen as `Source`.
fn read_source(reading: Reading, bytes: &Group) -> Result<Step, Halt> {
    let area = reading.area;
    let (x, y) = (two(bytes, 0), two(bytes, 2));
    if u32::from(x) + u32::from(area.w) > u32::from(reading.columns) {
        return halt(FaultKind::Source, 0);
    }
    if u32::from(y) + u32::from(area.h) > u32::from(reading.rows) {
        return halt(FaultKind::Source, 2);
    }
    Ok(Step {
        reading: reading.next_rectangle(),
        effect: Effect::Copy { area, x, y },
    })
}

/// Returns the pixel behind this one, in its row, else in the next row, unless it is the block's last.
fn next_pixel(cursor: Cursor) -> Option<Cursor> {
    if u32::from(cursor.column) + 1 < u32::from(cursor.block.columns) {
        Some(Cursor {
            column: cursor.column + 1,
            ..cursor
        })
    } else if u32::from(cursor.row) + 1 < u32::from(cursor.block.rows) {
        Some(Cursor {
            column: 0,
            row: cursor.row + 1,
            ..cursor
        })
    } else {
        None
    }
}

/// Returns the place of the pixel at `cursor`.
fn place_of(cursor: Cursor) -> Block {
    Block {
        x: cursor.block.x.saturating_add(u32::from(cursor.column)),
        y: cursor.block.y.saturating_add(u32::from(cursor.row)),
        columns: 1,
        rows: 1,
    }
}

/// Reads a pixel of a block.
fn read_pixel(reading: Reading, bytes: &Group) -> Result<Step, Halt> {
    let pixel = pixel_in(&reading.format, bytes, 0);
    let effect = Effect::Fill {
        block: place_of(reading.cursor),
        pixel,
    };
    let reading = match next_pixel(reading.cursor) {
        Some(cursor) => Reading { cursor, ..reading },
        None => tiles::next_of(reading),
    };
    Ok(Step { reading, effect })
}

/// Reads how many subrectangles there are, and the background, which all places show before them.
fn read_rre(reading: Reading, bytes: &Group) -> Result<Step, Halt>
    ensures { IfOk result (λ step. step.effect ≡ Effect.Fill (block_of reading.area) (pixel_of_bytes reading.format bytes.now 4)) }
{
    let pixel = pixel_in(&reading.format, bytes, 4);
    let count = four(bytes, 0);
    let behind = if count == 0 {
        reading.next_rectangle()
    } else {
        reading.at(Stage::Subrectangle)
    };
    Ok(Step {
        reading: Reading {
            left: count,
            ..behind
        },
        effect: Effect::Fill {
            block: whole(reading.area),
            pixel,
        },
    })
}

/// Returns the places of the subrectangle `inner`, which is counted from the corner of its rectangle `outer`.
fn placed(outer: Area, inner: Area) -> Block
    ensures { result ≡ record { x = outer.x + inner.x; y = outer.y + inner.y; columns = inner.w; rows = inner.h } }
{
    Block {
        x: u32::from(outer.x) + u32::from(inner.x),
        y: u32::from(outer.y) + u32::from(inner.y),
        columns: inner.w,
        rows: inner.h,
    }
}

/// Reads a subrectangle. Refuses one that leaves its rectangle as `Subrectangle`.
fn read_subrectangle(reading: Reading, bytes: &Group) -> Result<Step, Halt> {
    let size = pixel_size(&reading.format);
    let inner = area_in(bytes, size);
    if let Some(offset) = leaves(inner, reading.area.w, reading.area.h) {
        return halt(FaultKind::Subrectangle, size as u64 + offset);
    }
    let pixel = pixel_in(&reading.format, bytes, 0);
    let reading = if reading.left > 1 {
        Reading {
            left: reading.left - 1,
            ..reading
        }
    } else {
        reading.next_rectangle()
    };
    Ok(Step {
        reading,
        effect: Effect::Fill {
            block: placed(reading.area, inner),
            pixel,
        },
    })
}

/// Reads a group of a rectangle.
pub(crate) fn read(reading: Reading, bytes: &Group) -> Result<Step, Halt> {
    match reading.stage {
        Stage::Head => read_head(reading, bytes),
        Stage::Source => read_source(reading, bytes),
        Stage::Pixel => read_pixel(reading, bytes),
        Stage::Rre => read_rre(reading, bytes),
        _ => read_subrectangle(reading, bytes),
    }
}
