//! The tiles of a rectangle in Hextile (RFC 6143 section 7.7.4).

ghost use Rattle.std.specs.Prelude.{◌≡◌, ◌-◌, ◌≤◌, min, IfSome};
ghost use Rattle.rfb_viewer.specs.Read.{in_tile, tile_block};

use crate::fault::{FaultKind, Halt};
use crate::groups::{Group, pixel_in};
use crate::rectangles::by_pixels;
use crate::stages::{Block, Effect, Reading, Stage, Step, Tile, halt, pixel_size, silent};
use pixel_translate::Area;

const RAW: u8 = 1;

const BACKGROUND: u8 = 2;

const FOREGROUND: u8 = 4;

const SUBRECTANGLES: u8 = 8;

const COLOURED: u8 = 16;

/// Returns whether `bit` is set in `bits`.
fn has(bits: u8, bit: u8) -> bool {
    bits & bit != 0
}

/// Goes on to the tile at a rectangle's corner, to which nothing is carried.
pub(crate) fn first_tile(reading: Reading) -> Reading
    ensures { result.area ≡ reading.area }
{
    let tile = Tile {
        column: 0,
        row: 0,
        bits: 0,
        background: None,
        foreground: None,
    };
    Reading {
        tile: Some(tile),
        stage: Stage::Bits,
        ..reading
    }
}

/// Returns how much of a side of `length` a tile has that begins at `start`: 16, or less at the end.
fn extent(length: u16, start: u16) -> u16
    ensures { result ≡ min (length - start) 16 }
{
    length.saturating_sub(start).min(16)
}

/// Returns the places of `tile`.
fn places_of(area: Area, tile: Tile) -> Block
    ensures { result ≡ tile_block area tile }
{
    Block {
        x: u32::from(area.x) + u32::from(tile.column),
        y: u32::from(area.y) + u32::from(tile.row),
        columns: extent(area.w, tile.column),
        rows: extent(area.h, tile.row),
    }
}

/// Returns the tile behind this one, in its row of tiles, else at the start of the next row, unless it is the last.
fn next_tile(area: Area, tile: Tile) -> Option<Tile>
    ensures background { IfSome result (λ next. next.background ≡ tile.background) }
    ensures foreground { IfSome result (λ next. next.foreground ≡ tile.foreground) }
{
    if u32::from(tile.column) + 16 < u32::from(area.w) {
        Some(Tile {
            column: tile.column + 16,
            ..tile
        })
    } else if u32::from(tile.row) + 16 < u32::from(area.h) {
        Some(Tile {
            column: 0,
            row: tile.row + 16,
            ..tile
        })
    } else {
        None
    }
}

/// Goes on to the tile behind `tile` in its rectangle, or to the next rectangle.
fn behind(reading: Reading, tile: Tile) -> Reading {
    match next_tile(reading.area, tile) {
        Some(next) => Reading {
            tile: Some(next),
            stage: Stage::Bits,
            ..reading
        },
        None => reading.next_rectangle(),
    }
}

/// Goes on behind a block that came pixel by pixel: to the next tile, to which nothing is carried, or to the next rectangle.
pub(crate) fn next_of(reading: Reading) -> Reading {
    match reading.tile {
        Some(tile) => behind(
            reading,
            Tile {
                background: None,
                foreground: None,
                ..tile
            },
        ),
        None => reading.next_rectangle(),
    }
}

/// Goes on behind a tile's last subrectangle. Where these have pixels of their own, it carries no foreground on.
fn behind_subrectangles(reading: Reading, tile: Tile) -> Reading {
    if has(tile.bits, COLOURED) {
        behind(
            reading,
            Tile {
                foreground: None,
                ..tile
            },
        )
    } else {
        behind(reading, tile)
    }
}

/// Goes on behind a tile's foreground: to the count of its subrectangles, or to what comes behind these if it has none.
fn behind_foreground(reading: Reading, tile: Tile) -> Reading {
    if has(tile.bits, SUBRECTANGLES) {
        Reading {
            tile: Some(tile),
            stage: Stage::Count,
            ..reading
        }
    } else {
        behind_subrectangles(reading, tile)
    }
}

/// Shows `pixel`, a tile's background, at all its places, and goes on behind it.
fn with_background(reading: Reading, tile: Tile, pixel: u32) -> Step
    ensures { result.effect ≡ Effect.Fill (tile_block reading.area tile) pixel }
{
    let tile = Tile {
        background: Some(pixel),
        ..tile
    };
    let block = places_of(reading.area, tile);
    let reading = if has(tile.bits, FOREGROUND) {
        Reading {
            tile: Some(tile),
            stage: Stage::Foreground,
            ..reading
        }
    } else {
        behind_foreground(reading, tile)
    };
    Step {
        reading,
        effect: Effect::Fill { block, pixel },
    }
}

/// Reads the bits that a tile begins with. Beside the bit for raw pixels no other matters. Else refuses a foreground for subrectangles
/// with pixels of their own as `TwoForegrounds`, then a tile without a background, to which none is carried, as `NoBackground`.
fn read_bits(reading: Reading, tile: Tile, bits: u8) -> Result<Step, Halt> {
    let tile = Tile { bits, ..tile };
    if has(bits, RAW) {
        let raw = by_pixels(reading, places_of(reading.area, tile));
        return silent(Reading {
            tile: Some(tile),
            ..raw
        });
    }
    if has(bits, FOREGROUND) && has(bits, COLOURED) {
        return halt(FaultKind::TwoForegrounds, 0);
    }
    if has(bits, BACKGROUND) {
        return silent(Reading {
            tile: Some(tile),
            stage: Stage::Background,
            ..reading
        });
    }
    match tile.background {
        Some(pixel) => Ok(with_background(reading, tile, pixel)),
        None => halt(FaultKind::NoBackground, 0),
    }
}

/// Reads how many subrectangles a tile has. Refuses subrectangles with no pixels of their own as `NoForeground` if there is no
/// foreground.
fn read_count(reading: Reading, tile: Tile, count: u8) -> Result<Step, Halt> {
    let coloured = has(tile.bits, COLOURED);
    if count == 0 {
        return silent(behind_subrectangles(reading, tile));
    }
    if !coloured && tile.foreground.is_none() {
        return halt(FaultKind::NoForeground, 0);
    }
    let stage = if coloured {
        Stage::Coloured
    } else {
        Stage::Plain
    };
    silent(Reading {
        left: u32::from(count),
        stage,
        ..reading
    })
}

/// Returns the first byte of a subrectangle, 0 for `place` and 1 for `size`, with which it leaves `tile`, if it leaves it.
fn leaves_tile(tile: Block, place: u8, size: u8) -> Option<u64>
    ensures { IfSome result (λ k. k ≤ 1) }
{
    let (x, y) = (u16::from(place / 16), u16::from(place % 16));
    let (columns, rows) = (u16::from(size / 16) + 1, u16::from(size % 16) + 1);
    if x >= tile.columns || y >= tile.rows {
        Some(0)
    } else if x + columns > tile.columns || y + rows > tile.rows {
        Some(1)
    } else {
        None
    }
}

/// Returns the places of a tile's subrectangle, which is counted from the tile's corner.
fn placed(area: Area, tile: Tile, place: u8, size: u8) -> Block
    ensures { result ≡ in_tile area tile place size }
{
    Block {
        x: u32::from(area.x) + u32::from(tile.column) + u32::from(place / 16),
        y: u32::from(area.y) + u32::from(tile.row) + u32::from(place % 16),
        columns: u16::from(size / 16) + 1,
        rows: u16::from(size % 16) + 1,
    }
}

/// Reads a subrectangle of `pixel`, whose place stands at `at`. Refuses one that leaves the tile as `Subrectangle`.
fn read_subrectangle(
    reading: Reading,
    tile: Tile,
    pixel: u32,
    bytes: &Group,
    at: usize,
) -> Result<Step, Halt>
    requires { at ≤ 4 }
{
    let (place, size) = (bytes[at], bytes[at + 1]);
    if let Some(offset) = leaves_tile(places_of(reading.area, tile), place, size) {
        return halt(FaultKind::Subrectangle, at as u64 + offset);
    }
    let effect = Effect::Fill {
        block: placed(reading.area, tile, place, size),
        pixel,
    };
    let reading = if reading.left > 1 {
        Reading {
            left: reading.left - 1,
            ..reading
        }
    } else {
        behind_subrectangles(reading, tile)
    };
    Ok(Step { reading, effect })
}

/// Reads a subrectangle of the foreground. Refuses it as `NoForeground` if there is none.
fn read_plain(reading: Reading, tile: Tile, bytes: &Group) -> Result<Step, Halt> {
    match tile.foreground {
        Some(pixel) => read_subrectangle(reading, tile, pixel, bytes, 0),
        None => halt(FaultKind::NoForeground, 0),
    }
}

/// Reads a group of `tile`.
fn read_in(reading: Reading, tile: Tile, bytes: &Group) -> Result<Step, Halt> {
    match reading.stage {
        Stage::Bits => read_bits(reading, tile, bytes[0]),
        Stage::Background => Ok(with_background(
            reading,
            tile,
            pixel_in(&reading.format, bytes, 0),
        )),
        Stage::Foreground => {
            let foreground = Some(pixel_in(&reading.format, bytes, 0));
            silent(behind_foreground(reading, Tile { foreground, ..tile }))
        }
        Stage::Count => read_count(reading, tile, bytes[0]),
        Stage::Coloured => {
            let pixel = pixel_in(&reading.format, bytes, 0);
            read_subrectangle(reading, tile, pixel, bytes, pixel_size(&reading.format))
        }
        _ => read_plain(reading, tile, bytes),
    }
}

/// Reads a group of the rectangle's tile.
pub(crate) fn read(reading: Reading, bytes: &Group) -> Result<Step, Halt> {
    match reading.tile {
        Some(tile) => read_in(reading, tile, bytes),
        None => halt(FaultKind::Encoding, 0),
    }
}
