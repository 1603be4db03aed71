//! The encoding Hextile (RFC 6143, 7.7.4): tiles of 16 by 16, each a background and subrectangles
//! of one pixel each, or its pixels where that is no longer.
//!
//! Nothing is allocated beyond the output: a tile's pixels and its subrectangles as bytes stand in
//! arrays on the stack. In a tile of one or two pixels these are counted, once each. In any other
//! the pixels are counted in buckets, and one by one only where a bucket has as many as the best
//! background before it. A tile in which too many places differ from the one before and the one
//! above is raw at once; else the scan ends with the row in which the subrectangles are as long as
//! the pixels, and passes over each row that is as the one above.
//!
//! A white tile, which appends the head and `02 ffffff00`, a background and no subrectangle:
//!
//! ```
//! let mut out = Vec::new(alloc);
//! let area = Area { x: 0, y: 0, w: 2, h: 2 };
//! encode_hextile(&mut out, area, &[0xff_ffff; 4], &PixelFormat::server())?;
//! ```
#![tactic(auto)]

ghost use Rattle.std.specs.Prelude.{◌≡◌, ℕ, List, ◌+◌, ◌*◌, ◌<◌, ◌≤◌, ◌++◌, length, map, IfOk, OnOk, OnErr};
ghost use Rattle.pixel_translate.specs.Pixel.{pixel};
ghost use Rattle.subrectangles.specs.Begins.{BeginsWith};
ghost use Rattle.encode_hextile.specs.Tiles.{pixel_rows, tiles_in};
ghost use Rattle.encode_hextile.specs.Pieces.{hextile_from, IsRowOfTiles};
ghost use Rattle.encode_hextile.specs.Claims.{hextile_reads_back};
ghost use Rattle.encode_hextile.specs.Hextile.{tiles, carried_after, hextile, hextile_of};

mod bytes;
mod cut;
mod palette;
mod raw;
mod scan;

use crate::bytes::{NOTHING, put_tile};
use crate::cut::{cut_tile, side_of};
use encode_raw::rect_header;
use pixel_translate::Table;
pub use pixel_translate::{Area, PixelFormat};
use std::alloc::AllocError;
pub use subrectangles::rows::Rows;
use subrectangles::{background_is_most_frequent, subrectangles_are_all_listed};

/// The error of a call that is refused memory.
pub use std::alloc::AllocError as OutOfMemory;

/// What the tiles so far leave to the next (RFC 6143, 7.7.4): the pixels that need not be said again.
#[derive(Clone, Copy)]
pub struct Carried {
    /// The background of the tile before, unless that was raw.
    pub background: Option<u32>,
    /// The foreground, unless a tile since it was said was raw or had coloured subrectangles.
    pub foreground: Option<u32>,
}

impl Carried {
    ghost use Rattle.std.specs.Prelude.{◌≡◌};
    ghost use Rattle.encode_hextile.specs.Hextile.{nothing};

    /// Returns what is carried to a rectangle's first tile: nothing.
    pub fn nothing() -> Carried
        ensures { result ≡ nothing }
    {
        NOTHING
    }
}

/// Which pixels a tile has beside its background: none, just one, or several.
#[derive(Clone, Copy)]
pub(crate) enum TilePixels {
    Alone,
    OneOther(u32),
    Several,
}

/// Appends a row of tiles. Returns what the last of them leaves.
fn put_row_of_tiles(
    out: &mut Vec<u8>,
    colours: &Rows,
    row: usize,
    table: &Table,
    before: Carried,
) -> Result<Carried, AllocError>
    requires top { 16 * row < colours.now.height }
    ensures next { IfOk result (λ next. next ≡
        carried_after table.now (pixel_rows table.now colours.now) before (tiles_in colours.now.width row)) }
    ensures ok { OnOk result (out.new.items ≡
        out.old.items ++ tiles table.now (pixel_rows table.now colours.now) before (tiles_in colours.now.width row)) }
    ensures err { OnErr result (BeginsWith out.old.items out.new.items) }
{
    let format = table.format();
    let is_server = format == PixelFormat::server();
    let down = side_of(colours.height, row);
    let mut places = [0; 256];
    let mut carried = before;
    for column in 0..colours.width.div_ceil(16) {
        let across = side_of(colours.width, column);
        let size = across * down;
        cut_tile(&mut places[..size], colours, column, row, table, is_server);
        let pixels = Rows {
            values: &places[..size],
            width: across,
            height: down,
        };
        carried = put_tile(out, &pixels, &format, carried)?;
    }
    Ok(carried)
}

/// Appends one row of a rectangle's tiles (RFC 6143, 7.7.4), in the format of the table. `colours` are those of its rows of places,
/// at most 16. A rectangle is its head and its rows of tiles from the top, each with what the one before it left, `before`; the
/// first with nothing. Returns what this one leaves. If memory is refused, appends nothing.
pub fn encode_row_of_tiles(
    out: &mut Vec<u8>,
    colours: &Rows,
    table: &Table,
    before: Carried,
) -> Result<Carried, AllocError>
    requires { colours.now.height ≤ 16 }
    ensures more { OnOk result (length out.old.items < length out.new.items) }
    ensures next { IfOk result (λ next. next ≡
        carried_after table.now (pixel_rows table.now colours.now) before (tiles_in colours.now.width 0)) }
    ensures ok { OnOk result (out.new.items ≡
        out.old.items ++ tiles table.now (pixel_rows table.now colours.now) before (tiles_in colours.now.width 0)) }
    // So, where these are the colours of a rectangle's row of tiles, its data go on behind them.
    ensures goes_on { (h : ℕ) (all : List ℕ) (j : ℕ) → IsRowOfTiles colours.now h all j →
        IfOk result (λ next. out.new.items ++ hextile_from table.now colours.now.width h (map (pixel table.now) all) next (j + 1) ≡
        out.old.items ++ hextile_from table.now colours.now.width h (map (pixel table.now) all) before j) }
    ensures err { OnErr result (out.new.items ≡ out.old.items) }
{
    let start = out.len();
    let done = put_row_of_tiles(out, colours, 0, table, before);
    if done.is_err() {
        out.truncate(start);
    }
    done
}

/// Appends the tiles, row by row.
fn put_tiles(out: &mut Vec<u8>, colours: &Rows, table: &Table) -> Result<(), AllocError>
    ensures ok { OnOk result (out.new.items ≡
        out.old.items ++ hextile_of table.now colours.now.width colours.now.height (map (pixel table.now) colours.now.values.now)) }
    ensures err { OnErr result (BeginsWith out.old.items out.new.items) }
{
    let mut carried = NOTHING;
    for row in 0..colours.height.div_ceil(16) {
        carried = put_row_of_tiles(out, colours, row, table, carried)?;
    }
    Ok(())
}

/// Appends the head and the tiles.
fn put_rectangle(
    out: &mut Vec<u8>,
    area: Area,
    colours: &[u32],
    table: &Table,
) -> Result<(), AllocError>
    requires wide { 1 ≤ area.w }
    requires high { 1 ≤ area.h }
    requires whole { length colours.now ≡ area.w * area.h }
    ensures ok { OnOk result (out.new.items ≡ out.old.items ++ hextile table.now area colours.now) }
    ensures err { OnErr result (BeginsWith out.old.items out.new.items) }
{
    rect_header(out, area, 5)?;
    let rows = Rows {
        values: colours,
        width: usize::from(area.w),
        height: usize::from(area.h),
    };
    put_tiles(out, &rows, table)
}

/// Appends a rectangle in Hextile (RFC 6143, 7.7.4): the colours `0x00RRGGBB` stand row by row from the top, each from left to
/// right, as many as the area has places. In each tile the background is the most frequent pixel, of several the smallest; the
/// subrectangles stand by y and then by x. A tile is raw if that is no longer. If memory is refused, appends nothing.
pub fn encode_hextile(
    out: &mut Vec<u8>,
    area: Area,
    colours: &[u32],
    format: &PixelFormat,
) -> Result<(), AllocError>
    requires wide { 1 ≤ area.w }
    requires high { 1 ≤ area.h }
    requires whole { length colours.now ≡ area.w * area.h }
    ensures ok { OnOk result (out.new.items ≡ out.old.items ++ hextile format.now area colours.now) }
    ensures err { OnErr result (out.new.items ≡ out.old.items) }
{
    encode_hextile_with_table(out, area, colours, &Table::new(format))
}

/// Appends what `encode_hextile` does, by a table of the format, which one call after another can use.
pub fn encode_hextile_with_table(
    out: &mut Vec<u8>,
    area: Area,
    colours: &[u32],
    table: &Table,
) -> Result<(), AllocError>
    requires wide { 1 ≤ area.w }
    requires high { 1 ≤ area.h }
    requires whole { length colours.now ≡ area.w * area.h }
    ensures ok { OnOk result (out.new.items ≡ out.old.items ++ hextile table.now area colours.now) }
    ensures err { OnErr result (out.new.items ≡ out.old.items) }
{
    let before = out.len();
    let done = put_rectangle(out, area, colours, table);
    if done.is_err() {
        out.truncate(before);
    }
    done
}

/// Proves that a viewer that reads a rectangle in Hextile by RFC 6143 shows each colour's pixel at its place, and every other place
/// as before.
pub fn hextile_is_read_back()
    ensures { hextile_reads_back }
{
    background_is_most_frequent();
    subrectangles_are_all_listed();
}
