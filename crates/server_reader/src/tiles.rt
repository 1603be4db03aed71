//! Hextile (RFC 6143, 7.7.4).

ghost use Rattle.std.specs.Prelude.{◌≡◌, ℕ, ◌+◌, ◌-◌, ◌*◌, ◌<◌, ◌≤◌, min, true, false, if◌then◌else◌, List, length, slice_index, None, Some, IsSome, IfOk, IfErr};
ghost use Rattle.server_reader.specs.declared.stage.Size.{Size};
ghost use Rattle.server_reader.specs.Heard.{HearsAt};
ghost use Rattle.server_reader.specs.OnPicture.{IsOn, StageIsOn, TurnIsOn, size_after};
ghost use Rattle.pixel_translate.specs.Pixel.{server_format};
ghost use Rattle.encode_hextile.specs.Hextile.{nothing};
ghost use Rattle.encode_hextile.specs.Reading.{has_bit, hextile_at};
ghost use Rattle.viewer_picture.specs.Messages.{Display, written};
ghost use Rattle.server_reader.specs.Groups.{pixel_in, tile_length, own_pixels, part_count, part_in};
ghost use Rattle.server_reader.specs.Stages.{rest_of, rectangles_behind, tiles_at_behind, part_of, tile_area, tile_of, tile_parts_onto, left_by};
ghost use Rattle.server_reader.specs.Steps.{state_at, IsTurn, IsRead};
ghost use Rattle.server_reader.specs.Faults.{IsFaultOf};

use crate::fault::ReadFault;
use crate::groups::{has, length_if, pixel_at};
use crate::heads::{next_rectangle, state_at};
use crate::pixels::pixels_of;
use crate::rectangles::part_of;
use crate::stage::{Behind, Rectangle, Size, Stage, TileAt, TileParts, Turn};
use crate::step::Step;
use encode_hextile::Carried;
use pixel_translate::Area;

/// Returns how much of a side of `length` places the tile `index` has: 16, or less at the end.
fn extent(length: u16, index: u16) -> u16
    requires { 16 * index < length }
    ensures { result ≡ min 16 (length - 16 * index) }
{
    (length - 16 * index).min(16)
}

/// Returns the places of a tile.
fn places_of(tile: TileAt) -> Area
    ensures area { result ≡ tile_area tile.rectangle.area (tile_of tile) }
    ensures on { (size : Size) → IsOn size tile.rectangle.area → IsOn size result }
{
    let area = tile.rectangle.area;
    Area {
        x: area.x + 16 * tile.column,
        y: area.y + 16 * tile.row,
        w: extent(area.w, tile.column),
        h: extent(area.h, tile.row),
    }
}

/// Returns what comes next behind a tile that leaves `carried` to the next.
#[tactic(auto, using(crate::proofs::TileLemmas::last_tile))]
fn behind_tile(tile: TileAt, carried: Carried) -> Stage
    ensures rest { (d : Display) (bytes : List ℕ) → rest_of result d bytes ≡ tiles_at_behind tile carried d (Some (d.shown, bytes)) }
    ensures on { (size : Size) → IsOn size tile.rectangle.area → StageIsOn size result }
{
    let rectangle = tile.rectangle;
    let column = tile.column + 1;
    if 16 * u32::from(column) < u32::from(rectangle.area.w) {
        return Stage::Tile(TileAt {
            rectangle,
            column,
            row: tile.row,
            carried,
        });
    }
    let row = tile.row + 1;
    if 16 * u32::from(row) < u32::from(rectangle.area.h) {
        return Stage::Tile(TileAt {
            rectangle,
            column: 0,
            row,
            carried,
        });
    }
    next_rectangle(rectangle.behind)
}

/// Returns what comes next behind a raw tile, which leaves nothing to the next.
pub(crate) fn behind_raw_tile(tile: TileAt) -> Stage
    ensures rest { (d : Display) (bytes : List ℕ) → rest_of result d bytes ≡ tiles_at_behind tile nothing d (Some (d.shown, bytes)) }
    ensures on { (size : Size) → IsOn size tile.rectangle.area → StageIsOn size result }
{
    behind_tile(tile, Carried::nothing())
}

/// Returns what comes next where a rectangle comes in Hextile.
#[tactic(auto, using(crate::proofs::HextileLemmas::no_tiles))]
pub(crate) fn first_tile(rectangle: Rectangle) -> Stage
    ensures rest { (d : Display) (bytes : List ℕ) → rest_of result d bytes
        ≡ rectangles_behind rectangle.behind d (written server_format rectangle.area d.shown
        (hextile_at server_format rectangle.area.w rectangle.area.h bytes)) }
    ensures on { (size : Size) → IsOn size rectangle.area → StageIsOn size result }
{
    if rectangle.area.w == 0 || rectangle.area.h == 0 {
        return next_rectangle(rectangle.behind);
    }
    Stage::Tile(TileAt {
        rectangle,
        column: 0,
        row: 0,
        carried: Carried::nothing(),
    })
}

/// Returns what comes next where `left` subrectangles of a tile are to come.
#[tactic(auto, using(crate::proofs::TileTurns::no_parts_left))]
fn next_part(tile: TileAt, coloured: bool, left: u8) -> Stage
    requires { 0 < left → coloured ≡ false → IsSome tile.carried.foreground }
    ensures rest { (d : Display) (bytes : List ℕ) → rest_of result d bytes ≡ tiles_at_behind tile (left_by coloured tile.carried) d
        (tile_parts_onto (tile_area tile.rectangle.area (tile_of tile)) coloured tile.carried.foreground left d.shown bytes) }
    ensures on { (size : Size) → IsOn size tile.rectangle.area → StageIsOn size result }
{
    if left > 0 {
        return Stage::TileParts(TileParts {
            tile,
            coloured,
            left,
        });
    }
    let carried = Carried {
        background: tile.carried.background,
        foreground: if coloured {
            None
        } else {
            tile.carried.foreground
        },
    };
    behind_tile(tile, carried)
}

/// Returns the pixel at `at` where one is there, else the one that is carried.
fn pixel_or(there: bool, head: &[u8], at: usize, carried: Option<u32>) -> Option<u32>
    requires { there ≡ true → at + 4 ≤ length head.now }
    ensures { result ≡ (if there then Some (pixel_in head.now at) else carried) }
{
    if there {
        return Some(pixel_at(head, at));
    }
    carried
}

/// Returns a tile's background and foreground: each by its own pixel where its bit is set, else the one that is carried to it.
fn own_pixels(carried: Carried, head: &[u8]) -> Carried
    requires coded { has_bit (slice_index head.now 0) 0 ≡ false }
    requires long { length head.now ≡ tile_length (slice_index head.now 0) }
    ensures { result ≡ own_pixels carried head.now }
{
    let bits = head[0];
    let background = pixel_or(has(bits, 1), head, 1, carried.background);
    let behind = 1 + length_if(bits, 1, 4);
    let foreground = pixel_or(has(bits, 2), head, behind, carried.foreground);
    Carried {
        background,
        foreground,
    }
}

/// Returns how many subrectangles a tile has: its head's last byte, where the bit for it is set.
fn part_count(head: &[u8]) -> u8
    requires { 0 < length head.now }
    ensures { result ≡ part_count head.now }
{
    if has(head[0], 3) {
        return head[head.len() - 1];
    }
    0
}

/// Returns whether each of `left` subrectangles has a pixel: its own, or else the foreground.
fn have_pixels(left: u8, coloured: bool, foreground: Option<u32>) -> bool
    ensures yes { result ≡ true → 0 < left → coloured ≡ false → IsSome foreground }
    ensures some { result ≡ false → 0 < left }
    ensures plain { result ≡ false → coloured ≡ false }
    ensures none { result ≡ false → foreground ≡ None }
{
    left == 0 || coloured || foreground.is_some()
}

/// Reads a tile up to its pixels or its subrectangles, and shows its background. Refuses a tile without a background as `NoBackground`,
/// and subrectangles without pixels as `NoForeground`.
pub(crate) fn read_tile<'a>(size: Size, tile: TileAt, head: &[u8]) -> Result<Turn<'a>, ReadFault>
    requires { length head.now ≡ tile_length (slice_index head.now 0) }
    ensures read { IsRead (state_at size (Stage.Tile tile)) head.now result }
    ensures heard { IfOk result (λ turn. HearsAt (Stage.Tile tile) head.now turn.step) }
    ensures on { IsOn size tile.rectangle.area → IfOk result (λ turn. TurnIsOn turn) }
    ensures sized { IfOk result (λ turn. turn.state.size ≡ size_after turn.step size) }
    ensures why { IfErr result (λ fault. IsFaultOf size (Stage.Tile tile) head.now fault) }
{
    let bits = head[0];
    let area = places_of(tile);
    if has(bits, 0) {
        return Ok(Turn {
            state: state_at(size, pixels_of(area, Behind::Tile(tile))),
            step: Step::Head,
        });
    }
    let carried = own_pixels(tile.carried, head);
    let Some(pixel) = carried.background else {
        return Err(ReadFault::NoBackground);
    };
    let coloured = has(bits, 4);
    let left = part_count(head);
    if !have_pixels(left, coloured, carried.foreground) {
        return Err(ReadFault::NoForeground);
    }
    let own = TileAt {
        rectangle: tile.rectangle,
        column: tile.column,
        row: tile.row,
        carried,
    };
    let stage = next_part(own, coloured, left);
    Ok(Turn {
        state: state_at(size, stage),
        step: Step::Fill { area, pixel },
    })
}

/// Returns the places of a subrectangle by its last two bytes: four bits for each number, and the size is one more.
fn part_in(place: u8, size: u8) -> Area
    ensures { result ≡ part_in place size }
{
    Area {
        x: u16::from(place / 16),
        y: u16::from(place % 16),
        w: u16::from(size / 16) + 1,
        h: u16::from(size % 16) + 1,
    }
}

/// Returns the turn of a tile's subrectangle that shows `pixel`, by its last two bytes.
fn part_turn<'a>(size: Size, parts: TileParts, pixel: u32, place: u8, extent: u8) -> Turn<'a>
    ensures step { result.step ≡ Step.Fill (part_of (tile_area parts.tile.rectangle.area (tile_of parts.tile)) (part_in place extent)) pixel }
    ensures state { result.state ≡ state_at size result.state.stage }
    ensures stage { (d : Display) (bytes : List ℕ) → rest_of result.state.stage d bytes
        ≡ tiles_at_behind parts.tile (left_by parts.coloured parts.tile.carried) d
        (tile_parts_onto (tile_area parts.tile.rectangle.area (tile_of parts.tile)) parts.coloured parts.tile.carried.foreground (parts.left - 1) d.shown bytes) }
    ensures on { IsOn size parts.tile.rectangle.area → TurnIsOn result }
    ensures sized { result.state.size ≡ size_after result.step size }
{
    let area = part_of(places_of(parts.tile), part_in(place, extent));
    let stage = next_part(parts.tile, parts.coloured, parts.left - 1);
    Turn {
        state: state_at(size, stage),
        step: Step::Fill { area, pixel },
    }
}

/// Reads a tile's subrectangle.
pub(crate) fn read_tile_part<'a>(size: Size, parts: TileParts, bytes: &[u8]) -> Turn<'a>
    requires { length bytes.now ≡ (if parts.coloured then 6 else 2) }
    ensures read { IsTurn (state_at size (Stage.TileParts parts)) bytes.now result }
    ensures heard { HearsAt (Stage.TileParts parts) bytes.now result.step }
    ensures on { IsOn size parts.tile.rectangle.area → TurnIsOn result }
    ensures sized { result.state.size ≡ size_after result.step size }
{
    if parts.coloured {
        return part_turn(size, parts, pixel_at(bytes, 0), bytes[4], bytes[5]);
    }
    let pixel = parts.tile.carried.foreground.unwrap();
    part_turn(size, parts, pixel, bytes[0], bytes[1])
}
