//! The rectangles of an update (RFC 6143, 7.6.1), a copy (7.7.2), RRE (7.7.3) and a new size (7.8.2).

ghost use Rattle.std.specs.Prelude.{◌≡◌, ℕ, true, false, ◌+◌, ◌-◌, ◌^◌, ◌<◌, List, length, IfOk, IfErr, IfSome, IfNone};
ghost use Rattle.server_reader.specs.declared.stage.Size.{Size};
ghost use Rattle.server_reader.specs.Heard.{HearsAt};
ghost use Rattle.server_reader.specs.OnPicture.{IsOn, StageIsOn, TurnIsOn, size_after};
ghost use Rattle.messages.specs.Grammar.{is_desktop_size};
ghost use Rattle.viewer_picture.specs.Messages.{Display, is_in_picture, may_come, rectangles_at};
ghost use Rattle.server_reader.specs.Stages.{listed, agreed, part_of, rest_of, IsDataStage, rectangles_behind, rre_parts_onto};
ghost use Rattle.server_reader.specs.Steps.{state_at, IsTurn, IsRead};
ghost use Rattle.server_reader.specs.Faults.{IsFaultOf};

use crate::fault::ReadFault;
use crate::groups::{area_in, be16_at, be32_at, encoding_in, pixel_at};
use crate::heads::{next_rectangle, state_at};
use crate::pixels::first_pixels;
use crate::stage::{Rectangle, RreParts, Size, Stage, Turn};
use crate::step::Step;
use crate::tiles::first_tile;
use pixel_translate::Area;

// The encodings (RFC 6143, 7.7 and 7.8.2).

const RAW: i32 = 0;

const COPY_RECT: i32 = 1;

const RRE: i32 = 2;

const HEXTILE: i32 = 5;

const DESKTOP_SIZE: i32 = -223;

/// Returns whether an encoding is a new size (RFC 6143, 7.8.2).
fn is_desktop_size(encoding: i32) -> bool
    ensures { result ≡ is_desktop_size encoding }
{
    encoding == DESKTOP_SIZE
}

/// Returns whether an area lies on a picture.
fn is_on(size: Size, area: Area) -> bool
    ensures test { result ≡ is_in_picture (agreed size) area }
    ensures on { result ≡ true → IsOn size area }
{
    u32::from(area.x) + u32::from(area.w) <= u32::from(size.width)
        && u32::from(area.y) + u32::from(area.h) <= u32::from(size.height)
}

/// Returns the turn to a picture of a new size, that of `area`, whose place says nothing (RFC 6143, 7.8.2).
fn resized<'a>(area: Area, behind: u16) -> Turn<'a>
    ensures step { result.step ≡ Step.Size area.w area.h }
    ensures state { result.state ≡ state_at (record { width = area.w; height = area.h }) result.state.stage }
    ensures stage { (d : Display) (bytes : List ℕ) → rest_of result.state.stage d bytes ≡ rectangles_at behind d bytes }
    ensures on { TurnIsOn result }
    ensures sized { (size : Size) → result.state.size ≡ size_after result.step size }
{
    let size = Size {
        width: area.w,
        height: area.h,
    };
    let step = Step::Size {
        width: area.w,
        height: area.h,
    };
    Turn {
        state: state_at(size, next_rectangle(behind)),
        step,
    }
}

/// Returns what comes next where a rectangle comes in `encoding` (RFC 6143, 7.7); nothing where that wasn't listed (7.5.2).
fn data_of(rectangle: Rectangle, encoding: i32) -> Option<Stage>
    ensures listed { IfSome result (λ _. may_come listed encoding ≡ true) }
    ensures stage { IfSome result (λ at. IsDataStage rectangle encoding at) }
    ensures on { IfSome result (λ at. (size : Size) → IsOn size rectangle.area → StageIsOn size at) }
    ensures other { IfNone result (is_desktop_size encoding ≡ false → may_come listed encoding ≡ false) }
{
    match encoding {
        RAW => Some(first_pixels(rectangle)),
        COPY_RECT => Some(Stage::Source(rectangle)),
        RRE => Some(Stage::Rre(rectangle)),
        HEXTILE => Some(first_tile(rectangle)),
        _ => None,
    }
}

/// Reads the head of a rectangle, with `behind` more behind it (RFC 6143, 7.6.1). Refuses one that leaves the picture as `OffPicture`,
/// then an encoding that wasn't listed as `UnknownEncoding`.
pub(crate) fn read_rectangle<'a>(
    size: Size,
    behind: u16,
    head: &[u8],
) -> Result<Turn<'a>, ReadFault>
    requires { length head.now ≡ 12 }
    ensures read { IsRead (state_at size (Stage.Rectangle behind)) head.now result }
    ensures heard { IfOk result (λ turn. HearsAt (Stage.Rectangle behind) head.now turn.step) }
    ensures on { IfOk result (λ turn. TurnIsOn turn) }
    ensures sized { IfOk result (λ turn. turn.state.size ≡ size_after turn.step size) }
    ensures why { IfErr result (λ fault. IsFaultOf size (Stage.Rectangle behind) head.now fault) }
{
    let area = area_in(head, 0);
    let encoding = encoding_in(head);
    if is_desktop_size(encoding) {
        return Ok(resized(area, behind));
    }
    if !is_on(size, area) {
        return Err(ReadFault::OffPicture);
    }
    let Some(stage) = data_of(Rectangle { area, behind }, encoding) else {
        return Err(ReadFault::UnknownEncoding(encoding));
    };
    Ok(Turn {
        state: state_at(size, stage),
        step: Step::Head,
    })
}

/// Reads the place that a rectangle is a copy of (RFC 6143, 7.7.2). Refuses one that leaves the picture as `CopyOffPicture`.
pub(crate) fn read_source<'a>(
    size: Size,
    rectangle: Rectangle,
    bytes: &[u8],
) -> Result<Turn<'a>, ReadFault>
    requires { length bytes.now ≡ 4 }
    ensures read { IsRead (state_at size (Stage.Source rectangle)) bytes.now result }
    ensures heard { IfOk result (λ turn. HearsAt (Stage.Source rectangle) bytes.now turn.step) }
    ensures on { IsOn size rectangle.area → IfOk result (λ turn. TurnIsOn turn) }
    ensures sized { IfOk result (λ turn. turn.state.size ≡ size_after turn.step size) }
    ensures why { IfErr result (λ fault. IsFaultOf size (Stage.Source rectangle) bytes.now fault) }
{
    let area = rectangle.area;
    let (x, y) = (be16_at(bytes, 0), be16_at(bytes, 2));
    if !is_on(size, Area { x, y, ..area }) {
        return Err(ReadFault::CopyOffPicture);
    }
    let stage = next_rectangle(rectangle.behind);
    Ok(Turn {
        state: state_at(size, stage),
        step: Step::Copy { area, x, y },
    })
}

/// Returns what comes next where `left` subrectangles of RRE are to come.
#[tactic(auto, using(crate::proofs::RectangleTurns::no_parts_left))]
fn next_part(rectangle: Rectangle, left: u32) -> Stage
    ensures rest { (d : Display) (bytes : List ℕ) → rest_of result d bytes
        ≡ rectangles_behind rectangle.behind d (rre_parts_onto rectangle.area left d.shown bytes) }
    ensures on { (size : Size) → IsOn size rectangle.area → StageIsOn size result }
{
    if left == 0 {
        return next_rectangle(rectangle.behind);
    }
    Stage::RreParts(RreParts { rectangle, left })
}

/// Reads the head of RRE (RFC 6143, 7.7.3), whose background all of the rectangle shows.
pub(crate) fn read_rre<'a>(size: Size, rectangle: Rectangle, bytes: &[u8]) -> Turn<'a>
    requires { length bytes.now ≡ 8 }
    ensures read { IsTurn (state_at size (Stage.Rre rectangle)) bytes.now result }
    ensures heard { HearsAt (Stage.Rre rectangle) bytes.now result.step }
    ensures on { IsOn size rectangle.area → TurnIsOn result }
    ensures sized { result.state.size ≡ size_after result.step size }
{
    let stage = next_part(rectangle, be32_at(bytes, 0));
    let step = Step::Fill {
        area: rectangle.area,
        pixel: pixel_at(bytes, 4),
    };
    Turn {
        state: state_at(size, stage),
        step,
    }
}

/// Returns what of `part`, which is counted from the corner of `area`, lies in it.
pub(crate) fn part_of(area: Area, part: Area) -> Area
    requires right { area.x + area.w < 2 ^ 16 }
    requires bottom { area.y + area.h < 2 ^ 16 }
    ensures part { result ≡ part_of area part }
    ensures on { (size : Size) → IsOn size area → IsOn size result }
{
    Area {
        x: area.x + part.x.min(area.w),
        y: area.y + part.y.min(area.h),
        w: part.w.min(area.w.saturating_sub(part.x)),
        h: part.h.min(area.h.saturating_sub(part.y)),
    }
}

/// Reads a subrectangle of RRE (RFC 6143, 7.7.3).
pub(crate) fn read_rre_part<'a>(size: Size, parts: RreParts, bytes: &[u8]) -> Turn<'a>
    requires { length bytes.now ≡ 12 }
    ensures read { IsTurn (state_at size (Stage.RreParts parts)) bytes.now result }
    ensures heard { HearsAt (Stage.RreParts parts) bytes.now result.step }
    ensures on { IsOn size parts.rectangle.area → TurnIsOn result }
    ensures sized { result.state.size ≡ size_after result.step size }
{
    let step = Step::Fill {
        area: part_of(parts.rectangle.area, area_in(bytes, 4)),
        pixel: pixel_at(bytes, 0),
    };
    Turn {
        state: state_at(size, next_part(parts.rectangle, parts.left - 1)),
        step,
    }
}
