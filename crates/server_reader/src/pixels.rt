//! Pixels that come row by row (RFC 6143, 7.7.1).

ghost use Rattle.std.specs.Prelude.{◌≡◌, ℕ, ◌+◌, ◌*◌, ◌^◌, ◌<◌, ◌≤◌, List, length, Some};
ghost use Rattle.server_reader.specs.declared.stage.Size.{Size};
ghost use Rattle.server_reader.specs.Heard.{HearsAt};
ghost use Rattle.server_reader.specs.OnPicture.{IsOn, BehindIsOn, StageIsOn, TurnIsOn, size_after};
ghost use Rattle.pixel_translate.specs.Pixel.{server_format};
ghost use Rattle.encode_raw.specs.Reading.{patched, raw_at};
ghost use Rattle.viewer_picture.specs.Messages.{Display, written};
ghost use Rattle.server_reader.specs.Stages.{rest_of, rectangles_behind, pixels_behind, pixels_rest, rows_below};
ghost use Rattle.server_reader.specs.Steps.{state_at, rows_in, GoesOnAs, IsTurn};
ghost use Rattle.server_reader.specs.Runs.{IsRun};

use crate::groups::pixel_at;
use crate::heads::{next_rectangle, state_at};
use crate::stage::{Behind, PixelRows, Rectangle, Size, Stage, Turn};
use crate::step::Step;
use crate::tiles::behind_raw_tile;
use pixel_translate::Area;

/// How many bytes a pixel has.
pub(crate) const PIXEL: usize = 4;

/// Returns how many bytes the pixels of an area have.
pub(crate) fn byte_count(area: Area) -> usize
    ensures { result ≡ 4 * (area.w * area.h) }
{
    PIXEL * (usize::from(area.w) * usize::from(area.h))
}

/// Returns what comes next where all pixels of `area` are to come. An area without places has none.
#[tactic(auto, using(crate::proofs::RunLemmas::no_pixels))]
pub(crate) fn pixels_of(area: Area, behind: Behind) -> Stage
    requires right { area.x + area.w < 2 ^ 16 }
    requires bottom { area.y + area.h < 2 ^ 16 }
    ensures rest { (d : Display) (bytes : List ℕ) → rest_of result d bytes ≡ pixels_rest area behind d bytes }
    ensures on { (size : Size) → IsOn size area → BehindIsOn size behind → StageIsOn size result }
{
    if area.w == 0 || area.h == 0 {
        return behind_pixels(behind);
    }
    Stage::Pixels(PixelRows {
        area,
        column: 0,
        behind,
    })
}

/// Returns what comes next behind pixels.
fn behind_pixels(behind: Behind) -> Stage
    ensures rest { (d : Display) (bytes : List ℕ) → rest_of result d bytes ≡ pixels_behind behind d (Some (d.shown, bytes)) }
    ensures on { (size : Size) → BehindIsOn size behind → StageIsOn size result }
{
    match behind {
        Behind::Rectangles(count) => next_rectangle(count),
        Behind::Tile(tile) => behind_raw_tile(tile),
    }
}

impl PixelRows {
    /// Returns the places of the next pixels where `count` of them came: as many whole rows as came, or else a part of one row.
    pub(crate) fn run(self, count: usize) -> Area
        requires { 0 < count }
        ensures run { IsRun self result }
        ensures few { result.w * result.h ≤ count }
        ensures on { (size : Size) → IsOn size self.area → IsOn size result }
    {
        let columns = usize::from(self.area.w);
        if self.column == 0 && count >= columns {
            let rows = (count / columns).min(usize::from(self.area.h)) as u16;
            return Area {
                h: rows,
                ..self.area
            };
        }
        let width = count.min(columns - usize::from(self.column)) as u16;
        Area {
            x: self.area.x + self.column,
            y: self.area.y,
            w: width,
            h: 1,
        }
    }

    /// Returns what comes next behind `rows` whole rows.
    fn behind_rows(self, rows: u16) -> Stage
        requires { rows ≤ self.area.h }
        ensures rest { (d : Display) (bytes : List ℕ) → rest_of result d bytes
            ≡ pixels_rest (rows_below self.area rows) self.behind d bytes }
        ensures on { (size : Size) → StageIsOn size (Stage.Pixels self) → StageIsOn size result }
    {
        let area = Area {
            y: self.area.y + rows,
            h: self.area.h - rows,
            ..self.area
        };
        pixels_of(area, self.behind)
    }

    /// Returns what comes next behind the pixels of `run`.
    pub(crate) fn behind_run(self, run: Area) -> Stage
        requires { IsRun self run }
        ensures rest { (front : List ℕ) → length front ≡ 4 * (run.w * run.h) →
            GoesOnAs (Stage.Pixels self) front (λ shown. patched server_format run (rows_in run.w front) shown) result }
        ensures on { (size : Size) → StageIsOn size (Stage.Pixels self) → StageIsOn size result }
    {
        let column = self.column + run.w;
        if column >= self.area.w {
            return self.behind_rows(run.h);
        }
        Stage::Pixels(PixelRows {
            area: self.area,
            column,
            behind: self.behind,
        })
    }
}

/// Reads one pixel.
pub(crate) fn read_pixel<'a>(size: Size, rows: PixelRows, bytes: &[u8]) -> Turn<'a>
    requires { length bytes.now ≡ 4 }
    ensures read { IsTurn (state_at size (Stage.Pixels rows)) bytes.now result }
    ensures heard { HearsAt (Stage.Pixels rows) bytes.now result.step }
    ensures on { StageIsOn size (Stage.Pixels rows) → TurnIsOn result }
    ensures sized { result.state.size ≡ size_after result.step size }
{
    let area = rows.run(1);
    let pixel = pixel_at(bytes, 0);
    Turn {
        state: state_at(size, rows.behind_run(area)),
        step: Step::Fill { area, pixel },
    }
}

/// Returns what comes next where a rectangle comes in Raw (RFC 6143, 7.7.1).
pub(crate) fn first_pixels(rectangle: Rectangle) -> Stage
    ensures rest { (d : Display) (bytes : List ℕ) → rest_of result d bytes
        ≡ rectangles_behind rectangle.behind d (written server_format rectangle.area d.shown
        (raw_at server_format rectangle.area.w rectangle.area.h bytes)) }
    ensures on { (size : Size) → IsOn size rectangle.area → StageIsOn size result }
{
    pixels_of(rectangle.area, Behind::Rectangles(rectangle.behind))
}
