//! What a source says, drawn on a canvas.

ghost use Rattle.std.specs.Prelude.{◌≡◌, ℕ, ◌+◌, ◌*◌, ◌/◌, ◌≤◌, ◌<◌, true, [], length, slice_index, List, None, OnOk, OnErr, IsOkUnless, IfErr};
ghost use Rattle.screen.specs.declared.Config.{Config};
ghost use Rattle.screen.specs.declared.Event.{Event};
ghost use Rattle.screen.specs.Alone.{config_refusal, is_size};
ghost use Rattle.screen.specs.State.{state};
ghost use Rattle.connections.specs.Drawing.{Draws};
ghost use Rattle.server_reader.specs.declared.stage.Size.{Size};
ghost use Rattle.server_reader.specs.OnPicture.{StepIsOn, size_after};
ghost use Rattle.source_pixels.specs.Source.{source_refusal};
ghost use Rattle.screen.specs.Taken.{taken};
ghost use Rattle.source_picture.specs.Bands.{no_band, IsSmall, GoesOnWith, rows_of, with_band};
ghost use Rattle.source_picture.specs.Painting.{with_pixels, with_rows, with_pixel, with_copy, IsPainted, HasSize, IsDone, LiesOn, IsOnFrame, IsRefusedFor};
ghost use Rattle.source_picture.specs.Texts.{with_bytes, text_after};

use crate::band::{Band, STRIDE};
use crate::text::Text;
use connections::{Canvas, Draw, ScreenError};
use server_reader::{Area, Step};
use source_pixels::{PixelSource, SourceFormat, TrueColour};
use std::alloc::Global;

/// How many places are filled at once: two rows of the widest picture.
const PLACES: usize = 16_384;

/// How many columns and rows an area has at most that waits for those beside it: those of a tile of Hextile (RFC 6143, 7.7.4).
const TILE: u16 = 16;

/// How many columns and rows a picture has at most.
const LONGEST_SIDE: u16 = 8192;

/// How many bytes a pixel of a source has.
const PIXEL: usize = 4;

/// Takes pixels of an area into the picture, four bytes each, the lowest first, as `Canvas::take` does; their rows begin a stride of bytes
/// behind the one above. Refused as `BadPixelCount` where there are fewer than places, and as `OutOfMemory`, behind which some of them may
/// be in the picture.
fn take_rows(
    canvas: &mut Canvas,
    alloc: Global,
    area: Area,
    bytes: &[u8],
    stride: usize,
) -> Result<(), ScreenError>
    ensures taken { (config : Config) (list : List Event) → config_refusal config ≡ None → canvas.old.screen ≡ state config list →
        OnOk result (canvas.new.screen.picture ≡ taken (rows_of area bytes.now stride) area.x area.y canvas.old.screen.picture) }
    ensures refused { source_refusal (rows_of area bytes.now stride) ≡ None → IsOkUnless result ScreenError.OutOfMemory }
    ensures draws { Draws canvas.old canvas.new }
{
    let (width, height) = (usize::from(area.w), usize::from(area.h));
    let format = SourceFormat::TrueColour(TrueColour::server());
    let Ok(source) = PixelSource::new(bytes, stride, width, height, format) else {
        return Err(ScreenError::BadPixelCount);
    };
    match canvas.take(alloc, u32::from(area.x), u32::from(area.y), &source) {
        Ok(_) => Ok(()),
        // memory is all that it is refused for
        Err(_) => Err(ScreenError::OutOfMemory),
    }
}

/// Takes pixels of an area into the picture, row by row without a gap. Refused as `take_rows` is.
fn draw_pixels(
    canvas: &mut Canvas,
    alloc: Global,
    area: Area,
    bytes: &[u8],
) -> Result<(), ScreenError>
    ensures painted { (config : Config) (list : List Event) → config_refusal config ≡ None → canvas.old.screen ≡ state config list →
        OnOk result (IsPainted (with_pixels area bytes.now) canvas.old.screen.picture canvas.new.screen.picture) }
    ensures refused { length bytes.now ≡ 4 * (area.w * area.h) → IsOkUnless result ScreenError.OutOfMemory }
    ensures draws { Draws canvas.old canvas.new }
{
    take_rows(canvas, alloc, area, bytes, PIXEL * usize::from(area.w))
}

/// Fills an area with the first pixel of a table. `zeros` are at least as many as its places: each is a place of the table.
fn fill_places(
    canvas: &mut Canvas,
    alloc: Global,
    area: Area,
    table: &[u32],
    zeros: &[u8],
) -> Result<(), ScreenError>
    requires zeros { (k : ℕ) → slice_index zeros.now k ≡ 0 }
    requires enough { area.w * area.h ≤ length zeros.now }
    ensures painted { (config : Config) (list : List Event) → config_refusal config ≡ None → canvas.old.screen ≡ state config list →
        OnOk result (IsPainted (with_pixel area (slice_index table.now 0)) canvas.old.screen.picture canvas.new.screen.picture) }
    ensures refused { IsOkUnless result ScreenError.OutOfMemory }
    ensures draws { Draws canvas.old canvas.new }
{
    let (width, height) = (usize::from(area.w), usize::from(area.h));
    let format = SourceFormat::Table(table);
    let Ok(source) = PixelSource::new(zeros, width, width, height, format) else {
        return Err(ScreenError::OutOfMemory);
    };
    match canvas.take(alloc, u32::from(area.x), u32::from(area.y), &source) {
        Ok(_) => Ok(()),
        // memory is all that it is refused for
        Err(_) => Err(ScreenError::OutOfMemory),
    }
}

/// Returns how many rows of so many columns are filled at once.
fn rows_at_once(columns: u16) -> u16
    ensures some { 0 < result }
    ensures few { columns ≤ 8192 → columns * result ≤ 16384 }
{
    let rows = PLACES / usize::from(columns).max(1);
    rows.clamp(1, PLACES) as u16
}

/// Fills an area with one pixel, some rows at a time.
fn fill_rows(canvas: &mut Canvas, alloc: Global, area: Area, pixel: u32) -> Result<(), ScreenError>
    requires wide { area.w ≤ 8192 }
    requires high { area.y + area.h ≤ 8192 }
    ensures painted { (config : Config) (list : List Event) → config_refusal config ≡ None → canvas.old.screen ≡ state config list →
        OnOk result (IsPainted (with_pixel area pixel) canvas.old.screen.picture canvas.new.screen.picture) }
    ensures refused { IsOkUnless result ScreenError.OutOfMemory }
    ensures draws { Draws canvas.old canvas.new }
{
    let zeros = [0u8; PLACES];
    let most = rows_at_once(area.w);
    let mut filled = 0;
    'rows: while filled < area.h {
        let rows = most.min(area.h - filled);
        let part = Area {
            y: area.y + filled,
            h: rows,
            ..area
        };
        fill_places(canvas, alloc, part, &[pixel], &zeros)?;
        filled += rows;
    }
    Ok(())
}

/// Returns whether an area may lie on a screen's picture.
fn is_fillable(area: Area) -> bool
    ensures wide { result ≡ true → area.w ≤ 8192 }
    ensures high { result ≡ true → area.y + area.h ≤ 8192 }
    ensures all { area.w ≤ 8192 → area.y + area.h ≤ 8192 → result ≡ true }
{
    area.w <= LONGEST_SIDE && u32::from(area.y) + u32::from(area.h) <= u32::from(LONGEST_SIDE)
}

/// Fills an area with one pixel. Refused as `BadRect` where it is too wide or too low for any picture, and as `OutOfMemory`, behind which
/// some rows may be filled.
fn fill(canvas: &mut Canvas, alloc: Global, area: Area, pixel: u32) -> Result<(), ScreenError>
    ensures painted { (config : Config) (list : List Event) → config_refusal config ≡ None → canvas.old.screen ≡ state config list →
        OnOk result (IsPainted (with_pixel area pixel) canvas.old.screen.picture canvas.new.screen.picture) }
    ensures refused { area.w ≤ 8192 → area.y + area.h ≤ 8192 → IsOkUnless result ScreenError.OutOfMemory }
    ensures draws { Draws canvas.old canvas.new }
{
    if !is_fillable(area) {
        return Err(ScreenError::BadRect);
    }
    fill_rows(canvas, alloc, area, pixel)
}

/// Takes the pixels that wait into the picture. Nothing waits behind it.
fn take_band(canvas: &mut Canvas, alloc: Global, band: &mut Band) -> Result<(), ScreenError>
    ensures taken { (config : Config) (list : List Event) → config_refusal config ≡ None → canvas.old.screen ≡ state config list →
        OnOk result (canvas.new.screen.picture ≡ with_band band.old canvas.old.screen.picture) }
    ensures none { band.new.area.w ≡ 0 }
    ensures refused { IsOkUnless result ScreenError.OutOfMemory }
    ensures draws { Draws canvas.old canvas.new }
{
    let area = band.area();
    if area.w == 0 {
        return Ok(());
    }
    band.clear();
    take_rows(canvas, alloc, area, band.bytes(), STRIDE)
}

/// Has the band be one that takes an area: what waits in another is taken into the picture first.
fn make_way(
    canvas: &mut Canvas,
    alloc: Global,
    band: &mut Band,
    area: Area,
) -> Result<(), ScreenError>
    requires { IsSmall area }
    ensures same { (config : Config) (list : List Event) → config_refusal config ≡ None → canvas.old.screen ≡ state config list →
        OnOk result (with_band band.new canvas.new.screen.picture ≡ with_band band.old canvas.old.screen.picture) }
    ensures goes_on { OnOk result (GoesOnWith band.new.area area) }
    ensures room { OnOk result (length band.new.bytes ≡ 131072) }
    ensures wide { OnOk result (band.new.area.w ≤ 2048) }
    ensures refused { IsOkUnless result ScreenError.OutOfMemory }
    ensures draws { Draws canvas.old canvas.new }
{
    if band.takes(area) {
        return Ok(());
    }
    take_band(canvas, alloc, band)?;
    band.begin(area)?;
    Ok(())
}

/// Has an area's pixels wait, whose rows begin a stride of bytes behind the one above.
fn put_off(
    canvas: &mut Canvas,
    alloc: Global,
    band: &mut Band,
    area: Area,
    rows: &[u8],
    stride: usize,
) -> Result<(), ScreenError>
    requires small { IsSmall area }
    requires enough { (y : ℕ) → y < area.h → stride * y + 4 * area.w ≤ length rows.now }
    requires few { stride ≤ 64 }
    ensures painted { (config : Config) (list : List Event) → config_refusal config ≡ None → canvas.old.screen ≡ state config list →
        OnOk result (IsPainted (with_rows area rows.now stride) (with_band band.old canvas.old.screen.picture) (with_band band.new canvas.new.screen.picture)) }
    ensures refused { IsOkUnless result ScreenError.OutOfMemory }
    ensures draws { Draws canvas.old canvas.new }
{
    make_way(canvas, alloc, band, area)?;
    band.put(area, rows, stride);
    Ok(())
}

/// Returns whether an area is no larger than a tile.
fn is_small(area: Area) -> bool
    ensures { result ≡ true → IsSmall area }
{
    area.w <= TILE && area.h <= TILE
}

/// Returns whether pixels are those of an area no larger than a tile.
fn are_few(area: Area, bytes: &[u8]) -> bool
    ensures small { result ≡ true → IsSmall area }
    ensures long { result ≡ true → length bytes.now ≡ 4 * (area.w * area.h) }
{
    is_small(area) && bytes.len() == PIXEL * (usize::from(area.w) * usize::from(area.h))
}

/// Has the pixels of a small area wait, row by row without a gap.
fn put_off_pixels(
    canvas: &mut Canvas,
    alloc: Global,
    band: &mut Band,
    area: Area,
    bytes: &[u8],
) -> Result<(), ScreenError>
    requires small { IsSmall area }
    requires long { length bytes.now ≡ 4 * (area.w * area.h) }
    ensures painted { (config : Config) (list : List Event) → config_refusal config ≡ None → canvas.old.screen ≡ state config list →
        OnOk result (IsPainted (with_pixels area bytes.now) (with_band band.old canvas.old.screen.picture) (with_band band.new canvas.new.screen.picture)) }
    ensures refused { IsOkUnless result ScreenError.OutOfMemory }
    ensures draws { Draws canvas.old canvas.new }
{
    put_off(
        canvas,
        alloc,
        band,
        area,
        bytes,
        PIXEL * usize::from(area.w),
    )
}

/// Has a small area of one pixel wait.
fn put_off_fill(
    canvas: &mut Canvas,
    alloc: Global,
    band: &mut Band,
    area: Area,
    pixel: u32,
) -> Result<(), ScreenError>
    requires { IsSmall area }
    ensures painted { (config : Config) (list : List Event) → config_refusal config ≡ None → canvas.old.screen ≡ state config list →
        OnOk result (IsPainted (with_pixel area pixel) (with_band band.old canvas.old.screen.picture) (with_band band.new canvas.new.screen.picture)) }
    ensures refused { IsOkUnless result ScreenError.OutOfMemory }
    ensures draws { Draws canvas.old canvas.new }
{
    let row = [pixel.to_le_bytes(); TILE as usize];
    put_off(canvas, alloc, band, area, row.as_flattened(), 0)
}

/// Copies the area of an area's size at (`x`, `y`) to it, all at once, as a scroll is (RFC 6143, 7.7.2): viewers that list CopyRect are sent
/// a copy.
fn copy(canvas: &mut Canvas, area: Area, x: u16, y: u16) -> Result<(), ScreenError>
    ensures painted { (config : Config) (list : List Event) → canvas.old.screen ≡ state config list →
        IsOnFrame area.x area.y area.w area.h canvas.old.screen.picture → IsOnFrame x y area.w area.h canvas.old.screen.picture →
        OnOk result (IsPainted (with_copy area x y) canvas.old.screen.picture canvas.new.screen.picture) }
    ensures refused { IsOkUnless result ScreenError.OutOfMemory }
    ensures draws { Draws canvas.old canvas.new }
{
    let (left, top) = (i32::from(area.x), i32::from(area.y));
    let (right, bottom) = (left + i32::from(area.w), top + i32::from(area.h));
    let (dx, dy) = (left - i32::from(x), top - i32::from(y));
    canvas.do_copy_rect(left, top, right, bottom, dx, dy)
}

/// Gives the picture a new size, all black. Refused as `BadSize` beyond a screen's limits: nothing has changed then.
fn resize(canvas: &mut Canvas, width: u16, height: u16) -> Result<(), ScreenError>
    ensures resized { (config : Config) (list : List Event) → canvas.old.screen ≡ state config list →
        OnOk result (HasSize width height canvas.new.screen.picture) }
    ensures refused { is_size width height ≡ true → IsOkUnless result ScreenError.OutOfMemory }
    ensures draws { Draws canvas.old canvas.new }
{
    canvas.new_framebuffer(u32::from(width), u32::from(height))
}

/// Rings the bell.
fn ring(canvas: &mut Canvas) -> Result<(), ScreenError>
    ensures same { (config : Config) (list : List Event) → canvas.old.screen ≡ state config list →
        OnOk result (canvas.new.screen.picture ≡ canvas.old.screen.picture) }
    ensures refused { IsOkUnless result ScreenError.OutOfMemory }
    ensures draws { Draws canvas.old canvas.new }
{
    canvas.bell()
}

/// Draws what a source says, step by step: small areas wait until others come that they aren't taken together with. Of its texts it keeps
/// 65,536 bytes at most.
#[derive(Drop)]
pub(crate) struct Painter {
    alloc: Global,
    band: Band,
    text: Text,
}

impl Painter {
    /// Returns a painter, who drew nothing yet.
    pub fn new(alloc: Global) -> Painter
        ensures text { result.text ≡ record { kept = []; left = 0 } }
        ensures band { result.band ≡ no_band }
    {
        Painter {
            alloc,
            band: Band::new(alloc),
            text: Text::new(alloc),
        }
    }

    /// Gives a text to every viewer, where it is whole: its first 65,536 bytes (RFC 6143, 7.6.4).
    fn tell_text(&self, canvas: &mut Canvas) -> Result<(), ScreenError>
        ensures same { (config : Config) (list : List Event) → canvas.old.screen ≡ state config list →
            OnOk result (canvas.new.screen.picture ≡ canvas.old.screen.picture) }
        ensures refused { IsOkUnless result ScreenError.OutOfMemory }
        ensures draws { Draws canvas.old canvas.new }
    {
        if self.text.is_whole() {
            canvas.cut_text(self.text.bytes())
        } else {
            Ok(())
        }
    }

    /// Begins a text. One without bytes is whole, and goes to the viewers.
    fn begin_text(&mut self, canvas: &mut Canvas, length: u32) -> Result<(), ScreenError>
        ensures same { (config : Config) (list : List Event) → canvas.old.screen ≡ state config list →
            OnOk result (canvas.new.screen.picture ≡ canvas.old.screen.picture) }
        ensures text { self.new.text ≡ record { kept = []; left = length } }
        ensures band { self.new.band ≡ self.old.band }
        ensures refused { IsOkUnless result ScreenError.OutOfMemory }
        ensures draws { Draws canvas.old canvas.new }
    {
        self.text.begin(length);
        self.tell_text(canvas)
    }

    /// Takes further bytes of a text, which goes to the viewers once it is whole.
    fn add_text(&mut self, canvas: &mut Canvas, bytes: &[u8]) -> Result<(), ScreenError>
        ensures same { (config : Config) (list : List Event) → canvas.old.screen ≡ state config list →
            OnOk result (canvas.new.screen.picture ≡ canvas.old.screen.picture) }
        ensures text { OnOk result (self.new.text ≡ with_bytes bytes.now self.old.text) }
        ensures band { self.new.band ≡ self.old.band }
        ensures refused { IsOkUnless result ScreenError.OutOfMemory }
        ensures draws { Draws canvas.old canvas.new }
    {
        self.text.add(bytes)?;
        self.tell_text(canvas)
    }

    /// Has nothing wait: what waited is not drawn.
    pub fn begin(&mut self)
        ensures none { self.new.band.area.w ≡ 0 }
        ensures text { self.new.text ≡ self.old.text }
    {
        self.band.clear();
    }

    /// Draws what waits.
    pub fn end(&mut self, canvas: &mut Canvas) -> Result<(), ScreenError>
        ensures taken { (config : Config) (list : List Event) → config_refusal config ≡ None → canvas.old.screen ≡ state config list →
            OnOk result (canvas.new.screen.picture ≡ with_band self.old.band canvas.old.screen.picture) }
        ensures none { self.new.band.area.w ≡ 0 }
        ensures text { self.new.text ≡ self.old.text }
        ensures refused { IsOkUnless result ScreenError.OutOfMemory }
        ensures draws { Draws canvas.old canvas.new }
    {
        take_band(canvas, self.alloc, &mut self.band)
    }

    /// Does a step to the picture at once, where nothing waits. Refused as `draw` is.
    fn draw_now(&mut self, canvas: &mut Canvas, step: Step<'_>) -> Result<(), ScreenError>
        ensures done { (config : Config) (list : List Event) → config_refusal config ≡ None → canvas.old.screen ≡ state config list →
            LiesOn step.entry canvas.old.screen.picture → OnOk result (IsDone step.entry canvas.old.screen.picture canvas.new.screen.picture) }
        ensures text { OnOk result (self.new.text ≡ text_after step.entry self.old.text) }
        ensures band { self.new.band ≡ self.old.band }
        ensures refused { (size : Size) → StepIsOn size step.entry → IfErr result (λ why. IsRefusedFor (size_after step.entry size) why) }
        ensures draws { Draws canvas.old canvas.new }
    {
        match step {
            Step::Pixels { area, bytes } => draw_pixels(canvas, self.alloc, area, bytes),
            Step::Fill { area, pixel } => fill(canvas, self.alloc, area, pixel),
            Step::Copy { area, x, y } => copy(canvas, area, x, y),
            Step::Size { width, height } => resize(canvas, width, height),
            Step::Bell => ring(canvas),
            Step::TextBegins { length } => self.begin_text(canvas, length),
            Step::Text(bytes) => self.add_text(canvas, bytes),
            Step::Head | Step::UpdateEnd | Step::MapEntry { .. } => Ok(()),
        }
    }

    /// Draws what waits, and then a step. Refused as `draw` is.
    fn draw_behind(&mut self, canvas: &mut Canvas, step: Step<'_>) -> Result<(), ScreenError>
        ensures done { (config : Config) (list : List Event) → config_refusal config ≡ None → canvas.old.screen ≡ state config list →
            LiesOn step.entry (with_band self.old.band canvas.old.screen.picture) →
            OnOk result (IsDone step.entry (with_band self.old.band canvas.old.screen.picture) (with_band self.new.band canvas.new.screen.picture)) }
        ensures text { OnOk result (self.new.text ≡ text_after step.entry self.old.text) }
        ensures refused { (size : Size) → StepIsOn size step.entry → IfErr result (λ why. IsRefusedFor (size_after step.entry size) why) }
        ensures draws { Draws canvas.old canvas.new }
    {
        self.end(canvas)?;
        self.draw_now(canvas, step)
    }

    /// Does a step of the source to the picture, or has it wait. Refused as `BadSize` or `BadRect` where the picture would have a size beyond a
    /// screen's limits, as `BadPixelCount` where there are fewer pixels than places, and as `OutOfMemory`, behind which a part of the step
    /// and of those that waited may be done.
    pub fn draw(&mut self, canvas: &mut Canvas, step: Step<'_>) -> Result<(), ScreenError>
        ensures done { (config : Config) (list : List Event) → config_refusal config ≡ None → canvas.old.screen ≡ state config list →
            LiesOn step.entry (with_band self.old.band canvas.old.screen.picture) →
            OnOk result (IsDone step.entry (with_band self.old.band canvas.old.screen.picture) (with_band self.new.band canvas.new.screen.picture)) }
        ensures text { OnOk result (self.new.text ≡ text_after step.entry self.old.text) }
        ensures refused { (size : Size) → StepIsOn size step.entry → IfErr result (λ why. IsRefusedFor (size_after step.entry size) why) }
        ensures draws { Draws canvas.old canvas.new }
    {
        match step {
            Step::Head | Step::UpdateEnd | Step::MapEntry { .. } => Ok(()),
            Step::Pixels { area, bytes } if are_few(area, bytes) => {
                put_off_pixels(canvas, self.alloc, &mut self.band, area, bytes)
            }
            Step::Fill { area, pixel } if is_small(area) => {
                put_off_fill(canvas, self.alloc, &mut self.band, area, pixel)
            }
            _ => self.draw_behind(canvas, step),
        }
    }
}
