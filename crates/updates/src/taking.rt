//! What an update takes out of the picture: the rectangles that the marks chose, with their colours.

ghost use Rattle.std.specs.Prelude.{◌≡◌, ◌<◌, ◌≤◌, ◌+◌, ◌^◌, ◌++◌, All, length, flat_map, IfOk, ◌-ℤ◌, nat_abs};
ghost use Rattle.region.specs.Places.{IsOnScreen, source_rect, longest_side};
ghost use Rattle.copy_schedule.specs.Marks.{IsInside, HasSourcesInside};
ghost use Rattle.pixel_translate.specs.declared.PixelFormat.{PixelFormat};
ghost use Rattle.messages.specs.declared.Encoding.{Encoding};
ghost use Rattle.messages.specs.Server.{update_head};
ghost use Rattle.std.specs.Arc.{arc_value};
ghost use Rattle.framebuffer.specs.Picture.{colours_of};
ghost use Rattle.updates.specs.Areas.{area_of};
ghost use Rattle.updates.specs.Bytes.{copy_bytes, pixel_rectangle, bytes_of};
ghost use Rattle.updates.specs.Shared.{pixels_of};
ghost use Rattle.updates.specs.Updates.{copy_rect_bytes, coloured_bytes, part_bytes, IsSomething};

use crate::colours::Colours;
use crate::parts::{Coloured, CopyRect, Part, Rectangles, Shared};
use crate::remaining::RemainingRectangles;
use crate::translation::Translation;
use crate::update::front_of;
use copy_schedule::Cut;
use framebuffer::{Framebuffer, block_within};
use messages::Encoding;
use pixel_translate::Area;
use region::Rect;
use std::alloc::{AllocError, Global};
use std::sync::Arc;

/// Returns the area of a rectangle of a screen.
fn area_of(rect: Rect) -> Area
    requires inside { IsOnScreen longest_side longest_side rect }
    ensures { result ≡ area_of rect }
{
    Area {
        x: rect.x1 as u16,
        y: rect.y1 as u16,
        w: (rect.x2 - rect.x1) as u16,
        h: (rect.y2 - rect.y1) as u16,
    }
}

/// Returns the copy to `rect`, with its source.
fn copy_rect_of(rect: Rect, offset: (i32, i32)) -> CopyRect
    requires inside { IsOnScreen longest_side longest_side rect }
    requires source { IsOnScreen longest_side longest_side (source_rect offset rect) }
    ensures area { result.area ≡ area_of rect }
    ensures src_x { result.src_x ≡ nat_abs (rect.x1 -ℤ offset.0) }
    ensures src_y { result.src_y ≡ nat_abs (rect.y1 -ℤ offset.1) }
{
    CopyRect {
        area: area_of(rect),
        src_x: (rect.x1 - offset.0) as u16,
        src_y: (rect.y1 - offset.1) as u16,
    }
}

/// Returns the copies, with their sources.
#[inline(always)]
fn copy_rects_of(
    alloc: Global,
    rects: &[Rect],
    offset: (i32, i32),
) -> Result<Vec<CopyRect>, AllocError>
    requires inside { All (IsOnScreen longest_side longest_side) rects.now }
    requires sources { All (λ r. IsOnScreen longest_side longest_side (source_rect offset r)) rects.now }
    ensures bytes { IfOk result (λ copy_rects. flat_map copy_rect_bytes copy_rects.items ≡ flat_map (copy_bytes offset) rects.now) }
    ensures count { IfOk result (λ copy_rects. length copy_rects.items ≡ length rects.now) }
{
    let mut copy_rects = Vec::with_capacity(alloc, rects.len())?;
    for rect in rects {
        copy_rects.push(copy_rect_of(*rect, offset))?;
    }
    Ok(copy_rects)
}

/// Takes the colours of `rect` out of the picture.
fn coloured_of(picture: &mut Framebuffer, rect: Rect) -> Result<Coloured, AllocError>
    requires inside { IsOnScreen picture.old.width picture.old.height rect }
    ensures same { picture.new ≡ picture.old }
    ensures area { IfOk result (λ c. c.area ≡ area_of rect) }
    ensures colours { IfOk result (λ c. c.colours ≡
        colours_of picture.old.width picture.old.height picture.old.colours rect) }
{
    let block = block_within(rect, picture.width(), picture.height());
    let colours = Colours::of_block(picture, block)?;
    Ok(Coloured {
        area: area_of(rect),
        colours,
    })
}

/// Takes the colours of rectangles out of the picture.
#[inline(always)]
fn coloured_rectangles(
    alloc: Global,
    picture: &mut Framebuffer,
    rects: &[Rect],
) -> Result<Vec<Coloured>, AllocError>
    requires inside { All (IsOnScreen picture.old.width picture.old.height) rects.now }
    ensures same { picture.new ≡ picture.old }
    ensures bytes { IfOk result (λ parts. (encoding : Encoding) (format : PixelFormat) →
        flat_map (coloured_bytes encoding format) parts.items ≡
        flat_map (pixel_rectangle picture.old.width picture.old.height picture.old.colours encoding format) rects.now) }
    ensures count { IfOk result (λ parts. length parts.items ≡ length rects.now) }
{
    let mut parts = Vec::with_capacity(alloc, rects.len())?;
    for rect in rects {
        parts.push(coloured_of(picture, *rect)?)?;
    }
    Ok(parts)
}

/// Takes rectangles out of the picture, to be encoded in an encoding and a format. `AllocError` where memory is refused.
pub fn pixels_to_encode(
    alloc: Global,
    picture: &mut Framebuffer,
    encoding: Encoding,
    format: Translation,
    rects: &[Rect],
) -> Result<RemainingRectangles, AllocError>
    requires inside { All (IsOnScreen picture.old.width picture.old.height) rects.now }
    requires few { length rects.now < 2 ^ 16 }
    ensures same { picture.new ≡ picture.old }
    ensures bytes { IfOk result (λ remaining. remaining ≡ pixels_of picture.old encoding format rects.now) }
{
    let coloured = coloured_rectangles(alloc, picture, rects)?;
    let rectangles = Rectangles {
        encoding,
        format,
        copy_rects: Vec::new(alloc),
        coloured,
    };
    Ok(RemainingRectangles::of_pixels(alloc, rectangles))
}

/// Takes the rectangles of a cut out of the picture, for a viewer's encoding and format. `AllocError` where memory is refused.
pub fn places_of(
    alloc: Global,
    picture: &mut Framebuffer,
    encoding: Encoding,
    format: Translation,
    cut: &Cut,
) -> Result<Part, AllocError>
    requires width { picture.old.width ≤ longest_side }
    requires height { picture.old.height ≤ longest_side }
    requires inside { IsInside picture.old.width picture.old.height cut.now }
    requires sources { HasSourcesInside picture.old.width picture.old.height cut.now }
    requires count { length cut.now.copies + length cut.now.pixels < 2 ^ 16 }
    ensures same { picture.new ≡ picture.old }
    ensures bytes { IfOk result (λ part. part_bytes part ≡
        bytes_of picture.old.width picture.old.height picture.old.colours encoding format cut.now.copies cut.now.offset
        cut.now.pixels) }
    ensures some { IfOk result (λ part. IsSomething part) }
{
    let copy_rects = copy_rects_of(alloc, cut.copies.as_slice(), cut.offset)?;
    let coloured = coloured_rectangles(alloc, picture, cut.pixels.as_slice())?;
    Ok(Part::Places(Rectangles {
        encoding,
        format,
        copy_rects,
        coloured,
    }))
}

/// Returns the rectangles of a cut, of which `pixels` are encoded already.
pub fn shared_places_of(alloc: Global, cut: &Cut, pixels: Arc<Vec<u8>>) -> Result<Part, AllocError>
    requires inside { All (IsOnScreen longest_side longest_side) cut.now.copies }
    requires sources { All (λ r. IsOnScreen longest_side longest_side (source_rect cut.now.offset r)) cut.now.copies }
    requires count { length cut.now.copies + length cut.now.pixels < 2 ^ 16 }
    ensures bytes { IfOk result (λ part. part_bytes part ≡
        (update_head (length cut.now.copies + length cut.now.pixels) ++ flat_map (copy_bytes cut.now.offset) cut.now.copies) ++
        (arc_value pixels).items) }
    ensures some { IfOk result (λ part. IsSomething part) }
{
    let copy_rects = copy_rects_of(alloc, cut.copies.as_slice(), cut.offset)?;
    let front = front_of(alloc, &copy_rects, cut.pixels.len())?;
    Ok(Part::Shared(Shared { front, pixels }))
}
