//! What one sending step sends: taken out of the picture, and encoded without it.

ghost use Rattle.std.specs.Prelude.{◌≡◌, ◌+◌, ◌<◌, ◌^◌, ◌++◌, All, flat_map, length, IfOk, OnOk, OnErr};
ghost use Rattle.messages.specs.Server.{update_head};
ghost use Rattle.updates.specs.Short.{IsShort};
ghost use Rattle.updates.specs.Bytes.{map_bytes, size_bytes};
ghost use Rattle.updates.specs.Updates.{copy_rect_bytes, rectangles_bytes, shared_bytes, part_bytes, all_bytes};

use crate::notices::{Notice, put_notices};
use crate::parts::{Coloured, CopyRect, Part, Rectangles, Shared};
use crate::remaining::{Reached, RemainingUpdate, is_nothing_left, put_next};
use crate::sizes::Size;
use crate::stream::Stream;
use encode_raw::{encode_copy, rect_header};
use messages::{DESKTOP_SIZE, Encoding, put_colour_map, put_update_head};
use pixel_translate::Area;
use std::alloc::{AllocError, Global};
use std::marker::Model;

/// What one viewer is sent in one step: the colour map where it is owed, the notices that waited, and then one FramebufferUpdate
/// (RFC 6143, 7.6.1), which tells a new size that it is owed, or else places that it asked for and that are not clean. Contracts see
/// it as its bytes.
pub struct Update {
    alloc: Global,
    map_owed: bool,
    notices: Vec<Notice>,
    part: Part,
}

// Written out, so that who holds one proves one call here, and not the drop of each field.
impl Drop for Update {
    fn drop(self) {
        let Update {
            alloc: _alloc,
            map_owed: _map_owed,
            notices: _notices,
            part: _part,
        } = self;
    }
}

impl Model for Update {
    ghost use Rattle.std.specs.Prelude.{ℕ, List, All};
    ghost use Rattle.updates.specs.Short.{IsShort};
    ghost use Rattle.updates.specs.Updates.{all_bytes};

    ghost Value = { List ℕ };

    ghost view = { λ a. all_bytes a.map_owed a.notices.items a.part };

    ghost invariant = { λ a. All IsShort a.notices.items };
}

/// Appends copies.
#[inline(always)]
fn put_copy_rects(out: &mut Vec<u8>, copy_rects: &[CopyRect]) -> Result<(), AllocError>
    ensures { OnOk result (out.new.items ≡ out.old.items ++ flat_map copy_rect_bytes copy_rects.now) }
{
    for copy_rect in copy_rects {
        encode_copy(out, copy_rect.area, copy_rect.src_x, copy_rect.src_y)?;
    }
    Ok(())
}

/// Returns how many bytes rectangles have in Raw, or more.
fn size_of(rectangles: &[Coloured]) -> usize {
    let mut size = 0usize;
    for rectangle in rectangles {
        let places = usize::from(rectangle.area.w) * usize::from(rectangle.area.h);
        size = size.saturating_add(12 + 4 * places);
    }
    size
}

/// Appends the head of a FramebufferUpdate: 4 bytes. Where memory is refused, nothing is appended.
pub fn put_head(out: &mut Vec<u8>, rectangles: &Rectangles) -> Result<(), AllocError>
    ensures ok { OnOk result (out.new.items ≡
        out.old.items ++ update_head (length rectangles.now.copy_rects.items + length rectangles.now.coloured.items)) }
    ensures err { OnErr result (out.new.items ≡ out.old.items) }
{
    let count = rectangles.copy_rects.len() + rectangles.coloured.len();
    put_update_head(out, count as u16)
}

/// Appends the head of a FramebufferUpdate, and its copies.
pub fn put_opening(out: &mut Vec<u8>, rectangles: &Rectangles) -> Result<(), AllocError>
    ensures { OnOk result (out.new.items ≡
        out.old.items ++ (update_head (length rectangles.now.copy_rects.items + length rectangles.now.coloured.items) ++
        flat_map copy_rect_bytes rectangles.now.copy_rects.items)) }
{
    put_head(out, rectangles)?;
    put_copy_rects(out, &rectangles.copy_rects)
}

/// Appends a FramebufferUpdate, one part after the other. Reserves the capacity for all of it in Raw at once.
fn put_rectangles(
    alloc: Global,
    out: &mut Vec<u8>,
    rectangles: &Rectangles,
) -> Result<(), AllocError>
    ensures { OnOk result (out.new.items ≡ out.old.items ++ rectangles_bytes rectangles.now) }
{
    if rectangles.encoding == Encoding::Raw {
        out.reserve(size_of(&rectangles.coloured).saturating_add(
            4 + 16 * rectangles.copy_rects.len(),
        ))?;
    }
    let mut reached = Reached::Nothing;
    'parts: while !is_nothing_left(rectangles, reached) {
        reached = put_next(alloc, out, rectangles, reached)?;
    }
    Ok(())
}

/// Appends a FramebufferUpdate of rectangles that are encoded.
fn put_shared(out: &mut Vec<u8>, shared: &Shared) -> Result<(), AllocError>
    ensures { OnOk result (out.new.items ≡ out.old.items ++ shared_bytes shared.now) }
{
    out.extend_from_slice(&shared.front)?;
    out.extend_from_slice(&shared.pixels)
}

/// Returns the head of a FramebufferUpdate with copies and `pixels` rectangles of pixels, and the copies.
pub fn front_of(
    alloc: Global,
    copy_rects: &[CopyRect],
    pixels: usize,
) -> Result<Vec<u8>, AllocError>
    requires { length copy_rects.now + pixels < 2 ^ 16 }
    ensures bytes { IfOk result (λ front. front.items ≡
        update_head (length copy_rects.now + pixels) ++ flat_map copy_rect_bytes copy_rects.now) }
    ensures some { IfOk result (λ front. 0 < length front.items) }
{
    let mut front = Vec::new(alloc);
    let count = copy_rects.len() + pixels;
    put_update_head(&mut front, count as u16)?;
    put_copy_rects(&mut front, copy_rects)?;
    Ok(front)
}

/// Appends the colour map where it is owed (RFC 6143, 7.6.2).
fn put_map(out: &mut Vec<u8>, map_owed: bool) -> Result<(), AllocError>
    ensures { OnOk result (out.new.items ≡ out.old.items ++ map_bytes map_owed) }
{
    if map_owed {
        put_colour_map(out)
    } else {
        Ok(())
    }
}

/// Appends the FramebufferUpdate that tells a size (RFC 6143, 7.8.2).
pub fn put_size(out: &mut Vec<u8>, size: Size) -> Result<(), AllocError>
    ensures { OnOk result (out.new.items ≡ out.old.items ++ size_bytes size.width size.height) }
{
    put_update_head(out, 1)?;
    let area = Area {
        x: 0,
        y: 0,
        w: size.width,
        h: size.height,
    };
    rect_header(out, area, DESKTOP_SIZE)
}

/// Appends a FramebufferUpdate if there is one.
fn put_part(alloc: Global, out: &mut Vec<u8>, part: &Part) -> Result<(), AllocError>
    ensures { OnOk result (out.new.items ≡ out.old.items ++ part_bytes part.now) }
{
    match part {
        Part::Nothing => Ok(()),
        Part::NewSize(size) => put_size(out, *size),
        Part::Places(rectangles) => put_rectangles(alloc, out, rectangles),
        Part::Shared(shared) => put_shared(out, shared),
    }
}

impl Update {
    /// Returns an update of the colour map where it is owed, of notices, and of what is said of the screen.
    pub fn new(alloc: Global, map_owed: bool, notices: Vec<Notice>, part: Part) -> Update
        requires { All IsShort notices.items }
        ensures { result ≡ all_bytes map_owed notices.items part }
    {
        Update {
            alloc,
            map_owed,
            notices,
            part,
        }
    }

    /// Returns the bytes that the viewer is sent. Needs no screen and never waits; `AllocError` where memory is refused.
    pub fn encode(&self) -> Result<Vec<u8>, AllocError>
        ensures { IfOk result (λ bytes. bytes.items ≡ self.now) }
    {
        let mut out = Vec::new(self.alloc);
        put_map(&mut out, self.map_owed)?;
        put_notices(&mut out, &self.notices)?;
        put_part(self.alloc, &mut out, &self.part)?;
        Ok(out)
    }

    /// Returns the same bytes, to be given in pieces: no more is encoded at once than 2,048 pixels in Raw, a row of tiles in Hextile, or a
    /// rectangle in RRE.
    pub fn into_stream(self) -> Stream
        ensures { result ≡ self }
    {
        let Update {
            alloc,
            map_owed,
            notices,
            part,
        } = self;
        let remaining = RemainingUpdate::new(alloc, map_owed, notices, part);
        Stream::new(alloc, remaining)
    }
}
