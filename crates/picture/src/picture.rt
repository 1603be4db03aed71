//! The screen's picture, with what was encoded of it for several viewers while it stands as it stands.

ghost use Rattle.std.specs.Prelude.{◌≡◌, ◌+◌, ◌*◌, ◌^◌, ◌<◌, ◌≤◌, ◌↔◌, [], All, length, take, drop, slice_index, IfOk, IfSome, None};
ghost use Rattle.std.specs.Prelude.{IsSome, OnOk, OnErr};
ghost use Rattle.std.specs.Arc.{arc_value};
ghost use Rattle.region.specs.Region.{covers};
ghost use Rattle.region.specs.Places.{IsOnScreen, source_rect, longest_side};
ghost use Rattle.copy_schedule.specs.Marks.{IsInside, HasSourcesInside};
ghost use Rattle.framebuffer.specs.Frame.{IsPicture};
ghost use Rattle.framebuffer.specs.Picture.{blank, written, moved_colours};
ghost use Rattle.framebuffer.specs.Blocks.{block_rect};
ghost use Rattle.updates.specs.Bytes.{bytes_of};
ghost use Rattle.updates.specs.Shared.{pixels_of};
ghost use Rattle.updates.specs.Updates.{part_bytes, IsSomething};
ghost use Rattle.picture.specs.Kept.{GrowsTo};

use crate::encoded::{Encoded, Growing, Wanted};
use crate::kinds::Kinds;
use copy_schedule::Cut;
use framebuffer::{Block, Framebuffer};
use messages::Encoding;
use pixel_translate::PixelFormat;
use region::Rect;
use std::alloc::{AllocError, Global};
use std::marker::Model;
use std::sync::Arc;
use updates::{Part, Translation, pixels_to_encode, places_of, shared_places_of};

/// Rectangles of so many places in all, or more, are encoded once for viewers that are alike. Fewer take less to encode than to look for.
const FEW: u32 = 64;

/// How many updates' rectangles are kept at most.
const MOST_ENCODED: usize = 8;

/// What was encoded is dropped once so many updates in a row, which were worth it, didn't find their bytes there.
const UNUSED: u32 = 64;

/// A picture of 1 to 8192 columns and rows, as `Framebuffer`, and rectangles of it that were encoded for several viewers since it was
/// drawn in last. Contracts see it as the picture.
///
/// What is kept has at most the bytes of the whole picture in Raw of 32 bits, and 64 KB. While more is encoded its capacity is at most twice
/// that, and a rectangle in RRE. All is dropped when the picture is drawn in, and once 64 updates in a row that were worth it didn't find
/// their bytes there.
pub struct Picture {
    alloc: Global,
    frame: Framebuffer,
    shares: bool,
    // what is prepared is encoded ahead, and not sent; and more of it is left
    is_ahead: bool,
    has_more: bool,
    encoded: Vec<Encoded>,
    growing: Option<Growing>,
    kinds: Kinds,
    // so many updates that were worth it were cut since one found its bytes, or since some were kept
    unused: u32,
}

// Written out, so that who holds one proves one call here, and not the drop of each field.
impl Drop for Picture {
    fn drop(self) {
        let Picture {
            alloc: _alloc,
            frame: _frame,
            shares: _shares,
            is_ahead: _is_ahead,
            has_more: _has_more,
            encoded: _encoded,
            growing: _growing,
            kinds: _kinds,
            unused: _unused,
        } = self;
    }
}

impl Model for Picture {
    ghost use Rattle.std.specs.Prelude.{All, IfSome};
    ghost use Rattle.framebuffer.specs.Frame.{Frame};
    ghost use Rattle.picture.specs.Kept.{IsOf, GrowsTo};

    ghost Value = { Frame };

    ghost view = { λ p. p.frame };

    ghost invariant = { λ p. All (IsOf p.frame) p.encoded.items × IfSome p.growing (GrowsTo p.frame) };
}

/// Tells whether rectangles have so many places in all that they are encoded once for viewers that are alike.
fn are_many(rects: &[Rect]) -> bool {
    let mut places = 0u32;
    for rect in rects {
        let columns = rect.x1.abs_diff(rect.x2);
        let rows = rect.y1.abs_diff(rect.y2);
        places = places.saturating_add(columns.saturating_mul(rows));
    }
    FEW <= places
}

/// Tells whether rectangles are worth being encoded once for viewers that are alike: they have some places, and aren't copied as they
/// stand.
fn are_worth_it(encoding: Encoding, format: &PixelFormat, rects: &[Rect]) -> bool {
    are_many(rects) && !(encoding == Encoding::Raw && format.has_server_components())
}

/// Drops what was encoded of the picture, which changes.
fn let_go(encoded: &mut Vec<Encoded>, growing: &mut Option<Growing>, kinds: &mut Kinds)
    ensures encoded { encoded.new.items ≡ [] }
    ensures growing { growing.new ≡ None }
{
    if growing.is_some() {
        *growing = None;
        kinds.hurry();
        kinds.count_loss();
    }
    kinds.start_anew();
    if !encoded.is_empty() {
        encoded.clear();
        kinds.count_loss();
    }
}

/// Returns how many bytes are kept.
fn size_of(encoded: &[Encoded]) -> usize {
    let mut size = 0usize;
    for one in encoded {
        size = size.saturating_add(one.bytes.len());
    }
    size
}

impl Picture {
    /// Returns a picture that is 0 everywhere.
    pub fn new(alloc: Global, width: u32, height: u32) -> Result<Picture, AllocError>
        requires some_columns { 1 ≤ width }
        requires columns { width ≤ longest_side }
        requires some_rows { 1 ≤ height }
        requires rows { height ≤ longest_side }
        ensures { IfOk result (λ p. p ≡ record { width = width; height = height; colours = blank width height }) }
    {
        let frame = Framebuffer::new(alloc, width, height)?;
        Ok(Picture {
            alloc,
            frame,
            shares: false,
            is_ahead: false,
            has_more: false,
            encoded: Vec::new(alloc),
            growing: None,
            kinds: Kinds::new(alloc),
            unused: 0,
        })
    }

    /// Sets whether the rectangles of viewers that are alike are encoded once. At first they aren't.
    pub fn share(&mut self, shares: bool)
        ensures { self.new ≡ self.old }
    {
        self.shares = shares;
        self.rest();
    }

    /// Tells whether they are.
    pub fn shares(&self) -> bool {
        self.shares
    }

    /// Returns how many columns the picture has.
    pub fn width(&self) -> u32
        ensures value { result ≡ self.now.width }
        ensures picture { IsPicture self.now }
    {
        self.frame.width()
    }

    /// Returns how many rows the picture has.
    pub fn height(&self) -> u32
        ensures value { result ≡ self.now.height }
        ensures picture { IsPicture self.now }
    {
        self.frame.height()
    }

    /// Returns the colour of the place in column `x` of row `y`, or None off the picture.
    pub fn colour(&self, x: u32, y: u32) -> Option<u32>
        ensures inside { IsSome result ↔ ((x < self.now.width) × (y < self.now.height)) }
        ensures colour { IfSome result (λ c. c ≡ slice_index self.now.colours (y * self.now.width + x)) }
    {
        self.frame.colour(x, y)
    }

    /// Returns the colours of row `y` from the left, of which none is copied, or None off the picture.
    pub fn row(&self, y: u32) -> Option<&[u32]>
        ensures inside { IsSome result ↔ (y < self.now.height) }
        ensures colours { IfSome result (λ row. row.now ≡ take self.now.width (drop (y * self.now.width) self.now.colours)) }
    {
        self.frame.row(y)
    }

    /// Writes a block, as `Framebuffer::write`, and drops what was encoded.
    pub fn write(&mut self, block: Block, colours: &[u32]) -> Result<(), AllocError>
        requires wide { block.left + block.columns ≤ self.old.width }
        requires high { block.top + block.rows ≤ self.old.height }
        requires whole { length colours.now ≡ block.rows * block.columns }
        ensures ok { OnOk result (self.new ≡
            record self.old { colours = written self.old.width self.old.height (block_rect block) colours.now self.old.colours }) }
        ensures err { OnErr result (self.new ≡ self.old) }
    {
        let_go(&mut self.encoded, &mut self.growing, &mut self.kinds);
        self.frame.write(block, colours)
    }

    /// Moves colours, as `Framebuffer::move_colours`, and drops what was encoded.
    pub fn move_colours(&mut self, pieces: &[Rect], offset: (i32, i32)) -> Result<(), AllocError>
        requires inside { All (IsOnScreen self.old.width self.old.height) pieces.now }
        requires sources { All (λ r. IsOnScreen self.old.width self.old.height (source_rect offset r)) pieces.now }
        ensures ok { OnOk result (self.new ≡ record self.old {
          colours = moved_colours self.old.width self.old.height (covers pieces.now) offset self.old.colours;
        }) }
        ensures err { OnErr result (self.new ≡ self.old) }
    {
        let_go(&mut self.encoded, &mut self.growing, &mut self.kinds);
        self.frame.move_colours(pieces, offset)
    }

    /// Drops what was encoded: nobody is there to want it.
    pub fn rest(&mut self)
        ensures { self.new ≡ self.old }
    {
        self.growing = None;
        let_go(&mut self.encoded, &mut self.growing, &mut self.kinds);
    }

    /// Tells whether some update is likely to be wanted by several viewers, so that one may wait for what is encoded for all.
    #[inline(always)]
    pub fn is_expecting(&self) -> bool {
        self.shares && self.kinds.is_expecting()
    }

    /// Looks ahead: the places that are asked for next are for no viewer. Where several are likely to want them, a piece of what they
    /// want is encoded, and nothing is given.
    pub fn look_ahead(&mut self)
        ensures { self.new ≡ self.old }
    {
        self.is_ahead = true;
        self.has_more = false;
    }

    /// Ends looking ahead: places are for viewers again. Where more is left to be encoded, returns how often what was encoded, or begun,
    /// was dropped so far.
    pub fn more_ahead(&mut self) -> Option<u64>
        ensures { self.new ≡ self.old }
    {
        self.is_ahead = false;
        if self.has_more {
            Some(self.kinds.losses())
        } else {
            None
        }
    }

    /// Encodes a piece of what several viewers are likely to want, where these rectangles are that, or are likely to be wanted so. Tells
    /// whether more is left to be encoded.
    #[inline(never)]
    fn encode_ahead(&mut self, encoding: Encoding, format: &Translation, rects: &[Rect]) -> bool
        requires inside { All (IsOnScreen self.old.width self.old.height) rects.now }
        requires few { length rects.now < 2 ^ 16 }
        ensures { self.new ≡ self.old }
    {
        let pixels = format.table().format();
        if !self.is_growing(encoding, &pixels, rects)
            && !self.are_wanted(encoding, &pixels, rects)
        {
            return false;
        }
        if self.growing.is_none() && self.begin(encoding, format, rects).is_err() {
            self.kinds.give_up();
            return false;
        }
        match self.grow() {
            Ok(has_more) => has_more,
            Err(_) => {
                self.kinds.give_up();
                false
            }
        }
    }

    /// Tells whether these rectangles are being encoded.
    fn is_growing(&self, encoding: Encoding, format: &PixelFormat, rects: &[Rect]) -> bool {
        match &self.growing {
            Some(growing) => growing.wanted.is(encoding, format, rects),
            None => false,
        }
    }

    /// Tells whether rectangles are to be encoded once for several viewers, and are not yet.
    fn are_wanted(&self, encoding: Encoding, format: &PixelFormat, rects: &[Rect]) -> bool {
        self.encoded.len() < MOST_ENCODED
            && are_worth_it(encoding, format, rects)
            && self.kinds.are_likely(encoding, format, rects)
            && self.find(encoding, format, rects).is_none()
    }

    /// Begins to encode rectangles, piece by piece.
    fn begin(
        &mut self,
        encoding: Encoding,
        format: &Translation,
        rects: &[Rect],
    ) -> Result<(), AllocError>
        requires inside { All (IsOnScreen self.old.width self.old.height) rects.now }
        requires few { length rects.now < 2 ^ 16 }
        ensures { self.new ≡ self.old }
    {
        let wanted = Wanted::new(self.alloc, encoding, format.table().format(), rects)?;
        let format = format.share()?;
        let remaining = pixels_to_encode(self.alloc, &mut self.frame, encoding, format, rects)?;
        self.growing = Some(Growing {
            wanted,
            bytes: Vec::new(self.alloc),
            remaining,
        });
        Ok(())
    }

    /// Returns how many bytes may be kept: those of the picture in Raw of 32 bits, and 64 KB.
    fn most(&self) -> usize {
        let places = self.frame.width().saturating_mul(self.frame.height());
        (places as usize).saturating_mul(4).saturating_add(65_536)
    }

    /// Goes on with what is being encoded, by a piece, and keeps it once all is encoded. Tells whether more is left. Where memory is
    /// refused, or more would be kept than may be, it is dropped.
    fn grow(&mut self) -> Result<bool, AllocError>
        ensures { self.new ≡ self.old }
    {
        let Some(mut growing) = self.growing.take() else {
            return Ok(false);
        };
        growing.grow()?;
        if size_of(&self.encoded).saturating_add(growing.bytes.len()) > self.most() {
            self.kinds.give_up();
            return Ok(false);
        }
        if !growing.remaining.is_ended() {
            self.growing = Some(growing);
            return Ok(true);
        }
        self.keep(growing)?;
        Ok(false)
    }

    /// Keeps what is encoded.
    fn keep(&mut self, growing: Growing) -> Result<(), AllocError>
        requires grows { GrowsTo self.old growing }
        requires ended { growing.remaining ≡ [] }
        ensures { self.new ≡ self.old }
    {
        let encoded = growing.into_encoded(self.alloc)?;
        self.encoded.push(encoded)?;
        self.unused = 0;
        Ok(())
    }

    /// Returns the bytes of rectangles that were encoded since the picture changed.
    fn find(&self, encoding: Encoding, format: &PixelFormat, rects: &[Rect]) -> Option<Arc<Vec<u8>>>
        ensures { IfSome result (λ bytes. (arc_value bytes).items ≡ pixels_of self.now encoding format.now rects.now) }
    {
        for encoded in &self.encoded {
            if encoded.wanted.is(encoding, format, rects) {
                return match Arc::try_clone(&encoded.bytes) {
                    Ok(bytes) => Some(bytes),
                    Err(_) => None,
                };
            }
        }
        None
    }

    /// Counts an update that is cut, and returns the bytes of its rectangles, if they are encoded already. Drops what nobody wants.
    fn shared(
        &mut self,
        encoding: Encoding,
        format: &Translation,
        rects: &[Rect],
    ) -> Option<Arc<Vec<u8>>>
        ensures same { self.new ≡ self.old }
        ensures bytes { IfSome result (λ bytes. (arc_value bytes).items ≡ pixels_of self.old encoding format.now rects.now) }
    {
        let pixels = format.table().format();
        if !are_worth_it(encoding, &pixels, rects) {
            return None;
        }
        self.kinds.count(encoding, &pixels, rects);
        let found = self.find(encoding, &pixels, rects);
        self.unused = if found.is_some() {
            0
        } else {
            self.unused.saturating_add(1)
        };
        if self.unused >= UNUSED {
            self.unused = 0;
            self.rest();
            self.kinds.give_up();
        }
        found
    }

    /// Takes the rectangles of a cut out of the picture, for a viewer's encoding and format: with bytes that were encoded for several
    /// viewers, or with colours that are encoded for this one. `AllocError` where memory is refused, and while the picture looks ahead.
    pub fn places_of(
        &mut self,
        encoding: Encoding,
        format: &Translation,
        cut: &Cut,
    ) -> Result<Part, AllocError>
        requires width { self.old.width ≤ longest_side }
        requires height { self.old.height ≤ longest_side }
        requires inside { IsInside self.old.width self.old.height cut.now }
        requires sources { HasSourcesInside self.old.width self.old.height cut.now }
        requires count { length cut.now.copies + length cut.now.pixels < 2 ^ 16 }
        ensures same { self.new ≡ self.old }
        ensures bytes { IfOk result (λ part. part_bytes part ≡
            bytes_of self.old.width self.old.height self.old.colours encoding format.now cut.now.copies cut.now.offset
            cut.now.pixels) }
        ensures some { IfOk result (λ part. IsSomething part) }
    {
        if self.is_ahead {
            self.has_more = self.encode_ahead(encoding, format, cut.pixels.as_slice());
            return Err(AllocError);
        }
        if self.shares {
            if let Some(pixels) = self.shared(encoding, format, cut.pixels.as_slice()) {
                return shared_places_of(self.alloc, cut, pixels);
            }
        }
        places_of(self.alloc, &mut self.frame, encoding, format.share()?, cut)
    }
}
