//! What is kept of rectangles that were encoded for several viewers, or are being encoded.

ghost use Rattle.std.specs.Prelude.{◌≡◌, ◌++◌, [], IfOk, OnOk, true};
ghost use Rattle.std.specs.Cmp.Lexicographic.{pointwise};
ghost use Rattle.framebuffer.specs.Frame.{Frame};
ghost use Rattle.updates.specs.Shared.{pixels_of};
ghost use Rattle.picture.specs.Kept.{same_rect, wanted_bytes, IsOf, GrowsTo};

use messages::Encoding;
use pixel_translate::PixelFormat;
use region::Rect;
use std::alloc::{AllocError, Global};
use std::sync::Arc;
use updates::RemainingRectangles;

/// How many rows of tiles in Hextile, and rectangles in RRE, are encoded at once at most.
const MOST_PARTS: u32 = 16;

/// The same for Raw, of heads and of pixels, at most a row and 2,048 at a time.
const MOST_PARTS_IN_RAW: u32 = 1024;

/// No further part is encoded at once behind so many bytes.
const AT_ONCE: usize = 262_144;

/// Rectangles of the picture, in an encoding and a format.
#[derive(Drop)]
pub struct Wanted {
    pub encoding: Encoding,
    pub format: PixelFormat,
    pub rects: Vec<Rect>,
}

/// What they are encoded as.
#[derive(Drop)]
pub struct Encoded {
    pub wanted: Wanted,
    pub bytes: Arc<Vec<u8>>,
}

/// What they are encoded as so far, and what is left of them.
#[derive(Drop)]
pub struct Growing {
    pub wanted: Wanted,
    pub bytes: Vec<u8>,
    pub remaining: RemainingRectangles,
}

/// Tells whether rectangles are equal, one by one.
fn are_same(rects: &[Rect], others: &[Rect]) -> bool
    ensures { result ≡ pointwise same_rect rects.now others.now }
{
    rects == others
}

/// Returns how many parts of an encoding are encoded at once at most.
fn most_parts(encoding: Encoding) -> u32 {
    match encoding {
        Encoding::Raw => MOST_PARTS_IN_RAW,
        _ => MOST_PARTS,
    }
}

impl Wanted {
    /// Returns these rectangles. `AllocError` where memory is refused.
    pub fn new(
        alloc: Global,
        encoding: Encoding,
        format: PixelFormat,
        rects: &[Rect],
    ) -> Result<Wanted, AllocError>
        ensures { IfOk result (λ wanted. (p : Frame) → wanted_bytes p wanted ≡ pixels_of p encoding format rects.now) }
    {
        let mut copy = Vec::with_capacity(alloc, rects.len())?;
        copy.extend_from_slice(rects)?;
        Ok(Wanted {
            encoding,
            format,
            rects: copy,
        })
    }

    /// Tells whether they are these.
    pub fn is(&self, encoding: Encoding, format: &PixelFormat, rects: &[Rect]) -> bool
        ensures encoding { result ≡ true → self.now.encoding ≡ encoding }
        ensures format { result ≡ true → self.now.format ≡ format.now }
        ensures rects { result ≡ true → self.now.rects.items ≡ rects.now }
    {
        self.encoding == encoding && self.format == *format && are_same(&self.rects, rects)
    }
}

impl Growing {
    /// Encodes the next piece: some parts, of 256 KB in all and the last part's rest at most. After an `AllocError` it is of no use.
    pub fn grow(&mut self) -> Result<(), AllocError>
        ensures wanted { self.new.wanted ≡ self.old.wanted }
        ensures bytes { OnOk result (self.new.bytes.items ++ self.new.remaining ≡ self.old.bytes.items ++ self.old.remaining) }
    {
        let end = self.bytes.len().saturating_add(AT_ONCE);
        let most = most_parts(self.wanted.encoding);
        'parts: for _part in 0..most {
            if self.bytes.len() >= end || self.remaining.is_ended() {
                return Ok(());
            }
            self.remaining.put_part(&mut self.bytes)?;
        }
        Ok(())
    }

    /// Returns what they are encoded as, where nothing is left. `AllocError` where memory is refused.
    pub fn into_encoded(self, alloc: Global) -> Result<Encoded, AllocError>
        requires { self.remaining ≡ [] }
        ensures { IfOk result (λ encoded. (p : Frame) → GrowsTo p self → IsOf p encoded) }
    {
        let Growing {
            wanted,
            mut bytes,
            remaining: _remaining,
        } = self;
        bytes.shrink_to_fit();
        let Ok(bytes) = Arc::new(alloc, bytes) else {
            return Err(AllocError);
        };
        Ok(Encoded { wanted, bytes })
    }
}
