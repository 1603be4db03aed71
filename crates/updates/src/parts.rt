//! The parts of an update: rectangles that the viewer copies itself, and rectangles of colours.

ghost use Rattle.std.specs.Prelude.{◌≡◌, ◌↔◌, IsTrue, ◌≤◌, ◌<◌, ◌+◌, ◌*◌, ◌^◌, length};

use crate::colours::Colours;
use crate::sizes::Size;
use crate::translation::Translation;
use messages::Encoding;
use pixel_translate::Area;
use std::sync::Arc;

/// A rectangle whose pixels the viewer copies from a source of the same size (RFC 6143, 7.7.2).
#[derive(Drop)]
pub struct CopyRect {
    pub area: Area,
    pub src_x: u16,
    pub src_y: u16,
    ghost wide: { 1 ≤ area.w },
    ghost high: { 1 ≤ area.h },
}

/// A rectangle with the colours of its places, row by row.
#[derive(Drop)]
pub struct Coloured {
    pub area: Area,
    pub colours: Colours,
    ghost wide: { 1 ≤ area.w },
    ghost high: { 1 ≤ area.h },
    ghost whole: { length colours ≡ area.w * area.h },
}

/// The rectangles of one FramebufferUpdate (RFC 6143, 7.6.1), with what their viewer asked for.
#[derive(Drop)]
pub struct Rectangles {
    pub encoding: Encoding,
    pub format: Translation,
    pub copy_rects: Vec<CopyRect>,
    pub coloured: Vec<Coloured>,
    ghost few: { length copy_rects.items + length coloured.items < 2 ^ 16 },
}

/// A FramebufferUpdate whose rectangles of colours were encoded for several viewers: its own first bytes, and then those.
#[derive(Drop)]
pub struct Shared {
    /// The head and the copies.
    pub front: Vec<u8>,
    pub pixels: Arc<Vec<u8>>,
    ghost some: { 0 < length front.items },
}

/// What an update says of the screen: nothing, its new size (RFC 6143, 7.8.2), or some rectangles of it.
#[derive(Drop)]
pub enum Part {
    /// Nothing.
    Nothing,
    /// Its new size.
    NewSize(Size),
    /// Rectangles with their colours.
    Places(Rectangles),
    /// Rectangles as bytes, encoded once for viewers that are alike.
    Shared(Shared),
}

impl Part {
    /// Tells whether nothing is said.
    pub fn is_nothing(&self) -> bool
        ensures { IsTrue result ↔ (self.now ≡ Part.Nothing) }
    {
        match self {
            Part::Nothing => true,
            _ => false,
        }
    }
}
