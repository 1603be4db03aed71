//! Where a reader stands in what a server says.

ghost use Rattle.std.specs.Prelude.{◌≡◌, ◌+◌, ◌*◌, ◌^◌, ◌<◌, false, IsSome};

use crate::fault::ReadFault;
use crate::step::Step;
use encode_hextile::Carried;
use pixel_translate::Area;

/// A picture's size.
#[derive(Clone, Copy)]
pub(crate) struct Size {
    pub width: u16,
    pub height: u16,
}

/// A rectangle that lies on a picture, and how many rectangles come behind it.
#[derive(Clone, Copy)]
pub(crate) struct Rectangle {
    pub area: Area,
    pub behind: u16,
    ghost right: { area.x + area.w < 2 ^ 16 },
    ghost bottom: { area.y + area.h < 2 ^ 16 },
}

/// A tile of a rectangle (RFC 6143, 7.7.4): which it is in its row of tiles, in which row of tiles, and the pixels that are carried to it.
#[derive(Clone, Copy)]
pub(crate) struct TileAt {
    pub rectangle: Rectangle,
    pub column: u16,
    pub row: u16,
    pub carried: Carried,
    ghost wide: { 16 * column < rectangle.area.w },
    ghost high: { 16 * row < rectangle.area.h },
}

/// Where the reading goes on behind pixels.
#[derive(Clone, Copy)]
pub(crate) enum Behind {
    /// At so many rectangles.
    Rectangles(u16),
    /// Behind a raw tile.
    Tile(TileAt),
}

/// Pixels that come row by row: the rows that aren't whole, of whose first `column` columns came.
#[derive(Clone, Copy)]
pub(crate) struct PixelRows {
    pub area: Area,
    pub column: u16,
    pub behind: Behind,
    ghost right: { area.x + area.w < 2 ^ 16 },
    ghost bottom: { area.y + area.h < 2 ^ 16 },
    ghost wide: { column < area.w },
    ghost high: { 0 < area.h },
}

/// Subrectangles of RRE, of which `left` are to come.
#[derive(Clone, Copy)]
pub(crate) struct RreParts {
    pub rectangle: Rectangle,
    pub left: u32,
    ghost some: { 0 < left },
}

/// Subrectangles of a tile, of which `left` are to come. The tile carries its own background and foreground; those that have no pixels of
/// their own have a foreground.
#[derive(Clone, Copy)]
pub(crate) struct TileParts {
    pub tile: TileAt,
    pub coloured: bool,
    pub left: u8,
    ghost some: { 0 < left },
    ghost pixel: { coloured ≡ false → IsSome tile.carried.foreground },
}

/// Entries of the colour map, of which `left` are to come, from `next` on.
#[derive(Clone, Copy)]
pub(crate) struct MapEntries {
    pub next: u32,
    pub left: u16,
    ghost some: { 0 < left },
    ghost few: { next + left < 2 ^ 17 },
}

/// What comes next.
#[derive(Clone, Copy)]
pub(crate) enum Stage {
    /// A message (RFC 6143, 7.6).
    Message,
    /// The end of an update, which has no bytes.
    UpdateEnd,
    /// A rectangle's head (RFC 6143, 7.6.1), with so many rectangles behind it.
    Rectangle { behind: u16 },
    /// Pixels row by row (RFC 6143, 7.7.1).
    Pixels(PixelRows),
    /// The place that a rectangle is a copy of (RFC 6143, 7.7.2).
    Source(Rectangle),
    /// The head of RRE (RFC 6143, 7.7.3).
    Rre(Rectangle),
    /// Subrectangles of RRE.
    RreParts(RreParts),
    /// A tile, up to its subrectangles or its pixels (RFC 6143, 7.7.4).
    Tile(TileAt),
    /// A tile's subrectangles.
    TileParts(TileParts),
    /// Entries of the colour map (RFC 6143, 7.6.2).
    MapEntries(MapEntries),
    /// Nothing: the bytes before were no message.
    Faulted(ReadFault),
}

/// Where a reader stands: the picture's size, how many bytes of a text are to come, and what comes behind those.
#[derive(Clone, Copy)]
pub(crate) struct State {
    pub size: Size,
    pub text: u32,
    pub stage: Stage,
}

/// What a group of bytes does, and where the reader stands behind it.
#[derive(Clone, Copy)]
pub(crate) struct Turn<'a> {
    pub state: State,
    pub step: Step<'a>,
}
