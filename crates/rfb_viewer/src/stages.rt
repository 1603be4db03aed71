//! What comes next, and what is kept of what came.

ghost use Rattle.std.specs.Prelude.{◌≡◌, ◌-◌, ◌<◌, ◌≤◌, Ok, Err};
ghost use Rattle.rfb_viewer.specs.Counts.{one_more, is_open_at};

use crate::fault::{FaultKind, Halt};
use crate::groups::Group;
use crate::{opening, rectangles, tiles, updates};
use messages::Version;
use pixel_translate::{Area, BitsPerPixel, Component, PixelFormat, Pixels};

/// The group of bytes that comes next.
#[derive(Clone, Copy)]
pub(crate) enum Stage {
    /// The server's version (RFC 6143 section 7.1.1).
    Version,
    /// How many security types there are (RFC 6143 section 7.1.2).
    SecurityCount,
    /// One of them; `listed` says whether None was among those before.
    SecurityTypes { listed: bool },
    /// The security type of version 3.3 (RFC 6143 appendix A).
    SecurityType,
    /// Whether the type was accepted (RFC 6143 section 7.1.3).
    SecurityResult,
    /// ServerInit up to its name (RFC 6143 section 7.3.2).
    Init,
    /// A byte of the name.
    Name,
    /// A message's type (RFC 6143 section 7.6).
    Message,
    /// An update up to its rectangles (RFC 6143 section 7.6.1).
    Update,
    /// Entries of the colour map, up to the first (RFC 6143 section 7.6.2).
    Map,
    /// An entry of the colour map.
    Entry,
    /// A text up to its bytes (RFC 6143 section 7.6.4).
    Text,
    /// A byte of the text.
    TextByte,
    /// A rectangle's place, size and encoding (RFC 6143 section 7.6.1), or the screen's new size (7.8.2).
    Head,
    /// Where a copy is from (RFC 6143 section 7.7.2).
    Source,
    /// A pixel of a block that is sent pixel by pixel (RFC 6143 sections 7.7.1 and 7.7.4).
    Pixel,
    /// RRE up to its subrectangles (RFC 6143 section 7.7.3).
    Rre,
    /// A subrectangle of RRE.
    Subrectangle,
    /// The bits that a tile begins with (RFC 6143 section 7.7.4).
    Bits,
    /// A tile's background.
    Background,
    /// A tile's foreground.
    Foreground,
    /// How many subrectangles a tile has.
    Count,
    /// A tile's subrectangle with a pixel of its own.
    Coloured,
    /// A tile's subrectangle of the foreground.
    Plain,
}

/// Places of the screen that are filled at once.
#[derive(Clone, Copy)]
pub(crate) struct Block {
    pub x: u32,
    pub y: u32,
    pub columns: u16,
    pub rows: u16,
}

/// A block that is sent pixel by pixel, and which pixel comes next.
#[derive(Clone, Copy)]
pub(crate) struct Cursor {
    pub block: Block,
    pub column: u16,
    pub row: u16,
}

/// A tile of a rectangle, and the pixels that are carried from tile to tile (RFC 6143 section 7.7.4).
#[derive(Clone, Copy)]
pub(crate) struct Tile {
    pub column: u16,
    pub row: u16,
    pub bits: u8,
    pub background: Option<u32>,
    pub foreground: Option<u32>,
}

/// What is kept of the bytes that came, but for what they show.
#[derive(Clone, Copy)]
pub(crate) struct Reading {
    pub version: Version,
    /// The screen's size, once ServerInit told it, and then the last DesktopSize.
    pub columns: u16,
    pub rows: u16,
    /// The format that the viewer asked for last, in which the next update is read.
    pub chosen: Option<PixelFormat>,
    /// The format in which this update is read.
    pub format: PixelFormat,
    pub stage: Stage,
    /// How many there are still of what comes one by one: security types, bytes of a text, subrectangles, entries of the colour
    /// map.
    pub left: u32,
    /// Which entry of the colour map comes next.
    pub entry: u32,
    /// How many rectangles come behind this one.
    pub rectangles: u16,
    pub area: Area,
    /// The tile that is read, if the rectangle has tiles.
    pub tile: Option<Tile>,
    pub cursor: Cursor,
    /// How many updates, and how many texts, were read whole.
    pub updates: u64,
    pub texts: u64,
}

/// What a group of bytes does to what is shown.
#[derive(Clone, Copy)]
pub(crate) enum Effect {
    Nothing,
    /// There is a screen of this size, which shows nothing.
    Screen { columns: u16, rows: u16 },
    /// A block shows a pixel.
    Fill { block: Block, pixel: u32 },
    /// An area shows what an area of its size showed, all at once.
    Copy { area: Area, x: u16, y: u16 },
    /// An entry of the colour map is red, green and blue.
    Entry { entry: u32, colour: (u16, u16, u16) },
}

/// What is kept behind a group of bytes, and what the group shows.
#[derive(Clone, Copy)]
pub(crate) struct Step {
    pub reading: Reading,
    pub effect: Effect,
}

/// Returns how many bytes a pixel of `format` has.
pub(crate) fn pixel_size(format: &PixelFormat) -> usize
    ensures { result ≤ 4 }
{
    match format.bits() {
        BitsPerPixel::Eight => 1,
        BitsPerPixel::Sixteen => 2,
        BitsPerPixel::ThirtyTwo => 4,
    }
}

/// Returns how many bytes the group of `stage` has, with pixels of `pixel` bytes.
pub(crate) fn group_size(stage: Stage, pixel: usize) -> usize
    requires { pixel ≤ 4 }
    ensures { result ≤ 24 }
{
    match stage {
        Stage::Version | Stage::Head => 12,
        Stage::SecurityCount | Stage::SecurityTypes { .. } => 1,
        Stage::SecurityType | Stage::SecurityResult | Stage::Source => 4,
        Stage::Init => 24,
        Stage::Name | Stage::Message | Stage::TextByte => 1,
        Stage::Update => 3,
        Stage::Map => 5,
        Stage::Entry => 6,
        Stage::Text => 7,
        Stage::Pixel | Stage::Background | Stage::Foreground => pixel,
        Stage::Rre => 4 + pixel,
        Stage::Subrectangle => pixel + 8,
        Stage::Bits | Stage::Count => 1,
        Stage::Coloured => pixel + 2,
        Stage::Plain => 2,
    }
}

impl Reading {
    /// Returns what is kept by a viewer of `version` to which nothing came yet.
    pub(crate) fn new(version: Version) -> Reading {
        let none = Component { max: 0, shift: 0 };
        Reading {
            version,
            columns: 0,
            rows: 0,
            chosen: None,
            format: PixelFormat {
                depth: 0,
                big_endian: false,
                pixels: Pixels::TrueColour {
                    bits: BitsPerPixel::Eight,
                    red: none,
                    green: none,
                    blue: none,
                },
            },
            stage: Stage::Version,
            left: 0,
            entry: 0,
            rectangles: 0,
            area: Area {
                x: 0,
                y: 0,
                w: 0,
                h: 0,
            },
            tile: None,
            cursor: Cursor {
                block: Block {
                    x: 0,
                    y: 0,
                    columns: 0,
                    rows: 0,
                },
                column: 0,
                row: 0,
            },
            updates: 0,
            texts: 0,
        }
    }

    /// Goes on to the group of `stage`.
    pub(crate) fn at(self, stage: Stage) -> Reading
        ensures { result ≡ record self { stage = stage } }
    {
        Reading { stage, ..self }
    }

    /// Counts one less to come of what comes one by one: goes on to the same stage again, or behind the last to the stage `last`.
    pub(crate) fn one_less(self, last: Stage) -> Reading {
        if self.left > 1 {
            Reading {
                left: self.left - 1,
                ..self
            }
        } else {
            Reading {
                left: 0,
                stage: last,
                ..self
            }
        }
    }

    /// Goes on to `left` groups of `stage`, or, where `left` is 0, to the stage `none`.
    pub(crate) fn repeated(self, left: u32, stage: Stage, none: Stage) -> Reading {
        Reading {
            left,
            stage: if left == 0 { none } else { stage },
            ..self
        }
    }

    /// Goes on to the next rectangle. Behind the last, counts one more update that was read whole, and goes on to a message.
    pub(crate) fn next_rectangle(self) -> Reading
        ensures some { 0 < self.rectangles → result ≡ record self { rectangles = self.rectangles - 1; stage = Stage.Head } }
        ensures none { self.rectangles ≡ 0 → result ≡ record self { updates = one_more self.updates; stage = Stage.Message } }
    {
        if self.rectangles > 0 {
            Reading {
                rectangles: self.rectangles - 1,
                stage: Stage::Head,
                ..self
            }
        } else {
            Reading {
                updates: self.updates.saturating_add(1),
                stage: Stage::Message,
                ..self
            }
        }
    }

    /// Goes on to `left` bytes of a text. Where `left` is 0, counts one more text that was read whole, and goes on to a message.
    pub(crate) fn text_bytes(self, left: u32) -> Reading
        ensures some { 0 < left → result ≡ record self { left = left; stage = Stage.TextByte } }
        ensures none { left ≡ 0 → result ≡ record self { left = 0; texts = one_more self.texts; stage = Stage.Message } }
    {
        if left > 0 {
            Reading {
                left,
                stage: Stage::TextByte,
                ..self
            }
        } else {
            Reading {
                left,
                texts: self.texts.saturating_add(1),
                stage: Stage::Message,
                ..self
            }
        }
    }

    /// Returns whether the opening was read whole.
    pub(crate) fn is_open(&self) -> bool
        ensures { result ≡ is_open_at self.now.stage }
    {
        !matches!(
            self.stage,
            Stage::Version
                | Stage::SecurityCount
                | Stage::SecurityTypes { .. }
                | Stage::SecurityType
                | Stage::SecurityResult
                | Stage::Init
                | Stage::Name
        )
    }

    /// Reads a group of bytes.
    pub(crate) fn read(self, bytes: &Group) -> Result<Step, Halt> {
        match self.stage {
            Stage::Version
            | Stage::SecurityCount
            | Stage::SecurityTypes { .. }
            | Stage::SecurityType
            | Stage::SecurityResult
            | Stage::Init
            | Stage::Name => opening::read(self, bytes),
            Stage::Message
            | Stage::Update
            | Stage::Map
            | Stage::Entry
            | Stage::Text
            | Stage::TextByte => updates::read(self, bytes),
            Stage::Head | Stage::Source | Stage::Pixel | Stage::Rre | Stage::Subrectangle => {
                rectangles::read(self, bytes)
            }
            Stage::Bits
            | Stage::Background
            | Stage::Foreground
            | Stage::Count
            | Stage::Coloured
            | Stage::Plain => tiles::read(self, bytes),
        }
    }
}

/// Returns the step of a group that shows nothing.
pub(crate) fn silent(reading: Reading) -> Result<Step, Halt>
    ensures { result ≡ Ok (record { reading = reading; effect = Effect.Nothing }) }
{
    Ok(Step {
        reading,
        effect: Effect::Nothing,
    })
}

/// Refuses a group whose field at `offset` is wrong.
pub(crate) fn halt(kind: FaultKind, offset: u64) -> Result<Step, Halt>
    ensures { result ≡ Err (record { kind = kind; offset = offset }) }
{
    Err(Halt { kind, offset })
}
