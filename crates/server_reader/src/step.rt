//! What bytes do to a picture.

use pixel_translate::Area;

/// What some bytes of a server do. Each area lies on the picture, and may be empty. A pixel is `0x00RRGGBB`; its top byte says nothing.
#[derive(Clone, Copy)]
pub enum Step<'a> {
    /// A head was read, which shows nothing by itself.
    Head,
    /// An area shows pixels, row by row from the top (RFC 6143, 7.7.1): four bytes each, the lowest first, as many pixels as places.
    Pixels {
        area: Area,
        bytes: &'a [u8],
    },
    /// Each place of an area shows one pixel.
    Fill {
        area: Area,
        pixel: u32,
    },
    /// An area shows what the area of its size at (`x`, `y`) showed, all at once (RFC 6143, 7.7.2).
    Copy {
        area: Area,
        x: u16,
        y: u16,
    },
    /// The picture has a new size, and shows nothing (RFC 6143, 7.8.2).
    Size {
        width: u16,
        height: u16,
    },
    /// An update was read whole (RFC 6143, 7.6.1).
    UpdateEnd,
    /// A bell rings (RFC 6143, 7.6.3).
    Bell,
    /// A text of so many bytes begins (RFC 6143, 7.6.4).
    TextBegins {
        length: u32,
    },
    /// Further bytes of the text came.
    Text(&'a [u8]),
    /// An entry of the colour map is set (RFC 6143, 7.6.2). No pixel of the reader's format is of the map.
    MapEntry {
        entry: u32,
        red: u16,
        green: u16,
        blue: u16,
    },
}

/// A step, and the bytes of the piece behind those that it was read from.
#[derive(Clone, Copy)]
pub struct Next<'a> {
    pub step: Step<'a>,
    pub rest: &'a [u8],
}
