//! Calls that append to a vector, each behind what the earlier ones appended: heads, copies, pixels, and rectangles by one table.
//! The bytes are written out from RFC 6143 (7.4, 7.6.1, 7.7).

use encode_hextile::{Carried, Rows, encode_hextile_with_table, encode_row_of_tiles};
use encode_raw::{Area, PixelFormat, encode_copy, encode_raw_with_table, rect_header};
use encode_rre::encode_rre_with_table;
use pixel_translate::{BitsPerPixel, Component, Pixels, Table, put_pixel, translate};
use std::alloc::AllocError;

/// Sixteen bits, 5-6-5, the highest byte first.
const RGB565: PixelFormat = PixelFormat {
    depth: 16,
    big_endian: true,
    pixels: Pixels::TrueColour {
        bits: BitsPerPixel::Sixteen,
        red: Component { max: 31, shift: 11 },
        green: Component { max: 63, shift: 5 },
        blue: Component { max: 31, shift: 0 },
    },
};

enum Kind {
    /// A head with an encoding's number.
    Head(i32),
    /// A copy from a corner.
    Copy(u16, u16),
    Raw,
    Rre,
    Hextile,
    /// A colour in the server's format.
    Pixel(u32),
    /// A row of tiles of one colour in that format, behind a background.
    Tiles(Option<u32>),
}

struct Call {
    kind: Kind,
    area: Area,
    colours: &'static [u32],
    appends: &'static [u8],
}

/// Appends a row of tiles of one colour behind what the tiles above left. Returns whether it leaves that colour.
fn append_tiles(out: &mut Vec<u8>, background: Option<u32>) -> Result<bool, AllocError> {
    let above = Carried {
        background,
        foreground: None,
    };
    let row = Rows {
        values: &[0x112233; 17],
        width: 17,
        height: 1,
    };
    let left = encode_row_of_tiles(out, &row, &Table::new(&PixelFormat::server()), above)?;
    Ok((left.background, left.foreground) == (Some(0x112233), None))
}

fn append(out: &mut Vec<u8>, table: &Table, call: &Call) -> Result<bool, AllocError> {
    let Call {
        kind,
        area,
        colours,
        ..
    } = call;
    match kind {
        Kind::Head(encoding) => rect_header(out, *area, *encoding)?,
        Kind::Pixel(colour) => put_pixel(out, &PixelFormat::server(), *colour)?,
        Kind::Tiles(background) => return append_tiles(out, *background),
        _ => {}
    }
    if area.w == 0 || area.h == 0 {
        return Ok(true);
    }
    if let Kind::Copy(x, y) = kind {
        encode_copy(out, *area, *x, *y)?;
    }
    if colours.len() != usize::from(area.w) * usize::from(area.h) {
        return Ok(true);
    }
    match kind {
        Kind::Raw => encode_raw_with_table(out, *area, colours, table)?,
        Kind::Rre => encode_rre_with_table(out, *area, colours, table)?,
        Kind::Hextile => encode_hextile_with_table(out, *area, colours, table)?,
        _ => {}
    }
    Ok(true)
}

#[test]
fn encodings_whichever_allocation_is_refused(rt: HostRuntime) {
    let table = Table::new(&RGB565);
    let mut out = Vec::new(rt.alloc());
    for (number, call) in CALLS.iter().enumerate() {
        let before = out.len();
        let mut appended = append(&mut out, &table, call);
        if appended.is_err() {
            assert!(rt; out.len() == before, "call {number}");
            appended = append(&mut out, &table, call);
        }
        assert!(rt; matches!(appended, Ok(true)), "call {number}");
    }
    let mut left = out.as_slice();
    for (number, call) in CALLS.iter().enumerate() {
        let (front, back) = left.split_at(call.appends.len().min(left.len()));
        assert!(rt; front == call.appends, "call {number}: {front:?}");
        left = back;
    }
    assert!(rt; left.is_empty());
    // The top byte of a colour is none of it.
    let format = PixelFormat::server();
    assert!(rt; translate(&format, 0x12_34_56_78) == 0x34_56_78);
    assert!(rt; Table::new(&format).translate(0x12_34_56_78) == 0x34_56_78);
}

macro_rules! area {
    ($x:expr, $y:expr, $w:expr, $h:expr) => {
        Area {
            x: $x,
            y: $y,
            w: $w,
            h: $h,
        }
    };
}

const RED: u32 = 0xff_8000;

const BLUE: u32 = 0x00_00ff;

const GREEN: u32 = 0x00_ff00;

static CALLS: [Call; 13] = [
    Call {
        kind: Kind::Pixel(0x12_34_56_78),
        area: area!(0, 0, 0, 0),
        colours: &[],
        appends: &[0x78, 0x56, 0x34, 0x00],
    },
    Call {
        kind: Kind::Head(-223),
        area: area!(0x0102, 3, 4, 5),
        colours: &[],
        appends: &[1, 2, 0, 3, 0, 4, 0, 5, 0xff, 0xff, 0xff, 0x21],
    },
    Call {
        kind: Kind::Copy(5, 258),
        area: area!(1, 0, 3, 1),
        colours: &[],
        appends: &[0, 1, 0, 0, 0, 3, 0, 1, 0, 0, 0, 1, 0, 5, 1, 2],
    },
    Call {
        kind: Kind::Raw,
        area: area!(2, 1, 1, 1),
        colours: &[0xff_8000],
        appends: &[0, 2, 0, 1, 0, 1, 0, 1, 0, 0, 0, 0, 0xfc, 0x00],
    },
    Call {
        kind: Kind::Raw,
        area: area!(3, 1, 1, 1),
        colours: &[0x00_00ff],
        appends: &[0, 3, 0, 1, 0, 1, 0, 1, 0, 0, 0, 0, 0x00, 0x1f],
    },
    Call {
        kind: Kind::Rre,
        area: area!(0, 0, 4, 4),
        colours: &[0xff_8000; 16],
        appends: &[0, 0, 0, 0, 0, 4, 0, 4, 0, 0, 0, 2, 0, 0, 0, 0, 0xfc, 0x00],
    },
    Call {
        kind: Kind::Rre,
        area: area!(0, 4, 4, 4),
        colours: &[0x00_00ff; 16],
        appends: &[0, 0, 0, 4, 0, 4, 0, 4, 0, 0, 0, 2, 0, 0, 0, 0, 0x00, 0x1f],
    },
    Call {
        kind: Kind::Hextile,
        area: area!(0, 0, 2, 2),
        colours: &[0xff_8000; 4],
        appends: &[0, 0, 0, 0, 0, 2, 0, 2, 0, 0, 0, 5, 0x02, 0xfc, 0x00],
    },
    Call {
        kind: Kind::Hextile,
        area: area!(2, 0, 2, 2),
        colours: &[0xff_8000; 4],
        appends: &[0, 2, 0, 0, 0, 2, 0, 2, 0, 0, 0, 5, 0x02, 0xfc, 0x00],
    },
    Call {
        kind: Kind::Rre,
        area: area!(7, 9, 6, 5),
        colours: &[
            RED, RED, RED, BLUE, BLUE, RED, RED, GREEN, RED, BLUE, BLUE, RED, RED, GREEN, RED, RED,
            RED, RED, RED, RED, RED, RED, RED, RED, BLUE, BLUE, BLUE, BLUE, BLUE, BLUE,
        ],
        appends: &[
            0, 7, 0, 9, 0, 6, 0, 5, 0, 0, 0, 2, 0, 0, 0, 3, 0xfc, 0x00, 0x00, 0x1f, 0, 3, 0, 0, 0,
            2, 0, 2, 0x07, 0xe0, 0, 1, 0, 1, 0, 1, 0, 2, 0x00, 0x1f, 0, 0, 0, 4, 0, 6, 0, 1,
        ],
    },
    Call {
        kind: Kind::Hextile,
        area: area!(1, 2, 18, 2),
        colours: &[
            RED, RED, RED, RED, RED, RED, RED, RED, RED, RED, RED, RED, RED, RED, RED, RED, BLUE,
            GREEN, RED, RED, RED, RED, RED, RED, RED, RED, RED, RED, RED, RED, RED, RED, RED, BLUE,
            BLUE, BLUE,
        ],
        appends: &[
            0, 1, 0, 2, 0, 18, 0, 2, 0, 0, 0, 5, 0x0e, 0xfc, 0x00, 0x00, 0x1f, 1, 0xf1, 0x00, 0x0e,
            0x00, 0x1f, 0x07, 0xe0, 1, 0x10, 0x00,
        ],
    },
    Call {
        kind: Kind::Tiles(None),
        area: area!(0, 0, 0, 0),
        colours: &[],
        appends: &[0x02, 0x33, 0x22, 0x11, 0x00, 0x00],
    },
    Call {
        kind: Kind::Tiles(Some(0x11_2233)),
        area: area!(0, 0, 0, 0),
        colours: &[],
        appends: &[0x00, 0x00],
    },
];
