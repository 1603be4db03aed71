//! Pictures, and drawing calls.

ghost use Rattle.std.specs.Prelude.{◌≡◌, None, IfOk};
ghost use Rattle.screen.specs.Alone.{config_refusal};

use listed::Listed;
use region::{Rect, Region};
use screen::{Config, History, ScreenError};
use std::alloc::{AllocError, Global};
use std::sync::Wait;
use std::sync::ledger::Ledger;
use update_sender::{Brush, Listener, Shared};

/// The version 3.8, the choice of no security, and a ClientInit (RFC 6143, 7.1 to 7.3); and the same with a request of the whole
/// screen of 4 by 3 (7.5.3).
pub const OPENING: &[u8] = b"RFB 003.008\n\x01\x01";

pub const OPENING_AND_REQUEST: &[u8] = b"RFB 003.008\n\x01\x01\x03\0\0\0\0\0\0\x04\0\x03";

/// How many bytes a viewer is sent at its opening, and with an update of that screen in Raw.
pub const GREETED: usize = 46;

pub const WHOLE: usize = 110;

/// A picture.
#[derive(Clone, Copy)]
pub enum Picture {
    /// A screen of 4 by 3 that is black. One place of it, (1, 1), may get the colour 00000a.
    Black,
    /// That screen, all in that colour.
    Coloured,
    /// A screen of 200 by 100 in the colours 0, 1, 2 and so on. Its update has more than 64 KB, and is encoded and written in parts.
    Long,
}

/// What a picture is. Its first place has the colour `first`, and each further one, row by row, that of the one before plus `step`.
struct Look {
    width: u32,
    height: u32,
    /// The screen's name.
    name: &'static [u8],
    first: u32,
    step: u32,
    /// What a viewer is sent before the pixels.
    head: &'static [u8],
}

/// What a viewer of 4 by 3 places is sent before the pixels: the opening's answers, and the head of an update of the whole screen in
/// Raw (7.1 to 7.3, 7.6.1, 7.7.1).
pub const HEAD: &[u8] =
    b"RFB 003.008\n\x01\x01\0\0\0\0\0\x04\0\x03\x20\x18\0\x01\0\xff\0\xff\0\xff\x10\x08\0\0\0\0\0\0\0\x04demo\
        \0\0\0\x01\0\0\0\0\0\x04\0\x03\0\0\0\0";

/// What a viewer of 200 by 100 places is sent before the pixels.
const LONG_HEAD: &[u8] =
    b"RFB 003.008\n\x01\x01\0\0\0\0\0\xc8\0\x64\x20\x18\0\x01\0\xff\0\xff\0\xff\x10\x08\0\0\0\0\0\0\0\x04long\
        \0\0\0\x01\0\0\0\0\0\xc8\0\x64\0\0\0\0";

/// What it may be sent later: an update of one place.
const PLACE: &[u8] = b"\0\0\0\x01\0\x01\0\x01\0\x01\0\x01\0\0\0\0\x0a\0\0\0";

static BLACK: Look = Look {
    width: 4,
    height: 3,
    name: b"demo",
    first: 0,
    step: 0,
    head: HEAD,
};

static COLOURED: Look = Look {
    width: 4,
    height: 3,
    name: b"demo",
    first: 10,
    step: 0,
    head: HEAD,
};

static LONG: Look = Look {
    width: 200,
    height: 100,
    name: b"long",
    first: 0,
    step: 1,
    head: LONG_HEAD,
};

/// Returns what `picture` is.
fn look_of(picture: Picture) -> &'static Look {
    match picture {
        Picture::Black => &BLACK,
        Picture::Coloured => &COLOURED,
        Picture::Long => &LONG,
    }
}

/// Returns the configuration of the screen that `picture` is on.
pub fn config(alloc: Global, picture: Picture, history: History) -> Result<Config, AllocError> {
    let look = look_of(picture);
    Ok(Config {
        width: look.width,
        height: look.height,
        name: Listed::from_slice(alloc, look.name)?,
        rects_per_update: 50,
        history,
    })
}

/// Returns the colours of `picture`, row by row.
pub fn colours(alloc: Global, picture: Picture) -> Result<Vec<u32>, AllocError> {
    let look = look_of(picture);
    let mut colours = Vec::new(alloc);
    for place in 0..look.width.wrapping_mul(look.height) {
        colours.push(look.step.wrapping_mul(place).wrapping_add(look.first))?;
    }
    Ok(colours)
}

/// Returns what a viewer is sent of `picture`, and may be sent later: each pixel in the server's format, the lowest byte first.
pub fn bytes(alloc: Global, picture: Picture) -> Result<Vec<u8>, AllocError> {
    let mut bytes = look_of(picture).head.to_vec(alloc)?;
    for colour in colours(alloc, picture)? {
        bytes.extend_from_slice(&colour.to_le_bytes())?;
    }
    bytes.extend_from_slice(PLACE)?;
    Ok(bytes)
}

/// What is drawn: a rectangle and how many places it has, an offset, and one colour for them all.
#[derive(Clone, Copy)]
struct Drawn {
    pub rect: Rect,
    pub places: usize,
    pub dx: i32,
    pub dy: i32,
    pub colour: u32,
}

/// Draws by the call `kind`, of ten.
fn draw<L: Ledger, R: Wait>(
    rt: &R,
    alloc: Global,
    shared: &Shared<L>,
    brush: &mut Brush<L>,
    kind: u8,
    drawn: Drawn,
) -> Result<(), ScreenError> {
    let Drawn {
        rect,
        places,
        dx,
        dy,
        colour,
    } = drawn;
    let Rect { x1, y1, x2, y2 } = rect;
    let colours = [colour; 12];
    let colours = colours.get(..places).unwrap_or_default();
    let Ok(region) = Region::from_rect(alloc, rect) else {
        return Err(ScreenError::OutOfMemory);
    };
    match kind {
        0 => brush.write_pixels(shared, rt, rect, colours),
        1 => brush.paint(shared, rt, rect, colours),
        2 => brush.mark_rect(shared, rt, x1, y1, x2, y2),
        3 => brush.mark_region(shared, rt, &region),
        4 => brush.schedule_copy_rect(shared, rt, x1, y1, x2, y2, dx, dy),
        5 => brush.schedule_copy_region(shared, rt, &region, dx, dy),
        6 => brush.do_copy_rect(shared, rt, x1, y1, x2, y2, dx, dy),
        7 => brush.do_copy_region(shared, rt, &region, dx, dy),
        8 => brush.bell(shared, rt),
        _ => brush.cut_text(shared, rt, b"hi"),
    }
}

/// Makes each of the ten calls once, on the whole screen of 4 by 3, which is in the colour 00000a then.
pub fn draw_each<L: Ledger, R: Wait>(
    rt: &R,
    alloc: Global,
    shared: &Shared<L>,
    brush: &mut Brush<L>,
) -> Result<(), ScreenError> {
    let drawn = Drawn {
        rect: Rect {
            x1: 0,
            y1: 0,
            x2: 4,
            y2: 3,
        },
        places: 12,
        dx: 1,
        dy: 0,
        colour: 10,
    };
    for kind in 0..10u8 {
        draw(rt, alloc, shared, brush, kind, drawn)?;
    }
    Ok(())
}

/// SetEncodings with CopyRect and Raw or with Raw alone, and a request of what changes in the whole screen (RFC 6143, 7.5.2,
/// 7.5.3).
const WITH_COPYRECT: &[u8] = b"\x02\0\0\x02\0\0\0\x01\0\0\0\0\x03\x01\0\0\0\0\0\x04\0\x03";

const WITHOUT: &[u8] = b"\x02\0\0\x01\0\0\0\0\x03\x01\0\0\0\0\0\x04\0\x03";

/// Makes 300 calls, and asks as the viewer after each tenth, with CopyRect and without in turn. The kinds of call and what is drawn,
/// the places from a column to the right border, in one row, come from a sequence of numbers: each is the one before times
/// 6364136223846793005 plus 1442695040888963407, of 64 bits, from 9 on; its highest bytes are used.
pub fn draw_many<L: Ledger, R: Wait>(
    rt: &R,
    alloc: Global,
    shared: &Shared<L>,
    brush: &mut Brush<L>,
    listener: &mut Listener,
) -> Result<(), ScreenError> {
    let mut number = 9u64;
    for count in 1..=300u32 {
        number = number
            .wrapping_mul(6_364_136_223_846_793_005)
            .wrapping_add(1_442_695_040_888_963_407);
        let [kind, x, y, dx, dy, colour, ..] = number.to_be_bytes();
        let (x, y) = (x % 4, y % 3);
        let drawn = Drawn {
            rect: Rect {
                x1: i32::from(x),
                y1: i32::from(y),
                x2: 4,
                y2: i32::from(y) + 1,
            },
            places: usize::from(4 - x),
            dx: i32::from(dx % 5) - 2,
            dy: i32::from(dy % 5) - 2,
            colour: u32::from(colour),
        };
        draw(rt, alloc, shared, brush, kind % 10, drawn)?;
        match count % 20 {
            0 => shared.hear(rt, listener, WITHOUT)?,
            10 => shared.hear(rt, listener, WITH_COPYRECT)?,
            _ => continue,
        };
    }
    Ok(())
}
