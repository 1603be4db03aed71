//! Lists of calls, each beside the bytes that it is answered, which are written out from RFC 6143. What a list's events are is made
//! here, too.

use crate::tests::screens::{OPENING, WITH_COPYRECT, rect};
use listed::Listed;
use region::Rect;
use screen::Event;
use std::alloc::{AllocError, Global};

/// An event as it is written down here: each rectangle by its corners x1, y1, x2, y2.
#[derive(Clone, Copy)]
pub(crate) enum Call {
    Write([i32; 4], &'static [u32]),
    Paint([i32; 4], &'static [u32]),
    Mark(&'static [[i32; 4]]),
    ScheduleCopy(&'static [[i32; 4]], i32, i32),
    DoCopy(&'static [[i32; 4]], i32, i32),
    Bell,
    CutText(&'static [u8]),
    Resize(u32, u32),
    Connect(u64),
    Hear(u64, &'static [u8]),
    Cut(u64),
    Close(u64),
}

use Call::{
    Bell, Close, Connect, Cut, CutText, DoCopy, Hear, Mark, Paint, Resize, ScheduleCopy, Write,
};

/// An event, and the bytes that it is answered.
pub(crate) type Row = (Call, &'static [u8]);

const WHOLE: [i32; 4] = [0, 0, 4, 1];

const VERSION: &[u8] = b"RFB 003.008\n";

/// What the server answers behind the version of a screen of 4 by 1 named `demo`.
const OPENED: &[u8] = &[
    1, 1, 0, 0, 0, 0, 0, 4, 0, 1, 32, 24, 0, 1, 0, 255, 0, 255, 0, 255, 16, 8, 0, 0, 0, 0, 0, 0, 0,
    4, 0x64, 0x65, 0x6d, 0x6f,
];

/// A request of all of it, and one of what changed.
const ALL: &[u8] = &[3, 0, 0, 0, 0, 0, 0, 4, 0, 1];

const CHANGES: &[u8] = &[3, 1, 0, 0, 0, 0, 0, 4, 0, 1];

/// The colours 1 to 4, as an update.
const FOUR: &[u8] = &[
    0, 0, 0, 1, 0, 0, 0, 0, 0, 4, 0, 1, 0, 0, 0, 0, 1, 0, 0, 0, 2, 0, 0, 0, 3, 0, 0, 0, 4, 0, 0, 0,
];

const BLACK: &[u8] = &[
    0, 0, 0, 1, 0, 0, 0, 0, 0, 4, 0, 1, 0, 0, 0, 0, 0, 0, 0, 0, 0, 0, 0, 0, 0, 0, 0, 0, 0, 0, 0, 0,
];

/// A copy for viewers with and without CopyRect.
pub(crate) static TWO_VIEWERS: [Row; 15] = [
    (Paint(WHOLE, &[1, 2, 3, 4]), &[]),
    (Connect(1), VERSION),
    (Connect(2), VERSION),
    (Hear(1, OPENING), OPENED),
    (Hear(2, OPENING), OPENED),
    (Hear(1, WITH_COPYRECT), &[]),
    (Hear(1, ALL), &[]),
    (Hear(2, ALL), &[]),
    (Cut(1), FOUR),
    (Cut(2), FOUR),
    (DoCopy(&[[1, 0, 4, 1]], 1, 0), &[]),
    (Hear(1, CHANGES), &[]),
    (Hear(2, CHANGES), &[]),
    (
        Cut(1),
        &[0, 0, 0, 1, 0, 1, 0, 0, 0, 3, 0, 1, 0, 0, 0, 1, 0, 0, 0, 0],
    ),
    (
        Cut(2),
        &[
            0, 0, 0, 1, 0, 1, 0, 0, 0, 3, 0, 1, 0, 0, 0, 0, 1, 0, 0, 0, 2, 0, 0, 0, 3, 0, 0, 0,
        ],
    ),
];

/// Every kind of event.
pub(crate) static EVERY_KIND: [Row; 21] = [
    (Connect(1), VERSION),
    (Hear(1, OPENING), OPENED),
    (Hear(1, WITH_COPYRECT), &[]),
    (Hear(1, ALL), &[]),
    (Cut(1), BLACK),
    (Write([0, 0, 2, 1], &[1, 2]), &[]),
    (Mark(&[[0, 0, 1, 1], [2, 1, 1, 0]]), &[]),
    (Bell, &[]),
    (CutText(b"hi"), &[]),
    (Hear(1, CHANGES), &[]),
    (
        Cut(1),
        &[
            2, 3, 0, 0, 0, 0, 0, 0, 2, 0x68, 0x69, 0, 0, 0, 1, 0, 0, 0, 0, 0, 2, 0, 1, 0, 0, 0, 0,
            1, 0, 0, 0, 2, 0, 0, 0,
        ],
    ),
    (ScheduleCopy(&[[2, 0, 4, 1]], 2, 0), &[]),
    (Hear(1, CHANGES), &[]),
    (
        Cut(1),
        &[0, 0, 0, 1, 0, 2, 0, 0, 0, 2, 0, 1, 0, 0, 0, 1, 0, 0, 0, 0],
    ),
    (DoCopy(&[[1, 0, 2, 1], [3, 0, 4, 1]], 1, 0), &[]),
    (Hear(1, CHANGES), &[]),
    (
        Cut(1),
        &[
            0, 0, 0, 2, 0, 3, 0, 0, 0, 1, 0, 1, 0, 0, 0, 1, 0, 2, 0, 0, 0, 1, 0, 0, 0, 1, 0, 1, 0,
            0, 0, 1, 0, 0, 0, 0,
        ],
    ),
    (Paint([0, 0, 1, 1], &[0xff8000]), &[]),
    (Hear(1, CHANGES), &[]),
    (
        Cut(1),
        &[
            0, 0, 0, 1, 0, 0, 0, 0, 0, 1, 0, 1, 0, 0, 0, 0, 0, 0x80, 0xff, 0,
        ],
    ),
    (Close(1), &[]),
];

/// A whole black screen of 4 by 3, as an update.
const ALL_BLACK: &[u8] = &[
    0, 0, 0, 1, 0, 0, 0, 0, 0, 4, 0, 3, 0, 0, 0, 0, 0, 0, 0, 0, 0, 0, 0, 0, 0, 0, 0, 0, 0, 0, 0, 0,
    0, 0, 0, 0, 0, 0, 0, 0, 0, 0, 0, 0, 0, 0, 0, 0, 0, 0, 0, 0, 0, 0, 0, 0, 0, 0, 0, 0, 0, 0, 0, 0,
];

/// What the server answers on that screen behind its version.
const OPENED_LARGER: &[u8] = &[
    1, 1, 0, 0, 0, 0, 0, 4, 0, 3, 32, 24, 0, 1, 0, 255, 0, 255, 0, 255, 16, 8, 0, 0, 0, 0, 0, 0, 0,
    4, 0x64, 0x65, 0x6d, 0x6f,
];

/// The first updates of a viewer of a screen of 4 by 3: a cut that gives nothing is no event.
pub(crate) static FIRST_UPDATES: [Row; 9] = [
    (Connect(1), VERSION),
    (Hear(1, OPENING), OPENED_LARGER),
    (Hear(1, &[3, 0, 0, 0, 0, 0, 0, 4, 0, 3]), &[]),
    (Cut(1), ALL_BLACK),
    (Hear(1, &[3, 1, 0, 0, 0, 0, 0, 4, 0, 3]), &[]),
    (Cut(1), &[]),
    (Paint([2, 1, 3, 2], &[0xff8000]), &[]),
    (
        Cut(1),
        &[
            0, 0, 0, 1, 0, 2, 0, 1, 0, 1, 0, 1, 0, 0, 0, 0, 0, 0x80, 0xff, 0,
        ],
    ),
    (Cut(1), &[]),
];

/// A new framebuffer, of more columns and rows: one viewer lists DesktopSize (RFC 6143, section 7.8.2), and the other knows the old
/// size alone.
pub(crate) static NEW_SIZE: [Row; 18] = [
    (Paint(WHOLE, &[1, 2, 3, 4]), &[]),
    (Connect(1), VERSION),
    (Hear(1, OPENING), OPENED),
    (
        Hear(1, &[2, 0, 0, 2, 0, 0, 0, 0, 0xff, 0xff, 0xff, 0x21]),
        &[],
    ),
    (Connect(2), VERSION),
    (Hear(2, OPENING), OPENED),
    (Hear(1, ALL), &[]),
    (Cut(1), FOUR),
    (Hear(2, ALL), &[]),
    (Cut(2), FOUR),
    (Resize(6, 2), &[]),
    (Paint([5, 1, 6, 2], &[10]), &[]),
    (Hear(1, CHANGES), &[]),
    (Hear(2, CHANGES), &[]),
    (
        Cut(1),
        &[0, 0, 0, 1, 0, 0, 0, 0, 0, 6, 0, 2, 0xff, 0xff, 0xff, 0x21],
    ),
    (Cut(2), BLACK),
    (Hear(1, &[3, 0, 0, 0, 0, 0, 0, 6, 0, 2]), &[]),
    (
        Cut(1),
        &[
            0, 0, 0, 1, 0, 0, 0, 0, 0, 6, 0, 2, 0, 0, 0, 0, 0, 0, 0, 0, 0, 0, 0, 0, 0, 0, 0, 0, 0,
            0, 0, 0, 0, 0, 0, 0, 0, 0, 0, 0, 0, 0, 0, 0, 0, 0, 0, 0, 0, 0, 0, 0, 0, 0, 0, 0, 0, 0,
            0, 0, 10, 0, 0, 0,
        ],
    ),
];

fn listed<T: Copy>(alloc: Global, items: &[T]) -> Result<Listed<T>, AllocError> {
    Listed::from_slice(alloc, items)
}

/// Returns the rectangle with these corners.
pub(crate) fn rect_of([x1, y1, x2, y2]: [i32; 4]) -> Rect {
    rect(x1, y1, x2, y2)
}

fn rects(alloc: Global, corners: &[[i32; 4]]) -> Result<Listed<Rect>, AllocError> {
    let mut rects = Vec::new(alloc);
    for corners in corners {
        rects.push(rect_of(*corners))?;
    }
    Ok(Listed::from_vec(rects))
}

/// Makes the event of `call`.
pub(crate) fn event(alloc: Global, call: Call) -> Result<Event, AllocError> {
    Ok(match call {
        Write(corners, colours) => Event::Write {
            rect: rect_of(corners),
            colours: listed(alloc, colours)?,
        },
        Paint(corners, colours) => Event::Paint {
            rect: rect_of(corners),
            colours: listed(alloc, colours)?,
        },
        Mark(corners) => Event::Mark {
            rects: rects(alloc, corners)?,
        },
        ScheduleCopy(corners, dx, dy) => Event::ScheduleCopy {
            rects: rects(alloc, corners)?,
            dx,
            dy,
        },
        DoCopy(corners, dx, dy) => Event::DoCopy {
            rects: rects(alloc, corners)?,
            dx,
            dy,
        },
        Bell => Event::Bell,
        CutText(text) => Event::CutText {
            text: listed(alloc, text)?,
        },
        Resize(width, height) => Event::Resize { width, height },
        Connect(viewer) => Event::Connect { viewer },
        Hear(viewer, piece) => Event::Hear {
            viewer,
            piece: listed(alloc, piece)?,
        },
        Cut(viewer) => Event::Cut { viewer },
        Close(viewer) => Event::Close { viewer },
    })
}

/// Makes the events of the calls in `rows`.
pub(crate) fn events(alloc: Global, rows: &[Row]) -> Result<Vec<Event>, AllocError> {
    let mut events = Vec::with_capacity(alloc, rows.len())?;
    for (call, _) in rows {
        events.push(event(alloc, *call)?)?;
    }
    Ok(events)
}
