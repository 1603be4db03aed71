//! Calls of a recorder.

use listed::Listed;
use recorder::Recorder;
use region::{Rect, Region};
use scene::{Config, Drawing, History};
use std::alloc::{AllocError, Global};
use std::io::Write;

/// A rectangle's corners.
pub type Corners = (i32, i32, i32, i32);

/// A call of a recorder. A region is that of rectangles.
#[derive(Clone, Copy)]
pub enum Call<'a> {
    Write(Corners, &'a [u32]),
    Paint(Corners, &'a [u32]),
    Mark(Corners),
    MarkRegion(&'a [Rect]),
    Schedule(Rect, i32, i32),
    ScheduleRegion(&'a [Rect], i32, i32),
    Copy(Rect, i32, i32),
    CopyRegion(&'a [Rect], i32, i32),
    Bell,
    Text(&'a [u8]),
    Resize(u32, u32),
    Connect(u64),
    Hear(u64, &'a [u8]),
    Cut(u64),
    Close(u64),
}

pub const UPPER: Rect = Rect {
    x1: 0,
    y1: 0,
    x2: 4,
    y2: 1,
};

pub const LOWER: Rect = Rect {
    x1: 1,
    y1: 2,
    x2: 2,
    y2: 3,
};

fn rect((x1, y1, x2, y2): Corners) -> Rect {
    Rect { x1, y1, x2, y2 }
}

fn region(alloc: Global, rects: &[Rect]) -> Result<Region, AllocError> {
    match Region::from_rects(alloc, rects) {
        Ok(region) => Ok(region),
        Err(_) => Err(AllocError),
    }
}

/// Makes a call with a region; does nothing for another.
fn draw_region<W: Write + Drop>(
    recorder: &mut Recorder<W>,
    alloc: Global,
    call: Call<'_>,
) -> Result<(), AllocError> {
    match call {
        Call::MarkRegion(rects) => recorder.drew(&Drawing::MarkRegion(&region(alloc, rects)?)),
        Call::ScheduleRegion(rects, dx, dy) => {
            let region = &region(alloc, rects)?;
            recorder.drew(&Drawing::ScheduleCopyRegion { region, dx, dy });
        }
        Call::CopyRegion(rects, dx, dy) => {
            let region = &region(alloc, rects)?;
            recorder.drew(&Drawing::DoCopyRegion { region, dx, dy });
        }
        _ => (),
    }
    Ok(())
}

/// Makes a drawing call with no region; does nothing for another.
fn draw<W: Write + Drop>(recorder: &mut Recorder<W>, call: Call<'_>) {
    match call {
        Call::Write(corners, colours) => {
            let rect = rect(corners);
            recorder.drew(&Drawing::Write { rect, colours });
        }
        Call::Paint(corners, colours) => {
            let rect = rect(corners);
            recorder.drew(&Drawing::Paint { rect, colours });
        }
        Call::Mark(corners) => recorder.drew(&Drawing::MarkRect(rect(corners))),
        Call::Schedule(rect, dx, dy) => {
            recorder.drew(&Drawing::ScheduleCopyRect { rect, dx, dy });
        }
        Call::Copy(rect, dx, dy) => recorder.drew(&Drawing::DoCopyRect { rect, dx, dy }),
        Call::Bell => recorder.drew(&Drawing::Bell),
        Call::Text(text) => recorder.drew(&Drawing::CutText(text)),
        Call::Resize(width, height) => {
            recorder.drew(&Drawing::NewFramebuffer { width, height });
        }
        _ => (),
    }
}

/// Makes `call`.
pub fn make<W: Write + Drop>(
    recorder: &mut Recorder<W>,
    alloc: Global,
    call: Call<'_>,
) -> Result<(), AllocError> {
    match call {
        Call::Connect(viewer) => recorder.connected(viewer),
        Call::Hear(viewer, piece) => recorder.heard(viewer, piece),
        Call::Cut(viewer) => recorder.cut(viewer),
        Call::Close(viewer) => recorder.closed(viewer),
        Call::MarkRegion(_) | Call::ScheduleRegion(..) | Call::CopyRegion(..) => {
            return draw_region(recorder, alloc, call);
        }
        _ => draw(recorder, call),
    }
    Ok(())
}

/// Returns the configuration of a screen of 4 by 3 with this `name`.
pub fn config(alloc: Global, name: &[u8]) -> Result<Config, AllocError> {
    Ok(Config {
        width: 4,
        height: 3,
        name: Listed::from_slice(alloc, name)?,
        rects_per_update: 50,
        history: History::NotKept,
    })
}
