use listed::Listed;
use region::{Rect, Region, RegionError};
use screen::{Config, Draw, History, Screen, ScreenError};
use std::alloc::Global;
use std::test::Fail;

const WHOLE: Rect = Rect {
    x1: 0,
    y1: 0,
    x2: 4,
    y2: 4,
};

const HOLE: Rect = Rect {
    x1: 1,
    y1: 1,
    x2: 3,
    y2: 3,
};

fn frame(alloc: Global) -> Result<Region, RegionError> {
    let mut frame = Region::from_rect(alloc, WHOLE)?;
    let hole = Region::from_rect(alloc, HOLE)?;
    frame.subtract(&hole)?;
    Ok(frame)
}

#[test]
fn a_frame(rt: HostRuntime) -> Result<(), Fail> {
    let frame = frame(rt.alloc())?;
    assert!(rt; frame.count_rects() == 4);
    assert!(rt; frame.contains(0, 3) && !frame.contains(1, 1));
    Ok(())
}

fn update(alloc: Global) -> Result<Vec<u8>, ScreenError> {
    let config = Config {
        width: 2,
        height: 1,
        name: Listed::from_slice(alloc, b"demo")?,
        rects_per_update: 50,
        history: History::NotKept,
    };
    let mut screen = Screen::new(alloc, config)?;
    screen.connect(1)?;
    screen.hear(1, b"RFB 003.008\n\x01\x01")?;
    screen.hear(1, b"\x03\x00\x00\x00\x00\x00\x00\x02\x00\x01")?;
    let corner = Rect {
        x1: 0,
        y1: 0,
        x2: 1,
        y2: 1,
    };
    screen.paint(corner, &[0xff_0000])?;
    match screen.cut(1)? {
        Some(update) => Ok(update.encode()?),
        None => Ok(Vec::new(alloc)),
    }
}

#[test]
fn an_update(rt: HostRuntime) -> Result<(), Fail> {
    let want = [
        0, 0, 0, 1, 0, 0, 0, 0, 0, 2, 0, 1, 0, 0, 0, 0, 0, 0, 0xff, 0, 0, 0, 0, 0,
    ];
    assert!(rt; update(rt.alloc())?.as_slice() == want.as_slice());
    Ok(())
}
