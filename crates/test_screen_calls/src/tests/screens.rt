// A screen that is made, a viewer that opens and asks, and what it is sent.

use listed::Listed;
use region::{Rect, Region, RegionError};
use screen::{Config, Draw, History, Screen, ScreenError};
use std::alloc::Global;

/// The version 3.8, the choice of no security, and a ClientInit.
pub const OPENING: &[u8] = b"RFB 003.008\n\x01\x01";

/// SetEncodings with CopyRect and Raw.
pub const WITH_COPYRECT: &[u8] = b"\x02\x00\x00\x02\x00\x00\x00\x01\x00\x00\x00\x00";

/// Makes a screen named `demo` of this size, of which an update has at most 50 rectangles, and which keeps its history.
pub fn new_screen(alloc: Global, size: (u16, u16)) -> Result<Screen, ScreenError> {
    screen_of(alloc, size, History::Kept)
}

/// Makes such a screen, which keeps its history or doesn't.
pub fn screen_of(alloc: Global, size: (u16, u16), history: History) -> Result<Screen, ScreenError> {
    let config = Config {
        width: u32::from(size.0),
        height: u32::from(size.1),
        name: Listed::from_slice(alloc, b"demo")?,
        rects_per_update: 50,
        history,
    };
    Screen::new(alloc, config)
}

/// Returns a rectangle by its corners.
pub fn rect(x1: i32, y1: i32, x2: i32, y2: i32) -> Rect {
    Rect { x1, y1, x2, y2 }
}

/// Makes the region of a rectangle.
pub fn region(alloc: Global, rect: Rect) -> Result<Region, ScreenError> {
    match Region::from_rect(alloc, rect) {
        Ok(region) => Ok(region),
        Err(RegionError::OutOfRange) => Err(ScreenError::BadRect),
        Err(RegionError::OutOfMemory) => Err(ScreenError::OutOfMemory),
    }
}

/// Returns a FramebufferUpdateRequest of a rectangle (RFC 6143 section 7.5.3).
pub fn request(incremental: bool, x: u16, y: u16, w: u16, h: u16) -> [u8; 10] {
    let [x1, x0] = x.to_be_bytes();
    let [y1, y0] = y.to_be_bytes();
    let [w1, w0] = w.to_be_bytes();
    let [h1, h0] = h.to_be_bytes();
    [3, u8::from(incremental), x1, x0, y1, y0, w1, w0, h1, h0]
}

/// Sends bytes as `viewer`, whatever it is answered.
pub fn say(screen: &mut Screen, viewer: u64, piece: &[u8]) -> Result<(), ScreenError> {
    screen.hear(viewer, piece)?;
    Ok(())
}

/// Connects and opens as `viewer`.
pub fn open(screen: &mut Screen, viewer: u64) -> Result<(), ScreenError> {
    screen.connect(viewer)?;
    say(screen, viewer, OPENING)
}

/// Paints the whole of a screen, opens viewer 1, which uses CopyRect, and sends it the screen.
pub fn show(screen: &mut Screen, size: (u16, u16), colours: &[u32]) -> Result<(), ScreenError> {
    let (w, h) = size;
    screen.paint(rect(0, 0, i32::from(w), i32::from(h)), colours)?;
    open(screen, 1)?;
    say(screen, 1, WITH_COPYRECT)?;
    say(screen, 1, &request(false, 0, 0, w, h))?;
    screen.cut(1)?;
    Ok(())
}
