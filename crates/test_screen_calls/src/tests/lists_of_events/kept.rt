//! The events that a screen keeps: those that were accepted, in order, without the cuts that gave nothing.

use super::lists::Call::{self, Cut, DoCopy, Hear, Mark, Paint, ScheduleCopy, Write};
use super::lists::{Row, rect_of};
use crate::tests::screens::{region, screen_of};
use region::{Rect, Region};
use screen::{Draw, Event, History, Screen, ScreenError};
use std::alloc::Global;
use std::process::Abort;
use std::test::Fail;

/// Returns whether `rects` have these `corners`, in order.
fn are_of(rects: &[Rect], corners: &[[i32; 4]]) -> bool {
    for (number, rect) in rects.iter().enumerate() {
        match corners.get(number) {
            Some(corners) if *rect == rect_of(*corners) => {}
            _ => return false,
        }
    }
    rects.len() == corners.len()
}

/// Returns whether the kept `event` is that of the drawing call `call`, with all that it holds.
fn is_drawing(event: &Event, call: Call) -> bool {
    match (event, call) {
        (Event::Write { rect, colours }, Write(corners, given)) => {
            *rect == rect_of(corners) && colours.as_slice() == given
        }
        (Event::Paint { rect, colours }, Paint(corners, given)) => {
            *rect == rect_of(corners) && colours.as_slice() == given
        }
        (Event::Mark { rects }, Mark(corners)) => are_of(rects.as_slice(), corners),
        (Event::ScheduleCopy { rects, dx, dy }, ScheduleCopy(corners, right, down)) => {
            are_of(rects.as_slice(), corners) && (*dx, *dy) == (right, down)
        }
        (Event::DoCopy { rects, dx, dy }, DoCopy(corners, right, down)) => {
            are_of(rects.as_slice(), corners) && (*dx, *dy) == (right, down)
        }
        _ => false,
    }
}

/// Returns whether the kept `event` is that of `call`, if that is none of those drawing calls, with all that it holds.
fn is_of_a_viewer(event: &Event, call: Call) -> bool {
    match (event, call) {
        (Event::Bell, Call::Bell) => true,
        (Event::CutText { text }, Call::CutText(given)) => text.as_slice() == given,
        (Event::Resize { width, height }, Call::Resize(columns, rows)) => {
            (*width, *height) == (columns, rows)
        }
        (Event::Connect { viewer }, Call::Connect(number)) => *viewer == number,
        (Event::Hear { viewer, piece }, Hear(number, given)) => {
            *viewer == number && piece.as_slice() == given
        }
        (Event::Cut { viewer }, Cut(number)) => *viewer == number,
        (Event::Close { viewer }, Call::Close(number)) => *viewer == number,
        _ => false,
    }
}

/// Returns whether the kept `event` is that of `call`.
fn is_of(event: &Event, call: Call) -> bool {
    is_drawing(event, call) || is_of_a_viewer(event, call)
}

/// Checks that the event with this `number` is that of `call`.
fn expect_event(rt: &impl Abort, kept: &[Event], number: usize, call: Call) {
    let is_kept = match kept.get(number) {
        Some(event) => is_of(event, call),
        None => false,
    };
    assert!(rt; is_kept, "event {number}");
}

/// Checks that the screen keeps the events of the calls in `rows`, in order, and no others, not even a cut that gave nothing.
pub(crate) fn expect_kept(rt: &impl Abort, screen: &Screen, rows: &[Row]) {
    let kept = screen.history().expect(rt, "the events are kept");
    let mut number: usize = 0;
    for (call, bytes) in rows {
        if !(matches!(call, Call::Cut(_)) && bytes.is_empty()) {
            expect_event(rt, kept, number, *call);
            number = number.saturating_add(1);
        }
    }
    assert!(rt; number == kept.len(), "{number} events");
}

/// Makes each call that marks or copies, for a rectangle and for the region `places`.
fn draw_in(screen: &mut Screen, places: &Region) -> Result<(), ScreenError> {
    screen.mark_rect(3, 2, 1, 0)?;
    screen.mark_region(places)?;
    screen.schedule_copy_rect(3, 1, 0, 0, 1, 0)?;
    screen.schedule_copy_region(places, 0, 0)?;
    screen.do_copy_rect(0, 0, 9, 9, i32::MIN, 7)?;
    screen.do_copy_region(places, -1, 0)
}

/// Makes a call that is refused, and a cut that gives nothing, of a viewer that comes and goes.
fn come_and_go(screen: &mut Screen) -> Result<(), ScreenError> {
    let refused = screen.paint(rect_of([0, 0, 1, 1]), &[]);
    let _ = refused.is_err();
    screen.connect(1)?;
    screen.cut(1)?;
    screen.close(1)
}

/// Makes each call that marks or copies, for a rectangle and for a region, and calls that are refused or give nothing.
fn draw(alloc: Global, screen: &mut Screen) -> Result<(), ScreenError> {
    let places = region(alloc, rect_of([0, 0, 2, 1]))?;
    draw_in(screen, &places)?;
    come_and_go(screen)
}

/// A rectangle is kept as it was given, a region as its canonical list; the cut of a viewer that has not opened gives nothing.
static DRAWN: [Row; 8] = [
    (Mark(&[[3, 2, 1, 0]]), &[]),
    (Mark(&[[0, 0, 2, 1]]), &[]),
    (ScheduleCopy(&[[3, 1, 0, 0]], 1, 0), &[]),
    (ScheduleCopy(&[[0, 0, 2, 1]], 0, 0), &[]),
    (DoCopy(&[[0, 0, 9, 9]], i32::MIN, 7), &[]),
    (DoCopy(&[[0, 0, 2, 1]], -1, 0), &[]),
    (Call::Connect(1), &[]),
    (Call::Close(1), &[]),
];

#[test]
fn drawing_calls_are_kept_as_given(rt: HostRuntime) -> Result<(), Fail> {
    let mut screen = screen_of(rt.alloc(), (4, 1), History::Kept)?;
    draw(rt.alloc(), &mut screen)?;
    expect_kept(&rt, &screen, &DRAWN);
    Ok(())
}

#[test]
fn nothing_is_kept_where_none_is_asked(rt: HostRuntime) -> Result<(), Fail> {
    let mut screen = screen_of(rt.alloc(), (4, 1), History::NotKept)?;
    draw(rt.alloc(), &mut screen)?;
    assert!(rt; screen.history().is_none());
    Ok(())
}
