//! Each event of a list is answered as the list says, and kept. Where an allocation fails, whichever, the event is applied again, and
//! then every answer is the same: a call that was refused left the screen as it was.

use super::kept::expect_kept;
use super::lists::Call::{Paint, Write};
use super::lists::{Call, EVERY_KIND, FIRST_UPDATES, NEW_SIZE, Row, TWO_VIEWERS, event, events};
use crate::tests::screens::screen_of;
use screen::{Answer, Event, History, Screen, ScreenError};
use std::alloc::Global;
use std::process::Abort;
use std::test::Fail;

/// Returns whether `answer` is these `bytes`, and has nothing else.
fn is_answer(answer: &Answer, bytes: &[u8]) -> bool {
    answer.bytes.as_slice() == bytes
        && answer.closed.is_none()
        && answer.refused.is_none()
        && answer.inputs.is_empty()
}

/// Checks that `answer` is as the row with this `number` says.
fn expect_answer(rt: &impl Abort, rows: &[Row], number: usize, answer: &Answer) {
    let is_wanted = match rows.get(number) {
        Some((_, bytes)) => is_answer(answer, bytes),
        None => false,
    };
    assert!(rt; is_wanted, "event {number}");
}

/// Applies `event`, once more if memory is refused at the first time, and returns the answer.
fn answer_at_last(rt: &impl Abort, screen: &mut Screen, event: &Event) -> Answer {
    match screen.apply(event) {
        Ok(answer) => answer,
        Err(_) => screen.apply(event).expect(rt, "memory is refused once"),
    }
}

/// Checks that each of `events` is answered as its row says, at the second time at the latest.
fn expect_answers(rt: &impl Abort, screen: &mut Screen, events: &[Event], rows: &[Row]) {
    for (number, event) in events.iter().enumerate() {
        let answer = answer_at_last(rt, screen, event);
        expect_answer(rt, rows, number, &answer);
    }
}

/// Checks that each event of `rows` is answered as wanted, and kept, on a screen of this `size`. If memory is refused before the
/// first, nothing is checked.
fn expect_answers_at_last(
    rt: &impl Abort,
    alloc: Global,
    size: (u16, u16),
    rows: &[Row],
) -> Result<(), ScreenError> {
    let events = events(alloc, rows)?;
    let mut screen = screen_of(alloc, size, History::Kept)?;
    expect_answers(rt, &mut screen, &events, rows);
    expect_kept(rt, &screen, rows);
    Ok(())
}

#[test]
fn two_viewers_whichever_allocation_is_refused(rt: HostRuntime) {
    let _ready = expect_answers_at_last(&rt, rt.alloc(), (4, 1), &TWO_VIEWERS);
}

#[test]
fn every_kind_whichever_allocation_is_refused(rt: HostRuntime) {
    let _ready = expect_answers_at_last(&rt, rt.alloc(), (4, 1), &EVERY_KIND);
}

#[test]
fn a_new_size_whichever_allocation_is_refused(rt: HostRuntime) {
    let _ready = expect_answers_at_last(&rt, rt.alloc(), (4, 1), &NEW_SIZE);
}

#[test]
fn the_first_updates_whichever_allocation_is_refused(rt: HostRuntime) {
    let _ready = expect_answers_at_last(&rt, rt.alloc(), (4, 3), &FIRST_UPDATES);
}

/// What no line of a script says: rectangles that begin left of the screen, or whose corners stand in the wrong order.
static NO_RECTANGLES: [Call; 4] = [
    Write([-1, 0, 1, 1], &[9, 9]),
    Write([2, 0, 1, 1], &[]),
    Paint([-1, 0, 1, 1], &[9, 9]),
    Paint([2, 0, 1, 1], &[]),
];

/// Checks that each of `NO_RECTANGLES` is refused.
fn expect_refused(rt: &impl Abort, alloc: Global, screen: &mut Screen) -> Result<(), ScreenError> {
    for call in &NO_RECTANGLES {
        let answer = screen.apply(&event(alloc, *call)?)?;
        assert!(rt; answer.refused == Some(ScreenError::BadRect));
    }
    Ok(())
}

#[test]
fn what_is_no_rectangle_is_refused(rt: HostRuntime) -> Result<(), Fail> {
    let mut screen = screen_of(rt.alloc(), (4, 1), History::NotKept)?;
    expect_refused(&rt, rt.alloc(), &mut screen)?;
    Ok(())
}
