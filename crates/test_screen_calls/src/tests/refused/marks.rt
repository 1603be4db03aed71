//! Three hundred marks, with which the log of drawing is full, for viewers that ask before or after them.

use super::{expect_sent, hear_again};
use crate::tests::screens::{new_screen, open, request, say, show};
use screen::{Draw, Screen, ScreenError};
use std::alloc::Global;
use std::process::Abort;

/// Five places in black, as an update.
const FIVE_BLACK: &[u8] = &[
    0, 0, 0, 1, 0, 0, 0, 0, 0, 5, 0, 1, 0, 0, 0, 0, 0, 0, 0, 0, 0, 0, 0, 0, 0, 0, 0, 0, 0, 0, 0, 0,
    0, 0, 0, 0,
];

/// Shows two viewers a screen of 9 by 1, which is black.
fn show_black(screen: &mut Screen) -> Result<(), ScreenError> {
    show(screen, (9, 1), &[0; 9])?;
    open(screen, 2)?;
    say(screen, 2, &request(false, 0, 0, 9, 1))?;
    screen.cut(2)?;
    Ok(())
}

/// Makes that screen with both viewers.
fn two_that_show_black(alloc: Global) -> Result<Screen, ScreenError> {
    let mut screen = new_screen(alloc, (9, 1))?;
    show_black(&mut screen)?;
    Ok(screen)
}

/// Marks each of the first five places, one after the other.
fn mark_five(rt: &impl Abort, screen: &mut Screen) {
    for column in 0..5i32 {
        again!(rt, screen.mark_rect(column, 0, column + 1, 1));
    }
}

/// Marks them sixty times.
fn mark_often(rt: &impl Abort, screen: &mut Screen) {
    for _ in 0..60u8 {
        mark_five(rt, screen);
    }
}

/// Asks for what changed as `viewer`.
fn ask_nine(rt: &impl Abort, screen: &mut Screen, viewer: u64) {
    hear_again(rt, screen, viewer, &request(true, 0, 0, 9, 1));
}

/// Checks that `count` entries stand in the log.
fn expect_log(rt: &impl Abort, screen: &Screen, count: usize) {
    assert_eq!(rt; screen.log_len(), count);
}

/// Checks what the viewers are sent if the first asks once all is marked, and then the second.
fn expect_marks(rt: &impl Abort, screen: &mut Screen) {
    mark_often(rt, screen);
    expect_log(rt, screen, 44);
    ask_nine(rt, screen, 1);
    expect_sent(rt, screen, 1, FIVE_BLACK);
    expect_log(rt, screen, 44);
    ask_nine(rt, screen, 2);
    expect_log(rt, screen, 0);
    expect_sent(rt, screen, 2, FIVE_BLACK);
}

#[test]
fn many_marks_whichever_allocation_is_refused(rt: HostRuntime) {
    if let Ok(mut screen) = two_that_show_black(rt.alloc()) {
        expect_marks(&rt, &mut screen);
    }
}

/// Checks what they are sent if the first has asked before the marks come.
fn expect_marks_once_asked(rt: &impl Abort, screen: &mut Screen) {
    ask_nine(rt, screen, 1);
    mark_often(rt, screen);
    expect_log(rt, screen, 44);
    expect_sent(rt, screen, 1, FIVE_BLACK);
    ask_nine(rt, screen, 2);
    expect_log(rt, screen, 0);
    expect_sent(rt, screen, 2, FIVE_BLACK);
}

#[test]
fn many_marks_while_one_asks(rt: HostRuntime) {
    if let Ok(mut screen) = two_that_show_black(rt.alloc()) {
        expect_marks_once_asked(&rt, &mut screen);
    }
}
