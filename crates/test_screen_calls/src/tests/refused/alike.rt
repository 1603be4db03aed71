//! Viewers that are alike, whose rectangles are encoded once: whichever allocation is refused, each is sent what it would be sent alone.

use super::{expect_sent, hear_again};
use crate::tests::screens::{new_screen, open, rect, request, say};
use screen::{Draw, Screen, ScreenError};
use std::alloc::Global;
use std::process::Abort;

/// SetEncodings with RRE.
const RRE: &[u8] = b"\x02\x00\x00\x01\x00\x00\x00\x02";

/// A black screen of 8 by 8 in RRE.
static BLACK: [u8; 24] = [
    0, 0, 0, 1, 0, 0, 0, 0, 0, 8, 0, 8, 0, 0, 0, 2, 0, 0, 0, 0, 0, 0, 0, 0,
];

/// That screen with its first place in another colour.
static PAINTED: [u8; 36] = [
    0, 0, 0, 1, 0, 0, 0, 0, 0, 8, 0, 8, 0, 0, 0, 2, 0, 0, 0, 1, 0, 0, 0, 0, 10, 0, 0, 0, 0, 0, 0,
    0, 0, 1, 0, 1,
];

/// SetEncodings with Hextile.
const HEXTILE: &[u8] = b"\x02\x00\x00\x01\x00\x00\x00\x05";

/// A black screen of 4 by 300 in Hextile: 19 rows of one tile.
static TALL: [u8; 39] = [
    0, 0, 0, 1, 0, 0, 0, 0, 0, 4, 1, 44, 0, 0, 0, 5, 2, 0, 0, 0, 0, 0, 0, 0, 0, 0, 0, 0, 0, 0, 0,
    0, 0, 0, 0, 0, 0, 0, 0,
];

/// That screen with its first place in another colour.
static TALL_PAINTED: [u8; 46] = [
    0, 0, 0, 1, 0, 0, 0, 0, 0, 4, 1, 44, 0, 0, 0, 5, 14, 0, 0, 0, 0, 10, 0, 0, 0, 1, 0, 0, 0, 0, 0,
    0, 0, 0, 0, 0, 0, 0, 0, 0, 0, 0, 0, 0, 0, 0,
];

/// Makes a screen of this `size` that shares encodings, with three viewers of one `encoding`.
fn prepared(alloc: Global, size: (u16, u16), encoding: &[u8]) -> Result<Screen, ScreenError> {
    let mut screen = new_screen(alloc, size)?;
    screen.share_encodings(true);
    for viewer in 1..4 {
        open(&mut screen, viewer)?;
        say(&mut screen, viewer, encoding)?;
    }
    Ok(screen)
}

/// Encodes all of what `viewer` is likely to be sent as others are.
fn encode_ahead(screen: &mut Screen, viewer: u64) {
    for _ in 0..100 {
        if screen.encode_ahead(viewer).is_none() {
            return;
        }
    }
}

/// Asks for all of the screen as each viewer, and checks that each is sent the bytes `wanted`.
fn expect_all_sent(rt: &impl Abort, screen: &mut Screen, wanted: &[u8]) {
    for viewer in 1..4 {
        hear_again(rt, screen, viewer, &request(false, 0, 0, 8, 8));
        encode_ahead(screen, viewer);
        expect_sent(rt, screen, viewer, wanted);
    }
}

#[test]
fn viewers_that_are_alike_whichever_allocation_is_refused(rt: HostRuntime) {
    if let Ok(mut screen) = prepared(rt.alloc(), (8, 8), RRE) {
        expect_all_sent(&rt, &mut screen, &BLACK);
        again!(&rt, screen.paint(rect(0, 0, 1, 1), &[10]));
        expect_all_sent(&rt, &mut screen, &PAINTED);
    }
}

/// Asks for all of the tall screen as each viewer.
fn all_ask(rt: &impl Abort, screen: &mut Screen) {
    for viewer in 1..4 {
        hear_again(rt, screen, viewer, &request(false, 0, 0, 4, 300));
    }
}

/// Checks that viewer 1 is sent the bytes `wanted`, and that viewer 2, which is likely to be sent what others are, has more to wait
/// for after 16 rows of tiles. Returns what `encode_ahead` answered.
fn expect_waiting(rt: &impl Abort, screen: &mut Screen, wanted: &[u8]) -> Option<u64> {
    all_ask(rt, screen);
    expect_sent(rt, screen, 1, wanted);
    let left = screen.encode_ahead(2);
    assert!(rt; left.is_some());
    left
}

#[test]
fn what_is_encoded_for_all_is_waited_for(rt: HostRuntime) {
    if let Ok(mut screen) = prepared(rt.alloc(), (4, 300), HEXTILE) {
        expect_waiting(&rt, &mut screen, &TALL);
        assert!(&rt; screen.encode_ahead(3).is_none());
        expect_sent(&rt, &mut screen, 2, &TALL);
        expect_sent(&rt, &mut screen, 3, &TALL);
    }
}

#[test]
fn what_is_drawn_over_is_not_waited_for(rt: HostRuntime) {
    if let Ok(mut screen) = prepared(rt.alloc(), (4, 300), HEXTILE) {
        let left = expect_waiting(&rt, &mut screen, &TALL);
        again!(&rt, screen.paint(rect(0, 0, 1, 1), &[10]));
        assert!(&rt; screen.encode_ahead(2).is_none() && left == Some(0));
        expect_sent(&rt, &mut screen, 2, &TALL_PAINTED);
        expect_sent(&rt, &mut screen, 3, &TALL_PAINTED);
    }
}
