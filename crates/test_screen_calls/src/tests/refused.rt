//! Where an allocation fails, whichever, the call is made again, and then it gives what it would have given: a call that was
//! refused left the screen as it was. `alike` has viewers whose rectangles are encoded once, `marks` fills the log of drawing, and here
//! are the calls that both make; their bytes are written out from RFC 6143. `closing` has what must not be refused.
//!
//! A function that owns a screen lends it to others: each place where it may end on its way would be one more to prove.

/// Makes a call, once more if the first time is refused, and gives what that gives.
macro_rules! again {
    ($rt:expr, $call:expr) => {
        match $call {
            Ok(given) => given,
            Err(_) => $call.expect($rt, "memory is refused once"),
        }
    };
}

mod alike;
mod closing;
mod marks;

use screen::{Answer, Screen, Update};
use std::process::Abort;

/// Sends `piece` as `viewer`, and returns the answer.
fn hear_again(rt: &impl Abort, screen: &mut Screen, viewer: u64, piece: &[u8]) -> Answer {
    again!(rt, screen.hear(viewer, piece))
}

/// Cuts what there is for `viewer` now.
fn cut_again(rt: &impl Abort, screen: &mut Screen, viewer: u64) -> Option<Update> {
    again!(rt, screen.cut(viewer))
}

/// Returns the bytes of `update`.
fn encode_again(rt: &impl Abort, update: &Update) -> Vec<u8> {
    again!(rt, update.encode())
}

/// Checks that `viewer` is sent an update of the bytes `wanted` now.
fn expect_sent(rt: &impl Abort, screen: &mut Screen, viewer: u64, wanted: &[u8]) {
    let update = cut_again(rt, screen, viewer).expect(rt, "an update");
    let bytes = encode_again(rt, &update);
    assert_eq!(rt; bytes.as_slice(), wanted);
}
