//! The closing of a viewer is never refused for memory: room for it among the events that are kept was made when the viewer connected.

use crate::tests::screens::new_screen;
use screen::{Draw, Screen};
use std::process::Abort;
use std::test::Fail;

/// Lets a viewer come, rings the bell, and closes the viewer, once, whatever memory there is.
fn visit(rt: &impl Abort, screen: &mut Screen) {
    let _version = again!(rt, screen.connect(1));
    again!(rt, screen.bell());
    assert!(rt; screen.close(1).is_ok(), "a closing was refused");
}

#[test]
fn a_closing_finds_room_whichever_allocation_is_refused(rt: HostRuntime) -> Result<(), Fail> {
    let mut screen = again!(&rt, new_screen(rt.alloc(), (4, 1)));
    // A closing comes at each length that the list of events has at some time, also right before it grows.
    for _ in 0..40 {
        visit(&rt, &mut screen);
    }
    Ok(())
}
