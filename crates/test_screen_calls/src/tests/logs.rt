//! How many entries of drawing stand in the log that the viewers share: each call that marks a place leaves one, any other none, and
//! none is left where no viewer lacks one.

use crate::tests::screens::{new_screen, open, rect, region, request, say, show};
use region::Region;
use screen::{Draw, Screen, ScreenError};
use std::alloc::Global;
use std::process::Abort;
use std::test::Fail;

/// Checks that `count` entries stand in the log.
fn expect_log(rt: &impl Abort, screen: &Screen, count: usize) {
    assert_eq!(rt; screen.log_len(), count);
}

/// Shows two viewers a black screen of 4 by 3.
fn show_two(screen: &mut Screen) -> Result<(), ScreenError> {
    show(screen, (4, 3), &[0; 12])?;
    open(screen, 2)?;
    say(screen, 2, &request(false, 0, 0, 4, 3))?;
    screen.cut(2)?;
    Ok(())
}

/// Makes calls that mark no place: of nothing, off the screen, from beyond it, to where a place stands already; and one that only
/// writes colours.
fn mark_nothing(alloc: Global, screen: &mut Screen) -> Result<(), ScreenError> {
    screen.paint(rect(1, 1, 1, 1), &[])?;
    screen.write_pixels(rect(0, 0, 1, 1), &[7])?;
    screen.mark_rect(4, 0, 9, 3)?;
    screen.mark_rect(2, 2, 2, 3)?;
    screen.mark_region(&region(alloc, rect(-5, -5, -1, -1))?)?;
    screen.do_copy_rect(0, 0, 2, 2, 0, 0)?;
    screen.schedule_copy_rect(0, 0, 2, 2, 4, 0)?;
    screen.do_copy_region(&region(alloc, rect(3, 3, 3, 3))?, 1, 0)
}

/// Makes four calls that mark a place by a rectangle, each of another kind.
fn mark_by_rects(screen: &mut Screen) -> Result<(), ScreenError> {
    screen.paint(rect(1, 1, 2, 2), &[5])?;
    screen.mark_rect(3, 2, 9, 9)?;
    screen.schedule_copy_rect(1, 0, 2, 1, 1, 0)?;
    screen.do_copy_rect(0, 0, 9, 1, 1, 0)
}

/// Makes three that do by a region.
fn mark_by_regions(screen: &mut Screen, places: &Region) -> Result<(), ScreenError> {
    screen.mark_region(places)?;
    screen.schedule_copy_region(places, 0, 1)?;
    screen.do_copy_region(places, 1, 0)
}

/// Makes all seven.
fn mark_some(alloc: Global, screen: &mut Screen) -> Result<(), ScreenError> {
    let places = region(alloc, rect(2, 1, 4, 3))?;
    mark_by_rects(screen)?;
    mark_by_regions(screen, &places)
}

/// Asks for what changed as each of both viewers, and cuts it.
fn bring_up(screen: &mut Screen) -> Result<(), ScreenError> {
    for viewer in [1, 2] {
        say(screen, viewer, &request(true, 0, 0, 4, 3))?;
        screen.cut(viewer)?;
    }
    Ok(())
}

/// Checks that no entry stands while there are no viewers, nor for calls that mark nothing; else one stands for each call, until
/// all viewers have them, or those that lack them leave.
fn expect_entries(rt: &impl Abort, alloc: Global, screen: &mut Screen) -> Result<(), ScreenError> {
    mark_some(alloc, screen)?;
    expect_log(rt, screen, 0);
    show_two(screen)?;
    mark_nothing(alloc, screen)?;
    expect_log(rt, screen, 0);
    mark_some(alloc, screen)?;
    expect_log(rt, screen, 7);
    mark_nothing(alloc, screen)?;
    expect_log(rt, screen, 7);
    bring_up(screen)?;
    expect_log(rt, screen, 0);
    screen.mark_rect(0, 0, 1, 1)?;
    expect_log(rt, screen, 1);
    expect_none_left(rt, screen)
}

/// Connects a third viewer, which lacks nothing, and closes the others.
fn replace_both(screen: &mut Screen) -> Result<(), ScreenError> {
    screen.connect(3)?;
    screen.close(1)?;
    screen.close(2)
}

/// Checks that no entry stands once those have left that lacked it, nor behind a new size, which all are told.
fn expect_none_left(rt: &impl Abort, screen: &mut Screen) -> Result<(), ScreenError> {
    replace_both(screen)?;
    expect_log(rt, screen, 0);
    screen.mark_rect(0, 0, 1, 1)?;
    expect_log(rt, screen, 1);
    screen.new_framebuffer(4, 2)?;
    expect_log(rt, screen, 0);
    Ok(())
}

#[test]
fn an_entry_stands_only_where_something_is_marked(rt: HostRuntime) -> Result<(), Fail> {
    let mut screen = new_screen(rt.alloc(), (4, 3))?;
    expect_entries(&rt, rt.alloc(), &mut screen)?;
    Ok(())
}
