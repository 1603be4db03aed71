//! What a screen holds, as it can be read, and the text of a refusal.

use crate::tests::screens::{new_screen, rect, say};
use screen::{Draw, Fault, Screen, ScreenError};
use std::test::Fail;

/// Paints a place, and sends what is no version as viewer 5.
fn draw_and_fail(screen: &mut Screen) -> Result<(), ScreenError> {
    screen.paint(rect(2, 1, 3, 2), &[0xff8000])?;
    screen.connect(5)?;
    say(screen, 5, b"hello world\n")
}

/// Returns whether the screen holds what those calls left.
fn is_held(screen: &Screen) -> bool {
    (screen.width(), screen.height()) == (4, 3)
        && screen.viewer_count() == 1
        && screen.is_live(5)
        && !screen.is_live(9)
        && screen.colour(2, 1) == Some(0xff8000)
        && screen.colour(4, 0).is_none()
        && screen.row(1) == Some([0, 0, 0xff8000, 0].as_slice())
        && screen.row(3).is_none()
        && screen.fault(5) == Ok(Some(Fault::BadVersion))
        && screen.pending(5) == Ok(false)
        && screen.pending(9) == Err(ScreenError::NoViewer)
}

#[test]
fn what_a_screen_holds_can_be_read(rt: HostRuntime) -> Result<(), Fail> {
    let mut screen = new_screen(rt.alloc(), (4, 3))?;
    draw_and_fail(&mut screen)?;
    assert!(rt; is_held(&screen));
    assert!(rt; screen.numbers()?.as_slice() == [5].as_slice());
    Ok(())
}

#[test]
fn a_refusal_has_a_text(rt: HostRuntime) -> Result<(), Fail> {
    let text = format!(in rt.alloc(); "{}", ScreenError::NoViewer)?;
    assert!(rt; text.as_str() == "NoViewer", "{text}");
    Ok(())
}
