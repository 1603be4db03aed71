//! Where two lists differ first.

ghost use Rattle.std.specs.Prelude.{◌≡◌, nat_eq};
ghost use Rattle.scene.specs.History.{drawings};
ghost use Rattle.scene.specs.Answers.{is_drawing};
ghost use Rattle.scene.specs.Alone.{owner_of};
ghost use Rattle.receipts.specs.Differences.{difference, same_rect, same_event};

use region::Rect;
use scene::Event;

/// Returns the first place at which two lists of bytes differ, or the shorter one's length; None if they are equal.
pub fn difference(a: &[u8], b: &[u8]) -> Option<usize>
    ensures { result ≡ difference nat_eq a.now b.now }
{
    for (i, byte) in a.iter().enumerate() {
        if i >= b.len() || *byte != b[i] {
            return Some(i);
        }
    }
    if a.len() < b.len() {
        Some(a.len())
    } else {
        None
    }
}

/// Returns the first place at which a history's drawing calls and those that were drawn differ, or the shorter one's length; None if they
/// are equal.
pub fn drawing_difference(history: &[Event], drawn: &[Event]) -> Option<usize>
    ensures { result ≡ difference same_event (drawings history.now) drawn.now }
{
    let mut at = 0;
    for event in history {
        if is_drawing(event) {
            if at >= drawn.len() || !same_event(event, &drawn[at]) {
                return Some(at);
            }
            at += 1;
        }
    }
    if at < drawn.len() { Some(at) } else { None }
}

/// Returns whether an event is a drawing call.
pub fn is_drawing(event: &Event) -> bool
    ensures { result ≡ is_drawing (owner_of event.now) }
{
    !matches!(
        event,
        Event::Connect { .. } | Event::Hear { .. } | Event::Cut { .. } | Event::Close { .. }
    )
}

/// Returns whether two events are equal, with all that they hold.
pub fn same_event(a: &Event, b: &Event) -> bool
    ensures { result ≡ same_event a.now b.now }
{
    match a {
        Event::Write { rect, colours } => {
            matches!(b, Event::Write { rect: other, colours: others }
                if rect == other && colours.as_slice() == others.as_slice())
        }
        Event::Paint { rect, colours } => {
            matches!(b, Event::Paint { rect: other, colours: others }
                if rect == other && colours.as_slice() == others.as_slice())
        }
        Event::Mark { rects } => {
            matches!(b, Event::Mark { rects: others } if rects.as_slice() == others.as_slice())
        }
        Event::ScheduleCopy { rects, dx, dy } => {
            matches!(b, Event::ScheduleCopy { rects: others, dx: x, dy: y }
                if rects.as_slice() == others.as_slice() && dx == x && dy == y)
        }
        Event::DoCopy { rects, dx, dy } => {
            matches!(b, Event::DoCopy { rects: others, dx: x, dy: y }
                if rects.as_slice() == others.as_slice() && dx == x && dy == y)
        }
        Event::Bell => matches!(b, Event::Bell),
        Event::CutText { text } => {
            matches!(b, Event::CutText { text: other } if text.as_slice() == other.as_slice())
        }
        Event::Resize { width, height } => {
            matches!(b, Event::Resize { width: columns, height: rows }
                if width == columns && height == rows)
        }
        Event::Connect { viewer } => {
            matches!(b, Event::Connect { viewer: other } if viewer == other)
        }
        Event::Hear { viewer, piece } => {
            matches!(b, Event::Hear { viewer: other, piece: others }
                if viewer == other && piece.as_slice() == others.as_slice())
        }
        Event::Cut { viewer } => matches!(b, Event::Cut { viewer: other } if viewer == other),
        Event::Close { viewer } => matches!(b, Event::Close { viewer: other } if viewer == other),
    }
}
