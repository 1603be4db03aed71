//! Calls of a shared screen in one thread: each with what it answers, and viewers whose reader and sender run one after the other.

ghost use Rattle.std.specs.Prelude.{◌≡◌};

use super::drawing::{GREETED, HEAD, OPENING, Picture, colours, draw_each};
use super::memory::Source;
use input_queue::{InputHub, Taker, Told};
use messages::Input;
use receipts::Receipt;
use screen::{Fault, ScreenError};
use std::alloc::Global;
use std::sync::Wait;
use std::sync::ledger::Ledger;
use update_sender::{
    Brush, Ended, Listener, OpenGate, Opened, Rect, Shared, Speaker, receipt, serve_opening,
    serve_reader, serve_sender,
};

/// A viewer that is served in one thread, once all is stopped.
#[derive(Clone, Copy)]
pub struct Case {
    /// What its reader gives, in a first piece of at most `first` bytes and then in pieces of at most `others`; then it is at its end,
    /// or fails.
    pub given: &'static [u8],
    pub first: usize,
    pub others: usize,
    pub fails: bool,
    /// Whether it is closed as soon as it has connected.
    pub is_closed: bool,
    /// It is sent the first `sent` bytes of these.
    pub greeting: &'static [u8],
    pub sent: usize,
    /// It is heard in this many pieces, `heard` bytes of what it was given, and why its opening or its reader ends.
    pub pieces: u64,
    pub heard: usize,
    pub ended: Ended,
    /// How many inputs the queue can hold, how many of a key, a pointer and a text are in it then, and how many were dropped.
    pub capacity: usize,
    pub taken: usize,
    pub dropped: u64,
}

/// A call of a shared screen with what it answers, or what is to be seen of it.
#[derive(Clone, Copy)]
pub enum Step {
    /// A viewer connects by this number, or is refused.
    Connects(u64, Option<ScreenError>),
    /// It is closed, or that is refused.
    Closes(u64, Option<ScreenError>),
    /// A viewer connects and goes through its opening. The steps behind are its own, until another one opens.
    Opens(u64),
    /// It says this, which may be what no message says; or it is not heard.
    Says(&'static [u8], bool),
    IsUnheard(&'static [u8]),
    /// Its next update is this; or there is nothing to come.
    IsSent(Option<&'static [u8]>),
    /// Its sender ends at once, and has sent nothing.
    Ends(Ended),
    /// All is stopped.
    Stops,
    /// A new framebuffer of 4 by 3.
    Resizes,
    /// Each other drawing call is made once.
    DrawsEach,
    /// These places are written and painted in these colours, or that is refused.
    Draws(Rect, &'static [u32], Option<ScreenError>),
    /// All places are painted in the picture's colours.
    Paints(Rect),
    /// Viewers are served, one after the other.
    ServesEach,
}

/// The viewer that opened last.
#[derive(Drop)]
pub struct Seat {
    pub listener: Option<Listener>,
    pub speaker: Option<Speaker>,
}

/// Connects a viewer by `number`, opens it over memory, and returns whether it is open.
fn opens<L: Ledger, R: Wait>(
    rt: &R,
    alloc: Global,
    shared: &Shared<L>,
    number: u64,
    seat: &mut Seat,
) -> bool {
    let Ok(line) = shared.connect(rt, number) else {
        return false;
    };
    let mut reader = OPENING;
    let mut written = Vec::new(alloc);
    match serve_opening(rt, shared, line, &mut reader, &mut written) {
        Opened::Ready(listener, speaker) => {
            seat.listener = Some(listener);
            seat.speaker = Some(speaker);
            true
        }
        Opened::Over(..) => false,
    }
}

/// Returns whether the viewer is sent `wanted` next, or nothing any more if that is None.
fn is_sent<L: Ledger, R: Wait>(
    rt: &R,
    shared: &Shared<L>,
    seat: &mut Seat,
    wanted: Option<&[u8]>,
) -> bool {
    let Some(speaker) = &mut seat.speaker else {
        return false;
    };
    match (shared.cut_wait(rt, speaker), wanted) {
        (Ok(Some(update)), Some(bytes)) => match update.encode() {
            Ok(sent) => sent.as_slice() == bytes,
            Err(_) => false,
        },
        (Ok(None), None) => true,
        _ => false,
    }
}

/// Serves the viewer's sender, and returns whether it ends as `ended` says and has sent nothing.
fn ends<L: Ledger, R: Wait>(
    rt: &R,
    alloc: Global,
    shared: &Shared<L>,
    seat: &mut Seat,
    ended: Ended,
) -> bool {
    let Some(speaker) = seat.speaker.take() else {
        return false;
    };
    let mut written = Vec::new(alloc);
    let half = serve_sender(rt, shared, speaker, &mut written, &OpenGate);
    half.ended == ended && written.is_empty()
}

/// Returns whether an input is the one at place `at` of a key, a pointer and a text.
fn is_at(at: usize, input: &Input) -> bool {
    match input {
        Input::Key { down, key } => at == 0 && *down && *key == 0xff0d,
        Input::Pointer { mask, x, y } => at == 1 && (*mask, *x, *y) == (1, 2, 1),
        Input::Text { text, shortened } => at == 2
            && !*shortened
            && text.as_slice() == b"hi".as_slice(),
    }
}

/// Returns whether `told` is the one at place `at` of `viewer`, or nothing from the place `count` on.
fn is_due(at: usize, told: &Option<Told>, viewer: u64, count: usize) -> bool {
    match told {
        Some(told) => at < count && told.viewer == viewer && is_at(at, &told.input),
        None => at >= count,
    }
}

/// Takes inputs, and returns whether they are the first `count` of those, in order, and no other.
fn are_taken<R: Wait>(rt: &R, hub: &InputHub, taker: &mut Taker, viewer: u64, count: usize) -> bool
    requires { taker.old.queue ≡ hub.now.queue }
{
    let first = hub.take(rt, taker);
    let second = hub.take(rt, taker);
    let third = hub.take(rt, taker);
    let fourth = hub.take(rt, taker);
    is_due(0, &first, viewer, count)
        && is_due(1, &second, viewer, count)
        && is_due(2, &third, viewer, count)
        && fourth.is_none()
}

/// Serves the reader and then the sender of a viewer that is open, and returns its receipt if they end as `case` says.
fn receipt_of<L: Ledger, R: Wait>(
    rt: &R,
    alloc: Global,
    shared: &Shared<L>,
    listener: Listener,
    speaker: Speaker,
    source: &mut Source<'_>,
    written: &mut Vec<u8>,
    case: &Case,
) -> Option<Receipt> {
    let Ok((mut hub, mut taker)) = InputHub::new(alloc, case.capacity) else {
        return None;
    };
    let seat = hub.seat(listener.viewer());
    let read = serve_reader(rt, shared, listener, source, &hub, seat);
    let write = serve_sender(rt, shared, speaker, written, &OpenGate);
    let is_right = read.ended == case.ended
        && read.dropped == case.dropped
        && write.ended == Ended::Stopped
        && are_taken(rt, &hub, &mut taker, write.viewer, case.taken);
    if !is_right || read.viewer != write.viewer {
        return None;
    }
    Some(receipt(Some(read), None, write).0)
}

/// Returns whether `receipt`, and what was `written`, are what `case` says.
fn is_of(receipt: &Receipt, written: &[u8], case: &Case) -> bool {
    let sent = case.greeting.get(..case.sent);
    sent == Some(written)
        && sent == Some(receipt.sent.as_slice())
        && case.given.get(..case.heard) == Some(receipt.heard.as_slice())
        && receipt.pieces == case.pieces
        && receipt.cuts == 0
}

/// Serves a viewer, of the next number, and returns whether that comes to what `case` says; then its receipt is behind the others.
fn serves<L: Ledger, R: Wait>(
    rt: &R,
    alloc: Global,
    shared: &Shared<L>,
    receipts: &mut Vec<Receipt>,
    case: &Case,
) -> bool {
    let number = (receipts.len() as u64).saturating_add(1);
    let Ok(line) = shared.connect(rt, number) else {
        return false;
    };
    let is_closed = case.is_closed && shared.close(rt, number).is_ok();
    let mut source = Source {
        rest: case.given,
        first: case.first,
        others: case.others,
        fails: case.fails,
    };
    let mut written = Vec::new(alloc);
    let left = match serve_opening(rt, shared, line, &mut source, &mut written) {
        Opened::Ready(listener, speaker) => receipt_of(
            rt,
            alloc,
            shared,
            listener,
            speaker,
            &mut source,
            &mut written,
            case,
        ),
        Opened::Over(receipt, _) => (receipt.ended == case.ended).then_some(receipt),
    };
    match left {
        Some(receipt) => {
            is_closed == case.is_closed
                && is_of(&receipt, &written, case)
                && receipts.push(receipt).is_ok()
        }
        None => false,
    }
}

/// Serves each case, and returns whether it comes to what it says.
fn serve_each<L: Ledger, R: Wait>(
    rt: &R,
    alloc: Global,
    shared: &Shared<L>,
    receipts: &mut Vec<Receipt>,
) -> bool {
    for case in &CASES {
        if !serves(rt, alloc, shared, receipts, case) {
            return false;
        }
    }
    true
}

/// Makes `step`, and returns whether it comes to what it says.
pub fn holds<L: Ledger, R: Wait>(
    rt: &R,
    alloc: Global,
    shared: &Shared<L>,
    brush: &mut Brush<L>,
    seat: &mut Seat,
    receipts: &mut Vec<Receipt>,
    picture: Picture,
    step: &Step,
) -> bool {
    match step {
        Step::Connects(number, refused) => shared.connect(rt, *number).err() == *refused,
        Step::Closes(number, refused) => shared.close(rt, *number).err() == *refused,
        Step::Opens(number) => opens(rt, alloc, shared, *number, seat),
        Step::Says(piece, is_fault) => match &mut seat.listener {
            Some(listener) => match shared.hear(rt, listener, piece) {
                Ok(heard) => heard.closed.is_some() == *is_fault,
                Err(_) => false,
            },
            None => false,
        },
        Step::IsUnheard(piece) => match &mut seat.listener {
            Some(listener) => {
                matches!(shared.hear(rt, listener, piece), Err(ScreenError::NoViewer))
            }
            None => false,
        },
        Step::IsSent(wanted) => is_sent(rt, shared, seat, *wanted),
        Step::Ends(ended) => ends(rt, alloc, shared, seat, *ended),
        Step::Stops => {
            shared.stop(rt);
            true
        }
        Step::Resizes => brush.new_framebuffer(shared, rt, 4, 3).is_ok(),
        Step::DrawsEach => draw_each(rt, alloc, shared, brush).is_ok(),
        Step::Draws(rect, colours, refused) => {
            brush.write_pixels(shared, rt, *rect, colours).err() == *refused
                && brush.paint(shared, rt, *rect, colours).err() == *refused
        }
        Step::Paints(rect) => match colours(alloc, picture) {
            Ok(colours) => brush.paint(shared, rt, *rect, &colours).is_ok(),
            Err(_) => false,
        },
        Step::ServesEach => serve_each(rt, alloc, shared, receipts),
    }
}

/// What a viewer of an older version is sent at its opening: the version, the security type or types, and the ServerInit (7.1.1,
/// 7.1.2, 7.3.2).
const OF_3_3: &[u8] =
    b"RFB 003.008\n\0\0\0\x01\0\x04\0\x03\x20\x18\0\x01\0\xff\0\xff\0\xff\x10\x08\0\0\0\0\0\0\0\x04demo";

const OF_3_7: &[u8] =
    b"RFB 003.008\n\x01\x01\0\x04\0\x03\x20\x18\0\x01\0\xff\0\xff\0\xff\x10\x08\0\0\0\0\0\0\0\x04demo";

/// A viewer that opens in one piece, and then is at its end.
const CASE: Case = Case {
    given: OPENING,
    first: 14,
    others: 24,
    fails: false,
    is_closed: false,
    greeting: HEAD,
    sent: GREETED,
    pieces: 1,
    heard: 14,
    ended: Ended::EndOfInput,
    capacity: 8,
    taken: 0,
    dropped: 0,
};

/// The opening, and in another piece a key, a pointer and a text (7.5.4 to 7.5.6).
const INPUTS: Case = Case {
    given: b"RFB 003.008\n\x01\x01\x04\x01\0\0\0\0\xff\x0d\x05\x01\0\x02\0\x01\x06\0\0\0\0\0\0\x02hi",
    pieces: 2,
    heard: 38,
    taken: 3,
    ..CASE
};

/// Viewers, each closed at the end of its reader. Their events are 29 connections, 118 pieces and 29 closes.
static CASES: [Case; 29] = [
    // each byte of the opening for itself, and some at a time
    Case {
        first: 1,
        others: 1,
        pieces: 14,
        ..CASE
    },
    Case {
        first: 5,
        others: 5,
        pieces: 3,
        ..CASE
    },
    // 3.3, a number that is served as 3.3, and 3.7
    Case {
        given: b"RFB 003.003\n\x01",
        first: 13,
        greeting: OF_3_3,
        sent: 44,
        heard: 13,
        ..CASE
    },
    Case {
        given: b"RFB 003.005\n\x01",
        first: 12,
        greeting: OF_3_3,
        sent: 44,
        pieces: 2,
        heard: 13,
        ..CASE
    },
    Case {
        given: b"RFB 003.007\n\x01\x01",
        greeting: OF_3_7,
        sent: 42,
        ..CASE
    },
    // no message has the type 255: in the piece that completes the opening, and in the one after the version
    Case {
        given: b"RFB 003.008\n\x01\x01\xff",
        first: 15,
        heard: 15,
        ended: Ended::Fault(Fault::UnknownMessage(255)),
        ..CASE
    },
    Case {
        given: b"RFB 003.003\n\x01\xff",
        first: 12,
        greeting: OF_3_3,
        sent: 44,
        pieces: 2,
        ended: Ended::Fault(Fault::UnknownMessage(255)),
        ..CASE
    },
    // no version, and no security type that was offered
    Case {
        given: b"hello world\n",
        sent: 12,
        heard: 12,
        ended: Ended::Fault(Fault::BadVersion),
        ..CASE
    },
    Case {
        given: b"RFB 003.008\n\x02\x01",
        sent: 14,
        ended: Ended::Fault(Fault::BadSecurityType),
        ..CASE
    },
    // the reader is at its end: at once, in the version, after it, after the choice
    Case {
        given: b"",
        sent: 12,
        pieces: 0,
        heard: 0,
        ..CASE
    },
    Case {
        given: b"RFB 003.008",
        first: 4,
        others: 4,
        sent: 12,
        pieces: 3,
        heard: 11,
        ..CASE
    },
    Case {
        given: b"RFB 003.008\n",
        sent: 14,
        heard: 12,
        ..CASE
    },
    Case {
        given: b"RFB 003.008\n\x01",
        first: 12,
        sent: 18,
        pieces: 2,
        heard: 13,
        ..CASE
    },
    Case {
        given: b"RFB 003.003\n",
        greeting: OF_3_3,
        sent: 16,
        heard: 12,
        ..CASE
    },
    // a closed viewer does not open
    Case {
        is_closed: true,
        sent: 12,
        pieces: 0,
        heard: 0,
        ended: Ended::Closed,
        ..CASE
    },
    // a bell is no message of a viewer's (7.5): a key, and then the type 7, each byte for itself
    Case {
        given: b"RFB 003.008\n\x01\x01\x04\x01\0\0\0\0\xff\x0d\x07\x07",
        others: 1,
        pieces: 10,
        heard: 23,
        ended: Ended::Fault(Fault::UnknownMessage(7)),
        taken: 1,
        ..CASE
    },
    // what follows a fault in its piece is heard with it
    Case {
        given: b"RFB 003.008\n\x01\x01\x07\x05\x01\0\x02\0\x01",
        pieces: 2,
        heard: 21,
        ended: Ended::Fault(Fault::UnknownMessage(7)),
        ..CASE
    },
    // SetPixelFormat with 24 bits per pixel, and with a colour map (7.4, 7.5.1)
    Case {
        given: b"RFB 003.008\n\x01\x01\0\0\0\0\x18\x18\0\x01\0\xff\0\xff\0\xff\x10\x08\0\0\0\0",
        others: 19,
        pieces: 3,
        heard: 34,
        ended: Ended::Fault(Fault::BadBitsPerPixel),
        ..CASE
    },
    Case {
        given: b"RFB 003.008\n\x01\x01\0\0\0\0\x10\x08\0\0\0\xff\0\xff\0\xff\x10\x08\0\0\0\0",
        pieces: 2,
        heard: 34,
        ended: Ended::Fault(Fault::ColourMapUnsupported),
        ..CASE
    },
    // a read fails after the opening, and after a part of a key
    Case {
        fails: true,
        ended: Ended::ReadFailed,
        ..CASE
    },
    Case {
        given: b"RFB 003.008\n\x01\x01\x04\x01\0\0\0",
        fails: true,
        pieces: 2,
        heard: 19,
        ended: Ended::ReadFailed,
        ..CASE
    },
    // a key, a pointer and a text behind the opening, in one piece; then each byte for itself, and all with the opening
    INPUTS,
    Case {
        first: 1,
        others: 1,
        pieces: 38,
        ..INPUTS
    },
    Case {
        first: 38,
        pieces: 1,
        ..INPUTS
    },
    // the key in the opening's piece, and a part of it
    Case {
        first: 22,
        ..INPUTS
    },
    Case {
        first: 18,
        ..INPUTS
    },
    // no room for the text, and none for the pointer, where they come apart from the opening or with it
    Case {
        capacity: 2,
        taken: 2,
        dropped: 1,
        ..INPUTS
    },
    Case {
        first: 38,
        pieces: 1,
        capacity: 2,
        taken: 2,
        dropped: 1,
        ..INPUTS
    },
    Case {
        first: 22,
        others: 1,
        pieces: 17,
        capacity: 1,
        taken: 1,
        dropped: 2,
        ..INPUTS
    },
];
