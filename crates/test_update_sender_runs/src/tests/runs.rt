//! The runs of a shared screen, and what is found of each.
//!
//! A function that owns a shared screen lends it to others: each place where it may end on its way would be one more to prove.

ghost use Rattle.std.specs.Prelude.{◌≡◌, ◌<◌};

use super::drawing::{GREETED, HEAD, OPENING, OPENING_AND_REQUEST, Picture, WHOLE, bytes, config};
use super::gates::{Guard, Hold, Point};
use super::steps::{Seat, Step, holds};
use super::threads::{Client, Crew, Reading, Viewer, Way, work};
use listed::Listed;
use receipts::Receipt;
use screen::{Config, Event, Fault, History, ScreenError};
use std::alloc::{AllocError, Global};
use std::marker::Brand;
use std::mem;
use std::sync::Wait;
use std::sync::ledger::{Blank, Ledger};
use std::test::*;
use std::thread::Threads;
use update_sender::{Brush, Ended, FinishError, Rect, Report, Sent, Shared, check, finish};

/// What is changed in the receipts before they are looked at.
#[derive(Clone, Copy)]
enum Change {
    Nothing,
    /// The last one is left out.
    WithoutLast,
    /// The last byte that the first viewer was sent is another.
    LastByte,
    /// The first one has a piece more.
    OnePieceMore,
    /// There is another one, of this viewer, which heard and was sent nothing.
    Another(u64),
    /// The first sender broke off, and the last one was stopped.
    Endings,
}

/// What a run is found to be.
#[derive(Clone, Copy)]
enum Verdict {
    /// The least and the greatest number of events that it may have, and what the viewers from 1 on were sent.
    Accepted(u64, u64, &'static [Sent]),
    Refused(FinishError),
    /// It is accepted, whatever it has, or memory is refused.
    Sound,
}

/// A run: a screen, steps in one thread, viewers' threads, and what is found of it.
#[derive(Clone, Copy)]
struct Run {
    name: &'static str,
    picture: Picture,
    history: History,
    steps: Option<&'static [Step]>,
    crew: Option<Crew>,
    change: Change,
    verdict: Verdict,
}

/// Makes `change` in `receipts`.
fn make_change(
    alloc: Global,
    receipts: &mut Vec<Receipt>,
    change: Change,
) -> Result<(), AllocError> {
    match change {
        Change::Nothing => {}
        Change::WithoutLast => {
            let _ = receipts.pop();
        }
        Change::LastByte => {
            if let Some(first) = receipts.first_mut() {
                let mut sent = mem::replace(&mut first.sent, Listed::new(alloc)).into_vec();
                if let Some(byte) = sent.last_mut() {
                    *byte ^= 1;
                }
                first.sent = Listed::from_vec(sent);
            }
        }
        Change::OnePieceMore => {
            if let Some(first) = receipts.first_mut() {
                first.pieces = first.pieces.saturating_add(1);
            }
        }
        Change::Another(viewer) => receipts.push(Receipt {
            viewer,
            pieces: 0,
            cuts: 0,
            heard: Listed::new(alloc),
            sent: Listed::new(alloc),
            ended: Ended::Closed,
        })?,
        Change::Endings => {
            if let Some(first) = receipts.first_mut() {
                first.ended = Ended::Gate;
            }
            if let Some(last) = receipts.last_mut() {
                last.ended = Ended::Stopped;
            }
        }
    }
    Ok(())
}

/// Returns whether `found` is what is `wanted`.
fn is_found(found: &Result<Report, FinishError>, wanted: Verdict) -> bool {
    match (found, wanted) {
        (Ok(report), Verdict::Accepted(least, most, sent)) => {
            let viewers = report.viewers.as_slice();
            least <= report.events
                && report.events <= most
                && viewers.len() == sent.len()
                && (1u64..)
                    .zip(sent)
                    .zip(viewers)
                    .all(|(wanted, found)| (wanted.0, *wanted.1) == *found)
        }
        (Err(error), Verdict::Refused(wanted)) => *error == wanted,
        (Ok(_) | Err(FinishError::OutOfMemory), Verdict::Sound) => true,
        _ => false,
    }
}

/// Makes the steps, and returns the number, from 1 on, of the first one that does not hold, or 0 if all do.
fn first_wrong<L: Ledger, R: Wait>(
    rt: &R,
    alloc: Global,
    shared: &Shared<L>,
    brush: &mut Brush<L>,
    run: &Run,
    seat: &mut Seat,
    receipts: &mut Vec<Receipt>,
) -> usize {
    for (number, step) in (1usize..).zip(run.steps.unwrap_or_default()) {
        if !holds(rt, alloc, shared, brush, seat, receipts, run.picture, step) {
            return number;
        }
    }
    0
}

/// Runs the viewers' threads, puts their receipts behind the others, with the change, and returns whether all went as `crew` says,
/// which it need not for the verdict `Sound`.
fn settle<L: Ledger + Send + Sync, R: Threads + Wait + Sync>(
    rt: &R,
    alloc: Global,
    shared: &Shared<L>,
    brush: &mut Brush<L>,
    run: &Run,
    crew: &Crew,
    guard: &Guard,
    one: &mut Viewer<'_>,
    two: &mut Viewer<'_>,
    receipts: &mut Vec<Receipt>,
) -> Result<bool, ScreenError> {
    let mut is_right = work(rt, alloc, shared, brush, guard, crew, one, two)?;
    let bytes = bytes(alloc, run.picture)?;
    let is_kept = matches!(run.history, History::Kept);
    is_right = one.is_served(rt, shared, guard, &crew.one, &bytes, is_kept) && is_right;
    if let Some(receipt) = one.receipt() {
        receipts.push(receipt)?;
    }
    if let Some(client) = &crew.two {
        is_right = two.is_served(rt, shared, guard, client, &bytes, is_kept) && is_right;
    }
    if let Some(receipt) = two.receipt() {
        receipts.push(receipt)?;
    }
    make_change(alloc, receipts, run.change)?;
    Ok(is_right || matches!(run.verdict, Verdict::Sound))
}

/// Runs the crew of `run`, if it has one, as `settle` does, with viewers that have not connected.
fn crew_works<L: Ledger + Send + Sync, R: Threads + Wait + Sync>(
    rt: &R,
    alloc: Global,
    shared: &Shared<L>,
    brush: &mut Brush<L>,
    run: &Run,
    receipts: &mut Vec<Receipt>,
) -> Result<bool, ScreenError> {
    let Some(crew) = &run.crew else {
        return Ok(true);
    };
    let guard = Guard::new(crew.hold);
    let mut one = Viewer::new(alloc, 1, crew.one.takes, &guard);
    let mut two = Viewer::new(alloc, 2, crew.two.map_or(0, |client| client.takes), &guard);
    settle(
        rt, alloc, shared, brush, run, crew, &guard, &mut one, &mut two, receipts,
    )
}

/// Makes the steps, runs the threads, and returns the number of what is wrong, or 0: the number behind the last step's stands for the
/// threads.
fn goes<L: Ledger + Send + Sync, R: Threads + Wait + Sync>(
    rt: &R,
    alloc: Global,
    shared: &Shared<L>,
    brush: &mut Brush<L>,
    run: &Run,
    receipts: &mut Vec<Receipt>,
) -> Result<usize, ScreenError> {
    let mut seat = Seat {
        listener: None,
        speaker: None,
    };
    let wrong = first_wrong(rt, alloc, shared, brush, run, &mut seat, receipts);
    if wrong != 0 || crew_works(rt, alloc, shared, brush, run, receipts)? {
        return Ok(wrong);
    }
    Ok(run.steps.unwrap_or_default().len().saturating_add(1))
}

/// Makes a shared screen, does so with it, and judges the run. Returns the number of what is wrong, or 0: the next number stands for
/// what is found of the run.
fn run_of<L: Ledger + Send + Sync, R: Threads + Wait + Sync>(
    rt: &R,
    alloc: Global,
    blank: Blank,
    run: &Run,
) -> Result<usize, ScreenError>
    requires name { blank.name ≡ L.name }
    requires parts { blank.parts ≡ L.parts }
    requires some { 0 < L.parts }
{
    let config = config(alloc, run.picture, run.history)?;
    let (shared, mut brush) = Shared::<L>::new(alloc, blank, config)?;
    let mut receipts = Vec::new(alloc);
    match goes(rt, alloc, &shared, &mut brush, run, &mut receipts) {
        Ok(0) if is_found(&finish(shared, brush, receipts), run.verdict) => Ok(0),
        Ok(0) => Ok(run.steps.unwrap_or_default().len().saturating_add(2)),
        other => other,
    }
}

/// Returns the number of what is wrong with `run`, or 0 if nothing is.
fn wrong_in<R: Threads + Wait + Sync>(
    rt: &R,
    alloc: Global,
    run: &Run,
) -> Result<usize, ScreenError> {
    run_of::<Brand, R>(rt, alloc, Blank::new(1), run)
}

#[test]
fn runs_come_to_what_they_say(rt: HostRuntime) -> Result<(), Fail> {
    for runs in [CALLS.as_slice(), ALONE.as_slice(), PAIRS.as_slice()] {
        for run in runs {
            let wrong = wrong_in(&rt, rt.alloc(), run)?;
            assert!(rt; wrong == 0, "{}: {wrong} is wrong", run.name);
        }
    }
    Ok(())
}

/// Checks a second writer that takes fewer bytes than the version, or than the opening, or than all; and a second reader that gives
/// nothing, or less than its version, or the opening without its last byte.
#[test]
fn a_writer_or_a_reader_fails_anywhere(rt: HostRuntime) -> Result<(), Fail> {
    for takes in 0..WHOLE {
        let events = match takes {
            0..12 => 5,
            12..46 => 6,
            _ => 7,
        };
        let run = second(
            OPENING_AND_REQUEST,
            takes,
            takes,
            Ended::WriteFailed,
            events,
            SECOND_BROKE_OFF,
        );
        let wrong = wrong_in(&rt, rt.alloc(), &run)?;
        assert!(rt; wrong == 0, "{takes} bytes are taken: {wrong} is wrong");
    }
    for gives in 0..OPENING.len() {
        let (events, sent) = match gives {
            0 => (5, 12),
            1..12 => (6, 12),
            12 => (6, 14),
            _ => (6, 18),
        };
        let given = OPENING.get(..gives).unwrap_or_default();
        let run = second(given, WHOLE, sent, Ended::ReadFailed, events, BOTH_WHOLE);
        let wrong = wrong_in(&rt, rt.alloc(), &run)?;
        assert!(rt; wrong == 0, "{gives} bytes are given: {wrong} is wrong");
    }
    Ok(())
}

/// Shows, for a growth that is refused anywhere, that the run has no screen then, or that its receipts are still those of its history.
#[test]
fn whichever_growth_is_refused_the_receipts_are_right(rt: HostRuntime) {
    let run = Run {
        verdict: Verdict::Sound,
        ..HELD
    };
    let wrong = wrong_in(&rt, rt.alloc(), &run);
    assert!(rt; matches!(wrong, Ok(0) | Err(ScreenError::OutOfMemory)));
}

/// Returns whether the drawing calls `drawn`, which were made, are found to differ from those of `history` at the place `at`.
fn differ(alloc: Global, history: &[Event], drawn: &[Event], at: u64) -> Result<bool, AllocError> {
    let config = Config {
        width: 4,
        height: 3,
        name: Listed::from_vec(b"demo".to_vec(alloc)?),
        rects_per_update: 50,
        history: History::Kept,
    };
    let found = check(alloc, &config, history, drawn, &[]);
    Ok(is_found(&found, Verdict::Refused(FinishError::Drawing { at })))
}

/// Shows that `check` finds a call that did not happen, and one that is left out.
#[test]
fn drawing_calls_are_compared(rt: HostRuntime) -> Result<(), Fail> {
    let calls = [
        Event::Bell,
        Event::Resize {
            width: 6,
            height: 2,
        },
    ];
    let (first, _) = calls.split_at(1);
    assert!(rt; differ(rt.alloc(), &[], first, 0)?);
    assert!(rt; differ(rt.alloc(), &calls, first, 1)?);
    Ok(())
}

/// Errors, and their names.
static ERRORS: [(FinishError, &str); 6] = [
    (FinishError::NotKept, "NotKept"),
    (FinishError::Drawing { at: 2 }, "Drawing"),
    (FinishError::Missing { viewer: 1 }, "Missing"),
    (FinishError::Count { viewer: 1 }, "Count"),
    (FinishError::Bytes { viewer: 1, at: 2 }, "Bytes"),
    (FinishError::OutOfMemory, "OutOfMemory"),
];

#[test]
fn errors_are_named(rt: HostRuntime) -> Result<(), Fail> {
    for (error, name) in &ERRORS {
        let text = format!(in rt.alloc(); "{error}")?;
        assert!(rt; text.as_str() == *name, "{name}");
    }
    Ok(())
}

const BOTH_WHOLE: &[Sent] = &[Sent::Whole, Sent::Whole];

const SECOND_BROKE_OFF: &[Sent] = &[Sent::Whole, Sent::Prefix];

/// Viewer 1 is sent all, until it is stopped.
const STOPPED: Client = Client {
    given: OPENING_AND_REQUEST,
    takes: WHOLE,
    sent: Some(WHOLE),
    ended: Ended::Stopped,
};

/// Viewer 2's writer takes 10 bytes after the opening and then fails, and viewer 1's sender waits until then. Each viewer connects,
/// is heard and is cut an update, and the second is closed.
const HELD: Run = Run {
    name: "a writer that fails ends its own viewer",
    picture: Picture::Black,
    history: History::Kept,
    steps: None,
    crew: Some(Crew {
        hold: Hold::First(Point::Encoding),
        way: Way::Stops,
        one: STOPPED,
        two: Some(BROKEN),
    }),
    change: Change::Nothing,
    verdict: Verdict::Accepted(7, 7, SECOND_BROKE_OFF),
};

/// Returns that run with another second viewer; it has `events` events, and the viewers were sent what `found` says.
fn second(
    given: &'static [u8],
    takes: usize,
    sent: usize,
    ended: Ended,
    events: u64,
    found: &'static [Sent],
) -> Run {
    let crew = Crew {
        hold: Hold::First(Point::Encoding),
        way: Way::Stops,
        one: STOPPED,
        two: Some(Client {
            given,
            takes,
            sent: Some(sent),
            ended,
        }),
    };
    Run {
        crew: Some(crew),
        verdict: Verdict::Accepted(events, events, found),
        ..HELD
    }
}

/// The second viewer of that run.
const BROKEN: Client = Client {
    takes: 56,
    sent: Some(56),
    ended: Ended::WriteFailed,
    ..STOPPED
};

/// A viewer that opens and asks for nothing.
const WAITING: Client = Client {
    given: OPENING,
    sent: Some(GREETED),
    ..STOPPED
};

/// A viewer that is sent the screen, and then a place that changed.
const WOKEN: Client = Client {
    takes: usize::MAX,
    sent: Some(130),
    ..STOPPED
};

/// A viewer that asks for the whole screen of 200 by 100 (7.5.3).
const LONG_CLIENT: Client = Client {
    given: b"RFB 003.008\n\x01\x01\x03\0\0\0\0\0\0\xc8\0\x64",
    takes: usize::MAX,
    sent: Some(80_062),
    ..STOPPED
};

const ALL_LONG: Rect = Rect {
    x1: 0,
    y1: 0,
    x2: 200,
    y2: 100,
};

const ALL: Rect = Rect {
    x1: 0,
    y1: 0,
    x2: 4,
    y2: 3,
};

/// Rectangles of no place: at the left border, further in, and at the last corner.
const AT_BORDER: Rect = Rect {
    x1: 0,
    y1: 0,
    x2: 0,
    y2: 3,
};

const INSIDE: Rect = Rect {
    x1: 2,
    y1: 1,
    x2: 2,
    y2: 1,
};

const AT_CORNER: Rect = Rect {
    x1: 4,
    y1: 3,
    x2: 4,
    y2: 3,
};

/// A request of the whole screen (7.5.3).
const REQUEST: &[u8] = b"\x03\0\0\0\0\0\0\x04\0\x03";

/// The whole screen in Raw, all of it in the colour 00000a (7.6.1, 7.7.1).
const WHOLE_UPDATE: &[u8] = b"\0\0\0\x01\0\0\0\0\0\x04\0\x03\0\0\0\0\
    \x0a\0\0\0\x0a\0\0\0\x0a\0\0\0\x0a\0\0\0\x0a\0\0\0\x0a\0\0\0\
    \x0a\0\0\0\x0a\0\0\0\x0a\0\0\0\x0a\0\0\0\x0a\0\0\0\x0a\0\0\0";

/// Each drawing call, also those of no place, and one with too few colours; and a viewer that opens and asks then.
const DRAWN: &[Step] = &[
    Step::Resizes,
    Step::DrawsEach,
    Step::Draws(AT_BORDER, &[], None),
    Step::Draws(INSIDE, &[], None),
    Step::Draws(AT_CORNER, &[], None),
    Step::Draws(ALL, &[10], Some(ScreenError::BadPixelCount)),
    Step::Opens(1),
    Step::Says(REQUEST, false),
    Step::IsSent(Some(WHOLE_UPDATE)),
];

/// Runs in one thread.
static CALLS: [Run; 5] = [
    Run {
        name: "a number connects once, and only above all others",
        history: History::NotKept,
        steps: Some(&[
            Step::Connects(2, None),
            Step::Connects(1, Some(ScreenError::NumberInUse)),
            Step::Closes(2, None),
            Step::Connects(2, Some(ScreenError::NumberInUse)),
            Step::Connects(3, None),
        ]),
        crew: None,
        verdict: Verdict::Refused(FinishError::NotKept),
        ..HELD
    },
    Run {
        name: "a viewer that is closed, or at fault, or waits when all is stopped, is sent nothing any more",
        history: History::NotKept,
        steps: Some(&[
            Step::Opens(1),
            Step::Closes(1, None),
            Step::IsSent(None),
            Step::Ends(Ended::Closed),
            Step::IsUnheard(&[0]),
            Step::Closes(1, Some(ScreenError::NoViewer)),
            Step::Opens(2),
            Step::Says(&[255], true),
            Step::IsSent(None),
            Step::Ends(Ended::Fault(Fault::UnknownMessage(255))),
            Step::Opens(3),
            Step::Says(REQUEST, false),
            Step::Stops,
            Step::IsSent(None),
            Step::Ends(Ended::Stopped),
        ]),
        crew: None,
        verdict: Verdict::Refused(FinishError::NotKept),
        ..HELD
    },
    Run {
        name: "a viewer is sent what all calls drew",
        steps: Some(DRAWN),
        crew: None,
        verdict: Verdict::Refused(FinishError::Missing { viewer: 1 }),
        ..HELD
    },
    Run {
        name: "the same without a history",
        history: History::NotKept,
        steps: Some(DRAWN),
        crew: None,
        verdict: Verdict::Refused(FinishError::NotKept),
        ..HELD
    },
    Run {
        name: "openings, readers and their inputs come to what is said",
        steps: Some(&[Step::Stops, Step::ServesEach]),
        crew: None,
        verdict: Verdict::Accepted(176, 176, &[Sent::Whole; 29]),
        ..HELD
    },
];

/// Runs of viewers that are held by nobody else.
static ALONE: [Run; 12] = [
    Run {
        name: "what ten calls drew before is sent",
        picture: Picture::Coloured,
        steps: Some(&[Step::DrawsEach]),
        crew: Some(Crew {
            hold: Hold::Nobody,
            way: Way::Stops,
            one: STOPPED,
            two: None,
        }),
        verdict: Verdict::Accepted(13, 13, &[Sent::Whole]),
        ..HELD
    },
    Run {
        name: "the same on a new framebuffer",
        picture: Picture::Coloured,
        steps: Some(&[Step::Resizes, Step::DrawsEach]),
        crew: Some(Crew {
            hold: Hold::Nobody,
            way: Way::Stops,
            one: STOPPED,
            two: None,
        }),
        verdict: Verdict::Accepted(14, 14, &[Sent::Whole]),
        ..HELD
    },
    Run {
        name: "a long update is written whole",
        picture: Picture::Long,
        steps: Some(&[Step::Paints(ALL_LONG)]),
        crew: Some(Crew {
            hold: Hold::Nobody,
            way: Way::Stops,
            one: LONG_CLIENT,
            two: None,
        }),
        verdict: Verdict::Accepted(4, 4, &[Sent::Whole]),
        ..HELD
    },
    Run {
        name: "what is drawn meanwhile is sent",
        crew: Some(Crew {
            hold: Hold::Nobody,
            way: Way::Draws,
            one: Client {
                given: OPENING,
                takes: usize::MAX,
                sent: None,
                ..STOPPED
            },
            two: None,
        }),
        verdict: Verdict::Accepted(332, 1_000, &[Sent::Whole]),
        ..HELD
    },
    Run {
        name: "a sender that waits is woken",
        crew: Some(Crew {
            hold: Hold::Nobody,
            way: Way::Wakes,
            one: WOKEN,
            two: None,
        }),
        verdict: Verdict::Accepted(6, 6, &[Sent::Whole]),
        ..HELD
    },
    Run {
        name: "two senders that wait are woken",
        history: History::NotKept,
        crew: Some(Crew {
            hold: Hold::Nobody,
            way: Way::Wakes,
            one: WOKEN,
            two: Some(WOKEN),
        }),
        verdict: Verdict::Refused(FinishError::NotKept),
        ..HELD
    },
    Run {
        name: "a reader is at its end while its sender waits",
        crew: Some(Crew {
            hold: Hold::Nobody,
            way: Way::Reads(Reading {
                closes: false,
                stops: false,
                given: b"",
                ended: Ended::EndOfInput,
            }),
            one: Client {
                ended: Ended::Closed,
                ..WAITING
            },
            two: None,
        }),
        verdict: Verdict::Accepted(3, 3, &[Sent::Whole]),
        ..HELD
    },
    Run {
        name: "a viewer is closed while its sender waits",
        crew: Some(Crew {
            hold: Hold::Nobody,
            way: Way::Reads(Reading {
                closes: true,
                stops: false,
                given: b"\0",
                ended: Ended::Closed,
            }),
            one: Client {
                ended: Ended::Closed,
                ..WAITING
            },
            two: None,
        }),
        verdict: Verdict::Accepted(3, 3, &[Sent::Whole]),
        ..HELD
    },
    Run {
        name: "all is stopped while its sender waits",
        crew: Some(Crew {
            hold: Hold::Nobody,
            way: Way::Reads(Reading {
                closes: false,
                stops: true,
                given: b"",
                ended: Ended::EndOfInput,
            }),
            one: WAITING,
            two: None,
        }),
        verdict: Verdict::Accepted(3, 3, &[Sent::Whole]),
        ..HELD
    },
    Run {
        name: "a reader is at its end while its sender writes",
        crew: Some(Crew {
            hold: Hold::Both(Point::Write),
            way: Way::Reads(Reading {
                closes: false,
                stops: false,
                given: b"",
                ended: Ended::EndOfInput,
            }),
            one: Client {
                ended: Ended::Closed,
                ..STOPPED
            },
            two: None,
        }),
        verdict: Verdict::Accepted(4, 4, &[Sent::Whole]),
        ..HELD
    },
    Run {
        name: "a viewer is closed while its sender writes",
        crew: Some(Crew {
            hold: Hold::Both(Point::Write),
            way: Way::Reads(Reading {
                closes: true,
                stops: false,
                given: b"\0",
                ended: Ended::Closed,
            }),
            one: Client {
                ended: Ended::Closed,
                ..STOPPED
            },
            two: None,
        }),
        verdict: Verdict::Accepted(4, 4, &[Sent::Whole]),
        ..HELD
    },
    Run {
        name: "all is stopped while its sender writes",
        crew: Some(Crew {
            hold: Hold::Both(Point::Write),
            way: Way::Reads(Reading {
                closes: false,
                stops: true,
                given: b"",
                ended: Ended::EndOfInput,
            }),
            one: STOPPED,
            two: None,
        }),
        verdict: Verdict::Accepted(4, 4, &[Sent::Whole]),
        ..HELD
    },
];

/// Runs of two viewers.
static PAIRS: [Run; 15] = [
    HELD,
    Run {
        name: "a receipt is missing",
        change: Change::WithoutLast,
        verdict: Verdict::Refused(FinishError::Missing { viewer: 2 }),
        ..HELD
    },
    Run {
        name: "a receipt is given twice",
        change: Change::Another(1),
        verdict: Verdict::Refused(FinishError::Missing { viewer: 1 }),
        ..HELD
    },
    Run {
        name: "a receipt of nobody",
        change: Change::Another(9),
        verdict: Verdict::Refused(FinishError::Missing { viewer: 9 }),
        ..HELD
    },
    Run {
        name: "the last byte is wrong",
        change: Change::LastByte,
        verdict: Verdict::Refused(FinishError::Bytes { viewer: 1, at: 109 }),
        ..HELD
    },
    Run {
        name: "a piece too many",
        change: Change::OnePieceMore,
        verdict: Verdict::Refused(FinishError::Count { viewer: 1 }),
        ..HELD
    },
    Run {
        name: "a sender that was stopped sent all",
        change: Change::Endings,
        verdict: Verdict::Refused(FinishError::Bytes { viewer: 2, at: 56 }),
        ..HELD
    },
    Run {
        name: "a run without a history is not looked at",
        history: History::NotKept,
        verdict: Verdict::Refused(FinishError::NotKept),
        ..HELD
    },
    Run {
        name: "no sender waits for another: Writing",
        crew: Some(Crew {
            hold: Hold::First(Point::Writing),
            way: Way::Stops,
            one: STOPPED,
            two: Some(BROKEN),
        }),
        ..HELD
    },
    Run {
        name: "no sender waits for another: Write",
        crew: Some(Crew {
            hold: Hold::First(Point::Write),
            way: Way::Stops,
            one: STOPPED,
            two: Some(BROKEN),
        }),
        ..HELD
    },
    Run {
        name: "a gate that refuses: Encoding",
        crew: Some(Crew {
            hold: Hold::Refused(Point::Encoding),
            way: Way::Stops,
            one: Client {
                sent: Some(GREETED),
                ended: Ended::Gate,
                ..STOPPED
            },
            two: Some(BROKEN),
        }),
        verdict: Verdict::Accepted(8, 8, &[Sent::Prefix, Sent::Prefix]),
        ..HELD
    },
    Run {
        name: "a gate that refuses: Writing",
        crew: Some(Crew {
            hold: Hold::Refused(Point::Writing),
            way: Way::Stops,
            one: Client {
                sent: Some(GREETED),
                ended: Ended::Gate,
                ..STOPPED
            },
            two: Some(BROKEN),
        }),
        verdict: Verdict::Accepted(8, 8, &[Sent::Prefix, Sent::Prefix]),
        ..HELD
    },
    Run {
        name: "two senders overlap: Encoding",
        crew: Some(Crew {
            hold: Hold::Both(Point::Encoding),
            way: Way::Stops,
            one: STOPPED,
            two: Some(STOPPED),
        }),
        verdict: Verdict::Accepted(6, 6, BOTH_WHOLE),
        ..HELD
    },
    Run {
        name: "two senders overlap: Writing",
        crew: Some(Crew {
            hold: Hold::Both(Point::Writing),
            way: Way::Stops,
            one: STOPPED,
            two: Some(STOPPED),
        }),
        verdict: Verdict::Accepted(6, 6, BOTH_WHOLE),
        ..HELD
    },
    Run {
        name: "two senders overlap: Write",
        crew: Some(Crew {
            hold: Hold::Both(Point::Write),
            way: Way::Stops,
            one: STOPPED,
            two: Some(STOPPED),
        }),
        verdict: Verdict::Accepted(6, 6, BOTH_WHOLE),
        ..HELD
    },
];
