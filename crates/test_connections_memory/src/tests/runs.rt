//! The runs.
//!
//! A function that owns connections lends them to others: each place where it may end on its way would be one more to prove.

use super::line::{Line, Talk, Then};
use super::steps::{ALL, Counting, End, Parting, Step, holds, line, turns, whole};
use connections::{
    Both, Config, Connections, Departed, Draw, Ended, Fault, History, Listed, RecordWriter,
    ScreenError,
};
use std::alloc::{AllocError, Global};
use std::process::Abort;
use std::test::*;

/// A run: its screen's size, whether its history is kept, how many pointers a viewer says that floods, and its steps.
#[derive(Clone, Copy)]
struct Run {
    name: &'static str,
    size: (u32, u32),
    history: History,
    flood: u32,
    steps: &'static [Step],
}

const NOTHING: Counting = Counting {
    came: 0,
    told: [0; 4],
    left: 0,
    paints: false,
    partings: [None; 4],
    parted: 0,
};

fn config(
    alloc: Global,
    (width, height): (u32, u32),
    history: History,
) -> Result<Config, AllocError> {
    Ok(Config {
        width,
        height,
        name: Listed::from_slice(alloc, b"demo")?,
        rects_per_update: 50,
        history,
    })
}

/// Returns an opening and `count` pointers (RFC 6143, 7.5.5).
fn flood(alloc: Global, count: u32) -> Result<Vec<u8>, AllocError> {
    let mut bytes = OPENING.to_vec(alloc)?;
    for _ in 0..count {
        bytes.extend_from_slice(b"\x05\0\0\0\0\0")?;
    }
    Ok(bytes)
}

/// Makes the steps, and returns the number, from 1 on, of the first one that does not hold, or 0 if all do.
fn first_wrong<'a>(
    alloc: Global,
    connections: &mut Connections<Line<'a>>,
    flood: &'a [u8],
    steps: &[Step],
) -> Result<usize, ScreenError> {
    let mut application = NOTHING;
    let mut keys = 0;
    for (number, step) in (1usize..).zip(steps) {
        if !holds(alloc, connections, &mut application, &mut keys, flood, step)? {
            return Ok(number);
        }
    }
    Ok(0)
}

/// Makes the steps of `run` on a screen of its own, and returns what `first_wrong` does.
fn wrong_in(alloc: Global, run: &Run) -> Result<usize, ScreenError> {
    let flood = flood(alloc, run.flood)?;
    let mut connections = Connections::new(alloc, config(alloc, run.size, run.history)?)?;
    first_wrong(alloc, &mut connections, &flood, run.steps)
}

#[test]
fn runs_come_to_what_they_say(rt: HostRuntime) -> Result<(), Fail> {
    for run in &RUNS {
        let wrong = wrong_in(rt.alloc(), run)?;
        assert!(rt; wrong == 0, "{}: step {wrong} is wrong", run.name);
    }
    Ok(())
}

/// Says whether a run comes to what it says while its session is recorded, in memory; and, if `session` is given, whether the
/// record is `session`.
fn is_recorded(alloc: Global, run: &Run, session: Option<&[u8]>) -> Result<bool, ScreenError> {
    let flood = flood(alloc, run.flood)?;
    let config = config(alloc, run.size, run.history)?;
    let writer = RecordWriter::Memory(Vec::new(alloc));
    let mut connections = Connections::recorded(alloc, config, writer)?;
    let wrong = first_wrong(alloc, &mut connections, &flood, run.steps)?;
    connections.flush_record();
    let is_session = session.is_none() || connections.record_in_memory() == session;
    Ok(wrong == 0 && is_session && !connections.is_record_broken())
}

/// The record of `RUN`: the screen, what it is painted in, and what its viewer does. Each number stands in it as in the run.
const SESSION: &[u8] = b"screen 4 3 demo 50\npaint 0 0 4 3 00000a\nconnect 1\n\
    hear 1 524642203030332e3030380a010103000000000000040003\ncut 1\nclose 1\n";

#[test]
fn sessions_are_recorded_as_they_happen(rt: HostRuntime) -> Result<(), Fail> {
    assert!(rt; is_recorded(rt.alloc(), &RUN, Some(SESSION))?);
    for run in &RUNS {
        assert!(rt; is_recorded(rt.alloc(), run, None)?, "{}", run.name);
    }
    Ok(())
}

/// Says whether the viewer that left, if one did, was sent all and then left, or was sent the beginning before memory was refused;
/// and whether memory was refused to it.
fn parts(alloc: Global, departed: Option<Departed<Line<'_>>>) -> (bool, bool) {
    let Some(
        Departed {
            transport,
            receipt,
            ..
        },
    ) = departed
    else {
        return (true, false);
    };
    let Ok(whole) = whole(alloc, 10) else {
        return (true, receipt.ended == Ended::Memory);
    };
    match receipt.ended {
        Ended::EndOfInput => (transport.taken.as_slice() == whole.as_slice(), false),
        Ended::Memory => (whole.starts_with(&transport.taken), true),
        _ => (false, false),
    }
}

/// Checks that at most one of two viewers ends by an allocation that fails, whichever that is, and that the other is sent all of
/// the screen.
fn expect_others_served(rt: &impl Abort, alloc: Global, connections: &mut Connections<Line<'_>>) {
    let mut application = NOTHING;
    for _ in 0..2u32 {
        let _painted = connections.canvas().paint(ALL, &[10; 12]);
        let _admitted = connections.admit(line(alloc, TALK, TALK.says));
    }
    assert!(rt; !connections.is_empty(), "a viewer is admitted");
    assert!(rt;
        turns(connections, 2, 3, &mut application).is_ok(),
        "three turns"
    );
    let mut failed = 0u32;
    for _ in 0..4u32 {
        let (is_served, has_failed) = parts(alloc, connections.take_departed());
        assert!(rt; is_served, "a viewer is sent what it is to be sent");
        failed = failed.saturating_add(u32::from(has_failed));
    }
    assert!(rt; connections.is_empty() && failed < 2);
}

#[test]
fn two_viewers_whichever_allocation_is_refused(rt: HostRuntime) {
    let made = match config(rt.alloc(), (4, 3), History::Kept) {
        Ok(config) => Connections::new(rt.alloc(), config),
        Err(_) => return,
    };
    if let Ok(mut connections) = made {
        expect_others_served(&rt, rt.alloc(), &mut connections);
    }
}

/// Says whether a viewer over a reader and a writer is sent all of the screen, and the application is told that it came and left.
fn serves_both(
    alloc: Global,
    connections: &mut Connections<Both<&[u8], Vec<u8>>>,
) -> Result<bool, ScreenError> {
    let mut application = NOTHING;
    connections.canvas().paint(ALL, &[10; 12])?;
    let key = connections.admit(Both {
        reader: TALK.says,
        writer: Vec::new(alloc),
    })?;
    connections.tell_came(1, &mut application)?;
    connections.turn(&mut application)?;
    connections.close(key)?;
    let Some(
        Departed {
            transport,
            held,
            receipt,
        },
    ) = connections.take_departed()
    else {
        return Ok(false);
    };
    connections.tell_left(held, receipt, &mut application)?;
    let is_whole = transport.writer == whole(alloc, 10)?;
    Ok(is_whole && application.came == 1 && application.left == 1)
}

#[test]
fn a_reader_and_a_writer_are_a_transport(rt: HostRuntime) -> Result<(), Fail> {
    let config = config(rt.alloc(), (4, 3), History::NotKept)?;
    let mut connections = Connections::new(rt.alloc(), config)?;
    assert!(rt; serves_both(rt.alloc(), &mut connections)?);
    Ok(())
}

/// The version 3.8, the choice of no security, and a ClientInit (7.1 to 7.3).
const OPENING: &[u8] = b"RFB 003.008\n\x01\x01";

/// The same, and a request of the whole screen (7.5.3); and then a request of what changes.
const ASKS: &[u8] = b"RFB 003.008\n\x01\x01\x03\0\0\0\0\0\0\x04\0\x03";

const ASKS_AGAIN: &[u8] =
    b"RFB 003.008\n\x01\x01\x03\0\0\0\0\0\0\x04\0\x03\x03\x01\0\0\0\0\0\x04\0\x03";

/// The opening, and a request of 2048 by 55 places; then, in a piece of its own, a request of what changes there, and a pointer that
/// paints.
const EARLY: &[u8] =
    b"RFB 003.008\n\x01\x01\x03\0\0\0\0\0\x08\0\0\x37\x03\x01\0\0\0\0\x08\0\0\x37\x05\x01\0\0\0\0";

/// The opening, two keys that go down, and the third button at (3, 2) (7.5.4, 7.5.5).
const HOLDS: &[u8] =
    b"RFB 003.008\n\x01\x01\x04\x01\0\0\0\0\xff\xe3\x04\x01\0\0\0\0\0\x61\x05\x04\0\x03\0\x02";

/// The same of one key, which goes up then, as does the button.
const LETS_GO: &[u8] =
    b"RFB 003.008\n\x01\x01\x04\x01\0\0\0\0\0\x61\x05\x04\0\x03\0\x02\x04\0\0\0\0\0\0\x61\x05\0\0\x03\0\x02";

/// The opening, a key that goes down, and what no message begins with.
const HOLDS_AND_ERRS: &[u8] = b"RFB 003.008\n\x01\x01\x04\x01\0\0\0\0\0\x61\x63";

/// How many bytes a viewer of 4 by 3 places is sent at its opening, and with an update of all places.
const GREETED: usize = 46;

const WHOLE: usize = 110;

/// How many bytes a viewer of 2048 by 55 places is sent for these: the opening's, all places, and twelve of them again.
const EARLY_ENOUGH: usize = GREETED + 16 + 4 * 2048 * 55 + 64;

/// A viewer that opens and asks, takes all that it is sent, and leaves.
const TALK: Talk = Talk {
    says: ASKS,
    piece: usize::MAX,
    then: Then::Ends,
    takes: usize::MAX,
    most: usize::MAX,
    blocks: false,
};

/// A viewer that floods; and one that says only 20 bytes at a time.
const LOUD: Talk = Talk { says: b"", ..TALK };

const CALM: Talk = Talk { piece: 20, ..LOUD };

/// It is sent all, and left.
const END: End = End {
    viewer: 1,
    ended: Ended::EndOfInput,
    colour: 10,
    count: WHOLE,
    behind: b"",
    heard: ASKS,
    pieces: 1,
    cuts: 1,
};

/// An update of the place (2, 1) in 123456 (7.6.1, 7.7.1).
const CHANGE: &[u8] = b"\0\0\0\x01\0\x02\0\x01\0\x01\0\x01\0\0\0\0\x56\x34\x12\0";

/// The same behind a Bell (7.6.3).
const BELL_AND_CHANGE: &[u8] = b"\x02\0\0\0\x01\0\x02\0\x01\0\x01\0\x01\0\0\0\0\x56\x34\x12\0";

const RUN: Run = Run {
    name: "a viewer is sent the screen",
    size: (4, 3),
    history: History::Kept,
    flood: 0,
    steps: &[
        Step::Paints(10),
        Step::Admits(TALK),
        Step::Turns(3),
        Step::HaveLeft(&[END], true),
        Step::IsEmpty,
    ],
};

static RUNS: [Run; 14] = [
    RUN,
    // one takes 7 bytes at a time, in each second write; one takes 60 bytes and no more; one says a byte at a time
    Run {
        name: "each viewer is sent what it takes",
        steps: &[
            Step::Paints(10),
            Step::Admits(Talk {
                piece: 5,
                then: Then::Waits,
                takes: 7,
                blocks: true,
                ..TALK
            }),
            Step::Admits(Talk {
                takes: 16,
                most: 60,
                ..TALK
            }),
            Step::Admits(Talk {
                piece: 1,
                then: Then::Waits,
                ..TALK
            }),
            Step::Turns(60),
            Step::Closes(0),
            Step::Closes(2),
            Step::HaveLeft(
                &[
                    End {
                        ended: Ended::Closed,
                        pieces: 5,
                        ..END
                    },
                    End {
                        viewer: 2,
                        ended: Ended::WriteFailed,
                        count: 60,
                        ..END
                    },
                    End {
                        viewer: 3,
                        ended: Ended::Closed,
                        pieces: 24,
                        ..END
                    },
                ],
                true,
            ),
        ],
        ..RUN
    },
    // one says what no message says, one's transport fails, and one says nothing and leaves
    Run {
        name: "each end is named",
        steps: &[
            Step::Admits(Talk {
                says: b"RFB 003.008\n\x01\x01\x63",
                ..TALK
            }),
            Step::Admits(Talk {
                says: OPENING,
                piece: 20,
                then: Then::Fails,
                ..TALK
            }),
            Step::Admits(Talk { says: b"", ..TALK }),
            Step::Turns(3),
            Step::HaveLeft(
                &[
                    End {
                        ended: Ended::Fault(Fault::UnknownMessage(0x63)),
                        count: GREETED,
                        heard: b"RFB 003.008\n\x01\x01\x63",
                        cuts: 0,
                        ..END
                    },
                    End {
                        viewer: 2,
                        ended: Ended::ReadFailed,
                        count: GREETED,
                        heard: OPENING,
                        cuts: 0,
                        ..END
                    },
                    End {
                        viewer: 3,
                        count: 12,
                        heard: b"",
                        pieces: 0,
                        cuts: 0,
                        ..END
                    },
                ],
                true,
            ),
        ],
        ..RUN
    },
    // it takes 7 bytes in each second write, and what it says last is no message
    Run {
        name: "who errs is sent what waits",
        steps: &[
            Step::Admits(Talk {
                says: b"RFB 003.008\n\x01\x01\x63",
                takes: 7,
                blocks: true,
                ..TALK
            }),
            Step::Turns(4),
            Step::HaveLeft(&[], true),
            Step::Turns(40),
            Step::HaveLeft(
                &[End {
                    ended: Ended::Fault(Fault::UnknownMessage(0x63)),
                    count: GREETED,
                    heard: b"RFB 003.008\n\x01\x01\x63",
                    cuts: 0,
                    ..END
                }],
                true,
            ),
        ],
        ..RUN
    },
    // a viewer waits for a change
    Run {
        name: "what is drawn between turns is sent",
        history: History::NotKept,
        steps: &[
            Step::Paints(10),
            Step::Admits(Talk {
                says: ASKS_AGAIN,
                piece: 24,
                then: Then::Waits,
                ..TALK
            }),
            Step::Turns(2),
            Step::IsBusy(false),
            Step::PaintsPlace,
            Step::IsBusy(true),
            Step::TurnsOn,
            Step::Closes(0),
            Step::HaveLeft(
                &[End {
                    ended: Ended::Closed,
                    behind: CHANGE,
                    pieces: 2,
                    cuts: 2,
                    ..END
                }],
                false,
            ),
        ],
        ..RUN
    },
    Run {
        name: "a bell leaves a request open",
        history: History::NotKept,
        steps: &[
            Step::Paints(10),
            Step::Admits(Talk {
                says: ASKS_AGAIN,
                piece: 24,
                then: Then::Waits,
                ..TALK
            }),
            Step::Turns(2),
            Step::Rings,
            Step::TurnsOn,
            Step::IsBusy(false),
            Step::PaintsPlace,
            Step::IsBusy(true),
            Step::TurnsOn,
            Step::Closes(0),
            Step::HaveLeft(
                &[End {
                    ended: Ended::Closed,
                    behind: BELL_AND_CHANGE,
                    pieces: 2,
                    cuts: 3,
                    ..END
                }],
                false,
            ),
        ],
        ..RUN
    },
    Run {
        name: "what is drawn for who asks is sent",
        history: History::NotKept,
        steps: &[
            Step::Paints(10),
            Step::Pulls,
            Step::Admits(TALK),
            Step::Turns(3),
            Step::HaveLeft(&[End { colour: 11, ..END }], false),
        ],
        ..RUN
    },
    // the second piece asks for what changes
    Run {
        name: "who asks for what changes pulls nothing",
        history: History::NotKept,
        steps: &[
            Step::Paints(10),
            Step::Admits(Talk {
                says: ASKS_AGAIN,
                piece: 24,
                then: Then::Waits,
                ..TALK
            }),
            Step::Turns(1),
            Step::Pulls,
            Step::Turns(2),
            Step::Closes(0),
            Step::HaveLeft(
                &[End {
                    ended: Ended::Closed,
                    pieces: 2,
                    ..END
                }],
                false,
            ),
        ],
        ..RUN
    },
    // of three viewers that flood, one is heard in eight turns once it is known that they do, each in its turn, and a fourth one in
    // each: two pieces of 128 bytes for each that floods, and 48 of 20 for the other
    Run {
        name: "who floods waits for its turn",
        history: History::NotKept,
        flood: 1000,
        steps: &[
            Step::Paints(10),
            Step::Floods(LOUD),
            Step::Floods(LOUD),
            Step::Floods(LOUD),
            Step::Floods(CALM),
            Step::Turns(1),
            Step::Turns(48),
            Step::AreTold([(42, 43), (42, 43), (42, 43), (160, 160)]),
        ],
        ..RUN
    },
    // one that said more than 64 KB is heard in one turn of 32 where another one has something to say: two pieces of 128 bytes for
    // it, and 64 of 20 for the other
    Run {
        name: "who said much waits longer",
        history: History::NotKept,
        flood: 14_000,
        steps: &[
            Step::Paints(10),
            Step::Floods(LOUD),
            Step::Turns(600),
            Step::Floods(CALM),
            Step::Turns(1),
            Step::Turns(64),
            Step::AreTold([(42, 43), (213, 214), (0, 0), (0, 0)]),
        ],
        ..RUN
    },
    // its first update ends with the last write of a turn, and it asked again before: one write of the opening and seven of the
    // update, rows of 8 KB, the first seven in a write, and then eight in each
    Run {
        name: "who asks early is not forgotten",
        size: (2048, 55),
        history: History::NotKept,
        steps: &[
            Step::Admits(Talk {
                says: EARLY,
                piece: 24,
                then: Then::Waits,
                ..TALK
            }),
            Step::Turns(2),
            Step::TurnsOn,
            Step::Closes(0),
            Step::HasTaken(EARLY_ENOUGH),
        ],
        ..RUN
    },
    Run {
        name: "what a viewer holds down is let go when it leaves",
        steps: &[
            Step::Admits(Talk {
                says: HOLDS,
                ..TALK
            }),
            Step::Turns(3),
            Step::Parts([
                Some(Parting::Key(0xffe3)),
                Some(Parting::Key(0x61)),
                Some(Parting::Pointer(3, 2)),
                Some(Parting::Left),
            ]),
            Step::IsEmpty,
        ],
        ..RUN
    },
    Run {
        name: "what a viewer let go itself is not let go again",
        steps: &[
            Step::Admits(Talk {
                says: LETS_GO,
                ..TALK
            }),
            Step::Turns(3),
            Step::Parts([Some(Parting::Left), None, None, None]),
        ],
        ..RUN
    },
    Run {
        name: "what a viewer holds down is let go at a fault",
        steps: &[
            Step::Admits(Talk {
                says: HOLDS_AND_ERRS,
                ..TALK
            }),
            Step::Turns(3),
            Step::Parts([Some(Parting::Key(0x61)), Some(Parting::Left), None, None]),
        ],
        ..RUN
    },
];
