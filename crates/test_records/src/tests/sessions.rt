// Each session with a question, and what is answered; then lines that end a session.

use Question::{Drawn, Redacted, Seen, Sent, Viewers};
use replay::{Asked, Question, replay_over};
use std::alloc::{AllocError, Global};
use std::io;
use std::io::{BufReader, ErrorKind, Read};
use std::test::Fail;

/// A session, what is asked of it and of how many lines, and what is written.
#[derive(Clone, Copy)]
struct Case {
    name: &'static str,
    session: &'static [u8],
    question: Question,
    lines: u64,
    answer: &'static [u8],
}

/// Returns whether the session of `case` is answered as that says, with nothing said of errors.
fn is_answered(alloc: Global, case: &Case) -> bool {
    let asked = Asked {
        question: case.question,
        lines: case.lines,
    };
    let mut written = Vec::new(alloc);
    let mut errors = Vec::new(alloc);
    let mut reader = case.session;
    let status = replay_over(alloc, &mut reader, &mut written, &mut errors, asked);
    status == 0 && written.as_slice() == case.answer && errors.is_empty()
}

#[test]
fn sessions_are_answered(rt: HostRuntime) -> Result<(), Fail> {
    for case in &CASES {
        assert!(rt; is_answered(rt.alloc(), case), "{}", case.name);
    }
    Ok(())
}

/// Returns what `session` answers to `question`, or None if it isn't answered.
fn answer_of(alloc: Global, session: &[u8], question: Question) -> Option<Vec<u8>> {
    let asked = Asked {
        question,
        lines: u64::MAX,
    };
    let mut written = Vec::new(alloc);
    let mut errors = Vec::new(alloc);
    let mut reader = session;
    let status = replay_over(alloc, &mut reader, &mut written, &mut errors, asked);
    (status == 0).then_some(written)
}

/// Checks that a session without what is secret sends a viewer the same bytes and draws the same, and that it has nothing more to
/// leave out.
#[test]
fn a_redacted_session_sends_the_same(rt: HostRuntime) -> Result<(), Fail> {
    let alloc = rt.alloc();
    for question in [Sent(1), Drawn, Redacted] {
        let by_all = answer_of(alloc, SECRETS, question);
        let by_rest = answer_of(alloc, REDACTED, question);
        assert!(rt; by_all.is_some() && by_all == by_rest);
    }
    Ok(())
}

/// Returns whether `line`, as the fourth of a session, ends it.
fn ends_session(alloc: Global, line: &str) -> Result<bool, Fail> {
    let session = format!(in alloc; "{OPENED}{line}\nbell\n")?;
    let asked = Asked {
        question: Viewers,
        lines: u64::MAX,
    };
    let mut written = Vec::new(alloc);
    let mut errors = Vec::new(alloc);
    let mut reader = session.as_bytes();
    let status = replay_over(alloc, &mut reader, &mut written, &mut errors, asked);
    Ok(status == 1 && written.is_empty() && errors.as_slice() == b"bad line 4\n".as_slice())
}

#[test]
fn bad_lines_end_a_session(rt: HostRuntime) -> Result<(), Fail> {
    for line in &BAD_LINES {
        assert!(rt; ends_session(rt.alloc(), line)?, "{line}");
    }
    Ok(())
}

/// Checks the status with a writer that has room for 20 bytes: it takes the first 20 and then fails.
#[test]
fn a_write_that_fails(rt: HostRuntime) -> Result<(), Fail> {
    let asked = Asked {
        question: Sent(1),
        lines: u64::MAX,
    };
    let mut room = [0; 20];
    let mut writer = room.as_mut_slice();
    let mut errors = Vec::new(rt.alloc());
    let mut reader = OPENED.as_bytes();
    let status = replay_over(rt.alloc(), &mut reader, &mut writer, &mut errors, asked);
    assert!(rt; status == 5 && errors.is_empty());
    Ok(())
}

/// Hands out at most three bytes a read. Each read is interrupted first; at the end the next one may fail.
#[derive(Drop)]
struct Reading<'a> {
    rest: &'a [u8],
    is_interrupted: bool,
    fails: bool,
}

impl Read for Reading<'_> {
    fn read(&mut self, buf: &mut [u8]) -> io::Result<usize> {
        self.is_interrupted = !self.is_interrupted;
        if self.is_interrupted {
            return Err(io::Error::from(ErrorKind::Interrupted));
        }
        if self.rest.is_empty() && self.fails {
            return Err(io::Error::from(ErrorKind::BrokenPipe));
        }
        let count = self.rest.len().min(buf.len()).min(3);
        let (piece, rest) = self.rest.split_at(count);
        buf[..count].copy_from_slice(piece);
        self.rest = rest;
        Ok(count)
    }
}

/// Reads a session with interruptions and, if the reader `fails`, a fault at its end. Returns whether viewer 1 was sent `answer`, with
/// this `status` and with `said` said of errors.
fn is_sent(
    alloc: Global,
    fails: bool,
    status: u8,
    answer: &[u8],
    said: &[u8],
) -> Result<bool, AllocError> {
    let asked = Asked {
        question: Sent(1),
        lines: u64::MAX,
    };
    let session = Reading {
        rest: OPENED.as_bytes(),
        is_interrupted: false,
        fails,
    };
    let Ok(mut reader) = BufReader::new(alloc, session) else {
        return Err(AllocError);
    };
    let mut written = Vec::new(alloc);
    let mut errors = Vec::new(alloc);
    let ended = replay_over(alloc, &mut reader, &mut written, &mut errors, asked);
    Ok(ended == status && written.as_slice() == answer && errors.as_slice() == said)
}

#[test]
fn reads_that_are_interrupted_are_tried_again(rt: HostRuntime) -> Result<(), Fail> {
    let alloc = rt.alloc();
    let whole =
        b"RFB 003.008\n\x01\x01\x00\x00\x00\x00\x00\x04\x00\x03 \x18\x00\x01\x00\xff\x00\xff\x00\xff\x10\x08\x00\x00\x00\x00\x00\x00\x00\x04demo";
    assert!(rt; is_sent(alloc, false, 0, whole, b"")?);
    assert!(rt; is_sent(alloc, true, 5, whole, b"read fault\n")?);
    Ok(())
}

/// A screen, and a viewer that has opened.
const OPENED: &str = "\
screen 4 3 demo
connect 1
hear 1 524642203030332e3030380a0101
";

/// A session with a key, a pointer and a text, cut in two, and a piece of a viewer that isn't there; and what is left of it.
const SECRETS: &[u8] =
    b"# by hand\nscreen 4 3 demo\n\nconnect 1\nhear 1 524642203030332e3030380a0101\nhear 1 03000000000000040003\ncut 1\nhear 1 040100000000FF0D\npaint 0 0 1 1 FF8000\nhear 1 050100020001060000000000000268\nhear 1 6903010000000000040003\ncut 1\nhear 7 0301\nclose 1\nhear 1";

const REDACTED: &[u8] =
    b"# by hand\nscreen 4 3 demo\n\nconnect 1\nhear 1 524642203030332e3030380a0101\nhear 1 03000000000000040003\ncut 1\nhear 1 0400000000000000\npaint 0 0 1 1 FF8000\nhear 1 050000000000060000000000000200\nhear 1 0003010000000000040003\ncut 1\nhear 7 0000\nclose 1\n";

/// Four viewers in turn, which say the same in pieces of 1, 3, 7 and 64 bytes: an opening in 3.8, a pixel format, a request, a key, a
/// pointer, a text of two bytes, and a request. And what is left of it.
const IN_TURN: &[u8] =
    b"screen 4 3 demo\nconnect 1\nconnect 2\nconnect 3\nconnect 4\nhear 1 52\nhear 2 524642\nhear 3 52464220303033\n\
    hear 4 524642203030332e3030380a0101000000002018000100ff00ff00ff10080000000003010000000000040003040100000000ff0d050100020001060000000000\n\
    hear 1 46\nhear 2 203030\nhear 3 2e3030380a0101\nhear 4 0002686903000000000000040003\nhear 1 42\nhear 2 332e30\n\
    hear 3 00000000201800\nhear 1 20\nhear 2 30380a\nhear 3 0100ff00ff00ff\nhear 1 30\nhear 2 010100\nhear 3 10080000000003\n\
    hear 1 30\nhear 2 000000\nhear 3 01000000000004\nhear 1 33\nhear 2 201800\nhear 3 00030401000000\nhear 1 2e\nhear 2 0100ff\n\
    hear 3 00ff0d05010002\nhear 1 30\nhear 2 00ff00\nhear 3 00010600000000\nhear 1 30\nhear 2 ff1008\nhear 3 00000268690300\n\
    hear 1 38\nhear 2 000000\nhear 3 00000000000400\nhear 1 0a\nhear 2 000301\nhear 3 03\nhear 1 01\nhear 2 000000\nhear 1 01\n\
    hear 2 000004\nhear 1 00\nhear 2 000304\nhear 1 00\nhear 2 010000\nhear 1 00\nhear 2 0000ff\nhear 1 00\nhear 2 0d0501\n\
    hear 1 20\nhear 2 000200\nhear 1 18\nhear 2 010600\nhear 1 00\nhear 2 000000\nhear 1 01\nhear 2 000002\nhear 1 00\n\
    hear 2 686903\nhear 1 ff\nhear 2 000000\nhear 1 00\nhear 2 000000\nhear 1 ff\nhear 2 040003\nhear 1 00\nhear 1 ff\nhear 1 10\n\
    hear 1 08\nhear 1 00\nhear 1 00\nhear 1 00\nhear 1 00\nhear 1 03\nhear 1 01\nhear 1 00\nhear 1 00\nhear 1 00\nhear 1 00\n\
    hear 1 00\nhear 1 04\nhear 1 00\nhear 1 03\nhear 1 04\nhear 1 01\nhear 1 00\nhear 1 00\nhear 1 00\nhear 1 00\nhear 1 ff\n\
    hear 1 0d\nhear 1 05\nhear 1 01\nhear 1 00\nhear 1 02\nhear 1 00\nhear 1 01\nhear 1 06\nhear 1 00\nhear 1 00\nhear 1 00\n\
    hear 1 00\nhear 1 00\nhear 1 00\nhear 1 02\nhear 1 68\nhear 1 69\nhear 1 03\nhear 1 00\nhear 1 00\nhear 1 00\nhear 1 00\n\
    hear 1 00\nhear 1 00\nhear 1 04\nhear 1 00\nhear 1 03\n";

const IN_TURN_REDACTED: &[u8] =
    b"screen 4 3 demo\nconnect 1\nconnect 2\nconnect 3\nconnect 4\nhear 1 52\nhear 2 524642\nhear 3 52464220303033\n\
    hear 4 524642203030332e3030380a0101000000002018000100ff00ff00ff100800000000030100000000000400030400000000000000050000000000060000000000\n\
    hear 1 46\nhear 2 203030\nhear 3 2e3030380a0101\nhear 4 0002000003000000000000040003\nhear 1 42\nhear 2 332e30\n\
    hear 3 00000000201800\nhear 1 20\nhear 2 30380a\nhear 3 0100ff00ff00ff\nhear 1 30\nhear 2 010100\nhear 3 10080000000003\n\
    hear 1 30\nhear 2 000000\nhear 3 01000000000004\nhear 1 33\nhear 2 201800\nhear 3 00030400000000\nhear 1 2e\nhear 2 0100ff\n\
    hear 3 00000005000000\nhear 1 30\nhear 2 00ff00\nhear 3 00000600000000\nhear 1 30\nhear 2 ff1008\nhear 3 00000200000300\n\
    hear 1 38\nhear 2 000000\nhear 3 00000000000400\nhear 1 0a\nhear 2 000301\nhear 3 03\nhear 1 01\nhear 2 000000\nhear 1 01\n\
    hear 2 000004\nhear 1 00\nhear 2 000304\nhear 1 00\nhear 2 000000\nhear 1 00\nhear 2 000000\nhear 1 00\nhear 2 000500\n\
    hear 1 20\nhear 2 000000\nhear 1 18\nhear 2 000600\nhear 1 00\nhear 2 000000\nhear 1 01\nhear 2 000002\nhear 1 00\n\
    hear 2 000003\nhear 1 ff\nhear 2 000000\nhear 1 00\nhear 2 000000\nhear 1 ff\nhear 2 040003\nhear 1 00\nhear 1 ff\nhear 1 10\n\
    hear 1 08\nhear 1 00\nhear 1 00\nhear 1 00\nhear 1 00\nhear 1 03\nhear 1 01\nhear 1 00\nhear 1 00\nhear 1 00\nhear 1 00\n\
    hear 1 00\nhear 1 04\nhear 1 00\nhear 1 03\nhear 1 04\nhear 1 00\nhear 1 00\nhear 1 00\nhear 1 00\nhear 1 00\nhear 1 00\n\
    hear 1 00\nhear 1 05\nhear 1 00\nhear 1 00\nhear 1 00\nhear 1 00\nhear 1 00\nhear 1 06\nhear 1 00\nhear 1 00\nhear 1 00\n\
    hear 1 00\nhear 1 00\nhear 1 00\nhear 1 02\nhear 1 00\nhear 1 00\nhear 1 03\nhear 1 00\nhear 1 00\nhear 1 00\nhear 1 00\n\
    hear 1 00\nhear 1 00\nhear 1 04\nhear 1 00\nhear 1 03\n";

static BAD_LINES: [&str; 14] = [
    "pant",
    "marks 1 2 3",
    "marks 0 0 1 x",
    "marks 0 0 1 2147483648",
    "schedules 1",
    "docopies",
    "docopies 0 0 1 1 1",
    "desktop 4 3 - 50",
    "screen 4 3 demo",
    "paint 3 3 2 2 ffffff",
    "connect 1",
    "close 2",
    "hear 1",
    "desktop",
];

static CASES: [Case; 23] = [
    Case {
        name: "no line",
        session: b"",
        question: Sent(1),
        lines: u64::MAX,
        answer: b"",
    },
    Case {
        name: "a screen that was cut",
        session: b"screen 4 3",
        question: Drawn,
        lines: u64::MAX,
        answer: b"",
    },
    Case {
        name: "skipped lines alone",
        session: b"# a comment\n\n",
        question: Viewers,
        lines: u64::MAX,
        answer: b"",
    },
    Case {
        name: "an update",
        session: b"screen 4 3 demo\nconnect 1\nhear 1 524642203030332e3030380a0101\nhear 1 03000000000000040003\ncut 1\n",
        question: Sent(1),
        lines: u64::MAX,
        answer: b"RFB 003.008\n\x01\x01\x00\x00\x00\x00\x00\x04\x00\x03 \x18\x00\x01\x00\xff\x00\xff\x00\xff\x10\x08\x00\x00\x00\x00\x00\x00\x00\x04demo\x00\x00\x00\x01\x00\x00\x00\x00\x00\x04\x00\x03\x00\x00\x00\x00\x00\x00\x00\x00\x00\x00\x00\x00\x00\x00\x00\x00\x00\x00\x00\x00\x00\x00\x00\x00\x00\x00\x00\x00\x00\x00\x00\x00\x00\x00\x00\x00\x00\x00\x00\x00\x00\x00\x00\x00\x00\x00\x00\x00\x00\x00\x00\x00",
    },
    Case {
        name: "a last line that was cut",
        session: b"screen 4 3 demo\nconnect 1\nhear 1 524642203030332e3030380a0101\nhear 1 03000000000000040003\ncut 1\ncut 1",
        question: Sent(1),
        lines: u64::MAX,
        answer: b"RFB 003.008\n\x01\x01\x00\x00\x00\x00\x00\x04\x00\x03 \x18\x00\x01\x00\xff\x00\xff\x00\xff\x10\x08\x00\x00\x00\x00\x00\x00\x00\x04demo\x00\x00\x00\x01\x00\x00\x00\x00\x00\x04\x00\x03\x00\x00\x00\x00\x00\x00\x00\x00\x00\x00\x00\x00\x00\x00\x00\x00\x00\x00\x00\x00\x00\x00\x00\x00\x00\x00\x00\x00\x00\x00\x00\x00\x00\x00\x00\x00\x00\x00\x00\x00\x00\x00\x00\x00\x00\x00\x00\x00\x00\x00\x00\x00",
    },
    Case {
        name: "the first two lines",
        session: b"screen 4 3 demo\nconnect 1\nhear 1 524642203030332e3030380a0101\nhear 1 03000000000000040003\ncut 1\n",
        question: Sent(1),
        lines: 2,
        answer: b"RFB 003.008\n",
    },
    Case {
        name: "another viewer",
        session: b"screen 4 3 demo\nconnect 1\nhear 1 524642203030332e3030380a0101\nhear 1 03000000000000040003\ncut 1\n",
        question: Sent(2),
        lines: u64::MAX,
        answer: b"",
    },
    Case {
        name: "a name with a blank",
        session: b"desktop 4 3 612062 50\nconnect 1\nhear 1 524642203030332e3030380a0101\n",
        question: Sent(1),
        lines: u64::MAX,
        answer: b"RFB 003.008\n\x01\x01\x00\x00\x00\x00\x00\x04\x00\x03 \x18\x00\x01\x00\xff\x00\xff\x00\xff\x10\x08\x00\x00\x00\x00\x00\x00\x00\x03a b",
    },
    Case {
        name: "no name",
        session: b"desktop 4 3 - 1\nconnect 1\nhear 1 524642203030332e3030380a0101\n",
        question: Sent(1),
        lines: u64::MAX,
        answer: b"RFB 003.008\n\x01\x01\x00\x00\x00\x00\x00\x04\x00\x03 \x18\x00\x01\x00\xff\x00\xff\x00\xff\x10\x08\x00\x00\x00\x00\x00\x00\x00\x00",
    },
    Case {
        name: "a region of no rectangle",
        session: b"screen 4 3 demo\nconnect 1\nhear 1 524642203030332e3030380a0101\nhear 1 03000000000000040003\ncut 1\nmarks\nhear 1 03010000000000040003\ncut 1\n",
        question: Sent(1),
        lines: u64::MAX,
        answer: b"RFB 003.008\n\x01\x01\x00\x00\x00\x00\x00\x04\x00\x03 \x18\x00\x01\x00\xff\x00\xff\x00\xff\x10\x08\x00\x00\x00\x00\x00\x00\x00\x04demo\x00\x00\x00\x01\x00\x00\x00\x00\x00\x04\x00\x03\x00\x00\x00\x00\x00\x00\x00\x00\x00\x00\x00\x00\x00\x00\x00\x00\x00\x00\x00\x00\x00\x00\x00\x00\x00\x00\x00\x00\x00\x00\x00\x00\x00\x00\x00\x00\x00\x00\x00\x00\x00\x00\x00\x00\x00\x00\x00\x00\x00\x00\x00\x00",
    },
    Case {
        name: "a region of two rectangles",
        session: b"screen 4 3 demo\nconnect 1\nhear 1 524642203030332e3030380a0101\nhear 1 03000000000000040003\ncut 1\nmarks 0 0 1 1 3 2 4 3\nhear 1 03010000000000040003\ncut 1\n",
        question: Sent(1),
        lines: u64::MAX,
        answer: b"RFB 003.008\n\x01\x01\x00\x00\x00\x00\x00\x04\x00\x03 \x18\x00\x01\x00\xff\x00\xff\x00\xff\x10\x08\x00\x00\x00\x00\x00\x00\x00\x04demo\x00\x00\x00\x01\x00\x00\x00\x00\x00\x04\x00\x03\x00\x00\x00\x00\x00\x00\x00\x00\x00\x00\x00\x00\x00\x00\x00\x00\x00\x00\x00\x00\x00\x00\x00\x00\x00\x00\x00\x00\x00\x00\x00\x00\x00\x00\x00\x00\x00\x00\x00\x00\x00\x00\x00\x00\x00\x00\x00\x00\x00\x00\x00\x00\x00\x00\x00\x02\x00\x00\x00\x00\x00\x01\x00\x01\x00\x00\x00\x00\x00\x00\x00\x00\x00\x03\x00\x02\x00\x01\x00\x01\x00\x00\x00\x00\x00\x00\x00\x00",
    },
    Case {
        name: "the least corner",
        session: b"screen 4 3 demo\nconnect 1\nhear 1 524642203030332e3030380a0101\nhear 1 03000000000000040003\ncut 1\nmark -2147483648 0 1 1\nhear 1 03010000000000040003\ncut 1\n",
        question: Sent(1),
        lines: u64::MAX,
        answer: b"RFB 003.008\n\x01\x01\x00\x00\x00\x00\x00\x04\x00\x03 \x18\x00\x01\x00\xff\x00\xff\x00\xff\x10\x08\x00\x00\x00\x00\x00\x00\x00\x04demo\x00\x00\x00\x01\x00\x00\x00\x00\x00\x04\x00\x03\x00\x00\x00\x00\x00\x00\x00\x00\x00\x00\x00\x00\x00\x00\x00\x00\x00\x00\x00\x00\x00\x00\x00\x00\x00\x00\x00\x00\x00\x00\x00\x00\x00\x00\x00\x00\x00\x00\x00\x00\x00\x00\x00\x00\x00\x00\x00\x00\x00\x00\x00\x00\x00\x00\x00\x01\x00\x00\x00\x00\x00\x01\x00\x01\x00\x00\x00\x00\x00\x00\x00\x00",
    },
    Case {
        name: "a copy of two rectangles, from the right",
        session: b"screen 4 3 demo\nconnect 1\nhear 1 524642203030332e3030380a0101\nhear 1 020000020000000100000000\nhear 1 03000000000000040003\ncut 1\npaint 0 0 1 1 ff8000\nhear 1 03010000000000040003\ncut 1\ndocopies 1 0 2 1 3 0 4 1 1 0\nhear 1 03010000000000040003\ncut 1\n",
        question: Sent(1),
        lines: u64::MAX,
        answer: b"RFB 003.008\n\x01\x01\x00\x00\x00\x00\x00\x04\x00\x03 \x18\x00\x01\x00\xff\x00\xff\x00\xff\x10\x08\x00\x00\x00\x00\x00\x00\x00\x04demo\x00\x00\x00\x01\x00\x00\x00\x00\x00\x04\x00\x03\x00\x00\x00\x00\x00\x00\x00\x00\x00\x00\x00\x00\x00\x00\x00\x00\x00\x00\x00\x00\x00\x00\x00\x00\x00\x00\x00\x00\x00\x00\x00\x00\x00\x00\x00\x00\x00\x00\x00\x00\x00\x00\x00\x00\x00\x00\x00\x00\x00\x00\x00\x00\x00\x00\x00\x01\x00\x00\x00\x00\x00\x01\x00\x01\x00\x00\x00\x00\x00\x80\xff\x00\x00\x00\x00\x02\x00\x03\x00\x00\x00\x01\x00\x01\x00\x00\x00\x01\x00\x02\x00\x00\x00\x01\x00\x00\x00\x01\x00\x01\x00\x00\x00\x01\x00\x00\x00\x00",
    },
    Case {
        name: "copies of nothing",
        session: b"screen 4 3 demo\nconnect 1\nhear 1 524642203030332e3030380a0101\nhear 1 03000000000000040003\ncut 1\ndocopies 1 0\nschedules -1 -2147483648\nhear 1 03010000000000040003\ncut 1\n",
        question: Sent(1),
        lines: u64::MAX,
        answer: b"RFB 003.008\n\x01\x01\x00\x00\x00\x00\x00\x04\x00\x03 \x18\x00\x01\x00\xff\x00\xff\x00\xff\x10\x08\x00\x00\x00\x00\x00\x00\x00\x04demo\x00\x00\x00\x01\x00\x00\x00\x00\x00\x04\x00\x03\x00\x00\x00\x00\x00\x00\x00\x00\x00\x00\x00\x00\x00\x00\x00\x00\x00\x00\x00\x00\x00\x00\x00\x00\x00\x00\x00\x00\x00\x00\x00\x00\x00\x00\x00\x00\x00\x00\x00\x00\x00\x00\x00\x00\x00\x00\x00\x00\x00\x00\x00\x00",
    },
    Case {
        name: "what others do is left out",
        session: b"screen 4 3 demo\nconnect 1\nhear 1 524642203030332e3030380a0101\ncut 7\nhear 1 03000000000000040003\ncut 1\n",
        question: Sent(1),
        lines: u64::MAX,
        answer: b"RFB 003.008\n\x01\x01\x00\x00\x00\x00\x00\x04\x00\x03 \x18\x00\x01\x00\xff\x00\xff\x00\xff\x10\x08\x00\x00\x00\x00\x00\x00\x00\x04demo\x00\x00\x00\x01\x00\x00\x00\x00\x00\x04\x00\x03\x00\x00\x00\x00\x00\x00\x00\x00\x00\x00\x00\x00\x00\x00\x00\x00\x00\x00\x00\x00\x00\x00\x00\x00\x00\x00\x00\x00\x00\x00\x00\x00\x00\x00\x00\x00\x00\x00\x00\x00\x00\x00\x00\x00\x00\x00\x00\x00\x00\x00\x00\x00",
    },
    Case {
        name: "what was drawn",
        session: b"screen 4 3 demo\nconnect 1\nhear 1 524642203030332e3030380a0101\npaint 1 0 1 1 ff8000\ncut 7\n",
        question: Drawn,
        lines: u64::MAX,
        answer: b"P6\n4 3\n255\n\x00\x00\x00\xff\x80\x00\x00\x00\x00\x00\x00\x00\x00\x00\x00\x00\x00\x00\x00\x00\x00\x00\x00\x00\x00\x00\x00\x00\x00\x00\x00\x00\x00\x00\x00\x00",
    },
    Case {
        name: "what a viewer saw",
        session: b"screen 4 3 demo\nconnect 1\nhear 1 524642203030332e3030380a0101\npaint 1 0 1 1 ff8000\nhear 1 03000000000000040003\ncut 1\npaint 0 0 1 1 ffffff\n",
        question: Seen(1),
        lines: u64::MAX,
        answer: b"P6\n4 3\n255\n\x00\x00\x00\xff\x80\x00\x00\x00\x00\x00\x00\x00\x00\x00\x00\x00\x00\x00\x00\x00\x00\x00\x00\x00\x00\x00\x00\x00\x00\x00\x00\x00\x00\x00\x00\x00",
    },
    Case {
        name: "a viewer that saw nothing",
        session: b"screen 4 3 demo\nconnect 1\nhear 1 524642203030332e3030380a0101\n",
        question: Seen(2),
        lines: u64::MAX,
        answer: b"P6\n0 0\n255\n",
    },
    Case {
        name: "viewers",
        session: b"screen 4 3 demo\nconnect 1\nhear 1 524642203030332e3030380a0101\nconnect 2\nhear 1 03000000000000040003\ncut 1\nclose 1\nconnect 1\nhear 2 585858585858585858585858\n",
        question: Viewers,
        lines: u64::MAX,
        answer: b"viewer 1 lines 2 7 encoding Raw bits 32 heard 24 updates 1 sent 110 closed\nviewer 2 lines 4 9 encoding Raw bits 32 heard 12 updates 0 sent 12 there after a fault\nviewer 1 lines 8 8 encoding Raw bits 32 heard 0 updates 0 sent 12 there\n",
    },
    Case {
        name: "a session without what is secret",
        session: SECRETS,
        question: Redacted,
        lines: u64::MAX,
        answer: REDACTED,
    },
    Case {
        name: "pieces without what is secret",
        session: IN_TURN,
        question: Redacted,
        lines: u64::MAX,
        answer: IN_TURN_REDACTED,
    },
    Case {
        name: "the first lines without what is secret",
        session: b"desktop 4 3 - 1\nhear 3 ff\nhear 3 -\nconnect 3\n",
        question: Redacted,
        lines: 3,
        answer: b"desktop 4 3 - 1\nhear 3 00\nhear 3 -\n",
    },
    Case {
        name: "no screen yet, without what is secret",
        session: b"# a comment\n\nscreen 4 3",
        question: Redacted,
        lines: u64::MAX,
        answer: b"# a comment\n\n",
    },
];
