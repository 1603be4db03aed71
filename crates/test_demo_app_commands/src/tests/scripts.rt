// What no transcript says: readers, writers and memory that fail, a script's last line, and the longest script. Scripts with their
// answers are in `examples`.

use demo_app::play_over;
use std::alloc::Global;
use std::io;
use std::io::{BufWriter, Read, Write};

// Two viewers are sent a screen and then a copy, the one by CopyRect, the other one its pixels: the script that `vncdemo` is run on.
const SCRIPT: &[u8] = b"\
screen 4 1 demo
paint 0 0 4 1 000001000002000003000004
connect 1
connect 2
hear 1 524642203030332e3030380a0101
hear 2 524642203030332e3030380a0101
hear 1 020000020000000100000000
hear 1 03000000000000040001
hear 2 03000000000000040001
cut 1
cut 2
docopy 1 0 4 1 1 0
hear 1 03010000000000040001
hear 2 03010000000000040001
cut 1
cut 2
";

const ANSWERS: &[u8] = b"\
ok
ok
connect 1 524642203030332e3030380a
connect 2 524642203030332e3030380a
hear 1 010100000000000400012018000100ff00ff00ff1008000000000000000464656d6f
hear 2 010100000000000400012018000100ff00ff00ff1008000000000000000464656d6f
hear 1 -
hear 1 -
hear 2 -
cut 1 0000000100000000000400010000000001000000020000000300000004000000
cut 2 0000000100000000000400010000000001000000020000000300000004000000
ok
hear 1 -
hear 2 -
cut 1 0000000100010000000300010000000100000000
cut 2 00000001000100000003000100000000010000000200000003000000
";

// What a reader gives: bytes, and then a comment without an end, so many bytes of it and so many a read; then it is at its end, or
// fails. What is printed then, and the status.
#[derive(Clone, Copy)]
struct Tape {
    bytes: &'static [u8],
    comment: usize,
    piece: usize,
    fails: bool,
    printed: &'static [u8],
    status: u8,
}

// The most bytes that a script has.
const MOST: usize = 1 << 24;

const WHOLE: Tape = Tape {
    bytes: SCRIPT,
    comment: 0,
    piece: 1,
    fails: false,
    printed: ANSWERS,
    status: 0,
};

// A read fails once the script was read.
const FAILING: Tape = Tape {
    fails: true,
    printed: b"read fault\n",
    status: 5,
    ..WHOLE
};

static TAPES: [Tape; 11] = [
    WHOLE,
    // a script that ends early has written out all its answers
    Tape {
        bytes: b"screen 4 3 demo\nconnect 1\npant 1\nbell\n",
        printed: b"ok\nconnect 1 524642203030332e3030380a\nbad line 3\n",
        status: 1,
        ..WHOLE
    },
    // the last line lacks its line feed, ends with it, and is empty
    Tape {
        bytes: b"screen 4 1 demo\ncut 2",
        printed: b"ok\nrefused 7 NoViewer\n",
        ..WHOLE
    },
    Tape {
        bytes: b"screen 4 1 demo\ncut 2\n",
        printed: b"ok\nrefused 7 NoViewer\n",
        ..WHOLE
    },
    Tape {
        bytes: b"screen 4 1 demo\n\n",
        printed: b"ok\n",
        ..WHOLE
    },
    FAILING,
    // at once, and after some bytes
    Tape {
        bytes: b"",
        ..FAILING
    },
    Tape {
        bytes: b"",
        comment: 1,
        ..FAILING
    },
    Tape {
        bytes: b"",
        comment: 100,
        ..FAILING
    },
    // the longest script, and one that is too long by a byte, of which no more is read
    Tape {
        bytes: b"",
        comment: MOST,
        piece: MOST,
        printed: b"",
        ..WHOLE
    },
    Tape {
        bytes: b"",
        comment: MOST + 1,
        printed: b"too long\n",
        ..FAILING
    },
];

// The reader of a tape.
#[derive(Drop)]
struct Reading<'a> {
    tape: &'a Tape,
    rest: &'a [u8],
    comment: usize,
    reads: usize,
}

impl Read for Reading<'_> {
    fn read(&mut self, buf: &mut [u8]) -> io::Result<usize> {
        self.reads = self.reads.saturating_add(1);
        let count = self.rest.len().min(buf.len());
        if count > 0 {
            let (piece, rest) = self.rest.split_at(count);
            buf[..count].copy_from_slice(piece);
            self.rest = rest;
            return Ok(count);
        }
        let count = self.comment.min(self.tape.piece).min(buf.len());
        if count == 0 && self.tape.fails {
            return Err(io::Error::from(io::ErrorKind::BrokenPipe));
        }
        buf[..count].fill(b'#');
        self.comment -= count;
        Ok(count)
    }
}

// Whether a tape is played as it says, through a buffer, as the program writes, and read no further than it is to be.
fn is_played(alloc: Global, tape: &Tape) -> bool {
    let mut reader = Reading {
        tape,
        rest: tape.bytes,
        comment: tape.comment,
        reads: 0,
    };
    let Ok(mut writer) = BufWriter::new(alloc, Vec::new(alloc)) else {
        return false;
    };
    let status = play_over(alloc, &mut reader, &mut writer);
    let (out, unwritten) = writer.into_parts();
    status == tape.status
        && out.as_slice() == tape.printed
        && unwritten.is_empty()
        && reader.reads <= MOST + 1
}

#[test]
fn scripts_are_played_as_they_say(rt: HostRuntime) {
    for (number, tape) in (1usize..).zip(&TAPES) {
        assert!(rt; is_played(rt.alloc(), tape), "tape {number}");
    }
}

/// Takes so many bytes, at most three a call, and then fails. It may be that it can't be flushed.
#[derive(Drop)]
pub struct Room {
    pub taken: Vec<u8>,
    pub room: usize,
    pub flushes: bool,
}

impl Write for Room {
    fn write(&mut self, buf: &[u8]) -> io::Result<usize> {
        if self.room == 0 {
            return Err(io::Error::from(io::ErrorKind::BrokenPipe));
        }
        let count = buf.len().min(self.room).min(3);
        self.taken.extend_from_slice(&buf[..count])?;
        self.room -= count;
        Ok(count)
    }

    fn flush(&mut self) -> io::Result<()> {
        if self.flushes {
            return Ok(());
        }
        Err(io::Error::from(io::ErrorKind::BrokenPipe))
    }
}

// Whether a script ends with status 5, and these bytes were taken until then.
fn ends_at(alloc: Global, mut script: &[u8], room: usize, flushes: bool, wanted: &[u8]) -> bool {
    let mut writer = Room {
        taken: Vec::new(alloc),
        room,
        flushes,
    };
    play_over(alloc, &mut script, &mut writer) == 5 && writer.taken.as_slice() == wanted
}

#[test]
fn a_writer_that_fails_or_is_not_flushed(rt: HostRuntime) {
    for room in 0..ANSWERS.len() {
        let wanted = ANSWERS.get(..room).unwrap_or_default();
        assert!(rt;
            ends_at(rt.alloc(), SCRIPT, room, true, wanted),
            "at {room}"
        );
    }
    assert!(rt; ends_at(rt.alloc(), b"# nothing", 100, false, b""));
}

// The script was played, or ended where a growth was refused: whole lines, and then `out of memory`.
#[test]
fn whichever_growth_is_refused_the_script_ends(rt: HostRuntime) {
    let Ok(mut out) = Vec::with_capacity(rt.alloc(), 1 << 12) else {
        return;
    };
    let mut script = SCRIPT;
    let status = play_over(rt.alloc(), &mut script, &mut out);
    let is_played = match out.strip_suffix(b"out of memory\n") {
        Some(printed) => status == 3
            && ANSWERS.starts_with(printed)
            && matches!(printed, [] | [.., b'\n']),
        None => status == 0 && out.as_slice() == ANSWERS,
    };
    assert!(rt; is_played);
}
