//! What a server says (RFC 6143, 7.6 to 7.8), what is drawn and what is heard. A pixel has its letter in the lowest byte.

use crate::tests::reading::drawing::Drawing;
use server_reader::Reader;
use std::alloc::{AllocError, Global};
use std::test::Fail;

/// What a server says of a picture.
#[derive(Clone, Copy)]
struct Said {
    columns: u16,
    rows: u16,
    bytes: &'static [u8],
    drawn: &'static [u8],
    heard: &'static [u8],
}

static SAID: [Said; 9] = [
    // 7.7.1: Raw; the last pixel's top byte says nothing
    Said {
        columns: 6,
        rows: 3,
        bytes: b"\0\0\0\x01\0\x01\0\x01\0\x02\0\x02\0\0\0\0A\0\0\0B\0\0\0C\0\0\0D\0\0\x09",
        drawn: b".......AB....CD...",
        heard: b"u",
    },
    // 7.7.2: a copy onto a part of what it is a copy of
    Said {
        columns: 6,
        rows: 3,
        bytes: b"\0\0\0\x02\0\0\0\0\0\x04\0\x01\0\0\0\0A\0\0\0B\0\0\0C\0\0\0D\0\0\0\0\x01\0\0\0\x04\0\x01\0\0\0\x01\0\0\0\0",
        drawn: b"AABCD.............",
        heard: b"u",
    },
    // 7.7.3: RRE, whose second subrectangle leaves it to the right and below
    Said {
        columns: 6,
        rows: 3,
        bytes: b"\0\0\0\x01\0\x01\0\0\0\x04\0\x03\0\0\0\x02\0\0\0\x02A\0\0\0B\0\0\0\0\x01\0\x01\0\x02\0\x01C\0\0\0\0\x03\0\x01\0\x09\0\x09",
        drawn: b".AAAA..ABBC..AAAC.",
        heard: b"u",
    },
    // 7.7.4: two tiles side by side, to the second of which both colours are carried
    Said {
        columns: 18,
        rows: 1,
        bytes: b"\0\0\0\x01\0\0\0\0\0\x12\0\x01\0\0\0\x05\x0eA\0\0\0B\0\0\0\x01\x20\x20\x08\x01\x10\0",
        drawn: b"AABBBAAAAAAAAAAAAB",
        heard: b"u",
    },
    // 7.7.4: a tile whose subrectangle has a pixel of its own, and a raw tile below
    Said {
        columns: 1,
        rows: 17,
        bytes: b"\0\0\0\x01\0\0\0\0\0\x01\0\x11\0\0\0\x05\x1aA\0\0\0\x01C\0\0\0\x03\x01\x01D\0\0\0",
        drawn: b"AAACCAAAAAAAAAAAD",
        heard: b"u",
    },
    // 7.8.2: a new size
    Said {
        columns: 6,
        rows: 3,
        bytes: b"\0\0\0\x02\0\0\0\0\0\x01\0\x01\0\0\0\0A\0\0\0\0\0\0\0\0\x02\0\x01\xff\xff\xff\x21\0\0\0\x01\0\x01\0\0\0\x01\0\x01\0\0\0\0B\0\0\0",
        drawn: b".B",
        heard: b"suu",
    },
    // 7.6.2 to 7.6.4: a bell, a text, a text of no bytes and two entries of the colour map
    Said {
        columns: 2,
        rows: 1,
        bytes: b"\x02\x03\0\0\0\0\0\0\x05hello\x03\0\0\0\0\0\0\0\x01\0\0\x05\0\x02\x11\x11\x22\x22\x33\x33\x44\x44\x55\x55\x66\x66\0\0\0\x01\0\x01\0\0\0\x01\0\x01\0\0\0\0A\0\0\0",
        drawn: b".A",
        heard: b"bthellotmmu",
    },
    // 7.6.1: updates of no rectangles, and of rectangles without places
    Said {
        columns: 2,
        rows: 1,
        bytes: b"\0\0\0\0\0\0\0\x03\0\x02\0\x01\0\0\0\0\0\0\0\0\0\x01\0\0\0\0\0\x01\0\0\0\x05\0\0\0\0\0\x02\0\0\0\0\0\x02\0\0\0\0A\0\0\0",
        drawn: b"..",
        heard: b"uu",
    },
    // 7.7.1: rows that come in parts
    Said {
        columns: 2,
        rows: 3,
        bytes: b"\0\0\0\x01\0\0\0\0\0\x02\0\x03\0\0\0\0A\0\0\0B\0\0\0C\0\0\0D\0\0\0E\0\0\0F\0\0\0",
        drawn: b"ABCDEF",
        heard: b"u",
    },
];

/// Returns whether a reader that is told the first `cut` bytes, and then the others in pieces of `length` bytes, draws and hears what is
/// said, and is between messages then.
fn shows(alloc: Global, said: &Said, cut: usize, length: usize) -> Result<bool, AllocError> {
    let mut reader = Reader::new(said.columns, said.rows);
    let mut drawing = Drawing::new(alloc, said.columns, said.rows)?;
    let (first, second) = said.bytes.split_at(cut.min(said.bytes.len()));
    let mut fault = drawing.told(&mut reader, first)?;
    for piece in second.chunks(length.max(1)) {
        fault = drawing.told(&mut reader, piece)?;
    }
    Ok(
        fault.is_none()
            && drawing.text() == said.drawn
            && drawing.heard.as_slice() == said.heard
            && reader.is_between_messages(),
    )
}

#[test]
fn what_is_said_is_drawn_however_it_is_cut(rt: HostRuntime) -> Result<(), Fail> {
    for said in SAID.iter() {
        for cut in 0..said.bytes.len() {
            for length in [1, 3, 4, 9, 1000] {
                assert!(rt;
                    shows(rt.alloc(), said, cut, length)?,
                    "{:?} cut at {cut}, then each {length}",
                    said.drawn
                );
            }
        }
    }
    Ok(())
}
