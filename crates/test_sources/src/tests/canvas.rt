//! What a server says (RFC 6143, 7.6 to 7.8). A pixel has its letter in the lowest byte, and a place that is 0 is a dot.

use connections::{Canvas, Config, Connections, History, Listed, Screen, ScreenError, Transport};
use source_picture::{DrawEnd, Request, SourcePicture};
use std::alloc::{AllocError, Global};
use std::io;
use std::test::Fail;

/// A transport that is at its end.
#[derive(Drop)]
struct Nobody;

impl Transport for Nobody {
    fn receive(&mut self, _room: &mut [u8]) -> io::Result<usize> {
        Ok(0)
    }

    fn send(&mut self, _bytes: &[u8]) -> io::Result<usize> {
        Ok(0)
    }
}

/// What a server says of a picture, what is drawn, and what is requested next where its first request was made before.
#[derive(Clone, Copy)]
struct Said {
    size: (u16, u16),
    bytes: &'static [u8],
    drawn: &'static [u8],
    request: Request,
}

static SAID: [Said; 8] = [
    // 7.7.1: Raw; the last pixel's top byte says nothing
    Said {
        size: (6, 3),
        bytes: b"\0\0\0\x01\0\x01\0\x01\0\x02\0\x02\0\0\0\0A\0\0\0B\0\0\0C\0\0\0D\0\0\x09",
        drawn: b".......AB....CD...",
        request: Request::Changes,
    },
    // 7.7.2: a copy onto a part of what it is a copy of
    Said {
        size: (6, 3),
        bytes: b"\0\0\0\x02\0\0\0\0\0\x04\0\x01\0\0\0\0A\0\0\0B\0\0\0C\0\0\0D\0\0\0\0\x01\0\0\0\x04\0\x01\0\0\0\x01\0\0\0\0",
        drawn: b"AABCD.............",
        request: Request::Changes,
    },
    // 7.7.3: RRE, whose second subrectangle leaves it to the right and below
    Said {
        size: (6, 3),
        bytes: b"\0\0\0\x01\0\x01\0\0\0\x04\0\x03\0\0\0\x02\0\0\0\x02A\0\0\0B\0\0\0\0\x01\0\x01\0\x02\0\x01C\0\0\0\0\x03\0\x01\0\x09\0\x09",
        drawn: b".AAAA..ABBC..AAAC.",
        request: Request::Changes,
    },
    // 7.7.4: two tiles side by side, to the second of which both colours are carried
    Said {
        size: (18, 1),
        bytes: b"\0\0\0\x01\0\0\0\0\0\x12\0\x01\0\0\0\x05\x0eA\0\0\0B\0\0\0\x01\x20\x20\x08\x01\x10\0",
        drawn: b"AABBBAAAAAAAAAAAAB",
        request: Request::Changes,
    },
    // 7.7.4: four tiles of a background each, two of them of one row
    Said {
        size: (18, 17),
        bytes: b"\0\0\0\x01\0\0\0\0\0\x12\0\x11\0\0\0\x05\x02A\0\0\0\x02B\0\0\0\x02C\0\0\0\x02D\0\0\0",
        drawn: b"AAAAAAAAAAAAAAAABBAAAAAAAAAAAAAAAABBAAAAAAAAAAAAAAAABBAAAAAAAAAAAAAAAABBAAAAAAAAAAAAAAAABBAAAAAAAAAAAAAAAABBAAAAAAAAAAAAAAAABBAAAAAAAAAAAAAAAABBAAAAAAAAAAAAAAAABBAAAAAAAAAAAAAAAABBAAAAAAAAAAAAAAAABBAAAAAAAAAAAAAAAABBAAAAAAAAAAAAAAAABBAAAAAAAAAAAAAAAABBAAAAAAAAAAAAAAAABBAAAAAAAAAAAAAAAABBCCCCCCCCCCCCCCCCDD",
        request: Request::Changes,
    },
    // small areas apart, one above the other, over one another, and a copy of them
    Said {
        size: (6, 3),
        bytes: b"\0\0\0\x05\0\0\0\0\0\x02\0\x01\0\0\0\0A\0\0\0B\0\0\0\0\x03\0\0\0\x01\0\x01\0\0\0\0C\0\0\0\0\0\0\x01\0\x02\0\x01\0\0\0\0D\0\0\0E\0\0\0\0\x01\0\x01\0\x01\0\x01\0\0\0\0F\0\0\0\0\x02\0\x01\0\x02\0\x02\0\0\0\x01\0\0\0\0",
        drawn: b"AB.C..DFAB....DF..",
        request: Request::Changes,
    },
    // 7.8.2: a new size, of which nothing came
    Said {
        size: (6, 3),
        bytes: b"\0\0\0\x02\0\0\0\0\0\x01\0\x01\0\0\0\0A\0\0\0\0\0\0\0\0\x02\0\x01\xff\xff\xff\x21",
        drawn: b"..",
        request: Request::All,
    },
    // 7.6.3, 7.6.4: a bell and a text, which are no update
    Said {
        size: (2, 1),
        bytes: b"\x02\x03\0\0\0\0\0\0\x05hello",
        drawn: b"..",
        request: Request::None,
    },
];

fn config(alloc: Global, (width, height): (u16, u16)) -> Result<Config, AllocError> {
    Ok(Config {
        width: u32::from(width),
        height: u32::from(height),
        name: Listed::from_slice(alloc, b"demo")?,
        rects_per_update: 50,
        history: History::NotKept,
    })
}

/// Returns a picture's letters, row by row.
fn letters(alloc: Global, screen: &Screen) -> Result<Vec<u8>, AllocError> {
    let mut text = Vec::new(alloc);
    for y in 0..screen.height() {
        for x in 0..screen.width() {
            let colour = screen.colour(x, y).unwrap_or(0);
            text.push(if colour == 0 {
                b'.'
            } else {
                (colour & 0xff) as u8
            })?;
        }
    }
    Ok(text)
}

/// Draws bytes in pieces of `length`. Returns whether nothing was left of them.
fn draw_all(
    picture: &mut SourcePicture,
    canvas: &mut Canvas,
    bytes: &[u8],
    length: usize,
) -> Result<bool, DrawEnd> {
    let mut left = 0usize;
    for piece in bytes.chunks(length.max(1)) {
        left = left.saturating_add(picture.draw(canvas, piece)?.len());
    }
    Ok(left == 0)
}

/// Returns whether what is said is drawn, and what is requested.
fn is_drawn(
    alloc: Global,
    canvas: &mut Canvas,
    said: &Said,
    length: usize,
) -> Result<bool, ScreenError> {
    let mut picture = SourcePicture::new(alloc, said.size.0, said.size.1);
    let is_new = picture.request() == Request::All && picture.is_owing();
    picture.asked();
    let is_whole = matches!(draw_all(&mut picture, canvas, said.bytes, length), Ok(true));
    let text = letters(alloc, canvas.screen())?;
    Ok(is_new && is_whole && text.as_slice() == said.drawn && picture.request() == said.request)
}

fn shows(alloc: Global, said: &Said, length: usize) -> Result<bool, ScreenError> {
    let mut connections: Connections<Nobody> = Connections::new(alloc, config(alloc, said.size)?)?;
    is_drawn(alloc, connections.canvas(), said, length)
}

#[test]
fn what_is_said_is_drawn_however_it_is_cut(rt: HostRuntime) -> Result<(), Fail> {
    for said in SAID.iter() {
        for length in [1, 3, 4, 9, 1000] {
            assert!(rt;
                shows(rt.alloc(), said, length)?,
                "{:?} in pieces of {length}",
                said.drawn
            );
        }
    }
    Ok(())
}

/// Returns how bytes of a picture of 2 columns and 1 row end: `f` for a fault, `s` for a size, `m` for memory, `-` for no end, and
/// `+` where some of them are left.
fn end_on(alloc: Global, canvas: &mut Canvas, bytes: &[u8]) -> u8 {
    let mut picture = SourcePicture::new(alloc, 2, 1);
    match picture.draw(canvas, bytes) {
        Ok(rest) if rest.is_empty() => b'-',
        Ok(_) => b'+',
        Err(DrawEnd::Fault(_)) => b'f',
        Err(DrawEnd::Size) => b's',
        Err(DrawEnd::Memory) => b'm',
    }
}

fn end(alloc: Global, bytes: &[u8]) -> Result<u8, ScreenError> {
    let mut connections: Connections<Nobody> = Connections::new(alloc, config(alloc, (2, 1))?)?;
    Ok(end_on(alloc, connections.canvas(), bytes))
}

#[test]
fn a_source_ends_by_what_it_says(rt: HostRuntime) -> Result<(), Fail> {
    assert!(rt; end(rt.alloc(), b"\x02")? == b'-');
    assert!(rt; end(rt.alloc(), b"\x09")? == b'f');
    // 7.8.2: no columns, and too many
    assert!(rt; end(rt.alloc(), b"\0\0\0\x01\0\0\0\0\0\0\0\x01\xff\xff\xff\x21")? == b's');
    assert!(rt;
        end(
            rt.alloc(),
            b"\0\0\0\x01\0\0\0\0\x20\x01\0\x01\xff\xff\xff\x21"
        )? == b's'
    );
    Ok(())
}

/// A source of 256 columns and rows fills all of them, three times in one update (RFC 6143, 7.7.3).
static FILLS: &[u8] =
    b"\0\0\0\x03\0\0\0\0\x01\0\x01\0\0\0\0\x02\0\0\0\0A\0\0\0\0\0\0\0\x01\0\x01\0\0\0\0\x02\0\0\0\0B\0\0\0\0\0\0\0\x01\0\x01\0\0\0\0\x02\0\0\0\0C\0\0\0";

/// Draws a share of bytes. Returns the rest, and the first place's letter.
fn share<'a>(
    picture: &mut SourcePicture,
    canvas: &mut Canvas,
    bytes: &'a [u8],
) -> Result<(&'a [u8], u32), DrawEnd> {
    let rest = picture.draw(canvas, bytes)?;
    Ok((rest, canvas.screen().colour(0, 0).unwrap_or(0)))
}

/// Returns whether each of three shares has a fill, and changes are requested behind the third.
fn are_drawn_in_shares(alloc: Global, canvas: &mut Canvas) -> Result<bool, DrawEnd> {
    let mut picture = SourcePicture::new(alloc, 256, 256);
    picture.asked();
    let (rest, first) = share(&mut picture, canvas, FILLS)?;
    let (end, second) = share(&mut picture, canvas, rest)?;
    let is_early = picture.request() != Request::None;
    let (none, third) = share(&mut picture, canvas, end)?;
    let are_left = rest.len() == 40 && end.len() == 20 && none.is_empty();
    let are_shown = first == 65 && second == 66 && third == 67;
    Ok(are_left && are_shown && !is_early && picture.request() == Request::Changes)
}

#[test]
fn a_large_piece_is_drawn_in_shares(rt: HostRuntime) -> Result<(), Fail> {
    let alloc = rt.alloc();
    let mut connections: Connections<Nobody> = Connections::new(alloc, config(alloc, (256, 256))?)?;
    let drawn = are_drawn_in_shares(alloc, connections.canvas());
    assert!(rt; matches!(drawn, Ok(true)));
    Ok(())
}
