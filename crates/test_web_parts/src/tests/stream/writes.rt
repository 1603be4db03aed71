//! What a server sends, by RFC 6455, sections 5.2 and 5.7.

ghost use Rattle.std.specs.Prelude.{◌≤◌, length, IfOk};

use crate::tests::stream::line::Line;
use std::io;
use std::io::{ErrorKind, Read, Write};
use std::test::Fail;
use web_stream::WebStream;

/// A ping of a client.
static PING: [u8; 7] = *b"\x89\x81\x37\xfa\x21\x3d\x7f";

/// Writes once. Returns how many bytes were taken, none where the stream would wait or is to be written again.
fn write_once(stream: &mut WebStream<Line>, bytes: &[u8]) -> io::Result<usize>
    ensures { IfOk result (λ count. count ≤ length bytes.now) }
{
    match stream.write(bytes) {
        Ok(count) => Ok(count),
        Err(error) => match error.kind() {
            ErrorKind::WouldBlock | ErrorKind::Interrupted => Ok(0),
            _ => Err(error),
        },
    }
}

/// Writes bytes to their end.
fn write_whole(stream: &mut WebStream<Line>, bytes: &[u8]) -> io::Result<()> {
    let mut rest = bytes;
    for _writes in 0..200_000u32 {
        if rest.is_empty() {
            return Ok(());
        }
        let count = write_once(stream, rest)?;
        rest = &rest[count..];
    }
    Err(io::Error::from(ErrorKind::WriteZero))
}

/// Sizes of writes, each with the head that it gets: section 5.7 has those of 256 and 65,536 bytes.
static HEADS: [(usize, &[u8]); 6] = [
    (5, b"\x82\x05"),
    (125, b"\x82\x7d"),
    (126, b"\x82\x7e\x00\x7e"),
    (256, b"\x82\x7e\x01\x00"),
    (65_535, b"\x82\x7e\xff\xff"),
    (65_536, b"\x82\x7f\x00\x00\x00\x00\x00\x01\x00\x00"),
];

#[test]
fn heads_have_the_shortest_form(rt: HostRuntime) -> Result<(), Fail> {
    for (size, head) in HEADS.iter() {
        let bytes = vec![in rt.alloc(); 7u8; *size]?;
        let mut stream = WebStream::new(Line::new(rt.alloc(), b"", 0), 0);
        write_whole(&mut stream, &bytes)?;
        let written = stream.get_ref().written.as_slice();
        assert_eq!(rt;
            written.strip_prefix(*head),
            Some(bytes.as_slice()),
            "{size}"
        );
    }
    Ok(())
}

#[test]
fn a_pong_waits_for_the_frame_on_its_way(rt: HostRuntime) -> Result<(), Fail> {
    for takes in 1..9usize {
        let mut line = Line::new(rt.alloc(), &PING, 0);
        line.takes = takes;
        let mut stream = WebStream::new(line, 0);
        let mut room = [0; 9];
        let hello = b"Hello".as_slice();
        let first = write_once(&mut stream, hello)?;
        let _none = stream.read(&mut room);
        assert_eq!(rt; stream.owes(), first == 5, "{takes}");
        write_whole(&mut stream, &hello[first..])?;
        for _flushes in 0..9u8 {
            let _flushed = stream.flush();
        }
        assert_eq!(rt;
            stream.get_ref().written.as_slice(),
            b"\x82\x05Hello\x8a\x01H".as_slice(),
            "{takes}"
        );
    }
    Ok(())
}

#[test]
fn a_close_of_the_server_ends_both_ways(rt: HostRuntime) -> Result<(), Fail> {
    let mut stream = WebStream::new(Line::new(rt.alloc(), &PING, 0), 0);
    stream.close(1001);
    assert!(rt; stream.owes());
    stream.flush()?;
    let mut room = [0; 9];
    assert_eq!(rt; stream.read(&mut room)?, 0);
    assert!(rt; stream.write(b"Hello").is_err());
    assert_eq!(rt;
        stream.get_ref().written.as_slice(),
        b"\x88\x02\x03\xe9".as_slice()
    );
    Ok(())
}

/// What a client sends last, a byte of payload before each, and the close that answers it: a close, a text frame, a frame without a mask.
static LAST: [(&[u8], &[u8]); 3] = [
    (
        b"\x82\x81\x37\xfa\x21\x3d\x7f\x88\x80\x37\xfa\x21\x3d",
        b"\x88\x00",
    ),
    (
        b"\x82\x81\x37\xfa\x21\x3d\x7f\x81\x81\x37\xfa\x21\x3d\x7f",
        b"\x88\x02\x03\xeb",
    ),
    (b"\x82\x81\x37\xfa\x21\x3d\x7f\x82\x05", b"\x88\x02\x03\xea"),
];

/// Reads once, writes five bytes to a line that takes few at once, and then what waits. Returns whether these went in this order, and
/// whether nothing goes behind the close.
fn closes_behind(mut line: Line, takes: usize, close: &[u8]) -> io::Result<bool> {
    line.takes = takes;
    let mut stream = WebStream::new(line, 0);
    let mut room = [0; 40];
    let read = stream.read(&mut room)?;
    write_whole(&mut stream, b"Hello")?;
    for _flushes in 0..9u8 {
        let _flushed = stream.flush();
    }
    let written = stream.get_ref().written.as_slice();
    let is_so = written.strip_prefix(b"\x82\x05Hello".as_slice()) == Some(close);
    Ok(read == 1 && is_so && stream.write(b"Hello").is_err())
}

#[test]
fn an_answer_goes_before_the_close(rt: HostRuntime) -> Result<(), Fail> {
    for (bytes, close) in LAST.iter() {
        for takes in 1..9usize {
            let line = Line::new(rt.alloc(), bytes, 0);
            assert!(rt; closes_behind(line, takes, close)?, "{takes}");
        }
    }
    Ok(())
}
