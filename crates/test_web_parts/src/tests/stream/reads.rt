//! What a client sends, by RFC 6455, sections 5 and 7. The masking key is that of section 5.7, 37 fa 21 3d.

use crate::tests::stream::line::Line;
use std::alloc::Global;
use std::io;
use std::io::{ErrorKind, Read, Write};
use std::test::Fail;
use web_stream::WebStream;

/// Bytes of a client, the payload that they give, what answers them, and whether the frames end by a fault.
static CLIENTS: [(&[u8], &[u8], &[u8], bool); 25] = [
    // 5.7: a message of one frame, as binary, and in two fragments
    (
        b"\x82\x85\x37\xfa\x21\x3d\x7f\x9f\x4d\x51\x58",
        b"Hello",
        b"",
        false,
    ),
    (
        b"\x02\x83\x37\xfa\x21\x3d\x7f\x9f\x4d\x80\x82\x37\xfa\x21\x3d\x5b\x95",
        b"Hello",
        b"",
        false,
    ),
    // a ping within a message, and its pong
    (
        b"\x02\x83\x37\xfa\x21\x3d\x7f\x9f\x4d\x89\x85\x37\xfa\x21\x3d\x7f\x9f\x4d\x51\x58\x80\x82\x37\xfa\x21\x3d\x5b\x95",
        b"Hello",
        b"\x8a\x05Hello",
        false,
    ),
    // a ping of no bytes, and two pings of which the later is answered
    (b"\x89\x80\x37\xfa\x21\x3d", b"", b"\x8a\x00", false),
    (
        b"\x89\x80\x37\xfa\x21\x3d\x89\x81\x37\xfa\x21\x3d\x7f",
        b"",
        b"\x8a\x01H",
        false,
    ),
    // a pong that nobody asked for, and frames of no bytes
    (
        b"\x8a\x81\x37\xfa\x21\x3d\x7f\x82\x81\x37\xfa\x21\x3d\x7f",
        b"H",
        b"",
        false,
    ),
    (
        b"\x02\x80\x37\xfa\x21\x3d\x00\x80\x37\xfa\x21\x3d\x80\x81\x37\xfa\x21\x3d\x7f",
        b"H",
        b"",
        false,
    ),
    // 5.5.1: closes, behind which nothing is read
    (
        b"\x88\x80\x37\xfa\x21\x3d\x82\x81\x37\xfa\x21\x3d\x7f",
        b"",
        b"\x88\x00",
        false,
    ),
    (
        b"\x82\x81\x37\xfa\x21\x3d\x7f\x88\x82\x37\xfa\x21\x3d\x34\x12",
        b"H",
        b"\x88\x02\x03\xe8",
        false,
    ),
    (
        b"\x88\x83\x37\xfa\x21\x3d\x34\x12\x40",
        b"",
        b"\x88\x02\x03\xe8",
        false,
    ),
    // 5.1: no mask
    (b"\x82\x05Hello", b"", b"\x88\x02\x03\xea", true),
    (b"\x89\x00", b"", b"\x88\x02\x03\xea", true),
    // 5.2: a reserved bit, and an opcode that is none
    (b"\xc2\x80\x37\xfa\x21\x3d", b"", b"\x88\x02\x03\xea", true),
    (b"\x83\x80\x37\xfa\x21\x3d", b"", b"\x88\x02\x03\xea", true),
    (b"\x8b\x80\x37\xfa\x21\x3d", b"", b"\x88\x02\x03\xea", true),
    // 5.2: lengths that are not in their shortest form, and one of 2^63
    (
        b"\x82\xfe\x00\x7d\x37\xfa\x21\x3d",
        b"",
        b"\x88\x02\x03\xea",
        true,
    ),
    (
        b"\x82\xff\x00\x00\x00\x00\x00\x00\xff\xff\x37\xfa\x21\x3d",
        b"",
        b"\x88\x02\x03\xea",
        true,
    ),
    (
        b"\x82\xff\x80\x00\x00\x00\x00\x00\x00\x00\x37\xfa\x21\x3d",
        b"",
        b"\x88\x02\x03\xea",
        true,
    ),
    // 5.4: a continuation of nothing, and a message within another one
    (b"\x80\x80\x37\xfa\x21\x3d", b"", b"\x88\x02\x03\xea", true),
    (
        b"\x02\x81\x37\xfa\x21\x3d\x7f\x82\x80\x37\xfa\x21\x3d",
        b"H",
        b"\x88\x02\x03\xea",
        true,
    ),
    // 5.5: a fragment of a ping, and a ping of 126 bytes
    (b"\x09\x80\x37\xfa\x21\x3d", b"", b"\x88\x02\x03\xea", true),
    (
        b"\x89\xfe\x00\x7e\x37\xfa\x21\x3d",
        b"",
        b"\x88\x02\x03\xea",
        true,
    ),
    // 5.6: a text
    (
        b"\x81\x85\x37\xfa\x21\x3d\x7f\x9f\x4d\x51\x58",
        b"",
        b"\x88\x02\x03\xeb",
        true,
    ),
    // 7.4: the code 1005, and a reason that is not UTF-8
    (
        b"\x88\x82\x37\xfa\x21\x3d\x34\x17",
        b"",
        b"\x88\x02\x03\xea",
        true,
    ),
    (
        b"\x88\x83\x37\xfa\x21\x3d\x34\x12\xde",
        b"",
        b"\x88\x02\x03\xef",
        true,
    ),
];

/// Reads to the end or to a fault. Returns whether it was the end.
fn read_all(stream: &mut WebStream<Line>, payload: &mut Vec<u8>) -> io::Result<bool> {
    let mut room = [0; 3];
    for _reads in 0..200u32 {
        match stream.read(&mut room) {
            Ok(0) => return Ok(true),
            Ok(count) => payload.extend_from_slice(&room[..count])?,
            Err(error) => {
                if error.kind() != ErrorKind::Interrupted {
                    return Ok(false);
                }
            }
        }
    }
    Ok(false)
}

/// Reads a client's bytes from this line. Returns whether payload, answer and end are these.
fn reads_so(
    alloc: Global,
    line: Line,
    payload: &[u8],
    answer: &[u8],
    is_fault: bool,
) -> io::Result<bool> {
    let mut stream = WebStream::new(line, 0);
    let mut given = Vec::new(alloc);
    let is_end = read_all(&mut stream, &mut given)?;
    stream.flush()?;
    Ok(
        given.as_slice() == payload
            && stream.get_ref().written.as_slice() == answer
            && is_end != is_fault
            && stream.fault().is_some() == is_fault
            && !stream.owes(),
    )
}

#[test]
fn frames_are_read_however_they_are_cut(rt: HostRuntime) -> Result<(), Fail> {
    for (bytes, payload, answer, is_fault) in CLIENTS.iter() {
        for cut in 0..bytes.len() {
            let line = Line::new(rt.alloc(), *bytes, cut);
            assert!(rt;
                reads_so(rt.alloc(), line, *payload, *answer, *is_fault)?,
                "{bytes:?} cut at {cut}"
            );
        }
    }
    Ok(())
}

#[test]
fn frames_are_read_byte_by_byte(rt: HostRuntime) -> Result<(), Fail> {
    for (bytes, payload, answer, is_fault) in CLIENTS.iter() {
        let mut line = Line::new(rt.alloc(), *bytes, 0);
        line.gives = 1;
        assert!(rt;
            reads_so(rt.alloc(), line, *payload, *answer, *is_fault)?,
            "{bytes:?}"
        );
    }
    Ok(())
}
