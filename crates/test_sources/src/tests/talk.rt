ghost use Rattle.std.specs.Prelude.{◌<◌};

use listed::Listed;
use messages::Input;
use source_talk::{Heard, MOST_WAITING, Naming, Opening, OpeningEnd, Outbox};
use std::alloc::{AllocError, Global};
use std::test::Fail;

// What was heard, as a text.
fn text_of(alloc: Global, opening: &Opening, heard: Heard) -> Result<String, AllocError> {
    match heard {
        Heard::Awaits(_) => String::from_str(alloc, "awaits"),
        Heard::Open(version, init) => {
            let (width, height, name) = (init.width, init.height, init.name);
            format!(in alloc; "{version:?} {width} by {height}, {name}")
        }
        Heard::Ends(_, OpeningEnd::NoVersion) => String::from_str(alloc, "no version"),
        Heard::Ends(_, OpeningEnd::SecurityType(kind)) => format!(in alloc; "type {kind}"),
        Heard::Ends(_, OpeningEnd::SecurityTypes { place, count }) => {
            let kinds = opening.said(place, count);
            format!(in alloc; "types {kinds:?}")
        }
        Heard::Ends(_, OpeningEnd::Refused { place, count }) => {
            let reason = str::from_utf8(opening.said(place, count)).unwrap_or("no text");
            format!(in alloc; "refused: {reason}")
        }
    }
}

// All that waits in an outbox.
fn bytes_of(alloc: Global, out: &mut Outbox) -> Result<Vec<u8>, Fail> {
    let mut bytes = Vec::new(alloc);
    out.write(&mut bytes)?;
    Ok(bytes)
}

// What an opening says in pieces of a length, and puts into an outbox as answers.
fn hear_in(
    alloc: Global,
    said: &[u8],
    length: usize,
    out: &mut Outbox,
) -> Result<String, AllocError>
    requires { 0 < length }
{
    let mut opening = Opening::new(alloc);
    let mut text = String::from_str(alloc, "awaits")?;
    for piece in said.chunks(length) {
        let (_, heard) = opening.hear(piece)?;
        opening.answer(out)?;
        text = text_of(alloc, &opening, heard)?;
        if !heard.is_awaited() {
            break;
        }
    }
    Ok(text)
}

// What is said, what that comes to, and what it is answered.
const OPENINGS: [(&[u8], &str, &[u8]); 15] = [
    (b"RFB 003.00", "awaits", b""),
    (b"RFB 003.008\n", "awaits", b"RFB 003.008\n"),
    (
        b"RFB 003.008\n\x02\x10\x01\0\0\0\0\0\x04\0\x03................\0\0\0\x05",
        "V38 4 by 3, 5",
        b"RFB 003.008\n\x01\x01",
    ),
    (
        b"RFB 003.007\n\x01\x01\0\x04\0\x03................\0\0\0\0",
        "V37 4 by 3, 0",
        b"RFB 003.007\n\x01\x01",
    ),
    (
        b"RFB 003.003\n\0\0\0\x01\x20\0\0\x01................\xff\xff\xff\xff",
        "V33 8192 by 1, 4294967295",
        b"RFB 003.003\n\x01",
    ),
    // 7.1.1: any other version is spoken as 3.3
    (
        b"RFB 003.889\n\0\0\0\x01\0\x04\0\x03................\0\0\0\0",
        "V33 4 by 3, 0",
        b"RFB 003.003\n\x01",
    ),
    (b"RFB 005.000\n\0\0\0\x02", "type 2", b"RFB 003.003\n"),
    (b"RFB 003.8\n..", "no version", b""),
    (b"rfb 003.008\n", "no version", b""),
    (b"SSH-2.0-Open", "no version", b""),
    (
        b"RFB 003.008\n\x02\x02\x13",
        "types [2, 19]",
        b"RFB 003.008\n",
    ),
    (
        b"RFB 003.008\n\0\0\0\0\x04busy",
        "refused: busy",
        b"RFB 003.008\n",
    ),
    (b"RFB 003.008\n\0\0\0\0\x04bus", "awaits", b"RFB 003.008\n"),
    (
        b"RFB 003.003\n\0\0\0\0\0\0\0\x02no",
        "refused: no",
        b"RFB 003.003\n",
    ),
    // 7.1.3: the choice itself is refused
    (
        b"RFB 003.008\n\x01\x01\0\0\0\x01\0\0\0\x02no",
        "refused: no",
        b"RFB 003.008\n\x01",
    ),
];

#[test]
fn openings_come_to_what_they_say(rt: HostRuntime) -> Result<(), Fail> {
    let alloc = rt.alloc();
    for (said, wanted, answers) in &OPENINGS {
        for length in 1..60 {
            let mut out = Outbox::new(alloc);
            let text = hear_in(alloc, said, length, &mut out)?;
            assert!(rt; text.as_str() == *wanted, "{said:?} by {length}: {text}");
            assert!(rt;
                bytes_of(alloc, &mut out)?.as_slice() == *answers,
                "{said:?} by {length}"
            );
        }
    }
    Ok(())
}

#[test]
fn a_long_name_is_passed_over(rt: HostRuntime) -> Result<(), Fail> {
    let alloc = rt.alloc();
    let mut opening = Opening::new(alloc);
    let said = b"RFB 003.003\n\0\0\0\x01\0\x04\0\x03................\0\0\x03\xe8";
    let (_, Heard::Open(_, init)) = opening.hear(said)? else {
        return Err(Fail::new("it isn't open"));
    };
    let mut naming = Naming::new(alloc, init);
    for _ in 0..9 {
        assert_eq!(rt; naming.take(&[b'x'; 111])?, 111);
    }
    assert!(rt; !naming.is_whole());
    assert_eq!(rt; naming.take(b"xy")?, 1);
    assert!(rt; naming.is_whole());
    assert_eq!(rt; naming.name().len(), 255);
    Ok(())
}

// 7.5.4 to 7.5.6
#[test]
fn inputs_wait_in_order(rt: HostRuntime) -> Result<(), Fail> {
    let alloc = rt.alloc();
    let mut out = Outbox::new(alloc);
    out.put_input(&Input::Pointer {
        mask: 0,
        x: 1,
        y: 2,
    })?;
    out.put_input(&Input::Pointer {
        mask: 0,
        x: 258,
        y: 4,
    })?;
    out.put_input(&Input::Pointer {
        mask: 1,
        x: 258,
        y: 4,
    })?;
    out.put_input(&Input::Key {
        down: true,
        key: 0xffe3,
    })?;
    out.put_input(&Input::Pointer {
        mask: 1,
        x: 5,
        y: 6,
    })?;
    let text = Listed::from_slice(alloc, b"hi")?;
    out.put_input(&Input::Text {
        text,
        shortened: false,
    })?;
    let wanted =
        b"\x05\0\x01\x02\0\x04\x05\x01\x01\x02\0\x04\x04\x01\0\0\0\0\xff\xe3\x05\x01\0\x05\0\x06\x06\0\0\0\0\0\0\x02hi";
    assert!(rt; bytes_of(alloc, &mut out)?.as_slice() == wanted.as_slice());
    assert!(rt; out.is_empty());
    Ok(())
}

#[test]
fn what_lets_go_finds_room_longer(rt: HostRuntime) -> Result<(), Fail> {
    let alloc = rt.alloc();
    let mut out = Outbox::new(alloc);
    for _ in 0..8000 {
        out.put_input(&Input::Key { down: true, key: 1 })?;
    }
    assert_eq!(rt; out.left_out(), 8000 - 7680);
    out.put_input(&Input::Key {
        down: false,
        key: 1,
    })?;
    assert_eq!(rt; out.left_out(), 320);
    let bytes = bytes_of(alloc, &mut out)?;
    assert!(rt; bytes.len() == 8 * 7681 && bytes.len() <= MOST_WAITING);
    Ok(())
}

// 7.5.1 to 7.5.3
#[test]
fn the_first_messages(rt: HostRuntime) -> Result<(), Fail> {
    let alloc = rt.alloc();
    let mut out = Outbox::new(alloc);
    out.put_first(true)?;
    out.put_request(false, 1024, 3)?;
    let wanted =
        b"\0\0\0\0\x20\x18\0\x01\0\xff\0\xff\0\xff\x10\x08\0\0\0\0\x02\0\0\x03\0\0\0\0\0\0\0\x01\xff\xff\xff\x21\x03\0\0\0\0\0\x04\0\0\x03";
    assert!(rt; bytes_of(alloc, &mut out)?.as_slice() == wanted.as_slice());
    Ok(())
}
