//! What viewers say, by the items that an ear tells of it: heard whole, prepared and put in place, and by a clone byte by byte;
//! texts and lists near their limits; and what a server says.

use messages::*;
use std::alloc::{AllocError, Global};
use std::fmt::Write;
use std::test::Fail;

/// What is said in two pieces behind an opening, or in two pieces of an opening.
struct Talk {
    opening: &'static [u8],
    front: &'static [u8],
    back: &'static [u8],
    /// The items that the second piece says, and the fault at its end.
    said: &'static str,
    fault: Option<Fault>,
    /// Where the conversation stands then.
    phase: Phase,
}

/// Prints `said` in place of the items that were printed before.
fn print(said: &[Item], items: &mut String) -> Result<(), AllocError> {
    items.clear();
    for item in said {
        write!(items, "{item:?};")?;
    }
    Ok(())
}

/// Prints what `piece` says when the ear prepares it and then puts it in place. Returns its fault.
fn prepare(ear: &mut Ear, piece: &[u8], items: &mut String) -> Result<Option<Fault>, AllocError> {
    let Prepared { heard, change } = ear.prepare(piece)?;
    ear.commit(change);
    print(heard.items.as_slice(), items)?;
    Ok(heard.fault)
}

/// Prints what `piece` says when the ear hears it byte by byte. Returns the fault at its end.
fn hear(
    ear: &mut Ear,
    piece: &[u8],
    items: &mut String,
    byte_items: &mut String,
) -> Result<Option<Fault>, AllocError> {
    items.clear();
    for byte in piece.chunks(1) {
        let heard = ear.feed(byte)?;
        print(heard.items.as_slice(), byte_items)?;
        items.push_str(byte_items)?;
    }
    Ok(ear.fault())
}

/// Says whether the ear and its clone say the same of a piece, which is as it should be, and stand where they should.
fn say_alike(
    ear: &mut Ear,
    talk: &Talk,
    said: &str,
    items: &mut String,
    other: &mut String,
) -> Result<bool, AllocError> {
    let mut clone = ear.try_clone()?;
    let fault = prepare(ear, talk.back, items)?;
    let is_said = items.as_str() == said && fault == talk.fault;
    let fault = hear(&mut clone, talk.back, items, other)?;
    let is_said_by_clone = items.as_str() == said && fault == talk.fault;
    Ok(
        is_said
            && is_said_by_clone
            && (ear.phase(), clone.phase()) == (talk.phase, talk.phase)
            && (ear.fault(), clone.fault()) == (talk.fault, talk.fault)
            && ear.is_open() == (talk.fault.is_none() && matches!(talk.phase, Phase::Open(_))),
    )
}

fn holds(alloc: Global, talk: &Talk) -> Result<bool, AllocError> {
    let mut ear = Ear::new(alloc);
    ear.feed(talk.opening)?;
    ear.feed(talk.front)?;
    let (mut items, mut other) = (String::new(alloc), String::new(alloc));
    say_alike(&mut ear, talk, talk.said, &mut items, &mut other)
}

#[test]
fn talks_whichever_allocation_is_refused(rt: HostRuntime) {
    for talk in &TALKS {
        let held = match holds(rt.alloc(), talk) {
            Err(_) => holds(rt.alloc(), talk),
            held => held,
        };
        let (front, back) = (talk.front, talk.back);
        assert!(rt; matches!(held, Ok(true)), "{front:?} {back:?}");
    }
}

/// Says whether a text's bytes, which come in pieces, are kept up to `kept` of them, and a byte behind it is a message.
fn is_kept(ear: &mut Ear, bytes: &[u8], kept: usize) -> Result<bool, AllocError> {
    let front = bytes.split_at(kept.min(bytes.len())).0;
    for piece in bytes.chunks(100_000) {
        match ear.feed(piece)?.items.as_slice() {
            [] => {}
            [Item::Input(Input::Text { text, shortened })] => {
                return Ok(
                    text.as_slice() == front
                        && *shortened == (kept < bytes.len())
                        && ear.feed(b"\x01")?.fault == Some(Fault::UnknownMessage(1)),
                );
            }
            _ => return Ok(false),
        }
    }
    Ok(false)
}

/// Says whether a text of `length` bytes, of which `come` come, is kept up to `kept` of them.
fn keeps(alloc: Global, length: u32, come: u32, kept: u32) -> Result<bool, AllocError> {
    let mut ear = Ear::new(alloc);
    ear.feed(b"RFB 003.008\n\x01\x01\x06\x00\x00\x00")?;
    ear.feed(&length.to_be_bytes())?;
    let mut bytes = Vec::new(alloc);
    for i in 0..come {
        bytes.push((i % 251) as u8)?;
    }
    is_kept(&mut ear, &bytes, kept as usize)
}

/// Says whether a list of 65,535 encodings says `wants`: the greatest number first, or Hextile behind those that nobody knows.
fn says_of_many(
    ear: &mut Ear,
    unknown: bool,
    items: &mut String,
    wants: &str,
) -> Result<bool, AllocError> {
    ear.feed(b"\x02\x00\xff\xff")?;
    for i in 0..65_534u32 {
        let number = if unknown { 7 } else { 65_534 - i };
        ear.feed(&number.to_be_bytes())?;
    }
    let last: u32 = if unknown { 5 } else { 0 };
    prepare(ear, &last.to_be_bytes(), items)?;
    Ok(items.as_str() == wants)
}

/// Says whether two such lists say what they should, and in a list of none the encoding is Raw (RFC 6143, section 7.5.2).
fn says_of_lists(alloc: Global) -> Result<bool, AllocError> {
    let (mut ear, mut items) = (Ear::new(alloc), String::new(alloc));
    ear.feed(b"RFB 003.008\n\x01\x01")?;
    let wants = "Encodings { preferred: Hextile, copyrect: true, resize: false };";
    let known = says_of_many(&mut ear, false, &mut items, wants)?;
    let wants = "Encodings { preferred: Hextile, copyrect: false, resize: false };";
    let unknown = says_of_many(&mut ear, true, &mut items, wants)?;
    prepare(&mut ear, b"\x02\x00\x00\x00", &mut items)?;
    let wants = "Encodings { preferred: Raw, copyrect: false, resize: false };";
    Ok(known && unknown && items.as_str() == wants)
}

/// Appends each message of a server once.
fn append_all(out: &mut Vec<u8>) -> Result<(), AllocError> {
    put_version(out)?;
    put_security(out, Version::V33)?;
    put_security(out, Version::V37)?;
    put_security(out, Version::V38)?;
    put_result(out)?;
    put_server_init(out, 4, 0x0103, b"demo")?;
    put_update_head(out, 0x0102)?;
    put_bell(out)?;
    put_cut_text(out, b"hi")
}

/// Returns what a server answers to the first bytes of a viewer.
fn greeted(alloc: Global, bytes: &[u8]) -> Result<Vec<u8>, AllocError> {
    let desktop = Desktop {
        width: 4,
        height: 3,
        name: b"demo",
    };
    let heard = Ear::new(alloc).feed(bytes)?;
    let mut said = greetings(alloc, &desktop, Phase::Version, heard.items.as_slice())?;
    // A choice isn't answered where it can't stand.
    put_greeting(&mut said, &desktop, Phase::Version, &Item::Choice)?;
    Ok(said)
}

#[test]
fn limits_and_answers(rt: HostRuntime) -> Result<(), Fail> {
    for (length, kept) in [(262_143, 262_143), (262_144, 262_144), (262_145, 262_144)] {
        assert!(rt;
            keeps(rt.alloc(), length, length, kept)?,
            "a text of {length}"
        );
    }
    // A text that hasn't ended says nothing.
    assert!(rt; !keeps(rt.alloc(), u32::MAX, 300_000, 262_144)?);
    assert!(rt; says_of_lists(rt.alloc())?);
    let mut out = Vec::new(rt.alloc());
    append_all(&mut out)?;
    assert_eq!(rt; out.as_slice(), SAID);
    for (bytes, wants) in &OPENINGS {
        let said = greeted(rt.alloc(), bytes)?;
        assert!(rt; said.as_slice() == *wants, "{bytes:?}: {said:?}");
    }
    let choice = Phase::Choice(Version::V37);
    assert!(rt; phase_after(choice, &Item::Choice) == Phase::Init(Version::V37));
    assert!(rt; phase_after(Phase::Version, &Item::Choice) == Phase::Version);
    reads_the_stream();
    reads_in_pieces();
    keeps_enough();
    keeps_the_fault();
    Ok(())
}

static SAID: &[u8] = b"RFB 003.008\n\x00\x00\x00\x01\x01\x01\x01\x01\x00\x00\x00\x00\
    \x00\x04\x01\x03\x20\x18\x00\x01\x00\xff\x00\xff\x00\xff\x10\x08\x00\x00\x00\x00\x00\x00\x00\x04demo\
    \x00\x00\x01\x02\x02\x03\x00\x00\x00\x00\x00\x00\x02hi";

/// The first bytes of viewers in the three versions, and what is answered: the security, and the screen's description.
static OPENINGS: [(&[u8], &[u8]); 3] = [
    (
        b"RFB 003.003\n\x01\x07",
        b"\x00\x00\x00\x01\x00\x04\x00\x03\x20\x18\x00\x01\x00\xff\x00\xff\x00\xff\x10\x08\x00\x00\x00\x00\x00\x00\x00\x04demo",
    ),
    (
        b"RFB 003.007\n\x01\x01",
        b"\x01\x01\x00\x04\x00\x03\x20\x18\x00\x01\x00\xff\x00\xff\x00\xff\x10\x08\x00\x00\x00\x00\x00\x00\x00\x04demo",
    ),
    (
        b"RFB 003.008\n\x01\x01",
        b"\x01\x01\x00\x00\x00\x00\x00\x04\x00\x03\x20\x18\x00\x01\x00\xff\x00\xff\x00\xff\x10\x08\x00\x00\x00\x00\x00\x00\x00\x04demo",
    ),
];

static TALKS: [Talk; 29] = [
    // A SetPixelFormat of 16 bits, 5-6-5.
    Talk {
        opening: b"RFB 003.008\n\x01\x01",
        front: b"",
        back: b"\x00\x00\x00\x00\x10\x10\x00\x01\x00\x1f\x00\x3f\x00\x1f\x0b\x05\x00\x00\x00\x00",
        said: "Format(PixelFormat { depth: 16, big_endian: false, pixels: TrueColour { bits: Sixteen, red: Component { max: 31, shift: 11 }, \
            green: Component { max: 63, shift: 5 }, blue: Component { max: 31, shift: 0 } } });",
        fault: None,
        phase: Phase::Open(Version::V38),
    },
    // 24 bits per pixel, a colour map of 16 bits, and both.
    Talk {
        opening: b"RFB 003.008\n\x01\x01",
        front: b"",
        back: b"\x00\x00\x00\x00\x18\x18\x00\x01\x00\xff\x00\xff\x00\xff\x10\x08\x00\x00\x00\x00\x07",
        said: "",
        fault: Some(Fault::BadBitsPerPixel),
        phase: Phase::Open(Version::V38),
    },
    Talk {
        opening: b"RFB 003.008\n\x01\x01",
        front: b"",
        back: b"\x00\x00\x00\x00\x10\x18\x00\x00\x00\xff\x00\xff\x00\xff\x10\x08\x00\x00\x00\x00\x07",
        said: "",
        fault: Some(Fault::ColourMapUnsupported),
        phase: Phase::Open(Version::V38),
    },
    Talk {
        opening: b"RFB 003.008\n\x01\x01",
        front: b"",
        back: b"\x00\x00\x00\x00\x18\x18\x00\x00\x00\xff\x00\xff\x00\xff\x10\x08\x00\x00\x00\x00\x07",
        said: "",
        fault: Some(Fault::BadBitsPerPixel),
        phase: Phase::Open(Version::V38),
    },
    // No encodings; CopyRect and Raw; -223, 7, Hextile, RRE and CopyRect.
    Talk {
        opening: b"RFB 003.008\n\x01\x01",
        front: b"",
        back: b"\x02\x00\x00\x00\x02\x00\x00\x02\x00\x00\x00\x01\x00\x00\x00\x00",
        said: "Encodings { preferred: Raw, copyrect: false, resize: false };Encodings { preferred: Raw, copyrect: true, resize: false };",
        fault: None,
        phase: Phase::Open(Version::V38),
    },
    Talk {
        opening: b"RFB 003.008\n\x01\x01",
        front: b"",
        back: b"\x02\xff\x00\x05\xff\xff\xff\x21\x00\x00\x00\x07\x00\x00\x00\x05\x00\x00\x00\x02\x00\x00\x00\x01",
        said: "Encodings { preferred: Hextile, copyrect: true, resize: true };",
        fault: None,
        phase: Phase::Open(Version::V38),
    },
    // Requests of an area, all of it and its changes alone.
    Talk {
        opening: b"RFB 003.008\n\x01\x01",
        front: b"",
        back: b"\x03\x00\x00\x01\x00\x02\x00\x04\x00\x03\x03\x07\x00\x00\x00\x00\xff\xff\x01\x00",
        said: "Request { incremental: false, area: Area { x: 1, y: 2, w: 4, h: 3 } };\
            Request { incremental: true, area: Area { x: 0, y: 0, w: 65535, h: 256 } };",
        fault: None,
        phase: Phase::Open(Version::V38),
    },
    // A key, a pointer and a text.
    Talk {
        opening: b"RFB 003.008\n\x01\x01",
        front: b"",
        back: b"\x04\x01\x00\x00\x00\x00\xff\x0d\x05\x01\x00\x02\x00\x01\x06\x00\x00\x00\x00\x00\x00\x02hi",
        said: "Input(Key { down: true, key: 65293 });Input(Pointer { mask: 1, x: 2, y: 1 });\
            Input(Text { text: Listed { elements: [104, 105] }, shortened: false });",
        fault: None,
        phase: Phase::Open(Version::V38),
    },
    // A key that goes up, no text, and a text that hasn't ended.
    Talk {
        opening: b"RFB 003.008\n\x01\x01",
        front: b"",
        back: b"\x04\x00\xff\xff\x00\x01\x00\x00\x06\xff\xff\xff\x00\x00\x00\x00\x06\x00\x00\x00\xff\xff\xff\xffhi",
        said: "Input(Key { down: false, key: 65536 });Input(Text { text: Listed { elements: [] }, shortened: false });",
        fault: None,
        phase: Phase::Open(Version::V38),
    },
    // What follows an unknown message isn't read.
    Talk {
        opening: b"RFB 003.008\n\x01\x01",
        front: b"",
        back: b"\x05\x00\x00\x00\x00\x00\x07\x05\x01\x00\x02\x00\x01",
        said: "Input(Pointer { mask: 0, x: 0, y: 0 });",
        fault: Some(Fault::UnknownMessage(7)),
        phase: Phase::Open(Version::V38),
    },
    Talk {
        opening: b"RFB 003.008\n\x01\x01",
        front: b"",
        back: b"\x01",
        said: "",
        fault: Some(Fault::UnknownMessage(1)),
        phase: Phase::Open(Version::V38),
    },
    // Openings.
    Talk {
        opening: b"",
        front: b"",
        back: b"RFB 003.003\n\x00",
        said: "Version(V33);Init { shared: false };",
        fault: None,
        phase: Phase::Open(Version::V33),
    },
    Talk {
        opening: b"",
        front: b"",
        back: b"RFB 003.005\n\x01",
        said: "Version(V33);Init { shared: true };",
        fault: None,
        phase: Phase::Open(Version::V33),
    },
    Talk {
        opening: b"",
        front: b"",
        back: b"RFB 003.007\n\x01\x02",
        said: "Version(V37);Choice;Init { shared: true };",
        fault: None,
        phase: Phase::Open(Version::V37),
    },
    Talk {
        opening: b"",
        front: b"",
        back: b"RFB 003.008\n\x01",
        said: "Version(V38);Choice;",
        fault: None,
        phase: Phase::Init(Version::V38),
    },
    Talk {
        opening: b"",
        front: b"",
        back: b"RFB 003.889\n",
        said: "Version(V33);",
        fault: None,
        phase: Phase::Init(Version::V33),
    },
    Talk {
        opening: b"",
        front: b"",
        back: b"RFB 004.008\n",
        said: "Version(V33);",
        fault: None,
        phase: Phase::Init(Version::V33),
    },
    Talk {
        opening: b"",
        front: b"",
        back: b"RFB 003.00",
        said: "",
        fault: None,
        phase: Phase::Version,
    },
    Talk {
        opening: b"",
        front: b"",
        back: b"hello world\n",
        said: "",
        fault: Some(Fault::BadVersion),
        phase: Phase::Version,
    },
    Talk {
        opening: b"",
        front: b"",
        back: b"RFB 003.008\n\x02\x01",
        said: "Version(V38);",
        fault: Some(Fault::BadSecurityType),
        phase: Phase::Choice(Version::V38),
    },
    // An ear that heard nothing, and one byte; the second half of a version.
    Talk {
        opening: b"",
        front: b"",
        back: b"\x52",
        said: "",
        fault: None,
        phase: Phase::Version,
    },
    Talk {
        opening: b"",
        front: b"RFB 003.",
        back: b"008\n\x01",
        said: "Version(V38);Choice;",
        fault: None,
        phase: Phase::Init(Version::V38),
    },
    // In the midst of a request, of a list of encodings and of a text; at a text's end, and behind a fault.
    Talk {
        opening: b"RFB 003.008\n\x01\x01",
        front: b"\x03\x01\x00\x01\x00",
        back: b"\x02\x00\x04\x00\x03\x01",
        said: "Request { incremental: true, area: Area { x: 1, y: 2, w: 4, h: 3 } };",
        fault: Some(Fault::UnknownMessage(1)),
        phase: Phase::Open(Version::V38),
    },
    Talk {
        opening: b"RFB 003.008\n\x01\x01",
        front: b"\x03\x01\x00\x01\x00",
        back: b"\x02\x00\x04",
        said: "",
        fault: None,
        phase: Phase::Open(Version::V38),
    },
    Talk {
        opening: b"RFB 003.008\n\x01\x01",
        front: b"\x02\x00\x00\x02\x00\x00\x00\x05\x00",
        back: b"\x00\x00\x01",
        said: "Encodings { preferred: Hextile, copyrect: true, resize: false };",
        fault: None,
        phase: Phase::Open(Version::V38),
    },
    Talk {
        opening: b"RFB 003.008\n\x01\x01",
        front: b"\x06\x00\x00\x00\x00\x00\x00\x03ab",
        back: b"c\x05\x01\x00\x01\x00\x01",
        said: "Input(Text { text: Listed { elements: [97, 98, 99] }, shortened: false });Input(Pointer { mask: 1, x: 1, y: 1 });",
        fault: None,
        phase: Phase::Open(Version::V38),
    },
    Talk {
        opening: b"RFB 003.008\n\x01\x01",
        front: b"\x06\x00\x00\x00\x00\x00\x00\x03a",
        back: b"b",
        said: "",
        fault: None,
        phase: Phase::Open(Version::V38),
    },
    Talk {
        opening: b"RFB 003.008\n\x01\x01",
        front: b"\x06\x00\x00\x00\x00\x00\x00\x03ab",
        back: b"c\x07",
        said: "Input(Text { text: Listed { elements: [97, 98, 99] }, shortened: false });",
        fault: Some(Fault::UnknownMessage(7)),
        phase: Phase::Open(Version::V38),
    },
    Talk {
        opening: b"RFB 003.008\n\x01\x01",
        front: b"\x07",
        back: b"\x05\x01\x00\x01\x00\x01",
        said: "",
        fault: Some(Fault::UnknownMessage(7)),
        phase: Phase::Open(Version::V38),
    },
];
