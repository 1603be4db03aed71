//! Each call's line, and each kind of name's, written by hand.

use crate::tests::writing::calls::{Call, LOWER, UPPER, config, make};
use recorder::Recorder;
use std::alloc::{AllocError, Global};

/// The least number of 32 bits.
const LEAST: i32 = -2_147_483_648;

/// Calls, each with its line.
static LINES: [(Call<'static>, &[u8]); 35] = [
    (
        Call::Write((1, 2, 3, 3), &[0x1, 0xabcdef]),
        b"write 1 2 2 1 000001abcdef\n",
    ),
    (
        Call::Paint((0, 1, 2, 3), &[0x102030, 0x102030, 0x102030, 0x102031]),
        b"paint 0 1 2 2 102030102030102030102031\n",
    ),
    (
        Call::Paint((0, 0, 2, 1), &[0x9f8e7d, 0x9f8e7d]),
        b"paint 0 0 2 1 9f8e7d\n",
    ),
    (
        Call::Paint((0, 0, 2, 1), &[0xff9f8e7d, 0x9f8e7d]),
        b"paint 0 0 2 1 9f8e7d\n",
    ),
    (
        Call::Paint((3, 2, 4, 3), &[0xffffffff]),
        b"paint 3 2 1 1 ffffff\n",
    ),
    (Call::Paint((2, 1, 2, 3), &[]), b"paint 2 1 0 2 -\n"),
    (Call::Write((2, 1, 4, 1), &[]), b"write 2 1 2 0 -\n"),
    (Call::Mark((0, 0, 4, 3)), b"mark 0 0 4 3\n"),
    (Call::Mark((3, 2, -1, 0)), b"mark 3 2 -1 0\n"),
    (
        Call::Mark((LEAST, LEAST, 2_147_483_647, 0)),
        b"mark -2147483648 -2147483648 2147483647 0\n",
    ),
    (Call::MarkRegion(&[]), b"marks\n"),
    (Call::MarkRegion(&[LOWER]), b"mark 1 2 2 3\n"),
    (
        Call::MarkRegion(&[LOWER, UPPER]),
        b"marks 0 0 4 1 1 2 2 3\n",
    ),
    (Call::Schedule(LOWER, 1, -2), b"schedule 1 2 2 3 1 -2\n"),
    (
        Call::Schedule(UPPER, LEAST, LEAST),
        b"schedule 0 0 4 1 -2147483648 -2147483648\n",
    ),
    (Call::ScheduleRegion(&[], 1, 0), b"schedules 1 0\n"),
    (
        Call::ScheduleRegion(&[UPPER], 0, -1),
        b"schedule 0 0 4 1 0 -1\n",
    ),
    (
        Call::ScheduleRegion(&[UPPER, LOWER], 0, 1),
        b"schedules 0 0 4 1 1 2 2 3 0 1\n",
    ),
    (Call::Copy(LOWER, -1, 2), b"docopy 1 2 2 3 -1 2\n"),
    (Call::CopyRegion(&[], 0, 0), b"docopies 0 0\n"),
    (Call::CopyRegion(&[LOWER], 1, 2), b"docopy 1 2 2 3 1 2\n"),
    (
        Call::CopyRegion(&[UPPER, LOWER], LEAST, 0),
        b"docopies 0 0 4 1 1 2 2 3 -2147483648 0\n",
    ),
    (Call::Bell, b"bell\n"),
    (Call::Text(b""), b"cuttext -\n"),
    (Call::Text(b"a\n-\xff\x00"), b"cuttext 610a2dff00\n"),
    (Call::Resize(640, 480), b"resize 640 480\n"),
    (Call::Resize(0, 4_294_967_295), b"resize 0 4294967295\n"),
    (Call::Connect(0), b"connect 0\n"),
    (
        Call::Connect(18_446_744_073_709_551_615),
        b"connect 18446744073709551615\n",
    ),
    (Call::Hear(1, b""), b"hear 1 -\n"),
    (
        Call::Hear(12, b"RFB 003.008\n"),
        b"hear 12 524642203030332e3030380a\n",
    ),
    (
        Call::Hear(3, &[0x0f, 0xf0, 0x99, 0xaa]),
        b"hear 3 0ff099aa\n",
    ),
    (Call::Cut(7), b"cut 7\n"),
    (Call::Close(10), b"close 10\n"),
    (Call::Close(9), b"close 9\n"),
];

/// The line of a screen named `d`.
const FIRST: &[u8] = b"screen 4 3 d 50\n";

/// Returns what is written of a screen with this `name`, and of `call` if there is one.
fn written(alloc: Global, name: &[u8], call: Option<Call<'_>>) -> Result<Vec<u8>, AllocError> {
    let config = config(alloc, name)?;
    let mut recorder = Recorder::new(alloc, Vec::new(alloc), &config)?;
    if let Some(call) = call {
        make(&mut recorder, alloc, call)?;
    }
    recorder.flush();
    Vec::from_slice(alloc, recorder.writer())
}

#[test]
fn each_call_is_its_line(rt: HostRuntime) -> Result<(), AllocError> {
    for (call, line) in &LINES {
        let text = written(rt.alloc(), b"d", Some(*call))?;
        assert_eq!(rt; text.strip_prefix(FIRST), Some(*line));
    }
    Ok(())
}

/// Names, each with the line of its screen.
static NAMES: [(&[u8], &[u8]); 9] = [
    (b"demo", b"screen 4 3 demo 50\n"),
    (b"", b"screen 4 3 - 50\n"),
    (b"-", b"desktop 4 3 2d 50\n"),
    (b"--", b"screen 4 3 -- 50\n"),
    (b"a b", b"desktop 4 3 612062 50\n"),
    (b"a\n", b"desktop 4 3 610a 50\n"),
    (b" ", b"desktop 4 3 20 50\n"),
    (b"\t\x00\xff", b"screen 4 3 \t\x00\xff 50\n"),
    (b"#", b"screen 4 3 # 50\n"),
];

#[test]
fn each_name_is_in_its_line(rt: HostRuntime) -> Result<(), AllocError> {
    for (name, line) in &NAMES {
        let text = written(rt.alloc(), name, None)?;
        assert_eq!(rt; text.as_slice(), *line);
    }
    Ok(())
}

/// Returns 255 copies of `word` between `first` and `last`.
fn copies(alloc: Global, first: &[u8], word: &[u8], last: &[u8]) -> Result<Vec<u8>, AllocError> {
    let mut text = Vec::from_slice(alloc, first)?;
    for _ in 0..255 {
        text.extend_from_slice(word)?;
    }
    text.extend_from_slice(last)?;
    Ok(text)
}

static BLANKS: [u8; 255] = [b' '; 255];

static LETTERS: [u8; 255] = [b'n'; 255];

static COLOURS: [u32; 255] = [0x12_3456; 255];

#[test]
fn long_names_texts_and_pictures(rt: HostRuntime) -> Result<(), AllocError> {
    let alloc = rt.alloc();
    let wanted = copies(alloc, b"screen 4 3 ", b"n", b" 50\n")?;
    assert!(rt; written(alloc, &LETTERS, None)? == wanted);
    let wanted = copies(alloc, b"desktop 4 3 ", b"20", b" 50\n")?;
    assert!(rt; written(alloc, &BLANKS, None)? == wanted);
    let wanted = copies(alloc, b"screen 4 3 d 50\ncuttext ", b"6e", b"\n")?;
    assert!(rt; written(alloc, b"d", Some(Call::Text(&LETTERS)))? == wanted);
    let mut colours = Vec::from_slice(alloc, &COLOURS)?;
    colours.push(0xff_0000)?;
    let paint = Call::Paint((0, 0, 256, 1), &colours);
    let wanted = copies(
        alloc,
        b"screen 4 3 d 50\npaint 0 0 256 1 ",
        b"123456",
        b"ff0000\n",
    )?;
    assert!(rt; written(alloc, b"d", Some(paint))? == wanted);
    Ok(())
}
