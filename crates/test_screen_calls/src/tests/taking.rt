//! What no clause says of taking pixels: that each call succeeds where there is memory. Colours are worked out by hand from RFC 6143,
//! section 7.4.

use crate::tests::screens::new_screen;
use listed::Listed;
use screen::{
    BytesPerPixel, Component, Differences, Event, Piece, PixelSource, Rect, Screen, ScreenError,
    SourceError, SourceFormat, TrueColour, rect_of,
};
use std::alloc::{AllocError, Global};
use std::test::Fail;

/// Returns the format with these components: red, green and blue, each by its greatest value and its shift.
const fn components(
    bytes: BytesPerPixel,
    big_endian: bool,
    [red, green, blue]: [(u16, u8); 3],
) -> SourceFormat<'static> {
    SourceFormat::TrueColour(TrueColour {
        bytes,
        big_endian,
        red: Component {
            max: red.0,
            shift: red.1,
        },
        green: Component {
            max: green.0,
            shift: green.1,
        },
        blue: Component {
            max: blue.0,
            shift: blue.1,
        },
    })
}

/// Components of 5, 6 and 5 bits, red highest; of 3, 3 and 2, red lowest; and of whole bytes, red in the lowest.
const RGB565: [(u16, u8); 3] = [(31, 11), (63, 5), (31, 0)];

const BGR233: [(u16, u8); 3] = [(7, 0), (7, 3), (3, 6)];

const RED_LOWEST: [(u16, u8); 3] = [(255, 0), (255, 8), (255, 16)];

/// Takes in one row of two pixels at the place (1, 1), and returns how many places change.
fn take_row(
    alloc: Global,
    screen: &mut Screen,
    bytes: &[u8],
    format: SourceFormat<'_>,
) -> Result<usize, ScreenError> {
    match PixelSource::new(bytes, bytes.len(), 2, 1, format) {
        Ok(source) => screen.take(alloc, 1, 1, &source),
        Err(_) => Err(ScreenError::BadPixelCount),
    }
}

/// Returns the colours of the places (1, 1) and (2, 1).
fn row_of(screen: &Screen) -> [Option<u32>; 2] {
    [screen.colour(1, 1), screen.colour(2, 1)]
}

/// Takes in such a row of a new screen, and returns how many places change, and their colours then.
fn takes(
    alloc: Global,
    bytes: &[u8],
    format: SourceFormat<'_>,
) -> Result<(usize, [Option<u32>; 2]), ScreenError> {
    let mut screen = new_screen(alloc, (4, 2))?;
    let places = take_row(alloc, &mut screen, bytes, format)?;
    Ok((places, row_of(&screen)))
}

use BytesPerPixel::{Four, One, Three, Two};

/// Checks two pixels by their format, the colours that they have, and how many of these are not black, as the screen is. 32 of 63
/// is 129.5 of 255, and 1 of 3 is 85.
#[test]
fn pixels_of_each_format(rt: HostRuntime) -> Result<(), Fail> {
    let table = SourceFormat::Table(&[0x12_3456, 0xff_ab_cdef]);
    let rows: [(SourceFormat<'_>, &[u8], [u32; 2], usize); 11] = [
        (
            SourceFormat::TrueColour(TrueColour::server()),
            b"\x00\x80\xff\x55\x03\x02\x01\x00",
            [0xff_8000, 0x01_0203],
            2,
        ),
        (
            components(Four, false, RED_LOWEST),
            b"\xff\x80\x00\x55\x00\x00\x00\xff",
            [0xff_8000, 0],
            1,
        ),
        (
            components(Four, true, RED_LOWEST),
            b"\x55\x00\x80\xff\x00\x03\x02\x01",
            [0xff_8000, 0x01_0203],
            2,
        ),
        (
            components(Three, false, RED_LOWEST),
            b"\xff\x80\x00\x01\x02\x03",
            [0xff_8000, 0x01_0203],
            2,
        ),
        (
            components(Three, true, RED_LOWEST),
            b"\x00\x80\xff\x03\x02\x01",
            [0xff_8000, 0x01_0203],
            2,
        ),
        (
            components(Two, false, RGB565),
            b"\x00\xfc\xff\xff",
            [0xff_8200, 0xff_ffff],
            2,
        ),
        (
            components(Two, true, RGB565),
            b"\xfc\x00\x00\x1f",
            [0xff_8200, 0x00_00ff],
            2,
        ),
        (
            components(One, false, BGR233),
            b"\x07\x40",
            [0xff_0000, 0x00_0055],
            2,
        ),
        (table, b"\x01\x00", [0xab_cdef, 0x12_3456], 2),
        (table, b"\x01\x02", [0xab_cdef, 0], 1),
        (table, b"\x02\xff", [0, 0], 0),
    ];
    for (number, (format, bytes, colours, places)) in rows.iter().enumerate() {
        let taken = takes(rt.alloc(), bytes, *format)?;
        let wanted = (*places, [Some(colours[0]), Some(colours[1])]);
        assert!(rt; taken == wanted, "row {number}");
    }
    Ok(())
}

/// Pixels of the whole screen, in which columns 1 and 2 of both rows are blue.
const BLUE_SQUARE: &[u8; 32] =
    b"\0\0\0\0\xff\0\0\0\xff\0\0\0\0\0\0\0\0\0\0\0\xff\0\0\0\xff\0\0\0\0\0\0\0";

/// Returns the source of these pixels.
fn blue_square() -> Result<PixelSource<'static>, SourceError> {
    let format = SourceFormat::TrueColour(TrueColour::server());
    PixelSource::new(BLUE_SQUARE, 16, 4, 2, format)
}

/// Returns whether a piece is those columns, in blue.
fn is_blue(piece: &Piece) -> bool {
    (piece.left, piece.top, piece.columns, piece.rows) == (1, 0, 2, 2)
        && piece.colours.as_slice() == [0xff, 0xff, 0xff, 0xff].as_slice()
}

/// Returns whether this is all that differs.
fn are_blue(found: &Differences) -> bool {
    match found.pieces.as_slice() {
        [piece] => found.places == 4 && is_blue(piece),
        _ => false,
    }
}

#[test]
fn differences_are_one_rectangle(rt: HostRuntime) -> Result<(), Fail> {
    let screen = new_screen(rt.alloc(), (4, 2))?;
    let source = blue_square().ok().ok_or("refused")?;
    let found = screen.differences(rt.alloc(), 0, 0, &source)?;
    assert!(rt; are_blue(&found));
    Ok(())
}

#[test]
fn a_piece_has_a_rectangle(rt: HostRuntime) {
    let piece = Piece {
        left: 1,
        top: 0,
        columns: 2,
        rows: 2,
        colours: Listed::new(rt.alloc()),
    };
    let rect = Rect {
        x1: 4,
        y1: 5,
        x2: 6,
        y2: 7,
    };
    assert!(rt; rect_of(3, 5, &piece) == rect);
}

#[test]
fn a_source_has_colours(rt: HostRuntime) -> Result<(), Fail> {
    let source = blue_square().ok().ok_or("refused")?;
    assert_eq!(rt; source.colour(2, 1), Some(0xff));
    assert_eq!(rt; source.colour(4, 1), None);
    Ok(())
}

/// Takes the same pixels three times, the last time all off the screen, and returns how many places change each time.
fn take_thrice(
    alloc: Global,
    screen: &mut Screen,
    source: &PixelSource<'_>,
) -> Result<[usize; 3], ScreenError> {
    let first = screen.take(alloc, 2, 1, source)?;
    let again = screen.take(alloc, 2, 1, source)?;
    let outside = screen.take(alloc, u32::MAX, 0, source)?;
    Ok([first, again, outside])
}

#[test]
fn what_is_off_the_screen_is_left_out(rt: HostRuntime) -> Result<(), Fail> {
    let mut screen = new_screen(rt.alloc(), (4, 2))?;
    let source = blue_square().ok().ok_or("refused")?;
    let taken = take_thrice(rt.alloc(), &mut screen, &source)?;
    let kept = screen.history().map(<[Event]>::len);
    assert!(rt; taken == [1, 0, 0] && screen.colour(3, 1) == Some(0xff) && kept == Some(1));
    Ok(())
}

#[test]
fn pixels_are_refused(rt: HostRuntime) -> Result<(), Fail> {
    let format = SourceFormat::TrueColour(TrueColour::server());
    let refusal = PixelSource::new(b"\0\0\0\0\0\0\0", 4, 1, 2, format).err();
    assert_eq!(rt; refusal, Some(SourceError::TooFewBytes));
    let refusal = PixelSource::new(b"\0\0\0\0", 3, 1, 1, format).err();
    assert_eq!(rt; refusal, Some(SourceError::StrideTooShort));
    let refusal = PixelSource::new(b"", 0, 0, 0, SourceFormat::Table(&[])).err();
    assert_eq!(rt; refusal, Some(SourceError::BadTable));
    let wide = components(Two, false, RED_LOWEST);
    let refusal = PixelSource::new(b"", 0, 0, 0, wide).err();
    assert_eq!(rt; refusal, Some(SourceError::BadComponent));
    Ok(())
}

/// How many columns and rows a screen has whose rows are taken 54 at a time.
const COLUMNS: u32 = 300;

const ROWS: u32 = 500;

/// Returns the colour of the pixel (`x`, `y`) of that screen: those of 280 columns and 350 rows in its midst are not black.
fn new_colour(x: u32, y: u32) -> u32 {
    if (10..290).contains(&x) && (100..450).contains(&y) {
        x.wrapping_mul(256).wrapping_add(y)
    } else {
        0
    }
}

/// Returns the pixels of that screen, of 32 bits.
fn large_pixels(alloc: Global) -> Result<Vec<u8>, AllocError> {
    let mut bytes = Vec::with_capacity(alloc, 600_000)?;
    for y in 0..ROWS {
        for x in 0..COLUMNS {
            bytes.extend_from_slice(&new_colour(x, y).to_le_bytes())?;
        }
    }
    Ok(bytes)
}

/// Counts those of them that are not black.
fn count_new() -> usize {
    let mut places: usize = 0;
    for y in 0..ROWS {
        for x in 0..COLUMNS {
            if new_colour(x, y) != 0 {
                places = places.saturating_add(1);
            }
        }
    }
    places
}

/// Counts the places of `screen` that have neither their new colour nor, if `may_be_black`, black.
fn count_wrong(screen: &Screen, may_be_black: bool) -> usize {
    let mut wrong: usize = 0;
    for y in 0..ROWS {
        for x in 0..COLUMNS {
            let is_black = screen.colour(x, y) == Some(0);
            let is_new = screen.colour(x, y) == Some(new_colour(x, y));
            if !is_new && !(may_be_black && is_black) {
                wrong = wrong.saturating_add(1);
            }
        }
    }
    wrong
}

/// Returns the source of these pixels.
fn large_source(bytes: &[u8]) -> Result<PixelSource<'_>, SourceError> {
    let format = SourceFormat::TrueColour(TrueColour::server());
    PixelSource::new(bytes, 1200, 300, 500, format)
}

/// Makes that screen, all black.
fn large_screen(alloc: Global) -> Result<Screen, ScreenError> {
    new_screen(alloc, (300, 500))
}

#[test]
fn a_large_picture_is_taken_in_parts(rt: HostRuntime) -> Result<(), Fail> {
    let mut screen = large_screen(rt.alloc())?;
    let bytes = large_pixels(rt.alloc())?;
    let source = large_source(&bytes).ok().ok_or("refused")?;
    let taken = screen.take(rt.alloc(), 0, 0, &source)?;
    assert!(rt; taken == count_new() && count_wrong(&screen, false) == 0);
    // of 54 rows at a time: 100 to 107, six times 54, and 432 to 449
    let kept = screen.history().map(<[Event]>::len);
    assert!(rt; kept == Some(8) && screen.take(rt.alloc(), 0, 0, &source)? == 0);
    Ok(())
}

/// Takes a source once more where the first call was refused memory, and returns whether each place had its old colour or its new
/// one in between, and has its new one then.
fn is_taken_at_last(
    alloc: Global,
    screen: &mut Screen,
    source: &PixelSource<'_>,
) -> Result<bool, ScreenError> {
    let first = screen.take(alloc, 0, 0, source);
    let wrong = count_wrong(screen, true);
    match first {
        Ok(_) => {}
        Err(ScreenError::OutOfMemory) => {
            screen.take(alloc, 0, 0, source)?;
        }
        Err(error) => return Err(error),
    }
    Ok(wrong == 0 && count_wrong(screen, false) == 0)
}

/// Shows that a second call takes what is left where the first was refused memory. The last of this test's allocations are those of
/// taking: `rt try --test --fail-alloc N` refuses the Nth.
#[test]
fn a_second_call_takes_the_rest(rt: HostRuntime) -> Result<(), Fail> {
    let mut screen = large_screen(rt.alloc())?;
    let bytes = large_pixels(rt.alloc())?;
    let source = large_source(&bytes).ok().ok_or("refused")?;
    assert!(rt; is_taken_at_last(rt.alloc(), &mut screen, &source)?);
    Ok(())
}
