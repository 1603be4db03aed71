//! Calls of a picture, each with what is to be seen of it; rectangles cut to a screen; and moves of several rectangles at once, in
//! all directions.

ghost use Rattle.std.specs.Prelude.{◌≡◌, ◌+◌, ◌≤◌, true};

use super::Rects;
use framebuffer::{Block, Framebuffer, Snapshot, block_of, block_within, destinations};
use region::Rect;
use std::alloc::{AllocError, Global};
use std::test::Fail;

const MIN: i32 = i32::MIN;

const MAX: i32 = i32::MAX;

macro_rules! block {
    ($left:expr, $top:expr, $columns:expr, $rows:expr) => {
        Block {
            left: $left,
            top: $top,
            columns: $columns,
            rows: $rows,
        }
    };
}

/// A call of a picture, or what is to be seen of it.
enum Step {
    Write(Block, &'static [u32]),
    Read(Block, &'static [u32]),
    /// The colour of a place, if it is on the picture.
    Colour(u32, u32, Option<u32>),
    /// Rectangles move by an offset, as far as they are on the picture with their sources.
    Move(Rects, (i32, i32)),
    /// A snapshot of a block is kept from here on, and has so many columns and rows, or no snapshot is kept.
    Take(Block),
    Drop,
    Kept(usize, usize, &'static [u32]),
}

use Step::{Colour, Kept, Move, Read, Take, Write};

/// Says whether `count` columns or rows, from `from` on, are among the first `limit`.
fn fit(from: usize, count: usize, limit: u32) -> bool
    ensures { result ≡ true → from + count ≤ limit }
{
    let limit = limit as usize;
    from <= limit && count <= limit - from
}

/// Writes a block that lies on the picture. Returns false, and writes nothing, if it doesn't, or if `colours` are not as many as
/// its places.
fn write(picture: &mut Framebuffer, block: Block, colours: &[u32]) -> Result<bool, AllocError> {
    if !fit(block.left, block.columns, picture.width())
        || !fit(block.top, block.rows, picture.height())
        || Some(colours.len()) != block.rows.checked_mul(block.columns)
    {
        return Ok(false);
    }
    picture.write(block, colours)?;
    Ok(true)
}

/// Says whether a block lies on the picture and has these colours.
fn has_colours(picture: &Framebuffer, block: Block, colours: &[u32]) -> Result<bool, AllocError> {
    if !fit(block.left, block.columns, picture.width())
        || !fit(block.top, block.rows, picture.height())
    {
        return Ok(false);
    }
    let given = picture.read(block)?;
    Ok(given.as_slice() == colours)
}

/// Takes a snapshot of a block that lies on the picture. Returns false, and takes none, if it doesn't.
fn take(
    picture: &mut Framebuffer,
    kept: &mut Option<Snapshot>,
    block: Block,
) -> Result<bool, AllocError> {
    if !fit(block.left, block.columns, picture.width())
        || !fit(block.top, block.rows, picture.height())
    {
        return Ok(false);
    }
    *kept = Some(picture.snapshot(block)?);
    Ok(true)
}

/// Says whether a snapshot has these columns, rows and colours, in its rows and in one list.
fn is_kept(
    snapshot: &Snapshot,
    columns: usize,
    rows: usize,
    colours: &[u32],
) -> Result<bool, AllocError> {
    let all = snapshot.colours()?;
    let mut left = colours;
    for y in 0..snapshot.height() {
        let (row, below) = left.split_at(columns.min(left.len()));
        if snapshot.row(y) != row {
            return Ok(false);
        }
        left = below;
    }
    Ok(
        all.as_slice() == colours
            && (snapshot.width(), snapshot.height()) == (columns, rows)
            && left.is_empty(),
    )
}

fn move_to(
    picture: &mut Framebuffer,
    alloc: Global,
    rects: &[Rect],
    (dx, dy): (i32, i32),
) -> Result<bool, AllocError> {
    let pieces = destinations(alloc, rects, dx, dy, picture.width(), picture.height())?;
    picture.move_colours(&pieces, (dx, dy))?;
    Ok(true)
}

/// Says whether the picture and the snapshot that is kept are as `step` says, once it is made.
fn holds(
    picture: &mut Framebuffer,
    kept: &mut Option<Snapshot>,
    alloc: Global,
    step: &Step,
) -> Result<bool, AllocError> {
    match step {
        Write(block, colours) => write(picture, *block, colours),
        Read(block, colours) => has_colours(picture, *block, colours),
        Colour(x, y, colour) => Ok(picture.colour(*x, *y) == *colour),
        Move(rects, offset) => move_to(picture, alloc, rects, *offset),
        Take(block) => take(picture, kept, *block),
        Step::Drop => {
            *kept = None;
            Ok(true)
        }
        Kept(columns, rows, colours) => match kept {
            Some(snapshot) => is_kept(snapshot, *columns, *rows, colours),
            None => Ok(false),
        },
    }
}

#[test]
fn pictures_whichever_allocation_is_refused(rt: HostRuntime) {
    let made = match Framebuffer::new(rt.alloc(), 4, 3) {
        Err(_) => Framebuffer::new(rt.alloc(), 4, 3),
        made => made,
    };
    let (mut picture, mut kept) = (made.expect(&rt, "memory"), None);
    for (number, step) in STEPS.iter().enumerate() {
        let held = match holds(&mut picture, &mut kept, rt.alloc(), step) {
            Err(_) => holds(&mut picture, &mut kept, rt.alloc(), step),
            held => held,
        };
        assert!(rt; matches!(held, Ok(true)), "step {number}");
    }
}

/// Replaces `letters` by those of a picture of 6 by 5, from `text`.
fn put_letters(letters: &mut Vec<u32>, text: &[u8; 30]) -> Result<(), AllocError> {
    letters.clear();
    for letter in text {
        letters.push(u32::from(*letter))?;
    }
    Ok(())
}

/// Says whether rectangles of a picture of letters, which it writes anew, are moved as `wants` says.
fn is_moved(
    picture: &mut Framebuffer,
    letters: &mut Vec<u32>,
    rects: &[Rect],
    offset: (i32, i32),
    wants: &[u8; 30],
) -> Result<bool, AllocError> {
    put_letters(letters, LETTERS)?;
    let is_written = write(picture, block!(0, 0, 6, 5), letters)?;
    move_to(picture, *letters.allocator(), rects, offset)?;
    put_letters(letters, wants)?;
    Ok(is_written && has_colours(picture, block!(0, 0, 6, 5), letters)?)
}

/// Says whether rectangles are cut to a screen of 4 by 3, with their sources, as `wants` says.
fn is_cut(alloc: Global, rects: Rects, by: (i32, i32), wants: Rects) -> Result<bool, AllocError> {
    let pieces = destinations(alloc, rects, by.0, by.1, 4, 3)?;
    Ok(pieces.as_slice() == wants)
}

/// Checks that rectangles are cut to a screen, with their sources.
#[test]
fn rectangles_are_cut(rt: HostRuntime) -> Result<(), Fail> {
    for (number, (rects, by, wants)) in DESTINATIONS.iter().enumerate() {
        assert!(rt; is_cut(rt.alloc(), rects, *by, wants)?, "row {number}");
    }
    Ok(())
}

#[test]
fn rectangles_are_blocks(rt: HostRuntime) {
    let block = block_of(rect!(1, 2, 4, 2));
    assert!(rt; (block.left, block.top, block.columns, block.rows) == (1, 2, 3, 0));
    let block = block_within(rect!(1, 0, 4, 3), 4, 3);
    assert!(rt; (block.left, block.top, block.columns, block.rows) == (1, 0, 3, 3));
}

/// Returns how many of the moves are as they say.
fn count_moved(alloc: Global) -> Result<usize, AllocError> {
    let mut picture = Framebuffer::new(alloc, 6, 5)?;
    let mut letters = Vec::new(alloc);
    for (number, (rects, offset, wants)) in MOVES.iter().enumerate() {
        if !is_moved(&mut picture, &mut letters, rects, *offset, wants)? {
            return Ok(number);
        }
    }
    Ok(MOVES.len())
}

/// Checks that rectangles are moved, several at once.
#[test]
fn rectangles_are_moved(rt: HostRuntime) -> Result<(), Fail> {
    assert_eq!(rt; count_moved(rt.alloc())?, MOVES.len());
    Ok(())
}

/// Rectangles and an offset, and where their places are on a screen of 4 by 3 with their sources.
static DESTINATIONS: [(Rects, (i32, i32), Rects); 14] = [
    // Off the screen.
    (&[rect!(-5, 1, 2, 9)], (0, 0), &[rect!(0, 1, 2, 3)]),
    // Corners far away, and every direction.
    (&[rect!(MIN, MIN, MAX, MAX)], (0, 0), &[rect!(0, 0, 4, 3)]),
    (&[rect!(MAX, MAX, MIN, MIN)], (1, 0), &[rect!(1, 0, 4, 3)]),
    (&[rect!(MAX, MIN, MIN, MAX)], (-2, 1), &[rect!(0, 1, 2, 3)]),
    (&[rect!(MIN, MIN, MAX, MAX)], (3, -2), &[rect!(3, 0, 4, 1)]),
    (&[rect!(MIN, MIN, MAX, MAX)], (-3, -1), &[rect!(0, 0, 1, 2)]),
    // Sources off the screen.
    (&[rect!(MIN, MIN, MAX, MAX)], (4, 0), &[]),
    (&[rect!(MIN, MIN, MAX, MAX)], (0, -3), &[]),
    (&[rect!(MIN, MIN, MAX, MAX)], (MIN, 0), &[]),
    (&[rect!(MIN, MIN, MAX, MAX)], (MAX, MAX), &[]),
    (&[rect!(0, 0, 4, 3)], (0, MIN), &[]),
    // No places on the screen.
    (&[rect!(MIN, 0, 0, 3)], (-1, 0), &[]),
    // Corners are put in order; of several, those with places are kept.
    (
        &[
            rect!(1, 1, 3, 3),
            rect!(3, 1, 1, 3),
            rect!(1, 3, 3, 1),
            rect!(3, 3, 1, 1),
            rect!(MAX, MIN, MIN, MAX),
            rect!(2, 2, 2, 2),
        ],
        (0, 0),
        &[
            rect!(1, 1, 3, 3),
            rect!(1, 1, 3, 3),
            rect!(1, 1, 3, 3),
            rect!(1, 1, 3, 3),
            rect!(0, 0, 4, 3),
        ],
    ),
    (
        &[
            rect!(0, 0, 2, 2),
            rect!(2, 2, 2, 3),
            rect!(5, 0, 9, 9),
            rect!(3, 3, 1, 1),
        ],
        (0, 1),
        &[rect!(0, 1, 2, 2), rect!(1, 1, 3, 3)],
    ),
];

static STEPS: [Step; 32] = [
    Colour(0, 0, Some(0)),
    Write(block!(0, 0, 4, 3), &[1, 2, 3, 4, 5, 6, 7, 8, 9, 10, 11, 12]),
    Read(block!(1, 1, 2, 2), &[6, 7, 10, 11]),
    Read(block!(0, 0, 0, 2), &[]),
    Write(block!(4, 3, 0, 0), &[]),
    // What is above 24 bits is lost.
    Write(block!(1, 1, 2, 2), &[0x77_123456, 0x16, 0x17, 0xff_000000]),
    Read(block!(1, 1, 2, 2), &[0x123456, 0x16, 0x17, 0]),
    Read(
        block!(0, 0, 4, 3),
        &[1, 2, 3, 4, 5, 0x123456, 0x16, 8, 9, 0x17, 0, 12],
    ),
    Colour(0, 0, Some(1)),
    Colour(3, 0, Some(4)),
    Colour(0, 2, Some(9)),
    Colour(3, 2, Some(12)),
    Colour(4, 0, None),
    Colour(0, 3, None),
    Colour(u32::MAX, u32::MAX, None),
    // A snapshot stays as it was: while a block is written, and a row, and all rows move up by one.
    Write(block!(0, 0, 4, 3), &[1, 2, 3, 4, 5, 6, 7, 8, 9, 10, 11, 12]),
    Take(block!(1, 1, 2, 2)),
    Write(block!(1, 1, 2, 2), &[21, 22, 23, 24]),
    Write(block!(0, 1, 4, 1), &[0xff_000005, 6, 7, 8]),
    Move(&[rect!(0, 0, 4, 3)], (0, -1)),
    Kept(2, 2, &[6, 7, 10, 11]),
    Step::Drop,
    Read(
        block!(0, 0, 4, 3),
        &[5, 6, 7, 8, 9, 23, 24, 12, 9, 23, 24, 12],
    ),
    Write(block!(1, 1, 2, 2), &[1, 2, 3, 4]),
    Read(block!(0, 0, 4, 3), &[5, 6, 7, 8, 9, 1, 2, 12, 9, 3, 4, 12]),
    // Two rectangles move over one another in what a snapshot has.
    Take(block!(0, 0, 4, 3)),
    Move(&[rect!(1, 0, 3, 3), rect!(3, 1, 4, 2)], (1, 0)),
    Read(block!(0, 0, 4, 3), &[5, 5, 6, 8, 9, 9, 1, 2, 9, 9, 3, 12]),
    Kept(4, 3, &[5, 6, 7, 8, 9, 1, 2, 12, 9, 3, 4, 12]),
    Write(block!(0, 0, 4, 1), &[31, 32, 33, 34]),
    Kept(4, 3, &[5, 6, 7, 8, 9, 1, 2, 12, 9, 3, 4, 12]),
    Read(
        block!(0, 0, 4, 3),
        &[31, 32, 33, 34, 9, 9, 1, 2, 9, 9, 3, 12],
    ),
];

const LETTERS: &[u8; 30] = b"abcdefghijklmnopqrstuvwxyzABCD";

const TWO: Rects = &[rect!(1, 1, 5, 4), rect!(5, 4, 3, 2)];

const THREE: Rects = &[rect!(0, 0, 2, 5), rect!(3, 0, 5, 5), rect!(1, 2, 6, 3)];

const APART: Rects = &[rect!(5, 4, 6, 5), rect!(0, 0, 1, 1), rect!(2, 2, 4, 9)];

const ROWS: Rects = &[rect!(0, 1, 6, 3), rect!(-1, 3, 9, 4)];

/// Rectangles of the letters, row by row, an offset, and the letters once they were moved, by `bench/model.py moves`.
static MOVES: [(Rects, (i32, i32), &[u8; 30]); 72] = [
    (TWO, (-1, -1), b"abcdefgopqrlmuvwxrsABCDxyzABCD"),
    (TWO, (0, -1), b"abcdefgnopqlmtuvwrszABCxyzABCD"),
    (TWO, (1, -1), b"abcdefgmnoplmstuvrsyzABxyzABCD"),
    (TWO, (-1, 0), b"abcdefgijkllmopqrrsuvwxxyzABCD"),
    (TWO, (0, 0), b"abcdefghijklmnopqrstuvwxyzABCD"),
    (TWO, (1, 0), b"abcdefgghijlmmnoprsstuvxyzABCD"),
    (TWO, (-1, 1), b"abcdefgcdeflmijklrsopqrxyzABCD"),
    (TWO, (0, 1), b"abcdefgbcdelmhijkrsnopqxyzABCD"),
    (TWO, (1, 1), b"abcdefgabcdlmghijrsmnopxyzABCD"),
    (TWO, (-2, -2), b"abcdefgvwxklmBCDqrstuvwxyzABCD"),
    (TWO, (0, -2), b"abcdefgtuvwlmzABCrstuvwxyzABCD"),
    (TWO, (2, -2), b"abcdefghstulmnyzArstuvwxyzABCD"),
    (TWO, (-2, 0), b"abcdefgjklklmpqrqrsvwxwxyzABCD"),
    (TWO, (0, 0), b"abcdefghijklmnopqrstuvwxyzABCD"),
    (TWO, (2, 0), b"abcdefghghilmnmnorststuxyzABCD"),
    (TWO, (-2, 2), b"abcdefghijklmdefqrsjklwxyzABCD"),
    (TWO, (0, 2), b"abcdefghijklmbcdershijkxyzABCD"),
    (TWO, (2, 2), b"abcdefghijklmnabcrstghixyzABCD"),
    (THREE, (-1, -1), b"hicklfnoiqrltuvwxrzAuCDxyzABCD"),
    (THREE, (0, -1), b"ghcjkfmnipqlstuvwxyzuBCxyzABCD"),
    (THREE, (1, -1), b"agcijfgmioplmstuvwsyuABxyzABCD"),
    (THREE, (-1, 0), b"bcceffhiikllnopqrrtuuwxxzAACDD"),
    (THREE, (0, 0), b"abcdefghijklmnopqrstuvwxyzABCD"),
    (THREE, (1, 0), b"aaccdfggiijlmmnopqssuuvxyyAABD"),
    (THREE, (-1, 1), b"abcdefbcieflhijklrnouqrxtuAwxD"),
    (THREE, (0, 1), b"abcdefabidelghijklmnupqxstAvwD"),
    (THREE, (1, 1), b"abcdefgaicdlmghijksmuopxysAuvD"),
    (THREE, (-2, -2), b"opcrefuvixklABCDqrstuvwxyzABCD"),
    (THREE, (0, -2), b"mncpqfstivwlyzABCDstuvwxyzABCD"),
    (THREE, (2, -2), b"abcnofghitulmnyzABstuvwxyzABCD"),
    (THREE, (-2, 0), b"cdcfefijilklopqrqruvuxwxABADCD"),
    (THREE, (0, 0), b"abcdefghijklmnopqrstuvwxyzABCD"),
    (THREE, (2, 0), b"abcbcfghihilmnmnopstutuxyzAzAD"),
    (THREE, (-2, 2), b"abcdefghijklcdefqrijulwxopArCD"),
    (THREE, (0, 2), b"abcdefghijklabcdefghujkxmnApqD"),
    (THREE, (2, 2), b"abcdefghijklmnabcdstuhixyzAnoD"),
    (APART, (-1, -1), b"hbcdefghijklmnvwqrstBCwxyzABCD"),
    (APART, (0, -1), b"gbcdefghijklmnuvqrstABwxyzABCD"),
    (APART, (1, -1), b"abcdefghijklmntuqrstzAwxyzABCD"),
    (APART, (-1, 0), b"bbcdefghijklmnpqqrstvwwxyzBCCD"),
    (APART, (0, 0), b"abcdefghijklmnopqrstuvwxyzABCD"),
    (APART, (1, 0), b"abcdefghijklmnnoqrsttuwxyzzACC"),
    (APART, (-1, 1), b"abcdefghijklmnjkqrstpqwxyzvwCD"),
    (APART, (0, 1), b"abcdefghijklmnijqrstopwxyzuvCx"),
    (APART, (1, 1), b"abcdefghijklmnhiqrstnowxyztuCw"),
    (APART, (-2, -2), b"obcdefghijklmnCDqrstuvwxyzABCD"),
    (APART, (0, -2), b"mbcdefghijklmnABqrstuvwxyzABCD"),
    (APART, (2, -2), b"abcdefghijklmnyzqrstuvwxyzABCD"),
    (APART, (-2, 0), b"cbcdefghijklmnqrqrstwxwxyzCDCD"),
    (APART, (0, 0), b"abcdefghijklmnopqrstuvwxyzABCD"),
    (APART, (2, 0), b"abcdefghijklmnmnqrststwxyzyzCB"),
    (APART, (-2, 2), b"abcdefghijklmnefqrstklwxyzqrCD"),
    (APART, (0, 2), b"abcdefghijklmncdqrstijwxyzopCr"),
    (APART, (2, 2), b"abcdefghijklmnabqrstghwxyzmnCp"),
    (ROWS, (-1, -1), b"abcdefnopqrltuvwxrzABCDxyzABCD"),
    (ROWS, (0, -1), b"abcdefmnopqrstuvwxyzABCDyzABCD"),
    (ROWS, (1, -1), b"abcdefgmnopqmstuvwsyzABCyzABCD"),
    (ROWS, (-1, 0), b"abcdefhijkllnopqrrtuvwxxyzABCD"),
    (ROWS, (0, 0), b"abcdefghijklmnopqrstuvwxyzABCD"),
    (ROWS, (1, 0), b"abcdefgghijkmmnopqsstuvwyzABCD"),
    (ROWS, (-1, 1), b"abcdefbcdeflhijklrnopqrxyzABCD"),
    (ROWS, (0, 1), b"abcdefabcdefghijklmnopqryzABCD"),
    (ROWS, (1, 1), b"abcdefgabcdemghijksmnopqyzABCD"),
    (ROWS, (-2, -2), b"abcdefuvwxklABCDqrstuvwxyzABCD"),
    (ROWS, (0, -2), b"abcdefstuvwxyzABCDstuvwxyzABCD"),
    (ROWS, (2, -2), b"abcdefghstuvmnyzABstuvwxyzABCD"),
    (ROWS, (-2, 0), b"abcdefijklklopqrqruvwxwxyzABCD"),
    (ROWS, (0, 0), b"abcdefghijklmnopqrstuvwxyzABCD"),
    (ROWS, (2, 0), b"abcdefghghijmnmnopststuvyzABCD"),
    (ROWS, (-2, 2), b"abcdefghijklcdefqrijklwxyzABCD"),
    (ROWS, (0, 2), b"abcdefghijklabcdefghijklyzABCD"),
    (ROWS, (2, 2), b"abcdefghijklmnabcdstghijyzABCD"),
];
