//! The whole lines of a reader.

ghost use Rattle.std.specs.Prelude.{◌≡◌, true, IfOk, MatchOption};
ghost use Rattle.std.specs.Io.KnownBytes.{Keeps};
ghost use Rattle.replay.specs.Reading.{IsPiece, TakesLine, TakesPiece};

use memchr::memchr;
use play_script::trouble::Trouble;
use std::io::{BufRead, ErrorKind};

/// The longest line that is read, in bytes, without its line feed.
pub const LINE_LIMIT: usize = 1 << 27;

/// What a piece of a line ends with.
#[derive(Clone, Copy)]
enum PieceEnd {
    /// The line feed.
    LineFeed,
    /// The end of what the reader has at hand.
    Room,
    /// The end of all.
    Input,
}

/// A piece of a line at the front of what the reader has at hand: how many bytes of the line it has, and how many with its line feed.
#[derive(Clone, Copy)]
struct Piece {
    count: usize,
    taken: usize,
    end: PieceEnd,
}

/// Finds the end of a line in what the reader has at hand.
fn piece_of(available: &[u8]) -> Piece
    ensures { IsPiece available.now result.count result.taken result.end }
{
    let count = available.len();
    match memchr(b'\n', available) {
        Some(end) => Piece {
            count: end,
            taken: end + 1,
            end: PieceEnd::LineFeed,
        },
        None => Piece {
            count,
            taken: count,
            end: if count == 0 {
                PieceEnd::Input
            } else {
                PieceEnd::Room
            },
        },
    }
}

/// Takes what the reader has at hand of a line, and appends it to `line` without its line feed. Takes nothing where the read was
/// interrupted. Fails as `ReadFault`.
fn try_piece<R: BufRead>(reader: &mut R, line: &mut Vec<u8>) -> Result<Option<PieceEnd>, Trouble>
    ensures { IfOk result (λ found. MatchOption found
        (Keeps (R.remaining reader.old) (R.remaining reader.new) × (line.new.items ≡ line.old.items))
        (TakesPiece (R.remaining reader.old) (R.remaining reader.new) line.old.items line.new.items)) }
{
    let available = match reader.fill_buf() {
        Ok(available) => available,
        Err(error) if error.kind() == ErrorKind::Interrupted => return Ok(None),
        Err(_) => return Err(Trouble::ReadFault),
    };
    let piece = piece_of(available);
    line.extend_from_slice(&available[..piece.count])?;
    reader.consume(piece.taken);
    Ok(Some(piece.end))
}

/// Takes a piece of a line. Tries a read that was interrupted again.
fn take_piece<R: BufRead>(reader: &mut R, line: &mut Vec<u8>) -> Result<PieceEnd, Trouble>
    ensures { IfOk result (TakesPiece (R.remaining reader.old) (R.remaining reader.new) line.old.items line.new.items) }
{
    for _ in 0..u64::MAX {
        if let Some(end) = try_piece(reader, line)? {
            return Ok(end);
        }
    }
    Err(Trouble::ReadFault)
}

/// Reads the next whole line into `line`, without its line feed, and says whether there was one. What stands behind the last line feed is
/// none, since it may be the beginning of a line that was cut. Refuses a line of more than 2^27 bytes as `TooLong`.
pub(crate) fn read_line<R: BufRead>(reader: &mut R, line: &mut Vec<u8>) -> Result<bool, Trouble>
    ensures { IfOk result (TakesLine (R.remaining reader.old) (R.remaining reader.new) line.new.items) }
{
    line.clear();
    while line.len() <= LINE_LIMIT {
        match take_piece(reader, line)? {
            PieceEnd::LineFeed => return within_limit(line.len()),
            PieceEnd::Room => {}
            PieceEnd::Input => return Ok(false),
        }
    }
    Err(Trouble::TooLong)
}

/// Accepts a line of `count` bytes. Refuses more than 2^27 as `TooLong`.
fn within_limit(count: usize) -> Result<bool, Trouble>
    ensures { IfOk result (λ found. found ≡ true) }
{
    if count > LINE_LIMIT {
        return Err(Trouble::TooLong);
    }
    Ok(true)
}
