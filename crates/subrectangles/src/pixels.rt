//! Rows of colours translated, in places that are there already.

ghost use Rattle.std.specs.Prelude.{◌≡◌, ◌<◌, ◌^◌, true, length, map};
ghost use Rattle.pixel_translate.specs.Pixel.{pixel};

use crate::scan::stretch_from;
use pixel_translate::Table;

/// How many colours of a row are translated at a time: so few that their places are still near when they are written.
const PIXELS_AT_ONCE: usize = 256;

/// Writes the pixel of `one` where `piece` has it, and that of `other` everywhere else, and returns whether the piece has no other
/// colours than these. Has no branch in its loop, so that one step writes many places.
fn write_two(places: &mut [u32], piece: &[u32], one: u32, other: u32, table: &Table) -> bool
    requires room { length places.old ≡ length piece.now }
    requires columns { length piece.now < 2 ^ 16 }
    ensures { result ≡ true → places.new ≡ map (pixel table.now) piece.now }
{
    let one_pixel = table.translate(one);
    let other_pixel = table.translate(other);
    let mut strangers = 0u32;
    for x in 0..piece.len() {
        let colour = piece[x];
        places[x] = if colour == one {
            one_pixel
        } else {
            other_pixel
        };
        strangers += u32::from((colour != one) & (colour != other));
    }
    strangers == 0
}

/// Writes the pixel of each colour of `piece`. Doesn't translate a colour again that is the one before it.
fn write_each(places: &mut [u32], piece: &[u32], table: &Table)
    requires room { length places.old ≡ length piece.now }
    ensures { places.new ≡ map (pixel table.now) piece.now }
{
    let mut last = 0;
    let mut pixel = table.translate(last);
    for x in 0..piece.len() {
        if piece[x] != last {
            last = piece[x];
            pixel = table.translate(last);
        }
        places[x] = pixel;
    }
}

/// Returns the other colour of a piece that may have two: the first that isn't the one in front, or that one if there is no other.
/// `None` if the first three stretches are of three colours. It is only a guess.
fn other_colour(piece: &[u32]) -> Option<u32>
    requires { 0 < length piece.now }
{
    let second = stretch_from(piece, 0);
    if second == piece.len() {
        return Some(piece[0]);
    }
    let third = second + stretch_from(piece, second);
    if third < piece.len() && piece[third] != piece[0] {
        return None;
    }
    Some(piece[second])
}

/// Writes the pixel of each colour of `piece`. If it may have just two colours, as a piece of text has, takes it first for one that
/// has.
fn write_piece(places: &mut [u32], piece: &[u32], table: &Table)
    requires room { length places.old ≡ length piece.now }
    requires some { 0 < length piece.now }
    requires columns { length piece.now < 2 ^ 16 }
    ensures { places.new ≡ map (pixel table.now) piece.now }
{
    if let Some(other) = other_colour(piece) {
        if write_two(places, piece, piece[0], other, table) {
            return;
        }
    }
    write_each(places, piece, table);
}

/// Writes the pixel of each colour of `row`, a piece of it at a time.
pub(crate) fn write_row(places: &mut [u32], row: &[u32], table: &Table)
    requires room { length places.old ≡ length row.now }
    requires columns { length row.now < 2 ^ 16 }
    ensures { places.new ≡ map (pixel table.now) row.now }
{
    let mut from = 0;
    while from < row.len() {
        let end = from + (row.len() - from).min(PIXELS_AT_ONCE);
        write_piece(&mut places[from..end], &row[from..end], table);
        from = end;
    }
}
