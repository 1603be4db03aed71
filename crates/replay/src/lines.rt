//! The lines of a session: those of a script, and those that a script has not.

ghost use Rattle.std.specs.Prelude.{◌≡◌, ◌≤◌, ◌∷◌, length, IfOk, option_map, drop};
ghost use Rattle.play_script.specs.Words.{words_of};
ghost use Rattle.play_script.specs.Lines.{started_by, done_by};
ghost use Rattle.replay.specs.Lines.{behind_rects, corner, corners, desktop_of, own_line, rects_of, region_event, region_of, session_line, verb_of};

use listed::Listed;
use play_script::{Line, hex_bytes, number, parse_line, signed, split_word, word, word_count};
use region::Rect;
use screen::{Config, Event, History};
use std::alloc::{AllocError, Global};

/// The commands that a session has besides a script's, or with more than a script may say.
#[derive(Clone, Copy)]
enum Verb {
    Desktop,
    Mark,
    Schedule,
    DoCopy,
}

fn verb_of(word: &[u8]) -> Option<Verb>
    ensures { result ≡ verb_of word.now }
{
    match word {
        b"mark" | b"marks" => Some(Verb::Mark),
        b"schedule" | b"schedules" => Some(Verb::Schedule),
        b"docopy" | b"docopies" => Some(Verb::DoCopy),
        b"desktop" => Some(Verb::Desktop),
        _ => None,
    }
}

/// Reads a corner or an offset: a number of a script, or -2^31, which a script can't say.
fn corner(word: &[u8]) -> Option<i32>
    ensures { result ≡ corner word.now }
{
    if word == b"-2147483648".as_slice() {
        return Some(i32::MIN);
    }
    signed(word)
}

/// Reads a number for each word behind the command.
fn corners_of(alloc: Global, line: &[u8]) -> Result<Option<Vec<i32>>, AllocError>
    ensures { IfOk result (λ found. option_map (λ numbers. numbers.items) found ≡ corners (drop 1 (words_of line.now))) }
{
    let mut numbers = Vec::new(alloc);
    let (_, mut rest) = split_word(line);
    while let Some(text) = rest {
        let (word, more) = split_word(text);
        let Some(number) = corner(word) else {
            return Ok(None);
        };
        numbers.push(number)?;
        rest = more;
    }
    Ok(Some(numbers))
}

/// Returns the rectangle of the first four numbers.
fn rect_of(numbers: &[i32]) -> Rect
    requires { 4 ≤ length numbers.now }
    ensures rects { rects_of numbers.now ≡ result ∷ rects_of (drop 4 numbers.now) }
    ensures behind { behind_rects numbers.now ≡ behind_rects (drop 4 numbers.now) }
{
    Rect {
        x1: numbers[0],
        y1: numbers[1],
        x2: numbers[2],
        y2: numbers[3],
    }
}

/// Takes a rectangle for each four numbers, and hands on the numbers behind these.
fn rects_of(alloc: Global, numbers: &[i32]) -> Result<(Listed<Rect>, &[i32]), AllocError>
    ensures rects { IfOk result (λ found. found.0 ≡ rects_of numbers.now) }
    ensures behind { IfOk result (λ found. found.1.now ≡ behind_rects numbers.now) }
{
    let mut rects = Listed::new(alloc);
    let mut rest = numbers;
    while rest.len() >= 4 {
        rects.push(rect_of(rest))?;
        rest = &rest[4..];
    }
    Ok((rects, rest))
}

/// Returns the event of a region, which the numbers of `behind` follow, if they are those that `verb` needs.
fn region_event(verb: Verb, rects: Listed<Rect>, behind: &[i32]) -> Option<Event>
    ensures { result ≡ region_event verb rects behind.now }
{
    match (verb, behind) {
        (Verb::Mark, []) => Some(Event::Mark { rects }),
        (Verb::Schedule, [dx, dy]) => Some(Event::ScheduleCopy {
            rects,
            dx: *dx,
            dy: *dy,
        }),
        (Verb::DoCopy, [dx, dy]) => Some(Event::DoCopy {
            rects,
            dx: *dx,
            dy: *dy,
        }),
        _ => None,
    }
}

// Reads `marks X1 Y1 X2 Y2 ..`, `schedules X1 Y1 X2 Y2 .. DX DY` and `docopies X1 Y1 X2 Y2 .. DX DY`.
fn region_line(alloc: Global, verb: Verb, line: &[u8]) -> Result<Line, AllocError>
    ensures { IfOk result (λ l. l ≡ done_by (region_of verb (words_of line.now))) }
{
    let Some(numbers) = corners_of(alloc, line)? else {
        return Ok(Line::Bad);
    };
    let (rects, behind) = rects_of(alloc, &numbers)?;
    match region_event(verb, rects, behind) {
        Some(event) => Ok(Line::Do(event)),
        None => Ok(Line::Bad),
    }
}

// Reads `desktop W H HEX LIMIT`.
#[tactic(auto, unfolding(crate::specs::Lines::desktop_in))]
fn desktop_line(alloc: Global, line: &[u8]) -> Result<Line, AllocError>
    ensures { IfOk result (λ l. l ≡ started_by (desktop_of (words_of line.now))) }
{
    if word_count(line) != 5 {
        return Ok(Line::Bad);
    }
    let (Some(width), Some(height)) = (number(word(line, 1)), number(word(line, 2))) else {
        return Ok(Line::Bad);
    };
    let Some(name) = hex_bytes(alloc, word(line, 3))? else {
        return Ok(Line::Bad);
    };
    let Some(rects_per_update) = number(word(line, 4)) else {
        return Ok(Line::Bad);
    };
    Ok(Line::Start(Config {
        width,
        height,
        name: Listed::from_vec(name),
        rects_per_update,
        history: History::NotKept,
    }))
}

/// Reads a line that no script has.
fn own_line(alloc: Global, line: &[u8]) -> Result<Line, AllocError>
    ensures { IfOk result (λ l. l ≡ own_line (words_of line.now)) }
{
    match verb_of(word(line, 0)) {
        Some(Verb::Desktop) => desktop_line(alloc, line),
        Some(verb) => region_line(alloc, verb, line),
        None => Ok(Line::Bad),
    }
}

/// Reads a line of a session. Beside the lines of a script there are
///
/// ```text
/// desktop W H HEX LIMIT                     a screen whose name a script can't say
/// marks X1 Y1 X2 Y2 ..                      owes a region of any number of rectangles
/// schedules X1 Y1 X2 Y2 .. DX DY            copies to one
/// docopies X1 Y1 X2 Y2 .. DX DY
/// ```
///
/// and a corner or an offset may be -2^31. `mark`, `schedule` and `docopy` may have any number of rectangles too.
pub fn session_line(alloc: Global, line: &[u8]) -> Result<Line, AllocError>
    ensures { IfOk result (λ l. l ≡ session_line line.now) }
{
    match parse_line(alloc, line)? {
        Line::Bad => own_line(alloc, line),
        said => Ok(said),
    }
}
