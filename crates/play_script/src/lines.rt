ghost use Rattle.std.specs.Prelude.{◌≡◌, ◌+◌, ◌∷◌, [], ◌≤◌, ◌^◌, length, IfOk, option_map, ◌<◌, ◌==◌, if◌then◌else◌};
ghost use Rattle.screen.specs.declared.Config.{Config};
ghost use Rattle.play_script.specs.Words.{words_of};
ghost use Rattle.play_script.specs.Lines.{is_skipped, verb_of, name_of, limit_of, config_of, places_by, places_of, spread};
ghost use Rattle.play_script.specs.Lines.{only_viewer, started_by, done_by, pixels_of, paint_of, write_of, corners_of, mark_of};
ghost use Rattle.play_script.specs.Lines.{move_of, schedule_of, copy_of, bell_of, text_of, size_in, resize_of, hear_of, line_of};

use crate::hex::{hex_bytes, hex_colours};
use crate::words::{NUMBER_LIMIT, number, signed, viewer_number, word, word_count};
use listed::Listed;
use region::Rect;
use screen::{Config, Event, History, MOST_PLACES};
use std::alloc::{AllocError, Global};

/// What a line of a script says.
#[derive(Debug, Drop)]
pub enum Line {
    /// Nothing: it is empty, or a comment.
    Skipped,
    /// A screen is made.
    Start(Config),
    /// The screen does an event.
    Do(Event),
    /// Anything else.
    Bad,
}

// The commands.
#[derive(Clone, Copy)]
enum Verb {
    Screen,
    Write,
    Paint,
    Mark,
    Schedule,
    DoCopy,
    Bell,
    CutText,
    Resize,
    Connect,
    Hear,
    Cut,
    Close,
}

// A rectangle, and how many places it has.
#[derive(Clone, Copy)]
struct Places {
    rect: Rect,
    count: u32,
}

// A rectangle with its colours, row by row.
#[derive(Drop)]
struct Pixels {
    rect: Rect,
    colours: Listed<u32>,
}

// A rectangle that is copied to, and by how much.
#[derive(Clone, Copy)]
struct Move {
    rect: Rect,
    dx: i32,
    dy: i32,
}

// What a screen is to be made with. The name still lies in the script.
#[derive(Clone, Copy)]
struct Asked<'a> {
    width: u32,
    height: u32,
    name: &'a [u8],
    rects_per_update: u32,
}

fn is_skipped(line: &[u8]) -> bool
    ensures { result ≡ is_skipped line.now }
{
    line.is_empty() || line[0] == b'#'
}

fn verb_of(word: &[u8]) -> Option<Verb>
    ensures { result ≡ verb_of word.now }
{
    match word {
        b"screen" => Some(Verb::Screen),
        b"write" => Some(Verb::Write),
        b"paint" => Some(Verb::Paint),
        b"mark" => Some(Verb::Mark),
        b"schedule" => Some(Verb::Schedule),
        b"docopy" => Some(Verb::DoCopy),
        b"bell" => Some(Verb::Bell),
        b"cuttext" => Some(Verb::CutText),
        b"resize" => Some(Verb::Resize),
        b"connect" => Some(Verb::Connect),
        b"hear" => Some(Verb::Hear),
        b"cut" => Some(Verb::Cut),
        b"close" => Some(Verb::Close),
        _ => None,
    }
}

// Returns the name that a word stands for; `-` stands for the empty one, and the empty word for none.
fn name_of(word: &[u8]) -> Option<&[u8]>
    ensures { option_map (λ name. name.now) result ≡ name_of word.now }
{
    if word.is_empty() {
        return None;
    }
    if word == b"-".as_slice() {
        Some(&[])
    } else {
        Some(word)
    }
}

fn limit_of(line: &[u8]) -> Option<u32>
    ensures { result ≡ limit_of (words_of line.now) }
{
    match word_count(line) {
        4 => Some(50),
        5 => number(word(line, 4)),
        _ => None,
    }
}

#[tactic(auto, unfolding(crate::specs::Lines::config_of))]
fn asked_of(line: &[u8]) -> Option<Asked<'_>>
    ensures { option_map (λ asked. record {
      width = asked.width;
      height = asked.height;
      name = asked.name.now;
      rects_per_update = asked.rects_per_update;
      history =
          History.NotKept;
    }) result ≡ config_of (words_of line.now) }
{
    let rects_per_update = limit_of(line)?;
    let width = number(word(line, 1))?;
    let height = number(word(line, 2))?;
    let name = name_of(word(line, 3))?;
    Some(Asked {
        width,
        height,
        name,
        rects_per_update,
    })
}

// Reads `screen W H NAME [LIMIT]`.
fn screen_line(alloc: Global, line: &[u8]) -> Result<Line, AllocError>
    ensures { IfOk result (λ l. l ≡ started_by (config_of (words_of line.now))) }
{
    let Some(asked) = asked_of(line) else {
        return Ok(Line::Bad);
    };
    let name = asked.name.to_vec(alloc)?;
    Ok(Line::Start(Config {
        width: asked.width,
        height: asked.height,
        name: Listed::from_vec(name),
        rects_per_update: asked.rects_per_update,
        history: History::NotKept,
    }))
}

fn places_by(x: u32, y: u32, width: u32, height: u32) -> Option<Places>
    requires x { x < 2 ^ 31 }
    requires y { y < 2 ^ 31 }
    requires width { width < 2 ^ 31 }
    requires height { height < 2 ^ 31 }
    ensures { result ≡ places_by x y width height }
{
    let right = x + width;
    let bottom = y + height;
    let count = u64::from(width) * u64::from(height);
    if right > NUMBER_LIMIT || bottom > NUMBER_LIMIT || count > u64::from(MOST_PLACES) {
        return None;
    }
    Some(Places {
        rect: Rect {
            x1: x as i32,
            y1: y as i32,
            x2: right as i32,
            y2: bottom as i32,
        },
        count: count as u32,
    })
}

#[tactic(auto, unfolding(crate::specs::Lines::places_of))]
fn places_of(line: &[u8]) -> Option<Places>
    ensures { result ≡ places_of (words_of line.now) }
{
    let x = number(word(line, 1))?;
    let y = number(word(line, 2))?;
    let width = number(word(line, 3))?;
    let height = number(word(line, 4))?;
    places_by(x, y, width, height)
}

// Returns `count` equal colours for one colour alone, and any others as they are.
fn spread(alloc: Global, count: u32, colours: Vec<u32>) -> Result<Vec<u32>, AllocError>
    ensures { IfOk result (λ all. all.items ≡ spread count colours.items) }
{
    if colours.len() == 1 {
        return vec![in alloc; colours[0]; count as usize];
    }
    Ok(colours)
}

// Reads `X Y W H PIXELS`.
#[tactic(auto, unfolding(crate::specs::Lines::pixels_of))]
fn pixels_of(alloc: Global, line: &[u8]) -> Result<Option<Pixels>, AllocError>
    ensures { IfOk result (λ pixels. pixels ≡ (if length (words_of line.now) == 6 then pixels_of (words_of line.now) else None)) }
{
    if word_count(line) != 6 {
        return Ok(None);
    }
    let Some(places) = places_of(line) else {
        return Ok(None);
    };
    let Some(colours) = hex_colours(alloc, word(line, 5))? else {
        return Ok(None);
    };
    let colours = spread(alloc, places.count, colours)?;
    Ok(Some(Pixels {
        rect: places.rect,
        colours: Listed::from_vec(colours),
    }))
}

// Reads `paint X Y W H PIXELS`.
fn paint_line(alloc: Global, line: &[u8]) -> Result<Line, AllocError>
    ensures { IfOk result (λ l. l ≡ done_by (if length (words_of line.now) == 6 then paint_of (words_of line.now) else None)) }
{
    match pixels_of(alloc, line)? {
        Some(Pixels { rect, colours }) => Ok(Line::Do(Event::Paint { rect, colours })),
        None => Ok(Line::Bad),
    }
}

// Reads `write X Y W H PIXELS`.
fn write_line(alloc: Global, line: &[u8]) -> Result<Line, AllocError>
    ensures { IfOk result (λ l. l ≡ done_by (if length (words_of line.now) == 6 then write_of (words_of line.now) else None)) }
{
    match pixels_of(alloc, line)? {
        Some(Pixels { rect, colours }) => Ok(Line::Do(Event::Write { rect, colours })),
        None => Ok(Line::Bad),
    }
}

// Reads `X1 Y1 X2 Y2`.
#[tactic(auto, unfolding(crate::specs::Lines::corners_of))]
fn corners_of(line: &[u8]) -> Option<Rect>
    ensures { result ≡ corners_of (words_of line.now) }
{
    let x1 = signed(word(line, 1))?;
    let y1 = signed(word(line, 2))?;
    let x2 = signed(word(line, 3))?;
    let y2 = signed(word(line, 4))?;
    Some(Rect { x1, y1, x2, y2 })
}

// Returns one rectangle as a list.
fn alone(alloc: Global, rect: Rect) -> Result<Listed<Rect>, AllocError>
    ensures { IfOk result (λ rects. rects ≡ rect ∷ []) }
{
    let mut rects = Listed::new(alloc);
    rects.push(rect)?;
    Ok(rects)
}

// Reads `mark X1 Y1 X2 Y2`.
fn mark_line(alloc: Global, line: &[u8]) -> Result<Line, AllocError>
    ensures { IfOk result (λ l. l ≡ done_by (mark_of (words_of line.now))) }
{
    if word_count(line) != 5 {
        return Ok(Line::Bad);
    }
    let Some(rect) = corners_of(line) else {
        return Ok(Line::Bad);
    };
    let rects = alone(alloc, rect)?;
    Ok(Line::Do(Event::Mark { rects }))
}

// Reads `X1 Y1 X2 Y2 DX DY`.
#[tactic(auto, unfolding(crate::specs::Lines::move_of))]
fn move_of(line: &[u8]) -> Option<Move>
    ensures { result ≡ move_of (words_of line.now) }
{
    let rect = corners_of(line)?;
    let dx = signed(word(line, 5))?;
    let dy = signed(word(line, 6))?;
    Some(Move { rect, dx, dy })
}

// Reads `schedule X1 Y1 X2 Y2 DX DY`.
fn schedule_line(alloc: Global, line: &[u8]) -> Result<Line, AllocError>
    ensures { IfOk result (λ l. l ≡ done_by (schedule_of (words_of line.now))) }
{
    if word_count(line) != 7 {
        return Ok(Line::Bad);
    }
    let Some(Move { rect, dx, dy }) = move_of(line) else {
        return Ok(Line::Bad);
    };
    let rects = alone(alloc, rect)?;
    Ok(Line::Do(Event::ScheduleCopy { rects, dx, dy }))
}

// Reads `docopy X1 Y1 X2 Y2 DX DY`.
fn copy_line(alloc: Global, line: &[u8]) -> Result<Line, AllocError>
    ensures { IfOk result (λ l. l ≡ done_by (copy_of (words_of line.now))) }
{
    if word_count(line) != 7 {
        return Ok(Line::Bad);
    }
    let Some(Move { rect, dx, dy }) = move_of(line) else {
        return Ok(Line::Bad);
    };
    let rects = alone(alloc, rect)?;
    Ok(Line::Do(Event::DoCopy { rects, dx, dy }))
}

// Reads `bell`.
fn bell_line(line: &[u8]) -> Line
    ensures { result ≡ done_by (bell_of (words_of line.now)) }
{
    if word_count(line) == 1 {
        Line::Do(Event::Bell)
    } else {
        Line::Bad
    }
}

// Reads `cuttext HEX`.
fn text_line(alloc: Global, line: &[u8]) -> Result<Line, AllocError>
    ensures { IfOk result (λ l. l ≡ done_by (text_of (words_of line.now))) }
{
    if word_count(line) != 2 {
        return Ok(Line::Bad);
    }
    let Some(text) = hex_bytes(alloc, word(line, 1))? else {
        return Ok(Line::Bad);
    };
    Ok(Line::Do(Event::CutText {
        text: Listed::from_vec(text),
    }))
}

// Reads `resize W H`.
#[tactic(auto, unfolding(crate::specs::Lines::size_in))]
fn resize_line(line: &[u8]) -> Line
    ensures { result ≡ done_by (resize_of (words_of line.now)) }
{
    if word_count(line) != 3 {
        return Line::Bad;
    }
    match (number(word(line, 1)), number(word(line, 2))) {
        (Some(width), Some(height)) => Line::Do(Event::Resize { width, height }),
        _ => Line::Bad,
    }
}

// Reads `hear V HEX`.
#[tactic(auto, unfolding(crate::specs::Lines::hear_of))]
fn hear_line(alloc: Global, line: &[u8]) -> Result<Line, AllocError>
    ensures { IfOk result (λ l. l ≡ done_by (if length (words_of line.now) == 3 then hear_of (words_of line.now) else None)) }
{
    if word_count(line) != 3 {
        return Ok(Line::Bad);
    }
    let Some(viewer) = viewer_number(word(line, 1)) else {
        return Ok(Line::Bad);
    };
    let Some(piece) = hex_bytes(alloc, word(line, 2))? else {
        return Ok(Line::Bad);
    };
    Ok(Line::Do(Event::Hear {
        viewer,
        piece: Listed::from_vec(piece),
    }))
}

// Reads the viewer's number of a line that has no other argument.
fn only_viewer(line: &[u8]) -> Option<u64>
    ensures { result ≡ only_viewer (words_of line.now) }
{
    if word_count(line) != 2 {
        return None;
    }
    viewer_number(word(line, 1))
}

fn done_by(event: Option<Event>) -> Line
    ensures { result ≡ done_by event }
{
    match event {
        Some(event) => Line::Do(event),
        None => Line::Bad,
    }
}

/// Returns what a line says. Takes memory for a name, a text, a viewer's bytes, the colours of a picture, and a rectangle that is marked
/// or copied to.
pub fn parse_line(alloc: Global, line: &[u8]) -> Result<Line, AllocError>
    ensures { IfOk result (λ l. l ≡ line_of line.now) }
{
    if is_skipped(line) {
        return Ok(Line::Skipped);
    }
    let Some(verb) = verb_of(word(line, 0)) else {
        return Ok(Line::Bad);
    };
    match verb {
        Verb::Screen => screen_line(alloc, line),
        Verb::Write => write_line(alloc, line),
        Verb::Paint => paint_line(alloc, line),
        Verb::Mark => mark_line(alloc, line),
        Verb::Schedule => schedule_line(alloc, line),
        Verb::DoCopy => copy_line(alloc, line),
        Verb::Bell => Ok(bell_line(line)),
        Verb::CutText => text_line(alloc, line),
        Verb::Resize => Ok(resize_line(line)),
        Verb::Connect => Ok(done_by(only_viewer(line).map(|viewer| Event::Connect { viewer }))),
        Verb::Hear => hear_line(alloc, line),
        Verb::Cut => Ok(done_by(only_viewer(line).map(|viewer| Event::Cut { viewer }))),
        Verb::Close => Ok(done_by(only_viewer(line).map(|viewer| Event::Close { viewer }))),
    }
}
