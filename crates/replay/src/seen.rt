//! What a viewer saw.

ghost use Rattle.std.specs.Prelude.{◌≡◌, true, OnOk};
ghost use Rattle.messages.specs.Grammar.{version_of};
ghost use Rattle.messages.specs.Reading.{is_version, major_of, minor_of};
ghost use Rattle.replay.specs.declared.replaying.Question.TheVariants as question;
ghost use Rattle.replay.specs.Reading.{ahead, Grows, Judged};

use crate::answered::Answered;
use crate::pictures::{NOTHING, Row, write_head};
use crate::replaying::Question;
use crate::session::Session;
use crate::stop::Stop;
use messages::Version;
use pixel_translate::{Component, PixelFormat, Pixels};
use play_script::trouble::{Trouble, print};
use rfb_viewer::Shown;
use screen::{Event, Settings};
use std::alloc::{AllocError, Global};
use std::io::{BufRead, Write};

/// How many bytes a version has (RFC 6143 section 7.1.1).
const VERSION_LENGTH: usize = 12;

/// A viewer by RFC 6143, which takes what it said, and what it was sent.
#[derive(Drop)]
struct Watcher {
    alloc: Global,
    /// What it shows, once its version is known.
    shown: Option<Shown>,
    /// What it said until then.
    said: Vec<u8>,
    /// What it was sent until then.
    early: Vec<u8>,
}

/// Reads a viewer's version: every one but 3.7 and 3.8 is served as 3.3 (RFC 6143 section 7.1.1 and appendix A).
fn version_of(text: &[u8]) -> Version
    ensures { is_version text.now ≡ true → result ≡ version_of (major_of text.now) (minor_of text.now) }
{
    match text {
        b"RFB 003.007\n" => Version::V37,
        b"RFB 003.008\n" => Version::V38,
        _ => Version::V33,
    }
}

/// Returns a component of a pixel, as a byte.
fn part(pixel: u32, component: Component) -> u8 {
    if component.max == 0 {
        return 0;
    }
    let value = (pixel >> (u32::from(component.shift) % 32)) & u32::from(component.max);
    (u64::from(value) * 255 / u64::from(component.max)).min(255) as u8
}

/// Returns the colour that a pixel of `format` shows: red, green and blue.
fn colour(shown: &Shown, format: PixelFormat, pixel: u32) -> [u8; 3] {
    match format.pixels {
        Pixels::TrueColour {
            red,
            green,
            blue,
            ..
        } => [part(pixel, red), part(pixel, green), part(pixel, blue)],
        Pixels::ColourMap => match shown.map((pixel % 256) as u8) {
            Some((red, green, blue)) => [
                (red / 256) as u8,
                (green / 256) as u8,
                (blue / 256) as u8,
            ],
            None => NOTHING,
        },
    }
}

/// Appends row `y` of what a viewer shows, of `columns` places.
fn put_row(shown: &Shown, columns: u32, y: u32, row: &mut Row) -> Result<(), AllocError> {
    for x in 0..columns {
        let colour = match shown.place(x, y) {
            Some((format, pixel)) => colour(shown, format, pixel),
            None => NOTHING,
        };
        row.extend_from_slice(&colour)?;
    }
    Ok(())
}

/// Writes a picture of what a viewer shows.
fn write_shown<W: Write>(alloc: Global, writer: &mut W, shown: &Shown) -> Result<(), Trouble>
    ensures { OnOk result (Grows (W.contents writer.old) (W.contents writer.new)) }
{
    let (columns, rows) = shown.size();
    write_head(alloc, writer, u32::from(columns), u32::from(rows))?;
    let mut row = Vec::new(alloc);
    for y in 0..u32::from(rows) {
        row.clear();
        put_row(shown, u32::from(columns), y, &mut row)?;
        print(writer, &row)?;
    }
    Ok(())
}

impl Watcher {
    fn new(alloc: Global) -> Watcher {
        Watcher {
            alloc,
            shown: None,
            said: Vec::new(alloc),
            early: Vec::new(alloc),
        }
    }

    /// Hears a piece that may end the viewer's version. Where its first bytes are no version, it is sent nothing more.
    fn open(&mut self, piece: &[u8]) -> Result<(), AllocError> {
        self.said.extend_from_slice(piece)?;
        if self.said.len() >= VERSION_LENGTH {
            let mut shown = Shown::new(self.alloc, version_of(&self.said[..VERSION_LENGTH]));
            let _fault = shown.told(&self.early);
            self.shown = Some(shown);
        }
        Ok(())
    }

    /// Hears a piece of what the viewer said, behind which it has set `settings`.
    fn hear(&mut self, piece: &[u8], settings: &Settings) -> Result<(), AllocError> {
        if self.shown.is_none() {
            self.open(piece)?;
        }
        // a request changes nothing that it shows: real viewers keep the picture until the answer comes
        if let Some(shown) = &mut self.shown {
            let _bytes = shown.format(&settings.format);
        }
        Ok(())
    }

    /// Takes bytes that the viewer was sent. Where they are none of RFC 6143's it shows nothing from then on.
    fn receive(&mut self, bytes: &[u8]) -> Result<(), AllocError> {
        match &mut self.shown {
            Some(shown) => {
                let _fault = shown.told(bytes);
            }
            None => self.early.extend_from_slice(bytes)?,
        }
        Ok(())
    }

    /// Takes an event with its answer, behind which the viewer has set `settings`, if it is there. A viewer that comes has neither said
    /// nor seen anything.
    fn watch(&mut self, answered: &Answered, settings: Option<Settings>) -> Result<(), AllocError> {
        match (&answered.event, settings) {
            (Event::Connect { .. }, _) => *self = Watcher::new(self.alloc),
            (Event::Hear { piece, .. }, Some(settings)) => {
                self.hear(piece.as_slice(), &settings)?;
            }
            _ => {}
        }
        self.receive(answered.answer.bytes.as_slice())
    }

    /// Writes what it sees: an empty picture where its version isn't known.
    fn write<W: Write>(&self, writer: &mut W) -> Result<(), Trouble>
        ensures { OnOk result (Grows (W.contents writer.old) (W.contents writer.new)) }
    {
        match &self.shown {
            Some(shown) => write_shown(self.alloc, writer, shown),
            None => write_head(self.alloc, writer, 0, 0),
        }
    }
}

/// Watches a viewer to the end of a session.
fn watched<R: BufRead>(
    alloc: Global,
    session: &mut Session<'_, R>,
    viewer: u64,
) -> Result<Watcher, Stop>
    ensures { Judged (question.Seen viewer) (ahead session.old.left (R.remaining session.old.reader.now)) session.old.number session.new.number result }
{
    let mut watcher = Watcher::new(alloc);
    let Some(mut screen) = session.open()? else {
        return Ok(watcher);
    };
    while let Some(answered) = session.next_answered(&mut screen, Question::Seen(viewer))? {
        watcher.watch(&answered, screen.settings(viewer).ok())?;
    }
    Ok(watcher)
}

/// Writes a picture of what a viewer saw.
pub(crate) fn write_seen<R: BufRead, W: Write>(
    alloc: Global,
    session: &mut Session<'_, R>,
    writer: &mut W,
    viewer: u64,
) -> Result<(), Stop>
    ensures grows { OnOk result (Grows (W.contents writer.old) (W.contents writer.new)) }
    ensures judged { Judged (question.Seen viewer) (ahead session.old.left (R.remaining session.old.reader.now)) session.old.number session.new.number result }
{
    let watcher = watched(alloc, session, viewer)?;
    watcher.write(writer)?;
    Ok(())
}
