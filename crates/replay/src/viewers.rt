//! Who was there.

ghost use Rattle.std.specs.Prelude.{OnOk};
ghost use Rattle.replay.specs.declared.replaying.Question.TheVariants as question;
ghost use Rattle.replay.specs.Reading.{ahead, Grows, Judged};

use crate::answered::Answered;
use crate::replaying::Question;
use crate::session::Session;
use crate::stop::Stop;
use play_script::trouble::{Trouble, print};
use screen::{BitsPerPixel, Encoding, Event, Screen, Settings};
use std::alloc::{AllocError, Global};
use std::collections::BTreeMap;
use std::io::{BufRead, Write};

/// A viewer, and what became of it.
#[derive(Clone, Copy)]
struct Visit {
    viewer: u64,
    /// The lines of its first event and of its last one.
    first: u64,
    last: u64,
    /// What it had set when it was there last.
    settings: Option<Settings>,
    heard: u64,
    updates: u64,
    sent: u64,
    has_fault: bool,
    is_closed: bool,
}

impl Visit {
    fn new(viewer: u64, line: u64) -> Visit {
        Visit {
            viewer,
            first: line,
            last: line,
            settings: None,
            heard: 0,
            updates: 0,
            sent: 0,
            has_fault: false,
            is_closed: false,
        }
    }

    /// Counts an event of the viewer, with its answer.
    fn count(&mut self, line: u64, answered: &Answered) {
        let Answered { event, answer } = answered;
        self.last = line;
        self.sent = self.sent.saturating_add(answer.bytes.len() as u64);
        match event {
            Event::Hear { piece, .. } => {
                self.heard = self.heard.saturating_add(piece.len() as u64);
                self.has_fault = answer.closed.is_some();
            }
            Event::Cut { .. } if !answer.bytes.is_empty() => {
                self.updates = self.updates.saturating_add(1);
            }
            Event::Close { .. } => self.is_closed = true,
            _ => {}
        }
    }

    /// Returns how the viewer ended, or that it was there at the end.
    fn end(&self) -> &'static str {
        match (self.is_closed, self.has_fault) {
            (true, false) => "closed",
            (true, true) => "closed after a fault",
            (false, false) => "there",
            (false, true) => "there after a fault",
        }
    }

    /// Returns `viewer V lines A B encoding E bits N heard N updates N sent N END`, with a line feed.
    fn text(&self, alloc: Global) -> Result<String, AllocError> {
        format!(in alloc;
            "viewer {} lines {} {} encoding {} bits {} heard {} updates {} sent {} {}\n",
            self.viewer,
            self.first,
            self.last,
            encoding_name(self.settings),
            bits_name(self.settings),
            self.heard,
            self.updates,
            self.sent,
            self.end()
        )
    }
}

/// Returns the name of the encoding that a viewer set; of Raw, the server's first one, where it set none.
fn encoding_name(settings: Option<Settings>) -> &'static str {
    match settings.map(|settings| settings.encoding) {
        Some(Encoding::Rre) => "RRE",
        Some(Encoding::Hextile) => "Hextile",
        _ => "Raw",
    }
}

/// Returns the bits of the pixels that a viewer set; 32, the server's first, where it set none.
fn bits_name(settings: Option<Settings>) -> &'static str {
    match settings.map(|settings| settings.format.bits()) {
        Some(BitsPerPixel::Eight) => "8",
        Some(BitsPerPixel::Sixteen) => "16",
        _ => "32",
    }
}

/// The viewers of a session, in the order in which they came.
#[derive(Drop)]
struct Visits {
    all: Vec<Visit>,
    /// Where those stand that are there.
    places: BTreeMap<u64, usize>,
}

impl Visits {
    fn new(alloc: Global) -> Visits {
        Visits {
            all: Vec::new(alloc),
            places: BTreeMap::new(alloc),
        }
    }

    /// Adds a viewer that came.
    fn add(&mut self, viewer: u64, line: u64) -> Result<(), Trouble> {
        self.places.insert(viewer, self.all.len())?;
        self.all.push(Visit::new(viewer, line))?;
        Ok(())
    }

    /// Counts an event, if it is a viewer's.
    fn count(&mut self, line: u64, answered: &Answered, screen: &Screen) -> Result<(), Trouble> {
        let viewer = match &answered.event {
            Event::Connect { viewer } => {
                self.add(*viewer, line)?;
                *viewer
            }
            Event::Hear { viewer, .. } | Event::Cut { viewer } | Event::Close { viewer } => *viewer,
            _ => return Ok(()),
        };
        let Some(place) = self.places.get(&viewer) else {
            return Ok(());
        };
        if let Some(visit) = self.all.get_mut(*place) {
            visit.count(line, answered);
            if let Ok(settings) = screen.settings(viewer) {
                visit.settings = Some(settings);
            }
        }
        if matches!(answered.event, Event::Close { .. }) {
            let _place = self.places.remove(&viewer);
        }
        Ok(())
    }

    /// Writes a line for each viewer.
    #[tactic(auto, using(crate::proofs::Growing::grows_none))]
    fn write<W: Write>(&self, alloc: Global, writer: &mut W) -> Result<(), Trouble>
        ensures { OnOk result (Grows (W.contents writer.old) (W.contents writer.new)) }
    {
        for visit in &self.all {
            print(writer, visit.text(alloc)?.as_bytes())?;
        }
        Ok(())
    }
}

/// Counts what happens to each viewer, to the end of a session.
fn visits_of<R: BufRead>(alloc: Global, session: &mut Session<'_, R>) -> Result<Visits, Stop>
    ensures { Judged question.Viewers (ahead session.old.left (R.remaining session.old.reader.now)) session.old.number session.new.number result }
{
    let mut visits = Visits::new(alloc);
    let Some(mut screen) = session.open()? else {
        return Ok(visits);
    };
    while let Some(answered) = session.next_answered(&mut screen, Question::Viewers)? {
        visits.count(session.number(), &answered, &screen)?;
    }
    Ok(visits)
}

/// Writes a line for each viewer that was there: in which lines it came and had its last event, what it asked for, how many bytes of it
/// were heard, how many updates and bytes it was sent, and how it ended.
pub(crate) fn write_viewers<R: BufRead, W: Write>(
    alloc: Global,
    session: &mut Session<'_, R>,
    writer: &mut W,
) -> Result<(), Stop>
    ensures grows { OnOk result (Grows (W.contents writer.old) (W.contents writer.new)) }
    ensures judged { Judged question.Viewers (ahead session.old.left (R.remaining session.old.reader.now)) session.old.number session.new.number result }
{
    let visits = visits_of(alloc, session)?;
    visits.write(alloc, writer)?;
    Ok(())
}
