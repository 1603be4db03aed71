//! A session that is being read, event by event.

ghost use Rattle.std.specs.Prelude.{◌≡◌, ◌≢◌, ◌<◌, ◌+◌, ◌^◌, [], IfOk, IfErr, IfSome, List, None, true, is_some, MatchResult};
ghost use Rattle.screen.specs.declared.Config.{Config};
ghost use Rattle.screen.specs.declared.Event.{Event};
ghost use Rattle.screen.specs.Alone.{config_refusal, owner_of};
ghost use Rattle.screen.specs.Answers.{is_drawing, is_owner};
ghost use Rattle.screen.specs.State.{state};
ghost use Rattle.replay.specs.declared.replaying.Question.{Question};
ghost use Rattle.replay.specs.declared.stop.Stop.TheVariants as stop;
ghost use Rattle.replay.specs.BadLines.{needs};
ghost use Rattle.replay.specs.Reading.{ahead, GoesOn, lines_ahead, NextLine, NextText, Opens, Performs, Steps};

use crate::answered::Answered;
use crate::lines::session_line;
use crate::reading::read_line;
use crate::replaying::Question;
use crate::stop::Stop;
use play_script::Line;
use play_script::trouble::Trouble;
use screen::{Answer, Config, Event, Screen, ScreenError};
use std::alloc::Global;
use std::io::BufRead;

/// The lines of a session, from where it is read.
#[derive(Drop)]
pub(crate) struct Session<'a, R> {
    alloc: Global,
    reader: &'a mut R,
    /// How many lines were read, and how many more are read, at most.
    number: u64,
    left: u64,
    line: Vec<u8>,
    ghost counted: { number + left < 2 ^ 64 },
}

/// Makes the screen of a session. Refuses a configuration outside its limits as `BadLine`.
fn screen_by(alloc: Global, config: Config) -> Result<Screen, Stop>
    ensures made { IfOk result (λ screen. screen ≡ state config []) }
    ensures refused { MatchResult result (λ _. config_refusal config ≡ None) (λ s. s ≡ stop.BadLine → is_some (config_refusal config) ≡ true) }
{
    match Screen::new(alloc, config) {
        Ok(screen) => Ok(screen),
        Err(ScreenError::OutOfMemory) => Err(Stop::Trouble(Trouble::OutOfMemory)),
        Err(_) => Err(Stop::BadLine),
    }
}

/// Does an event of a session. Refuses an event that the screen refuses as `BadLine`.
fn perform(screen: &mut Screen, event: &Event) -> Result<Answer, Stop>
    ensures { (config : Config) (list : List Event) → screen.old ≡ state config list → Performs config list event.now screen.new result }
{
    let answer = screen.apply(event)?;
    if answer.refused.is_some() {
        return Err(Stop::BadLine);
    }
    Ok(answer)
}

/// Returns whether an event is a drawing call or the viewer's own: what the other viewers do changes nothing for it.
fn is_own(viewer: u64, event: &Event) -> bool
    ensures { result ≡ is_owner viewer (owner_of event.now) }
{
    match event {
        Event::Connect { viewer: owner }
        | Event::Hear { viewer: owner, .. }
        | Event::Cut { viewer: owner }
        | Event::Close { viewer: owner } => *owner == viewer,
        _ => true,
    }
}

/// Returns whether an event is a drawing call.
fn is_drawing(event: &Event) -> bool
    ensures { result ≡ is_drawing (owner_of event.now) }
{
    !matches!(
        event,
        Event::Connect { .. } | Event::Hear { .. } | Event::Cut { .. } | Event::Close { .. }
    )
}

/// Returns whether a question needs an event.
fn is_needed(question: Question, event: &Event) -> bool
    ensures { result ≡ needs question event.now }
{
    match question {
        Question::Viewers => true,
        Question::Sent(viewer) | Question::Seen(viewer) => is_own(viewer, event),
        Question::Drawn => is_drawing(event),
        Question::Redacted => false,
    }
}

/// Does the event of a line behind the screen's, if the question needs one. Refuses a line that is bad, has another screen, or has an
/// event that the screen refuses, as `BadLine`.
fn step(screen: &mut Screen, question: Question, line: Line) -> Result<Option<Answered>, Stop>
    ensures steps { (config : Config) (list : List Event) → screen.old ≡ state config list → Steps question config list line screen.new result }
    ensures kept { IfOk result (λ found. found ≡ None → screen.new ≡ screen.old) }
{
    match line {
        Line::Skipped => Ok(None),
        Line::Start(_) | Line::Bad => Err(Stop::BadLine),
        Line::Do(event) => {
            if !is_needed(question, &event) {
                return Ok(None);
            }
            let answer = perform(screen, &event)?;
            Ok(Some(Answered { event, answer }))
        }
    }
}

impl<'a, R: BufRead> Session<'a, R> {
    /// Returns the session that `reader` has, of which at most `lines` lines are read.
    pub fn new(alloc: Global, reader: &'a mut R, lines: u64) -> Session<'a, R>
        ensures reader { result.reader.now ≡ reader.old }
        ensures left { result.left ≡ lines }
        ensures number { result.number ≡ 0 }
    {
        Session {
            alloc,
            reader,
            number: 0,
            left: lines,
            line: Vec::new(alloc),
        }
    }

    /// Returns the number of the line that was read last.
    pub fn number(&self) -> u64
        ensures { result ≡ self.now.number }
    {
        self.number
    }

    /// Returns the line that was read last, without its line feed.
    pub fn line(&self) -> &[u8]
        ensures { result.now ≡ self.now.line.items }
    {
        &self.line
    }

    /// Reads a line, if there is one more.
    pub fn next_line(&mut self) -> Result<Option<Line>, Stop>
        ensures text { IfOk result (NextText (lines_ahead self.old.left (R.remaining self.old.reader.now)) (lines_ahead self.new.left (R.remaining self.new.reader.now)) self.new.line.items) }
        ensures line { IfOk result (NextLine (ahead self.old.left (R.remaining self.old.reader.now)) (ahead self.new.left (R.remaining self.new.reader.now))) }
        ensures fewer { IfOk result (λ found. IfSome found (λ _. self.new.left < self.old.left)) }
        ensures number { IfOk result (λ found. IfSome found (λ _. self.new.number ≡ self.old.number + 1)) }
        ensures err { IfErr result (λ s. s ≢ stop.BadLine) }
    {
        if self.left == 0 || !read_line(self.reader, &mut self.line)? {
            return Ok(None);
        }
        self.left -= 1;
        self.number += 1;
        Ok(Some(session_line(self.alloc, &self.line)?))
    }

    /// Reads on to the line of the screen, which comes first, and makes the screen, if there is such a line yet. Refuses a line that is
    /// bad, has an event, or has a configuration outside its limits, as `BadLine`.
    pub fn open(&mut self) -> Result<Option<Screen>, Stop>
        ensures { (q : Question) → Opens q (ahead self.old.left (R.remaining self.old.reader.now)) (ahead self.new.left (R.remaining self.new.reader.now)) self.old.number self.new.number result }
    {
        while let Some(line) = self.next_line()? {
            match line {
                Line::Skipped => {}
                Line::Start(config) => return Ok(Some(screen_by(self.alloc, config)?)),
                Line::Do(_) | Line::Bad => return Err(Stop::BadLine),
            }
        }
        Ok(None)
    }

    /// Reads on to the next event that a question needs, if there is one more, and does it. Refuses as `BadLine` what `step` refuses.
    pub fn next_answered(
        &mut self,
        screen: &mut Screen,
        question: Question,
    ) -> Result<Option<Answered>, Stop>
        ensures goes_on { (config : Config) (list : List Event) → screen.old ≡ state config list →
            GoesOn question config list screen.new (ahead self.old.left (R.remaining self.old.reader.now)) (ahead self.new.left (R.remaining self.new.reader.now)) self.old.number self.new.number result }
        ensures kept { IfOk result (λ found. found ≡ None → screen.new ≡ screen.old) }
        ensures fewer { IfOk result (λ found. IfSome found (λ _. self.new.left < self.old.left)) }
    {
        while let Some(line) = self.next_line()? {
            if let Some(answered) = step(screen, question, line)? {
                return Ok(Some(answered));
            }
        }
        Ok(None)
    }
}
