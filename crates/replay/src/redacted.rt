//! A session without what was typed, pointed at and copied at its viewers.

ghost use Rattle.std.specs.Prelude.{◌≡◌, ◌++◌, [], List, IfSome, OnOk, codes, is_some};
ghost use Rattle.std.specs.Io.KnownBytes.{Appends};
ghost use Rattle.redaction.specs.Following.{Follows};
ghost use Rattle.screen.specs.Alone.{config_refusal};
ghost use Rattle.screen.specs.declared.Event.{Event};
ghost use Rattle.replay.specs.declared.replaying.Question.TheVariants as question;
ghost use Rattle.replay.specs.BadLines.{has_screen_with, may_stand};
ghost use Rattle.replay.specs.Reading.{ahead, Judged, lines_ahead};
ghost use Rattle.replay.specs.Redacted.{redacted_as, redacted_lines, with_said};

use crate::session::Session;
use crate::stop::Stop;
use crate::texts::hear_line;
use play_script::Line;
use play_script::trouble::{Trouble, print};
use redaction::Redactor;
use screen::{Config, Event, config_refusal};
use std::alloc::Global;
use std::io::{BufRead, Write};

/// Returns whether a screen of this configuration is refused.
fn is_refused(config: &Config) -> bool
    ensures { result ≡ is_some (config_refusal config.now) }
{
    let name = config.name.as_slice();
    config_refusal(config.width, config.height, name, config.rects_per_update).is_some()
}

/// Returns whether a line may stand behind the screen's, which was read if `has_screen`, or before it.
fn may_stand(has_screen: bool, said: &Line) -> bool
    ensures { result ≡ may_stand has_screen said.now }
{
    match said {
        Line::Skipped => true,
        Line::Start(config) => !has_screen && !is_refused(config),
        Line::Do(_) => has_screen,
        Line::Bad => false,
    }
}

/// Returns whether there is a screen behind a line; `has_screen` says whether there was one before it.
fn has_screen_with(has_screen: bool, said: &Line) -> bool
    ensures { result ≡ has_screen_with has_screen said.now }
{
    has_screen || matches!(said, Line::Start(_))
}

/// Writes a line as it stands.
fn copy_line<W: Write>(writer: &mut W, line: &[u8]) -> Result<(), Trouble>
    ensures { OnOk result (Appends (W.contents writer.old) (W.contents writer.new) (line.now ++ codes "\n")) }
{
    print(writer, line)?;
    print(writer, b"\n")
}

/// Writes a line, with zeros in the place of what is secret in it.
fn write_line<W: Write>(
    alloc: Global,
    redactor: &mut Redactor,
    writer: &mut W,
    line: &[u8],
    said: Line,
) -> Result<(), Trouble>
    ensures { (events : List Event) → Follows redactor.old events → OnOk result
        (Appends (W.contents writer.old) (W.contents writer.new) (redacted_as events line.now said) × Follows redactor.new (with_said events said)) }
{
    let Line::Do(event) = said else {
        return copy_line(writer, line);
    };
    match redactor.redacted(event)? {
        Event::Hear { viewer, piece } => {
            let left = hear_line(alloc, viewer, piece.as_slice())?;
            print(writer, &left)
        }
        _ => copy_line(writer, line),
    }
}

/// Writes a session's lines as they stand, but what was heard of viewers with zeros in the place of what is secret. Refuses a line that
/// may not stand where it does as `BadLine`.
pub(crate) fn write_redacted<R: BufRead, W: Write>(
    alloc: Global,
    session: &mut Session<'_, R>,
    writer: &mut W,
) -> Result<(), Stop>
    ensures redacted { OnOk result (IfSome (lines_ahead session.old.left (R.remaining session.old.reader.now)) (λ lines.
        Appends (W.contents writer.old) (W.contents writer.new) (redacted_lines [] lines))) }
    ensures judged { Judged question.Redacted (ahead session.old.left (R.remaining session.old.reader.now)) session.old.number session.new.number result }
{
    let mut redactor = Redactor::new(alloc);
    let mut has_screen = false;
    while let Some(said) = session.next_line()? {
        if !may_stand(has_screen, &said) {
            return Err(Stop::BadLine);
        }
        has_screen = has_screen_with(has_screen, &said);
        write_line(alloc, &mut redactor, writer, session.line(), said)?;
    }
    Ok(())
}
