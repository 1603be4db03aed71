//! A session, replayed.

ghost use Rattle.std.specs.Prelude.{◌≡◌, ◌⊎◌, OnOk, IfSome, None};
ghost use Rattle.std.specs.Io.KnownBytes.{Appends};
ghost use Rattle.play_script.specs.Texts.{bad_line};
ghost use Rattle.replay.specs.BadLines.{first_bad_line};
ghost use Rattle.replay.specs.Reading.{ahead, Answers, AnswersTo, Judged, lines_ahead, Names};

use crate::pictures::write_drawn;
use crate::redacted::write_redacted;
use crate::seen::write_seen;
use crate::sent::write_sent;
use crate::session::Session;
use crate::stop::Stop;
use crate::viewers::write_viewers;
use play_script::bad_line_text;
use play_script::trouble::{Trouble, flush, print, report};
use std::alloc::Global;
use std::io::{BufRead, Write};

/// What is asked of a session.
#[derive(Clone, Copy, Debug)]
pub enum Question {
    /// Who was there: a line for each viewer.
    Viewers,
    /// The bytes that a viewer was sent.
    Sent(u64),
    /// A picture of what a viewer saw at the end.
    Seen(u64),
    /// A picture of what was drawn at the end.
    Drawn,
    /// The session itself, with zeros in the place of what was typed, pointed at and copied at its viewers.
    Redacted,
}

/// A question, and how many lines of the session are read, at most.
#[derive(Clone, Copy, Debug)]
pub struct Asked {
    /// What is asked.
    pub question: Question,
    /// How many lines are read at most.
    pub lines: u64,
}

/// Writes what is asked of a session.
fn answer<R: BufRead, W: Write>(
    alloc: Global,
    session: &mut Session<'_, R>,
    writer: &mut W,
    question: Question,
) -> Result<(), Stop>
    ensures answers { OnOk result (IfSome (lines_ahead session.old.left (R.remaining session.old.reader.now)) (λ lines.
        AnswersTo question lines (W.contents writer.old) (W.contents writer.new))) }
    ensures judged { Judged question (ahead session.old.left (R.remaining session.old.reader.now)) session.old.number session.new.number result }
{
    match question {
        Question::Viewers => write_viewers(alloc, session, writer),
        Question::Sent(viewer) => write_sent(session, writer, viewer),
        Question::Seen(viewer) => write_seen(alloc, session, writer, viewer),
        Question::Drawn => write_drawn(alloc, session, writer),
        Question::Redacted => write_redacted(alloc, session, writer),
    }
}

/// Says which line is bad, and returns the status: 1; 3 after `out of memory`; 5 after a write that failed.
fn report_line<E: Write>(alloc: Global, errors: &mut E, number: u64) -> u8
    ensures status { (result ≡ 1) ⊎ (result ≡ 3) ⊎ (result ≡ 5) }
    ensures text { result ≡ 1 → Appends (E.contents errors.old) (E.contents errors.new) (bad_line number) }
{
    let Ok(text) = bad_line_text(alloc, number) else {
        return report(errors, Trouble::OutOfMemory);
    };
    if print(errors, &text).is_err() || flush(errors).is_err() {
        return 5;
    }
    1
}

/// Reads a session, and writes what is asked of it: a line for each viewer, the bytes that a viewer was sent, a picture, or the session
/// without what is secret. Leaves out what stands behind the last line feed.
///
/// Returns the status: 0; 1 after `bad line N`, which is the first line that says nothing that a session may say there, or an event that
/// is refused, of those that the question needs; 3 after `out of memory`; 5 after `read fault`, after `too long`, which is a line of more
/// than 2^27 bytes, and after a write that failed. These words go to `errors`, and nothing else does.
pub fn replay_over<R: BufRead, W: Write, E: Write>(
    alloc: Global,
    reader: &mut R,
    writer: &mut W,
    errors: &mut E,
    asked: Asked,
) -> u8
    // What it wrote is the answer to what it read, where reader and writer tell their bytes.
    ensures answers { result ≡ 0 → IfSome (R.remaining reader.old) (λ text.
        Answers asked text (W.contents writer.old) (W.contents writer.new)) }
    // Then no line that was asked for is bad, and no error is written.
    ensures good { result ≡ 0 → IfSome (R.remaining reader.old) (λ text. first_bad_line asked text ≡ None) }
    ensures silent { result ≡ 0 → E.contents errors.new ≡ E.contents errors.old }
    // The line that it names is the first bad one.
    ensures bad { result ≡ 1 → Names asked (R.remaining reader.old) (E.contents errors.old) (E.contents errors.new) }
    ensures status { (result ≡ 0) ⊎ (result ≡ 1) ⊎ (result ≡ 3) ⊎ (result ≡ 5) }
{
    let mut session = Session::new(alloc, reader, asked.lines);
    let answered = answer(alloc, &mut session, writer, asked.question);
    if flush(writer).is_err() {
        return 5;
    }
    match answered {
        Ok(()) => 0,
        Err(Stop::BadLine) => report_line(alloc, errors, session.number()),
        Err(Stop::Trouble(trouble)) => report(errors, trouble),
    }
}
