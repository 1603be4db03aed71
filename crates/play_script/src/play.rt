ghost use Rattle.std.specs.Prelude.{◌≡◌, ℕ, ◌+◌, ◌^◌, ◌≤◌, ◌⊎◌, length, map, IfOk, OnOk, IfSome, Option};
ghost use Rattle.std.specs.Io.KnownBytes.{Appends, Keeps};
ghost use Rattle.play_script.specs.Lines.{line_of};
ghost use Rattle.play_script.specs.Texts.{bad_line};
ghost use Rattle.play_script.specs.Transcript.{Played, step_of, transcript, status_of};
ghost use Rattle.play_script.specs.declared.lines.Line.TheVariants as line;
ghost use Rattle.play_script.specs.Playing.{StandsFor, Says};

use crate::counted::CountedReader;
use crate::reading::read_script;
use crate::steps::Steps;
use crate::trouble::{Trouble, flush, print, report};
use crate::{Line, answer_text, bad_line_text, ok_text, parse_line, refusal_text, split_line};
use screen::{Config, Event, Screen, ScreenError};
use std::alloc::{AllocError, Global};
use std::io::{Read, Write};
use std::marker::Brand;
use std::sync::ledger::{Blank, Ledger};

// What is printed of a line, and the status where the script ends with it.
#[derive(Drop)]
struct Said {
    text: Vec<u8>,
    status: Option<u8>,
}

// Says `text`, behind which the script goes on.
fn goes_on(text: Vec<u8>) -> Said
    ensures { result ≡ record { text = text; status = None } }
{
    Said { text, status: None }
}

// Says `text`, behind which the script ends with the status 1.
fn is_over(text: Vec<u8>) -> Said
    ensures { result ≡ record { text = text; status = Some 1 } }
{
    Said {
        text,
        status: Some(1),
    }
}

fn bad_line(alloc: Global, number: u64) -> Result<Said, AllocError>
    ensures text { IfOk result (λ said. said.text.items ≡ bad_line number) }
    ensures status { IfOk result (λ said. said.status ≡ Some 1) }
{
    Ok(is_over(bad_line_text(alloc, number)?))
}

// Makes a screen, and says so. Ends the script where there is a screen already, and where `config` is refused.
fn start(
    alloc: Global,
    screen: &mut Option<Screen>,
    number: u64,
    config: Config,
) -> Result<Said, AllocError>
    ensures says { (played : Option Played) → StandsFor screen.old played →
        IfOk result (λ said. Says said screen.new (step_of number played (line.Start config))) }
    ensures status { IfOk result (λ said. IfSome said.status (λ status. status ≡ 1)) }
{
    if screen.is_some() {
        return bad_line(alloc, number);
    }
    match Screen::new(alloc, config) {
        Ok(made) => {
            *screen = Some(made);
            Ok(goes_on(ok_text(alloc)?))
        }
        Err(ScreenError::OutOfMemory) => Err(AllocError),
        Err(refusal) => Ok(is_over(refusal_text(alloc, refusal)?)),
    }
}

// Does `event` on the screen, and says the answer. Ends the script where there is no screen.
fn perform(
    alloc: Global,
    screen: &mut Option<Screen>,
    number: u64,
    event: &Event,
) -> Result<Said, AllocError>
    ensures says { (played : Option Played) → StandsFor screen.old played →
        IfOk result (λ said. Says said screen.new (step_of number played (line.Do event.now))) }
    ensures status { IfOk result (λ said. IfSome said.status (λ status. status ≡ 1)) }
{
    let Some(screen) = screen else {
        return bad_line(alloc, number);
    };
    let answer = screen.apply(event)?;
    Ok(goes_on(answer_text(alloc, event, &answer)?))
}

// Plays the line with a number.
fn step(
    alloc: Global,
    screen: &mut Option<Screen>,
    number: u64,
    line: &[u8],
) -> Result<Said, AllocError>
    ensures says { (played : Option Played) → StandsFor screen.old played →
        IfOk result (λ said. Says said screen.new (step_of number played (line_of line.now))) }
    ensures status { IfOk result (λ said. IfSome said.status (λ status. status ≡ 1)) }
{
    match parse_line(alloc, line)? {
        Line::Skipped => Ok(goes_on(Vec::new(alloc))),
        Line::Start(config) => start(alloc, screen, number, config),
        Line::Do(event) => perform(alloc, screen, number, &event),
        Line::Bad => bad_line(alloc, number),
    }
}

// Plays a whole script, line by line. Returns its status: 0, or 1 where it ended early.
fn play_text<W: Write>(alloc: Global, script: &[u8], writer: &mut W) -> Result<u8, Trouble>
    requires { length script.now ≤ 2 ^ 24 }
    ensures transcript { OnOk result (Appends (W.contents writer.old) (W.contents writer.new) (transcript script.now)) }
    ensures status { IfOk result (λ status. status ≡ status_of script.now) }
    ensures small { IfOk result (λ status. status ≤ 1) }
{
    let mut screen = None;
    let mut number = 0;
    let mut rest = Some(script);
    while let Some(text) = rest {
        let (line, more) = split_line(text);
        number += 1;
        let said = step(alloc, &mut screen, number, line)?;
        print(writer, &said.text)?;
        if let Some(status) = said.status {
            return Ok(status);
        }
        rest = more;
    }
    Ok(0)
}

fn play_whole<R: Read, W: Write, L: Ledger>(
    alloc: Global,
    reader: &mut CountedReader<'_, R, L>,
    writer: &mut W,
) -> Result<u8, Trouble>
    ensures transcript { OnOk result (IfSome (R.remaining reader.old.reader.now) (λ script.
        Appends (W.contents writer.old) (W.contents writer.new) (transcript script))) }
    ensures status { IfOk result (λ status. IfSome (R.remaining reader.old.reader.now) (λ script. status ≡ status_of script)) }
    ensures small { IfOk result (λ status. status ≤ 1) }
    ensures reads { reader.new.steps.now ≤ reader.old.steps.now + (2 ^ 24 + 1) }
    ensures same_count { reader.new.steps.ghost_name ≡ reader.old.steps.ghost_name }
{
    let script = read_script(alloc, reader)?;
    let status = play_text(alloc, &script, writer)?;
    flush(writer)?;
    Ok(status)
}

// Plays on a reader whose every read is counted.
fn play_by_reads<R: Read, W: Write, L: Ledger>(
    alloc: Global,
    reader: &mut CountedReader<'_, R, L>,
    writer: &mut W,
) -> u8
    ensures transcript { (result ≡ 0) ⊎ (result ≡ 1) → IfSome (R.remaining reader.old.reader.now) (λ script.
        Appends (W.contents writer.old) (W.contents writer.new) (transcript script) × (result ≡ status_of script)) }
    ensures status { (result ≡ 0) ⊎ (result ≡ 1) ⊎ (result ≡ 3) ⊎ (result ≡ 5) }
    ensures reads { reader.new.steps.now ≤ reader.old.steps.now + (2 ^ 24 + 1) }
    ensures same_count { reader.new.steps.ghost_name ≡ reader.old.steps.ghost_name }
{
    match play_whole(alloc, reader, writer) {
        Ok(status) => status,
        Err(trouble) => report(writer, trouble),
    }
}

/// Does what `play_over` does, and counts each read as one step.
pub fn play_counted<R: Read, W: Write, L: Ledger>(
    alloc: Global,
    reader: &mut R,
    writer: &mut W,
    steps: &mut Steps<L>,
) -> u8
    // What it wrote is the transcript of what it read, where reader and writer tell their bytes.
    ensures transcript { (result ≡ 0) ⊎ (result ≡ 1) → IfSome (R.remaining reader.old) (λ script.
        Appends (W.contents writer.old) (W.contents writer.new) (transcript script) × (result ≡ status_of script)) }
    ensures status { (result ≡ 0) ⊎ (result ≡ 1) ⊎ (result ≡ 3) ⊎ (result ≡ 5) }
    ensures reads { steps.new ≤ steps.old + (2 ^ 24 + 1) }
{
    play_by_reads(alloc, &mut CountedReader::new(reader, steps), writer)
}

// Plays, and counts the reads on a ledger that nobody looks into.
fn play_uncounted<R: Read, W: Write, L: Ledger>(
    alloc: Global,
    reader: &mut R,
    writer: &mut W,
    blank: Blank,
) -> u8
    requires name { blank.name ≡ L.name }
    requires parts { blank.parts ≡ L.parts }
    requires one { L.parts ≡ 1 }
    ensures transcript { (result ≡ 0) ⊎ (result ≡ 1) → IfSome (R.remaining reader.old) (λ script.
        Appends (W.contents writer.old) (W.contents writer.new) (transcript script) × (result ≡ status_of script)) }
    ensures status { (result ≡ 0) ⊎ (result ≡ 1) ⊎ (result ≡ 3) ⊎ (result ≡ 5) }
{
    let mut steps = Steps::<L>::new(blank);
    play_counted(alloc, reader, writer, &mut steps)
}

/// Reads a script whole and prints the answer to each line. Returns the status: 0; 1 where the script ended with a bad line or a refused
/// screen; 3 after `out of memory`; 5 after `read fault`, after `too long`, which is a script of more than 2^24 bytes, and after a write
/// that failed. Reads at most 2^24 + 1 times (`play_counted`).
pub fn play_over<R: Read, W: Write>(alloc: Global, reader: &mut R, writer: &mut W) -> u8
    // What it wrote is the transcript of what it read, where reader and writer tell their bytes.
    ensures transcript { (result ≡ 0) ⊎ (result ≡ 1) → IfSome (R.remaining reader.old) (λ script.
        Appends (W.contents writer.old) (W.contents writer.new) (transcript script) × (result ≡ status_of script)) }
    ensures status { (result ≡ 0) ⊎ (result ≡ 1) ⊎ (result ≡ 3) ⊎ (result ≡ 5) }
{
    play_uncounted::<R, W, Brand>(alloc, reader, writer, Blank::new(1))
}
