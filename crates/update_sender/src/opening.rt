//! A viewer's opening, from the server's version to the ServerInit (RFC 6143, 7.1 to 7.3).

ghost use Rattle.std.specs.Prelude.{◌≡◌, ◌++◌, List, ℕ, [], OnErr, OnOk, MatchResult};
ghost use Rattle.update_sender.specs.Serving.{GreetingEnds, Opens, IsOf, Hears, Replies, Sends, OpeningEnds, receipt_of};

use crate::hearing::hear_piece;
use crate::line::{Line, Listener, Speaker};
use crate::locked_screen::{HearOutcome, Parting};
use crate::reasons::no_fault;
use crate::shared::Shared;
use receipts::{Ended, Receipt};
use screen::Answer;
use std::io::{Read, Write};
use std::sync::Wait;
use std::sync::ledger::Ledger;

/// How an opening came out.
#[derive(Drop)]
pub enum Opened {
    /// The ServerInit is written. The viewer's two ends: one for `serve_reader`, one for `serve_sender`.
    Ready(Listener, Speaker),
    /// It broke off. What was heard and sent until then, and whether the viewer is closed: it is, unless memory was refused for that
    /// (`Shared::close`).
    Over(Receipt, Parting),
}

/// Writes the server's version, then hears the viewer and writes each answer as its piece is heard, until the ServerInit is
/// written. Where the reader is at its end, a read or a write fails, memory is refused, the viewer was closed by somebody
/// else, or it says what no message says, the opening is over and the viewer is closed; the answer to its last piece is
/// written first. Inputs that come in the last piece stay with the listener, and `serve_reader` puts them before all others.
pub fn serve_opening<L: Ledger, Rd: Read, W: Write, R: Wait>(
    rt: &R,
    shared: &Shared<L>,
    line: Line,
    reader: &mut Rd,
    writer: &mut W,
) -> Opened
    ensures opens { Opens (Rd.remaining reader.old) (Rd.remaining reader.new) (W.contents writer.old)
        (W.contents writer.new) line result }
    ensures viewer { IsOf line.listener.viewer result }
{
    let (mut listener, mut speaker, version) = line.ends();
    let greeted = greet(
        rt,
        shared,
        &mut listener,
        &mut speaker,
        version.as_slice(),
        reader,
        writer,
    );
    match greeted {
        Ok(()) => Opened::Ready(listener, speaker),
        Err(ended) => {
            let parting = shared.part(rt, listener.viewer());
            Opened::Over(receipt_of(listener, speaker, ended), parting)
        }
    }
}

/// Makes a viewer's receipt, of its two ends.
fn receipt_of(listener: Listener, speaker: Speaker, ended: Ended) -> Receipt
    ensures { result ≡ receipt_of listener speaker ended }
{
    Receipt {
        viewer: listener.viewer,
        pieces: listener.pieces,
        cuts: speaker.cuts,
        heard: listener.heard.into_listed(),
        sent: speaker.sent.into_listed(),
        ended,
    }
}

/// Writes the version, and then answers until the ServerInit is written.
fn greet<L: Ledger, Rd: Read, W: Write, R: Wait>(
    rt: &R,
    shared: &Shared<L>,
    listener: &mut Listener,
    speaker: &mut Speaker,
    version: &[u8],
    reader: &mut Rd,
    writer: &mut W,
) -> Result<(), Ended>
    ensures heard { MatchResult result
        (λ _. Hears (Rd.remaining reader.old) (Rd.remaining reader.new) listener.old listener.new [])
        (λ e. (unheard : List ℕ) × Hears (Rd.remaining reader.old) (Rd.remaining reader.new) listener.old listener.new unheard ×
        OpeningEnds e (Rd.remaining reader.new) unheard) }
    ensures sent { MatchResult result
        (λ _. (answers : List ℕ) × Sends (W.contents writer.old) (W.contents writer.new) speaker.old speaker.new (version.now ++ answers))
        (λ e. (added : List ℕ) × Sends (W.contents writer.old) (W.contents writer.new) speaker.old speaker.new added × GreetingEnds e added version.now) }
{
    speaker.write(writer, version)?;
    for _ in rt.forever() {
        if open_further(rt, shared, listener, speaker, reader, writer)? {
            return Ok(());
        }
    }
    unreachable!()
}

/// Writes the answer to a piece that was heard, and has its inputs wait. Why the opening ends with it, if it does.
fn reply<W: Write>(
    listener: &mut Listener,
    speaker: &mut Speaker,
    writer: &mut W,
    answer: Answer,
) -> Result<(), Ended>
    ensures sent { (added : List ℕ) × Sends (W.contents writer.old) (W.contents writer.new) speaker.old speaker.new added ×
        Replies result added answer }
    ensures waiting { OnOk result (listener.new ≡ record listener.old { waiting = answer.inputs }) }
    ensures err { OnErr result (listener.new ≡ listener.old) }
{
    speaker.write(writer, answer.bytes.as_slice())?;
    no_fault(answer.closed)?;
    listener.waiting = answer.inputs;
    Ok(())
}

/// Hears a piece, and writes its answer. Whether the viewer is open now.
fn open_further<L: Ledger, Rd: Read, W: Write, R: Wait>(
    rt: &R,
    shared: &Shared<L>,
    listener: &mut Listener,
    speaker: &mut Speaker,
    reader: &mut Rd,
    writer: &mut W,
) -> Result<bool, Ended>
    ensures heard { MatchResult result
        (λ _. Hears (Rd.remaining reader.old) (Rd.remaining reader.new) listener.old listener.new [])
        (λ e. (unheard : List ℕ) × Hears (Rd.remaining reader.old) (Rd.remaining reader.new) listener.old listener.new unheard ×
        OpeningEnds e (Rd.remaining reader.new) unheard) }
    ensures sent { MatchResult result
        (λ _. (answer : List ℕ) × Sends (W.contents writer.old) (W.contents writer.new) speaker.old speaker.new answer)
        (λ e. (added : List ℕ) × Sends (W.contents writer.old) (W.contents writer.new) speaker.old speaker.new added × GreetingEnds e added []) }
{
    let HearOutcome {
        answer,
        is_open,
        ..
    } = hear_piece(rt, shared, listener, reader)?;
    reply(listener, speaker, writer, answer)?;
    Ok(is_open)
}
