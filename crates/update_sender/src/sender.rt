//! A viewer's sender: updates are cut, encoded and written in pieces, until there is nothing more to come.

ghost use Rattle.std.specs.Prelude.{◌≡◌, ◌≢◌, [], List, ℕ, OnErr, IfOk, IfErr, MatchResult};
ghost use Rattle.update_sender.specs.Ends.{all_of};
ghost use Rattle.update_sender.specs.Ends.{Speaking, has_cut};
ghost use Rattle.update_sender.specs.Locked.{HasBytes};
ghost use Rattle.update_sender.specs.Serving.{CutsAndSends, CuttingEnds, IsSent, SendsNoMore, SendsUpdate};

use crate::gate::Gate;
use crate::line::Speaker;
use crate::next_step::Turn;
use crate::reasons::passed;
use crate::shared::Shared;
use listed::Listed;
use receipts::Ended;
use screen::Update;
use std::io::Write;
use std::sync::Wait;
use std::sync::ledger::Ledger;
use viewer::STREAM_BUFFER;

/// What a viewer's sender leaves.
#[derive(Drop)]
pub struct WriteHalf {
    /// The viewer's number.
    pub viewer: u64,
    /// How many updates were cut; the count stops at 2^64 - 1.
    pub cuts: u64,
    /// The bytes that were written, where the history is kept: the opening's, and then the updates'.
    pub sent: Listed<u8>,
    /// Why the sender ended.
    pub ended: Ended,
}

/// Waits until there is something to send, cuts it, asks the gate, encodes its first 64 KB, asks the gate, writes them, and
/// then encodes and writes the others, again and again. Beside the update it keeps a buffer of 65,536 bytes while it sends.
/// It ends after `Shared::stop`, where the viewer is closed, and where it met a fault, the first of these; and where a write
/// fails or takes no byte, memory is refused, or the gate refuses: then it closes the viewer, which stays where that is refused for
/// memory (`Shared::close`). No lock is held but while an update is cut. The gate let each update pass, was told the length of each that
/// was written whole, and is told the end.
pub fn serve_sender<L: Ledger, W: Write, G: Gate, R: Wait>(
    rt: &R,
    shared: &Shared<L>,
    mut speaker: Speaker,
    writer: &mut W,
    gate: &G,
) -> WriteHalf
    ensures viewer { result.viewer ≡ speaker.viewer }
    ensures sent { let whole = IsSent (G.lets_encode gate.now result.viewer) (G.lets_write gate.now result.viewer) (G.was_told gate.now result.viewer) in
        (s : Speaking) × CutsAndSends whole (G.lets_write gate.now result.viewer) (W.contents writer.old) (W.contents writer.new) speaker s result.ended ×
        (result.cuts ≡ s.cuts) × (result.sent ≡ all_of s.sent) }
    ensures told { G.was_ended gate.now result.viewer }
{
    let viewer = speaker.viewer;
    let ended = send_all(rt, shared, viewer, &mut speaker, writer, gate);
    if ended.may_break_off() {
        let _closed = shared.close(rt, viewer);
    }
    gate.ended(viewer);
    WriteHalf {
        viewer,
        cuts: speaker.cuts,
        sent: speaker.sent.into_listed(),
        ended,
    }
}

/// Sends until there is nothing more to come; the gate is asked and told under a viewer's number. Why it ends.
fn send_all<L: Ledger, W: Write, G: Gate, R: Wait>(
    rt: &R,
    shared: &Shared<L>,
    viewer: u64,
    speaker: &mut Speaker,
    writer: &mut W,
    gate: &G,
) -> Ended
    ensures { let whole = IsSent (G.lets_encode gate.now viewer) (G.lets_write gate.now viewer) (G.was_told gate.now viewer) in
        CutsAndSends whole (G.lets_write gate.now viewer) (W.contents writer.old) (W.contents writer.new) speaker.old speaker.new result }
{
    for _ in rt.forever() {
        if let Err(ended) = send_next(rt, shared, viewer, speaker, writer, gate) {
            return ended;
        }
    }
    unreachable!()
}

/// Waits for an update, and sends it, once the gate lets it pass under a viewer's number.
fn send_next<L: Ledger, W: Write, G: Gate, R: Wait>(
    rt: &R,
    shared: &Shared<L>,
    viewer: u64,
    speaker: &mut Speaker,
    writer: &mut W,
    gate: &G,
) -> Result<(), Ended>
    ensures { let whole = IsSent (G.lets_encode gate.now viewer) (G.lets_write gate.now viewer) (G.was_told gate.now viewer) in
        MatchResult result
        (λ _. SendsUpdate whole (W.contents writer.old) (W.contents writer.new) speaker.old speaker.new)
        (λ e. SendsNoMore (G.lets_write gate.now viewer) (W.contents writer.old) (W.contents writer.new) speaker.old speaker.new e) }
{
    let update = next_update(rt, shared, speaker)?;
    passed(gate.encoding(viewer))?;
    let mut stream = update.into_stream();
    let mut buffer = Vec::with_capacity(shared.alloc, STREAM_BUFFER)?;
    stream.fill(&mut buffer)?;
    passed(gate.writing(viewer))?;
    let count = speaker.write_stream(writer, &mut buffer, &mut stream)?;
    gate.wrote(viewer, count);
    Ok(())
}

/// Waits until there is something to send, and cuts it; or why there is nothing to come.
fn next_update<L: Ledger, R: Wait>(
    rt: &R,
    shared: &Shared<L>,
    speaker: &mut Speaker,
) -> Result<Update, Ended>
    ensures cut { IfOk result (λ update. (update ≢ []) × (speaker.new ≡ has_cut speaker.old)) }
    ensures err { OnErr result (speaker.new ≡ speaker.old) }
    ensures ended { IfErr result CuttingEnds }
{
    let turn = shared.wait_for_turn(rt, speaker.viewer)?;
    update_of(speaker, turn)
}

/// Returns the update of a viewer's turn, which is counted; or why there is nothing to come.
fn update_of(speaker: &mut Speaker, turn: Turn) -> Result<Update, Ended>
    requires own { turn.viewer ≡ speaker.old.viewer }
    requires bytes { HasBytes turn.step }
    ensures cut { IfOk result (λ update. (update ≢ []) × (speaker.new ≡ has_cut speaker.old)) }
    ensures err { OnErr result (speaker.new ≡ speaker.old) }
    ensures ended { IfErr result CuttingEnds }
{
    let update = turn.step.update()?;
    speaker.count_cut();
    Ok(update)
}
