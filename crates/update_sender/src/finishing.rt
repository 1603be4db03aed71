//! What a run shows once its threads have ended: a viewer's receipt of its two halves, and all receipts against the history.

ghost use Rattle.std.specs.Prelude.{◌≡◌, None, Some, MatchOption, length, true};
ghost use Rattle.screen.specs.Alone.{config_refusal};
ghost use Rattle.screen.specs.History.{drawings, connects};
ghost use Rattle.update_sender.specs.Numbers.{rises};
ghost use Rattle.update_sender.specs.Finishing.{Finishes, Judges, JudgesDrawn};
ghost use Rattle.update_sender.specs.Ends.{Listening};
ghost use Rattle.update_sender.specs.Ends.{all_of};

use crate::brush::Brush;
use crate::line::Listener;
use crate::reader::ReadHalf;
use crate::sender::WriteHalf;
use crate::shared::Shared;
use input_queue::InputSeat;
use receipts::{FinishError, Receipt, Report, check};
use screen::{Config, Event, History};
use std::alloc::Global;
use std::sync::ledger::Ledger;

/// Returns a viewer's receipt, and its reader's seat. Exactly one of the first two is given: the half of the viewer's reader, or its
/// listener where it had no reader.
pub fn receipt(
    read: Option<ReadHalf>,
    listener: Option<Listener>,
    write: WriteHalf,
) -> (Receipt, Option<InputSeat>)
    requires one { MatchOption read (MatchOption listener ⊥ (λ l. l.viewer ≡ write.viewer)) (λ half. (half.viewer ≡ write.viewer) ×
        (listener ≡ None)) }
    ensures write { (result.0.viewer ≡ write.viewer) × (result.0.cuts ≡ write.cuts) × (result.0.sent ≡ write.sent) ×
        (result.0.ended ≡ write.ended) }
    ensures read { MatchOption read (result.1 ≡ None) (λ half. (result.0.pieces ≡ half.pieces) × (result.0.heard ≡ half.heard) ×
        (result.1 ≡ Some half.seat)) }
    ensures listener { MatchOption listener (Unit {0}) (λ l. (result.0.pieces ≡ l.pieces) × (result.0.heard ≡ all_of l.heard)) }
{
    let (pieces, heard, seat) = match (read, listener) {
        (Some(half), _) => (half.pieces, half.heard, Some(half.seat)),
        (None, Some(listener)) => (listener.pieces, listener.heard.into_listed(), None),
        (None, None) => unreachable!(),
    };
    let receipt = Receipt {
        viewer: write.viewer,
        pieces,
        cuts: write.cuts,
        heard,
        sent: write.sent,
        ended: write.ended,
    };
    (receipt, seat)
}

/// Returns whether the receipts are those of a run: `receipts::check` of the screen's configuration, the history behind the lock, the
/// brush's drawing calls and the receipts. `NotKept` where no history is kept. `OutOfMemory` may come in place of any other
/// answer.
pub fn finish<L: Ledger>(
    shared: Shared<L>,
    brush: Brush<L>,
    receipts: Vec<Receipt>,
) -> Result<Report, FinishError>
    ensures { Finishes shared brush receipts.items result }
{
    match shared.config.history {
        History::NotKept => Err(FinishError::NotKept),
        History::Kept => judge_kept(shared, brush, receipts),
    }
}

/// Does the same where the history is kept.
fn judge_kept<L: Ledger>(
    shared: Shared<L>,
    brush: Brush<L>,
    receipts: Vec<Receipt>,
) -> Result<Report, FinishError>
    ensures { JudgesDrawn shared brush receipts.items result }
{
    let Shared {
        alloc,
        config,
        screen: locked,
        ..
    } = shared;
    let Brush { drawn, mut share } = brush;
    let (screen, mut drawings) = locked.into_inner().parts();
    drawings.audit(&mut share);
    match (screen.history(), drawn.as_slice()) {
        (Some(history), Some(drawn)) => judge(alloc, &config, history, drawn, &receipts),
        _ => Err(FinishError::OutOfMemory),
    }
}

/// Returns what the check says of a history in which viewers connected by rising numbers, and that has as many drawing calls as were
/// drawn.
fn judge(
    alloc: Global,
    config: &Config,
    history: &[Event],
    drawn: &[Event],
    receipts: &[Receipt],
) -> Result<Report, FinishError>
    requires config { config_refusal config.now ≡ None }
    requires rising { rises (connects history.now) ≡ true }
    requires as_many { length (drawings history.now) ≡ length drawn.now }
    ensures { Judges config.now drawn.now receipts.now result }
{
    check(alloc, config, history, drawn, receipts)
}
