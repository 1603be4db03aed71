//! Whether receipts are those of a history.

ghost use Rattle.std.specs.Prelude.{◌≡◌, None, IfOk, IfErr, ◌⊎◌};
ghost use Rattle.scene.specs.Alone.{config_refusal};
ghost use Rattle.scene.specs.History.{connects};
ghost use Rattle.receipts.specs.Checking.{missing, counts_are, sent_of, all_sent, checked, Gives};
ghost use Rattle.receipts.specs.Claims.{IsReportOf, IsRefusedFor};

use crate::comparing::{difference, drawing_difference};
use crate::counting::{cuts_of, pieces_of, stranger, without_one};
use crate::laws::{refusals_are_true, reports_are_true};
use crate::replaying::bytes_of;
use crate::{FinishError, Receipt, Report, Sent};
use listed::Listed;
use scene::{Config, Event};
use std::alloc::{AllocError, Global};

/// Checks that a history's drawing calls are those that were drawn, and that the receipts are what the history says of its viewers. The
/// configuration is the screen's, and one that it accepts.
///
/// Refuses the first that is wrong: as `Drawing` where the drawing calls differ; as `Missing` a viewer that connected and has not exactly
/// one receipt, or that has one and never connected; as `Count` a receipt whose pieces, cuts or bytes heard are not the history's; as
/// `Bytes` one whose bytes sent are not those that the viewer is sent where it is alone with the drawing calls, nor begin them where its
/// sender broke off. `OutOfMemory` may come in place of any other answer.
pub fn check(
    alloc: Global,
    config: &Config,
    history: &[Event],
    drawn: &[Event],
    receipts: &[Receipt],
) -> Result<Report, FinishError>
    requires { config_refusal config.now ≡ None }
    ensures checked { Gives result (checked config.now history.now drawn.now receipts.now) }
    ensures report { IfOk result (λ report. IsReportOf config.now history.now drawn.now receipts.now report) }
    ensures refusal { IfErr result (λ e. IsRefusedFor config.now history.now drawn.now receipts.now e ⊎
        (e ≡ FinishError.OutOfMemory)) }
{
    reports_are_true();
    refusals_are_true();
    judged(alloc, config, history, drawn, receipts)
}

/// Checks the drawing calls, the viewers, then each receipt.
fn judged(
    alloc: Global,
    config: &Config,
    history: &[Event],
    drawn: &[Event],
    receipts: &[Receipt],
) -> Result<Report, FinishError>
    requires { config_refusal config.now ≡ None }
    ensures { Gives result (checked config.now history.now drawn.now receipts.now) }
{
    if let Some(at) = drawing_difference(history, drawn) {
        return Err(FinishError::Drawing { at: at as u64 });
    }
    if let Some(viewer) = missing(history, receipts) {
        return Err(FinishError::Missing { viewer });
    }
    let viewers = all_sent(alloc, config, history, receipts)?;
    Ok(Report {
        events: history.len() as u64,
        viewers,
    })
}

/// Returns the first viewer that connected without having exactly one receipt, or else the first that has one without having connected.
fn missing(history: &[Event], receipts: &[Receipt]) -> Option<u64>
    ensures { result ≡ missing (connects history.now) receipts.now }
{
    match without_one(history, receipts) {
        Some(viewer) => Some(viewer),
        None => stranger(history, receipts),
    }
}

/// Returns how much each receipt's viewer was sent. Refuses the first receipt that is wrong, as `sent_of` does.
fn all_sent(
    alloc: Global,
    config: &Config,
    history: &[Event],
    receipts: &[Receipt],
) -> Result<Listed<(u64, Sent)>, FinishError>
    requires { config_refusal config.now ≡ None }
    ensures { Gives result (all_sent config.now history.now receipts.now) }
{
    let mut viewers = Listed::new(alloc);
    for receipt in receipts {
        let sent = sent_of(alloc, config, history, receipt)?;
        viewers.push((receipt.viewer, sent))?;
    }
    Ok(viewers)
}

/// Returns how much the receipt's viewer was sent. Refuses a receipt as `Count` for its pieces, cuts or bytes heard, then as `Bytes`.
fn sent_of(
    alloc: Global,
    config: &Config,
    history: &[Event],
    receipt: &Receipt,
) -> Result<Sent, FinishError>
    requires { config_refusal config.now ≡ None }
    ensures { Gives result (sent_of config.now history.now receipt.now) }
{
    let viewer = receipt.viewer;
    if !counts_are(alloc, history, receipt)? {
        return Err(FinishError::Count { viewer });
    }
    let due = bytes_of(alloc, config, viewer, history)?;
    match difference(receipt.sent.as_slice(), &due) {
        None => Ok(Sent::Whole),
        Some(at) if at == receipt.sent.len() && receipt.ended.may_break_off() => Ok(Sent::Prefix),
        Some(at) => Err(FinishError::Bytes {
            viewer,
            at: at as u64,
        }),
    }
}

/// Returns whether a receipt's pieces, cuts and bytes heard are the history's.
fn counts_are(alloc: Global, history: &[Event], receipt: &Receipt) -> Result<bool, AllocError>
    ensures { IfOk result (λ same. same ≡ counts_are history.now receipt.now) }
{
    let (pieces, heard) = pieces_of(alloc, receipt.viewer, history)?;
    Ok(
        receipt.pieces == pieces
            && receipt.cuts == cuts_of(receipt.viewer, history)
            && receipt.heard.as_slice() == heard.as_slice(),
    )
}
