//! What a history says of one viewer, and which viewers have receipts.

ghost use Rattle.std.specs.Prelude.{◌≡◌, ◌==◌, IfOk, length, option_map};
ghost use Rattle.std.specs.List.{list_any};
ghost use Rattle.scene.specs.History.{connects};
ghost use Rattle.receipts.specs.Histories.{piece_of, pieces_of, heard_of, is_cut_of, cuts_of};
ghost use Rattle.receipts.specs.Checking.{receipts_for, without_one, stranger};

use crate::Receipt;
use scene::Event;
use std::alloc::{AllocError, Global};

/// Returns how many pieces were heard of a viewer, and all their bytes.
pub fn pieces_of(
    alloc: Global,
    viewer: u64,
    history: &[Event],
) -> Result<(u64, Vec<u8>), AllocError>
    ensures count { IfOk result (λ heard. heard.0 ≡ length (pieces_of viewer history.now)) }
    ensures bytes { IfOk result (λ heard. heard.1.items ≡ heard_of viewer history.now) }
{
    let mut count = 0;
    let mut heard = Vec::new(alloc);
    for event in history {
        if let Some(piece) = piece_of(viewer, event) {
            count += 1;
            heard.extend_from_slice(piece)?;
        }
    }
    Ok((count, heard))
}

/// Returns the piece that an event lets the server hear of a viewer, if it lets it hear one.
fn piece_of(viewer: u64, event: &Event) -> Option<&[u8]>
    ensures { option_map (λ piece. piece.now) result ≡ piece_of viewer event.now }
{
    match event {
        Event::Hear {
            viewer: speaker,
            piece,
        } if *speaker == viewer => Some(piece.as_slice()),
        _ => None,
    }
}

/// Returns how many updates were cut for a viewer.
pub fn cuts_of(viewer: u64, history: &[Event]) -> u64
    ensures { result ≡ cuts_of viewer history.now }
{
    history
        .iter()
        .filter(|event| is_cut_of(viewer, event))
        .count() as u64
}

/// Returns whether an event cuts an update for a viewer.
fn is_cut_of(viewer: u64, event: &Event) -> bool
    ensures { result ≡ is_cut_of viewer event.now }
{
    match event {
        Event::Cut { viewer: receiver } => *receiver == viewer,
        _ => false,
    }
}

/// Returns the first viewer that connected and has not exactly one receipt, if there is one.
pub fn without_one(history: &[Event], receipts: &[Receipt]) -> Option<u64>
    ensures { result ≡ without_one (connects history.now) receipts.now }
{
    for event in history {
        if let Event::Connect { viewer } = event {
            if receipts_for(*viewer, receipts) != 1 {
                return Some(*viewer);
            }
        }
    }
    None
}

/// Returns how many receipts a viewer has.
fn receipts_for(viewer: u64, receipts: &[Receipt]) -> usize
    ensures { result ≡ receipts_for viewer receipts.now }
{
    receipts
        .iter()
        .filter(|receipt| receipt.viewer == viewer)
        .count()
}

/// Returns the viewer of the first receipt whose viewer never connected, if there is one.
pub fn stranger(history: &[Event], receipts: &[Receipt]) -> Option<u64>
    ensures { result ≡ stranger (connects history.now) receipts.now }
{
    for receipt in receipts {
        if !has_connected(receipt.viewer, history) {
            return Some(receipt.viewer);
        }
    }
    None
}

/// Returns whether a viewer connected.
fn has_connected(viewer: u64, history: &[Event]) -> bool
    ensures { result ≡ list_any (λ v. v == viewer) (connects history.now) }
{
    for event in history {
        if let Event::Connect { viewer: number } = event {
            if *number == viewer {
                return true;
            }
        }
    }
    false
}
