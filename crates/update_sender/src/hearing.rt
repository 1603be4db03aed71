//! A viewer's bytes, read and heard a piece at a time.

ghost use Rattle.std.specs.Prelude.{◌≡◌, OnOk, OnErr, MatchResult, length};
ghost use Rattle.update_sender.specs.Serving.{HearsPiece, HearsNoMore};

use crate::line::Listener;
use crate::locked_screen::HearOutcome;
use crate::reasons::{count_read, unheard_for};
use crate::shared::Shared;
use receipts::Ended;
use std::io::Read;
use std::sync::Wait;
use std::sync::ledger::Ledger;

/// How many bytes are read at once, at most.
pub const PIECE: usize = 4096;

/// Reads a piece and hears it.
pub fn hear_piece<L: Ledger, Rd: Read, R: Wait>(
    rt: &R,
    shared: &Shared<L>,
    listener: &mut Listener,
    reader: &mut Rd,
) -> Result<HearOutcome, Ended>
    ensures { MatchResult result
        (λ _. HearsPiece (Rd.remaining reader.old) (Rd.remaining reader.new) listener.old listener.new)
        (λ e. (listener.new ≡ listener.old) × HearsNoMore (Rd.remaining reader.old) (Rd.remaining reader.new) e) }
{
    let mut piece = [0u8; PIECE];
    let count = count_read(reader.read(&mut piece))?;
    match shared.hear_further(rt, listener, &piece[..count]) {
        Ok(heard) => Ok(heard),
        Err(refusal) => Err(unheard_for(refusal)),
    }
}
