//! Why a viewer's thread ends: one reason for each thing that ends it.

ghost use Rattle.std.specs.Prelude.{◌≡◌, ◌<◌, nat_lt, true, IfErr, IfOk, IsOk, OnOk, MatchBool, MatchOption, MatchResult};
ghost use Rattle.receipts.specs.declared.Ended.TheVariants as ended;
ghost use Rattle.update_sender.specs.Reasons.{unheard_for};

use receipts::Ended;
use screen::{Fault, ScreenError};
use std::io;

/// Passes where a gate's answer is true, and fails as `Gate` where it is false.
pub fn passed(answer: bool) -> Result<(), Ended>
    ensures ends { MatchBool answer (IsOk result) (result ≡ Err ended.Gate) }
    ensures through { OnOk result (answer ≡ true) }
{
    if answer { Ok(()) } else { Err(Ended::Gate) }
}

/// Returns how many bytes a read gave. Fails as `EndOfInput` where it gave none, and as `ReadFailed` where it failed.
pub fn count_read(read: io::Result<usize>) -> Result<usize, Ended>
    ensures some { IfOk result (λ count. (read ≡ Ok count) × (0 < count)) }
    ensures none { IfErr result (λ e. MatchResult read (λ count. (count ≡ 0) × (e ≡ ended.EndOfInput)) (λ _. e ≡ ended.ReadFailed)) }
{
    match read {
        Ok(0) => Err(Ended::EndOfInput),
        Ok(count) => Ok(count),
        Err(_) => Err(Ended::ReadFailed),
    }
}

/// Passes where a writer took all bytes that were due. Fails as `WriteFailed` where it took fewer: a write failed, or took none.
pub fn all_written(taken: usize, due: usize) -> Result<(), Ended>
    ensures { MatchBool (nat_lt taken due) (result ≡ Err ended.WriteFailed) (IsOk result) }
{
    if taken < due {
        return Err(Ended::WriteFailed);
    }
    Ok(())
}

/// Passes where a piece brought no fault. Fails as `Fault` with the one that it brought.
pub fn no_fault(fault: Option<Fault>) -> Result<(), Ended>
    ensures { MatchOption fault (IsOk result) (λ fault. result ≡ Err (ended.Fault fault)) }
{
    match fault {
        Some(fault) => Err(Ended::Fault(fault)),
        None => Ok(()),
    }
}

/// Returns why a piece was not heard: the viewer is closed, or memory was refused.
pub fn unheard_for(refusal: ScreenError) -> Ended
    ensures { result ≡ unheard_for refusal }
{
    match refusal {
        ScreenError::NoViewer => Ended::Closed,
        _ => Ended::Memory,
    }
}
