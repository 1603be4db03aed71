//! What is printed of how viewers ended, and of the judgement of a run.

ghost use Rattle.std.specs.Prelude.{◌≡◌, ◌⊎◌, ◌++◌, List, ℕ, flat_map, IfOk, OnOk, IsPermutation};
ghost use Rattle.std.specs.List.Sorted.{IsNonDecreasingBy};
ghost use Rattle.std.specs.Io.KnownBytes.{Appends, Keeps};
ghost use Rattle.demo_app.specs.Endings.{end_line, end_name, judgement_line, judgement_status, wrong_line, wrong_name};

use play_script::trouble::{Trouble, flush, print, report};
use receipts::{Ended, FinishError, Receipt, Report};
use std::alloc::{AllocError, Global};
use std::io::Write;

/// Returns the name of how a viewer ended.
fn end_name(ended: Ended) -> &'static [u8]
    ensures { result.now ≡ end_name ended }
{
    match ended {
        Ended::EndOfInput => b"EndOfInput",
        Ended::Fault(_) => b"Fault",
        Ended::ReadFailed => b"ReadFailed",
        Ended::WriteFailed => b"WriteFailed",
        Ended::Memory => b"Memory",
        Ended::Gate => b"Gate",
        Ended::Closed => b"Closed",
        Ended::Stopped => b"Stopped",
        Ended::Frames(_) => b"Frames",
    }
}

/// Returns the code and the name of what is wrong with a run.
fn wrong_name(error: FinishError) -> &'static [u8]
    ensures { result.now ≡ wrong_name error }
{
    match error {
        FinishError::NotKept => b"1 NotKept",
        FinishError::Drawing { .. } => b"2 Drawing",
        FinishError::Missing { .. } => b"3 Missing",
        FinishError::Count { .. } => b"4 Count",
        FinishError::Bytes { .. } => b"5 Bytes",
        FinishError::OutOfMemory => b"6 OutOfMemory",
    }
}

/// Returns the line of how a viewer ended.
fn end_line(alloc: Global, receipt: &Receipt) -> Result<Vec<u8>, AllocError>
    ensures { IfOk result (λ line. line.items ≡ end_line receipt.now) }
{
    let mut line = Vec::new(alloc);
    line.extend_from_slice(b"viewer ")?;
    line.extend_from_slice(receipt.viewer.to_string(alloc)?.as_bytes())?;
    line.extend_from_slice(b" ")?;
    line.extend_from_slice(end_name(receipt.ended))?;
    line.extend_from_slice(b"\n")?;
    Ok(line)
}

/// Puts receipts in the order of their viewers' numbers.
pub(crate) fn sort_receipts(receipts: &mut Vec<Receipt>)
    ensures permutation { IsPermutation receipts.old.items receipts.new.items }
    ensures sorted { IsNonDecreasingBy (λ r. r.viewer) receipts.new.items }
{
    receipts.sort_unstable_by_key(|receipt| receipt.viewer);
}

/// Prints a line for each receipt.
pub(crate) fn print_ends<W: Write>(
    alloc: Global,
    writer: &mut W,
    receipts: &[Receipt],
) -> Result<(), Trouble>
    ensures { OnOk result (Appends (W.contents writer.old) (W.contents writer.new) (flat_map end_line receipts.now)) }
{
    for receipt in receipts {
        print(writer, &end_line(alloc, receipt)?)?;
    }
    Ok(())
}

/// Returns the line of a judgement that is not `ok`.
fn wrong_line(alloc: Global, error: FinishError) -> Result<Vec<u8>, AllocError>
    ensures { IfOk result (λ line. line.items ≡ wrong_line error) }
{
    let mut line = Vec::new(alloc);
    line.extend_from_slice(b"finish ")?;
    line.extend_from_slice(wrong_name(error))?;
    line.extend_from_slice(b"\n")?;
    Ok(line)
}

/// Prints a judgement. Returns the status: 0, or 4 where the judgement is not `ok`.
pub(crate) fn print_judgement<W: Write>(
    alloc: Global,
    writer: &mut W,
    judgement: Result<Report, FinishError>,
) -> Result<u8, Trouble>
    ensures printed { OnOk result (Appends (W.contents writer.old) (W.contents writer.new) (judgement_line judgement)) }
    ensures status { IfOk result (λ status. status ≡ judgement_status judgement) }
    ensures either { IfOk result (λ status. (status ≡ 0) ⊎ (status ≡ 4)) }
{
    match judgement {
        Ok(_) => {
            print(writer, b"finish ok\n")?;
            Ok(0)
        }
        Err(error) => {
            print(writer, &wrong_line(alloc, error)?)?;
            Ok(4)
        }
    }
}

/// Writes out what a run printed. Returns the `status` of the run, or that of the trouble where this fails.
pub(crate) fn written_out<W: Write>(writer: &mut W, status: u8) -> u8
    ensures { ((result ≡ status) × Keeps (W.contents writer.old) (W.contents writer.new)) ⊎ ((result ≡ 3) ⊎ (result ≡ 5)) }
{
    match flush(writer) {
        Ok(()) => status,
        Err(trouble) => report(writer, trouble),
    }
}
