ghost use Rattle.std.specs.Prelude.{◌≡◌, ℕ, ◌+◌, ◌-◌, ◌^◌, ◌<◌, ◌≤◌, length, vec_len, IfOk, IfSome, IfErr};
ghost use Rattle.play_script.specs.Reading.{CanEndReading};

use crate::counted::CountedReader;
use crate::trouble::Trouble;
use std::alloc::{AllocError, Global};
use std::io::Read;
use std::sync::ledger::Ledger;

/// The longest script, in bytes.
pub const SCRIPT_LIMIT: usize = 1 << 24;

// How many bytes are asked of a reader at once.
const READ_SIZE: usize = 1 << 16;

fn zeros(alloc: Global, count: usize) -> Result<Vec<u8>, AllocError>
    ensures { IfOk result (λ zeros. vec_len zeros ≡ count) }
{
    vec![in alloc; 0u8; count]
}

/// Reads a script to its end, in pieces. Fails as `ReadFault`, as `TooLong` where it has more than 2^24 bytes, or as `OutOfMemory`.
pub fn read_script<R: Read, L: Ledger>(
    alloc: Global,
    reader: &mut CountedReader<'_, R, L>,
) -> Result<Vec<u8>, Trouble>
    ensures script { IfOk result (λ script. IfSome (R.remaining reader.old.reader.now) (λ bytes. script.items ≡ bytes)) }
    ensures limit { IfOk result (λ script. vec_len script ≤ 2 ^ 24) }
    ensures trouble { IfErr result
        (CanEndReading (reader.new.steps.now - reader.old.steps.now) (R.remaining reader.old.reader.now)) }
    ensures reads { reader.new.steps.now ≤ reader.old.steps.now + (2 ^ 24 + 1) }
    ensures same_count { reader.new.steps.ghost_name ≡ reader.old.steps.ghost_name }
{
    let mut script = Vec::new(alloc);
    let mut piece = zeros(alloc, READ_SIZE)?;
    while script.len() <= SCRIPT_LIMIT {
        let Ok(count) = reader.read(&mut piece) else {
            return Err(Trouble::ReadFault);
        };
        if count == 0 {
            return Ok(script);
        }
        script.extend_from_slice(&piece[..count])?;
    }
    Err(Trouble::TooLong)
}
