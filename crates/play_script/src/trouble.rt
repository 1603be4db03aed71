//! Why a command ends early, and what is printed then.

ghost use Rattle.std.specs.Prelude.{◌≡◌, ◌⊎◌, OnOk};
ghost use Rattle.std.specs.Io.KnownBytes.{Appends, Keeps};

use std::alloc::{AllocError, AllocFailed};
use std::io::Write;

/// Why a script was not played to its end, or viewers were not served to theirs.
#[derive(Clone, Copy)]
pub enum Trouble {
    /// Memory was refused.
    OutOfMemory,
    /// A read failed.
    ReadFault,
    /// The script has more than 2^24 bytes.
    TooLong,
    /// The system refused something of the network.
    NetworkFault,
    /// The record of the session has ended before it.
    RecordBroken,
    /// A write failed.
    WriteFault,
}

impl From<AllocError> for Trouble {
    ghost use Rattle.std.specs.Prelude.{◌≡◌};
    ghost use Rattle.play_script.specs.declared.trouble.Trouble.TheVariants.{OutOfMemory};

    ghost from_gives = { λ _ e. e ≡ OutOfMemory };

    fn from(_error: AllocError) -> Trouble {
        Trouble::OutOfMemory
    }
}

impl<T: Drop> From<AllocFailed<T>> for Trouble {
    fn from(_error: AllocFailed<T>) -> Trouble {
        Trouble::OutOfMemory
    }
}

/// Writes a text whole. Fails as `WriteFault`.
pub fn print<W: Write>(writer: &mut W, text: &[u8]) -> Result<(), Trouble>
    ensures { OnOk result (Appends (W.contents writer.old) (W.contents writer.new) text.now) }
{
    if writer.write_all(text).is_err() {
        return Err(Trouble::WriteFault);
    }
    Ok(())
}

/// Hands on what the writer may hold. Fails as `WriteFault`.
pub fn flush<W: Write>(writer: &mut W) -> Result<(), Trouble>
    ensures { Keeps (W.contents writer.old) (W.contents writer.new) }
{
    if writer.flush().is_err() {
        return Err(Trouble::WriteFault);
    }
    Ok(())
}

/// Prints the last line, and returns the status: 3 for `OutOfMemory`, 5 for any other trouble. Prints nothing for a `WriteFault`; the
/// status is 5 too where this print fails.
pub fn report<W: Write>(writer: &mut W, trouble: Trouble) -> u8
    ensures { (result ≡ 3) ⊎ (result ≡ 5) }
{
    let (line, status): (&[u8], u8) = match trouble {
        Trouble::OutOfMemory => (b"out of memory\n", 3),
        Trouble::ReadFault => (b"read fault\n", 5),
        Trouble::TooLong => (b"too long\n", 5),
        Trouble::NetworkFault => (b"network fault\n", 5),
        Trouble::RecordBroken => (b"record broken\n", 5),
        Trouble::WriteFault => return 5,
    };
    if print(writer, line).is_err() || flush(writer).is_err() {
        return 5;
    }
    status
}
