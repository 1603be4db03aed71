//! Numbers and bytes, as text.

ghost use Rattle.std.specs.Prelude.{◌≡◌, ◌++◌, ◌<◌, IfOk, OnOk};
ghost use Rattle.std.specs.Fmt.{decimal};
ghost use Rattle.scene.specs.declared.Event.TheVariants as event;
ghost use Rattle.recorder.specs.Events.{event_line};
ghost use Rattle.recorder.specs.Words.{hex, hex_digit, hex_word};

use std::alloc::{AllocError, Global};

/// Appends a number, in decimal digits.
pub(crate) fn put_number(alloc: Global, out: &mut Vec<u8>, number: u64) -> Result<(), AllocError>
    ensures { OnOk result (out.new.items ≡ out.old.items ++ decimal number) }
{
    let digits = number.to_string(alloc)?;
    out.extend_from_slice(digits.as_bytes())
}

/// Returns the digit of `value`, in lower case.
fn hex_digit(value: u8) -> u8
    requires { value < 16 }
    ensures { result ≡ hex_digit value }
{
    if value < 10 {
        b'0' + value
    } else {
        b'a' - 10 + value
    }
}

/// Appends two digits for each byte.
fn put_hex(out: &mut Vec<u8>, bytes: &[u8]) -> Result<(), AllocError>
    ensures { OnOk result (out.new.items ≡ out.old.items ++ hex bytes.now) }
{
    out.reserve(bytes.len().saturating_mul(2))?;
    for byte in bytes {
        out.extend_from_slice(&[hex_digit(*byte / 16), hex_digit(*byte % 16)])?;
    }
    Ok(())
}

/// Appends two digits for each byte; `-` stands for no bytes.
fn put_bytes(out: &mut Vec<u8>, bytes: &[u8]) -> Result<(), AllocError>
    ensures { OnOk result (out.new.items ≡ out.old.items ++ hex_word bytes.now) }
{
    if bytes.is_empty() {
        return out.extend_from_slice(b"-");
    }
    put_hex(out, bytes)
}

/// Returns the line of a piece that was heard of a viewer, with its line feed.
pub(crate) fn hear_line(alloc: Global, viewer: u64, piece: &[u8]) -> Result<Vec<u8>, AllocError>
    ensures { IfOk result (λ line. line.items ≡ event_line (event.Hear viewer piece.now)) }
{
    let mut line = Vec::new(alloc);
    line.extend_from_slice(b"hear ")?;
    put_number(alloc, &mut line, viewer)?;
    line.extend_from_slice(b" ")?;
    put_bytes(&mut line, piece)?;
    line.extend_from_slice(b"\n")?;
    Ok(line)
}
