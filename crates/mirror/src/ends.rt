//! Why a source is watched no longer.

ghost use Rattle.std.specs.Prelude.{◌≡◌, IfOk};
ghost use Rattle.mirror.specs.Ends.{end_by};

use connections::{Listed, ScreenError};
use server_reader::ReadFault;
use source_picture::DrawEnd;
use source_talk::{Opening, OpeningEnd};
use std::alloc::{AllocError, Global};
use std::fmt;

/// Why a source is watched no longer.
#[derive(Drop)]
pub(crate) enum SourceEnd {
    /// There is no connection.
    Unreachable,
    /// It closed the connection.
    Closed,
    /// A read or a write failed.
    Failed,
    /// It said nothing for ten seconds where it had to say something.
    Silent,
    /// Its first twelve bytes are no version (RFC 6143, 7.1.1).
    NoVersion,
    /// It offers these security types, and not None (7.1.2).
    SecurityTypes(Listed<u8>),
    /// It decided on this security type in 3.3, and not on None (appendix A).
    SecurityType(u32),
    /// It refused the connection, for a reason of which these are the first bytes (7.1.2, 7.1.3).
    Refused(Listed<u8>),
    /// Its picture has a size beyond a screen's limits: 1 to 8192 columns and rows, at most 2^24 places.
    Size,
    /// What it says is no message.
    Fault(ReadFault),
    /// Memory was refused.
    Memory,
}

impl From<DrawEnd> for SourceEnd {
    ghost use Rattle.std.specs.Prelude.{◌≡◌};
    ghost use Rattle.mirror.specs.Ends.{end_of_drawing};

    ghost from_gives = { λ end why. why ≡ end_of_drawing end };

    fn from(end: DrawEnd) -> SourceEnd {
        match end {
            DrawEnd::Fault(fault) => SourceEnd::Fault(fault),
            DrawEnd::Size => SourceEnd::Size,
            DrawEnd::Memory => SourceEnd::Memory,
        }
    }
}

impl From<AllocError> for SourceEnd {
    ghost use Rattle.std.specs.Prelude.{◌≡◌};
    ghost use Rattle.mirror.specs.declared.ends.SourceEnd.TheVariants.{Memory};

    ghost from_gives = { λ _ why. why ≡ Memory };

    fn from(_error: AllocError) -> SourceEnd {
        SourceEnd::Memory
    }
}

impl From<ScreenError> for SourceEnd {
    ghost use Rattle.std.specs.Prelude.{◌≡◌};
    ghost use Rattle.mirror.specs.Ends.{end_of_refusal};

    ghost from_gives = { λ refusal why. why ≡ end_of_refusal refusal };

    // a new size is refused as one, or for want of memory
    fn from(refusal: ScreenError) -> SourceEnd {
        match refusal {
            ScreenError::BadSize => SourceEnd::Size,
            _ => SourceEnd::Memory,
        }
    }
}

/// Returns why an opening ended.
pub(crate) fn end_by(
    alloc: Global,
    opening: &Opening,
    end: OpeningEnd,
) -> Result<SourceEnd, AllocError>
    ensures { IfOk result (λ why. why ≡ end_by opening.now.said end) }
{
    Ok(match end {
        OpeningEnd::NoVersion => SourceEnd::NoVersion,
        OpeningEnd::SecurityTypes { place, count } => {
            SourceEnd::SecurityTypes(Listed::from_slice(alloc, opening.said(place, count))?)
        }
        OpeningEnd::SecurityType(kind) => SourceEnd::SecurityType(kind),
        OpeningEnd::Refused { place, count } => {
            SourceEnd::Refused(Listed::from_slice(alloc, opening.said(place, count))?)
        }
    })
}

/// Bytes as text: a dot for what is no printed character of ASCII.
#[derive(Clone, Copy)]
pub(crate) struct Text<'a>(pub &'a [u8]);

impl<'a> fmt::Display for Text<'a> {
    fn fmt<W: fmt::Write>(&self, f: &mut fmt::Formatter<W>) -> fmt::Result {
        for byte in self.0 {
            let is_shown = (0x20..0x7f).contains(byte);
            let shown = if is_shown { *byte } else { b'.' };
            write!(f, "{}", char::from(shown))?;
        }
        Ok(())
    }
}

/// Writes the security types that are offered.
fn put_types<W: fmt::Write>(f: &mut fmt::Formatter<W>, kinds: &[u8]) -> fmt::Result {
    write!(f, "it offers not the security type None, but")?;
    for kind in kinds {
        write!(f, " {kind}")?;
    }
    Ok(())
}

/// Writes why what it says is no message.
fn put_fault<W: fmt::Write>(f: &mut fmt::Formatter<W>, fault: ReadFault) -> fmt::Result {
    match fault {
        ReadFault::UnknownMessage(kind) => write!(f, "it said a message of type {kind}"),
        ReadFault::UnknownEncoding(number) => write!(f, "it used the encoding {number}"),
        ReadFault::OffPicture => write!(f, "it said a rectangle off its picture"),
        ReadFault::CopyOffPicture => write!(f, "it said a copy from off its picture"),
        ReadFault::NoBackground => write!(f, "it said a tile without a background"),
        ReadFault::NoForeground => write!(f, "it said a tile without a foreground"),
    }
}

impl fmt::Display for SourceEnd {
    fn fmt<W: fmt::Write>(&self, f: &mut fmt::Formatter<W>) -> fmt::Result {
        match self {
            SourceEnd::Unreachable => write!(f, "no connection"),
            SourceEnd::Closed => write!(f, "it closed the connection"),
            SourceEnd::Failed => write!(f, "the connection failed"),
            SourceEnd::Silent => write!(f, "it said nothing for ten seconds"),
            SourceEnd::NoVersion => write!(f, "it is no VNC server"),
            SourceEnd::SecurityTypes(kinds) => put_types(f, kinds.as_slice()),
            SourceEnd::SecurityType(kind) => {
                write!(f, "it decided on the security type {kind}, and not on None")
            }
            SourceEnd::Refused(reason) => write!(f, "it refused: {}", Text(reason.as_slice())),
            SourceEnd::Size => write!(f, "its picture is too large, or has no place"),
            SourceEnd::Fault(fault) => put_fault(f, *fault),
            SourceEnd::Memory => write!(f, "out of memory"),
        }
    }
}

/// Returns the line that says why a source is watched no longer.
pub(crate) fn left_line(alloc: Global, end: &SourceEnd) -> Result<String, AllocError> {
    format!(in alloc; "source left: {end}\n")
}
