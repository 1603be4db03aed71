//! What was heard and sent of each viewer of a screen, against the screen's history: whether the viewers' receipts are
//! those of a run.
#![tactic(auto)]

mod checking;
mod comparing;
mod counting;
mod laws;
mod replaying;

pub use checking::check;
pub use comparing::same_event;
pub use laws::{refusals_are_true, reports_are_true};
pub use listed::Listed;
use messages::Fault;
use std::alloc::{AllocError, AllocFailed};
use thiserror::Error;

/// Why a viewer's thread ended.
#[derive(Clone, Copy, Debug, PartialEq, Eq)]
pub enum Ended {
    /// The reader gave no more bytes.
    EndOfInput,
    /// The viewer said what no message says.
    Fault(Fault),
    /// A read failed.
    ReadFailed,
    /// A write failed, or took no byte.
    WriteFailed,
    /// A growth was refused.
    Memory,
    /// The gate refused, or the application let the viewer go at once.
    Gate,
    /// The viewer was closed.
    Closed,
    /// The server was stopped.
    Stopped,
    /// The viewer's browser sent what no frame of a WebSocket is, and is answered by a close with this code (RFC 6455, section 7.4.1).
    Frames(u16),
}

impl Ended {
    ghost use Rattle.std.specs.Prelude.{◌≡◌};
    ghost use Rattle.receipts.specs.Checking.{may_break_off};

    /// Returns whether a sender that ended so may have left its last writes undone, so that what it sent is only the first bytes of what
    /// was due.
    pub fn may_break_off(self) -> bool
        ensures { result ≡ may_break_off self }
    {
        matches!(
            self,
            Ended::WriteFailed | Ended::Memory | Ended::Gate | Ended::Frames(_)
        )
    }
}

impl From<AllocError> for Ended {
    ghost use Rattle.std.specs.Prelude.{◌≡◌};
    ghost use Rattle.receipts.specs.declared.Ended.TheVariants.{Memory};

    ghost from_gives = { λ _ e. e ≡ Memory };

    fn from(_error: AllocError) -> Ended {
        Ended::Memory
    }
}

/// What was heard and sent of one viewer.
#[derive(Debug, Drop)]
pub struct Receipt {
    /// The viewer's number.
    pub viewer: u64,
    /// How many pieces were heard.
    pub pieces: u64,
    /// How many updates were cut.
    pub cuts: u64,
    /// The bytes that were heard, where the history is kept; else none.
    pub heard: Listed<u8>,
    /// The bytes that were sent, the server's version first, where the history is kept; else none.
    pub sent: Listed<u8>,
    /// Why the viewer's sender ended, or its reader where that ended before the viewer was open.
    pub ended: Ended,
}

/// How much of what a viewer was to be sent was sent.
#[derive(Clone, Copy, Debug, PartialEq, Eq)]
pub enum Sent {
    /// All of it.
    Whole,
    /// The first bytes, and not all; the sender broke off.
    Prefix,
}

/// What an accepted history is.
#[derive(Debug, Drop)]
pub struct Report {
    /// How many events the history has.
    pub events: u64,
    /// The viewers, in the receipts' order, and how much of its bytes each was sent.
    pub viewers: Listed<(u64, Sent)>,
}

/// Why a history is not accepted. Its text is the variant's name.
#[derive(Clone, Copy, Debug, PartialEq, Eq, Error)]
pub enum FinishError {
    /// No history is kept: make the screen so that it keeps one.
    #[error("NotKept")]
    NotKept,
    /// The history's drawing calls are not those that were drawn: they differ first here, or one list ends here.
    #[error("Drawing")]
    Drawing { at: u64 },
    /// The viewer connected and has not exactly one receipt, or it has one and never connected.
    #[error("Missing")]
    Missing { viewer: u64 },
    /// The pieces, the cuts or the bytes heard of the viewer's receipt are not the history's.
    #[error("Count")]
    Count { viewer: u64 },
    /// The bytes sent are not those that the viewer is sent where it is alone with the drawing calls: they differ first
    /// here, or one list ends here.
    #[error("Bytes")]
    Bytes { viewer: u64, at: u64 },
    /// A growth was refused: check again once there is memory.
    #[error("OutOfMemory")]
    OutOfMemory,
}

impl From<AllocError> for FinishError {
    ghost use Rattle.std.specs.Prelude.{◌≡◌};
    ghost use Rattle.receipts.specs.declared.FinishError.TheVariants.{OutOfMemory};

    ghost from_gives = { λ _ e. e ≡ OutOfMemory };

    fn from(_error: AllocError) -> FinishError {
        FinishError::OutOfMemory
    }
}

impl<T: Drop> From<AllocFailed<T>> for FinishError {
    ghost use Rattle.std.specs.Prelude.{◌≡◌};
    ghost use Rattle.receipts.specs.declared.FinishError.TheVariants.{OutOfMemory};

    ghost from_gives = { λ _ e. e ≡ OutOfMemory };

    fn from(_error: AllocFailed<T>) -> FinishError {
        FinishError::OutOfMemory
    }
}
