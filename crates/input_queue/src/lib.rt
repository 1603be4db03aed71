//! The viewers' inputs on their way to the application: one bounded queue, a seat for each viewer, and one taker.
//! What was taken, followed by what the queue holds, is an interleaving of what the seats accepted, each in its order.
#![tactic(auto)]

mod closing;
mod ends;
mod hub;
mod rule;

pub use closing::AtEnd;
pub use ends::InputEnds;
pub use hub::{InputHub, InputSeat, SeatMaker, Taker};
use listed::Listed;
use messages::Input;
use std::alloc::AllocError;

/// The error of a call that is refused memory.
pub use std::alloc::AllocError as OutOfMemory;

/// An input, and the viewer that it is from.
#[derive(Debug, Drop)]
pub struct Told {
    /// The viewer's number.
    pub viewer: u64,
    /// What it did.
    pub input: Input,
}

/// Why no queue is made.
#[derive(Clone, Copy, Debug, PartialEq, Eq)]
pub enum QueueError {
    /// The capacity is not from 1 to 65,536.
    BadCapacity,
    /// A growth was refused.
    OutOfMemory,
}

impl From<AllocError> for QueueError {
    ghost use Rattle.std.specs.Prelude.{◌≡◌};
    ghost use Rattle.input_queue.specs.declared.QueueError.TheVariants.{OutOfMemory};

    ghost from_gives = { λ _ e. e ≡ OutOfMemory };

    fn from(_error: AllocError) -> QueueError {
        QueueError::OutOfMemory
    }
}

/// The queue held as many inputs as it can; the input comes back.
#[derive(Debug, Drop)]
pub struct Full(pub Input);

/// What was left in the queue, in order.
#[derive(Debug, Drop)]
pub struct Left {
    /// The inputs, the first one first.
    pub items: Listed<Told>,
}
