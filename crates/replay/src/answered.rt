//! An event that was done.

use screen::{Answer, Event};

/// An event that a screen did, and what it answered.
#[derive(Drop)]
pub(crate) struct Answered {
    pub event: Event,
    pub answer: Answer,
}
