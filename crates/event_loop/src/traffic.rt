//! What moved of a viewer.

use std::time::Duration;

/// What moved of a viewer that is connected. A count stops at 2^64 - 1.
#[derive(Clone, Copy)]
pub struct Traffic {
    /// How many bytes were read from it: of RFB, so of a browser's frames the payloads.
    pub received: u64,
    /// How many were written to it, likewise.
    pub sent: u64,
    /// How many updates were cut for it, each for a request or a notice of its own.
    pub updates: u64,
    /// How long behind the loop's first turn its last bytes came or, before any came, it (`EventLoop::last_turn`).
    pub heard_at: Duration,
}
