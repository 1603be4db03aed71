//! What a loop grants its viewers.

ghost use Rattle.std.specs.Prelude.{◌≡◌};
ghost use Rattle.std.specs.Duration.{as_nanos};
ghost use Rattle.event_loop.specs.declared.limits.WhenFull.TheVariants as when_full;

use std::time::Duration;

/// What becomes of a connection that comes while as many viewers are live as may be.
#[derive(Clone, Copy, Debug, PartialEq, Eq)]
pub enum WhenFull {
    /// It waits until a viewer has left.
    Wait,
    /// It is told that there are too many (RFC 6143, 7.1.2), and closed at once.
    LetGo,
}

/// What a loop grants its viewers.
#[derive(Clone, Copy, Debug)]
pub struct Limits {
    /// How many viewers may be live at once.
    pub live_viewers: usize,
    /// What becomes of a further one.
    pub when_full: WhenFull,
    /// How many viewers are served in all. A connection that comes behind them is told that there are too many, and closed at once.
    pub all_viewers: u64,
    /// How long a viewer may take until it had its ServerInit (RFC 6143, 7.3.2). Then it is let go.
    pub opening_time: Duration,
}

impl Limits {
    /// Returns the usual limits: 1,024 viewers at once, a further one waits, and without end; 10 seconds for an opening.
    pub fn usual() -> Limits
        ensures live { result.live_viewers ≡ 1024 }
        ensures full { result.when_full ≡ when_full.Wait }
        ensures all { result.all_viewers ≡ u64.MAX }
        ensures time { as_nanos result.opening_time ≡ 10_000_000_000 }
    {
        Limits {
            live_viewers: 1024,
            when_full: WhenFull::Wait,
            all_viewers: u64::MAX,
            opening_time: Duration::from_secs(10),
        }
    }
}
