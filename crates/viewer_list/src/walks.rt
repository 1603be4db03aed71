//! What is done for each viewer in turn.

ghost use Rattle.std.specs.Prelude.{◌≡◌, ◌≤◌, max, All, false, OnOk, OnErr};
ghost use Rattle.std.specs.Map.{values_of};
ghost use Rattle.client_list.specs.Connected.{changed};
ghost use Rattle.viewer_list.specs.Lagging.{brought_up, within_end, seen, IsCurrent, Fits, IsCatchUp};
ghost use Rattle.viewer_list.specs.Lagging.{position_within, last_position};

use crate::lagging::{CatchUp, Lagging};
use client_list::Clients;
use std::alloc::{AllocError, Global};
use viewer::LogEntry;

impl Lagging {
    /// Applies what the viewer's marks lack of `log` where they have taken at least `least` entries; any other viewer stays.
    fn bring_up(
        &mut self,
        log: &[LogEntry],
        least: usize,
        shared: &mut CatchUp,
    ) -> Result<(), AllocError>
        requires fits { Fits log.now self.old }
        requires shared { IsCatchUp log.now shared.old }
        ensures ok { OnOk result (self.new ≡ brought_up log.now least self.old) }
        ensures err { OnErr result (self.new ≡ self.old) }
        ensures shared { IsCatchUp log.now shared.new }
    {
        if self.taken < least {
            return Ok(());
        }
        self.catch_up_sharing(log, shared)
    }

    /// Returns the later of `position` and the viewer's, if that is at most `end`.
    fn later(&self, position: usize, end: usize) -> usize
        ensures { result ≡ max position (position_within end self.now) }
    {
        if self.taken <= end && position < self.taken {
            self.taken
        } else {
            position
        }
    }

    /// Moves the viewer to the end of a log of `end` entries where it stood behind that.
    fn move_within(&mut self, end: usize)
        ensures { self.new ≡ within_end end self.old }
    {
        if self.taken > end {
            self.taken = end;
        }
    }
}

/// Applies what the marks of every viewer lack of `log` that has taken at least `least` entries; neighbours that lack as much share
/// it. After an `AllocError` it may be applied to some.
pub fn catch_up_from(
    alloc: Global,
    viewers: &mut Clients<Lagging>,
    log: &[LogEntry],
    least: usize,
) -> Result<(), AllocError>
    requires { All (Fits log.now) (values_of viewers.old.pairs) }
    ensures ok { OnOk result (viewers.new.pairs ≡ changed (brought_up log.now least) viewers.old.pairs) }
    ensures same { seen log.now viewers.new.pairs ≡ seen log.now viewers.old.pairs }
    ensures fits { All (Fits log.now) (values_of viewers.new.pairs) }
{
    let mut shared = CatchUp::nothing(alloc, log);
    let mut position = viewers.first();
    while let Some(at) = position {
        viewers.at_mut(at).bring_up(log, least, &mut shared)?;
        position = viewers.next(at);
    }
    Ok(())
}

/// Returns whether some viewer's marks lack an entry. The walk ends at the first one's.
pub fn some_lags(log: &[LogEntry], viewers: &Clients<Lagging>) -> bool
    ensures { result ≡ false → All (IsCurrent log.now) (values_of viewers.now.pairs) }
{
    let mut position = viewers.first();
    while let Some(at) = position {
        if viewers.at(at).lags(log) {
            return true;
        }
        position = viewers.next(at);
    }
    false
}

/// Returns the last position of the log at which a viewer stands, of those up to `end`; 0 where nobody stands there.
pub fn last_position(viewers: &Clients<Lagging>, end: usize) -> usize
    ensures last { result ≡ last_position end (values_of viewers.now.pairs) }
    ensures within { result ≤ end }
{
    let mut last = 0;
    let mut position = viewers.first();
    while let Some(at) = position {
        last = viewers.at(at).later(last, end);
        position = viewers.next(at);
    }
    last
}

/// Moves each viewer that stood behind the end of a log of `end` entries to that end.
pub fn move_all_within(viewers: &mut Clients<Lagging>, end: usize)
    ensures { viewers.new.pairs ≡ changed (within_end end) viewers.old.pairs }
{
    let mut position = viewers.first();
    while let Some(at) = position {
        viewers.at_mut(at).move_within(end);
        position = viewers.next(at);
    }
}
