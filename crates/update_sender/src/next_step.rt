//! What a sender does next.

ghost use Rattle.std.specs.Prelude.{◌≡◌, ◌≢◌, [], IfOk, IfErr};
ghost use Rattle.update_sender.specs.Reasons.{sent_in};
ghost use Rattle.update_sender.specs.Serving.{CuttingEnds};
ghost use Rattle.update_sender.specs.Locked.{HasBytes};

use receipts::Ended;
use screen::{Fault, Update};

/// What a viewer's sender does next: it sends an update, or ends.
#[derive(Drop)]
pub enum NextStep {
    /// Sends this.
    Send(Update),
    /// Ends, since all was stopped.
    Stopped,
    /// Ends, since the viewer is closed.
    Closed,
    /// Ends, since the viewer met a fault.
    Faulty(Fault),
}

/// What a viewer's sender does next, and whose sender that is.
#[derive(Drop)]
pub struct Turn {
    /// The viewer's number.
    pub viewer: u64,
    /// What its sender does.
    pub step: NextStep,
}

impl NextStep {
    /// Returns the update that is sent, or why the sender ends.
    pub fn update(self) -> Result<Update, Ended>
        ensures step { result ≡ sent_in self }
        ensures bytes { HasBytes self → IfOk result (λ update. update ≢ []) }
        ensures ends { IfErr result CuttingEnds }
    {
        match self {
            NextStep::Send(update) => Ok(update),
            NextStep::Stopped => Err(Ended::Stopped),
            NextStep::Closed => Err(Ended::Closed),
            NextStep::Faulty(fault) => Err(Ended::Fault(fault)),
        }
    }
}
