//! Why a replay ends early.

use play_script::trouble::Trouble;
use std::alloc::AllocError;

/// Why a replay ends early.
#[derive(Clone, Copy)]
pub(crate) enum Stop {
    /// The line that was read last says nothing that a session may say there, or what it says is refused.
    BadLine,
    /// Memory, a read or a write failed.
    Trouble(Trouble),
}

impl From<Trouble> for Stop {
    ghost use Rattle.std.specs.Prelude.{◌≡◌};
    ghost use Rattle.replay.specs.declared.stop.Stop.TheVariants as stop;

    ghost from_gives = { λ trouble s. s ≡ stop.Trouble trouble };

    fn from(trouble: Trouble) -> Stop {
        Stop::Trouble(trouble)
    }
}

impl From<AllocError> for Stop {
    ghost use Rattle.std.specs.Prelude.{◌≡◌};
    ghost use Rattle.play_script.specs.declared.trouble.Trouble.TheVariants.{OutOfMemory};
    ghost use Rattle.replay.specs.declared.stop.Stop.TheVariants as stop;

    ghost from_gives = { λ _ s. s ≡ stop.Trouble OutOfMemory };

    fn from(_error: AllocError) -> Stop {
        Stop::Trouble(Trouble::OutOfMemory)
    }
}
