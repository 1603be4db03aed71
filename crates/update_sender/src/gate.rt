//! What a sender asks before it encodes and before it writes.

ghost use Rattle.std.specs.Prelude.{◌≡◌, ℕ, true};

/// What `serve_sender` asks and tells, each time outside the lock. An answer of false ends the sender as `Ended::Gate`.
///
/// A gate may say what its answers stand for, and what it was told: `serve_sender` says then of its updates that the gate let them pass,
/// and was told how long they were.
pub trait Gate {
    /// That it let an update of a viewer be encoded.
    ghost lets_encode: { Self → ℕ → Type 0 } = { λ _ _. Unit {0} };

    /// That it let an update of a viewer be written.
    ghost lets_write: { Self → ℕ → Type 0 } = { λ _ _. Unit {0} };

    /// That it was told how many bytes an update of a viewer had.
    ghost was_told: { Self → ℕ → ℕ → Type 0 } = { λ _ _ _. Unit {0} };

    /// That it was told the end of a viewer's sender.
    ghost was_ended: { Self → ℕ → Type 0 } = { λ _ _. Unit {0} };

    /// Tells, before an update is encoded, whether the sender goes on.
    fn encoding(&self, viewer: u64) -> bool
        ensures { result ≡ true → lets_encode self.now viewer };

    /// Tells, before an update's bytes are written, whether the sender goes on.
    fn writing(&self, viewer: u64) -> bool
        ensures { result ≡ true → lets_write self.now viewer };

    /// Takes note that an update was written whole, and how many bytes it had.
    fn wrote(&self, viewer: u64, bytes: u64)
        ensures { was_told self.now viewer bytes };

    /// Takes note of the end, once, as the sender's last step.
    fn ended(&self, viewer: u64)
        ensures { was_ended self.now viewer };
}

/// A gate that is always open.
#[derive(Clone, Copy, Debug, Drop)]
pub struct OpenGate;

impl Gate for OpenGate {
    fn encoding(&self, _viewer: u64) -> bool
        ensures { result ≡ true }
    {
        true
    }

    fn writing(&self, _viewer: u64) -> bool
        ensures { result ≡ true }
    {
        true
    }

    fn wrote(&self, _viewer: u64, _bytes: u64) {}

    fn ended(&self, _viewer: u64) {}
}
