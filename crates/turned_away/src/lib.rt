//! What a connection is told for which there is no room.
#![tactic(auto)]

ghost use Rattle.std.specs.Prelude.{◌≡◌};
ghost use Rattle.turned_away.specs.Refusal.{refusal, reason};

/// How many bytes a refusal has.
pub const REFUSAL_LENGTH: usize = 36;

/// Returns all that a server says to a connection that is one too many: the version 3.3, in which the server may say so at once, that
/// the connection failed, and the reason, `too many viewers`.
pub fn refusal() -> [u8; REFUSAL_LENGTH]
    ensures { result ≡ refusal reason }
{
    *b"RFB 003.003\n\0\0\0\0\0\0\0\x10too many viewers"
}
