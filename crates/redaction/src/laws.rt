//! What a redacted session keeps, and what it doesn't.

ghost use Rattle.redaction.specs.Claims.{redacted_is_answered_alike, secrets_leave_no_trace};

/// Proves that a redacted session is answered alike, whatever its events: each viewer is sent the same bytes, the same is refused, and
/// the same is drawn. The application gets other inputs.
pub fn redacted_is_answered_alike()
    ensures { redacted_is_answered_alike }
{}

/// Proves that the redacted session is the same whichever a secret byte of a viewer is.
pub fn secrets_leave_no_trace()
    ensures { secrets_leave_no_trace }
{}
