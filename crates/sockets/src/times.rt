//! The shorter of two times.

ghost use Rattle.std.specs.Prelude.{◌≡◌, ◌≤◌, ◌⊎◌, IfSome, IsSomeAnd};
ghost use Rattle.std.specs.Duration.{as_nanos};

use std::time::Duration;

/// Returns the shorter of two times, where each may be without end.
pub fn shorter(one: Option<Duration>, other: Option<Duration>) -> Option<Duration>
    ensures either { (result ≡ one) ⊎ (result ≡ other) }
    ensures one { IfSome one (λ time. IsSomeAnd result (λ wait. as_nanos wait ≤ as_nanos time)) }
    ensures other { IfSome other (λ time. IsSomeAnd result (λ wait. as_nanos wait ≤ as_nanos time)) }
{
    match (one, other) {
        (Some(first), Some(second)) if first.as_nanos() <= second.as_nanos() => one,
        (Some(_), None) => one,
        _ => other,
    }
}
