//! Where a request's head ends (RFC 9112, 2.1).
ghost use Rattle.std.specs.Prelude.{◌≡◌, ◌≤◌, length, take, drop};
ghost use Rattle.web_opening.specs.Head.{ends_in_empty_line, is_done, held_after};

/// How many bytes a request's head has at most, the empty line at its end among them.
pub const MOST_BYTES: usize = 8192;

/// Says whether bytes end in an empty line.
pub(crate) fn ends_in_empty_line(bytes: &[u8]) -> bool
    ensures { result ≡ ends_in_empty_line bytes.now }
{
    bytes.ends_with(b"\r\n\r\n")
}

/// Says whether a head takes no more: it has ended, or has as many bytes as it may have.
#[tactic(auto, using(std::proofs::lemmas::Bool::Decides::nat_tests), unfolding(crate::specs::Head::is_done))]
pub(crate) fn is_done(bytes: &[u8]) -> bool
    ensures { result ≡ is_done bytes.now }
{
    ends_in_empty_line(bytes) || MOST_BYTES <= bytes.len()
}

/// Returns how many of the bytes a head takes, of which the first `before` are its own already.
#[tactic(auto, using(crate::proofs::HeadLemmas::held_after_step, crate::proofs::HeadLemmas::held_after_done))]
pub(crate) fn end_of_head(bytes: &[u8], before: usize) -> usize
    requires { before ≤ length bytes.now }
    ensures behind { before ≤ result }
    ensures within { result ≤ length bytes.now }
    ensures held { take result bytes.now ≡ held_after (take before bytes.now) (drop before bytes.now) }
{
    for at in before..bytes.len() {
        if is_done(&bytes[..at]) {
            return at;
        }
    }
    bytes.len()
}
