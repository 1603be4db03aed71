//! Which answer a head gets (RFC 6455, 4.2).
ghost use Rattle.std.specs.Prelude.{◌≡◌, ◌≢◌, ◌≤◌, ℕ, List, length, All, IfSome, IsSomeAnd};
ghost use Rattle.httparse.specs.Grammar.{RequestHead, ReadsRequest};
ghost use Rattle.httparse.specs.Spans.{IsHeaderWithin, IsRequestWithin, IsRequestOf, IsRequestAt};
ghost use Rattle.websocket.specs.Headers.{fields_of};
ghost use Rattle.web_opening.specs.Request.{request_at, is_target, comes_once_at_most, repeats_nothing, is_well_formed, asks_for_web_socket, refusal_of, key_in, offers_binary, IsAnswerToKey, IsVerdictOn, IsVerdictOnHead};

use crate::admission::Admission;
use crate::answers::{Acceptance, Refusal, Verdict};
use crate::lines::{count_named, header_value, lists, value_is};
use crate::text::{Letters, begins_with};
use httparse::Status;
use httparse::spans::{EMPTY_HEADER_SPAN, HeaderSpan, RequestSpans, parse_request};
use websocket::handshake::server::accept_key;

/// How many header lines a request has at most.
pub const MOST_LINES: usize = 64;

/// What a request's first line says.
#[derive(Drop)]
struct StartLine<'b> {
    method: &'b [u8],
    target: &'b [u8],
    minor: u8,
}

/// Says whether a target is a path, or a URI of HTTP or HTTPS.
#[tactic(auto, unfolding(crate::specs::Request::is_target))]
fn is_target(target: &[u8]) -> bool
    ensures { result ≡ is_target target.now }
{
    begins_with(target, b"/") || begins_with(target, b"http://") || begins_with(target, b"https://")
}

/// Says whether at most one line has a name.
#[tactic(auto, using(std::proofs::lemmas::Bool::Decides::nat_tests))]
fn comes_once_at_most(head: &[u8], lines: &[HeaderSpan], name: &[u8]) -> bool
    requires { All (IsHeaderWithin (length head.now)) lines.now }
    ensures { result ≡ comes_once_at_most (fields_of head.now lines.now) name.now }
{
    count_named(head, lines, name) <= 1
}

/// Says whether what may come once comes once.
#[tactic(auto, unfolding(crate::specs::Request::repeats_nothing))]
fn repeats_nothing(head: &[u8], lines: &[HeaderSpan]) -> bool
    requires { All (IsHeaderWithin (length head.now)) lines.now }
    ensures { result ≡ repeats_nothing (fields_of head.now lines.now) }
{
    comes_once_at_most(head, lines, b"Origin")
        && comes_once_at_most(head, lines, b"Sec-WebSocket-Key")
        && comes_once_at_most(head, lines, b"Sec-WebSocket-Version")
}

/// Says whether a request's target is one, whether it has one Host, and whether what may come once comes once.
#[tactic(auto, using(std::proofs::lemmas::Bool::Decides::nat_tests), unfolding(crate::specs::Request::is_well_formed))]
fn is_well_formed(start: &StartLine<'_>, head: &[u8], lines: &[HeaderSpan]) -> bool
    requires { All (IsHeaderWithin (length head.now)) lines.now }
    ensures { result ≡ is_well_formed (record {
      method = start.now.method.now;
      target = start.now.target.now;
      minor = start.now.minor;
      fields = fields_of head.now lines.now;
    }) }
{
    is_target(start.target)
        && count_named(head, lines, b"Host") == 1
        && repeats_nothing(head, lines)
}

/// Says whether lines ask for a WebSocket of version 13.
#[tactic(auto, unfolding(crate::specs::Request::asks_for_web_socket))]
fn asks_for_web_socket(head: &[u8], lines: &[HeaderSpan]) -> bool
    requires { All (IsHeaderWithin (length head.now)) lines.now }
    ensures { result ≡ asks_for_web_socket (fields_of head.now lines.now) }
{
    lists(head, lines, b"Upgrade", b"websocket", Letters::AnyCase)
        && lists(head, lines, b"Connection", b"Upgrade", Letters::AnyCase)
        && value_is(head, lines, b"Sec-WebSocket-Version", b"13")
}

/// Returns why a request is refused whatever its key is, if it is.
#[tactic(auto, using(std::proofs::lemmas::Bool::Decides::nat_tests))]
fn refusal_of(
    start: &StartLine<'_>,
    head: &[u8],
    lines: &[HeaderSpan],
    admission: &Admission,
) -> Option<Refusal>
    requires { All (IsHeaderWithin (length head.now)) lines.now }
    ensures { result ≡ refusal_of admission.now.hosts admission.now.origins (record {
      method = start.now.method.now;
      target = start.now.target.now;
      minor = start.now.minor;
      fields = fields_of head.now lines.now;
    }) }
{
    if start.minor == 0 {
        return Some(Refusal::VersionNotSupported);
    }
    if !is_well_formed(start, head, lines) {
        return Some(Refusal::BadRequest);
    }
    if start.method != b"GET".as_slice() {
        return Some(Refusal::MethodNotAllowed);
    }
    if !admission.is_let_in(head, lines) {
        return Some(Refusal::Forbidden);
    }
    if !asks_for_web_socket(head, lines) {
        return Some(Refusal::UpgradeRequired);
    }
    None
}

/// Answers a key: one of sixteen bytes is accepted.
fn answer_to(key: &[u8], speaks_binary: bool) -> Verdict
    ensures { IsAnswerToKey key.now speaks_binary result }
{
    match accept_key(key) {
        Ok(answer) => Verdict::Accept(Acceptance {
            accept_key: answer,
            speaks_binary,
        }),
        Err(_) => Verdict::Refuse(Refusal::BadRequest),
    }
}

/// Answers a request that asks for a WebSocket: its key decides.
fn answer_key(head: &[u8], lines: &[HeaderSpan]) -> Verdict
    requires { All (IsHeaderWithin (length head.now)) lines.now }
    ensures { IsAnswerToKey (key_in (fields_of head.now lines.now)) (offers_binary (fields_of head.now lines.now)) result }
{
    let key = header_value(head, lines, b"Sec-WebSocket-Key").unwrap_or(&[]);
    let speaks_binary = lists(
        head,
        lines,
        b"Sec-WebSocket-Protocol",
        b"binary",
        Letters::Exact,
    );
    answer_to(key, speaks_binary)
}

/// Returns the verdict on a request.
fn judge(
    head: &[u8],
    request: &RequestSpans,
    spans: &[HeaderSpan],
    admission: &Admission,
) -> Verdict
    requires { IsRequestWithin head.now spans.now request.now }
    ensures { IsVerdictOn admission.now.hosts admission.now.origins (request_at head.now spans.now request.now) result }
{
    let lines = &spans[..request.headers];
    let start = StartLine {
        method: request.method.of(head),
        target: request.path.of(head),
        minor: request.version,
    };
    match refusal_of(&start, head, lines, admission) {
        Some(refusal) => Verdict::Refuse(refusal),
        None => answer_key(head, lines),
    }
}

/// Returns the verdict on a request that is all of a head. Refuses one behind which bytes of the head are left: then a line of it ends in
/// LF alone.
fn judge_whole(
    head: &[u8],
    request: &RequestSpans,
    spans: &[HeaderSpan],
    admission: &Admission,
) -> Verdict
    requires { IsRequestWithin head.now spans.now request.now }
    ensures whole { request.now.len ≡ length head.now
        → IsVerdictOn admission.now.hosts admission.now.origins (request_at head.now spans.now request.now) result }
    ensures longer { request.now.len ≢ length head.now → result ≡ Verdict.Refuse Refusal.BadRequest }
{
    if request.len == head.len() {
        judge(head, request, spans, admission)
    } else {
        Verdict::Refuse(Refusal::BadRequest)
    }
}

/// Finds the request at the front of bytes, with as many header lines as there are spans at most.
fn find_request(head: &[u8], spans: &mut [HeaderSpan]) -> Option<RequestSpans>
    ensures within { IfSome result (IsRequestWithin head.now spans.new) }
    ensures complete { IfSome result (IsRequestOf head.now spans.new) }
    ensures found { (h : RequestHead) (rest : List ℕ) → ReadsRequest head.now h rest → length h.fields ≤ length spans.old
        → IsSomeAnd result (λ r. IsRequestAt head.now spans.new r h) }
{
    match parse_request(head, spans) {
        Ok(Status::Complete(request)) => Some(request),
        _ => None,
    }
}

/// Returns the verdict on a head that has ended.
pub(crate) fn judge_head(head: &[u8], admission: &Admission) -> Verdict
    ensures { IsVerdictOnHead admission.now.hosts admission.now.origins head.now result }
{
    let mut spans = [EMPTY_HEADER_SPAN; MOST_LINES];
    match find_request(head, &mut spans) {
        Some(request) => judge_whole(head, &request, &spans, admission),
        None => Verdict::Refuse(Refusal::BadRequest),
    }
}
