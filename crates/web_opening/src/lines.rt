//! What a head's lines say, which the parser found (RFC 9110, 5.1 to 5.6).
ghost use Rattle.std.specs.Prelude.{◌≡◌, length, All, option_map};
ghost use Rattle.httparse.specs.Spans.{IsHeaderWithin, header_bytes};
ghost use Rattle.websocket.specs.Headers.{fields_of, header_value, value_is};
ghost use Rattle.web_opening.specs.Lines.{count_named, is_listed_in, lists};

use crate::text::{Letters, eq_ignore_case, has_element};
use httparse::spans::HeaderSpan;

/// Returns the value of the first line with a name, without the white space around it.
pub(crate) fn header_value<'b>(
    head: &'b [u8],
    lines: &[HeaderSpan],
    name: &[u8],
) -> Option<&'b [u8]>
    requires { All (IsHeaderWithin (length head.now)) lines.now }
    ensures { option_map (λ v. v.now) result ≡ header_value (fields_of head.now lines.now) name.now }
{
    for line in lines {
        if eq_ignore_case(line.name.of(head), name) {
            return Some(line.value.of(head));
        }
    }
    None
}

/// Says whether the first line with a name has a value, in any case of letters.
pub(crate) fn value_is(head: &[u8], lines: &[HeaderSpan], name: &[u8], value: &[u8]) -> bool
    requires { All (IsHeaderWithin (length head.now)) lines.now }
    ensures { result ≡ value_is (fields_of head.now lines.now) name.now value.now }
{
    match header_value(head, lines, name) {
        Some(found) => eq_ignore_case(found, value),
        None => false,
    }
}

/// Returns how many lines have a name.
pub(crate) fn count_named(head: &[u8], lines: &[HeaderSpan], name: &[u8]) -> usize
    requires { All (IsHeaderWithin (length head.now)) lines.now }
    ensures { result ≡ count_named (fields_of head.now lines.now) name.now }
{
    let mut count = 0;
    for line in lines {
        if eq_ignore_case(line.name.of(head), name) {
            count += 1;
        }
    }
    count
}

/// Says whether a line has a name, and the wanted text among the elements of its value.
#[tactic(auto, unfolding(crate::specs::Lines::is_listed_in))]
fn is_listed_in(
    head: &[u8],
    line: &HeaderSpan,
    name: &[u8],
    wanted: &[u8],
    letters: Letters,
) -> bool
    requires { IsHeaderWithin (length head.now) line.now }
    ensures { result ≡ is_listed_in (header_bytes head.now line.now) name.now wanted.now letters }
{
    eq_ignore_case(line.name.of(head), name) && has_element(line.value.of(head), wanted, letters)
}

/// Says whether a line with a name has the wanted text among the elements of its value.
pub(crate) fn lists(
    head: &[u8],
    lines: &[HeaderSpan],
    name: &[u8],
    wanted: &[u8],
    letters: Letters,
) -> bool
    requires { All (IsHeaderWithin (length head.now)) lines.now }
    ensures { result ≡ lists (fields_of head.now lines.now) name.now wanted.now letters }
{
    for line in lines {
        if is_listed_in(head, line, name, wanted, letters) {
            return true;
        }
    }
    false
}
