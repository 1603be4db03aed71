//! Calls of an arena of lists in order. They also pass where one allocation, whichever, is refused.

ghost use Rattle.std.specs.Prelude.{◌≡◌, ◌≢◌, [], IsSome, Some};
ghost use Rattle.span_arena.specs.Arena.{list_of};

use span_arena::{ListId, Span, SpanId, Spans};
use std::alloc::AllocError;
use std::test::Fail;

/// Makes a span with no list below it.
fn span(start: i32, stop: i32) -> Span {
    Span {
        start,
        stop,
        sub: None,
    }
}

/// Says whether `list` has spans with these numbers, and its links lead back as they lead on.
fn is_same(spans: &Spans, list: ListId, numbers: &[(i32, i32)]) -> bool
    requires { IsSome (list_of spans.now list) }
{
    spans.lists_are_sound();
    let mut place = spans.first(list);
    let mut before = None;
    for (start, stop) in numbers {
        let Some(at) = place else {
            return false;
        };
        let span = spans.get(at);
        if span.start != *start || span.stop != *stop || spans.prev(at) != before {
            return false;
        }
        before = place;
        place = spans.next(at);
    }
    place.is_none() && spans.last(list) == before
}

/// Takes out the spans with no numbers.
fn remove_empty(spans: &mut Spans, list: ListId)
    requires { IsSome (list_of spans.old list) }
    ensures { IsSome (list_of spans.new list) }
{
    let mut place = spans.first(list);
    while let Some(at) = place {
        spans.lists_are_sound();
        place = spans.next(at);
        let span = spans.get(at);
        if span.start == span.stop {
            spans.remove(list, at);
        }
    }
}

/// Puts a span behind all others of a list. Passes over one refusal of memory, which must have changed nothing.
fn push(spans: &mut Spans, list: ListId, stop: i32) -> Result<SpanId, AllocError>
    requires { IsSome (list_of spans.old list) }
    ensures { IsSome (list_of spans.new list) }
{
    let last = spans.last(list);
    if let Ok(at) = spans.push_back(list, span(0, stop)) {
        return Ok(at);
    }
    if spans.last(list) != last {
        return Err(AllocError);
    }
    spans.push_back(list, span(0, stop))
}

/// Checks that a span comes in between two others of a new list, and goes, and another one's numbers become others.
fn comes_and_goes(spans: &mut Spans, list: ListId) -> Result<bool, AllocError>
    requires { list_of spans.old list ≡ Some [] }
{
    let a = spans.push_back(list, span(0, 4))?;
    let b = spans.push_back(list, span(6, 8))?;
    let c = spans.insert_before(list, b, span(5, 6))?;
    let came = is_same(spans, list, &[(0, 4), (5, 6), (6, 8)]);
    let gone = spans.remove(list, c);
    let is_linked = (spans.next(a), spans.prev(b)) == (Some(b), Some(a))
        && (spans.first(list), spans.last(list)) == (Some(a), Some(b))
        && (spans.prev(a), spans.next(b)) == (None, None);
    spans.set(a, span(0, 5));
    Ok(
        came && is_linked
            && gone == span(5, 6)
            && (spans.get(a), spans.get(b)) == (span(0, 5), span(6, 8))
            && is_same(spans, list, &[(0, 5), (6, 8)]),
    )
}

/// Checks that two lists get spans by turns, and the second, which stands below a span of the first, keeps its own when the first
/// is freed.
fn stays(spans: &mut Spans, list: ListId, other: ListId) -> Result<bool, AllocError>
    requires list { IsSome (list_of spans.old list) }
    requires other { IsSome (list_of spans.old other) }
    requires apart { list ≢ other }
{
    let below = Span {
        sub: Some(other),
        ..span(0, 4)
    };
    let at = spans.push_back(list, below)?;
    spans.push_back(other, span(1, 2))?;
    let is_below = spans.get(at).sub == Some(other);
    spans.push_back(list, span(6, 8))?;
    let both = is_same(spans, list, &[(0, 4), (6, 8)]) && is_same(spans, other, &[(1, 2)]);
    spans.free_list(list);
    Ok(is_below && both && is_same(spans, other, &[(1, 2)]))
}

/// Checks that spans go on a walk along a new list, which is empty once it was freed and is made anew.
fn go_on_a_walk(spans: &mut Spans, list: ListId) -> Result<bool, AllocError>
    requires { IsSome (list_of spans.old list) }
{
    spans.push_back(list, span(1, 1))?;
    spans.push_back(list, span(2, 4))?;
    spans.push_back(list, span(5, 5))?;
    spans.push_back(list, span(6, 6))?;
    spans.push_back(list, span(7, 8))?;
    remove_empty(spans, list);
    let are_left = is_same(spans, list, &[(2, 4), (7, 8)]);
    spans.free_list(list);
    let again = spans.new_list()?;
    Ok(are_left && is_same(spans, again, &[]))
}

/// Checks that each of 40 spans comes last, for which the list makes room several times.
fn come_last(spans: &mut Spans, list: ListId) -> Result<bool, AllocError>
    requires { IsSome (list_of spans.old list) }
{
    for stop in 0..40 {
        let at = push(spans, list, stop)?;
        if spans.last(list) != Some(at) {
            return Ok(false);
        }
    }
    Ok(true)
}

#[test]
fn spans_whichever_allocation_is_refused(rt: HostRuntime) -> Result<(), Fail> {
    let mut spans = Spans::new(rt.alloc());
    assert!(rt; spans.reserve(32).is_ok() || spans.reserve(32).is_ok());
    let list = spans.new_list()?;
    assert!(rt; comes_and_goes(&mut spans, list)?);
    let (list, other) = (spans.new_list()?, spans.new_list()?);
    assert!(rt; list != other && stays(&mut spans, list, other)?);
    let list = spans.new_list()?;
    assert!(rt; go_on_a_walk(&mut spans, list)?);
    let list = spans.new_list()?;
    assert!(rt; come_last(&mut spans, list)?);
    Ok(())
}
