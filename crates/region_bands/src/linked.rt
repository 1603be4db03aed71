//! Changes of one list of spans, seen as its spans with their ids: every other list stays as it was.

ghost use Rattle.std.specs.Prelude.{◌≡◌, ◌≢◌, ◌≤◌, ◌+◌, ◌++◌, ◌∷◌, ◌↔◌, [], ℕ, List, map, IsTrue, IsSome, IfSome, Some, None};
ghost use Rattle.std.specs.Prelude.{slice_get, length};
ghost use Rattle.span_arena.specs.Arena.{list_of, ids_of, span_of, last_in, IsSound};
ghost use Rattle.region_bands.specs.Held.{Placed, Has, Keeps, IsOverList, ids_in, interval_at, first_under as first_under_lem};

use span_arena::{ListId, Span, SpanId, Spans};

/// Makes a list with no spans, in room that was made.
pub fn new_list(spans: &mut Spans) -> ListId
    requires { 1 ≤ spans.old.spare }
    ensures made { Has spans.new result [] }
    ensures fresh { list_of spans.old result ≡ None }
    ensures others { Keeps spans.old spans.new result }
    ensures spare { spans.old.spare ≤ spans.new.spare + 1 }
    ensures sound { IsSound spans.new }
{
    spans.lists_are_sound();
    let Ok(list) = spans.new_list() else {
        unreachable!()
    };
    spans.lists_are_sound();
    list
}

/// Puts `span` into `list`, in room that was made: before the span `before`, or behind all if that is `None`.
pub fn insert_span(spans: &mut Spans, list: ListId, before: Option<SpanId>, span: Span) -> SpanId
    requires room { 1 ≤ spans.old.spare }
    requires placed { (front : List Placed) × (back : List Placed) × Has spans.old list (front ++ back) ×
        (before ≡ slice_get (ids_in back) 0) }
    ensures put { (front back : List Placed) → Has spans.old list (front ++ back) → before ≡ slice_get (ids_in back) 0 →
        Has spans.new list (front ++ (result, span) ∷ back) }
    ensures others { Keeps spans.old spans.new list }
    ensures spare { spans.old.spare ≤ spans.new.spare + 1 }
    ensures sound { IsSound spans.new }
{
    spans.lists_are_sound();
    let put = match before {
        Some(at) => spans.insert_before(list, at, span),
        None => spans.push_back(list, span),
    };
    let Ok(at) = put else { unreachable!() };
    spans.lists_are_sound();
    at
}

/// Removes the span `at` from `list`.
pub fn take_span(spans: &mut Spans, list: ListId, at: SpanId) -> Span
    requires { (front : List Placed) × (p : Placed) × (back : List Placed) × Has spans.old list (front ++ p ∷ back) × (p.0 ≡ at) }
    ensures span { span_of spans.old at ≡ Some result }
    ensures taken { (front : List Placed) (p : Placed) (back : List Placed) → Has spans.old list (front ++ p ∷ back) → p.0 ≡ at →
        Has spans.new list (front ++ back) }
    ensures others { Keeps spans.old spans.new list }
    ensures spare { spans.new.spare ≡ spans.old.spare + 1 }
    ensures sound { IsSound spans.new }
{
    spans.lists_are_sound();
    let span = spans.remove(list, at);
    spans.lists_are_sound();
    span
}

/// Replaces the span with the id `at` by `span`.
pub fn set_span(spans: &mut Spans, at: SpanId, span: Span)
    requires { IsSome (span_of spans.old at) }
    ensures set { (list : ℕ) (front : List Placed) (p : Placed) (back : List Placed) → Has spans.old list (front ++ p ∷ back) →
        p.0 ≡ at → Has spans.new list (front ++ (p.0, span) ∷ back) }
    ensures others { (list : ℕ) (front : List Placed) (p : Placed) (back : List Placed) → Has spans.old list (front ++ p ∷ back) →
        p.0 ≡ at → Keeps spans.old spans.new list }
    ensures spare { spans.new.spare ≡ spans.old.spare }
    ensures sound { IsSound spans.new }
{
    spans.lists_are_sound();
    spans.set(at, span);
    spans.lists_are_sound();
}

/// Frees `list` and its spans.
pub fn free(spans: &mut Spans, list: ListId)
    requires { IsSome (list_of spans.old list) }
    ensures others { Keeps spans.old spans.new list }
    ensures spare { (placed : List Placed) → Has spans.old list placed → spans.new.spare ≡ spans.old.spare + length placed + 1 }
    ensures sound { IsSound spans.new }
{
    spans.lists_are_sound();
    spans.free_list(list);
    spans.lists_are_sound();
}

/// Returns the first span of the list below the span `at`; `None` if there is none.
pub fn first_under(spans: &Spans, at: Option<SpanId>) -> Option<SpanId>
    requires { IfSome at (IsOverList spans.now) }
    ensures { result ≡ first_under_lem spans.now at }
{
    let span = spans.get(at?);
    spans.first(span.sub?)
}

/// Returns the last span of `list` before the span `before`, or the list's last if that is `None`.
pub fn last_before(spans: &Spans, list: ListId, before: Option<SpanId>) -> Option<SpanId>
    requires list { IsSome (list_of spans.now list) }
    requires before { IfSome before (λ at. IsSome (span_of spans.now at)) }
    ensures { (front back : List ℕ) → list_of spans.now list ≡ Some (front ++ back) → before ≡ slice_get back 0 →
        result ≡ last_in front }
{
    match before {
        Some(at) => spans.prev(at),
        None => spans.last(list),
    }
}

/// Says whether two lists have the same spans, but for the lists below them.
pub fn same_intervals(spans: &Spans, one: ListId, other: ListId) -> bool
    requires one { IsSome (list_of spans.now one) }
    requires other { IsSome (list_of spans.now other) }
    ensures { IsTrue result ↔ (map (interval_at spans.now) (ids_of spans.now one) ≡
        map (interval_at spans.now) (ids_of spans.now other)) }
{
    spans.lists_are_sound();
    let mut left = spans.first(one);
    let mut right = spans.first(other);
    while let Some(a) = left {
        let Some(b) = right else {
            return false;
        };
        let (x, y) = (spans.get(a), spans.get(b));
        if x.start != y.start || x.stop != y.stop {
            return false;
        }
        left = spans.next(a);
        right = spans.next(b);
    }
    right.is_none()
}
