//! What is kept of the places of two rectangles, where it is one rectangle or nothing.

ghost use Rattle.std.specs.Prelude.{◌≡◌, ◌&&◌, ◌||◌, ◌↔◌, not, false, ℤ, int_le, IsTrue, IfSome};
ghost use Rattle.region_rows.specs.Rows.{keeps_place};
ghost use Rattle.region.specs.Region.{in_rect};
ghost use Rattle.region.specs.Forms.{HasPlaces, IsPlain, in_plain, PlainsShare, lies_in, overlap};
ghost use Rattle.region_sets.specs.Strips.{nearer};
ghost use Rattle.region_sets.specs.Walks.{farther};

use crate::Rect;
use crate::stacking::has_places;
use region_rows::Keep;

// Says whether what begins at `from` and ends at `to` lies between `low` and `high`.
fn spans(low: i32, high: i32, from: i32, to: i32) -> bool
    ensures { result ≡ (int_le low from && int_le to high) }
{
    low <= from && to <= high
}

// Says whether `inner` lies in `outer`.
fn holds(outer: Rect, inner: Rect) -> bool
    ensures { result ≡ lies_in inner outer }
{
    spans(outer.x1, outer.x2, inner.x1, inner.x2) && spans(outer.y1, outer.y2, inner.y1, inner.y2)
}

fn farther(a: i32, b: i32) -> i32
    ensures { result ≡ farther a b }
{
    if a < b { b } else { a }
}

fn nearer(a: i32, b: i32) -> i32
    ensures { result ≡ nearer a b }
{
    if a < b { a } else { b }
}

// Returns the rectangle that two rectangles share, which may have no places.
fn overlap(first: Rect, second: Rect) -> Rect
    ensures { result ≡ overlap first second }
{
    Rect {
        x1: farther(first.x1, second.x1),
        y1: farther(first.y1, second.y1),
        x2: nearer(first.x2, second.x2),
        y2: nearer(first.y2, second.y2),
    }
}

// Returns the places of both rectangles.
fn shared(first: Rect, second: Rect) -> Option<Rect>
    ensures places { (x y : ℤ) → in_plain result x y ≡ (in_rect first x y && in_rect second x y) }
    ensures plain { IsPlain result }
{
    let rect = overlap(first, second);
    if has_places(rect) { Some(rect) } else { None }
}

// Returns the places of either rectangle, if one holds the other.
fn joined(first: Rect, second: Rect) -> Option<Rect>
    requires first { HasPlaces first }
    requires second { HasPlaces second }
    ensures places { IfSome result (λ r. (x y : ℤ) → in_rect r x y ≡ (in_rect first x y || in_rect second x y)) }
    ensures some { IfSome result HasPlaces }
{
    if holds(first, second) {
        return Some(first);
    }
    if holds(second, first) {
        return Some(second);
    }
    None
}

// Returns the first rectangle's places that are not in the second, if these are all or none.
fn without(first: Rect, second: Rect) -> Option<Option<Rect>>
    requires { HasPlaces first }
    ensures places { IfSome result (λ r. (x y : ℤ) → in_plain r x y ≡ (in_rect first x y && not (in_rect second x y))) }
    ensures plain { IfSome result IsPlain }
{
    if holds(second, first) {
        return Some(None);
    }
    if shared(first, second).is_none() {
        return Some(Some(first));
    }
    None
}

// Returns what `keep` keeps of the places of two rectangles, if that is known to be a rectangle, or nothing.
fn kept_of_rects(first: Rect, second: Rect, keep: Keep) -> Option<Option<Rect>>
    requires first { HasPlaces first }
    requires second { HasPlaces second }
    ensures places { IfSome result (λ r. (x y : ℤ) → in_plain r x y ≡ keeps_place keep (in_rect first x y) (in_rect second x y)) }
    ensures plain { IfSome result IsPlain }
{
    match keep {
        Keep::Both => Some(shared(first, second)),
        Keep::FirstAlone => without(first, second),
        Keep::Either => Some(Some(joined(first, second)?)),
    }
}

// Returns what `keep` keeps of a rectangle, or of none, beside nothing.
fn kept_of_first(first: Option<Rect>, keep: Keep) -> Option<Rect>
    requires { IsPlain first }
    ensures places { (x y : ℤ) → in_plain result x y ≡ keeps_place keep (in_plain first x y) false }
    ensures plain { IsPlain result }
{
    match keep {
        Keep::Both => None,
        Keep::FirstAlone | Keep::Either => first,
    }
}

// Returns what `keep` keeps of nothing beside a rectangle, or none.
fn kept_of_second(second: Option<Rect>, keep: Keep) -> Option<Rect>
    requires { IsPlain second }
    ensures places { (x y : ℤ) → in_plain result x y ≡ keeps_place keep false (in_plain second x y) }
    ensures plain { IsPlain result }
{
    match keep {
        Keep::Both | Keep::FirstAlone => None,
        Keep::Either => second,
    }
}

/// Returns what `keep` keeps of the places of two rectangles, or of none, if that is known to be a rectangle, or nothing.
pub(crate) fn kept_of_plain(
    first: Option<Rect>,
    second: Option<Rect>,
    keep: Keep,
) -> Option<Option<Rect>>
    requires first { IsPlain first }
    requires second { IsPlain second }
    ensures places { IfSome result (λ r. (x y : ℤ) → in_plain r x y ≡ keeps_place keep (in_plain first x y) (in_plain second x y)) }
    ensures plain { IfSome result IsPlain }
{
    match (first, second) {
        (Some(one), Some(other)) => kept_of_rects(one, other, keep),
        (Some(_), None) => Some(kept_of_first(first, keep)),
        (None, _) => Some(kept_of_second(second, keep)),
    }
}

/// Says whether two rectangles are there and share a place.
pub(crate) fn have_shared(first: Option<Rect>, second: Option<Rect>) -> bool
    ensures { IsTrue result ↔ PlainsShare first second }
{
    match (first, second) {
        (Some(one), Some(other)) => shared(one, other).is_some(),
        (Some(_), None) => false,
        (None, _) => false,
    }
}
