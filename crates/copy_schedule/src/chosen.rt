//! What an update sends of a screen's places.

ghost use Rattle.std.specs.Prelude.{◌≡◌, ◌&&◌, ◌||◌, not, ℤ, ◌-ℤ◌, IfOk, take, All, [], true};
ghost use Rattle.region.specs.Region.{covers, on_screen, order, IsCanonical};
ghost use Rattle.region.specs.Places.{IsOnScreen, longest_side};
ghost use Rattle.copy_schedule.specs.MarkSets.{LiesOn, AreMarkSets};

use crate::mark_sets::MarkSets;
use crate::sets::{is_screen, moved_by};
use region::{Rect, Region};
use std::alloc::{AllocError, Global};

/// The places that the viewer asked for and that are not clean: those that an update may send as copies, and those that it may send
/// as pixels. Beside them, all places that are not clean.
#[derive(Drop)]
pub struct Chosen {
    pub copies: Region,
    pub pixels: Region,
    pub unclean: Region,
}

/// Returns the places of `copied` that an update may send as copies: the viewer asked for them, and for their sources, `offset`
/// (dx, dy) before them.
fn copyable(
    alloc: Global,
    copied: &Region,
    asked: &Region,
    offset: (i32, i32),
) -> Result<Region, AllocError>
    requires copied { LiesOn longest_side longest_side copied.now.list }
    requires asked { LiesOn longest_side longest_side asked.now.list }
    ensures { IfOk result (λ all. (x y : ℤ) →
        covers all.list x y ≡ (covers asked.now.list x y && covers copied.now.list x y &&
        covers asked.now.list (x -ℤ offset.0) (y -ℤ offset.1))) }
{
    let sources = moved_by(alloc, asked, offset)?;
    let both = copied.intersection(asked)?;
    let all = both.intersection(&sources)?;
    Ok(all)
}

/// Returns what the next update may send.
pub fn choose(
    alloc: Global,
    sets: &MarkSets,
    asked: &Region,
    offset: (i32, i32),
) -> Result<Chosen, AllocError>
    requires sets { AreMarkSets longest_side longest_side sets.now }
    requires asked { LiesOn longest_side longest_side asked.now.list }
    ensures copies { IfOk result (λ c. (x y : ℤ) →
        covers c.copies.list x y ≡
        (covers asked.now.list x y && covers sets.now.copied.list x y && covers asked.now.list (x -ℤ offset.0) (y -ℤ offset.1))) }
    ensures pixels { IfOk result (λ c. (x y : ℤ) →
        covers c.pixels.list x y ≡
        (covers asked.now.list x y && (covers sets.now.owed.list x y || covers sets.now.copied.list x y) &&
        not (covers c.copies.list x y))) }
    ensures unclean { IfOk result (λ c. (x y : ℤ) →
        covers c.unclean.list x y ≡ (covers sets.now.owed.list x y || covers sets.now.copied.list x y)) }
{
    let copies = copyable(alloc, &sets.copied, asked, offset)?;
    let unclean = sets.owed.union(&sets.copied)?;
    let wanted = asked.intersection(&unclean)?;
    let pixels = wanted.difference(&copies)?;
    Ok(Chosen {
        copies,
        pixels,
        unclean,
    })
}

/// What an update sends, and the places that are owed after it.
#[derive(Drop)]
pub struct Sending {
    pub copies: Vec<Rect>,
    pub pixels: Vec<Rect>,
    pub owed: Region,
}

/// Returns the first rectangles of `region`, at most `limit`, in the order for copies by `offset`, (dx, dy).
pub fn first_copies(
    alloc: Global,
    region: &Region,
    offset: (i32, i32),
    limit: u32,
) -> Result<Vec<Rect>, AllocError>
    ensures rects { IfOk result (λ rects. rects.items ≡ take limit (order offset.0 offset.1 region.now.list)) }
    ensures canonical { IsCanonical region.now.list }
{
    let mut rects = region.rects(0 < offset.0, 0 < offset.1)?.into_vec();
    rects.truncate(limit as usize);
    Ok(rects)
}

/// Returns the first rectangles of `region`, at most `limit`, from the top.
pub fn first_pixels(region: &Region, limit: u32) -> Result<Vec<Rect>, AllocError>
    ensures rects { IfOk result (λ rects. rects.items ≡ take limit region.now.list) }
    ensures canonical { IsCanonical region.now.list }
{
    let rects = region.first_rects(limit as usize)?;
    Ok(rects.into_vec())
}

/// Returns the places of `unclean` that are left once an update sends the rectangles of `copies` and `pixels`.
pub fn left_after(
    alloc: Global,
    unclean: &Region,
    copies: &[Rect],
    pixels: &[Rect],
) -> Result<Region, AllocError>
    requires copies { All (IsOnScreen longest_side longest_side) copies.now }
    requires pixels { All (IsOnScreen longest_side longest_side) pixels.now }
    ensures { IfOk result (λ left. (x y : ℤ) →
        covers left.list x y ≡ (covers unclean.now.list x y && not (covers copies.now x y || covers pixels.now x y))) }
{
    let moved = Region::from_rects_in_range(alloc, copies)?;
    let drawn = Region::from_rects_in_range(alloc, pixels)?;
    let sent = moved.union(&drawn)?;
    let left = unclean.difference(&sent)?;
    Ok(left)
}

/// Says whether no place awaits a copy, and the viewer is known to have asked for all places of the screen. Then what is wanted is
/// what is owed.
pub fn sends_owed_alone(sets: &MarkSets, asked: &Region, width: u32, height: u32) -> bool
    ensures copied { result ≡ true → sets.now.copied.list ≡ [] }
    ensures asked { result ≡ true → (x y : ℤ) → covers asked.now.list x y ≡ on_screen width height x y }
{
    sets.copied.is_empty() && is_screen(asked, width, height)
}

/// Returns what an update sends, at most `limit` rectangles, if all that is wanted is `owed`. Lists no more rectangles than it
/// sends. Leaves nothing owed if they are fewer than `limit`.
pub fn send_owed(alloc: Global, owed: &Region, limit: u32) -> Result<Sending, AllocError>
    requires { LiesOn longest_side longest_side owed.now.list }
    ensures copies { IfOk result (λ s. s.copies.items ≡ []) }
    ensures pixels { IfOk result (λ s. s.pixels.items ≡ take limit owed.now.list) }
    ensures left { IfOk result (λ s. (x y : ℤ) →
        covers s.owed.list x y ≡ (covers owed.now.list x y && not (covers s.copies.items x y || covers s.pixels.items x y))) }
    ensures canonical { IsCanonical owed.now.list }
{
    let copies = Vec::new(alloc);
    let pixels = first_pixels(owed, limit)?;
    if pixels.len() < limit as usize {
        return Ok(Sending {
            copies,
            pixels,
            owed: Region::new(alloc),
        });
    }
    let left = left_after(alloc, owed, &copies, &pixels)?;
    Ok(Sending {
        copies,
        pixels,
        owed: left,
    })
}
