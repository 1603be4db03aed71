//! The places of a screen that are not clean, as two regions, and what drawing and requests do to them.

ghost use Rattle.std.specs.Prelude.{◌≡◌, ◌&&◌, ◌||◌, not, true, if◌then◌else◌, ℕ, ℤ, pos, false, ◌≤◌, ◌+ℤ◌, ◌-ℤ◌, IfOk};
ghost use Rattle.region.specs.Region.{covers, on_screen};
ghost use Rattle.region.specs.Places.{longest_side};
ghost use Rattle.copy_schedule.specs.declared.Mark.TheVariants.{Owed};
ghost use Rattle.copy_schedule.specs.Marks.{is_copied, moved_mark, IsCutTo};
ghost use Rattle.copy_schedule.specs.MarkSets.{mark_in_sets, LiesOn, AreMarkSets};
ghost use Rattle.copy_schedule.specs.Sets.{is_far_by};

use crate::sets::{fits, leads_off, moved_by, part_on_screen};
use region::Region;
use std::alloc::{AllocError, Global};

/// The owed and the copied places.
#[derive(Drop)]
pub struct MarkSets {
    pub owed: Region,
    pub copied: Region,
}

/// Returns a copy of `sets`. `AllocError` if memory is refused.
pub fn clone_of(alloc: Global, sets: &MarkSets) -> Result<MarkSets, AllocError>
    ensures owed { IfOk result (λ k. k.owed.list ≡ sets.now.owed.list) }
    ensures copied { IfOk result (λ k. k.copied.list ≡ sets.now.copied.list) }
{
    let owed = sets.owed.try_clone(alloc)?;
    let copied = sets.copied.try_clone(alloc)?;
    Ok(MarkSets { owed, copied })
}

/// Returns `sets` after the places of `set` became owed.
pub fn owing(sets: &MarkSets, set: &Region) -> Result<MarkSets, AllocError>
    ensures marks { IfOk result (λ k. (x y : ℤ) →
        mark_in_sets k x y ≡ (if covers set.now.list x y then Owed else mark_in_sets sets.now x y)) }
    ensures sets { IfOk result (λ k. (w h : ℕ) → AreMarkSets w h sets.now → LiesOn w h set.now.list → AreMarkSets w h k) }
{
    let owed = sets.owed.union(set)?;
    let copied = sets.copied.difference(set)?;
    Ok(MarkSets { owed, copied })
}

/// Returns `sets` after those places of `set` became owed that are on a screen of `width` columns and `height` rows. Borrows `set`
/// as it is if its box lies on the screen.
pub fn owing_on_screen(
    alloc: Global,
    sets: &MarkSets,
    set: &Region,
    width: u32,
    height: u32,
) -> Result<MarkSets, AllocError>
    requires width { width ≤ longest_side }
    requires height { height ≤ longest_side }
    ensures marks { IfOk result (λ k. (x y : ℤ) →
        mark_in_sets k x y ≡ (if covers set.now.list x y && on_screen width height x y then Owed else mark_in_sets sets.now x y)) }
    ensures sets { IfOk result (λ k. AreMarkSets width height sets.now → AreMarkSets width height k) }
{
    if fits(set, width, height) {
        return owing(sets, set);
    }
    let part = part_on_screen(alloc, set, width, height)?;
    let left = owing(sets, &part)?;
    Ok(left)
}

/// Returns `sets` after the copied places became owed.
pub fn owing_copies(sets: &MarkSets) -> Result<MarkSets, AllocError>
    ensures marks { IfOk result (λ k. (x y : ℤ) →
        mark_in_sets k x y ≡ (if covers sets.now.copied.list x y then Owed else mark_in_sets sets.now x y)) }
    ensures sets { IfOk result (λ k. (w h : ℕ) → AreMarkSets w h sets.now → AreMarkSets w h k) }
{
    let left = owing(sets, &sets.copied)?;
    Ok(left)
}

fn opposite(by: i32) -> i32
    requires { is_far_by by ≡ false }
    ensures { result ≡ pos 0 -ℤ by }
{
    -by
}

/// Returns the copied places that a copy of `drawn` by `offset`, (dx, dy), makes owed. Unless the offset `stays`, these are all,
/// since they wait by another one. If it stays, they are those from which the copy takes colours that they wait for themselves.
fn lost_places(
    alloc: Global,
    copied: &Region,
    drawn: &Region,
    offset: (i32, i32),
    stays: bool,
) -> Result<Region, AllocError>
    requires copied { LiesOn longest_side longest_side copied.now.list }
    requires drawn { IsCutTo longest_side longest_side offset drawn.now.list }
    ensures { IfOk result (λ lost. (x y : ℤ) →
        covers lost.list x y ≡ (covers copied.now.list x y &&
        (not stays || covers drawn.now.list (x +ℤ offset.0) (y +ℤ offset.1)))) }
{
    if !stays {
        return copied.try_clone(alloc);
    }
    if leads_off(offset) {
        return Ok(Region::new(alloc));
    }
    let back = (opposite(offset.0), opposite(offset.1));
    let sources = moved_by(alloc, drawn, back)?;
    let lost = copied.intersection(&sources)?;
    Ok(lost)
}

/// Returns `sets` after the copied places became owed that are lost to a copy of `drawn` by `offset`, (dx, dy). If the offset
/// `stays`, the copied places wait by it already; else it becomes theirs.
pub fn losing(
    alloc: Global,
    sets: &MarkSets,
    drawn: &Region,
    offset: (i32, i32),
    stays: bool,
) -> Result<MarkSets, AllocError>
    requires sets { AreMarkSets longest_side longest_side sets.now }
    requires drawn { IsCutTo longest_side longest_side offset drawn.now.list }
    ensures marks { IfOk result (λ k. (x y : ℤ) →
        mark_in_sets k x y ≡ (if is_copied (mark_in_sets sets.now x y) &&
        (not stays || covers drawn.now.list (x +ℤ offset.0) (y +ℤ offset.1)) then Owed else mark_in_sets sets.now x y)) }
    ensures sets { IfOk result (λ k. (w h : ℕ) → AreMarkSets w h sets.now → AreMarkSets w h k) }
{
    let lost = lost_places(alloc, &sets.copied, drawn, offset, stays)?;
    let left = owing(sets, &lost)?;
    Ok(left)
}

/// Returns `sets` after a copy of `drawn` by `offset`, (dx, dy). An owed place stays owed. Of the others, those that were copied or
/// are drawn become owed if their sources are owed, and copied if not.
pub fn moving(
    alloc: Global,
    sets: &MarkSets,
    drawn: &Region,
    offset: (i32, i32),
) -> Result<MarkSets, AllocError>
    requires sets { AreMarkSets longest_side longest_side sets.now }
    ensures marks { IfOk result (λ k. (x y : ℤ) → on_screen longest_side longest_side x y ≡ true →
        mark_in_sets k x y ≡ moved_mark (covers drawn.now.list x y) (mark_in_sets sets.now x y)
        (mark_in_sets sets.now (x -ℤ offset.0) (y -ℤ offset.1))) }
    ensures sets { IfOk result (λ k. (w h : ℕ) → AreMarkSets w h sets.now → LiesOn w h drawn.now.list → AreMarkSets w h k) }
{
    let all = sets.copied.union(drawn)?;
    let sources = moved_by(alloc, &sets.owed, offset)?;
    let taken = all.intersection(&sources)?;
    let owed = sets.owed.union(&taken)?;
    let copied = all.difference(&owed)?;
    Ok(MarkSets { owed, copied })
}

/// Returns `sets` after the places of `set` became owed, and with them the copied places that are in `other`.
pub fn forgetting(sets: &MarkSets, set: &Region, other: &Region) -> Result<MarkSets, AllocError>
    ensures marks { IfOk result (λ k. (x y : ℤ) →
        mark_in_sets k x y ≡ (if covers set.now.list x y ||
        (covers sets.now.copied.list x y && covers other.now.list x y) then Owed else mark_in_sets sets.now x y)) }
    ensures sets { IfOk result (λ k. (w h : ℕ) → AreMarkSets w h sets.now → LiesOn w h set.now.list → AreMarkSets w h k) }
{
    let awaiting = sets.copied.intersection(other)?;
    let all = set.union(&awaiting)?;
    let left = owing(sets, &all)?;
    Ok(left)
}
