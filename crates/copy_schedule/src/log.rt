//! Drawing that a viewer's marks lack yet.

ghost use Rattle.std.specs.Prelude.{◌≡◌, ◌||◌, ℕ, ℤ, Bool, All, reverse, IfOk, OnOk};
ghost use Rattle.region.specs.Region.{covers};
ghost use Rattle.copy_schedule.specs.Marks.{Marks, marked};
ghost use Rattle.copy_schedule.specs.Log.{after_entry, logged, IsCutEntry};

use crate::LogEntry;
use crate::marks::Marks;
use region::Region;
use std::alloc::{AllocError, Global};

/// `joined` puts a region of at most this many rectangles into the other one, in place.
const FEW: usize = 64;

/// In parts, `joined_log` joins a mark to the next one only if the next one has at most this many rectangles.
const PART: usize = 16;

/// Returns a region with the places of both. Puts `region` into `next` if it has few rectangles; copies both if it is larger.
fn joined(region: &Region, mut next: Region) -> Result<Region, AllocError>
    ensures { IfOk result (λ both. (x y : ℤ) → covers both.list x y ≡ (covers region.now.list x y || covers next.list x y)) }
{
    if region.count_rects() > FEW {
        return region.union(&next);
    }
    next.or(region)?;
    Ok(next)
}

/// Says whether the last entry is a mark of at most `most` rectangles.
fn ends_with_few(out: &[LogEntry], most: usize) -> bool {
    match out.last() {
        Some(LogEntry::Mark(region)) => region.count_rects() <= most,
        _ => false,
    }
}

/// Puts a mark of `region` before the entries of `out`, which stand from the last to the first. Joins it to the mark that comes
/// next, if that has at most `most` rectangles.
fn mark_before(out: &mut Vec<LogEntry>, region: &Region, most: usize) -> Result<(), AllocError>
    ensures same { OnOk result ((uses_copyrect : Bool) (m : Marks) →
        logged uses_copyrect (reverse out.new.items) m ≡
        logged uses_copyrect (reverse out.old.items) (marked (covers region.now.list) m)) }
    ensures cut { OnOk result ((w h : ℕ) → All (IsCutEntry w h) out.old.items → All (IsCutEntry w h) out.new.items) }
{
    let alloc = *out.allocator();
    if !ends_with_few(out, most) {
        let region = region.try_clone(alloc)?;
        out.push(LogEntry::Mark(region))?;
        return Ok(());
    }
    match out.pop() {
        Some(LogEntry::Mark(next)) => {
            let both = joined(region, next)?;
            out.push(LogEntry::Mark(both))?;
        }
        Some(next) => {
            out.push(next)?;
            out.push(LogEntry::Mark(region.try_clone(alloc)?))?;
        }
        None => out.push(LogEntry::Mark(region.try_clone(alloc)?))?,
    }
    Ok(())
}

/// Puts `entry` before the entries of `out`, which stand from the last to the first: as it is for a viewer that uses CopyRect, if
/// `uses_copyrect`, and else as it is for another. Joins it as a mark to the next one if that has at most `most` rectangles.
fn put_before(
    out: &mut Vec<LogEntry>,
    entry: &LogEntry,
    uses_copyrect: bool,
    most: usize,
) -> Result<(), AllocError>
    ensures same { OnOk result ((m : Marks) →
        logged uses_copyrect (reverse out.new.items) m ≡
        logged uses_copyrect (reverse out.old.items) (after_entry uses_copyrect entry.now m)) }
    ensures cut { OnOk result ((w h : ℕ) → All (IsCutEntry w h) out.old.items → IsCutEntry w h entry.now →
        All (IsCutEntry w h) out.new.items) }
{
    match entry {
        LogEntry::Mark(region) => mark_before(out, region, most),
        LogEntry::Copy { region, dx, dy } => {
            if !uses_copyrect {
                return mark_before(out, region, most);
            }
            let region = region.try_clone(*out.allocator())?;
            out.push(LogEntry::Copy {
                region,
                dx: *dx,
                dy: *dy,
            })?;
            Ok(())
        }
    }
}

/// Returns the same drawing for a viewer that uses CopyRect, if `uses_copyrect`, and else for another. Joins a mark to the next one
/// if that has at most `most` rectangles. Joins from the last to the first, so that it goes only once through a large region that
/// stands before many small ones.
fn joined_up_to(
    alloc: Global,
    entries: &[LogEntry],
    uses_copyrect: bool,
    most: usize,
) -> Result<Vec<LogEntry>, AllocError>
    ensures same { IfOk result (λ out. (m : Marks) → logged uses_copyrect out.items m ≡ logged uses_copyrect entries.now m) }
    ensures cut { IfOk result (λ out. (w h : ℕ) → All (IsCutEntry w h) entries.now → All (IsCutEntry w h) out.items) }
{
    let mut out = Vec::new(alloc);
    let mut left = entries.len();
    while left > 0 {
        left -= 1;
        put_before(&mut out, &entries[left], uses_copyrect, most)?;
    }
    out.reverse();
    Ok(out)
}

/// Returns the same drawing for a viewer that uses CopyRect, if `uses_copyrect`, and else for another. Joins neighbouring marks to
/// one region, so that there are fewer entries. Joins them in parts first, so that it doesn't put many small ones one by one into a
/// region that grows with them.
pub fn joined_log(
    alloc: Global,
    entries: &[LogEntry],
    uses_copyrect: bool,
) -> Result<Vec<LogEntry>, AllocError>
    ensures same { IfOk result (λ out. (m : Marks) → logged uses_copyrect out.items m ≡ logged uses_copyrect entries.now m) }
    ensures cut { IfOk result (λ out. (w h : ℕ) → All (IsCutEntry w h) entries.now → All (IsCutEntry w h) out.items) }
{
    let parts = joined_up_to(alloc, entries, uses_copyrect, PART)?;
    joined_up_to(alloc, &parts, uses_copyrect, usize::MAX)
}

/// Changes the marks by the drawing of one entry: a `Mark` by `mark`, a `Copy` by `copy`.
fn take_entry(marks: &mut Marks, entry: &LogEntry, uses_copyrect: bool) -> Result<(), AllocError>
    requires cut { IsCutEntry marks.old.width marks.old.height entry.now }
    ensures { OnOk result (marks.new ≡ after_entry uses_copyrect entry.now marks.old) }
{
    match entry {
        LogEntry::Mark(region) => marks.mark(region),
        LogEntry::Copy { region, dx, dy } => marks.copy(region, *dx, *dy, uses_copyrect),
    }
}

/// Changes the marks by the drawing of the entries, in their order.
pub(crate) fn take_entries(
    marks: &mut Marks,
    entries: &[LogEntry],
    uses_copyrect: bool,
) -> Result<(), AllocError>
    requires cut { All (IsCutEntry marks.old.width marks.old.height) entries.now }
    ensures { OnOk result (marks.new ≡ logged uses_copyrect entries.now marks.old) }
{
    for entry in entries {
        take_entry(marks, entry, uses_copyrect)?;
    }
    Ok(())
}
