//! Calls of one viewer's marks, each with what is to be seen of them.

ghost use Rattle.std.specs.Prelude.{◌≡◌, ◌≤◌, All, IfOk};
ghost use Rattle.region.specs.Region.{covers};
ghost use Rattle.region.specs.Places.{IsOnScreen, longest_side};
ghost use Rattle.copy_schedule.specs.Marks.{IsCutTo};
ghost use Rattle.copy_schedule.specs.Log.{IsCutEntry};

use super::{Rects, region_of};
use copy_schedule::{Cut, LogEntry, Marks, joined_log};
use framebuffer::destinations;
use region::{Rect, Region};
use std::alloc::{AllocError, Global};

const ALL: Rect = rect!(0, 0, 8192, 8192);

/// A call of the marks, or what is to be seen of them.
enum Step {
    /// The whole screen is asked for, and sent.
    Shown,
    /// These rectangles are drawn.
    Mark(Rects),
    /// The same in two parts: nothing is owed before the second.
    PreparedMark(Rects),
    /// The same by a log of this one entry.
    LoggedMark(Rects),
    /// A copy by this offset draws these rectangles, and the viewer uses CopyRect.
    Copy(Rects, (i32, i32)),
    /// The same in two parts: no copy is pending before the second.
    PreparedCopy(Rects, (i32, i32)),
    /// The same for a viewer without CopyRect.
    CopyAsPixels(Rects, (i32, i32)),
    /// The viewer uses CopyRect no longer.
    NoCopyrect,
    /// It asks for a rectangle, or for what changed of it.
    Request(Rect),
    RequestChanges(Rect),
    /// An update of at most so many rectangles of each kind sends these copies by this offset, and these pixels.
    Sends(u32, Rects, (i32, i32), Rects),
    /// An update sends nothing.
    SendsNothing,
    /// Whether there is something to send.
    Pending(bool),
    Offset((i32, i32)),
    Owed(Rects),
    Copied(Rects),
    Asked(Rects),
    /// The marks' clone is used from here on.
    Cloned,
    /// A log of two marks of many rectangles is joined; the marks stay.
    Joined,
}

use Step::{
    Asked, Cloned, Copied, Copy, CopyAsPixels, Joined, LoggedMark, Mark, NoCopyrect, Offset, Owed,
    Pending, PreparedCopy, PreparedMark, Request, RequestChanges, Sends, SendsNothing, Shown,
};

/// Returns the region of rectangles of a screen.
fn region_on_screen(alloc: Global, rects: &[Rect]) -> Result<Region, AllocError>
    requires { All (IsOnScreen longest_side longest_side) rects.now }
    ensures { IfOk result (λ region. covers region.list ≡ covers rects.now) }
{
    Region::from_rects_in_range(alloc, rects)
}

/// Returns the rectangles' places that are on the screen with the places `offset` before them.
fn cut_region(
    alloc: Global,
    rects: &[Rect],
    offset: (i32, i32),
    width: u32,
    height: u32,
) -> Result<Region, AllocError>
    requires width { width ≤ longest_side }
    requires height { height ≤ longest_side }
    ensures { IfOk result (λ part. IsCutTo width height offset part.list) }
{
    let pieces = destinations(alloc, rects, offset.0, offset.1, width, height)?;
    let part = region_on_screen(alloc, &pieces)?;
    Ok(part)
}

fn has_rects(region: &Region, rects: &[Rect]) -> Result<bool, AllocError> {
    let listed = region.rects(false, false)?;
    Ok(listed.as_slice() == rects)
}

fn is_cut(cut: &Option<Cut>, copies: &[Rect], offset: (i32, i32), pixels: &[Rect]) -> bool {
    match cut {
        Some(cut) => cut.copies.as_slice() == copies
            && cut.offset == offset
            && cut.pixels.as_slice() == pixels,
        None => false,
    }
}

fn show_all(marks: &mut Marks) -> Result<(), AllocError> {
    marks.request(ALL, false)?;
    marks.cut(50)?;
    Ok(())
}

/// Marks by `mark` or by a log. In two parts instead, returns whether nothing is owed before the second.
fn mark(marks: &mut Marks, alloc: Global, step: &Step, rects: &[Rect]) -> Result<bool, AllocError> {
    let region = region_of(alloc, rects)?;
    match step {
        PreparedMark(_) => {
            let prepared = marks.prepare_mark(&region)?;
            let waits = marks.modified().is_empty();
            marks.commit(prepared);
            return Ok(waits);
        }
        LoggedMark(_) => marks.apply_log(&[LogEntry::Mark(region)], true)?,
        _ => marks.mark(&region)?,
    }
    Ok(true)
}

/// Copies the rectangles, as far as they are on the screen with their sources. In two parts, returns whether no copy is pending
/// before the second.
fn copy(
    marks: &mut Marks,
    alloc: Global,
    step: &Step,
    rects: &[Rect],
    (dx, dy): (i32, i32),
) -> Result<bool, AllocError> {
    let (width, height) = (marks.width(), marks.height());
    let region = cut_region(alloc, rects, (dx, dy), width, height)?;
    if matches!(step, PreparedCopy(..)) {
        let prepared = marks.prepare_copy(&region, dx, dy, true)?;
        let waits = marks.copied().is_empty();
        marks.commit(prepared);
        return Ok(waits);
    }
    marks.copy(&region, dx, dy, matches!(step, Copy(..)))?;
    Ok(true)
}

/// Returns the region of every other place of the first row, from column `first` to before 129.
fn columns_from(alloc: Global, first: u8) -> Result<Region, AllocError> {
    let mut rects = Vec::new(alloc);
    for column in (first..129).step_by(2) {
        let x1 = i32::from(column);
        rects.push(rect!(x1, 0, x1 + 1, 1))?;
    }
    region_of(alloc, &rects)
}

/// Says whether a log comes to one entry, and marks all columns, whether it is joined first or not.
fn marks_all(marks: &Marks, alloc: Global, log: &[LogEntry]) -> Result<bool, AllocError>
    requires cut { All (IsCutEntry marks.now.width marks.now.height) log.now }
{
    let joined = joined_log(alloc, log, true)?;
    let by_log = marks.prepare_log(log, true)?.into_marks();
    let by_joined = marks.prepare_log(&joined, true)?.into_marks();
    let all = [rect!(0, 0, 129, 1)];
    Ok(
        joined.len() == 1
            && has_rects(by_log.modified(), &all)?
            && has_rects(by_joined.modified(), &all)?,
    )
}

/// Says whether `marks_all` holds of a log of two marks: the first has 65 rectangles, and the second the 64 between them.
fn joins_marks(marks: &Marks, alloc: Global) -> Result<bool, AllocError> {
    let log = [
        LogEntry::Mark(columns_from(alloc, 0)?),
        LogEntry::Mark(columns_from(alloc, 1)?),
    ];
    marks_all(marks, alloc, &log)
}

/// Says whether a call is answered as `step` says.
fn is_answered(marks: &mut Marks, alloc: Global, step: &Step) -> Result<bool, AllocError> {
    match step {
        Shown => show_all(marks)?,
        Mark(rects) | PreparedMark(rects) | LoggedMark(rects) => {
            return mark(marks, alloc, step, rects);
        }
        Copy(rects, offset) | PreparedCopy(rects, offset) | CopyAsPixels(rects, offset) => {
            return copy(marks, alloc, step, rects, *offset);
        }
        NoCopyrect => marks.no_copyrect()?,
        Request(asked) => marks.request(*asked, false)?,
        RequestChanges(asked) => marks.request(*asked, true)?,
        Cloned => *marks = marks.try_clone()?,
        Joined => return joins_marks(marks, alloc),
        Sends(limit, copies, offset, pixels) => {
            return Ok(is_cut(&marks.cut(*limit)?, copies, *offset, pixels));
        }
        SendsNothing => return Ok(marks.cut(50)?.is_none()),
        _ => return Ok(false),
    }
    Ok(true)
}

/// Says whether the marks are as `step` says, once it is made.
fn holds(marks: &mut Marks, alloc: Global, step: &Step) -> Result<bool, AllocError> {
    match step {
        Pending(is_pending) => Ok(marks.pending() == *is_pending),
        Offset(offset) => Ok(marks.offset() == *offset),
        Owed(rects) => has_rects(marks.modified(), rects),
        Copied(rects) => has_rects(marks.copied(), rects),
        Asked(rects) => has_rects(marks.requested(), rects),
        _ => is_answered(marks, alloc, step),
    }
}

/// A script on a new screen of these columns and rows.
struct Example {
    name: &'static str,
    size: (u8, u8),
    steps: &'static [Step],
}

/// Says whether the marks are as `step` says, once it is made, at the second time at the latest.
fn holds_at_last(marks: &mut Marks, alloc: Global, step: &Step) -> bool {
    match holds(marks, alloc, step) {
        Ok(is_so) => is_so,
        Err(_) => matches!(holds(marks, alloc, step), Ok(true)),
    }
}

/// Returns how many of an example's steps hold of new marks, one after the other.
fn count_held(alloc: Global, example: &Example) -> usize {
    let (columns, rows) = example.size;
    let mut marks = Marks::new(alloc, u32::from(columns), u32::from(rows));
    for (number, step) in example.steps.iter().enumerate() {
        if !holds_at_last(&mut marks, alloc, step) {
            return number;
        }
    }
    example.steps.len()
}

#[test]
fn marks_whichever_allocation_is_refused(rt: HostRuntime) {
    for example in &EXAMPLES {
        let held = count_held(rt.alloc(), example);
        assert!(rt;
            held == example.steps.len(),
            "{}: step {held}",
            example.name
        );
    }
}

static EXAMPLES: [Example; 20] = [
    Example {
        name: "a new screen is owed, and then only what is marked",
        size: (4, 3),
        steps: &[
            Pending(false),
            Request(ALL),
            Pending(true),
            Sends(50, &[], (0, 0), &[rect!(0, 0, 4, 3)]),
            RequestChanges(ALL),
            SendsNothing,
            Mark(&[rect!(2, 1, 3, 2)]),
            Pending(true),
            Sends(50, &[], (0, 0), &[rect!(2, 1, 3, 2)]),
            Pending(false),
        ],
    },
    Example {
        name: "a request counts where it is on the screen",
        size: (4, 3),
        steps: &[
            Request(rect!(4, 0, 5, 1)),
            Pending(false),
            RequestChanges(rect!(3, 2, 13, 12)),
            Sends(50, &[], (0, 0), &[rect!(3, 2, 4, 3)]),
        ],
    },
    Example {
        name: "what is beyond the limit comes later",
        size: (9, 1),
        steps: &[
            Shown,
            Mark(&[
                rect!(0, 0, 1, 1),
                rect!(2, 0, 3, 1),
                rect!(4, 0, 5, 1),
                rect!(6, 0, 7, 1),
                rect!(8, 0, 9, 1),
            ]),
            RequestChanges(ALL),
            Sends(2, &[], (0, 0), &[rect!(0, 0, 1, 1), rect!(2, 0, 3, 1)]),
            RequestChanges(ALL),
            Sends(2, &[], (0, 0), &[rect!(4, 0, 5, 1), rect!(6, 0, 7, 1)]),
            RequestChanges(ALL),
            Sends(50, &[], (0, 0), &[rect!(8, 0, 9, 1)]),
            RequestChanges(ALL),
            SendsNothing,
        ],
    },
    Example {
        name: "a copy is sent as a copy",
        size: (4, 1),
        steps: &[
            Shown,
            Copy(&[rect!(1, 0, 4, 1)], (1, 0)),
            Offset((1, 0)),
            RequestChanges(ALL),
            Sends(50, &[rect!(1, 0, 4, 1)], (1, 0), &[]),
            Offset((0, 0)),
        ],
    },
    Example {
        name: "a copy is sent as pixels without CopyRect",
        size: (4, 1),
        steps: &[
            Shown,
            Copy(&[rect!(1, 0, 4, 1)], (1, 0)),
            NoCopyrect,
            RequestChanges(ALL),
            Sends(50, &[], (1, 0), &[rect!(1, 0, 4, 1)]),
            CopyAsPixels(&[rect!(1, 0, 4, 1)], (1, 0)),
            RequestChanges(ALL),
            Sends(50, &[], (0, 0), &[rect!(1, 0, 4, 1)]),
        ],
    },
    Example {
        name: "a copy down is one rectangle",
        size: (1, 4),
        steps: &[
            Shown,
            Copy(&[rect!(0, 1, 1, 4)], (0, 1)),
            RequestChanges(ALL),
            Sends(50, &[rect!(0, 1, 1, 4)], (0, 1), &[]),
        ],
    },
    Example {
        name: "copies over their own sources are pixels",
        size: (6, 1),
        steps: &[
            Shown,
            Copy(&[rect!(2, 0, 4, 1)], (1, 0)),
            Copy(&[rect!(3, 0, 5, 1)], (1, 0)),
            RequestChanges(ALL),
            Sends(50, &[], (1, 0), &[rect!(2, 0, 5, 1)]),
        ],
    },
    Example {
        name: "copies to the right go from the right",
        size: (6, 1),
        steps: &[
            Shown,
            Copy(&[rect!(4, 0, 5, 1)], (2, 0)),
            Copy(&[rect!(2, 0, 3, 1)], (2, 0)),
            RequestChanges(ALL),
            Sends(50, &[rect!(4, 0, 5, 1), rect!(2, 0, 3, 1)], (2, 0), &[]),
        ],
    },
    Example {
        name: "a source that is asked for anew is lost",
        size: (4, 1),
        steps: &[
            Shown,
            Copy(&[rect!(2, 0, 3, 1)], (1, 0)),
            Request(rect!(1, 0, 2, 1)),
            Sends(50, &[], (1, 0), &[rect!(1, 0, 2, 1)]),
            RequestChanges(ALL),
            Sends(50, &[], (0, 0), &[rect!(2, 0, 3, 1)]),
        ],
    },
    Example {
        name: "a source that is asked for anew is lost, and so is its copy's place",
        size: (4, 1),
        steps: &[
            Shown,
            Copy(&[rect!(2, 0, 3, 1)], (1, 0)),
            Request(rect!(1, 0, 2, 1)),
            Cloned,
            Offset((1, 0)),
            Asked(&[rect!(1, 0, 2, 1)]),
            Owed(&[rect!(1, 0, 3, 1)]),
            Copied(&[]),
            RequestChanges(ALL),
            Sends(50, &[], (1, 0), &[rect!(1, 0, 3, 1)]),
        ],
    },
    Example {
        name: "a copy that is not sent is owed",
        size: (4, 1),
        steps: &[
            Shown,
            Copy(&[rect!(2, 0, 3, 1)], (1, 0)),
            Mark(&[rect!(0, 0, 1, 1)]),
            RequestChanges(rect!(0, 0, 1, 1)),
            Sends(50, &[], (1, 0), &[rect!(0, 0, 1, 1)]),
            RequestChanges(ALL),
            Sends(50, &[], (0, 0), &[rect!(2, 0, 3, 1)]),
        ],
    },
    Example {
        name: "a copy of what is owed is owed",
        size: (4, 1),
        steps: &[
            Shown,
            Mark(&[rect!(0, 0, 1, 1)]),
            Copy(&[rect!(1, 0, 2, 1)], (1, 0)),
            RequestChanges(ALL),
            Sends(50, &[], (1, 0), &[rect!(0, 0, 2, 1)]),
        ],
    },
    Example {
        name: "the asked places are listed",
        size: (4, 1),
        steps: &[
            Owed(&[rect!(0, 0, 4, 1)]),
            Copied(&[]),
            Asked(&[]),
            Request(rect!(1, 0, 3, 1)),
            Asked(&[rect!(1, 0, 3, 1)]),
        ],
    },
    Example {
        name: "the marked places are listed",
        size: (4, 1),
        steps: &[
            Shown,
            Owed(&[]),
            Asked(&[]),
            Mark(&[rect!(1, 0, 2, 1)]),
            Copy(&[rect!(3, 0, 4, 1)], (1, 0)),
            Copied(&[rect!(3, 0, 4, 1)]),
            Owed(&[rect!(1, 0, 2, 1)]),
            NoCopyrect,
            Owed(&[rect!(1, 0, 2, 1), rect!(3, 0, 4, 1)]),
        ],
    },
    Example {
        name: "a prepared mark counts once it is committed, and a copy is drawn",
        size: (4, 1),
        steps: &[
            Request(ALL),
            Sends(50, &[], (0, 0), &[rect!(0, 0, 4, 1)]),
            PreparedMark(&[rect!(0, 0, 1, 1)]),
            Owed(&[rect!(0, 0, 1, 1)]),
            Cloned,
            Owed(&[rect!(0, 0, 1, 1)]),
            Mark(&[rect!(1, 0, 2, 1)]),
            Copy(&[rect!(3, 0, 4, 1)], (1, 0)),
            Copied(&[rect!(3, 0, 4, 1)]),
            Offset((1, 0)),
            NoCopyrect,
            LoggedMark(&[rect!(2, 0, 3, 1)]),
            Owed(&[rect!(0, 0, 4, 1)]),
        ],
    },
    Example {
        name: "a prepared mark and a prepared copy count once they are committed",
        size: (4, 1),
        steps: &[
            Request(ALL),
            Sends(50, &[], (0, 0), &[rect!(0, 0, 4, 1)]),
            PreparedMark(&[rect!(0, 0, 1, 1)]),
            Owed(&[rect!(0, 0, 1, 1)]),
            Cloned,
            Owed(&[rect!(0, 0, 1, 1)]),
            Mark(&[rect!(1, 0, 2, 1)]),
            PreparedCopy(&[rect!(3, 0, 4, 1)], (1, 0)),
            Copied(&[rect!(3, 0, 4, 1)]),
            Offset((1, 0)),
            NoCopyrect,
            LoggedMark(&[rect!(2, 0, 3, 1)]),
            Owed(&[rect!(0, 0, 4, 1)]),
        ],
    },
    Example {
        name: "a copy's source is not asked for",
        size: (4, 1),
        steps: &[
            Shown,
            Copy(&[rect!(2, 0, 3, 1)], (1, 0)),
            PreparedMark(&[rect!(0, 0, 1, 1)]),
            Owed(&[rect!(0, 0, 1, 1)]),
            Copied(&[rect!(2, 0, 3, 1)]),
            Cloned,
            Copied(&[rect!(2, 0, 3, 1)]),
            RequestChanges(rect!(0, 0, 1, 1)),
            Sends(50, &[], (1, 0), &[rect!(0, 0, 1, 1)]),
            RequestChanges(ALL),
            NoCopyrect,
            Sends(50, &[], (0, 0), &[rect!(2, 0, 3, 1)]),
            Pending(false),
        ],
    },
    Example {
        name: "nothing is asked for and nothing is sent",
        size: (4, 1),
        steps: &[
            SendsNothing,
            Request(ALL),
            Sends(50, &[], (0, 0), &[rect!(0, 0, 4, 1)]),
        ],
    },
    Example {
        name: "a copy by another offset, and one over a copy's source, leave the first one owed",
        size: (9, 2),
        steps: &[
            Shown,
            Copy(&[rect!(2, 0, 4, 1)], (1, 0)),
            Copy(&[rect!(6, 1, 8, 2)], (1, 0)),
            Copied(&[rect!(2, 0, 4, 1), rect!(6, 1, 8, 2)]),
            Copy(&[rect!(4, 0, 5, 1)], (1, 0)),
            Copied(&[rect!(2, 0, 3, 1), rect!(6, 1, 8, 2)]),
            Owed(&[rect!(3, 0, 5, 1)]),
            Copy(&[rect!(0, 0, 1, 1)], (0, -1)),
            Offset((0, -1)),
            Copied(&[rect!(0, 0, 1, 1)]),
            Mark(&[rect!(0, 1, 1, 2)]),
            Copied(&[rect!(0, 0, 1, 1)]),
            Copy(&[rect!(0, 0, 2, 1)], (0, -1)),
            Copied(&[rect!(1, 0, 2, 1)]),
            RequestChanges(rect!(1, 0, 2, 2)),
            Asked(&[rect!(1, 0, 2, 2)]),
            Sends(50, &[rect!(1, 0, 2, 1)], (0, -1), &[]),
            Asked(&[]),
            Copied(&[]),
        ],
    },
    Example {
        name: "a mark of many rectangles is joined",
        size: (130, 2),
        steps: &[Shown, Owed(&[]), Joined, Owed(&[])],
    },
];
