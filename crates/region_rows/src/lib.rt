//! Rows of maximal intervals walked at once: what is kept of two rows is made or counted, and a row is copied.
//!
//! `steps` has one step of the walk.
#![tactic(auto)]

ghost use Rattle.std.specs.Prelude.{◌≡◌, ◌≢◌, ◌≤◌, ◌+◌, [], List, true, false, length, cond, ℤ, OnOk, OnErr};
ghost use Rattle.region_bands.specs.declared.Interval.{Interval};
ghost use Rattle.region_rows.specs.Rows.{IsRow, IsKept, row_has, keeps_place};
ghost use Rattle.region_rows.specs.Steps.{closed};

mod steps;

use region_bands::{BandList, Interval, Reader};
use std::alloc::AllocError;
use steps::{common_step, first_after, first_after_of, nearer, next_step, rows_start};

/// Which places of two sets are kept.
#[derive(Clone, Copy)]
pub enum Keep {
    /// Those in either.
    Either,
    /// Those in both.
    Both,
    /// Those in the first and not in the second.
    FirstAlone,
}

impl Keep {
    /// Says whether a place is kept that is in the first set if `in_first`, and in the second if `in_second`.
    pub fn keeps(self, in_first: bool, in_second: bool) -> bool
        ensures { result ≡ keeps_place self in_first in_second }
    {
        match self {
            Keep::Either => in_first || in_second,
            Keep::Both => in_first && in_second,
            Keep::FirstAlone => in_first && !in_second,
        }
    }
}

// Appends `interval` to the row in the making, if `is_open`.
fn close(bands: &mut BandList, is_open: bool, interval: Interval)
    requires { is_open ≡ true → 1 ≤ bands.old.spare }
    ensures spare { bands.old.spare ≤ bands.new.spare + cond is_open 1 0 }
    ensures row { bands.new ≡ record bands.old { row = closed is_open interval bands.old.row; spare = bands.new.spare } }
{
    if is_open {
        bands.push_interval(interval);
    }
}

/// Makes the row in the making: the columns that `keep` keeps of what is left of the first band below the gap, and of what is
/// left of the reader's first band. Reads both to their rows' ends.
pub fn make_row(bands: &mut BandList, other: &mut Reader, keep: Keep)
    requires empty { bands.old.row ≡ [] }
    requires first_row { IsRow bands.old.left }
    requires second_row { IsRow other.old.left }
    requires room { (row : List Interval) → IsKept keep bands.old.left other.old.left row → length row ≤ bands.old.spare }
    ensures kept { IsKept keep bands.old.left other.old.left bands.new.row }
    ensures spare { bands.old.spare ≤ bands.new.spare + length bands.new.row }
    ensures same { bands.new ≡ record bands.old { row = bands.new.row; left = []; spare = bands.new.spare } }
    ensures read { other.new ≡ record other.old { left = [] } }
{
    let mut a = bands.first_left();
    let mut b = other.first_left();
    let mut x = rows_start(a, b);
    let mut from = x;
    let mut is_open = false;
    while let Some(step) = next_step(a, b, x) {
        let keeps = keep.keeps(step.in_first, step.in_second);
        if keeps != is_open {
            close(bands, is_open, Interval { from, to: x });
            from = x;
            is_open = keeps;
        }
        a = first_after(bands, a, step.edge);
        b = first_after_of(other, b, step.edge);
        x = step.edge;
    }
    let last = Interval { from, to: x };
    close(bands, is_open, last);
}

// Appends `interval` to the row in the making, if `is_open`, and makes the room for it.
fn close_anew(bands: &mut BandList, is_open: bool, interval: Interval) -> Result<(), AllocError>
    ensures ok { OnOk result (bands.new ≡
        record bands.old { row = closed is_open interval bands.old.row; spare = bands.new.spare }) }
    ensures err { OnErr result (bands.new ≡ record bands.old { spare = bands.new.spare }) }
{
    if is_open {
        bands.reserve(1)?;
        bands.push_interval(interval);
    }
    Ok(())
}

/// Makes the row in the making: the columns that `keep` keeps of what is left of the two readers' first bands. Reads these to
/// their rows' ends, and makes the room as the row grows. After an `AllocError` the row may be made in part; the bands are as they
/// were.
pub fn merge_row(
    bands: &mut BandList,
    first: &mut Reader,
    second: &mut Reader,
    keep: Keep,
) -> Result<(), AllocError>
    requires empty { bands.old.row ≡ [] }
    requires first_row { IsRow first.old.left }
    requires second_row { IsRow second.old.left }
    ensures kept { OnOk result (IsKept keep first.old.left second.old.left bands.new.row) }
    ensures same { bands.new ≡ record bands.old { row = bands.new.row; spare = bands.new.spare } }
    ensures first_read { OnOk result (first.new ≡ record first.old { left = [] }) }
    ensures second_read { OnOk result (second.new ≡ record second.old { left = [] }) }
{
    let mut a = first.first_left();
    let mut b = second.first_left();
    let mut x = rows_start(a, b);
    let mut from = x;
    let mut is_open = false;
    while let Some(step) = next_step(a, b, x) {
        let keeps = keep.keeps(step.in_first, step.in_second);
        if keeps != is_open {
            close_anew(bands, is_open, Interval { from, to: x })?;
            from = x;
            is_open = keeps;
        }
        a = first_after_of(first, a, step.edge);
        b = first_after_of(second, b, step.edge);
        x = step.edge;
    }
    close_anew(bands, is_open, Interval { from, to: x })
}

/// Counts the intervals that `make_row` would make of what is left of the two readers' first bands. Reads both to their rows'
/// ends.
pub fn count_row(first: &mut Reader, second: &mut Reader, keep: Keep) -> usize
    requires first_row { IsRow first.old.left }
    requires second_row { IsRow second.old.left }
    ensures count { (row : List Interval) → IsKept keep first.old.left second.old.left row → result ≡ length row }
    ensures few { result ≤ 2147483648 }
    ensures first_read { first.new ≡ record first.old { left = [] } }
    ensures second_read { second.new ≡ record second.old { left = [] } }
{
    let mut a = first.first_left();
    let mut b = second.first_left();
    let mut x = rows_start(a, b);
    let mut is_open = false;
    let mut count = 0;
    while let Some(step) = next_step(a, b, x) {
        let keeps = keep.keeps(step.in_first, step.in_second);
        // An interval counts where it ends.
        if is_open && !keeps {
            count += 1;
        }
        is_open = keeps;
        a = first_after_of(first, a, step.edge);
        b = first_after_of(second, b, step.edge);
        x = step.edge;
    }
    if is_open { count + 1 } else { count }
}

/// Says whether `keep` keeps the same of what is left of the first bands of `first` and `second` as of those of `third` and
/// `fourth`. Reads the four as far as it takes.
pub fn same_kept(
    first: &mut Reader,
    second: &mut Reader,
    third: &mut Reader,
    fourth: &mut Reader,
    keep: Keep,
) -> bool
    requires first_row { IsRow first.old.left }
    requires second_row { IsRow second.old.left }
    requires third_row { IsRow third.old.left }
    requires fourth_row { IsRow fourth.old.left }
    ensures yes { result ≡ true → (x : ℤ) →
        keeps_place keep (row_has first.old.left x) (row_has second.old.left x) ≡
        keeps_place keep (row_has third.old.left x) (row_has fourth.old.left x) }
    ensures no { result ≡ false → (x : ℤ) ×
        (keeps_place keep (row_has first.old.left x) (row_has second.old.left x) ≢ keeps_place keep (row_has third.old.left x)
        (row_has fourth.old.left x)) }
    ensures first_read { first.new.bands ≡ first.old.bands }
    ensures second_read { second.new.bands ≡ second.old.bands }
    ensures third_read { third.new.bands ≡ third.old.bands }
    ensures fourth_read { fourth.new.bands ≡ fourth.old.bands }
{
    let mut a = first.first_left();
    let mut b = second.first_left();
    let mut c = third.first_left();
    let mut d = fourth.first_left();
    let one = rows_start(a, b);
    let other = rows_start(c, d);
    let mut x = nearer(one, other);
    while let Some(step) = common_step(keep, next_step(a, b, x), next_step(c, d, x)) {
        if !step.agrees {
            return false;
        }
        a = first_after_of(first, a, step.edge);
        b = first_after_of(second, b, step.edge);
        c = first_after_of(third, c, step.edge);
        d = first_after_of(fourth, d, step.edge);
        x = step.edge;
    }
    true
}

/// Reads what is left of the reader's first band to its end.
pub fn skip_row(reader: &mut Reader)
    ensures { reader.new ≡ record reader.old { left = [] } }
{
    'row: while reader.first_left().is_some() {
        reader.skip_left();
    }
}

/// Copies what is left of the first band below the gap into the row in the making, and reads it to its end.
pub fn copy_left(bands: &mut BandList)
    requires empty { bands.old.row ≡ [] }
    requires room { length bands.old.left ≤ bands.old.spare }
    ensures spare { bands.old.spare ≤ bands.new.spare + length bands.new.row }
    ensures copied { bands.new ≡ record bands.old { row = bands.old.left; left = []; spare = bands.new.spare } }
{
    while let Some(interval) = bands.first_left() {
        bands.skip_left();
        bands.push_interval(interval);
    }
}

/// Copies what is left of the reader's first band into the row in the making, and reads it to its end.
pub fn copy_other(bands: &mut BandList, other: &mut Reader)
    requires empty { bands.old.row ≡ [] }
    requires room { length other.old.left ≤ bands.old.spare }
    ensures spare { bands.old.spare ≤ bands.new.spare + length bands.new.row }
    ensures copied { bands.new ≡ record bands.old { row = other.old.left; spare = bands.new.spare } }
    ensures read { other.new ≡ record other.old { left = [] } }
{
    while let Some(interval) = other.first_left() {
        other.skip_left();
        bands.push_interval(interval);
    }
}
