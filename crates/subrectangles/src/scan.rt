//! The subrectangles of a rectangle, found row by row.

ghost use Rattle.std.specs.Prelude.{◌≡◌, ℕ, ◌+◌, ◌-◌, ◌*◌, ◌<◌, ◌≤◌, ◌^◌, ◌++◌, true, false, length, drop, slice_index};
ghost use Rattle.std.specs.Prelude.{IfOk, IfSome, MatchOption, OnOk, OnErr, flat_map};
ghost use Rattle.subrectangles.specs.Begins.{BeginsWith};
ghost use Rattle.subrectangles.specs.Bytes.{subrectangle_bytes};
ghost use Rattle.std.specs.List.{prefix_len};
ghost use Rattle.subrectangles.specs.Starts.{AreRuns, Found};
ghost use Rattle.subrectangles.specs.Lines.{lines_in};
ghost use Rattle.subrectangles.specs.Pixels.{pixel_lines, translated_lines, HasRows};
ghost use Rattle.pixel_translate.specs.Pixel.{pixel};
ghost use Rattle.subrectangles.specs.Subrectangles.{row_at, stretch, has_run, begins_run, begins_subrectangle, subrectangle_from};
ghost use Rattle.subrectangles.specs.Subrectangles.{run_at, subrectangles_in, subrectangles};

use crate::Subrectangle;
use crate::bytes::put_subrectangle;
use crate::colour_runs::ColourRun;
use crate::lines::Lines;
use crate::translated::{Pixels, TwoRows};
use pixel_translate::{PixelFormat, Table};
use std::alloc::AllocError;

/// A maximal stretch of one row with one pixel.
#[derive(Clone, Copy)]
pub(crate) struct Run {
    pub(crate) x: usize,
    pub(crate) w: usize,
    pub(crate) pixel: u32,
}

/// Says whether each of `pixels` is `pixel`. Has no branch in its loop, so that one step looks at many.
pub(crate) fn are_all(pixels: &[u32], pixel: u32) -> bool
    requires { length pixels.now < 2 ^ 16 }
    ensures yes { result ≡ true → (k : ℕ) → k < length pixels.now → slice_index pixels.now k ≡ pixel }
    ensures no { ((k : ℕ) → k < length pixels.now → slice_index pixels.now k ≡ pixel) → result ≡ true }
{
    let mut others = 0u32;
    for other in pixels {
        others += u32::from(*other != pixel);
    }
    others == 0
}

/// Returns where the blocks of 16 pixels end that are all `pixel`, one behind another from `from` on; `from` if there is none.
#[inline(always)]
fn blocks_end(row: &[u32], from: usize, pixel: u32) -> usize
    requires { from ≤ length row.now }
    ensures before { from ≤ result }
    ensures within { result ≤ length row.now }
    ensures same { (k : ℕ) → from ≤ k → k < result → slice_index row.now k ≡ pixel }
{
    let mut x = from;
    while 16 <= row.len() - x {
        if !are_all(&row[x..x + 16], pixel) {
            return x;
        }
        x += 16;
    }
    x
}

/// Returns how many pixels from `start` on are the same. Those before `near` are.
fn far_stretch(row: &[u32], start: usize, near: usize) -> usize
    requires some { start < near }
    requires inside { near ≤ length row.now }
    requires same { (k : ℕ) → start ≤ k → k < near → slice_index row.now k ≡ slice_index row.now start }
    ensures same { result ≡ stretch row.now start }
    ensures some { 0 < result }
    ensures within { start + result ≤ length row.now }
{
    let pixel = row[start];
    let far = blocks_end(row, near, pixel);
    for x in far..row.len() {
        if row[x] != pixel {
            return x - start;
        }
    }
    row.len() - start
}

/// Returns how many pixels from `start` on are the same. Looks at the first eight one by one, and then at a block at a time.
pub fn stretch_from(row: &[u32], start: usize) -> usize
    requires { start < length row.now }
    ensures same { result ≡ stretch row.now start }
    ensures some { 0 < result }
    ensures within { start + result ≤ length row.now }
{
    let pixel = row[start];
    let near = row.len().min(start + 8);
    for x in start + 1..near {
        if row[x] != pixel {
            return x - start;
        }
    }
    far_stretch(row, start, near)
}

/// Says whether `row` has `run`. Its first place tells most rows that don't. Then counts what doesn't fit at the run's end and
/// beside it, with one branch for all three, and looks at what lies between only if these fit.
#[inline]
fn has_run(row: &[u32], run: Run) -> bool
    requires some { 0 < run.w }
    requires inside { run.x + run.w ≤ length row.now }
    requires columns { length row.now < 2 ^ 16 }
    ensures { result ≡ has_run run row.now }
{
    if row[run.x] != run.pixel {
        return false;
    }
    let end = run.x + run.w;
    let before = row[run.x.saturating_sub(1)];
    let behind = row[end.min(row.len() - 1)];
    let last = u32::from(row[end - 1] != run.pixel);
    let left = u32::from((run.x != 0) & (before == run.pixel));
    let right = u32::from((end != row.len()) & (behind == run.pixel));
    last + left + right == 0 && are_all(&row[run.x..end], run.pixel)
}

/// Returns how many rows from `top` on, one below another, have `run`. The one at `top` has it.
#[inline]
fn rows_with(pixels: &Lines, top: usize, run: Run) -> usize
    requires inside { top < pixels.now.height }
    requires some { 0 < run.w }
    requires within { run.x + run.w ≤ pixels.now.width }
    requires has { has_run run (row_at (lines_in pixels.now) top) ≡ true }
    ensures rows { result ≡ prefix_len (has_run run) (drop top (lines_in pixels.now)) }
    ensures within { top + result ≤ pixels.now.height }
{
    for y in top + 1..pixels.height {
        if !has_run(pixels.row(y), run) {
            return y - top;
        }
    }
    pixels.height - top
}

/// Says whether a subrectangle begins with `run`, which is one of the row at `y`.
#[inline(always)]
fn begins_with(pixels: &Lines, background: u32, y: usize, run: Run) -> bool
    requires inside { y < pixels.now.height }
    requires some { 0 < run.w }
    requires within { run.x + run.w ≤ pixels.now.width }
    requires begins { begins_run (row_at (lines_in pixels.now) y) run.x ≡ true }
    requires is { run ≡ run_at (row_at (lines_in pixels.now) y) run.x }
    ensures { result ≡ begins_subrectangle background (lines_in pixels.now) y run.x }
{
    run.pixel != background && !(0 < y && has_run(pixels.row(y - 1), run))
}

/// Returns the subrectangle that begins with the run of `w` pixels at `x` of the row at `y`, as high as it goes. `None` if none
/// does, since the run is of the background or is in the row above too.
#[inline(always)]
pub fn subrectangle_at(
    pixels: &Lines,
    background: u32,
    y: usize,
    x: usize,
    w: usize,
) -> Option<Subrectangle>
    requires inside { y < pixels.now.height }
    requires begins { begins_run (row_at (lines_in pixels.now) y) x ≡ true }
    requires run { w ≡ stretch (row_at (lines_in pixels.now) y) x }
    requires some { 0 < w }
    requires within { x + w ≤ pixels.now.width }
    ensures found { MatchOption result (begins_subrectangle background (lines_in pixels.now) y x ≡ false)
        (λ sub. (begins_subrectangle background (lines_in pixels.now) y x ≡ true) ×
        (sub ≡ subrectangle_from (lines_in pixels.now) y x)) }
    ensures within { IfSome result (λ sub. y + sub.h ≤ pixels.now.height) }
{
    let run = Run {
        x,
        w,
        pixel: pixels.row(y)[x],
    };
    if !begins_with(pixels, background, y, run) {
        return None;
    }
    let rows = rows_with(pixels, y, run);
    Some(Subrectangle {
        x: x as u16,
        y: y as u16,
        w: w as u16,
        h: rows as u16,
        pixel: run.pixel,
    })
}

/// Returns what `subrectangle_at` does, of pixels translated by `table`: takes those of the row and of the one above it from
/// `rows`, and looks at the rows below as colours.
fn translated_subrectangle_at(
    pixels: &Pixels,
    table: &Table,
    rows: &TwoRows,
    background: u32,
    y: usize,
    x: usize,
    w: usize,
) -> Option<Subrectangle>
    requires inside { y < pixels.now.colours.height }
    requires row { rows.now.row.items ≡ row_at (translated_lines table.now pixels.now.colours) y }
    requires above { rows.now.above.items ≡ row_at (translated_lines table.now pixels.now.colours) (y - 1) }
    requires begins { begins_run (row_at (translated_lines table.now pixels.now.colours) y) x ≡ true }
    requires run { w ≡ stretch (row_at (translated_lines table.now pixels.now.colours) y) x }
    requires some { 0 < w }
    requires within { x + w ≤ pixels.now.colours.width }
    ensures found { MatchOption result (begins_subrectangle background (translated_lines table.now pixels.now.colours) y x ≡ false)
        (λ sub. (begins_subrectangle background (translated_lines table.now pixels.now.colours) y x ≡ true) ×
        (sub ≡ subrectangle_from (translated_lines table.now pixels.now.colours) y x)) }
{
    let run = Run {
        x,
        w,
        pixel: rows.row[x],
    };
    if run.pixel == background || 0 < y && has_run(&rows.above, run) {
        return None;
    }
    let sought = ColourRun {
        run,
        colour: pixels.colours.row(y)[x],
        table,
    };
    let height = sought.rows_with(&pixels.colours, y);
    Some(Subrectangle {
        x: x as u16,
        y: y as u16,
        w: w as u16,
        h: height as u16,
        pixel: run.pixel,
    })
}

/// Returns what `subrectangle_at` does, of pixels that are translated if they have a table.
#[inline(always)]
fn subrectangle_of(
    pixels: &Pixels,
    rows: &TwoRows,
    background: u32,
    y: usize,
    x: usize,
    w: usize,
) -> Option<Subrectangle>
    requires inside { y < pixels.now.colours.height }
    requires has { HasRows pixels.now y rows.now }
    requires begins { begins_run (row_at (pixel_lines pixels.now) y) x ≡ true }
    requires run { w ≡ stretch (row_at (pixel_lines pixels.now) y) x }
    requires some { 0 < w }
    requires within { x + w ≤ pixels.now.colours.width }
    ensures { MatchOption result (begins_subrectangle background (pixel_lines pixels.now) y x ≡ false)
        (λ sub. (begins_subrectangle background (pixel_lines pixels.now) y x ≡ true) ×
        (sub ≡ subrectangle_from (pixel_lines pixels.now) y x)) }
{
    match pixels.table {
        Some(table) => translated_subrectangle_at(pixels, table, rows, background, y, x, w),
        None => subrectangle_at(&pixels.colours, background, y, x, w),
    }
}

/// Goes on from `from` to before `end` with writing to `starts` where the runs of `row` begin: `begun` of them begin before `from`,
/// and it adds each that begins from there on. Returns how many begin before `end`. Has no branch in its loop, so runs of any
/// lengths take the same time.
fn find_runs_between(
    starts: &mut [u16],
    begun: usize,
    row: &[u32],
    from: usize,
    end: usize,
) -> usize
    requires found { Found row.now starts.old begun from }
    requires within { from ≤ end }
    requires inside { end ≤ length row.now }
    requires columns { length row.now < 2 ^ 16 }
    requires room { length row.now < length starts.old }
    ensures found { Found row.now starts.new result end }
    ensures len { length starts.new ≡ length starts.old }
{
    let mut count = begun;
    let mut before = row[from - 1];
    for x in from..end {
        let here = row[x];
        starts[count] = x as u16;
        count += usize::from(before != here);
        before = here;
    }
    count
}

/// Writes to `starts` where the runs of `row` begin, and where the last one ends, and returns how many there are. Passes over
/// blocks that go on with the run before them at once.
fn find_runs(starts: &mut [u16], row: &[u32]) -> usize
    requires some { 0 < length row.now }
    requires columns { length row.now < 2 ^ 16 }
    requires room { length row.now < length starts.old }
    ensures runs { AreRuns row.now starts.new result }
    ensures len { length starts.new ≡ length starts.old }
{
    starts[0] = 0;
    let mut count = 1;
    let mut x = 1;
    while x < row.len() {
        let same = blocks_end(row, x, row[x - 1]);
        let end = row.len().min(same + 16);
        count = find_runs_between(starts, count, row, same, end);
        x = end;
    }
    starts[count] = row.len() as u16;
    count
}

/// Appends the subrectangles that begin in the row at `y`, as bytes. Uses `starts` for the places where its runs begin.
fn put_row(
    out: &mut Vec<u8>,
    starts: &mut [u16],
    pixels: &Pixels,
    rows: &TwoRows,
    format: &PixelFormat,
    background: u32,
    y: usize,
) -> Result<(), AllocError>
    requires inside { y < pixels.now.colours.height }
    requires has { HasRows pixels.now y rows.now }
    requires room { pixels.now.colours.width < length starts.old }
    ensures ok { OnOk result (out.new.items ≡
        out.old.items ++ flat_map (subrectangle_bytes format.now) (subrectangles_in background (pixel_lines pixels.now) y)) }
    ensures err { OnErr result (BeginsWith out.old.items out.new.items) }
    ensures len { length starts.new ≡ length starts.old }
{
    if pixels.repeats(y) {
        return Ok(());
    }
    let row = pixels.row(y, &rows.row);
    let count = find_runs(starts, row);
    for k in 0..count {
        let x = usize::from(starts[k]);
        let w = usize::from(starts[k + 1]) - x;
        if let Some(sub) = subrectangle_of(pixels, rows, background, y, x, w) {
            put_subrectangle(out, format, sub)?;
        }
    }
    Ok(())
}

/// Appends the subrectangles by y and then by x, as bytes, and returns whether they leave `out` shorter than `end`. If not, it may
/// have appended only a part of them.
pub fn put_subrectangles(
    out: &mut Vec<u8>,
    pixels: &Pixels,
    format: &PixelFormat,
    background: u32,
    end: usize,
) -> Result<bool, AllocError>
    ensures all { IfOk result (λ shorter. shorter ≡ true → out.new.items ≡
        out.old.items ++ flat_map (subrectangle_bytes format.now) (subrectangles background (pixel_lines pixels.now))) }
    ensures shorter { IfOk result (λ shorter. shorter ≡ true → length out.new.items < end) }
    ensures longer { IfOk result (λ shorter. shorter ≡ false → end ≤ length out.old.items +
        length (flat_map (subrectangle_bytes format.now) (subrectangles background (pixel_lines pixels.now)))) }
    ensures front { BeginsWith out.old.items out.new.items }
{
    let alloc = *out.allocator();
    let mut rows = pixels.first_rows(alloc)?;
    let mut starts = vec![in alloc; 0u16; pixels.colours.width + 1]?;
    for y in 0..pixels.colours.height {
        pixels.go_on(&mut rows, y);
        put_row(out, &mut starts, pixels, &rows, format, background, y)?;
        if end <= out.len() {
            return Ok(false);
        }
    }
    Ok(true)
}
