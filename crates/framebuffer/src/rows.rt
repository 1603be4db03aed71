//! Rows of a picture's colours: each is held by the picture alone, or shared with snapshots until it is drawn over.

ghost use Rattle.std.specs.Prelude.{◌≡◌, ℕ, ◌+◌, ◌*◌, ◌%◌, ◌^◌, ◌<◌, ◌≤◌, ◌++◌, All, length, map, flat_map, take, drop};
ghost use Rattle.std.specs.Prelude.{slice_index, replicate, true, IfOk, IfErr, IfSome};
ghost use Rattle.framebuffer.specs.Picture.{blank};
ghost use Rattle.framebuffer.specs.Blocks.{colour_written};
ghost use Rattle.framebuffer.specs.Rows.{row_colours, shared_colours, colours_of_rows, parts_of_rows, is_own, IsOfWidth, AreOwn};
ghost use Rattle.framebuffer.specs.Rows.{StayOwn, row_written};

use crate::blocks::Block;
use std::alloc::{AllocError, AllocFailed, Global};
use std::mem;
use std::sync::Arc;

/// A row of colours. The picture writes in a row that it holds alone.
#[derive(Drop)]
pub enum Row {
    Own(Vec<u32>),
    Shared(Arc<Vec<u32>>),
}

/// Returns the colours of `row`.
pub fn colours_of(row: &Row) -> &[u32]
    ensures { result.now ≡ row_colours row.now }
{
    match row {
        Row::Own(places) => places,
        Row::Shared(places) => places,
    }
}

/// Says whether `row` is the picture's own, and not one that a snapshot may share.
pub fn is_own_row(row: &Row) -> bool
    ensures { result ≡ is_own row.now }
{
    match row {
        Row::Own(_) => true,
        Row::Shared(_) => false,
    }
}

/// Returns the places of a retired row, if nobody else holds them. Lets a row go that a snapshot still holds.
fn released(row: Row) -> Option<Vec<u32>> {
    match row {
        Row::Own(places) => Some(places),
        Row::Shared(places) => match Arc::try_unwrap(places) {
            Ok(places) => Some(places),
            Err(_) => None,
        },
    }
}

/// Returns the places of a retired row, whatever they hold, if there are `count` of them and nobody else holds them. Leaves a
/// row without places in its stead, in any case.
fn reclaimed(alloc: Global, retired: &mut Row, count: usize) -> Option<Vec<u32>>
    ensures { IfSome result (λ places. length places.items ≡ count) }
{
    match released(mem::replace(retired, Row::Own(Vec::new(alloc)))) {
        Some(places) if places.len() == count => Some(places),
        _ => None,
    }
}

/// Copies `colours` to fresh memory.
fn fresh_copy(alloc: Global, colours: &[u32]) -> Result<Vec<u32>, AllocError>
    ensures { IfOk result (λ places. places.items ≡ colours.now) }
{
    let mut places = Vec::with_capacity(alloc, colours.len())?;
    places.extend_from_slice(colours)?;
    Ok(places)
}

/// Copies `colours`, to the memory of the retired row if that can be had.
fn copied_row(alloc: Global, retired: &mut Row, colours: &[u32]) -> Result<Vec<u32>, AllocError>
    ensures { IfOk result (λ places. places.items ≡ colours.now) }
{
    match reclaimed(alloc, retired, colours.len()) {
        Some(mut places) => {
            places.copy_from_slice(colours);
            Ok(places)
        }
        None => fresh_copy(alloc, colours),
    }
}

/// Returns the colours of a row that snapshots may hold, for the picture alone. Copies them only if a snapshot still holds
/// them, and then retires the row that it holds, in place of the one that was retired before.
fn taken_back(
    alloc: Global,
    retired: &mut Row,
    places: Arc<Vec<u32>>,
) -> Result<Vec<u32>, AllocFailed<Arc<Vec<u32>>>>
    ensures ok { IfOk result (λ own. own.items ≡ shared_colours places) }
    ensures err { IfErr result (λ e. shared_colours e.value ≡ shared_colours places) }
{
    match Arc::try_unwrap(places) {
        Ok(own) => Ok(own),
        Err(shared) => match copied_row(alloc, retired, shared.as_slice()) {
            Ok(own) => {
                *retired = Row::Shared(shared);
                Ok(own)
            }
            Err(_) => Err(AllocFailed { value: shared }),
        },
    }
}

/// Makes `row` the picture's own, with its colours as they are.
fn make_own(alloc: Global, row: &mut Row, retired: &mut Row) -> Result<(), AllocError>
    ensures same { row_colours row.new ≡ row_colours row.old }
    ensures stays { is_own row.old ≡ true → is_own row.new ≡ true }
    ensures own { IfOk result (λ _. is_own row.new ≡ true) }
{
    if is_own_row(row) {
        return Ok(());
    }
    match mem::replace(row, Row::Own(Vec::new(alloc))) {
        Row::Own(places) => {
            *row = Row::Own(places);
            Ok(())
        }
        Row::Shared(places) => match taken_back(alloc, retired, places) {
            Ok(places) => {
                *row = Row::Own(places);
                Ok(())
            }
            Err(refused) => {
                *row = Row::Shared(refused.value);
                Err(AllocError)
            }
        },
    }
}

/// Makes `row` the picture's own again, with its colours as they are, if no snapshot holds it any more. Copies no colour.
fn take_back(alloc: Global, row: &mut Row)
    ensures { row_colours row.new ≡ row_colours row.old }
{
    *row = match mem::replace(row, Row::Own(Vec::new(alloc))) {
        Row::Own(places) => Row::Own(places),
        Row::Shared(places) => match Arc::try_unwrap(places) {
            Ok(places) => Row::Own(places),
            Err(shared) => Row::Shared(shared),
        },
    };
}

/// Makes those of the rows `from..to` that no snapshot holds any more the picture's own again. Copies no colour.
pub fn take_back_rows(alloc: Global, rows: &mut [Row], from: usize, to: usize)
    requires { to ≤ length rows.old }
    ensures { map row_colours rows.new ≡ map row_colours rows.old }
{
    for i in from..to {
        take_back(alloc, &mut rows[i]);
    }
}

/// Returns the row once more, shared with the picture. Copies no colour.
fn share(alloc: Global, row: &mut Row) -> Result<Row, AllocError>
    ensures same { row_colours row.new ≡ row_colours row.old }
    ensures shared { IfOk result (λ shared. row_colours shared ≡ row_colours row.old) }
{
    match mem::replace(row, Row::Own(Vec::new(alloc))) {
        Row::Own(places) => match Arc::new(alloc, places) {
            Ok(places) => {
                let shared = Arc::try_clone(&places);
                *row = Row::Shared(places);
                Ok(Row::Shared(shared?))
            }
            Err(refused) => {
                *row = Row::Own(refused.value);
                Err(AllocError)
            }
        },
        Row::Shared(places) => {
            let shared = Arc::try_clone(&places);
            *row = Row::Shared(places);
            Ok(Row::Shared(shared?))
        }
    }
}

/// Replaces the colours of `places`, a part of a row, by `colours`, and clears their top bytes.
fn write_places(places: &mut [u32], colours: &[u32])
    requires { length places.old ≡ length colours.now }
    ensures { (k : ℕ) → k < length colours.now → slice_index places.new k ≡ slice_index colours.now k % 2 ^ 24 }
{
    for i in 0..places.len() {
        places[i] = colours[i] % (1 << 24);
    }
}

/// Replaces the colours of `row` from column `left` on by `colours`, and clears their top bytes.
fn write_in_row(row: &mut Row, left: usize, colours: &[u32])
    requires own { is_own row.old ≡ true }
    requires fits { left + length colours.now ≤ length (row_colours row.old) }
    ensures own { is_own row.new ≡ true }
    ensures colours { row_colours row.new ≡ row_written left colours.now (row_colours row.old) }
{
    match row {
        Row::Own(places) => write_places(&mut places[left..left + colours.len()], colours),
        Row::Shared(_) => unreachable!(),
    }
}

/// Replaces the colours of `row` from column `left` on by `colours` as they are.
pub fn copy_in_row(row: &mut Row, left: usize, colours: &[u32])
    requires own { is_own row.old ≡ true }
    requires fits { left + length colours.now ≤ length (row_colours row.old) }
    ensures own { is_own row.new ≡ true }
    ensures colours { row_colours row.new ≡
        take left (row_colours row.old) ++ (colours.now ++ drop (left + length colours.now) (row_colours row.old)) }
{
    match row {
        Row::Own(places) => places[left..left + colours.len()].copy_from_slice(colours),
        Row::Shared(_) => unreachable!(),
    }
}

/// Makes the rows `from..to` the picture's own, with their colours as they are.
pub fn own_rows(
    alloc: Global,
    rows: &mut [Row],
    retired: &mut [Row],
    from: usize,
    to: usize,
) -> Result<(), AllocError>
    requires fits { to ≤ length rows.old }
    requires room { to ≤ length retired.old }
    ensures same { map row_colours rows.new ≡ map row_colours rows.old }
    ensures stay { StayOwn rows.old rows.new }
    ensures own { IfOk result (λ _. AreOwn from to rows.new) }
{
    for i in from..to {
        make_own(alloc, &mut rows[i], &mut retired[i])?;
    }
    Ok(())
}

/// Replaces the colours of `block`, whose rows are the picture's own, by `colours`, and clears their top bytes.
pub fn write_rows(rows: &mut [Row], width: usize, block: Block, colours: &[u32])
    requires wide { block.left + block.columns ≤ width }
    requires high { block.top + block.rows ≤ length rows.old }
    requires rows { All (IsOfWidth width) rows.old }
    requires own { AreOwn block.top (block.top + block.rows) rows.old }
    requires whole { length colours.now ≡ block.rows * block.columns }
    ensures rows { All (IsOfWidth width) rows.new }
    ensures colours { (y x : ℕ) → x < width →
        slice_index (colours_of_rows rows.new) (y * width + x) ≡
        colour_written width block colours.now (colours_of_rows rows.old) y x }
{
    for i in 0..block.rows {
        let from = i * block.columns;
        write_in_row(
            &mut rows[block.top + i],
            block.left,
            &colours[from..from + block.columns],
        );
    }
}

/// Returns `count` rows from `from` on, shared with the picture. Copies no colour.
pub fn share_rows(
    alloc: Global,
    rows: &mut [Row],
    from: usize,
    count: usize,
) -> Result<Vec<Row>, AllocError>
    requires { from + count ≤ length rows.old }
    ensures same { map row_colours rows.new ≡ map row_colours rows.old }
    ensures shared { IfOk result (λ shared. map row_colours shared.items ≡ take count (drop from (map row_colours rows.old))) }
{
    let mut shared = Vec::with_capacity(alloc, count)?;
    for i in 0..count {
        shared.push(share(alloc, &mut rows[from + i])?)?;
    }
    Ok(shared)
}

/// Copies the colours of `columns` columns of `rows`, from column `left` on, into one list, row by row.
pub fn gather(
    alloc: Global,
    rows: &[Row],
    left: usize,
    columns: usize,
) -> Result<Vec<u32>, AllocError>
    requires wide { All (λ r. left + columns ≤ length (row_colours r)) rows.now }
    requires room { length rows.now * columns < 2 ^ 64 }
    ensures { IfOk result (λ colours. colours.items ≡ parts_of_rows left columns rows.now) }
{
    let mut colours = Vec::with_capacity(alloc, rows.len() * columns)?;
    for row in rows {
        colours.extend_from_slice(&colours_of(row)[left..left + columns])?;
    }
    Ok(colours)
}

/// Returns the same colours as `gather`, each row as it stands, without copying any.
pub fn parts(
    alloc: Global,
    rows: &[Row],
    left: usize,
    columns: usize,
) -> Result<Vec<&[u32]>, AllocError>
    requires { All (λ r. left + columns ≤ length (row_colours r)) rows.now }
    ensures flat { IfOk result (λ parts. flat_map (λ p. p.now) parts.items ≡ parts_of_rows left columns rows.now) }
    ensures count { IfOk result (λ parts. length parts.items ≡ length rows.now) }
    ensures even { IfOk result (λ parts. All (λ p. length p.now ≡ columns) parts.items) }
{
    let mut parts = Vec::with_capacity(alloc, rows.len())?;
    for row in rows {
        parts.push(&colours_of(row)[left..left + columns])?;
    }
    Ok(parts)
}

/// Makes a row of `width` places that are 0.
fn blank_row(alloc: Global, width: usize) -> Result<Row, AllocError>
    ensures { IfOk result (λ row. row_colours row ≡ replicate width 0) }
{
    let places = vec![in alloc; 0u32; width]?;
    Ok(Row::Own(places))
}

/// Makes `height` rows of `width` places that are 0.
pub fn blank_rows(alloc: Global, width: usize, height: usize) -> Result<Vec<Row>, AllocError>
    ensures count { IfOk result (λ rows. length rows.items ≡ height) }
    ensures wide { IfOk result (λ rows. All (IsOfWidth width) rows.items) }
    ensures blank { IfOk result (λ rows. colours_of_rows rows.items ≡ blank width height) }
{
    let mut rows = Vec::with_capacity(alloc, height)?;
    for _i in 0..height {
        rows.push(blank_row(alloc, width)?)?;
    }
    Ok(rows)
}

/// Clears the top byte of each colour.
fn clear_top_bytes(places: &mut [u32])
    ensures { (k : ℕ) → k < length places.old → slice_index places.new k ≡ slice_index places.old k % 2 ^ 24 }
{
    for i in 0..places.len() {
        places[i] %= 1 << 24;
    }
}

/// Makes a row of `colours` in fresh memory, and clears their top bytes.
fn fresh_row(alloc: Global, colours: &[u32]) -> Result<Row, AllocError>
    ensures own { IfOk result (λ row. is_own row ≡ true) }
    ensures colours { IfOk result (λ row. row_colours row ≡ map (λ c. c % 2 ^ 24) colours.now) }
{
    let mut places = fresh_copy(alloc, colours)?;
    clear_top_bytes(&mut places);
    Ok(Row::Own(places))
}

/// Makes a row of `colours`, and clears their top bytes. Takes the memory of the retired row if that can be had, since the
/// system would have to find fresh memory page by page.
fn row_with(alloc: Global, retired: &mut Row, colours: &[u32]) -> Result<Row, AllocError>
    ensures own { IfOk result (λ row. is_own row ≡ true) }
    ensures colours { IfOk result (λ row. row_colours row ≡ map (λ c. c % 2 ^ 24) colours.now) }
{
    match reclaimed(alloc, retired, colours.len()) {
        Some(mut places) => {
            write_places(&mut places, colours);
            Ok(Row::Own(places))
        }
        None => fresh_row(alloc, colours),
    }
}

/// Makes `height` rows of `width` places each of `colours`, and clears their top bytes. Takes the memory of a retired row for
/// each, if that can be had.
pub fn rows_with(
    alloc: Global,
    retired: &mut [Row],
    width: usize,
    height: usize,
    colours: &[u32],
) -> Result<Vec<Row>, AllocError>
    requires room { height ≤ length retired.old }
    requires whole { length colours.now ≡ height * width }
    ensures count { IfOk result (λ rows. length rows.items ≡ height) }
    ensures wide { IfOk result (λ rows. All (IsOfWidth width) rows.items) }
    ensures colours { IfOk result (λ rows. colours_of_rows rows.items ≡ map (λ c. c % 2 ^ 24) colours.now) }
{
    let mut rows = Vec::with_capacity(alloc, height)?;
    for i in 0..height {
        let from = i * width;
        rows.push(row_with(alloc, &mut retired[i], &colours[from..from + width])?)?;
    }
    Ok(rows)
}

/// Makes room for `count` retired rows: appends rows without places until there are as many.
pub fn make_room(alloc: Global, retired: &mut Vec<Row>, count: usize) -> Result<(), AllocError>
    ensures { IfOk result (λ _. count ≤ length retired.new.items) }
{
    for _i in retired.len()..count {
        retired.push(Row::Own(Vec::new(alloc)))?;
    }
    Ok(())
}

/// Puts `others` in place of as many rows, from row `top` on.
pub fn put_rows(rows: &mut [Row], top: usize, mut others: Vec<Row>)
    requires { top + length others.items ≤ length rows.old }
    ensures { rows.new ≡ take top rows.old ++ (others.items ++ drop (top + length others.items) rows.old) }
{
    let end = top + others.len();
    rows[top..end].swap_with_slice(&mut others);
}

/// Does the same as `put_rows`, and retires the rows that were there, in place of as many that were retired before.
pub fn exchange_rows(rows: &mut [Row], retired: &mut [Row], top: usize, mut others: Vec<Row>)
    requires fits { top + length others.items ≤ length rows.old }
    requires room { top + length others.items ≤ length retired.old }
    ensures { rows.new ≡ take top rows.old ++ (others.items ++ drop (top + length others.items) rows.old) }
{
    let end = top + others.len();
    rows[top..end].swap_with_slice(&mut others);
    retired[top..end].swap_with_slice(&mut others);
}
