//! The colours of an update's rectangle: copied, or in rows that are shared with the picture until it is drawn over.

ghost use Rattle.std.specs.Prelude.{◌≡◌, ◌+◌, ◌*◌, ◌^◌, ◌≤◌, ◌<◌, ◌↔◌, ◌++◌, IsTrue, true, length, take, drop, IfOk, OnOk};
ghost use Rattle.encode_rre.specs.Rre.{rre};
ghost use Rattle.framebuffer.specs.Blocks.{block_colours};

use encode_rre::{encode_rre_by_rows, encode_rre_with_table};
use framebuffer::{Block, Framebuffer, Snapshot};
use pixel_translate::{Area, Table};
use std::alloc::{AllocError, Global};
use std::marker::Model;

/// The colours of a rectangle of so many columns, or more, are shared with the picture; those of a narrower one are copied,
/// which takes less time and keeps no row of the picture.
const SHARED_COLUMNS: usize = 256;

/// How many colours are encoded in Raw at once, at most: 8 KB of pixels.
const AT_ONCE: usize = 2048;

/// How a rectangle's colours are held.
#[derive(Drop)]
pub enum Storage {
    Owned(Vec<u32>),
    Shared(Snapshot),
}

/// The colours of a rectangle, row by row. Contracts see the list of them.
#[derive(Drop)]
pub struct Colours {
    storage: Storage,
}

impl Model for Colours {
    ghost use Rattle.std.specs.Prelude.{ℕ, List};
    ghost use Rattle.updates.specs.StoredColours.{stored_colours};

    ghost Value = { List ℕ };

    ghost view = { λ c. stored_colours c.storage };
}

/// Returns the colours of a snapshot from index `done` on, to the end of that row.
fn rest_of_row(snapshot: &Snapshot, done: usize) -> &[u32]
    requires { done < length snapshot.now.colours }
    ensures part { result.now ≡ take (length result.now) (drop done snapshot.now.colours) }
    ensures some { 1 ≤ length result.now }
    ensures small { length snapshot.now.colours < 2 ^ 64 }
{
    let columns = snapshot.width();
    &snapshot.row(done / columns)[done % columns..]
}

/// Tells whether a snapshot has as many columns and rows as `area`.
fn is_of_size(snapshot: &Snapshot, area: Area) -> bool
    ensures width { result ≡ true → snapshot.now.width ≡ area.w }
    ensures height { result ≡ true → snapshot.now.height ≡ area.h }
{
    snapshot.width() == usize::from(area.w) && snapshot.height() == usize::from(area.h)
}

/// Appends a rectangle of shared colours in RRE, which takes the rows as they stand.
fn put_shared(
    out: &mut Vec<u8>,
    area: Area,
    snapshot: &Snapshot,
    table: &Table,
) -> Result<(), AllocError>
    requires wide { 1 ≤ area.w }
    requires high { 1 ≤ area.h }
    requires whole { length snapshot.now.colours ≡ area.w * area.h }
    ensures { OnOk result (out.new.items ≡ out.old.items ++ rre table.now area snapshot.now.colours) }
{
    if is_of_size(snapshot, area) {
        let lines = snapshot.lines()?;
        return encode_rre_by_rows(out, area, &lines, table);
    }
    let colours = snapshot.colours()?;
    encode_rre_with_table(out, area, &colours, table)
}

impl Colours {
    /// Takes the colours of a block out of the picture, as they stand.
    pub fn of_block(picture: &mut Framebuffer, block: Block) -> Result<Colours, AllocError>
        requires wide { block.left + block.columns ≤ picture.old.width }
        requires high { block.top + block.rows ≤ picture.old.height }
        ensures same { picture.new ≡ picture.old }
        ensures colours { IfOk result (λ c. c ≡ block_colours picture.old.width block picture.old.colours) }
    {
        let storage = if block.columns < SHARED_COLUMNS {
            Storage::Owned(picture.read(block)?)
        } else {
            Storage::Shared(picture.snapshot(block)?)
        };
        Ok(Colours { storage })
    }

    /// Tells whether there are colours from index `done` on.
    pub fn goes_on(&self, done: usize) -> bool
        ensures { IsTrue result ↔ (done < length self.now) }
    {
        match &self.storage {
            Storage::Owned(colours) => done < colours.len(),
            Storage::Shared(snapshot) => done < snapshot.width() * snapshot.height(),
        }
    }

    /// Returns the colours from index `done` on: shared ones to the end of a row, copied ones to their end.
    fn run_from(&self, done: usize) -> &[u32]
        requires { done < length self.now }
        ensures part { result.now ≡ take (length result.now) (drop done self.now) }
        ensures some { 1 ≤ length result.now }
        ensures small { length self.now < 2 ^ 64 }
    {
        match &self.storage {
            Storage::Owned(colours) => &colours[done..],
            Storage::Shared(snapshot) => rest_of_row(snapshot, done),
        }
    }

    /// Returns the colours from index `done` on that are encoded at once in Raw: at most 2,048, and of shared ones none behind their row.
    pub fn piece_from(&self, done: usize) -> &[u32]
        requires { done < length self.now }
        ensures part { result.now ≡ take (length result.now) (drop done self.now) }
        ensures some { 1 ≤ length result.now }
        ensures few { length result.now ≤ 2048 }
        ensures small { length self.now < 2 ^ 64 }
    {
        let run = self.run_from(done);
        &run[..run.len().min(AT_ONCE)]
    }

    /// Copies `count` of the colours, from index `from` on.
    pub fn part(&self, alloc: Global, from: usize, count: usize) -> Result<Vec<u32>, AllocError>
        requires inside { from + count ≤ length self.now }
        requires small { from + count < 2 ^ 64 }
        ensures { IfOk result (λ part. part.items ≡ take count (drop from self.now)) }
    {
        let mut part = Vec::with_capacity(alloc, count)?;
        while part.len() < count {
            let run = self.run_from(from + part.len());
            let some = run.len().min(count - part.len());
            part.extend_from_slice(&run[..some])?;
        }
        Ok(part)
    }

    /// Appends them as a rectangle in RRE.
    pub fn put_rre(&self, out: &mut Vec<u8>, area: Area, table: &Table) -> Result<(), AllocError>
        requires wide { 1 ≤ area.w }
        requires high { 1 ≤ area.h }
        requires whole { length self.now ≡ area.w * area.h }
        ensures { OnOk result (out.new.items ≡ out.old.items ++ rre table.now area self.now) }
    {
        match &self.storage {
            Storage::Owned(colours) => encode_rre_with_table(out, area, colours, table),
            Storage::Shared(snapshot) => put_shared(out, area, snapshot, table),
        }
    }
}
