//! A framebuffer: a picture that is drawn in, with its size; and snapshots of its blocks.

ghost use Rattle.std.specs.Prelude.{◌≡◌, ◌+◌, ◌*◌, ◌<◌, ◌≤◌, ◌↔◌, All, length, take, drop, slice_index, flat_map, IfOk, IfSome};
ghost use Rattle.std.specs.Prelude.{IsSome, OnOk, OnErr, [], ◌∷◌, pos};
ghost use Rattle.region.specs.Region.{covers};
ghost use Rattle.region.specs.Copies.{InOrder};
ghost use Rattle.region.specs.Places.{IsOnScreen, source_rect, longest_side};
ghost use Rattle.framebuffer.specs.Frame.{IsPicture, IsPart};
ghost use Rattle.framebuffer.specs.Picture.{blank, written, moved_colours};
ghost use Rattle.framebuffer.specs.Blocks.{block_rect, block_colours};
ghost use Rattle.framebuffer.specs.Moves.{rows_copied};

use crate::blocks::{Block, block_within};
use crate::moves::{first_source, in_copy_order, move_pieces, own_pieces, whole_rows};
use crate::rows::{
    Row, blank_rows, colours_of, exchange_rows, gather, is_own_row, make_room, own_rows, parts,
    put_rows, rows_with, share_rows, take_back_rows, write_rows,
};
use region::Rect;
use std::alloc::{AllocError, Global};
use std::marker::Model;

/// A picture of 1 to 8192 columns and rows: the colours `0x00RRGGBB` of its places, row by row from the top.
/// It keeps the allocator that it was made with. A row is shared with the snapshots that were taken of it, until it is drawn
/// over. Where new rows took the place of others, these are kept, at most one for each of the picture's rows: as soon as no
/// snapshot holds them, later ones are written in their memory. What they hold is no part of the picture.
pub struct Framebuffer {
    alloc: Global,
    width: u32,
    height: u32,
    rows: Vec<Row>,
    retired: Vec<Row>,
}

// Written out, so that who holds one proves one call here, and not the drop of each field.
impl Drop for Framebuffer {
    fn drop(self) {
        let Framebuffer {
            alloc: _alloc,
            width: _width,
            height: _height,
            rows: _rows,
            retired: _retired,
        } = self;
    }
}

impl Model for Framebuffer {
    ghost use Rattle.framebuffer.specs.Frame.{Frame};
    ghost use Rattle.framebuffer.specs.Rows.{HasRows, frame_of};

    ghost Value = { Frame };

    ghost view = { λ f. frame_of f.width f.height f.rows.items };

    ghost invariant = { λ f. HasRows f.width f.height f.rows.items };
}

/// The colours of a block of a picture as they were when it was taken, row by row. What is drawn later doesn't change them.
pub struct Snapshot {
    alloc: Global,
    rows: Vec<Row>,
    left: usize,
    columns: usize,
}

// Written out, so that who holds one proves one call here, and not the drop of each field.
impl Drop for Snapshot {
    fn drop(self) {
        let Snapshot {
            alloc: _alloc,
            rows: _rows,
            left: _left,
            columns: _columns,
        } = self;
    }
}

impl Model for Snapshot {
    ghost use Rattle.framebuffer.specs.Frame.{Frame};
    ghost use Rattle.framebuffer.specs.Rows.{HasParts, part_of};

    ghost Value = { Frame };

    ghost view = { λ s. part_of s.left s.columns s.rows.items };

    ghost invariant = { λ s. HasParts s.left s.columns s.rows.items };
}

impl Framebuffer {
    /// Makes a picture that is 0 everywhere.
    pub fn new(alloc: Global, width: u32, height: u32) -> Result<Framebuffer, AllocError>
        requires some_columns { 1 ≤ width }
        requires columns { width ≤ longest_side }
        requires some_rows { 1 ≤ height }
        requires rows { height ≤ longest_side }
        ensures { IfOk result (λ f. f ≡ record { width = width; height = height; colours = blank width height }) }
    {
        let rows = blank_rows(alloc, width as usize, height as usize)?;
        Ok(Framebuffer {
            alloc,
            width,
            height,
            rows,
            retired: Vec::new(alloc),
        })
    }

    /// Returns the picture's width in columns.
    pub fn width(&self) -> u32
        ensures value { result ≡ self.now.width }
        ensures picture { IsPicture self.now }
    {
        self.width
    }

    /// Returns the picture's height in rows.
    pub fn height(&self) -> u32
        ensures value { result ≡ self.now.height }
        ensures picture { IsPicture self.now }
    {
        self.height
    }

    /// Returns the colour of the place in column `x` of row `y`; `None` if it is off the picture.
    pub fn colour(&self, x: u32, y: u32) -> Option<u32>
        ensures inside { IsSome result ↔ ((x < self.now.width) × (y < self.now.height)) }
        ensures colour { IfSome result (λ c. c ≡ slice_index self.now.colours (y * self.now.width + x)) }
    {
        if x < self.width && y < self.height {
            Some(colours_of(&self.rows[y as usize])[x as usize])
        } else {
            None
        }
    }

    /// Returns the colours of row `y` from the left, without copying any; `None` if the row is off the picture.
    pub fn row(&self, y: u32) -> Option<&[u32]>
        ensures inside { IsSome result ↔ (y < self.now.height) }
        ensures colours { IfSome result (λ row. row.now ≡ take self.now.width (drop (y * self.now.width) self.now.colours)) }
    {
        if y < self.height {
            Some(colours_of(&self.rows[y as usize]))
        } else {
            None
        }
    }

    /// Copies the colours of `block` into a list, row by row. The block may have no places.
    pub fn read(&self, block: Block) -> Result<Vec<u32>, AllocError>
        requires wide { block.left + block.columns ≤ self.now.width }
        requires high { block.top + block.rows ≤ self.now.height }
        ensures { IfOk result (λ colours. colours.items ≡ block_colours self.now.width block self.now.colours) }
    {
        let rows = &self.rows[block.top..block.top + block.rows];
        gather(self.alloc, rows, block.left, block.columns)
    }

    /// Takes the colours of `block` as they stand, in rows that the snapshot shares with the picture, without copying any. The
    /// block may have no places. Fails only for want of memory. The picture stays as it was, even if the call fails.
    pub fn snapshot(&mut self, block: Block) -> Result<Snapshot, AllocError>
        requires wide { block.left + block.columns ≤ self.old.width }
        requires high { block.top + block.rows ≤ self.old.height }
        ensures same { self.new ≡ self.old }
        ensures taken { IfOk result (λ s. s ≡
            record { width = block.columns; height = block.rows; colours = block_colours self.old.width block self.old.colours }) }
    {
        let rows = share_rows(self.alloc, &mut self.rows, block.top, block.rows)?;
        Ok(Snapshot {
            alloc: self.alloc,
            rows,
            left: block.left,
            columns: block.columns,
        })
    }

    /// Replaces the colours of `block` by `colours`, row by row, and clears their top bytes. The block may have no places: then
    /// this takes no memory. Fails only for want of memory, and then changes nothing.
    pub fn write(&mut self, block: Block, colours: &[u32]) -> Result<(), AllocError>
        requires wide { block.left + block.columns ≤ self.old.width }
        requires high { block.top + block.rows ≤ self.old.height }
        requires whole { length colours.now ≡ block.rows * block.columns }
        ensures ok { OnOk result (self.new ≡
            record self.old { colours = written self.old.width self.old.height (block_rect block) colours.now self.old.colours }) }
        ensures err { OnErr result (self.new ≡ self.old) }
    {
        let has_whole_rows = block.columns == self.width as usize;
        if colours.is_empty() {
            return Ok(());
        }
        if has_whole_rows {
            self.take_back(block);
        }
        if has_whole_rows && self.shares(block) {
            self.put_whole_rows(block, colours)
        } else {
            self.write_in_rows(block, colours)
        }
    }

    /// Makes those rows of `block` that no snapshot holds any more the picture's own again.
    fn take_back(&mut self, block: Block)
        requires { block.top + block.rows ≤ self.old.height }
        ensures { self.new ≡ self.old }
    {
        take_back_rows(
            self.alloc,
            &mut self.rows,
            block.top,
            block.top + block.rows,
        );
    }

    /// Says whether the picture may share a row of `block` with a snapshot.
    fn shares(&self, block: Block) -> bool
        requires { block.top + block.rows ≤ self.now.height }
    {
        let rows = &self.rows[block.top..block.top + block.rows];
        !rows.iter().all(is_own_row)
    }

    /// Does the same as `write` for a block of whole rows: puts new rows in place of the old ones, and retires those. Writes a
    /// new row in the memory of the one that was retired in its place before, if nobody else holds that one.
    fn put_whole_rows(&mut self, block: Block, colours: &[u32]) -> Result<(), AllocError>
        requires left { block.left ≡ 0 }
        requires wide { block.columns ≡ self.old.width }
        requires high { block.top + block.rows ≤ self.old.height }
        requires whole { length colours.now ≡ block.rows * block.columns }
        ensures ok { OnOk result (self.new ≡
            record self.old { colours = written self.old.width self.old.height (block_rect block) colours.now self.old.colours }) }
        ensures err { OnErr result (self.new ≡ self.old) }
    {
        make_room(self.alloc, &mut self.retired, block.top + block.rows)?;
        let spare = &mut self.retired[block.top..block.top + block.rows];
        let rows = rows_with(self.alloc, spare, block.columns, block.rows, colours)?;
        exchange_rows(&mut self.rows, &mut self.retired, block.top, rows);
        Ok(())
    }

    /// Does the same as `write`, in the rows that are there. Copies those that a snapshot holds first.
    fn write_in_rows(&mut self, block: Block, colours: &[u32]) -> Result<(), AllocError>
        requires wide { block.left + block.columns ≤ self.old.width }
        requires high { block.top + block.rows ≤ self.old.height }
        requires whole { length colours.now ≡ block.rows * block.columns }
        ensures ok { OnOk result (self.new ≡
            record self.old { colours = written self.old.width self.old.height (block_rect block) colours.now self.old.colours }) }
        ensures err { OnErr result (self.new ≡ self.old) }
    {
        make_room(self.alloc, &mut self.retired, block.top + block.rows)?;
        own_rows(
            self.alloc,
            &mut self.rows,
            &mut self.retired,
            block.top,
            block.top + block.rows,
        )?;
        write_rows(&mut self.rows, self.width as usize, block, colours);
        Ok(())
    }

    /// Gives the places of `pieces` the colours that the places `offset` before them had before the call, all at once. Each of
    /// the rectangles has places, all of them in the picture, and so has the rectangle `offset` before it. Fails only for want
    /// of memory, and then changes nothing.
    pub fn move_colours(&mut self, pieces: &[Rect], offset: (i32, i32)) -> Result<(), AllocError>
        requires inside { All (IsOnScreen self.old.width self.old.height) pieces.now }
        requires sources { All (λ r. IsOnScreen self.old.width self.old.height (source_rect offset r)) pieces.now }
        ensures ok { OnOk result (self.new ≡ record self.old {
          colours = moved_colours self.old.width self.old.height (covers pieces.now) offset self.old.colours;
        }) }
        ensures err { OnErr result (self.new ≡ self.old) }
    {
        let rects = in_copy_order(self.alloc, pieces, offset)?;
        match whole_rows(&rects, offset, self.width) {
            Some(piece) => self.scroll(piece, offset),
            None => self.move_in_rows(&rects, offset),
        }
    }

    /// Does the same as `move_colours` for one rectangle of whole rows that moves straight up or down.
    fn scroll(&mut self, piece: Rect, offset: (i32, i32)) -> Result<(), AllocError>
        requires inside { IsOnScreen self.old.width self.old.height piece }
        requires source { IsOnScreen self.old.width self.old.height (source_rect offset piece) }
        requires left { piece.x1 ≡ pos 0 }
        requires right { piece.x2 ≡ pos self.old.width }
        requires upright { offset.0 ≡ pos 0 }
        ensures ok { OnOk result (self.new ≡ record self.old {
          colours = moved_colours self.old.width self.old.height (covers (piece ∷ [])) offset self.old.colours;
        }) }
        ensures err { OnErr result (self.new ≡ self.old) }
    {
        let to = block_within(piece, self.width, self.height);
        let from = first_source(piece, offset, self.height);
        self.copy_rows(from, to.top, to.rows)
    }

    /// Gives the `count` rows from `to` on the colours of as many rows from `from` on, in rows that both share, without copying
    /// any colour. Lets the rows go that were there: retired, they would keep the picture from taking back those of them that
    /// it has in other places.
    fn copy_rows(&mut self, from: usize, to: usize, count: usize) -> Result<(), AllocError>
        requires from { from + count ≤ self.old.height }
        requires to { to + count ≤ self.old.height }
        ensures ok { OnOk result (self.new ≡
            record self.old { colours = rows_copied self.old.width from to count self.old.colours }) }
        ensures err { OnErr result (self.new ≡ self.old) }
    {
        let rows = share_rows(self.alloc, &mut self.rows, from, count)?;
        put_rows(&mut self.rows, to, rows);
        Ok(())
    }

    /// Does the same as `move_colours` for rectangles in an order for copies by `offset`, in the rows that are there. Copies
    /// those that a snapshot holds first.
    fn move_in_rows(&mut self, pieces: &[Rect], offset: (i32, i32)) -> Result<(), AllocError>
        requires inside { All (IsOnScreen self.old.width self.old.height) pieces.now }
        requires sources { All (λ r. IsOnScreen self.old.width self.old.height (source_rect offset r)) pieces.now }
        requires ordered { InOrder offset pieces.now }
        ensures ok { OnOk result (self.new ≡ record self.old {
          colours = moved_colours self.old.width self.old.height (covers pieces.now) offset self.old.colours;
        }) }
        ensures err { OnErr result (self.new ≡ self.old) }
    {
        let mut buffer = vec![in self.alloc; 0u32; self.width as usize]?;
        make_room(self.alloc, &mut self.retired, self.height as usize)?;
        own_pieces(self.alloc, &mut self.rows, &mut self.retired, pieces)?;
        move_pieces(
            &mut self.rows,
            self.width,
            self.height,
            pieces,
            offset,
            &mut buffer,
        );
        Ok(())
    }
}

impl Snapshot {
    /// Returns the block's width in columns.
    pub fn width(&self) -> usize
        ensures value { result ≡ self.now.width }
        ensures part { IsPart self.now }
    {
        self.columns
    }

    /// Returns the block's height in rows.
    pub fn height(&self) -> usize
        ensures value { result ≡ self.now.height }
        ensures part { IsPart self.now }
    {
        self.rows.len()
    }

    /// Returns the colours of row `y` of the block.
    pub fn row(&self, y: usize) -> &[u32]
        requires { y < self.now.height }
        ensures { result.now ≡ take self.now.width (drop (y * self.now.width) self.now.colours) }
    {
        &colours_of(&self.rows[y])[self.left..self.left + self.columns]
    }

    /// Returns the colours of each row, from the top, without copying any.
    pub fn lines(&self) -> Result<Vec<&[u32]>, AllocError>
        ensures flat { IfOk result (λ lines. flat_map (λ line. line.now) lines.items ≡ self.now.colours) }
        ensures count { IfOk result (λ lines. length lines.items ≡ self.now.height) }
        ensures even { IfOk result (λ lines. All (λ line. length line.now ≡ self.now.width) lines.items) }
    {
        parts(self.alloc, &self.rows, self.left, self.columns)
    }

    /// Copies the colours into one list, row by row.
    pub fn colours(&self) -> Result<Vec<u32>, AllocError>
        ensures { IfOk result (λ colours. colours.items ≡ self.now.colours) }
    {
        gather(self.alloc, &self.rows, self.left, self.columns)
    }
}
