//! Blocks of a picture: rectangles of its places, by their corner and their size.

ghost use Rattle.std.specs.Prelude.{◌≡◌, pos, ◌≤ℤ◌};
ghost use Rattle.region.specs.Places.{IsOnScreen};
ghost use Rattle.framebuffer.specs.Blocks.{block_rect, FitsIn};

use region::Rect;

/// A rectangle of the screen, by its corner and its size, in places.
#[derive(Clone, Copy)]
pub struct Block {
    pub left: usize,
    pub top: usize,
    pub columns: usize,
    pub rows: usize,
}

/// Returns the block of `rect`, a rectangle of the screen.
pub fn block_of(rect: Rect) -> Block
    requires left { pos 0 ≤ℤ rect.x1 }
    requires top { pos 0 ≤ℤ rect.y1 }
    requires wide { rect.x1 ≤ℤ rect.x2 }
    requires high { rect.y1 ≤ℤ rect.y2 }
    ensures { rect ≡ block_rect result }
{
    Block {
        left: rect.x1 as usize,
        top: rect.y1 as usize,
        columns: (rect.x2 - rect.x1) as usize,
        rows: (rect.y2 - rect.y1) as usize,
    }
}

/// Returns the block of `rect`, which has places, all of them on a screen of `width` columns and `height` rows.
pub fn block_within(rect: Rect, width: u32, height: u32) -> Block
    requires { IsOnScreen width height rect }
    ensures is { rect ≡ block_rect result }
    ensures fits { FitsIn width height result }
{
    block_of(rect)
}
