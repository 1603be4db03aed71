//! Finds what differs, and paints it, some rows after others.

ghost use Rattle.std.specs.Prelude.{◌≡◌, ◌+◌, ◌^◌, ◌<◌, ◌++◌, None, List, IfOk};
ghost use Rattle.framebuffer.specs.Frame.{IsPicture};
ghost use Rattle.scene.specs.declared.Config.{Config};
ghost use Rattle.scene.specs.declared.Event.{Event};
ghost use Rattle.scene.specs.Alone.{config_refusal};
ghost use Rattle.screen.specs.State.{state};
ghost use Rattle.source_pixels.specs.declared.pieces.Piece.{Piece};
ghost use Rattle.source_pixels.specs.Source.{source_refusal};
ghost use Rattle.source_pixels.specs.Differences.{AreDifferences};
ghost use Rattle.screen.specs.Taken.{part_from, painted, piece_rect, taken};
ghost use Rattle.screen.specs.Happening.{AllHappen};
ghost use Rattle.screen.specs.Paints.{paints_of};
ghost use Rattle.screen.specs.Takes.{Takes, TakesTelling};

use crate::Screen;
use crate::painting::{paint_bands, rect_at};
use crate::part::{ScreenPart, end_of_rows};
use crate::witness::{Nobody, Witness};
use region::Rect;
use scene::ScreenError;
use source_pixels::{Differences, Piece, PixelSource, find_bands, find_differences};
use std::alloc::{AllocError, Global};

/// Returns the rectangle of a piece on the screen, where its source's corner is at column `left` of row `top`.
pub fn rect_of(left: u32, top: u32, piece: &Piece) -> Rect
    requires right { left + piece.now.left + piece.now.columns < 2 ^ 31 }
    requires bottom { top + piece.now.top + piece.now.rows < 2 ^ 31 }
    ensures { result ≡ piece_rect left top piece.now }
{
    let x = left as usize + piece.left;
    let y = top as usize + piece.top;
    rect_at(x, y, piece.columns, piece.rows)
}

impl Screen {
    /// Returns what differs between a program's pixels and the picture, where the pixels' corner is at column `left` of row `top`: to
    /// paint each piece in the `rect_of` it makes the picture these pixels there. Leaves out what lies off the screen. Takes no memory if
    /// no place differs; an `AllocError` says that it was refused.
    pub fn differences(
        &self,
        alloc: Global,
        left: u32,
        top: u32,
        source: &PixelSource<'_>,
    ) -> Result<Differences, AllocError>
        ensures accepted { source_refusal source.now ≡ None }
        ensures differ { IfOk result (λ d. AreDifferences source.now (part_from self.now.picture left top) d) }
        ensures made { IsPicture self.now.picture → IfOk result (λ d. painted left top d.pieces self.now.picture ≡ taken source.now left top self.now.picture) }
    {
        find_differences(
            alloc,
            source,
            &ScreenPart {
                screen: self,
                left,
                top,
            },
        )
    }

    /// Takes a program's pixels into the picture, with their corner at column `left` of row `top`, and returns how many places changed.
    /// Paints what differs, in few rectangles, and owes it to every viewer; paints nothing if no place differs. Leaves out what lies off
    /// the screen.
    ///
    /// Refuses the pixels as `OutOfMemory` alone: then each place has its old colour or its new one, and another call takes the rest.
    pub fn take(
        &mut self,
        alloc: Global,
        left: u32,
        top: u32,
        source: &PixelSource<'_>,
    ) -> Result<usize, ScreenError>
        ensures takes { (config : Config) (list : List Event) → config_refusal config ≡ None → self.old ≡ state config list →
            Takes source.now left top config list self.old self.new result }
        ensures paints { (config : Config) (list : List Event) → self.old ≡ state config list →
            (pieces : List Piece) × (self.new ≡ state config (list ++ paints_of left top pieces)) }
        ensures none { IfOk result (λ places. places ≡ 0 → self.new ≡ self.old) }
    {
        self.take_told(alloc, left, top, source, &mut Nobody)
    }

    /// Does what `take` does, and tells a witness of each rectangle that it paints.
    pub fn take_told<T: Witness>(
        &mut self,
        alloc: Global,
        left: u32,
        top: u32,
        source: &PixelSource<'_>,
        witness: &mut T,
    ) -> Result<usize, ScreenError>
        ensures takes { (config : Config) (list : List Event) → config_refusal config ≡ None → self.old ≡ state config list →
            TakesTelling (λ es. T.was_told es witness.old witness.new × AllHappen config list es) source.now left top config list self.old self.new result }
        ensures paints { (config : Config) (list : List Event) → self.old ≡ state config list →
            (pieces : List Piece) × (self.new ≡ state config (list ++ paints_of left top pieces)) × T.was_told (paints_of left top pieces) witness.old witness.new × AllHappen config list (paints_of left top pieces) }
        ensures none { IfOk result (λ places. places ≡ 0 → self.new ≡ self.old) }
    {
        let mut colours = Vec::new(alloc);
        let mut places = 0;
        let mut y = 0;
        'parts: while let Some(end) = end_of_rows(self, left, top, source, y) {
            let found = find_bands(
                alloc,
                source,
                &ScreenPart {
                    screen: self,
                    left,
                    top,
                },
                y,
                end,
            )?;
            let bands = found.bands.as_slice();
            paint_bands(self, witness, left, top, source, bands, &mut colours)?;
            places += found.places;
            y = end;
        }
        Ok(places)
    }
}
