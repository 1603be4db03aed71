//! Bands of a program's pixels, painted on a screen.

ghost use Rattle.std.specs.Prelude.{◌≡◌, ◌+◌, ◌^◌, ◌<◌, List, [], ◌∷◌, ◌++◌, length, map, None, OnOk, OnErr, IsOkUnless, All};
ghost use Rattle.scene.specs.declared.Config.{Config};
ghost use Rattle.scene.specs.declared.Event.{Event};
ghost use Rattle.screen.specs.State.{state, refusal};
ghost use Rattle.source_pixels.specs.Bands.{IsBand};
ghost use Rattle.source_pixels.specs.Differences.{IsPiece};
ghost use Rattle.source_pixels.specs.Gathering.{piece_of};
ghost use Rattle.screen.specs.Taken.{part_from, rect_at};
ghost use Rattle.screen.specs.Happening.{AllHappen};
ghost use Rattle.screen.specs.Paints.{paint_of, PaintsTold};

use crate::Screen;
use crate::draw::Draw;
use crate::witness::Witness;
use region::Rect;
use scene::ScreenError;
use source_pixels::{Band, PixelSource};

/// Returns the rectangle of `columns` columns and `rows` rows from the place in column `x` of row `y` on.
pub(crate) fn rect_at(x: usize, y: usize, columns: usize, rows: usize) -> Rect
    requires right { x + columns < 2 ^ 31 }
    requires bottom { y + rows < 2 ^ 31 }
    ensures { result ≡ rect_at x y columns rows }
{
    Rect {
        x1: x as i32,
        y1: y as i32,
        x2: (x + columns) as i32,
        y2: (y + rows) as i32,
    }
}

/// Paints a band of a program's pixels, whose corner is at column `left` of row `top`, with its colours, which it writes over `colours`.
/// Refuses a band that lies on the screen as `OutOfMemory` alone.
fn paint_band<T: Witness>(
    screen: &mut Screen,
    witness: &mut T,
    left: u32,
    top: u32,
    source: &PixelSource<'_>,
    band: Band,
    colours: &mut Vec<u32>,
) -> Result<(), ScreenError>
    requires band { IsBand source.now.width 0 source.now.height band }
    requires right { left + band.to < 2 ^ 31 }
    requires bottom { top + band.bottom < 2 ^ 31 }
    ensures step { (config : Config) (list : List Event) → screen.old ≡ state config list →
        OnOk result (screen.new ≡ state config (list ++ paint_of left top (piece_of source.now band) ∷ [])) }
    ensures happened { (config : Config) (list : List Event) → screen.old ≡ state config list →
        OnOk result (AllHappen config list (paint_of left top (piece_of source.now band) ∷ [])) }
    ensures refused { refusal screen.old (paint_of left top (piece_of source.now band)) ≡ None → IsOkUnless result ScreenError.OutOfMemory }
    ensures told { OnOk result (T.was_told (paint_of left top (piece_of source.now band) ∷ []) witness.old witness.new) }
    ensures err { OnErr result (screen.new ≡ screen.old) }
    ensures untold { OnErr result (witness.new ≡ witness.old) }
{
    colours.resize(source.band_places(band), 0)?;
    source.copy_band(band, colours);
    let x = left as usize + band.from;
    let y = top as usize + band.top;
    let rect = rect_at(x, y, band.to - band.from, band.bottom - band.top);
    screen.paint(rect, colours)?;
    witness.painted(rect, colours);
    Ok(())
}

/// Paints bands of a program's pixels, whose corner is at column `left` of row `top`, each with its colours, which it writes over
/// `colours`. Refuses them as `OutOfMemory` alone: then the first bands are painted, or none.
pub(crate) fn paint_bands<T: Witness>(
    screen: &mut Screen,
    witness: &mut T,
    left: u32,
    top: u32,
    source: &PixelSource<'_>,
    bands: &[Band],
    colours: &mut Vec<u32>,
) -> Result<(), ScreenError>
    requires { All (IsPiece source.now (part_from screen.old.picture left top)) (map (piece_of source.now) bands.now) }
    ensures paints { (config : Config) (list : List Event) → screen.old ≡ state config list →
        PaintsTold left top config list (map (piece_of source.now) bands.now) (λ es. T.was_told es witness.old witness.new) screen.new result }
    ensures none { OnOk result (length bands.now ≡ 0 → screen.new ≡ screen.old) }
{
    for band in bands {
        paint_band(screen, witness, left, top, source, *band, colours)?;
    }
    Ok(())
}
