//! What differs between pixels and the part of a picture beside them, as rectangles with their colours.

ghost use Rattle.std.specs.Prelude.{◌≡◌, ◌+◌, ◌-◌, ◌<◌, ◌≤◌, length, take, MatchOption, IfOk, None};
ghost use Rattle.source_pixels.specs.Source.{colours_at, source_refusal};
ghost use Rattle.source_pixels.specs.Rows.{AreSame, IsDifference};
ghost use Rattle.source_pixels.specs.Parts.{Part};
ghost use Rattle.source_pixels.specs.Gathering.{AreGathered, piece_of};
ghost use Rattle.source_pixels.specs.Differences.{AreDifferences, rows_beside};

use crate::bands::{Band, add};
use crate::rows::RowDifference;
use crate::source::PixelSource;
use listed::Listed;
use std::alloc::{AllocError, Global};

/// The part of a picture that lies beside a program's pixels: its first row beside their first, its first column beside theirs.
pub trait Beside {
    /// Its size, and its colours.
    ghost part: { Self → Part };

    /// Returns how many columns it has.
    fn columns(&self) -> usize
        ensures { result ≡ (part self.now).columns };

    /// Returns how many rows it has.
    fn rows(&self) -> usize
        ensures { result ≡ (part self.now).rows };

    /// Returns the colours `0x00RRGGBB` of row `y`, from the left.
    fn row(&self, y: usize) -> &[u32]
        requires { y < (part self.now).rows }
        ensures { result.now ≡ (part self.now).row y };
}

/// A rectangle of the source's places, and their colours `0x00RRGGBB`, row by row.
#[derive(Drop)]
pub struct Piece {
    pub left: usize,
    pub top: usize,
    pub columns: usize,
    pub rows: usize,
    pub colours: Listed<u32>,
}

/// What differs: rectangles that hold each place that differs, and how many places differ.
#[derive(Drop)]
pub struct Differences {
    pub pieces: Listed<Piece>,
    pub places: usize,
}

/// What differs in some rows: bands that hold each place that differs, and how many places differ.
#[derive(Drop)]
pub struct FoundBands {
    pub bands: Listed<Band>,
    pub places: usize,
}

/// Returns where the first `columns` places of row `y` differ from the picture's; `None` where none does.
fn row_difference<B: Beside>(
    source: &PixelSource<'_>,
    picture: &B,
    columns: usize,
    y: usize,
) -> Option<RowDifference>
    requires top { y < source.now.height }
    requires beside { y < (B.part picture.now).rows }
    requires wide { columns ≤ source.now.width }
    ensures { let row = take columns ((B.part picture.now).row y) in
        MatchOption result (AreSame (colours_at source.now 0 y (length row)) row 0 (length row)) (λ d. IsDifference (colours_at source.now 0 y (length row)) row d) }
{
    let row = picture.row(y);
    source.compare_row(y, &row[..row.len().min(columns)])
}

/// Returns row `y`, which differs, as a band.
fn band_of(y: usize, difference: RowDifference) -> Band
    requires { y < usize.MAX }
    ensures top { result.top ≡ y }
    ensures bottom { result.bottom ≡ y + 1 }
    ensures from { result.from ≡ difference.from }
    ensures to { result.to ≡ difference.to }
    ensures spans { result.spans ≡ difference.to - difference.from }
{
    Band {
        top: y,
        bottom: y + 1,
        from: difference.from,
        to: difference.to,
        spans: difference.to.saturating_sub(difference.from),
    }
}

/// Returns what differs in the rows from `top` to below `bottom` between a program's pixels and the part of a picture beside them, as
/// `find_differences` gathers it, without colours: `copy_band` gives those of a band. Takes no memory where no place differs, and is
/// refused for want of memory alone.
pub fn find_bands<B: Beside>(
    alloc: Global,
    source: &PixelSource<'_>,
    picture: &B,
    top: usize,
    bottom: usize,
) -> Result<FoundBands, AllocError>
    requires order { top ≤ bottom }
    requires beside { bottom ≤ rows_beside source.now (B.part picture.now) }
    ensures accepted { source_refusal source.now ≡ None }
    ensures found { IfOk result (λ f. AreGathered source.now (B.part picture.now) top bottom f.bands f.places) }
{
    let columns = source.width().min(picture.columns());
    let mut bands = Vec::new(alloc);
    let mut places = 0;
    for y in top..bottom {
        if let Some(difference) = row_difference(source, picture, columns, y) {
            add(&mut bands, band_of(y, difference))?;
            places += difference.places;
        }
    }
    Ok(FoundBands {
        bands: Listed::from_vec(bands),
        places,
    })
}

/// Returns a band of the source with its colours.
fn make_piece(alloc: Global, source: &PixelSource<'_>, band: Band) -> Result<Piece, AllocError>
    requires wide { band.to ≤ source.now.width }
    requires high { band.bottom ≤ source.now.height }
    requires columns { band.from ≤ band.to }
    requires rows { band.top ≤ band.bottom }
    ensures { IfOk result (λ p. p ≡ piece_of source.now band) }
{
    let mut colours = vec![in alloc; 0u32; source.band_places(band)]?;
    source.copy_band(band, &mut colours);
    Ok(Piece {
        left: band.from,
        top: band.top,
        columns: band.to - band.from,
        rows: band.bottom - band.top,
        colours: Listed::from_vec(colours),
    })
}

/// Returns what differs between a program's pixels and the part of a picture beside them. Joins rows that differ one below the other to
/// one rectangle, unless that has more than 16,384 places, or more than twice as many as there are from the first to the last that
/// differs in each row, and 64. Takes no memory where no place differs, and is refused for want of memory alone.
pub fn find_differences<B: Beside>(
    alloc: Global,
    source: &PixelSource<'_>,
    picture: &B,
) -> Result<Differences, AllocError>
    ensures accepted { source_refusal source.now ≡ None }
    ensures differ { IfOk result (λ d. AreDifferences source.now (B.part picture.now) d) }
{
    let rows = source.height().min(picture.rows());
    let found = find_bands(alloc, source, picture, 0, rows)?;
    let mut pieces = Listed::new(alloc);
    for band in found.bands.as_slice() {
        pieces.push(make_piece(alloc, source, *band)?)?;
    }
    Ok(Differences {
        pieces,
        places: found.places,
    })
}
