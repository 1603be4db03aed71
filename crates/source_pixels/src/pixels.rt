//! The pixels of a row, of each size.

ghost use Rattle.std.specs.Prelude.{◌≡◌, ◌*◌, length, MatchOption, None, true};
ghost use Rattle.source_pixels.specs.Formats.{byte_count, are_fitting, pixel_size};
ghost use Rattle.source_pixels.specs.Source.{format_refusal, row_colours, component_colours};
ghost use Rattle.source_pixels.specs.Rows.{AreSame, IsDifference};

use crate::colours::{Components, Direct, Places, WholeBytes};
use crate::formats::{BytesPerPixel, SourceFormat, TrueColour};
use crate::rows::{RowDifference, compare, write_colours};

/// Returns how many bytes a pixel has.
pub(crate) fn pixel_size(format: SourceFormat<'_>) -> usize
    ensures { result ≡ pixel_size format.entry }
{
    match format {
        SourceFormat::TrueColour(format) => format.bytes.count(),
        SourceFormat::Table(_) => 1,
    }
}

/// Compares pixels of four bytes with a row, by vectors in the server's own format, and where no component is scaled.
fn compare_four(format: TrueColour, pixels: &[u8], row: &[u32]) -> Option<RowDifference>
    requires fitting { are_fitting format ≡ true }
    requires four { format.bytes ≡ BytesPerPixel.Four }
    requires whole { length pixels.now ≡ length row.now * byte_count format.bytes }
    ensures { let colours = component_colours format pixels.now (length row.now) in
        MatchOption result (AreSame colours row.now 0 (length row.now)) (λ difference. IsDifference colours row.now difference) }
{
    let pixels = pixels.as_chunks::<4>().0;
    if format.is_direct() {
        compare(&Direct, pixels, row)
    } else if format.has_whole_bytes() {
        compare(&WholeBytes { format }, pixels, row)
    } else {
        compare(&Components::new(format), pixels, row)
    }
}

/// Writes the colours of pixels of four bytes.
fn write_four(format: TrueColour, pixels: &[u8], places: &mut [u32])
    requires fitting { are_fitting format ≡ true }
    requires four { format.bytes ≡ BytesPerPixel.Four }
    requires whole { length pixels.now ≡ length places.old * byte_count format.bytes }
    ensures { places.new ≡ component_colours format pixels.now (length places.old) }
{
    let pixels = pixels.as_chunks::<4>().0;
    if format.is_direct() {
        write_colours(&Direct, pixels, places)
    } else if format.has_whole_bytes() {
        write_colours(&WholeBytes { format }, pixels, places)
    } else {
        write_colours(&Components::new(format), pixels, places)
    }
}

/// Compares pixels of components with a row.
fn compare_components(format: TrueColour, pixels: &[u8], row: &[u32]) -> Option<RowDifference>
    requires fitting { are_fitting format ≡ true }
    requires whole { length pixels.now ≡ length row.now * byte_count format.bytes }
    ensures { let colours = component_colours format pixels.now (length row.now) in
        MatchOption result (AreSame colours row.now 0 (length row.now)) (λ difference. IsDifference colours row.now difference) }
{
    let components = Components::new(format);
    match format.bytes {
        BytesPerPixel::One => compare(&components, pixels.as_chunks::<1>().0, row),
        BytesPerPixel::Two => compare(&components, pixels.as_chunks::<2>().0, row),
        BytesPerPixel::Three => compare(&components, pixels.as_chunks::<3>().0, row),
        BytesPerPixel::Four => compare_four(format, pixels, row),
    }
}

/// Writes the colours of pixels of components.
fn write_components(format: TrueColour, pixels: &[u8], places: &mut [u32])
    requires fitting { are_fitting format ≡ true }
    requires whole { length pixels.now ≡ length places.old * byte_count format.bytes }
    ensures { places.new ≡ component_colours format pixels.now (length places.old) }
{
    let components = Components::new(format);
    match format.bytes {
        BytesPerPixel::One => write_colours(&components, pixels.as_chunks::<1>().0, places),
        BytesPerPixel::Two => write_colours(&components, pixels.as_chunks::<2>().0, places),
        BytesPerPixel::Three => write_colours(&components, pixels.as_chunks::<3>().0, places),
        BytesPerPixel::Four => write_four(format, pixels, places),
    }
}

/// Compares as many pixels as a row has places with the row.
pub(crate) fn compare_pixels(
    format: SourceFormat<'_>,
    pixels: &[u8],
    row: &[u32],
) -> Option<RowDifference>
    requires format { format_refusal format ≡ None }
    requires whole { length pixels.now ≡ length row.now * pixel_size format }
    ensures { let colours = row_colours format.entry pixels.now (length row.now) in
        MatchOption result (AreSame colours row.now 0 (length row.now)) (λ difference. IsDifference colours row.now difference) }
{
    match format {
        SourceFormat::Table(table) => compare(&Places { table }, pixels.as_chunks::<1>().0, row),
        SourceFormat::TrueColour(format) => compare_components(format, pixels, row),
    }
}

/// Writes the colours of as many pixels as there are places.
pub(crate) fn write_pixels(format: SourceFormat<'_>, pixels: &[u8], places: &mut [u32])
    requires format { format_refusal format ≡ None }
    requires whole { length pixels.now ≡ length places.old * pixel_size format }
    ensures { places.new ≡ row_colours format.entry pixels.now (length places.old) }
{
    match format {
        SourceFormat::Table(table) => {
            write_colours(&Places { table }, pixels.as_chunks::<1>().0, places)
        }
        SourceFormat::TrueColour(format) => write_components(format, pixels, places),
    }
}
