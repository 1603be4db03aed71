//! A program's own pixels, with their layout.

ghost use Rattle.std.specs.Prelude.{◌≡◌, ◌+◌, ◌-◌, ◌*◌, ◌^◌, ◌<◌, ◌≤◌, ◌↔◌, IsTrue, length, take, drop, IsSome, IfSome, MatchOption, None};
ghost use Rattle.source_pixels.specs.Formats.{pixel_size};
ghost use Rattle.source_pixels.specs.Source.{Source, colour_at, colours_at, source_refusal, format_refusal, bytes_needed};
ghost use Rattle.source_pixels.specs.Rows.{AreSame, IsDifference};
ghost use Rattle.source_pixels.specs.Gathering.{piece_of};

use crate::bands::Band;
use crate::errors::SourceError;
use crate::formats::SourceFormat;
use crate::pixels::{compare_pixels, pixel_size, write_pixels};
use crate::rows::RowDifference;
use std::marker::Model;

/// A program's own pixels: rows of so many places, row by row from the top, each row a stride of bytes behind the one above. It may
/// have no places.
#[derive(Drop)]
pub struct PixelSource<'a> {
    bytes: &'a [u8],
    stride: usize,
    width: usize,
    height: usize,
    format: SourceFormat<'a>,
}

impl<'a> Model for PixelSource<'a> {
    ghost use Rattle.std.specs.Prelude.{◌≡◌, None};
    ghost use Rattle.source_pixels.specs.Source.{Source, source_refusal};

    ghost Value = { Source };

    ghost view = { λ s. record { width = s.width; height = s.height; stride = s.stride; bytes = s.bytes.now; format = s.format } };

    ghost invariant = { λ s. source_refusal (record { width = s.width; height = s.height; stride = s.stride; bytes = s.bytes.now; format = s.format }) ≡ None };
}

/// Returns why a format is refused, if it is.
fn format_refusal(format: SourceFormat<'_>) -> Option<SourceError>
    ensures { result ≡ format_refusal format.entry }
{
    match format {
        SourceFormat::TrueColour(format) if format.fits() => None,
        SourceFormat::TrueColour(_) => Some(SourceError::BadComponent),
        SourceFormat::Table(table) if 1 <= table.len() && table.len() <= 256 => None,
        SourceFormat::Table(_) => Some(SourceError::BadTable),
    }
}

/// Returns whether `bytes` bytes are enough for `height` rows at a stride, each with `row` bytes of pixels.
fn are_enough(bytes: usize, row: usize, stride: usize, height: usize) -> bool
    ensures { IsTrue result ↔ (bytes_needed row stride height ≤ bytes) }
{
    if height == 0 {
        return true;
    }
    let above = stride.checked_mul(height - 1);
    match above.and_then(|above| above.checked_add(row)) {
        Some(needed) => needed <= bytes,
        None => false,
    }
}

impl<'a> PixelSource<'a> {
    /// Returns `bytes` as pixels. Refused as `BadComponent` or `BadTable` for the format, then as `StrideTooShort` where a row's pixels
    /// take more bytes than the stride, then as `TooFewBytes`; behind the last row's pixels none are needed.
    pub fn new(
        bytes: &'a [u8],
        stride: usize,
        width: usize,
        height: usize,
        format: SourceFormat<'a>,
    ) -> Result<PixelSource<'a>, SourceError>
        ensures { let source : Source = record { width = width; height = height; stride = stride; bytes = bytes.now; format = format.entry } in
            MatchOption (source_refusal source) (result ≡ Ok source) (λ e. result ≡ Err e) }
    {
        if let Some(refusal) = format_refusal(format) {
            return Err(refusal);
        }
        let Some(row) = width.checked_mul(pixel_size(format)) else {
            return Err(SourceError::StrideTooShort);
        };
        if stride < row {
            return Err(SourceError::StrideTooShort);
        }
        if !are_enough(bytes.len(), row, stride, height) {
            return Err(SourceError::TooFewBytes);
        }
        Ok(PixelSource {
            bytes,
            stride,
            width,
            height,
            format,
        })
    }

    /// Returns how many columns there are.
    pub fn width(&self) -> usize
        ensures value { result ≡ self.now.width }
        ensures accepted { source_refusal self.now ≡ None }
        ensures few { self.now.width * self.now.height < 2 ^ 64 }
    {
        self.width
    }

    /// Returns how many rows there are.
    pub fn height(&self) -> usize
        ensures { result ≡ self.now.height }
    {
        self.height
    }

    /// Returns the bytes of `count` pixels of row `y`, from column `x` on.
    fn pixels(&self, x: usize, y: usize, count: usize) -> &[u8]
        requires left { x + count ≤ self.now.width }
        requires top { y < self.now.height }
        ensures { result.now ≡ take (count * pixel_size self.now.format) (drop (y * self.now.stride + x * pixel_size self.now.format) self.now.bytes) }
    {
        let size = pixel_size(self.format);
        let start = y * self.stride + x * size;
        &self.bytes[start..start + count * size]
    }

    /// Returns where the first places of row `y` differ from a row of a picture, colours `0x00RRGGBB`, of which there are at most as
    /// many as the row has places; `None` where no place differs. Takes no memory.
    pub fn compare_row(&self, y: usize, row: &[u32]) -> Option<RowDifference>
        requires top { y < self.now.height }
        requires wide { length row.now ≤ self.now.width }
        ensures { MatchOption result (AreSame (colours_at self.now 0 y (length row.now)) row.now 0 (length row.now))
            (λ difference. IsDifference (colours_at self.now 0 y (length row.now)) row.now difference) }
    {
        compare_pixels(self.format, self.pixels(0, y, row.len()), row)
    }

    /// Writes the colours `0x00RRGGBB` of places of row `y`, from column `x` on, over `places`. Takes no memory.
    pub fn copy_colours(&self, x: usize, y: usize, places: &mut [u32])
        requires top { y < self.now.height }
        requires left { x + length places.old ≤ self.now.width }
        ensures { places.new ≡ colours_at self.now x y (length places.old) }
    {
        write_pixels(self.format, self.pixels(x, y, places.len()), places);
    }

    /// Returns how many places a band has.
    pub fn band_places(&self, band: Band) -> usize
        requires wide { band.to ≤ self.now.width }
        requires high { band.bottom ≤ self.now.height }
        ensures { result ≡ (band.bottom - band.top) * (band.to - band.from) }
    {
        prove!(band.to <= self.width && band.bottom <= self.height);
        band.bottom.saturating_sub(band.top) * band.to.saturating_sub(band.from)
    }

    /// Writes the colours `0x00RRGGBB` of a band's places, row by row, over as many in `colours`. Takes no memory.
    pub fn copy_band(&self, band: Band, colours: &mut [u32])
        requires wide { band.to ≤ self.now.width }
        requires high { band.bottom ≤ self.now.height }
        requires columns { band.from ≤ band.to }
        requires rows { band.top ≤ band.bottom }
        requires whole { length colours.old ≡ (band.bottom - band.top) * (band.to - band.from) }
        ensures { colours.new ≡ (piece_of self.now band).colours }
    {
        let columns = band.to - band.from;
        for row in 0..band.bottom - band.top {
            let places = &mut colours[row * columns..row * columns + columns];
            self.copy_colours(band.from, band.top + row, places);
        }
    }

    /// Returns the colour `0x00RRGGBB` of the place in column `x` of row `y`; `None` outside.
    pub fn colour(&self, x: usize, y: usize) -> Option<u32>
        ensures inside { IsSome result ↔ ((x < self.now.width) × (y < self.now.height)) }
        ensures colour { IfSome result (λ colour. colour ≡ colour_at self.now x y) }
    {
        if x < self.width && y < self.height {
            let mut place = [0];
            self.copy_colours(x, y, &mut place);
            Some(place[0])
        } else {
            None
        }
    }
}
