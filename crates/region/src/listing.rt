//! The rectangles of bands, as a list.

ghost use Rattle.std.specs.Prelude.{◌≡◌, ◌≤◌, ◌++◌, [], OnOk, map, length, take, drop, false};
ghost use Rattle.region_bands.specs.Bands.{reading, first_row};
ghost use Rattle.region_sets.specs.Sets.{AreBands};
ghost use Rattle.region.specs.RegionView.{only};
ghost use Rattle.std.specs.Option.{option_map};
ghost use Rattle.region.specs.Region.{reversed_if};
ghost use Rattle.region.specs.Rects.{rect_of, rect_in, rects_in, lines_in};

use crate::Rect;
use region_bands::{Interval, Reader, Rows};
use region_sets::Rectangle;
use std::alloc::AllocError;

fn rect_of(rows: Rows, columns: Interval) -> Rect
    ensures { result ≡ rect_of rows columns }
{
    Rect {
        x1: columns.from,
        y1: rows.top,
        x2: columns.to,
        y2: rows.bottom,
    }
}

/// Returns the same rectangle, as regions have it.
pub(crate) fn rect_of_bounds(found: Option<Rectangle>) -> Option<Rect>
    ensures { result ≡ option_map rect_in found }
{
    let bounds = found?;
    Some(rect_of(bounds.rows, bounds.columns))
}

// Appends a rectangle for each interval that is left of the reader's first band, which has the rows `rows`.
fn push_band(out: &mut Vec<Rect>, bands: &mut Reader, rows: Rows) -> Result<(), AllocError>
    ensures rects { OnOk result (out.new.items ≡ out.old.items ++ map (rect_of rows) bands.old.left) }
    ensures read { OnOk result (bands.new ≡ record bands.old { left = [] }) }
{
    while let Some(columns) = bands.first_left() {
        bands.skip_left();
        out.push(rect_of(rows, columns))?;
    }
    Ok(())
}

/// Reverses the list if `reverse`.
pub(crate) fn reverse_if(rects: &mut [Rect], reverse: bool)
    ensures { rects.new ≡ reversed_if reverse rects.old }
{
    if reverse {
        rects.reverse();
    }
}

// Reverses the list from the index `start` on if `reverse`.
fn reverse_from(rects: &mut [Rect], start: usize, reverse: bool)
    requires { start ≤ length rects.old }
    ensures { rects.new ≡ take start rects.old ++ reversed_if reverse (drop start rects.old) }
{
    reverse_if(&mut rects[start..], reverse);
}

// Does the same as `push_band`, from the right if `reverse_x`.
fn push_line(
    out: &mut Vec<Rect>,
    bands: &mut Reader,
    rows: Rows,
    reverse_x: bool,
) -> Result<(), AllocError>
    ensures rects { OnOk result (out.new.items ≡ out.old.items ++ reversed_if reverse_x (map (rect_of rows) bands.old.left)) }
    ensures read { OnOk result (bands.new ≡ record bands.old { left = [] }) }
{
    let start = out.len();
    push_band(out, bands, rows)?;
    reverse_from(out, start, reverse_x);
    Ok(())
}

/// Appends the rectangles of all bands that are to be read, band by band from the top, each from the left, or from the right if
/// `reverse_x`.
pub(crate) fn push_rects(
    out: &mut Vec<Rect>,
    bands: &mut Reader,
    reverse_x: bool,
) -> Result<(), AllocError>
    requires { bands.old.left ≡ first_row bands.old.bands }
    ensures { OnOk result (out.new.items ≡ out.old.items ++ lines_in reverse_x bands.old.bands) }
{
    while let Some(rows) = bands.first_rows() {
        push_line(out, bands, rows, reverse_x)?;
        bands.advance();
    }
    Ok(())
}

/// Appends the rectangles of the bands that are to be read, band by band from the top, each from the left, until the list has
/// `most` rectangles or more.
pub(crate) fn push_first(
    out: &mut Vec<Rect>,
    bands: &mut Reader,
    most: usize,
) -> Result<(), AllocError>
    requires { bands.old.left ≡ first_row bands.old.bands }
    ensures { OnOk result (take most out.new.items ≡ take most (out.old.items ++ lines_in false bands.old.bands)) }
{
    while let Some(rows) = bands.first_rows() {
        if most <= out.len() {
            return Ok(());
        }
        push_band(out, bands, rows)?;
        bands.advance();
    }
    Ok(())
}

/// Returns the only rectangle of the bands that are to be read; `None` if there is none, or more than one.
pub(crate) fn only_rect(bands: &mut Reader) -> Option<Rect>
    requires bands { AreBands bands.old.bands }
    requires left { bands.old.left ≡ first_row bands.old.bands }
    ensures { result ≡ only (rects_in bands.old.bands) }
{
    let rows = bands.first_rows()?;
    let columns = bands.first_left()?;
    bands.skip_left();
    if bands.first_left().is_some() {
        return None;
    }
    bands.advance();
    if bands.first_rows().is_some() {
        return None;
    }
    Some(rect_of(rows, columns))
}
