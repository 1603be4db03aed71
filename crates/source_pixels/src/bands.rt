//! Rows that differ, gathered from the top into few rectangles.

ghost use Rattle.std.specs.Prelude.{◌≡◌, IsTrue, OnOk};
ghost use Rattle.source_pixels.specs.Bands.{IsJoint, IsThrifty, Adds};

use std::alloc::AllocError;

/// Places that a join may add, besides as many as there are in the rows' own spans: a rectangle's head costs a viewer about as much.
const SLACK: usize = 64;

/// How many places rows that are joined have at most, so that the colours of a rectangle of several rows, of four bytes each, stay in
/// a processor's cache from when they are written to when they are read.
pub const MOST_PLACES: usize = 16_384;

/// The columns from one to below another, in the rows from one to below another.
#[derive(Clone, Copy)]
pub struct Band {
    /// The first row.
    pub top: usize,
    /// The row below the last.
    pub bottom: usize,
    /// The first column.
    pub from: usize,
    /// The column behind the last.
    pub to: usize,
    /// How many places its rows have from their first to their last that differs.
    pub spans: usize,
}

/// Returns whether a band of several rows is not far larger than what differs in them, nor too large for a cache.
fn is_thrifty(band: Band) -> bool
    ensures { IsTrue result → IsThrifty band }
{
    let columns = band.to.saturating_sub(band.from);
    let places = columns.saturating_mul(band.bottom.saturating_sub(band.top));
    places <= MOST_PLACES && places <= band.spans.saturating_mul(2).saturating_add(SLACK)
}

/// Returns `band` and `row`, which lies directly below it, as one.
fn join(band: Band, row: Band) -> Band
    ensures { band.bottom ≡ row.top → IsJoint band row result }
{
    Band {
        top: band.top,
        bottom: row.bottom,
        from: band.from.min(row.from),
        to: band.to.max(row.to),
        spans: band.spans.saturating_add(row.spans),
    }
}

/// Puts a row behind the bands above it, or joins it with the last where it lies directly below that one, and both are not far larger
/// than what differs in them, nor too large for a cache. Refused for want of memory alone.
pub(crate) fn add(bands: &mut Vec<Band>, row: Band) -> Result<(), AllocError>
    ensures { OnOk result (Adds bands.old.items row bands.new.items) }
{
    let count = bands.len();
    if count > 0 && bands[count - 1].bottom == row.top {
        let joint = join(bands[count - 1], row);
        if is_thrifty(joint) {
            bands[count - 1] = joint;
            return Ok(());
        }
    }
    bands.push(row)?;
    Ok(())
}
