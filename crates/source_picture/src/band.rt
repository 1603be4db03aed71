//! Small areas that lie side by side, and wait to be taken into the picture together.

ghost use Rattle.std.specs.Prelude.{◌≡◌, ℕ, ◌+◌, ◌-◌, ◌*◌, ◌<◌, ◌≤◌, max, true, if◌then◌else◌, [], length, slice_index, OnOk, OnErr};
ghost use Rattle.encode_raw.specs.Reading.{is_inside};
ghost use Rattle.server_reader.specs.Groups.{pixel_in};
ghost use Rattle.source_picture.specs.Bands.{no_band, beside, GoesOnWith, IsSmall};

use pixel_translate::Area;
use std::alloc::{AllocError, Global};
use std::marker::Model;

/// How many columns a band has at most.
const COLUMNS: usize = 2048;

/// How many rows a band has at most: those of a tile of Hextile (RFC 6143, 7.7.4).
const ROWS: usize = 16;

/// How many bytes a pixel has.
const PIXEL: usize = 4;

/// How many bytes a row takes.
pub(crate) const STRIDE: usize = PIXEL * COLUMNS;

/// The pixels of an area, which wait: four bytes each, the lowest first. Nothing waits where the area has no columns.
#[derive(Drop)]
pub(crate) struct Band {
    area: Area,
    bytes: Vec<u8>,
}

impl Model for Band {
    ghost use Rattle.source_picture.specs.Bands.{BandView, IsBand};

    ghost Value = { BandView };

    ghost view = { λ b. record { area = b.area; bytes = b.bytes.items } };

    ghost invariant = { λ b. IsBand (record { area = b.area; bytes = b.bytes.items }) };
}

/// Writes bytes over those from a place on.
fn put_row(bytes: &mut Vec<u8>, at: usize, row: &[u8])
    requires { at + length row.now ≤ length bytes.old.items }
    ensures long { length bytes.new.items ≡ length bytes.old.items }
    ensures row { (k : ℕ) → at ≤ k → k < at + length row.now → slice_index bytes.new.items k ≡ slice_index row.now (k - at) }
    ensures before { (k : ℕ) → k < at → slice_index bytes.new.items k ≡ slice_index bytes.old.items k }
    ensures behind { (k : ℕ) → at + length row.now ≤ k → slice_index bytes.new.items k ≡ slice_index bytes.old.items k }
{
    bytes[at..at + row.len()].copy_from_slice(row);
}

impl Band {
    /// Returns a band without columns, which takes no memory yet.
    pub fn new(alloc: Global) -> Band
        ensures { result ≡ no_band }
    {
        let area = Area {
            x: 0,
            y: 0,
            w: 0,
            h: 0,
        };
        Band {
            area,
            bytes: Vec::new(alloc),
        }
    }

    /// Returns where it lies.
    pub fn area(&self) -> Area
        ensures area { result ≡ self.now.area }
        ensures wide { result.w ≤ 2048 }
        ensures high { result.h ≤ 16 }
        ensures room { 0 < result.w → length self.now.bytes ≡ 131072 }
    {
        self.area
    }

    /// Returns its rows of 2048 pixels.
    pub fn bytes(&self) -> &[u8]
        ensures { result.now ≡ self.now.bytes }
    {
        &self.bytes
    }

    /// Has nothing wait.
    pub fn clear(&mut self)
        ensures area { self.new.area ≡ record self.old.area { w = 0 } }
        ensures bytes { self.new.bytes ≡ self.old.bytes }
    {
        self.area.w = 0;
    }

    /// Returns whether an area lies in it, or goes on with it to the right. Nothing goes on with a band without columns.
    pub fn takes(&self, area: Area) -> bool
        ensures goes_on { result ≡ true → GoesOnWith self.now.area area }
        ensures room { result ≡ true → length self.now.bytes ≡ 131072 }
        ensures wide { self.now.area.w ≤ 2048 }
    {
        if self.area.w == 0 || area.x < self.area.x || area.y < self.area.y {
            return false;
        }
        let (left, top) = (area.x - self.area.x, area.y - self.area.y);
        let right = usize::from(left) + usize::from(area.w);
        let bottom = usize::from(top) + usize::from(area.h);
        if bottom > usize::from(self.area.h) {
            return false;
        }
        let is_beside = left <= self.area.w && right <= COLUMNS;
        let is_as_high = top == 0 && area.h == self.area.h;
        right <= usize::from(self.area.w) || (is_beside && is_as_high)
    }

    /// Begins anew at an area, of which nothing waits yet. If memory is refused nothing has changed.
    pub fn begin(&mut self, area: Area) -> Result<(), AllocError>
        requires { IsSmall area }
        ensures area { OnOk result (self.new.area ≡ record area { w = 0 }) }
        ensures room { OnOk result (length self.new.bytes ≡ 131072) }
        ensures goes_on { OnOk result (GoesOnWith self.new.area area) }
        ensures err { OnErr result (self.new ≡ self.old) }
    {
        self.bytes.resize(STRIDE * ROWS, 0)?;
        self.area = Area { w: 0, ..area };
        Ok(())
    }

    /// Has an area's pixels wait, whose rows begin a stride of bytes behind the one above.
    pub fn put(&mut self, area: Area, rows: &[u8], stride: usize)
        requires goes_on { GoesOnWith self.old.area area }
        requires room { length self.old.bytes ≡ 131072 }
        requires enough { (y : ℕ) → y < area.h → stride * y + 4 * area.w ≤ length rows.now }
        requires few { stride * area.h < 1048576 }
        ensures area { self.new.area ≡ record self.old.area { w = max self.old.area.w (area.x - self.old.area.x + area.w) } }
        ensures pixels { (x y : ℕ) → x < 2048 → pixel_in self.new.bytes (4 * (y * 2048 + x))
            ≡ (if is_inside (beside self.old.area area) x y then pixel_in rows.now (stride * (y - (area.y - self.old.area.y)) + 4 * (x - (area.x - self.old.area.x)))
            else pixel_in self.old.bytes (4 * (y * 2048 + x))) }
    {
        let left = PIXEL * usize::from(area.x - self.area.x);
        let top = usize::from(area.y - self.area.y);
        let length = PIXEL * usize::from(area.w);
        for row in 0..usize::from(area.h) {
            let at = STRIDE * (top + row) + left;
            let from = stride * row;
            put_row(&mut self.bytes, at, &rows[from..from + length]);
        }
        self.area.w = self.area.w.max(area.x - self.area.x + area.w);
    }
}
