//! Colours translated by table: for each component, what each of its 256 values gives.

ghost use Rattle.std.specs.Prelude.{◌≡◌, ℕ, ◌<◌, ◌^◌, slice_index};
ghost use Rattle.pixel_translate.specs.Pixel.{pixel, component, bit_count, bits_of};

use crate::{BitsPerPixel, Component, PixelFormat, placed};
use std::marker::Model;

/// A pixel format with its translations worked out, for many colours. Contracts see it as the format.
#[derive(Drop)]
pub struct Table {
    format: PixelFormat,
    red: [u32; 256],
    green: [u32; 256],
    blue: [u32; 256],
}

impl Model for Table {
    ghost use Rattle.pixel_translate.specs.declared.PixelFormat.{PixelFormat};
    ghost use Rattle.pixel_translate.specs.Tables.{IsTableOf};

    ghost Value = { PixelFormat };

    ghost view = { λ t. t.format };

    ghost invariant = { λ t. IsTableOf t.format t.red t.green t.blue };
}

/// Returns what each value gives in the component `at`.
fn scaled(bits: BitsPerPixel, at: Component) -> [u32; 256]
    ensures { (k : ℕ) → k < 256 → slice_index result k ≡ component bits at k }
{
    let mut row = [0u32; 256];
    for value in 0..256usize {
        row[value] = placed(bits, at, value as u8);
    }
    row
}

impl Table {
    /// Makes the table of `format`.
    pub fn new(format: &PixelFormat) -> Table
        ensures { result ≡ format.now }
    {
        Table {
            format: *format,
            red: scaled(format.bits(), format.red()),
            green: scaled(format.bits(), format.green()),
            blue: scaled(format.bits(), format.blue()),
        }
    }

    /// Returns the format of the table.
    pub fn format(&self) -> PixelFormat
        ensures { result ≡ self.now }
    {
        self.format
    }

    /// Returns the pixel of `colour`, which is `0x00RRGGBB`.
    #[tactic(auto, using(crate::specs::Bounds::pixel_below))]
    pub fn translate(&self, colour: u32) -> u32
        ensures pixel { result ≡ pixel self.now colour }
        ensures below { result < 2 ^ bit_count (bits_of self.now) }
    {
        let [_, red, green, blue] = colour.to_be_bytes();
        self.red[usize::from(red)] | self.green[usize::from(green)] | self.blue[usize::from(blue)]
    }
}
