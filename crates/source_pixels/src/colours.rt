//! The colours of pixels of each size.

ghost use Rattle.std.specs.Prelude.{◌≡◌, ℕ, true, false, slice_index};
ghost use Rattle.source_pixels.specs.declared.formats.TrueColour.{TrueColour};
ghost use Rattle.source_pixels.specs.Formats.{are_fitting, number_of, true_colour, table_colour, server_format, HasWholeBytes};

use crate::formats::{TrueColour, whole_byte};
use crate::scales::Scale;

/// What gives the colours `0x00RRGGBB` of pixels.
pub(crate) trait Colours<P: Copy> {
    /// Returns the colour of `pixel`.
    ghost colour_of: { Self → P → ℕ };

    fn colour(&self, pixel: P) -> u32
        ensures { result ≡ colour_of self.now pixel };
}

/// Pixels in the server's own format, whose colours stand in them.
#[derive(Drop)]
pub(crate) struct Direct;

/// Pixels whose components fit, with what scales their values.
#[derive(Drop)]
pub(crate) struct Components {
    format: TrueColour,
    red: Scale,
    green: Scale,
    blue: Scale,
    ghost red_is: { red.at ≡ format.red },
    ghost green_is: { green.at ≡ format.green },
    ghost blue_is: { blue.at ≡ format.blue },
}

impl Components {
    pub fn new(format: TrueColour) -> Components
        requires { are_fitting format ≡ true }
        ensures { result.format ≡ format }
    {
        Components {
            format,
            red: Scale::new(format.red),
            green: Scale::new(format.green),
            blue: Scale::new(format.blue),
        }
    }

    /// Returns the colour `0x00RRGGBB` of the pixel with this number.
    fn colour_by(&self, number: u32) -> u32
        ensures { result ≡ true_colour self.now.format number }
    {
        let red = self.red.value(number);
        let green = self.green.value(number);
        let blue = self.blue.value(number);
        u32::from_be_bytes([0, red, green, blue])
    }
}

/// Pixels whose components fit, and are 0 to 255.
#[derive(Drop)]
pub(crate) struct WholeBytes {
    pub format: TrueColour,
    ghost fitting: { are_fitting format ≡ true },
    ghost whole: { HasWholeBytes format },
}

/// Pixels that are places of a table.
#[derive(Drop)]
pub(crate) struct Places<'a> {
    pub table: &'a [u32],
}

impl Colours<[u8; 4]> for Direct {
    ghost colour_of = { λ s pixel. true_colour server_format (number_of false pixel) };

    fn colour(&self, pixel: [u8; 4]) -> u32 {
        u32::from_le_bytes(pixel) & 0xff_ffff
    }
}

/// Returns the number of one byte, in either order.
fn number_1(big_endian: bool, bytes: [u8; 1]) -> u32
    ensures { result ≡ number_of big_endian bytes }
{
    let [only] = bytes;
    if big_endian {
        u32::from_be_bytes([0, 0, 0, only])
    } else {
        u32::from_le_bytes([only, 0, 0, 0])
    }
}

/// Returns the number of two bytes.
fn number_2(big_endian: bool, bytes: [u8; 2]) -> u32
    ensures { result ≡ number_of big_endian bytes }
{
    let [first, second] = bytes;
    if big_endian {
        u32::from_be_bytes([0, 0, first, second])
    } else {
        u32::from_le_bytes([first, second, 0, 0])
    }
}

/// Returns the number of three bytes.
fn number_3(big_endian: bool, bytes: [u8; 3]) -> u32
    ensures { result ≡ number_of big_endian bytes }
{
    let [first, second, third] = bytes;
    if big_endian {
        u32::from_be_bytes([0, first, second, third])
    } else {
        u32::from_le_bytes([first, second, third, 0])
    }
}

/// Returns the number of four bytes.
fn number_4(big_endian: bool, bytes: [u8; 4]) -> u32
    ensures { result ≡ number_of big_endian bytes }
{
    if big_endian {
        u32::from_be_bytes(bytes)
    } else {
        u32::from_le_bytes(bytes)
    }
}

impl Colours<[u8; 4]> for WholeBytes {
    ghost colour_of = { λ s pixel. true_colour s.format (number_of s.format.big_endian pixel) };

    fn colour(&self, pixel: [u8; 4]) -> u32 {
        let number = number_4(self.format.big_endian, pixel);
        let red = whole_byte(self.format.red, number);
        let green = whole_byte(self.format.green, number);
        let blue = whole_byte(self.format.blue, number);
        u32::from_be_bytes([0, red, green, blue])
    }
}

impl Colours<[u8; 1]> for Components {
    ghost colour_of = { λ s pixel. true_colour s.format (number_of s.format.big_endian pixel) };

    fn colour(&self, pixel: [u8; 1]) -> u32 {
        self.colour_by(number_1(self.format.big_endian, pixel))
    }
}

impl Colours<[u8; 2]> for Components {
    ghost colour_of = { λ s pixel. true_colour s.format (number_of s.format.big_endian pixel) };

    fn colour(&self, pixel: [u8; 2]) -> u32 {
        self.colour_by(number_2(self.format.big_endian, pixel))
    }
}

impl Colours<[u8; 3]> for Components {
    ghost colour_of = { λ s pixel. true_colour s.format (number_of s.format.big_endian pixel) };

    fn colour(&self, pixel: [u8; 3]) -> u32 {
        self.colour_by(number_3(self.format.big_endian, pixel))
    }
}

impl Colours<[u8; 4]> for Components {
    ghost colour_of = { λ s pixel. true_colour s.format (number_of s.format.big_endian pixel) };

    fn colour(&self, pixel: [u8; 4]) -> u32 {
        self.colour_by(number_4(self.format.big_endian, pixel))
    }
}

impl<'a> Colours<[u8; 1]> for Places<'a> {
    ghost colour_of = { λ s pixel. table_colour s.table.now (slice_index pixel 0) };

    fn colour(&self, pixel: [u8; 1]) -> u32 {
        let place = usize::from(pixel[0]);
        self.table.get(place).copied().unwrap_or(0) & 0xff_ffff
    }
}
