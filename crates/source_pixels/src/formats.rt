//! What the bytes of a pixel say.

ghost use Rattle.std.specs.Prelude.{◌≡◌, ◌↔◌, ◌≤◌, IsTrue, true};
ghost use Rattle.source_pixels.specs.Formats.{byte_count, fits, are_fitting, scaled, value_in, server_format, HasWholeBytes};

use pixel_translate::Component;

/// How many bytes a pixel has.
#[derive(Clone, Copy, Debug, PartialEq, Eq)]
pub enum BytesPerPixel {
    One,
    Two,
    Three,
    Four,
}

/// A format of pixels whose bits are a colour's components (RFC 6143, 7.4; `rfbPixelFormat` of `rfb.h`), of 8, 16, 24 or 32 bits. A
/// component is what the pixel's number has above the component's shift, and its greatest value as a mask.
#[derive(Clone, Copy, Debug, PartialEq, Eq)]
pub struct TrueColour {
    /// How many bytes a pixel has.
    pub bytes: BytesPerPixel,
    /// Whether a pixel's highest byte comes first.
    pub big_endian: bool,
    /// Where red stands in the pixel's number.
    pub red: Component,
    /// Where green does.
    pub green: Component,
    /// Where blue does.
    pub blue: Component,
}

/// What the bytes of a pixel say.
#[derive(Clone, Copy)]
pub enum SourceFormat<'a> {
    /// A colour, by its components.
    TrueColour(TrueColour),
    /// A place of a table of 1 to 256 colours `0x00RRGGBB`, in one byte (`colourMap` of `rfb.h`). Their top bytes don't count, and a
    /// place beyond the table is 0.
    Table(&'a [u32]),
}

impl BytesPerPixel {
    /// Returns the number of bytes.
    pub fn count(self) -> usize
        ensures { result ≡ byte_count self }
    {
        match self {
            BytesPerPixel::One => 1,
            BytesPerPixel::Two => 2,
            BytesPerPixel::Three => 3,
            BytesPerPixel::Four => 4,
        }
    }
}

/// Returns whether a component has a value above 0, and fits in a pixel of `bits` bits, in its place.
fn fits(bits: u32, at: Component) -> bool
    requires { bits ≤ 32 }
    ensures { result ≡ fits bits at }
{
    let room = bits.saturating_sub(u32::from(at.shift));
    at.max >= 1 && u64::from(at.max) < 1u64 << room
}

/// Returns the value of a component of 0 to 255, which needs no scale, in the pixel `number`.
pub(crate) fn whole_byte(at: Component, number: u32) -> u8
    requires max { at.max ≡ 255 }
    requires fits { fits 32 at ≡ true }
    ensures { result ≡ scaled at (value_in at number) }
{
    ((number >> at.shift) & 0xff) as u8
}

impl TrueColour {
    /// Returns the server's own format: 32 bits, the lowest byte first, red at 16, green at 8 and blue at 0, each 0 to 255. A pixel is a
    /// colour `0x00RRGGBB`.
    pub fn server() -> TrueColour
        ensures { result ≡ server_format }
    {
        TrueColour {
            bytes: BytesPerPixel::Four,
            big_endian: false,
            red: Component {
                max: 255,
                shift: 16,
            },
            green: Component { max: 255, shift: 8 },
            blue: Component { max: 255, shift: 0 },
        }
    }

    /// Returns whether each component has a value above 0, and fits in the pixel.
    pub(crate) fn fits(&self) -> bool
        ensures { result ≡ are_fitting self.now }
    {
        let bits = 8 * self.bytes.count() as u32;
        fits(bits, self.red) && fits(bits, self.green) && fits(bits, self.blue)
    }

    /// Returns whether a pixel is a colour `0x00RRGGBB`, the lowest byte first, in four bytes.
    pub(crate) fn is_direct(&self) -> bool
        ensures { IsTrue result ↔ (self.now ≡ server_format) }
    {
        *self == TrueColour::server()
    }

    /// Returns whether each component is 0 to 255.
    pub(crate) fn has_whole_bytes(&self) -> bool
        ensures { IsTrue result ↔ HasWholeBytes self.now }
    {
        self.red.max == 255 && self.green.max == 255 && self.blue.max == 255
    }
}
