//! A program's own pixels, as another language lays them out.

ghost use Rattle.std.specs.Prelude.{◌≡◌, length, Some, None, IfOk, IfErr, OnOk};
ghost use Rattle.source_pixels.specs.declared.formats.SourceFormat.TheVariants as kind;
ghost use Rattle.c_screen.specs.Pixels as pixels;

use screen::{BytesPerPixel, Component, PixelSource, SourceError, SourceFormat, TrueColour};
use std::mem::size_of;

/// The format is none: a component has no value above 0, has one of more than 16 bits, or doesn't fit in the pixel; a pixel isn't of 1 to 4
/// bytes; a table has more than 256 colours, or stands beside a layout; or there are several layouts.
pub const BAD_FORMAT: i32 = -17;

/// A row's pixels take more bytes than there are from one row to the next.
pub const BAD_STRIDE: i32 = -18;

/// There are fewer bytes than the rows take.
pub const TOO_FEW_BYTES: i32 = -19;

/// A format of pixels whose bits are a colour's components (`rfbPixelFormat` of `rfb.h`): of how many bytes a pixel is, 1 to 4; whether
/// its highest byte comes first, 0 for no; and of each component the greatest value, which is its mask, and by how many bits it is shifted.
#[repr(C)]
#[derive(Clone, Copy)]
pub struct PixelLayout {
    pub bytes_per_pixel: u32,
    pub big_endian: u32,
    pub red_max: u32,
    pub green_max: u32,
    pub blue_max: u32,
    pub red_shift: u32,
    pub green_shift: u32,
    pub blue_shift: u32,
}

// As `vnc_pixel_format` of C.
const _: () = prove!(size_of::<PixelLayout>() == 32);

fn bytes_of(count: u32) -> Option<BytesPerPixel>
    ensures { result ≡ pixels.bytes_of count }
{
    match count {
        1 => Some(BytesPerPixel::One),
        2 => Some(BytesPerPixel::Two),
        3 => Some(BytesPerPixel::Three),
        4 => Some(BytesPerPixel::Four),
        _ => None,
    }
}

/// Returns the component with `max` and `shift`; None if `max` has more than 16 bits, or `shift` more than 8.
fn component_of(max: u32, shift: u32) -> Option<Component>
    ensures { result ≡ pixels.component_of max shift }
{
    if max > 0xffff || shift > 0xff {
        return None;
    }
    Some(Component {
        max: max as u16,
        shift: shift as u8,
    })
}

fn true_colour_of(layout: PixelLayout) -> Option<TrueColour>
    ensures { result ≡ pixels.true_colour_of layout }
{
    let bytes = bytes_of(layout.bytes_per_pixel)?;
    let red = component_of(layout.red_max, layout.red_shift)?;
    let green = component_of(layout.green_max, layout.green_shift)?;
    let blue = component_of(layout.blue_max, layout.blue_shift)?;
    Some(TrueColour {
        bytes,
        big_endian: layout.big_endian != 0,
        red,
        green,
        blue,
    })
}

/// Returns what a pixel's bytes say: by the one of `layouts`, by `table` where there is none, and where there is neither, as
/// `TrueColour::server` does. Returns None for a layout that is no format, for more than one, and for one beside a table.
fn format_of<'a>(layouts: &[PixelLayout], table: &'a [u32]) -> Option<SourceFormat<'a>>
    ensures { result ≡ pixels.format_of layouts.now (length table.now) (kind.Table table.entry) }
{
    if layouts.is_empty() {
        if table.is_empty() {
            return Some(SourceFormat::TrueColour(TrueColour::server()));
        }
        return Some(SourceFormat::Table(table));
    }
    if layouts.len() > 1 || !table.is_empty() {
        return None;
    }
    let layout = true_colour_of(layouts[0])?;
    Some(SourceFormat::TrueColour(layout))
}

fn source_code(refusal: SourceError) -> i32
    ensures { result ≡ pixels.source_code refusal }
{
    match refusal {
        SourceError::BadComponent | SourceError::BadTable => BAD_FORMAT,
        SourceError::StrideTooShort => BAD_STRIDE,
        SourceError::TooFewBytes => TOO_FEW_BYTES,
    }
}

/// Returns pixels of `width` columns and `height` rows in `bytes`, with `stride` bytes from one row to the next, in the format that
/// `layouts` and `table` say; or the code of the refusal: `BAD_FORMAT`, `BAD_STRIDE` or `TOO_FEW_BYTES`.
pub fn source_of<'a>(
    bytes: &'a [u8],
    stride: u64,
    width: u32,
    height: u32,
    layouts: &[PixelLayout],
    table: &'a [u32],
) -> Result<PixelSource<'a>, i32>
    ensures source { IfOk result (λ source. pixels.source_from width height stride bytes.now (pixels.format_of layouts.now (length table.now) (kind.Table table.entry)) ≡ Some source) }
    ensures accepted { OnOk result (pixels.source_due (pixels.source_from width height stride bytes.now (pixels.format_of layouts.now (length table.now) (kind.Table table.entry))) ≡ None) }
    ensures refused { IfErr result (λ refusal. pixels.source_due (pixels.source_from width height stride bytes.now (pixels.format_of layouts.now (length table.now) (kind.Table table.entry))) ≡ Some refusal) }
{
    let Some(format) = format_of(layouts, table) else {
        return Err(BAD_FORMAT);
    };
    match PixelSource::new(
        bytes,
        stride as usize,
        width as usize,
        height as usize,
        format,
    ) {
        Ok(source) => Ok(source),
        Err(refusal) => Err(source_code(refusal)),
    }
}
