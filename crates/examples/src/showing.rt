//! What a test viewer shows, as text: a line a row, a place a word, its pixel in hexadecimal digits, two for each byte, or `.`
//! where nothing is shown.

use rfb_viewer::Shown;
use std::alloc::AllocError;

/// Appends the two hexadecimal digits of `byte`.
fn put_byte(text: &mut String, byte: u8) -> Result<(), AllocError> {
    write!(text, "{byte:02x}")
}

/// Appends the hexadecimal digits of `bytes`, or `-` if there are none.
pub fn put_bytes(text: &mut String, bytes: &[u8]) -> Result<(), AllocError> {
    if bytes.is_empty() {
        return text.push('-');
    }
    for byte in bytes {
        put_byte(text, *byte)?;
    }
    Ok(())
}

fn put_place(text: &mut String, shown: &Shown, x: u32, y: u32) -> Result<(), AllocError> {
    match shown.place(x, y) {
        Some((format, pixel)) => {
            let [first, second, third, fourth] = pixel.to_be_bytes();
            match format.bytes_per_pixel() {
                1 => put_bytes(text, &[fourth]),
                2 => put_bytes(text, &[third, fourth]),
                _ => put_bytes(text, &[first, second, third, fourth]),
            }
        }
        None => text.push('.'),
    }
}

fn put_row(text: &mut String, shown: &Shown, width: u32, y: u32) -> Result<(), AllocError> {
    for x in 0..width {
        if x > 0 {
            text.push(' ')?;
        }
        put_place(text, shown, x, y)?;
    }
    text.push('\n')
}

/// Appends what each place of `width` columns and `height` rows shows.
pub fn put_places(
    text: &mut String,
    shown: &Shown,
    width: u32,
    height: u32,
) -> Result<(), AllocError> {
    for y in 0..height {
        put_row(text, shown, width, y)?;
    }
    Ok(())
}
