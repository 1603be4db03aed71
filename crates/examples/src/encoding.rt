//! Lines `encode ENCODING FORMAT W H PIXELS`, which are answered the bytes of a rectangle at the corner. The encoding is `raw`, `rre`
//! or `hextile`, the format its sixteen bytes or `-` for the server's own, and the pixels are colours as in a line `paint`.

use crate::showing::put_bytes;
use encode_hextile::encode_hextile;
use encode_raw::{Area, PixelFormat, encode_raw};
use encode_rre::encode_rre;
use play_script::{hex_bytes, hex_colours};
use std::alloc::{AllocError, Global};

/// A rectangle that is to be encoded.
#[derive(Drop)]
struct Rectangle {
    format: PixelFormat,
    area: Area,
    colours: Vec<u32>,
}

/// Reads a format from `word`: its sixteen bytes, or `-` for the server's own. Returns None if it has no format.
fn format_of(alloc: Global, word: &str) -> Result<Option<PixelFormat>, AllocError> {
    if word == "-" {
        return Ok(Some(PixelFormat::server()));
    }
    let Some(bytes) = hex_bytes(alloc, word.as_bytes())? else {
        return Ok(None);
    };
    match <[u8; 16]>::try_from(bytes.as_slice()) {
        Ok(bytes) => Ok(PixelFormat::from_bytes(&bytes).ok()),
        Err(_) => Ok(None),
    }
}

fn side_of(word: &str) -> Option<u16> {
    word.parse::<u16>().ok()
}

fn area_of(width: &str, height: &str) -> Option<Area> {
    Some(Area {
        x: 0,
        y: 0,
        w: side_of(width)?,
        h: side_of(height)?,
    })
}

/// Reads colours from `word`, where a single one stands for all `places`.
fn colours_of(alloc: Global, word: &str, places: usize) -> Result<Option<Vec<u32>>, AllocError> {
    match hex_colours(alloc, word.as_bytes())? {
        Some(colours) if colours.len() == 1 => Ok(Some(vec![in alloc; colours[0]; places]?)),
        colours => Ok(colours),
    }
}

fn rectangle_of(alloc: Global, words: &[&str]) -> Result<Option<Rectangle>, AllocError> {
    let &[format, width, height, pixels] = words else {
        return Ok(None);
    };
    let (Some(format), Some(area)) = (format_of(alloc, format)?, area_of(width, height)) else {
        return Ok(None);
    };
    let places = usize::from(area.w) * usize::from(area.h);
    match colours_of(alloc, pixels, places)? {
        Some(colours) if places > 0 && colours.len() == places => Ok(Some(Rectangle {
            format,
            area,
            colours,
        })),
        _ => Ok(None),
    }
}

/// Returns the bytes of `rectangle` in `encoding`, or None if there is no such encoding, or if the rectangle has no places or not a
/// colour for each.
fn encoded(
    alloc: Global,
    encoding: &str,
    rectangle: &Rectangle,
) -> Result<Option<Vec<u8>>, AllocError> {
    let Rectangle {
        format,
        area,
        colours,
    } = rectangle;
    let places = usize::from(area.w) * usize::from(area.h);
    if area.w == 0 || area.h == 0 || colours.len() != places {
        return Ok(None);
    }
    let mut out = Vec::new(alloc);
    match encoding {
        "raw" => encode_raw(&mut out, *area, colours, format)?,
        "rre" => encode_rre(&mut out, *area, colours, format)?,
        "hextile" => encode_hextile(&mut out, *area, colours, format)?,
        _ => return Ok(None),
    }
    Ok(Some(out))
}

/// Answers a line, of which `words` are those behind `encode`.
pub fn answer(alloc: Global, words: &[&str]) -> Result<String, AllocError> {
    let mut text = String::new(alloc);
    let [encoding, words @ ..] = words else {
        text.push_str("bad line\n")?;
        return Ok(text);
    };
    let bytes = match rectangle_of(alloc, words)? {
        Some(rectangle) => encoded(alloc, encoding, &rectangle)?,
        None => None,
    };
    match bytes {
        Some(bytes) => put_bytes(&mut text, &bytes)?,
        None => text.push_str("bad line")?,
    }
    text.push('\n')?;
    Ok(text)
}
