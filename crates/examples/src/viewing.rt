//! Lines to a test viewer: `viewer VERSION` makes it, `told HEX` tells it bytes, `request INCREMENTAL X Y W H` and `format HEX` have
//! it ask and choose, `shows W H` and `counts` look at it.

use crate::showing::{put_bytes, put_places};
use play_script::hex_bytes;
use rfb_viewer::{Area, PixelFormat, Shown, Version};
use std::alloc::{AllocError, Global};

/// A test viewer that hears its bytes in pieces of at most `length`.
#[derive(Drop)]
pub struct Viewing {
    alloc: Global,
    length: usize,
    shown: Option<Shown>,
}

fn version_of(word: &str) -> Option<Version> {
    match word {
        "3.3" => Some(Version::V33),
        "3.7" => Some(Version::V37),
        "3.8" => Some(Version::V38),
        _ => None,
    }
}

/// Tells the viewer the bytes in pieces of at most `length`, and appends `ok`, or the fault that it has then.
fn put_told(
    text: &mut String,
    shown: &mut Shown,
    bytes: &[u8],
    length: usize,
) -> Result<(), AllocError> {
    for piece in bytes.chunks(length.max(1)) {
        // The same fault comes again below.
        let _ = shown.told(piece);
    }
    match shown.told(b"") {
        Ok(()) => text.push_str("ok"),
        Err(fault) => write!(text, "fault {:?} {}", fault.kind, fault.at),
    }
}

fn number(word: Option<&&str>) -> Option<u16> {
    word?.parse::<u16>().ok()
}

fn area_of(words: &[&str]) -> Option<Area> {
    Some(Area {
        x: number(words.get(1))?,
        y: number(words.get(2))?,
        w: number(words.get(3))?,
        h: number(words.get(4))?,
    })
}

/// Appends whether the viewer is open, and how many updates and texts it has read whole.
fn put_counts(text: &mut String, shown: &Shown) -> Result<(), AllocError> {
    let opened = if shown.is_open() { "open" } else { "opening" };
    let (updates, texts) = (shown.updates(), shown.texts());
    write!(text, "{opened} updates {updates} texts {texts}")
}

impl Viewing {
    pub fn new(alloc: Global, length: usize) -> Viewing {
        Viewing {
            alloc,
            length,
            shown: None,
        }
    }

    fn make(&mut self, text: &mut String, word: &str) -> Result<(), AllocError> {
        match version_of(word) {
            Some(version) => {
                self.shown = Some(Shown::new(self.alloc, version));
                text.push_str("ok")
            }
            None => text.push_str("bad line"),
        }
    }

    fn told(&mut self, text: &mut String, word: &str) -> Result<(), AllocError> {
        match (&mut self.shown, hex_bytes(self.alloc, word.as_bytes())?) {
            (Some(shown), Some(bytes)) => put_told(text, shown, &bytes, self.length),
            _ => text.push_str("bad line"),
        }
    }

    fn request(&mut self, text: &mut String, words: &[&str]) -> Result<(), AllocError> {
        match (&mut self.shown, area_of(words)) {
            (Some(shown), Some(area)) => {
                let incremental = words.first() == Some(&"1");
                put_bytes(text, &shown.request(area, incremental))
            }
            _ => text.push_str("bad line"),
        }
    }

    fn format(&mut self, text: &mut String, word: &str) -> Result<(), AllocError> {
        let bytes = hex_bytes(self.alloc, word.as_bytes())?;
        match (&mut self.shown, bytes.and_then(|bytes| format_in(&bytes))) {
            (Some(shown), Some(format)) => put_bytes(text, &shown.format(&format)),
            _ => text.push_str("bad line"),
        }
    }

    fn places(&self, text: &mut String, words: &[&str]) -> Result<(), AllocError> {
        match (&self.shown, number(words.first()), number(words.get(1))) {
            (Some(shown), Some(width), Some(height)) => {
                put_places(text, shown, u32::from(width), u32::from(height))
            }
            _ => text.push_str("bad line\n"),
        }
    }

    fn counts(&self, text: &mut String) -> Result<(), AllocError> {
        match &self.shown {
            Some(shown) => put_counts(text, shown),
            None => text.push_str("bad line"),
        }
    }

    /// Answers a line of these `words`.
    pub fn answer(&mut self, words: &[&str]) -> Result<String, AllocError> {
        let mut text = String::new(self.alloc);
        let [verb, words @ ..] = words else {
            return Ok(text);
        };
        let first = words.first().copied().unwrap_or("");
        match *verb {
            "viewer" => self.make(&mut text, first)?,
            "told" => self.told(&mut text, first)?,
            "request" => self.request(&mut text, words)?,
            "format" => self.format(&mut text, first)?,
            "counts" => self.counts(&mut text)?,
            "shows" => {
                self.places(&mut text, words)?;
                return Ok(text);
            }
            _ => text.push_str("bad line")?,
        }
        text.push('\n')?;
        Ok(text)
    }
}

fn format_in(bytes: &[u8]) -> Option<PixelFormat> {
    match <[u8; 16]>::try_from(bytes) {
        Ok(bytes) => PixelFormat::from_bytes(&bytes).ok(),
        Err(_) => None,
    }
}
