//! A text of a source.

ghost use Rattle.std.specs.Prelude.{◌≡◌, ◌==◌, ◌≤◌, [], length, OnOk, OnErr};
ghost use Rattle.source_picture.specs.Texts.{with_bytes};

use screen::LONGEST_TEXT;
use std::alloc::{AllocError, Global};
use std::marker::Model;

/// A text of the source that comes: its first 65,536 bytes, and how many bytes are to come.
#[derive(Drop)]
pub(crate) struct Text {
    kept: Vec<u8>,
    left: u32,
}

impl Model for Text {
    ghost use Rattle.std.specs.Prelude.{◌≤◌, length};
    ghost use Rattle.source_picture.specs.Texts.{TextView, longest_text};

    ghost Value = { TextView };

    ghost view = { λ a. record { kept = a.kept.items; left = a.left } };

    ghost invariant = { λ a. length a.kept.items ≤ longest_text };
}

impl Text {
    /// Returns a text without bytes, of which none are to come.
    pub fn new(alloc: Global) -> Text
        ensures { result ≡ record { kept = []; left = 0 } }
    {
        Text {
            kept: Vec::new(alloc),
            left: 0,
        }
    }

    /// Begins a text of `length` bytes.
    pub fn begin(&mut self, length: u32)
        ensures { self.new ≡ record { kept = []; left = length } }
    {
        self.kept.clear();
        self.left = length;
    }

    /// Takes further bytes. If memory is refused nothing has changed.
    pub fn add(&mut self, bytes: &[u8]) -> Result<(), AllocError>
        ensures ok { OnOk result (self.new ≡ with_bytes bytes.now self.old) }
        ensures err { OnErr result (self.new ≡ self.old) }
    {
        let count = bytes.len().min(self.left as usize);
        let room = LONGEST_TEXT.saturating_sub(self.kept.len());
        self.kept.extend_from_slice(&bytes[..count.min(room)])?;
        self.left -= count as u32;
        Ok(())
    }

    /// Returns whether all of it came.
    pub fn is_whole(&self) -> bool
        ensures { result ≡ (self.now.left == 0) }
    {
        self.left == 0
    }

    /// Returns its first 65,536 bytes, as far as they came.
    pub fn bytes(&self) -> &[u8]
        ensures bytes { result.now ≡ self.now.kept }
        ensures few { length result.now ≤ 65536 }
    {
        &self.kept
    }
}
