//! What is kept of a text that hasn't ended.
ghost use Rattle.std.specs.Prelude.{◌≡◌, ◌+◌, ◌<◌, ◌≤◌, ◌++◌, [], length, take, min, nat_lt, vec_len, vec_capacity, IfOk};
ghost use Rattle.messages.specs.Grammar.{text_limit};

use crate::{Input, Item};
use listed::Listed;
use std::alloc::{AllocError, Global};
use std::mem;

/// How many bytes of a text are kept.
const TEXT_LIMIT: usize = 262_144;

/// A text whose length has come.
#[derive(Drop)]
pub struct Text {
    /// How many bytes the text has.
    pub length: u32,
    /// How many have come.
    pub come: u32,
    /// The first of them.
    pub bytes: Vec<u8>,
    // While bytes are to come, there is capacity for those that will be kept.
    ghost capacity: { come < length → min length text_limit ≤ vec_capacity bytes },
    ghost within: { vec_len bytes ≤ come },
}

impl Text {
    ghost use Rattle.messages.specs.declared.Item.TheVariants as item;
    ghost use Rattle.messages.specs.declared.Input.TheVariants as input;
    ghost use Rattle.messages.specs.Reading.{cut_text};
    ghost use Rattle.messages.specs.Partial.{unfinished_text};

    /// Returns a text of `length` bytes, of which none has come. Takes memory for what is kept of it.
    pub fn new(alloc: Global, length: u32) -> Result<Text, AllocError>
        ensures { IfOk result (λ t. unfinished_text t ≡ cut_text length [] 0) }
    {
        let capacity = (length as usize).min(TEXT_LIMIT);
        Ok(Text {
            length,
            come: 0,
            bytes: Vec::with_capacity(alloc, capacity)?,
        })
    }

    /// Takes bytes of the text, and keeps those of the first 262,144, for which there is capacity.
    pub fn take(&mut self, bytes: &[u8])
        requires more { self.old.come < self.old.length }
        requires fits { self.old.come + length bytes.now ≤ self.old.length }
        requires kept { length self.old.bytes.items ≤ text_limit }
        ensures { unfinished_text self.new
            ≡ cut_text self.old.length (take text_limit (self.old.bytes.items ++ bytes.now)) (self.old.come + length bytes.now) }
    {
        let missing = TEXT_LIMIT - self.bytes.len();
        self.bytes
            .extend_from_slice(&bytes[..missing.min(bytes.len())])
            .unwrap();
        self.come += bytes.len() as u32;
    }

    /// Returns how many bytes are still to come.
    pub fn missing(&self) -> usize
        requires { self.now.come ≤ self.now.length }
        ensures { self.now.come + result ≡ self.now.length }
    {
        (self.length - self.come) as usize
    }

    /// Returns what the text says, whose bytes it gives away.
    pub fn finish(&mut self, alloc: Global) -> Item
        requires { self.old.length ≤ self.old.come }
        ensures { result ≡ item.Input (input.Text self.old.bytes.items (nat_lt text_limit self.old.length)) }
    {
        let bytes = mem::replace(&mut self.bytes, Vec::new(alloc));
        Item::Input(Input::Text {
            text: Listed::from_vec(bytes),
            shortened: self.length as usize > TEXT_LIMIT,
        })
    }

    /// Returns a copy.
    pub fn try_clone(&self, alloc: Global) -> Result<Text, AllocError>
        ensures { IfOk result (λ t. unfinished_text t ≡ unfinished_text self.now) }
    {
        let mut text = Text::new(alloc, self.length)?;
        text.come = self.come;
        text.bytes.extend_from_slice(&self.bytes)?;
        Ok(text)
    }
}
