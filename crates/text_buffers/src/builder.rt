//! A text that is built part by part. That there was no memory for a part is noted, and asked for once, at the end.

ghost use Rattle.std.specs.Prelude.{◌≡◌, ◌++◌, ◌∷◌, [], Some, None, IfOk, decimal};
ghost use Rattle.text_buffers.specs.Builders.{Adds};

use crate::push_number;
use std::alloc::{AllocError, Global};
use std::marker::Model;

/// A text that is built part by part. Contracts see the text so far, and None once there was no memory for a part.
pub struct TextBuilder {
    bytes: Vec<u8>,
    is_short: bool,
}

/// Written out, so that what lets it go calls one function.
impl Drop for TextBuilder {
    fn drop(self) {
        let TextBuilder {
            bytes: _,
            is_short: _,
        } = self;
    }
}

impl Model for TextBuilder {
    ghost use Rattle.std.specs.Prelude.{ℕ, List, Option};
    ghost use Rattle.text_buffers.specs.Builders.{text_so_far};

    ghost Value = { Option (List ℕ) };

    ghost view = { λ text. text_so_far text.is_short text.bytes.items };
}

impl TextBuilder {
    /// An empty text.
    pub fn new(alloc: Global) -> TextBuilder
        ensures { result ≡ Some [] }
    {
        TextBuilder {
            bytes: Vec::new(alloc),
            is_short: false,
        }
    }

    /// Notes that there is no memory.
    pub fn fail(&mut self)
        ensures { self.new ≡ None }
    {
        self.is_short = true;
    }

    /// Adds a byte.
    pub fn push_byte(&mut self, byte: u8)
        ensures { Adds self.old (byte ∷ []) self.new }
    {
        self.is_short |= self.bytes.push(byte).is_err();
    }

    /// Adds bytes.
    pub fn push_bytes(&mut self, bytes: &[u8])
        ensures { Adds self.old bytes.now self.new }
    {
        self.is_short |= self.bytes.extend_from_slice(bytes).is_err();
    }

    /// Adds words.
    pub fn push_words(&mut self, words: &str)
        ensures { Adds self.old words.now self.new }
    {
        self.push_bytes(words.as_bytes());
    }

    /// Adds words and a number.
    pub fn push_number(&mut self, words: &str, number: u64)
        ensures { Adds self.old (words.now ++ decimal number) self.new }
    {
        self.is_short |= push_number(&mut self.bytes, words, number).is_err();
    }

    /// The whole text. Errors where there was no memory for a part.
    pub fn end(self) -> Result<Vec<u8>, AllocError>
        ensures { IfOk result (λ text. self ≡ Some text.items) }
    {
        let TextBuilder { bytes, is_short } = self;
        if is_short {
            return Err(AllocError);
        }
        Ok(bytes)
    }
}
