//! A text that is built part by part, as a [`TextBuilder`](text_buffers::TextBuilder) builds bytes. That there was no memory for a part is
//! noted, and told once, at the end.

ghost use Rattle.std.specs.Prelude.{◌≡◌, ◌++◌, [], Some, IfOk, decimal};
ghost use Rattle.std.specs.Option.{option_map};
ghost use Rattle.serde_json.specs.Data.{string};
ghost use Rattle.serde_json.specs.View.{view};
ghost use Rattle.text_buffers.specs.Builders.{Adds};

use itoa::Buffer;
use serde_json::Value;
use std::alloc::{AllocError, Global};
use std::marker::Model;

/// A text that is built part by part. Contracts see the text so far, and None once there was no memory for a part.
pub(crate) struct Words {
    text: String,
    is_short: bool,
}

impl Model for Words {
    ghost use Rattle.std.specs.Prelude.{ℕ, List, Option, string_bytes};
    ghost use Rattle.text_buffers.specs.Builders.{text_so_far};

    ghost Value = { Option (List ℕ) };

    ghost view = { λ words. text_so_far words.is_short (string_bytes words.text) };
}

impl Words {
    /// An empty text.
    pub(crate) fn new(alloc: Global) -> Words
        ensures { result ≡ Some [] }
    {
        Words {
            text: String::new(alloc),
            is_short: false,
        }
    }

    /// Adds words.
    pub(crate) fn push(&mut self, words: &str)
        ensures { Adds self.old words.now self.new }
    {
        self.is_short |= self.text.push_str(words).is_err();
    }

    /// Adds words in three parts.
    pub(crate) fn push_three(&mut self, first: &str, second: &str, third: &str)
        ensures { Adds self.old (first.now ++ second.now ++ third.now) self.new }
    {
        self.push(first);
        self.push(second);
        self.push(third);
    }

    /// Adds words and a number.
    pub(crate) fn push_number(&mut self, words: &str, number: u64)
        ensures { Adds self.old (words.now ++ decimal number) self.new }
    {
        self.push(words);
        self.push(Buffer::new().format(number));
    }

    /// The whole text as a value. Errors where there was no memory for a part.
    pub(crate) fn end(self) -> Result<Value, AllocError>
        ensures { IfOk result (λ value. option_map string self ≡ Some (view value)) }
    {
        let Words { text, is_short } = self;
        if is_short {
            return Err(AllocError);
        }
        Ok(Value::from(text))
    }
}
