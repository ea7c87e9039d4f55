//! Notes below a quote.

use crate::look::{Look, push_note_sign};
use std::alloc::{AllocError, Global};
use text_buffers::TextBuilder;

/// Notes, a line each.
pub(crate) struct Notes {
    text: TextBuilder,
    look: Look,
}

impl Notes {
    /// No note.
    pub(crate) fn new(alloc: Global, look: Look) -> Notes {
        Notes {
            text: TextBuilder::new(alloc),
            look,
        }
    }

    /// Adds words.
    pub(crate) fn add_words(&mut self, words: &str) {
        self.text.push_words(words);
    }

    /// Begins a note.
    pub(crate) fn begin(&mut self, words: &str) {
        push_note_sign(&mut self.text, self.look);
        self.add_words(words);
    }

    /// Adds a note.
    pub(crate) fn add_note(&mut self, words: &str) {
        self.begin(words);
        self.add_words("\n");
    }

    /// Adds a note of what to do.
    pub(crate) fn add_help(&mut self, words: &str) {
        self.begin("help: ");
        self.add_words(words);
        self.add_words("\n");
    }

    /// Adds a note of what to do, in three pieces.
    pub(crate) fn add_help_with(&mut self, before: &str, word: &str, behind: &str) {
        self.begin("help: ");
        self.add_three(before, word, behind);
    }

    /// Adds a note that asks whether this word was meant.
    pub(crate) fn add_meant(&mut self, word: &str) {
        self.add_help_with("did you mean `", word, "`?\n");
    }

    /// Adds a note of the line before which so many stand: words, a word in quotes, and what is said of it.
    pub(crate) fn add_place(&mut self, words: &str, name: &str, behind: &str, before: usize) {
        self.begin(words);
        self.add_quoted(name, behind);
        self.end_with_line(before);
    }

    /// Adds a word in quotes, and the words behind it.
    pub(crate) fn add_quoted(&mut self, word: &str, behind: &str) {
        self.add_three("`", word, "`");
        self.add_words(behind);
    }

    /// Adds three pieces of text.
    pub(crate) fn add_three(&mut self, first: &str, second: &str, third: &str) {
        self.add_words(first);
        self.add_words(second);
        self.add_words(third);
    }

    /// Adds a `let` with an operator.
    pub(crate) fn add_let(&mut self, target: &str, left: &str, sign: &str, right: &str) {
        self.add_three("let ", target, " = ");
        self.add_three(left, " ", sign);
        self.add_three(" ", right, "");
    }

    /// Adds the cell of an array in quotes, and the words behind it.
    pub(crate) fn add_element(&mut self, name: &str, index: u64, behind: &str) {
        self.add_three("`", name, "[");
        self.add_number(index, "]`");
        self.add_words(behind);
    }

    /// Adds a number, and the words behind it.
    pub(crate) fn add_number(&mut self, number: u64, behind: &str) {
        self.text.push_number("", number);
        self.add_words(behind);
    }

    /// Adds the number of the line before which so many stand, and ends the note.
    pub(crate) fn end_with_line(&mut self, before: usize) {
        self.add_number((before as u64).saturating_add(1), "\n");
    }

    /// Adds a word with small letters in place of upper-case ones.
    pub(crate) fn add_lowercase(&mut self, word: &str) {
        for byte in word.bytes() {
            self.text.push_byte(byte.to_ascii_lowercase());
        }
    }

    /// All notes. Errors where there was no memory for a part.
    pub(crate) fn end(self) -> Result<Vec<u8>, AllocError> {
        let Notes { text, look: _ } = self;
        text.end()
    }
}
