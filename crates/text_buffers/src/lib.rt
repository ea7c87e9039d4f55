//! Texts that are written into a buffer. [`push_words`] and [`push_number`] add to one, and their contracts say which bytes they add, and
//! that with room for these they go well: `specs/Rooms` says what room is. A [`TextBuilder`] takes a text of many parts: that there was no
//! memory for one of them is asked for once, at the end, and `specs/Builders` says what its calls add.
#![tactic(auto)]

mod builder;

ghost use Rattle.std.specs.Prelude.{◌≡◌, ◌++◌, ◌+◌, ◌≤◌, ℕ, OnOk, IsOk, decimal, length, vec_capacity};
ghost use Rattle.text_buffers.specs.Rooms.{HasRoom, number_room};

pub use builder::TextBuilder;
use itoa::Buffer;
use std::alloc::{AllocError, Allocator};

/// Adds words to a text. It fails only where the text has no room for them.
pub fn push_words<A: Allocator>(text: &mut Vec<u8, A>, words: &str) -> Result<(), AllocError>
    ensures added { OnOk result (text.new.items ≡ text.old.items ++ words.now) }
    ensures capacity { vec_capacity text.old ≤ vec_capacity text.new }
    ensures room { (more : ℕ) → HasRoom (length words.now + more) text.old → IsOk result × HasRoom more text.new }
{
    text.extend_from_slice(words.as_bytes())
}

/// Adds a number to a text, behind what stands before it. It fails only where the text has no room for that and 20 digits.
pub fn push_number<A: Allocator>(
    text: &mut Vec<u8, A>,
    before: &str,
    number: u64,
) -> Result<(), AllocError>
    ensures added { OnOk result (text.new.items ≡ text.old.items ++ before.now ++ decimal number) }
    ensures capacity { vec_capacity text.old ≤ vec_capacity text.new }
    ensures room { (more : ℕ) → HasRoom (length before.now + number_room + more) text.old → IsOk result × HasRoom more text.new }
{
    push_words(text, before)?;
    push_words(text, Buffer::new().format(number))
}
