//! The verdict lines: a line for each reply of a gate.
//!
//! [`verdict_lines`] carries the theorem in its contract: the text that it writes is `verdict_text` of `specs/VerdictText`, by cases on
//! replies. [`put_verdict`] puts one such line where there is room for it, and [`rule_of_refusal`] is the word of a refusal. The lines of
//! other texts are put with [`put_word`], [`put_word_line`] and [`DigitCache`].
#![tactic(auto)]

mod digit_cache;
mod slice_text;
mod verdict;

pub use digit_cache::DigitCache;
pub use slice_text::put_word;
pub use verdict::{LINE_ROOM, put_verdict, put_word_line, rule_of_refusal, verdict_lines};
