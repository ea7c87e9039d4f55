//! The values that texts stand for, and what texts are made of: lines, words, names, declarations, and the causes of faults.
//!
//! Here is no grammar of lines: no crate above needs one in order to speak of names and shapes. What a word, a name or a number is stands
//! in `specs/`, over the bytes of a text. [`split_line`] gives the lines of a text one by one and [`Words::take`] the words of a line, each
//! with the contract that it is the next one by that definition; [`is_name`] decides what a name is. [`Names::find`], and
//! [`Names::find_bytes`] of bytes that need be no text, carry the theorem that what is found is what a name stands for behind the
//! declarations so far, which [`Names::add_memory`] and [`Names::add_reducer`] extend by just one, or not at all where memory runs out.
//! [`monoid_of`] and [`monoid_word`] are the spelling of monoids, and [`both`] is the lower of two causes.
#![tactic(auto)]

mod fault;
mod name;
mod name_index;
mod names;
mod spelling;
mod value;
mod words;

pub use fault::{Cause, TextFault, both};
pub use model_accesses::{Act, Asked, Request};
pub use model_reducers::Monoid;
pub use name::{NAME_LEN, Name, is_name};
pub use name_index::{MOST_NAMES, NameIndex};
pub use names::{Named, Names};
pub use spelling::{monoid_of, monoid_word, version_word};
pub use value::{Items, Mem, Mems, Monoids, Reducer, Reducers, Shape, TraceLine, Version};
pub use words::{Words, as_text, comment_at, split_line, without_comment, without_return};
