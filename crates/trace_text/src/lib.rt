//! Texts of traces, read into values: a line for each declaration and for each request of a strand, in two versions of the format.
//! The values, and the lines, words and names of a text, are those of [`text_words`], which this crate passes on.
//!
//! The grammar stands in `specs/` as a relation between the lines of a text and what they mean, with a case for each kind of line, and
//! beside it, for every other text, the first faulty line and the lowest cause in it. [`Trace::parse`] carries the theorem that the code
//! meets it: an answer `Ok` is what the text means, and a fault `At` is the first faulty line with the lowest cause in it. `Memory` is the
//! answer to a refused growth; no clause says when it comes. The laws [`one_meaning`], [`one_fault`], [`meaning_or_fault`] and
//! [`meaning_excludes_fault`] say that each list of bytes has one meaning or one fault, and not both. [`Trace::print`] gives the plain
//! text, which means the trace and, by these laws, no other; [`plain_meaning`] says the same over the definitions alone. [`BegunTrace`]
//! reads a text in pieces: at the end the trace is what all the pieces mean together, and a fault is the first of all, whatever stands
//! behind it; what it takes by [`BegunTrace::take_plain`], [`Trace::print_requests`] prints as it stood. A [`Trace`] keeps that some text
//! means it, that its cells are numbered without a gap, and that its requests name cells and reducers that there are. [`Trace::shape`] and
//! [`cell_name`] are exact, and [`memory_at`] finds the memory of a cell by halving. `LineGrammar` says what is the same for the lines of
//! programs: a line is a keyword and words in the places that the keyword wants, each of which means its value there or has a lowest cause
//! why it means nothing.
#![tactic(auto)]

mod by_keyword;
mod cell;
mod keyword;
mod laws;
mod line;
pub mod number;
mod pieces;
mod place;
mod plain;
mod print;
mod trace;

pub use cell::{cell_name, memory_at, put_cell_name, put_name, reducer_name};
pub use laws::{meaning_excludes_fault, meaning_or_fault, one_fault, one_meaning, plain_meaning};
pub use pieces::BegunTrace;
pub use place::{CELLS, end, length, monoid, reducer};
pub use print::{
    put_cell, put_declarations, put_end, put_feeds, put_memory, put_number, put_reducer,
    put_request, put_word,
};
pub use text_words::{
    Act, Cause, Items, Mem, Mems, Monoid, Monoids, NAME_LEN, Name, Named, Names, Reducer, Reducers,
    Request, Shape, TextFault, TraceLine, Version, Words, as_text, both, is_name, monoid_of,
    monoid_word, split_line, version_word, without_return,
};
pub use trace::{LINES, REDUCERS, Trace, read_header, shape_of};
