//! Notes of a trace: comment lines that say what its marks and cells stand for, and what was recorded.
//!
//! [`Notes::read`] finds the notes in the text of a trace, and [`Notes::place_of`], [`Notes::text_of`] and [`Notes::runs`] tell them. Their
//! contracts carry the theorem: what is told of a mark is what the notes of the texts that were read say, the first of them that speaks
//! of it, taken apart as `split_place` of `specs/` says; nothing is told of a mark exactly where no note speaks of it; and so of a cell.
//! Several texts, the parts of one recording, are read in turn. Which line is a note is decided by the line alone ([`note_on`]), so each
//! comment line is one note or a plain comment. [`laws`] has what follows of all notes, as that a line that is one means nothing to the
//! trace.
#![tactic(auto)]

pub mod laws;
mod line;
mod notes;
mod place;

pub use line::{Note, note_on};
pub use notes::Notes;
pub use place::{Place, split_place};
