//! Texts of programs, read into values: functions of statements behind the declarations, in two versions of the format.
//!
//! The grammar stands in `specs/` as a relation between the lines of a text and what they mean, and beside it, for every other text, the
//! first faulty line and the lowest cause in it; `program_lines` has what one line says. [`Program::parse`] carries the theorem that the
//! code meets it: an answer `Ok` is what the text means, and a fault `At` is the first faulty line with the lowest cause in it. `Memory` is
//! the answer to a refused growth; no clause says when it comes. The laws [`one_meaning`], [`one_fault`], [`meaning_or_fault`] and
//! [`meaning_excludes_fault`] say that each list of bytes has one meaning or one fault, and not both. A [`Program`] keeps that some text
//! means it and that it is sound: its statements name cells, reducers and functions that there are, their numbers are of 64 bits, each `if`
//! has its `end` and one `else` at most, and each `if` and `else` knows where its part ends; [`sound_law`] says so of each text that means
//! a program. [`Program::print`] gives the plain text, which means the program and, by these laws, no other; [`plain_meaning`] says the
//! same over the definitions alone.
#![tactic(auto)]

mod draft;
mod function;
mod laws;
mod open_function;
mod plain_law;
mod print;
mod program;
mod text;

pub use function::{Body, Function, Functions, RegisterNames};
pub use laws::{meaning_excludes_fault, meaning_or_fault, one_fault, one_meaning, sound_law};
pub use plain_law::plain_meaning;
pub use program::Program;
pub use program_lines::{Expression, Location, Operand, REGISTERS, Register, Statement};
pub use text_words::{Cause, TextFault};
