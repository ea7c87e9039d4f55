//! Lines of programs, read one at a time into values: declarations, begins of functions, statements and their ends, in two versions of
//! the format.
//!
//! The grammar stands in `specs/` as a relation between the words of a line and what they say in their scope: the declarations, the
//! functions of the text and the registers of the open function. A table says what each keyword wants behind it, and beside it stands,
//! for each cause, what is wrong with words that say nothing. [`read_line`] carries the theorem that the code meets it: an answer `Ok` is
//! what the words say, and `Err` is the lowest cause in them. The laws [`one_meaning`], [`meaning_or_fault`] and
//! [`meaning_excludes_fault`] say that words have one meaning or a fault, and not both. [`put_statement`] appends the plain words of a
//! statement, which say it again by [`plain_meaning`].
#![tactic(auto)]

mod item;
mod keyword;
mod laws;
mod line;
mod operator;
mod place;
mod print;
mod scope;

pub use item::Item;
pub use laws::{
    meaning_excludes_fault, meaning_or_fault, one_meaning, plain_meaning, room_for_registers,
};
pub use line::read_line;
pub use model_bodies::{Expression, Location, Operand, REGISTERS, Register, Statement};
pub use print::put_statement;
pub use scope::{FUNCTION_NAMES, FunctionNames, NameScope};
