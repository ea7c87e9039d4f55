//! Warnings of a program: what its text allows, and is rarely meant.
//!
//! [`find_warnings`] finds them, and [`program_warnings`] tells them, each with its line quoted: a register that bears the name of a memory or of a reducer, a function that
//! no spawn or call reaches from `main`, a `get` of a reducer that no reached function puts, and an index that is not below the length of
//! its array: one that is written as a number, or one that a register holds in a run. The caller says which indexes the run wraps. The
//! contract of [`program_warnings`] carries that just these are told, in the order of the functions, the first twenty of them with their text: `specs/Reach` says which functions are reached, `specs/Warnings` which warnings
//! there are, and `specs/Messages` what is told of them.
#![tactic(auto)]

mod declarations;
mod message;
mod puts;
mod reach;
mod warning;

pub use declarations::{Declared, Sort};
pub use message::{find_warnings, line_of_warning, program_warnings, title_of_warning};
pub use warning::{Warning, Wraps};
