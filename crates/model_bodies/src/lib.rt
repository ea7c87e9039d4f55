//! What the functions of a program consist of.
//!
//! The types are those of a body: a [`Statement`] with each line, over a [`Register`], an [`Operand`], an [`Expression`] or a [`Location`].
//! `specs/` has, in this order:
//!
//! - `Codes`: a function, with its name, its parameter, its lines and its body, and which function is `main`.
//! - `Trees`: the flat list of statements read as nested parts, and what is left of it from a place on.
//! - `Bodies`: where a part that may be left out ends.
//! - `Sound`: what holds of the program of every text: what statements name is there, numbers are of 64 bits, and parts are linked.
//! - `Lines`: the line of a statement.
#![tactic(auto)]

mod statement;

pub use statement::{Expression, Location, Operand, REGISTERS, Register, Statement};
