//! What a program does: what its functions may ask and be answered, and the serial elision.
//!
//! `specs/Dialogue` is the semantics of programs: a relation, with a case to each statement, between what is left of a function and the
//! requests that it makes with their answers. It does not say who runs the function or when. `specs/Evaluation` is the serial elision, in
//! which a spawn is a call and a sync changes nothing (Feng and Leiserson 1997). The one type is the [`Target`] of a spawn. In this order:
//!
//! - `Values`: registers, operands, expressions, and the cell that a location means.
//! - `Answers`: what an answer does to the registers.
//! - `Exchanges`: a request of a function with its answer.
//! - `Scripts`: a function's statements with the sync at its end, and the statements that ask nothing.
//! - `Dialogue`: what a function may ask and be answered.
//! - `Evaluation`: the serial elision, statement by statement.
//! - `Elisions`: the elision of a whole program.
#![tactic(auto)]

mod target;

pub use target::Target;
