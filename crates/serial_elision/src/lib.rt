//! The serial elision of a program: each spawn is a call, and a sync changes nothing (Feng and Leiserson 1997).
//!
//! The relation `Evaluates` of `model_programs` says, by cases on statements, which requests a program makes so, in order, and which
//! memory and views it leaves. [`elide`] carries the theorem that the code meets it: an answer `Ok` holds the memory and the number of
//! requests of the program's one evaluation, and `Limit` comes only where no evaluation makes so few requests. `Memory` is the answer to
//! a refused growth; no clause says when it comes.
#![tactic(auto)]

mod activation;
mod elision;

pub use elision::{ElideFault, Elided, elide};
