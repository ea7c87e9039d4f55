//! The trace of a run: a text that says which program was run, and what its strands asked for.
//!
//! [`trace_of`] writes it from a program and the entries of a run. It carries the theorem in its contract: the text is the plain text of
//! the trace that declares what the program does, in the program's version, and has one request for each entry, in their order, marked
//! with the entry's line of the program; and where the entries are a run of the program, the text means that trace, and so no other.
//! So whoever reads the text gets the requests of the run, and a gate that judges them answers as the run's did.
//! [`laws`] has what follows without a text: the requests of the trace are those of the entries, and it declares the program's cells
//! and reducers.
#![tactic(auto)]

pub mod laws;
mod trace;

pub use trace::trace_of;
