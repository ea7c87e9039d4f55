//! The lines of a trace that ask for something, kept in eight bytes each where they can be.
//!
//! [`TraceLines`] is a list of lines for contracts: what was pushed is what [`TraceLines::iter`] gives, whole and in its order. A line is
//! one number, its head, where it comes directly behind the line before it, has no mark, and its strand, place and value are below 2^22 -
//! 1, 2^20 and 2^18; any other line takes three numbers more. A trace of a million requests is 8 MB so, and was 32.
#![tactic(auto)]

mod head;
mod lines;

pub use lines::{Iter, TraceLines};
