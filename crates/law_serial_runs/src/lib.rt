//! The laws of serial runs: what the order of a serial run says of which strands are parallel to the one that runs.
//!
//! In a serial run each child is done before its spawner goes on, so what was current before is the English-earlier strand, and the Hebrew order
//! alone tells whether two strands are parallel. The theorem that carries the rest is [`laws::parallel_law`]: an earlier strand is parallel to
//! the current one exactly where it is in a child that has returned and that no sync has followed. [`laws::span_law`] says which strands these
//! are, in the order in which they became current. By [`laws::gate_law`] and [`laws::read_gate_law`] a location or a reducer has a race here
//! exactly where the gate refuses one of its accesses. The crate has definitions and proofs alone, over the model crates.
#![tactic(auto)]

pub mod laws;
