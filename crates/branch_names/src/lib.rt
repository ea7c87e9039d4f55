//! The branches of a spawn-sync program's strands, by which strands with the same peers are told (peer sets are those of
//! Lee and Schardl 2015; that a branch, given when the strand begins, decides its peers for good is this project's own claim).
//!
//! A [`Branches`] is told of each spawn and of each join that begins, and keeps one number for each strand. [`Branches::same`]
//! carries the theorem: in every legal history that the value follows, it answers whether two strands have one branch, and
//! that is whether they have the same peers in the dag of that history and of each that extends it. [`laws::branch_law`]
//! carries the law behind it, over the definitions alone.
#![tactic(auto)]

mod branches;
pub mod laws;
mod packed;

pub use branches::Branches;
