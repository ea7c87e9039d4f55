//! The rule of view-read races (Lee and Schardl 2015): a put or a get of a reducer races with an earlier one by a strand with
//! other peers.
//!
//! A [`ReadPeers`] keeps the first granted read of each reducer. [`ReadPeers::judge`] carries the theorem in its contract: over
//! every list of reads that were added, a read is refused, with the first one as its witness, exactly where the branch of the
//! first one is another, and a get is unset exactly where there is none. Since granted reads of one reducer are all of one
//! branch, that is exactly where some read is of a strand with other peers in the dag, in every extension of the history:
//! its clauses `others`, `peers` and `all_same` say this, and [`laws::granted_law`] that granted reads stay of one branch.
#![tactic(auto)]

pub mod laws;
mod reads;

pub use reads::{ReadPeers, ViewVerdict};
