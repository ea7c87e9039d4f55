//! The shadow history of a program's memory: which of the accesses granted so far races with a new one.
//!
//! Two strands for each location and kind of access are enough, whatever the number of accesses: the last one in the English order
//! and the last one in the Hebrew order, each with its earliest entry (a serial run can do with one reader, Feng and Leiserson 1997;
//! the two orders are those of Bender, Fineman, Gilbert and Leiserson 2004). [`Shadow::find`] carries the theorem in its contract:
//! over every list of accesses that a shadow history has taken in, it answers a witness exactly where some access of the list races
//! with the new one, that is, is of the same location, of a conflicting kind, and of a parallel strand of the dag. Its clauses
//! `witness` and `exact` say this, and which of the racing accesses is the witness. Only what was added counts: a refused access
//! is not added. `laws::later_law` says that all of it stays as the strands go on.
#![tactic(auto)]

mod cell;
pub mod laws;
mod shadow;

pub use model_accesses::Witness;
pub use shadow::Shadow;
