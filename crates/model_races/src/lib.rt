//! Which histories are judged rightly.
//!
//! A history is judged where it is legal, each access of memory is refused exactly when an earlier granted access of a logically parallel
//! strand conflicts with it (determinacy races: Feng and Leiserson 1997), and each put or get of a reducer exactly when an earlier
//! granted one is of a strand with other peers (view-read races: Lee and Schardl 2015), or is an unset get; where refusals name true
//! witnesses, and the values that are answered are what cells and reducers hold. `specs/` says so over the whole list of entries and the
//! dag of the strands, so nothing here speaks of what a detector keeps. In this order:
//!
//! - `Accesses`: the granted accesses of cells, as a list.
//! - `Races`: when an access races, and what a true witness is.
//! - `Memory`: what a cell holds: the last granted write and the granted bumps since.
//! - `Verdicts`: the right answer to an access of memory.
//! - `Reducers`: the granted puts and gets, and what an entry is to the reducers.
//! - `ViewReads`: the right answer to a put or a get, in the dag of each finished extension.
//! - `ReducerVerdicts`: the value of a get, and that puts and gets are judged.
//! - `Judged`: the three together.
//! - `Laws`: that verdicts given as the strands ran are those of the finished dag, which `race_gate` proves.
#![tactic(auto)]

mod access;

pub use access::CellAccess;
