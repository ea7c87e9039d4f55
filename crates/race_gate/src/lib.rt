//! The gate of a race detector: it judges the requests of a spawn-sync program's strands, one after another, and keeps the history of
//! its answers.
//!
//! Which histories are right is said in `model_races` of the dag of the strands and of the whole list of granted accesses: a history is
//! judged where it is legal, where each access of memory is refused exactly when an earlier granted access of a logically parallel
//! strand conflicts with it (the determinacy races of Feng and Leiserson 1997), and where each put or get of a reducer is refused
//! exactly when, in the dag of every finished extension, an earlier granted one is of a strand with other peers (the view-read races
//! of Lee and Schardl 2015), or is an unset get. Each refusal names its rule and a true witness. Each value that was read from a cell
//! is that of the last granted write and the granted bumps since, and each value of a get that of the last granted put, combined in
//! serial order with the granted updates that lie between the two. [`judge_all`] carries the theorem in its contract: whatever the
//! requests are, the history that the gate keeps is judged, and there is one reply to each request.
//! [`Gate::judge`] says the same of one request, however the entries are kept ([`History`]), and [`Core::judge`] where no history is kept.
//! The laws of the definitions are in the module `laws`.
#![tactic(auto)]

mod access;
mod gate;
mod history;
mod judging;
pub mod laws;
mod reducers;
mod replies;
mod step;
mod tracks;

pub use access::{CellAct, ReducerAct};
pub use gate::{Gate, ShortGate};
pub use history::{History, NewHistory};
pub use judging::Core;
pub use model_histories::{Answer, Entry, GateFault, Receipt, Reply};
pub use replies::judge_all;
