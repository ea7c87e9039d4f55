//! What a spawn-sync program's strands did, and the dag that they make.
//!
//! A strand is a part of a run in which nothing is spawned, no children are waited on and no function ends. A history is the list of what
//! the strands did at their spawns, syncs, calls and returns, the newest event first. `specs/` says which histories are legal and what
//! follows from one: which strands have begun, where each stands, the paths of the dag, and which strands are logically parallel. All of it
//! has to be believed, and none of it is code. The crate has one type besides: what a spawn begins. In this order:
//!
//! - `Updated`: a function changed at one number, in which the states of a history are written.
//! - `History`: the nine kinds of events.
//! - `Strands`: which numbers are running strands, which have begun, which are kept back as joins.
//! - `Blocks`: in which functions and open blocks a strand stands, which children of a block are outstanding, which is the last.
//! - `Legal`: which event may come next. This is the semantics of spawns, syncs, calls and returns.
//! - `Dag`: the edges and the paths of the dag, and what parallel means (Feng and Leiserson 1997).
//! - `Peers`: the strands that are parallel to one, and when two strands have the same ones (Lee and Schardl 2015).
//! - `Extensions`: how a history may go on, and when it is finished.
//! - `SerialOrder`: the order in which a serial run does the strands, by paths of the dag (Feng and Leiserson 1997).
//! - `Address`, `Addresses`: a strand's place in every schedule: the words, as child, next and join, that lead to it from the first
//!   strand. The two orders of such addresses are those of Bender, Fineman, Gilbert and Leiserson 2004; they are no part of the model.
//! - `Laws`: that each legal history has a finished extension, which `law_strands` proves.
#![tactic(auto)]

mod spawned;

pub use spawned::Spawned;
