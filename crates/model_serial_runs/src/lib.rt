//! Serial runs of programs, and which of their accesses race.
//!
//! In a serial run each child is done before its spawner goes on. The one type is the kind of an access ([`AccessKind`]) as C programs have
//! them. All of `specs/` has to be believed, and none of it is code. In this order:
//!
//! - `Conflicts`: which kinds of access conflict, as a set and by cases. Atomic accesses do not conflict with one another.
//! - `Accesses`: accesses of one location, and which of them race with a new one: those of a conflicting kind and of a parallel strand
//!   (determinacy races: Feng and Leiserson 1997).
//! - `Current`: the strand at which a serial run is, and which histories are those of serial runs.
//! - `ReducerReads`: which strands see another view of a reducer: those with other peers (view-read races: Lee and Schardl 2015).
#![tactic(auto)]

mod access_kind;

pub use access_kind::AccessKind;
