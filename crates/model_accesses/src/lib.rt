//! What strands ask, and which accesses conflict.
//!
//! The types are those of requests: the [`Act`] of a strand, the [`Request`] that it makes, the [`Kind`] of an access and the
//! cell or reducer that it is of ([`Asked`]), the [`Rule`] that two kinds come under, and the [`Witness`] that a refusal names. `specs/`
//! has, in this order:
//!
//! - `Table`: the kinds that conflict and their rules, as a list and by cases, and the words of both. Bumps do not conflict with bumps.
//! - `Asking`: which access an act is.
//! - `Accesses`: the granted accesses of memory, and which of them race with a new one: those of the same cell, of a conflicting kind and
//!   of a parallel strand (determinacy races: Feng and Leiserson 1997).
//! - `Reads`: the granted puts and gets of reducers, and which of them are of a strand with other peers than a new one (view-read races:
//!   Lee and Schardl 2015).
#![tactic(auto)]

mod asked;
mod kind;
mod request;
mod witness;

pub use asked::Asked;
pub use kind::{Kind, Rule};
pub use request::{Act, Request};
pub use witness::Witness;
