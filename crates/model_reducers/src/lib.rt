//! What the value of a reducer is.
//!
//! Updates of a reducer may be done in parallel and still give one value, that of a serial run, where they are combined by a monoid (Lee
//! and Schardl 2015). The types are the [`Monoid`] of a reducer and the [`View`] that a strand has gathered. `specs/` says what a get
//! gives: the last put before it, combined in serial order with the updates since then that the put's strand reaches and that reach the
//! get's. How a value keeps views as strands run is no part of it. In this order:
//!
//! - `Items`: a history as one reducer sees it: events of control, its updates and puts, and other accesses.
//! - `Steps`: the same of all reducers, and what one of them sees of it.
//! - `Entries`: updates and puts with their numbers, and their serial order.
//! - `Views`: what a reducer makes of views, and the product of a list of them.
//! - `GetValues`: the value of a get.
//! - `Products`: the five monoids by cases: identity, update, put, product, and the number that a view gives.
#![tactic(auto)]

mod monoid;
mod view;

pub use monoid::Monoid;
pub use view::View;
