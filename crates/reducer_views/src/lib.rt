//! Reducers: how their monoids combine views, and the views of the strands of a running program (Lee and Schardl 2015).
//!
//! `laws::monoid_law` carries the theorem that the views of each monoid, with their product, form a monoid. A `Views` is told of the
//! spawns, of the joins and of the updates and puts of a running program. Each call's contract carries the relation `Holds`
//! between the value and the steps so far to the steps with one more, and `laws::quiet_law` does so for the events of which it is not
//! told; `Views::get` gives the value of the strand's view in all steps that the value follows. By
//! `laws::get_law` that is, at a granted get, the last put combined with the updates since then, in serial order.
#![tactic(auto)]

pub mod laws;
mod pieces;
mod touched;
mod view;
mod views;

pub use model_reducers::View;
pub use view::{combine, fits, identity, of_put, of_update, value};
pub use views::Views;
