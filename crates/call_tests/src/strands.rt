//! Tests of order lists, strands, branches and reducer views.

mod branches;
mod labels;
mod order;
mod views;
