//! A clean finished run of a program is its serial elision. `specs/` has what it takes: requests one after another over one store, and the
//! dialogues of functions with those of the functions that they spawn. There is no code but the functions of `laws`, which do nothing: each
//! has one law as its contract.
#![tactic(auto)]

pub mod laws;
