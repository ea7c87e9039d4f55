//! The tests of public calls, a module for each layer: of texts; of orders, strands, branches and views; of the shadow history and the gate;
//! of runs of programs; and of what is told and drawn of a run for a person. `hostile` uses them amiss, and tries the commands.
//!
//! They stand above the crates that they test, so each layer is proved once, and not a second time with its tests. They are one crate, since
//! for each crate of tests the libraries are read and the program is compiled anew.
#![tactic(auto)]

#[cfg(test)]
mod checks;
#[cfg(test)]
mod gates;
#[cfg(test)]
mod hostile;
#[cfg(test)]
mod openings;
#[cfg(test)]
mod programs;
pub mod refusing;
#[cfg(test)]
mod strands;
#[cfg(test)]
mod tellings;
#[cfg(test)]
mod texts;
