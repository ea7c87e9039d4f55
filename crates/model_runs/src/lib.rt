//! The runs of a program, and what is claimed of them.
//!
//! A run is a judged history in which what each spawned function, with the functions that it calls, asks and is answered is a dialogue of
//! it. The set of all runs is what "every schedule" means. `specs/` has, in this order:
//!
//! - `Frames`: which spawned function an entry belongs to, and what it said.
//! - `Runs`: what a run is.
//! - `Serial`: the entries of a history in serial order, and what they did.
//! - `Coordinates`: what was done at an address, which is the same place in every schedule.
//! - `Laws`: that a finished run in which nothing was refused is the serial elision, which `law_elision` proves, and that what it shows
//!   holds of every run of the program, which `law_schedules` proves.
#![tactic(auto)]
