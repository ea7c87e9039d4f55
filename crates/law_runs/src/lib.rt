//! The laws of the runs of programs, which `model_runs` defines: what a run begins with is a run, and its values are numbers of 64 bits;
//! and worked runs of three texts, with judged histories that are no runs of them. There is no code but the functions of `laws`, which do
//! nothing: each has one law as its contract.
#![tactic(auto)]

pub mod laws;
