//! The words of the command line, which ask for a job.
//!
//! [`read_words`] gives a [`Job`] with its numbers in their ranges, or the fault that tells what is wrong with the words. Its contract has
//! a table of which option, flag or file of a command gives which field of the job, and which default stands for what is not given. It
//! reads the matches that clap's contract says a parse of these words by these commands finds. Tests show the rest: the texts of clap, and
//! which words are refused. [`check_names`] refuses a job that would write the trace of a run over its program.
#![tactic(auto)]

mod commands;
mod help;
mod names;
mod words;

pub use names::check_names;
pub use words::{Color, Format, INPUT, Job, Language, read_args, read_words, usage};
