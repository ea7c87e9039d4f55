//! Jobs: from what the words of the command line ask for, over standard input and named files, to the exit status.
//!
//! [`perform`] does a job over any [`Host`], whose contract names what standard input and each file hold, and says which of these bytes
//! were read, what was written for them and delivered, and the exit status; [`perform_alone`] is the same for jobs that start no thread.
//! [`exit_of`] gives the status of the process. A contract says of a job what the call that does it says ([`tool_commands`],
//! [`judge_command`]). The crates below know no arguments of a command line.
#![tactic(auto)]

mod named;
mod performing;

pub use command_streams::{CliFault, Host, Watched};
pub use command_words::{Color, Format, INPUT, Job, Language, check_names, read_args};
pub use performing::{exit_of, perform, perform_alone};
