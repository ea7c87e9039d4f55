//! What all commands stand on: the world around them, what they read and write, and why they fail.
//!
//! A [`Host`] names in its contract what standard input and each file hold. A [`Watched`] reader or writer knows whether it has failed
//! and whether what was written is delivered, so that a fault of a device is answered exactly where the device has failed. [`read_text`]
//! takes all that is left to read, [`read_kept`] too, which keeps no more of a trace than its head and its requests, and [`read_trace`] says
//! which trace these bytes mean, or the first fault in them. [`write_text`]
//! delivers the whole of a text, or says that a write has failed and how much was taken. A [`LineBuffer`] holds the lines that wait: what
//! was written and what waits are together what was told. [`CliFault`] is the fault of a command, with its text and its exit status.
#![tactic(auto)]

mod fault;
mod host;
mod kept;
mod limit;
mod line_buffer;
mod streams;
mod watched;

pub use fault::CliFault;
pub use host::Host;
pub use kept::{KeptText, PlainText, read_kept};
pub use limit::MOST_ENTRIES;
pub use line_buffer::LineBuffer;
pub use streams::{deliver, parse_trace, read_text, read_trace, write_bytes, write_text};
pub use watched::Watched;
