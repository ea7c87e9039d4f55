//! The command `judge`: a trace that is read, to verdict lines that are written.
//!
//! [`judge_stream`] carries the theorem of `judge` in its contract: at a status the bytes that were read mean a trace, what was written
//! are the verdict lines of the replies of a gate to its requests, in their order, the history of that gate is judged, and the status
//! follows from the replies. A fault in the text is the first one of the bytes that were read, a fault of a device is answered exactly
//! where the device has failed, and nothing is written then. [`status_of`] is the status of replies by itself.
#![tactic(auto)]

mod by_kind;
mod judge;
mod status;

pub use judge::judge_stream;
pub use status::status_of;
