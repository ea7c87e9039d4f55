//! The commands: what each does over any reader and writer, and the exit status.
//!
//! [`run_text`] carries the theorem of `run` in its contract: at a status the bytes that were read mean a program, and what was written is
//! the report of some finished run of it within the limit, which is its serial elision and speaks for every schedule where nothing was
//! refused; [`laws::clean_report_law`] draws from this alone what status 0 means. A fault comes where there was no such run, by its cause.
//! [`run_traced_text`] carries that of `run --trace`: the report and the text of the trace that were written are those of one and the same
//! run; [`write_run_trace`] writes the trace alone. [`elide_text`] carries that of `elide`: at status 0 the bytes mean a program, and what was written are the lines of the memory and
//! of the number of requests of its one evaluation, in which each spawn is a call, and which makes no more requests than the limit; at the
//! fault Limit an evaluation, if there is one, makes more. [`replay_text`] carries that of `replay`: the bytes mean a program and a trace
//! which declare the same, a gate answered each request of the trace, and what was written tells of the gate's entries that they are a
//! finished run, a run that is not finished, or which of them is the first strange one. [`explain_text`] carries that of `explain`: at
//! status 0, 1 or 4 the bytes mean a program, and what was written tells a person of a run of it, which is finished and clean, finished
//! with races, or cut by the limit; at 2 they mean none, and the faults that can be told apart are told; all of it as text for a person, or
//! as JSON or SARIF for a program. [`draw_text`] carries that of `draw`: the bytes mean a trace, a gate answered each request of it, and what was
//! written is the drawing of that gate's history: its nodes are the strands that have begun, its black edges those of the dag, its red ones
//! the refusals with their witnesses.
#![tactic(auto)]

mod ask;
mod clean;
mod declarations;
mod draw;
mod elide;
mod explain;
mod explain_trace;
mod explain_traces;
mod judged;
pub mod laws;
mod memory;
mod outcome;
mod program;
mod replay;
mod run;
mod several;
mod sort;
mod traced_run;

pub use command_streams::{CliFault, Host, Watched, write_text};
pub use dag_drawing::Form;
pub use draw::draw_text;
pub use elide::elide_text;
pub use explain::{End, Manner, Rendering, explain_text};
pub use explain_traces::Traces;
pub use judge_command::{judge_stream, status_of};
pub use program_runs::{Door, OpenDoor};
pub use race_explanations::Extent;
pub use race_records::RecordForm;
pub use replay::replay_text;
pub use run::run_text;
pub use several::explain_files;
pub use traced_run::{
    TracedRun, run_traced_text, trace_run, trace_run_of_text, write_run_trace, write_traced_run,
};
