//! The names of a job's files, seen through before the job is done.

ghost use Rattle.std.specs.Prelude.{IfErr, OnOk};
ghost use Rattle.command_streams.specs.Faults.{IsUsageFault};
ghost use Rattle.command_words.specs.Names.{OverwritesProgram, SparesProgram, TellsOverwriting};
ghost use Rattle.command_streams.specs.Watched.{held};

use crate::words::{Job, OVER_PROGRAM, usage};
use command_streams::{CliFault, Host, Watched};
use std::alloc::Global;

/// A trace and its program have two names and one file.
const OVER_FILE: &str =
    "the trace would be written over the program, whose file has both names: name another file with '--trace <OUT>'";

/// Refuses a job that would write the trace of a run over the program, and lets each other one pass: it is refused where both have one
/// name, as it is written, or where the host says that the two names are of one file. The fault is [`CliFault::Usage`], which tells this,
/// or [`CliFault::Memory`] where there is none for its text. No file is opened or made.
pub fn check_names<H: Host>(alloc: Global, host: &Watched<H>, job: &Job) -> Result<(), CliFault>
    ensures passed { OnOk result (SparesProgram (H.says_one (held host.now)) job.now) }
    ensures refused { IfErr result (λ fault. IsUsageFault fault × OverwritesProgram (H.says_one (held host.now)) job.now) }
    ensures told { IfErr result (TellsOverwriting job.now) }
{
    let Job::Record { file, trace, .. } = job else {
        return Ok(());
    };
    let (file, trace) = (file.as_str(), trace.as_str());
    if file == trace {
        return Err(usage(alloc, OVER_PROGRAM));
    }
    if host.is_one_file(file, trace) {
        return Err(usage(alloc, OVER_FILE));
    }
    Ok(())
}
