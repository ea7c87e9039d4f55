//! Whether nothing is refused in a trace, found without a history.

ghost use Rattle.std.specs.Prelude.{◌≡◌, IfOk, IfSome, IsTrue};
ghost use Rattle.trace_text.specs.Traces.{contents as trace_contents};
ghost use Rattle.model_histories.specs.Shapes.{most_entries};
ghost use Rattle.model_histories.specs.States.{opening};
ghost use Rattle.race_gate.specs.Cores.{IsCoreOf};
ghost use Rattle.command_streams.specs.Streams.{declared_shape};
ghost use Rattle.tool_commands.specs.Cleanness.{IsCleanReply, IsAllClean};

use command_streams::MOST_ENTRIES;
use race_gate::{Answer, Core, GateFault, Reply};
use std::alloc::{AllocError, Global};
use trace_text::Trace;

/// Whether a reply answers its request and is no refusal.
fn is_clean_reply(reply: Reply) -> bool
    ensures { IsTrue result → IsCleanReply reply }
{
    match reply {
        Reply::Done(receipt) => !matches!(receipt.answer, Answer::Refused { .. } | Answer::Unset),
        Reply::Illegal(_) => false,
    }
}

/// A core that has answered no request, for those of a trace.
pub(crate) fn core_for(alloc: Global, trace: &Trace<Global>) -> Result<Core<Global>, AllocError>
    ensures { IfOk result (λ core. IsCoreOf core (opening (declared_shape (trace_contents trace.now)) most_entries)) }
{
    let shape = trace.shape(alloc)?;
    let mut core = Core::new(alloc, &shape, MOST_ENTRIES)?;
    core.make_room(trace.lines.likely_strands());
    Ok(core)
}

/// How many requests a trace has, where a gate answers all and refuses none. None says nothing. It keeps no entry, so its memory is that of
/// the strands and cells alone. Errors where there is no memory.
pub(crate) fn clean_count(alloc: Global, trace: &Trace<Global>) -> Result<Option<usize>, AllocError>
    ensures { IfOk result (λ found. IfSome found (IsAllClean (trace_contents trace.now))) }
{
    let mut core = core_for(alloc, trace)?;
    for line in trace.lines.iter() {
        let reply = core.reply(line.request);
        if matches!(reply, Reply::Illegal(GateFault::Memory)) {
            return Err(AllocError);
        }
        if !is_clean_reply(reply) {
            return Ok(None);
        }
    }
    Ok(Some(core.entries() as usize))
}
