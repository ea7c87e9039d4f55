//! The requests of a trace, asked of a gate.

ghost use Rattle.std.specs.Prelude.{◌≡◌, IfOk};
ghost use Rattle.trace_text.specs.Traces.{contents as trace_contents};
ghost use Rattle.tool_commands.specs.Replays.{Asks};

use command_streams::MOST_ENTRIES;
use race_gate::{Gate, GateFault};
use std::alloc::{AllocError, Allocator};
use text_words::Request;
use trace_text::Trace;

/// The first request of a trace that a gate does not answer.
#[derive(Clone, Copy)]
pub struct Stop {
    /// Its number, from 1 on.
    pub number: u32,
    pub request: Request,
    pub fault: GateFault,
}

/// A gate that was asked the requests of a trace, up to the first that it does not answer.
pub(crate) fn ask_all<A: Allocator + Copy>(
    alloc: A,
    trace: &Trace<A>,
) -> Result<(Gate<A>, Option<Stop>), AllocError>
    ensures { IfOk result (λ asked. Asks (trace_contents trace.now) asked.0 asked.1) }
{
    let shape = trace.shape(alloc)?;
    let mut gate = Gate::new(alloc, &shape, MOST_ENTRIES)?;
    let mut number = 0;
    for line in trace.lines.iter() {
        number += 1;
        let request = line.request;
        match gate.judge(request) {
            Ok(_) => {}
            Err(fault) => {
                let stop = Stop {
                    number,
                    request,
                    fault,
                };
                return Ok((gate, Some(stop)));
            }
        }
    }
    Ok((gate, None))
}
