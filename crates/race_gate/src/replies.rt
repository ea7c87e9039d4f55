//! Lists of requests.

ghost use Rattle.std.specs.Prelude.{IfOk, OnErr, ◌≡◌};
ghost use Rattle.model_races.specs.Memory.{IsMemory};
ghost use Rattle.model_races.specs.Judged.{IsJudged};
ghost use Rattle.model_histories.specs.Replies.{Judges, JudgesAll};
ghost use Rattle.model_histories.specs.Admission.{AdmitsAll};

use crate::gate::Gate;
use model_accesses::Request;
use model_histories::Reply;
use std::alloc::{AllocError, Allocator};

/// Judges a request, and gives the reply to it.
fn reply_to<A: Allocator + Clone>(gate: &mut Gate<A>, request: Request) -> Reply
    ensures replies { Judges gate.old request result gate.new }
    ensures judged { IsJudged gate.new.shape gate.new.history }
    ensures values { IsMemory gate.new.shape.cells gate.new.history gate.new.memory }
{
    match gate.judge(request) {
        Ok(receipt) => Reply::Done(receipt),
        Err(fault) => Reply::Illegal(fault),
    }
}

/// Judges the requests in their order, and gives one reply to each. Room for all replies is taken first, and where it is refused the
/// gate is unchanged. A later want of memory is the reply to its request, and the next one is judged. Each request that the rules of
/// legal histories admit when it comes is entered, unless the gate was stopped, is at its limit, or has no memory.
pub fn judge_all<A: Allocator + Clone, B: Allocator>(
    gate: &mut Gate<A>,
    alloc: B,
    requests: &[Request],
) -> Result<Vec<Reply, B>, AllocError>
    ensures replies { IfOk result (λ replies. JudgesAll gate.old requests.now replies.items gate.new) }
    ensures admitted { IfOk result (λ replies. AdmitsAll gate.old requests.now replies.items gate.new) }
    ensures err { OnErr result (gate.new ≡ gate.old) }
    ensures judged { IsJudged gate.new.shape gate.new.history }
    ensures values { IsMemory gate.new.shape.cells gate.new.history gate.new.memory }
{
    // What is known of each gate is known of this one from here on, though no request may follow.
    let _entries = gate.history();
    let _cells = gate.memory();
    let mut replies = Vec::with_capacity(alloc, requests.len())?;
    for request in requests {
        replies.push_reserved(reply_to(gate, *request));
    }
    Ok(replies)
}
