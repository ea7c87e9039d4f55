//! Judging the requests of a trace, with code of its own for each kind of access.
//!
//! [`judge`] does what this does, and is faster (`bench/judge` measures it), since [`judge_one`] knows which replies there may be where it
//! puts their lines:
//!
//! ```text
//! for line in trace.lines.iter() {
//!     let reply = core.reply(line.request);
//!     tell(&mut verdicts, output, &reply);
//! }
//! ```

ghost use Rattle.std.specs.Prelude.{◌≡◌, ◌≤◌, ◌++◌, ◌∷◌, ◌+◌, ◌<◌, ℕ, List, [], Option};
ghost use Rattle.std.specs.Prelude.{IfOk, OnErr};
ghost use Rattle.trace_text.specs.Traces.{contents};
ghost use Rattle.model_histories.specs.Shapes.{most_entries};
ghost use Rattle.race_gate.specs.Cores.{IsCore};
ghost use Rattle.model_histories.specs.States.{GateState};
ghost use Rattle.model_histories.specs.declared.reply.Reply.{Reply as SpecReply};
ghost use Rattle.model_histories.specs.declared.reply.Reply.TheVariants.{Illegal};
ghost use Rattle.model_accesses.specs.declared.request.Request.{Request as SpecRequest};
ghost use Rattle.command_streams.specs.Watched.{held, has_failed};
ghost use Rattle.judge_command.specs.StatusFlags.{HasJudged, Tells, TellsTrace};
ghost use Rattle.verdict_lines.specs.VerdictText.{HasWords};
ghost use Rattle.race_gate.specs.Accesses.{act_of_cell, act_of_reducer};

use crate::status::StatusFlags;
use command_streams::{LineBuffer, Watched};
use race_gate::{CellAct, Core, GateFault, ReducerAct, Reply};
use std::alloc::{AllocError, Allocator};
use std::io::Write;
use text_words::{Act, Request};
use trace_text::Trace;

/// What is told of the replies to requests: the verdict lines that wait to be written, and what the exit status wants to know of all.
#[derive(Drop)]
pub(crate) struct Verdicts<A: Allocator> {
    pub lines: LineBuffer<A>,
    pub met: StatusFlags,
}

/// Tells a reply.
#[inline(always)]
fn note<A: Allocator, W: Write>(verdicts: &mut Verdicts<A>, output: &mut Watched<W>, reply: &Reply)
    requires { HasWords reply.now }
    ensures { (wrote : Option (List ℕ)) (replies : List SpecReply) →
        Tells replies verdicts.old wrote (W.contents (held output.old)) (has_failed output.old) →
        Tells (replies ++ reply.now ∷ []) verdicts.new wrote (W.contents (held output.new)) (has_failed output.new) }
{
    verdicts.lines.tell_verdict(output, reply);
    verdicts.met.add_reply(reply);
}

/// Tells the reply to a request that is no entry. Few are, so this is a call of its own.
#[cold]
#[inline(never)]
fn note_fault<A: Allocator, W: Write>(
    verdicts: &mut Verdicts<A>,
    output: &mut Watched<W>,
    fault: GateFault,
)
    ensures { (wrote : Option (List ℕ)) (replies : List SpecReply) →
        Tells replies verdicts.old wrote (W.contents (held output.old)) (has_failed output.old) →
        Tells (replies ++ Illegal fault ∷ []) verdicts.new wrote (W.contents (held output.new)) (has_failed output.new) }
{
    note(verdicts, output, &Reply::Illegal(fault));
}

/// Tells a reply, by code of its own where it is an entry.
#[inline(always)]
fn tell<A: Allocator, W: Write>(verdicts: &mut Verdicts<A>, output: &mut Watched<W>, reply: &Reply)
    requires { HasWords reply.now }
    ensures { (wrote : Option (List ℕ)) (replies : List SpecReply) →
        Tells replies verdicts.old wrote (W.contents (held output.old)) (has_failed output.old) →
        Tells (replies ++ reply.now ∷ []) verdicts.new wrote (W.contents (held output.new)) (has_failed output.new) }
{
    match reply {
        Reply::Done(_) => note(verdicts, output, reply),
        Reply::Illegal(fault) => note_fault(verdicts, output, *fault),
    }
}

/// Judges an access of a cell and tells the reply.
#[inline(always)]
fn tell_cell<A: Allocator + Clone, W: Write>(
    core: &mut Core<A>,
    verdicts: &mut Verdicts<A>,
    output: &mut Watched<W>,
    request: Request,
    act: CellAct,
)
    requires is { request.act ≡ act_of_cell act }
    requires core { IsCore core.old }
    ensures { (start : GateState) (wrote : Option (List ℕ)) (requests : List SpecRequest) (replies : List SpecReply) →
        HasJudged start requests replies core.old verdicts.old wrote (W.contents (held output.old)) (has_failed output.old) →
        (reply : SpecReply) × HasJudged start (requests ++ request ∷ []) (replies ++ reply ∷ []) core.new verdicts.new
        wrote (W.contents (held output.new)) (has_failed output.new) }
{
    match core.check(request) {
        Ok(()) => {
            let receipt = core.answer_cell(request, act);
            note(verdicts, output, &Reply::Done(receipt));
        }
        Err(fault) => note_fault(verdicts, output, fault),
    }
}

/// Judges an access of a reducer and tells the reply.
#[inline(always)]
fn tell_reducer<A: Allocator + Clone, W: Write>(
    core: &mut Core<A>,
    verdicts: &mut Verdicts<A>,
    output: &mut Watched<W>,
    request: Request,
    act: ReducerAct,
)
    requires is { request.act ≡ act_of_reducer act }
    requires core { IsCore core.old }
    ensures { (start : GateState) (wrote : Option (List ℕ)) (requests : List SpecRequest) (replies : List SpecReply) →
        HasJudged start requests replies core.old verdicts.old wrote (W.contents (held output.old)) (has_failed output.old) →
        (reply : SpecReply) × HasJudged start (requests ++ request ∷ []) (replies ++ reply ∷ []) core.new verdicts.new
        wrote (W.contents (held output.new)) (has_failed output.new) }
{
    match core.check(request) {
        Ok(()) => match core.answer_reducer(request, act) {
            Ok(receipt) => note(verdicts, output, &Reply::Done(receipt)),
            Err(fault) => note_fault(verdicts, output, fault),
        },
        Err(fault) => note_fault(verdicts, output, fault),
    }
}

/// Judges a request and tells the reply.
#[inline(always)]
fn judge_one<A: Allocator + Clone, W: Write>(
    core: &mut Core<A>,
    verdicts: &mut Verdicts<A>,
    output: &mut Watched<W>,
    request: Request,
)
    requires core { IsCore core.old }
    ensures { (start : GateState) (wrote : Option (List ℕ)) (requests : List SpecRequest) (replies : List SpecReply) →
        HasJudged start requests replies core.old verdicts.old wrote (W.contents (held output.old)) (has_failed output.old) →
        (reply : SpecReply) × HasJudged start (requests ++ request ∷ []) (replies ++ reply ∷ []) core.new verdicts.new
        wrote (W.contents (held output.new)) (has_failed output.new) }
{
    match request.act {
        Act::Read(cell) => {
            let act = CellAct::Read(cell);
            tell_cell(core, verdicts, output, request, act);
        }
        Act::Write(cell, value) => {
            let act = CellAct::Write(cell, value);
            tell_cell(core, verdicts, output, request, act);
        }
        Act::Bump(cell, value) => {
            let act = CellAct::Bump(cell, value);
            tell_cell(core, verdicts, output, request, act);
        }
        Act::Update(reducer, value) => {
            let act = ReducerAct::Update(reducer, value);
            tell_reducer(core, verdicts, output, request, act);
        }
        Act::Put(reducer, value) => {
            let act = ReducerAct::Put(reducer, value);
            tell_reducer(core, verdicts, output, request, act);
        }
        Act::Get(reducer) => {
            let act = ReducerAct::Get(reducer);
            tell_reducer(core, verdicts, output, request, act);
        }
        Act::Spawn | Act::Sync | Act::Call | Act::Return => {
            let reply = core.reply(request);
            tell(verdicts, output, &reply);
        }
    }
}

/// Judges the requests of a trace in their order, and tells the replies one by one. All memory that this may fail for is taken first, so
/// nothing is written then.
pub(crate) fn judge<A: Allocator + Copy, W: Write>(
    alloc: A,
    trace: &Trace<A>,
    output: &mut Watched<W>,
    limit: u32,
) -> Result<Verdicts<A>, AllocError>
    requires limit { limit ≤ most_entries }
    ensures told { IfOk result
        (TellsTrace (contents trace.now) limit (W.contents (held output.old)) (W.contents (held output.new)) (has_failed output.new)) }
    ensures unwritten { OnErr result (output.new ≡ output.old) }
{
    let shape = trace.shape(alloc)?;
    let mut core = Core::new(alloc, &shape, limit)?;
    let mut verdicts = Verdicts {
        lines: LineBuffer::new(alloc)?,
        met: StatusFlags::new(),
    };
    core.make_room(trace.lines.likely_strands());
    for line in trace.lines.iter() {
        judge_one(&mut core, &mut verdicts, output, line.request);
    }
    Ok(verdicts)
}
