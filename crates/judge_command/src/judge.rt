//! Judging the trace that a reader gives.

ghost use Rattle.std.specs.Prelude.{◌≡◌, ◌↔◌, ◌≤◌, ◌≢◌, ◌+◌, ◌<◌, ℕ, List, Option, true, false};
ghost use Rattle.std.specs.Prelude.{IfOk, IfErr, OnOk, IsErrOf, IsTrue};
ghost use Rattle.std.specs.Io.KnownBytes.{Appends};
ghost use Rattle.trace_text.specs.Traces.{contents};
ghost use Rattle.model_histories.specs.Shapes.{most_entries};
ghost use Rattle.model_histories.specs.declared.reply.Reply.{Reply as SpecReply};
ghost use Rattle.command_streams.specs.Devices.{LeavesDevices};
ghost use Rattle.command_streams.specs.Watched.{held, has_failed, is_delivered, calls_of, IsCalledAtMost};
ghost use Rattle.judge_command.specs.StatusFlags.{Tells};
ghost use Rattle.verdict_lines.specs.VerdictText.{verdict_text};
ghost use Rattle.judge_command.specs.Statuses.{status_of_replies};
ghost use Rattle.command_streams.specs.Streams.{most_reads};
ghost use Rattle.command_streams.specs.Streams.{AreReplies, IsAnswered, StopsWriting, StopsAnswer, HasCause};

use crate::by_kind::{Verdicts, judge};
use command_streams::{CliFault, Watched, deliver, read_trace};
use std::alloc::Allocator;
use std::io::{Read, Write};
use trace_text::Trace;

/// Writes the lines that wait behind the last reply, and sees to it that all are delivered.
fn finish<A: Allocator, W: Write>(
    output: &mut Watched<W>,
    mut verdicts: Verdicts<A>,
) -> Result<u8, CliFault>
    ensures answered { IfOk result (λ status. (wrote : Option (List ℕ)) (replies : List SpecReply) →
        Tells replies verdicts wrote (W.contents (held output.old)) (has_failed output.old) →
        (status ≡ status_of_replies replies) × Appends wrote (W.contents (held output.new)) (verdict_text replies)) }
    ensures fault { IfErr result (λ fault. (wrote : Option (List ℕ)) (replies : List SpecReply) →
        Tells replies verdicts wrote (W.contents (held output.old)) (has_failed output.old) →
        StopsWriting wrote (W.contents (held output.new)) (verdict_text replies) fault) }
    ensures only { IfErr result (λ fault. fault ≡ CliFault.Write) }
    ensures delivered { OnOk result (is_delivered output.new ≡ true) }
    ensures failed { IsErrOf result CliFault.Write ↔ IsTrue (has_failed output.new) }
{
    verdicts.lines.write_out(output);
    if output.failed() {
        return Err(CliFault::Write);
    }
    deliver(output)?;
    Ok(verdicts.met.status())
}

/// Tells what is to be told of the requests of a trace.
fn answer_trace<A: Allocator + Copy, W: Write>(
    alloc: A,
    trace: &Trace<A>,
    output: &mut Watched<W>,
    limit: u32,
) -> Result<u8, CliFault>
    requires writer { has_failed output.old ≡ false }
    requires limit { limit ≤ most_entries }
    ensures answered { IfOk result (λ status. (replies : List SpecReply) × (status ≡ status_of_replies replies)
        × AreReplies (contents trace.now) limit replies
        × Appends (W.contents (held output.old)) (W.contents (held output.new)) (verdict_text replies)) }
    ensures fault { IfErr result (StopsAnswer (contents trace.now) limit (W.contents (held output.old)) (W.contents (held output.new))) }
    ensures delivered { OnOk result (is_delivered output.new ≡ true) }
    ensures write_failed { IsErrOf result CliFault.Write ↔ IsTrue (has_failed output.new) }
    ensures unwritten { IfErr result (λ fault. fault ≢ CliFault.Write → output.new ≡ output.old) }
{
    let verdicts = judge(alloc, trace, output, limit)?;
    finish(output, verdicts)
}

/// Reads a trace to its end, judges its requests in their order by a gate with this limit on the entries of its history, and writes
/// the verdict line of each reply. It answers the exit status of the replies: 3 where one is a want of memory, else 4 where one is
/// beyond the limit, else 2 where one is illegal, else 1 where one is refused, else 0.
///
/// It answers [`CliFault::Read`] or [`CliFault::Write`] exactly where the reader or the writer has failed, [`CliFault::TooLong`] for
/// more than 67,108,864 bytes, [`CliFault::Trace`] with the first fault of a text that means no trace, and [`CliFault::Memory`] where
/// a growth was refused. Nothing is written then, but for the part that was taken before a write failed. The reader is asked at most
/// 67,108,865 times, since each piece but the last has a byte; its `calls` tells so where it began with room for more than these.
pub fn judge_stream<A: Allocator + Copy, R: Read, W: Write>(
    alloc: A,
    input: &mut Watched<R>,
    output: &mut Watched<W>,
    limit: u32,
) -> Result<u8, CliFault>
    requires reader { has_failed input.old ≡ false }
    requires writer { has_failed output.old ≡ false }
    requires limit { limit ≤ most_entries }
    ensures answered { IfOk result (λ status. (replies : List SpecReply) × (status ≡ status_of_replies replies)
        × IsAnswered (R.remaining (held input.old)) (R.remaining (held input.new))
        (W.contents (held output.old)) (W.contents (held output.new)) limit replies) }
    ensures fault { IfErr result (HasCause (R.remaining (held input.old)) (R.remaining (held input.new))
        (W.contents (held output.old)) (W.contents (held output.new)) limit) }
    ensures devices { LeavesDevices result (has_failed input.new) output.old output.new }
    ensures reads { IsCalledAtMost most_reads (calls_of input.old) (calls_of input.new) }
{
    let trace = read_trace(alloc, input)?;
    answer_trace(alloc, &trace, output, limit)
}
