//! A trace from its text in pieces, so that the text need not stand as a whole.

ghost use Rattle.std.specs.Prelude.{◌≡◌, ◌≤◌, ◌++◌, ℕ, List, take, length, MatchResult};
ghost use Rattle.std.specs.Option.{IfSome};
ghost use Rattle.trace_text.specs.Grammar.{TextMeans};
ghost use Rattle.trace_text.specs.Drafts.{IsTextFault, so_far};
ghost use Rattle.trace_text.specs.Traces.{contents};
ghost use Rattle.trace_text.specs.Pieces.{AreWholeLines, IsBegun, TakesFront};

use crate::trace::{Draft, Trace, read_whole};
use std::alloc::Allocator;
use text_words::TextFault;

/// How many bytes at the head of a text are whole lines, each with its line feed.
fn whole_lines(text: &[u8]) -> usize
    ensures within { result ≤ length text.now }
    ensures whole { AreWholeLines (take result text.now) }
{
    let mut end = text.len();
    while end > 0 && text[end - 1] != b'\n' {
        end -= 1;
    }
    end
}

/// What was read of a trace so far: whole lines, a request among them. The names of the trace stand in the piece that it began with,
/// since behind a request nothing is declared; the other pieces can be let go.
pub struct BegunTrace<'a, A: Allocator> {
    draft: Draft<'a, A>,
    at: u32,
}

/// Written out, so that what lets it go calls one function.
impl<'a, A: Allocator> Drop for BegunTrace<'a, A> {
    fn drop(self) {
        let BegunTrace { draft: _, at: _ } = self;
    }
}

impl<'a, A: Allocator + Copy> BegunTrace<'a, A> {
    /// Reads the whole lines at the head of a text, of which there may be more. It gives what was read, and how many bytes that is. It
    /// gives nothing where no request stands among these lines, and the fault of the text where one of them has one.
    pub fn begin(alloc: A, head: &'a [u8]) -> Result<Option<(BegunTrace<'a, A>, usize)>, TextFault>
        ensures { MatchResult result
            (λ found. IfSome found (λ r. (r.1 ≤ length head.now) × IsBegun (take r.1 head.now) r.0))
            (λ fault. (rest : List ℕ) → IsTextFault (head.now ++ rest) fault) }
    {
        let end = whole_lines(head);
        let (front, _) = head.split_at(end);
        if front.is_empty() {
            return Ok(None);
        }
        match read_whole(alloc, front) {
            Ok((draft, at)) => {
                if draft.lines.is_empty() {
                    Ok(None)
                } else {
                    Ok(Some((BegunTrace { draft, at }, end)))
                }
            }
            Err(fault) => Err(fault),
        }
    }

    /// Reads the whole lines of what stands behind those that were read, and gives how many bytes that is; or the first fault of the
    /// text, whatever stands behind these.
    pub fn take(&mut self, text: &[u8]) -> Result<usize, TextFault>
        requires { (done : List ℕ) × IsBegun done self.old }
        ensures { (done : List ℕ) → IsBegun done self.old → MatchResult result
            (λ count. (count ≤ length text.now) × IsBegun (done ++ take count text.now) self.new)
            (λ fault. (rest : List ℕ) → IsTextFault (done ++ (text.now ++ rest)) fault) }
    {
        let end = whole_lines(text);
        let (front, _) = text.split_at(end);
        match self.draft.take_lines(self.at, front) {
            Ok(last) => {
                self.at = last;
                Ok(end)
            }
            Err(fault) => Err(fault),
        }
    }

    /// Reads the requests in plain form at the head of what stands behind those lines that were read, up to the first line of another form or
    /// the first that has no room. It gives what stands behind them. Their lines are those that [`Trace::print_requests`] prints.
    pub fn take_plain<'b>(&mut self, text: &'b [u8]) -> &'b [u8]
        requires { (done : List ℕ) × IsBegun done self.old }
        ensures { TakesFront self.old text.now result.now self.new }
    {
        let (rest, last) = self.draft.take_plain_lines(self.at, text);
        self.at = last;
        rest
    }

    /// How many requests were read.
    pub fn request_count(&self) -> usize
        ensures { result ≡ length self.now.draft.lines }
    {
        self.draft.lines.len()
    }

    /// The trace of the lines that were read.
    pub fn into_trace(self) -> Trace<A>
        requires { (done : List ℕ) × IsBegun done self }
        ensures { contents result ≡ so_far self.entry.draft.names self.entry.draft.lines }
    {
        let BegunTrace { draft, at: _ } = self;
        Trace::of_draft(draft)
    }

    /// The trace of a text that ends with these bytes, or the first fault of that text.
    pub fn end(self, text: &[u8]) -> Result<Trace<A>, TextFault>
        requires { (done : List ℕ) × IsBegun done self }
        ensures { (done : List ℕ) → IsBegun done self.entry → MatchResult result
            (λ trace. TextMeans (done ++ text.now) (contents trace))
            (IsTextFault (done ++ text.now)) }
    {
        let BegunTrace { mut draft, at } = self;
        match draft.take_lines(at, text) {
            Ok(_) => Ok(Trace::of_draft(draft)),
            Err(fault) => Err(fault),
        }
    }
}
