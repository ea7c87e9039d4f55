//! Why a request of a trace is illegal, for a person.

ghost use Rattle.std.specs.Prelude.{◌≡◌, ◌++◌, IfOk, IfSome, codes, reverse};
ghost use Rattle.source_quotes.specs.Quotes.{place, marked};
ghost use Rattle.text_words.specs.Text.{lines};
ghost use Rattle.trace_text.specs.Traces.{contents as trace_contents};
ghost use Rattle.model_histories.specs.Faults.{HasCause};
ghost use Rattle.model_histories.specs.Legal.{IsLegal};
ghost use Rattle.model_histories.specs.Shapes.{Shape};
ghost use Rattle.model_histories.specs.States.{GateState};
ghost use Rattle.text_buffers.specs.Builders.{Adds};
ghost use Rattle.race_explanations.specs.Illegal.{HasReason, request_line, at_of, strand_of, told_request, title_words, help_words, reason_text};
ghost use Rattle.race_explanations.specs.Illegal.{error_title, request_note, help_note, illegal_in, illegal_text};

use race_gate::{Entry, GateFault};
use race_pairs::{Standing, count_strands, standing_of};
use source_quotes::{
    Look, Paint, Source, push_marked_line, push_note_sign, push_painted, push_place, statement_of,
};
use std::alloc::{AllocError, Global};
use text_buffers::TextBuilder;
use text_words::{Request, TraceLine};
use trace_text::Trace;

/// Why a request is illegal.
#[derive(Clone, Copy)]
pub enum Illegality {
    /// Its strand ended at the request with this number, from 1 on.
    Ended(usize),
    /// Its strand is the join of the block that the spawn with this number opened, and has not begun.
    NotBegun(usize),
    /// Its strand has a number that no spawn has given: those below this one are given.
    NoStrand(usize),
    /// It returns from a function with an open block.
    OpenBlock,
    /// It names a cell or a reducer that is not declared.
    NoName,
}

/// Why a strand does not run, where it does not.
fn illegality_of_strand(entries: &[Entry], strand: u32) -> Option<Illegality>
    requires { (shape : Shape) × IsLegal shape (reverse entries.now) }
    ensures { IfSome result (λ why. (state : GateState) (request : Request) → state.history ≡ reverse entries.now →
        request.strand ≡ strand → HasReason state request why) }
{
    match standing_of(entries, strand) {
        Standing::Ended(number) => Some(Illegality::Ended(number)),
        Standing::Reserved(number) => Some(Illegality::NotBegun(number)),
        Standing::Absent => Some(Illegality::NoStrand(count_strands(entries))),
        Standing::Running => None,
    }
}

/// Why a gate with these entries, the oldest first, does not answer a request with this fault. None where the fault is none of the request:
/// the gate was stopped, is at its limit, or has no memory.
pub fn find_illegality(entries: &[Entry], request: Request, fault: GateFault) -> Option<Illegality>
    requires { (shape : Shape) × IsLegal shape (reverse entries.now) }
    ensures { IfSome result (λ why. (state : GateState) → state.history ≡ reverse entries.now → HasCause state request fault →
        HasReason state request why) }
{
    match fault {
        GateFault::NotRunning => illegality_of_strand(entries, request.strand),
        GateFault::BadName => Some(Illegality::NoName),
        GateFault::Unsynced => Some(Illegality::OpenBlock),
        GateFault::Stopped | GateFault::Limit | GateFault::Memory => None,
    }
}

/// The line of the request with this number, from 1 on.
pub fn request_line(trace: &Trace<Global>, number: usize) -> Option<TraceLine>
    ensures { result ≡ request_line (trace_contents trace.now).lines number }
{
    let mut left = number;
    for line in trace.lines.iter() {
        if left == 1 {
            return Some(line);
        }
        left = left.saturating_sub(1);
    }
    None
}

/// The number of a line.
pub fn at_of(line: Option<TraceLine>) -> u32
    ensures { result ≡ at_of line }
{
    match line {
        Some(line) => line.at,
        None => 0,
    }
}

/// The strand that asks on a line.
pub fn strand_of(line: Option<TraceLine>) -> u32
    ensures { result ≡ strand_of line }
{
    match line {
        Some(line) => line.request.strand,
        None => 0,
    }
}

/// What is wrong.
pub fn title_words(why: Illegality) -> &'static str
    ensures { result.now ≡ title_words why }
{
    match why {
        Illegality::Ended(_) => "this strand has ended",
        Illegality::NotBegun(_) => "this strand has not begun",
        Illegality::NoStrand(_) => "no strand has this number",
        Illegality::OpenBlock => "this function has an open block",
        Illegality::NoName => "there is no such cell or reducer",
    }
}

/// What to do.
pub fn help_words(why: Illegality) -> &'static str
    ensures { result.now ≡ help_words why }
{
    match why {
        Illegality::Ended(_) => {
            "a spawn and a sync end their strand: `judge` prints the number by which the function goes on. Behind a return there is none"
        }
        Illegality::NotBegun(_) => {
            "it begins when its block is synced and each function that was spawned there has returned"
        }
        Illegality::NoStrand(_) => {
            "a spawn gives the next numbers to its child, to what follows it, and, where it opens a block, to the join"
        }
        Illegality::OpenBlock => "ask for a `sync` of this strand, and let the join return",
        Illegality::NoName => "declare it before the first request",
    }
}

/// Adds the line of the request with this number.
fn push_request(text: &mut TextBuilder, source: &Source<'_>, trace: &Trace<Global>, number: usize)
    ensures { Adds text.old (told_request source.now (trace_contents trace.now).lines number) text.new }
{
    let line = at_of(request_line(trace, number));
    text.push_number("line ", u64::from(line));
    text.push_words(": `");
    text.push_bytes(statement_of(source.line(line)));
    text.push_words("`");
}

/// Adds what is so of the strand.
fn push_reason(text: &mut TextBuilder, source: &Source<'_>, trace: &Trace<Global>, why: Illegality)
    ensures { Adds text.old (reason_text source.now (trace_contents trace.now).lines why) text.new }
{
    match why {
        Illegality::Ended(number) => {
            text.push_words(" ended at ");
            push_request(text, source, trace, number);
        }
        Illegality::NotBegun(number) => {
            text.push_words(" is the join of the block that opened at ");
            push_request(text, source, trace, number);
        }
        Illegality::NoStrand(count) => {
            text.push_number(
                " is none of those that have begun: the numbers below ",
                count as u64,
            );
            text.push_words(" are given");
        }
        Illegality::OpenBlock => {
            text.push_words(" returns from a function that has spawned and not synced");
        }
        Illegality::NoName => text.push_words(" asks for what the trace does not declare"),
    }
}

/// Adds the number of the request, and what is so of its strand.
fn push_note(
    text: &mut TextBuilder,
    look: Look,
    source: &Source<'_>,
    trace: &Trace<Global>,
    number: usize,
    why: Illegality,
)
    ensures { Adds text.old (request_note look source.now (trace_contents trace.now).lines number why) text.new }
{
    let strand = strand_of(request_line(trace, number));
    push_note_sign(text, look);
    text.push_number("request ", number as u64);
    text.push_number(": strand ", u64::from(strand));
    push_reason(text, source, trace, why);
    text.push_words("\n");
}

/// Adds what to do.
fn push_help(text: &mut TextBuilder, look: Look, why: Illegality)
    ensures { Adds text.old (help_note look why) text.new }
{
    push_note_sign(text, look);
    text.push_words("help: ");
    text.push_words(help_words(why));
    text.push_words("\n");
}

/// Adds what is wrong, and the line of the request.
fn push_head(
    text: &mut TextBuilder,
    look: Look,
    file: &str,
    source: &Source<'_>,
    line: u32,
    why: Illegality,
)
    ensures { Adds text.old (error_title look why ++ place look file.now line ++ marked look source.now line 94 ++ codes "\n") text.new }
{
    push_painted(text, look, Paint::Red, "error");
    text.push_words(": ");
    text.push_words(title_words(why));
    text.push_words("\n");
    push_place(text, look, file, line);
    push_marked_line(text, look, source, line, b'^');
    text.push_words("\n");
}

/// Adds all that is told of the request with this number.
fn push_illegal(
    text: &mut TextBuilder,
    look: Look,
    file: &str,
    source: &Source<'_>,
    trace: &Trace<Global>,
    number: usize,
    why: Illegality,
)
    ensures { Adds text.old (illegal_in look file.now source.now (trace_contents trace.now).lines number why) text.new }
{
    let line = at_of(request_line(trace, number));
    push_head(text, look, file, source, line, why);
    push_note(text, look, source, trace, number, why);
    push_help(text, look, why);
}

/// Explains to a person why the request with this number, from 1 on, of the trace that a text means is illegal: what is wrong, the line of
/// the request with a sign below it, its number and strand with the line that made it illegal, and what to do. Errors where there is no
/// memory.
pub fn illegal_explanation(
    alloc: Global,
    is_painted: bool,
    file: &str,
    text: &[u8],
    trace: &Trace<Global>,
    number: usize,
    why: Illegality,
) -> Result<Vec<u8>, AllocError>
    ensures { IfOk result (λ told. told.items ≡ illegal_text is_painted file.now (lines text.now) (trace_contents trace.now).lines number why) }
{
    let source = Source::new(alloc, text)?;
    let look = Look::of(is_painted, &source);
    let mut told = TextBuilder::new(alloc);
    push_illegal(&mut told, look, file, &source, trace, number, why);
    told.end()
}
