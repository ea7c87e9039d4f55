//! The text of a trace.

ghost use Rattle.std.specs.Prelude.{◌≡◌, ◌++◌, OnOk, IfOk, IsTrue, string_bytes};
ghost use Rattle.text_words.specs.declared.value.Version.{Version};
ghost use Rattle.text_words.specs.Values.{Known};
ghost use Rattle.trace_text.specs.Shapes.{is_numbered};
ghost use Rattle.trace_text.specs.Grammar.{TextMeans};
ghost use Rattle.trace_text.specs.Printing.{known_of, plain_text};
ghost use Rattle.program_text.specs.Programs.{contents};
ghost use Rattle.run_traces.specs.Traces.{trace_contents};
ghost use Rattle.run_traces.specs.Texts.{mems_text, reducers_text, requests_text};
ghost use Rattle.run_traces.specs.Laws.{IsRunOf};

use program_text::Program;
use race_gate::Entry;
use std::alloc::{AllocError, Allocator};
use text_words::{Mem, Reducer, TraceLine, version_word};
use trace_text::{put_memory, put_reducer, put_request, put_word};

/// Appends the lines of the memories.
fn put_memories<A: Allocator>(out: &mut String<A>, mems: &[Mem]) -> Result<(), AllocError>
    ensures { (known : Known) → OnOk result (string_bytes out.new ≡ string_bytes out.old ++ mems_text known mems.now) }
{
    for mem in mems {
        put_memory(out, mem)?;
        out.push_str("\n")?;
    }
    Ok(())
}

/// Appends the lines of the reducers.
fn put_reducers<A: Allocator>(out: &mut String<A>, reducers: &[Reducer]) -> Result<(), AllocError>
    ensures { (known : Known) → OnOk result (string_bytes out.new ≡ string_bytes out.old ++ reducers_text known reducers.now) }
{
    for reducer in reducers {
        put_reducer(out, reducer)?;
        out.push_str("\n")?;
    }
    Ok(())
}

/// Appends the lines of the requests.
fn put_requests<A: Allocator>(
    out: &mut String<A>,
    mems: &[Mem],
    reducers: &[Reducer],
    entries: &[Entry],
) -> Result<(), AllocError>
    requires numbered { IsTrue (is_numbered 0 mems.now) }
    ensures { (version : Version) →
        OnOk result (string_bytes out.new ≡ string_bytes out.old ++ requests_text (known_of version mems.now reducers.now) entries.now) }
{
    for entry in entries {
        let line = TraceLine {
            request: entry.request,
            at: 0,
            marked: true,
        };
        put_request(out, mems, reducers, &line)?;
        out.push_str("\n")?;
    }
    Ok(())
}

/// The plain text of the trace.
fn text_of<A: Allocator, B: Allocator>(
    alloc: B,
    program: &Program<A>,
    entries: &[Entry],
) -> Result<Vec<u8, B>, AllocError>
    ensures { IfOk result (λ text. text.items ≡ plain_text (trace_contents (contents program.now) entries.now)) }
{
    let mut out = String::from_str(alloc, "cilk")?;
    put_word(&mut out, version_word(program.version))?;
    out.push_str("\n")?;
    let mems = program.mems.as_slice();
    let reducers = program.reducers.as_slice();
    put_memories(&mut out, mems)?;
    put_reducers(&mut out, reducers)?;
    put_requests(&mut out, mems, reducers, entries)?;
    Ok(out.into_bytes())
}

/// The text of the trace of a program's entries, the oldest first: a line that names the program's version, a line for each memory and
/// then for each reducer that it declares, in their order, and a line for the request of each entry, in their order, with the mark that
/// names its line of the program. It is the plain text of that trace. Where the entries are a run of the program, finished or not, and
/// no more than a history has, the text means that trace, and no other.
pub fn trace_of<A: Allocator, B: Allocator>(
    alloc: B,
    program: &Program<A>,
    entries: &[Entry],
) -> Result<Vec<u8, B>, AllocError>
    ensures plain { IfOk result (λ text. text.items ≡ plain_text (trace_contents (contents program.now) entries.now)) }
    ensures means { IfOk result (λ text.
        IsRunOf (contents program.now) entries.now → ∥ TextMeans text.items (trace_contents (contents program.now) entries.now) ∥₁) }
{
    let text = text_of(alloc, program, entries)?;
    Ok(text)
}
