//! Whether a program and a trace declare the same.

ghost use Rattle.std.specs.Prelude.{◌≡◌, ◌↔◌, IsTrue};
ghost use Rattle.std.specs.List.{AllZip};
ghost use Rattle.trace_text.specs.Traces.{contents as trace_contents};
ghost use Rattle.program_text.specs.Programs.{contents};
ghost use Rattle.tool_commands.specs.Declarations.{IsSameMem, IsSameReducer, DeclareSame};

use program_text::Program;
use std::alloc::Allocator;
use text_words::{Mem, Reducer};
use trace_text::Trace;

/// Whether the two have the same name and as many cells, and both are arrays or neither is.
fn is_same_mem(one: &Mem, other: &Mem) -> bool
    ensures { IsTrue result ↔ IsSameMem one.now other.now }
{
    one.name.as_str() == other.name.as_str() && one.cells == other.cells && one.array == other.array
}

fn are_same_mems(one: &[Mem], other: &[Mem]) -> bool
    ensures { IsTrue result ↔ AllZip IsSameMem one.now other.now }
{
    if one.len() != other.len() {
        return false;
    }
    for at in 0..one.len() {
        if !is_same_mem(&one[at], &other[at]) {
            return false;
        }
    }
    true
}

/// Whether the two have the same name and monoid.
fn is_same_reducer(one: &Reducer, other: &Reducer) -> bool
    ensures { IsTrue result ↔ IsSameReducer one.now other.now }
{
    one.name.as_str() == other.name.as_str() && one.monoid == other.monoid
}

fn are_same_reducers(one: &[Reducer], other: &[Reducer]) -> bool
    ensures { IsTrue result ↔ AllZip IsSameReducer one.now other.now }
{
    if one.len() != other.len() {
        return false;
    }
    for at in 0..one.len() {
        if !is_same_reducer(&one[at], &other[at]) {
            return false;
        }
    }
    true
}

/// Whether a program and a trace declare the same memories in the same order, and the same reducers.
pub fn declare_same<A: Allocator>(program: &Program<A>, trace: &Trace<A>) -> bool
    ensures { IsTrue result ↔ DeclareSame (contents program.now).known (trace_contents trace.now).known }
{
    are_same_mems(program.mems.as_slice(), trace.mems.as_slice())
        && are_same_reducers(program.reducers.as_slice(), trace.reducers.as_slice())
}
