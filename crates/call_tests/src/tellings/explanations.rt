//! Whole explanations: tests/explain-programs.t has others.

use super::asked::{Deed, answers};
use super::texts::is_text;
use Act::{Call, Get, Sync, Write};
use program_text::Program;
use race_explanations::{Extent, explanation, most_pairs};
use race_gate::Gate;
use race_pairs::Digest;
use std::alloc::{AllocError, Global};
use std::process::Abort;
use std::test::Fail;
use text_words::Act;

/// What is told of the gate's history as a run of the program of this text is this.
fn is_told(
    rt: &impl Abort,
    alloc: Global,
    text: &str,
    program: &Program<Global>,
    gate: &Gate<Global>,
    wanted: &str,
) -> Result<(), AllocError> {
    let entries = gate.history();
    if entries.len() > 1_000_000 {
        return Err(AllocError);
    }
    let digest = Digest::of(alloc, entries, most_pairs(Extent::First))?;
    let bytes = text.as_bytes();
    let told = explanation(
        alloc,
        false,
        Extent::First,
        "p.cilk",
        bytes,
        program,
        &digest,
    )?;
    is_text(rt, told.as_slice(), wanted);
    Ok(())
}

/// The same of a program whose strands did these acts, on these lines.
fn is_explained(
    rt: &impl Abort,
    alloc: Global,
    text: &str,
    program: &Program<Global>,
    deeds: &[Deed],
    wanted: &str,
) -> Result<(), AllocError> {
    let shape = program.shape(alloc)?;
    let mut gate = Gate::new(alloc, &shape, 1000)?;
    assert!(rt; answers(&mut gate, deeds));
    is_told(rt, alloc, text, program, &gate, wanted)
}

/// A program's text, what its strands did, and what is told of it.
type Case<'a> = (&'a str, &'a [Deed], &'a str);

const CASES: &[Case<'static>] = &[
    // A get with nothing before it, in a function that was called.
    (
        "cilk 1\nreducer s last\nfunc main z\ncall f 1\nend\nfunc f v\nget a s\nend\n",
        &[(0, 4, Call), (0, 7, Get(0))],
        "unset get: nothing was put before into s, 1 time\n \
         --> p.cilk:7\n  \
         |\n\
         7 | get a s\n  \
         | ^^^^^^^ this get, in `f`, finds nothing\n  \
         = called at line 4, in `main`: call f 1\n  \
         = help: a `put` into it has to come first in the serial order\n\n\
         1 refusal at 1 pair of lines, among 2 requests\n",
    ),
    // Nothing was refused.
    (
        "cilk 1\nmem x\nfunc main z\nwrite x 1\nend\n",
        &[(0, 4, Write(0, 1)), (0, 5, Sync)],
        "0 refusals at 0 pairs of lines, among 2 requests\n",
    ),
];

#[test]
fn runs_are_explained(rt: HostRuntime) -> Result<(), Fail> {
    for (text, deeds, wanted) in CASES {
        let program = Program::parse(rt.alloc(), text.as_bytes())?;
        is_explained(&rt, rt.alloc(), text, &program, deeds, wanted)?;
    }
    Ok(())
}
