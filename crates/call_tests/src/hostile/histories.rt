//! Histories of a run that break off, or in which an entry is changed.

ghost use Rattle.std.specs.Prelude.{◌<◌, ◌≤◌, length};

use crate::checks::equal;
use crate::hostile::pranks::Prank;
use crate::hostile::rounds::play;
use crate::hostile::worked::FIB;
use program_text::Program;
use race_gate::{Answer, Entry};
use run_replay::{ReplayFault, replay};
use std::alloc::{AllocError, Global};
use std::process::Abort;
use std::test::Fail;

/// With this entry in place of those from a place up to another, the entries are strange from the one of this number on.
fn is_strange(
    rt: &impl Abort,
    alloc: Global,
    program: &Program<Global>,
    entries: &[Entry],
    entry: Entry,
    from: usize,
    to: usize,
    number: usize,
) -> Result<(), AllocError>
    requires from { from ≤ length entries.now }
    requires to { to ≤ length entries.now }
    requires number { number ≤ 714 }
{
    let mut changed = Vec::from_slice(alloc, &entries[..from])?;
    changed.push(entry)?;
    changed.extend_from_slice(&entries[to..])?;
    let found = replay(alloc, program, changed.as_slice());
    equal(
        rt,
        &number,
        &found,
        &Err(ReplayFault::Strange(number as u32)),
    );
    Ok(())
}

/// The entries are a run, which breaks off wherever it is cut, and is strange with any answer Unset, and with any entry twice.
fn check(
    rt: &impl Abort,
    alloc: Global,
    program: &Program<Global>,
    entries: &[Entry],
) -> Result<(), AllocError> {
    assert!(rt; entries.len() == 713);
    equal(rt, &"whole", &replay(alloc, program, entries), &Ok(()));
    for place in 0..entries.len() {
        let found = replay(alloc, program, &entries[..place]);
        equal(rt, &place, &found, &Err(ReplayFault::Unfinished));
        let entry = entries[place];
        let unset = Entry {
            answer: Answer::Unset,
            ..entry
        };
        is_strange(
            rt,
            alloc,
            program,
            entries,
            unset,
            place,
            place + 1,
            place + 1,
        )?;
        is_strange(rt, alloc, program, entries, entry, place, place, place + 2)?;
    }
    Ok(())
}

#[test]
fn runs_that_break_off_or_are_changed(rt: HostRuntime) -> Result<(), Fail> {
    let program = Program::parse(rt.alloc(), FIB)?;
    let whole = play(&rt, rt.alloc(), &program, 1, Prank::Turns)?;
    let entries = whole.entries.to_vec(rt.alloc())?;
    check(&rt, rt.alloc(), &program, entries.as_slice())?;
    Ok(())
}
