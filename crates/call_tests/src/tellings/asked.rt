//! Requests that a gate answers.

ghost use Rattle.std.specs.Prelude.{◌≤◌, length};
ghost use Rattle.model_accesses.specs.Limits.{most_cells};
ghost use Rattle.model_reducers.specs.Limits.{most_reducers};

use crate::openings::gate_of;
use race_gate::Gate;
use std::alloc::{AllocError, Global};
use std::process::Abort;
use text_words::{Act, Monoid, Request};

/// The most entries of a gate that is asked.
const MOST_ENTRIES: u32 = 1_000_000;

/// An act of a strand, on a line.
pub type Deed = (u32, u32, Act);

/// Whether the gate answers each of these acts.
pub fn answers(gate: &mut Gate<Global>, deeds: &[Deed]) -> bool {
    for (strand, line, act) in deeds {
        let request = Request {
            strand: *strand,
            line: *line,
            act: *act,
        };
        if gate.judge(request).is_err() {
            return false;
        }
    }
    true
}

/// A gate of so many cells and of these reducers, which has answered each of these acts.
pub fn ask_gate(
    rt: &impl Abort,
    alloc: Global,
    cells: u32,
    monoids: &[Monoid],
    deeds: &[Deed],
) -> Result<Gate<Global>, AllocError>
    requires cells { cells ≤ most_cells }
    requires reducers { length monoids.now ≤ most_reducers }
{
    let mut gate = gate_of(alloc, cells, monoids, MOST_ENTRIES)?;
    assert!(rt; answers(&mut gate, deeds));
    Ok(gate)
}
