//! A worked history, drawn: tests/draw.t has it as a picture, and with notes.

use super::asked::{Deed, ask_gate};
use super::texts::is_text;
use dag_drawing::{Form, Names, draw, write_drawing};
use race_gate::Gate;
use std::alloc::{AllocError, Global};
use std::test::Fail;
use text_words::{Act, Monoid, Name, Reducer};
use trace_notes::Notes;

/// The text of the drawing of the gate's history, with these reducers.
fn draw_history(
    alloc: Global,
    gate: &Gate<Global>,
    reducers: &[Reducer],
) -> Result<Vec<u8>, AllocError> {
    let notes = Notes::new(alloc);
    let names = Names {
        mems: &[],
        reducers,
        notes: &notes,
    };
    match draw(alloc, gate.history())? {
        Some(drawing) => write_drawing(alloc, Form::Dot, &names, &drawing),
        None => Ok(Vec::new(alloc)),
    }
}

const DEEDS: &[Deed] = &[
    (0, 1, Act::Spawn),
    (1, 1, Act::Put(0, 5)),
    (1, 1, Act::Spawn),
    (4, 1, Act::Update(0, 1)),
    (4, 1, Act::Return),
    (5, 1, Act::Sync),
    (6, 1, Act::Get(0)),
    (2, 1, Act::Get(0)),
];

const DRAWN: &str =
    "digraph trace {\n  0 [label=\"0\\l\"];\n  1 [label=\"1\\l2 put h\\l\"];\n  2 [label=\"2\\l8 get h refused\\l\"];\n  4 [label=\"4\\l4 update h\\l\"];\n  5 [label=\"5\\l\"];\n  6 [label=\"6\\l7 get h\\l\"];\n  0 -> 1 [label=\"child\"];\n  0 -> 2 [label=\"next\"];\n  1 -> 4 [label=\"child\"];\n  1 -> 5 [label=\"next\"];\n  4 -> 6 [label=\"join\"];\n  5 -> 6 [label=\"join\"];\n  1 -> 2 [label=\"view-read on h\", color=red, fontcolor=red, constraint=false];\n}\n";

/// A put before a child spawns, and a get behind the spawn: the get has other peers.
#[test]
fn a_view_read_race(rt: HostRuntime) -> Result<(), Fail> {
    let gate = ask_gate(&rt, rt.alloc(), 0, &[Monoid::Sum], DEEDS)?;
    let reducers = [Reducer {
        name: Name::new("h"),
        monoid: Monoid::Sum,
        line: 1,
    }];
    let text = draw_history(rt.alloc(), &gate, &reducers)?;
    is_text(&rt, text.as_slice(), DRAWN);
    Ok(())
}
