//! Growths of traces and of their texts.

use super::{Asked, Heap, Told};
use text_words::{Monoid, TextFault};
use trace_text::{Trace, cell_name};

/// A trace with three cells and two reducers, in which something is asked for on five lines, the last with the line of a program.
const TEXT: &[u8] =
    b"cilk 1\nmem x\nmem a 2\nreducer h sum\nreducer g min\nspawn 0\nwrite 1 a[1] 7\n\nread 2 x\nupdate 2 h 3\nget 2 g @12\n";

/// Its reducers.
const MONOIDS: &[Monoid] = &[Monoid::Sum, Monoid::Min];

/// The trace, which was read, tells its text, its shape, and then the name of its third cell. It has five lines that ask for something.
fn ask_trace(heap: &Heap, trace: &Trace<&Heap>) -> Asked {
    let Ok(text) = trace.print(heap) else {
        return Err("Trace::print");
    };
    let Ok(shape) = trace.shape(heap) else {
        return Err("Trace::shape");
    };
    if shape.cells != 3 || shape.monoids.as_slice() != MONOIDS {
        return Ok(false);
    }
    let Ok(name) = cell_name(heap, trace.mems.as_slice(), 2) else {
        return Err("cell_name");
    };
    Ok(trace.lines.len() == 5 && text.as_slice() == TEXT && name.as_str() == "a[1]")
}

pub(super) fn call_trace(heap: &Heap, told: &mut Told) -> Asked {
    match Trace::parse(heap, TEXT) {
        Ok(trace) => again!(told, ask_trace(heap, &trace)),
        Err(TextFault::Memory) => Err("Trace::parse"),
        Err(_) => Ok(false),
    }
}
