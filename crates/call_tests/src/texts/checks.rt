//! The checks that tests of texts share. Each is proved once, where a comparison in each of them would be proved in each.

ghost use Rattle.std.specs.Prelude.{◌≡◌, ◌<◌, IsTrue};
ghost use Rattle.text_words.specs.Declarations.{cells_of};
ghost use Rattle.trace_text.specs.Shapes.{is_numbered};

use std::alloc::Global;
use text_words::{Cause, Mem, Monoid, Shape, TextFault};
use trace_text::cell_name;

/// What a text gives, or its fault: the line, and why.
pub type Given<T> = Result<T, (u32, Cause)>;

/// What was given, or none where memory was refused.
pub fn reading_of<T: Drop>(found: Result<T, TextFault>) -> Option<Given<T>> {
    match found {
        Ok(given) => Some(Ok(given)),
        Err(TextFault::At { line, why }) => Some(Err((line, why))),
        Err(TextFault::Memory) => None,
    }
}

/// Whether this is what a cell is called.
fn is_called(alloc: Global, mems: &[Mem], cell: u32, name: &str) -> bool
    requires numbered { IsTrue (is_numbered 0 mems.now) }
    requires within { cell < cells_of mems.now }
{
    match cell_name(alloc, mems, cell) {
        Ok(found) => found.as_str() == name,
        Err(_) => false,
    }
}

/// Whether there are three cells, of which the first is `x` and the last the second of `a`, and reducers of these monoids.
pub fn has_cells(alloc: Global, shape: &Shape<Global>, mems: &[Mem], monoids: &[Monoid]) -> bool
    requires numbered { IsTrue (is_numbered 0 mems.now) }
    requires cells { cells_of mems.now ≡ shape.now.cells }
{
    shape.cells == 3
        && shape.monoids.as_slice() == monoids
        && is_called(alloc, mems, 0, "x")
        && is_called(alloc, mems, 2, "a[1]")
}
