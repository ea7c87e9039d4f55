//! Gates that were asked nothing.

ghost use Rattle.std.specs.Prelude.{◌≡◌, ◌≤◌, [], length, IfOk};
ghost use Rattle.program_text.specs.Programs.{contents};
ghost use Rattle.model_accesses.specs.Limits.{most_cells};
ghost use Rattle.model_reducers.specs.Limits.{most_reducers};
ghost use Rattle.model_histories.specs.Shapes.{most_entries};
ghost use Rattle.race_report.specs.Conditions.{shape_known};

use program_text::Program;
use race_gate::{Gate, ShortGate};
use std::alloc::{AllocError, Global};
use text_words::{Monoid, Monoids, Shape};

/// A gate of so many cells and of these reducers.
pub fn gate_of(
    alloc: Global,
    cells: u32,
    monoids: &[Monoid],
    limit: u32,
) -> Result<Gate<Global>, AllocError>
    requires cells { cells ≤ most_cells }
    requires reducers { length monoids.now ≤ most_reducers }
    requires entries { limit ≤ most_entries }
    ensures { IfOk result (λ gate. gate.shape.cells ≡ cells) }
{
    let shape = Shape {
        cells,
        monoids: Monoids::new(monoids.to_vec(alloc)?),
    };
    Gate::new(alloc, &shape, limit)
}

/// A gate of the program.
pub fn gate_for(
    alloc: Global,
    program: &Program<Global>,
    limit: u32,
) -> Result<ShortGate, AllocError>
    requires { limit ≤ most_entries }
    ensures history { IfOk result (λ gate. gate.history ≡ []) }
    ensures shape { IfOk result (λ gate. gate.shape ≡ shape_known (contents program.now).known) }
{
    let shape = program.shape(alloc)?;
    ShortGate::new(alloc, &shape, limit)
}

/// A gate of the program's reducers and of so many cells.
pub fn gate_of_cells(
    alloc: Global,
    program: &Program<Global>,
    cells: u32,
    limit: u32,
) -> Result<ShortGate, AllocError>
    requires cells { cells ≤ most_cells }
    requires entries { limit ≤ most_entries }
    ensures { IfOk result (λ gate. gate.history ≡ []) }
{
    let mut shape = program.shape(alloc)?;
    shape.cells = cells;
    ShortGate::new(alloc, &shape, limit)
}
