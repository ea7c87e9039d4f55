//! Gates for programs.

ghost use Rattle.std.specs.Prelude.{◌≡◌, ◌≤◌, IfOk};
ghost use Rattle.model_histories.specs.Shapes.{most_entries};
ghost use Rattle.model_histories.specs.States.{opening};
ghost use Rattle.program_text.specs.Shapes.{shape_in};

use program_text::Program;
use race_gate::ShortGate;
use std::alloc::{AllocError, Allocator};

/// A gate of the cells and reducers that the program declares, which was asked nothing, and whose history takes so many entries.
pub fn open_gate<A: Allocator + Copy, B: Allocator>(
    alloc: A,
    program: &Program<B>,
    limit: u32,
) -> Result<ShortGate<A>, AllocError>
    requires { limit ≤ most_entries }
    ensures { IfOk result (λ gate. gate ≡ opening (shape_in program.now) limit) }
{
    let shape = program.shape(alloc)?;
    ShortGate::new(alloc, &shape, limit)
}
