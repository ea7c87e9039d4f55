//! The final memory of a run as JSON.

ghost use Rattle.std.specs.Prelude.{◌≡◌, ◌++◌, IfOk, OnOk, map};
ghost use Rattle.serde_json.specs.View.{view};
ghost use Rattle.tool_commands.specs.Memories.{cell_value, cell_values, memory_values, memory_told};

use crate::elide::push_name;
use race_records::text_value;
use serde_json::{Value, json};
use std::alloc::{AllocError, Global};
use text_buffers::TextBuilder;
use text_words::Mem;

/// What a memory's cell with this index holds.
fn cell_value(alloc: Global, mem: &Mem, index: usize, value: u64) -> Result<Value, AllocError>
    ensures { IfOk result (λ cell. view cell ≡ cell_value mem.now index value) }
{
    let mut name = TextBuilder::new(alloc);
    push_name(&mut name, mem, index);
    let name = text_value(alloc, name.end()?.as_slice())?;
    json!(in alloc; {"cell": name, "value": value})
}

/// Adds what the cells of a memory hold.
fn push_cells(
    alloc: Global,
    cells: &mut Vec<Value>,
    mem: &Mem,
    values: &[u64],
) -> Result<(), AllocError>
    ensures { OnOk result (map view cells.new.items ≡ map view cells.old.items ++ cell_values mem.now 0 values.now) }
{
    for (index, value) in values.iter().enumerate() {
        cells.push(cell_value(alloc, mem, index, *value)?)?;
    }
    Ok(())
}

/// What all cells hold, in their order.
pub(crate) fn memory_value(alloc: Global, mems: &[Mem], values: &[u64]) -> Result<Value, AllocError>
    ensures { IfOk result (λ value. view value ≡ memory_told mems.now values.now) }
{
    let mut cells = Vec::new(alloc);
    let mut rest = values;
    for mem in mems {
        let (own, others) = rest.split_at(rest.len().min(mem.cells as usize));
        push_cells(alloc, &mut cells, mem, own)?;
        rest = others;
    }
    Ok(Value::from(cells))
}
