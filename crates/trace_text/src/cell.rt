//! Names of cells and reducers.

ghost use Rattle.std.specs.Prelude.{◌≡◌, ◌<◌, ◌≤◌, ◌++◌, IfOk, OnOk, IsTrue, length, option_copied, string_bytes};
ghost use Rattle.std.specs.List.{find};
ghost use Rattle.std.specs.List.Sorted.{IsPartitionPoint};
ghost use Rattle.text_words.specs.Declarations.{cells_of};
ghost use Rattle.trace_text.specs.Shapes.{is_numbered, has_cell, name_in, name_of_cell};
ghost use Rattle.trace_text.specs.Printing.{name_of_reducer};

use std::alloc::{AllocError, Allocator};
use std::fmt::Write;
use text_words::{Mem, Reducer};

/// How many memories begin at this cell or before it.
fn count_begun(mems: &[Mem], location: u32) -> usize
    requires numbered { IsTrue (is_numbered 0 mems.now) }
    ensures bound { result ≤ length mems.now }
    ensures begun { IsPartitionPoint (λ mem. mem.first ≤ location) (λ mem. location < mem.first) mems.now result }
{
    mems.partition_point(|mem| mem.first <= location)
}

/// The memory that has the cell with this number, found by halving. The memories are those of a trace or a program, or the first of
/// them.
pub fn memory_at(mems: &[Mem], location: u32) -> Option<&Mem>
    requires numbered { IsTrue (is_numbered 0 mems.now) }
    ensures { option_copied result ≡ find (has_cell location) mems.now }
{
    let begun = count_begun(mems, location);
    if begun == 0 {
        return None;
    }
    let mem = &mems[begun - 1];
    if location - mem.first < mem.cells {
        Some(mem)
    } else {
        None
    }
}

/// Appends the name of a memory's cell with this index, as `x` or `a[3]`.
pub fn put_name<A: Allocator>(out: &mut String<A>, mem: &Mem, index: u32) -> Result<(), AllocError>
    ensures { OnOk result (string_bytes out.new ≡ string_bytes out.old ++ name_in mem.now index) }
{
    out.push_str(mem.name.as_str())?;
    if mem.array {
        write!(out, "[{index}]")?;
    }
    Ok(())
}

/// Appends the name of the cell with this number. The memories are those of a trace or a program, or the first of them.
pub fn put_cell_name<A: Allocator>(
    out: &mut String<A>,
    mems: &[Mem],
    location: u32,
) -> Result<(), AllocError>
    requires numbered { IsTrue (is_numbered 0 mems.now) }
    ensures { OnOk result (string_bytes out.new ≡ string_bytes out.old ++ name_of_cell mems.now location) }
{
    match memory_at(mems, location) {
        Some(mem) => put_name(out, mem, location - mem.first),
        None => Ok(()),
    }
}

/// The name of the reducer with this number, or no word.
pub fn reducer_name(reducers: &[Reducer], number: u32) -> &str
    ensures { result.now ≡ name_of_reducer reducers.now number }
{
    match reducers.get(number as usize) {
        Some(reducer) => reducer.name.as_str(),
        None => "",
    }
}

/// The name of a memory's cell with this index.
fn name_at<A: Allocator>(alloc: A, mem: &Mem, index: u32) -> Result<String<A>, AllocError>
    ensures { IfOk result (λ name. string_bytes name ≡ name_in mem.now index) }
{
    let mut name = String::new(alloc);
    match put_name(&mut name, mem, index) {
        Ok(()) => Ok(name),
        Err(error) => Err(error),
    }
}

/// The name of the cell with this number, as `x` or `a[3]`. The memories are those of a trace or a program, or the first of them.
pub fn cell_name<A: Allocator>(
    alloc: A,
    mems: &[Mem],
    location: u32,
) -> Result<String<A>, AllocError>
    requires numbered { IsTrue (is_numbered 0 mems.now) }
    requires within { location < cells_of mems.now }
    ensures { IfOk result (λ name. string_bytes name ≡ name_of_cell mems.now location) }
{
    match memory_at(mems, location) {
        Some(mem) => name_at(alloc, mem, location - mem.first),
        None => unreachable!(),
    }
}
