//! What declares a name.

ghost use Rattle.std.specs.Prelude.{◌≡◌, ℕ, List, Some, None, cond, IfOk, OnOk};
ghost use Rattle.std.specs.Option.{option_or};
ghost use Rattle.std.specs.Str.{bytes_eq};
ghost use Rattle.program_warnings.specs.Declarations.{of_memory, of_reducer, declared_in, stored_at};

use std::alloc::{AllocError, Global};
use std::collections::BTreeMap;
use text_words::{Mem, Reducer};

/// What a declaration declares.
#[derive(Clone, Copy)]
pub enum Sort {
    /// A memory.
    Memory,
    /// A reducer.
    Reducer,
}

/// A declaration.
#[derive(Clone, Copy)]
pub struct Declared {
    /// What it declares.
    pub sort: Sort,
    /// Its line.
    pub line: u32,
}

/// What each name is declared as.
pub(crate) type Declarations<'a> = BTreeMap<&'a [u8], Declared, Global>;

fn of_memory(mem: &Mem) -> Declared
    ensures { result ≡ of_memory mem.now }
{
    Declared {
        sort: Sort::Memory,
        line: mem.line,
    }
}

fn of_reducer(reducer: &Reducer) -> Declared
    ensures { result ≡ of_reducer reducer.now }
{
    Declared {
        sort: Sort::Reducer,
        line: reducer.line,
    }
}

/// What a name is declared as.
pub(crate) fn declared_at(names: &Declarations<'_>, name: &[u8]) -> Option<Declared>
    ensures { result ≡ stored_at names.now name.now }
{
    names.get(name).copied()
}

/// Adds a declaration, unless the name is declared before.
fn declare<'a>(
    names: &mut Declarations<'a>,
    name: &'a [u8],
    declared: Declared,
) -> Result<(), AllocError>
    ensures { OnOk result ((other : List ℕ) → stored_at names.new other ≡
        option_or (stored_at names.old other) (cond (bytes_eq other name.now) (Some declared) None)) }
{
    if declared_at(names, name).is_some() {
        return Ok(());
    }
    names.insert(name, declared)?;
    Ok(())
}

/// The declarations of these memories and reducers.
pub(crate) fn declarations<'a>(
    alloc: Global,
    mems: &'a [Mem],
    reducers: &'a [Reducer],
) -> Result<Declarations<'a>, AllocError>
    ensures { IfOk result (λ names. (name : List ℕ) → stored_at names name ≡ declared_in mems.now reducers.now name) }
{
    let mut names = BTreeMap::new(alloc);
    for mem in mems {
        declare(&mut names, mem.name.as_str().as_bytes(), of_memory(mem))?;
    }
    for reducer in reducers {
        declare(
            &mut names,
            reducer.name.as_str().as_bytes(),
            of_reducer(reducer),
        )?;
    }
    Ok(names)
}
