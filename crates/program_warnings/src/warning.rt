//! The warnings of a program.

ghost use Rattle.std.specs.Prelude.{◌≡◌, ◌++◌, ◌∷◌, [], IfOk, OnOk, option_map, if◌then◌else◌};
ghost use Rattle.std.specs.List.{find, flat_map};
ghost use Rattle.std.specs.Ordering.{nat_cmp};
ghost use Rattle.std.specs.BTreeMap.{get};
ghost use Rattle.model_bodies.specs.Lines.{line_of};
ghost use Rattle.program_warnings.specs.Reach.{is_marked};
ghost use Rattle.program_warnings.specs.Declarations.{stored_at};
ghost use Rattle.program_warnings.specs.Warnings.{binds, binding_line, register_warning, register_warnings, run_warnings, index_warnings};
ghost use Rattle.program_warnings.specs.Warnings.{statement_warnings, reach_warnings, body_warnings, function_warnings, warnings_from};

use crate::declarations::{Declarations, Declared, declared_at};
use crate::reach::is_marked;
use program_text::{Function, Location, Operand, Statement};
use std::alloc::{AllocError, Global};
use std::collections::BTreeMap;
use text_words::Name;

/// What a text allows, and is rarely meant.
#[derive(Clone, Copy)]
pub enum Warning {
    /// A register bears a name that is declared.
    Register {
        /// The line that binds the register first.
        line: u32,
        /// The number of its function.
        function: usize,
        /// Its number.
        register: usize,
        /// The declaration.
        declared: Declared,
    },
    /// No spawn or call leads from `main` to a function.
    Unreached {
        /// The line of the function.
        line: u32,
        /// Its number.
        function: usize,
    },
    /// A reducer is read, and no function that is reached puts it.
    Unput {
        /// The line of the `get`.
        line: u32,
        /// The reducer's number.
        reducer: u32,
    },
    /// An index that is written as a number is not below the length of its array.
    Wrapped {
        /// The line of the access.
        line: u32,
        /// The index.
        index: u64,
        /// The length.
        length: u32,
    },
    /// An index that a register holds is not below the length of its array in a run.
    WrappedInRun {
        /// The line of the access.
        line: u32,
        /// The number of its function.
        function: usize,
        /// The first such index.
        index: u64,
        /// The length.
        length: u32,
    },
}

/// The first index that a run wraps at each line.
pub type Wraps = BTreeMap<u32, u64, Global>;

fn binds(register: usize, statement: Statement) -> bool
    ensures { result ≡ binds register statement }
{
    match statement {
        Statement::Let {
            register: assigned,
            ..
        }
        | Statement::Read {
            register: assigned,
            ..
        }
        | Statement::Get {
            register: assigned,
            ..
        }
        | Statement::ParallelFor {
            register: assigned,
            ..
        } => usize::from(assigned.index) == register,
        _ => false,
    }
}

fn line_of(statement: Statement) -> u32
    ensures { result ≡ line_of statement }
{
    match statement {
        Statement::Let { line, .. }
        | Statement::Read { line, .. }
        | Statement::Write { line, .. }
        | Statement::Bump { line, .. }
        | Statement::Update { line, .. }
        | Statement::Put { line, .. }
        | Statement::Get { line, .. }
        | Statement::Spawn { line, .. }
        | Statement::Call { line, .. }
        | Statement::Sync { line }
        | Statement::ParallelFor { line, .. }
        | Statement::If { line, .. }
        | Statement::Else { line, .. }
        | Statement::End { line } => line,
    }
}

/// The line of the first statement that binds a register.
fn bound_in(body: &[Statement], register: usize) -> Option<u32>
    ensures { result ≡ option_map line_of (find (binds register) body.now) }
{
    for statement in body {
        if binds(register, *statement) {
            return Some(line_of(*statement));
        }
    }
    None
}

/// The first line that binds a register.
fn binding_line(function: &Function<Global>, register: usize) -> Option<u32>
    ensures { result ≡ binding_line function.now register }
{
    if register == 1 {
        return Some(function.line);
    }
    bound_in(function.body.as_slice(), register)
}

/// Adds a warning.
fn add(warnings: &mut Vec<Warning>, warning: Warning) -> Result<(), AllocError>
    ensures { OnOk result (warnings.new.items ≡ warnings.old.items ++ warning ∷ []) }
{
    warnings.push(warning)?;
    Ok(())
}

/// Adds a register whose name is declared.
fn add_register(
    warnings: &mut Vec<Warning>,
    number: usize,
    function: &Function<Global>,
    register: usize,
    declared: Option<Declared>,
) -> Result<(), AllocError>
    ensures { OnOk result (warnings.new.items ≡ warnings.old.items ++ register_warning number register declared (binding_line function.now register)) }
{
    let Some(declared) = declared else {
        return Ok(());
    };
    match binding_line(function, register) {
        Some(line) => add(
            warnings,
            Warning::Register {
                line,
                function: number,
                register,
                declared,
            },
        ),
        None => Ok(()),
    }
}

/// Adds the registers whose names are declared.
fn add_registers(
    warnings: &mut Vec<Warning>,
    names: &Declarations<'_>,
    number: usize,
    function: &Function<Global>,
    registers: &[Name],
) -> Result<(), AllocError>
    ensures { OnOk result (warnings.new.items ≡ warnings.old.items ++ register_warnings (stored_at names.now) number function.now 1 registers.now) }
{
    for (index, name) in registers.iter().enumerate() {
        let declared = declared_at(names, name.as_str().as_bytes());
        add_register(warnings, number, function, index + 1, declared)?;
    }
    Ok(())
}

/// Adds the index that a run wraps first on a line.
fn add_wrap(
    warnings: &mut Vec<Warning>,
    wraps: &Wraps,
    function: usize,
    line: u32,
    length: u32,
) -> Result<(), AllocError>
    ensures { OnOk result (warnings.new.items ≡ warnings.old.items ++ run_warnings line function length (get nat_cmp wraps.now line)) }
{
    match wraps.get(&line).copied() {
        Some(index) => add(
            warnings,
            Warning::WrappedInRun {
                line,
                function,
                index,
                length,
            },
        ),
        None => Ok(()),
    }
}

/// Adds an index that wraps.
fn add_index(
    warnings: &mut Vec<Warning>,
    wraps: &Wraps,
    function: usize,
    line: u32,
    location: Location,
) -> Result<(), AllocError>
    ensures { OnOk result (warnings.new.items ≡ warnings.old.items ++ index_warnings (get nat_cmp wraps.now) function line location) }
{
    match location {
        Location::Element {
            length,
            index: Operand::Held(_),
            ..
        } => add_wrap(warnings, wraps, function, line, length),
        Location::Element {
            length,
            index: Operand::Number(index),
            ..
        } if index >= u64::from(length) => add(
            warnings,
            Warning::Wrapped {
                line,
                index,
                length,
            },
        ),
        _ => Ok(()),
    }
}

/// Adds a reducer that is read and not put.
fn add_get(
    warnings: &mut Vec<Warning>,
    put: &[bool],
    line: u32,
    reducer: u32,
) -> Result<(), AllocError>
    ensures { OnOk result (warnings.new.items ≡ warnings.old.items ++ (if is_marked put.now reducer then [] else Warning.Unput line reducer ∷ [])) }
{
    if is_marked(put, reducer as usize) {
        return Ok(());
    }
    add(warnings, Warning::Unput { line, reducer })
}

/// Adds the warnings of a statement.
fn add_statement(
    warnings: &mut Vec<Warning>,
    put: &[bool],
    wraps: &Wraps,
    function: usize,
    statement: Statement,
) -> Result<(), AllocError>
    ensures { OnOk result (warnings.new.items ≡ warnings.old.items ++ statement_warnings (is_marked put.now) (get nat_cmp wraps.now) function statement) }
{
    match statement {
        Statement::Read { line, location, .. }
        | Statement::Write { line, location, .. }
        | Statement::Bump { line, location, .. } => {
            add_index(warnings, wraps, function, line, location)
        }
        Statement::Get { line, reducer, .. } => add_get(warnings, put, line, reducer),
        _ => Ok(()),
    }
}

/// Adds the warnings of statements.
fn add_statements(
    warnings: &mut Vec<Warning>,
    put: &[bool],
    wraps: &Wraps,
    function: usize,
    body: &[Statement],
) -> Result<(), AllocError>
    ensures { OnOk result (warnings.new.items ≡ warnings.old.items ++
        flat_map (statement_warnings (is_marked put.now) (get nat_cmp wraps.now) function) body.now) }
{
    for statement in body {
        add_statement(warnings, put, wraps, function, *statement)?;
    }
    Ok(())
}

/// Adds that a function is not reached.
fn add_reach(
    warnings: &mut Vec<Warning>,
    is_reached: bool,
    number: usize,
    function: &Function<Global>,
) -> Result<(), AllocError>
    ensures { OnOk result (warnings.new.items ≡ warnings.old.items ++ reach_warnings is_reached number function.now) }
{
    if is_reached {
        return Ok(());
    }
    add(
        warnings,
        Warning::Unreached {
            line: function.line,
            function: number,
        },
    )
}

/// Adds the warnings of a function's statements, where it is reached.
fn add_body(
    warnings: &mut Vec<Warning>,
    is_reached: bool,
    put: &[bool],
    wraps: &Wraps,
    number: usize,
    function: &Function<Global>,
) -> Result<(), AllocError>
    ensures { OnOk result (warnings.new.items ≡ warnings.old.items ++
        body_warnings is_reached (is_marked put.now) (get nat_cmp wraps.now) number function.now) }
{
    if !is_reached {
        return Ok(());
    }
    add_statements(warnings, put, wraps, number, function.body.as_slice())
}

/// Adds the warnings of a function.
fn add_function(
    warnings: &mut Vec<Warning>,
    names: &Declarations<'_>,
    reached: &[bool],
    put: &[bool],
    wraps: &Wraps,
    number: usize,
    function: &Function<Global>,
) -> Result<(), AllocError>
    ensures { OnOk result (warnings.new.items ≡ warnings.old.items ++
        function_warnings (stored_at names.now) (is_marked reached.now) (is_marked put.now) (get nat_cmp wraps.now) number function.now) }
{
    let is_reached = is_marked(reached, number);
    add_reach(warnings, is_reached, number, function)?;
    add_registers(
        warnings,
        names,
        number,
        function,
        function.registers.as_slice(),
    )?;
    add_body(warnings, is_reached, put, wraps, number, function)
}

/// The warnings of these functions, by what is declared, which functions are reached, which reducers are put, and which indexes a run
/// wraps.
pub(crate) fn warnings_of(
    alloc: Global,
    names: &Declarations<'_>,
    reached: &[bool],
    put: &[bool],
    wraps: &Wraps,
    functions: &[Function<Global>],
) -> Result<Vec<Warning>, AllocError>
    ensures { IfOk result (λ warnings. warnings.items ≡
        warnings_from (stored_at names.now) (is_marked reached.now) (is_marked put.now) (get nat_cmp wraps.now) 0 functions.now) }
{
    let mut warnings = Vec::new(alloc);
    for (number, function) in functions.iter().enumerate() {
        add_function(&mut warnings, names, reached, put, wraps, number, function)?;
    }
    Ok(warnings)
}
