//! The plain words of statements.

ghost use Rattle.std.specs.Prelude.{◌≡◌, ◌++◌, ◌∷◌, ℕ, [], List, IsTrue, OnOk, codes, string_bytes};
ghost use Rattle.text_words.specs.declared.value.Version.{Version};
ghost use Rattle.trace_text.specs.Shapes.{is_numbered};
ghost use Rattle.trace_text.specs.Printing.{behind_space, spaced};
ghost use Rattle.program_lines.specs.Grammar.{keyword_of_statement};
ghost use Rattle.program_lines.specs.Printing.{IsNamedFunction, argument_words, location_word};
ghost use Rattle.program_lines.specs.Printing.{name_of_array, name_of_register, operand_word, printed_scope, statement_words};
ghost use Rattle.program_lines.specs.Arguments.{computed_words, words_of_argument};
ghost use Rattle.program_lines.specs.Table.{spelling};
ghost use Rattle.text_words.specs.declared.value.Mem.{Mem};
ghost use Rattle.text_words.specs.declared.value.Reducer.{Reducer};
ghost use Rattle.text_words.specs.Names.{element_word};

use access_table::{Kind, word};
use model_bodies::{Expression, Location, Operand, Register, Statement};
use std::alloc::{AllocError, Allocator};
use std::fmt::Write;
use text_words::{Mem, Name, Reducer};
use trace_text::{memory_at, put_cell, put_number, put_word, reducer_name};

/// The name of a register.
fn register_name(registers: &[Name], register: Register) -> &str
    ensures { result.now ≡ name_of_register registers.now register.index }
{
    if register.index == 0 {
        return "ok";
    }
    match registers.get(register.index as usize - 1) {
        Some(name) => name.as_str(),
        None => "",
    }
}

/// The name of the array that has this cell.
fn array_name(mems: &[Mem], first: u32) -> &str
    requires numbered { IsTrue (is_numbered 0 mems.now) }
    ensures { result.now ≡ name_of_array mems.now first }
{
    match memory_at(mems, first) {
        Some(mem) => mem.name.as_str(),
        None => "",
    }
}

/// A part of a statement behind its keyword.
#[derive(Clone, Copy)]
enum Argument<'a> {
    /// There is none.
    Nothing,
    /// A name or a sign.
    Word(&'a str),
    Value(Operand),
    Place(Location),
    Computed(Expression),
}

/// The parts of a statement behind its keyword, in their order.
fn arguments<'a>(
    reducers: &'a [Reducer],
    registers: &'a [Name],
    function: &'a str,
    statement: &Statement,
) -> (Argument<'a>, Argument<'a>, Argument<'a>)
    ensures { (version : Version) (mems : List Mem) (functions : List (List ℕ)) → IsNamedFunction functions statement.now function.now
        → argument_words (printed_scope version mems reducers.now functions registers.now) statement.now
        ≡ words_of_argument (printed_scope version mems reducers.now functions registers.now) result.0
        ++ (words_of_argument (printed_scope version mems reducers.now functions registers.now) result.1
        ++ words_of_argument (printed_scope version mems reducers.now functions registers.now) result.2) }
{
    match *statement {
        Statement::Let {
            register,
            value,
            ..
        } => (
            Argument::Word(register_name(registers, register)),
            Argument::Word("="),
            Argument::Computed(value),
        ),
        Statement::Read {
            register,
            location,
            ..
        } => (
            Argument::Word(register_name(registers, register)),
            Argument::Place(location),
            Argument::Nothing,
        ),
        Statement::Write {
            location,
            value,
            ..
        }
        | Statement::Bump {
            location,
            value,
            ..
        } => (
            Argument::Place(location),
            Argument::Value(value),
            Argument::Nothing,
        ),
        Statement::Update { reducer, value, .. } | Statement::Put { reducer, value, .. } => (
            Argument::Word(reducer_name(reducers, reducer)),
            Argument::Value(value),
            Argument::Nothing,
        ),
        Statement::Get {
            register,
            reducer,
            ..
        } => (
            Argument::Word(register_name(registers, register)),
            Argument::Word(reducer_name(reducers, reducer)),
            Argument::Nothing,
        ),
        Statement::Spawn { argument, .. } | Statement::Call { argument, .. } => (
            Argument::Word(function),
            Argument::Value(argument),
            Argument::Nothing,
        ),
        Statement::ParallelFor {
            register,
            count,
            ..
        } => (
            Argument::Word(register_name(registers, register)),
            Argument::Value(count),
            Argument::Word(function),
        ),
        Statement::If { register, .. } => (
            Argument::Word(register_name(registers, register)),
            Argument::Nothing,
            Argument::Nothing,
        ),
        Statement::Sync { .. } | Statement::Else { .. } | Statement::End { .. } => {
            (Argument::Nothing, Argument::Nothing, Argument::Nothing)
        }
    }
}

/// Appends an operand.
fn put_operand<A: Allocator>(
    out: &mut String<A>,
    registers: &[Name],
    operand: Operand,
) -> Result<(), AllocError>
    ensures { OnOk result (string_bytes out.new ≡ string_bytes out.old ++ operand_word registers.now operand) }
{
    match operand {
        Operand::Number(number) => write!(out, "{number}"),
        Operand::Held(register) => out.push_str(register_name(registers, register)),
    }
}

/// Appends a space and an operand.
fn put_value<A: Allocator>(
    out: &mut String<A>,
    registers: &[Name],
    operand: Operand,
) -> Result<(), AllocError>
    ensures { OnOk result (string_bytes out.new ≡ string_bytes out.old ++ 32 ∷ operand_word registers.now operand) }
{
    match operand {
        Operand::Number(number) => put_number(out, number),
        Operand::Held(register) => put_word(out, register_name(registers, register)),
    }
}

/// Appends a space and a location.
fn put_location<A: Allocator>(
    out: &mut String<A>,
    mems: &[Mem],
    registers: &[Name],
    location: Location,
) -> Result<(), AllocError>
    requires numbered { IsTrue (is_numbered 0 mems.now) }
    ensures { OnOk result (string_bytes out.new ≡ string_bytes out.old ++ 32 ∷ location_word mems.now registers.now location) }
{
    match location {
        Location::Cell(cell) => put_cell(out, mems, cell),
        Location::Element {
            first,
            length: _,
            index,
        } => put_element(out, array_name(mems, first), registers, index),
    }
}

/// Appends a space, the name of an array, and an index in brackets.
fn put_element<A: Allocator>(
    out: &mut String<A>,
    array: &str,
    registers: &[Name],
    index: Operand,
) -> Result<(), AllocError>
    ensures { OnOk result (string_bytes out.new ≡ string_bytes out.old ++ 32 ∷ element_word array.now (operand_word registers.now index)) }
{
    put_word(out, array)?;
    out.push_str("[")?;
    put_operand(out, registers, index)?;
    out.push_str("]")
}

/// Appends an operand, a sign and another operand, each behind a space.
fn put_joined<A: Allocator>(
    out: &mut String<A>,
    registers: &[Name],
    left: Operand,
    sign: &str,
    right: Operand,
) -> Result<(), AllocError>
    ensures { OnOk result (string_bytes out.new
        ≡ string_bytes out.old ++ behind_space (operand_word registers.now left ∷ sign.now ∷ operand_word registers.now right ∷ [])) }
{
    put_value(out, registers, left)?;
    put_word(out, sign)?;
    put_value(out, registers, right)
}

/// Appends an expression behind a space.
fn put_expression<A: Allocator>(
    out: &mut String<A>,
    registers: &[Name],
    value: Expression,
) -> Result<(), AllocError>
    ensures { (version : Version) (mems : List Mem) (reducers : List Reducer) (functions : List (List ℕ))
        → OnOk result (string_bytes out.new ≡ string_bytes out.old ++
        behind_space (computed_words (printed_scope version mems reducers functions registers.now) value)) }
{
    match value {
        Expression::Plain(operand) => put_value(out, registers, operand),
        Expression::Sum(left, right) => put_joined(out, registers, left, "+", right),
        Expression::Difference(left, right) => put_joined(out, registers, left, "-", right),
        Expression::Product(left, right) => put_joined(out, registers, left, "*", right),
        Expression::Less(left, right) => put_joined(out, registers, left, "<", right),
    }
}

/// Appends a part of a statement, its words each behind a space.
fn put_argument<A: Allocator>(
    out: &mut String<A>,
    mems: &[Mem],
    registers: &[Name],
    argument: Argument<'_>,
) -> Result<(), AllocError>
    requires numbered { IsTrue (is_numbered 0 mems.now) }
    ensures { (version : Version) (reducers : List Reducer) (functions : List (List ℕ))
        → OnOk result (string_bytes out.new ≡ string_bytes out.old ++
        behind_space (words_of_argument (printed_scope version mems.now reducers functions registers.now) argument.entry)) }
{
    match argument {
        Argument::Nothing => Ok(()),
        Argument::Word(word) => put_word(out, word),
        Argument::Value(operand) => put_value(out, registers, operand),
        Argument::Place(location) => put_location(out, mems, registers, location),
        Argument::Computed(value) => put_expression(out, registers, value),
    }
}

/// The first word of a statement.
fn statement_word(statement: &Statement) -> &'static str
    ensures { result.now ≡ spelling (keyword_of_statement statement.now) }
{
    match statement {
        Statement::Let { .. } => "let",
        Statement::Read { .. } => word(Kind::Read),
        Statement::Write { .. } => word(Kind::Write),
        Statement::Bump { .. } => word(Kind::Bump),
        Statement::Update { .. } => word(Kind::Update),
        Statement::Put { .. } => word(Kind::Put),
        Statement::Get { .. } => word(Kind::Get),
        Statement::Spawn { .. } => "spawn",
        Statement::Call { .. } => "call",
        Statement::Sync { .. } => "sync",
        Statement::ParallelFor { .. } => "pfor",
        Statement::If { .. } => "if",
        Statement::Else { .. } => "else",
        Statement::End { .. } => "end",
    }
}

/// Appends the words of a statement with one space between them. `registers` are the names of all registers of its function other than
/// `ok`, and `function` is the name of the function that it names, if it names one.
pub fn put_statement<A: Allocator>(
    out: &mut String<A>,
    mems: &[Mem],
    reducers: &[Reducer],
    registers: &[Name],
    function: &str,
    statement: &Statement,
) -> Result<(), AllocError>
    requires numbered { IsTrue (is_numbered 0 mems.now) }
    ensures { (version : Version) (functions : List (List ℕ)) → IsNamedFunction functions statement.now function.now
        → OnOk result (string_bytes out.new ≡ string_bytes out.old ++
        spaced (statement_words (printed_scope version mems.now reducers.now functions registers.now) statement.now)) }
{
    out.push_str(statement_word(statement))?;
    let (first, second, third) = arguments(reducers, registers, function, statement);
    put_argument(out, mems, registers, first)?;
    put_argument(out, mems, registers, second)?;
    put_argument(out, mems, registers, third)
}
