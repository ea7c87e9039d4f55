//! Lines of programs: each kind of line, each cause, and the words of statements.

ghost use Rattle.std.specs.Prelude.{◌≤◌, length};
ghost use Rattle.program_lines.specs.Scopes.{max_registers};

use super::registers::at;
use crate::checks::equal;
use program_lines::{
    Expression, FunctionNames, Item, NameScope, Operand, Statement, meaning_or_fault, one_meaning,
    plain_meaning, put_statement, read_line, room_for_registers,
};
use std::alloc::{AllocError, Global};
use std::process::Abort;
use std::test::Fail;
use text_words::{Cause, Name, Names, Version, Words, as_text};

/// A line, and what it says, as it is shown, or the cause why it says nothing.
type Line = (&'static [u8], &'static str);

/// What a line says, or the cause why it says nothing.
fn item_of<'a>(scope: &NameScope<'_, '_, Global>, line: &'a [u8]) -> Result<Item<'a>, Cause> {
    match as_text(line) {
        Some(text) => read_line(7, scope, &mut Words::of_line(text)),
        None => Err(Cause::NotText),
    }
}

/// The same, as it is shown.
fn show_item(
    alloc: Global,
    scope: &NameScope<'_, '_, Global>,
    line: &[u8],
) -> Result<String, AllocError> {
    format!(in alloc; "{:?}", item_of(scope, line))
}

/// The lines say what is shown beside them, where this is in scope.
fn check_lines(
    rt: &impl Abort,
    alloc: Global,
    scope: &NameScope<'_, '_, Global>,
    cases: &[Line],
) -> Result<(), Fail> {
    for (line, wanted) in cases {
        equal(rt, line, &show_item(alloc, scope, line)?.as_str(), wanted);
    }
    Ok(())
}

/// The lines of a text of that version that declares nothing say what is shown beside them, where these functions are named, so many have
/// begun, and there are these registers.
fn check(
    rt: &impl Abort,
    alloc: Global,
    version: Version,
    functions: &FunctionNames<'_, Global>,
    begun: u32,
    registers: &[Name],
    cases: &[Line],
) -> Result<(), Fail>
    requires { length registers.now ≤ max_registers }
{
    let names = Names::new(alloc, version);
    let scope = NameScope::new(&names, functions, begun, registers);
    check_lines(rt, alloc, &scope, cases)
}

/// Statements of the first version.
const FIRST: &[Line] = &[
    (
        b"let t = n < 2",
        "Ok(Does { statement: Let { line: 7, register: Register { index: 2 }, value: Less(Held(Register { index: 1 }), Number(2)) }, named: None })",
    ),
    (
        b"  let new = 0 # c",
        "Ok(Does { statement: Let { line: 7, register: Register { index: 3 }, value: Plain(Number(0)) }, named: Some(\"new\") })",
    ),
    (
        b"spawn fib ok",
        "Ok(Does { statement: Spawn { line: 7, function: 1, argument: Held(Register { index: 0 }) }, named: None })",
    ),
    (
        b"call main ok",
        "Ok(Does { statement: Call { line: 7, function: 0, argument: Held(Register { index: 0 }) }, named: None })",
    ),
    (
        b"sync",
        "Ok(Does { statement: Sync { line: 7 }, named: None })",
    ),
];

/// The statement that the second version adds.
const SECOND: &[Line] = &[(
    b"pfor i 4 fib",
    "Ok(Does { statement: ParallelFor { line: 7, register: Register { index: 3 }, count: Number(4), function: 1 }, named: Some(\"i\") })",
)];

const CAUSES: &[Line] = &[
    (b"foo", "Err(BadWord)"),
    (b"pfor i 4 fib", "Err(BadWord)"),
    (b"bump x 4", "Err(BadWord)"),
    (b"let ok = 1", "Err(BadWord)"),
    (b"func f ok", "Err(BadWord)"),
    (b"let r = 1 +", "Err(BadWord)"),
    (b"let r = 5x", "Err(BadNumber)"),
    (b"write a[5x] q", "Err(BadNumber)"),
    (b"let r = r", "Err(UnknownName)"),
    (b"spawn g 1", "Err(UnknownName)"),
    (b"write x 1", "Err(UnknownName)"),
    (b"func main z", "Err(TwiceNamed)"),
    (b"mem main", "Err(TwiceNamed)"),
];

/// Lines of each kind.
const KINDS: &[Line] = &[
    (b"", "Ok(Blank)"),
    (b"mem a 4", "Ok(Declared { name: \"a\", length: Some(4) })"),
    (
        b"reducer h last",
        "Ok(Reduces { name: \"h\", monoid: Last })",
    ),
    (b"func f n", "Ok(Begins { name: \"f\", parameter: \"n\" })"),
    (
        b"let r = 1 * 2",
        "Ok(Does { statement: Let { line: 7, register: Register { index: 1 }, value: Product(Number(1), Number(2)) }, named: Some(\"r\") })",
    ),
    (b"if ok", "Ok(Decides { register: Register { index: 0 } })"),
    (b"else", "Ok(Otherwise)"),
    (b"end", "Ok(Ends)"),
];

/// Functions named `main` and `fib`.
fn name_main_and_fib(alloc: Global) -> Result<FunctionNames<'static, Global>, Fail> {
    let mut functions = FunctionNames::new(alloc);
    functions.add("main")?;
    functions.add("fib")?;
    Ok(functions)
}

/// The lines of a text of that version say what is shown beside them, where `main` and `fib` are named, `main` has begun, and the registers
/// are `n` and `t`.
fn check_named(
    rt: &impl Abort,
    alloc: Global,
    version: Version,
    cases: &[Line],
) -> Result<(), Fail> {
    let functions = name_main_and_fib(alloc)?;
    let registers = [Name::new("n"), Name::new("t")];
    check(rt, alloc, version, &functions, 1, &registers, cases)
}

#[test]
fn lines(rt: HostRuntime) -> Result<(), Fail> {
    check_named(&rt, rt.alloc(), Version::One, FIRST)
}

#[test]
fn lines_of_the_second_version(rt: HostRuntime) -> Result<(), Fail> {
    check_named(&rt, rt.alloc(), Version::Two, SECOND)
}

#[test]
fn causes(rt: HostRuntime) -> Result<(), Fail> {
    check_named(&rt, rt.alloc(), Version::One, CAUSES)
}

/// Where nothing is named.
#[test]
fn kinds(rt: HostRuntime) -> Result<(), Fail> {
    let none = FunctionNames::new(rt.alloc());
    check(&rt, rt.alloc(), Version::One, &none, 0, &[], KINDS)
}

#[test]
fn laws() {
    one_meaning();
    meaning_or_fault();
    room_for_registers();
    plain_meaning();
}

/// Whether a statement of a function with the registers `n` and `t` is printed so. If it names a function, it is this one.
fn prints(alloc: Global, function: &str, statement: &Statement, wanted: &str) -> bool {
    let registers = [Name::new("n"), Name::new("t")];
    let mut out = String::new(alloc);
    match put_statement(&mut out, &[], &[], &registers, function, statement) {
        Ok(()) => out.as_str() == wanted,
        Err(_) => false,
    }
}

#[test]
fn prints_statements(rt: HostRuntime) {
    let difference = Statement::Let {
        line: 2,
        register: at(2),
        value: Expression::Difference(Operand::Held(at(1)), Operand::Number(1)),
    };
    assert!(rt; prints(rt.alloc(), "", &difference, "let t = n - 1"));
    let call = Statement::Call {
        line: 3,
        function: 1,
        argument: Operand::Held(at(0)),
    };
    assert!(rt; prints(rt.alloc(), "fib", &call, "call fib ok"));
}
