//! Programs as text: what they have, and the names of cells.

use super::checks::has_cells;
use crate::checks::equal;
use program_text::{Function, Program};
use std::alloc::{AllocError, Global};
use std::process::Abort;
use std::test::Fail;

const FIB: &[u8] =
    b"cilk 1\nmem x\nreducer h sum\nfunc main z\n  put h 0\n  call fib 10\n  get r h\n  write x r\nend\nfunc fib n\n  let t = n < 2\n  if t\n    update h n\n  else\n    let a = n - 1\n    let b = n - 2\n    spawn fib a\n    call fib b\n    sync\n  end\nend\n";

/// A function's name and parameter, its first and last line, and how many statements it has.
type Outline = (&'static str, &'static str, (u32, u32), usize);

/// What a program has: of each function its outline and the names of its registers.
struct Contents {
    text: &'static [u8],
    main: u32,
    functions: &'static [(Outline, &'static [&'static str])],
}

/// A statement, as it is shown, behind the number of its function and its place there.
type Placed = (usize, usize, &'static str);

/// Checks that the function has this outline and these registers.
fn check_function(
    rt: &impl Abort,
    function: &Function<Global>,
    outline: &Outline,
    registers: &[&'static str],
) {
    let found = (
        function.name.as_str(),
        function.parameter.as_str(),
        (function.line, function.end_line),
        function.body.as_slice().len(),
    );
    equal(rt, &"outline", &found, outline);
    let names = function.registers.as_slice();
    equal(rt, outline, &names.len(), &registers.len());
    for (name, wanted) in names.iter().zip(registers) {
        equal(rt, outline, &name.as_str(), wanted);
    }
}

/// The statement at that place of the function of that number, as it is shown.
fn show_statement(
    alloc: Global,
    functions: &[Function<Global>],
    function: usize,
    place: usize,
) -> Result<String, AllocError> {
    let found = match functions.get(function) {
        Some(function) => function.body.as_slice().get(place),
        None => None,
    };
    format!(in alloc; "{found:?}")
}

/// Checks that these statements stand in the functions.
fn check_statements(
    rt: &impl Abort,
    alloc: Global,
    functions: &[Function<Global>],
    statements: &[Placed],
) -> Result<(), AllocError> {
    for (function, place, wanted) in statements {
        let found = show_statement(alloc, functions, *function, *place)?;
        equal(rt, &(*function, *place), &found.as_str(), wanted);
    }
    Ok(())
}

/// Checks that the program has this.
fn check_contents(rt: &impl Abort, program: &Program<Global>, wanted: &Contents) {
    let functions = program.functions.as_slice();
    let counts = (program.main(), functions.len());
    equal(rt, &"main", &counts, &(wanted.main, wanted.functions.len()));
    for (function, (outline, registers)) in functions.iter().zip(wanted.functions) {
        check_function(rt, function, outline, registers);
    }
}

/// Checks that the text means a program that has this, and in which these statements stand.
fn check(
    rt: &impl Abort,
    alloc: Global,
    wanted: &Contents,
    statements: &[Placed],
) -> Result<(), Fail> {
    let program = Program::parse(alloc, wanted.text)?;
    check_contents(rt, &program, wanted);
    check_statements(rt, alloc, program.functions.as_slice(), statements)?;
    Ok(())
}

const FIBONACCI: &Contents = &Contents {
    text: FIB,
    main: 0,
    functions: &[
        (("main", "z", (4, 9), 4), &["z", "r"]),
        (("fib", "n", (10, 21), 10), &["n", "t", "a", "b"]),
    ],
};

/// The first function calls the last one, and `main`, the second one, calls the first.
const CALLS: &Contents = &Contents {
    text: b"cilk 1\nfunc f n\n  call g n\nend\nfunc main z\n  let main = 1\n  call f main\nend\n func  g\tx # c\nend",
    main: 1,
    functions: &[
        (("f", "n", (2, 4), 1), &["n"]),
        (("main", "z", (5, 8), 2), &["z", "main"]),
        (("g", "x", (9, 10), 0), &["x"]),
    ],
};

/// Statements of FIBONACCI: a comparison, what it decides, and a spawn.
const OF_FIBONACCI: &[Placed] = &[
    (
        1,
        0,
        "Some(Let { line: 11, register: Register { index: 2 }, value: Less(Held(Register { index: 1 }), Number(2)) })",
    ),
    (
        1,
        1,
        "Some(If { line: 12, register: Register { index: 2 }, otherwise: 4 })",
    ),
    (1, 3, "Some(Else { line: 14, after: 10 })"),
    (
        1,
        6,
        "Some(Spawn { line: 17, function: 1, argument: Held(Register { index: 3 }) })",
    ),
    (1, 9, "Some(End { line: 20 })"),
];

/// The calls of CALLS.
const OF_CALLS: &[Placed] = &[
    (
        0,
        0,
        "Some(Call { line: 3, function: 2, argument: Held(Register { index: 1 }) })",
    ),
    (
        1,
        1,
        "Some(Call { line: 7, function: 0, argument: Held(Register { index: 2 }) })",
    ),
];

#[test]
fn fibonacci(rt: HostRuntime) -> Result<(), Fail> {
    check(&rt, rt.alloc(), FIBONACCI, OF_FIBONACCI)
}

#[test]
fn names_of_the_whole_text(rt: HostRuntime) -> Result<(), Fail> {
    check(&rt, rt.alloc(), CALLS, OF_CALLS)
}

#[test]
fn names_of_cells(rt: HostRuntime) -> Result<(), Fail> {
    let program = Program::parse(rt.alloc(), b"cilk 1\nmem x\nmem a 2\nfunc main z\nend\n")?;
    let shape = program.shape(rt.alloc())?;
    assert!(rt; has_cells(rt.alloc(), &shape, program.mems.as_slice(), &[]));
    Ok(())
}
