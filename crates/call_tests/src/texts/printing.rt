//! Tests of printing.

use crate::checks::equal;
use program_text::{Function, Program};
use std::alloc::{AllocError, Global};
use std::test::Fail;

/// Appends all that is read of a function, as it is shown.
fn show_function(text: &mut String, function: &Function<Global>) -> Result<(), AllocError> {
    let names = (&function.name, &function.parameter);
    let lines = (function.line, function.end_line);
    let parts = (function.registers.as_slice(), function.body.as_slice());
    write!(text, "{names:?} {lines:?} {parts:?}")
}

/// All that is read of a program, as it is shown: no two programs are shown alike.
fn show_program(alloc: Global, program: &Program<Global>) -> Result<String, AllocError> {
    let (mems, reducers) = (program.mems.as_slice(), program.reducers.as_slice());
    let head = (program.version, program.main(), mems, reducers);
    let mut text = format!(in alloc; "{head:?}")?;
    for function in program.functions.as_slice() {
        show_function(&mut text, function)?;
    }
    Ok(text)
}

/// Programs, and how they are printed.
const PROGRAMS: &[(&[u8], &[u8])] = &[
    // Fibonacci, without indentation.
    (
        b"cilk 1\nmem x\nreducer h sum\nfunc main z\n  put h 0\n  call fib 10\n  get r h\n  write x r\nend\nfunc fib n\n  let t = n < 2\n  if t\n    update h n\n  else\n    let a = n - 1\n    let b = n - 2\n    spawn fib a\n    call fib b\n    sync\n  end\nend\n",
        b"cilk 1\nmem x\nreducer h sum\nfunc main z\nput h 0\ncall fib 10\nget r h\nwrite x r\nend\nfunc fib n\nlet t = n < 2\nif t\nupdate h n\nelse\nlet a = n - 1\nlet b = n - 2\nspawn fib a\ncall fib b\nsync\nend\nend\n",
    ),
    // Blank lines and indices.
    (
        b"cilk 2\r\n# cells\nreducer h digits\n\nmem a 03\nmem b\n\tfunc  main\tz # first\n\n bump a[z] 007\n read r a[2]\n pfor i r f\nend\n\n\nfunc f ok_\nif ok\nwrite b ok_\nend\nend\n\n# last",
        b"cilk 2\n\nreducer h digits\n\nmem a 3\nmem b\nfunc main z\n\nbump a[z] 7\nread r a[2]\npfor i r f\nend\n\n\nfunc f ok_\nif ok\nwrite b ok_\nend\nend\n",
    ),
];

/// What is printed means the same program.
#[test]
fn prints_each_program(rt: HostRuntime) -> Result<(), Fail> {
    for (text, plain) in PROGRAMS {
        let program = Program::parse(rt.alloc(), text)?;
        let printed = program.print(rt.alloc())?;
        equal(&rt, text, &printed.as_slice(), plain);
        let found = show_program(rt.alloc(), &program)?;
        let wanted = show_program(rt.alloc(), &Program::parse(rt.alloc(), plain)?)?;
        equal(&rt, text, &found.as_str(), &wanted.as_str());
    }
    Ok(())
}
