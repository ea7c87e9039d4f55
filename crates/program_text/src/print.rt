//! A program as text.

ghost use Rattle.std.specs.Prelude.{◌≡◌, ◌∷◌, ◌++◌, [], List, IfOk, OnOk, IsTrue, string_bytes};
ghost use Rattle.text_words.specs.declared.value.Version.{Version};
ghost use Rattle.trace_text.specs.Shapes.{is_numbered};
ghost use Rattle.trace_text.specs.Printing.{declarations, known_of};
ghost use Rattle.std.specs.Prelude.{map};
ghost use Rattle.model_bodies.specs.Lines.{line_of};
ghost use Rattle.program_lines.specs.Printing.{IsNamedFunction, name_of_function};
ghost use Rattle.program_text.specs.Printing.{PrintsRows, Row, begin_row, body_rows, declared_row, end_row};
ghost use Rattle.program_text.specs.Printing.{function_rows, names_of, rows_of_functions, statement_row, text_from};

use crate::function::Function;
use crate::program::Program;
use program_lines::{Statement, put_statement};
use std::alloc::{AllocError, Allocator};
use std::fmt::Write;
use text_words::{Mem, Name, Reducer, version_word};
use trace_text::{put_declarations, put_end, put_feeds};

/// The line of a statement.
fn statement_line(statement: &Statement) -> u32
    ensures { result ≡ line_of statement.now }
{
    match *statement {
        Statement::Let { line, .. } => line,
        Statement::Read { line, .. } => line,
        Statement::Write { line, .. } => line,
        Statement::Bump { line, .. } => line,
        Statement::Update { line, .. } => line,
        Statement::Put { line, .. } => line,
        Statement::Get { line, .. } => line,
        Statement::Spawn { line, .. } => line,
        Statement::Call { line, .. } => line,
        Statement::Sync { line } => line,
        Statement::ParallelFor { line, .. } => line,
        Statement::If { line, .. } => line,
        Statement::Else { line, .. } => line,
        Statement::End { line } => line,
    }
}

/// The name of the function with that number.
fn function_name<A: Allocator>(functions: &[Function<A>], number: u32) -> &str
    ensures { result.now ≡ name_of_function (names_of functions.now) number }
{
    match functions.get(number as usize) {
        Some(function) => function.name.as_str(),
        None => "",
    }
}

/// The name of the function that a statement names, if it names one.
fn named_function<'a, A: Allocator>(functions: &'a [Function<A>], statement: &Statement) -> &'a str
    ensures { IsNamedFunction (names_of functions.now) statement.now result.now }
{
    match *statement {
        Statement::Spawn { function, .. } => function_name(functions, function),
        Statement::Call { function, .. } => function_name(functions, function),
        Statement::ParallelFor { function, .. } => function_name(functions, function),
        _ => "",
    }
}

/// Appends the line of a statement, where the next line has the number `at`, and gives the number of the line behind it.
fn put_statement_line<A: Allocator, B: Allocator>(
    out: &mut String<B>,
    at: u64,
    mems: &[Mem],
    reducers: &[Reducer],
    functions: &[Function<A>],
    registers: &[Name],
    statement: &Statement,
) -> Result<u64, AllocError>
    requires numbered { IsTrue (is_numbered 0 mems.now) }
    ensures { (version : Version) →
        IfOk result (λ next. PrintsRows (string_bytes out.old) at
        (statement_row (known_of version mems.now reducers.now) (names_of functions.now) registers.now statement.now ∷ [])
        (string_bytes out.new) next) }
{
    let line = statement_line(statement);
    put_feeds(out, at, u64::from(line))?;
    let function = named_function(functions, statement);
    put_statement(out, mems, reducers, registers, function, statement)?;
    put_end(out, line)
}

/// Appends the lines of a body in the same way.
fn put_body<A: Allocator, B: Allocator>(
    out: &mut String<B>,
    from: u64,
    mems: &[Mem],
    reducers: &[Reducer],
    functions: &[Function<A>],
    registers: &[Name],
    body: &[Statement],
) -> Result<u64, AllocError>
    requires numbered { IsTrue (is_numbered 0 mems.now) }
    ensures { (version : Version) (more : List Row) →
        IfOk result (λ next. string_bytes out.new ++ text_from next more ≡ string_bytes out.old ++
        text_from from (body_rows (known_of version mems.now reducers.now) (names_of functions.now) registers.now body.now ++ more)) }
{
    let mut at = from;
    for statement in body {
        at = put_statement_line(out, at, mems, reducers, functions, registers, statement)?;
    }
    Ok(at)
}

/// Appends the line of a `func` in the same way.
fn put_begin<A: Allocator, B: Allocator>(
    out: &mut String<B>,
    at: u64,
    function: &Function<A>,
) -> Result<u64, AllocError>
    ensures { IfOk result (λ next. PrintsRows (string_bytes out.old) at (begin_row function.now ∷ []) (string_bytes out.new) next) }
{
    let name = function.name.as_str();
    let parameter = function.parameter.as_str();
    put_feeds(out, at, u64::from(function.line))?;
    write!(out, "func {name} {parameter}")?;
    put_end(out, function.line)
}

/// Appends the line of a function's `end` in the same way.
fn put_last<A: Allocator, B: Allocator>(
    out: &mut String<B>,
    at: u64,
    function: &Function<A>,
) -> Result<u64, AllocError>
    ensures { IfOk result (λ next. PrintsRows (string_bytes out.old) at (end_row function.now ∷ []) (string_bytes out.new) next) }
{
    put_feeds(out, at, u64::from(function.end_line))?;
    out.push_str("end")?;
    put_end(out, function.end_line)
}

/// Appends the lines of a function in the same way.
fn put_function<A: Allocator, B: Allocator>(
    out: &mut String<B>,
    at: u64,
    mems: &[Mem],
    reducers: &[Reducer],
    functions: &[Function<A>],
    function: &Function<A>,
) -> Result<u64, AllocError>
    requires numbered { IsTrue (is_numbered 0 mems.now) }
    ensures { (version : Version) →
        IfOk result (λ next. PrintsRows (string_bytes out.old) at
        (function_rows (known_of version mems.now reducers.now) (names_of functions.now) function.now) (string_bytes out.new) next) }
{
    let inside = put_begin(out, at, function)?;
    let registers = function.registers.as_slice();
    let body = function.body.as_slice();
    let end = put_body(out, inside, mems, reducers, functions, registers, body)?;
    put_last(out, end, function)
}

/// Appends the lines of the functions in the same way.
fn put_functions<A: Allocator, B: Allocator>(
    out: &mut String<B>,
    from: u64,
    mems: &[Mem],
    reducers: &[Reducer],
    functions: &[Function<A>],
) -> Result<u64, AllocError>
    requires numbered { IsTrue (is_numbered 0 mems.now) }
    ensures { (version : Version) (more : List Row) →
        IfOk result (λ next. string_bytes out.new ++ text_from next more ≡ string_bytes out.old ++
        text_from from (rows_of_functions (known_of version mems.now reducers.now) (names_of functions.now) functions.now ++ more)) }
{
    let mut at = from;
    for function in functions {
        at = put_function(out, at, mems, reducers, functions, function)?;
    }
    Ok(at)
}

/// Appends the lines of the declarations, and gives the number of the line behind them.
fn put_declared<B: Allocator>(
    out: &mut String<B>,
    mems: &[Mem],
    reducers: &[Reducer],
) -> Result<u64, AllocError>
    ensures { (version : Version) →
        IfOk result (λ next. PrintsRows (string_bytes out.old) 2
        (map (declared_row (known_of version mems.now reducers.now)) (declarations mems.now reducers.now))
        (string_bytes out.new) next) }
{
    let next = put_declarations(out, mems, reducers)?;
    Ok(next)
}

impl<A: Allocator> Program<A> {
    ghost use Rattle.program_text.specs.Grammar.{TextMeans};
    ghost use Rattle.program_text.specs.Programs.{contents};
    ghost use Rattle.program_text.specs.Printing.{plain_text};

    /// Appends the plain text to an empty one.
    fn put_text<B: Allocator>(&self, out: &mut String<B>) -> Result<(), AllocError>
        requires { string_bytes out.old ≡ [] }
        ensures { OnOk result (string_bytes out.new ≡ plain_text (contents self.now)) }
    {
        let version = version_word(self.version);
        let mems = self.mems.as_slice();
        let reducers = self.reducers.as_slice();
        writeln!(out, "cilk {version}")?;
        let at = put_declared(out, mems, reducers)?;
        put_functions(out, at, mems, reducers, self.functions.as_slice())?;
        Ok(())
    }

    /// The plain text of the program, which means this program and no other: each item stands on its own line, with blank lines between
    /// them, words are separated by one space, numbers have no leading zeros, and a line feed ends each line.
    pub fn print<B: Allocator>(&self, alloc: B) -> Result<Vec<u8, B>, AllocError>
        ensures plain { IfOk result (λ text. text.items ≡ plain_text (contents self.now)) }
        ensures means { IfOk result (λ text. ∥ TextMeans text.items (contents self.now) ∥₁) }
    {
        let mut out = String::new(alloc);
        match self.put_text(&mut out) {
            Ok(()) => Ok(out.into_bytes()),
            Err(error) => Err(error),
        }
    }
}
