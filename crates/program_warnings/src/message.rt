//! What is told of the warnings of a program.

ghost use Rattle.std.specs.Prelude.{◌≡◌, ◌++◌, ℕ, List, IfOk, codes, decimal, slice_get};
ghost use Rattle.std.specs.Ordering.{nat_cmp};
ghost use Rattle.std.specs.BTreeMap.{get};
ghost use Rattle.text_words.specs.Text.{lines};
ghost use Rattle.program_text.specs.Programs.{contents};
ghost use Rattle.text_buffers.specs.Builders.{Adds};
ghost use Rattle.program_warnings.specs.Messages.{register_in, name_in, reducer_in, sort_word, line_of_warning, title};
ghost use Rattle.program_warnings.specs.Messages.{TellsWarning, TellsEach, more_text, TellsFirst, AreWarnings, TellsWarnings};

use crate::declarations::{Declared, Sort, declarations};
use crate::puts::reducers_put;
use crate::reach::mark_reached;
use crate::warning::{Warning, Wraps, warnings_of};
use program_text::{Function, Program};
use source_quotes::{
    Look, Paint, Part, Source, push_count, push_painted, push_place, push_quote, push_sign_below,
    span_of, statement_of,
};
use std::alloc::{AllocError, Global};
use text_buffers::TextBuilder;
use text_words::Reducer;

/// The most warnings that are told with their lines.
const MOST_TOLD: usize = 20;

/// The name of a function's register.
fn register_name<'p>(functions: &'p [Function<Global>], function: usize, register: usize) -> &'p str
    ensures { result.now ≡ register_in (slice_get functions.now function) register }
{
    let Some(code) = functions.get(function) else {
        return "";
    };
    match code.registers.as_slice().get(register.saturating_sub(1)) {
        Some(name) => name.as_str(),
        None => "",
    }
}

/// The name of a function.
fn function_name(functions: &[Function<Global>], function: usize) -> &str
    ensures { result.now ≡ name_in (slice_get functions.now function) }
{
    match functions.get(function) {
        Some(code) => code.name.as_str(),
        None => "",
    }
}

/// The name of a reducer.
fn reducer_name(reducers: &[Reducer], reducer: usize) -> &str
    ensures { result.now ≡ reducer_in (slice_get reducers.now reducer) }
{
    match reducers.get(reducer) {
        Some(declared) => declared.name.as_str(),
        None => "",
    }
}

/// What a declaration declares.
fn sort_word(sort: Sort) -> &'static str
    ensures { result.now ≡ sort_word sort }
{
    match sort {
        Sort::Memory => "memory",
        Sort::Reducer => "reducer",
    }
}

/// Adds words behind others.
fn push_three(text: &mut TextBuilder, first: &str, second: &str, third: &str)
    ensures { Adds text.old (first.now ++ second.now ++ third.now) text.new }
{
    text.push_words(first);
    text.push_words(second);
    text.push_words(third);
}

/// Adds that a register bears a name that is declared.
fn push_register(text: &mut TextBuilder, name: &str, declared: Declared)
    ensures { Adds text.old (codes "`" ++ name.now ++ codes "` is a register here, and a " ++ sort_word declared.sort ++
        (codes " by the declaration at line " ++ decimal declared.line)) text.new }
{
    push_three(text, "`", name, "` is a register here, and a ");
    text.push_words(sort_word(declared.sort));
    text.push_number(" by the declaration at line ", u64::from(declared.line));
}

/// Adds that an index wraps.
fn push_wrapped(text: &mut TextBuilder, index: u64, length: u32)
    ensures { Adds text.old ((codes "the index " ++ decimal index) ++ (codes " wraps at the length of the array, " ++ decimal length)) text.new }
{
    text.push_number("the index ", index);
    text.push_number(" wraps at the length of the array, ", u64::from(length));
}

/// Adds that an index wraps in a run.
fn push_wrapped_in_run(text: &mut TextBuilder, function: &str, index: u64, length: u32)
    ensures { Adds text.old (codes "in this run, the index in `" ++ function.now ++ codes "`" ++ (codes " is " ++ decimal index) ++
        (codes " and wraps at the length of the array, " ++ decimal length)) text.new }
{
    push_three(text, "in this run, the index in `", function, "`");
    text.push_number(" is ", index);
    text.push_number(" and wraps at the length of the array, ", u64::from(length));
}

/// Adds what a warning is of.
fn push_title(text: &mut TextBuilder, program: &Program<Global>, warning: Warning)
    ensures { Adds text.old (title (contents program.now) warning) text.new }
{
    let functions = program.functions.as_slice();
    match warning {
        Warning::Register {
            function,
            register,
            declared,
            ..
        } => push_register(text, register_name(functions, function, register), declared),
        Warning::Unreached { function, .. } => push_three(
            text,
            "no spawn or call leads from `main` to `",
            function_name(functions, function),
            "`",
        ),
        Warning::Unput { reducer, .. } => push_three(
            text,
            "`",
            reducer_name(program.reducers.as_slice(), reducer as usize),
            "` is read here, and no function that `main` reaches has a `put` of it",
        ),
        Warning::Wrapped { index, length, .. } => push_wrapped(text, index, length),
        Warning::WrappedInRun {
            function,
            index,
            length,
            ..
        } => push_wrapped_in_run(text, function_name(functions, function), index, length),
    }
}

/// What a warning is of, in a few words. Errors where there is no memory.
pub fn title_of_warning(
    alloc: Global,
    program: &Program<Global>,
    warning: Warning,
) -> Result<Vec<u8>, AllocError>
    ensures { IfOk result (λ told. told.items ≡ title (contents program.now) warning) }
{
    let mut told = TextBuilder::new(alloc);
    push_title(&mut told, program, warning);
    told.end()
}

/// The line that a warning is of.
pub fn line_of_warning(warning: Warning) -> u32
    ensures { result ≡ line_of_warning warning }
{
    match warning {
        Warning::Register { line, .. }
        | Warning::Unreached { line, .. }
        | Warning::Unput { line, .. }
        | Warning::Wrapped { line, .. }
        | Warning::WrappedInRun { line, .. } => line,
    }
}

/// The index of an access on its line.
fn index_part(line: &[u8]) -> Part {
    if statement_of(line).starts_with(b"read") {
        Part::Index(2)
    } else {
        Part::Index(1)
    }
}

/// The part of its line that a warning is of.
fn part_of(warning: Warning, line: &[u8]) -> Part {
    match warning {
        Warning::Register { register: 1, .. } | Warning::Unput { .. } => Part::Word(2),
        Warning::Register { .. } | Warning::Unreached { .. } => Part::Word(1),
        Warning::Wrapped { .. } | Warning::WrappedInRun { .. } => index_part(line),
    }
}

/// Adds what is told of a warning.
fn push_warning(
    text: &mut TextBuilder,
    look: Look,
    file: &str,
    source: &Source<'_>,
    program: &Program<Global>,
    warning: Warning,
)
    ensures { (one : List ℕ) × Adds text.old one text.new × TellsWarning look file.now source.now (contents program.now) warning one }
{
    let number = line_of_warning(warning);
    let line = source.line(number);
    let span = span_of(line, part_of(warning, line));
    push_painted(text, look, Paint::Yellow, "warning");
    text.push_words(": ");
    push_title(text, program, warning);
    text.push_words("\n");
    push_place(text, look, file, number);
    push_quote(text, look, source, number);
    push_sign_below(text, look, Paint::Yellow, line, span, b'^');
    text.push_words("\n\n");
}

/// Adds what is told of each warning.
fn push_each(
    text: &mut TextBuilder,
    look: Look,
    file: &str,
    source: &Source<'_>,
    program: &Program<Global>,
    warnings: &[Warning],
)
    ensures { (each : List ℕ) × Adds text.old each text.new × TellsEach look file.now source.now (contents program.now) warnings.now each }
{
    let [warning, rest @ ..] = warnings else {
        return;
    };
    push_warning(text, look, file, source, program, *warning);
    push_each(text, look, file, source, program, rest);
}

/// Adds how many warnings are not told.
fn push_more(text: &mut TextBuilder, count: usize)
    ensures { Adds text.old (more_text count) text.new }
{
    if count <= MOST_TOLD {
        return;
    }
    text.push_words("and ");
    push_count(text, count - MOST_TOLD, "more warning");
    text.push_words("\n\n");
}

/// What is told of these warnings.
fn tell_first(
    alloc: Global,
    look: Look,
    file: &str,
    source: &Source<'_>,
    program: &Program<Global>,
    warnings: &[Warning],
) -> Result<Vec<u8>, AllocError>
    ensures { IfOk result (λ told. TellsFirst look file.now source.now (contents program.now) warnings.now told.items) }
{
    let (first, _) = warnings.split_at(MOST_TOLD.min(warnings.len()));
    let mut told = TextBuilder::new(alloc);
    push_each(&mut told, look, file, source, program, first);
    push_more(&mut told, warnings.len());
    told.end()
}

/// The warnings of a program, in the order of its functions, where a run of it wraps these indexes. Errors where there is no memory.
pub fn find_warnings(
    alloc: Global,
    program: &Program<Global>,
    wraps: &Wraps,
) -> Result<Vec<Warning>, AllocError>
    ensures { IfOk result (λ warnings. AreWarnings (contents program.now) (get nat_cmp wraps.now) warnings.items) }
{
    let functions = program.functions.as_slice();
    let reducers = program.reducers.as_slice();
    let names = declarations(alloc, program.mems.as_slice(), reducers)?;
    let marks = mark_reached(alloc, functions, program.main())?;
    let put = reducers_put(alloc, functions, marks.as_slice(), reducers.len())?;
    let warnings = warnings_of(
        alloc,
        &names,
        marks.as_slice(),
        put.as_slice(),
        wraps,
        functions,
    )?;
    Ok(warnings)
}

/// What is told of the warnings of a program that the text of a file means, where a run of it wraps these indexes: each of the first twenty
/// with its line, and how many more there are. Nothing where there are none.
///
/// Errors where there is no memory.
pub fn program_warnings(
    alloc: Global,
    is_painted: bool,
    file: &str,
    text: &[u8],
    program: &Program<Global>,
    wraps: &Wraps,
) -> Result<Vec<u8>, AllocError>
    ensures { IfOk result (λ told. TellsWarnings is_painted file.now (lines text.now) (contents program.now) (get nat_cmp wraps.now) told.items) }
{
    let source = Source::new(alloc, text)?;
    let look = Look::of(is_painted, &source);
    let warnings = find_warnings(alloc, program, wraps)?;
    tell_first(alloc, look, file, &source, program, warnings.as_slice())
}
