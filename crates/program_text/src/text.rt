//! A program's text, a line at a time.

ghost use Rattle.std.specs.Prelude.{◌≡◌, [], None, Some, OnOk, IfOk, MatchResult, option_copied};
ghost use Rattle.text_words.specs.Text.{lines};
ghost use Rattle.program_text.specs.Functions.{is_name_word, function_in as named_in, function_named, with_function, functions_from, functions_of};
ghost use Rattle.program_text.specs.Drafts.{held};
ghost use Rattle.model_bodies.specs.Codes.{main_of as main_among};
ghost use Rattle.program_text.specs.Grammar.{nothing, LinesMean, TextMeans};
ghost use Rattle.program_text.specs.Faults.{DecidesLines, IsBodyFault, IsEndFault, IsFaultOfLines, IsTextFault};

use crate::draft::{Draft, fault};
use crate::function::Function;
use program_lines::FunctionNames;
use std::alloc::{AllocError, Allocator};
use text_words::{
    Cause, TextFault, Version, Words, as_text, is_name, split_line, without_comment, without_return,
};
use trace_text::read_header;

fn is_function_name(word: &str) -> bool
    ensures { result ≡ is_name_word word.now }
{
    is_name(word)
}

/// The name in these words, where they are `func`, a name and a name.
fn function_in<'a>(words: &mut Words<'a>) -> Option<&'a str>
    ensures { option_copied result ≡ named_in words.old }
{
    if words.take() != Some("func") {
        return None;
    }
    let name = words.take()?;
    let parameter = words.take()?;
    if words.take().is_none() && is_function_name(name) && is_function_name(parameter) {
        Some(name)
    } else {
        None
    }
}

/// The function that a line makes known: one with the words `func`, its name and a name.
fn function_of(line: &[u8]) -> Option<&str>
    ensures { option_copied result ≡ function_named line.now }
{
    match as_text(without_comment(line)) {
        Some(text) => function_in(&mut Words::of_line(text)),
        None => None,
    }
}

/// Adds the function that a line makes known.
fn note_function<'a, A: Allocator + Copy>(
    names: &mut FunctionNames<'a, A>,
    line: &'a [u8],
) -> Result<(), AllocError>
    ensures { OnOk result (names.new ≡ with_function names.old (function_named line.now)) }
{
    match function_of(line) {
        Some(name) => names.add(name),
        None => Ok(()),
    }
}

/// Adds the functions that these lines make known, also those past the most that a program may have.
fn note_functions<'a, A: Allocator + Copy>(
    names: &mut FunctionNames<'a, A>,
    text: &'a [u8],
) -> Result<(), AllocError>
    ensures { OnOk result (names.new ≡ functions_from names.old (lines text.now)) }
{
    let mut rest = text;
    while !rest.is_empty() {
        let (line, after) = split_line(rest);
        note_function(names, without_return(line))?;
        rest = after;
    }
    Ok(())
}

/// The number of the function `main`.
fn main_of<A: Allocator>(functions: &[Function<A>]) -> Option<usize>
    ensures { result ≡ main_among functions.now }
{
    functions
        .iter()
        .position(|function| function.name.as_str() == "main")
}

/// Reads the lines behind the first into the draft, and gives the number of the line behind the last.
fn read_lines<'a, A: Allocator + Copy>(
    draft: &mut Draft<'a, A>,
    alloc: A,
    names: &FunctionNames<'a, A>,
    text: &'a [u8],
) -> Result<u32, TextFault>
    ensures { MatchResult result
        (λ end. DecidesLines names.now draft.old (lines text.now) end draft.new [])
        (IsFaultOfLines names.now draft.old (lines text.now)) }
{
    let mut rest = text;
    let mut at = 2;
    while !rest.is_empty() {
        let (line, after) = split_line(rest);
        if let Err(fault) = draft.take(alloc, names, at, without_return(line)) {
            return Err(fault);
        }
        at += 1;
        rest = after;
    }
    Ok(at)
}

/// The number of `main`, where the lines end before the line `end`.
fn main_at_end<A: Allocator + Copy>(draft: &Draft<A>, end: u32) -> Result<u32, TextFault>
    ensures { MatchResult result
        (λ main. (draft.now.current ≡ None) × (main_among draft.now.functions ≡ Some main))
        (IsEndFault draft.now end) }
{
    if draft.is_open() {
        return Err(fault(end, Cause::BadNesting));
    }
    match main_of(draft.functions()) {
        Some(main) => Ok(main as u32),
        None => Err(fault(end, Cause::NoMain)),
    }
}

/// Reads the lines behind the first into the draft, and gives the number of `main`.
fn read_body<'a, A: Allocator + Copy>(
    draft: &mut Draft<'a, A>,
    alloc: A,
    names: &FunctionNames<'a, A>,
    text: &'a [u8],
) -> Result<u32, TextFault>
    ensures means { MatchResult result
        (λ _. LinesMean names.now 2 draft.old (lines text.now) (held draft.new))
        (IsFaultOfLines names.now draft.old (lines text.now)) }
    ensures main { IfOk result (λ main. main_among draft.new.functions ≡ Some main) }
{
    match read_lines(draft, alloc, names, text) {
        Ok(end) => main_at_end(draft, end),
        Err(fault) => Err(fault),
    }
}

/// Reads the lines behind the first into the draft with the functions that they make known, and gives the number of `main`.
fn read_behind_header<'a, A: Allocator + Copy>(
    draft: &mut Draft<'a, A>,
    alloc: A,
    text: &'a [u8],
) -> Result<u32, TextFault>
    ensures means { MatchResult result
        (λ _. LinesMean (functions_of (lines text.now)) 2 draft.old (lines text.now) (held draft.new))
        (IsFaultOfLines (functions_of (lines text.now)) draft.old (lines text.now)) }
    ensures main { IfOk result (λ main. main_among draft.new.functions ≡ Some main) }
{
    let mut names = FunctionNames::new(alloc);
    match note_functions(&mut names, text) {
        Ok(()) => read_body(draft, alloc, &names, text),
        Err(_) => Err(TextFault::Memory),
    }
}

/// Reads the lines behind the first.
fn body<'a, A: Allocator + Copy>(
    alloc: A,
    version: Version,
    text: &'a [u8],
) -> Result<(Draft<'a, A>, u32), TextFault>
    ensures means { MatchResult result
        (λ read. LinesMean (functions_of (lines text.now)) 2 (nothing version) (lines text.now) (held read.0))
        (IsBodyFault version text.now) }
    ensures main { IfOk result (λ read. main_among read.0.functions ≡ Some read.1) }
{
    let mut draft = Draft::new(alloc, version);
    match read_behind_header(&mut draft, alloc, text) {
        Ok(main) => Ok((draft, main)),
        Err(fault) => Err(fault),
    }
}

/// Reads a text.
pub fn whole<'a, A: Allocator + Copy>(
    alloc: A,
    bytes: &'a [u8],
) -> Result<(Draft<'a, A>, u32), TextFault>
    ensures means { MatchResult result (λ read. TextMeans bytes.now (held read.0)) (IsTextFault bytes.now) }
    ensures main { IfOk result (λ read. main_among read.0.functions ≡ Some read.1) }
{
    if bytes.is_empty() {
        return Err(fault(1, Cause::BadHeader));
    }
    let (first, rest) = split_line(bytes);
    let version = match read_header(without_return(first)) {
        Ok(version) => version,
        Err(fault) => return Err(fault),
    };
    body(alloc, version, rest)
}
