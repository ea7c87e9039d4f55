//! Which functions of a program are reached from `main`.

ghost use Rattle.std.specs.Prelude.{◌≡◌, ◌<◌, ℕ, Some, true, false, IfOk, MatchOption, length, slice_get, slice_set};
ghost use Rattle.model_bodies.specs.Sound.{IsSound};
ghost use Rattle.program_warnings.specs.Reach.{function_of, is_marked, IsBodyClosed, IsClosed, IsNextIn, IsNext, AreReached};

use program_text::{Function, Statement};
use std::alloc::{AllocError, Global};

/// The function that a statement spawns or calls.
fn function_of(statement: Statement) -> Option<u32>
    ensures { result ≡ function_of statement }
{
    match statement {
        Statement::Spawn { function, .. }
        | Statement::Call { function, .. }
        | Statement::ParallelFor { function, .. } => Some(function),
        _ => None,
    }
}

/// Whether there is a mark at this number.
pub(crate) fn is_marked(marks: &[bool], number: usize) -> bool
    ensures { result ≡ is_marked marks.now number }
{
    match marks.get(number) {
        Some(mark) => *mark,
        None => false,
    }
}

/// Whether there is a number like this that has no mark.
fn is_unmarked(marks: &[bool], number: usize) -> bool
    ensures marked { result ≡ false → slice_get marks.now number ≡ Some false → ⊥ }
    ensures unmarked { result ≡ true → slice_get marks.now number ≡ Some false }
{
    match marks.get(number) {
        Some(mark) => !*mark,
        None => false,
    }
}

/// A function without a mark that a statement of the body spawns or calls.
fn next_in(body: &[Statement], marks: &[bool]) -> Option<u32>
    ensures { MatchOption result (IsBodyClosed body.now marks.now) (IsNextIn body.now marks.now) }
{
    for statement in body {
        if let Some(function) = function_of(*statement) {
            if is_unmarked(marks, function as usize) {
                return Some(function);
            }
        }
    }
    None
}

/// A function without a mark that one with a mark spawns or calls.
fn next_of(functions: &[Function<Global>], marks: &[bool]) -> Option<u32>
    ensures { MatchOption result (IsClosed functions.now marks.now) (IsNext functions.now marks.now) }
{
    for (number, function) in functions.iter().enumerate() {
        if is_marked(marks, number) {
            let next = next_in(function.body.as_slice(), marks);
            if next.is_some() {
                return next;
            }
        }
    }
    None
}

/// Which functions are reached from `main`, which has this number.
pub(crate) fn mark_reached(
    alloc: Global,
    functions: &[Function<Global>],
    main: u32,
) -> Result<Vec<bool>, AllocError>
    requires main { main < length functions.now }
    requires sound { (cells : ℕ) × (reducers : ℕ) × IsSound cells reducers functions.now }
    ensures { IfOk result (λ marks. AreReached functions.now main (is_marked marks.items)) }
{
    let mut marks = vec![in alloc; false; functions.len()]?;
    marks[main as usize] = true;
    while let Some(next) = next_of(functions, marks.as_slice()) {
        marks[next as usize] = true;
    }
    Ok(marks)
}
