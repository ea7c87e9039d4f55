//! Which reducers are put.

ghost use Rattle.std.specs.Prelude.{◌≡◌, ◌<◌, ◌≤◌, ℕ, IfOk};
ghost use Rattle.model_reducers.specs.Limits.{most_reducers};
ghost use Rattle.std.specs.List.{list_any};
ghost use Rattle.program_warnings.specs.Reach.{puts, puts_from, is_marked};

use crate::reach::is_marked;
use program_text::{Function, Statement};
use std::alloc::{AllocError, Global};

/// Whether a statement puts a reducer.
fn puts(reducer: u32, statement: Statement) -> bool
    ensures { result ≡ puts reducer statement }
{
    match statement {
        Statement::Put { reducer: other, .. } => other == reducer,
        _ => false,
    }
}

/// Whether a statement of the body puts a reducer.
fn body_puts(reducer: u32, body: &[Statement]) -> bool
    ensures { result ≡ list_any (puts reducer) body.now }
{
    body.iter().any(|statement| puts(reducer, *statement))
}

/// Whether a function that has a mark puts a reducer.
fn are_put(functions: &[Function<Global>], marks: &[bool], reducer: u32) -> bool
    ensures { result ≡ puts_from (is_marked marks.now) reducer 0 functions.now }
{
    for (number, function) in functions.iter().enumerate() {
        if is_marked(marks, number) && body_puts(reducer, function.body.as_slice()) {
            return true;
        }
    }
    false
}

/// Which of so many reducers a function puts that has a mark.
pub(crate) fn reducers_put(
    alloc: Global,
    functions: &[Function<Global>],
    marks: &[bool],
    count: usize,
) -> Result<Vec<bool>, AllocError>
    requires { count ≤ most_reducers }
    ensures { IfOk result (λ put. (reducer : ℕ) → reducer < count → is_marked put.items reducer ≡ puts_from (is_marked marks.now) reducer 0 functions.now) }
{
    let mut put = Vec::new(alloc);
    for reducer in 0..count {
        put.push(are_put(functions, marks, reducer as u32))?;
    }
    Ok(put)
}
