//! What is told of the warnings of a program.

ghost use Rattle.std.specs.Prelude.{◌≡◌, List, [], IfOk, map, take};
ghost use Rattle.std.specs.Ordering.{nat_cmp};
ghost use Rattle.std.specs.BTreeMap.{get};
ghost use Rattle.program_text.specs.Programs.{contents};
ghost use Rattle.program_warnings.specs.declared.warning.Warning.{Warning};
ghost use Rattle.program_warnings.specs.Messages.{AreWarnings, title};
ghost use Rattle.serde_json.specs.View.{view};
ghost use Rattle.race_records.specs.Values.{text_told, list_told};
ghost use Rattle.race_records.specs.Warned.{rule_word, warning_told, none_warned, warned_of};
ghost use Rattle.race_records.specs.WarnedViews.{warned_parts};

use crate::site::file_line_value;
use crate::value::text_value;
use program_text::Program;
use program_warnings::{Warning, Wraps, find_warnings, line_of_warning, title_of_warning};
use sarif_logs::Object;
use serde_json::Value;
use source_quotes::Source;
use std::alloc::{AllocError, Global};

/// How many warnings are told at most.
const TOLD: usize = 20;

/// The first warnings of a program as values, and how many there are.
pub(crate) struct Warned {
    pub(crate) count: usize,
    /// A list.
    pub(crate) warnings: Value,
}

/// Written out, so that what lets it go calls one function.
impl Drop for Warned {
    fn drop(self) {
        let Warned {
            count: _,
            warnings: _,
        } = self;
    }
}

/// The rule that a warning is of.
fn rule_word(warning: Warning) -> &'static str
    ensures { result.now ≡ rule_word warning }
{
    match warning {
        Warning::Register { .. } => "declared-register",
        Warning::Unreached { .. } => "unreached-function",
        Warning::Unput { .. } => "unput-reducer",
        Warning::Wrapped { .. } | Warning::WrappedInRun { .. } => "wrapped-index",
    }
}

/// The message of a warning.
fn message_value(
    alloc: Global,
    program: &Program<Global>,
    warning: Warning,
) -> Result<Value, AllocError>
    ensures { IfOk result (λ value. view value ≡ text_told (title (contents program.now) warning)) }
{
    let title = title_of_warning(alloc, program, warning)?;
    text_value(alloc, title.as_slice())
}

/// What is told of a warning.
fn warning_value(
    alloc: Global,
    file: &str,
    source: &Source<'_>,
    program: &Program<Global>,
    warning: Warning,
) -> Result<Value, AllocError>
    ensures { IfOk result (λ value. view value ≡ warning_told file.now source.now (contents program.now) warning) }
{
    let place = file_line_value(alloc, file, source, line_of_warning(warning));
    Object::new(alloc)
        .with_made("place", place)
        .with_text("rule", rule_word(warning))
        .with_made("message", message_value(alloc, program, warning))
        .finish()
}

/// What is told of warnings.
fn warnings_value(
    alloc: Global,
    file: &str,
    source: &Source<'_>,
    program: &Program<Global>,
    warnings: &[Warning],
) -> Result<Value, AllocError>
    ensures { IfOk result (λ value. view value ≡
        list_told (warning_told file.now source.now (contents program.now)) warnings.now) }
{
    let mut values = Vec::new(alloc);
    for warning in warnings {
        values.push(warning_value(alloc, file, source, program, *warning)?)?;
    }
    Ok(Value::from(values))
}

/// No warnings.
pub(crate) fn none_warned(alloc: Global) -> Warned
    ensures { warned_parts result ≡ none_warned }
{
    Warned {
        count: 0,
        warnings: Value::from(Vec::<Value>::new(alloc)),
    }
}

/// What is told of these warnings of a program.
fn tell_warnings(
    alloc: Global,
    file: &str,
    source: &Source<'_>,
    program: &Program<Global>,
    warnings: &[Warning],
) -> Result<Warned, AllocError>
    ensures { IfOk result (λ warned. warned_parts warned ≡
        warned_of file.now source.now (contents program.now) warnings.now) }
{
    let (first, _) = warnings.split_at(warnings.len().min(TOLD));
    let values = warnings_value(alloc, file, source, program, first)?;
    Ok(Warned {
        count: warnings.len(),
        warnings: values,
    })
}

/// What is told of the warnings of a program, where a run of it wraps these indexes.
pub(crate) fn tell_warnings_in(
    alloc: Global,
    file: &str,
    source: &Source<'_>,
    program: &Program<Global>,
    wraps: &Wraps,
) -> Result<Warned, AllocError>
    ensures { IfOk result (λ warned. (warnings : List Warning) × AreWarnings (contents program.now) (get nat_cmp wraps.now) warnings × (warned_parts warned ≡
        warned_of file.now source.now (contents program.now) warnings)) }
{
    let found = find_warnings(alloc, program, wraps)?;
    tell_warnings(alloc, file, source, program, found.as_slice())
}
