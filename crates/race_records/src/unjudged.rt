//! What is told of a text that means nothing, and of an illegal request.

ghost use Rattle.std.specs.Prelude.{◌≡◌, ◌++◌, ◌∷◌, List, IfOk, OnOk, map};
ghost use Rattle.serde_json.specs.Data.{Data};
ghost use Rattle.text_words.specs.Text.{lines};
ghost use Rattle.trace_text.specs.Traces.{contents as trace_contents};
ghost use Rattle.serde_json.specs.View.{view};
ghost use Rattle.sarif_logs.specs.Objects.{Makes};
ghost use Rattle.fault_lists.specs.FaultLists.{HasFault};
ghost use Rattle.race_records.specs.Values.{IsTextOf};
ghost use Rattle.race_records.specs.Forms.{in_form};
ghost use Rattle.race_records.specs.Unjudged.{cause_word, line_members, fault_told, RecordsFault, RecordsFaults, RecordsText, faulty_told, request_told, illegal_told};

use crate::form::{RecordForm, record_text};
use crate::value::text_value;
use fault_lists::{Fault, list_others};
use race_explanations::{
    Illegality, at_of, help_words, illegal_explanation, request_line, strand_of, title_words,
};
use sarif_logs::Object;
use serde_json::Value;
use source_quotes::{Meant, Source, fault_message};
use std::alloc::{AllocError, Global};
use text_words::{Cause, TraceLine};
use trace_text::Trace;

/// The name of a cause.
fn cause_word(why: Cause) -> &'static str
    ensures { result.now ≡ cause_word why }
{
    match why {
        Cause::NotText => "NotText",
        Cause::BadHeader => "BadHeader",
        Cause::BadWord => "BadWord",
        Cause::BadNumber => "BadNumber",
        Cause::UnknownName => "UnknownName",
        Cause::TwiceNamed => "TwiceNamed",
        Cause::BadNesting => "BadNesting",
        Cause::NoMain => "NoMain",
        Cause::TooMany => "TooMany",
    }
}

/// A line of a file, with what a person is told of it.
fn quote_line(alloc: Global, file: &str, source: &Source<'_>, line: u32, rendered: &[u8]) -> Object
    ensures { Makes result (line_members file.now source.now line rendered.now) }
{
    Object::new(alloc)
        .with_made("code", text_value(alloc, source.line(line)))
        .with_made("file", text_value(alloc, file.as_bytes()))
        .with_made("rendered", text_value(alloc, rendered))
        .with("line", Value::from(line))
}

/// What is told of a fault.
fn fault_value(
    alloc: Global,
    file: &str,
    text: &[u8],
    source: &Source<'_>,
    meant: Meant,
    fault: Fault,
) -> Result<Value, AllocError>
    requires { source.now ≡ lines text.now }
    ensures { IfOk result (λ value. RecordsFault file.now source.now fault (view value)) }
{
    let rendered = fault_message(alloc, false, file, text, fault.line, fault.why, meant)?;
    quote_line(alloc, file, source, fault.line, rendered.as_slice())
        .with_text("cause", cause_word(fault.why))
        .finish()
}

/// Adds faults.
fn push_faults(
    alloc: Global,
    values: &mut Vec<Value>,
    file: &str,
    text: &[u8],
    source: &Source<'_>,
    meant: Meant,
    faults: &[Fault],
) -> Result<(), AllocError>
    requires { source.now ≡ lines text.now }
    ensures { OnOk result ((added : List Data) × (map view values.new.items ≡ map view values.old.items ++ added) × RecordsFaults file.now source.now faults.now added) }
{
    let [fault, rest @ ..] = faults else {
        return Ok(());
    };
    values.push(fault_value(alloc, file, text, source, meant, *fault)?)?;
    push_faults(alloc, values, file, text, source, meant, rest)
}

/// A fault and those behind it.
fn fault_values(
    alloc: Global,
    file: &str,
    text: &[u8],
    source: &Source<'_>,
    meant: Meant,
    first: Fault,
    others: &[Fault],
) -> Result<Vec<Value>, AllocError>
    requires { source.now ≡ lines text.now }
    ensures { IfOk result (λ values. RecordsFaults file.now source.now (first ∷ others.now) (map view values.items)) }
{
    let mut values = Vec::new(alloc);
    values.push(fault_value(alloc, file, text, source, meant, first)?)?;
    push_faults(alloc, &mut values, file, text, source, meant, others)?;
    Ok(values)
}

/// The faults of a text, as one value.
fn faulty_value(alloc: Global, faults: Vec<Value>, is_more: bool) -> Result<Value, AllocError>
    ensures { IfOk result (λ value. view value ≡ faulty_told (map view faults.items) is_more) }
{
    Object::new(alloc)
        .with("faults", Value::from(faults))
        .with("more", Value::from(is_more))
        .with_text("outcome", "faulty")
        .with("version", Value::from(1_u8))
        .finish()
}

/// Tells in a form of the text of a program or a trace that has this fault: of it and of each fault behind it that
/// [`faults_message`](fault_lists::faults_message) tells. Errors where there is no memory.
pub fn faults_record(
    alloc: Global,
    form: RecordForm,
    file: &str,
    text: &[u8],
    meant: Meant,
    first: Fault,
) -> Result<Vec<u8>, AllocError>
    requires { HasFault meant text.now first }
    ensures { IfOk result (λ told. RecordsText form file.now meant text.now first told.items) }
{
    let source = Source::new(alloc, text)?;
    let others = list_others(alloc, meant, text, first)?;
    let behind = others.faults.as_slice();
    let faults = fault_values(alloc, file, text, &source, meant, first, behind)?;
    let document = faulty_value(alloc, faults, others.is_more)?;
    record_text(alloc, form, &document)
}

/// An illegal request, with what a person is told of it.
fn request_value(
    alloc: Global,
    file: &str,
    source: &Source<'_>,
    line: Option<TraceLine>,
    number: usize,
    why: Illegality,
    rendered: &[u8],
) -> Result<Value, AllocError>
    ensures { IfOk result (λ value. view value ≡ request_told file.now source.now line number why rendered.now) }
{
    let at = at_of(line);
    quote_line(alloc, file, source, at, rendered)
        .with_text("help", help_words(why))
        .with_text("message", title_words(why))
        .with_text("outcome", "illegal")
        .with("request", Value::from(number))
        .with("strand", Value::from(strand_of(line)))
        .with("version", Value::from(1_u8))
        .finish()
}

/// An illegal request, as one value.
fn illegal_value(
    alloc: Global,
    file: &str,
    text: &[u8],
    trace: &Trace<Global>,
    number: usize,
    why: Illegality,
) -> Result<Value, AllocError>
    ensures { IfOk result (λ value. view value ≡ illegal_told file.now (lines text.now) (trace_contents trace.now).lines number why) }
{
    let rendered = illegal_explanation(alloc, false, file, text, trace, number, why)?;
    let source = Source::new(alloc, text)?;
    let line = request_line(trace, number);
    request_value(alloc, file, &source, line, number, why, rendered.as_slice())
}

/// Tells in a form why the request with this number, from 1 on, of the trace that a text means is illegal, as
/// [`illegal_explanation`](race_explanations::illegal_explanation) tells a person. Errors where there is no memory.
pub fn illegal_record(
    alloc: Global,
    form: RecordForm,
    file: &str,
    text: &[u8],
    trace: &Trace<Global>,
    number: usize,
    why: Illegality,
) -> Result<Vec<u8>, AllocError>
    ensures { IfOk result (λ told. IsTextOf (in_form form (illegal_told file.now (lines text.now) (trace_contents trace.now).lines number why)) told.items) }
{
    let document = illegal_value(alloc, file, text, trace, number, why)?;
    record_text(alloc, form, &document)
}
