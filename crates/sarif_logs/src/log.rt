//! The log of a record.

ghost use Rattle.std.specs.Prelude.{◌≡◌, ◌++◌, IfOk, map};
ghost use Rattle.serde_json.specs.Data.{array};
ghost use Rattle.serde_json.specs.View.{view, items_of};
ghost use Rattle.sarif_logs.specs.Objects.{made};
ghost use Rattle.sarif_logs.specs.Lists.{items_made, Turns};
ghost use Rattle.sarif_logs.specs.Logs.{finding_result, with_findings, illegal_results, results_of, is_whole, cut_note, notes_of, invocation_told, picked, properties_told, tool_told, run_told, log_told};

use crate::list::{ValueList, list_of_one};
use crate::object::Object;
use crate::place::message_value;
use crate::reading::{count_at, is_at, items_at, member_at};
use crate::result::{fault_result, illegal_result, race_result, warning_result};
use crate::rule::rules_value;
use crate::words::Words;
use serde_json::Value;
use std::alloc::{AllocError, Global};

/// The members of a record that are no results.
const PROPERTIES: &[&str] = &[
    "memory", "more", "outcome", "pairs", "recorded", "refusals", "requests", "traces", "untold",
    "version", "warned",
];

/// What a list of a record tells.
#[derive(Clone, Copy)]
enum Finding {
    /// Warnings of a program.
    Warning,
    /// Races.
    Race,
    /// Faults of a text.
    Fault,
}

/// The result of a finding.
fn finding_result(alloc: Global, finding: Finding, told: &Value) -> Result<Value, AllocError>
    ensures { IfOk result (λ value. view value ≡ finding_result finding (view told.now)) }
{
    match finding {
        Finding::Warning => warning_result(alloc, told),
        Finding::Race => race_result(alloc, told),
        Finding::Fault => fault_result(alloc, told),
    }
}

/// Adds the results of findings.
fn push_findings(alloc: Global, results: &mut ValueList, finding: Finding, all: &[Value])
    ensures { Turns (items_made results.old) (with_findings finding (map view all.now)) (items_made results.new) }
{
    for told in all {
        results.push(finding_result(alloc, finding, told));
    }
}

/// Adds the result of an illegal request, where the record tells one.
fn push_illegal(alloc: Global, results: &mut ValueList, document: &Value)
    ensures { Turns (items_made results.old) (λ before. before ++ illegal_results (view document.now)) (items_made results.new) }
{
    if is_at(document, "outcome", "illegal") {
        results.push(illegal_result(alloc, document));
    }
}

/// The results of a record.
fn results_value(alloc: Global, document: &Value) -> Result<Value, AllocError>
    ensures { IfOk result (λ value. view value ≡ array (items_of (results_of (view document.now)))) }
{
    let mut results = ValueList::new(alloc);
    let warnings = items_at(document, "warnings");
    push_findings(alloc, &mut results, Finding::Warning, warnings);
    let races = items_at(document, "races");
    push_findings(alloc, &mut results, Finding::Race, races);
    let faults = items_at(document, "faults");
    push_findings(alloc, &mut results, Finding::Fault, faults);
    push_illegal(alloc, &mut results, document);
    results.finish()
}

/// Whether a run came to its end, or each request of a trace was judged.
fn is_whole(document: &Value) -> bool
    ensures { result ≡ is_whole (view document.now) }
{
    is_at(document, "outcome", "clean") || is_at(document, "outcome", "raced")
}

/// The note that the limit ended a run.
fn cut_note(alloc: Global, document: &Value) -> Result<Value, AllocError>
    ensures { IfOk result (λ value. view value ≡ cut_note (view document.now)) }
{
    let mut message = Words::new(alloc);
    message.push_number(
        "The limit ended the run after ",
        count_at(document, "requests"),
    );
    message.push(" requests, and there may be more to tell.");
    Object::new(alloc)
        .with_text("level", "warning")
        .with_made("message", message_value(alloc, message))
        .finish()
}

/// What is noted of the run itself: that the limit ended it.
fn notes_value(alloc: Global, document: &Value) -> Result<Value, AllocError>
    ensures { IfOk result (λ value. view value ≡ notes_of (view document.now)) }
{
    if is_at(document, "outcome", "unfinished") {
        list_of_one(alloc, cut_note(alloc, document))
    } else {
        ValueList::new(alloc).finish()
    }
}

/// How the run came out.
fn invocation_value(alloc: Global, document: &Value) -> Result<Value, AllocError>
    ensures { IfOk result (λ value. view value ≡ invocation_told (view document.now)) }
{
    Object::new(alloc)
        .with("executionSuccessful", Value::from(is_whole(document)))
        .with_made("toolExecutionNotifications", notes_value(alloc, document))
        .finish()
}

/// An object with the members of a record that have these keys.
fn with_members(object: Object, alloc: Global, document: &Value, keys: &[&str]) -> Object
    ensures { Turns (made object) (picked (map (λ key. key.now) keys.now) (view document.now)) (made result) }
{
    let [key, rest @ ..] = keys else {
        return object;
    };
    let member = member_at(alloc, document, key);
    with_members(object.with_made(key, member), alloc, document, rest)
}

/// What the record has that is no result.
fn properties_value(alloc: Global, document: &Value) -> Result<Value, AllocError>
    ensures { IfOk result (λ value. view value ≡ properties_told (view document.now)) }
{
    with_members(Object::new(alloc), alloc, document, PROPERTIES).finish()
}

/// The tool, with its rules.
fn tool_value(alloc: Global) -> Result<Value, AllocError>
    ensures { IfOk result (λ value. view value ≡ tool_told) }
{
    let driver = Object::new(alloc)
        .with_text("name", "cilkcheck")
        .with_made("rules", rules_value(alloc))
        .finish();
    Object::new(alloc).with_made("driver", driver).finish()
}

/// The one run of a log.
fn run_value(alloc: Global, document: &Value) -> Result<Value, AllocError>
    ensures { IfOk result (λ value. view value ≡ run_told (view document.now)) }
{
    Object::new(alloc)
        .with_made(
            "invocations",
            list_of_one(alloc, invocation_value(alloc, document)),
        )
        .with_made("properties", properties_value(alloc, document))
        .with_made("results", results_value(alloc, document))
        .with_made("tool", tool_value(alloc))
        .finish()
}

/// The log in SARIF 2.1.0 of a record, which is a JSON object of the shape that `explain --format json` prints: a result for each of its
/// warnings, races and faults and for its illegal request, and all else as properties of the run. Errors where there is no memory.
pub fn log_value(alloc: Global, document: &Value) -> Result<Value, AllocError>
    ensures { IfOk result (λ log. view log ≡ log_told (view document.now)) }
{
    Object::new(alloc)
        .with_text("$schema", "https://json.schemastore.org/sarif-2.1.0.json")
        .with_text("version", "2.1.0")
        .with_made("runs", list_of_one(alloc, run_value(alloc, document)))
        .finish()
}
