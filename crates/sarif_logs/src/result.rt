//! The results of a log: what is told of warnings, races, faults of a text and an illegal request.

ghost use Rattle.std.specs.Prelude.{◌≡◌, IfOk, Some, codes};
ghost use Rattle.std.specs.Option.{option_map};
ghost use Rattle.serde_json.specs.View.{view};
ghost use Rattle.sarif_logs.specs.Objects.{Makes};
ghost use Rattle.sarif_logs.specs.PlaceViews.{place_parts};
ghost use Rattle.sarif_logs.specs.Results.{result_members, race_properties, race_result, warning_result, first_line, behind_word, told_twice, fault_result};
ghost use Rattle.sarif_logs.specs.Results.{illegal_properties, illegal_result};

use crate::access::access_at;
use crate::list::{ValueList, list_of_one};
use crate::message::{push_help, race_message};
use crate::object::Object;
use crate::place::{Place, location_value, message_value, place_at, place_of};
use crate::reading::{count_at, member_at, text_at, words_at};
use crate::related::related_list;
use crate::rule::Rule;
use crate::words::Words;
use serde_json::Value;
use std::alloc::{AllocError, Global};

/// The part of a result that says which rule is broken, where, and how often.
fn begin_result(alloc: Global, rule: Rule, place: &Place<'_>, times: u64) -> Object
    ensures { Makes result (result_members rule (place_parts place.now) times) }
{
    Object::new(alloc)
        .with_text("level", rule.level())
        .with_made(
            "locations",
            list_of_one(alloc, location_value(alloc, place)),
        )
        .with("occurrenceCount", Value::from(times))
        .with_text("ruleId", rule.texts().id)
        .with("ruleIndex", Value::from(rule.number()))
}

/// What a race has that no other member of a result tells.
fn race_properties(alloc: Global, race: &Value) -> Result<Value, AllocError>
    ensures { IfOk result (λ value. view value ≡ race_properties (view race.now)) }
{
    let refused = access_at(race, "refused");
    let witness = access_at(race, "witness");
    Object::new(alloc)
        .with("group", Value::from(count_at(race, "group")))
        .with_text("kind", words_at(race, "kind"))
        .with_made("locations", member_at(alloc, race, "locations"))
        .with("refusedFurther", Value::from(refused.further))
        .with_made("spawnLine", member_at(alloc, race, "spawn_line"))
        .with("witnessFurther", Value::from(witness.further))
        .finish()
}

/// The result of a race.
pub(crate) fn race_result(alloc: Global, race: &Value) -> Result<Value, AllocError>
    ensures { IfOk result (λ value. view value ≡ race_result (view race.now)) }
{
    let rule = Rule::named(words_at(race, "rule"));
    let refused = access_at(race, "refused");
    begin_result(alloc, rule, &refused.place, count_at(race, "times"))
        .with_made("message", race_message(alloc, race))
        .with_made("properties", race_properties(alloc, race))
        .with_made("relatedLocations", related_list(alloc, race))
        .finish()
}

/// The result of a warning.
pub(crate) fn warning_result(alloc: Global, warning: &Value) -> Result<Value, AllocError>
    ensures { IfOk result (λ value. view value ≡ warning_result (view warning.now)) }
{
    let mut message = Words::new(alloc);
    message.push(words_at(warning, "message"));
    message.push(".");
    let rule = Rule::named(words_at(warning, "rule"));
    begin_result(alloc, rule, &place_at(warning, "place"), 1)
        .with_made("message", message_value(alloc, message))
        .with_made("properties", Object::new(alloc).finish())
        .with_made("relatedLocations", ValueList::new(alloc).finish())
        .finish()
}

/// The first line of a text.
fn first_line(text: &str) -> &str
    ensures { result.now ≡ first_line text.now }
{
    match text.split_once('\n') {
        Some((line, _)) => line,
        None => text,
    }
}

/// What stands in a line behind its first word.
fn behind_word(line: &str) -> &str
    ensures { result.now ≡ behind_word line.now }
{
    match line.split_once(' ') {
        Some((_, behind)) => behind,
        None => "",
    }
}

/// A message in words, and as a person is told it, as a block of code of Markdown.
fn tell_twice(alloc: Global, words: Words, rendered: &str) -> Result<Value, AllocError>
    ensures { IfOk result (λ value. option_map (λ said. told_twice said rendered.now) words ≡ Some (view value)) }
{
    let mut markdown = Words::new(alloc);
    markdown.push_three("```\n", rendered, "```");
    Object::new(alloc)
        .with_made("markdown", markdown.end())
        .with_made("text", words.end())
        .finish()
}

/// The result of a fault of a text. Its message is the title of what a person is told, which stands in the first line behind the first word.
pub(crate) fn fault_result(alloc: Global, fault: &Value) -> Result<Value, AllocError>
    ensures { IfOk result (λ value. view value ≡ fault_result (view fault.now)) }
{
    let rendered = words_at(fault, "rendered");
    let mut message = Words::new(alloc);
    message.push(behind_word(first_line(rendered)));
    message.push(".");
    let properties = Object::new(alloc).with_text("cause", words_at(fault, "cause"));
    begin_result(alloc, Rule::TextFault, &place_of(fault), 1)
        .with_made("message", tell_twice(alloc, message, rendered))
        .with_made("properties", properties.finish())
        .with_made("relatedLocations", ValueList::new(alloc).finish())
        .finish()
}

/// What an illegal request has that no other member of a result tells.
fn illegal_properties(alloc: Global, request: &Value) -> Result<Value, AllocError>
    ensures { IfOk result (λ value. view value ≡ illegal_properties (view request.now)) }
{
    Object::new(alloc)
        .with("request", Value::from(count_at(request, "request")))
        .with("strand", Value::from(count_at(request, "strand")))
        .finish()
}

/// The result of an illegal request.
pub(crate) fn illegal_result(alloc: Global, request: &Value) -> Result<Value, AllocError>
    ensures { IfOk result (λ value. view value ≡ illegal_result (view request.now)) }
{
    let mut message = Words::new(alloc);
    message.push(words_at(request, "message"));
    message.push(".");
    push_help(&mut message, text_at(request, "help"));
    let rendered = words_at(request, "rendered");
    begin_result(alloc, Rule::IllegalRequest, &place_of(request), 1)
        .with_made("message", tell_twice(alloc, message, rendered))
        .with_made("properties", illegal_properties(alloc, request))
        .with_made("relatedLocations", ValueList::new(alloc).finish())
        .finish()
}
