//! Places of a record as locations of a log.

ghost use Rattle.std.specs.Prelude.{◌≡◌, IfOk, Some, codes, string_bytes};
ghost use Rattle.std.specs.Option.{option_map};
ghost use Rattle.serde_json.specs.Data.{member, no_members};
ghost use Rattle.serde_json.specs.View.{view};
ghost use Rattle.sarif_logs.specs.Places.{place_of, place_at, nowhere, scheme, uri, text_told, count_told, region_told, artifact_told, physical_told, function_told, functions_told};
ghost use Rattle.sarif_logs.specs.Places.{column_words, place_words, in_function, location_told, related_told};
ghost use Rattle.text_buffers.specs.Builders.{Adds};
ghost use Rattle.sarif_logs.specs.Objects.{Makes};
ghost use Rattle.sarif_logs.specs.PlaceViews.{place_parts};

use crate::list::{ValueList, list_of_one};
use crate::object::Object;
use crate::reading::{number_at, object_at, text_at};
use crate::words::Words;
use percent_encoding::{AsciiSet, NON_ALPHANUMERIC, ascii_set, utf8_percent_encode};
use serde_json::Value;
use std::alloc::{AllocError, Global};

/// The ASCII bytes that the path of a URI does not hold as they are: all but letters, digits, `-`, `.`, `_`, `~` and `/`. A colon is one of
/// them, since what stands before it could be read as a scheme.
const ESCAPED: AsciiSet = ascii_set!(
    NON_ALPHANUMERIC
        .remove(b'-')
        .remove(b'.')
        .remove(b'_')
        .remove(b'~')
        .remove(b'/')
);

/// Where something is: each part that is known.
#[derive(Clone, Copy)]
pub(crate) struct Place<'v> {
    pub(crate) file: Option<&'v str>,
    pub(crate) line: Option<u64>,
    pub(crate) column: Option<u64>,
    pub(crate) function: Option<&'v str>,
    pub(crate) code: Option<&'v str>,
}

/// No part is known.
pub(crate) const NOWHERE: Place<'static> = Place {
    file: None,
    line: None,
    column: None,
    function: None,
    code: None,
};

/// The place that a value tells.
pub(crate) fn place_of(value: &Value) -> Place<'_>
    ensures { place_parts result ≡ place_of (view value.now) }
{
    Place {
        file: text_at(value, "file"),
        line: number_at(value, "line"),
        column: number_at(value, "column"),
        function: text_at(value, "function"),
        code: text_at(value, "code"),
    }
}

/// The place that stands at this key; none of its parts is known where none stands there.
pub(crate) fn place_at<'v>(value: &'v Value, key: &str) -> Place<'v>
    ensures { place_parts result ≡ place_at key.now (view value.now) }
{
    match object_at(value, key) {
        Some(place) => place_of(place),
        None => NOWHERE,
    }
}

/// What stands before the path of a file: an absolute name is a URI of the scheme `file`, another is relative as it was given.
fn scheme(name: &str) -> &'static str
    ensures { result.now ≡ scheme name.now }
{
    match name.as_bytes() {
        [b'/', ..] => "file://",
        _ => "",
    }
}

/// The URI of a file.
fn uri(alloc: Global, name: &str) -> Result<String, AllocError>
    ensures { IfOk result (λ told. string_bytes told ≡ uri name.now) }
{
    let mut uri = String::from_str(alloc, scheme(name))?;
    utf8_percent_encode(name, ESCAPED).append_to(&mut uri)?;
    Ok(uri)
}

/// A text as a message.
pub(crate) fn text_value(alloc: Global, text: &str) -> Result<Value, AllocError>
    ensures { IfOk result (λ value. view value ≡ text_told text.now) }
{
    Object::new(alloc).with_text("text", text).finish()
}

/// A built text as a message.
pub(crate) fn message_value(alloc: Global, words: Words) -> Result<Value, AllocError>
    ensures { IfOk result (λ value. option_map text_told words ≡ Some (view value)) }
{
    Object::new(alloc).with_made("text", words.end()).finish()
}

/// The part of a file: a line, from a column on where it is known.
fn region_value(
    alloc: Global,
    line: u64,
    column: Option<u64>,
    code: Option<&str>,
) -> Result<Value, AllocError>
    ensures { IfOk result (λ value. view value ≡ region_told line column (option_map (λ code. code.now) code.entry)) }
{
    let whole_line = Object::new(alloc).with("startLine", Value::from(line));
    let region = match column {
        Some(column) => whole_line.with("startColumn", Value::from(column)),
        None => whole_line,
    };
    match code {
        Some(code) => region
            .with_made("snippet", text_value(alloc, code))
            .finish(),
        None => region.finish(),
    }
}

/// Where a file is.
fn artifact_value(alloc: Global, file: &str) -> Result<Value, AllocError>
    ensures { IfOk result (λ value. view value ≡ artifact_told file.now) }
{
    let uri = uri(alloc, file)?;
    Object::new(alloc).with("uri", Value::from(uri)).finish()
}

/// A file and the part of it, where its line is known.
fn physical_value(alloc: Global, file: &str, place: &Place<'_>) -> Result<Value, AllocError>
    ensures { IfOk result (λ value. view value ≡ physical_told file.now (place_parts place.now)) }
{
    let physical = Object::new(alloc).with_made("artifactLocation", artifact_value(alloc, file));
    match place.line {
        Some(line) => {
            let region = region_value(alloc, line, place.column, place.code);
            physical.with_made("region", region).finish()
        }
        None => physical.finish(),
    }
}

/// A function as a logical location.
fn function_value(alloc: Global, function: &str) -> Result<Value, AllocError>
    ensures { IfOk result (λ value. view value ≡ function_told function.now) }
{
    Object::new(alloc)
        .with_text("kind", "function")
        .with_text("name", function)
        .finish()
}

/// The function of a place, where it is known.
fn functions_value(alloc: Global, function: Option<&str>) -> Result<Value, AllocError>
    ensures { IfOk result (λ value. view value ≡ functions_told (option_map (λ function. function.now) function.entry)) }
{
    match function {
        Some(function) => list_of_one(alloc, function_value(alloc, function)),
        None => ValueList::new(alloc).finish(),
    }
}

/// Adds a number behind a colon, where there is one.
fn push_number(text: &mut Words, number: Option<u64>)
    ensures { Adds text.old (column_words number) text.new }
{
    match number {
        Some(number) => text.push_number(":", number),
        None => {}
    }
}

/// Adds where a place is.
pub(crate) fn push_place(text: &mut Words, place: &Place<'_>)
    ensures { Adds text.old (place_words (place_parts place.now)) text.new }
{
    match (place.file, place.line) {
        (Some(file), line) => {
            text.push(file);
            push_number(text, line);
            push_number(text, place.column);
        }
        (None, Some(line)) => text.push_number("line ", line),
        (None, None) => text.push("an unknown line"),
    }
}

/// Adds in which function a place is, where it is known.
pub(crate) fn push_function(text: &mut Words, place: &Place<'_>)
    ensures { Adds text.old (in_function (place_parts place.now).function) text.new }
{
    match place.function {
        Some(function) => text.push_three(" in `", function, "`"),
        None => {}
    }
}

/// A place as a message.
fn place_message(alloc: Global, place: &Place<'_>) -> Result<Value, AllocError>
    ensures { IfOk result (λ value. view value ≡ text_told (place_words (place_parts place.now))) }
{
    let mut words = Words::new(alloc);
    push_place(&mut words, place);
    message_value(alloc, words)
}

/// The part of a location that related ones have too.
fn begin_location(alloc: Global, place: &Place<'_>) -> Object
    ensures { Makes result (member (codes "logicalLocations") (functions_told (place_parts place.now).function) no_members) }
{
    let functions = functions_value(alloc, place.function);
    Object::new(alloc).with_made("logicalLocations", functions)
}

/// A place as the location of a result. One without a file has no physical location, and a message in its place.
pub(crate) fn location_value(alloc: Global, place: &Place<'_>) -> Result<Value, AllocError>
    ensures { IfOk result (λ value. view value ≡ location_told (place_parts place.now)) }
{
    let location = begin_location(alloc, place);
    match place.file {
        Some(file) => {
            let physical = physical_value(alloc, file, place);
            location.with_made("physicalLocation", physical).finish()
        }
        None => location
            .with_made("message", place_message(alloc, place))
            .finish(),
    }
}

/// A place as a related location, with a number by which messages link to it, and what is said of it.
pub(crate) fn related_value(
    alloc: Global,
    number: usize,
    mut words: Words,
    place: &Place<'_>,
) -> Result<Value, AllocError>
    ensures { IfOk result (λ value. option_map (λ said. related_told number said (place_parts place.now)) words ≡ Some (view value)) }
{
    let location = begin_location(alloc, place).with("id", Value::from(number));
    match place.file {
        Some(file) => location
            .with_made("physicalLocation", physical_value(alloc, file, place))
            .with_made("message", message_value(alloc, words))
            .finish(),
        None => {
            words.push(" (");
            push_place(&mut words, place);
            words.push(")");
            location
                .with_made("message", message_value(alloc, words))
                .finish()
        }
    }
}
