//! Where a line stands.

ghost use Rattle.std.specs.Prelude.{◌≡◌, ◌↔◌, IfOk, IsTrue};
ghost use Rattle.std.specs.Option.{option_map};
ghost use Rattle.text_words.specs.Text.{BeginsWithDigit};
ghost use Rattle.serde_json.specs.View.{view};
ghost use Rattle.trace_notes.specs.Places.{place_parts};
ghost use Rattle.race_explanations.specs.Scenes.{setting_of};
ghost use Rattle.race_records.specs.Sites.{number_of, number_behind, location_by, location_of, marked_site, site_in, line_of_file, parts_told, site_told};
ghost use Rattle.race_records.specs.SiteViews.{location_parts, site_parts};

use crate::value::text_or_null;
use race_explanations::{Origin, Scene, function_in};
use sarif_logs::Object;
use serde_json::Value;
use source_quotes::{Source, statement_of};
use std::alloc::{AllocError, Global};
use trace_notes::Place;

/// A location, `FILE:LINE` or `FILE:LINE:COLUMN`, in parts.
#[derive(Clone, Copy)]
pub(crate) struct Location<'a> {
    pub(crate) file: &'a str,
    pub(crate) line: Option<u32>,
    pub(crate) column: Option<u32>,
}

/// Where a line stands: each part that is known.
#[derive(Clone, Copy)]
pub(crate) struct Site<'a> {
    pub(crate) file: Option<&'a str>,
    pub(crate) line: Option<u32>,
    pub(crate) column: Option<u32>,
    pub(crate) function: Option<&'a str>,
    pub(crate) code: Option<&'a [u8]>,
}

fn begins_with_digit(word: &str) -> bool
    ensures { IsTrue result ↔ BeginsWithDigit word.now }
{
    matches!(word.as_bytes(), [b'0'..=b'9', ..])
}

/// The number from 1 on that digits write.
fn number_of(digits: &str) -> Option<u32>
    ensures { result ≡ number_of digits.now }
{
    if !begins_with_digit(digits) {
        return None;
    }
    match digits.parse::<u32>() {
        Ok(0) => None,
        Ok(number) => Some(number),
        Err(_) => None,
    }
}

/// What stands before the last colon, and the number behind it.
fn number_behind(text: &str) -> Option<(&str, u32)>
    ensures { option_map (λ split. (split.0.now, split.1)) result ≡ number_behind text.now }
{
    let (before, digits) = text.rsplit_once(':')?;
    let number = number_of(digits)?;
    Some((before, number))
}

/// A location whose last number is known, with what stands before it.
fn location_by(before: &str, last: u32) -> Location<'_>
    ensures { location_parts result ≡ location_by before.now last (number_behind before.now) }
{
    match number_behind(before) {
        Some((file, line)) if !file.is_empty() => Location {
            file,
            line: Some(line),
            column: Some(last),
        },
        _ => Location {
            file: before,
            line: Some(last),
            column: None,
        },
    }
}

/// A location in parts.
fn location_of(text: &str) -> Location<'_>
    ensures { location_parts result ≡ location_of text.now }
{
    match number_behind(text) {
        Some((before, last)) => location_by(before, last),
        None => Location {
            file: text,
            line: None,
            column: None,
        },
    }
}

/// The bytes of a text, where there is one.
fn bytes_of(text: Option<&str>) -> Option<&[u8]>
    ensures { option_map (λ bytes. bytes.now) result ≡ option_map (λ text. text.now) text.entry }
{
    match text {
        Some(text) => Some(text.as_bytes()),
        None => None,
    }
}

/// The place that a mark stands for, or its number where no note says it.
fn marked_site(place: Option<Place<'_>>, line: u32) -> Site<'_>
    ensures { site_parts result ≡ marked_site (option_map place_parts place.entry) line }
{
    let Some(place) = place else {
        return Site {
            file: None,
            line: Some(line),
            column: None,
            function: None,
            code: None,
        };
    };
    let location = location_of(place.location);
    Site {
        file: Some(location.file),
        line: location.line,
        column: location.column,
        function: place.function,
        code: bytes_of(place.code),
    }
}

/// Where a line stands.
pub(crate) fn site_in<'b>(scene: &'b Scene<'_, '_>, line: u32) -> Site<'b>
    ensures { site_parts result ≡ site_in (setting_of scene.now).origin line }
{
    match &scene.origin {
        Origin::Program {
            file,
            source,
            program,
        } => Site {
            file: Some(file),
            line: Some(line),
            column: None,
            function: Some(function_in(program, line)),
            code: Some(statement_of(source.line(line))),
        },
        Origin::Trace { notes } => marked_site(notes.place_of(line), line),
    }
}

/// A site as a value.
fn site_value(alloc: Global, site: Site<'_>) -> Result<Value, AllocError>
    ensures { IfOk result (λ value. view value ≡ parts_told (site_parts site.entry)) }
{
    Object::new(alloc)
        .with_made("code", text_or_null(alloc, site.code))
        .with_made("file", text_or_null(alloc, bytes_of(site.file)))
        .with_made("function", text_or_null(alloc, bytes_of(site.function)))
        .with("column", Value::from(site.column))
        .with("line", Value::from(site.line))
        .finish()
}

/// A line of a file, as a value.
pub(crate) fn file_line_value<'b>(
    alloc: Global,
    file: &'b str,
    source: &'b Source<'_>,
    line: u32,
) -> Result<Value, AllocError>
    ensures { IfOk result (λ value. view value ≡ parts_told (line_of_file file.now source.now line)) }
{
    let site = Site {
        file: Some(file),
        line: Some(line),
        column: None,
        function: None,
        code: Some(statement_of(source.line(line))),
    };
    site_value(alloc, site)
}

/// Where a line stands, as a value.
pub(crate) fn line_value(
    alloc: Global,
    scene: &Scene<'_, '_>,
    line: u32,
) -> Result<Value, AllocError>
    ensures { IfOk result (λ value. view value ≡ site_told (setting_of scene.now).origin line) }
{
    site_value(alloc, site_in(scene, line))
}
