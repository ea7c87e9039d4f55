//! Words for what stands in a program and in a run of it.

ghost use Rattle.std.specs.Prelude.{◌≡◌};
ghost use Rattle.std.specs.Option.{option_map};
ghost use Rattle.trace_notes.specs.Places.{place_parts};
ghost use Rattle.program_text.specs.Programs.{contents};
ghost use Rattle.race_pairs.specs.Refusals.{line_in};
ghost use Rattle.race_explanations.specs.Scenes.{setting_of};
ghost use Rattle.race_explanations.specs.Names.{function_at, noted_function, function_of, is_one_name, are_in_one_function, are_in_one_call, side_word, way_word};

use crate::scene::{Origin, Scene};
use access_table::word;
use program_text::Program;
use race_pairs::{Side, Way, line_in};
use std::alloc::Allocator;
use trace_notes::Place;

/// The name of the function of a program in which a line stands.
pub fn function_in<A: Allocator>(program: &Program<A>, line: u32) -> &str
    ensures { result.now ≡ function_at (contents program.now).functions line }
{
    let mut name = "";
    for function in program.functions.as_slice() {
        if function.line >= line {
            return name;
        }
        name = function.name.as_str();
    }
    name
}

/// The function in which a place of a trace stands, where its note says so.
fn noted_function<'a>(place: Option<Place<'a>>) -> Option<&'a str>
    ensures { option_map (λ name. name.now) result ≡ noted_function (option_map place_parts place.entry) }
{
    match place {
        Some(place) => place.function,
        None => None,
    }
}

/// The function in which a line stands, where it is known.
pub(crate) fn function_of<'b>(scene: &'b Scene<'_, '_>, line: u32) -> Option<&'b str>
    ensures { option_map (λ name. name.now) result ≡ function_of (setting_of scene.now).origin line }
{
    match &scene.origin {
        Origin::Program { program, .. } => Some(function_in(program, line)),
        Origin::Trace { notes } => noted_function(notes.place_of(line)),
    }
}

/// Whether the two are one name, or there is none of both.
fn is_one_name(one: Option<&str>, other: Option<&str>) -> bool
    ensures { result ≡ is_one_name (option_map (λ name. name.now) one.entry) (option_map (λ name. name.now) other.entry) }
{
    match (one, other) {
        (Some(one), Some(other)) => one == other,
        (None, None) => true,
        _ => false,
    }
}

/// Whether two lines stand in one function, as far as it is known.
pub(crate) fn are_in_one_function(scene: &Scene<'_, '_>, line: u32, other: u32) -> bool
    ensures { result ≡ are_in_one_function (setting_of scene.now).origin line other }
{
    is_one_name(function_of(scene, line), function_of(scene, other))
}

/// Whether two lines are known to stand in one call of a function. A recorder writes no calls, so of lines with notes this is not known.
pub(crate) fn are_in_one_call(scene: &Scene<'_, '_>, line: u32, other: u32) -> bool
    ensures { result ≡ are_in_one_call (setting_of scene.now).origin line other }
{
    match &scene.origin {
        Origin::Program { .. } => are_in_one_function(scene, line, other),
        Origin::Trace { notes } => {
            notes.place_of(line).is_none() && notes.place_of(other).is_none()
        }
    }
}

/// The line of the entry with this number.
pub fn line_of(scene: &Scene<'_, '_>, number: usize) -> u32
    ensures { result ≡ line_in (setting_of scene.now).lines number }
{
    line_in(scene.digest.lines.as_slice(), number)
}

/// What an access did, where there is one.
pub fn side_word(side: Option<Side>) -> &'static str
    ensures { result.now ≡ side_word side }
{
    match side {
        Some(side) => word(side.kind),
        None => "",
    }
}

/// How a spawn or a call came to a function.
pub fn way_word(way: Way) -> &'static str
    ensures { result.now ≡ way_word way }
{
    match way {
        Way::Spawned => "spawned",
        Way::Called => "called",
    }
}
