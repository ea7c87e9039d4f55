//! What the message of a race says: what races with what, and what would order them.

ghost use Rattle.std.specs.Prelude.{◌≡◌, ◌++◌, IfOk, codes, map};
ghost use Rattle.std.specs.Option.{option_map};
ghost use Rattle.serde_json.specs.View.{view};
ghost use Rattle.text_buffers.specs.Builders.{Adds};
ghost use Rattle.sarif_logs.specs.Places.{text_told};
ghost use Rattle.sarif_logs.specs.AccessViews.{access_parts};
ghost use Rattle.sarif_logs.specs.Messages.{other_words, names_words, between_words, conflict_words, spawn_words, help_words, race_words};

use crate::access::{Access, access_at};
use crate::place::{message_value, push_function, push_place};
use crate::reading::{is_at, items_at, object_at, text_at};
use crate::words::Words;
use serde_json::Value;
use std::alloc::{AllocError, Global};

/// Adds how many other names there are.
fn push_others(text: &mut Words, count: usize)
    ensures { Adds text.old (other_words count) text.new }
{
    if count == 0 {
        return;
    }
    text.push_number(" and ", count as u64);
    text.push(if count == 1 { " other" } else { " others" });
}

/// Adds the first of the names of what was accessed, and how many others there are.
fn push_names(text: &mut Words, names: &[Value])
    ensures { Adds text.old (names_words (map view names.now)) text.new }
{
    match names {
        [] => text.push("something"),
        [name, others @ ..] => {
            text.push_three("`", name.as_str().unwrap_or(""), "`");
            push_others(text, others.len());
        }
    }
}

/// Adds words, the earlier access with a link to the first related location, and further words.
fn push_between(text: &mut Words, before: &str, witness: &Access<'_>, behind: &str)
    ensures { Adds text.old (between_words before.now (access_parts witness.now) behind.now) text.new }
{
    text.push(before);
    text.push_three("[", witness.word, "](1)");
    push_function(text, &witness.place);
    text.push(" at ");
    push_place(text, &witness.place);
    text.push(behind);
}

/// Adds what is wrong with the refused access.
fn push_conflict(text: &mut Words, race: &Value)
    ensures { Adds text.old (conflict_words (view race.now)) text.new }
{
    let witness = access_at(race, "witness");
    if is_at(race, "rule", "determinacy-race") {
        push_between(text, " may run before or after the ", &witness, ".");
    } else if is_at(race, "rule", "view-read-race") {
        let behind = ", so what it finds may depend on the schedule.";
        push_between(text, " has other peers than the ", &witness, behind);
    } else {
        text.push(" finds nothing: no put or get of it was granted before.");
    }
}

/// What is said of the spawn, with a link to the second related location.
fn spawn_words(parting: Option<&Value>, outstanding: Option<&Value>) -> &'static str
    ensures { result.now ≡ spawn_words (option_map (λ value. view value.now) parting.entry) (option_map (λ value. view value.now) outstanding.entry) }
{
    match (parting, outstanding) {
        (Some(_), _) => " They part at [this spawn](2).",
        (None, Some(_)) =>
            " [This spawn](2) is outstanding at one of the two and not at the other.",
        (None, None) => "",
    }
}

/// Adds what would order the two, where it is known.
pub(crate) fn push_help(text: &mut Words, help: Option<&str>)
    ensures { Adds text.old (help_words (option_map (λ help. help.now) help.entry)) text.new }
{
    match help {
        Some(help) => text.push_three(" Help: ", help, "."),
        None => {}
    }
}

/// The message of a race: the refused access, what is wrong with it, and what would order the two.
pub(crate) fn race_message(alloc: Global, race: &Value) -> Result<Value, AllocError>
    ensures { IfOk result (λ value. view value ≡ text_told (race_words (view race.now))) }
{
    let mut text = Words::new(alloc);
    let refused = access_at(race, "refused");
    text.push_three("This ", refused.word, " of ");
    push_names(&mut text, items_at(race, "locations"));
    push_function(&mut text, &refused.place);
    push_conflict(&mut text, race);
    text.push(spawn_words(object_at(race, "parting"), object_at(race, "outstanding")));
    push_help(&mut text, text_at(race, "help"));
    message_value(alloc, text)
}
