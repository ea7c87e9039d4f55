//! The related locations of a race: the earlier access, the spawn where the two part, and the spawns and calls that led there.

ghost use Rattle.std.specs.Prelude.{◌≡◌, IfOk, map};
ghost use Rattle.std.specs.Option.{option_map};
ghost use Rattle.serde_json.specs.Data.{array};
ghost use Rattle.serde_json.specs.View.{view, items_of};
ghost use Rattle.sarif_logs.specs.AccessViews.{access_parts};
ghost use Rattle.sarif_logs.specs.PlaceViews.{place_parts};
ghost use Rattle.sarif_logs.specs.Lists.{items_made, Turns};
ghost use Rattle.sarif_logs.specs.Related.{Relates, with_witness, with_spawn, with_links, related_of};

use crate::access::{Access, access_at};
use crate::list::ValueList;
use crate::place::{Place, place_at, push_place, related_value};
use crate::reading::{object_at, words_at};
use crate::words::Words;
use serde_json::Value;
use std::alloc::{AllocError, Global};

/// Adds a related location, with the next number, of which this is said.
fn push_related(alloc: Global, related: &mut ValueList, words: Words, place: &Place<'_>)
    ensures { Relates (items_made related.old) words (place_parts place.now) (items_made related.new) }
{
    let value = related_value(alloc, related.next_number(), words, place);
    related.push(value);
}

/// Adds the earlier access, where there is one.
fn push_witness(alloc: Global, related: &mut ValueList, witness: Option<&Value>)
    ensures { Turns (items_made related.old) (with_witness (option_map (λ value. view value.now) witness.entry)) (items_made related.new) }
{
    let Some(witness) = witness else {
        return;
    };
    let mut words = Words::new(alloc);
    words.push("the earlier ");
    words.push(words_at(witness, "word"));
    push_related(alloc, related, words, &place_at(witness, "place"));
}

/// Adds a spawn, where it is known, with what is said of the places at these two keys.
fn push_spawn(
    alloc: Global,
    related: &mut ValueList,
    spawn: Option<&Value>,
    before: &str,
    first: &str,
    between: &str,
    second: &str,
)
    ensures { Turns (items_made related.old) (with_spawn before.now first.now between.now second.now (option_map (λ value. view value.now) spawn.entry)) (items_made related.new) }
{
    let Some(spawn) = spawn else {
        return;
    };
    let mut words = Words::new(alloc);
    words.push(before);
    push_place(&mut words, &place_at(spawn, first));
    words.push(between);
    push_place(&mut words, &place_at(spawn, second));
    push_related(alloc, related, words, &place_at(spawn, "spawn"));
}

/// Adds the spawns and calls that led to one of two accesses, which these words tell from the other.
fn push_links(alloc: Global, related: &mut ValueList, which: &str, access: &str, links: &[Value])
    ensures { Turns (items_made related.old) (with_links which.now access.now (map view links.now)) (items_made related.new) }
{
    let [link, rest @ ..] = links else {
        return;
    };
    let mut words = Words::new(alloc);
    words.push_three(words_at(link, "way"), " here, on the way to ", which);
    words.push(access);
    push_related(alloc, related, words, &place_at(link, "place"));
    push_links(alloc, related, which, access, rest);
}

/// The related locations of a race. The earlier access is the first, the spawn where the two part the second.
pub(crate) fn related_list(alloc: Global, race: &Value) -> Result<Value, AllocError>
    ensures { IfOk result (λ value. view value ≡ array (items_of (related_of (view race.now)))) }
{
    let mut related = ValueList::new(alloc);
    push_witness(alloc, &mut related, object_at(race, "witness"));
    push_spawn(
        alloc,
        &mut related,
        object_at(race, "parting"),
        "here they part: what is spawned comes to ",
        "child",
        ", and the spawner goes on to ",
        "next",
    );
    push_spawn(
        alloc,
        &mut related,
        object_at(race, "outstanding"),
        "this spawn is outstanding at ",
        "at",
        " and not at ",
        "not_at",
    );
    let refused = access_at(race, "refused");
    push_links(alloc, &mut related, "this ", refused.word, refused.within);
    let witness = access_at(race, "witness");
    push_links(
        alloc,
        &mut related,
        "the earlier ",
        witness.word,
        witness.within,
    );
    related.finish()
}
