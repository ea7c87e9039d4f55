//! What is told of a pair of places that raced.

ghost use Rattle.std.specs.Prelude.{◌≡◌, ℕ, List, IfOk, map};
ghost use Rattle.std.specs.Global.{Vec};
ghost use Rattle.serde_json.specs.Data.{string};
ghost use Rattle.serde_json.specs.View.{view};
ghost use Rattle.sarif_logs.specs.Objects.{Makes};
ghost use Rattle.race_explanations.specs.Scenes.{setting_of};
ghost use Rattle.race_records.specs.Values.{list_told};
ghost use Rattle.race_records.specs.Races.{rule_word, kind_word, witness_told, name_told, parts_of, race_members, race_told, case_told};
ghost use Rattle.race_records.specs.RaceViews.{race_parts};

use crate::access::access_value;
use crate::advice::{Advice, advice_of};
use crate::value::text_value;
use access_table::word;
use race_explanations::{Case, Scene, display_names};
use race_pairs::{Encounter, Pair, Reason};
use sarif_logs::Object;
use serde_json::Value;
use std::alloc::{AllocError, Global};
use std::collections::BTreeSet;

/// What is told of a pair but for the names of what it raced on, and how often.
pub(crate) struct Race {
    pub(crate) reason: Reason,
    /// The line of the spawn at which the two strands part.
    pub(crate) spawn: Option<u32>,
    pub(crate) advice: Advice,
    pub(crate) refused: Value,
    pub(crate) witness: Value,
}

/// Written out, so that what lets it go calls one function.
impl Drop for Race {
    fn drop(self) {
        let Race {
            reason: _,
            spawn: _,
            advice: _,
            refused: _,
            witness: _,
        } = self;
    }
}

/// The rule that was broken.
pub(crate) fn rule_word(reason: Reason) -> &'static str
    ensures { result.now ≡ rule_word reason }
{
    match reason {
        Reason::Race { .. } => "determinacy-race",
        Reason::ViewRead => "view-read-race",
        Reason::Unset => "unset-get",
    }
}

/// The earlier access, where there is one.
fn witness_value(
    alloc: Global,
    scene: &Scene<'_, '_>,
    pair: &Pair,
    encounter: &Encounter,
) -> Result<Value, AllocError>
    ensures { IfOk result (λ value. view value ≡ witness_told pair.now.lines.reason (setting_of scene.now) pair.now encounter.now) }
{
    match pair.lines.reason {
        Reason::Race { .. } | Reason::ViewRead => access_value(
            alloc,
            scene,
            pair.witness,
            encounter.witness,
            encounter.witness_chain.as_slice(),
        ),
        Reason::Unset => Ok(Value::Null),
    }
}

/// What is told of a pair but for the names of what it raced on, and how often.
pub(crate) fn race_of(
    alloc: Global,
    scene: &Scene<'_, '_>,
    pair: &Pair,
    encounter: &Encounter,
) -> Result<Race, AllocError>
    ensures { IfOk result (λ race. race_parts race ≡ parts_of (setting_of scene.now) pair.now encounter.now) }
{
    let advice = advice_of(alloc, scene, pair, encounter)?;
    let refused = access_value(
        alloc,
        scene,
        pair.first,
        Some(encounter.refused),
        encounter.chain.as_slice(),
    )?;
    let witness = witness_value(alloc, scene, pair, encounter)?;
    Ok(Race {
        reason: pair.lines.reason,
        spawn: pair.spawn,
        advice,
        refused,
        witness,
    })
}

/// A name that stands behind a space.
fn name_value(alloc: Global, spaced: &[u8]) -> Result<Value, AllocError>
    ensures { IfOk result (λ value. view value ≡ name_told spaced.now) }
{
    let (_, name) = spaced.split_at(spaced.len().min(1));
    text_value(alloc, name)
}

/// Names, in the order of their bytes.
fn names_value(alloc: Global, names: &BTreeSet<Vec<u8>>) -> Result<Value, AllocError>
    ensures { IfOk result (λ value. view value ≡ list_told name_told (map (λ (name : Vec ℕ). name.items) names.now.keys)) }
{
    let mut values = Vec::new(alloc);
    for name in names.iter() {
        values.push(name_value(alloc, name.as_slice())?)?;
    }
    Ok(Value::from(values))
}

/// What was wrong, in one word.
fn kind_value(alloc: Global, reason: Reason) -> Result<Value, AllocError>
    ensures { IfOk result (λ value. view value ≡ string (kind_word reason)) }
{
    match reason {
        Reason::Race { earlier, refused } => {
            let kind = [word(earlier), "-", word(refused)].concat(alloc)?;
            Ok(Value::from(kind))
        }
        Reason::ViewRead => Value::try_from_str(alloc, "view-read"),
        Reason::Unset => Value::try_from_str(alloc, "unset"),
    }
}

/// The part of what is told of a pair that neither its names nor its group change.
fn begin_race(alloc: Global, race: &Race) -> Object
    ensures { Makes result (race_members (race_parts race.now)) }
{
    Object::new(alloc)
        .with_made("kind", kind_value(alloc, race.reason))
        .with_made("outstanding", race.advice.outstanding.clone())
        .with_made("parting", race.advice.parting.clone())
        .with_made("refused", race.refused.clone())
        .with_made("witness", race.witness.clone())
        .with_text("rule", rule_word(race.reason))
        .with("spawn_line", Value::from(race.spawn))
}

/// All that is told of a pair, with the names of what it raced on, how often, the number of its group, and whether a sync orders all of it.
pub(crate) fn race_value(
    alloc: Global,
    race: &Race,
    names: &BTreeSet<Vec<u8>>,
    times: usize,
    group: usize,
    is_sure: bool,
) -> Result<Value, AllocError>
    ensures { IfOk result (λ value. view value ≡ race_told (race_parts race.now) (map (λ (name : Vec ℕ). name.items) names.now.keys) times group is_sure) }
{
    begin_race(alloc, race)
        .with_made("help", race.advice.help(is_sure).clone())
        .with_made("locations", names_value(alloc, names))
        .with("times", Value::from(times))
        .with("group", Value::from(group))
        .finish()
}

/// What is told of a race in the group with this number, by whether a sync orders all of the group.
pub(crate) fn case_value(
    alloc: Global,
    scene: &Scene<'_, '_>,
    case: &Case<'_>,
    group: usize,
    is_sure: bool,
) -> Result<Value, AllocError>
    ensures { IfOk result (λ value. view value ≡ case_told (setting_of scene.now) group is_sure case.now) }
{
    let pair = &case.race.pair;
    let names = display_names(alloc, scene, pair.lines.reason, case.race.places.as_slice())?;
    let told = race_of(alloc, scene, pair, &case.encounter)?;
    race_value(alloc, &told, &names, pair.times, group, is_sure)
}
