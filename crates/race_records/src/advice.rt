//! Where two strands part, and what would order them.

ghost use Rattle.std.specs.Prelude.{◌≡◌, IfOk, if◌then◌else◌};
ghost use Rattle.serde_json.specs.View.{view};
ghost use Rattle.race_explanations.specs.Scenes.{setting_of};
ghost use Rattle.race_records.specs.Advice.{help_told, parting_of, outstanding_of, advice_of};
ghost use Rattle.race_records.specs.AdviceViews.{advice_parts};

use crate::access::place_value;
use crate::site::line_value;
use crate::value::text_value;
use race_explanations::{Scene, help_of, line_of, line_on};
use race_pairs::{Encounter, Pair, Reason};
use sarif_logs::Object;
use serde_json::Value;
use std::alloc::{AllocError, Global};

/// What is told of how the two strands of a pair stand to each other, and of what orders them.
pub(crate) struct Advice {
    /// What orders the two, where a sync is sure to.
    pub(crate) sure_help: Value,
    /// The same, where it is not.
    pub(crate) open_help: Value,
    pub(crate) outstanding: Value,
    pub(crate) parting: Value,
}

/// Written out, so that what lets it go calls one function.
impl Drop for Advice {
    fn drop(self) {
        let Advice {
            sure_help: _,
            open_help: _,
            outstanding: _,
            parting: _,
        } = self;
    }
}

impl Advice {
    /// What orders the two, by whether a sync is sure to.
    pub(crate) fn help(&self, is_sure: bool) -> &Value
        ensures { view result.now ≡ (if is_sure then (advice_parts self.now).sure_help else (advice_parts self.now).open_help) }
    {
        if is_sure {
            &self.sure_help
        } else {
            &self.open_help
        }
    }
}

/// What orders the two.
fn help_value(
    alloc: Global,
    scene: &Scene<'_, '_>,
    pair: &Pair,
    encounter: &Encounter,
    is_sure: bool,
) -> Result<Value, AllocError>
    ensures { IfOk result (λ value. view value ≡ help_told pair.now.lines.reason (setting_of scene.now) pair.now encounter.now is_sure) }
{
    match help_of(alloc, scene, pair, encounter, is_sure)? {
        Some(help) => text_value(alloc, help.as_slice()),
        None => Ok(Value::Null),
    }
}

/// The spawn where the two strands of a race part, and whither its child and its next strand come.
fn parting_of(
    alloc: Global,
    scene: &Scene<'_, '_>,
    pair: &Pair,
    encounter: &Encounter,
) -> Result<Value, AllocError>
    ensures { IfOk result (λ value. view value ≡ parting_of pair.now.lines.reason (setting_of scene.now) pair.now encounter.now) }
{
    match (pair.lines.reason, encounter.parting) {
        (Reason::Race { .. }, Some(parting)) => {
            let child = line_on(pair, encounter.refused.strand, parting.by_child);
            let next = line_of(scene, encounter.onward.unwrap_or(0));
            Object::new(alloc)
                .with_made("child", line_value(alloc, scene, child))
                .with_made("next", line_value(alloc, scene, next))
                .with_made("spawn", place_value(alloc, scene, parting.entry))
                .finish()
        }
        _ => Ok(Value::Null),
    }
}

/// The spawn that makes the peers of the two reads of a view-read race differ: it is outstanding at one of them and not at the other.
fn outstanding_of(
    alloc: Global,
    scene: &Scene<'_, '_>,
    pair: &Pair,
    encounter: &Encounter,
) -> Result<Value, AllocError>
    ensures { IfOk result (λ value. view value ≡ outstanding_of pair.now.lines.reason (setting_of scene.now) pair.now encounter.now) }
{
    match (pair.lines.reason, encounter.outstanding) {
        (Reason::ViewRead, Some(spawn)) => {
            let at = line_on(pair, encounter.refused.strand, spawn.parallel);
            let not_at = line_on(pair, encounter.refused.strand, spawn.ordered);
            Object::new(alloc)
                .with_made("at", line_value(alloc, scene, at))
                .with_made("not_at", line_value(alloc, scene, not_at))
                .with_made("spawn", place_value(alloc, scene, spawn.entry))
                .finish()
        }
        _ => Ok(Value::Null),
    }
}

/// How the two strands of a pair stand to each other, and what orders them.
pub(crate) fn advice_of(
    alloc: Global,
    scene: &Scene<'_, '_>,
    pair: &Pair,
    encounter: &Encounter,
) -> Result<Advice, AllocError>
    ensures { IfOk result (λ advice. advice_parts advice ≡ advice_of pair.now.lines.reason (setting_of scene.now) pair.now encounter.now) }
{
    let sure_help = help_value(alloc, scene, pair, encounter, true)?;
    let open_help = help_value(alloc, scene, pair, encounter, false)?;
    let outstanding = outstanding_of(alloc, scene, pair, encounter)?;
    let parting = parting_of(alloc, scene, pair, encounter)?;
    Ok(Advice {
        sure_help,
        open_help,
        outstanding,
        parting,
    })
}
