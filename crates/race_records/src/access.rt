//! An access, and the spawns and calls that led there.

ghost use Rattle.std.specs.Prelude.{◌≡◌, IfOk, take};
ghost use Rattle.serde_json.specs.View.{view};
ghost use Rattle.race_explanations.specs.Scenes.{setting_of};
ghost use Rattle.race_records.specs.Values.{list_told};
ghost use Rattle.race_records.specs.Accesses.{place_told, link_told, access_told};

use crate::site::line_value;
use race_explanations::{Scene, line_of, side_word, way_word};
use race_pairs::{Link, Side};
use sarif_logs::Object;
use serde_json::Value;
use std::alloc::{AllocError, Global};

/// How many spawns and calls are told at most.
const LINKS: usize = 8;

/// Where the entry with this number stands.
pub(crate) fn place_value(
    alloc: Global,
    scene: &Scene<'_, '_>,
    number: usize,
) -> Result<Value, AllocError>
    ensures { IfOk result (λ value. view value ≡ place_told (setting_of scene.now) number) }
{
    line_value(alloc, scene, line_of(scene, number))
}

/// A spawn or a call on the way to an access.
fn link_value(alloc: Global, scene: &Scene<'_, '_>, link: Link) -> Result<Value, AllocError>
    ensures { IfOk result (λ value. view value ≡ link_told (setting_of scene.now) link) }
{
    Object::new(alloc)
        .with_text("way", way_word(link.way))
        .with_made("place", place_value(alloc, scene, link.entry))
        .finish()
}

/// The innermost spawns and calls on the way to an access.
fn within_value(alloc: Global, scene: &Scene<'_, '_>, chain: &[Link]) -> Result<Value, AllocError>
    ensures { IfOk result (λ value. view value ≡ list_told (link_told (setting_of scene.now)) (take 8 chain.now)) }
{
    let (told, _) = chain.split_at(chain.len().min(LINKS));
    let mut values = Vec::new(alloc);
    for link in told {
        values.push(link_value(alloc, scene, *link)?)?;
    }
    Ok(Value::from(values))
}

/// The access that is the entry with this number, with the innermost of the spawns and calls that led there.
pub(crate) fn access_value(
    alloc: Global,
    scene: &Scene<'_, '_>,
    number: usize,
    side: Option<Side>,
    chain: &[Link],
) -> Result<Value, AllocError>
    ensures { IfOk result (λ value. view value ≡ access_told (setting_of scene.now) number side chain.now) }
{
    Object::new(alloc)
        .with_made("place", place_value(alloc, scene, number))
        .with_made("within", within_value(alloc, scene, chain))
        .with_text("word", side_word(side))
        .with("further", Value::from(chain.len().saturating_sub(LINKS)))
        .finish()
}
