//! What is drawn of a history.

ghost use Rattle.std.specs.Prelude.{◌≡◌, filter, reverse, IfOk, MatchOption};
ghost use Rattle.model_histories.specs.Entries.{control_part};
ghost use Rattle.dag_drawing.specs.Walks.{IsLegalHistory};
ghost use Rattle.dag_drawing.specs.Told.{access_told, accesses_told, race_told, races_told};
ghost use Rattle.dag_drawing.specs.Drawn.{AreAccesses, IsDrawing, HasMoreStrands, marked_from, has_mark};

use crate::walk::{Walk, walk_entries};
use access_table::asked_by;
use model_accesses::Witness;
use race_gate::{Answer, Entry};
use std::alloc::{AllocError, Global};
use text_words::Request;

/// The most strands of a drawing.
pub const MOST_STRANDS: usize = 10_000;

/// What an edge of the dag leads to.
#[derive(Clone, Copy)]
pub enum EdgeKind {
    /// From a spawner to the child.
    Child,
    /// From a spawner to what follows its spawn.
    Next,
    /// From the last strand of a child, or from the one that synced, to the join of the block.
    Join,
}

/// An edge of the dag.
#[derive(Clone, Copy)]
pub struct Edge {
    /// What it leads to.
    pub kind: EdgeKind,
    /// The strand that it leads from.
    pub from: u32,
    /// The strand that it leads to.
    pub to: u32,
}

/// An access of a cell or a reducer.
#[derive(Clone, Copy)]
pub struct Access {
    /// The number of its entry, from 1 on.
    pub entry: usize,
    /// What was asked for.
    pub request: Request,
    /// What was answered.
    pub answer: Answer,
}

/// A refused access and the earlier one that it races with.
#[derive(Clone, Copy)]
pub struct Race {
    /// The number of its entry, from 1 on.
    pub entry: usize,
    /// What was asked for.
    pub request: Request,
    /// The earlier access.
    pub witness: Witness,
}

/// The dag of a history with its accesses and its races.
pub struct Drawing {
    /// The strands that have begun, by their numbers, which rise.
    pub strands: Vec<usize>,
    /// The edges of the dag, in order of the entries that made them.
    pub edges: Vec<Edge>,
    /// The accesses, by the numbers of their strands, and those of one strand in order of entries.
    pub accesses: Vec<Access>,
    /// The refused accesses that have a witness, in order of entries.
    pub races: Vec<Race>,
}

impl Drop for Drawing {
    fn drop(self) {
        let Drawing {
            strands: _,
            edges: _,
            accesses: _,
            races: _,
        } = self;
    }
}

/// The access that the entry with this number is, where it is one.
fn access_at(entry: usize, told: Entry) -> Option<Access>
    ensures { result ≡ access_told entry told }
{
    match asked_by(told.request.act) {
        Some(_) => Some(Access {
            entry,
            request: told.request,
            answer: told.answer,
        }),
        None => None,
    }
}

/// The race that the entry with this number tells, where it is a refusal with a witness.
fn race_at(entry: usize, told: Entry) -> Option<Race>
    ensures { result ≡ race_told entry told }
{
    match told.answer {
        Answer::Refused { witness, .. } => Some(Race {
            entry,
            request: told.request,
            witness,
        }),
        _ => None,
    }
}

/// The accesses in order of entries.
fn accesses_of(alloc: Global, entries: &[Entry]) -> Result<Vec<Access>, AllocError>
    ensures { IfOk result (λ found. found.items ≡ accesses_told entries.now) }
{
    let mut found = Vec::new(alloc);
    for (before, entry) in entries.iter().enumerate() {
        if let Some(access) = access_at(before + 1, *entry) {
            found.push(access)?;
        }
    }
    Ok(found)
}

/// The races in order of entries.
fn races_of(alloc: Global, entries: &[Entry]) -> Result<Vec<Race>, AllocError>
    ensures { IfOk result (λ found. found.items ≡ races_told entries.now) }
{
    let mut found = Vec::new(alloc);
    for (before, entry) in entries.iter().enumerate() {
        if let Some(race) = race_at(before + 1, *entry) {
            found.push(race)?;
        }
    }
    Ok(found)
}

/// The numbers that are marked, in their order.
fn collect_marked(alloc: Global, marks: &[bool]) -> Result<Vec<usize>, AllocError>
    ensures { IfOk result (λ strands. strands.items ≡ marked_from 0 marks.now) }
{
    let mut strands = Vec::new(alloc);
    for (strand, begun) in marks.iter().enumerate() {
        if *begun {
            strands.push(strand)?;
        }
    }
    Ok(strands)
}

/// The edges that lead to marked numbers.
fn edges_to(alloc: Global, edges: &[Edge], marks: &[bool]) -> Result<Vec<Edge>, AllocError>
    ensures { IfOk result (λ kept. kept.items ≡ filter (has_mark marks.now) edges.now) }
{
    let mut kept = Vec::new(alloc);
    for edge in edges {
        if let Some(true) = marks.get(edge.to as usize) {
            kept.push(*edge)?;
        }
    }
    Ok(kept)
}

/// The accesses by their strands, and those of one strand in order of entries.
fn sorted_accesses(alloc: Global, entries: &[Entry]) -> Result<Vec<Access>, AllocError>
    ensures { IfOk result (λ accesses. AreAccesses entries.now accesses.items) }
{
    let mut accesses = accesses_of(alloc, entries)?;
    accesses.sort_by_key(|access| access.request.strand)?;
    Ok(accesses)
}

/// The drawing of entries with these strands.
fn drawing_of(
    alloc: Global,
    entries: &[Entry],
    walk: &Walk,
    strands: Vec<usize>,
) -> Result<Drawing, AllocError>
    ensures strands { IfOk result (λ drawing. drawing.strands.items ≡ strands.items) }
    ensures edges { IfOk result (λ drawing. drawing.edges.items ≡ filter (has_mark walk.now.begun.items) walk.now.edges.items) }
    ensures accesses { IfOk result (λ drawing. AreAccesses entries.now drawing.accesses.items) }
    ensures races { IfOk result (λ drawing. drawing.races.items ≡ races_told entries.now) }
{
    let edges = edges_to(alloc, walk.edges.as_slice(), walk.begun.as_slice())?;
    let accesses = sorted_accesses(alloc, entries)?;
    let races = races_of(alloc, entries)?;
    Ok(Drawing {
        strands,
        edges,
        accesses,
        races,
    })
}

/// The drawing of a history, whose entries are given from the oldest on, or None exactly where more than [`MOST_STRANDS`] strands have
/// begun. Its time is that of sorting the entries, and its memory is linear in their number. Errors where there is no memory.
pub fn draw(alloc: Global, entries: &[Entry]) -> Result<Option<Drawing>, AllocError>
    requires { IsLegalHistory (reverse entries.now) }
    ensures { IfOk result (λ told. MatchOption told (HasMoreStrands (control_part (reverse entries.now))) (IsDrawing entries.now)) }
{
    let walk = walk_entries(alloc, entries)?;
    let strands = collect_marked(alloc, walk.begun.as_slice())?;
    if strands.len() > MOST_STRANDS {
        return Ok(None);
    }
    Ok(Some(drawing_of(alloc, entries, &walk, strands)?))
}
