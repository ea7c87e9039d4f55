//! What the entries of a history did to its dag.

ghost use Rattle.std.specs.Prelude.{◌≡◌, ◌<◌, ◌++◌, ◌∷◌, ◌+◌, [], ℕ, true, false, Some, None};
ghost use Rattle.std.specs.Prelude.{length, reverse, take, slice_index_or, slice_set, IfOk, OnOk};
ghost use Rattle.model_histories.specs.Entries.{control_part};
ghost use Rattle.dag_drawing.specs.Arrows.{forks, arrival};
ghost use Rattle.dag_drawing.specs.Walks.{IsLegalHistory, marks_of, blocks_of, IsWalk};

use crate::drawing::{Edge, EdgeKind};
use model_strands::Spawned;
use race_gate::{Answer, Entry};
use std::alloc::{AllocError, Global};

/// What is known of strands and edges after some entries.
pub struct Walk {
    /// By the number of a strand or a reserved join, whether it has begun.
    pub begun: Vec<bool>,
    /// By that number, the join of the innermost block round the strand.
    pub blocks: Vec<Option<u32>>,
    /// The edges, and those that will lead to joins that have not begun.
    pub edges: Vec<Edge>,
}

impl Drop for Walk {
    fn drop(self) {
        let Walk {
            begun: _,
            blocks: _,
            edges: _,
        } = self;
    }
}

/// Adds the marks of the strands of a spawn, and that of its join where it opens a block.
fn add_marks(begun: &mut Vec<bool>, first: bool) -> Result<(), AllocError>
    ensures { OnOk result (begun.new.items ≡ begun.old.items ++ marks_of first) }
{
    if first {
        begun.extend_from_slice(&[true, true, false])
    } else {
        begun.extend_from_slice(&[true, true])
    }
}

/// Adds the blocks round the strands of a spawn, and that round its join where it opens a block.
fn add_blocks(
    blocks: &mut Vec<Option<u32>>,
    spawned: Spawned,
    outer: Option<u32>,
) -> Result<(), AllocError>
    ensures { OnOk result (blocks.new.items ≡ blocks.old.items ++ blocks_of spawned.first spawned.join outer) }
{
    let inner = Some(spawned.join);
    if spawned.first {
        blocks.extend_from_slice(&[inner, inner, outer])
    } else {
        blocks.extend_from_slice(&[inner, inner])
    }
}

impl Walk {
    /// What is known before the first entry.
    fn new(alloc: Global) -> Result<Walk, AllocError>
        ensures begun { IfOk result (λ walk. walk.begun.items ≡ true ∷ []) }
        ensures blocks { IfOk result (λ walk. walk.blocks.items ≡ None ∷ []) }
        ensures edges { IfOk result (λ walk. walk.edges.items ≡ []) }
    {
        let mut begun = Vec::new(alloc);
        begun.push(true)?;
        let mut blocks = Vec::new(alloc);
        blocks.push(None)?;
        Ok(Walk {
            begun,
            blocks,
            edges: Vec::new(alloc),
        })
    }

    /// Adds the edge from a strand that ends to the join of the block round it.
    fn arrive(&mut self, strand: u32) -> Result<(), AllocError>
        requires { strand < length self.now.blocks.items }
        ensures begun { self.new.begun.items ≡ self.old.begun.items }
        ensures blocks { self.new.blocks.items ≡ self.old.blocks.items }
        ensures edges { OnOk result (self.new.edges.items
            ≡ self.old.edges.items ++ arrival strand (slice_index_or self.old.blocks.items strand None)) }
    {
        match self.blocks[strand as usize] {
            Some(join) => {
                let edge = Edge {
                    kind: EdgeKind::Join,
                    from: strand,
                    to: join,
                };
                self.edges.extend_from_slice(&[edge])
            }
            None => Ok(()),
        }
    }

    /// Adds the strands and the edges of a spawn, and its join where it opens a block.
    fn spawn(&mut self, strand: u32, spawned: Spawned) -> Result<(), AllocError>
        requires { strand < length self.now.blocks.items }
        ensures begun { OnOk result (self.new.begun.items ≡ self.old.begun.items ++ marks_of spawned.first) }
        ensures blocks { OnOk result (self.new.blocks.items
            ≡ self.old.blocks.items ++ blocks_of spawned.first spawned.join (slice_index_or self.old.blocks.items strand None)) }
        ensures edges { OnOk result (self.new.edges.items ≡ self.old.edges.items ++ forks strand spawned.child spawned.next) }
    {
        let outer = self.blocks[strand as usize];
        add_marks(&mut self.begun, spawned.first)?;
        add_blocks(&mut self.blocks, spawned, outer)?;
        let child = Edge {
            kind: EdgeKind::Child,
            from: strand,
            to: spawned.child,
        };
        let next = Edge {
            kind: EdgeKind::Next,
            from: strand,
            to: spawned.next,
        };
        self.edges.extend_from_slice(&[child, next])
    }

    /// Marks a join as begun, and adds the edge from the strand that began it.
    fn join(&mut self, strand: u32, join: u32) -> Result<(), AllocError>
        requires within { strand < length self.now.blocks.items }
        requires reserved { join < length self.now.begun.items }
        ensures begun { self.new.begun.items ≡ slice_set self.old.begun.items join true }
        ensures blocks { self.new.blocks.items ≡ self.old.blocks.items }
        ensures edges { OnOk result (self.new.edges.items
            ≡ self.old.edges.items ++ arrival strand (slice_index_or self.old.blocks.items strand None)) }
    {
        self.begun[join as usize] = true;
        self.arrive(strand)
    }

    /// Follows the entry that stands behind so many others.
    fn follow(&mut self, entries: &[Entry], before: usize) -> Result<(), AllocError>
        requires legal { IsLegalHistory (reverse entries.now) }
        requires within { before < length entries.now }
        requires walk { IsWalk self.now.begun.items self.now.blocks.items
            self.now.edges.items (control_part (reverse (take before entries.now))) }
        ensures { OnOk result (IsWalk self.new.begun.items self.new.blocks.items
            self.new.edges.items (control_part (reverse (take (before + 1) entries.now)))) }
    {
        let entry = entries[before];
        let strand = entry.request.strand;
        match entry.answer {
            Answer::Split(spawned) => self.spawn(strand, spawned),
            Answer::Joined(join) | Answer::EndedJoined(join) => self.join(strand, join),
            Answer::Waits | Answer::Ended => self.arrive(strand),
            _ => Ok(()),
        }
    }
}

/// What is known after all entries.
pub fn walk_entries(alloc: Global, entries: &[Entry]) -> Result<Walk, AllocError>
    requires { IsLegalHistory (reverse entries.now) }
    ensures { IfOk result (λ walk. IsWalk walk.begun.items walk.blocks.items walk.edges.items (control_part (reverse entries.now))) }
{
    let mut walk = Walk::new(alloc)?;
    for before in 0..entries.len() {
        walk.follow(entries, before)?;
    }
    Ok(walk)
}
