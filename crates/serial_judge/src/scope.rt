//! The functions that the run is in.

ghost use Rattle.std.specs.Prelude.{◌≡◌};
ghost use Rattle.std.specs.Prelude.{◌≤◌, ◌+◌, ℕ, List, Bool, length, map, All};
ghost use Rattle.serial_judge.specs.Scopes.{running_branch};
ghost use Rattle.serial_judge.specs.Moves.{moved_scope, AreMoves, IsSpawnWithin};

use crate::reclaim::Moves;
use std::alloc::Allocator;

/// The spawn of a function.
#[derive(Clone, Copy)]
pub struct Spawn {
    /// The number of the first record that is made in the function, or in what it calls or spawns.
    pub begin: u32,
    pub site: u32,
}

/// A function that the run is in.
#[derive(Clone, Copy)]
pub struct Scope {
    /// The spawn of the function, or `None` where it was called.
    pub spawn: Option<Spawn>,
    /// How many spans there were at its entry.
    pub spans: usize,
    /// The branch of its strands where it has no open block.
    pub branch: u64,
    /// Of the open block, the branch of the last next.
    pub block: Option<u64>,
}

impl Scope {
    /// The branch of the strand that runs in the function.
    #[inline(always)]
    pub fn running_branch(self) -> u64
        ensures { result ≡ running_branch self.block self.branch }
    {
        match self.block {
            Some(branch) => branch,
            None => self.branch,
        }
    }

    /// The scope with the new numbers of records.
    pub fn renumbered<B: Allocator>(self, moves: &Moves<B>) -> Scope
        ensures { (marks : List Bool) → AreMoves marks moves.now → IsSpawnWithin (length marks + 1) self.spawn → result ≡ moved_scope marks self }
    {
        let spawn = match self.spawn {
            None => return self,
            Some(spawn) => spawn,
        };
        Scope {
            spawn: Some(Spawn {
                begin: moves.number(spawn.begin),
                site: spawn.site,
            }),
            spans: self.spans,
            branch: self.branch,
            block: self.block,
        }
    }
}

/// Gives the numbers in some scopes anew.
pub fn renumber_scopes<B: Allocator>(scopes: &mut [Scope], moves: &Moves<B>)
    ensures { (marks : List Bool) → AreMoves marks moves.now → All (λ scope. IsSpawnWithin (length marks + 1) scope.spawn) scopes.old →
        scopes.new ≡ map (moved_scope marks) scopes.old }
{
    for scope in scopes.iter_mut() {
        *scope = scope.renumbered(moves);
    }
}
