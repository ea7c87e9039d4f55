//! What is kept of all cells, and whether an access races with an earlier one.

ghost use Rattle.std.specs.Prelude.{◌≡◌, ◌<◌, ◌↔◌, ◌++◌, ◌∷◌, [], List, ℕ, length, IsTrue, IsSome, IfSome, IfOk};
ghost use Rattle.model_accesses.specs.Table.{is_memory_kind};
ghost use Rattle.model_strands.specs.History.{History};
ghost use Rattle.sp_labels.specs.Roster.{Follows};
ghost use Rattle.model_accesses.specs.Accesses.{Access, Races};
ghost use Rattle.shadow_history.specs.Witnesses.{IsWitness};
ghost use Rattle.shadow_history.specs.Shadow.{Remembers, StandsOn, Runs};

use crate::cell::Cell;
use access_table::{Kind, access_table};
use model_accesses::Witness;
use sp_labels::Strands;
use std::alloc::{AllocError, Allocator};
use std::marker::Model;

/// The accesses granted so far, two strands for each location and memory kind.
#[derive(Drop)]
pub struct Shadow<A: Allocator> {
    cells: Vec<Cell, A>,
}

impl<A: Allocator> Model for Shadow<A> {
    ghost use Rattle.std.specs.Prelude.{List};
    ghost use Rattle.shadow_history.specs.declared.cell.Cell.{Cell};

    ghost Value = { List Cell };

    ghost view = { λ shadow. shadow.cells.items };
}

impl<A: Allocator> Shadow<A> {
    /// A shadow history of so many locations, without accesses. It takes memory here and at no other call.
    pub fn new(alloc: A, locations: u32) -> Result<Shadow<A>, AllocError>
        ensures locations { IfOk result (λ shadow. length shadow ≡ locations) }
        ensures empty { IfOk result (λ shadow. (history : History) → Remembers shadow history []) }
    {
        Ok(Shadow {
            cells: vec![in alloc; Cell::EMPTY; locations as usize]?,
        })
    }

    /// The witness against a new access of a running strand: an earlier access that races with it, or None where none
    /// does. The kinds are tried in the order of the table, in each the English-last strand before the Hebrew-last.
    #[inline(always)]
    pub fn find<B: Allocator>(
        &self,
        strands: &Strands<B>,
        location: u32,
        kind: Kind,
        strand: u32,
    ) -> Option<Witness>
        requires in_range { location < length self.now }
        requires memory { IsTrue (is_memory_kind kind) }
        requires runs { Runs strands.now strand }
        requires stands { StandsOn self.now strands.now }
        ensures exact { (history : History) (accesses : List Access) → Follows strands.now history → Remembers self.now history accesses →
            IsSome result ↔ ((access : Access) × Races history accesses location kind strand access) }
        ensures witness { (history : History) (accesses : List Access) → Follows strands.now history → Remembers self.now history accesses →
            IfSome result (IsWitness history accesses location kind strand) }
    {
        let cell = &self.cells[location as usize];
        macro_rules! check {
            (Race $earlier:ident) => {
                if let Some(witness) = cell.find(strands, Kind::$earlier, strand) {
                    return Some(witness);
                }
            };
            (View $earlier:ident) => {};
        }
        macro_rules! checks {
            ([] $({ $kind:ident $word:literal $sort:ident $([$earlier:ident $earlier_word:literal $rule:ident])* })*) => {
                match kind {
                    $(Kind::$kind => { $(check!($rule $earlier);)* })*
                }
            };
        }
        access_table!(checks []);
        None
    }

    /// Takes in a granted access of a running strand.
    #[inline(always)]
    pub fn add<B: Allocator>(
        &mut self,
        strands: &Strands<B>,
        location: u32,
        kind: Kind,
        strand: u32,
        entry: u32,
    )
        requires in_range { location < length self.old }
        requires memory { IsTrue (is_memory_kind kind) }
        requires runs { Runs strands.now strand }
        requires stands { StandsOn self.old strands.now }
        ensures locations { length self.new ≡ length self.old }
        ensures added { (history : History) (accesses : List Access) → Follows strands.now history → Remembers self.old history accesses →
            Remembers self.new history (accesses ++ record { strand = strand; kind = kind; location = location; entry = entry } ∷ []) }
    {
        let cell = &mut self.cells[location as usize];
        macro_rules! update {
            (memory $kind:ident) => {
                cell.add(strands, Kind::$kind, strand, entry)
            };
            (reducer $kind:ident) => {
                ()
            };
        }
        macro_rules! updates {
            ([] $({ $kind:ident $word:literal $sort:ident $($conflict:tt)* })*) => {
                match kind {
                    $(Kind::$kind => update!($sort $kind),)*
                }
            };
        }
        access_table!(updates []);
    }
}
