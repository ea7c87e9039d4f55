//! The kinds of access that a strand makes, which acts are accesses, and the table that says which kinds conflict.
//!
//! `Table` of `model_accesses` lists the conflicts as triples: an earlier kind, a new kind, and the rule that the two
//! come under. [`rule`] carries the theorem that the code agrees with that list: a pair comes under the rule that is
//! listed for it, and is free where none is. Races are those of Feng and Leiserson 1997, view-read races those of
//! Lee and Schardl 2015. The macro [`access_table`] is the one place in the code where the table stands: all
//! bodies here are made by it, and crates above expand it in theirs.
#![tactic(auto)]

mod asked;
pub mod laws;
mod table;

pub use asked::asked_by;
pub use model_accesses::{Kind, Rule};
pub use table::{N, conflicting, is_memory, kind_of, rule, rule_word, word};
