//! Whether receipts are those of a history, each once.

ghost use Rattle.std.specs.Prelude.{◌≡◌, ◌↔◌, ◌++◌, ◌∷◌, ◌<◌, [], ◌⊎◌, List, IsTrue, Some, get_or, length, slice_get};
ghost use Rattle.std.specs.Bool.{MatchBool};
ghost use Rattle.model_histories.specs.declared.reply.Receipt.{Receipt as OneReceipt};
ghost use Rattle.locked_replay.specs.Receipts.{Rises, AreMarked, AreAstray};

use packed_history::{Entries, Receipts};
use std::alloc::Allocator;

/// Marks the entry whose receipt is at this place and has this number, where there is one that was not marked.
fn mark<A: Allocator>(
    marks: &mut [bool],
    entries: &Entries<A>,
    receipts: &Receipts<A>,
    at: usize,
    number: u32,
) -> bool
    requires marks { length marks.old ≡ length entries.now.items }
    requires there { at < length receipts.now.items }
    requires number { (d : OneReceipt) → (get_or receipts.now.items at d).number ≡ number }
    ensures length { length marks.new ≡ length marks.old }
    ensures marks { (met : List OneReceipt) (receipt : OneReceipt) → slice_get receipts.now.items at ≡ Some receipt →
        AreMarked marks.old entries.now.items met →
        MatchBool result (AreMarked marks.new entries.now.items (met ++ receipt ∷ [])) (AreAstray entries.now.items (met ++ receipt ∷ [])) }
{
    if number == 0 || number as usize > entries.len() {
        return false;
    }
    let place = number as usize - 1;
    if marks[place] || !entries.is_of(place, receipts, at) {
        return false;
    }
    marks[place] = true;
    true
}

/// Whether the number of the receipt at this place is greater than the one before, if there is one.
fn rises_at(at: usize, before: u32, number: u32) -> bool
    ensures { IsTrue result ↔ (0 < at → before < number) }
{
    at == 0 || before < number
}

/// Marks the entries whose receipts these are, where the receipts rise in number, and each is that of an entry that was not marked.
pub fn mark_all<A: Allocator>(
    marks: &mut [bool],
    entries: &Entries<A>,
    receipts: &Receipts<A>,
) -> bool
    requires { length marks.old ≡ length entries.now.items }
    ensures length { length marks.new ≡ length marks.old }
    ensures marks { (met : List OneReceipt) → AreMarked marks.old entries.now.items met →
        MatchBool result
        (Rises receipts.now.items × AreMarked marks.new entries.now.items (met ++ receipts.now.items))
        ((Rises receipts.now.items → ⊥) ⊎ AreAstray entries.now.items (met ++ receipts.now.items)) }
{
    let mut before = 0;
    for at in 0..receipts.len() {
        let number = receipts.number(at);
        if !rises_at(at, before, number) {
            return false;
        }
        if !mark(marks, entries, receipts, at, number) {
            return false;
        }
        before = number;
    }
    true
}
