//! Refusals in the text of a report.

ghost use Rattle.std.specs.Prelude.{◌≡◌, ◌++◌, ◌∷◌, [], ℕ, List, false, codes, map, IfOk, OnOk};
ghost use Rattle.std.specs.Option.{option_map, option_to_list};
ghost use Rattle.serde_json.specs.Data.{Data, array};
ghost use Rattle.serde_json.specs.View.{items_of};
ghost use Rattle.serde_json.specs.Written.{comma_if, compact_text, items_text};
ghost use Rattle.race_report.specs.RefusalValues.{refusal_in, text_with};

use crate::refusal::Refusal;
use serde_json::to_vec;
use std::alloc::{AllocError, Global};

/// How many refusals are printed at once: few texts are made, and each is short enough to be copied from the nearest cache.
const MANY: usize = 32;

/// A text with the items of an array, and the refusals that are its next items.
#[derive(Drop)]
pub(crate) struct Printer<'a> {
    text: Vec<u8>,
    next: Vec<Refusal<'a>>,
    /// Whether the text has an item.
    later: bool,
}

/// The text of refusals as an array.
fn array_text(alloc: Global, refusals: &[Refusal<'_>]) -> Result<Vec<u8>, AllocError>
    ensures { IfOk result (λ text. text.items ≡ compact_text (array (items_of (map refusal_in refusals.now)))) }
{
    // A refusal has nothing that JSON has no text for, so this fails only for want of memory.
    match to_vec(alloc, &refusals) {
        Ok(text) => Ok(text),
        Err(_) => Err(AllocError),
    }
}

/// Adds the items of an array with this text, behind a comma where other items stand before them.
fn push_items(text: &mut Vec<u8>, array: &[u8], later: bool) -> Result<(), AllocError>
    requires { (inner : List ℕ) × (array.now ≡ 91 ∷ (inner ++ 93 ∷ [])) }
    ensures { OnOk result ((inner : List ℕ) → array.now ≡ 91 ∷ (inner ++ 93 ∷ []) →
        text.new.items ≡ text.old.items ++ (comma_if later ++ inner)) }
{
    if later {
        text.push(b',')?;
    }
    text.extend_from_slice(&array[1..array.len() - 1])
}

impl<'a> Printer<'a> {
    /// No items yet behind this text.
    pub(crate) fn new(alloc: Global, text: Vec<u8>) -> Result<Printer<'a>, AllocError>
        ensures { IfOk result (λ printer. (rest : List Data) → text_with printer rest ≡ text.items ++ items_text false (items_of rest)) }
    {
        Ok(Printer {
            text,
            next: Vec::with_capacity(alloc, MANY)?,
            later: false,
        })
    }

    /// Prints the refusals that are next.
    #[inline(never)]
    fn print(&mut self, alloc: Global) -> Result<(), AllocError>
        ensures text { OnOk result ((rest : List Data) → text_with self.new rest ≡ text_with self.old rest) }
        ensures none { OnOk result (self.new.next.items ≡ []) }
    {
        if self.next.is_empty() {
            return Ok(());
        }
        let told = array_text(alloc, self.next.as_slice())?;
        push_items(&mut self.text, told.as_slice(), self.later)?;
        self.next.clear();
        self.later = true;
        Ok(())
    }

    /// Adds a refusal.
    #[inline(always)]
    fn add(&mut self, alloc: Global, refusal: Refusal<'a>) -> Result<(), AllocError>
        ensures { OnOk result ((rest : List Data) → text_with self.new rest ≡ text_with self.old (refusal_in refusal.entry ∷ rest)) }
    {
        self.next.push(refusal)?;
        if self.next.len() < MANY {
            return Ok(());
        }
        self.print(alloc)
    }

    /// Adds a refusal, where it is one.
    #[inline(always)]
    pub(crate) fn push(
        &mut self,
        alloc: Global,
        refusal: Option<Refusal<'a>>,
    ) -> Result<(), AllocError>
        ensures { OnOk result ((rest : List Data) →
            text_with self.new rest ≡ text_with self.old (option_to_list (option_map refusal_in refusal.entry) ++ rest)) }
    {
        match refusal {
            Some(refusal) => self.add(alloc, refusal),
            None => Ok(()),
        }
    }

    /// The text with all items, and the two brackets that end the array and the report.
    pub(crate) fn finish(self, alloc: Global) -> Result<Vec<u8>, AllocError>
        ensures { IfOk result (λ text. text.items ≡ text_with self.entry [] ++ codes "}") }
    {
        let mut printer = self;
        printer.print(alloc)?;
        let Printer { mut text, .. } = printer;
        text.extend_from_slice(b"]}")?;
        Ok(text)
    }
}
