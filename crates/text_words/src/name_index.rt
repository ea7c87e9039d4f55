//! The index of names. A search takes logarithmic time, whatever names a text has.

ghost use Rattle.std.specs.Prelude.{◌≡◌, ◌+◌, ◌<◌, ◌≤◌, ℕ, List, ◌∷◌, ◌++◌, [], None, Some, OnOk, OnErr, IfOk, OnSome, IfSome, false, IsTrue, length, map, option_map, slice_get, slice_index};
ghost use Rattle.std.specs.BTreeMap.{IsUnchanged};
ghost use denote.Ref.{Bor};
ghost use Rattle.text_words.specs.Slots.{name_number, hash_of, slot_of, first_slot, second_slot, overflow_at, IsTaken, IsStored, IsNameIndex, AreNumbered, IsOverflow, AreStored, KeepsTaken, AddsAt, KeepsOverflow, IsSeen, HasName};

use std::alloc::{AllocError, Allocator};
use std::collections::BTreeMap;
use std::hash::{FoldHasher, Hasher};
use std::marker::Model;

/// The most names that an index has, since they are numbered by 32 bits.
pub const MOST_NAMES: usize = 4_294_967_295;

/// How many slots an index has at first.
const FIRST_SLOTS: usize = 64;

/// How many slots there are for each name, at least.
const SLOTS_PER_NAME: usize = 4;

/// The hash of a name. Its seed is fixed, so many names of a text may have one hash.
fn hash_of(name: &[u8]) -> u64
    ensures { result ≡ hash_of name.now }
{
    let mut hasher = FoldHasher::default();
    hasher.write(name);
    hasher.finish()
}

/// Which of so many slots that hash means.
fn slot_of(hash: u64, count: usize) -> usize
    requires { 0 < count }
    ensures slot { result ≡ slot_of count hash }
    ensures within { result < count }
{
    (hash & (count - 1) as u64) as usize
}

/// The two slots of a name.
#[derive(Clone, Copy)]
struct Slots {
    first: usize,
    second: usize,
}

/// The slots of a name, of so many.
fn slots_of(name: &[u8], count: usize) -> Slots
    requires { 0 < count }
    ensures first { result.first ≡ first_slot count name.now }
    ensures second { result.second ≡ second_slot count name.now }
    ensures first_within { result.first < count }
    ensures second_within { result.second < count }
{
    let hash = hash_of(name);
    Slots {
        first: slot_of(hash, count),
        second: slot_of(hash >> 32, count),
    }
}

/// Writes a number into a slot, if it is free, and says whether it was.
fn fill(slots: &mut [u32], slot: usize, number: u32) -> bool
    requires within { slot < length slots.old }
    requires few { number < 4294967295 }
    ensures count { length slots.new ≡ length slots.old }
    ensures filled { IsTrue result → HasName slots.new slot number }
    ensures taken { result ≡ false → IsTaken slots.new slot }
    ensures kept { KeepsTaken slots.old slots.new }
{
    if slots[slot] != 0 {
        return false;
    }
    slots[slot] = number + 1;
    true
}

/// Stores a name under its number.
fn store<'a, A: Allocator + Copy>(
    slots: &mut [u32],
    overflow: &mut BTreeMap<&'a [u8], u32, A>,
    name: &'a [u8],
    number: u32,
) -> Result<(), AllocError>
    requires slots { 0 < length slots.old }
    requires few { number < 4294967295 }
    ensures count { length slots.new ≡ length slots.old }
    ensures stored { OnOk result (IsStored slots.new overflow.new name.now number) }
    ensures kept { KeepsTaken slots.old slots.new }
    ensures adds { AddsAt overflow.old overflow.new name.now number }
    ensures unchanged { OnErr result (IsUnchanged overflow.old overflow.new) }
{
    let of_name = slots_of(name, slots.len());
    if fill(slots, of_name.first, number) || fill(slots, of_name.second, number) {
        return Ok(());
    }
    overflow.insert(name, number)?;
    Ok(())
}

/// So many slots, in which these names are stored, or in the tree.
fn slots_for<'a, A: Allocator + Copy>(
    alloc: A,
    names: &[&'a [u8]],
    count: usize,
    overflow: &mut BTreeMap<&'a [u8], u32, A>,
) -> Result<Vec<u32, A>, AllocError>
    requires some { 0 < count }
    requires few { length names.now ≤ 4294967295 }
    requires numbered { AreNumbered (map (λ (name : Bor (List ℕ)). name.now) names.now) }
    requires in_overflow { IsOverflow (map (λ (name : Bor (List ℕ)). name.now) names.now) overflow.old }
    ensures count { IfOk result (λ slots. length slots.items ≡ count) }
    ensures stored { IfOk result (λ slots. AreStored (length names.now) (map (λ (name : Bor (List ℕ)). name.now) names.now) slots.items overflow.new) }
    ensures in_overflow { IsOverflow (map (λ (name : Bor (List ℕ)). name.now) names.now) overflow.new }
    ensures kept { KeepsOverflow overflow.old overflow.new }
{
    let mut slots = vec![in alloc; 0; count]?;
    for number in 0..names.len() {
        store(slots.as_mut_slice(), overflow, names[number], number as u32)?;
    }
    Ok(slots)
}

/// Makes twice as many slots, if there are too few for one name more.
fn make_room<'a, A: Allocator + Copy>(
    alloc: A,
    names: &[&'a [u8]],
    slots: &mut Vec<u32, A>,
    overflow: &mut BTreeMap<&'a [u8], u32, A>,
) -> Result<(), AllocError>
    requires few { length names.now ≤ 4294967295 }
    requires index { IsNameIndex (map (λ (name : Bor (List ℕ)). name.now) names.now) slots.old.items overflow.old }
    ensures index { IsNameIndex (map (λ (name : Bor (List ℕ)). name.now) names.now) slots.new.items overflow.new }
    ensures some { OnOk result (0 < length slots.new.items) }
{
    if SLOTS_PER_NAME * names.len() < slots.len() {
        return Ok(());
    }
    let count = slots.len().saturating_mul(2).max(FIRST_SLOTS);
    *slots = slots_for(alloc, names, count, overflow)?;
    Ok(())
}

/// What is found in a slot.
#[derive(Clone, Copy)]
enum Seen {
    /// No name.
    Free,
    /// The name that is looked for, with its number.
    Same(usize),
    /// Another name.
    Other,
}

/// What is found in a slot where this name is looked for.
#[inline(always)]
fn see(names: &[&[u8]], slots: &[u32], slot: usize, name: &[u8]) -> Seen
    requires { slot < length slots.now }
    ensures { IsSeen (map (λ (name : Bor (List ℕ)). name.now) names.now) slots.now slot name.now result }
{
    let next = slots[slot];
    if next == 0 {
        return Seen::Free;
    }
    let number = next as usize - 1;
    match names.get(number) {
        Some(other) if *other == name => Seen::Same(number),
        _ => Seen::Other,
    }
}

/// The number of a name in the tree.
#[inline(never)]
fn search<A: Allocator>(overflow: &BTreeMap<&[u8], u32, A>, name: &[u8]) -> Option<usize>
    ensures { result ≡ overflow_at overflow.now name.now }
{
    match overflow.get(name) {
        Some(number) => Some(*number as usize),
        None => None,
    }
}

/// Numbers names from 0 on, in the order in which they are added. Contracts see the list of the names.
///
/// The hash of a name means two slots of a table. A name is stored in the first, or where that is taken in the second, or where both are
/// taken in a tree. So a search compares a name with two others at most, and with some of the tree.
#[derive(Drop)]
pub struct NameIndex<'a, A: Allocator> {
    alloc: A,
    names: Vec<&'a [u8], A>,
    // The number of a name and one more, or 0.
    slots: Vec<u32, A>,
    overflow: BTreeMap<&'a [u8], u32, A>,
}

impl<'a, A: Allocator> Model for NameIndex<'a, A> {
    ghost use Rattle.std.specs.Prelude.{ℕ, List, map};
    ghost use Rattle.text_words.specs.Slots.{IsNameIndex};
    ghost use denote.Ref.{Bor};

    ghost Value = { List (List ℕ) };

    ghost view = { λ index. map (λ (name : Bor (List ℕ)). name.now) index.names.items };

    ghost invariant = { λ index. IsNameIndex (map (λ (name : Bor (List ℕ)). name.now) index.names.items) index.slots.items index.overflow };
}

impl<'a, A: Allocator + Copy> NameIndex<'a, A> {
    /// No names yet.
    pub fn new(alloc: A) -> NameIndex<'a, A>
        ensures { result ≡ [] }
    {
        NameIndex {
            alloc,
            names: Vec::new(alloc),
            slots: Vec::new(alloc),
            overflow: BTreeMap::new(alloc),
        }
    }

    /// How many names there are.
    pub fn len(&self) -> usize
        ensures { result ≡ length self.now }
    {
        self.names.len()
    }

    /// The name with that number.
    #[inline(always)]
    pub fn get(&self, number: usize) -> Option<&'a [u8]>
        ensures name { option_map (λ (name : Bor (List ℕ)). name.now) result ≡ slice_get self.now number }
        ensures number { IfSome result (λ name. name_number self.now name.now ≡ Some number) }
    {
        self.names.get(number).copied()
    }

    /// The number of a name.
    pub fn find(&self, name: &[u8]) -> Option<usize>
        ensures { result ≡ name_number self.now name.now }
    {
        if self.slots.is_empty() {
            return None;
        }
        let (names, slots) = (self.names.as_slice(), self.slots.as_slice());
        let of_name = slots_of(name, slots.len());
        match see(names, slots, of_name.first, name) {
            Seen::Free => None,
            Seen::Same(number) => Some(number),
            Seen::Other => match see(names, slots, of_name.second, name) {
                Seen::Free => None,
                Seen::Same(number) => Some(number),
                Seen::Other => search(&self.overflow, name),
            },
        }
    }

    /// Adds a name. Where all numbers are taken there is no room for another.
    pub fn add(&mut self, name: &'a [u8]) -> Result<(), AllocError>
        requires fresh { name_number self.old name.now ≡ None }
        ensures ok { OnOk result (self.new ≡ self.old ++ name.now ∷ []) }
        ensures err { OnErr result (self.new ≡ self.old) }
    {
        let number = self.names.len();
        if number >= MOST_NAMES {
            return Err(AllocError);
        }
        self.names.reserve(1)?;
        make_room(
            self.alloc,
            self.names.as_slice(),
            &mut self.slots,
            &mut self.overflow,
        )?;
        store(
            self.slots.as_mut_slice(),
            &mut self.overflow,
            name,
            number as u32,
        )?;
        self.names.push_reserved(name);
        Ok(())
    }
}
