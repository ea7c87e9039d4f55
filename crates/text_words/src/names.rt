//! The names that are declared.

ghost use Rattle.std.specs.Prelude.{◌≡◌, ◌+◌, ◌<◌, ◌≤◌, ℕ, List, [], ◌∷◌, ◌++◌, None, OnOk, OnErr, OnSome, unwrap_or, length};
ghost use Rattle.std.specs.List.{All};
ghost use Rattle.text_words.specs.Text.{IsName};
ghost use Rattle.model_accesses.specs.Limits.{most_cells};
ghost use Rattle.model_reducers.specs.Limits.{most_reducers};
ghost use Rattle.text_words.specs.Names.{IsFresh};
ghost use Rattle.text_words.specs.Declarations.{cells_of, memory_from, with_memory, with_reducer};
ghost use Rattle.text_words.specs.Index.{meaning_at, named, name_of_memory, IsApart, IsInRange};
ghost use Rattle.text_words.specs.Slots.{name_number};

use crate::name::Name;
use crate::name_index::NameIndex;
use crate::value::{Mem, Reducer, Version};
use model_reducers::Monoid;
use std::alloc::{AllocError, Allocator};
use std::marker::Model;

/// What a name stands for.
#[derive(Clone, Copy)]
pub enum Named {
    /// The cell of a memory of one cell.
    Single(u32),
    /// An array.
    Array { first: u32, cells: u32 },
    /// The reducer with that number.
    Reducer(u32),
}

/// The memory that a line declares.
fn memory(at: u32, first: u32, name: &str, length: Option<u32>) -> Mem
    requires { IsName name.now }
    ensures { result ≡ memory_from at first name.now length }
{
    Mem {
        name: Name::new(name),
        cells: length.unwrap_or(1),
        array: length.is_some(),
        first,
        line: at,
    }
}

/// What the name of a memory stands for.
fn named_of(first: u32, length: Option<u32>) -> Named
    ensures { (at : ℕ) (name : List ℕ) → result ≡ name_of_memory (memory_from at first name length) }
{
    match length {
        Some(cells) => Named::Array { first, cells },
        None => Named::Single(first),
    }
}

/// How many hints there are.
const HINTS: usize = 256;

/// Which hint a name has. Names that differ mostly do so at their ends, in the middle or in their lengths.
#[inline(always)]
fn hint_of(name: &[u8]) -> usize
    ensures { result < 256 }
{
    let hint = match name {
        [] => 0,
        [only] => *only,
        [.., before, last] => last
            .wrapping_add(before.wrapping_mul(10))
            .wrapping_add(name[name.len() / 2].wrapping_mul(37))
            .wrapping_add((name.len() % HINTS) as u8),
    };
    usize::from(hint)
}

/// Names with what they stand for, which are found in logarithmic time.
#[derive(Drop)]
struct Meanings<'a, A: Allocator> {
    index: NameIndex<'a, A>,
    // What each name of the index stands for.
    meanings: Vec<Named, A>,
    // Where in the index the newest name with that hint stands. Nothing rests on it but speed.
    hints: [usize; HINTS],
}

impl<'a, A: Allocator + Copy> Meanings<'a, A> {
    /// No names yet.
    fn new(alloc: A) -> Meanings<'a, A>
        ensures index { result.index ≡ [] }
        ensures meanings { result.meanings.items ≡ [] }
    {
        Meanings {
            index: NameIndex::new(alloc),
            meanings: Vec::new(alloc),
            hints: [0; HINTS],
        }
    }

    /// What a name stands for.
    #[inline(always)]
    fn find(&self, name: &[u8]) -> Option<Named>
        ensures { result ≡ meaning_at self.now.meanings.items (name_number self.now.index name.now) }
    {
        let number = self.hints[hint_of(name)];
        match (self.index.get(number), self.meanings.get(number)) {
            (Some(key), Some(found)) if key == name => Some(*found),
            _ => self.search(name),
        }
    }

    /// What a name stands for, by the index.
    #[inline(never)]
    fn search(&self, name: &[u8]) -> Option<Named>
        ensures { result ≡ meaning_at self.now.meanings.items (name_number self.now.index name.now) }
    {
        match self.index.find(name) {
            Some(number) => self.meanings.get(number).copied(),
            None => None,
        }
    }

    /// Adds a name with what it stands for.
    #[inline(always)]
    fn add(&mut self, name: &'a [u8], meaning: Named) -> Result<(), AllocError>
        requires fresh { name_number self.old.index name.now ≡ None }
        ensures ok { OnOk result ((self.new.index ≡ self.old.index ++ name.now ∷ [])
            × (self.new.meanings.items ≡ self.old.meanings.items ++ meaning ∷ [])) }
        ensures err { OnErr result ((self.new.index ≡ self.old.index) × (self.new.meanings.items ≡ self.old.meanings.items)) }
    {
        let number = self.index.len();
        self.meanings.reserve(1)?;
        self.index.add(name)?;
        self.meanings.push_reserved(meaning);
        self.hints[hint_of(name)] = number;
        Ok(())
    }
}

/// The declarations of a text, whose names are found in logarithmic time. Contracts see the version and the lists of declarations.
#[derive(Drop)]
pub struct Names<'a, A: Allocator> {
    version: Version,
    mems: Vec<Mem, A>,
    reducers: Vec<Reducer, A>,
    cells: u32,
    meanings: Meanings<'a, A>,
}

impl<'a, A: Allocator> Model for Names<'a, A> {
    ghost use Rattle.text_words.specs.Values.{Known};
    ghost use Rattle.text_words.specs.Index.{IsIndexed};

    ghost Value = { Known };

    ghost view = { λ names. record { version = names.version; mems = names.mems.items; reducers = names.reducers.items } };

    ghost invariant = { λ names.
        IsIndexed (record { version = names.version; mems = names.mems.items; reducers = names.reducers.items })
        names.cells names.meanings.index names.meanings.meanings.items };
}

impl<'a, A: Allocator + Copy> Names<'a, A> {
    /// No names yet.
    pub fn new(alloc: A, version: Version) -> Names<'a, A>
        ensures { result ≡ record { version = version; mems = []; reducers = [] } }
    {
        Names {
            version,
            mems: Vec::new(alloc),
            reducers: Vec::new(alloc),
            cells: 0,
            meanings: Meanings::new(alloc),
        }
    }

    /// The version of the text.
    pub fn version(&self) -> Version
        ensures { result ≡ self.now.version }
    {
        self.version
    }

    /// What a name stands for, if it is declared.
    pub fn find(&self, name: &str) -> Option<Named>
        ensures named { result ≡ named self.now name.now }
        ensures apart { IsApart self.now name.now }
        ensures in_range { All IsInRange self.now.mems }
    {
        self.find_bytes(name.as_bytes())
    }

    /// What a name stands for whose bytes these are, if it is declared. No other bytes are found.
    #[inline(always)]
    pub fn find_bytes(&self, name: &[u8]) -> Option<Named>
        ensures named { result ≡ named self.now name.now }
        ensures is_name { OnSome result (IsName name.now) }
        ensures apart { IsApart self.now name.now }
        ensures in_range { All IsInRange self.now.mems }
    {
        self.meanings.find(name)
    }

    /// How many cells the memories have.
    pub fn cells(&self) -> u32
        ensures cells { result ≡ cells_of self.now.mems }
        ensures few { result ≤ most_cells }
    {
        self.cells
    }

    /// How many reducers there are.
    pub fn reducer_count(&self) -> usize
        ensures count { result ≡ length self.now.reducers }
        ensures few { result ≤ most_reducers }
    {
        self.reducers.len()
    }

    /// Adds a memory of one cell or of so many.
    pub fn add_memory(
        &mut self,
        at: u32,
        name: &'a str,
        length: Option<u32>,
    ) -> Result<(), AllocError>
        requires is_name { IsName name.now }
        requires fresh { IsFresh self.old name.now }
        requires room { cells_of self.old.mems + unwrap_or length 1 ≤ most_cells }
        ensures ok { OnOk result (self.new ≡ with_memory at self.old name.now length) }
        ensures err { OnErr result (self.new ≡ self.old) }
    {
        self.mems.reserve(1)?;
        self.meanings
            .add(name.as_bytes(), named_of(self.cells, length))?;
        let mem = memory(at, self.cells, name, length);
        self.cells += mem.cells;
        self.mems.push_reserved(mem);
        Ok(())
    }

    /// Adds a reducer.
    pub fn add_reducer(&mut self, at: u32, name: &'a str, monoid: Monoid) -> Result<(), AllocError>
        requires is_name { IsName name.now }
        requires fresh { IsFresh self.old name.now }
        requires room { length self.old.reducers < most_reducers }
        ensures ok { OnOk result (self.new ≡ with_reducer at self.old name.now monoid) }
        ensures err { OnErr result (self.new ≡ self.old) }
    {
        let meaning = Named::Reducer(self.reducers.len() as u32);
        self.reducers.reserve(1)?;
        self.meanings.add(name.as_bytes(), meaning)?;
        self.reducers.push_reserved(Reducer {
            name: Name::new(name),
            monoid,
            line: at,
        });
        Ok(())
    }

    /// The version and the declarations.
    pub fn into_parts(self) -> (Version, Vec<Mem, A>, Vec<Reducer, A>)
        ensures { self.entry ≡ record { version = result.0; mems = result.1.items; reducers = result.2.items } }
    {
        let Names {
            version,
            mems,
            reducers,
            cells: _,
            meanings: _,
        } = self;
        (version, mems, reducers)
    }
}
