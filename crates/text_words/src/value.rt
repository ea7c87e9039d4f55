//! The values that texts stand for.

ghost use Rattle.std.specs.Prelude.{◌≡◌};

use crate::name::Name;
use model_accesses::Request;
use model_reducers::Monoid;
use std::alloc::Allocator;
use std::marker::Model;

/// The version of a text, which its first line names.
#[derive(Clone, Copy, Debug, PartialEq, Eq)]
pub enum Version {
    /// `cilk 1`.
    One,
    /// `cilk 2`, which adds the keyword `bump` and the monoid `digits`.
    Two,
}

/// A declared memory, whose cells are numbered from `first` on.
#[derive(Debug, Drop)]
pub struct Mem {
    /// Its name.
    pub name: Name,
    /// How many cells it has, from 1 to 1,000,000.
    pub cells: u32,
    /// Whether its cells are named with an index.
    pub array: bool,
    /// The number of its first cell.
    pub first: u32,
    /// The line of its declaration.
    pub line: u32,
}

/// A declared reducer.
#[derive(Debug, Drop)]
pub struct Reducer {
    /// Its name.
    pub name: Name,
    /// How its values are combined.
    pub monoid: Monoid,
    /// The line of its declaration.
    pub line: u32,
}

/// A line of a trace that asks for something.
#[derive(Clone, Copy, PartialEq, Eq)]
pub struct TraceLine {
    /// What it asks for.
    pub request: Request,
    /// Its number in the trace.
    pub at: u32,
    /// Whether it names the line of the program. Where it does not, the request's line is `at`.
    pub marked: bool,
}

/// Values in their order, which contracts see as a list.
#[derive(Drop)]
pub struct Items<T: Drop, A: Allocator> {
    items: Vec<T, A>,
}

/// Memories in order of declaration.
pub type Mems<A> = Items<Mem, A>;

/// Reducers in order of declaration.
pub type Reducers<A> = Items<Reducer, A>;

/// The monoids of the reducers in order of declaration.
pub type Monoids<A> = Items<Monoid, A>;

/// How many cells a program has, and the monoids of its reducers.
#[derive(Drop)]
pub struct Shape<A: Allocator> {
    /// The cells of all memories.
    pub cells: u32,
    /// The monoid of each reducer.
    pub monoids: Monoids<A>,
}

impl<T: Drop, A: Allocator> Model for Items<T, A> {
    ghost use Rattle.std.specs.Prelude.{List};

    ghost Value = { List T };

    ghost view = { λ items. items.items.items };
}

impl<T: Drop, A: Allocator> Items<T, A> {
    /// These values.
    pub fn new(items: Vec<T, A>) -> Items<T, A>
        ensures { result ≡ items.items }
    {
        Items { items }
    }

    /// The values as a slice.
    pub fn as_slice(&self) -> &[T]
        ensures { result.now ≡ self.now }
    {
        self.items.as_slice()
    }
}
