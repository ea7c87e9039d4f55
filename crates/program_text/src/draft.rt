//! What was read of a program so far.

ghost use Rattle.std.specs.Prelude.{◌≡◌, ◌≢◌, ◌≤◌, ◌↔◌, ℕ, None, OnOk, IsTrue, MatchResult, length, option_copied};
ghost use Rattle.text_words.specs.Text.{words, IsTextLine};
ghost use Rattle.model_bodies.specs.Sound.{max_functions};
ghost use Rattle.program_lines.specs.Grammar.{Item as SpecItem, ItemMeans, Begins, Does, Decides, Otherwise, Ends};
ghost use Rattle.program_lines.specs.Items.{item_of};
ghost use Rattle.program_lines.specs.Scopes.{max_registers};
ghost use Rattle.program_text.specs.Drafts.{begun as begun_of, registers_of, scope_of};
ghost use Rattle.program_text.specs.Grammar.{IsSaid, IsInOrder, HasDepth, HasRoom, LineMeans, extended, nothing};
ghost use Rattle.program_text.specs.Faults.{AddsItem, Fits, IsRoomFault, IsLineFault};

use crate::function::Function;
use crate::open_function::Open;
use program_lines::{FunctionNames, Item, NameScope, Register, Statement, read_line};
use std::alloc::{AllocError, Allocator};
use std::marker::Model;
use text_words::{Cause, Mem, Monoid, Name, Names, Reducer, TextFault, Version, Words, as_text};
use trace_text::{CELLS, LINES, REDUCERS};

/// The most functions of a program.
pub const FUNCTIONS: u32 = 1_000;
/// The most statements of a program: lines with words behind the first `func`, up to the last `end`.
pub const STATEMENTS: u32 = 100_000;
/// The most `if`s that stand in one another.
pub const NESTED: usize = 64;

/// What was read so far: the declarations, the functions that have ended and the one that has not, and how many lines with words there
/// are from the first `func` on.
#[derive(Drop)]
pub struct Draft<'a, A: Allocator> {
    names: Names<'a, A>,
    functions: Vec<Function<A>, A>,
    current: Option<Open<A>>,
    lines: u32,
}

impl<'a, A: Allocator> Model for Draft<'a, A> {
    ghost use Rattle.program_text.specs.Drafts.{Draft as SpecDraft};
    ghost use Rattle.program_text.specs.Openings.{IsCounted};

    ghost Value = { SpecDraft };

    ghost view = { λ draft. record {
      known = draft.names;
      functions = draft.functions.items;
      current = draft.current;
      lines = draft.lines;
    } };

    ghost invariant = { λ draft. IsCounted draft.functions.items draft.current draft.lines };
}

/// The fault of a line.
pub fn fault(line: u32, why: Cause) -> TextFault
    ensures { result ≡ TextFault.At line why }
{
    TextFault::At { line, why }
}

impl<'a, A: Allocator + Copy> Draft<'a, A> {
    /// Nothing is read yet.
    pub fn new(alloc: A, version: Version) -> Draft<'a, A>
        ensures { result ≡ nothing version }
    {
        Draft {
            names: Names::new(alloc, version),
            functions: Vec::new(alloc),
            current: None,
            lines: 0,
        }
    }

    /// The declarations.
    pub fn names(&self) -> &Names<'a, A>
        ensures { result.now ≡ self.now.known }
    {
        &self.names
    }

    /// Whether a function has not ended.
    pub fn is_open(&self) -> bool
        ensures { IsTrue result ↔ (self.now.current ≢ None) }
    {
        self.current.is_some()
    }

    /// How many functions have begun.
    pub fn begun(&self) -> u32
        ensures { result ≡ begun_of self.now }
    {
        match &self.current {
            Some(_) => self.functions.len() as u32 + 1,
            None => self.functions.len() as u32,
        }
    }

    /// The functions that have ended.
    pub fn functions(&self) -> &[Function<A>]
        ensures value { result.now ≡ self.now.functions }
        ensures few { length result.now ≤ max_functions }
    {
        self.functions.as_slice()
    }

    /// The registers that the open function knows.
    pub fn registers(&self) -> &[Name]
        ensures value { result.now ≡ registers_of self.now.current }
        ensures few { length result.now ≤ max_registers }
    {
        match &self.current {
            Some(function) => function.registers(),
            None => &[],
        }
    }

    /// Whether the item may stand here.
    fn is_in_order(&self, item: Item<'_>) -> bool
        ensures { IsTrue result ↔ IsInOrder self.now (item_of item.entry) }
    {
        match item {
            Item::Blank => true,
            Item::Declared { .. } | Item::Reduces { .. } => self.begun() == 0,
            Item::Begins { .. } => self.current.is_none(),
            Item::Does { .. } | Item::Decides { .. } | Item::Ends => self.current.is_some(),
            Item::Otherwise => match &self.current {
                Some(function) => function.is_first(),
                None => false,
            },
        }
    }

    /// Whether one more `if` may be open.
    fn has_depth(&self) -> bool
        ensures { IsTrue result ↔ HasDepth self.now.current }
    {
        match &self.current {
            Some(function) => function.depth() < NESTED,
            None => true,
        }
    }

    /// Whether the item passes no limit.
    fn has_room(&self, item: Item<'_>) -> bool
        ensures { IsTrue result ↔ HasRoom self.now (item_of item.entry) }
    {
        match item {
            Item::Blank => true,
            Item::Declared { length, .. } => {
                u64::from(self.names.cells()) + u64::from(length.unwrap_or(1)) <= CELLS
            }
            Item::Reduces { .. } => self.names.reducer_count() < REDUCERS,
            Item::Begins { .. } => self.lines <= STATEMENTS && self.begun() < FUNCTIONS,
            Item::Decides { .. } => self.lines <= STATEMENTS && self.has_depth(),
            Item::Does { .. } | Item::Otherwise | Item::Ends => self.lines <= STATEMENTS,
        }
    }

    /// Begins a function.
    fn begin(&mut self, alloc: A, at: u32, name: &str, parameter: &str) -> Result<(), AllocError>
        requires { Fits self.old (Begins name.now parameter.now) }
        ensures { OnOk result (self.new ≡ extended at self.old (Begins name.now parameter.now)) }
    {
        self.current = Some(Open::new(alloc, at, name, parameter)?);
        self.lines += 1;
        Ok(())
    }

    /// Adds a statement, and the register that it is the first to name.
    fn act(&mut self, statement: Statement, named: Option<&str>) -> Result<(), AllocError>
        requires { Fits self.old (Does statement (option_copied named)) }
        ensures { (at : ℕ) → OnOk result (self.new ≡ extended at self.old (Does statement (option_copied named.entry))) }
    {
        self.lines += 1;
        self.current.as_mut().unwrap().act(statement, named)
    }

    /// Adds an `if`.
    fn decide(&mut self, at: u32, register: Register) -> Result<(), AllocError>
        requires { Fits self.old (Decides register) }
        ensures { OnOk result (self.new ≡ extended at self.old (Decides register)) }
    {
        self.lines += 1;
        self.current.as_mut().unwrap().decide(at, register)
    }

    /// Adds an `else`.
    fn divide(&mut self, at: u32) -> Result<(), AllocError>
        requires { Fits self.old Otherwise }
        ensures { OnOk result (self.new ≡ extended at self.old Otherwise) }
    {
        self.lines += 1;
        self.current.as_mut().unwrap().divide(at)
    }

    /// Adds an `end`, of the innermost `if` or of the function.
    fn end(&mut self, at: u32) -> Result<(), AllocError>
        requires { Fits self.old Ends }
        ensures { OnOk result (self.new ≡ extended at self.old Ends) }
    {
        self.lines += 1;
        let was_part = self.current.as_mut().unwrap().end(at)?;
        if !was_part && let Some(function) = self.current.take() {
            self.functions.push(function.into_function(at))?;
        }
        Ok(())
    }

    /// Adds an item that has its place and room.
    fn extend(&mut self, alloc: A, at: u32, item: Item<'a>) -> Result<(), AllocError>
        requires { Fits self.old (item_of item) }
        ensures { OnOk result (self.new ≡ extended at self.old (item_of item.entry)) }
    {
        match item {
            Item::Blank => Ok(()),
            Item::Declared { name, length } => self.names.add_memory(at, name, length),
            Item::Reduces { name, monoid } => self.names.add_reducer(at, name, monoid),
            Item::Begins { name, parameter } => self.begin(alloc, at, name, parameter),
            Item::Does { statement, named } => self.act(statement, named),
            Item::Decides { register } => self.decide(at, register),
            Item::Otherwise => self.divide(at),
            Item::Ends => self.end(at),
        }
    }

    /// Adds what the line with the number `at` says.
    fn add(&mut self, alloc: A, at: u32, item: Item<'a>) -> Result<(), TextFault>
        requires { IsSaid self.old (item_of item) }
        ensures { MatchResult result
            (λ _. AddsItem at self.old (item_of item.entry) self.new)
            (IsRoomFault at self.old (item_of item.entry)) }
    {
        if !self.is_in_order(item) {
            return Err(fault(at, Cause::BadNesting));
        }
        if at > LINES || !self.has_room(item) {
            return Err(fault(at, Cause::TooMany));
        }
        match self.extend(alloc, at, item) {
            Ok(()) => Ok(()),
            Err(_) => Err(TextFault::Memory),
        }
    }

    /// What a line of a text with these functions is read in.
    fn scope<'s>(&'s self, names: &'s FunctionNames<'a, A>) -> NameScope<'s, 'a, A>
        ensures { result ≡ scope_of names.now self.now }
    {
        NameScope::new(&self.names, names, self.begun(), self.registers())
    }

    /// What the line with the number `at` of a text with these functions says, in its place or not.
    fn read(
        &self,
        names: &FunctionNames<'a, A>,
        at: u32,
        line: &'a [u8],
    ) -> Result<Item<'a>, TextFault>
        ensures { MatchResult result
            (λ item. IsTextLine line.now × ItemMeans at (scope_of names.now self.now) (words line.now) (item_of item))
            (IsLineFault names.now at self.now line.now) }
    {
        let Some(text) = as_text(line) else {
            return Err(fault(at, Cause::NotText));
        };
        match read_line(at, &self.scope(names), &mut Words::of_line(text)) {
            Ok(item) => Ok(item),
            Err(why) => Err(fault(at, why)),
        }
    }

    /// Reads the line with the number `at` of a text with these functions.
    pub fn take(
        &mut self,
        alloc: A,
        names: &FunctionNames<'a, A>,
        at: u32,
        line: &'a [u8],
    ) -> Result<(), TextFault>
        ensures { MatchResult result
            (λ _. (item : SpecItem) × LineMeans names.now at self.old line.now item × (self.new ≡ extended at self.old item))
            (IsLineFault names.now at self.old line.now) }
    {
        match self.read(names, at, line) {
            Ok(item) => self.add(alloc, at, item),
            Err(fault) => Err(fault),
        }
    }

    /// The version, the declarations and the functions that have ended.
    pub fn into_parts(self) -> (Version, Vec<Mem, A>, Vec<Reducer, A>, Vec<Function<A>, A>)
        ensures known { self.entry.known ≡ record { version = result.0; mems = result.1.items; reducers = result.2.items } }
        ensures functions { self.entry.functions ≡ result.3.items }
    {
        let Draft {
            names,
            functions,
            current: _,
            lines: _,
        } = self;
        let (version, mems, reducers) = names.into_parts();
        (version, mems, reducers, functions)
    }
}
