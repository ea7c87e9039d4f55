//! The elision of a program, statement by statement.

ghost use Rattle.std.specs.Prelude.{◌≡◌, ◌≢◌, ◌+◌, ◌-◌, ◌%◌, ◌^◌, ◌<◌, ◌≤◌, IsTrue, false, true, Some};
ghost use Rattle.std.specs.Prelude.{None, Err, map, length, replicate, slice_index, slice_get, OnOk, IfOk};
ghost use Rattle.text_words.specs.Declarations.{cells_of};
ghost use Rattle.model_accesses.specs.Limits.{most_cells};
ghost use Rattle.reducer_views.specs.Products.{FitsMonoid};
ghost use Rattle.model_reducers.specs.Products.{identity_of, product_of, put_view, update_view, monoid_of};
ghost use Rattle.model_bodies.specs.Sound.{is_located};
ghost use Rattle.model_programs.specs.Values.{cell_of, result_of, value_of, with_ok};
ghost use Rattle.model_programs.specs.Evaluation.{got, view_at, with_cell, with_register, with_view};
ghost use Rattle.serial_elision.specs.States.{IsGoing, IsLeft, IsOpening, Makes, Stands, counted, moved, monoids_in, first_state};
ghost use Rattle.serial_elision.specs.States.{state_of, store_of, top_of, turning, with_begun, with_store, with_top};
ghost use Rattle.serial_elision.specs.Statements.{is_access, is_invocation, is_reduction, is_silent};
ghost use Rattle.model_programs.specs.Elisions.{Elides, NeedsMore};

use crate::activation::{ElidedCall, Turns};
use frame_steps::{cell_of, result_of, value_of};
use model_bodies::{Expression, Location, Operand, Register, Statement};
use program_text::{Function, Program};
use reducer_views::{View, combine, identity, of_put, of_update, value};
use std::alloc::{AllocError, Allocator};
use text_words::{Monoid, Monoids, Shape};
use thiserror::Error;

/// The functions that are begun, the topmost last, with the cells' values and the reducers' views.
#[derive(Drop)]
struct Elision<A: Allocator> {
    stack: Vec<ElidedCall, A>,
    memory: Vec<u64, A>,
    views: Vec<View, A>,
    monoids: Monoids<A>,
}

/// The last memory, and how many requests led to it.
#[derive(Drop)]
pub struct Elided<A: Allocator> {
    /// The cells' values.
    pub memory: Vec<u64, A>,
    /// How many requests were made.
    pub requests: u32,
}

/// Why there is no last memory.
#[derive(Clone, Copy, Debug, Error)]
pub enum ElideFault {
    /// There are more requests than the limit.
    #[error("limit")]
    Limit,
    /// There is no memory.
    #[error("memory")]
    Memory,
}

impl From<AllocError> for ElideFault {
    ghost use Rattle.std.specs.Prelude.{◌≡◌};
    ghost use Rattle.serial_elision.specs.declared.elision.ElideFault.TheVariants.{Memory};

    ghost from_gives = { λ _ fault. fault ≡ Memory };

    fn from(_fault: AllocError) -> ElideFault {
        ElideFault::Memory
    }
}

/// The program's last memory, from `main` with argument 0, cells that hold 0 and views that are identities, with at most `limit` requests.
pub fn elide<A: Allocator + Clone, B: Allocator>(
    alloc: A,
    program: &Program<B>,
    limit: u32,
) -> Result<Elided<A>, ElideFault>
    ensures ok { IfOk result (λ elided. (elided.requests ≤ limit)
        × Elides program.now.functions (monoids_in program.now) (cells_of program.now.mems) elided.memory.items elided.requests) }
    ensures limit { result ≡ Err ElideFault.Limit →
        NeedsMore program.now.functions (monoids_in program.now) (cells_of program.now.mems) limit }
{
    let mut elision = Elision::open(alloc, program)?;
    let mut requests = 0;
    while !elision.is_over() {
        let asked = elision.step(program)?;
        if asked > limit - requests {
            return Err(ElideFault::Limit);
        }
        requests += asked;
    }
    Ok(Elided {
        memory: elision.memory,
        requests,
    })
}

/// A function of the program by its number.
fn function_at<B: Allocator>(program: &Program<B>, index: u32) -> &Function<B>
    requires { index < length program.now.functions }
    ensures { slice_get program.now.functions index ≡ Some result.now }
{
    &program.functions.as_slice()[index as usize]
}

/// So many cells that hold 0.
fn zeros<A: Allocator + Clone>(alloc: &A, count: u32) -> Result<Vec<u64, A>, AllocError>
    ensures { IfOk result (λ v. v.items ≡ replicate count 0) }
{
    vec![in alloc.clone()?; 0; count as usize]
}

/// The identity of each monoid.
fn identities<A: Allocator + Clone>(
    alloc: &A,
    monoids: &[Monoid],
) -> Result<Vec<View, A>, AllocError>
    ensures { IfOk result (λ views. views.items ≡ map identity_of monoids.now) }
{
    let mut views = Vec::new(alloc.clone()?);
    for monoid in monoids {
        views.push(identity(*monoid))?;
    }
    Ok(views)
}

/// The program's cells and the monoids of its reducers.
fn shape_of<A: Allocator + Clone, B: Allocator>(
    alloc: &A,
    program: &Program<B>,
) -> Result<Shape<A>, AllocError>
    ensures { IfOk result (λ shape. (shape.cells ≡ cells_of program.now.mems) × (shape.monoids ≡ monoids_in program.now)) }
{
    program.shape(alloc.clone()?)
}

/// The cells and the views before the first request.
fn first_store<A: Allocator + Clone>(
    alloc: &A,
    shape: &Shape<A>,
) -> Result<(Vec<u64, A>, Vec<View, A>), AllocError>
    ensures { IfOk result (λ store. (store.0.items ≡ replicate shape.now.cells 0) × (store.1.items ≡ map identity_of shape.now.monoids)) }
{
    let memory = zeros(alloc, shape.cells)?;
    let views = identities(alloc, shape.monoids.as_slice())?;
    Ok((memory, views))
}

impl<A: Allocator + Clone> Elision<A> {
    /// `main` at its first statement.
    fn open<B: Allocator>(alloc: A, program: &Program<B>) -> Result<Elision<A>, AllocError>
        ensures { IfOk result (λ elision.
            IsOpening program.now.functions (monoids_in program.now) (cells_of program.now.mems) (state_of elision)) }
    {
        let shape = shape_of(&alloc, program)?;
        Elision::begin_in(alloc, program.main(), shape)
    }

    /// A function at its first statement, in the first store of this shape.
    fn begin_in(alloc: A, main: u32, shape: Shape<A>) -> Result<Elision<A>, AllocError>
        ensures { IfOk result (λ elision. state_of elision ≡ first_state main shape.monoids shape.cells) }
    {
        let (memory, views) = first_store(&alloc, &shape)?;
        let mut stack = Vec::new(alloc);
        stack.push(ElidedCall::begin(main, 0))?;
        Ok(Elision {
            stack,
            memory,
            views,
            monoids: shape.monoids,
        })
    }
}

impl<A: Allocator> Elision<A> {
    /// No function is begun any more.
    fn is_over(&self) -> bool
        ensures { result ≡ (state_of self.now).over }
    {
        self.stack.is_empty()
    }

    /// The place of the topmost function among those that are begun.
    fn last(&self) -> usize
        requires { (state_of self.now).over ≡ false }
        ensures { result + 1 ≡ length self.now.stack.items }
    {
        self.stack.len() - 1
    }

    /// The topmost function.
    fn top(&self) -> &ElidedCall
        requires { (state_of self.now).over ≡ false }
        ensures { result.now ≡ top_of self.now }
    {
        &self.stack[self.last()]
    }

    /// Goes on at another place.
    fn go(&mut self, place: u32)
        requires { (state_of self.old).over ≡ false }
        ensures { state_of self.new ≡ with_top (state_of self.old) (moved (top_of self.old) place (top_of self.old).registers) }
    {
        let last = self.last();
        self.stack[last].go(place);
    }

    /// Goes on with the next statement.
    fn skip(&mut self)
        requires begun { (state_of self.old).over ≡ false }
        requires place { (top_of self.old).place + 1 < 2 ^ 32 }
        ensures { state_of self.new ≡ with_top (state_of self.old)
            (moved (top_of self.old) ((top_of self.old).place + 1) (top_of self.old).registers) }
    {
        let last = self.last();
        self.stack[last].skip();
    }

    /// Goes on behind a statement that was granted.
    fn pass_granted(&mut self)
        requires begun { (state_of self.old).over ≡ false }
        requires place { (top_of self.old).place + 1 < 2 ^ 32 }
        ensures { state_of self.new ≡ with_top (state_of self.old)
            (moved (top_of self.old) ((top_of self.old).place + 1) (with_ok 1 (top_of self.old).registers)) }
    {
        let last = self.last();
        self.stack[last].pass();
    }

    /// Takes a value into a register, and goes on.
    fn take(&mut self, register: Register, value: u64)
        requires begun { (state_of self.old).over ≡ false }
        requires place { (top_of self.old).place + 1 < 2 ^ 32 }
        ensures { state_of self.new ≡ with_top (state_of self.old)
            (moved (top_of self.old) ((top_of self.old).place + 1) (with_register (top_of self.old).registers register value)) }
    {
        let last = self.last();
        self.stack[last].assign(register, value);
    }

    /// Takes a value that was granted into a register, and goes on.
    fn receive(&mut self, register: Register, value: u64)
        requires begun { (state_of self.old).over ≡ false }
        requires place { (top_of self.old).place + 1 < 2 ^ 32 }
        ensures { state_of self.new ≡ with_top (state_of self.old)
            (moved (top_of self.old) ((top_of self.old).place + 1) (with_register (with_ok 1 (top_of self.old).registers) register value)) }
    {
        let last = self.last();
        self.stack[last].receive(register, value);
    }

    /// Has these turns come first.
    fn set_turns(&mut self, turns: Option<Turns>)
        requires { (state_of self.old).over ≡ false }
        ensures { state_of self.new ≡ with_top (state_of self.old) (turning (top_of self.old) turns) }
    {
        let last = self.last();
        self.stack[last].turn(turns);
    }

    /// Takes a turn's number into its register, and has the next turn come first.
    fn count_turn(&mut self, turns: Turns)
        requires begun { (state_of self.old).over ≡ false }
        requires some { 0 < turns.left }
        requires fits { turns.number + 1 < 2 ^ 64 }
        ensures { state_of self.new ≡ with_top (state_of self.old) (counted turns (top_of self.old)) }
    {
        let last = self.last();
        self.stack[last].count(turns);
    }

    /// `let`.
    fn assign(&mut self, register: Register, expression: Expression)
        requires begun { (state_of self.old).over ≡ false }
        requires place { (top_of self.old).place + 1 < 2 ^ 32 }
        ensures { state_of self.new ≡ with_top (state_of self.old) (moved (top_of self.old) ((top_of self.old).place + 1)
            (with_register (top_of self.old).registers register (result_of expression (top_of self.old).registers))) }
    {
        let value = result_of(&self.top().registers, expression);
        self.take(register, value);
    }

    /// `read`.
    fn read(&mut self, register: Register, location: Location)
        requires begun { (state_of self.old).over ≡ false }
        requires place { (top_of self.old).place + 1 < 2 ^ 32 }
        requires located { IsTrue (is_located most_cells location) }
        requires known { cell_of location (top_of self.old).registers < length self.old.memory.items }
        ensures { state_of self.new ≡ with_top (state_of self.old) (moved (top_of self.old) ((top_of self.old).place + 1)
            (with_register (with_ok 1 (top_of self.old).registers) register
            (slice_index self.old.memory.items (cell_of location (top_of self.old).registers)))) }
    {
        let cell = cell_of(&self.top().registers, location);
        let value = self.memory[cell as usize];
        self.receive(register, value);
    }

    /// `write`.
    fn write(&mut self, location: Location, operand: Operand)
        requires begun { (state_of self.old).over ≡ false }
        requires place { (top_of self.old).place + 1 < 2 ^ 32 }
        requires located { IsTrue (is_located most_cells location) }
        requires known { cell_of location (top_of self.old).registers < length self.old.memory.items }
        ensures { state_of self.new ≡ with_store
            (with_top (state_of self.old) (moved (top_of self.old) ((top_of self.old).place + 1) (with_ok 1 (top_of self.old).registers)))
            (with_cell (store_of (state_of self.old)) (cell_of location (top_of self.old).registers)
            (value_of operand (top_of self.old).registers)) }
    {
        let top = self.top();
        let cell = cell_of(&top.registers, location);
        self.memory[cell as usize] = value_of(&top.registers, operand);
        self.pass_granted();
    }

    /// `bump`.
    fn bump(&mut self, location: Location, operand: Operand)
        requires begun { (state_of self.old).over ≡ false }
        requires place { (top_of self.old).place + 1 < 2 ^ 32 }
        requires located { IsTrue (is_located most_cells location) }
        requires known { cell_of location (top_of self.old).registers < length self.old.memory.items }
        ensures { state_of self.new ≡ with_store
            (with_top (state_of self.old) (moved (top_of self.old) ((top_of self.old).place + 1) (with_ok 1 (top_of self.old).registers)))
            (with_cell (store_of (state_of self.old)) (cell_of location (top_of self.old).registers)
            ((slice_index self.old.memory.items (cell_of location (top_of self.old).registers)
            + value_of operand (top_of self.old).registers) % 2 ^ 64)) }
    {
        let top = self.top();
        let cell = cell_of(&top.registers, location) as usize;
        let value = value_of(&top.registers, operand);
        self.memory[cell] = self.memory[cell].wrapping_add(value);
        self.pass_granted();
    }

    /// Gives a reducer another view, and goes on.
    fn set_view(&mut self, reducer: u32, view: View)
        requires begun { (state_of self.old).over ≡ false }
        requires place { (top_of self.old).place + 1 < 2 ^ 32 }
        requires known { reducer < length self.old.views.items }
        ensures { state_of self.new ≡ with_store
            (with_top (state_of self.old) (moved (top_of self.old) ((top_of self.old).place + 1) (with_ok 1 (top_of self.old).registers)))
            (with_view (store_of (state_of self.old)) reducer view) }
    {
        self.views[reducer as usize] = view;
        self.pass_granted();
    }

    /// `update`.
    fn update(&mut self, reducer: u32, operand: Operand)
        requires begun { (state_of self.old).over ≡ false }
        requires place { (top_of self.old).place + 1 < 2 ^ 32 }
        requires known { reducer < length self.old.views.items }
        requires count { length self.old.views.items ≡ length self.old.monoids }
        requires fits { FitsMonoid (monoid_of self.old.monoids reducer) (view_at (store_of (state_of self.old)) reducer) }
        ensures state { state_of self.new ≡ with_store
            (with_top (state_of self.old) (moved (top_of self.old) ((top_of self.old).place + 1) (with_ok 1 (top_of self.old).registers)))
            (with_view (store_of (state_of self.old)) reducer
            (product_of (monoid_of self.old.monoids reducer) (view_at (store_of (state_of self.old)) reducer)
            (update_view (monoid_of self.old.monoids reducer) (value_of operand (top_of self.old).registers)))) }
        ensures fits { FitsMonoid (monoid_of self.old.monoids reducer)
            (product_of (monoid_of self.old.monoids reducer) (view_at (store_of (state_of self.old)) reducer)
            (update_view (monoid_of self.old.monoids reducer) (value_of operand (top_of self.old).registers))) }
    {
        let monoid = self.monoids.as_slice()[reducer as usize];
        let value = value_of(&self.top().registers, operand);
        let view = self.views[reducer as usize];
        self.set_view(reducer, combine(monoid, view, of_update(monoid, value)));
    }

    /// `put`.
    fn put(&mut self, reducer: u32, operand: Operand)
        requires begun { (state_of self.old).over ≡ false }
        requires place { (top_of self.old).place + 1 < 2 ^ 32 }
        requires known { reducer < length self.old.views.items }
        requires count { length self.old.views.items ≡ length self.old.monoids }
        ensures state { state_of self.new ≡ with_store
            (with_top (state_of self.old) (moved (top_of self.old) ((top_of self.old).place + 1) (with_ok 1 (top_of self.old).registers)))
            (with_view (store_of (state_of self.old)) reducer
            (put_view (monoid_of self.old.monoids reducer) (value_of operand (top_of self.old).registers))) }
        ensures fits { FitsMonoid (monoid_of self.old.monoids reducer)
            (put_view (monoid_of self.old.monoids reducer) (value_of operand (top_of self.old).registers)) }
    {
        let monoid = self.monoids.as_slice()[reducer as usize];
        let value = value_of(&self.top().registers, operand);
        self.set_view(reducer, of_put(monoid, value));
    }

    /// `get`.
    fn get(&mut self, register: Register, reducer: u32)
        requires begun { (state_of self.old).over ≡ false }
        requires place { (top_of self.old).place + 1 < 2 ^ 32 }
        requires known { reducer < length self.old.views.items }
        ensures { state_of self.new ≡ with_top (state_of self.old) (moved (top_of self.old) ((top_of self.old).place + 1)
            (with_register (with_ok 1 (top_of self.old).registers) register (got (store_of (state_of self.old)) reducer))) }
    {
        let found = value(self.views[reducer as usize]).unwrap_or(0);
        self.receive(register, found);
    }

    /// `pfor`: its turns are to come.
    fn repeat(&mut self, line: u32, register: Register, count: Operand, function: u32)
        requires begun { (state_of self.old).over ≡ false }
        requires place { (top_of self.old).place + 1 < 2 ^ 32 }
        ensures fits { value_of count (top_of self.old).registers < 2 ^ 64 }
        ensures state { state_of self.new ≡ with_top (state_of self.old)
            (turning (moved (top_of self.old) ((top_of self.old).place + 1) (top_of self.old).registers) (Some (record {
              line = line;
              register = register;
              function = function;
              number = 0;
              left = value_of count (top_of self.old).registers;
            }))) }
    {
        let left = value_of(&self.top().registers, count);
        self.skip();
        self.set_turns(Some(Turns {
            line,
            register,
            function,
            number: 0,
            left,
        }));
    }

    /// Begins a function above the topmost one. Out of line, since the elision of a `pfor` takes a quarter less time so.
    #[inline(never)]
    fn begin(&mut self, function: u32, argument: u64) -> Result<(), AllocError>
        requires { (state_of self.old).over ≡ false }
        ensures { OnOk result (state_of self.new ≡ with_begun (state_of self.old) (top_of self.old) function argument) }
    {
        self.stack.push(ElidedCall::begin(function, argument))?;
        Ok(())
    }

    /// Goes back to the caller, or ends.
    fn leave(&mut self)
        requires { (state_of self.old).over ≡ false }
        ensures { IsLeft (state_of self.old) (state_of self.new) }
    {
        self.stack.pop();
    }

    /// Goes on by a turn of a `pfor`, by a line of the topmost function, or by its end, and says how many requests that made.
    fn step<B: Allocator>(&mut self, program: &Program<B>) -> Result<u32, AllocError>
        requires stands { Stands program.now.functions (monoids_in program.now) (cells_of program.now.mems) (state_of self.old) }
        requires going { (state_of self.old).over ≡ false }
        ensures stands { OnOk result
            (Stands program.now.functions (monoids_in program.now) (cells_of program.now.mems) (state_of self.new)) }
        ensures makes { IfOk result (λ asked.
            Makes program.now.functions (monoids_in program.now) asked (state_of self.old) (state_of self.new)) }
    {
        let top = self.top();
        if let Some(turns) = top.turns {
            return self.turn(program, turns);
        }
        let function = function_at(program, top.function);
        match function.body.as_slice().get(top.place as usize) {
            Some(statement) => self.perform(program, function, statement),
            None => {
                self.leave();
                Ok(2)
            }
        }
    }

    /// A turn of a `pfor`, or the sync behind the last one.
    fn turn<B: Allocator>(&mut self, program: &Program<B>, turns: Turns) -> Result<u32, AllocError>
        requires stands { Stands program.now.functions (monoids_in program.now) (cells_of program.now.mems) (state_of self.old) }
        requires going { (state_of self.old).over ≡ false }
        requires turns { (top_of self.old).turns ≡ Some turns }
        ensures stands { OnOk result
            (Stands program.now.functions (monoids_in program.now) (cells_of program.now.mems) (state_of self.new)) }
        ensures makes { IfOk result (λ asked.
            Makes program.now.functions (monoids_in program.now) asked (state_of self.old) (state_of self.new)) }
    {
        if turns.left == 0 {
            self.set_turns(None);
        } else {
            self.count_turn(turns);
            self.begin(turns.function, turns.number)?;
        }
        Ok(1)
    }

    /// Does a line of the topmost function, and says how many requests that made.
    fn perform<B: Allocator>(
        &mut self,
        program: &Program<B>,
        function: &Function<B>,
        statement: &Statement,
    ) -> Result<u32, AllocError>
        requires going { IsGoing program.now.functions (monoids_in program.now)
            (cells_of program.now.mems) (state_of self.old) function.now }
        requires at { slice_get function.now.body (top_of self.old).place ≡ Some statement.now }
        ensures stands { OnOk result
            (Stands program.now.functions (monoids_in program.now) (cells_of program.now.mems) (state_of self.new)) }
        ensures makes { IfOk result (λ asked.
            Makes program.now.functions (monoids_in program.now) asked (state_of self.old) (state_of self.new)) }
    {
        match *statement {
            Statement::Read { .. } | Statement::Write { .. } | Statement::Bump { .. } => {
                self.access(program, function, statement);
                Ok(1)
            }
            Statement::Update { .. } | Statement::Put { .. } | Statement::Get { .. } => {
                self.reduce(program, function, statement);
                Ok(1)
            }
            Statement::Spawn { .. } | Statement::Call { .. } => {
                self.invoke(program, function, statement)?;
                Ok(1)
            }
            Statement::Sync { .. } => {
                self.skip();
                Ok(1)
            }
            _ => {
                self.pass(program, function, statement);
                Ok(0)
            }
        }
    }

    /// Does an access of memory.
    fn access<B: Allocator>(
        &mut self,
        program: &Program<B>,
        function: &Function<B>,
        statement: &Statement,
    )
        requires going { IsGoing program.now.functions (monoids_in program.now)
            (cells_of program.now.mems) (state_of self.old) function.now }
        requires at { slice_get function.now.body (top_of self.old).place ≡ Some statement.now }
        requires kind { IsTrue (is_access statement.now) }
        ensures stands { Stands program.now.functions (monoids_in program.now) (cells_of program.now.mems) (state_of self.new) }
        ensures makes { Makes program.now.functions (monoids_in program.now) 1 (state_of self.old) (state_of self.new) }
    {
        match *statement {
            Statement::Read {
                register,
                location,
                ..
            } => self.read(register, location),
            Statement::Write {
                location,
                value,
                ..
            } => self.write(location, value),
            Statement::Bump {
                location,
                value,
                ..
            } => self.bump(location, value),
            _ => unreachable!(),
        }
    }

    /// Does an access of a reducer.
    fn reduce<B: Allocator>(
        &mut self,
        program: &Program<B>,
        function: &Function<B>,
        statement: &Statement,
    )
        requires going { IsGoing program.now.functions (monoids_in program.now)
            (cells_of program.now.mems) (state_of self.old) function.now }
        requires at { slice_get function.now.body (top_of self.old).place ≡ Some statement.now }
        requires kind { IsTrue (is_reduction statement.now) }
        ensures stands { Stands program.now.functions (monoids_in program.now) (cells_of program.now.mems) (state_of self.new) }
        ensures makes { Makes program.now.functions (monoids_in program.now) 1 (state_of self.old) (state_of self.new) }
    {
        match *statement {
            Statement::Update { reducer, value, .. } => self.update(reducer, value),
            Statement::Put { reducer, value, .. } => self.put(reducer, value),
            Statement::Get {
                register,
                reducer,
                ..
            } => self.get(register, reducer),
            _ => unreachable!(),
        }
    }

    /// Begins the function that a `spawn` or a `call` names.
    fn invoke<B: Allocator>(
        &mut self,
        program: &Program<B>,
        function: &Function<B>,
        statement: &Statement,
    ) -> Result<(), AllocError>
        requires going { IsGoing program.now.functions (monoids_in program.now)
            (cells_of program.now.mems) (state_of self.old) function.now }
        requires at { slice_get function.now.body (top_of self.old).place ≡ Some statement.now }
        requires kind { IsTrue (is_invocation statement.now) }
        ensures stands { OnOk result
            (Stands program.now.functions (monoids_in program.now) (cells_of program.now.mems) (state_of self.new)) }
        ensures makes { OnOk result (Makes program.now.functions (monoids_in program.now) 1 (state_of self.old) (state_of self.new)) }
    {
        match *statement {
            Statement::Spawn {
                function,
                argument,
                ..
            } => self.enter(function, argument),
            Statement::Call {
                function,
                argument,
                ..
            } => self.enter(function, argument),
            _ => unreachable!(),
        }
    }

    /// Does a line that asks nothing.
    fn pass<B: Allocator>(
        &mut self,
        program: &Program<B>,
        function: &Function<B>,
        statement: &Statement,
    )
        requires going { IsGoing program.now.functions (monoids_in program.now)
            (cells_of program.now.mems) (state_of self.old) function.now }
        requires at { slice_get function.now.body (top_of self.old).place ≡ Some statement.now }
        requires kind { IsTrue (is_silent statement.now) }
        ensures stands { Stands program.now.functions (monoids_in program.now) (cells_of program.now.mems) (state_of self.new) }
        ensures makes { Makes program.now.functions (monoids_in program.now) 0 (state_of self.old) (state_of self.new) }
    {
        match *statement {
            Statement::Let {
                register,
                value,
                ..
            } => self.assign(register, value),
            Statement::ParallelFor {
                line,
                register,
                count,
                function,
            } => self.repeat(line, register, count, function),
            Statement::If {
                register,
                otherwise,
                ..
            } => self.choose(register, otherwise),
            Statement::Else { after, .. } => self.go(after),
            Statement::End { .. } => self.skip(),
            _ => unreachable!(),
        }
    }

    /// `if`.
    fn choose(&mut self, register: Register, otherwise: u32)
        requires begun { (state_of self.old).over ≡ false }
        requires place { (top_of self.old).place + 1 < 2 ^ 32 }
        ensures first { slice_index (top_of self.old).registers register.index ≢ 0 →
            state_of self.new ≡ with_top (state_of self.old)
            (moved (top_of self.old) ((top_of self.old).place + 1) (top_of self.old).registers) }
        ensures second { slice_index (top_of self.old).registers register.index ≡ 0 →
            state_of self.new ≡ with_top (state_of self.old) (moved (top_of self.old) otherwise (top_of self.old).registers) }
    {
        if self.top().registers[usize::from(register.index)] != 0 {
            self.skip();
        } else {
            self.go(otherwise);
        }
    }

    /// `spawn` or `call`.
    fn enter(&mut self, function: u32, argument: Operand) -> Result<(), AllocError>
        requires begun { (state_of self.old).over ≡ false }
        requires place { (top_of self.old).place + 1 < 2 ^ 32 }
        ensures { OnOk result (state_of self.new ≡ with_begun (state_of self.old)
            (moved (top_of self.old) ((top_of self.old).place + 1) (top_of self.old).registers)
            function (value_of argument (top_of self.old).registers)) }
    {
        let argument = value_of(&self.top().registers, argument);
        self.skip();
        self.begin(function, argument)
    }
}
