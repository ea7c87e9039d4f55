//! Calls of functions.

ghost use Rattle.std.specs.Prelude.{◌≡◌, ℕ, ◌+◌, ◌<◌, ◌≤◌, ◌∷◌, Some, None, length, slice_get, IfSome, IsTrue};
ghost use Rattle.text_words.specs.Declarations.{cells_of};
ghost use Rattle.model_bodies.specs.declared.statement.Register.{Register};
ghost use Rattle.model_bodies.specs.declared.statement.Expression.{Expression};
ghost use Rattle.model_bodies.specs.declared.statement.Statement.{Statement};
ghost use Rattle.model_bodies.specs.declared.statement.Statement.TheVariants.{Let};
ghost use Rattle.model_bodies.specs.Bodies.{IsLinked, IsDivided};
ghost use Rattle.model_bodies.specs.Sound.{is_within, max_statements};
ghost use Rattle.model_bodies.specs.Trees.{Step};
ghost use Rattle.model_programs.specs.Values.{first_registers};
ghost use Rattle.frame_steps.specs.Scripts.{PassesAll};
ghost use Rattle.frame_steps.specs.Requests.{Asks, IsNamed, IsTargeted, act_of};
ghost use Rattle.frame_steps.specs.Activations.{left_in, left, end_line_of, statement_in, statement_of};
ghost use Rattle.frame_steps.specs.Activations.{asked_act, steps_ahead, is_plain, StandsIn, IsInPlace};

use crate::request::{Want, act_of, line_of};
use crate::value::{result_of, value_of};
use program_text::{Expression, Function, Operand, Program, REGISTERS, Register, Statement};
use std::alloc::Allocator;
use text_words::Act;

/// What an activation stands before.
#[derive(Clone, Copy)]
pub enum Turn {
    /// The statement at its place, or the sync at its function's end.
    Plainly,
    /// The next number of a `pfor`, or where none is left its sync.
    Numbering {
        /// The line of the `pfor`.
        line: u32,
        /// The register that takes each number.
        register: Register,
        /// The function that is spawned.
        function: u32,
        /// The next number.
        number: u64,
        /// How many numbers there are.
        count: u64,
    },
    /// The spawn for a number of a `pfor`.
    Spawning {
        /// The line of the `pfor`.
        line: u32,
        /// The register that took the number.
        register: Register,
        /// The function that is spawned.
        function: u32,
        /// The number.
        number: u64,
        /// How many numbers there are.
        count: u64,
    },
    /// The return.
    Returning,
}

/// A function that was begun, and how far it has come.
#[derive(Clone, Copy)]
pub struct Activation {
    /// The function's number.
    pub function: u32,
    /// The place in its body, behind a running `pfor`.
    pub place: usize,
    /// Its registers.
    pub registers: [u64; REGISTERS],
    /// The join of its last split, where it has not synced since.
    pub join: Option<u32>,
    /// What it stands before.
    pub turn: Turn,
}

impl Activation {
    /// A function at its first statement.
    pub fn begin(function: u32, argument: u64) -> Activation
        ensures function { result.function ≡ function }
        ensures place { result.place ≡ 0 }
        ensures registers { result.registers ≡ first_registers argument }
        ensures join { result.join ≡ None }
        ensures turn { result.turn ≡ Turn.Plainly }
    {
        let mut registers = [0; REGISTERS];
        registers[0] = 1;
        registers[1] = argument;
        Activation {
            function,
            place: 0,
            registers,
            join: None,
            turn: Turn::Plainly,
        }
    }

    /// The statement before which the activation stands, in its function; None before the return.
    fn statement_in<A: Allocator>(&self, function: &Function<A>) -> Option<Statement>
        ensures { result ≡ statement_in function.now self.now }
    {
        match self.turn {
            Turn::Plainly => match function.body.as_slice().get(self.place) {
                Some(statement) => Some(*statement),
                None => Some(Statement::Sync {
                    line: function.end_line,
                }),
            },
            Turn::Numbering {
                line,
                register,
                number,
                count,
                ..
            } => {
                if number < count {
                    let value = Expression::Plain(Operand::Number(number));
                    Some(Statement::Let {
                        line,
                        register,
                        value,
                    })
                } else {
                    Some(Statement::Sync { line })
                }
            }
            Turn::Spawning {
                line,
                function,
                number,
                ..
            } => Some(Statement::Spawn {
                line,
                function,
                argument: Operand::Number(number),
            }),
            Turn::Returning => None,
        }
    }

    /// Goes behind the statement before which the activation stands, in its function.
    fn step_in<A: Allocator>(&mut self, function: &Function<A>)
        requires stands { (functions : ℕ) × StandsIn functions function.now.body self.old }
        ensures same { (self.new.function ≡ self.old.function)
            × (self.new.registers ≡ self.old.registers) × (self.new.join ≡ self.old.join) }
        ensures stands { (functions : ℕ) → StandsIn functions function.now.body self.old → StandsIn functions function.now.body self.new }
        ensures behind { (statement : Statement) → statement_in function.now self.old ≡ Some statement → IsTrue (is_plain statement) →
            left_in function.now self.old ≡ Step statement (left_in function.now self.new) }
        ensures later { (line : ℕ) (register : Register) (value : Expression) →
            statement_in function.now self.old ≡ Some (Let line register value) →
            steps_ahead (length function.now.body) self.new.place self.new.turn
            < steps_ahead (length function.now.body) self.old.place self.old.turn }
    {
        match self.turn {
            Turn::Plainly => {
                if self.place < function.body.as_slice().len() {
                    self.place += 1;
                } else {
                    self.turn = Turn::Returning;
                }
            }
            Turn::Numbering {
                line,
                register,
                function,
                number,
                count,
            } => {
                self.turn = if number < count {
                    Turn::Spawning {
                        line,
                        register,
                        function,
                        number,
                        count,
                    }
                } else {
                    Turn::Plainly
                };
            }
            Turn::Spawning {
                line,
                register,
                function,
                number,
                count,
            } => {
                let number = number + 1;
                self.turn = Turn::Numbering {
                    line,
                    register,
                    function,
                    number,
                    count,
                };
            }
            Turn::Returning => {}
        }
    }

    /// Does a statement that asks nothing.
    fn pass<A: Allocator>(&mut self, function: &Function<A>, statement: Statement)
        requires stands { (functions : ℕ) × StandsIn functions function.now.body self.old }
        requires few { length function.now.body < max_statements }
        requires linked { IsLinked function.now.body }
        requires divided { IsDivided function.now.body }
        requires at { statement_in function.now self.old ≡ Some statement }
        requires silent { act_of statement self.old.registers ≡ None }
        ensures same { (self.new.function ≡ self.old.function) × (self.new.join ≡ self.old.join) }
        ensures stands { (cells reducers functions : ℕ) → IsTrue (is_within cells reducers functions statement) →
            StandsIn functions function.now.body self.old → StandsIn functions function.now.body self.new }
        ensures later { steps_ahead (length function.now.body) self.new.place self.new.turn
            < steps_ahead (length function.now.body) self.old.place self.old.turn }
        ensures passes { PassesAll (left_in function.now self.old) self.old.registers (left_in function.now self.new) self.new.registers }
    {
        match statement {
            Statement::Let {
                register,
                value,
                ..
            } => {
                self.registers[usize::from(register.index)] = result_of(&self.registers, value);
                self.step_in(function);
            }
            Statement::If {
                register,
                otherwise,
                ..
            } => {
                if self.registers[usize::from(register.index)] != 0 {
                    self.place += 1;
                } else {
                    self.place = otherwise as usize;
                }
            }
            Statement::Else { after, .. } => {
                self.place = after as usize;
            }
            Statement::End { .. } => self.place += 1,
            Statement::ParallelFor {
                line,
                register,
                count,
                function,
            } => {
                self.place += 1;
                self.turn = Turn::Numbering {
                    line,
                    register,
                    function,
                    number: 0,
                    count: value_of(&self.registers, count),
                };
            }
            _ => unreachable!(),
        }
    }

    /// The function that was begun.
    fn function_in<'a, A: Allocator>(&self, program: &'a Program<A>) -> &'a Function<A>
        requires place { IsInPlace program.now.functions self.now }
        ensures { slice_get program.now.functions self.now.function ≡ Some result.now }
    {
        &program.functions.as_slice()[self.function as usize]
    }

    /// Goes on to the next request, over the statements that ask nothing, and says what is asked. Called again, it gives the same.
    pub fn seek<A: Allocator>(&mut self, program: &Program<A>) -> Want
        requires place { IsInPlace program.now.functions self.old }
        ensures place { IsInPlace program.now.functions self.new }
        ensures same { (self.new.function ≡ self.old.function) × (self.new.join ≡ self.old.join) }
        ensures passes { PassesAll (left program.now.functions self.old)
            self.old.registers (left program.now.functions self.new) self.new.registers }
        ensures asks { Asks (left program.now.functions self.new)
            (end_line_of program.now.functions self.new.function) self.new.registers result }
        ensures asked { asked_act (statement_of program.now.functions self.new) self.new.registers ≡ Some result.act }
        ensures named { IsNamed (cells_of program.now.mems) (length program.now.reducers) result.act }
    {
        let function = self.function_in(program);
        loop {
            let Some(statement) = self.statement_in(function) else {
                return Want {
                    act: Act::Return,
                    line: function.end_line,
                };
            };
            if let Some(act) = act_of(&self.registers, statement) {
                return Want {
                    act,
                    line: line_of(statement),
                };
            }
            self.pass(function, statement);
        }
    }

    /// The statement before which the activation stands: after a [`seek`](Activation::seek) the one that asks, and None where the return
    /// is asked for. A spawn or the sync of a `pfor` is a statement of its own, and so is the sync at the function's end.
    pub fn statement<A: Allocator>(&self, program: &Program<A>) -> Option<Statement>
        requires place { IsInPlace program.now.functions self.now }
        ensures at { result ≡ statement_of program.now.functions self.now }
        ensures targets { IfSome result (λ statement. IsTargeted (length program.now.functions) statement) }
    {
        self.statement_in(self.function_in(program))
    }

    /// Goes behind the statement before which the activation stands.
    pub fn step<A: Allocator>(&mut self, program: &Program<A>)
        requires place { IsInPlace program.now.functions self.old }
        ensures place { IsInPlace program.now.functions self.new }
        ensures same { (self.new.function ≡ self.old.function)
            × (self.new.registers ≡ self.old.registers) × (self.new.join ≡ self.old.join) }
        ensures behind { (statement : Statement) → statement_of program.now.functions self.old ≡ Some statement →
            IsTrue (is_plain statement) → left program.now.functions self.old ≡ Step statement (left program.now.functions self.new) }
    {
        let function = self.function_in(program);
        self.step_in(function);
    }
}
