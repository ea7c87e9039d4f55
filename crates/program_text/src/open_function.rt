//! A function that has not ended.

ghost use Rattle.std.specs.Prelude.{◌≡◌, ◌+◌, ◌≤◌, ◌↔◌, [], IsTrue, OnOk, OnErr, IfOk, length, option_copied};
ghost use Rattle.text_words.specs.Text.{IsName};
ghost use Rattle.program_lines.specs.Scopes.{max_registers};
ghost use Rattle.model_bodies.specs.Sound.{max_statements};
ghost use Rattle.program_text.specs.Drafts.{ending as ending_of, with_end, first_open, with_register};
ghost use Rattle.program_text.specs.Drafts.{with_statement, with_choice, with_else, code_of};
ghost use Rattle.program_text.specs.Grammar.{HasRegister, IsFirst};
ghost use Rattle.program_text.specs.Openings.{EndsPart};

use crate::function::{Body, Function, RegisterNames};
use program_lines::{Register, Statement};
use std::alloc::{AllocError, Allocator};
use std::marker::Model;
use text_words::Name;

/// A part of an `if` that has not ended.
#[derive(Clone, Copy)]
pub struct Part {
    /// The place of the `if` or `else` before it.
    pub place: u32,
    /// Whether it is the second.
    pub second: bool,
}

/// A function that has not ended. Its parts stand innermost last; contracts see them innermost first.
#[derive(Drop)]
pub struct Open<A: Allocator> {
    name: Name,
    parameter: Name,
    line: u32,
    registers: Vec<Name, A>,
    body: Vec<Statement, A>,
    parts: Vec<Part, A>,
}

impl<A: Allocator> Model for Open<A> {
    ghost use Rattle.std.specs.Prelude.{◌≤◌, length, reverse};
    ghost use Rattle.program_lines.specs.Scopes.{max_registers};
    ghost use Rattle.program_text.specs.Drafts.{Open as SpecOpen};

    ghost Value = { SpecOpen };

    ghost view = { λ open_function. record {
      name = open_function.name;
      parameter = open_function.parameter;
      line = open_function.line;
      registers = open_function.registers.items;
      body = open_function.body.items;
      parts = reverse open_function.parts.items;
    } };

    ghost invariant = { λ open_function. length open_function.registers.items ≤ max_registers };
}

/// The statement, where the part behind it ends before the place `to`.
fn ending(to: u32, statement: Statement) -> Statement
    ensures { result ≡ ending_of to statement }
{
    match statement {
        Statement::If { line, register, .. } => Statement::If {
            line,
            register,
            otherwise: to,
        },
        Statement::Else { line, .. } => Statement::Else { line, after: to },
        other => other,
    }
}

/// Ends the part behind a place before the place `to`.
fn end_part<A: Allocator>(body: &mut Vec<Statement, A>, place: u32, to: u32)
    ensures { body.new.items ≡ with_end place to body.old.items }
{
    let place = place as usize;
    if let Some(statement) = body.get(place).copied() {
        body[place] = ending(to, statement);
    }
}

impl<A: Allocator + Copy> Open<A> {
    /// The function that begins on a line.
    pub fn new(alloc: A, at: u32, name: &str, parameter: &str) -> Result<Open<A>, AllocError>
        requires is_name { IsName name.now }
        requires is_parameter { IsName parameter.now }
        ensures { IfOk result (λ begun. begun ≡ first_open at name.now parameter.now) }
    {
        let mut registers = Vec::new(alloc);
        registers.push(Name::new(parameter))?;
        Ok(Open {
            name: Name::new(name),
            parameter: Name::new(parameter),
            line: at,
            registers,
            body: Vec::new(alloc),
            parts: Vec::new(alloc),
        })
    }

    /// Its registers other than `ok`.
    pub fn registers(&self) -> &[Name]
        ensures value { result.now ≡ self.now.registers }
        ensures few { length result.now ≤ max_registers }
    {
        self.registers.as_slice()
    }

    /// How many parts have not ended.
    pub fn depth(&self) -> usize
        ensures { result ≡ length self.now.parts }
    {
        self.parts.len()
    }

    /// Whether the innermost part is the first of its `if`.
    pub fn is_first(&self) -> bool
        ensures { IsTrue result ↔ IsFirst self.now.parts }
    {
        match self.parts.last() {
            Some(part) => !part.second,
            None => false,
        }
    }

    /// Adds a statement.
    fn add(&mut self, statement: Statement) -> Result<(), AllocError>
        ensures added { OnOk result (self.new ≡ with_statement self.old statement) }
        ensures body { length self.new.body ≤ length self.old.body + 1 }
        ensures err { OnErr result (length self.new.body ≤ length self.old.body) }
    {
        self.body.push(statement)?;
        Ok(())
    }

    /// Adds a statement, and the register that it is the first to name.
    pub fn act(&mut self, statement: Statement, named: Option<&str>) -> Result<(), AllocError>
        requires { HasRegister self.old.registers (option_copied named) }
        ensures acted { OnOk result (self.new ≡ with_statement (with_register self.old (option_copied named.entry)) statement) }
        ensures body { length self.new.body ≤ length self.old.body + 1 }
        ensures err { OnErr result (length self.new.body ≤ length self.old.body) }
    {
        if let Some(name) = named {
            self.registers.push(Name::new(name))?;
        }
        self.add(statement)
    }

    /// Adds an `if`, whose first part begins.
    pub fn decide(&mut self, at: u32, register: Register) -> Result<(), AllocError>
        requires { length self.old.body ≤ max_statements }
        ensures chosen { OnOk result (self.new ≡ with_choice at self.old register) }
        ensures body { length self.new.body ≤ length self.old.body + 1 }
        ensures err { OnErr result (length self.new.body ≤ length self.old.body) }
    {
        self.parts.push(Part {
            place: self.body.len() as u32,
            second: false,
        })?;
        self.add(Statement::If {
            line: at,
            register,
            otherwise: 0,
        })
    }

    /// Adds an `else`: the innermost part ends behind it, and the second begins.
    pub fn divide(&mut self, at: u32) -> Result<(), AllocError>
        requires { length self.old.body ≤ max_statements }
        ensures divided { OnOk result (self.new ≡ with_else at self.old) }
        ensures body { length self.new.body ≤ length self.old.body + 1 }
        ensures err { OnErr result (length self.new.body ≤ length self.old.body) }
    {
        match self.parts.pop() {
            Some(part) => {
                let place = self.body.len() as u32;
                end_part(&mut self.body, part.place, place + 1);
                self.parts.push(Part {
                    place,
                    second: true,
                })?;
                self.add(Statement::Else { line: at, after: 0 })
            }
            None => Ok(()),
        }
    }

    /// Adds the `end` of the innermost part, if one has not ended. It tells whether there was one.
    pub fn end(&mut self, at: u32) -> Result<bool, AllocError>
        requires { length self.old.body ≤ max_statements }
        ensures ended { IfOk result (λ was_part. EndsPart at self.old self.old.parts was_part self.new) }
        ensures body { length self.new.body ≤ length self.old.body + 1 }
        ensures err { OnErr result (length self.new.body ≤ length self.old.body) }
    {
        match self.parts.pop() {
            Some(part) => {
                let place = self.body.len() as u32;
                end_part(&mut self.body, part.place, place + 1);
                self.add(Statement::End { line: at })?;
                Ok(true)
            }
            None => Ok(false),
        }
    }

    /// The function, whose `end` stands on that line.
    pub fn into_function(self, at: u32) -> Function<A>
        ensures { result ≡ code_of at self }
    {
        let Open {
            name,
            parameter,
            line,
            registers,
            body,
            parts: _,
        } = self;
        Function {
            name,
            parameter,
            line,
            end_line: at,
            registers: RegisterNames::new(registers),
            body: Body::new(body),
        }
    }
}
