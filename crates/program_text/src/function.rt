//! Functions of a program.

use program_lines::Statement;
use std::alloc::Allocator;
use std::marker::Model;
use text_words::{Items, Name};

/// The statements of a body in order of their lines, the `end` of its function left out.
pub type Body<A> = Items<Statement, A>;

/// The names of a function's registers other than `ok`: the parameter first, and then in the order in which the text first names them.
pub type RegisterNames<A> = Items<Name, A>;

/// A function, which contracts see as its code.
#[derive(Drop)]
pub struct Function<A: Allocator> {
    /// Its name.
    pub name: Name,
    /// The name of its parameter.
    pub parameter: Name,
    /// The line of its `func`.
    pub line: u32,
    /// The line of its `end`.
    pub end_line: u32,
    /// The names of its registers.
    pub registers: RegisterNames<A>,
    /// Its statements.
    pub body: Body<A>,
}

/// Functions in the order of the text.
pub type Functions<A> = Items<Function<A>, A>;

impl<A: Allocator> Model for Function<A> {
    ghost use Rattle.model_bodies.specs.Codes.{Code};

    ghost Value = { Code };

    ghost view = { λ f. record {
      name = f.name;
      parameter = f.parameter;
      line = f.line;
      end_line = f.end_line;
      registers = f.registers;
      body = f.body;
    } };
}
