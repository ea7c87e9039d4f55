//! What a line says.

use model_bodies::{Register, Statement};
use text_words::Monoid;

/// What a line says.
#[derive(Clone, Copy, Debug)]
pub enum Item<'a> {
    /// Nothing.
    Blank,
    /// It declares a memory of one cell, or an array of so many.
    Declared {
        name: &'a str,
        length: Option<u32>,
    },
    /// It declares a reducer.
    Reduces {
        name: &'a str,
        monoid: Monoid,
    },
    /// It begins a function.
    Begins {
        name: &'a str,
        parameter: &'a str,
    },
    /// It is a statement other than an `if`, its `else` and its `end`. `named` is a register that it is the first to name.
    Does {
        statement: Statement,
        named: Option<&'a str>,
    },
    /// It is an `if`, and this register decides.
    Decides {
        register: Register,
    },
    /// It is an `else`.
    Otherwise,
    /// It is an `end`, of an `if` or of a function.
    Ends,
}
