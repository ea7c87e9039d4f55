//! What a line is read behind.

ghost use Rattle.std.specs.Prelude.{◌≡◌, ◌≤◌, [], OnOk, OnErr, length, option_map, position};
ghost use Rattle.std.specs.Str.{bytes_eq};
ghost use Rattle.program_lines.specs.Scopes.{max_functions_named, max_registers, register_named, function_named, with_name};

use model_bodies::Register;
use std::alloc::{AllocError, Allocator};
use std::marker::Model;
use text_words::{Name, NameIndex, Names};

/// The most names of functions that are kept, since they are numbered by 32 bits.
pub const FUNCTION_NAMES: usize = 4_294_967_295;

/// The names of a text's functions, each once, in the order of the lines that make them known. They are found in logarithmic time.
/// Contracts see the list of the names.
#[derive(Drop)]
pub struct FunctionNames<'a, A: Allocator> {
    names: NameIndex<'a, A>,
}

impl<'a, A: Allocator> Model for FunctionNames<'a, A> {
    ghost use Rattle.std.specs.Prelude.{ℕ, ◌≤◌, List, length};
    ghost use Rattle.program_lines.specs.Scopes.{max_functions_named};

    ghost Value = { List (List ℕ) };

    ghost view = { λ functions. functions.names };

    ghost invariant = { λ functions. length functions.names ≤ max_functions_named };
}

impl<'a, A: Allocator + Copy> FunctionNames<'a, A> {
    /// No names yet.
    pub fn new(alloc: A) -> FunctionNames<'a, A>
        ensures { result ≡ [] }
    {
        FunctionNames {
            names: NameIndex::new(alloc),
        }
    }

    /// How many names there are.
    pub fn len(&self) -> usize
        ensures count { result ≡ length self.now }
        ensures few { result ≤ max_functions_named }
    {
        self.names.len()
    }

    /// Adds a name, unless it is there. Where all numbers are taken there is no room for another.
    pub fn add(&mut self, name: &'a str) -> Result<(), AllocError>
        ensures ok { OnOk result (self.new ≡ with_name self.old name.now) }
        ensures err { OnErr result (self.new ≡ self.old) }
    {
        if self.names.len() >= FUNCTION_NAMES {
            return Err(AllocError);
        }
        match self.names.find(name.as_bytes()) {
            Some(_) => Ok(()),
            None => self.names.add(name.as_bytes()),
        }
    }

    /// The number of the function of that name, from 0 on.
    pub fn find(&self, name: &str) -> Option<u32>
        ensures { result ≡ function_named self.now name.now }
    {
        match self.names.find(name.as_bytes()) {
            Some(number) => Some(number as u32),
            None => None,
        }
    }
}

/// The place of a name among the names of registers.
fn place_of(registers: &[Name], name: &str) -> Option<usize>
    ensures { result ≡ position (λ register. bytes_eq name.now register) registers.now }
{
    registers
        .iter()
        .position(|register| name == register.as_str())
}

/// What a line is read behind: the declarations, the functions of the whole text and how many of them have begun on earlier lines, and the
/// registers of the open function other than `ok`, at most 16 and none outside a function. Contracts see a record.
#[derive(Drop)]
pub struct NameScope<'s, 'a, A: Allocator> {
    names: &'s Names<'a, A>,
    functions: &'s FunctionNames<'a, A>,
    begun: u32,
    registers: &'s [Name],
}

impl<'s, 'a, A: Allocator> Model for NameScope<'s, 'a, A> {
    ghost use Rattle.std.specs.Prelude.{◌≤◌, length};
    ghost use Rattle.program_lines.specs.Scopes.{NameScope as SpecScope, max_registers};

    ghost Value = { SpecScope };

    ghost view = { λ scope. record {
      known = scope.names.now;
      functions = scope.functions.now;
      begun = scope.begun;
      registers = scope.registers.now;
    } };

    ghost invariant = { λ scope. length scope.registers.now ≤ max_registers };
}

impl<'s, 'a, A: Allocator + Copy> NameScope<'s, 'a, A> {
    /// The scope of these parts.
    pub fn new(
        names: &'s Names<'a, A>,
        functions: &'s FunctionNames<'a, A>,
        begun: u32,
        registers: &'s [Name],
    ) -> NameScope<'s, 'a, A>
        requires { length registers.now ≤ max_registers }
        ensures { result ≡ record { known = names.now; functions = functions.now; begun = begun; registers = registers.now } }
    {
        NameScope {
            names,
            functions,
            begun,
            registers,
        }
    }

    /// The declarations.
    pub fn names(&self) -> &'s Names<'a, A>
        ensures { result.now ≡ self.now.known }
    {
        self.names
    }

    /// The number of the function of that name.
    pub fn function(&self, name: &str) -> Option<u32>
        ensures { result ≡ function_named self.now.functions name.now }
    {
        self.functions.find(name)
    }

    /// How many functions have begun.
    pub fn begun(&self) -> u32
        ensures { result ≡ self.now.begun }
    {
        self.begun
    }

    /// How many registers other than `ok` are known.
    pub fn register_count(&self) -> usize
        ensures count { result ≡ length self.now.registers }
        ensures few { result ≤ max_registers }
    {
        self.registers.len()
    }

    /// The register of that name. `ok` is known everywhere.
    pub fn register(&self, name: &str) -> Option<Register>
        ensures { option_map (λ register. register.index) result ≡ register_named self.now.registers name.now }
    {
        if name == "ok" {
            return Some(Register { index: 0 });
        }
        match place_of(self.registers, name) {
            Some(place) => Some(Register {
                index: place as u8 + 1,
            }),
            None => None,
        }
    }
}
