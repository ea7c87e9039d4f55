//! Words in their places.

ghost use Rattle.std.specs.Prelude.{◌↔◌, IsTrue, option_copied, MatchResult};
ghost use Rattle.trace_text.specs.Cells.{IsSingleFault};
ghost use Rattle.trace_text.specs.Lines as trace;
ghost use Rattle.program_lines.specs.Scopes.{NameScope as SpecScope, IsFresh};
ghost use Rattle.program_lines.specs.Places.{Common, FreshName, OperandWord, LocationWord, AssignedRegister};
ghost use Rattle.program_lines.specs.Places.{KnownRegister, FunctionName, ParameterName, Plain, OfOperand};
ghost use Rattle.program_lines.specs.Places.{OfLocation, OfRegister, OfAssigned, IsRegisterName};
ghost use Rattle.program_lines.specs.Locations.{SingleIs, ElementIs, IsElementFault};
ghost use Rattle.program_lines.specs.Outcome.{Reads};

use crate::scope::NameScope;
use model_bodies::{Location, Operand, Register};
use std::alloc::Allocator;
use text_words::{Cause, Monoid, Named, is_name, monoid_of};
use trace_text::number::number;

/// The register that a line assigns, and its name where it is new.
#[derive(Clone, Copy)]
pub struct Assigned<'a> {
    pub register: Register,
    pub named: Option<&'a str>,
}

/// Whether no memory, no reducer and no function that has begun has that name.
fn is_fresh<A: Allocator + Copy>(scope: &NameScope<'_, '_, A>, name: &str) -> bool
    ensures { IsTrue result ↔ IsFresh scope.now name.now }
{
    match scope.names().find(name) {
        Some(_) => false,
        None => match scope.function(name) {
            Some(number) => scope.begun() <= number,
            None => true,
        },
    }
}

/// A name that is neither declared nor that of a function that has begun.
pub fn fresh_name<'a, A: Allocator + Copy>(
    scope: &NameScope<'_, '_, A>,
    name: &'a str,
) -> Result<&'a str, Cause>
    ensures { Reads scope.now FreshName name.now result (λ name. Plain (trace.OfName name.now)) }
{
    if !is_name(name) {
        return Err(Cause::BadWord);
    }
    if is_fresh(scope, name) {
        Ok(name)
    } else {
        Err(Cause::TwiceNamed)
    }
}

/// A monoid of the version.
pub fn monoid<A: Allocator + Copy>(
    scope: &NameScope<'_, '_, A>,
    word: &str,
) -> Result<Monoid, Cause>
    ensures { Reads scope.now (Common trace.MonoidWord) word.now result (λ monoid. Plain (trace.OfMonoid monoid)) }
{
    match monoid_of(scope.names().version(), word) {
        Some(monoid) => Ok(monoid),
        None => Err(Cause::BadWord),
    }
}

/// The name of a reducer.
pub fn reducer<A: Allocator + Copy>(scope: &NameScope<'_, '_, A>, word: &str) -> Result<u32, Cause>
    ensures { Reads scope.now (Common trace.ReducerName) word.now result (λ number. Plain (trace.OfNumber number)) }
{
    if !is_name(word) {
        return Err(Cause::BadWord);
    }
    match scope.names().find(word) {
        Some(Named::Reducer(number)) => Ok(number),
        _ => Err(Cause::UnknownName),
    }
}

/// Whether a word is a name, and not `ok`.
fn is_register_name(word: &str) -> bool
    ensures { IsTrue result ↔ IsRegisterName word.now }
{
    is_name(word) && word != "ok"
}

/// The name of a parameter.
pub fn parameter(word: &str) -> Result<&str, Cause>
    ensures { (scope : SpecScope) → Reads scope ParameterName word.now result (λ name. Plain (trace.OfName name.now)) }
{
    if is_register_name(word) {
        Ok(word)
    } else {
        Err(Cause::BadWord)
    }
}

/// The name of a register that is known.
pub fn register<A: Allocator + Copy>(
    scope: &NameScope<'_, '_, A>,
    word: &str,
) -> Result<Register, Cause>
    ensures { Reads scope.now KnownRegister word.now result OfRegister }
{
    if !is_name(word) {
        return Err(Cause::BadWord);
    }
    match scope.register(word) {
        Some(register) => Ok(register),
        None => Err(Cause::UnknownName),
    }
}

/// The name of a register that is assigned, which may be new.
pub fn assignee<'a, A: Allocator + Copy>(
    scope: &NameScope<'_, '_, A>,
    word: &'a str,
) -> Result<Assigned<'a>, Cause>
    ensures { Reads scope.now AssignedRegister word.now result (λ assigned. OfAssigned assigned.register (option_copied assigned.named)) }
{
    if !is_register_name(word) {
        return Err(Cause::BadWord);
    }
    match scope.register(word) {
        Some(register) => Ok(Assigned {
            register,
            named: None,
        }),
        None => {
            let count = scope.register_count();
            if count < 16 {
                Ok(Assigned {
                    register: Register {
                        index: count as u8 + 1,
                    },
                    named: Some(word),
                })
            } else {
                Err(Cause::TooMany)
            }
        }
    }
}

/// An operand.
pub fn operand<A: Allocator + Copy>(
    scope: &NameScope<'_, '_, A>,
    word: &str,
) -> Result<Operand, Cause>
    ensures { Reads scope.now OperandWord word.now result OfOperand }
{
    if is_name(word) {
        match scope.register(word) {
            Some(register) => Ok(Operand::Held(register)),
            None => Err(Cause::UnknownName),
        }
    } else {
        match number(word, 0, u64::MAX) {
            Ok(value) => Ok(Operand::Number(value)),
            Err(why) => Err(why),
        }
    }
}

/// The name of a function.
pub fn function<A: Allocator + Copy>(scope: &NameScope<'_, '_, A>, word: &str) -> Result<u32, Cause>
    ensures { Reads scope.now FunctionName word.now result (λ number. Plain (trace.OfNumber number)) }
{
    if !is_name(word) {
        return Err(Cause::BadWord);
    }
    match scope.function(word) {
        Some(number) => Ok(number),
        None => Err(Cause::UnknownName),
    }
}

/// The cell of a memory that is no array.
fn single<A: Allocator + Copy>(scope: &NameScope<'_, '_, A>, name: &str) -> Result<Location, Cause>
    ensures { MatchResult result (SingleIs scope.now name.now) (IsSingleFault scope.now.known.mems name.now) }
{
    if !is_name(name) {
        return Err(Cause::BadWord);
    }
    match scope.names().find(name) {
        Some(Named::Single(cell)) => Ok(Location::Cell(cell)),
        _ => Err(Cause::UnknownName),
    }
}

/// An array and an index.
fn element<A: Allocator + Copy>(
    scope: &NameScope<'_, '_, A>,
    name: &str,
    index: &str,
) -> Result<Location, Cause>
    ensures { MatchResult result (ElementIs scope.now name.now index.now) (IsElementFault scope.now name.now index.now) }
{
    if !is_name(name) {
        return Err(Cause::BadWord);
    }
    let index = match operand(scope, index) {
        Ok(index) => index,
        Err(why) => return Err(why),
    };
    match scope.names().find(name) {
        Some(Named::Array { first, cells }) => Ok(Location::Element {
            first,
            length: cells,
            index,
        }),
        Some(Named::Single(_)) => Err(Cause::UnknownName),
        Some(Named::Reducer(_)) => Err(Cause::UnknownName),
        None => Err(Cause::UnknownName),
    }
}

/// The location that a word names.
pub fn location<A: Allocator + Copy>(
    scope: &NameScope<'_, '_, A>,
    word: &str,
) -> Result<Location, Cause>
    ensures { Reads scope.now LocationWord word.now result OfLocation }
{
    match word.split_once('[') {
        None => single(scope, word),
        Some((name, rest)) => match rest.strip_suffix(']') {
            Some(index) => element(scope, name, index),
            None => Err(Cause::BadWord),
        },
    }
}
