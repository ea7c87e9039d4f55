//! Words in their places.

ghost use Rattle.std.specs.Prelude.{◌≡◌, ◌+◌, ◌<◌, ◌≤◌, ◌^◌, ℕ, List, [], Some, MatchResult};
ghost use Rattle.text_words.specs.Values.{Known};
ghost use Rattle.model_accesses.specs.Limits.{most_cells};
ghost use Rattle.text_words.specs.Names.{SingleMeans, ElementMeans};
ghost use Rattle.trace_text.specs.Lines.{FreshName, Number, Cell, ReducerName, MonoidWord, Mark};
ghost use Rattle.trace_text.specs.Lines.{a_strand, a_value, OfName, OfNumber, OfMonoid, if_there};
ghost use Rattle.trace_text.specs.Cells.{IsSingleFault, IsElementFault};
ghost use Rattle.trace_text.specs.Outcome.{TakesWord, Fits, Reads};

use crate::number::number;
use std::alloc::Allocator;
use text_words::{Cause, Monoid, Named, Names, Words, is_name, monoid_of};

/// The most cells that a text declares.
pub const CELLS: u64 = 1_000_000;
/// The greatest number of a strand, and of a line that a mark names.
pub const STRAND: u64 = 4_294_967_295;

/// Takes a strand's number.
pub fn strand(words: &mut Words<'_>) -> Result<u32, Cause>
    ensures { (known : Known) → TakesWord known a_strand words.old words.new result OfNumber }
{
    match words.take() {
        Some(word) => match number(word, 0, STRAND) {
            Ok(strand) => Ok(strand as u32),
            Err(why) => Err(why),
        },
        None => Err(Cause::BadWord),
    }
}

/// Takes a value.
pub fn value(words: &mut Words<'_>) -> Result<u64, Cause>
    ensures { (known : Known) → TakesWord known a_value words.old words.new result OfNumber }
{
    match words.take() {
        Some(word) => number(word, 0, u64::MAX),
        None => Err(Cause::BadWord),
    }
}

fn single<A: Allocator + Copy>(names: &Names<'_, A>, name: &str) -> Result<u32, Cause>
    ensures { MatchResult result (SingleMeans names.now.mems name.now) (IsSingleFault names.now.mems name.now) }
{
    if !is_name(name) {
        return Err(Cause::BadWord);
    }
    match names.find(name) {
        Some(Named::Single(cell)) => Ok(cell),
        _ => Err(Cause::UnknownName),
    }
}

fn element<A: Allocator + Copy>(names: &Names<'_, A>, name: &str, index: &str) -> Result<u32, Cause>
    ensures { MatchResult result (ElementMeans names.now.mems name.now index.now) (IsElementFault names.now.mems name.now index.now) }
{
    if !is_name(name) {
        return Err(Cause::BadWord);
    }
    let index = match number(index, 0, u64::MAX) {
        Ok(index) => index,
        Err(why) => return Err(why),
    };
    match names.find(name) {
        Some(Named::Array { first, cells }) => {
            if index < u64::from(cells) {
                Ok(first + index as u32)
            } else {
                Err(Cause::BadNumber)
            }
        }
        Some(Named::Single(_)) => Err(Cause::UnknownName),
        Some(Named::Reducer(_)) => Err(Cause::UnknownName),
        None => Err(Cause::UnknownName),
    }
}

/// The cell that a word names.
pub fn cell_of<A: Allocator + Copy>(names: &Names<'_, A>, word: &str) -> Result<u32, Cause>
    ensures { Reads names.now Cell word.now result OfNumber }
{
    match word.split_once('[') {
        None => single(names, word),
        Some((name, rest)) => match rest.strip_suffix(']') {
            Some(index) => element(names, name, index),
            None => Err(Cause::BadWord),
        },
    }
}

/// Takes the name of a cell.
pub fn cell<A: Allocator + Copy>(names: &Names<'_, A>, words: &mut Words<'_>) -> Result<u32, Cause>
    ensures { TakesWord names.now Cell words.old words.new result OfNumber }
{
    match words.take() {
        Some(word) => cell_of(names, word),
        None => Err(Cause::BadWord),
    }
}

fn reducer_of<A: Allocator + Copy>(names: &Names<'_, A>, name: &str) -> Result<u32, Cause>
    ensures { Reads names.now ReducerName name.now result OfNumber }
{
    if !is_name(name) {
        return Err(Cause::BadWord);
    }
    match names.find(name) {
        Some(Named::Reducer(reducer)) => Ok(reducer),
        Some(Named::Single(_)) => Err(Cause::UnknownName),
        Some(Named::Array { first: _, cells: _ }) => Err(Cause::UnknownName),
        None => Err(Cause::UnknownName),
    }
}

/// Takes the name of a reducer.
pub fn reducer<A: Allocator + Copy>(
    names: &Names<'_, A>,
    words: &mut Words<'_>,
) -> Result<u32, Cause>
    ensures { TakesWord names.now ReducerName words.old words.new result OfNumber }
{
    match words.take() {
        Some(word) => reducer_of(names, word),
        None => Err(Cause::BadWord),
    }
}

fn fresh_name_of<'a, A: Allocator + Copy>(
    names: &Names<'_, A>,
    name: &'a str,
) -> Result<&'a str, Cause>
    ensures { Reads names.now FreshName name.now result (λ name. OfName name.now) }
{
    if !is_name(name) {
        return Err(Cause::BadWord);
    }
    match names.find(name) {
        Some(_) => Err(Cause::TwiceNamed),
        None => Ok(name),
    }
}

/// Takes a name that is not declared.
pub fn fresh_name<'a, A: Allocator + Copy>(
    names: &Names<'_, A>,
    words: &mut Words<'a>,
) -> Result<&'a str, Cause>
    ensures { TakesWord names.now FreshName words.old words.new result (λ name. OfName name.now) }
{
    match words.take() {
        Some(word) => fresh_name_of(names, word),
        None => Err(Cause::BadWord),
    }
}

/// Takes a monoid of the version.
pub fn monoid<A: Allocator + Copy>(
    names: &Names<'_, A>,
    words: &mut Words<'_>,
) -> Result<Monoid, Cause>
    ensures { TakesWord names.now MonoidWord words.old words.new result OfMonoid }
{
    match words.take() {
        Some(word) => monoid_of(names.version(), word).ok_or(Cause::BadWord),
        None => Err(Cause::BadWord),
    }
}

fn mark_of(word: &str) -> Result<u32, Cause>
    ensures { (known : Known) → Reads known Mark word.now result OfNumber }
{
    match word.strip_prefix('@') {
        Some(digits) => match number(digits, 1, STRAND) {
            Ok(line) => Ok(line as u32),
            Err(_) => Err(Cause::BadNumber),
        },
        None => Err(Cause::BadWord),
    }
}

/// Takes what is left behind a request: nothing, or the mark.
pub fn mark(words: &mut Words<'_>) -> Result<Option<u32>, Cause>
    ensures { (known : Known) → Fits known [] (Some Mark) words.old result if_there }
{
    let Some(word) = words.take() else {
        return Ok(None);
    };
    match words.take() {
        Some(_) => Err(Cause::BadWord),
        None => match mark_of(word) {
            Ok(line) => Ok(Some(line)),
            Err(why) => Err(why),
        },
    }
}

/// Takes what is left behind the name of a memory: nothing, or its length.
pub fn length(words: &mut Words<'_>) -> Result<Option<u32>, Cause>
    ensures { (known : Known) → Fits known [] (Some (Number 1 most_cells)) words.old result if_there }
{
    let Some(word) = words.take() else {
        return Ok(None);
    };
    match words.take() {
        Some(_) => Err(Cause::BadWord),
        None => match number(word, 1, CELLS) {
            Ok(cells) => Ok(Some(cells as u32)),
            Err(why) => Err(why),
        },
    }
}

/// Sees that nothing is left.
pub fn end(words: &mut Words<'_>) -> Result<(), Cause>
    ensures { (known : Known) → Fits known [] None words.old result (λ _. []) }
{
    match words.take() {
        Some(_) => Err(Cause::BadWord),
        None => Ok(()),
    }
}
