//! Words that are no numbers of their places, and names that are not declared as what their places want.

use crate::form::Wanted;
use crate::meant::Meant;
use crate::mistake::{NumberMistake, UnknownMistake};
use crate::part::Part;
use crate::scene::{Kind, Scene};
use crate::shape::{begins_with_digit, element};
use text_words::is_name;

/// The greatest number of a strand, and of a line.
const MOST_STRAND: u64 = 4_294_967_295;

/// The most cells of an array.
const MOST_CELLS: u64 = 1_000_000;

/// What is wrong with a word as a number of this range.
fn out_of_range(word: &str, low: u64, high: u64) -> Option<NumberMistake> {
    match word.parse::<u64>() {
        Ok(number) if low <= number && number <= high => None,
        Err(_) if !word.bytes().all(|byte| byte.is_ascii_digit()) => Some(NumberMistake::Digits),
        _ => Some(NumberMistake::Range),
    }
}

/// What is wrong with the number in brackets of the word of a cell.
fn bad_index(scene: &Scene<'_, '_>, word: &str) -> Option<NumberMistake> {
    let (name, index) = element(word)?;
    if !begins_with_digit(index) {
        return None;
    }
    let found = out_of_range(index, 0, u64::MAX);
    match (scene.meant, scene.kind(name)) {
        (Meant::Trace, Some(Kind::Array(length))) if found.is_none() => {
            match (index.parse::<u64>(), length.parse::<u64>()) {
                (Ok(index), Ok(length)) if index < length => None,
                _ => Some(NumberMistake::Index),
            }
        }
        _ => found,
    }
}

/// What is wrong with the word with this number, as a number of its place.
fn bad_number(scene: &Scene<'_, '_>, at: usize) -> Option<(NumberMistake, Part)> {
    let word = scene.word(at);
    let found = match scene.wanted(Part::Word(at))? {
        Wanted::Length => out_of_range(word, 1, MOST_CELLS),
        Wanted::Strand => out_of_range(word, 0, MOST_STRAND),
        Wanted::Value => out_of_range(word, 0, u64::MAX),
        Wanted::Operand if begins_with_digit(word) => out_of_range(word, 0, u64::MAX),
        Wanted::Mark => {
            let line = word.strip_prefix('@').unwrap_or("");
            out_of_range(line, 1, MOST_STRAND).and(Some(NumberMistake::Mark))
        }
        Wanted::Cell | Wanted::TraceCell => {
            return Some((bad_index(scene, word)?, Part::Index(at)));
        }
        _ => None,
    };
    Some((found?, Part::Word(at)))
}

/// What is wrong with the numbers of a line that has one that is none, or is out of range.
pub(crate) fn bad_numbers(scene: &Scene<'_, '_>) -> (NumberMistake, Part) {
    for at in 0..scene.words.len() {
        if let Some(found) = bad_number(scene, at) {
            return found;
        }
    }
    (NumberMistake::Other, Part::Statement)
}

/// What is wrong with a name where a register is wanted that is known.
fn unknown_register(scene: &Scene<'_, '_>, name: &str) -> Option<UnknownMistake> {
    if !is_name(name) || scene.is_register(name) {
        return None;
    }
    match scene.kind(name) {
        Some(Kind::Cell | Kind::Array(_)) => Some(UnknownMistake::CellRead),
        Some(Kind::Reducer) => Some(UnknownMistake::ReducerRead),
        Some(Kind::Function) | None => Some(UnknownMistake::Register),
    }
}

/// What is wrong with the names of a cell, the word with this number.
fn unknown_cell(scene: &Scene<'_, '_>, word: &str, at: usize) -> Option<(UnknownMistake, Part)> {
    let (name, index) = match element(word) {
        Some((name, index)) => (name, Some(index)),
        None => (word, None),
    };
    let mistake = match (scene.kind(name), index) {
        (Some(Kind::Cell), None) => return None,
        (Some(Kind::Cell), Some(_)) => UnknownMistake::NoArray,
        (Some(Kind::Array(_)), None) => UnknownMistake::NoIndex,
        (Some(Kind::Array(_)), Some(index)) => {
            return Some((unknown_register(scene, index)?, Part::Index(at)));
        }
        (Some(Kind::Reducer), _) => UnknownMistake::ReducerForCell,
        _ if matches!(scene.meant, Meant::Program) && scene.is_register(name) => {
            UnknownMistake::RegisterForCell
        }
        _ => UnknownMistake::Cell,
    };
    Some((mistake, Part::Word(at)))
}

/// What is wrong with the word with this number, as a name that its place wants. Any line of the text may begin a function.
fn unknown_name(scene: &Scene<'_, '_>, at: usize) -> Option<(UnknownMistake, Part)> {
    let word = scene.word(at);
    let found = match scene.wanted(Part::Word(at))? {
        Wanted::Operand | Wanted::Decider => unknown_register(scene, word),
        Wanted::Reducer => match scene.kind(word) {
            Some(Kind::Reducer) => None,
            Some(Kind::Cell | Kind::Array(_)) => Some(UnknownMistake::CellForReducer),
            _ => Some(UnknownMistake::Reducer),
        },
        Wanted::Function if !scene.is_function(word) => Some(UnknownMistake::Function),
        Wanted::Cell | Wanted::TraceCell => return unknown_cell(scene, word, at),
        _ => None,
    };
    Some((found?, Part::Word(at)))
}

/// What is wrong with the names of a line that has one that is not declared as what its place wants.
pub(crate) fn unknown_names(scene: &Scene<'_, '_>) -> (UnknownMistake, Part) {
    for at in 0..scene.words.len() {
        if let Some(found) = unknown_name(scene, at) {
            return found;
        }
    }
    (UnknownMistake::Other, Part::Statement)
}
