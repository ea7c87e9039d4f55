//! Words of another shape than their places want.

use crate::form::Wanted;
use crate::mistake::WordMistake;
use crate::part::Part;
use text_words::{NAME_LEN, Version, is_name, monoid_of};

/// Whether a word stands for a number, or begins like one.
pub(crate) fn begins_with_digit(word: &str) -> bool {
    matches!(word.as_bytes(), [b'0'..=b'9', ..])
}

/// Whether a word is a number with a minus sign.
fn is_negative(word: &str) -> bool {
    matches!(word.as_bytes(), [b'-', b'0'..=b'9', ..])
}

/// Whether a word has this byte.
fn has_byte(word: &str, byte: u8) -> bool {
    word.as_bytes().contains(&byte)
}

/// Whether a word joins others by a sign. Only `is_operand` takes a minus sign for one, which a name that is none may have too.
fn has_sign(word: &str, is_operand: bool) -> bool {
    word.len() > 1
        && (has_byte(word, b'=')
            || has_byte(word, b'+')
            || has_byte(word, b'*')
            || has_byte(word, b'<')
            || (is_operand && has_byte(word, b'-')))
}

/// Whether a word is an operator.
pub(crate) fn is_operator(word: &str) -> bool {
    matches!(word, "+" | "-" | "*" | "<")
}

/// What a word has of the language C.
pub(crate) fn of_c(word: &str) -> Option<WordMistake> {
    if word.starts_with("//") || word.starts_with("/*") {
        Some(WordMistake::Slashes)
    } else if has_byte(word, b'(') || has_byte(word, b')') {
        Some(WordMistake::Parentheses)
    } else if has_byte(word, b';') {
        Some(WordMistake::Semicolon)
    } else {
        None
    }
}

/// What is wrong with a word that is no name, nor a number. `other` is a word with nothing of what is often seen.
fn of_letters(word: &str, other: WordMistake) -> WordMistake {
    match of_c(word) {
        Some(mistake) => mistake,
        None if word.bytes().any(|byte| byte.is_ascii_uppercase()) => WordMistake::UpperCase,
        None if word.len() > NAME_LEN => WordMistake::LongName,
        None => other,
    }
}

/// What is wrong with a word as a name; where a number stands in place of it, `number`.
fn name_shape(word: &str, number: WordMistake) -> Option<WordMistake> {
    if is_name(word) {
        None
    } else if begins_with_digit(word) {
        Some(number)
    } else if has_sign(word, false) {
        Some(WordMistake::Spaces)
    } else {
        Some(of_letters(word, WordMistake::Name))
    }
}

/// What is wrong with a word as an operand.
fn operand_shape(word: &str) -> Option<WordMistake> {
    if is_name(word) || begins_with_digit(word) {
        None
    } else if is_negative(word) {
        Some(WordMistake::Negative)
    } else if has_byte(word, b'[') {
        Some(WordMistake::Element)
    } else if has_sign(word, true) {
        Some(WordMistake::Spaces)
    } else {
        Some(of_letters(word, WordMistake::Operand))
    }
}

/// What is wrong with a word as a number.
fn number_shape(word: &str) -> Option<WordMistake> {
    if begins_with_digit(word) {
        None
    } else if is_negative(word) {
        Some(WordMistake::Negative)
    } else if word.starts_with('@') {
        Some(WordMistake::Missing)
    } else {
        Some(of_c(word).unwrap_or(WordMistake::NoNumber))
    }
}

/// What is wrong with a word as a single cell.
fn single_shape(word: &str) -> Option<WordMistake> {
    if is_name(word) {
        None
    } else if begins_with_digit(word) {
        Some(WordMistake::NoName)
    } else if word.starts_with('@') {
        Some(WordMistake::Missing)
    } else {
        Some(of_letters(word, WordMistake::Cell))
    }
}

/// What is wrong with the index of a cell.
fn index_shape(index: &str, is_trace: bool) -> Option<WordMistake> {
    if begins_with_digit(index) || (is_name(index) && !is_trace) {
        None
    } else if is_negative(index) {
        Some(WordMistake::Negative)
    } else if is_trace {
        Some(WordMistake::NoNumber)
    } else {
        Some(WordMistake::Operand)
    }
}

/// The name of an array and the index, where a word has the shape of a cell of one.
pub(crate) fn element(word: &str) -> Option<(&str, &str)> {
    let (name, behind) = word.split_once('[')?;
    let index = behind.strip_suffix(']')?;
    if is_name(name) {
        Some((name, index))
    } else {
        None
    }
}

/// What is wrong with the shape of a word that is no cell of an array.
fn word_shape(wanted: Wanted, word: &str, version: Version) -> Option<WordMistake> {
    match wanted {
        Wanted::Fresh => match word.split_once('[') {
            Some((name, _)) if is_name(name) => Some(WordMistake::Array),
            _ => name_shape(word, WordMistake::NoName),
        },
        Wanted::Parameter | Wanted::Assigned if word == "ok" => Some(WordMistake::Ok),
        Wanted::Parameter | Wanted::Assigned | Wanted::Decider => {
            name_shape(word, WordMistake::NoRegister)
        }
        Wanted::Reducer | Wanted::Function => name_shape(word, WordMistake::NoName),
        Wanted::Operand => operand_shape(word),
        Wanted::Length | Wanted::Strand | Wanted::Value => number_shape(word),
        Wanted::Monoid if monoid_of(version, word).is_some() => None,
        Wanted::Monoid if word == "digits" => Some(WordMistake::Later),
        Wanted::Monoid => Some(WordMistake::NoMonoid),
        Wanted::Equals if word != "=" => Some(WordMistake::Equals),
        Wanted::Sign if !is_operator(word) => Some(WordMistake::Operator),
        Wanted::Mark if !word.starts_with('@') => Some(WordMistake::Extra),
        Wanted::Equals | Wanted::Sign | Wanted::Mark => None,
        Wanted::Cell | Wanted::TraceCell => single_shape(word),
    }
}

/// What is wrong with the shape of the word with this number on its line, and which part of it is wrong.
pub(crate) fn bad_shape(
    wanted: Wanted,
    word: &str,
    at: usize,
    version: Version,
) -> Option<(WordMistake, Part)> {
    let (found, part) = match (wanted, element(word)) {
        (Wanted::Cell, Some((_, index))) => (index_shape(index, false), Part::Index(at)),
        (Wanted::TraceCell, Some((_, index))) => (index_shape(index, true), Part::Index(at)),
        _ => (word_shape(wanted, word, version), Part::Word(at)),
    };
    Some((found?, part))
}
