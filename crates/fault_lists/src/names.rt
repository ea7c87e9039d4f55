//! The names on a line.

ghost use Rattle.std.specs.Prelude.{◌≡◌, ◌<◌, ◌++◌, ◌∷◌, [], ℕ, List, IfOk, OnOk, map, length, position, cond};
ghost use Rattle.text_words.specs.Text.{is_name_byte};
ghost use Rattle.fault_lists.specs.LineNames.{is_between, begins_name, name_pieces, names_on, first_name, opening_on};
ghost use denote.Ref.{Bor};

use crate::opening::{Opening, opening_of};
use std::alloc::{AllocError, Global};
use text_words::without_comment;

fn is_name_byte(byte: u8) -> bool
    ensures { result ≡ is_name_byte byte }
{
    byte.is_ascii_lowercase() || byte.is_ascii_digit() || byte == b'_'
}

fn begins_name(piece: &[u8]) -> bool
    ensures { result ≡ begins_name piece.now }
{
    match piece {
        [first, ..] => first.is_ascii_lowercase(),
        [] => false,
    }
}

/// Whether a byte stands between names.
fn is_between(byte: u8) -> bool
    ensures { result ≡ is_between byte }
{
    !is_name_byte(byte)
}

/// Where the first piece ends.
fn piece_end(bytes: &[u8]) -> Option<usize>
    ensures { result ≡ position (λ byte. is_between byte) bytes.now }
{
    bytes.iter().position(|byte| is_between(*byte))
}

/// The first piece, and what is behind it.
fn split_piece(bytes: &[u8]) -> (&[u8], &[u8])
    requires { 0 < length bytes.now }
    ensures pieces { name_pieces bytes.now ≡ result.0.now ∷ name_pieces result.1.now }
    ensures shorter { length result.1.now < length bytes.now }
{
    match piece_end(bytes) {
        Some(end) => (&bytes[..end], &bytes[end + 1..]),
        None => (bytes, &bytes[bytes.len()..]),
    }
}

/// Adds a piece that is a name.
fn push_name<'a>(names: &mut Vec<&'a [u8]>, piece: &'a [u8]) -> Result<(), AllocError>
    ensures { OnOk result (map (λ (name : Bor (List ℕ)). name.now) names.new.items
        ≡ map (λ (name : Bor (List ℕ)). name.now) names.old.items ++ cond (begins_name piece.now) (piece.now ∷ []) []) }
{
    if begins_name(piece) {
        names.push(piece)?;
    }
    Ok(())
}

/// The names on a line, before its comment, whatever stands between them.
pub(crate) fn names_on(alloc: Global, line: &[u8]) -> Result<Vec<&[u8]>, AllocError>
    ensures { IfOk result (λ names. map (λ (name : Bor (List ℕ)). name.now) names.items ≡ names_on line.now) }
{
    let mut names = Vec::new(alloc);
    let mut rest = without_comment(line);
    while !rest.is_empty() {
        let (piece, behind) = split_piece(rest);
        push_name(&mut names, piece)?;
        rest = behind;
    }
    Ok(names)
}

/// The first of some names, and nothing where there is none.
fn first_name<'a>(names: &[&'a [u8]]) -> &'a [u8]
    ensures { result.now ≡ first_name (map (λ (name : Bor (List ℕ)). name.now) names.now) }
{
    match names {
        [first, ..] => first,
        [] => &[],
    }
}

/// What a line is with these names.
pub(crate) fn opening_with(names: &[&[u8]]) -> Opening
    ensures { (line : List ℕ) → map (λ (name : Bor (List ℕ)). name.now) names.now ≡ names_on line → result ≡ opening_on line }
{
    opening_of(first_name(names))
}

/// What a line is.
pub(crate) fn opening_on(alloc: Global, line: &[u8]) -> Result<Opening, AllocError>
    ensures { IfOk result (λ opening. opening ≡ opening_on line.now) }
{
    let names = names_on(alloc, line)?;
    Ok(opening_with(names.as_slice()))
}
