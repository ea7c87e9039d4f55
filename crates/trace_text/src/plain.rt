//! Requests in plain form, read by bytes: single spaces between words, no leading zeros, no comment, and a line feed at the end.
//!
//! None says nothing here: the line may still be a request, and is read in the general way.

ghost use Rattle.std.specs.Prelude.{◌≡◌, ◌⊎◌, ◌++◌, ◌+◌, ◌≤◌, [], Some, true, get_or, length};
ghost use Rattle.std.specs.Option.{IfSome};
ghost use Rattle.model_accesses.specs.Limits.{most_cells};
ghost use Rattle.text_words.specs.Values.{Known};
ghost use Rattle.trace_text.specs.Lines.{Cell, ReducerName, Mark, a_strand, a_value, OfNumber, if_there};
ghost use Rattle.trace_text.specs.Plain.{HasNumber, HasNext, HasIndex, HasEnd, HasValue};
ghost use Rattle.trace_text.specs.Items.{place_of};

use crate::place::STRAND;
use access_table::{Kind, is_memory};
use std::alloc::Allocator;
use text_words::{Named, Names};

/// What stands behind the word, where the text begins with it.
#[inline(always)]
pub fn behind_word<'b>(word: &[u8], text: &'b [u8]) -> Option<&'b [u8]>
    ensures { IfSome result (λ rest. text.now ≡ word.now ++ rest.now) }
{
    if text.len() < word.len() {
        return None;
    }
    let mut length = 0;
    while length < word.len() {
        if text[length] != word[length] {
            return None;
        }
        length += 1;
    }
    let (_, rest) = text.split_at(length);
    Some(rest)
}

/// The value of a digit, and more than 9 of any other byte.
#[inline(always)]
fn digit_of(byte: u8) -> u64
    ensures { result ≤ 9 → result + 48 ≡ byte }
{
    u64::from(byte).wrapping_sub(48)
}

/// So many digits are a number of 64 bits, whichever they are.
const DIGITS: usize = 19;

/// Whether so many digits at the head of the bytes begin with a zero that they need not have.
#[inline(always)]
fn is_padded(bytes: &[u8], count: usize) -> bool
    requires { count ≤ length bytes.now }
    ensures { (result ≡ true) ⊎ (get_or bytes.now 0 0 ≡ 48 → count ≤ 1) }
{
    count > 1 && bytes[0] == b'0'
}

/// The number that digits among the first `most` bytes stand for, without leading zeros, and what stands behind these digits.
#[inline(always)]
fn number_within(bytes: &[u8], most: usize) -> Option<(u64, &[u8])>
    requires within { most ≤ length bytes.now }
    requires few { most ≤ 19 }
    ensures { IfSome result (λ r. HasNumber bytes.now r.0 r.1.now) }
{
    let mut value: u64 = 0;
    let mut length = 0;
    while length < most {
        let digit = digit_of(bytes[length]);
        if digit > 9 {
            break;
        }
        value = value * 10 + digit;
        length += 1;
    }
    if length == 0 || is_padded(bytes, length) {
        return None;
    }
    let (_, rest) = bytes.split_at(length);
    Some((value, rest))
}

/// The number of at most 19 digits at the head of the bytes, and what stands behind it.
#[inline(always)]
fn head_number(bytes: &[u8]) -> Option<(u64, &[u8])>
    ensures { IfSome result (λ r. HasNumber bytes.now r.0 r.1.now) }
{
    // Of so many bytes no length is asked digit by digit, which makes the loop a straight line.
    if bytes.len() >= DIGITS {
        number_within(bytes, DIGITS)
    } else {
        number_within(bytes, bytes.len())
    }
}

/// The strand behind a space.
#[inline(always)]
pub fn strand(bytes: &[u8]) -> Option<(u32, &[u8])>
    ensures { (known : Known) → IfSome result (λ r. HasNext known a_strand bytes.now (OfNumber r.0) r.1.now) }
{
    let [b' ', digits @ ..] = bytes else {
        return None;
    };
    match head_number(digits) {
        Some((number, rest)) if number <= STRAND => Some((number as u32, rest)),
        _ => None,
    }
}

/// The value behind a space.
#[inline(always)]
fn value(bytes: &[u8]) -> Option<(u64, &[u8])>
    ensures { (known : Known) → IfSome result (λ r. HasNext known a_value bytes.now (OfNumber r.0) r.1.now) }
{
    let [b' ', digits @ ..] = bytes else {
        return None;
    };
    let Some((value, rest)) = head_number(digits) else {
        return None;
    };
    Some((value, rest))
}

/// The mark behind a space, and the line feed. Few lines have one, and the code of those that have none stays small.
#[inline(never)]
fn take_mark(bytes: &[u8]) -> Option<(u32, &[u8])>
    ensures { (known : Known) → IfSome result (λ r. HasEnd known [] (Some Mark) bytes.now (if_there (Some r.0)) r.1.now) }
{
    let [b' ', b'@', digits @ ..] = bytes else {
        return None;
    };
    match head_number(digits) {
        Some((line, [b'\n', rest @ ..])) if 1 <= line && line <= STRAND => {
            Some((line as u32, rest))
        }
        _ => None,
    }
}

/// The mark behind a space, if there is one, and the line feed.
#[inline(always)]
pub fn mark(bytes: &[u8]) -> Option<(Option<u32>, &[u8])>
    ensures { (known : Known) → IfSome result (λ r. HasEnd known [] (Some Mark) bytes.now (if_there r.0) r.1.now) }
{
    if let [b'\n', rest @ ..] = bytes {
        return Some((None, rest));
    }
    let Some((line, rest)) = take_mark(bytes) else {
        return None;
    };
    Some((Some(line), rest))
}

/// What stands before the first space, bracket or line feed, and the rest. It need not be a name.
#[inline(always)]
fn head_word(bytes: &[u8]) -> (&[u8], &[u8])
    ensures { bytes.now ≡ result.0.now ++ result.1.now }
{
    let mut length = 0;
    while length < bytes.len() && bytes[length] > b' ' && bytes[length] != b'[' {
        length += 1;
    }
    bytes.split_at(length)
}

/// The cell of an array whose index stands in brackets at the head of the bytes.
#[inline(always)]
fn element(first: u32, cells: u32, bytes: &[u8]) -> Option<(u32, &[u8])>
    requires { first + cells ≤ most_cells }
    ensures { IfSome result (λ r. HasIndex bytes.now first cells r.0 r.1.now) }
{
    let [b'[', digits @ ..] = bytes else {
        return None;
    };
    match head_number(digits) {
        Some((index, [b']', rest @ ..])) if index < u64::from(cells) => {
            Some((first + index as u32, rest))
        }
        _ => None,
    }
}

/// The cell behind a space.
#[inline(always)]
fn cell<'b, A: Allocator + Copy>(names: &Names<'_, A>, bytes: &'b [u8]) -> Option<(u32, &'b [u8])>
    ensures { IfSome result (λ r. HasNext names.now Cell bytes.now (OfNumber r.0) r.1.now) }
{
    let [b' ', behind @ ..] = bytes else {
        return None;
    };
    let (name, rest) = head_word(behind);
    match names.find_bytes(name) {
        Some(Named::Single(cell)) => Some((cell, rest)),
        Some(Named::Array { first, cells }) => element(first, cells, rest),
        _ => None,
    }
}

/// The reducer behind a space.
#[inline(always)]
fn reducer<'b, A: Allocator + Copy>(
    names: &Names<'_, A>,
    bytes: &'b [u8],
) -> Option<(u32, &'b [u8])>
    ensures { IfSome result (λ r. HasNext names.now ReducerName bytes.now (OfNumber r.0) r.1.now) }
{
    let [b' ', behind @ ..] = bytes else {
        return None;
    };
    let (name, rest) = head_word(behind);
    match names.find_bytes(name) {
        Some(Named::Reducer(reducer)) => Some((reducer, rest)),
        _ => None,
    }
}

/// The cell or the reducer that an access of this kind is of, behind a space.
#[inline(always)]
pub fn place<'b, A: Allocator + Copy>(
    kind: Kind,
    names: &Names<'_, A>,
    bytes: &'b [u8],
) -> Option<(u32, &'b [u8])>
    ensures { IfSome result (λ r. HasNext names.now (place_of kind) bytes.now (OfNumber r.0) r.1.now) }
{
    if is_memory(kind) {
        cell(names, bytes)
    } else {
        reducer(names, bytes)
    }
}

/// The value of an access of this kind, behind a space. Where the kind has none it is 0, and stands nowhere.
#[inline(always)]
pub fn value_for(kind: Kind, bytes: &[u8]) -> Option<(u64, &[u8])>
    ensures { (known : Known) → IfSome result (λ r. HasValue known kind bytes.now r.0 r.1.now) }
{
    match kind {
        Kind::Read | Kind::Get => Some((0, bytes)),
        Kind::Write | Kind::Bump | Kind::Update | Kind::Put => value(bytes),
    }
}
