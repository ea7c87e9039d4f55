//! What may follow from an earlier fault, and behind which faults the rest of a text is in doubt.

ghost use Rattle.std.specs.Prelude.{◌≡◌, ℕ, List, IfOk, map, take, drop};
ghost use Rattle.std.specs.List.{list_any};
ghost use Rattle.std.specs.Str.{bytes_eq};
ghost use Rattle.text_words.specs.Text.{lines};
ghost use Rattle.fault_lists.specs.Doubts.{is_sort, count_of, structure_of, breaks_structure, is_of_text, is_doubtful};
ghost use Rattle.fault_lists.specs.Doubts.{lost_with, is_of_name, follows};
ghost use Rattle.fault_lists.specs.LineNames.{names_on};
ghost use denote.Ref.{Bor};

use crate::names::opening_on;
use crate::opening::Opening;
use source_quotes::Meant;
use std::alloc::{AllocError, Global};
use text_words::{Cause, split_line, without_return};

/// Lines that are counted.
#[derive(Clone, Copy)]
enum LineSort {
    /// They begin a function or an `if`.
    Beginning,
    /// They end one.
    Ending,
    /// They begin with a word that no line of a trace begins with.
    OfProgram,
}

/// How the lines of a text belong together.
#[derive(Clone, Copy)]
pub struct Structure {
    /// Whether as many lines begin a function or an `if` as end one.
    pub is_balanced: bool,
    /// Whether no line is one that only a program has.
    pub is_pure_trace: bool,
}

fn is_sort(sort: LineSort, opening: Opening) -> bool
    ensures { result ≡ is_sort sort opening }
{
    match sort {
        LineSort::Beginning => matches!(opening, Opening::Begins),
        LineSort::Ending => matches!(opening, Opening::Ends),
        LineSort::OfProgram => matches!(
            opening,
            Opening::Begins | Opening::Ends | Opening::Turns | Opening::Assigns
        ),
    }
}

/// How many lines of a text are of a sort.
fn count_of(alloc: Global, sort: LineSort, text: &[u8]) -> Result<usize, AllocError>
    ensures { IfOk result (λ count. count ≡ count_of sort (lines text.now)) }
{
    let mut count = 0;
    let mut rest = text;
    while !rest.is_empty() {
        let (line, behind) = split_line(rest);
        let opening = opening_on(alloc, without_return(line))?;
        count += usize::from(is_sort(sort, opening));
        rest = behind;
    }
    Ok(count)
}

/// The structure of a text.
pub(crate) fn structure_of(alloc: Global, text: &[u8]) -> Result<Structure, AllocError>
    ensures { IfOk result (λ structure. structure ≡ structure_of (lines text.now)) }
{
    let beginning = count_of(alloc, LineSort::Beginning, text)?;
    let ending = count_of(alloc, LineSort::Ending, text)?;
    let of_program = count_of(alloc, LineSort::OfProgram, text)?;
    Ok(Structure {
        is_balanced: beginning == ending,
        is_pure_trace: of_program == 0,
    })
}

fn breaks_structure(meant: Meant, structure: Structure, opening: Opening) -> bool
    ensures { result ≡ breaks_structure meant structure opening }
{
    match meant {
        Meant::Program => match opening {
            Opening::Begins | Opening::Ends | Opening::Turns => true,
            Opening::Other => !structure.is_balanced,
            Opening::Declares | Opening::Assigns | Opening::Gets | Opening::Acts => false,
        },
        Meant::Trace => !structure.is_pure_trace,
    }
}

fn is_of_text(why: Cause, opening: Opening) -> bool
    ensures { result ≡ is_of_text why opening }
{
    match why {
        Cause::BadHeader | Cause::NoMain | Cause::TooMany => true,
        Cause::BadNesting => !matches!(opening, Opening::Declares),
        Cause::NotText
        | Cause::BadWord
        | Cause::BadNumber
        | Cause::UnknownName
        | Cause::TwiceNamed => false,
    }
}

/// Whether all is in doubt behind a fault at this line.
pub(crate) fn is_doubtful(
    meant: Meant,
    structure: Structure,
    opening: Opening,
    number: u32,
    why: Cause,
) -> bool
    ensures { result ≡ is_doubtful meant structure opening number why }
{
    number == 1 || is_of_text(why, opening) || breaks_structure(meant, structure, opening)
}

/// All names but the first.
fn behind_first<'s, 'a>(names: &'s [&'a [u8]]) -> &'s [&'a [u8]]
    ensures { result.now ≡ drop 1 names.now }
{
    match names {
        [_, behind @ ..] => behind,
        [] => names,
    }
}

/// The first names, at most so many.
fn front_of<'s, 'a>(names: &'s [&'a [u8]], count: usize) -> &'s [&'a [u8]]
    ensures { result.now ≡ take count names.now }
{
    if count < names.len() {
        &names[..count]
    } else {
        names
    }
}

/// The names that are lost where a line with these names is left out.
pub(crate) fn find_lost_names<'s, 'a>(
    meant: Meant,
    opening: Opening,
    names: &'s [&'a [u8]],
) -> &'s [&'a [u8]]
    ensures { map (λ (name : Bor (List ℕ)). name.now) result.now ≡ lost_with meant opening (map (λ (name : Bor (List ℕ)). name.now) names.now) }
{
    match (meant, opening) {
        (_, Opening::Declares) => behind_first(names),
        (_, Opening::Other) => front_of(names, 2),
        (Meant::Program, Opening::Assigns | Opening::Gets) => front_of(behind_first(names), 1),
        _ => front_of(names, 0),
    }
}

/// Whether two names are the same.
fn is_same(name: &[u8], other: &[u8]) -> bool
    ensures { result ≡ bytes_eq name.now other.now }
{
    name == other
}

/// Whether a name is lost.
fn is_lost(lost: &[&[u8]], name: &[u8]) -> bool
    ensures { result ≡ list_any (λ (one : Bor (List ℕ)). bytes_eq name.now one.now) lost.now }
{
    lost.iter().any(|one| is_same(name, one))
}

/// Whether one of the names is lost.
fn are_lost(lost: &[&[u8]], names: &[&[u8]]) -> bool
    ensures { result ≡ list_any (λ (name : Bor (List ℕ)). list_any (λ (one : Bor (List ℕ)). bytes_eq name.now one.now) lost.now) names.now }
{
    names.iter().any(|name| is_lost(lost, name))
}

fn is_of_name(why: Cause) -> bool
    ensures { result ≡ is_of_name why }
{
    matches!(why, Cause::BadNumber | Cause::UnknownName)
}

/// Whether a fault on a line with these names may follow from the lines that were left out.
pub(crate) fn follows(lost: &[&[u8]], names: &[&[u8]], why: Cause) -> bool
    ensures { (line : List ℕ) → map (λ (name : Bor (List ℕ)). name.now) names.now ≡ names_on line →
        result ≡ follows (map (λ (one : Bor (List ℕ)). one.now) lost.now) line why }
{
    if is_of_name(why) {
        return are_lost(lost, names);
    }
    false
}
