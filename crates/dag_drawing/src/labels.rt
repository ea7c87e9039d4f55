//! What is written beside the strands and the races of a drawing.

ghost use Rattle.std.specs.Prelude.{◌≡◌, ◌++◌, ◌∷◌, ◌≤◌, ℕ, List, [], IfOk, OnOk, IsTrue, decimal, length, map, string_bytes, unwrap_or};
ghost use Rattle.std.specs.Option.{option_map};
ghost use Rattle.trace_text.specs.Shapes.{is_numbered};
ghost use Rattle.trace_notes.specs.Notes.{noted_text};
ghost use Rattle.trace_notes.specs.Places.{place_parts};
ghost use Rattle.dag_drawing.specs.Texts.{kind_text, outcome_text, rule_text, count_own};
ghost use Rattle.dag_drawing.specs.Labels.{naming_of, plain_name, place_of, site_text, access_line, first_place, function_text};
ghost use Rattle.dag_drawing.specs.Labels.{rest_lines, node_lines, race_label};

use crate::drawing::{Access, Race};
use access_table::{Kind, asked_by, rule_word, word};
use race_gate::Answer;
use std::alloc::{AllocError, Global};
use std::fmt::Write;
use text_words::{Act, Mem, Reducer};
use trace_notes::{Notes, Place};
use trace_text::{put_cell_name, reducer_name};

/// The most accesses of a strand that are told.
const MOST_TOLD: usize = 12;

/// What a drawing's cells, reducers and marks are told by.
#[derive(Drop)]
pub struct Names<'a> {
    /// The memories that the trace declares.
    pub mems: &'a [Mem],
    /// The reducers that it declares.
    pub reducers: &'a [Reducer],
    /// Its notes.
    pub notes: &'a Notes,
}

/// Adds the name that the trace declares for what an act accesses.
fn put_plain_name(name: &mut String, names: &Names<'_>, act: Act) -> Result<(), AllocError>
    requires numbered { IsTrue (is_numbered 0 names.now.mems.now) }
    ensures { OnOk result (string_bytes name.new ≡ string_bytes name.old ++ plain_name (naming_of names.now) act) }
{
    match act {
        Act::Read(location) | Act::Write(location, _) | Act::Bump(location, _) => {
            put_cell_name(name, names.mems, location)
        }
        Act::Update(reducer, _) | Act::Put(reducer, _) | Act::Get(reducer) => {
            name.push_str(reducer_name(names.reducers, reducer))
        }
        Act::Spawn | Act::Sync | Act::Call | Act::Return => Ok(()),
    }
}

/// The name that the trace declares for what an act accesses.
fn plain_name(alloc: Global, names: &Names<'_>, act: Act) -> Result<String, AllocError>
    requires numbered { IsTrue (is_numbered 0 names.now.mems.now) }
    ensures { IfOk result (λ name. string_bytes name ≡ plain_name (naming_of names.now) act) }
{
    let mut name = String::new(alloc);
    put_plain_name(&mut name, names, act)?;
    Ok(name)
}

/// What the notes say that a name stands for, or the name.
fn told_name<'a>(notes: &'a Notes, name: &'a str) -> &'a str
    ensures { result.now ≡ unwrap_or (noted_text notes.now name.now) name.now }
{
    match notes.text_of(name) {
        Some(text) => text,
        None => name,
    }
}

/// What is said of an access that was not done.
fn outcome(answer: Answer) -> &'static str
    ensures { result.now ≡ outcome_text answer }
{
    match answer {
        Answer::Refused { .. } => " refused",
        Answer::Unset => " unset",
        _ => "",
    }
}

/// The word of an access.
fn kind_of_act(act: Act) -> &'static str
    ensures { result.now ≡ kind_text act }
{
    match asked_by(act) {
        Some(asked) => word(asked.kind),
        None => "",
    }
}

/// The place of an access in a program's source.
fn place_of<'a>(names: &Names<'a>, access: &Access) -> Option<Place<'a>>
    ensures { option_map place_parts result ≡ place_of (naming_of names.now) access.now }
{
    names.notes.place_of(access.request.line)
}

/// Adds the place of an access, or the number of its entry.
fn put_site(line: &mut String, names: &Names<'_>, access: &Access) -> Result<(), AllocError>
    ensures { OnOk result (string_bytes line.new ≡ string_bytes line.old ++ site_text (place_of (naming_of names.now) access.now) access.now.entry) }
{
    match place_of(names, access) {
        Some(place) => line.push_str(place.location),
        None => {
            let entry = access.entry;
            write!(line, "{entry}")
        }
    }
}

/// Adds the line of an access, of what has this name.
fn put_access(
    line: &mut String,
    names: &Names<'_>,
    access: &Access,
    name: &str,
) -> Result<(), AllocError>
    requires { name.now ≡ plain_name (naming_of names.now) access.now.request.act }
    ensures { OnOk result (string_bytes line.new ≡ string_bytes line.old ++ access_line (naming_of names.now) access.now) }
{
    put_site(line, names, access)?;
    let kind = kind_of_act(access.request.act);
    let told = told_name(names.notes, name);
    let outcome = outcome(access.answer);
    write!(line, " {kind} {told}{outcome}")
}

/// The line of an access.
fn access_line(alloc: Global, names: &Names<'_>, access: &Access) -> Result<String, AllocError>
    requires numbered { IsTrue (is_numbered 0 names.now.mems.now) }
    ensures { IfOk result (λ line. string_bytes line ≡ access_line (naming_of names.now) access.now) }
{
    let name = plain_name(alloc, names, access.request.act)?;
    let mut line = String::new(alloc);
    put_access(&mut line, names, access, name.as_str())?;
    Ok(line)
}

/// The place of the first access that has one.
fn first_place<'a>(names: &Names<'a>, own: &[Access]) -> Option<Place<'a>>
    ensures { option_map place_parts result ≡ first_place (naming_of names.now) own.now }
{
    for access in own {
        if let Some(place) = place_of(names, access) {
            return Some(place);
        }
    }
    None
}

/// The first line of a strand whose first place is this.
fn line_at(alloc: Global, strand: usize, place: Option<Place<'_>>) -> Result<String, AllocError>
    ensures { IfOk result (λ line. string_bytes line ≡ decimal strand ++ function_text (option_map place_parts place.entry)) }
{
    match place {
        Some(
            Place {
                function: Some(function),
                ..
            },
        ) => format!(in alloc; "{strand} in {function}"),
        _ => format!(in alloc; "{strand}"),
    }
}

/// Adds a line that was made, where there was memory for it.
fn add_line(lines: &mut Vec<String>, made: Result<String, AllocError>) -> Result<(), AllocError>
    ensures { (line : List ℕ) → IfOk made (λ text. string_bytes text ≡ line) →
        OnOk result (map string_bytes lines.new.items ≡ map string_bytes lines.old.items ++ line ∷ []) }
{
    lines.push(made?)?;
    Ok(())
}

/// Adds the lines of accesses.
fn add_accesses(
    alloc: Global,
    lines: &mut Vec<String>,
    names: &Names<'_>,
    told: &[Access],
) -> Result<(), AllocError>
    requires numbered { IsTrue (is_numbered 0 names.now.mems.now) }
    ensures { OnOk result (map string_bytes lines.new.items ≡ map string_bytes lines.old.items ++ map (access_line (naming_of names.now)) told.now) }
{
    for access in told {
        add_line(lines, access_line(alloc, names, access))?;
    }
    Ok(())
}

/// Adds how many accesses are not told.
fn add_rest(alloc: Global, lines: &mut Vec<String>, count: usize) -> Result<(), AllocError>
    ensures { OnOk result (map string_bytes lines.new.items ≡ map string_bytes lines.old.items ++ rest_lines count) }
{
    if count > MOST_TOLD {
        let rest = count - MOST_TOLD;
        add_line(lines, format!(in alloc; "and {rest} more"))
    } else {
        Ok(())
    }
}

/// Adds the lines of a strand with its accesses.
fn add_lines(
    alloc: Global,
    lines: &mut Vec<String>,
    names: &Names<'_>,
    strand: usize,
    own: &[Access],
) -> Result<(), AllocError>
    requires numbered { IsTrue (is_numbered 0 names.now.mems.now) }
    ensures { OnOk result (map string_bytes lines.new.items ≡ map string_bytes lines.old.items ++ node_lines (naming_of names.now) strand own.now) }
{
    let place = first_place(names, own);
    add_line(lines, line_at(alloc, strand, place))?;
    let (told, _) = own.split_at(MOST_TOLD.min(own.len()));
    add_accesses(alloc, lines, names, told)?;
    add_rest(alloc, lines, own.len())
}

/// The lines of a strand with its accesses.
pub fn node_lines(
    alloc: Global,
    names: &Names<'_>,
    strand: usize,
    own: &[Access],
) -> Result<Vec<String>, AllocError>
    requires numbered { IsTrue (is_numbered 0 names.now.mems.now) }
    ensures { IfOk result (λ lines. map string_bytes lines.items ≡ node_lines (naming_of names.now) strand own.now) }
{
    let mut lines = Vec::new(alloc);
    add_lines(alloc, &mut lines, names, strand, own)?;
    Ok(lines)
}

/// The word of the rule that an act and an earlier access come under.
fn rule_of(act: Act, earlier: Kind) -> &'static str
    ensures { result.now ≡ rule_text act earlier }
{
    match asked_by(act) {
        Some(asked) => match rule_word(earlier, asked.kind) {
            Some(word) => word,
            None => "",
        },
        None => "",
    }
}

/// What is written beside a race about what has this name.
fn label_of(alloc: Global, names: &Names<'_>, race: &Race, name: &str) -> Result<String, AllocError>
    requires { name.now ≡ plain_name (naming_of names.now) race.now.request.act }
    ensures { IfOk result (λ label. string_bytes label ≡ race_label (naming_of names.now) race.now) }
{
    let rule = rule_of(race.request.act, race.witness.kind);
    let told = told_name(names.notes, name);
    format!(in alloc; "{rule} on {told}")
}

/// What is written beside a race.
pub fn race_label(alloc: Global, names: &Names<'_>, race: &Race) -> Result<String, AllocError>
    requires numbered { IsTrue (is_numbered 0 names.now.mems.now) }
    ensures { IfOk result (λ label. string_bytes label ≡ race_label (naming_of names.now) race.now) }
{
    let name = plain_name(alloc, names, race.request.act)?;
    label_of(alloc, names, race, name.as_str())
}

/// How many of the accesses at the head of a slice are the strand's.
pub fn own_of(strand: usize, accesses: &[Access]) -> usize
    ensures value { result ≡ count_own strand accesses.now }
    ensures bound { result ≤ length accesses.now }
{
    for (before, access) in accesses.iter().enumerate() {
        if access.request.strand as usize != strand {
            return before;
        }
    }
    accesses.len()
}
