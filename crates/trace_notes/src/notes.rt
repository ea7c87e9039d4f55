//! The notes of texts that were read.

ghost use Rattle.std.specs.Prelude.{◌≡◌, ◌==◌, ◌∷◌, ◌++◌, [], ℕ, List, OnOk, map, string_bytes, cond, Some, None};
ghost use Rattle.std.specs.Option.{option_map, option_or};
ghost use Rattle.std.specs.Str.{bytes_eq};
ghost use Rattle.text_words.specs.Text.{lines};
ghost use Rattle.trace_notes.specs.Places.{place_parts};
ghost use Rattle.trace_notes.specs.Notes.{place_told, text_told, runs_told, place_in, text_in, memory_of, noted_place, noted_text, kept_runs, AreNotes, Adds};

use crate::line::{Note, is_comment, note_on};
use crate::place::{Place, split_place};
use std::alloc::{AllocError, Global};
use std::collections::BTreeMap;
use text_words::{split_line, without_return};

/// The notes of the texts that were read. They are copied, so the texts need not be kept.
pub struct Notes {
    alloc: Global,
    places: BTreeMap<u32, String>,
    cells: BTreeMap<String, String>,
    memories: BTreeMap<String, String>,
    runs: Vec<String>,
}

/// Written out, so that what lets it go calls one function.
impl Drop for Notes {
    fn drop(self) {
        let Notes {
            alloc: _,
            places: _,
            cells: _,
            memories: _,
            runs: _,
        } = self;
    }
}

/// Adds a text under a number, unless there is one.
fn add_first(
    alloc: Global,
    places: &mut BTreeMap<u32, String>,
    mark: u32,
    text: &str,
) -> Result<(), AllocError>
    ensures { OnOk result ((other : ℕ) → place_in places.new other ≡ option_or (place_in places.old other) (cond (mark == other) (Some text.now) None)) }
{
    if places.get(&mark).is_none() {
        places.insert(mark, String::from_str(alloc, text)?)?;
    }
    Ok(())
}

/// Adds a text under a name, unless there is one.
fn add_first_named(
    alloc: Global,
    texts: &mut BTreeMap<String, String>,
    name: &str,
    text: &str,
) -> Result<(), AllocError>
    ensures { OnOk result ((other : List ℕ) → text_in texts.new other ≡ option_or (text_in texts.old other) (cond (bytes_eq name.now other) (Some text.now) None)) }
{
    if texts.get(name).is_none() {
        let key = String::from_str(alloc, name)?;
        texts.insert(key, String::from_str(alloc, text)?)?;
    }
    Ok(())
}

/// Adds a text.
fn add_last(alloc: Global, texts: &mut Vec<String>, text: &str) -> Result<(), AllocError>
    ensures { OnOk result (map string_bytes texts.new.items ≡ map string_bytes texts.old.items ++ text.now ∷ []) }
{
    texts.push(String::from_str(alloc, text)?)?;
    Ok(())
}

/// The text under a name.
fn find_text<'b>(texts: &'b BTreeMap<String, String>, name: &str) -> Option<&'b str>
    ensures { option_map (λ text. text.now) result ≡ text_in texts.now name.now }
{
    match texts.get(name) {
        Some(text) => Some(text.as_str()),
        None => None,
    }
}

/// The name of the memory in that of a cell.
fn memory_of(cell: &str) -> &str
    ensures { result.now ≡ memory_of cell.now }
{
    match cell.split_once('[') {
        Some((name, _)) => name,
        None => cell,
    }
}

impl Notes {
    /// No notes yet.
    pub fn new(alloc: Global) -> Notes
        ensures { AreNotes [] result }
    {
        Notes {
            alloc,
            places: BTreeMap::new(alloc),
            cells: BTreeMap::new(alloc),
            memories: BTreeMap::new(alloc),
            runs: Vec::new(alloc),
        }
    }

    /// Adds what a line says.
    fn add_line(&mut self, line: &[u8]) -> Result<(), AllocError>
        ensures { OnOk result (Adds (line.now ∷ []) self.old self.new) }
    {
        match note_on(line) {
            Some(Note::Mark(mark, place)) => {
                add_first(self.alloc, &mut self.places, mark, place)
            }
            Some(Note::Cell(cell, text)) => {
                add_first_named(self.alloc, &mut self.cells, cell, text)
            }
            Some(Note::Memory(name, text)) => {
                add_first_named(self.alloc, &mut self.memories, name, text)
            }
            Some(Note::Run(text)) => add_last(self.alloc, &mut self.runs, text),
            None => Ok(()),
        }
    }

    fn add_lines(&mut self, text: &[u8]) -> Result<(), AllocError>
        ensures { OnOk result (Adds (lines text.now) self.old self.new) }
    {
        let mut rest = text;
        while !rest.is_empty() {
            let (line, behind) = split_line(rest);
            let line = without_return(line);
            if is_comment(line) {
                self.add_line(line)?;
            }
            rest = behind;
        }
        Ok(())
    }

    /// Reads the notes of a text, or of whole lines of one, behind those that were read. Errors where there is no memory; what is told
    /// then is not known.
    pub fn read(&mut self, text: &[u8]) -> Result<(), AllocError>
        ensures { (before : List (List ℕ)) → AreNotes before self.old → OnOk result (AreNotes (before ++ lines text.now) self.new) }
    {
        self.add_lines(text)
    }

    /// The place that a mark stands for, by the first note that speaks of it.
    pub fn place_of(&self, mark: u32) -> Option<Place<'_>>
        ensures noted { option_map place_parts result ≡ noted_place self.now mark }
        ensures told { (lines : List (List ℕ)) → AreNotes lines self.now → option_map place_parts result ≡ place_told lines mark }
    {
        match self.places.get(&mark) {
            Some(place) => split_place(place.as_str()),
            None => None,
        }
    }

    /// What a cell stands for, by its name: what the first note of that very cell says, or else the first of each cell of its memory.
    pub fn text_of(&self, cell: &str) -> Option<&str>
        ensures noted { option_map (λ text. text.now) result ≡ noted_text self.now cell.now }
        ensures told { (lines : List (List ℕ)) → AreNotes lines self.now → option_map (λ text. text.now) result ≡ text_told lines cell.now }
    {
        match find_text(&self.cells, cell) {
            Some(text) => Some(text),
            None => find_text(&self.memories, memory_of(cell)),
        }
    }

    /// What was recorded, in the order of the notes that say it.
    pub fn runs(&self) -> &[String]
        ensures noted { map string_bytes result.now ≡ kept_runs self.now }
        ensures told { (lines : List (List ℕ)) → AreNotes lines self.now → map string_bytes result.now ≡ runs_told lines }
    {
        self.runs.as_slice()
    }
}
