//! What races are told from.

ghost use Rattle.std.specs.Prelude.{IsTrue};
ghost use Rattle.trace_text.specs.Shapes.{is_numbered};

use program_text::Program;
use race_pairs::Digest;
use source_quotes::{Look, Source};
use std::alloc::Global;
use text_words::{Mem, Reducer};
use trace_notes::Notes;

/// Where the lines of requests stand.
#[derive(Drop)]
pub enum Origin<'s, 'a> {
    /// In the text of a program.
    Program {
        /// The name of the program's file.
        file: &'s str,
        /// The lines of its text.
        source: &'s Source<'a>,
        /// The program.
        program: &'s Program<Global>,
    },
    /// Where the notes of a trace say.
    Trace {
        /// The notes of its texts.
        notes: &'s Notes,
    },
}

/// What races are told from: where lines stand, the memories and reducers that are named, and what is kept of the entries of a run.
#[derive(Drop)]
pub struct Scene<'s, 'a> {
    /// How quotes look.
    pub look: Look,
    /// Where the lines of requests stand.
    pub origin: Origin<'s, 'a>,
    /// The memories that are declared.
    pub mems: &'s [Mem],
    /// The reducers that are declared.
    pub reducers: &'s [Reducer],
    /// What is kept of the entries of the run.
    pub digest: &'s Digest,
    ghost numbered: { IsTrue (is_numbered 0 mems.now) },
}
