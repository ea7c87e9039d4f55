//! What one entry tells of a refusal.

ghost use Rattle.std.specs.Prelude.{◌≡◌};
ghost use Rattle.race_pairs.specs.Refusals.{reason_by, refusal_asked, refusal_told, side_of, named_by};

use access_table::asked_by;
use model_accesses::{Asked, Kind, Rule};
use race_gate::{Answer, Entry};

/// Why an access was refused.
#[derive(Clone, Copy, PartialEq, Eq)]
pub enum Reason {
    /// It races with an earlier access of a logically parallel strand.
    Race { earlier: Kind, refused: Kind },
    /// It and an earlier one read a reducer on strands that have different peers.
    ViewRead,
    /// It gets a reducer before any put.
    Unset,
}

/// The two lines that raced, and why.
#[derive(Clone, Copy, PartialEq, Eq)]
#[derive_where(Hash)]
pub struct Lines {
    #[derive_where(skip(Hash))]
    pub reason: Reason,
    /// The line of the refused access.
    pub line: u32,
    /// That of its witness, and 0 where there is none.
    pub witness_line: u32,
}

/// What a refused entry tells.
#[derive(Clone, Copy)]
pub struct Refusal {
    pub reason: Reason,
    /// Its line.
    pub line: u32,
    /// The number of the cell or of the reducer.
    pub place: u32,
    /// The number of the entry of its witness, and 0 where there is none.
    pub witness: usize,
}

/// An access that raced.
#[derive(Clone, Copy)]
pub struct Side {
    pub strand: u32,
    pub kind: Kind,
}

/// Why an access of the one kind was refused for an earlier one of the other, by the rule that was answered.
fn reason_by(rule: Rule, earlier: Kind, refused: Kind) -> Reason
    ensures { result ≡ reason_by rule earlier refused }
{
    match rule {
        Rule::View => Reason::ViewRead,
        _ => Reason::Race { earlier, refused },
    }
}

/// What an access on this line with this answer tells.
fn refusal_for(line: u32, answer: Answer, asked: Asked) -> Option<Refusal>
    ensures { result ≡ refusal_asked line answer asked }
{
    match answer {
        Answer::Refused { rule, witness } => Some(Refusal {
            reason: reason_by(rule, witness.kind, asked.kind),
            line,
            place: asked.place,
            witness: witness.entry as usize,
        }),
        Answer::Unset => Some(Refusal {
            reason: Reason::Unset,
            line,
            place: asked.place,
            witness: 0,
        }),
        _ => None,
    }
}

/// The refusal that an entry tells, or None where it is none.
pub fn refusal_of(entry: Entry) -> Option<Refusal>
    ensures { result ≡ refusal_told entry }
{
    let asked = asked_by(entry.request.act)?;
    refusal_for(entry.request.line, entry.answer, asked)
}

/// By which strand an entry's access is, and of which kind, where it is one.
pub(crate) fn side_of(entry: Entry) -> Option<Side>
    ensures { result ≡ side_of entry }
{
    let asked = asked_by(entry.request.act)?;
    Some(Side {
        strand: entry.request.strand,
        kind: asked.kind,
    })
}

/// The witness that an answer names.
pub(crate) fn named_by(answer: Answer) -> Option<Side>
    ensures { result ≡ named_by answer }
{
    match answer {
        Answer::Refused { witness, .. } => Some(Side {
            strand: witness.strand,
            kind: witness.kind,
        }),
        _ => None,
    }
}
