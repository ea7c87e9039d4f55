//! A refusal with all that is kept of it.

ghost use Rattle.std.specs.Prelude.{◌≡◌};
ghost use Rattle.race_pairs.specs.Refusals.{line_in};
ghost use Rattle.race_pairs.specs.Sightings.{lines_in, sighting_of};

use crate::refusal::{Lines, Refusal, Side, named_by, refusal_of, side_of};
use race_gate::Entry;

/// A refusal with all that is kept of it.
#[derive(Clone, Copy)]
pub struct Sighting {
    pub lines: Lines,
    /// The number of its entry, from 1 on.
    pub number: usize,
    /// The refused access.
    pub refused: Side,
    /// The number of the entry of its witness, and 0 where there is none.
    pub witness_number: usize,
    /// The access of its witness.
    pub witness: Option<Side>,
    /// The number of the cell or of the reducer.
    pub place: u32,
}

/// The line of the entry with this number, from 1 on, by the lines of the entries, or 0 where there is none.
pub fn line_in(lines: &[u32], number: usize) -> u32
    ensures { result ≡ line_in lines.now number }
{
    if number == 0 {
        return 0;
    }
    lines.get(number - 1).copied().unwrap_or(0)
}

/// The two lines of a refusal.
fn lines_in(lines: &[u32], refusal: Refusal) -> Lines
    ensures { result ≡ lines_in lines.now refusal }
{
    Lines {
        reason: refusal.reason,
        line: refusal.line,
        witness_line: line_in(lines, refusal.witness),
    }
}

/// What is kept of the refusal that an entry tells, where it tells one. The lines are those of the entries up to it.
#[inline(always)]
pub fn sighting_of(entry: Entry, lines: &[u32]) -> Option<Sighting>
    ensures { result ≡ sighting_of entry lines.now }
{
    let refusal = refusal_of(entry)?;
    let refused = side_of(entry)?;
    Some(Sighting {
        lines: lines_in(lines, refusal),
        number: lines.len(),
        refused,
        witness_number: refusal.witness,
        witness: named_by(entry.answer),
        place: refusal.place,
    })
}
