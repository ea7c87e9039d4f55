//! Worked histories: which entries raced, and which spawn is outstanding. tests/explain-pairs.t has others.

ghost use Rattle.std.specs.Prelude.{List, IfOk};
ghost use Rattle.model_histories.specs.declared.answer.Entry.{Entry};
ghost use Rattle.race_pairs.specs.Digests.{IsDigest};

use super::asked::{Deed, ask_gate};
use crate::checks::equal;
use Act::{Get, Put, Read, Spawn, Write};
use model_accesses::Kind;
use race_gate::Gate;
use race_pairs::{Digest, Encounter, Lines, Link, PAIRS, Pair, Race, Reason, line_in};
use std::alloc::{AllocError, Global};
use std::test::Fail;
use text_words::{Act, Monoid};

const WRITES: Reason = Reason::Race {
    earlier: Kind::Write,
    refused: Kind::Write,
};

/// A pair of lines: what they raced by, the line refused and that of its witness, that of the spawn at which the strands part, the first
/// refusal and its witness, and how often.
macro_rules! pair {
    ($reason:expr, ($line:literal, $witness_line:literal), $spawn:expr, ($first:literal, $witness:literal), $times:literal) => {
        Pair {
            lines: Lines {
                reason: $reason,
                line: $line,
                witness_line: $witness_line,
            },
            spawn: $spawn,
            first: $first,
            witness: $witness,
            times: $times,
        }
    };
}

/// The digest of the gate's history.
fn digest_of(alloc: Global, gate: &Gate<Global>) -> Result<Digest, AllocError>
    ensures { IfOk result (λ digest. (entries : List Entry) × IsDigest entries digest) }
{
    let entries = gate.history();
    if entries.len() > 1_000_000 {
        return Err(AllocError);
    }
    Digest::of(alloc, entries, PAIRS)
}

/// Whether the races of a digest are of these pairs.
fn has_pairs(races: &[Race], wanted: &[Pair]) -> bool {
    if races.len() != wanted.len() {
        return false;
    }
    for (place, race) in races.iter().enumerate() {
        if race.pair != wanted[place] {
            return false;
        }
    }
    true
}

/// A spawn that is outstanding at one of two accesses: the number of its entry, the spawner, the other strand that it made, and which of
/// the two strands that one is parallel to and which not.
type Open = (usize, u32, u32, u32, u32);

/// Whether the two strands do not part, nothing encloses them, and this spawn is outstanding.
fn is_open(met: &Encounter, open: &Open) -> bool {
    let Some(found) = met.outstanding else {
        return false;
    };
    met.parting.is_none()
        && met.onward.is_none()
        && met.chain.is_empty()
        && met.witness_chain.is_empty()
        && found.entry == open.0
        && found.spawner == open.1
        && (found.peer, found.parallel, found.ordered) == (open.2, open.3, open.4)
}

/// What is told of a pair.
enum Told<'a> {
    Nothing,
    /// The cells on which it raced.
    Places(&'a [u32]),
    /// The spawn that is outstanding at one of its strands, which do not part and which nothing encloses.
    Outstanding(Open),
}

/// Whether this is told of the last race of a digest.
fn is_told(alloc: Global, digest: &Digest, told: &Told<'_>) -> bool
    requires { (entries : List Entry) × IsDigest entries digest.now }
{
    let Some(race) = digest.races().last() else {
        return matches!(told, Told::Nothing);
    };
    match told {
        Told::Nothing => true,
        Told::Places(cells) => race.places.as_slice() == *cells,
        Told::Outstanding(open) => match Encounter::new(alloc, digest, race) {
            Ok(met) => is_open(&met, open),
            Err(_) => false,
        },
    }
}

/// Whether a digest has lines with these numbers, and no others. Before the first and behind the last there is none.
fn has_lines(digest: &Digest, lines: &[u32]) -> bool {
    for (place, line) in lines.iter().enumerate() {
        if line_in(digest.lines.as_slice(), place.wrapping_add(1)) != *line {
            return false;
        }
    }
    digest.lines.as_slice() == lines
        && line_in(digest.lines.as_slice(), 0) == 0
        && line_in(digest.lines.as_slice(), lines.len().wrapping_add(1)) == 0
}

/// What a gate is asked for, and what is found in its history.
struct Case {
    deeds: &'static [Deed],
    lines: &'static [u32],
    refusals: usize,
    pairs: &'static [Pair],
    /// What is told of the last pair.
    told: Told<'static>,
}

const READ_BEHIND_WRITE: Reason = Reason::Race {
    earlier: Kind::Write,
    refused: Kind::Read,
};

const CASES: &[Case] = &[
    // Nothing is refused.
    Case {
        deeds: &[(0, 3, Spawn), (2, 8, Write(0, 1))],
        lines: &[3, 8],
        refusals: 0,
        pairs: &[],
        told: Told::Nothing,
    },
    // Three pairs of lines, one of them twice: they come in the order of their first refusals, and a read is told apart from a write.
    Case {
        deeds: &[
            (0, 1, Spawn),
            (1, 5, Write(0, 1)),
            (1, 6, Write(1, 1)),
            (2, 7, Write(0, 2)),
            (2, 7, Write(1, 2)),
            (2, 7, Write(0, 3)),
            (2, 8, Read(0)),
        ],
        lines: &[1, 5, 6, 7, 7, 7, 8],
        refusals: 4,
        pairs: &[
            pair!(WRITES, (7, 5), Some(1), (4, 2), 2),
            pair!(WRITES, (7, 6), Some(1), (5, 3), 1),
            pair!(READ_BEHIND_WRITE, (8, 5), Some(1), (7, 2), 1),
        ],
        told: Told::Nothing,
    },
    // One pair on two cells, of which the second raced first and twice.
    Case {
        deeds: &[
            (0, 1, Spawn),
            (1, 5, Write(0, 1)),
            (1, 5, Write(1, 1)),
            (2, 7, Write(1, 2)),
            (2, 7, Write(0, 2)),
            (2, 7, Write(1, 3)),
        ],
        lines: &[1, 5, 5, 7, 7, 7],
        refusals: 3,
        pairs: &[pair!(WRITES, (7, 5), Some(1), (4, 3), 3)],
        told: Told::Places(&[1, 0]),
    },
    // A get before any put, and a get behind a spawn that is outstanding. All is done by the root function, which nothing encloses.
    Case {
        deeds: &[
            (0, 1, Get(0)),
            (0, 2, Put(0, 5)),
            (0, 3, Spawn),
            (2, 4, Get(0)),
        ],
        lines: &[1, 2, 3, 4],
        refusals: 2,
        pairs: &[
            pair!(Reason::Unset, (1, 0), None, (1, 0), 1),
            pair!(Reason::ViewRead, (4, 2), None, (4, 2), 1),
        ],
        told: Told::Outstanding((3, 0, 1, 2, 0)),
    },
];

/// What is found in the history of a gate that is asked for the acts of each case.
#[test]
fn lines_that_raced(rt: HostRuntime) -> Result<(), Fail> {
    for (place, case) in CASES.iter().enumerate() {
        let gate = ask_gate(&rt, rt.alloc(), 2, &[Monoid::Sum], case.deeds)?;
        let digest = digest_of(rt.alloc(), &gate)?;
        let found = (digest.refusals, digest.pair_count());
        equal(&rt, &place, &found, &(case.refusals, case.pairs.len()));
        assert!(rt; has_lines(&digest, case.lines), "case {place}");
        assert!(rt; has_pairs(digest.races(), case.pairs), "case {place}");
        assert!(rt; is_told(rt.alloc(), &digest, &case.told), "case {place}");
    }
    Ok(())
}
