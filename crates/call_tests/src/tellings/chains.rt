//! A worked history: where the strands of two entries part, and what encloses an entry. tests/explain-chains.t has others.

ghost use Rattle.std.specs.Prelude.{IfOk};
ghost use Rattle.race_pairs.specs.Lineages.{IsLineage};

use super::asked::{Deed, ask_gate};
use Act::{Bump, Call, Return, Spawn, Sync};
use race_gate::Gate;
use race_pairs::Lineage;
use std::alloc::{AllocError, Global};
use std::test::Fail;
use text_words::Act;

/// The number of a spawn's entry, the strand that came by its child, and the one that came by its next.
type Told = Option<(usize, u32, u32)>;

/// The numbers of two entries, and where their strands part.
type Parted = (usize, usize, Told);

/// The number of an entry, and the numbers of those that enclose what its strand does there.
type Enclosed<'a> = (usize, &'a [usize]);

const ADDS: Act = Bump(0, 1);

/// The lineage of a gate's entries.
fn lineage_of(alloc: Global, gate: &Gate<Global>) -> Result<Lineage, AllocError>
    ensures { IfOk result (λ lineage. IsLineage lineage gate.now.history) }
{
    let entries = gate.history();
    if entries.len() > 1_000_000 {
        return Err(AllocError);
    }
    Lineage::of(alloc, entries)
}

/// Whether the strands of the two entries part there.
fn part_at(
    gate: &Gate<Global>,
    lineage: &Lineage,
    first: usize,
    second: usize,
    wanted: Told,
) -> bool
    requires { IsLineage lineage.now gate.now.history }
{
    let entries = gate.history();
    if first == 0 || second == 0 || first > entries.len() || second > entries.len() {
        return false;
    }
    let strand = entries[first - 1].request.strand;
    let other = entries[second - 1].request.strand;
    let parting = lineage.parting(strand, other);
    match parting {
        Some(found) => wanted == Some((found.entry, found.by_child, found.by_next)),
        None => wanted.is_none(),
    }
}

/// Whether these entries enclose what the strand of the entry with this number does there.
fn enclose(
    alloc: Global,
    gate: &Gate<Global>,
    lineage: &Lineage,
    number: usize,
    wanted: &[usize],
) -> bool
    requires { IsLineage lineage.now gate.now.history }
{
    let entries = gate.history();
    if number == 0 || number > entries.len() {
        return false;
    }
    match lineage.chain(alloc, number, entries[number - 1].request.strand) {
        Ok(found) => found.as_slice() == wanted,
        Err(_) => false,
    }
}

/// In a spawned function two calls, in the inner one a spawn, whose child calls and returns; the join returns from both, with a call between.
const DEEDS: &[Deed] = &[
    (0, 1, Spawn),
    (1, 1, Call),
    (1, 1, Call),
    (1, 1, ADDS),
    (1, 1, Spawn),
    (4, 1, Call),
    (4, 1, ADDS),
    (4, 1, Return),
    (4, 1, ADDS),
    (5, 1, ADDS),
    (4, 1, Return),
    (5, 1, Sync),
    (6, 1, ADDS),
    (6, 1, Return),
    (6, 1, ADDS),
    (6, 1, Call),
    (6, 1, ADDS),
    (6, 1, Return),
    (6, 1, Return),
    (6, 1, ADDS),
    (2, 1, ADDS),
];

/// Two strands of the inner block, its join beside what goes on, and the join behind a strand of its block.
const PARTED: &[Parted] = &[
    (7, 10, Some((5, 4, 5))),
    (20, 21, Some((1, 6, 2))),
    (7, 20, None),
];

const ENCLOSED: &[Enclosed<'static>] = &[
    (2, &[1]),
    (3, &[2, 1]),
    (4, &[3, 2, 1]),
    (6, &[5, 3, 2, 1]),
    (7, &[6, 5, 3, 2, 1]),
    (9, &[5, 3, 2, 1]),
    (10, &[3, 2, 1]),
    (13, &[3, 2, 1]),
    (15, &[2, 1]),
    (17, &[16, 2, 1]),
    (19, &[2, 1]),
    (20, &[1]),
    (21, &[]),
];

#[test]
fn where_strands_part_and_what_encloses_them(rt: HostRuntime) -> Result<(), Fail> {
    let gate = ask_gate(&rt, rt.alloc(), 1, &[], DEEDS)?;
    let lineage = lineage_of(rt.alloc(), &gate)?;
    for (first, second, wanted) in PARTED {
        assert!(rt;
            part_at(&gate, &lineage, *first, *second, *wanted),
            "{first} and {second}"
        );
    }
    for (number, wanted) in ENCLOSED {
        assert!(rt;
            enclose(rt.alloc(), &gate, &lineage, *number, wanted),
            "{number}"
        );
    }
    Ok(())
}
