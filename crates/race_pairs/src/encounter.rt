//! How the strands of a refused access and its witness came about.

ghost use Rattle.std.specs.Prelude.{◌≡◌, List, map, reverse, unwrap_or, Some, IfOk};
ghost use Rattle.std.specs.Option.{option_map};
ghost use Rattle.model_histories.specs.declared.answer.Entry.{Entry};
ghost use Rattle.race_pairs.specs.Lineages.{IsSomeLineage};
ghost use Rattle.race_pairs.specs.Refusals.{access_at, IsSideAt};
ghost use Rattle.race_pairs.specs.Digests.{IsDigest};
ghost use Rattle.race_pairs.specs.Encounters.{chain_at, PartAt, GoesOn, IsOpenAt, way_at, link_at, IsLineageOf, IsEncounter, IsRaceOf, IsMet};

use crate::digest::Digest;
use crate::kept::Opener;
use crate::lineage::{Lineage, OpenSpawn, Parting};
use crate::onward::toward;
use crate::race::Race;
use crate::refusal::{Reason, Side};
use std::alloc::{AllocError, Global};

/// How a spawn or a call came to a function.
#[derive(Clone, Copy, PartialEq, Eq)]
pub enum Way {
    Spawned,
    Called,
}

/// A spawn or a call that encloses an access.
#[derive(Clone, Copy, PartialEq, Eq)]
pub struct Link {
    /// The number of its entry, from 1 on.
    pub entry: usize,
    pub way: Way,
}

/// How the strands of the first refused access of a pair and of its witness came about. Entries go by their numbers, from 1 on.
pub struct Encounter {
    /// The refused access.
    pub refused: Side,
    /// Its witness, where there is one.
    pub witness: Option<Side>,
    /// The spawns and calls that enclose the refused access, the innermost first.
    pub chain: Vec<Link>,
    /// Those that enclose its witness.
    pub witness_chain: Vec<Link>,
    /// The spawn at which the two strands part, where they are parallel.
    pub parting: Option<Parting>,
    /// Where there is one, the first spawn or call behind it that encloses the access which its next strand reaches, or this access. A
    /// sync in its place orders what the child leads to before what comes behind the sync.
    pub onward: Option<usize>,
    /// Of a view-read race a spawn that is outstanding at one of the two and not at the other.
    pub outstanding: Option<OpenSpawn>,
}

/// Written out, so that what lets it go calls one function.
impl Drop for Encounter {
    fn drop(self) {
        let Encounter {
            refused: _,
            witness: _,
            chain: _,
            witness_chain: _,
            parting: _,
            onward: _,
            outstanding: _,
        } = self;
    }
}

/// How a spawn or a call came to a function.
fn way_of(opener: Opener) -> Way
    ensures { result ≡ unwrap_or (option_map (λ spawned. Way.Spawned) opener.spawned) Way.Called }
{
    match opener.spawned {
        Some(_) => Way::Spawned,
        None => Way::Called,
    }
}

/// How the spawn or call with this number came to a function.
fn way_at(lineage: &Lineage, number: usize) -> Way
    requires { IsSomeLineage lineage.now }
    ensures { (told : List Entry) → IsLineageOf lineage.now told → result ≡ way_at told number }
{
    match lineage.opener(number) {
        Some(opener) => way_of(opener),
        None => Way::Called,
    }
}

/// Spawns and calls by their numbers.
fn links_at(alloc: Global, lineage: &Lineage, numbers: &[usize]) -> Result<Vec<Link>, AllocError>
    requires { IsSomeLineage lineage.now }
    ensures { IfOk result (λ links. (told : List Entry) → IsLineageOf lineage.now told → links.items ≡ map (link_at told) numbers.now) }
{
    let mut links = Vec::new(alloc);
    for number in numbers {
        links.push(Link {
            entry: *number,
            way: way_at(lineage, *number),
        })?;
    }
    Ok(links)
}

/// The numbers of the spawns and calls that enclose the access that the entry with this number is.
fn chain_at(
    alloc: Global,
    digest: &Digest,
    number: usize,
    side: Option<Side>,
) -> Result<Vec<usize>, AllocError>
    requires { (told : List Entry) × IsDigest told digest.now × IsSideAt told number side }
    ensures { IfOk result (λ chain. (told : List Entry) → IsDigest told digest.now → IsSideAt told number side → chain.items ≡ chain_at told number) }
{
    match side {
        Some(side) => digest.lineage.chain(alloc, number, side.strand),
        None => Ok(Vec::new(alloc)),
    }
}

/// The spawn at which the two strands part.
fn parting_of(digest: &Digest, race: &Race) -> Option<Parting>
    requires { (told : List Entry) × IsRaceOf told digest.now race.now }
    ensures { (told : List Entry) → IsRaceOf told digest.now race.now → PartAt told race.now.pair result }
{
    let witness = race.witness?;
    digest.lineage.parting(race.refused.strand, witness.strand)
}

/// Of a view-read race a spawn that is outstanding at one of the two strands.
fn outstanding_of(digest: &Digest, race: &Race) -> Option<OpenSpawn>
    requires { (told : List Entry) × IsRaceOf told digest.now race.now }
    ensures { (told : List Entry) → IsRaceOf told digest.now race.now → IsOpenAt told race.now.pair result }
{
    match race.pair.lines.reason {
        Reason::ViewRead => {
            let witness = race.witness?;
            digest
                .lineage
                .outstanding(witness.strand, race.refused.strand)
        }
        _ => None,
    }
}

/// Where the strand that goes on behind the spawn comes to.
fn onward_of(
    parting: Option<Parting>,
    race: &Race,
    chain: &[usize],
    witness_chain: &[usize],
) -> Option<usize>
    requires { (told : List Entry) × IsMet told race.now parting chain.now witness_chain.now }
    ensures { (told : List Entry) → IsMet told race.now parting chain.now witness_chain.now → GoesOn told race.now.pair parting result }
{
    let parting = parting?;
    if parting.by_next == race.refused.strand {
        return Some(toward(parting.entry, race.pair.first, chain));
    }
    Some(toward(parting.entry, race.pair.witness, witness_chain))
}

impl Encounter {
    /// Of one of the pairs of the lines that raced in a history, of which this is the digest. Errors where there is no memory.
    pub fn new(alloc: Global, digest: &Digest, race: &Race) -> Result<Encounter, AllocError>
        requires { (told : List Entry) × IsRaceOf told digest.now race.now }
        ensures { IfOk result (λ encounter. (told : List Entry) → IsRaceOf told digest.now race.now → IsEncounter told race.now.pair encounter) }
    {
        let parting = parting_of(digest, race);
        let outstanding = outstanding_of(digest, race);
        let chain = chain_at(alloc, digest, race.pair.first, Some(race.refused))?;
        let witness_chain = chain_at(alloc, digest, race.pair.witness, race.witness)?;
        let onward = onward_of(parting, race, &chain, &witness_chain);
        Ok(Encounter {
            refused: race.refused,
            witness: race.witness,
            chain: links_at(alloc, &digest.lineage, &chain)?,
            witness_chain: links_at(alloc, &digest.lineage, &witness_chain)?,
            parting,
            onward,
            outstanding,
        })
    }
}
