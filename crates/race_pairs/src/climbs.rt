//! Climbing from strands to what made them.

ghost use Rattle.std.specs.Prelude.{◌≡◌, ◌⊎◌, ◌<◌, ◌≤◌, ℕ, IfSome, MatchOption};
ghost use Rattle.model_strands.specs.Strands.{Begun};
ghost use Rattle.model_strands.specs.Addresses.{address};
ghost use Rattle.model_histories.specs.Entries.{Entries, control_part};
ghost use Rattle.law_addresses.specs.Address.{IsPrefix};
ghost use Rattle.race_pairs.specs.Makers.{IsSpawn, maker};
ghost use Rattle.race_pairs.specs.Climbs.{Climbs, AreKnown, AreMet, AreBelow, IsFurther, AreRisen, IsAbove, AreApart, AreAbove, IsMade, IsOnWay};
ghost use Rattle.race_pairs.specs.Lineages.{AreMade, AreWays};
ghost use Rattle.race_pairs.specs.OpenSpawns.{IsNeither, IsOpposite, IsOutstanding};

use crate::kept::{Frame, Jump, Strand};
use crate::lineage::OpenSpawn;
use model_strands::Spawned;

/// The number of the entry that made a strand, and 0 for strand 0.
fn maker_of(opened: &[Frame], strands: &[Strand], strand: u32) -> usize
    requires { AreKnown opened.now strands.now strand strand }
    ensures { (entries : Entries) → AreMade opened.now strands.now entries → result ≡ maker entries strand }
{
    let maker = strands[strand as usize].maker;
    if maker == 0 {
        return 0;
    }
    opened[maker as usize - 1].opener.number as usize
}

/// The strand that spawned where this one was made, and what it began.
pub(crate) fn spawn_of(opened: &[Frame], strands: &[Strand], strand: u32) -> (u32, Spawned)
    requires { IsMade opened.now strands.now strand }
    ensures { (entries : Entries) → AreMade opened.now strands.now entries → IsSpawn entries (maker entries strand) result.0 result.1 }
{
    let maker = strands[strand as usize].maker;
    let opener = opened[maker as usize - 1].opener;
    match opener.spawned {
        Some(spawned) => (opener.strand, spawned),
        None => unreachable!(),
    }
}

/// A strand on the way up from a strand that stands below a depth, which does not stand above that depth: the furthest that one step leads to.
fn step_up(opened: &[Frame], strands: &[Strand], jumps: &[Jump], strand: u32, depth: u32) -> u32
    requires { (entries : Entries) × AreBelow opened.now strands.now jumps.now entries strand depth }
    ensures { (entries : Entries) → AreBelow opened.now strands.now jumps.now entries strand depth → IsFurther entries strand depth result }
{
    let to = jumps[strand as usize].to;
    let above = jumps[to as usize].depth;
    if above >= depth {
        return to;
    }
    let (spawner, _) = spawn_of(opened, strands, strand);
    spawner
}

/// The strand at a depth on the way up from a strand that stands no higher.
fn rise_to(opened: &[Frame], strands: &[Strand], jumps: &[Jump], strand: u32, depth: u32) -> u32
    requires { (entries : Entries) × AreRisen opened.now strands.now jumps.now entries strand depth }
    ensures { (entries : Entries) → AreRisen opened.now strands.now jumps.now entries strand depth → IsAbove entries strand depth result }
{
    let mut here = strand;
    'rise: while jumps[here as usize].depth > depth {
        here = step_up(opened, strands, jumps, here, depth);
    }
    here
}

/// Two strands further up from two strands at one depth that no one spawn made. Those two stand at one depth too, and differ.
fn step_both(opened: &[Frame], strands: &[Strand], jumps: &[Jump], one: u32, two: u32) -> (u32, u32)
    requires { (entries : Entries) × AreApart opened.now strands.now jumps.now entries one two }
    ensures { (entries : Entries) → AreApart opened.now strands.now jumps.now entries one two → AreAbove entries one two result.0 result.1 }
{
    let left = jumps[one as usize].to;
    let right = jumps[two as usize].to;
    if left != right {
        let height = jumps[left as usize].depth;
        if height == jumps[right as usize].depth {
            return (left, right);
        }
    }
    let (spawner, _) = spawn_of(opened, strands, one);
    let (other, _) = spawn_of(opened, strands, two);
    (spawner, other)
}

/// The lesser of two numbers.
fn lesser(one: u32, other: u32) -> u32
    ensures one { result ≤ one }
    ensures other { result ≤ other }
    ensures is { (result ≡ one) ⊎ (result ≡ other) }
{
    if one < other { one } else { other }
}

/// Where the climb from two strands ends: at what one entry made, or at one strand twice. It passes no spawn at which the two part. Its
/// time is logarithmic in the spawns that lead to the two.
pub(crate) fn find_meeting(
    opened: &[Frame],
    strands: &[Strand],
    jumps: &[Jump],
    strand: u32,
    other: u32,
) -> (u32, u32, usize)
    requires { AreMet opened.now strands.now jumps.now strand other }
    ensures climbs { (entries : Entries) → AreWays opened.now strands.now jumps.now entries → Climbs entries strand other result.0 result.1 }
    ensures one { (entries : Entries) → AreWays opened.now strands.now jumps.now entries → result.2 ≡ maker entries result.0 }
    ensures two { (entries : Entries) → AreWays opened.now strands.now jumps.now entries → result.2 ≡ maker entries result.1 }
{
    let mine = jumps[strand as usize].depth;
    let theirs = jumps[other as usize].depth;
    let depth = lesser(mine, theirs);
    let mut one = rise_to(opened, strands, jumps, strand, depth);
    let mut two = rise_to(opened, strands, jumps, other, depth);
    'climb: while strands[one as usize].maker != strands[two as usize].maker {
        let (left, right) = step_both(opened, strands, jumps, one, two);
        one = left;
        two = right;
    }
    (one, two, maker_of(opened, strands, one))
}

/// The other one of the two strands that run behind a spawn, where the strand is one of them.
pub(crate) fn opposite(spawned: Spawned, strand: u32) -> Option<u32>
    ensures { MatchOption result (IsNeither spawned strand) (IsOpposite spawned strand) }
{
    if strand == spawned.next {
        Some(spawned.child)
    } else if strand == spawned.child {
        Some(spawned.next)
    } else {
        None
    }
}

/// A spawn that is outstanding at the strand and not at an earlier one, from which spawns and syncs lead to it; None where syncs alone
/// do.
pub(crate) fn open_behind(
    opened: &[Frame],
    strands: &[Strand],
    earlier: u32,
    strand: u32,
) -> Option<OpenSpawn>
    requires { (entries : Entries) × AreMade opened.now strands.now entries × IsOnWay entries earlier strand }
    ensures { (entries : Entries) → AreMade opened.now strands.now entries → IsOnWay entries earlier strand →
        IfSome result (IsOutstanding entries earlier strand) }
{
    let start = maker_of(opened, strands, earlier);
    let mut here = strand;
    let mut made = maker_of(opened, strands, here);
    'climb: while start < made {
        let (spawner, spawned) = spawn_of(opened, strands, here);
        if let Some(peer) = opposite(spawned, here) {
            return Some(OpenSpawn {
                entry: made,
                spawner,
                spawned,
                peer,
                parallel: strand,
                ordered: earlier,
            });
        }
        here = spawner;
        made = maker_of(opened, strands, here);
    }
    None
}
