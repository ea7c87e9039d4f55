//! Races grouped by the line of the spawn at which their strands part.

ghost use Rattle.std.specs.Prelude.{◌≡◌, ◌<◌, suc, eqb, List, Some, IfOk, OnOk, length};
ghost use Rattle.std.specs.HashMap.{get};
ghost use Rattle.race_pairs.specs.declared.race.Race.{Race as OneRace};
ghost use Rattle.race_pairs.specs.Groups.{IsOfSpawn, AreGroupsUpTo, AreGroups, HasOneMore, IsGroupMore, IsPlaceMore, AreFound};

use crate::race::Race;
use std::alloc::{AllocError, Global};
use std::collections::HashMap;

/// Races whose strands part at spawns on one line, or one race for itself.
#[derive(Drop)]
pub struct Group {
    /// The line of the spawn. None where the strands of its one race part at none.
    pub spawn: Option<u32>,
    /// The indices of its races in the list that was grouped, from 0 on, in rising order.
    pub places: Vec<usize>,
}

impl Group {
    /// Adds a race.
    fn add(&mut self, place: usize) -> Result<(), AllocError>
        ensures { OnOk result (HasOneMore place self.old self.new) }
    {
        self.places.push(place)?;
        Ok(())
    }
}

/// Adds a group of one race.
fn begin_group(
    alloc: Global,
    groups: &mut Vec<Group>,
    spawn: Option<u32>,
    place: usize,
) -> Result<(), AllocError>
    ensures { OnOk result (IsGroupMore spawn place groups.old.items groups.new.items) }
{
    let mut places = Vec::new(alloc);
    places.push(place)?;
    groups.push(Group { spawn, places })?;
    Ok(())
}

/// Adds a race to the group at an index.
fn join_group(groups: &mut Vec<Group>, at: usize, place: usize) -> Result<(), AllocError>
    requires { at < length groups.old.items }
    ensures { OnOk result (IsPlaceMore at place groups.old.items groups.new.items) }
{
    groups[at].add(place)
}

/// The index of the group of the spawn on this line.
fn find_line(known: &HashMap<u32, usize>, line: u32) -> Option<usize>
    ensures { result ≡ get eqb known.now line }
{
    known.get(&line).copied()
}

/// Adds a race whose strands part at the spawn on this line.
fn add_at_line(
    alloc: Global,
    groups: &mut Vec<Group>,
    known: &mut HashMap<u32, usize>,
    line: u32,
    place: usize,
) -> Result<(), AllocError>
    requires { AreFound known.old groups.old.items }
    ensures { OnOk result ((races : List OneRace) → AreFound known.old groups.old.items → AreGroupsUpTo races place groups.old.items →
        IsOfSpawn races (Some line) place → AreFound known.new groups.new.items × AreGroupsUpTo races (suc place) groups.new.items) }
{
    match find_line(known, line) {
        Some(at) => join_group(groups, at, place),
        None => {
            let count = groups.len();
            known.insert(line, count)?;
            begin_group(alloc, groups, Some(line), place)
        }
    }
}

/// Adds a race.
fn add_race(
    alloc: Global,
    groups: &mut Vec<Group>,
    known: &mut HashMap<u32, usize>,
    race: &Race,
    place: usize,
) -> Result<(), AllocError>
    requires { AreFound known.old groups.old.items }
    ensures { OnOk result ((races : List OneRace) → AreFound known.old groups.old.items → AreGroupsUpTo races place groups.old.items →
        IsOfSpawn races race.now.pair.spawn place → AreFound known.new groups.new.items × AreGroupsUpTo races (suc place) groups.new.items) }
{
    match race.pair.spawn {
        Some(line) => add_at_line(alloc, groups, known, line, place),
        None => begin_group(alloc, groups, None, place),
    }
}

/// The groups of these races: races whose strands part at spawns on one line are one group, and a race whose strands part at none is one of
/// its own. The groups stand in the order of their first races. Errors where there is no memory.
pub fn group_races(alloc: Global, races: &[Race]) -> Result<Vec<Group>, AllocError>
    ensures { IfOk result (λ groups. AreGroups races.now groups.items) }
{
    let mut groups = Vec::new(alloc);
    let mut known = HashMap::new(alloc);
    for (place, race) in races.iter().enumerate() {
        add_race(alloc, &mut groups, &mut known, race, place)?;
    }
    Ok(groups)
}
