//! Findings that are told alike, joined.

ghost use Rattle.std.specs.Prelude.{◌≡◌, ◌<◌, ◌++◌, [], ◌∷◌, None, OnOk, map, length, slice_set, slice_index_or};
ghost use Rattle.race_explanations.specs.declared.finding.Finding.{Finding as OneFinding};
ghost use Rattle.race_explanations.specs.Findings.{with_names, joined, with_finding};
ghost use Rattle.race_explanations.specs.ToldPlaces.{told_of, place_of, is_same};

use crate::finding::{Finding, Told};
use std::alloc::{AllocError, Global};
use std::collections::{BTreeMap, BTreeSet};
use std::marker::Model;

/// Findings, of which each is joined to the first that is told alike, in logarithmic time. Contracts see the list of the findings.
pub struct FindingList {
    list: Vec<Finding>,
    /// The place of the first finding that is told so.
    places: BTreeMap<Told, usize>,
}

impl Model for FindingList {
    ghost use Rattle.std.specs.Prelude.{List, map};
    ghost use Rattle.race_explanations.specs.declared.finding.Finding.{Finding as OneFinding};
    ghost use Rattle.race_explanations.specs.ToldPlaces.{told_of, ArePlacesOf};

    ghost Value = { List OneFinding };

    ghost view = { λ findings. findings.list.items };

    ghost invariant = { λ findings. ArePlacesOf (map told_of findings.list.items) findings.places };
}

/// Written out, so that what lets it go calls one function.
impl Drop for FindingList {
    fn drop(self) {
        let FindingList { list: _, places: _ } = self;
    }
}

/// Adds names to others.
fn add_names(names: &mut BTreeSet<Vec<u8>>, others: BTreeSet<Vec<u8>>) -> Result<(), AllocError>
    ensures { OnOk result (names.new.keys ≡ with_names names.old.keys others.keys) }
{
    for name in others {
        names.insert(name)?;
    }
    Ok(())
}

/// Adds the names and the counts of another finding.
fn join(one: &mut Finding, other: Finding) -> Result<(), AllocError>
    ensures joined { OnOk result (one.new ≡ joined one.old other) }
    ensures told { told_of one.new ≡ told_of one.old }
{
    let (names, times) = other.into_counted();
    add_names(&mut one.names, names)?;
    one.times = one.times.saturating_add(times);
    Ok(())
}

/// Joins another finding to the one at a place.
fn join_at(list: &mut Vec<Finding>, place: usize, other: Finding) -> Result<(), AllocError>
    requires { place < length list.old.items }
    ensures joined { OnOk result ((one : OneFinding) → list.new.items ≡ slice_set list.old.items place (joined (slice_index_or list.old.items place one) other)) }
    ensures told { map told_of list.new.items ≡ map told_of list.old.items }
{
    join(&mut list[place], other)
}

impl FindingList {
    /// No findings.
    pub fn new(alloc: Global) -> FindingList
        ensures { result ≡ [] }
    {
        FindingList {
            list: Vec::new(alloc),
            places: BTreeMap::new(alloc),
        }
    }

    /// How many there are.
    pub fn len(&self) -> usize
        ensures { result ≡ length self.now }
    {
        self.list.len()
    }

    /// All of them, in the order in which they were added.
    pub fn as_slice(&self) -> &[Finding]
        ensures { result.now ≡ self.now }
    {
        self.list.as_slice()
    }

    /// Adds a finding that is told as none of them.
    fn push(&mut self, other: Finding) -> Result<(), AllocError>
        requires { place_of is_same (map told_of self.old) (told_of other) ≡ None }
        ensures { OnOk result (self.new ≡ self.old ++ other ∷ []) }
    {
        self.list.reserve(1)?;
        let told = other.copy_told()?;
        self.places.insert(told, self.list.len())?;
        self.list.push_reserved(other);
        Ok(())
    }

    /// Adds a finding: to the first that is told alike, or behind all.
    pub fn join(&mut self, other: Finding) -> Result<(), AllocError>
        ensures { OnOk result (self.new ≡ with_finding self.old other) }
    {
        let (other, found) = other.find_alike(&self.places);
        match found {
            Some(place) => join_at(&mut self.list, place, other),
            None => self.push(other),
        }
    }
}
