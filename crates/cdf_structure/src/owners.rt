//! The rule that each record of an image has one owner.

ghost use Rattle.std.specs.Prelude.{◌≡◌, ℕ, List, [], ◌∷◌, length, min, true, IfOk};
ghost use Rattle.std.specs.Option.{option_map_or};
ghost use Rattle.cdf_format.specs.Phases.{phase9};
ghost use Rattle.cdf_structure.specs.Findings.{Finds};
ghost use Rattle.cdf_structure.specs.Owners.{IsFor, IsToldOf, KnowsOwned};
ghost use Rattle.cdf_structure.specs.Walked.{Climbs, StandsAt};

use crate::finding::Finding;
use std::alloc::{AllocError, Global};

/// Where a place stands among those of the records.
fn place_in(tiles: &[u64], place: u64) -> Option<usize>
    requires climbs { Climbs tiles.now }
    ensures { StandsAt tiles.now place result }
{
    match tiles.binary_search(&place) {
        Ok(i) => Some(i),
        Err(_) => None,
    }
}

/// The same. The record that has this number is looked at first.
fn place_near(tiles: &[u64], place: u64, near: usize) -> Option<usize>
    requires climbs { Climbs tiles.now }
    ensures { StandsAt tiles.now place result }
{
    if near < tiles.len() && tiles[near] == place {
        return Some(near);
    }
    place_in(tiles, place)
}

/// The first of two records, of which one may be none.
fn first_of(one: Option<u64>, other: u64) -> u64
    ensures { result ≡ option_map_or (min other) one other }
{
    match one {
        Some(place) => other.min(place),
        None => other,
    }
}

/// Which records of an image have an owner, the first of them that was found to have a second one, and the number of the record
/// that is looked at first when the next one is told of.
#[derive(Drop)]
pub struct Owners {
    has_owner: Vec<bool>,
    shared: Option<u64>,
    next: usize,
}

impl Owners {
    /// No record has an owner yet.
    pub fn new(alloc: Global, tiles: &[u64]) -> Result<Owners, AllocError>
        ensures marks { IfOk result (IsFor tiles.now) }
        ensures none { IfOk result (KnowsOwned tiles.now []) }
    {
        let has_owner = vec![in alloc; false; tiles.len()]?;
        Ok(Owners {
            has_owner,
            shared: None,
            next: 0,
        })
    }

    /// Tells of one more record that has an owner.
    pub fn add(&mut self, tiles: &[u64], place: u64)
        requires climbs { Climbs tiles.now }
        requires marks { IsFor tiles.now self.old }
        ensures marks { IsFor tiles.now self.new }
        ensures told { IsToldOf tiles.now (place ∷ []) self.old self.new }
    {
        let Some(i) = place_near(tiles, place, self.next) else {
            return;
        };
        self.next = i + 1;
        if self.has_owner[i] {
            self.shared = Some(first_of(self.shared, place));
        } else {
            self.has_owner[i] = true;
        }
    }

    /// Tells of each of these records.
    pub fn add_all(&mut self, tiles: &[u64], places: &[u64])
        requires climbs { Climbs tiles.now }
        requires marks { IsFor tiles.now self.old }
        ensures marks { IsFor tiles.now self.new }
        ensures told { IsToldOf tiles.now places.now self.old self.new }
    {
        for place in places {
            self.add(tiles, *place);
        }
    }

    /// Whether a record has two owners. Then all that is known stays so, whatever else is told of.
    pub fn is_shared(&self) -> bool
        ensures { result ≡ true → (tiles more : List ℕ) → IsToldOf tiles more self.now self.now }
    {
        self.shared.is_some()
    }

    /// That each record has one owner.
    pub fn check(&self, tiles: &[u64]) -> Option<Finding>
        requires marks { IsFor tiles.now self.now }
        ensures found { (owned : List ℕ) → KnowsOwned tiles.now owned self.now → Finds (phase9 tiles.now owned) result }
    {
        if let Some(place) = self.shared {
            // 9.1
            return Some(Finding { rule: 1, place });
        }
        for i in 0..tiles.len() {
            if !self.has_owner[i] {
                // 9.1
                return Some(Finding {
                    rule: 1,
                    place: tiles[i],
                });
            }
        }
        None
    }
}
