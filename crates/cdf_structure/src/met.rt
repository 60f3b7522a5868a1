//! Numbers that were met before.

ghost use Rattle.std.specs.Prelude.{◌≡◌, ◌++◌, [], ◌∷◌, true, false, OnOk, MatchResult, IfOk, ℕ};
ghost use Rattle.std.specs.BTreeSet.{contains};
ghost use Rattle.std.specs.Ordering.{nat_cmp};
ghost use Rattle.cdf_format.specs.Chains.{is_in};
ghost use Rattle.cdf_structure.specs.Met.{Agrees, Ascends};

use crate::sorted::stands_in;
use cdf_area::AreaError;
use std::alloc::{AllocError, Global};
use std::collections::BTreeSet;

/// Numbers in the order in which they were met. As long as each is at least the one before it, they are looked up in their list,
/// and from then on in a set.
#[derive(Drop)]
pub struct Met {
    pub alloc: Global,
    pub list: Vec<u64>,
    pub is_sorted: bool,
    pub set: BTreeSet<u64>,
}

/// Whether a number is at least each of an ascending list.
fn is_after(list: &[u64], number: u64) -> bool
    requires ascends { Ascends list.now }
    ensures { result ≡ true → Ascends (list.now ++ number ∷ []) }
{
    match list.last() {
        Some(last) => *last <= number,
        None => true,
    }
}

/// Whether a number is past each of an ascending list, so that it is none of them.
fn is_past(list: &[u64], number: u64) -> bool
    requires ascends { Ascends list.now }
    ensures { result ≡ true → is_in number list.now ≡ false }
{
    match list.last() {
        Some(last) => *last < number,
        None => true,
    }
}

/// The set of the numbers of a list.
fn set_of(alloc: Global, list: &[u64]) -> Result<BTreeSet<u64>, AllocError>
    ensures { IfOk result (λ set. (n : ℕ) → contains nat_cmp set n ≡ is_in n list.now) }
{
    let mut set = BTreeSet::new(alloc);
    for number in list {
        set.insert(*number)?;
    }
    Ok(set)
}

impl Met {
    pub fn new(alloc: Global) -> Met
        ensures agrees { Agrees result }
        ensures none { result.list.items ≡ [] }
    {
        Met {
            alloc,
            list: Vec::new(alloc),
            is_sorted: true,
            set: BTreeSet::new(alloc),
        }
    }

    pub fn has(&self, number: u64) -> bool
        requires agrees { Agrees self.now }
        ensures { result ≡ is_in number self.now.list.items }
    {
        if self.is_sorted {
            !is_past(&self.list, number) && stands_in(&self.list, number)
        } else {
            self.set.contains(&number)
        }
    }

    /// Goes over to the set, where the numbers ascend no more with the next one.
    fn prepare(&mut self, number: u64) -> Result<(), AllocError>
        requires agrees { Agrees self.old }
        ensures list { self.new.list ≡ self.old.list }
        ensures agrees { OnOk result (Agrees self.new) }
        ensures ascends { OnOk result (self.new.is_sorted ≡ true → Ascends (self.old.list.items ++ number ∷ [])) }
    {
        if !self.is_sorted || is_after(&self.list, number) {
            return Ok(());
        }
        self.set = set_of(self.alloc, &self.list)?;
        self.is_sorted = false;
        Ok(())
    }

    pub fn add(&mut self, number: u64) -> Result<(), AreaError>
        requires agrees { Agrees self.old }
        ensures agrees { OnOk result (Agrees self.new) }
        ensures items { OnOk result (self.new.list.items ≡ self.old.list.items ++ number ∷ []) }
        ensures cause { MatchResult result (λ _. Unit {0}) (λ e. e ≡ AreaError.NoMemory) }
    {
        self.prepare(number)?;
        self.list.push(number)?;
        if !self.is_sorted {
            self.set.insert(number)?;
        }
        Ok(())
    }
}
