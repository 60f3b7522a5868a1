//! The table of names.

ghost use Rattle.std.specs.Prelude.{◌≡◌, ◌<◌, ◌+◌, ◌^◌, ◌++◌, ◌∷◌, [], ℕ, List, length, map, is_some, bytes_eq, slice_get, remove, false, Some, IfOk, IfSome, OnOk, OnErr};
ghost use Rattle.std.specs.List.{IsDistinct};
ghost use Rattle.cdf_names.specs.Names.{has_name, number_of, last_to};

use cdf_model::Bytes;
use indexmap::IndexSet;
use std::alloc::{AllocError, Global};
use std::marker::Model;

/// Distinct names in the order of their numbers, which begin at 0. They are compared byte by byte, so trailing blanks count.
#[derive(Drop)]
pub struct NameTable {
    names: IndexSet<Vec<u8>>,
}

impl Model for NameTable {
    ghost Value = { List (List ℕ) };

    ghost view = { λ table. map (λ name. name.items) table.names.keys };

    // Each number fits a `u32`, and so does the count.
    ghost invariant = { λ table. IsDistinct bytes_eq (map (λ name. name.items) table.names.keys)
        × (length table.names.keys < 2 ^ 32) };
}

impl NameTable {
    /// No names. The first `add` takes memory.
    pub fn new(alloc: Global) -> Result<NameTable, AllocError>
        ensures { IfOk result (λ table. table ≡ []) }
    {
        Ok(NameTable {
            names: IndexSet::new(alloc),
        })
    }

    /// How many names there are.
    pub fn len(&self) -> u32
        ensures count { result ≡ length self.now }
        ensures distinct { IsDistinct bytes_eq self.now }
    {
        self.names.len() as u32
    }

    /// The number of a name.
    pub fn find(&self, name: &[u8]) -> Option<u32>
        ensures number { result ≡ number_of self.now name.now }
        ensures found { IfSome result (λ number. slice_get self.now number ≡ Some name.now) }
        ensures exact { is_some result ≡ has_name self.now name.now }
        ensures distinct { IsDistinct bytes_eq self.now }
    {
        let number = self.names.get_index_of(name)?;
        Some(number as u32)
    }

    /// Puts a name last.
    pub fn add(&mut self, name: Bytes) -> Result<(), AllocError>
        requires absent { has_name self.old name ≡ false }
        requires few { length self.old < u32.MAX }
        ensures added { OnOk result (self.new ≡ self.old ++ name ∷ []) }
        ensures unchanged { OnErr result (self.new ≡ self.old) }
    {
        self.names.insert(name.into_vec())?;
        Ok(())
    }

    /// Drops the name with this number. The names after it move down by one.
    pub fn remove(&mut self, number: u32)
        requires { number < length self.old }
        ensures { self.new ≡ remove self.old number }
    {
        self.names.shift_remove_index(number as usize);
    }

    /// Drops the name with this number, and gives the number to the last name.
    pub fn last_to(&mut self, number: u32)
        requires { number + 1 < length self.old }
        ensures { self.new ≡ last_to self.old number }
    {
        self.names.swap_remove_index(number as usize);
    }
}
