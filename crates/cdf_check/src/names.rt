//! The Names of records, which are to differ.

ghost use Rattle.std.specs.Prelude.{◌≡◌, ◌++◌, ◌∷◌, [], ◌<◌, ℕ, List, None, length, IfOk, OnOk};
ghost use Rattle.cdf_check.specs.Named.{AreNamed};

use cdf_model::Bytes;
use cdf_names::NameTable;
use cdf_structure::Finding;
use std::alloc::{AllocError, Global};

/// The Names of records as long as they differ, and the first record whose Name one before it has.
#[derive(Drop)]
pub struct Names {
    pub table: NameTable,
    pub repeated: Option<Finding>,
}

impl Names {
    pub fn new(alloc: Global) -> Result<Names, AllocError>
        ensures { IfOk result (λ names. (name_of : ℕ → List ℕ) → AreNamed name_of [] names) }
    {
        Ok(Names {
            table: NameTable::new(alloc)?,
            repeated: None,
        })
    }

    /// Takes the Name of the record at a place, which stands behind the others.
    pub fn add(&mut self, place: u64, name: Bytes) -> Result<(), AllocError>
        requires few { length self.old.table < u32.MAX }
        ensures named { OnOk result ((name_of : ℕ → List ℕ) (places : List ℕ) → name ≡ name_of place → AreNamed name_of places self.old → AreNamed name_of (places ++ place ∷ []) self.new) }
    {
        if self.repeated.is_some() {
            return Ok(());
        }
        if self.table.find(name.as_slice()).is_some() {
            // 6.2, 7.2
            self.repeated = Some(Finding { rule: 2, place });
            return Ok(());
        }
        self.table.add(name)?;
        Ok(())
    }
}
