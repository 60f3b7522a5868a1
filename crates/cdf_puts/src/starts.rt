//! What is known of the indexes of the variables of a file: from which nodes searches go on, how large the indexes are at most, and which have no
//! empty node.

ghost use Rattle.std.specs.Prelude.{◌≡◌, ◌≢◌, ◌≤◌, ℕ, List, length, true, IfOk, IfSome, None};
ghost use Rattle.cdf_area.specs.Calls.{Reads};
ghost use Rattle.cdf_format.specs.Fields.{number};
ghost use Rattle.cdf_format.specs.Index.{Nodes};
ghost use Rattle.cdf_format.specs.Records.{vdr_vxr_head};
ghost use Rattle.cdf_format.specs.Shape.{shape, variables, vdrs};
ghost use Rattle.cdf_format.specs.Tiles.{In};
ghost use Rattle.cdf_format.specs.WellFormed.{Good};
ghost use Rattle.cdf_index.specs.Finding.{index_at};
ghost use Rattle.cdf_model.specs.Limits.{image_limit};
ghost use Rattle.cdf_puts.specs.Starts.{ExpectsEntries, IsForgotten, IsKnownStart, IsRightOf, IsWithin, KnowsStarts, known_of};
ghost use Rattle.cdf_puts.specs.TidyIndex.{IsTidy};

use crate::known_index::{IndexBound, KnownIndex};
use cdf_area::{Area, AreaError};
use cdf_format::fields::VDR_VXR_HEAD;
use cdf_records::read_unsigned8;
use std::alloc::Global;
use std::collections::BTreeMap;

/// What is known of the indexes of variables, by the places of their descriptors.
#[derive(Drop)]
pub struct Starts {
    alloc: Global,
    indexes: BTreeMap<u64, KnownIndex>,
}

impl Starts {
    /// Nothing is known.
    pub fn new(alloc: Global) -> Starts
        ensures { (vdr : ℕ) → known_of result vdr ≡ None }
    {
        Starts {
            alloc,
            indexes: BTreeMap::new(alloc),
        }
    }

    /// Lets go all that is known.
    pub fn forget(&mut self)
        ensures { (vdr : ℕ) → known_of self.new vdr ≡ None }
    {
        self.indexes = BTreeMap::new(self.alloc);
    }

    /// Takes out what is known of the index of the variable whose descriptor stands at a place.
    fn take(&mut self, vdr: u64) -> KnownIndex
        ensures others { (v : ℕ) → v ≢ vdr → known_of self.new v ≡ known_of self.old v }
        ensures taken { (index : Nodes) → IfSome (known_of self.old vdr) (IsRightOf index) → IsRightOf index result }
        ensures own { (index : Nodes) → IfSome (known_of self.new vdr) (IsRightOf index) }
    {
        match self.indexes.insert(vdr, KnownIndex::new(self.alloc)) {
            Ok(Some(known)) => known,
            Ok(None) | Err(_) => KnownIndex::new(self.alloc),
        }
    }

    /// Keeps what is known of the index of the variable whose descriptor stands at a place, where there is memory for it.
    fn keep(&mut self, vdr: u64, known: KnownIndex)
        ensures others { (v : ℕ) → v ≢ vdr → known_of self.new v ≡ known_of self.old v }
        ensures own { IfSome (known_of self.new vdr) (λ kept. kept ≡ known) }
    {
        let _kept = self.indexes.insert(vdr, known);
    }

    /// Lets go what is known of the index of the variable whose descriptor stands at a place.
    pub fn forget_index(&mut self, vdr: u64)
        ensures known { (b : List ℕ) → Good b → KnowsStarts b self.old → KnowsStarts b self.new }
        ensures forgotten { IsForgotten vdr self.new }
    {
        let _known = self.take(vdr);
    }

    /// What bounds the index of the variable whose descriptor stands at a place, if that is known.
    pub fn bound_of(&self, vdr: u64) -> Option<IndexBound>
        ensures { (b : List ℕ) → Good b → In vdr (vdrs (variables (shape b))) → KnowsStarts b self.now → IfSome result (IsWithin (index_at b (number b vdr vdr_vxr_head))) }
    {
        self.indexes.get(&vdr)?.bound
    }

    /// Keeps what bounds the index of the variable whose descriptor stands at a place once it has so many entries more, where there is
    /// memory for it.
    pub fn keep_bound(&mut self, vdr: u64, bound: IndexBound, more: u32)
        ensures known { (b : List ℕ) → Good b → In vdr (vdrs (variables (shape b))) → KnowsStarts b self.old → IsWithin (index_at b (number b vdr vdr_vxr_head)) bound → KnowsStarts b self.new }
        ensures expects { (index : Nodes) → IsWithin index bound → ExpectsEntries self.new vdr index more }
    {
        let mut known = self.take(vdr);
        known.keep_bound(bound, more);
        self.keep(vdr, known);
    }

    /// Whether it is known that no node of the index of the variable whose descriptor stands at a place is empty.
    pub fn is_tidy(&self, vdr: u64) -> bool
        ensures { (b : List ℕ) → Good b → In vdr (vdrs (variables (shape b))) → KnowsStarts b self.now → result ≡ true → IsTidy (index_at b (number b vdr vdr_vxr_head)) }
    {
        match self.indexes.get(&vdr) {
            Some(known) => known.tidy,
            None => false,
        }
    }

    /// Notes that no node of the index of the variable whose descriptor stands at a place is empty, where there is memory for it.
    pub fn note_tidy(&mut self, vdr: u64)
        ensures { (b : List ℕ) → Good b → In vdr (vdrs (variables (shape b))) → KnowsStarts b self.old → IsTidy (index_at b (number b vdr vdr_vxr_head)) → KnowsStarts b self.new }
    {
        let mut known = self.take(vdr);
        known.note_tidy();
        self.keep(vdr, known);
    }

    /// A node, if one is known, of the top chain of the index of the variable whose descriptor stands at a place. From a node that was
    /// known, the way goes on to the one at which a search for a record may start, and this one is kept.
    #[tactic(auto, using(cdf_area::proofs::Calls::read_done, cdf_area::proofs::Calls::read_failed, cdf_area::proofs::Calls::read_more, cdf_area::proofs::Calls::read_once))]
    pub fn find_start<A: Area>(
        &mut self,
        area: &mut A,
        vdr: u64,
        rec: u32,
    ) -> Result<Option<u64>, AreaError>
        requires good { Good (A.image area.old) }
        requires short { length (A.image area.old) ≤ image_limit }
        requires vdr { In vdr (vdrs (variables (shape (A.image area.old)))) }
        requires known { KnowsStarts (A.image area.old) self.old }
        ensures start { IfOk result (IsKnownStart (A.image area.old) vdr) }
        ensures known { KnowsStarts (A.image area.old) self.new }
        ensures area { Reads A.image A.frame A.faults A.edited area.old area.new result }
    {
        // An image has fewer than 2^64 bytes, so no place in it overflows.
        let _size = area.size();
        let head = read_unsigned8(area, vdr + VDR_VXR_HEAD)?;
        let mut known = self.take(vdr);
        let start = known.find_start(area, head, rec)?;
        self.keep(vdr, known);
        Ok(start)
    }
}
