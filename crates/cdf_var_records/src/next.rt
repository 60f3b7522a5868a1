//! The records of a variable that are stored, read one after another.

ghost use Rattle.std.specs.Prelude.{◌≡◌, ◌≤◌, ◌<◌, length, IfOk, IfSome, Some};
ghost use Rattle.cdf_area.specs.Calls.{Reads};
ghost use Rattle.cdf_format.specs.Index.{leaves_of};
ghost use Rattle.cdf_format.specs.WellFormed.{Good};
ghost use Rattle.cdf_index.specs.Finding.{HasIndex, index_at};
ghost use Rattle.cdf_model.specs.Limits.{image_limit};
ghost use Rattle.cdf_model.specs.declared.kinds.Kind.{Kind};
ghost use Rattle.cdf_puts.specs.Starts.{InTopChain, KnowsStarts};
ghost use Rattle.cdf_var_records.specs.Descriptors.{IsVdr};
ghost use Rattle.cdf_var_records.specs.Next.{Finds, IsReader, NextIs, leaves_at};
ghost use Rattle.cdf_var_records.specs.Records.{variable_at};

use crate::extent::read_extent;
use crate::form::{Form, read_form};
use crate::record::read_in_leaf;
use crate::unpacked::Unpacked;
use cdf_area::{Area, AreaError};
use cdf_format::fields::VDR_VXR_HEAD;
use cdf_index::Leaf;
use cdf_model::Kind;
use cdf_puts::{Search, Starts};
use cdf_records::read_unsigned8;
use std::alloc::Global;

/// A record that is stored, in network order.
#[derive(Drop)]
pub struct Stored {
    pub num: u32,
    pub bytes: Vec<u8>,
}

/// The number of a record, and the leaf that has it.
#[derive(Clone, Copy)]
pub struct Located {
    pub num: u32,
    pub leaf: Leaf,
}

/// What stays the same while the records of a variable are read one after another.
#[derive(Drop)]
pub struct RecordReader {
    pub form: Form,
    /// How many records there are at most, by MaxRec.
    pub extent: u32,
    /// The leaf that has the record that was read last.
    pub leaf: Option<Leaf>,
    /// What is kept of its block, if it is packed.
    pub unpacked: Unpacked,
}

/// The first record from a number on and before an end that a leaf of an index has. Of its top chain a node may be known.
#[tactic(auto, using(cdf_area::proofs::Calls::read_done, cdf_area::proofs::Calls::read_failed, cdf_area::proofs::Calls::read_more, cdf_area::proofs::Calls::read_once))]
fn find_first<A: Area>(
    area: &mut A,
    head: u64,
    known: Option<u64>,
    from: u32,
    end: u32,
) -> Result<Option<Located>, AreaError>
    requires index { HasIndex (A.image area.old) head }
    requires known { InTopChain (index_at (A.image area.old) head) known }
    requires short { length (A.image area.old) ≤ image_limit }
    ensures found { IfOk result (Finds (leaves_of (index_at (A.image area.old) head)) from end) }
    ensures area { Reads A.image A.frame A.faults A.edited area.old area.new result }
{
    let mut num = from;
    let mut node = known;
    while num < end {
        let search = Search::begin(area, head, node, num)?;
        let found = search.leaf(area)?;
        if let Some(leaf) = found {
            return Ok(Some(Located { num, leaf }));
        }
        // A node may say that it has records that no leaf below it has.
        let Some(next) = search.next_first(area)? else {
            return Ok(None);
        };
        num = next;
        node = search.node();
    }
    Ok(None)
}

impl RecordReader {
    /// A reader of the variable of a kind whose descriptor stands at a place of a good image.
    #[tactic(auto, using(cdf_area::proofs::Calls::read_done, cdf_area::proofs::Calls::read_failed, cdf_area::proofs::Calls::read_more, cdf_area::proofs::Calls::read_once))]
    pub fn new<A: Area>(
        alloc: Global,
        area: &mut A,
        kind: Kind,
        vdr: u64,
    ) -> Result<RecordReader, AreaError>
        requires good { Good (A.image area.old) }
        requires vdr { IsVdr (A.image area.old) kind vdr }
        ensures reader { IfOk result (IsReader (A.image area.old)) }
        ensures vdr { IfOk result (λ reader. reader.form.place.vdr ≡ vdr) }
        ensures area { Reads A.image A.frame A.faults A.edited area.old area.new result }
    {
        let form = read_form(alloc, area, kind, vdr)?;
        let extent = read_extent(area, vdr)?;
        Ok(RecordReader {
            form,
            extent,
            leaf: None,
            unpacked: Unpacked::new(),
        })
    }

    /// The leaf that is kept, where it has a record up to MaxRec.
    fn leaf_with(&self, num: u32) -> Option<Leaf>
        ensures kept { IfSome result (λ leaf. self.now.leaf ≡ Some leaf) }
        ensures has { IfSome result (λ leaf. (leaf.first ≤ num) × (num ≤ leaf.last)) }
        ensures inside { IfSome result (λ leaf. num < self.now.extent) }
    {
        let leaf = self.leaf?;
        if leaf.first <= num && num <= leaf.last && num < self.extent {
            Some(leaf)
        } else {
            None
        }
    }

    /// The first record from a number on that a leaf has, up to MaxRec.
    #[tactic(auto, using(cdf_area::proofs::Calls::read_done, cdf_area::proofs::Calls::read_failed, cdf_area::proofs::Calls::read_more, cdf_area::proofs::Calls::read_once))]
    fn find<A: Area>(
        &self,
        area: &mut A,
        starts: &mut Starts,
        from: u32,
    ) -> Result<Option<Located>, AreaError>
        requires good { Good (A.image area.old) }
        requires short { length (A.image area.old) ≤ image_limit }
        requires reader { IsReader (A.image area.old) self.now }
        requires starts { KnowsStarts (A.image area.old) starts.old }
        ensures found { IfOk result (Finds (leaves_at (A.image area.old) self.now.form.place.vdr) from self.now.extent) }
        ensures starts { KnowsStarts (A.image area.old) starts.new }
        ensures area { Reads A.image A.frame A.faults A.edited area.old area.new result }
    {
        if let Some(leaf) = self.leaf_with(from) {
            return Ok(Some(Located { num: from, leaf }));
        }
        let vdr = self.form.place.vdr;
        let known = starts.find_start(area, vdr, from)?;
        // An image has fewer than 2^64 bytes, so no place in it overflows.
        let _size = area.size();
        let head = read_unsigned8(area, vdr + VDR_VXR_HEAD)?;
        find_first(area, head, known, from, self.extent)
    }

    /// The first record from a number on that is stored.
    #[tactic(auto, using(cdf_area::proofs::Calls::read_done, cdf_area::proofs::Calls::read_failed, cdf_area::proofs::Calls::read_more, cdf_area::proofs::Calls::read_once))]
    pub fn read_next<A: Area>(
        &mut self,
        alloc: Global,
        area: &mut A,
        starts: &mut Starts,
        from: u32,
    ) -> Result<Option<Stored>, AreaError>
        requires good { Good (A.image area.old) }
        requires short { length (A.image area.old) ≤ image_limit }
        requires reader { IsReader (A.image area.old) self.old }
        requires starts { KnowsStarts (A.image area.old) starts.old }
        ensures next { IfOk result (NextIs from (variable_at (A.image area.old) self.old.form.place.vdr).recs) }
        ensures few { IfOk result (λ next. IfSome next (λ stored. stored.num < 0xffffffff)) }
        ensures reader { IsReader (A.image area.old) self.new }
        ensures form { self.new.form ≡ self.old.form }
        ensures starts { KnowsStarts (A.image area.old) starts.new }
        ensures area { Reads A.image A.frame A.faults A.edited area.old area.new result }
    {
        let Some(found) = self.find(area, starts, from)? else {
            return Ok(None);
        };
        self.leaf = Some(found.leaf);
        let bytes = read_in_leaf(
            alloc,
            area,
            &mut self.unpacked,
            &self.form,
            &found.leaf,
            found.num,
        )?;
        Ok(Some(Stored {
            num: found.num,
            bytes,
        }))
    }
}
