//! A record that a command puts, once it is known what is put.

ghost use Rattle.std.specs.Prelude.{◌≡◌, ◌+◌, ◌≤◌, ◌%◌, ℕ, ℤ, List, length, true, false, IfOk, OnOk, OnErr, IsTrue};
ghost use Rattle.std.specs.Int.{cast_unsigned, w32};
ghost use Rattle.cdf_puts.specs.declared.starts.Starts.{Starts};
ghost use Rattle.cdf_area.specs.Calls.{Edits, Reads};
ghost use Rattle.cdf_cuts.specs.Past.{CutPast, cut_off};
ghost use Rattle.cdf_edits.specs.Edits.Standing.{StandsAmong};
ghost use Rattle.cdf_edits.specs.Answers.{Answers};
ghost use Rattle.cdf_edits.specs.Commands.Allowances.{shapes_of};
ghost use Rattle.cdf_edits.specs.Edits.RemovesVariable.{greatest_at, r_max_writes};
ghost use Rattle.cdf_edits.specs.Edits.Writes.{with_writes};
ghost use Rattle.cdf_edits.specs.Follows.{Follows};
ghost use Rattle.cdf_edits.specs.Index.Blocks.{cuts_before_put};
ghost use Rattle.cdf_format.specs.Fields.{LiesIn, gdr_offset, number};
ghost use Rattle.cdf_format.specs.Index.{Nodes};
ghost use Rattle.cdf_format.specs.Records.{gdr_r_max_rec, cdr_gdr_offset, cdr_place, past, vdr_vxr_head};
ghost use Rattle.cdf_format.specs.Shape.{VariableShape, shape, variables, vdrs, is_compressed};
ghost use Rattle.cdf_format.specs.Tiles.{In};
ghost use Rattle.cdf_format.specs.VariableFields.{max_rec_at};
ghost use Rattle.cdf_format.specs.VariableRules.{is_max_rec};
ghost use Rattle.cdf_format.specs.WellFormed.{Good};
ghost use Rattle.cdf_index.specs.Finding.{index_at};
ghost use Rattle.cdf_model.specs.ByteOrder.{turned};
ghost use Rattle.cdf_model.specs.DataSet.{extent};
ghost use Rattle.cdf_model.specs.Limits.{image_limit, record_number_limit};
ghost use Rattle.cdf_model.specs.Types.{size_of};
ghost use Rattle.cdf_model.specs.Turns.{is_refused};
ghost use Rattle.cdf_model.specs.declared.command.Command.{Command};
ghost use Rattle.cdf_model.specs.declared.kinds.Kind.{Kind};
ghost use Rattle.cdf_model.specs.declared.kinds.Kind.TheVariants.{R};
ghost use Rattle.cdf_vars.specs.Known.{Knows};
ghost use Rattle.cdf_var_records.specs.Descriptors.{IsVdr};
ghost use Rattle.cdf_vars.specs.Puts.{CanPut, HasRoom, HasTidyIndex, IsNewRecord, MaxRecRaises, MaxRecWrites, PutsSo};
ghost use Rattle.cdf_puts.specs.Putting.{most_in_block};
ghost use Rattle.cdf_puts.specs.Starts.{InTopChain, IsForgotten, IsKnownStart, KnowsStarts};
ghost use Rattle.cdf_puts.specs.TidyIndex.{IsTidy};
ghost use Rattle.cdf_trim.specs.Trimming.{KeepsBlocks};
ghost use Rattle.cdf_var_records.specs.Records.{IsForm, variable_at};
ghost use Rattle.cdf_var_records.specs.Room.{ExpectsPut};
ghost use Rattle.cdf_vars.specs.Removing.{VdrsLie};

use crate::puts::Target;
use crate::removing::{greatest_extent, last_number, set_greatest};
use crate::vars::Vars;
use cdf_area::{Area, AreaError};
use cdf_cuts::cut_past;
use cdf_format::fields::VDR_COMPRESSION_BIT;
use cdf_format::flags::has_bit;
use cdf_model::{DataType, Encoding, Kind, Outcome, Reason, Reply};
use cdf_packed_cuts::cut_packed_past;
use cdf_packed_puts::put_packed;
use cdf_puts::{NewRecord, Starts, put_records};
use cdf_records::set_vdr_max_rec;
use cdf_trim::trim_past;
use cdf_values::from_network;
use cdf_var_records::{
    Form, has_put_room, read_block_count, read_extent, read_first_written, read_pad_record,
    record_size_of,
};
use std::alloc::Global;

/// Whether the records of a variable are packed, as its descriptor says.
fn is_packed(form: &Form) -> bool
    ensures { (b : List ℕ) → IsForm b form.now → result ≡ is_compressed b form.now.place.vdr }
{
    has_bit(form.place.flags, VDR_COMPRESSION_BIT)
}

/// The bytes of elements of a type in network order, turned into those that are stored.
fn as_stored(t: DataType, encoding: Encoding, mut bytes: Vec<u8>) -> Vec<u8>
    requires { length bytes.items % size_of t ≡ 0 }
    ensures { result.items ≡ turned t encoding.little bytes.items }
{
    from_network(t, encoding, &mut bytes);
    bytes
}

/// How many records a new block has, where a record is put: up to MaxRec it has one.
fn read_most<A: Area>(area: &mut A, form: &Form, rec: u32, count: u32) -> Result<u32, AreaError>
    requires good { Good (A.image area.old) }
    requires form { IsForm (A.image area.old) form.now }
    requires count { count ≡ extent (max_rec_at (A.image area.old) form.now.place.vdr) }
    ensures most { IfOk result (λ most. most ≡ most_in_block (variable_at (A.image area.old) form.now.place.vdr) rec) }
    ensures area { Reads A.image A.frame A.faults A.edited area.old area.new result }
{
    if rec < count {
        return Ok(1);
    }
    read_block_count(area, form)
}

/// What is put of a variable, by the bytes of the record in network order.
#[tactic(auto, using(cdf_area::proofs::Calls::read_done, cdf_area::proofs::Calls::read_failed, cdf_area::proofs::Calls::read_more, cdf_area::proofs::Calls::read_once))]
fn read_new_record<A: Area>(
    alloc: Global,
    area: &mut A,
    target: &Target,
    rec: u32,
    count: u32,
    bytes: Vec<u8>,
) -> Result<NewRecord, AreaError>
    requires good { Good (A.image area.old) }
    requires can { CanPut (A.image area.old) rec target.now bytes.items }
    requires count { count ≡ extent (max_rec_at (A.image area.old) target.now.form.place.vdr) }
    ensures put { IfOk result (IsNewRecord (A.image area.old) target.now rec bytes.items) }
    ensures area { Reads A.image A.frame A.faults A.edited area.old area.new result }
{
    let form = &target.form;
    let most = read_most(area, form, rec, count)?;
    let pad = read_pad_record(alloc, area, form)?;
    Ok(NewRecord {
        vdr: form.place.vdr,
        rec,
        raw: as_stored(form.shape.t, form.encoding, bytes),
        pad: as_stored(form.shape.t, form.encoding, pad),
        most,
    })
}

/// What is known of an index of which the end is cut.
#[derive(Clone, Copy)]
struct KnownEnd {
    /// A node of its top chain, if one is known.
    node: Option<u64>,
    /// Whether it is known that no node of it is empty.
    tidy: bool,
}

/// Cuts what the blocks of the variable whose descriptor stands at a place have from a record on. Says whether it is known that each block
/// stays. After an error a part of this may have been done.
fn cut_end<A: Area>(
    alloc: Global,
    area: &mut A,
    vdr: u64,
    end: KnownEnd,
    first: u32,
) -> Result<bool, AreaError>
    requires good { Good (A.image area.old) }
    requires vdr { In vdr (vdrs (variables (shape (A.image area.old)))) }
    requires unpacked { is_compressed (A.image area.old) vdr ≡ false }
    requires start { IsKnownStart (A.image area.old) vdr end.node }
    requires tidy { end.tidy ≡ true → IsTidy (index_at (A.image area.old) (number (A.image area.old) vdr vdr_vxr_head)) }
    requires short { length (A.image area.old) ≤ image_limit }
    ensures past { OnOk result ((kind : Kind) (before : List VariableShape) (own : VariableShape) (after : List VariableShape) → StandsAmong (A.image area.old) kind before own after → own.vdr ≡ vdr → CutPast (A.image area.old) (A.image area.new) kind before own (cut_off own first) after first) }
    ensures stays { IfOk result (λ stays. stays ≡ true → KeepsBlocks first (index_at (A.image area.old) (number (A.image area.old) vdr vdr_vxr_head))) }
    ensures tidy { IfOk result (λ stays. stays ≡ true → end.tidy ≡ true) }
    ensures area { Edits A.frame A.faults area.old area.new result }
{
    if end.tidy {
        return trim_past(alloc, area, vdr, end.node, first);
    }
    cut_past(alloc, area, vdr, first)?;
    Ok(false)
}

/// The node of the top chain that is known yet, if each block stayed.
fn known_yet(known: Option<u64>, stays: bool) -> Option<u64>
    ensures { (index : Nodes) → (stays ≡ true → InTopChain index known) → InTopChain index result }
{
    if stays { known } else { None }
}

/// Notes of the index of the variable whose descriptor stands at a place that no node of it is empty. What else was known of it is let go, unless
/// each block stayed.
fn note_cut(starts: &mut Starts, vdr: u64, stays: bool)
    ensures { (b : List ℕ) (now : List ℕ) → Good b → KnowsStarts b starts.old → (stays ≡ true → KnowsStarts now starts.old) → ((s : Starts) → KnowsStarts b s → IsForgotten vdr s → KnowsStarts now s) → HasTidyIndex now vdr → KnowsStarts now starts.new }
{
    if stays {
        return;
    }
    starts.forget_index(vdr);
    starts.note_tidy(vdr);
}

impl Vars {
    /// Writes rMaxRec, where MaxRec of a variable of this kind was written. After an error a part of it may have been written.
    fn follow_max_rec<A: Area>(&self, area: &mut A, kind: Kind) -> Result<(), AreaError>
        requires cdr { cdr_place + past cdr_gdr_offset ≤ length (A.image area.old) }
        requires field { LiesIn (A.image area.old) (gdr_offset (A.image area.old)) gdr_r_max_rec }
        requires lie { VdrsLie (A.image area.old) self.now.r.places }
        ensures written { OnOk result ((greatest : ℤ) → greatest ≡ greatest_at (A.image area.old) self.now.r.places → A.image area.new ≡ with_writes (A.image area.old) (r_max_writes kind (gdr_offset (A.image area.old)) greatest)) }
        ensures area { Edits A.frame A.faults area.old area.new result }
    {
        match kind {
            Kind::R => {
                let greatest = greatest_extent(area, 0, &self.r.places)?;
                set_greatest(area, kind, last_number(greatest))
            }
            Kind::Z => Ok(()),
        }
    }

    /// Writes MaxRec of a variable, and rMaxRec as it follows. After an error a part of this may have been done.
    pub(crate) fn write_max_rec<A: Area>(
        &self,
        area: &mut A,
        target: &Target,
        last: i32,
    ) -> Result<(), AreaError>
        requires good { Good (A.image area.old) }
        requires places { self.now.r.places ≡ vdrs (shapes_of (shape (A.image area.old)) R) }
        requires short { length (A.image area.old) ≤ image_limit }
        requires vdr { IsVdr (A.image area.old) target.now.id.kind target.now.form.place.vdr }
        requires ruled { is_max_rec (cast_unsigned w32 last) ≡ true }
        ensures written { OnOk result (MaxRecWrites (A.image area.old) (A.image area.new) target.now.id.kind target.now.form.place.vdr (cast_unsigned w32 last)) }
        ensures area { Edits A.frame A.faults area.old area.new result }
    {
        set_vdr_max_rec(area, target.form.place.vdr, last)?;
        self.follow_max_rec(area, target.id.kind)
    }

    /// Raises MaxRec of a variable to a record that is past it. After an error a part of this may have been done.
    fn raise_max_rec<A: Area>(
        &self,
        area: &mut A,
        target: &Target,
        rec: u32,
        count: u32,
    ) -> Result<(), AreaError>
        requires good { Good (A.image area.old) }
        requires places { self.now.r.places ≡ vdrs (shapes_of (shape (A.image area.old)) R) }
        requires short { length (A.image area.old) ≤ image_limit }
        requires vdr { IsVdr (A.image area.old) target.now.id.kind target.now.form.place.vdr }
        requires count { count ≡ extent (max_rec_at (A.image area.old) target.now.form.place.vdr) }
        requires within { rec ≤ record_number_limit }
        ensures raised { OnOk result (MaxRecRaises (A.image area.old) (A.image area.new) target.now.id.kind target.now.form.place.vdr rec) }
        ensures area { Edits A.frame A.faults area.old area.new result }
    {
        if rec < count {
            return Ok(());
        }
        self.write_max_rec(area, target, rec as i32)
    }

    /// Puts a record of a variable that is not packed, and for which there is room, where nothing is cut before. After an error a part of this
    /// may have been done.
    #[tactic(auto, using(cdf_area::proofs::Calls::edit_done, cdf_area::proofs::Calls::edit_failed, cdf_area::proofs::Calls::edit_more, cdf_area::proofs::Calls::edits_by_read, cdf_area::proofs::Calls::keeps_by_read, cdf_area::proofs::Calls::read_once))]
    fn write_unpacked<A: Area>(
        &self,
        area: &mut A,
        target: &Target,
        known: Option<u64>,
        rec: u32,
        count: u32,
        bytes: Vec<u8>,
    ) -> Result<(), AreaError>
        requires good { Good (A.image area.old) }
        requires known { Knows (A.image area.old) self.now }
        requires can { CanPut (A.image area.old) rec target.now bytes.items }
        requires unpacked { is_compressed (A.image area.old) target.now.form.place.vdr ≡ false }
        requires count { count ≡ extent (max_rec_at (A.image area.old) target.now.form.place.vdr) }
        requires uncut { cuts_before_put (variable_at (A.image area.old) target.now.form.place.vdr) rec ≡ false }
        requires start { IsKnownStart (A.image area.old) target.now.form.place.vdr known }
        requires room { HasRoom (A.image area.old) target.now rec (A.frame area.old).limit }
        requires limit { (A.frame area.old).limit ≤ image_limit }
        ensures follows { OnOk result ((c : Command) (name : List ℕ) → PutsSo (A.image area.old) c name rec target.now bytes.items → Follows (A.image area.old) c (A.image area.new)) }
        ensures known { OnOk result (Knows (A.image area.new) self.now) }
        ensures starts { OnOk result ((starts : Starts) → KnowsStarts (A.image area.old) starts → ExpectsPut (A.image area.old) target.now.form.place.vdr rec starts → KnowsStarts (A.image area.new) starts) }
        ensures area { Edits A.frame A.faults area.old area.new result }
    {
        let put = read_new_record(self.alloc, area, target, rec, count, bytes)?;
        put_records(self.alloc, area, &put, known, rec.min(count))?;
        self.raise_max_rec(area, target, rec, count)
    }

    /// Puts a record of a packed variable, for which there is room, where nothing is cut before. After an error a part of this may have been done.
    #[tactic(auto, using(cdf_area::proofs::Calls::edit_done, cdf_area::proofs::Calls::edit_failed, cdf_area::proofs::Calls::edit_more, cdf_area::proofs::Calls::edits_by_read, cdf_area::proofs::Calls::keeps_by_read, cdf_area::proofs::Calls::read_once))]
    fn write_packed<A: Area>(
        &self,
        area: &mut A,
        target: &Target,
        known: Option<u64>,
        rec: u32,
        count: u32,
        bytes: Vec<u8>,
    ) -> Result<(), AreaError>
        requires good { Good (A.image area.old) }
        requires known { Knows (A.image area.old) self.now }
        requires can { CanPut (A.image area.old) rec target.now bytes.items }
        requires packed { is_compressed (A.image area.old) target.now.form.place.vdr ≡ true }
        requires count { count ≡ extent (max_rec_at (A.image area.old) target.now.form.place.vdr) }
        requires uncut { cuts_before_put (variable_at (A.image area.old) target.now.form.place.vdr) rec ≡ false }
        requires start { IsKnownStart (A.image area.old) target.now.form.place.vdr known }
        requires room { HasRoom (A.image area.old) target.now rec (A.frame area.old).limit }
        requires limit { (A.frame area.old).limit ≤ image_limit }
        ensures follows { OnOk result ((c : Command) (name : List ℕ) → PutsSo (A.image area.old) c name rec target.now bytes.items → Follows (A.image area.old) c (A.image area.new)) }
        ensures known { OnOk result (Knows (A.image area.new) self.now) }
        ensures starts { OnOk result ((starts : Starts) → KnowsStarts (A.image area.old) starts → ExpectsPut (A.image area.old) target.now.form.place.vdr rec starts → KnowsStarts (A.image area.new) starts) }
        ensures area { Edits A.frame A.faults area.old area.new result }
    {
        let put = read_new_record(self.alloc, area, target, rec, count, bytes)?;
        put_packed(self.alloc, area, &put, known, rec.min(count))?;
        self.raise_max_rec(area, target, rec, count)
    }

    /// Puts a record of a variable, which there is room for, where nothing is cut before. After an error a part of this may have been done.
    fn write_record<A: Area>(
        &self,
        area: &mut A,
        target: &Target,
        known: Option<u64>,
        rec: u32,
        count: u32,
        bytes: Vec<u8>,
    ) -> Result<(), AreaError>
        requires good { Good (A.image area.old) }
        requires known { Knows (A.image area.old) self.now }
        requires can { CanPut (A.image area.old) rec target.now bytes.items }
        requires count { count ≡ extent (max_rec_at (A.image area.old) target.now.form.place.vdr) }
        requires uncut { cuts_before_put (variable_at (A.image area.old) target.now.form.place.vdr) rec ≡ false }
        requires start { IsKnownStart (A.image area.old) target.now.form.place.vdr known }
        requires room { HasRoom (A.image area.old) target.now rec (A.frame area.old).limit }
        requires limit { (A.frame area.old).limit ≤ image_limit }
        ensures follows { OnOk result ((c : Command) (name : List ℕ) → PutsSo (A.image area.old) c name rec target.now bytes.items → Follows (A.image area.old) c (A.image area.new)) }
        ensures known { OnOk result (Knows (A.image area.new) self.now) }
        ensures starts { OnOk result ((starts : Starts) → KnowsStarts (A.image area.old) starts → ExpectsPut (A.image area.old) target.now.form.place.vdr rec starts → KnowsStarts (A.image area.new) starts) }
        ensures area { Edits A.frame A.faults area.old area.new result }
    {
        if is_packed(&target.form) {
            return self.write_packed(area, target, known, rec, count, bytes);
        }
        self.write_unpacked(area, target, known, rec, count, bytes)
    }

    /// Puts a record past MaxRec + 1 of a variable that is not packed and has a rule for missing records, and for which there is room: what its
    /// blocks have past MaxRec is cut first. Says whether it is known that each block stays. After an error a part of this may have been done.
    #[tactic(auto, using(cdf_area::proofs::Calls::edit_done, cdf_area::proofs::Calls::edit_failed, cdf_area::proofs::Calls::edit_more, cdf_area::proofs::Calls::edits_by_read, cdf_area::proofs::Calls::keeps_by_read, cdf_area::proofs::Calls::read_once))]
    fn write_unpacked_past<A: Area>(
        &self,
        area: &mut A,
        target: &Target,
        end: KnownEnd,
        rec: u32,
        count: u32,
        bytes: Vec<u8>,
    ) -> Result<bool, AreaError>
        requires good { Good (A.image area.old) }
        requires known { Knows (A.image area.old) self.now }
        requires can { CanPut (A.image area.old) rec target.now bytes.items }
        requires unpacked { is_compressed (A.image area.old) target.now.form.place.vdr ≡ false }
        requires count { count ≡ extent (max_rec_at (A.image area.old) target.now.form.place.vdr) }
        requires cuts { cuts_before_put (variable_at (A.image area.old) target.now.form.place.vdr) rec ≡ true }
        requires start { IsKnownStart (A.image area.old) target.now.form.place.vdr end.node }
        requires tidy { end.tidy ≡ true → IsTidy (index_at (A.image area.old) (number (A.image area.old) target.now.form.place.vdr vdr_vxr_head)) }
        requires room { HasRoom (A.image area.old) target.now rec (A.frame area.old).limit }
        requires limit { (A.frame area.old).limit ≤ image_limit }
        ensures follows { OnOk result ((c : Command) (name : List ℕ) → PutsSo (A.image area.old) c name rec target.now bytes.items → Follows (A.image area.old) c (A.image area.new)) }
        ensures known { OnOk result (Knows (A.image area.new) self.now) }
        ensures starts { IfOk result (λ stays. stays ≡ true → (starts : Starts) → KnowsStarts (A.image area.old) starts → ExpectsPut (A.image area.old) target.now.form.place.vdr rec starts → KnowsStarts (A.image area.new) starts) }
        ensures forgotten { OnOk result ((starts : Starts) → KnowsStarts (A.image area.old) starts → IsForgotten target.now.form.place.vdr starts → KnowsStarts (A.image area.new) starts) }
        ensures tidy { OnOk result (HasTidyIndex (A.image area.new) target.now.form.place.vdr) }
        ensures area { Edits A.frame A.faults area.old area.new result }
    {
        let put = read_new_record(self.alloc, area, target, rec, count, bytes)?;
        let stays = cut_end(self.alloc, area, put.vdr, end, count)?;
        put_records(self.alloc, area, &put, known_yet(end.node, stays), rec)?;
        self.raise_max_rec(area, target, rec, count)?;
        Ok(stays)
    }

    /// Puts a record past MaxRec + 1 of a packed variable that has a rule for missing records, and for which there is room: what its blocks have past
    /// MaxRec is cut first. After an error a part of this may have been done.
    #[tactic(auto, using(cdf_area::proofs::Calls::edit_done, cdf_area::proofs::Calls::edit_failed, cdf_area::proofs::Calls::edit_more, cdf_area::proofs::Calls::edits_by_read, cdf_area::proofs::Calls::keeps_by_read, cdf_area::proofs::Calls::read_once))]
    fn write_packed_past<A: Area>(
        &self,
        area: &mut A,
        target: &Target,
        rec: u32,
        count: u32,
        bytes: Vec<u8>,
    ) -> Result<(), AreaError>
        requires good { Good (A.image area.old) }
        requires known { Knows (A.image area.old) self.now }
        requires can { CanPut (A.image area.old) rec target.now bytes.items }
        requires packed { is_compressed (A.image area.old) target.now.form.place.vdr ≡ true }
        requires count { count ≡ extent (max_rec_at (A.image area.old) target.now.form.place.vdr) }
        requires cuts { cuts_before_put (variable_at (A.image area.old) target.now.form.place.vdr) rec ≡ true }
        requires room { HasRoom (A.image area.old) target.now rec (A.frame area.old).limit }
        requires limit { (A.frame area.old).limit ≤ image_limit }
        ensures follows { OnOk result ((c : Command) (name : List ℕ) → PutsSo (A.image area.old) c name rec target.now bytes.items → Follows (A.image area.old) c (A.image area.new)) }
        ensures known { OnOk result (Knows (A.image area.new) self.now) }
        ensures forgotten { OnOk result ((starts : Starts) → KnowsStarts (A.image area.old) starts → IsForgotten target.now.form.place.vdr starts → KnowsStarts (A.image area.new) starts) }
        ensures area { Edits A.frame A.faults area.old area.new result }
    {
        let rec_bytes = record_size_of(&target.form.shape);
        let put = read_new_record(self.alloc, area, target, rec, count, bytes)?;
        cut_packed_past(self.alloc, area, put.vdr, rec_bytes, count)?;
        put_packed(self.alloc, area, &put, None, rec)?;
        self.raise_max_rec(area, target, rec, count)
    }

    /// Puts a record past MaxRec + 1 of a variable that has a rule for missing records, and for which there is room: what its blocks have past
    /// MaxRec is cut first. After an error a part of this may have been done.
    fn write_past<A: Area>(
        &self,
        area: &mut A,
        starts: &mut Starts,
        target: &Target,
        known: Option<u64>,
        rec: u32,
        count: u32,
        bytes: Vec<u8>,
    ) -> Result<(), AreaError>
        requires good { Good (A.image area.old) }
        requires known { Knows (A.image area.old) self.now }
        requires can { CanPut (A.image area.old) rec target.now bytes.items }
        requires count { count ≡ extent (max_rec_at (A.image area.old) target.now.form.place.vdr) }
        requires cuts { cuts_before_put (variable_at (A.image area.old) target.now.form.place.vdr) rec ≡ true }
        requires start { IsKnownStart (A.image area.old) target.now.form.place.vdr known }
        requires starts { KnowsStarts (A.image area.old) starts.old }
        requires expects { ExpectsPut (A.image area.old) target.now.form.place.vdr rec starts.old }
        requires room { HasRoom (A.image area.old) target.now rec (A.frame area.old).limit }
        requires limit { (A.frame area.old).limit ≤ image_limit }
        ensures follows { OnOk result ((c : Command) (name : List ℕ) → PutsSo (A.image area.old) c name rec target.now bytes.items → Follows (A.image area.old) c (A.image area.new)) }
        ensures known { OnOk result (Knows (A.image area.new) self.now) }
        ensures starts { OnOk result (KnowsStarts (A.image area.new) starts.new) }
        ensures starts_stay { OnErr result (KnowsStarts (A.image area.old) starts.new) }
        ensures area { Edits A.frame A.faults area.old area.new result }
    {
        if is_packed(&target.form) {
            self.write_packed_past(area, target, rec, count, bytes)?;
            starts.forget_index(target.form.place.vdr);
            return Ok(());
        }
        let vdr = target.form.place.vdr;
        let tidy = starts.is_tidy(vdr);
        let end = KnownEnd { node: known, tidy };
        let stays = self.write_unpacked_past(area, target, end, rec, count, bytes)?;
        note_cut(starts, vdr, stays);
        Ok(())
    }

    /// Puts a record of a variable where there is room for it. After an error a part of this may have been done in the area.
    #[tactic(auto, using(cdf_area::proofs::Calls::edit_done, cdf_area::proofs::Calls::edit_failed, cdf_area::proofs::Calls::edit_more, cdf_area::proofs::Calls::edits_by_read, cdf_area::proofs::Calls::keeps_by_read, cdf_area::proofs::Calls::read_failed, cdf_area::proofs::Calls::read_more, cdf_area::proofs::Calls::read_once))]
    pub(crate) fn put_bytes<A: Area>(
        &self,
        area: &mut A,
        starts: &mut Starts,
        target: &Target,
        rec: u32,
        bytes: Vec<u8>,
    ) -> Result<Outcome, AreaError>
        requires good { Good (A.image area.old) }
        requires known { Knows (A.image area.old) self.now }
        requires can { CanPut (A.image area.old) rec target.now bytes.items }
        requires starts { KnowsStarts (A.image area.old) starts.old }
        requires fits { length (A.image area.old) ≤ (A.frame area.old).limit }
        requires limit { (A.frame area.old).limit ≤ image_limit }
        ensures answers { IfOk result (λ o. (c : Command) (name : List ℕ) → PutsSo (A.image area.old) c name rec target.now bytes.items → Answers (A.frame area.old).limit (A.image area.old) c o (A.image area.new)) }
        ensures known { OnOk result (Knows (A.image area.new) self.now) }
        ensures starts { OnOk result (KnowsStarts (A.image area.new) starts.new) }
        ensures starts_stay { OnErr result (KnowsStarts (A.image area.old) starts.new) }
        ensures refused { IfOk result (λ o. IsTrue (is_refused o) → A.edited area.new ≡ A.edited area.old) }
        ensures area { Edits A.frame A.faults area.old area.new result }
    {
        let vdr = target.form.place.vdr;
        let known = starts.find_start(area, vdr, rec)?;
        let count = read_extent(area, vdr)?;
        let from = read_first_written(area, vdr, rec, count)?;
        let left = area.limit() - area.size();
        let fits = has_put_room(area, starts, &target.form, known, rec, from, left)?;
        if !fits {
            return Ok(Outcome::Refused {
                reason: Reason::TooLarge,
            });
        }
        if count < from {
            self.write_past(area, starts, target, known, rec, count, bytes)?;
            return Ok(Outcome::Done {
                reply: Reply::Plain,
            });
        }
        self.write_record(area, target, known, rec, count, bytes)?;
        Ok(Outcome::Done {
            reply: Reply::Plain,
        })
    }
}
