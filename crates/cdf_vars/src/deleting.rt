//! The command `del-recs`: records of a variable go. Later ones close up, or keep their numbers under a rule for missing records.

ghost use Rattle.std.specs.Prelude.{◌≡◌, ◌<◌, ◌≤◌, ◌^◌, ◌+◌, ℕ, List, Some, length, true, IfOk, OnOk, IsTrue, false};
ghost use Rattle.cdf_area.specs.Calls.{Edits};
ghost use Rattle.cdf_edits.specs.Answers.{Answers};
ghost use Rattle.cdf_edits.specs.Commands.Room.{cut_room};
ghost use Rattle.cdf_edits.specs.Follows.{Follows};
ghost use Rattle.cdf_edits.specs.Index.Blocks.{extent_after, is_sparse};
ghost use Rattle.cdf_format.specs.Content.{content};
ghost use Rattle.cdf_format.specs.Fields.{number};
ghost use Rattle.cdf_format.specs.Records.{vdr_vxr_head};
ghost use Rattle.cdf_format.specs.VariableFields.{max_rec_at, record_bytes};
ghost use Rattle.cdf_format.specs.WellFormed.{Good};
ghost use Rattle.cdf_index.specs.Finding.{index_at};
ghost use Rattle.cdf_model.specs.DataSet.{extent};
ghost use Rattle.cdf_model.specs.Limits.{image_limit};
ghost use Rattle.cdf_model.specs.Names.{variable_named};
ghost use Rattle.cdf_model.specs.Turns.{is_refused};
ghost use Rattle.cdf_model.specs.declared.command.Command.TheVariants.{DelRecs};
ghost use Rattle.cdf_model.specs.declared.kinds.Sparse.TheVariants.{NoRule};
ghost use Rattle.cdf_var_records.specs.Records.{variable_at};
ghost use Rattle.cdf_vars.specs.Known.{Knows};
ghost use Rattle.cdf_vars.specs.Puts.{IsTarget, target_found};
ghost use Rattle.cdf_format.specs.Shape.{is_compressed};
ghost use Rattle.cdf_format.specs.NotRead.{IsRead};

use crate::puts::Target;
use crate::removing::last_number;
use crate::vars::Vars;
use cdf_area::{Area, AreaError};
use cdf_cuts::{close_records, cut_past, read_closing_room};
use cdf_model::{Outcome, Reason, Reply};
use cdf_sparse::open_records;
use cdf_sparse_reads::{has_gaps, read_extent_after, read_opening_room};
use cdf_var_records::{read_extent, read_sparse, record_size_of};

impl Vars {
    /// Takes records out of a variable without a rule for missing records: later ones close up. After an error a part of this may have been done.
    fn close_up<A: Area>(
        &self,
        area: &mut A,
        target: &Target,
        rec_bytes: u64,
        first: u32,
        last: u32,
        count: u32,
    ) -> Result<(), AreaError>
        requires good { Good (A.image area.old) }
        requires known { Knows (A.image area.old) self.now }
        requires target { IsTarget (A.image area.old) target.now }
        requires unpacked { is_compressed (A.image area.old) target.now.form.place.vdr ≡ false }
        requires free { (variable_at (A.image area.old) target.now.form.place.vdr).sparse ≡ NoRule }
        requires size { rec_bytes ≡ record_bytes (A.image area.old) target.now.form.place.vdr }
        requires count { count ≡ extent (max_rec_at (A.image area.old) target.now.form.place.vdr) }
        requires order { first ≤ last }
        requires has { last < count }
        requires few { count ≤ 2 ^ 31 }
        requires short { length (A.image area.old) ≤ image_limit }
        ensures follows { OnOk result ((name : List ℕ) → variable_named (content (A.image area.old)) name ≡ Some (target_found (A.image area.old) target.now) → Follows (A.image area.old) (DelRecs name first last) (A.image area.new)) }
        ensures known { OnOk result (Knows (A.image area.new) self.now) }
        ensures area { Edits A.frame A.faults area.old area.new result }
    {
        let vdr = target.form.place.vdr;
        close_records(self.alloc, area, vdr, rec_bytes, first, last)?;
        self.write_max_rec(area, target, last_number(count - (last + 1 - first)))
    }

    /// Takes records out of a variable that has a rule for missing records: later ones keep their numbers, and all that stands past the last
    /// one left goes too. After an error a part of this may have been done.
    #[tactic(auto, using(cdf_area::proofs::Calls::edit_done, cdf_area::proofs::Calls::edit_failed, cdf_area::proofs::Calls::edit_more, cdf_area::proofs::Calls::edits_by_read, cdf_area::proofs::Calls::keeps_by_read))]
    fn leave_gap<A: Area>(
        &self,
        area: &mut A,
        target: &Target,
        first: u32,
        last: u32,
        count: u32,
        end: u32,
    ) -> Result<(), AreaError>
        requires good { Good (A.image area.old) }
        requires known { Knows (A.image area.old) self.now }
        requires target { IsTarget (A.image area.old) target.now }
        requires unpacked { is_compressed (A.image area.old) target.now.form.place.vdr ≡ false }
        requires rule { is_sparse (variable_at (A.image area.old) target.now.form.place.vdr).sparse ≡ true }
        requires count { count ≡ extent (max_rec_at (A.image area.old) target.now.form.place.vdr) }
        requires order { first ≤ last }
        requires has { last < count }
        requires few { count ≤ 2 ^ 31 }
        requires end { end ≡ extent_after (variable_at (A.image area.old) target.now.form.place.vdr) first last }
        requires fewer { end ≤ count }
        requires room { length (A.image area.old) + cut_room (variable_at (A.image area.old) target.now.form.place.vdr) (index_at (A.image area.old) (number (A.image area.old) target.now.form.place.vdr vdr_vxr_head)) first last ≤ (A.frame area.old).limit }
        requires limit { (A.frame area.old).limit ≤ image_limit }
        ensures follows { OnOk result ((name : List ℕ) → variable_named (content (A.image area.old)) name ≡ Some (target_found (A.image area.old) target.now) → Follows (A.image area.old) (DelRecs name first last) (A.image area.new)) }
        ensures known { OnOk result (Knows (A.image area.new) self.now) }
        ensures area { Edits A.frame A.faults area.old area.new result }
    {
        let vdr = target.form.place.vdr;
        let rec_bytes = record_size_of(&target.form.shape);
        open_records(self.alloc, area, vdr, rec_bytes, first, last)?;
        cut_past(self.alloc, area, vdr, end)?;
        if end == count {
            return Ok(());
        }
        self.write_max_rec(area, target, last_number(end))
    }

    /// Takes records out of a variable without a rule for missing records, where there is room. After an error a part of this may have been done
    /// in the area.
    #[tactic(auto, using(cdf_area::proofs::Calls::edit_done, cdf_area::proofs::Calls::edit_failed, cdf_area::proofs::Calls::edit_more, cdf_area::proofs::Calls::edits_by_read, cdf_area::proofs::Calls::keeps_by_read, cdf_area::proofs::Calls::read_failed, cdf_area::proofs::Calls::read_more, cdf_area::proofs::Calls::read_once))]
    fn delete_without_rule<A: Area>(
        &self,
        area: &mut A,
        target: &Target,
        first: u32,
        last: u32,
        count: u32,
    ) -> Result<Outcome, AreaError>
        requires good { Good (A.image area.old) }
        requires known { Knows (A.image area.old) self.now }
        requires target { IsTarget (A.image area.old) target.now }
        requires unpacked { is_compressed (A.image area.old) target.now.form.place.vdr ≡ false }
        requires free { (variable_at (A.image area.old) target.now.form.place.vdr).sparse ≡ NoRule }
        requires count { count ≡ extent (max_rec_at (A.image area.old) target.now.form.place.vdr) }
        requires order { first ≤ last }
        requires has { last < count }
        requires few { count ≤ 2 ^ 31 }
        requires fits { length (A.image area.old) ≤ (A.frame area.old).limit }
        requires limit { (A.frame area.old).limit ≤ image_limit }
        ensures answers { IfOk result (λ o. (name : List ℕ) → variable_named (content (A.image area.old)) name ≡ Some (target_found (A.image area.old) target.now) → Answers (A.frame area.old).limit (A.image area.old) (DelRecs name first last) o (A.image area.new)) }
        ensures known { OnOk result (Knows (A.image area.new) self.now) }
        ensures refused { IfOk result (λ o. IsTrue (is_refused o) → A.edited area.new ≡ A.edited area.old) }
        ensures area { Edits A.frame A.faults area.old area.new result }
    {
        let rec_bytes = record_size_of(&target.form.shape);
        let room = read_closing_room(area, target.form.place.vdr, rec_bytes, first, last)?;
        if area.limit() - area.size() < room {
            return Ok(Outcome::Refused {
                reason: Reason::TooLarge,
            });
        }
        self.close_up(area, target, rec_bytes, first, last, count)?;
        Ok(Outcome::Done {
            reply: Reply::Plain,
        })
    }

    /// Takes records out of a variable that has a rule for missing records, where there is room. After an error a part of this may have been done
    /// in the area.
    #[tactic(auto, using(cdf_area::proofs::Calls::edit_done, cdf_area::proofs::Calls::edit_failed, cdf_area::proofs::Calls::edit_more, cdf_area::proofs::Calls::edits_by_read, cdf_area::proofs::Calls::keeps_by_read, cdf_area::proofs::Calls::read_failed, cdf_area::proofs::Calls::read_more, cdf_area::proofs::Calls::read_once))]
    fn delete_under_rule<A: Area>(
        &self,
        area: &mut A,
        target: &Target,
        first: u32,
        last: u32,
        count: u32,
    ) -> Result<Outcome, AreaError>
        requires good { Good (A.image area.old) }
        requires known { Knows (A.image area.old) self.now }
        requires target { IsTarget (A.image area.old) target.now }
        requires unpacked { is_compressed (A.image area.old) target.now.form.place.vdr ≡ false }
        requires rule { is_sparse (variable_at (A.image area.old) target.now.form.place.vdr).sparse ≡ true }
        requires count { count ≡ extent (max_rec_at (A.image area.old) target.now.form.place.vdr) }
        requires order { first ≤ last }
        requires has { last < count }
        requires few { count ≤ 2 ^ 31 }
        requires fits { length (A.image area.old) ≤ (A.frame area.old).limit }
        requires limit { (A.frame area.old).limit ≤ image_limit }
        ensures answers { IfOk result (λ o. (name : List ℕ) → variable_named (content (A.image area.old)) name ≡ Some (target_found (A.image area.old) target.now) → Answers (A.frame area.old).limit (A.image area.old) (DelRecs name first last) o (A.image area.new)) }
        ensures known { OnOk result (Knows (A.image area.new) self.now) }
        ensures refused { IfOk result (λ o. IsTrue (is_refused o) → A.edited area.new ≡ A.edited area.old) }
        ensures area { Edits A.frame A.faults area.old area.new result }
    {
        let vdr = target.form.place.vdr;
        let rec_bytes = record_size_of(&target.form.shape);
        let end = read_extent_after(area, vdr, first, last, count)?;
        let room = read_opening_room(area, vdr, rec_bytes, first, last, end)?;
        if area.limit() - area.size() < room {
            return Ok(Outcome::Refused {
                reason: Reason::TooLarge,
            });
        }
        self.leave_gap(area, target, first, last, count, end)?;
        Ok(Outcome::Done {
            reply: Reply::Plain,
        })
    }

    /// Takes records out of a variable, where it has them and there is room. After an error a part of this may have been done in the area.
    #[tactic(auto, using(cdf_area::proofs::Calls::edit_done, cdf_area::proofs::Calls::edit_failed, cdf_area::proofs::Calls::edit_more, cdf_area::proofs::Calls::edits_by_read, cdf_area::proofs::Calls::keeps_by_read, cdf_area::proofs::Calls::read_failed, cdf_area::proofs::Calls::read_more, cdf_area::proofs::Calls::read_once))]
    fn delete_target<A: Area>(
        &self,
        area: &mut A,
        target: &Target,
        first: u32,
        last: u32,
    ) -> Result<Outcome, AreaError>
        requires good { Good (A.image area.old) }
        requires known { Knows (A.image area.old) self.now }
        requires target { IsTarget (A.image area.old) target.now }
        requires unpacked { is_compressed (A.image area.old) target.now.form.place.vdr ≡ false }
        requires fits { length (A.image area.old) ≤ (A.frame area.old).limit }
        requires limit { (A.frame area.old).limit ≤ image_limit }
        ensures answers { IfOk result (λ o. (name : List ℕ) → variable_named (content (A.image area.old)) name ≡ Some (target_found (A.image area.old) target.now) → Answers (A.frame area.old).limit (A.image area.old) (DelRecs name first last) o (A.image area.new)) }
        ensures known { OnOk result (Knows (A.image area.new) self.now) }
        ensures refused { IfOk result (λ o. IsTrue (is_refused o) → A.edited area.new ≡ A.edited area.old) }
        ensures area { Edits A.frame A.faults area.old area.new result }
    {
        let vdr = target.form.place.vdr;
        let count = read_extent(area, vdr)?;
        if last < first || count <= last {
            return Ok(Outcome::Refused {
                reason: Reason::RecordOutOfRange,
            });
        }
        let rule = read_sparse(area, vdr)?;
        if has_gaps(rule) {
            return self.delete_under_rule(area, target, first, last, count);
        }
        self.delete_without_rule(area, target, first, last, count)
    }

    /// Takes records out of a variable: the command `del-recs`. Later ones close up, or keep their numbers under a rule for missing records. After an
    /// error a part of this may have been done in the area.
    pub fn del_recs<A: Area>(
        &self,
        area: &mut A,
        name: &[u8],
        first: u32,
        last: u32,
    ) -> Result<Outcome, AreaError>
        requires good { Good (A.image area.old) }
        requires read { IsRead (A.image area.old) }
        requires known { Knows (A.image area.old) self.now }
        requires fits { length (A.image area.old) ≤ (A.frame area.old).limit }
        requires limit { (A.frame area.old).limit ≤ image_limit }
        ensures answers { IfOk result (λ o. Answers (A.frame area.old).limit (A.image area.old) (DelRecs name.now first last) o (A.image area.new)) }
        ensures known { OnOk result (Knows (A.image area.new) self.now) }
        ensures refused { IfOk result (λ o. IsTrue (is_refused o) → A.edited area.new ≡ A.edited area.old) }
        ensures area { Edits A.frame A.faults area.old area.new result }
    {
        let Some(target) = self.find_target(area, name)? else {
            return Ok(Outcome::Refused {
                reason: Reason::NoSuchVar,
            });
        };
        self.delete_target(area, &target, first, last)
    }
}
