//! The commands `rvar` and `zvar`: a last variable of a kind is made.

ghost use Rattle.std.specs.Prelude.{◌≡◌, ◌≤◌, ◌+◌, ◌++◌, ◌∷◌, [], ℕ, List, length, false, IfOk, OnOk, OnErr, IsTrue};
ghost use Rattle.cdf_area.specs.Calls.{Edits};
ghost use Rattle.cdf_edits.specs.Answers.{Answers};
ghost use Rattle.cdf_edits.specs.Commands.Allowances.{shapes_of};
ghost use Rattle.cdf_edits.specs.Commands.Room.{vdr_bytes};
ghost use Rattle.cdf_edits.specs.Follows.{Follows};
ghost use Rattle.cdf_format.specs.Content.{content};
ghost use Rattle.cdf_format.specs.Shape.{shape, vdrs};
ghost use Rattle.cdf_format.specs.WellFormed.{Good};
ghost use Rattle.cdf_model.specs.Limits.{image_limit};
ghost use Rattle.cdf_model.specs.Names.{is_among, is_bad_name, variable_names};
ghost use Rattle.cdf_model.specs.VariableSteps.{is_bad_shape};
ghost use Rattle.cdf_model.specs.Turns.{is_refused};
ghost use Rattle.cdf_model.specs.declared.command.Command.TheVariants.{RVar, ZVar};
ghost use Rattle.cdf_vars.specs.Creating.{HasDims, OthersStay, making, wanted};
ghost use Rattle.cdf_vars.specs.Known.{Knows, KnowsKind};

use crate::chain::chain_of;
use crate::descriptor::vdr_body;
use crate::vars::{VarTable, Vars};
use cdf_area::{Area, AreaError};
use cdf_model::{Bytes, DataType, Kind, Nums, Outcome, Reason, Reply, Varys};
use cdf_names::is_bad_name;
use cdf_shape::Shape;
use cdf_space::append_record;
use cdf_var_records::{descriptor_size, is_bad_shape, read_dims};
use std::alloc::{AllocError, Global};

/// The shape of the records of a variable with these dimensions.
fn shape_with(
    alloc: Global,
    t: DataType,
    elems: u32,
    dims: Nums,
    varys: &Varys,
) -> Result<Shape, AllocError>
    ensures { IfOk result (λ shape. (shape.t ≡ t) × (shape.elems ≡ elems) × (shape.dims ≡ dims) × (shape.varys ≡ varys.now)) }
{
    let varys = Varys::new(varys.as_slice().to_vec(alloc)?);
    Ok(Shape {
        t,
        elems,
        dims,
        varys,
    })
}

/// Makes a last variable of a kind in the area, whose place becomes the last one.
fn make<A: Area>(
    alloc: Global,
    places: &mut Vec<u64>,
    area: &mut A,
    kind: Kind,
    name: &[u8],
    form: &Shape,
    vary: bool,
) -> Result<(), AreaError>
    requires good { Good (A.image area.old) }
    requires places { places.old.items ≡ vdrs (shapes_of (shape (A.image area.old)) kind) }
    requires named { is_bad_name name.now ≡ false }
    requires free { is_among name.now (variable_names (content (A.image area.old))) ≡ false }
    requires shaped { is_bad_shape form.now.t form.now.elems form.now.dims form.now.varys ≡ false }
    requires dims { HasDims (A.image area.old) kind form.now.dims }
    requires room { length (A.image area.old) + vdr_bytes kind (length form.now.dims) ≤ (A.frame area.old).limit }
    requires limit { (A.frame area.old).limit ≤ image_limit }
    ensures follows { OnOk result (Follows (A.image area.old) (making kind (wanted name.now form.now vary)) (A.image area.new)) }
    ensures known { OnOk result ((names : List (List ℕ)) → KnowsKind (A.image area.old) kind (record { names = names; places = places.old.items }) → KnowsKind (A.image area.new) kind (record { names = names ++ name.now ∷ []; places = places.new.items })) }
    ensures others { OnOk result (OthersStay (A.image area.old) (A.image area.new) kind) }
    ensures stays { OnErr result (places.new.items ≡ places.old.items) }
    ensures area { Edits A.frame A.faults area.old area.new result }
{
    let num = places.len() as u32;
    let bytes = vdr_body(alloc, kind, name, form, vary, num)?;
    let last = places.last().copied();
    let place = append_record(area, chain_of(kind), last, &bytes)?;
    places.push(place)?;
    Ok(())
}

impl VarTable {
    /// Makes a last variable of the kind, of which it keeps the name and the place. After an error a part of this may have been done in the area.
    fn add<A: Area>(
        &mut self,
        alloc: Global,
        area: &mut A,
        kind: Kind,
        name: &[u8],
        form: &Shape,
        vary: bool,
    ) -> Result<(), AreaError>
        requires good { Good (A.image area.old) }
        requires known { KnowsKind (A.image area.old) kind self.old }
        requires named { is_bad_name name.now ≡ false }
        requires free { is_among name.now (variable_names (content (A.image area.old))) ≡ false }
        requires shaped { is_bad_shape form.now.t form.now.elems form.now.dims form.now.varys ≡ false }
        requires dims { HasDims (A.image area.old) kind form.now.dims }
        requires room { length (A.image area.old) + vdr_bytes kind (length form.now.dims) ≤ (A.frame area.old).limit }
        requires limit { (A.frame area.old).limit ≤ image_limit }
        ensures follows { OnOk result (Follows (A.image area.old) (making kind (wanted name.now form.now vary)) (A.image area.new)) }
        ensures known { OnOk result (KnowsKind (A.image area.new) kind self.new) }
        ensures others { OnOk result (OthersStay (A.image area.old) (A.image area.new) kind) }
        ensures stays { OnErr result (KnowsKind (A.image area.old) kind self.new) }
        ensures area { Edits A.frame A.faults area.old area.new result }
    {
        let last = self.names.len();
        self.names.add(Bytes::new(name.to_vec(alloc)?))?;
        match make(alloc, &mut self.places, area, kind, name, form, vary) {
            Ok(()) => Ok(()),
            Err(error) => {
                self.names.remove(last);
                Err(error)
            }
        }
    }
}

impl Vars {
    /// Makes a last variable of a kind.
    fn create<A: Area>(
        &mut self,
        area: &mut A,
        kind: Kind,
        name: &[u8],
        form: &Shape,
        vary: bool,
    ) -> Result<Outcome, AreaError>
        requires good { Good (A.image area.old) }
        requires known { Knows (A.image area.old) self.old }
        requires fits { length (A.image area.old) ≤ (A.frame area.old).limit }
        requires limit { (A.frame area.old).limit ≤ image_limit }
        requires dims { HasDims (A.image area.old) kind form.now.dims }
        ensures answers { IfOk result (λ o. Answers (A.frame area.old).limit (A.image area.old) (making kind (wanted name.now form.now vary)) o (A.image area.new)) }
        ensures known { OnOk result (Knows (A.image area.new) self.new) }
        ensures stays { OnErr result (Knows (A.image area.old) self.new) }
        ensures refused { IfOk result (λ o. IsTrue (is_refused o) → A.edited area.new ≡ A.edited area.old) }
        ensures area { Edits A.frame A.faults area.old area.new result }
    {
        if is_bad_name(name) {
            return Ok(Outcome::Refused {
                reason: Reason::BadName,
            });
        }
        if self.find(name).is_some() {
            return Ok(Outcome::Refused {
                reason: Reason::NameTaken,
            });
        }
        if is_bad_shape(form) {
            return Ok(Outcome::Refused {
                reason: Reason::BadShape,
            });
        }
        if area.limit() < area.size() + descriptor_size(kind, form.dims.as_slice().len()) {
            return Ok(Outcome::Refused {
                reason: Reason::TooLarge,
            });
        }
        match kind {
            Kind::R => self.r.add(self.alloc, area, kind, name, form, vary)?,
            Kind::Z => self.z.add(self.alloc, area, kind, name, form, vary)?,
        }
        Ok(Outcome::Done {
            reply: Reply::Plain,
        })
    }

    /// Makes a last r variable, without records: the command `rvar`. After an error a part of this may have been done in the area.
    pub fn create_r<A: Area>(
        &mut self,
        area: &mut A,
        name: &[u8],
        t: DataType,
        elems: u32,
        vary: bool,
        varys: &Varys,
    ) -> Result<Outcome, AreaError>
        requires good { Good (A.image area.old) }
        requires known { Knows (A.image area.old) self.old }
        requires fits { length (A.image area.old) ≤ (A.frame area.old).limit }
        requires limit { (A.frame area.old).limit ≤ image_limit }
        ensures answers { IfOk result (λ o. Answers (A.frame area.old).limit (A.image area.old) (RVar name.now t elems vary varys.now) o (A.image area.new)) }
        ensures known { OnOk result (Knows (A.image area.new) self.new) }
        ensures stays { OnErr result (Knows (A.image area.old) self.new) }
        ensures refused { IfOk result (λ o. IsTrue (is_refused o) → A.edited area.new ≡ A.edited area.old) }
        ensures area { Edits A.frame A.faults area.old area.new result }
    {
        let dims = read_dims(self.alloc, area)?;
        let form = shape_with(self.alloc, t, elems, dims, varys)?;
        self.create(area, Kind::R, name, &form, vary)
    }

    /// Makes a last z variable, without records: the command `zvar`. After an error a part of this may have been done in the area.
    pub fn create_z<A: Area>(
        &mut self,
        area: &mut A,
        name: &[u8],
        t: DataType,
        elems: u32,
        vary: bool,
        dims: &Nums,
        varys: &Varys,
    ) -> Result<Outcome, AreaError>
        requires good { Good (A.image area.old) }
        requires known { Knows (A.image area.old) self.old }
        requires fits { length (A.image area.old) ≤ (A.frame area.old).limit }
        requires limit { (A.frame area.old).limit ≤ image_limit }
        ensures answers { IfOk result (λ o. Answers (A.frame area.old).limit (A.image area.old) (ZVar name.now t elems vary dims.now varys.now) o (A.image area.new)) }
        ensures known { OnOk result (Knows (A.image area.new) self.new) }
        ensures stays { OnErr result (Knows (A.image area.old) self.new) }
        ensures refused { IfOk result (λ o. IsTrue (is_refused o) → A.edited area.new ≡ A.edited area.old) }
        ensures area { Edits A.frame A.faults area.old area.new result }
    {
        let dims = Nums::new(dims.as_slice().to_vec(self.alloc)?);
        let form = shape_with(self.alloc, t, elems, dims, varys)?;
        self.create(area, Kind::Z, name, &form, vary)
    }
}
