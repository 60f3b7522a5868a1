//! The command `attr`: a last attribute is made.

ghost use Rattle.std.specs.Prelude.{[], ◌≡◌, ◌≤◌, ◌+◌, ◌++◌, ◌∷◌, length, false, IfOk, OnOk, OnErr, IsTrue};
ghost use Rattle.cdf_area.specs.Calls.{Edits};
ghost use Rattle.cdf_attrs.specs.Creating.{adr_body, scope_code};
ghost use Rattle.cdf_attrs.specs.Known.{Knows};
ghost use Rattle.cdf_format.specs.Content.{content};
ghost use Rattle.cdf_edits.specs.Answers.{Answers};
ghost use Rattle.cdf_edits.specs.Follows.{Follows};
ghost use Rattle.cdf_format.specs.Shape.{adrs, shape};
ghost use Rattle.cdf_format.specs.WellFormed.{Good};
ghost use Rattle.cdf_format.specs.RecordTypes.{fixed_size, adr_type};
ghost use Rattle.cdf_model.specs.Limits.{image_limit};
ghost use Rattle.cdf_model.specs.Names.{attribute_names, is_among, is_bad_name, name_limit};
ghost use Rattle.cdf_model.specs.Sayable.{CanBeGiven};
ghost use Rattle.cdf_model.specs.Turns.{is_refused};
ghost use Rattle.cdf_model.specs.declared.command.Command.TheVariants.{Attr};

use crate::attrs::Attrs;
use cdf_area::{Area, AreaError};
use cdf_fields::padded;
use cdf_format::fields::{ADR_SIZE, ADR_TYPE};
use cdf_model::{Bytes, Outcome, Reason, Reply, Scope};
use cdf_names::is_bad_name;
use cdf_space::{Chain, append_record};
use std::alloc::{AllocError, Global};

/// Scope, as it is stored.
fn code_of(scope: Scope) -> u32
    ensures { result ≡ scope_code scope }
{
    match scope {
        Scope::Global => 1,
        Scope::Variable => 2,
        Scope::GlobalAssumed => 3,
        Scope::VariableAssumed => 4,
    }
}

/// What follows the size of a new Attribute Descriptor Record.
#[tactic(auto, unfolding(crate::specs::Creating::adr_body))]
fn adr_bytes(alloc: Global, scope: u32, num: u32, name: &[u8]) -> Result<Vec<u8>, AllocError>
    requires { length name.now ≤ name_limit }
    ensures { IfOk result (λ bytes. bytes.items ≡ adr_body scope num name.now) }
{
    let mut bytes = Vec::new(alloc);
    bytes.extend_from_slice(&ADR_TYPE.to_be_bytes())?;
    // no next one, and no gr entries
    bytes.extend_from_slice(&0u64.to_be_bytes())?;
    bytes.extend_from_slice(&0u64.to_be_bytes())?;
    bytes.extend_from_slice(&scope.to_be_bytes())?;
    bytes.extend_from_slice(&num.to_be_bytes())?;
    // how many gr entries, their greatest number, and rfuA
    bytes.extend_from_slice(&0u32.to_be_bytes())?;
    bytes.extend_from_slice(&u32::MAX.to_be_bytes())?;
    bytes.extend_from_slice(&0u32.to_be_bytes())?;
    // no z entries, how many, their greatest number, and rfuE
    bytes.extend_from_slice(&0u64.to_be_bytes())?;
    bytes.extend_from_slice(&0u32.to_be_bytes())?;
    bytes.extend_from_slice(&u32::MAX.to_be_bytes())?;
    bytes.extend_from_slice(&u32::MAX.to_be_bytes())?;
    bytes.extend_from_slice(&padded(name))?;
    Ok(bytes)
}

/// Makes a last attribute in the area, whose place becomes the last one.
fn make<A: Area>(
    alloc: Global,
    places: &mut Vec<u64>,
    area: &mut A,
    name: &[u8],
    scope: Scope,
) -> Result<(), AreaError>
    requires good { Good (A.image area.old) }
    requires places { places.old.items ≡ adrs (shape (A.image area.old)) }
    requires named { is_bad_name name.now ≡ false }
    requires free { is_among name.now (attribute_names (content (A.image area.old))) ≡ false }
    requires room { length (A.image area.old) + fixed_size adr_type ≤ (A.frame area.old).limit }
    requires limit { (A.frame area.old).limit ≤ image_limit }
    ensures follows { OnOk result (Follows (A.image area.old) (Attr name.now scope) (A.image area.new)) }
    ensures names { OnOk result (attribute_names (content (A.image area.new)) ≡ attribute_names (content (A.image area.old)) ++ name.now ∷ []) }
    ensures places { OnOk result (places.new.items ≡ adrs (shape (A.image area.new))) }
    ensures stays { OnErr result (places.new.items ≡ places.old.items) }
    ensures area { Edits A.frame A.faults area.old area.new result }
{
    let num = places.len() as u32;
    let bytes = adr_bytes(alloc, code_of(scope), num, name)?;
    let last = places.last().copied();
    let place = append_record(area, Chain::Attrs, last, &bytes)?;
    places.push(place)?;
    Ok(())
}

impl Attrs {
    /// Makes a last attribute without entries: the command `attr`. After an error a part of this may have been done in the area.
    pub fn create<A: Area>(
        &mut self,
        area: &mut A,
        name: &[u8],
        scope: Scope,
    ) -> Result<Outcome, AreaError>
        requires good { Good (A.image area.old) }
        requires known { Knows (A.image area.old) self.old }
        requires fits { length (A.image area.old) ≤ (A.frame area.old).limit }
        requires limit { (A.frame area.old).limit ≤ image_limit }
        requires scope { CanBeGiven scope }
        ensures answers { IfOk result (λ o. Answers (A.frame area.old).limit (A.image area.old) (Attr name.now scope) o (A.image area.new)) }
        ensures known { OnOk result (Knows (A.image area.new) self.new) }
        ensures stays { OnErr result (Knows (A.image area.old) self.new) }
        ensures refused { IfOk result (λ o. IsTrue (is_refused o) → A.edited area.new ≡ A.edited area.old) }
        ensures area { Edits A.frame A.faults area.old area.new result }
    {
        if is_bad_name(name) {
            return Ok(Outcome::Refused {
                reason: Reason::BadName,
            });
        }
        if self.names.find(name).is_some() {
            return Ok(Outcome::Refused {
                reason: Reason::NameTaken,
            });
        }
        if area.limit() < area.size() + ADR_SIZE {
            return Ok(Outcome::Refused {
                reason: Reason::TooLarge,
            });
        }
        let last = self.names.len();
        self.names.add(Bytes::new(name.to_vec(self.alloc)?))?;
        self.entries.clear();
        self.order = None;
        match make(self.alloc, &mut self.places, area, name, scope) {
            Ok(()) => Ok(Outcome::Done {
                reply: Reply::Plain,
            }),
            Err(error) => {
                self.names.remove(last);
                Err(error)
            }
        }
    }
}
