//! The entries that a command means: the chain of an attribute, or why there is none.

ghost use Rattle.std.specs.Prelude.{◌≡◌, IfOk};
ghost use Rattle.cdf_area.specs.Calls.{Reads};
ghost use Rattle.cdf_attrs.specs.Finding.{Finds};
ghost use Rattle.cdf_attrs.specs.Known.{Knows};
ghost use Rattle.cdf_format.specs.WellFormed.{Good};
ghost use Rattle.cdf_model.specs.AttributeSteps.{is_global, is_wrong_scope};

use crate::attrs::Attrs;
use crate::chain_fields::entries_chain;
use crate::reading::read_scope;
use cdf_area::{Area, AreaError};
use cdf_model::{EntryKind, Reason, Scope};
use cdf_space::Chain;

/// What a command on an entry finds of its attribute.
#[derive(Clone, Copy)]
pub enum Target {
    /// The attribute has this number, and its entries of the kind stand in this chain.
    Found { number: u32, chain: Chain },
    /// There is no such attribute, or entries of the kind do not go with its scope.
    Refused { reason: Reason },
}

/// Whether an attribute describes the file.
pub(crate) fn is_global(scope: Scope) -> bool
    ensures { result ≡ is_global scope }
{
    match scope {
        Scope::Global | Scope::GlobalAssumed => true,
        Scope::Variable | Scope::VariableAssumed => false,
    }
}

/// Whether entries of a kind do not go with a scope.
fn is_wrong_scope(kind: EntryKind, scope: Scope) -> bool
    ensures { result ≡ is_wrong_scope kind scope }
{
    match kind {
        EntryKind::G => !is_global(scope),
        EntryKind::R | EntryKind::Z => is_global(scope),
    }
}

impl Attrs {
    /// The chain of the entries of a kind of the attribute with a name. The reasons are those that commands on entries share.
    pub(crate) fn find_chain<A: Area>(
        &self,
        area: &mut A,
        attr: &[u8],
        kind: EntryKind,
    ) -> Result<Target, AreaError>
        requires good { Good (A.image area.old) }
        requires known { Knows (A.image area.old) self.now }
        ensures target { IfOk result (Finds (A.image area.old) attr.now kind) }
        ensures area { Reads A.image A.frame A.faults A.edited area.old area.new result }
    {
        let Some(number) = self.names.find(attr) else {
            return Ok(Target::Refused {
                reason: Reason::NoSuchAttr,
            });
        };
        let places = self.places.as_slice();
        let adr = places[number as usize];
        let scope = read_scope(area, adr)?;
        if is_wrong_scope(kind, scope) {
            return Ok(Target::Refused {
                reason: Reason::WrongScope,
            });
        }
        Ok(Target::Found {
            number,
            chain: entries_chain(kind, adr),
        })
    }
}
