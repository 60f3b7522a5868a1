//! What a session keeps of its file beside the area.

ghost use Rattle.std.specs.Prelude.{IfOk};
ghost use Rattle.cdf_area.specs.Calls.{Reads};
ghost use Rattle.cdf_format.specs.WellFormed.{Good};
ghost use Rattle.cdf_session.specs.Loading.{AreOf};

use cdf_area::{Area, AreaError};
use cdf_attrs::Attrs;
use cdf_vars::Vars;
use std::alloc::Global;

/// The attributes and the variables of a file.
#[derive(Drop)]
pub struct Loaded {
    pub attrs: Attrs,
    pub vars: Vars,
}

/// Reads the attributes and the variables of a good image.
pub fn load<A: Area>(alloc: Global, area: &mut A) -> Result<Loaded, AreaError>
    requires { Good (A.image area.old) }
    ensures known { IfOk result (AreOf (A.image area.old)) }
    ensures area { Reads A.image A.frame A.faults A.edited area.old area.new result }
{
    let attrs = Attrs::load(alloc, area)?;
    let vars = Vars::load(alloc, area)?;
    Ok(Loaded { attrs, vars })
}
