//! The command `del-var` over what is kept of attributes and of variables.

ghost use Rattle.std.specs.Prelude.{◌≡◌, ◌≤◌, length, IfOk, OnOk, OnErr, IsTrue};
ghost use Rattle.cdf_area.specs.Calls.{Edits};
ghost use Rattle.cdf_attrs.specs.Known.{Knows};
ghost use Rattle.cdf_edits.specs.Answers.{Answers};
ghost use Rattle.cdf_format.specs.WellFormed.{Good};
ghost use Rattle.cdf_model.specs.Limits.{image_limit};
ghost use Rattle.cdf_model.specs.Turns.{is_refused};
ghost use Rattle.cdf_model.specs.declared.command.Command.TheVariants.{DelVar};
ghost use Rattle.cdf_vars.specs.Known.{Knows as KnowsVariables};

use cdf_area::{Area, AreaError};
use cdf_attrs::Attrs;
use cdf_model::{Outcome, Reason, Reply};
use cdf_vars::Vars;

/// Deletes the variable of a name: first its entries, then the variable itself. After an error a part of this may have been done in the area.
pub(crate) fn delete_variable<A: Area>(
    area: &mut A,
    attrs: &mut Attrs,
    vars: &mut Vars,
    name: &[u8],
) -> Result<Outcome, AreaError>
    requires good { Good (A.image area.old) }
    requires attributes { Knows (A.image area.old) attrs.old }
    requires variables { KnowsVariables (A.image area.old) vars.old }
    requires fits { length (A.image area.old) ≤ (A.frame area.old).limit }
    requires limit { (A.frame area.old).limit ≤ image_limit }
    ensures answers { IfOk result (λ o. Answers (A.frame area.old).limit (A.image area.old) (DelVar name.now) o (A.image area.new)) }
    ensures attributes { OnOk result (Knows (A.image area.new) attrs.new) }
    ensures variables { OnOk result (KnowsVariables (A.image area.new) vars.new) }
    ensures attributes_stay { OnErr result (Knows (A.image area.old) attrs.new) }
    ensures variables_stay { OnErr result (KnowsVariables (A.image area.old) vars.new) }
    ensures refused { IfOk result (λ o. IsTrue (is_refused o) → A.edited area.new ≡ A.edited area.old) }
    ensures area { Edits A.frame A.faults area.old area.new result }
{
    let Some(found) = vars.find(name) else {
        return Ok(Outcome::Refused {
            reason: Reason::NoSuchVar,
        });
    };
    attrs.drop_var(area, found.kind, found.num)?;
    attrs.forget_entries();
    vars.remove(area, found)?;
    Ok(Outcome::Done {
        reply: Reply::Plain,
    })
}
