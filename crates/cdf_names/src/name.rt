//! Which names an attribute or a variable may not have.

ghost use Rattle.std.specs.Prelude.{◌≡◌, ◌==◌};
ghost use Rattle.std.specs.List.{list_any};
ghost use Rattle.cdf_model.specs.Names.{is_bad_name};

use cdf_model::limits::NAME_LIMIT;

/// Whether a name has a byte 0.
fn has_zero(name: &[u8]) -> bool
    ensures { result ≡ list_any (λ byte. byte == 0) name.now }
{
    name.iter().any(|byte| *byte == 0)
}

/// Whether a name is empty, too long, or has a byte 0.
pub fn is_bad_name(name: &[u8]) -> bool
    ensures { result ≡ is_bad_name name.now }
{
    name.is_empty() || NAME_LIMIT < name.len() || has_zero(name)
}
