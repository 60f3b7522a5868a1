//! What the Flags of a file and of a variable say.

ghost use Rattle.std.specs.Prelude.{◌≡◌, ◌<◌};
ghost use Rattle.cdf_format.specs.Content.{majority_of};
ghost use Rattle.cdf_format.specs.Fields.{has_bit};
ghost use Rattle.cdf_format.specs.Records.{cdr_majority_bit};

use crate::fields::CDR_MAJORITY_BIT;
use cdf_model::Majority;

/// Whether a bit is set, counted from the least one.
pub fn has_bit(flags: u32, bit: u32) -> bool
    requires { bit < 32 }
    ensures { result ≡ has_bit flags bit }
{
    (flags >> bit) % 2 == 1
}

/// The majority of a file with these Flags.
pub fn majority_in(flags: u32) -> Majority
    ensures { result ≡ majority_of (has_bit flags cdr_majority_bit) }
{
    if has_bit(flags, CDR_MAJORITY_BIT) {
        Majority::Row
    } else {
        Majority::Column
    }
}
