//! The search of a number in an ascending list.

ghost use Rattle.std.specs.Prelude.{◌≡◌};
ghost use Rattle.cdf_format.specs.Chains.{is_in};
ghost use Rattle.cdf_structure.specs.Met.{Ascends};

/// Whether a number stands in the ascending list.
pub fn stands_in(list: &[u64], number: u64) -> bool
    requires ascends { Ascends list.now }
    ensures { result ≡ is_in number list.now }
{
    match list.binary_search(&number) {
        Ok(_) => true,
        Err(_) => false,
    }
}
