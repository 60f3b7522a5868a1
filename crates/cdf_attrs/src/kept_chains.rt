//! The entries of chains that are kept, those that were used last in the back.

ghost use Rattle.std.specs.Prelude.{◌≡◌, ◌⊎◌, All, Contains, IfSome, false, filter, not, position, true};
ghost use Rattle.cdf_attrs.specs.Known.{is_same_chain};

use crate::entry_chain::EntryChain;
use cdf_space::Chain;

/// The entries of so many chains are kept at most.
const MOST_KEPT: usize = 256;

/// How many stand before the first entries of a chain.
fn index_of(kept: &[EntryChain], chain: Chain) -> Option<usize>
    ensures { result ≡ position (λ entries. is_same_chain entries.chain chain) kept.now }
{
    kept.iter().position(|entries| entries.is_of(chain))
}

/// Takes out the first entries of a chain, if there are any.
fn take_first(kept: &mut Vec<EntryChain>, chain: Chain) -> Option<EntryChain>
    ensures taken { IfSome result (λ entries. (is_same_chain entries.chain chain ≡ true) × Contains kept.old.items entries) }
    ensures left { All (Contains kept.old.items) kept.new.items }
{
    let i = index_of(kept.as_slice(), chain)?;
    Some(kept.remove(i))
}

/// Lets go the entries of a chain.
fn drop_chain(kept: &mut Vec<EntryChain>, chain: Chain)
    ensures { kept.new.items ≡ filter (λ entries. not (is_same_chain entries.chain chain)) kept.old.items }
{
    kept.retain(|entries| !entries.is_of(chain));
}

/// Takes the entries of a chain out of those that are kept, if they are among them. What is left is of other chains.
pub(crate) fn take_chain(kept: &mut Vec<EntryChain>, chain: Chain) -> Option<EntryChain>
    ensures taken { IfSome result (λ entries. (is_same_chain entries.chain chain ≡ true) × Contains kept.old.items entries) }
    ensures others { All (λ entries. (is_same_chain entries.chain chain ≡ false) × Contains kept.old.items entries) kept.new.items }
{
    let taken = take_first(kept, chain);
    drop_chain(kept, chain);
    taken
}

/// Lets go the entries of the chain that was used longest ago, where there is no room for more.
fn make_room(kept: &mut Vec<EntryChain>)
    ensures { All (Contains kept.old.items) kept.new.items }
{
    if kept.len() >= MOST_KEPT {
        kept.remove(0);
    }
}

/// Keeps the entries of a chain, where there is memory for them.
pub(crate) fn keep_chain(kept: &mut Vec<EntryChain>, entries: EntryChain)
    ensures { All (λ other. (other ≡ entries) ⊎ Contains kept.old.items other) kept.new.items }
{
    make_room(kept);
    let _kept = kept.push(entries);
}
