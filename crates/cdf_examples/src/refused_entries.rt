//! Images that a command on entries does not lead to: the chain has another order.

ghost use Rattle.std.specs.Prelude.{◌≡◌};
ghost use Rattle.cdf_format.specs.Content.{content};
ghost use Rattle.cdf_format.specs.WellFormed.{KeepsFormat};
ghost use Rattle.cdf_examples.specs.Claimed.{Refused};
ghost use Rattle.cdf_examples.specs.WrongEntries.{three_entries_file, delete_second, second_deleted_file, reversed_file, one_entry_file, put_second, entry_last_file, entry_first_file, put_longer, entry_moved_file, moved_last_file};

/// The entries that are left stand in the other order.
pub fn chain_reversed()
    ensures rules { KeepsFormat reversed_file }
    ensures right_rules { KeepsFormat second_deleted_file }
    ensures refused { Refused three_entries_file delete_second reversed_file }
{}

/// A new entry stands first.
pub fn new_entry_first()
    ensures rules { KeepsFormat entry_first_file }
    ensures right_rules { KeepsFormat entry_last_file }
    ensures refused { Refused one_entry_file put_second entry_first_file }
{}

/// An entry that moves stands last.
pub fn moved_entry_last()
    ensures rules { KeepsFormat moved_last_file }
    ensures right_rules { KeepsFormat entry_moved_file }
    ensures refused { Refused entry_last_file put_longer moved_last_file }
{}
