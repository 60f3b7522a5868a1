//! Images that a put does not lead to, whatever it takes and frees. Each has the content of the right one, and keeps the rules.

ghost use Rattle.std.specs.Prelude.{◌≡◌, codes};
ghost use Rattle.cdf_format.specs.Content.{content};
ghost use Rattle.cdf_format.specs.WellFormed.{KeepsFormat};
ghost use Rattle.cdf_examples.specs.Claimed.{Refused};
ghost use Rattle.cdf_examples.specs.PackedFiles.{packed_file, plain_file};
ghost use Rattle.cdf_examples.specs.RecordFiles.{variable_file, records_file};
ghost use Rattle.cdf_examples.specs.WrongPuts.{put_t, put_r, first_put_file, long_block_file, long_node_file, spare_file, rest_listed_file, rest_unlisted_file, rest_changed_file, leaked_file, long_plain_file, packed_moved_file, put_again_file, past_changed_file, second_block_file, needless_node_file, two_levels_file, widened_file, too_wide_file};

/// A new block has more bytes than it needs.
pub fn block_too_long()
    ensures rules { KeepsFormat long_block_file }
    ensures content { content long_block_file ≡ content first_put_file }
    ensures refused { Refused variable_file (put_t 0 (codes "7")) long_block_file }
{}

/// A new node has more bytes than it needs.
pub fn node_too_long()
    ensures rules { KeepsFormat long_node_file }
    ensures content { content long_node_file ≡ content first_put_file }
    ensures refused { Refused variable_file (put_t 0 (codes "7")) long_node_file }
{}

/// The rest of a split is not on the unused list.
pub fn rest_off_list()
    ensures rules { KeepsFormat rest_unlisted_file }
    ensures content { content rest_unlisted_file ≡ content rest_listed_file }
    ensures refused { Refused spare_file (put_t 0 (codes "7")) rest_unlisted_file }
{}

/// Bytes behind the links of the rest of a split change.
pub fn rest_changed()
    ensures rules { KeepsFormat rest_changed_file }
    ensures content { content rest_changed_file ≡ content rest_listed_file }
    ensures refused { Refused spare_file (put_t 0 (codes "7")) rest_changed_file }
{}

/// A block that moves is not freed.
pub fn old_block_leaked()
    ensures rules { KeepsFormat leaked_file }
    ensures content { content leaked_file ≡ content plain_file }
    ensures refused { Refused packed_file (put_r (codes "1")) leaked_file }
{}

/// A block that moves has more bytes than it needs.
pub fn moved_too_long()
    ensures rules { KeepsFormat long_plain_file }
    ensures content { content long_plain_file ≡ content plain_file }
    ensures refused { Refused packed_file (put_r (codes "1")) long_plain_file }
{}

/// A block moves though its record has room.
pub fn moved_with_room()
    ensures rules { KeepsFormat packed_moved_file }
    ensures content { content packed_moved_file ≡ content packed_file }
    ensures refused { Refused packed_file (put_r (codes "0")) packed_moved_file }
{}

/// A record past MaxRec changes in a block that is written.
pub fn past_max_rec_changed()
    ensures rules { KeepsFormat past_changed_file }
    ensures content { content past_changed_file ≡ content put_again_file }
    ensures refused { Refused first_put_file (put_t 0 (codes "8")) past_changed_file }
{}

/// There is a new node though the old one has room.
pub fn node_needless()
    ensures rules { KeepsFormat needless_node_file }
    ensures content { content needless_node_file ≡ content second_block_file }
    ensures refused { Refused records_file (put_t 4 (codes "5")) needless_node_file }
{}

/// An entry that names a lower node is widened past the new block.
pub fn entry_too_wide()
    ensures rules { KeepsFormat too_wide_file }
    ensures content { content too_wide_file ≡ content widened_file }
    ensures refused { Refused two_levels_file (put_t 4 (codes "5")) too_wide_file }
{}
