//! Images that a command that cuts records does not lead to, whatever it takes and frees. Each has the content of the right one, and keeps the rules.

ghost use Rattle.std.specs.Prelude.{◌≡◌};
ghost use Rattle.cdf_format.specs.Content.{content};
ghost use Rattle.cdf_format.specs.WellFormed.{KeepsFormat};
ghost use Rattle.cdf_examples.specs.Claimed.{Refused};
ghost use Rattle.cdf_examples.specs.RecordFiles.{records_file};
ghost use Rattle.cdf_examples.specs.WrongCuts.{delete_t, all_deleted_file, block_unlisted_file, last_deleted_file, dead_bytes_file, longer_node_file, fewer_entries_file, block_moved_file, spare_behind_file, spare_stays_file, spare_overwritten_file, two_stored_file, first_cut_file, past_cut_file, two_nodes_file, node_freed_file, bare_node_file, none_stored_file, set_sparse_t, made_sparse_file, cut_unlisted_file, uncompressed_file, compress_t, cpr_placed_file, cpr_at_end_file, small_block_file, delete_var_t, var_deleted_file, two_pieces_file, head_left_file, delete_r, two_packed_file, packed_stays_file, packed_elsewhere_file, delete_u, two_of_forty_file, one_of_forty_file, taken_again_file};

/// A block that is freed is not on the unused list.
pub fn block_off_list()
    ensures rules { KeepsFormat block_unlisted_file }
    ensures content { content block_unlisted_file ≡ content all_deleted_file }
    ensures refused { Refused records_file (delete_t 0 3) block_unlisted_file }
{}

/// Dead bytes are appended.
pub fn dead_bytes()
    ensures rules { KeepsFormat dead_bytes_file }
    ensures content { content dead_bytes_file ≡ content last_deleted_file }
    ensures refused { Refused records_file (delete_t 3 3) dead_bytes_file }
{}

/// A node that stays has more bytes.
pub fn node_longer()
    ensures rules { KeepsFormat longer_node_file }
    ensures content { content longer_node_file ≡ content last_deleted_file }
    ensures refused { Refused records_file (delete_t 3 3) longer_node_file }
{}

/// A node that stays has room for fewer entries.
pub fn node_narrower()
    ensures rules { KeepsFormat fewer_entries_file }
    ensures content { content fewer_entries_file ≡ content last_deleted_file }
    ensures refused { Refused records_file (delete_t 3 3) fewer_entries_file }
{}

/// A block that is cut moves though its record has room.
pub fn cut_block_moved()
    ensures rules { KeepsFormat block_moved_file }
    ensures content { content block_moved_file ≡ content last_deleted_file }
    ensures refused { Refused records_file (delete_t 3 3) block_moved_file }
{}

/// A listed unused record is overwritten.
pub fn listed_overwritten()
    ensures rules { KeepsFormat spare_overwritten_file }
    ensures content { content spare_overwritten_file ≡ content spare_stays_file }
    ensures refused { Refused spare_behind_file (delete_t 3 3) spare_overwritten_file }
{}

/// A record past MaxRec changes in a block that is cut.
pub fn past_max_rec_cut()
    ensures rules { KeepsFormat past_cut_file }
    ensures content { content past_cut_file ≡ content first_cut_file }
    ensures refused { Refused two_stored_file (delete_t 0 0) past_cut_file }
{}

/// A node without entries stays.
pub fn node_bare()
    ensures rules { KeepsFormat bare_node_file }
    ensures content { content bare_node_file ≡ content node_freed_file }
    ensures refused { Refused two_nodes_file (delete_t 4 7) bare_node_file }
{}

/// Under `set-sparse` a block and a node that are freed are not on the unused list.
pub fn sparse_off_list()
    ensures rules { KeepsFormat cut_unlisted_file }
    ensures content { content cut_unlisted_file ≡ content made_sparse_file }
    ensures refused { Refused none_stored_file set_sparse_t cut_unlisted_file }
{}

/// A CPR stands at the end though an unused record fits.
pub fn cpr_at_end()
    ensures rules { KeepsFormat cpr_at_end_file }
    ensures content { content cpr_at_end_file ≡ content cpr_placed_file }
    ensures refused { Refused uncompressed_file compress_t cpr_at_end_file }
{}

/// Under `del-var` a block is freed in two pieces.
pub fn freed_in_pieces()
    ensures rules { KeepsFormat two_pieces_file }
    ensures content { content two_pieces_file ≡ content var_deleted_file }
    ensures refused { Refused small_block_file delete_var_t two_pieces_file }
{}

/// Under `del-var` the VDR that is freed still leads to its node.
pub fn vdr_leads_on()
    ensures rules { KeepsFormat head_left_file }
    ensures content { content head_left_file ≡ content var_deleted_file }
    ensures refused { Refused small_block_file delete_var_t head_left_file }
{}

/// What a cut leaves of a packed leaf stands in the record of another, which it frees, though its own has room.
pub fn packed_elsewhere()
    ensures rules { KeepsFormat packed_elsewhere_file }
    ensures content { content packed_elsewhere_file ≡ content packed_stays_file }
    ensures refused { Refused two_packed_file (delete_r 0 1) packed_elsewhere_file }
{}

/// A record that a cut keeps is freed, and a part of it is taken again.
pub fn freed_and_taken_again()
    ensures rules { KeepsFormat taken_again_file }
    ensures content { content taken_again_file ≡ content one_of_forty_file }
    ensures refused { Refused two_of_forty_file (delete_u 1 1) taken_again_file }
{}
