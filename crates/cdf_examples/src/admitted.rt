//! The images beside the wrong ones: what commands that put, cut and edit entries lead to, with what they take and free.

ghost use Rattle.std.specs.Prelude.{◌≡◌, [], ◌∷◌, ◌++◌, codes};
ghost use Rattle.std.specs.List.{repeat};
ghost use Rattle.cdf_edits.specs.Space.Acts.{Took, Gave};
ghost use Rattle.cdf_format.specs.Content.{content};
ghost use Rattle.cdf_format.specs.Shape.{shape};
ghost use Rattle.cdf_format.specs.WellFormed.{KeepsFormat};
ghost use Rattle.cdf_index.specs.Order.{nodes_passed};
ghost use Rattle.cdf_examples.specs.Claimed.{Claimed};
ghost use Rattle.cdf_examples.specs.PackedFiles.{packed_file, plain_file, put_ones};
ghost use Rattle.cdf_examples.specs.RecordFiles.{variable_file, records_file};
ghost use Rattle.cdf_examples.specs.Scripts.{made_by};
ghost use Rattle.cdf_examples.specs.WideIndexes.{reindex_w, w_shape, wide_node_file, wide_node_index, two_levels_made_file, two_levels_made_index};
ghost use Rattle.cdf_examples.specs.WrongCuts.{delete_t, all_deleted_file, last_deleted_file, spare_behind_file, spare_stays_file, two_stored_file, first_cut_file, two_nodes_file, node_freed_file, none_stored_file, set_sparse_t, made_sparse_file, uncompressed_file, compress_t, cpr_placed_file, small_block_file, delete_var_t, var_deleted_file, delete_u, two_of_forty_file, one_of_forty_file};
ghost use Rattle.cdf_examples.specs.WrongEntries.{three_entries_file, delete_second, second_deleted_file, one_entry_file, put_second, entry_last_file};
ghost use Rattle.cdf_examples.specs.WrongPuts.{put_t, put_r, first_put_file, spare_file, rest_listed_file, put_again_file, second_block_file, two_levels_file, widened_file};

/// A first record is put: a block and a node.
pub fn first_record_put()
    ensures rules { KeepsFormat first_put_file }
    ensures made { made_by (content variable_file) (codes "put-rec T 0 7" ∷ []) ≡ content first_put_file }
    ensures follows { Claimed variable_file (put_t 0 (codes "7")) first_put_file (Took 748 28 ∷ Took 776 140 ∷ []) }
{}

/// A block is taken from the front of an unused record.
pub fn record_split()
    ensures rules { KeepsFormat rest_listed_file }
    ensures made { made_by (content spare_file) (codes "put-rec T 0 7" ∷ []) ≡ content rest_listed_file }
    ensures follows { Claimed spare_file (put_t 0 (codes "7")) rest_listed_file (Took 748 28 ∷ Took 848 140 ∷ []) }
{}

/// A packed block is placed anew, and the old one is freed.
pub fn block_replaced()
    ensures rules { KeepsFormat plain_file }
    ensures made { made_by (content packed_file) (put_ones ∷ []) ≡ content plain_file }
    ensures follows { Claimed packed_file (put_r (codes "1")) plain_file (Took 952 52 ∷ Gave 784 28 ∷ []) }
{}

/// A record is put in its place.
pub fn record_put_again()
    ensures rules { KeepsFormat put_again_file }
    ensures made { made_by (content first_put_file) (codes "put-rec T 0 8" ∷ []) ≡ content put_again_file }
    ensures follows { Claimed first_put_file (put_t 0 (codes "8")) put_again_file ([]) }
{}

/// A second block has an entry in the node that there is.
pub fn second_block()
    ensures rules { KeepsFormat second_block_file }
    ensures made { made_by (content records_file) (codes "put-rec T 4 5" ∷ []) ≡ content second_block_file }
    ensures follows { Claimed records_file (put_t 4 (codes "5")) second_block_file (Took 916 28 ∷ []) }
{}

/// The entry that names the lower node is widened up to the new block.
pub fn entry_widened()
    ensures rules { KeepsFormat widened_file }
    ensures made { made_by (content two_levels_file) (codes "put-rec T 4 5" ∷ []) ≡ content widened_file }
    ensures follows { Claimed two_levels_file (put_t 4 (codes "5")) widened_file (Took 1056 28 ∷ []) }
{}

/// All records go, and block and node are freed.
pub fn all_deleted()
    ensures rules { KeepsFormat all_deleted_file }
    ensures made { made_by (content records_file) (codes "del-recs T 0 3" ∷ []) ≡ content all_deleted_file }
    ensures follows { Claimed records_file (delete_t 0 3) all_deleted_file (Gave 748 28 ∷ Gave 776 140 ∷ []) }
{}

/// The last record goes, and the block stays.
pub fn last_deleted()
    ensures rules { KeepsFormat last_deleted_file }
    ensures made { made_by (content records_file) (codes "del-recs T 3 3" ∷ []) ≡ content last_deleted_file }
    ensures follows { Claimed records_file (delete_t 3 3) last_deleted_file ([]) }
{}

/// An unused record stays.
pub fn listed_stays()
    ensures rules { KeepsFormat spare_stays_file }
    ensures made { made_by (content spare_behind_file) (codes "del-recs T 3 3" ∷ []) ≡ content spare_stays_file }
    ensures follows { Claimed spare_behind_file (delete_t 3 3) spare_stays_file ([]) }
{}

/// The first record goes, and what the block holds past MaxRec stays.
pub fn first_deleted()
    ensures rules { KeepsFormat first_cut_file }
    ensures made { made_by (content two_stored_file) (codes "del-recs T 0 0" ∷ []) ≡ content first_cut_file }
    ensures follows { Claimed two_stored_file (delete_t 0 0) first_cut_file ([]) }
{}

/// The second record goes, and the block stays in a record with room for both.
pub fn second_deleted()
    ensures rules { KeepsFormat one_of_forty_file }
    ensures made { made_by (content two_of_forty_file) (codes "del-recs U 1 1" ∷ []) ≡ content one_of_forty_file }
    ensures follows { Claimed two_of_forty_file (delete_u 1 1) one_of_forty_file ([]) }
{}

/// A node without entries is freed after its block.
pub fn node_freed()
    ensures rules { KeepsFormat node_freed_file }
    ensures made { made_by (content two_nodes_file) (codes "del-recs T 4 7" ∷ []) ≡ content node_freed_file }
    ensures follows { Claimed two_nodes_file (delete_t 4 7) node_freed_file (Gave 916 28 ∷ Gave 944 140 ∷ []) }
{}

/// Under `set-sparse` block and node are freed.
pub fn made_sparse()
    ensures rules { KeepsFormat made_sparse_file }
    ensures made { made_by (content none_stored_file) (codes "set-sparse T pad" ∷ []) ≡ content made_sparse_file }
    ensures follows { Claimed none_stored_file set_sparse_t made_sparse_file (Gave 748 28 ∷ Gave 776 140 ∷ []) }
{}

/// A CPR takes an unused record.
pub fn cpr_placed()
    ensures rules { KeepsFormat cpr_placed_file }
    ensures made { made_by (content uncompressed_file) (codes "set-compress T rle" ∷ []) ≡ content cpr_placed_file }
    ensures follows { Claimed uncompressed_file compress_t cpr_placed_file (Took 748 28 ∷ []) }
{}

/// A variable goes with its small block, its node and its VDR.
pub fn variable_deleted()
    ensures rules { KeepsFormat var_deleted_file }
    ensures made { made_by (content small_block_file) (codes "del-var T" ∷ []) ≡ content var_deleted_file }
    ensures follows { Claimed small_block_file delete_var_t var_deleted_file (Gave 748 24 ∷ Gave 772 140 ∷ Gave 404 344 ∷ []) }
{}

/// An index of two levels is made of 65 leaves, and the old node is freed. A record is found by two nodes then, and by one before.
pub fn two_levels_made()
    ensures index { (shape two_levels_made_file).z_variables ≡ w_shape two_levels_made_index ∷ [] }
    ensures first { nodes_passed 0 two_levels_made_index ≡ 2 }
    ensures last { nodes_passed 64 two_levels_made_index ≡ 2 }
    ensures before { nodes_passed 64 wide_node_index ≡ 1 }
    ensures follows { Claimed wide_node_file reindex_w two_levels_made_file (Took 2661 1052 ∷ Took 3713 1052 ∷ Took 4765 1052 ∷ Gave 1593 1068 ∷ []) }
{}

/// An entry goes, and the others stay in their order.
pub fn entry_deleted()
    ensures made { made_by (content three_entries_file) (codes "del-entry Project g 1" ∷ []) ≡ content second_deleted_file }
    ensures follows { Claimed three_entries_file delete_second second_deleted_file (Gave 785 57 ∷ []) }
{}

/// A new entry stands last.
pub fn entry_appended()
    ensures made { made_by (content one_entry_file) (codes "put-entry Project g 1 CHAR b" ∷ []) ≡ content entry_last_file }
    ensures follows { Claimed one_entry_file put_second entry_last_file (Took 785 57 ∷ []) }
{}
