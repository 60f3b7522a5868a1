//! Sparse records, under both rules.

ghost use Rattle.std.specs.Prelude.{◌≡◌, [], ◌∷◌, ◌++◌, length, codes, false, negsuc, pos};
ghost use Rattle.cdf_model.specs.Limits.{record_number_limit};
ghost use Rattle.cdf_edits.specs.Space.Acts.{Took};
ghost use Rattle.cdf_edits.specs.Index.Blocks.{range, ranges_after_put, ranges_after_cut};
ghost use Rattle.cdf_format.specs.Content.{content};
ghost use Rattle.cdf_format.specs.Index.{no_node, no_entry, block, leaf};
ghost use Rattle.cdf_edits.specs.Index.Grown.{cut_nodes, kept_open, index_cut_open, outline};
ghost use Rattle.cdf_edits.specs.Commands.Puts.{PutsLeaves};
ghost use Rattle.cdf_format.specs.Shape.{shape};
ghost use Rattle.cdf_format.specs.WellFormed.{KeepsFormat};
ghost use Rattle.cdf_examples.specs.NewFile.{new_data_set};
ghost use Rattle.cdf_examples.specs.OneVariable.{one_node, variable_shape, with_variable};
ghost use Rattle.cdf_examples.specs.Scripts.{replies, made_by, room_for};
ghost use Rattle.cdf_text_examples.specs.Texts.{text_lines};
ghost use Rattle.cdf_examples.specs.SparseFiles.{s_data, first_sparse_file, first_sparse_index, first_sparse_data, sparse_file, sparse_index, both_sparse_data, foreign_file, foreign_index, foreign_data, foreign_file_after, foreign_data_after, whole_block_file, whole_block_index, whole_block_data, cut_block_file, cut_block_data};

/// A missing record reads as the one before it, and as a pad where there is none.
pub fn read_as_previous()
    ensures length { length sparse_file ≡ 1168 }
    ensures shape { shape sparse_file ≡ variable_shape (8 ∷ 320 ∷ 404 ∷ 748 ∷ 888 ∷ 1028 ∷ []) sparse_index [] [] }
    ensures content { content sparse_file ≡ with_variable both_sparse_data }
    ensures rules { KeepsFormat sparse_file }
    ensures replies { replies new_data_set (codes "zvar S INT2 1 vary - -" ∷ codes "set-sparse S previous" ∷ codes "put-rec S 2 20" ∷ codes "put-rec S 5 50"
        ∷ codes "get-rec S 0" ∷ codes "get-rec S 4" ∷ codes "get-rec S 5" ∷ codes "get-rec S 2147483646" ∷ codes "get-rec S 2147483647" ∷ [])
        ≡ text_lines (codes "1 ok" ∷ codes "2 ok" ∷ codes "3 ok" ∷ codes "4 ok"
        ∷ codes "5 ok -32767" ∷ codes "6 ok 20" ∷ codes "7 ok 50" ∷ codes "8 ok -32767" ∷ codes "9 refused 14 RecordOutOfRange" ∷ []) }
    ensures made { made_by new_data_set (codes "zvar S INT2 1 vary - -" ∷ codes "set-sparse S previous" ∷ codes "put-rec S 2 20" ∷ codes "put-rec S 5 50" ∷ []) ≡ with_variable both_sparse_data }
{}

/// Of a block of 64 records only one is left, once a record is put behind a gap.
pub fn blocks_cut()
    ensures first_shape { shape first_sparse_file ≡ variable_shape (8 ∷ 320 ∷ 404 ∷ 748 ∷ 888 ∷ []) first_sparse_index [] [] }
    ensures first_content { content first_sparse_file ≡ with_variable first_sparse_data }
    ensures first_rules { KeepsFormat first_sparse_file }
    ensures first_blocks { ranges_after_put (s_data (negsuc 0) []) no_node 2 ≡ range 2 65 ∷ [] }
    ensures blocks { ranges_after_put first_sparse_data first_sparse_index 5 ≡ range 2 2 ∷ range 5 68 ∷ [] }
    ensures cut { cut_nodes false (kept_open 3 record_number_limit) first_sparse_index ≡ one_node 888 7 (block 2 2 748 false no_entry) }
    ensures acts { PutsLeaves first_sparse_file sparse_file false 404 (leaf 5 68 1028 false ∷ []) (one_node 888 7 (block 2 2 748 false no_entry)) (Took 1028 140 ∷ []) sparse_index }
    ensures room { room_for first_sparse_file (codes "put-rec S 5 50") ≡ 632 }
{}

/// A block has room for records that are not written: they are cut before a record behind them is put.
pub fn foreign_block()
    ensures shape { shape foreign_file ≡ variable_shape (8 ∷ 320 ∷ 404 ∷ 748 ∷ 780 ∷ []) foreign_index [] [] }
    ensures content { content foreign_file ≡ with_variable foreign_data }
    ensures rules { KeepsFormat foreign_file }
    ensures blocks { ranges_after_put foreign_data foreign_index 8 ≡ range 0 3 ∷ range 8 71 ∷ [] }
    ensures content_after { content foreign_file_after ≡ with_variable foreign_data_after }
    ensures rules_after { KeepsFormat foreign_file_after }
    ensures made { made_by (with_variable foreign_data) (codes "put-rec S 8 80" ∷ []) ≡ with_variable foreign_data_after }
    ensures replies { replies (with_variable foreign_data) (codes "put-rec S 8 80" ∷ codes "get-rec S 4" ∷ codes "get-rec S 8" ∷ []) ≡ text_lines (codes "1 ok" ∷ codes "2 ok -32767" ∷ codes "3 ok 80" ∷ []) }
{}

/// Records in the middle of a block go, and those behind them get a block of their own.
pub fn block_split()
    ensures whole { content whole_block_file ≡ with_variable whole_block_data }
    ensures whole_rules { KeepsFormat whole_block_file }
    ensures length { length cut_block_file ≡ 944 }
    ensures content { content cut_block_file ≡ with_variable cut_block_data }
    ensures rules { KeepsFormat cut_block_file }
    ensures blocks { ranges_after_cut whole_block_data whole_block_index 1 2 ≡ range 0 0 ∷ range 3 3 ∷ [] }
    ensures index { outline (916 ∷ []) (one_node 776 7 (block 0 0 748 false (block 3 3 916 false no_entry))) ≡ outline (916 ∷ []) (index_cut_open 1 2 whole_block_index) }
    ensures room { room_for whole_block_file (codes "del-recs T 1 2") ≡ 256 }
    ensures made { made_by new_data_set (codes "zvar T INT4 1 vary - -" ∷ codes "set-sparse T pad" ∷ codes "set-blocking T 4"
        ∷ codes "put-rec T 0 1" ∷ codes "put-rec T 1 2" ∷ codes "put-rec T 2 3" ∷ codes "put-rec T 3 4" ∷ codes "del-recs T 1 2" ∷ [])
        ≡ with_variable cut_block_data }
    ensures replies { replies (with_variable whole_block_data) (codes "del-recs T 1 2" ∷ codes "get-rec T 2" ∷ codes "get-rec T 3" ∷ [])
        ≡ text_lines (codes "1 ok" ∷ codes "2 ok -2147483647" ∷ codes "3 ok 4" ∷ []) }
{}
