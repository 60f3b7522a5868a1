//! Records that are packed as run lengths of zeros.

ghost use Rattle.std.specs.Prelude.{◌≡◌, [], ◌∷◌, ◌++◌, length, replicate, codes, pos};
ghost use Rattle.cdf_format.specs.Content.{content};
ghost use Rattle.cdf_format.specs.Index.{no_node};
ghost use Rattle.cdf_format.specs.Owners.{owned, space_of};
ghost use Rattle.cdf_format.specs.Shape.{shape};
ghost use Rattle.cdf_format.specs.WellFormed.{Breaks, KeepsFormat};
ghost use Rattle.cdf_examples.specs.NewFile.{new_data_set};
ghost use Rattle.cdf_examples.specs.OneVariable.{variable_shape, owned_by_file, of_variable, of_none, with_variable};
ghost use Rattle.cdf_examples.specs.PackedFiles.{unpacked_file, packed_file, packed_shape, r_data, packed_space, put_zeros, plain_file, plain_shape, plain_space, put_ones};
ghost use Rattle.cdf_examples.specs.Scripts.{made_by, room_for};

/// A record of 40 zeros: its block has two packed bytes. The file keeps the rules of the format, and its variable is not read so far.
pub fn zeros_packed()
    ensures empty { shape unpacked_file ≡ variable_shape (8 ∷ 320 ∷ 404 ∷ 756 ∷ []) no_node (756 ∷ []) [] }
    ensures empty_rules { KeepsFormat unpacked_file }
    ensures length { length packed_file ≡ 952 }
    ensures shape { shape packed_file ≡ packed_shape }
    ensures owned { owned packed_file packed_shape ≡ owned_by_file ++ of_variable 404 ∷ of_variable 812 ∷ of_variable 784 ∷ of_variable 756 ∷ [] }
    ensures space { space_of packed_file packed_shape ≡ packed_space }
    ensures content { content packed_file ≡ with_variable (r_data (pos 0) ((0, replicate 40 0) ∷ [])) }
    ensures rules { KeepsFormat packed_file }
    ensures unread { Breaks packed_file 9 99 404 }
    ensures made { made_by new_data_set (codes "zvar R UINT1 1 vary 40 T" ∷ codes "set-compress R rle" ∷ codes "set-blocking R 1" ∷ put_zeros ∷ []) ≡ with_variable (r_data (pos 0) ((0, replicate 40 0) ∷ [])) }
    ensures room { room_for unpacked_file put_zeros ≡ 376 }
{}

/// Then 40 ones, which packing makes no shorter: the block stands as it is, behind, and the packed one is unused.
pub fn ones_not_packed()
    ensures length { length plain_file ≡ 1004 }
    ensures shape { shape plain_file ≡ plain_shape }
    ensures owned { owned plain_file plain_shape ≡ owned_by_file ++ of_variable 404 ∷ of_variable 812 ∷ of_variable 952 ∷ of_variable 756 ∷ of_none 784 ∷ [] }
    ensures space { space_of plain_file plain_shape ≡ plain_space }
    ensures content { content plain_file ≡ with_variable (r_data (pos 0) ((0, replicate 40 1) ∷ [])) }
    ensures rules { KeepsFormat plain_file }
    ensures made { made_by (content packed_file) (put_ones ∷ []) ≡ content plain_file }
    ensures room { room_for packed_file put_ones ≡ 68 }
{}
