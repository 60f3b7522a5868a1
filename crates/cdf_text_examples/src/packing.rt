//! Bytes that are packed as run lengths of zeros.

ghost use Rattle.std.specs.Prelude.{◌≡◌, [], ◌∷◌, replicate, Some, None};
ghost use Rattle.cdf_model.specs.RunLengths.{unpacked};

/// What packed bytes stand for.
pub fn run_lengths()
    ensures five { unpacked (0x00 ∷ 0x02 ∷ 0x05 ∷ []) ≡ Some (0x00 ∷ 0x00 ∷ 0x00 ∷ 0x05 ∷ []) }
    ensures longest { unpacked (0x00 ∷ 0xff ∷ []) ≡ Some (replicate 256 0) }
    ensures one_more { unpacked (0x00 ∷ 0xff ∷ 0x00 ∷ 0x00 ∷ []) ≡ Some (replicate 257 0) }
    ensures cut { unpacked (0x05 ∷ 0x00 ∷ []) ≡ None }
    ensures two { unpacked (0x00 ∷ 0x00 ∷ 0x00 ∷ 0x00 ∷ []) ≡ Some (0x00 ∷ 0x00 ∷ []) }
{}
