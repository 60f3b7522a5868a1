//! The fields of each record: their order and their widths.

ghost use Rattle.std.specs.Prelude.{◌≡◌, [], ◌∷◌, true};
ghost use Rattle.cdf_examples.specs.Layout.{stand_in_order, head_fields, cdr_fields, gdr_fields, adr_fields, aedr_fields, vdr_fields, vxr_fields, cvvr_fields, cpr_fields, uir_fields};

/// From the first field to the end of the fixed part, one after the other.
pub fn in_order()
    ensures head { stand_in_order 0 head_fields (8 ∷ 4 ∷ []) 12 ≡ true }
    ensures cdr { stand_in_order 12 cdr_fields (8 ∷ 4 ∷ 4 ∷ 4 ∷ 4 ∷ 4 ∷ 4 ∷ 4 ∷ 4 ∷ 4 ∷ 256 ∷ []) 312 ≡ true }
    ensures gdr { stand_in_order 12 gdr_fields (8 ∷ 8 ∷ 8 ∷ 8 ∷ 4 ∷ 4 ∷ 4 ∷ 4 ∷ 4 ∷ 8 ∷ 4 ∷ 4 ∷ 4 ∷ []) 84 ≡ true }
    ensures adr { stand_in_order 12 adr_fields (8 ∷ 8 ∷ 4 ∷ 4 ∷ 4 ∷ 4 ∷ 4 ∷ 8 ∷ 4 ∷ 4 ∷ 4 ∷ 256 ∷ []) 324 ≡ true }
    ensures aedr { stand_in_order 12 aedr_fields (8 ∷ 4 ∷ 4 ∷ 4 ∷ 4 ∷ 4 ∷ 4 ∷ 4 ∷ 4 ∷ 4 ∷ []) 56 ≡ true }
    ensures vdr { stand_in_order 12 vdr_fields (8 ∷ 4 ∷ 4 ∷ 8 ∷ 8 ∷ 4 ∷ 4 ∷ 4 ∷ 4 ∷ 4 ∷ 4 ∷ 4 ∷ 8 ∷ 4 ∷ 256 ∷ []) 340 ≡ true }
    ensures vxr { stand_in_order 12 vxr_fields (8 ∷ 4 ∷ 4 ∷ []) 28 ≡ true }
    ensures cvvr { stand_in_order 12 cvvr_fields (4 ∷ 8 ∷ []) 24 ≡ true }
    ensures cpr { stand_in_order 12 cpr_fields (4 ∷ 4 ∷ 4 ∷ []) 24 ≡ true }
    ensures uir { stand_in_order 12 uir_fields (8 ∷ 8 ∷ []) 28 ≡ true }
{}
