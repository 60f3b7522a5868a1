//! Values as words and as bytes: the least and the greatest of each type, and words that are none.

ghost use Rattle.std.specs.Prelude.{◌≡◌, [], ◌∷◌, true, codes, Ok, Err};
ghost use Rattle.cdf_model.specs.Values.{quoted, values_in, values_text};
ghost use Rattle.cdf_model.specs.declared.answer.Reason.TheVariants.{WrongCount, BadValue};
ghost use Rattle.cdf_model.specs.declared.data_type.DataType.TheVariants.{Int1, Int2, Int4, Int8, UInt1, UInt2, UInt4, Real4, Epoch16, TimeTt2000, Byte, Char, UChar};
ghost use Rattle.cdf_text_examples.specs.Words.{are_no_values};

/// The least and the greatest number of each type.
pub fn numbers()
    ensures int1 { values_in Int1 1 3 (codes "-128" ∷ codes "127" ∷ codes "0" ∷ []) ≡ Ok (0x80 ∷ 0x7f ∷ 0x00 ∷ []) }
    ensures byte { values_in Byte 1 2 (codes "-128" ∷ codes "127" ∷ []) ≡ Ok (0x80 ∷ 0x7f ∷ []) }
    ensures int2 { values_in Int2 1 2 (codes "-32768" ∷ codes "32767" ∷ []) ≡ Ok (0x80 ∷ 0x00 ∷ 0x7f ∷ 0xff ∷ []) }
    ensures int4 { values_in Int4 1 2 (codes "-2147483648" ∷ codes "2147483647" ∷ []) ≡ Ok (0x80 ∷ 0x00 ∷ 0x00 ∷ 0x00 ∷ 0x7f ∷ 0xff ∷ 0xff ∷ 0xff ∷ []) }
    ensures int8 { values_in Int8 1 1 (codes "-9223372036854775808" ∷ []) ≡ Ok (0x80 ∷ 0x00 ∷ 0x00 ∷ 0x00 ∷ 0x00 ∷ 0x00 ∷ 0x00 ∷ 0x00 ∷ []) }
    ensures time { values_in TimeTt2000 1 1 (codes "9223372036854775807" ∷ []) ≡ Ok (0x7f ∷ 0xff ∷ 0xff ∷ 0xff ∷ 0xff ∷ 0xff ∷ 0xff ∷ 0xff ∷ []) }
    ensures uint1 { values_in UInt1 1 2 (codes "0" ∷ codes "255" ∷ []) ≡ Ok (0x00 ∷ 0xff ∷ []) }
    ensures uint2 { values_in UInt2 1 1 (codes "65535" ∷ []) ≡ Ok (0xff ∷ 0xff ∷ []) }
    ensures uint4 { values_in UInt4 1 1 (codes "4294967295" ∷ []) ≡ Ok (0xff ∷ 0xff ∷ 0xff ∷ 0xff ∷ []) }
{}

/// One past them, and words that break the notation of a type.
pub fn no_values()
    ensures int1 { are_no_values Int1 1 (codes "-129" ∷ codes "128" ∷ codes "-0" ∷ codes "00" ∷ codes "+1" ∷ [] ∷ codes "1 " ∷ codes "-" ∷ codes "--1" ∷ codes "-01" ∷ codes "1x" ∷ []) ≡ true }
    ensures int8 { are_no_values Int8 1 (codes "-9223372036854775809" ∷ codes "9223372036854775808" ∷ codes "18446744073709551616" ∷ []) ≡ true }
    ensures uint1 { are_no_values UInt1 1 (codes "256" ∷ codes "-1" ∷ codes "-0" ∷ codes "00" ∷ codes "+1" ∷ [] ∷ []) ≡ true }
    ensures uint4 { are_no_values UInt4 1 (codes "4294967296" ∷ codes "-1" ∷ []) ≡ true }
    ensures real4 { are_no_values Real4 1 (codes "0000000" ∷ codes "000000000" ∷ codes "0000000g" ∷ [] ∷ codes "0x000000" ∷ codes "-0000001" ∷ []) ≡ true }
    ensures letters { are_no_values UChar 3 (codes "ab" ∷ codes "abcd" ∷ [] ∷ []) ≡ true }
    ensures few { values_in Int4 1 3 (codes "x" ∷ codes "y" ∷ []) ≡ Err (WrongCount 2 3) }
    ensures first { values_in Int4 1 3 (codes "1" ∷ codes "x" ∷ codes "y" ∷ []) ≡ Err (BadValue 1) }
{}

/// Digits and letters.
pub fn digits_and_letters()
    ensures either_case { values_in Real4 1 1 (codes "F149f2Ca" ∷ []) ≡ Ok (0xf1 ∷ 0x49 ∷ 0xf2 ∷ 0xca ∷ []) }
    ensures date { values_in Epoch16 1 1 (codes "00112233445566778899aabbccddeeff" ∷ [])
        ≡ Ok (0x00 ∷ 0x11 ∷ 0x22 ∷ 0x33 ∷ 0x44 ∷ 0x55 ∷ 0x66 ∷ 0x77 ∷ 0x88 ∷ 0x99 ∷ 0xaa ∷ 0xbb ∷ 0xcc ∷ 0xdd ∷ 0xee ∷ 0xff ∷ []) }
    ensures letters { values_in Char 3 2 (codes "abc" ∷ codes "d\"x" ∷ []) ≡ Ok (codes "abcd\"x") }
{}

/// Values as they are written.
pub fn texts()
    ensures int1 { values_text Int1 1 (0x80 ∷ 0x7f ∷ 0x00 ∷ 0xff ∷ []) ≡ codes "-128 127 0 -1" }
    ensures int8 { values_text Int8 1 (0x80 ∷ 0x00 ∷ 0x00 ∷ 0x00 ∷ 0x00 ∷ 0x00 ∷ 0x00 ∷ 0x00 ∷ []) ≡ codes "-9223372036854775808" }
    ensures uint4 { values_text UInt4 1 (0xff ∷ 0xff ∷ 0xff ∷ 0xff ∷ []) ≡ codes "4294967295" }
    ensures real4 { values_text Real4 1 (0xf1 ∷ 0x49 ∷ 0xf2 ∷ 0xca ∷ []) ≡ codes "f149f2ca" }
    ensures letters { values_text Char 2 (codes "ab\"\\") ≡ codes "\"ab\" \"\\\"\\\\\"" }
    ensures none { values_text Real4 3 [] ≡ [] }
    ensures bytes { quoted (0x20 ∷ 0x7e ∷ 0x00 ∷ 0x1f ∷ 0x7f ∷ 0x80 ∷ 0xff ∷ 0x0a ∷ []) ≡ codes "\" ~\\x00\\x1f\\x7f\\x80\\xff\\x0a\"" }
{}
