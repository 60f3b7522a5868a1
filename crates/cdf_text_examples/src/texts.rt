//! Replies that no run shows yet, each with its text.

ghost use Rattle.std.specs.Prelude.{◌≡◌, [], ◌∷◌, true, codes, pos, negsuc};
ghost use Rattle.cdf_model.specs.Texts.{reply_text};
ghost use Rattle.cdf_model.specs.declared.answer.Outcome.TheVariants.{Done, Refused};
ghost use Rattle.cdf_model.specs.declared.answer.Reason.TheVariants.{WrongCount, TooLarge};
ghost use Rattle.cdf_model.specs.declared.answer.Reply.TheVariants as answers;
ghost use Rattle.cdf_model.specs.declared.data_type.DataType.TheVariants.{Int4, Real8, Char};
ghost use Rattle.cdf_model.specs.declared.head.Majority.TheVariants.{Column};
ghost use Rattle.cdf_model.specs.declared.item.Item.TheVariants as items;
ghost use Rattle.cdf_model.specs.declared.kinds.Kind.TheVariants.{R, Z};
ghost use Rattle.cdf_model.specs.declared.kinds.Scope.TheVariants.{VariableAssumed};
ghost use Rattle.cdf_text_examples.specs.Texts.{text_lines};

/// The head of a file from elsewhere, names with odd bytes, and large numbers.
pub fn of_the_file()
    ensures head { reply_text 1 (Done (answers.Head (record { version = pos 3; release = negsuc 0; increment = pos 0; encoding = 18; majority = Column; md5 = true; rdims = 2 ∷ 3 ∷ []; attrs = 7; rvars = 1; zvars = 4294967295 })))
        ≡ text_lines (codes "1 ok version 3.-1.0 encoding 18 majority column checksum md5 rdims 2,3 attributes 7 rvars 1 zvars 4294967295" ∷ []) }
    ensures listing { reply_text 2 (Done (answers.Listing (items.Attr 0 (codes "A") VariableAssumed ∷ items.Var R 1 (0x22 ∷ 0x5c ∷ 0x00 ∷ 0xff ∷ []) ∷ items.Var Z 0 (codes "B") ∷ [])))
        ≡ text_lines (codes "2 ok" ∷ codes "attribute 0 \"A\" variable-assumed" ∷ codes "rvar 1 \"\\\"\\\\\\x00\\xff\"" ∷ codes "zvar 0 \"B\"" ∷ codes "2 end" ∷ []) }
    ensures too_large { reply_text 18446744073709551615 (Refused TooLarge) ≡ text_lines (codes "18446744073709551615 refused 16 TooLarge" ∷ []) }
    ensures count { reply_text 6 (Refused (WrongCount 1 2)) ≡ text_lines (codes "6 refused 11 WrongCount 1 2" ∷ []) }
{}

/// Values of an entry and of a record.
pub fn of_values()
    ensures entry { reply_text 3 (Done (answers.Entry Int4 3 (0x00 ∷ 0x00 ∷ 0x00 ∷ 0x07 ∷ 0xff ∷ 0xff ∷ 0xff ∷ 0xff ∷ 0x80 ∷ 0x00 ∷ 0x00 ∷ 0x00 ∷ []))) ≡ text_lines (codes "3 ok INT4 3 7 -1 -2147483648" ∷ []) }
    ensures letters { reply_text 3 (Done (answers.Entry Char 4 (codes "ISTP"))) ≡ text_lines (codes "3 ok CHAR 4 \"ISTP\"" ∷ []) }
    ensures real { reply_text 5 (Done (answers.Values Real8 1 (0x7f ∷ 0xf8 ∷ 0x00 ∷ 0x00 ∷ 0x00 ∷ 0x00 ∷ 0x00 ∷ 0x01 ∷ []))) ≡ text_lines (codes "5 ok 7ff8000000000001" ∷ []) }
    ensures labels { reply_text 5 (Done (answers.Values Char 4 (codes "Bx  By  Bz  "))) ≡ text_lines (codes "5 ok \"Bx  \" \"By  \" \"Bz  \"" ∷ []) }
{}
