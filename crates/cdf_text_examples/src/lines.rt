//! A line of each command, and what it asks for.

ghost use Rattle.std.specs.Prelude.{◌≡◌, [], ◌∷◌, true, false, codes, Some};
ghost use Rattle.cdf_model.specs.Grammar.{Asks, parse};
ghost use Rattle.cdf_model.specs.declared.command.Command.TheVariants as commands;
ghost use Rattle.cdf_model.specs.declared.data_type.DataType.TheVariants.{Int4, Char, Epoch16};
ghost use Rattle.cdf_model.specs.declared.head.Majority.TheVariants.{Row, Column};
ghost use Rattle.cdf_model.specs.declared.kinds.EntryKind.TheVariants.{G, R, Z};
ghost use Rattle.cdf_model.specs.declared.kinds.Scope.TheVariants.{Global};
ghost use Rattle.cdf_model.specs.declared.kinds.Sparse.TheVariants.{Previous};

/// The file, its attributes and their entries.
pub fn of_the_file()
    ensures info { parse (Some (codes "info")) ≡ Asks commands.Info }
    ensures list { parse (Some (codes "list")) ≡ Asks commands.List }
    ensures dump { parse (Some (codes "dump")) ≡ Asks commands.Dump }
    ensures report { parse (Some (codes "report tally")) ≡ Asks (commands.Report (codes "tally")) }
    ensures setup { parse (Some (codes "setup 6 row 3,4")) ≡ Asks (commands.Setup 6 Row (3 ∷ 4 ∷ [])) }
    ensures no_dims { parse (Some (codes "setup 1 column -")) ≡ Asks (commands.Setup 1 Column []) }
    ensures checksum { parse (Some (codes "checksum md5")) ≡ Asks (commands.Checksum true) }
    ensures attr { parse (Some (codes "attr A global")) ≡ Asks (commands.Attr (codes "A") Global) }
    ensures rename { parse (Some (codes "rename-attr A B")) ≡ Asks (commands.RenameAttr (codes "A") (codes "B")) }
    ensures del { parse (Some (codes "del-attr A")) ≡ Asks (commands.DelAttr (codes "A")) }
    ensures put_entry { parse (Some (codes "put-entry A g 0 CHAR \"a b\" x")) ≡ Asks (commands.PutEntry (codes "A") G 0 Char (codes "a b" ∷ codes "x" ∷ [])) }
    ensures get_entry { parse (Some (codes "get-entry A r 7")) ≡ Asks (commands.GetEntry (codes "A") R 7) }
    ensures del_entry { parse (Some (codes "del-entry A z 10")) ≡ Asks (commands.DelEntry (codes "A") Z 10) }
{}

/// Variables, and what is set of them.
pub fn of_variables()
    ensures rvar { parse (Some (codes "rvar V EPOCH16 1 novary TF")) ≡ Asks (commands.RVar (codes "V") Epoch16 1 false (true ∷ false ∷ [])) }
    ensures zvar { parse (Some (codes "zvar V INT4 2 vary 3,0 -")) ≡ Asks (commands.ZVar (codes "V") Int4 2 true (3 ∷ 0 ∷ []) []) }
    ensures rename { parse (Some (codes "rename-var A \"\"")) ≡ Asks (commands.RenameVar (codes "A") []) }
    ensures del { parse (Some (codes "del-var V")) ≡ Asks (commands.DelVar (codes "V")) }
    ensures pad { parse (Some (codes "set-pad V -1")) ≡ Asks (commands.SetPad (codes "V") (codes "-1" ∷ [])) }
    ensures sparse { parse (Some (codes "set-sparse V previous")) ≡ Asks (commands.SetSparse (codes "V") Previous) }
    ensures compress { parse (Some (codes "set-compress V rle")) ≡ Asks (commands.SetCompress (codes "V") true) }
    ensures blocking { parse (Some (codes "set-blocking V 4294967295")) ≡ Asks (commands.SetBlocking (codes "V") 4294967295) }
    ensures reindex { parse (Some (codes "reindex V")) ≡ Asks (commands.Reindex (codes "V")) }
{}

/// Records and their values.
pub fn of_records()
    ensures put_rec { parse (Some (codes "put-rec V 271 12345")) ≡ Asks (commands.PutRec (codes "V") 271 (codes "12345" ∷ [])) }
    ensures get_rec { parse (Some (codes "get-rec V 0")) ≡ Asks (commands.GetRec (codes "V") 0) }
    ensures del_recs { parse (Some (codes "del-recs V 1 2")) ≡ Asks (commands.DelRecs (codes "V") 1 2) }
    ensures put_val { parse (Some (codes "put-val V 1 0,2 \"\"")) ≡ Asks (commands.PutVal (codes "V") 1 (0 ∷ 2 ∷ []) ([] ∷ [])) }
    ensures get_val { parse (Some (codes "get-val V 1 -")) ≡ Asks (commands.GetVal (codes "V") 1 []) }
{}
