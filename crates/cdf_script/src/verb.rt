//! The names of the commands.

/// The name of a command.
#[derive(Clone, Copy)]
pub enum Verb {
    Info,
    List,
    Setup,
    Checksum,
    Dump,
    Report,
    Attr,
    RenameAttr,
    DelAttr,
    PutEntry,
    GetEntry,
    DelEntry,
    RVar,
    ZVar,
    RenameVar,
    DelVar,
    SetPad,
    SetSparse,
    SetCompress,
    SetBlocking,
    PutRec,
    GetRec,
    DelRecs,
    PutVal,
    GetVal,
    Reindex,
}

static VERBS: [Verb; 26] = [
    Verb::Info,
    Verb::List,
    Verb::Setup,
    Verb::Checksum,
    Verb::Dump,
    Verb::Report,
    Verb::Attr,
    Verb::RenameAttr,
    Verb::DelAttr,
    Verb::PutEntry,
    Verb::GetEntry,
    Verb::DelEntry,
    Verb::RVar,
    Verb::ZVar,
    Verb::RenameVar,
    Verb::DelVar,
    Verb::SetPad,
    Verb::SetSparse,
    Verb::SetCompress,
    Verb::SetBlocking,
    Verb::PutRec,
    Verb::GetRec,
    Verb::DelRecs,
    Verb::PutVal,
    Verb::GetVal,
    Verb::Reindex,
];

impl Verb {
    ghost use Rattle.std.specs.Prelude.{◌≡◌, Some, find, bytes_eq};
    ghost use Rattle.cdf_model.specs.Forms.{wanted as wanted_by};
    ghost use Rattle.cdf_script.specs.Verbs.{name_of, row_of, verb_in};

    /// The verb of a name.
    pub fn of_name(name: &[u8]) -> Option<Verb>
        ensures { result ≡ verb_in name.now }
    {
        VERBS.iter().copied().find(|verb| verb.name() == name)
    }

    fn name(&self) -> &'static [u8]
        ensures { result.now ≡ name_of self.now }
    {
        match self {
            Verb::Info => b"info",
            Verb::List => b"list",
            Verb::Setup => b"setup",
            Verb::Checksum => b"checksum",
            Verb::Dump => b"dump",
            Verb::Report => b"report",
            Verb::Attr => b"attr",
            Verb::RenameAttr => b"rename-attr",
            Verb::DelAttr => b"del-attr",
            Verb::PutEntry => b"put-entry",
            Verb::GetEntry => b"get-entry",
            Verb::DelEntry => b"del-entry",
            Verb::RVar => b"rvar",
            Verb::ZVar => b"zvar",
            Verb::RenameVar => b"rename-var",
            Verb::DelVar => b"del-var",
            Verb::SetPad => b"set-pad",
            Verb::SetSparse => b"set-sparse",
            Verb::SetCompress => b"set-compress",
            Verb::SetBlocking => b"set-blocking",
            Verb::PutRec => b"put-rec",
            Verb::GetRec => b"get-rec",
            Verb::DelRecs => b"del-recs",
            Verb::PutVal => b"put-val",
            Verb::GetVal => b"get-val",
            Verb::Reindex => b"reindex",
        }
    }

    /// How many words the command wants at least.
    pub fn wanted(&self) -> usize
        ensures { result ≡ wanted_by (row_of self.now) }
    {
        match self {
            Verb::Info | Verb::List | Verb::Dump => 0,
            Verb::Checksum | Verb::Report | Verb::DelAttr => 1,
            Verb::DelVar | Verb::Reindex => 1,
            Verb::Attr | Verb::RenameAttr | Verb::RenameVar => 2,
            Verb::SetPad | Verb::SetSparse | Verb::SetCompress => 2,
            Verb::SetBlocking | Verb::GetRec => 2,
            Verb::Setup | Verb::GetEntry | Verb::DelEntry => 3,
            Verb::PutRec | Verb::DelRecs | Verb::GetVal => 3,
            Verb::PutVal => 4,
            Verb::PutEntry | Verb::RVar => 5,
            Verb::ZVar => 6,
        }
    }

    /// Whether the command takes more words than it wants.
    pub fn is_open(&self) -> bool
        ensures { result ≡ (row_of self.now).is_open }
    {
        match self {
            Verb::PutEntry | Verb::PutRec => true,
            _ => false,
        }
    }
}
