//! The rules of a well-formed file in words, as they are told where one is broken.

ghost use Rattle.std.specs.Prelude.{◌≡◌, length, is_some};
ghost use Rattle.cdf_tellings.specs.Rules.{is_rule, last_rule};

/// The rules of phase 0, from the first one on: what is told of a file that breaks them.
static LENGTH: [&str; 2] = [
    "the file has fewer than 8 bytes",
    "the file has more than 1073741840 bytes",
];

/// Those of phase 1.
static MAGIC: [&str; 2] = [
    "the first magic number is not cdf30001",
    "the second magic number is not 0000ffff",
];

/// Those of phase 2.
static CDR: [&str; 6] = [
    "the file has fewer than 320 bytes",
    "the record at 8 is no whole CDR",
    "Version is not 3",
    "Encoding is none that is read",
    "the file is one of several that belong together",
    "the checksum is not MD5",
];

/// Those of phase 3.
static GDR: [&str; 5] = [
    "GDRoffset leads out of the file",
    "the record at GDRoffset is no whole GDR",
    "the size of an r dimension is not 1 to 2147483647",
    "eof is not the end of the file",
    "eof is more than 1073741824",
];

/// Those of phase 4.
static RECORDS: [&str; 3] = [
    "a record has fewer than 12 bytes or passes eof",
    "the type of a record is not known",
    "a record is too short for its type",
];

/// Those of phase 5.
static CHAINS: [&str; 11] = [
    "GDRoffset leads to no GDR",
    "a link in the chain of attributes leads to no new ADR",
    "NumAttr is not the number of attributes",
    "the Num of an attribute is out of order",
    "a link in the chain of r variables leads to no new VDR",
    "NrVars is not the number of r variables",
    "the Num of an r variable is out of order",
    "a link in the chain of z variables leads to no new VDR",
    "NzVars is not the number of z variables",
    "the Num of a z variable is out of order",
    "a link in the list of unused records leads to no new UIR",
];

/// Those of phase 6.
static ATTRIBUTES: [&str; 8] = [
    "the name of an attribute is empty",
    "the name of an attribute stands twice",
    "Scope is not 1 to 4",
    "a link in a chain of entries leads to no new entry of its kind",
    "NgrEntries or NzEntries is not the number of entries",
    "AttrNum is not the number of the attribute",
    "the Num of an entry is out of range or stands twice",
    "the DataType, the NumElems or the size of an entry is wrong",
];

/// Those of phase 7.
static VARIABLES: [&str; 12] = [
    "the name of a variable is empty",
    "the name of a variable stands twice",
    "the DataType of a variable is not known",
    "the NumElems of a variable is wrong",
    "zNumDims or the size of a dimension is wrong",
    "a VDR is too short for its fields",
    "a record of a variable has more than 67108864 bytes",
    "MaxRec is not -1 to 2147483646",
    "SRecords is not 0 to 2",
    "CPRorSPRoffset is set, but the variable is not compressed",
    "CPRorSPRoffset leads to no whole CPR",
    "a variable is packed in a way that is not read",
];

/// Those of phase 8.
static INDEXES: [&str; 8] = [
    "a link in an index leads to no new VXR, or its levels are more than 8",
    "the Nentries or the NusedEntries of a VXR is wrong",
    "an entry of a VXR leads to no VVR, CVVR or VXR",
    "the records of an index are out of order",
    "a VVR is too short for its records",
    "a CVVR stands in a variable that is not compressed, or is too short",
    "a CVVR has more than 67108864 plain bytes",
    "the packed bytes of a CVVR are not those of its records",
];

/// Those of phase 9, but for the rule 99.
static OWNERS: [&str; 1] = ["a record has no owner, or more than one"];

/// Those of phase 10.
static TRAILER: [&str; 1] = ["the checksum is not that of the file"];

/// The rules of a phase in words, from the first one on, but for a rule 99.
fn rules_of(phase: u8) -> &'static [&'static str]
    ensures { length result.now ≡ last_rule phase }
{
    match phase {
        0 => &LENGTH,
        1 => &MAGIC,
        2 => &CDR,
        3 => &GDR,
        4 => &RECORDS,
        5 => &CHAINS,
        6 => &ATTRIBUTES,
        7 => &VARIABLES,
        8 => &INDEXES,
        9 => &OWNERS,
        10 => &TRAILER,
        _ => &[],
    }
}

/// The rule 99 of a phase in words: what the format allows and is not read yet.
fn unread(phase: u8) -> Option<&'static str>
    ensures { is_some result ≡ is_rule phase 99 }
{
    match phase {
        9 => Some("a variable is packed, which is not read yet"),
        _ => None,
    }
}

/// What is told of a file that breaks this rule, where there is such a rule.
pub fn words_of_rule(phase: u8, number: u8) -> Option<&'static str>
    ensures { is_some result ≡ is_rule phase number }
{
    if number == 99 {
        return unread(phase);
    }
    let place = number.checked_sub(1)?;
    rules_of(phase).get(place as usize).copied()
}
