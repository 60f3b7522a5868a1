//! The scripts of the files that are converted.

use std::alloc::Global;
use std::test::Fail;

/// Each of them makes a file.
pub const SCRIPTS: [&[u8]; 6] = [NOTHING, ATTRIBUTES, ENTRIES, NUMBERS, RECORDS, LEFTOVERS];

/// A file without attributes and variables.
const NOTHING: &[u8] = b"";

/// Attributes without entries.
const ATTRIBUTES: &[u8] =
    b"attr Project global\nattr UNITS variable\nattr \"Instrument type\" global\n";

/// Entries of the file and of variables, of variables that there are and of none.
const ENTRIES: &[u8] = b"setup 1 column -
attr Title global
attr Empty global
attr UNITS variable
attr FILLVAL variable
rvar Speed REAL4 1 vary -
zvar Flux REAL8 1 vary 2,3 TF
put-entry Title g 0 CHAR \"Magnetic field\"
put-entry Title g 5 INT4 1 2 3
put-entry Title g 2 TIME_TT2000 0
put-entry UNITS z 0 CHAR \"nT\"
put-entry UNITS r 0 CHAR \"km/s\"
put-entry FILLVAL z 0 UCHAR \"x\"
put-entry FILLVAL r 0 REAL4 bf800000
";

/// A variable of each type, with and without records, and with a pad value.
const NUMBERS: &[u8] = b"setup 6 row 2,2
rvar r1 INT1 1 vary TT
rvar r2 INT2 1 vary TF
rvar r3 INT4 1 novary FT
rvar r4 INT8 1 vary FF
rvar r5 UINT1 1 vary TT
rvar r6 UINT2 1 vary TT
rvar r7 UINT4 1 vary FF
rvar r8 CHAR 3 vary FF
zvar z1 REAL4 1 vary 3 T
zvar z2 REAL8 1 vary - -
zvar z3 EPOCH 1 vary - -
zvar z4 EPOCH16 1 vary - -
zvar z5 TIME_TT2000 1 vary - -
zvar z6 BYTE 1 vary 2 F
zvar z7 FLOAT 1 novary - -
zvar z8 DOUBLE 1 vary - -
zvar z9 UCHAR 4 vary 2 T
put-rec r1 0 1 2 3 4
put-rec r2 0 -1 300
put-rec r3 0 7 8
put-rec r4 1 -9
put-rec r5 0 1 2 3 255
put-rec r6 2 1 2 3 65535
put-rec r7 0 4294967295
put-rec r8 0 \"abc\"
put-rec z1 0 3f800000 40000000 00000000
put-rec z2 0 3ff0000000000000
put-rec z5 0 0
put-rec z6 0 5
put-rec z7 0 3f800000
put-rec z8 3 bff0000000000000
put-rec z9 0 \"Bx  \" \"By  \"
set-pad r4 5
set-pad z9 \"none\"
";

/// Several records in each block, one record in each, and blocks of several sizes.
const RECORDS: &[u8] = b"zvar Counts UINT2 1 vary 3 T
zvar Flux REAL4 1 vary - -
set-blocking Counts 2
set-blocking Flux 1
put-rec Counts 0 1 2 3
put-rec Counts 1 4 5 6
put-rec Counts 4 7 8 9
put-rec Flux 0 3f800000
put-rec Flux 1 00000000
put-rec Flux 2 7fc00000
put-rec Counts 9 0 0 0
del-recs Counts 5 6
";

/// A file with unused records.
const LEFTOVERS: &[u8] = b"attr a global
attr b variable
attr c global
zvar x INT4 1 vary - -
zvar y INT4 1 vary - -
put-entry a g 0 CHAR \"some text\"
put-entry c g 1 CHAR \"other text\"
put-rec x 0 1
put-rec y 0 2
del-entry a g 0
del-attr b
del-var x
";

/// A script for a variable with so many records, each in a block of its own.
pub fn many_blocks(alloc: Global, records: u32) -> Result<String, Fail> {
    let mut script = String::from_str(alloc, "zvar T INT4 1 vary - -\nset-blocking T 1\n")?;
    for number in 0..records {
        write!(script, "put-rec T {number} {number}\n")?;
    }
    Ok(script)
}
