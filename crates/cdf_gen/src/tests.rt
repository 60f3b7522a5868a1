//! Scripts that another program made by the same rules.

use crate::script_of;
use std::test::Fail;

/// The lines that each of them begins with.
const FIRST: &str =
    "attr VAR_TYPE variable\nzvar A INT4 1 vary - -\nzvar B REAL8 1 vary 3 T\nzvar C UINT1 1 vary 16 T\nset-compress C rle\n";

/// The line behind them in the script of 1.
const ONE: &str = "put-rec C 271 0 0 0 0 0 0 0 0 0 0 0 0 0 0 0 0\n";

/// The lines behind them in the script of 5, which has each of the four commands.
const FIVE: &str = "put-rec A 648 23250
put-rec B 873 23e6e93b8c88d2bf 23e6e93b8c88d2bf 23e6e93b8c88d2bf
put-rec C 767 1 1 1 1 1 1 1 1 1 1 1 1 1 1 1 1
put-rec B 745 4f38415b5b5e5009 4f38415b5b5e5009 4f38415b5b5e5009
put-entry VAR_TYPE z 0 CHAR \"data\"
";

#[test]
fn scripts_are_those_of_another_program(rt: HostRuntime) -> Result<(), Fail> {
    for (n, behind) in [(0, ""), (1, ONE), (5, FIVE)] {
        let script = script_of(rt.alloc(), n)?;
        let wanted = format!(in rt.alloc(); "{FIRST}{behind}")?;
        assert_eq!(rt; script.as_slice(), wanted.as_bytes(), "of {n}");
    }
    Ok(())
}
