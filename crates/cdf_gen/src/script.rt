//! The script that is generated from a number.

ghost use Rattle.std.specs.Prelude.{◌≡◌, ◌≤◌, IfOk};
ghost use Rattle.cdf_gen.specs.Generated.{next_number, script_of};

use crate::line::append_line;
use std::alloc::{AllocError, Global};

/// The most lines that are generated behind the first lines.
pub const MOST_LINES: u64 = 1_000_000;

/// The lines that each generated script begins with: they make an attribute and three variables.
const FIRST_LINES: &[u8] =
    b"attr VAR_TYPE variable\nzvar A INT4 1 vary - -\nzvar B REAL8 1 vary 3 T\nzvar C UINT1 1 vary 16 T\nset-compress C rle\n";

const MULTIPLIER: u64 = 6_364_136_223_846_793_005;

const INCREMENT: u64 = 1_442_695_040_888_963_407;

/// The number that follows a number, by a linear congruence.
fn next_number(x: u64) -> u64
    ensures { result ≡ next_number x }
{
    MULTIPLIER.wrapping_mul(x).wrapping_add(INCREMENT)
}

/// The script of `n`: the first lines, and then `n` lines of the numbers that follow `n`. The only error is want of memory.
pub fn script_of(alloc: Global, n: u64) -> Result<Vec<u8>, AllocError>
    requires { n ≤ MOST_LINES }
    ensures { IfOk result (λ script. script.items ≡ script_of n) }
{
    let mut script = Vec::from_slice(alloc, FIRST_LINES)?;
    let mut x = n;
    for _ in 0..n {
        x = next_number(x);
        append_line(x, &mut script)?;
    }
    Ok(script)
}
