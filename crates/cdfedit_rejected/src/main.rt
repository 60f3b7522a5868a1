//! `cdfedit` again, to be run over a file that breaks a rule.
#![tactic(auto)]

use cdf_program::start;
use std::process::ExitCode;

fn main(rt: HostRuntime) -> ExitCode {
    start(&rt)
}
