//! `cdfedit`: opens a CDF file, checks it whole, and answers a script of commands that it reads from standard input.
#![tactic(auto)]

use cdf_program::start;
use std::process::ExitCode;

fn main(rt: HostRuntime) -> ExitCode {
    start(&rt)
}
