//! Reads a BSON document on standard input at a shape, and writes it anew on standard output.
#![tactic(auto)]

use bson_recast_run::run_here;
use std::process::ExitCode;

/// Ends with the status of the run.
fn main(rt: HostRuntime) -> ExitCode {
    run_here(&rt)
}
