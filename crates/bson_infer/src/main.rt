//! Reads a file of BSON documents on standard input, and writes the shape that they have in common on standard output.
#![tactic(auto)]

use bson_infer_run::run_infer_here;
use std::process::ExitCode;

/// Ends with the status of the run.
fn main(rt: HostRuntime) -> ExitCode {
    run_infer_here(&rt)
}
