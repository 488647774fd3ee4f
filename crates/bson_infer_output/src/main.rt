//! The program `bson_infer` once more, for a stored run that writes a shape: that of `bson_infer` ends with another status than 0, and so writes none.
#![tactic(auto)]

use bson_infer_run::run_infer_here;
use std::process::ExitCode;

/// Ends with the status of the run.
fn main(rt: HostRuntime) -> ExitCode {
    run_infer_here(&rt)
}
