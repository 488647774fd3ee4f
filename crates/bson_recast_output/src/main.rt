//! The program `bson_recast` once more, for a stored run that writes a document: that of `bson_recast` ends with another status than 0, and so writes none.
#![tactic(auto)]

use bson_recast_run::run_here;
use std::process::ExitCode;

/// Ends with the status of the run.
fn main(rt: HostRuntime) -> ExitCode {
    run_here(&rt)
}
