//! The program `bson_stream` once more, for a stored run with `--salvage`: that of `bson_stream` recasts.
#![tactic(auto)]

use bson_stream_run::run_stream_here;
use std::process::ExitCode;

/// Ends with the status of the run.
fn main(rt: HostRuntime) -> ExitCode {
    run_stream_here(&rt)
}
