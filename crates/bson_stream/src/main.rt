//! Reads BSON documents on standard input one after another, and answers each on standard output as soon as it is there.
#![tactic(auto)]

use bson_stream_run::run_stream_here;
use std::process::ExitCode;

/// Ends with the status of the run.
fn main(rt: HostRuntime) -> ExitCode {
    run_stream_here(&rt)
}
