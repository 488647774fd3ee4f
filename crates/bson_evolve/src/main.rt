//! Tells on standard output whether what is written at one shape is read at another.
#![tactic(auto)]

use bson_evolve_run::{CheckStatus, run_check};
use bson_program::{BAD_ARGUMENTS, words};
use bson_rawdoc::WriteAdapter;
use std::io;
use std::process::ExitCode;

/// Ends with the status of the run; with that of no memory, or [`BAD_ARGUMENTS`], where the words cannot be taken.
fn main(rt: HostRuntime) -> ExitCode {
    let words = match words(&rt) {
        Ok(words) => words,
        Err(e) if e.kind() == io::ErrorKind::OutOfMemory => return CheckStatus::NoMemory.code(),
        Err(_) => return ExitCode::from(BAD_ARGUMENTS),
    };
    let mut out = WriteAdapter::new(rt.stdout());
    let mut err = WriteAdapter::new(rt.stderr());
    run_check(rt.alloc(), &words, &mut out, &mut err).code()
}
