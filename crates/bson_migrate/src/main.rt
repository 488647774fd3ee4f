//! Reads a file of BSON documents on standard input, recasts each at a shape, and writes them on standard output.
#![tactic(auto)]

use bson_migrate_run::{MigrateStatus, run_migrate};
use bson_program::{BAD_ARGUMENTS, words};
use bson_rawdoc::{ReadAdapter, WriteAdapter};
use std::io;
use std::process::ExitCode;

/// Ends with the status of the run; with that of no memory, or [`BAD_ARGUMENTS`], where the words cannot be taken.
fn main(rt: HostRuntime) -> ExitCode {
    let words = match words(&rt) {
        Ok(words) => words,
        Err(e) if e.kind() == io::ErrorKind::OutOfMemory => return MigrateStatus::NoMemory.code(),
        Err(_) => return ExitCode::from(BAD_ARGUMENTS),
    };
    let mut input = ReadAdapter::new(rt.stdin());
    let mut out = WriteAdapter::new(rt.stdout());
    let mut err = WriteAdapter::new(rt.stderr());
    run_migrate(rt.alloc(), &words, &mut input, &mut out, &mut err).code()
}
