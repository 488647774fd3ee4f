// The run over what the system gives a program.
use crate::running::run_infer;
use crate::status::InferStatus;
use bson_program::{BAD_ARGUMENTS, words};
use bson_rawdoc::{ReadAdapter, WriteAdapter};
use std::io;
use std::process::ExitCode;

/// Runs over the arguments, standard input, output and error of the process, and gives what it is to end with: the status of the run; that of no memory, or
/// [`BAD_ARGUMENTS`], where the arguments cannot be taken.
pub fn run_infer_here(rt: &HostRuntime) -> ExitCode {
    let words = match words(rt) {
        Ok(words) => words,
        Err(e) if e.kind() == io::ErrorKind::OutOfMemory => return InferStatus::NoMemory.code(),
        Err(_) => return ExitCode::from(BAD_ARGUMENTS),
    };
    let mut input = ReadAdapter::new(rt.stdin());
    let mut out = WriteAdapter::new(rt.stdout());
    let mut err = WriteAdapter::new(rt.stderr());
    run_infer(rt.alloc(), &words, &mut input, &mut out, &mut err).code()
}
