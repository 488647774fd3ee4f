// The run over what the system gives a program.
use crate::running::run_stream;
use bson_io::Buffered;
use bson_migrate_run::MigrateStatus;
use bson_program::{BAD_ARGUMENTS, words};
use bson_rawdoc::{ReadAdapter, WriteAdapter};
use std::io;
use std::process::ExitCode;

/// How many bytes are read at once.
const ROOM: usize = 65536;

/// Runs over the arguments, standard input, output and error of the process, and gives what it is to end with: the status of the run; that of no memory, or
/// [`BAD_ARGUMENTS`], where the arguments cannot be taken.
pub fn run_stream_here(rt: &HostRuntime) -> ExitCode {
    let words = match words(rt) {
        Ok(words) => words,
        Err(e) if e.kind() == io::ErrorKind::OutOfMemory => return MigrateStatus::NoMemory.code(),
        Err(_) => return ExitCode::from(BAD_ARGUMENTS),
    };
    let Ok(room) = vec![in rt.alloc(); 0u8; ROOM] else {
        return MigrateStatus::NoMemory.code();
    };
    let mut input = Buffered::new(ReadAdapter::new(rt.stdin()), room);
    let mut out = WriteAdapter::new(rt.stdout());
    let mut err = WriteAdapter::new(rt.stderr());
    run_stream(rt.alloc(), &words, &mut input, &mut out, &mut err).code()
}
