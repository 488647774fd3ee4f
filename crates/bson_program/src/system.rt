// The words of a command line, taken from the system.
use std::{env, io};

/// The exit status of a program whose arguments cannot be taken, as one that is not UTF-8. The statuses of a run are smaller.
pub const BAD_ARGUMENTS: u8 = 7;

/// The words after the program's name.
///
/// # Errors
///
/// `OutOfMemory` where memory ran out; another kind where an argument is not UTF-8.
pub fn words(rt: &HostRuntime) -> io::Result<Vec<String>> {
    let mut words = Vec::new(rt.alloc());
    for word in env::args(rt)?.skip(1) {
        words.push(word)?;
    }
    Ok(words)
}
