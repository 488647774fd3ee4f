// An input that is read to its end, or the answer to one that is not.
ghost use Rattle.std.specs.Prelude.{◌≤◌, IfOk};
ghost use Rattle.bson_io.specs.Ends.{Takes};
ghost use Rattle.bson_program.specs.Ends.{source_change};
ghost use Rattle.bson_program.specs.Input.{input_ends};
ghost use Rattle.bson_program.specs.Prepared.{IsTaken};

use crate::{Answer, InputEndings};
use bson_io::{ReadFault, Source, read_to_end};
use std::alloc::{AllocError, Global};

/// All that an input has left, or the answer where it failed or is too long.
///
/// # Errors
///
/// The outer error means out of memory; the bytes that were taken by then are gone from the source.
pub fn read_input<S: Copy, I: Source>(
    alloc: Global,
    endings: InputEndings<S>,
    input: &mut I,
) -> Result<Result<Vec<u8>, Answer<S>>, AllocError>
    ensures taken { IfOk result (IsTaken (input_ends endings) (source_change I.left I.faults input.old input.new)) }
    ensures only_taken { Takes (I.left input.old) (I.left input.new) }
    ensures later { I.faults input.old ≤ I.faults input.new }
{
    let (status, line) = match read_to_end(alloc, input) {
        Ok(bytes) => return Ok(Ok(bytes)),
        Err(ReadFault::Failed) => (endings.source_fault, "source fault\n"),
        Err(ReadFault::TooLong) => (endings.too_long, endings.too_long_line),
        Err(ReadFault::NoMemory) => return Err(AllocError),
    };
    Ok(Err(Answer::line(alloc, status, String::from_str(alloc, line)?)))
}
