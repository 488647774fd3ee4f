// Recasting a document into a buffer.
ghost use Rattle.std.specs.Prelude.{◌≡◌, ◌⊎◌, IfOk, length, string_bytes};
ghost use Rattle.bson_buffers.specs.Asked.{shape_of_bytes};
ghost use Rattle.bson_buffers.specs.Checks.{NoShapeRow};
ghost use Rattle.bson_buffers.specs.Expected.{IsForRecast};
ghost use Rattle.bson_buffers.specs.Recasts.{RecastRow, LargerRow, UnreadRow, UnwrittenRow, recast_status_at, IsRecast};
ghost use Rattle.bson_buffers.specs.Buffers.{call_of, IsSilent};
ghost use Rattle.bson_buffers.specs.declared.status.Status.TheVariants as statuses;

use crate::asking::asked;
use crate::expected::{Expected, deliver};
use crate::report::Report;
use crate::status::Status;
use bson_recasting::{RecastError, recast};
use std::alloc::{AllocError, Global};

// What must be written for a document at a shape. An error means out of memory.
fn expected_for(alloc: Global, shape: &[u8], bytes: &[u8]) -> Result<Expected, AllocError>
    ensures { IfOk result (λ d. IsForRecast shape.now bytes.now d.status d.place d.output.items (string_bytes d.text)) }
{
    let shape = match asked(alloc, shape)? {
        Ok(shape) => shape,
        Err(refusal) => return Ok(Expected::no_shape(alloc, refusal)),
    };
    match recast(alloc, &shape, bytes) {
        Ok(output) => Ok(Expected {
            status: Status::Done,
            place: 0,
            output,
            text: String::new(alloc),
        }),
        Err(RecastError::Read(e)) => {
            let text = format!(in alloc; "{e}")?;
            Ok(Expected::refusal(alloc, Status::ReadRefused, text))
        }
        Err(RecastError::Write(e)) => {
            let text = format!(in alloc; "{e}")?;
            Ok(Expected::refusal(alloc, Status::WriteRefused, text))
        }
        Err(RecastError::NoMemory) => Err(AllocError),
    }
}

// `recast_into`, with its table of statuses as a whole.
fn recast_whole(
    alloc: Global,
    shape: &[u8],
    bytes: &[u8],
    output: &mut [u8],
    text: &mut [u8],
) -> Report
    ensures { IsRecast shape.now bytes.now result.status (call_of result output.old output.new text.old text.new) }
{
    match expected_for(alloc, shape, bytes) {
        Ok(expected) => deliver(&expected, output, text),
        Err(_) => Report::no_memory(),
    }
}

/// Recasts the bytes of a document at the shape that other bytes are the notation of, into a buffer.
///
/// The buffer gets all of the output or nothing, the buffer for the text as many of its first bytes as fit. The status says what came of it:
///
/// - `Done`: the document was recast. The first `written` bytes of the buffer are the output.
/// - `BufferTooSmall`: the output takes `needed` bytes, which are more than the buffer has. The buffer is as it was.
/// - `ShapeRefused`: the bytes of the shape are the notation of none, as `check_shape` tells.
/// - `ReadRefused`: the document is not read at the shape, and the text tells why, as [`recast`] refuses it.
/// - `WriteRefused`: it is read, and what was read is not written, and the text tells why.
/// - `NoMemory`: memory ran out, and both buffers are as they were.
pub fn recast_into(
    alloc: Global,
    shape: &[u8],
    bytes: &[u8],
    output: &mut [u8],
    text: &mut [u8],
) -> Report
    ensures done { result.status ≡ statuses.Done → RecastRow shape.now bytes.now (call_of result output.old output.new text.old text.new) }
    ensures buffer_too_small { result.status ≡ statuses.BufferTooSmall → LargerRow shape.now bytes.now (call_of result output.old output.new text.old text.new) }
    ensures shape_refused { result.status ≡ statuses.ShapeRefused → NoShapeRow shape.now (call_of result output.old output.new text.old text.new) }
    ensures read_refused { result.status ≡ statuses.ReadRefused → UnreadRow shape.now bytes.now (call_of result output.old output.new text.old text.new) }
    ensures write_refused { result.status ≡ statuses.WriteRefused → UnwrittenRow shape.now bytes.now (call_of result output.old output.new text.old text.new) }
    ensures no_memory { result.status ≡ statuses.NoMemory → IsSilent (call_of result output.old output.new text.old text.new) }
    // The status is the one that must be returned, or out of memory.
    ensures complete { (result.status ≡ recast_status_at (length output.old) bytes.now (shape_of_bytes shape.now)) ⊎ (result.status ≡ statuses.NoMemory) }
{
    recast_whole(alloc, shape, bytes, output, text)
}
