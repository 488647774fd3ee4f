// Judging a shape.
ghost use Rattle.std.specs.Prelude.{◌≡◌, ◌⊎◌, [], IfOk, string_bytes};
ghost use Rattle.bson_buffers.specs.Asked.{shape_of_bytes};
ghost use Rattle.bson_buffers.specs.Checks.{IsShapeRow, NoShapeRow, judged, IsChecked};
ghost use Rattle.bson_buffers.specs.Expected.{IsForCheck};
ghost use Rattle.bson_buffers.specs.Buffers.{call_of, IsSilent};
ghost use Rattle.bson_buffers.specs.declared.status.Status.TheVariants as statuses;

use crate::asking::asked;
use crate::expected::{Expected, deliver};
use crate::report::Report;
use crate::status::Status;
use std::alloc::{AllocError, Global};

// What must be written for a shape. An error means out of memory.
fn expected_for(alloc: Global, shape: &[u8]) -> Result<Expected, AllocError>
    ensures { IfOk result (λ d. IsForCheck shape.now d.status d.place d.output.items (string_bytes d.text)) }
{
    match asked(alloc, shape)? {
        Ok(_) => Ok(Expected::refusal(alloc, Status::Done, String::new(alloc))),
        Err(refusal) => Ok(Expected::no_shape(alloc, refusal)),
    }
}

// `check_shape`, with its table of statuses as a whole.
fn check(alloc: Global, shape: &[u8], text: &mut [u8]) -> Report
    ensures { IsChecked shape.now result.status (call_of result [] [] text.old text.new) }
{
    match expected_for(alloc, shape) {
        Ok(expected) => deliver(&expected, &mut [], text),
        Err(_) => Report::no_memory(),
    }
}

/// Judges whether bytes are the notation of a shape.
///
/// The buffer for the text gets as many of its first bytes as fit. The status says what came of it:
///
/// - `Done`: the bytes are the notation of a shape.
/// - `ShapeRefused`: they are not. `place` is the byte, counted from 0, where they are refused, and the text tells why: as `Shape::parse` refuses them, or
///   `not UTF-8`, and then the place is that of the first byte that is no part of a character.
/// - `NoMemory`: memory ran out, and the buffer is as it was.
pub fn check_shape(alloc: Global, shape: &[u8], text: &mut [u8]) -> Report
    ensures done { result.status ≡ statuses.Done → IsShapeRow shape.now (call_of result [] [] text.old text.new) }
    ensures shape_refused { result.status ≡ statuses.ShapeRefused → NoShapeRow shape.now (call_of result [] [] text.old text.new) }
    ensures no_memory { result.status ≡ statuses.NoMemory → IsSilent (call_of result [] [] text.old text.new) }
    // The status is the one that must be returned, or out of memory.
    ensures complete { (result.status ≡ judged (shape_of_bytes shape.now)) ⊎ (result.status ≡ statuses.NoMemory) }
{
    check(alloc, shape, text)
}
