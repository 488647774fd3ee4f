ghost use Rattle.std.specs.Prelude.{◌≡◌, ◌⊎◌, []};
ghost use Rattle.bson_buffers.specs.Asked.{shape_of_bytes};
ghost use Rattle.bson_buffers.specs.Checks.{IsShapeRow, NoShapeRow, judged};
ghost use Rattle.bson_buffers.specs.Number.{number_of};
ghost use Rattle.bson_buffers.specs.Buffers.{IsSilent};
ghost use Rattle.bson_buffers.specs.declared.status.Status.TheVariants as statuses;
ghost use Rattle.bson_c.specs.Crossing.{crossed_call};

use crate::report::Report;
use std::alloc::Global;

/// Judges whether bytes are the notation of a shape: `bson_buffers::check_shape`.
#[unsafe(no_mangle)]
pub extern "C" fn tbson_check_shape(alloc: Global, shape: &[u8], text: &mut [u8]) -> Report
    ensures done { result.status ≡ number_of statuses.Done → IsShapeRow shape.now (crossed_call result [] [] text.old text.new) }
    ensures shape_refused { result.status ≡ number_of statuses.ShapeRefused → NoShapeRow shape.now (crossed_call result [] [] text.old text.new) }
    ensures no_memory { result.status ≡ number_of statuses.NoMemory → IsSilent (crossed_call result [] [] text.old text.new) }
    // The status is the one that must be returned, or out of memory.
    ensures complete { (result.status ≡ number_of (judged (shape_of_bytes shape.now))) ⊎ (result.status ≡ number_of statuses.NoMemory) }
{
    Report::crossed(bson_buffers::check_shape(alloc, shape, text))
}
