ghost use Rattle.std.specs.Prelude.{◌≡◌, ◌⊎◌, length};
ghost use Rattle.bson_buffers.specs.Asked.{shape_of_bytes};
ghost use Rattle.bson_buffers.specs.Checks.{NoShapeRow};
ghost use Rattle.bson_buffers.specs.Migrates.{MigratedRow, SomeRefusedRow, LargerRow, BrokenRow, migration_status_at};
ghost use Rattle.bson_buffers.specs.Number.{number_of};
ghost use Rattle.bson_buffers.specs.Buffers.{IsSilent};
ghost use Rattle.bson_buffers.specs.declared.status.Status.TheVariants as statuses;
ghost use Rattle.bson_c.specs.Crossing.{crossed_call};

use crate::report::Report;
use std::alloc::Global;

/// Recasts each document of a file at a shape, into a buffer: `bson_buffers::migrate_into`.
#[unsafe(no_mangle)]
pub extern "C" fn tbson_migrate(
    alloc: Global,
    shape: &[u8],
    file: &[u8],
    output: &mut [u8],
    text: &mut [u8],
) -> Report
    ensures done { result.status ≡ number_of statuses.Done → MigratedRow shape.now file.now (crossed_call result output.old output.new text.old text.new) }
    ensures some_refused { result.status ≡ number_of statuses.SomeRefused → SomeRefusedRow shape.now file.now (crossed_call result output.old output.new text.old text.new) }
    ensures buffer_too_small { result.status ≡ number_of statuses.BufferTooSmall → LargerRow shape.now file.now (crossed_call result output.old output.new text.old text.new) }
    ensures shape_refused { result.status ≡ number_of statuses.ShapeRefused → NoShapeRow shape.now (crossed_call result output.old output.new text.old text.new) }
    ensures broken { result.status ≡ number_of statuses.Broken → BrokenRow shape.now file.now (crossed_call result output.old output.new text.old text.new) }
    ensures no_memory { result.status ≡ number_of statuses.NoMemory → IsSilent (crossed_call result output.old output.new text.old text.new) }
    // The status is the one that must be returned, or out of memory.
    ensures complete { (result.status ≡ number_of (migration_status_at (length output.old) file.now (shape_of_bytes shape.now))) ⊎ (result.status ≡ number_of statuses.NoMemory) }
{
    Report::crossed(bson_buffers::migrate_into(alloc, shape, file, output, text))
}
