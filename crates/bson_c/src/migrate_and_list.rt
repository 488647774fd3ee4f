ghost use Rattle.std.specs.Prelude.{◌≡◌, ◌⊎◌, [], length};
ghost use Rattle.bson_buffers.specs.Asked.{shape_of_bytes};
ghost use Rattle.bson_buffers.specs.Buffers.{IsSilent};
ghost use Rattle.bson_buffers.specs.Checks.{NoShapeRow};
ghost use Rattle.bson_buffers.specs.Lists.{ListsRecords, ListedRow, LargerListedRow};
ghost use Rattle.bson_buffers.specs.Migrates.{MigratedRow, BrokenRow, migration_status_at};
ghost use Rattle.bson_buffers.specs.Number.{number_of};
ghost use Rattle.bson_buffers.specs.declared.status.Status.TheVariants as statuses;
ghost use Rattle.bson_c.specs.Crossing.{crossed_call, crossed_records};

use crate::report::MigrationReport;
use bson_buffers::Refusal;
use std::alloc::Global;

/// Recasts each document of a file at a shape, into a buffer, and lists the refused documents in an array: `bson_buffers::migrate_and_list`.
#[unsafe(no_mangle)]
pub extern "C" fn tbson_migrate_and_list(
    alloc: Global,
    shape: &[u8],
    file: &[u8],
    output: &mut [u8],
    text: &mut [u8],
    refusals: &mut [Refusal],
) -> MigrationReport
    ensures done { result.report.status ≡ number_of statuses.Done → MigratedRow shape.now file.now (crossed_call result.report output.old output.new text.old text.new)
        × ListsRecords (crossed_records result refusals.old refusals.new) [] }
    ensures some_refused { result.report.status ≡ number_of statuses.SomeRefused → ListedRow shape.now file.now (crossed_call result.report output.old output.new text.old text.new)
        (crossed_records result refusals.old refusals.new) }
    ensures buffer_too_small { result.report.status ≡ number_of statuses.BufferTooSmall → LargerListedRow shape.now file.now (crossed_call result.report output.old output.new text.old text.new)
        (crossed_records result refusals.old refusals.new) }
    ensures shape_refused { result.report.status ≡ number_of statuses.ShapeRefused → NoShapeRow shape.now (crossed_call result.report output.old output.new text.old text.new)
        × ListsRecords (crossed_records result refusals.old refusals.new) [] }
    ensures broken { result.report.status ≡ number_of statuses.Broken → BrokenRow shape.now file.now (crossed_call result.report output.old output.new text.old text.new)
        × ListsRecords (crossed_records result refusals.old refusals.new) [] }
    ensures no_memory { result.report.status ≡ number_of statuses.NoMemory → IsSilent (crossed_call result.report output.old output.new text.old text.new)
        × ListsRecords (crossed_records result refusals.old refusals.new) [] }
    // The status is the one that must be returned, or out of memory.
    ensures complete { (result.report.status ≡ number_of (migration_status_at (length output.old) file.now (shape_of_bytes shape.now))) ⊎ (result.report.status ≡ number_of statuses.NoMemory) }
{
    MigrationReport::crossed(bson_buffers::migrate_and_list(
        alloc, shape, file, output, text, refusals,
    ))
}
