// Migrating a file of documents into a buffer, with a record for each refused document.
ghost use Rattle.std.specs.Prelude.{◌≡◌, ◌⊎◌, [], IfOk, length, string_bytes};
ghost use Rattle.bson_buffers.specs.Asked.{shape_of_bytes};
ghost use Rattle.bson_buffers.specs.Buffers.{call_of, IsSilent};
ghost use Rattle.bson_buffers.specs.Checks.{NoShapeRow};
ghost use Rattle.bson_buffers.specs.Lists.{records_by, ListsRecords, ListedRow, LargerListedRow, IsListedMigration};
ghost use Rattle.bson_buffers.specs.Migrates.{MigratedRow, BrokenRow, migration_status_at};
ghost use Rattle.bson_buffers.specs.Prover.Listed.{IsForListing, IsListingOf};
ghost use Rattle.bson_buffers.specs.declared.status.Status.TheVariants as statuses;

use crate::asking::asked;
use crate::buffer::put_front;
use crate::expected::{Expected, deliver};
use crate::listing::list;
use crate::refusal::Refusal;
use crate::report::{MigrationReport, Report};
use crate::status::Status;
use bson_migrate_run::{MigrateError, Migration, migrate};
use std::alloc::{AllocError, Global};

// What must be written for a file: to the two buffers, and to the array of records.
#[derive(Drop)]
struct ExpectedList {
    expected: Expected,
    refusals: Vec<Refusal>,
}

// What must be written for a file that was migrated. An error means out of memory.
fn expected_for_migration(
    alloc: Global,
    file: &[u8],
    migration: Migration,
) -> Result<ExpectedList, AllocError>
    ensures { IfOk result (λ d. IsListingOf file.now migration d) }
{
    let listing = list(alloc, file, &migration.refused)?;
    let status = match migration.refused.as_slice() {
        [] => Status::Done,
        [..] => Status::SomeRefused,
    };
    Ok(ExpectedList {
        expected: Expected {
            status,
            place: 0,
            output: migration.output,
            text: listing.text,
        },
        refusals: listing.refusals,
    })
}

// What must be written for a file at a shape. An error means out of memory.
fn expected_for(alloc: Global, shape: &[u8], file: &[u8]) -> Result<ExpectedList, AllocError>
    ensures { IfOk result (λ d. IsForListing shape.now file.now d.expected.status d.expected.place d.expected.output.items (string_bytes d.expected.text) d.refusals.items) }
{
    let shape = match asked(alloc, shape)? {
        Ok(shape) => shape,
        Err(refusal) => {
            return Ok(ExpectedList {
                expected: Expected::no_shape(alloc, refusal),
                refusals: Vec::new(alloc),
            });
        }
    };
    match migrate(alloc, &shape, file) {
        Ok(migration) => expected_for_migration(alloc, file, migration),
        Err(MigrateError::Broken(place)) => Ok(ExpectedList {
            expected: Expected {
                status: Status::Broken,
                place,
                output: Vec::new(alloc),
                text: String::new(alloc),
            },
            refusals: Vec::new(alloc),
        }),
        Err(MigrateError::NoMemory) => Err(AllocError),
    }
}

// `migrate_and_list`, with its table of statuses as a whole.
fn migrate_whole(
    alloc: Global,
    shape: &[u8],
    file: &[u8],
    output: &mut [u8],
    text: &mut [u8],
    refusals: &mut [Refusal],
) -> MigrationReport
    ensures { IsListedMigration shape.now file.now result.report.status (call_of result.report output.old output.new text.old text.new)
        (records_by result refusals.old refusals.new) }
{
    match expected_for(alloc, shape, file) {
        Ok(listed) => MigrationReport {
            report: deliver(&listed.expected, output, text),
            refusals_written: put_front(&listed.refusals, refusals),
            refusals_needed: listed.refusals.len(),
        },
        Err(_) => MigrationReport {
            report: Report::no_memory(),
            refusals_written: 0,
            refusals_needed: 0,
        },
    }
}

/// Recasts each document of a file as [`migrate_into`](crate::migrate_into) does, and lists the refused documents in an array.
///
/// The array gets as many of the first records as fit, in the order of the file: one for each document that is not recast, with its number, its place in the
/// file, the status of its recast, where its text is, and where in that text its cause begins. The text has no lines: it is the texts of these documents one
/// after another, each as [`recast_into`](crate::recast_into) gives it; its buffer gets as many of the first bytes as fit. The statuses are those of
/// `migrate_into`; at each but `SomeRefused` and `BufferTooSmall` no document is listed, and the array is as it was. At `ShapeRefused` the text is that of
/// `check_shape`.
pub fn migrate_and_list(
    alloc: Global,
    shape: &[u8],
    file: &[u8],
    output: &mut [u8],
    text: &mut [u8],
    refusals: &mut [Refusal],
) -> MigrationReport
    ensures done { result.report.status ≡ statuses.Done → MigratedRow shape.now file.now (call_of result.report output.old output.new text.old text.new)
        × ListsRecords (records_by result refusals.old refusals.new) [] }
    ensures some_refused { result.report.status ≡ statuses.SomeRefused → ListedRow shape.now file.now (call_of result.report output.old output.new text.old text.new)
        (records_by result refusals.old refusals.new) }
    ensures buffer_too_small { result.report.status ≡ statuses.BufferTooSmall → LargerListedRow shape.now file.now (call_of result.report output.old output.new text.old text.new)
        (records_by result refusals.old refusals.new) }
    ensures shape_refused { result.report.status ≡ statuses.ShapeRefused → NoShapeRow shape.now (call_of result.report output.old output.new text.old text.new)
        × ListsRecords (records_by result refusals.old refusals.new) [] }
    ensures broken { result.report.status ≡ statuses.Broken → BrokenRow shape.now file.now (call_of result.report output.old output.new text.old text.new)
        × ListsRecords (records_by result refusals.old refusals.new) [] }
    ensures no_memory { result.report.status ≡ statuses.NoMemory → IsSilent (call_of result.report output.old output.new text.old text.new)
        × ListsRecords (records_by result refusals.old refusals.new) [] }
    // The status is the one that must be returned, or out of memory.
    ensures complete { (result.report.status ≡ migration_status_at (length output.old) file.now (shape_of_bytes shape.now)) ⊎ (result.report.status ≡ statuses.NoMemory) }
{
    migrate_whole(alloc, shape, file, output, text, refusals)
}
