// Migrating a file of documents into a buffer.
ghost use Rattle.std.specs.Prelude.{◌≡◌, ◌⊎◌, [], IfOk, length, string_bytes};
ghost use Rattle.bson_buffers.specs.Asked.{shape_of_bytes};
ghost use Rattle.bson_buffers.specs.Checks.{NoShapeRow};
ghost use Rattle.bson_buffers.specs.Expected.{IsForMigration, IsOfMigration};
ghost use Rattle.bson_buffers.specs.Migrates.{MigratedRow, SomeRefusedRow, LargerRow, BrokenRow, migration_status_at, IsMigrated};
ghost use Rattle.bson_buffers.specs.Buffers.{call_of, IsSilent};
ghost use Rattle.bson_buffers.specs.declared.status.Status.TheVariants as statuses;

use crate::asking::asked;
use crate::expected::{Expected, deliver};
use crate::report::Report;
use crate::status::Status;
use bson_migrate_run::{MigrateError, Migration, lines_of, migrate};
use std::alloc::{AllocError, Global};

// What must be written for a file that was migrated. An error means out of memory.
fn expected_for_migration(alloc: Global, migration: Migration) -> Result<Expected, AllocError>
    ensures { IfOk result (λ d. IsOfMigration migration d) }
{
    let text = lines_of(alloc, &migration.refused)?;
    let status = match migration.refused.as_slice() {
        [] => Status::Done,
        [..] => Status::SomeRefused,
    };
    Ok(Expected {
        status,
        place: 0,
        output: migration.output,
        text,
    })
}

// What must be written for a file at a shape. An error means out of memory.
fn expected_for(alloc: Global, shape: &[u8], file: &[u8]) -> Result<Expected, AllocError>
    ensures { IfOk result (λ d. IsForMigration shape.now file.now d.status d.place d.output.items (string_bytes d.text)) }
{
    let shape = match asked(alloc, shape)? {
        Ok(shape) => shape,
        Err(refusal) => return Ok(Expected::no_shape(alloc, refusal)),
    };
    match migrate(alloc, &shape, file) {
        Ok(migration) => expected_for_migration(alloc, migration),
        Err(MigrateError::Broken(place)) => Ok(Expected {
            status: Status::Broken,
            place,
            output: Vec::new(alloc),
            text: String::new(alloc),
        }),
        Err(MigrateError::NoMemory) => Err(AllocError),
    }
}

// `migrate_into`, with its table of statuses as a whole.
fn migrate_whole(
    alloc: Global,
    shape: &[u8],
    file: &[u8],
    output: &mut [u8],
    text: &mut [u8],
) -> Report
    ensures { IsMigrated shape.now file.now result.status (call_of result output.old output.new text.old text.new) }
{
    match expected_for(alloc, shape, file) {
        Ok(expected) => deliver(&expected, output, text),
        Err(_) => Report::no_memory(),
    }
}

/// Recasts each document of a file, which has them one after another, at the shape that other bytes are the notation of, into a buffer.
///
/// The buffer gets all of the output or nothing: the recast documents, one after another. The text has a line for each of the others, with its number, counted
/// from 0; its buffer gets as many of the first bytes as fit. The status says what came of it:
///
/// - `Done`: every document was recast. The first `written` bytes of the buffer are the output.
/// - `SomeRefused`: some documents are not recast. The first `written` bytes of the buffer are the recasts of the others.
/// - `BufferTooSmall`: the output takes `needed` bytes, which are more than the buffer has. The buffer is as it was, and the text has a line for each document that is
///   not recast.
/// - `ShapeRefused`: the bytes of the shape are the notation of none, as `check_shape` tells.
/// - `Broken`: the file cannot be cut into documents. At `place`, counted from 0, none begins.
/// - `NoMemory`: memory ran out, and both buffers are as they were.
pub fn migrate_into(
    alloc: Global,
    shape: &[u8],
    file: &[u8],
    output: &mut [u8],
    text: &mut [u8],
) -> Report
    ensures done { result.status ≡ statuses.Done → MigratedRow shape.now file.now (call_of result output.old output.new text.old text.new) }
    ensures some_refused { result.status ≡ statuses.SomeRefused → SomeRefusedRow shape.now file.now (call_of result output.old output.new text.old text.new) }
    ensures buffer_too_small { result.status ≡ statuses.BufferTooSmall → LargerRow shape.now file.now (call_of result output.old output.new text.old text.new) }
    ensures shape_refused { result.status ≡ statuses.ShapeRefused → NoShapeRow shape.now (call_of result output.old output.new text.old text.new) }
    ensures broken { result.status ≡ statuses.Broken → BrokenRow shape.now file.now (call_of result output.old output.new text.old text.new) }
    ensures no_memory { result.status ≡ statuses.NoMemory → IsSilent (call_of result output.old output.new text.old text.new) }
    // The status is the one that must be returned, or out of memory.
    ensures complete { (result.status ≡ migration_status_at (length output.old) file.now (shape_of_bytes shape.now)) ⊎ (result.status ≡ statuses.NoMemory) }
{
    migrate_whole(alloc, shape, file, output, text)
}
