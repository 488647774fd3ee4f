ghost use Rattle.std.specs.Prelude.{◌≡◌, [], IfOk};
ghost use Rattle.bson_migrate_run.specs.Migrating.{migrated, migration_of};
ghost use Rattle.bson_laws.specs.Settled.{IsSettled};

use crate::bson::{MigrateError, RawDocuments, Shape, lines_of, migrate};
use std::alloc::Global;

/// The bytes of the longest document of a file. An error is the place where the file is broken.
pub fn longest(file: &[u8]) -> Result<&[u8], usize> {
    let mut longest = b"".as_slice();
    for piece in RawDocuments::new(file) {
        let document = piece?;
        if document.len() > longest.len() {
            longest = document;
        }
    }
    Ok(longest)
}

/// The documents of a file at a shape, and a line for each document that is refused there.
pub fn at_shape(
    alloc: Global,
    shape: &Shape,
    file: &[u8],
) -> Result<(Vec<u8>, String), MigrateError>
    ensures again { IsSettled shape.now → IfOk result (λ r. migration_of shape.now r.0.items ≡ migrated r.0.items []) }
{
    let migration = migrate(alloc, shape, file)?;
    let lines = lines_of(alloc, &migration.refused)?;
    Ok((migration.output, lines))
}
