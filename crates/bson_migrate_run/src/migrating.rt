// A file of documents, each read at a shape and written anew.
ghost use Rattle.std.specs.Prelude.{◌≡◌, [], IfOk};
ghost use Rattle.bson_laws.specs.Settled.{IsSettled};
ghost use Rattle.bson_tree_recast.specs.Recast.{recast_of};
ghost use Rattle.bson_migrate_run.specs.Migrating.{migration_of, migrated, IsMigration};
ghost use Rattle.bson_migrate_run.specs.Step.{IsOneMigrated};

use bson_io::Out;
use bson_rawdoc::RawDocuments;
use bson_recasting::{RecastError, recast_to_buf};
use bson_shape::Shape;
use std::alloc::{AllocError, Global};
use std::error::Error;
use std::fmt;

/// A refused document of a file.
#[derive(Debug, Drop)]
pub struct Refused {
    /// The number of the document, counted from 0.
    pub number: u64,
    /// Why it is not recast. It is never `NoMemory`.
    pub error: RecastError,
}

impl fmt::Display for Refused {
    ghost use Rattle.std.specs.Prelude.{Some};
    ghost use Rattle.bson_migrate_run.specs.Lines.{refused_text};

    ghost output = { λ x. Some (refused_text x) };

    fn fmt<W: fmt::Write>(&self, f: &mut fmt::Formatter<W>) -> fmt::Result {
        write!(f, "document {}: {}", self.number, self.error)
    }
}

/// What migrating a file gave.
#[derive(Debug, Drop)]
pub struct Migration {
    /// The documents that were recast, one after another, in the order of the file.
    pub output: Vec<u8>,
    /// Each of the others, in the order of the file.
    pub refused: Vec<Refused>,
}

/// Why a file is not migrated.
#[derive(Debug, Drop)]
pub enum MigrateError {
    /// At this place of the file no document begins: the bytes that are left are fewer than four, or announce a length of less than five,
    /// or of more bytes than are left.
    Broken(usize),
    /// Memory ran out.
    NoMemory,
}

impl fmt::Display for MigrateError {
    ghost use Rattle.std.specs.Prelude.{Some};
    ghost use Rattle.bson_migrate_run.specs.Lines.{migrate_error_text};

    ghost output = { λ e. Some (migrate_error_text e) };

    fn fmt<W: fmt::Write>(&self, f: &mut fmt::Formatter<W>) -> fmt::Result {
        match self {
            MigrateError::Broken(place) => write!(f, "broken at {place}"),
            MigrateError::NoMemory => f.write_str("out of memory"),
        }
    }
}

impl Error for MigrateError {}

impl From<AllocError> for MigrateError {
    ghost use Rattle.bson_migrate_run.specs.declared.migrating.MigrateError.TheVariants.{NoMemory as NoMemoryError};

    ghost from_gives = { λ _ e. e ≡ NoMemoryError };

    fn from(_error: AllocError) -> MigrateError {
        MigrateError::NoMemory
    }
}

/// Recasts each document of a file, which has them one after another, at a shape.
///
/// A document that is refused is left out of the output and listed. The others are written to one buffer, one after another.
///
/// # Errors
///
/// `Broken` exactly where the file cannot be cut into documents (`RawDocuments`), with the place; `NoMemory` where memory ran out.
pub fn migrate(alloc: Global, shape: &Shape, file: &[u8]) -> Result<Migration, MigrateError>
    // The documents are recast, and those that are refused are listed; or the file is broken.
    ensures exact { IsMigration (migration_of shape.now file.now) result }
    // It follows from *exact*: migrated again at the shape, which does not depend on whether the reader is human, the output is given back, and no document is refused.
    ensures again { IsSettled shape.now → IfOk result (λ m. migration_of shape.now m.output.items ≡ migrated m.output.items []) }
{
    shape.known();
    migrate_each(alloc, shape, file)
}

// `migrate`, but for its other promise.
fn migrate_each(alloc: Global, shape: &Shape, file: &[u8]) -> Result<Migration, MigrateError>
    ensures { IsMigration (migration_of shape.now file.now) result }
{
    let mut out = Out::new(alloc);
    let mut refused = Vec::new(alloc);
    let mut number = 0;
    for piece in RawDocuments::new(file) {
        let bytes = match piece {
            Ok(bytes) => bytes,
            Err(place) => return Err(MigrateError::Broken(place)),
        };
        migrate_one(alloc, shape, bytes, number, &mut out, &mut refused)?;
        number += 1;
    }
    Ok(Migration {
        output: out.into_vec(),
        refused,
    })
}

// One document: it is written behind the others, or listed with its number. An error means out of memory.
fn migrate_one(
    alloc: Global,
    shape: &Shape,
    bytes: &[u8],
    number: u64,
    out: &mut Out,
    refused: &mut Vec<Refused>,
) -> Result<(), AllocError>
    ensures { IfOk result (λ _. IsOneMigrated number (recast_of shape.now bytes.now) out.old.bytes out.new.bytes refused.old.items refused.new.items) }
{
    match recast_to_buf(alloc, shape, bytes, out) {
        Ok(()) => Ok(()),
        Err(RecastError::NoMemory) => Err(AllocError),
        Err(error) => {
            refused.push(Refused { number, error })?;
            Ok(())
        }
    }
}
