// A document of rows that is made and recast, and the line that tells how long both are.
ghost use Rattle.std.specs.Prelude.{◌≡◌, ◌≤◌, length, sum, string_bytes, IfOk};
ghost use Rattle.bson_base.specs.Sound.{max_bytes};
ghost use Rattle.bson_base.specs.Tree.{enc};
ghost use Rattle.bson_recast_run.specs.Made.{made};
ghost use Rattle.bson_recast_run.specs.Making.{max_rows, rows_shape, made_line, IsMadeLine};
ghost use Rattle.bson_tree_recast.specs.Recast.{writes, recast_of};

use crate::made_rows::made;
use bson_recasting::recast;
use bson_shape::{ParseError, Shape};
use bson_tree_recast::RecastError;
use std::alloc::{AllocError, Global};

/// The shape at which the document is recast.
const ROWS_SHAPE: &str = "{rows:[{n:u32,name:string}]}";

/// The line for so many rows: how long their document and its recast are, and the sum of the bytes of the recast.
///
/// # Errors
///
/// Memory ran out.
pub(crate) fn made_line(alloc: Global, rows: u32) -> Result<String, AllocError>
    requires { rows ≤ max_rows }
    ensures { IfOk result (λ line. IsMadeLine rows (string_bytes line)) }
{
    let document = made(alloc, rows)?;
    let shape = rows_shape(alloc)?;
    let recast = recast_made(alloc, &shape, &document, rows)?;
    line_of(alloc, rows, &document, &recast)
}

// The line for so many rows, their document and its recast. An error means out of memory.
fn line_of(alloc: Global, rows: u32, document: &[u8], recast: &[u8]) -> Result<String, AllocError>
    requires { length recast.now ≤ max_bytes }
    ensures { IfOk result (λ line. string_bytes line ≡ made_line rows document.now recast.now) }
{
    let read = document.len();
    let wrote = recast.len();
    let sum = sum_of(recast);
    format!(in alloc; "made {rows} rows, read {read} bytes, wrote {wrote} bytes, sum {sum}\n")
}

// The shape at which the document is recast. An error means out of memory.
fn rows_shape(alloc: Global) -> Result<Shape, AllocError>
    ensures { IfOk result (λ s. s ≡ rows_shape) }
{
    match Shape::parse(alloc, ROWS_SHAPE) {
        Ok(shape) => Ok(shape),
        Err(error) => match error {
            ParseError::NoMemory => Err(AllocError),
            ParseError::NotNotation(_) | ParseError::Refused(..) => unreachable!(),
        },
    }
}

// The recast of the document of so many rows. An error means out of memory.
fn recast_made(
    alloc: Global,
    shape: &Shape,
    document: &[u8],
    rows: u32,
) -> Result<Vec<u8>, AllocError>
    requires rows { rows ≤ max_rows }
    requires shape { shape.now ≡ rows_shape }
    requires document { document.now ≡ enc (made rows) }
    ensures recast { IfOk result (λ v. recast_of rows_shape (enc (made rows)) ≡ writes v.items) }
    ensures fits { IfOk result (λ v. length v.items ≤ max_bytes) }
{
    match recast(alloc, shape, document) {
        Ok(recast) => Ok(recast),
        Err(error) => match error {
            RecastError::NoMemory => Err(AllocError),
            RecastError::Read(_) | RecastError::Write(_) => unreachable!(),
        },
    }
}

// The sum of bytes, each a number from 0 to 255.
fn sum_of(bytes: &[u8]) -> u64
    requires { length bytes.now ≤ max_bytes }
    ensures { result ≡ sum bytes.now }
{
    bytes.iter().map(|byte| u64::from(*byte)).sum()
}
