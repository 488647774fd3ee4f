ghost use Rattle.std.specs.Prelude.{◌≡◌, IfOk};
ghost use Rattle.bson_tree_recast.specs.Recast.{recast_of, writes};
ghost use Rattle.bson_kinds.specs.Text.{Bytes};

use crate::bson::{RecastError, Shape, recast};
use std::alloc::{AllocError, Global};

/// A document as it is written at a new shape, or as it was where it is refused there.
pub fn upgraded(alloc: Global, shape: &Shape, bytes: &[u8]) -> Result<Vec<u8>, AllocError>
    ensures written { (out : Bytes) → recast_of shape.now bytes.now ≡ writes out → IfOk result (λ v. v.items ≡ out) }
{
    match recast(alloc, shape, bytes) {
        Ok(written) => Ok(written),
        Err(RecastError::NoMemory) => Err(AllocError),
        Err(RecastError::Read(_)) | Err(RecastError::Write(_)) => bytes.to_vec(alloc),
    }
}
