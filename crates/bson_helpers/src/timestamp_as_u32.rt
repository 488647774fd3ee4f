//! A Timestamp as its seconds since 1970.
ghost use Rattle.std.specs.Prelude.{◌≡◌, Ok};
ghost use Rattle.bson_shape.specs.Form.{leaf};
ghost use Rattle.bson_shape.specs.declared.leaf.Leaf.TheVariants as leaves;
ghost use Rattle.bson_values.specs.Returned.{Reads, Writes};
ghost use Rattle.bson_datum.specs.View.{view};
ghost use Rattle.bson_helpers.specs.Helpers.{stamp_as_seconds, stamp_of_seconds};

use crate::errors::unwritable;
use bson_base::Timestamp;
use bson_datum::Datum;
use bson_shape::Shape;
use bson_traits::Deserialize;
use bson_values::{Cause, de, ser};
use std::alloc::{AllocError, Global};

/// The shape `u32`. It takes no memory.
pub fn shape(_alloc: Global) -> Result<Shape, AllocError>
    ensures shape { result ≡ Ok (leaf leaves.U32) }
{
    Ok(Shape::u32())
}

/// The time of a Timestamp whose increment is 0.
///
/// # Errors
///
/// `Increment` exactly where the increment is not 0; or `NoMemory`.
pub fn serialize<'x>(_alloc: Global, val: &Timestamp) -> ser::Result<Datum<'x>>
    ensures datum { Writes view result (stamp_as_seconds val.now.time val.now.increment) }
{
    if val.increment == 0 {
        Ok(Datum::U32(val.time))
    } else {
        Err(unwritable(Cause::Increment))
    }
}

/// The Timestamp of this time, with the increment 0.
///
/// # Errors
///
/// `NotFitting` exactly where the datum is no `u32`; or `NoMemory`.
pub fn deserialize(alloc: Global, datum: Datum<'_>) -> de::Result<Timestamp>
    ensures stamp { Reads (λ s. (s.time, s.increment)) result (stamp_of_seconds (view datum.entry)) }
{
    let time = <u32 as Deserialize<'_>>::from_datum(alloc, datum)?;
    Ok(Timestamp { time, increment: 0 })
}
