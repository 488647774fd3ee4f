//! Seconds since 1970 as a Timestamp.
ghost use Rattle.std.specs.Prelude.{◌≡◌, pos, Ok};
ghost use Rattle.bson_shape.specs.Form.{leaf};
ghost use Rattle.bson_shape.specs.declared.leaf.Leaf.TheVariants as leaves;
ghost use Rattle.bson_values.specs.Returned.{Reads, Writes};
ghost use Rattle.bson_datum.specs.View.{view};
ghost use Rattle.bson_helpers.specs.Helpers.{seconds_as_stamp, seconds_of_stamp};

use bson_base::Timestamp;
use bson_datum::Datum;
use bson_shape::Shape;
use bson_traits::{Deserialize, stamp_datum};
use bson_values::{de, ser};
use std::alloc::{AllocError, Global};

/// The shape `timestamp`. It takes no memory.
pub fn shape(_alloc: Global) -> Result<Shape, AllocError>
    ensures shape { result ≡ Ok (leaf leaves.Timestamp) }
{
    Ok(Shape::timestamp())
}

/// The Timestamp of this time, with the increment 0.
///
/// # Errors
///
/// Memory ran out.
pub fn serialize<'x>(alloc: Global, val: &u32) -> ser::Result<Datum<'x>>
    ensures datum { Writes view result (seconds_as_stamp val.now) }
{
    let stamp = Timestamp {
        time: *val,
        increment: 0,
    };
    Ok(stamp_datum(alloc, stamp)?)
}

/// The time of the Timestamp that the datum is. Its increment is dropped.
///
/// # Errors
///
/// `NotFitting` exactly where the datum is not that of a Timestamp; or `NoMemory`.
pub fn deserialize(alloc: Global, datum: Datum<'_>) -> de::Result<u32>
    ensures time { Reads (λ n. pos n) result (seconds_of_stamp (view datum.entry)) }
{
    let stamp = <Timestamp as Deserialize<'_>>::from_datum(alloc, datum)?;
    Ok(stamp.time)
}
