//! Milliseconds since 1970 as a DateTime.
ghost use Rattle.std.specs.Prelude.{◌≡◌, Ok};
ghost use Rattle.bson_shape.specs.Form.{leaf};
ghost use Rattle.bson_shape.specs.declared.leaf.Leaf.TheVariants as leaves;
ghost use Rattle.bson_values.specs.Returned.{Reads, Writes};
ghost use Rattle.bson_datum.specs.View.{view};
ghost use Rattle.bson_type_data.specs.Extended.{date_datum, taken_date};

use bson_base::DateTime;
use bson_datum::Datum;
use bson_shape::Shape;
use bson_traits::{Deserialize, date_datum};
use bson_values::{de, ser};
use std::alloc::{AllocError, Global};

/// The shape `datetime`. It takes no memory.
pub fn shape(_alloc: Global) -> Result<Shape, AllocError>
    ensures shape { result ≡ Ok (leaf leaves.DateTime) }
{
    Ok(Shape::date_time())
}

/// The DateTime of so many milliseconds.
///
/// # Errors
///
/// Memory ran out.
pub fn serialize<'x>(alloc: Global, val: &i64) -> ser::Result<Datum<'x>>
    ensures datum { Writes view result (Ok (date_datum val.now)) }
{
    Ok(date_datum(alloc, DateTime::from_millis(*val))?)
}

/// The milliseconds of the DateTime that the datum is.
///
/// # Errors
///
/// `NotFitting` exactly where the datum is not that of a DateTime; or `NoMemory`.
pub fn deserialize(alloc: Global, datum: Datum<'_>) -> de::Result<i64>
    ensures number { Reads (λ n. n) result (taken_date (view datum.entry)) }
{
    let time = <DateTime as Deserialize<'_>>::from_datum(alloc, datum)?;
    Ok(time.timestamp_millis())
}
