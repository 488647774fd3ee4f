//! A text of a date as a DateTime.
ghost use Rattle.std.specs.Prelude.{◌≡◌, Ok};
ghost use Rattle.bson_shape.specs.Form.{leaf};
ghost use Rattle.bson_shape.specs.declared.leaf.Leaf.TheVariants as leaves;
ghost use Rattle.bson_values.specs.Returned.{Writes};
ghost use Rattle.bson_datum.specs.View.{view};
ghost use Rattle.bson_type_data.specs.Extended.{taken_date};
ghost use Rattle.bson_helpers.specs.Dates.{ReadsTime};
ghost use Rattle.bson_helpers.specs.Helpers.{text_as_date};

use crate::bson_datetime_as_rfc3339_string::text_of;
use crate::errors::unwritable;
use bson_base::{DateTime, NotDate};
use bson_datum::Datum;
use bson_shape::Shape;
use bson_traits::{Deserialize, date_datum};
use bson_values::{Cause, de, ser};
use std::alloc::{AllocError, Global};

/// The shape `datetime`. It takes no memory.
pub fn shape(_alloc: Global) -> Result<Shape, AllocError>
    ensures shape { result ≡ Ok (leaf leaves.DateTime) }
{
    Ok(Shape::date_time())
}

/// The DateTime that the text names.
///
/// # Errors
///
/// `NotDate` exactly where the text is none of [`DateTime::parse_rfc3339_str`]; or `NoMemory`.
pub fn serialize<'x>(alloc: Global, val: &str) -> ser::Result<Datum<'x>>
    ensures datum { Writes view result (text_as_date val.now) }
{
    match DateTime::parse_rfc3339_str(val) {
        Ok(time) => Ok(date_datum(alloc, time)?),
        Err(NotDate) => Err(unwritable(Cause::NotDate(String::from_str(alloc, val)?))),
    }
}

/// The text of the DateTime that the datum is.
///
/// # Errors
///
/// `NotFitting` exactly where the datum is not that of a DateTime, `NoRfc3339` exactly where the time is outside the years 0 to 9999; or `NoMemory`.
#[tactic(auto, using(crate::proofs::Times::not_read, crate::proofs::Times::time_read))]
pub fn deserialize(alloc: Global, datum: Datum<'_>) -> de::Result<String>
    ensures text { ReadsTime (taken_date (view datum.entry)) result }
{
    let time = <DateTime as Deserialize<'_>>::from_datum(alloc, datum)?;
    text_of(alloc, time)
}
