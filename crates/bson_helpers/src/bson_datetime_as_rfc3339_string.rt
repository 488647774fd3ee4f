//! A DateTime as the text of its date.
ghost use Rattle.std.specs.Prelude.{◌≡◌, Ok};
ghost use Rattle.bson_base.specs.Instant.{millis};
ghost use Rattle.bson_shape.specs.Form.{leaf};
ghost use Rattle.bson_shape.specs.declared.leaf.Leaf.TheVariants as leaves;
ghost use Rattle.bson_values.specs.Returned.{Reads};
ghost use Rattle.bson_datum.specs.View.{view};
ghost use Rattle.bson_helpers.specs.Dates.{WritesTime, ReadsTime};
ghost use Rattle.bson_helpers.specs.Helpers.{date_in_text};

use crate::errors::{unreadable, unwritable};
use bson_base::{DateError, DateTime};
use bson_datum::Datum;
use bson_shape::Shape;
use bson_traits::Deserialize;
use bson_values::{Cause, Text, de, ser};
use std::alloc::{AllocError, Global};

/// The shape `string`. It takes no memory.
pub fn shape(_alloc: Global) -> Result<Shape, AllocError>
    ensures shape { result ≡ Ok (leaf leaves.String) }
{
    Ok(Shape::string())
}

/// The text of the time, as [`DateTime::try_to_rfc3339_string`] prints it.
///
/// # Errors
///
/// `NoRfc3339` exactly where the time is outside the years 0 to 9999; or `NoMemory`.
pub fn serialize<'x>(alloc: Global, val: &DateTime) -> ser::Result<Datum<'x>>
    ensures text { WritesTime (millis val.now) result }
{
    match val.try_to_rfc3339_string(alloc) {
        Ok(text) => Ok(Datum::Str(Text::Owned(text))),
        Err(DateError::YearOutOfRange) => {
            Err(unwritable(Cause::NoRfc3339(val.timestamp_millis())))
        }
        Err(DateError::NoMemory) => Err(ser::Error::NoMemory),
    }
}

/// The time that the text names.
///
/// # Errors
///
/// `NotFitting` exactly where the datum is no text, `NotDate` exactly where the text is none of [`DateTime::parse_rfc3339_str`]; or
/// `NoMemory`.
pub fn deserialize(alloc: Global, datum: Datum<'_>) -> de::Result<DateTime>
    ensures time { Reads millis result (date_in_text (view datum.entry)) }
{
    let text = <String as Deserialize<'_>>::from_datum(alloc, datum)?;
    if let Ok(time) = DateTime::parse_rfc3339_str(text.as_str()) {
        return Ok(time);
    }
    Err(unreadable(Cause::NotDate(text)))
}

// The text of a time that was read.
pub(crate) fn text_of(alloc: Global, time: DateTime) -> de::Result<String>
    ensures { ReadsTime (Ok (millis time)) result }
{
    match time.try_to_rfc3339_string(alloc) {
        Ok(text) => Ok(text),
        Err(DateError::YearOutOfRange) => {
            Err(unreadable(Cause::NoRfc3339(time.timestamp_millis())))
        }
        Err(DateError::NoMemory) => Err(de::Error::NoMemory),
    }
}
