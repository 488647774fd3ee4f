// ObjectIds and times as data, and what a datum is of them.
ghost use Rattle.std.specs.Prelude.{◌≡◌, pos, IfOk};
ghost use Rattle.std.specs.Option.{option_map};
ghost use Rattle.bson_base.specs.Instant.{millis};
ghost use Rattle.bson_values.specs.Returned.{Reads};
ghost use Rattle.bson_datum.specs.View.{view};
ghost use Rattle.bson_type_data.specs.Extended.{id_datum, id_said, taken_id, date_datum, date_said, taken_date, stamp_datum, stamp_in, stamp_said, taken_stamp, unsigned_said};

use crate::data::{is_equal, struct_of_one, struct_of_two, text_of};
use crate::refusal::not_fitting;
use bson_base::{DateTime, ObjectId, Timestamp, integer_of_text, number_text};
use bson_datum::Datum;
use bson_values::de;
use std::alloc::{AllocError, Global};

/// The ObjectId that a datum is.
///
/// # Errors
///
/// `NotFitting` exactly where it is none, or out of memory.
pub fn id_in(alloc: Global, datum: &Datum<'_>) -> de::Result<ObjectId>
    ensures { Reads (λ id. id.0) result (taken_id (view datum.now)) }
{
    let Some(id) = id_said(datum) else {
        return Err(not_fitting());
    };
    if is_equal(id_datum(alloc, id)?, datum) {
        Ok(id)
    } else {
        Err(not_fitting())
    }
}

/// The datum of an ObjectId.
///
/// # Errors
///
/// Memory ran out.
pub fn id_datum<'x>(alloc: Global, id: ObjectId) -> Result<Datum<'x>, AllocError>
    ensures datum { IfOk result (λ d. view d ≡ id_datum id.0) }
{
    let digits = id.to_hex(alloc)?;
    struct_of_one(alloc, "$oid", "$oid", text_of(digits))
}

// The ObjectId that a value may be the datum of.
pub(crate) fn id_said(datum: &Datum<'_>) -> Option<ObjectId>
    ensures { option_map (λ id. id.0) result ≡ id_said (view datum.now) }
{
    let text = datum.field("$oid")?.as_str()?;
    match ObjectId::parse_str(text) {
        Ok(id) => Some(id),
        Err(_) => None,
    }
}

/// The time that a datum is.
///
/// # Errors
///
/// `NotFitting` exactly where it is none, or out of memory.
pub fn date_in(alloc: Global, datum: &Datum<'_>) -> de::Result<DateTime>
    ensures { Reads (λ time. millis time) result (taken_date (view datum.now)) }
{
    let Some(time) = date_said(datum) else {
        return Err(not_fitting());
    };
    if is_equal(date_datum(alloc, time)?, datum) {
        Ok(time)
    } else {
        Err(not_fitting())
    }
}

/// The datum of a time.
///
/// # Errors
///
/// Memory ran out.
pub fn date_datum<'x>(alloc: Global, time: DateTime) -> Result<Datum<'x>, AllocError>
    ensures datum { IfOk result (λ d. view d ≡ date_datum (millis time)) }
{
    let number = number_text(alloc, time.timestamp_millis())?;
    let body = struct_of_one(alloc, "", "$numberLong", text_of(number))?;
    struct_of_one(alloc, "$date", "$date", body)
}

// The time that a value may be the datum of.
fn date_said(datum: &Datum<'_>) -> Option<DateTime>
    ensures { option_map millis result ≡ date_said (view datum.now) }
{
    let text = datum.field("$date")?.field("$numberLong")?.as_str()?;
    Some(DateTime::from_millis(integer_of_text(text)?))
}

/// The time in seconds and the increment that a datum is.
///
/// # Errors
///
/// `NotFitting` exactly where it is none, or out of memory.
pub fn stamp_of(alloc: Global, datum: &Datum<'_>) -> de::Result<Timestamp>
    ensures { Reads (λ stamp. (pos stamp.time, pos stamp.increment)) result (taken_stamp (view datum.now)) }
{
    let Some(stamp) = stamp_said(datum) else {
        return Err(not_fitting());
    };
    if is_equal(stamp_datum(alloc, stamp)?, datum) {
        Ok(stamp)
    } else {
        Err(not_fitting())
    }
}

/// The datum of a time in seconds and an increment.
///
/// # Errors
///
/// Memory ran out.
pub fn stamp_datum<'x>(alloc: Global, stamp: Timestamp) -> Result<Datum<'x>, AllocError>
    ensures datum { IfOk result (λ d. view d ≡ stamp_datum (pos stamp.time, pos stamp.increment)) }
{
    let time = Datum::I64(i64::from(stamp.time));
    let increment = Datum::I64(i64::from(stamp.increment));
    let body = struct_of_two(alloc, "", ("t", time), ("i", increment))?;
    struct_of_one(alloc, "$timestamp", "$timestamp", body)
}

// The time in seconds and the increment that a value may be the datum of.
fn stamp_said(datum: &Datum<'_>) -> Option<Timestamp>
    ensures { option_map (λ s. (pos s.time, pos s.increment)) result ≡ stamp_said (view datum.now) }
{
    stamp_in(datum.field("$timestamp")?)
}

// The time in seconds and the increment in the struct of both.
fn stamp_in(body: &Datum<'_>) -> Option<Timestamp>
    ensures { option_map (λ s. (pos s.time, pos s.increment)) result ≡ stamp_in (view body.now) }
{
    let time = unsigned_said(body, "t")?;
    let increment = unsigned_said(body, "i")?;
    Some(Timestamp { time, increment })
}

// The number of 32 bits without a sign in a field.
fn unsigned_said(body: &Datum<'_>, key: &str) -> Option<u32>
    ensures { option_map (λ n. pos n) result ≡ unsigned_said key.now (view body.now) }
{
    let number = body.field(key)?.as_i64()?;
    Some(u32::try_from(number).ok()?)
}
