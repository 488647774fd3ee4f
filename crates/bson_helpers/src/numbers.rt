ghost use Rattle.bson_datum.specs.View.{view};
ghost use Rattle.bson_helpers.specs.Helpers.{Answers, number_as_i32, number_as_i64, id_as_text};
ghost use Rattle.bson_values.specs.Returned.{Writes};

use crate::errors::unwritable;
use bson_base::ObjectId;
use bson_datum::Datum;
use bson_values::{Cause, Text, ser};
use std::alloc::Global;

/// The number as an `i32`. It takes no memory.
///
/// # Errors
///
/// `NotI32` exactly where it is more than 2147483647.
pub fn serialize_u32_as_i32<'x>(val: &u32) -> ser::Result<Datum<'x>>
    ensures datum { Answers view result (number_as_i32 val.now) }
{
    match i32::try_from(*val) {
        Ok(number) => Ok(Datum::I32(number)),
        Err(_) => Err(unwritable(Cause::NotI32(u64::from(*val)))),
    }
}

/// The number as an `i64`. It takes no memory, and refuses none.
pub fn serialize_u32_as_i64<'x>(val: &u32) -> ser::Result<Datum<'x>>
    ensures datum { Answers view result (number_as_i64 val.now) }
{
    Ok(Datum::I64(i64::from(*val)))
}

/// The number as an `i32`. It takes no memory.
///
/// # Errors
///
/// `NotI32` exactly where it is more than 2147483647.
pub fn serialize_u64_as_i32<'x>(val: &u64) -> ser::Result<Datum<'x>>
    ensures datum { Answers view result (number_as_i32 val.now) }
{
    match i32::try_from(*val) {
        Ok(number) => Ok(Datum::I32(number)),
        Err(_) => Err(unwritable(Cause::NotI32(*val))),
    }
}

/// The number as an `i64`. It takes no memory.
///
/// # Errors
///
/// `NotI64` exactly where it is more than 9223372036854775807.
pub fn serialize_u64_as_i64<'x>(val: &u64) -> ser::Result<Datum<'x>>
    ensures datum { Answers view result (number_as_i64 val.now) }
{
    match i64::try_from(*val) {
        Ok(number) => Ok(Datum::I64(number)),
        Err(_) => Err(unwritable(Cause::NotI64(*val))),
    }
}

/// The ObjectId as its 24 digits.
///
/// # Errors
///
/// Memory ran out.
pub fn serialize_object_id_as_hex_string<'x>(
    alloc: Global,
    val: &ObjectId,
) -> ser::Result<Datum<'x>>
    ensures datum { Writes view result (id_as_text val.now.0) }
{
    Ok(Datum::Str(Text::Owned(val.to_hex(alloc)?)))
}
