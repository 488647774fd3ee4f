// Decimal numbers and UUIDs as data, and what a datum is of them.
ghost use Rattle.std.specs.Prelude.{◌≡◌, IfOk};
ghost use Rattle.std.specs.Option.{option_map};
ghost use Rattle.bson_values.specs.Returned.{Reads};
ghost use Rattle.bson_datum.specs.View.{view};
ghost use Rattle.bson_type_data.specs.Extended.{sized, decimal_datum, decimal_said, taken_decimal, uuid_value, uuid_said, taken_uuid, compact_in};

use crate::data::{is_equal, struct_of_one, text_of};
use crate::refusal::not_fitting;
use bson_base::{Decimal128, Uuid};
use bson_datum::Datum;
use bson_growing::boxed;
use bson_values::{ByteStr, Text, de};
use std::alloc::{AllocError, Global};

/// The decimal number that a datum is.
///
/// # Errors
///
/// `NotFitting` exactly where it is none, or out of memory.
pub fn decimal_in(alloc: Global, datum: &Datum<'_>) -> de::Result<Decimal128>
    ensures { Reads (λ d. d.0) result (taken_decimal (view datum.now)) }
{
    let Some(decimal) = decimal_said(datum) else {
        return Err(not_fitting());
    };
    if is_equal(decimal_datum(alloc, decimal)?, datum) {
        Ok(decimal)
    } else {
        Err(not_fitting())
    }
}

/// The datum of a decimal number.
///
/// # Errors
///
/// Memory ran out.
pub fn decimal_datum<'x>(alloc: Global, decimal: Decimal128) -> Result<Datum<'x>, AllocError>
    ensures { IfOk result (λ d. view d ≡ decimal_datum decimal.0) }
{
    let bits = ByteStr::Owned(decimal.0.to_vec(alloc)?);
    struct_of_one(
        alloc,
        "$numberDecimal",
        "$numberDecimalBytes",
        Datum::Bytes(bits),
    )
}

// The decimal number that a value may be the datum of.
fn decimal_said(datum: &Datum<'_>) -> Option<Decimal128>
    ensures { option_map (λ d. d.0) result ≡ decimal_said (view datum.now) }
{
    let bits = datum.field("$numberDecimalBytes")?.as_bytes()?;
    Some(Decimal128(sixteen(bits)?))
}

/// The UUID that a datum is.
///
/// # Errors
///
/// `NotFitting` exactly where it is none, or out of memory.
pub fn uuid_in(alloc: Global, datum: &Datum<'_>) -> de::Result<Uuid>
    ensures { Reads (λ id. id.0) result (taken_uuid (view datum.now)) }
{
    let Some(id) = uuid_said(datum) else {
        return Err(not_fitting());
    };
    if is_equal(uuid_value(alloc, id)?, datum) {
        Ok(id)
    } else {
        Err(not_fitting())
    }
}

/// The datum of a UUID.
///
/// # Errors
///
/// Memory ran out.
pub fn uuid_value<'x>(alloc: Global, id: Uuid) -> Result<Datum<'x>, AllocError>
    ensures { IfOk result (λ d. view d ≡ uuid_value id.0) }
{
    let text = id.to_hyphenated(alloc)?;
    let readable = boxed(alloc, text_of(text))?;
    let bits = ByteStr::Owned(id.0.to_vec(alloc)?);
    let compact = boxed(alloc, Datum::Bytes(bits))?;
    let value = boxed(alloc, Datum::Mode { readable, compact })?;
    let name = Text::Borrowed("$__bson_private_uuid");
    Ok(Datum::NewtypeStruct { name, value })
}

// The UUID that a value may be the datum of.
fn uuid_said(datum: &Datum<'_>) -> Option<Uuid>
    ensures { option_map (λ id. id.0) result ≡ uuid_said (view datum.now) }
{
    let bits = compact_in(datum)?.as_bytes()?;
    Some(Uuid(sixteen(bits)?))
}

// The compact form of what a newtype holds.
fn compact_in<'d, 'a>(datum: &'d Datum<'a>) -> Option<&'d Datum<'a>>
    ensures { option_map (λ d. view d.now) result ≡ compact_in (view datum.now) }
{
    let Datum::NewtypeStruct { value, .. } = datum else {
        return None;
    };
    match &**value {
        Datum::Mode { compact, .. } => Some(compact),
        _ => None,
    }
}

// Bytes as an array, where they are sixteen.
fn sixteen(bytes: &[u8]) -> Option<[u8; 16]>
    ensures { result ≡ sized 16 bytes.now }
{
    match bytes.as_array() {
        Some(array) => Some(*array),
        None => None,
    }
}
