// What the texts, bytes and numbers of wrapper keys stand for, as data.
ghost use Rattle.std.specs.Prelude.{◌≡◌, option_map, option_and_then, string_bytes, true, IfOk};
ghost use Rattle.bson_base.specs.Parsed.{bytes_of_digits, integer_of_text, bytes_of_base64};
ghost use Rattle.bson_base.specs.Tree as tree;
ghost use Rattle.bson_dates.specs.DateText as dates;
ghost use Rattle.bson_laws.specs.Wrapped as wrapped;
ghost use Rattle.bson_wrapped.specs.Bodies.{as_datum, as_seen, takes_text, pointer_of};

use crate::data;
use base64::DecodeAllocError;
use base64::engine::general_purpose::STANDARD;
use bson_base::{BinarySubtype, DateTime, Double, ObjectId, Uuid, integer_of_text};
use bson_datum::Datum;
use bson_values::Wrapper;
use hex::FromHex;
use std::alloc::{AllocError, Global};

/// The number of bytes of an ObjectId.
const ID_LENGTH: usize = 12;

/// The number of bytes of a Decimal128.
const DECIMAL_LENGTH: usize = 16;

/// What the text of a wrapper key stands for.
pub(crate) fn value_of_text<'de>(
    alloc: Global,
    wrapper: Wrapper,
    text: String,
) -> Result<Option<Datum<'de>>, AllocError>
    requires text { takes_text wrapper ≡ true }
    ensures exact { IfOk result (λ o. as_seen o ≡ as_datum (wrapped.tree_of_text wrapper (string_bytes text))) }
{
    match wrapper {
        Wrapper::Symbol => Ok(Some(data::symbol(alloc, text)?)),
        Wrapper::NumberInt => Ok(int32_of_text(text.as_str())),
        Wrapper::NumberLong => Ok(int64_of_text(text.as_str())),
        Wrapper::NumberDouble => Ok(double_of_text(text.as_str())),
        Wrapper::Uuid => uuid_of_text(alloc, text.as_str()),
        Wrapper::NumberDecimal => Ok(None),
        _ => unreachable!(),
    }
}

/// The Int32 that a text of digits stands for.
fn int32_of_text<'de>(text: &str) -> Option<Datum<'de>>
    ensures { as_seen result ≡ as_datum (wrapped.tree_of_text Wrapper.NumberInt text.now) }
{
    let number = integer_of_text(text)?;
    Some(Datum::I32(i32::try_from(number).ok()?))
}

/// The Int64 that a text of digits stands for.
fn int64_of_text<'de>(text: &str) -> Option<Datum<'de>>
    ensures { as_seen result ≡ as_datum (wrapped.tree_of_text Wrapper.NumberLong text.now) }
{
    Some(Datum::I64(integer_of_text(text)?))
}

/// The double that one of three words stands for.
fn double_of_text<'de>(text: &str) -> Option<Datum<'de>>
    ensures { as_seen result ≡ as_datum (wrapped.double_of_text text.now) }
{
    match text {
        "Infinity" => Some(Datum::Double(Double([0, 0, 0, 0, 0, 0, 0xf0, 0x7f]))),
        "-Infinity" => Some(Datum::Double(Double([0, 0, 0, 0, 0, 0, 0xf0, 0xff]))),
        "NaN" => Some(Datum::Double(Double([0, 0, 0, 0, 0, 0, 0xf8, 0x7f]))),
        _ => None,
    }
}

/// The binary of subtype 4 that the text of a UUID stands for.
fn uuid_of_text<'de>(alloc: Global, text: &str) -> Result<Option<Datum<'de>>, AllocError>
    ensures { IfOk result (λ o. as_seen o ≡ as_datum (wrapped.tree_of_text Wrapper.Uuid text.now)) }
{
    match Uuid::parse_str(text) {
        Ok(id) => Ok(Some(data::binary(alloc, BinarySubtype(4), &id.0)?)),
        Err(_) => Ok(None),
    }
}

/// The ObjectId that a text of digits stands for.
///
/// # Errors
///
/// Memory ran out.
pub fn id_of_text<'de>(alloc: Global, text: &str) -> Result<Option<Datum<'de>>, AllocError>
    ensures { IfOk result (λ o. as_seen o ≡ as_datum (wrapped.id_of_text text.now)) }
{
    match ObjectId::parse_str(text) {
        Ok(id) => Ok(Some(data::object_id(alloc, &id.0)?)),
        Err(_) => Ok(None),
    }
}

/// The ObjectId of these bytes, where they are as many as it has.
pub(crate) fn id_of_bytes<'de>(alloc: Global, id: &[u8]) -> Result<Option<Datum<'de>>, AllocError>
    ensures { IfOk result (λ o. as_seen o ≡ as_datum (wrapped.of_length 12 tree.object_id id.now)) }
{
    if id.len() == ID_LENGTH {
        return Ok(Some(data::object_id(alloc, id)?));
    }
    Ok(None)
}

/// The Decimal128 of these bytes, where they are as many as it has.
pub(crate) fn decimal_of_bytes<'de>(
    alloc: Global,
    bits: Vec<u8>,
) -> Result<Option<Datum<'de>>, AllocError>
    ensures { IfOk result (λ o. as_seen o ≡ as_datum (wrapped.of_length 16 tree.decimal128 bits.items)) }
{
    if bits.len() == DECIMAL_LENGTH {
        return Ok(Some(data::decimal128(alloc, bits)?));
    }
    Ok(None)
}

/// The time that the text of a date stands for.
pub(crate) fn date_of_text<'de>(alloc: Global, text: &str) -> Result<Option<Datum<'de>>, AllocError>
    ensures { IfOk result (λ o. as_seen o ≡ as_datum (option_map tree.date_time (dates.date_of_text text.now))) }
{
    match DateTime::parse_rfc3339_str(text) {
        Ok(time) => Ok(Some(data::date_time(alloc, time)?)),
        Err(_) => Ok(None),
    }
}

/// The time of so many milliseconds, which a text of digits stands for.
pub(crate) fn date_of_number<'de>(
    alloc: Global,
    text: &str,
) -> Result<Option<Datum<'de>>, AllocError>
    ensures { IfOk result (λ o. as_seen o ≡ as_datum (option_map tree.date_time (integer_of_text text.now))) }
{
    match integer_of_text(text) {
        Some(number) => Ok(Some(data::date_time(alloc, DateTime::from_millis(number))?)),
        None => Ok(None),
    }
}

/// The binary that base64 and the digits of a subtype stand for.
pub(crate) fn binary_of_texts(
    alloc: Global,
    base64: &str,
    subtype: &str,
) -> Result<Option<(BinarySubtype, Vec<u8>)>, AllocError>
    ensures { IfOk result (λ o. option_map (λ p. tree.binary p.0.0 p.1.items) o ≡ wrapped.binary_of_texts base64.now subtype.now) }
{
    let Some(content) = bytes_of_base64(alloc, base64)? else {
        return Ok(None);
    };
    match subtype_of_digits(subtype) {
        Some(subtype) => Ok(Some((BinarySubtype(subtype), content))),
        None => Ok(None),
    }
}

/// The bytes that a base64 text stands for.
#[tactic(auto, unfolding(bson_base::specs::Parsed::bytes_of_base64))]
fn bytes_of_base64(alloc: Global, text: &str) -> Result<Option<Vec<u8>>, AllocError>
    ensures { IfOk result (λ o. option_map (λ v. v.items) o ≡ bytes_of_base64 text.now) }
{
    match STANDARD.decode(alloc, text.as_bytes()) {
        Ok(bytes) => Ok(Some(bytes)),
        Err(DecodeAllocError::OutOfMemory) => Err(AllocError),
        Err(DecodeAllocError::DecodeError(_)) => Ok(None),
    }
}

/// The subtype that two hexadecimal digits stand for.
#[tactic(auto, unfolding(bson_base::specs::Parsed::bytes_of_digits))]
fn subtype_of_digits(text: &str) -> Option<u8>
    ensures { result ≡ option_and_then wrapped.one_byte (bytes_of_digits 1 text.now) }
{
    let digits = <[u8; 1] as FromHex>::from_hex(text).ok()?;
    Some(digits[0])
}

/// The DbPointer of a namespace and of the ObjectId that a text of digits stands for.
pub(crate) fn pointer_of_texts<'de>(
    alloc: Global,
    namespace: String,
    id: &str,
) -> Result<Option<Datum<'de>>, AllocError>
    ensures { IfOk result (λ o. as_seen o ≡ as_datum (pointer_of (string_bytes namespace) id.now)) }
{
    match ObjectId::parse_str(id) {
        Ok(id) => Ok(Some(data::db_pointer(alloc, namespace, id)?)),
        Err(_) => Ok(None),
    }
}
