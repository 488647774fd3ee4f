// The values of wrapper keys.
ghost use Rattle.std.specs.Prelude.{◌≡◌, true};
ghost use Rattle.bson_datum.specs.MarkedView.{marked};
ghost use Rattle.bson_laws.specs.Wrapped as wrapped;
ghost use Rattle.bson_met.specs.Gives.{Reaches};
ghost use Rattle.bson_met.specs.PieceView.{str_piece};
ghost use Rattle.bson_wrapped.specs.Bodies.{is_body, body_of, body_at, valid_at, made_by, as_seen, takes_text};

use crate::fields::{FieldValue, Id, one_field, two_fields};
use crate::values::{
    date_of_number, date_of_text, decimal_of_bytes, id_of_bytes, id_of_text, pointer_of_texts,
    value_of_text,
};
use crate::{binaries, data};
use bson_base::Timestamp;
use bson_datum::Datum;
use bson_met::{Met, Reading, Step, Value, refused};
use bson_texts::{buffer, own_text};
use bson_values::{Cause, Wrapper};
use std::alloc::Global;

/// The value of a document whose first wrapper key is this one, read from the value at the key.
///
/// # Errors
///
/// The value is not what the key takes; its path begins with the key. `Cause::BadBody` where its text, its bytes or its number stands for
/// nothing.
pub fn read_body<'de>(alloc: Global, wrapper: Wrapper, step: &Step<'_>) -> Reading<Datum<'de>>
    requires body { is_body (wrapped.meaning wrapper) ≡ true }
    ensures exact { Reaches marked result
        (body_at wrapper (body_of (wrapped.meaning wrapper)) (str_piece step.now.key).bytes step.now.value) }
{
    match valid_body(alloc, wrapper, &step.value) {
        Ok(value) => Ok(value),
        Err(stop) => Err(stop.under_key(step.key.text)),
    }
}

/// The same, without the key.
fn valid_body<'de>(alloc: Global, wrapper: Wrapper, value: &Met<'_>) -> Reading<Datum<'de>>
    requires body { is_body (wrapped.meaning wrapper) ≡ true }
    ensures exact { Reaches marked result (valid_at wrapper (body_of (wrapped.meaning wrapper)) value.now) }
{
    match body(alloc, wrapper, value)? {
        Some(value) => Ok(value),
        None => Err(refused(alloc, Cause::BadBody(wrapper))),
    }
}

/// What is made of the value of a wrapper key; `None` where it stands for nothing.
fn body<'de>(alloc: Global, wrapper: Wrapper, value: &Met<'_>) -> Reading<Option<Datum<'de>>>
    requires body { is_body (wrapped.meaning wrapper) ≡ true }
    ensures exact { Reaches as_seen result (made_by (body_of (wrapped.meaning wrapper)) value.now) }
{
    match wrapper {
        Wrapper::Oid => object_id(alloc, value),
        Wrapper::Date => date(alloc, value),
        Wrapper::Binary => binary(alloc, value),
        Wrapper::Timestamp => timestamp(alloc, value),
        Wrapper::RegularExpression => regular_expression(alloc, value),
        Wrapper::DbPointer => db_pointer(alloc, value),
        Wrapper::MinKey => min_key(alloc, value),
        Wrapper::MaxKey => max_key(alloc, value),
        Wrapper::Undefined => undefined(alloc, value),
        Wrapper::NumberDecimalBytes => decimal128(alloc, value),
        Wrapper::Code | Wrapper::Scope => unreachable!(),
        other => text(alloc, other, value),
    }
}

/// A text, and what it stands for.
fn text<'de>(alloc: Global, wrapper: Wrapper, value: &Met<'_>) -> Reading<Option<Datum<'de>>>
    requires text { takes_text wrapper ≡ true }
    ensures exact { Reaches as_seen result (made_by (wrapped.text_body (wrapped.tree_of_text wrapper)) value.now) }
{
    let text = own_text(alloc, value)?;
    Ok(value_of_text(alloc, wrapper, text)?)
}

/// An ObjectId: a text of 24 hexadecimal digits, or twelve bytes.
fn object_id<'de>(alloc: Global, value: &Met<'_>) -> Reading<Option<Datum<'de>>>
    ensures exact { Reaches as_seen result (made_by (wrapped.judging wrapped.oid_body) value.now) }
{
    match value.judge(alloc)? {
        Value::String(text) => {
            let text = text.to_text(alloc)?;
            Ok(id_of_text(alloc, text.as_str())?)
        }
        Value::Bytes(bytes) => Ok(id_of_bytes(alloc, bytes.bytes)?),
        other => Err(refused(alloc, Cause::InvalidType(other.kind()))),
    }
}

/// A time: the text of a date, or milliseconds in a struct.
fn date<'de>(alloc: Global, value: &Met<'_>) -> Reading<Option<Datum<'de>>>
    ensures exact { Reaches as_seen result (made_by (wrapped.judging wrapped.date_body) value.now) }
{
    if let Value::String(text) = value.judge(alloc)? {
        let text = text.to_text(alloc)?;
        return Ok(date_of_text(alloc, text.as_str())?);
    }
    let number: String = one_field(alloc, "$numberLong", value)?;
    Ok(date_of_number(alloc, number.as_str())?)
}

/// A binary: base64, and the digits of its subtype.
fn binary<'de>(alloc: Global, value: &Met<'_>) -> Reading<Option<Datum<'de>>>
    ensures exact { Reaches as_seen result (made_by (body_of (wrapped.meaning Wrapper.Binary)) value.now) }
{
    match binaries::binary(alloc, value)? {
        Some((subtype, content)) => Ok(Some(data::owned_binary(alloc, subtype, content)?)),
        None => Ok(None),
    }
}

/// A timestamp: a time and an increment.
fn timestamp<'de>(alloc: Global, value: &Met<'_>) -> Reading<Option<Datum<'de>>>
    ensures exact { Reaches as_seen result (made_by (body_of (wrapped.meaning Wrapper.Timestamp)) value.now) }
{
    let (time, increment): (u32, u32) = two_fields(alloc, "t", "i", value)?;
    Ok(Some(data::timestamp(alloc, Timestamp { time, increment })?))
}

/// A regular expression: a pattern and options.
fn regular_expression<'de>(alloc: Global, value: &Met<'_>) -> Reading<Option<Datum<'de>>>
    ensures exact { Reaches as_seen result (made_by (body_of (wrapped.meaning Wrapper.RegularExpression)) value.now) }
{
    let (pattern, options): (String, String) = two_fields(alloc, "pattern", "options", value)?;
    Ok(Some(data::regular_expression(alloc, pattern, options)?))
}

/// A DbPointer: a namespace, and the digits of an ObjectId in a struct of their own.
fn db_pointer<'de>(alloc: Global, value: &Met<'_>) -> Reading<Option<Datum<'de>>>
    ensures exact { Reaches as_seen result (made_by (body_of (wrapped.meaning Wrapper.DbPointer)) value.now) }
{
    let (namespace, id): (String, Id) = two_fields(alloc, "$ref", "$id", value)?;
    Ok(pointer_of_texts(alloc, namespace, id.0.as_str())?)
}

/// The value that is less than every other: the number 1.
fn min_key<'de>(alloc: Global, value: &Met<'_>) -> Reading<Option<Datum<'de>>>
    ensures exact { Reaches as_seen result (made_by (body_of (wrapped.meaning Wrapper.MinKey)) value.now) }
{
    match u8::read(alloc, value)? {
        1 => Ok(Some(data::min_key(alloc)?)),
        _ => Ok(None),
    }
}

/// The value that is greater than every other: the number 1.
fn max_key<'de>(alloc: Global, value: &Met<'_>) -> Reading<Option<Datum<'de>>>
    ensures exact { Reaches as_seen result (made_by (body_of (wrapped.meaning Wrapper.MaxKey)) value.now) }
{
    match u8::read(alloc, value)? {
        1 => Ok(Some(data::max_key(alloc)?)),
        _ => Ok(None),
    }
}

/// The deprecated kind without a value: true.
fn undefined<'de>(alloc: Global, value: &Met<'_>) -> Reading<Option<Datum<'de>>>
    ensures exact { Reaches as_seen result (made_by (body_of (wrapped.meaning Wrapper.Undefined)) value.now) }
{
    match value.judge(alloc)? {
        Value::Boolean(true) => Ok(Some(data::undefined(alloc)?)),
        Value::Boolean(false) => Ok(None),
        other => Err(refused(alloc, Cause::InvalidType(other.kind()))),
    }
}

/// A Decimal128: its sixteen bytes.
fn decimal128<'de>(alloc: Global, value: &Met<'_>) -> Reading<Option<Datum<'de>>>
    ensures exact { Reaches as_seen result (made_by (body_of (wrapped.meaning Wrapper.NumberDecimalBytes)) value.now) }
{
    let bits = buffer(alloc, value)?;
    Ok(decimal_of_bytes(alloc, bits)?)
}
