// What documents become by their first keys, where the values of these have the forms.
ghost use Rattle.std.specs.Prelude.{◌≡◌, true, codes, IfOk};
ghost use Rattle.std.specs.Option.{option_map};
ghost use Rattle.bson_base.specs.BsonView.{tree_of, pairs_of};
ghost use Rattle.bson_base.specs.Folded.{at};
ghost use Rattle.bson_laws.specs.Assembled.{plain};
ghost use Rattle.bson_laws.specs.FirstKeys.{first_key, id_in};
ghost use Rattle.bson_raw_parts.specs.BodyView.{body_tree};
ghost use Rattle.bson_raw_parts.specs.Putting.{Puts, is_body, stands_for, body_built};

use crate::ids::id_in;
use bson_base::{Bson, DateTime, Document, ObjectId, Timestamp};
use bson_kinds::ElementType;
use bson_raw_parts::{
    Body, bad_body, byte_at, decimal_of, document_of, id_given, is_boolean, is_in_int32, number_of,
    plain_bytes_at, put_binary, put_date_time, put_db_pointer, put_decimal128, put_object_id,
    put_regular_expression, put_symbol, put_timestamp, text_at, text_of, uint32_at,
};
use bson_values::Wrapper;
use bson_values::de::Result;
use std::alloc::{AllocError, Global};

/// Appends what the value of a document's first key stands for, and answers its kind.
///
/// # Errors
///
/// `BadBody` where the value has not the form; `ZeroByte` of a regular expression, `BinaryTooLong`; `NoMemory`.
pub(crate) fn put_body(out: &mut Vec<u8>, wrapper: Wrapper, value: &Bson) -> Result<ElementType>
    requires body { is_body (first_key wrapper) ≡ true }
    ensures { Puts result out.old.items out.new.items (body_built wrapper (tree_of value.now)) }
{
    match body_of(*out.allocator(), wrapper, value)? {
        Some(body) => put(out, body),
        None => Err(bad_body(wrapper)),
    }
}

// Appends it.
fn put(out: &mut Vec<u8>, body: Body<'_>) -> Result<ElementType>
    ensures { Puts result out.old.items out.new.items (plain (body_tree body.entry)) }
{
    match body {
        Body::ObjectId(id) => put_object_id(out, id),
        Body::Symbol(text) => put_symbol(out, text),
        Body::Decimal128(number) => put_decimal128(out, number),
        Body::RegularExpression(pattern, options) => {
            put_regular_expression(out, pattern, options)
        }
        Body::Undefined => Ok(ElementType::Undefined),
        Body::Binary(subtype, bytes) => put_binary(out, subtype, bytes),
        Body::DateTime(time) => put_date_time(out, time),
        Body::Timestamp(timestamp) => put_timestamp(out, timestamp),
        Body::MinKey => Ok(ElementType::MinKey),
        Body::MaxKey => Ok(ElementType::MaxKey),
        Body::DbPointer(namespace, id) => put_db_pointer(out, namespace, id),
    }
}

/// What the value stands for under this first key; none where it has not the form.
///
/// # Errors
///
/// Memory ran out.
pub(crate) fn body_of(
    alloc: Global,
    wrapper: Wrapper,
    value: &Bson,
) -> std::result::Result<Option<Body<'_>>, AllocError>
    requires body { is_body (first_key wrapper) ≡ true }
    ensures { IfOk result (λ o. option_map body_tree o ≡ stands_for wrapper (tree_of value.now)) }
{
    match wrapper {
        Wrapper::Oid => Ok(object_id(value)),
        Wrapper::Symbol => Ok(symbol(value)),
        Wrapper::NumberDecimalBytes => Ok(decimal128(value)),
        Wrapper::RegularExpression => Ok(regular_expression(value)),
        Wrapper::Undefined if is_boolean(value) => Ok(Some(Body::Undefined)),
        Wrapper::Binary => Ok(binary(value)),
        Wrapper::Date => Ok(date_time(value)),
        Wrapper::Timestamp => Ok(timestamp(value)),
        Wrapper::MinKey if is_in_int32(value) => Ok(Some(Body::MinKey)),
        Wrapper::MaxKey if is_in_int32(value) => Ok(Some(Body::MaxKey)),
        Wrapper::DbPointer => db_pointer(alloc, value),
        Wrapper::Undefined | Wrapper::MinKey | Wrapper::MaxKey => Ok(None),
        _ => unreachable!(),
    }
}

// A text of 24 hexadecimal digits, or twelve bytes.
fn object_id(value: &Bson) -> Option<Body<'_>>
    ensures { option_map body_tree result ≡ stands_for Wrapper.Oid (tree_of value.now) }
{
    Some(Body::ObjectId(id_given(value)?))
}

// A text.
fn symbol(value: &Bson) -> Option<Body<'_>>
    ensures { option_map body_tree result ≡ stands_for Wrapper.Symbol (tree_of value.now) }
{
    Some(Body::Symbol(text_of(value)?))
}

// Sixteen bytes.
fn decimal128(value: &Bson) -> Option<Body<'_>>
    ensures { option_map body_tree result ≡ stands_for Wrapper.NumberDecimalBytes (tree_of value.now) }
{
    Some(Body::Decimal128(decimal_of(value)?))
}

// A document with the texts `pattern` and `options`, which are not put in order.
fn regular_expression(value: &Bson) -> Option<Body<'_>>
    ensures { option_map body_tree result ≡ stands_for Wrapper.RegularExpression (tree_of value.now) }
{
    let document = document_of(value)?;
    let pattern = text_at(document, "pattern")?;
    let options = text_at(document, "options")?;
    Some(Body::RegularExpression(pattern, options))
}

// A document with `bytes`, a binary of subtype 0, and `subType`, a number from 0 to 255.
fn binary(value: &Bson) -> Option<Body<'_>>
    ensures { option_map body_tree result ≡ stands_for Wrapper.Binary (tree_of value.now) }
{
    let document = document_of(value)?;
    let bytes = plain_bytes_at(document, "bytes")?;
    let subtype = byte_at(document, "subType")?;
    Some(Body::Binary(subtype, bytes))
}

// An integer: milliseconds.
fn date_time(value: &Bson) -> Option<Body<'_>>
    ensures { option_map body_tree result ≡ stands_for Wrapper.Date (tree_of value.now) }
{
    Some(Body::DateTime(DateTime::from_millis(number_of(value)?)))
}

// A document with `t` and `i`, two numbers from 0 to 4294967295.
fn timestamp(value: &Bson) -> Option<Body<'_>>
    ensures { option_map body_tree result ≡ stands_for Wrapper.Timestamp (tree_of value.now) }
{
    let document = document_of(value)?;
    let time = uint32_at(document, "t")?;
    let increment = uint32_at(document, "i")?;
    Some(Body::Timestamp(Timestamp { time, increment }))
}

// A document with the text `$ref` and the ObjectId `$id`.
fn db_pointer(alloc: Global, value: &Bson) -> std::result::Result<Option<Body<'_>>, AllocError>
    ensures { IfOk result (λ o. option_map body_tree o ≡ stands_for Wrapper.DbPointer (tree_of value.now)) }
{
    let Some(document) = document_of(value) else {
        return Ok(None);
    };
    let Some(namespace) = text_at(document, "$ref") else {
        return Ok(None);
    };
    match id_at(alloc, document)? {
        Some(id) => Ok(Some(Body::DbPointer(namespace, id))),
        None => Ok(None),
    }
}

// The ObjectId at `$id`.
fn id_at(alloc: Global, document: &Document) -> std::result::Result<Option<ObjectId>, AllocError>
    ensures { IfOk result (λ o. option_map (λ id. id.0) o ≡ at (codes "$id") id_in (pairs_of document.now)) }
{
    match document.get("$id") {
        Some(id) => id_in(alloc, id),
        None => Ok(None),
    }
}
