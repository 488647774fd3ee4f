// What the values of wrapper keys become, where they have the form.
ghost use Rattle.std.specs.Prelude.{◌≡◌, IfOk, option_and_then, codes};
ghost use Rattle.std.specs.Option.{option_map};
ghost use Rattle.bson_base.specs.BsonView.{tree_of, pairs_of};
ghost use Rattle.bson_base.specs.Folded as folded;
ghost use Rattle.bson_base.specs.Parsed.{bytes_of_base64};
ghost use Rattle.bson_base.specs.Tree as trees;

use crate::binary::{Binary, BinarySubtype};
use crate::bson::Bson;
use crate::document::Document;
use crate::parsing::integer_of_text;
use crate::regex::Regex;
use crate::{DateTime, DbPointer, Decimal128, Double, ObjectId, Timestamp, Uuid};
use base64::DecodeAllocError;
use base64::engine::general_purpose::STANDARD;
use hex::FromHex;
use std::alloc::{AllocError, Global};

// The text that a value is.
pub(crate) fn text_of(value: &Bson) -> Option<&str>
    ensures { option_map (λ t. t.now) result ≡ folded.text_of (tree_of value.now) }
{
    match value {
        Bson::String(text) => Some(text.as_str()),
        _ => None,
    }
}

// The document that a value is.
#[tactic(auto, using(crate::proofs::Rows::row_items, crate::proofs::Rows::row_pairs))]
fn document_of(value: &Bson) -> Option<&Document>
    ensures { option_map (λ d. pairs_of d.now) result ≡ folded.pairs_in (tree_of value.now) }
{
    match value {
        Bson::Document(document) => Some(document),
        _ => None,
    }
}

// The text at a key.
fn text_at<'a>(document: &'a Document, key: &str) -> Option<&'a str>
    ensures { option_map (λ t. t.now) result ≡ folded.at key.now folded.text_of (pairs_of document.now) }
{
    text_of(document.get(key)?)
}

// The bytes of a binary of subtype 0.
fn plain_bytes(value: &Bson) -> Option<&[u8]>
    ensures { option_map (λ b. b.now) result ≡ folded.plain_bytes (tree_of value.now) }
{
    match value {
        Bson::Binary(binary) => bytes_of_subtype_0(binary),
        _ => None,
    }
}

fn bytes_of_subtype_0(binary: &Binary) -> Option<&[u8]>
    ensures { option_map (λ b. b.now) result ≡ folded.plain_bytes (trees.binary binary.now.subtype.0 binary.now.bytes.items) }
{
    if binary.subtype.0 != 0 {
        return None;
    }
    Some(&binary.bytes)
}

// ---- texts

// The ObjectId that a text of digits stands for.
pub(crate) fn object_id(value: &Bson) -> Option<Bson>
    ensures { option_map tree_of result ≡ folded.of_text folded.object_id_of_text (tree_of value.now) }
{
    object_id_of_text(text_of(value)?)
}

fn object_id_of_text(text: &str) -> Option<Bson>
    ensures { option_map tree_of result ≡ folded.object_id_of_text text.now }
{
    match ObjectId::parse_str(text) {
        Ok(id) => Some(Bson::ObjectId(id)),
        Err(_) => None,
    }
}

// The symbol of a text.
pub(crate) fn symbol(alloc: Global, value: &Bson) -> Result<Option<Bson>, AllocError>
    ensures { IfOk result (λ o. option_map tree_of o ≡ folded.of_text (λ t. Some (trees.symbol t)) (tree_of value.now)) }
{
    match text_of(value) {
        Some(text) => Ok(Some(Bson::Symbol(String::from_str(alloc, text)?))),
        None => Ok(None),
    }
}

// The code of a text.
pub(crate) fn code(alloc: Global, value: &Bson) -> Result<Option<Bson>, AllocError>
    ensures { IfOk result (λ o. option_map tree_of o ≡ folded.of_text (λ t. Some (trees.javascript_code t)) (tree_of value.now)) }
{
    match text_of(value) {
        Some(text) => Ok(Some(Bson::JavaScriptCode(String::from_str(alloc, text)?))),
        None => Ok(None),
    }
}

// The Int32 that a text of digits stands for.
pub(crate) fn int32(value: &Bson) -> Option<Bson>
    ensures { option_map tree_of result ≡ folded.of_text folded.int32_of_text (tree_of value.now) }
{
    int32_of(integer_of_text(text_of(value)?)?)
}

fn int32_of(number: i64) -> Option<Bson>
    ensures { option_map tree_of result ≡ folded.int32_of number }
{
    match i32::try_from(number) {
        Ok(number) => Some(Bson::Int32(number)),
        Err(_) => None,
    }
}

// The Int64 that a text of digits stands for.
pub(crate) fn int64(value: &Bson) -> Option<Bson>
    ensures { option_map tree_of result ≡ folded.of_text folded.int64_of_text (tree_of value.now) }
{
    Some(Bson::Int64(integer_of_text(text_of(value)?)?))
}

// The double that one of three texts stands for.
pub(crate) fn double(value: &Bson) -> Option<Bson>
    ensures { option_map tree_of result ≡ folded.of_text folded.double_of_text (tree_of value.now) }
{
    double_of_text(text_of(value)?)
}

fn double_of_text(text: &str) -> Option<Bson>
    ensures { option_map tree_of result ≡ folded.double_of_text text.now }
{
    match text {
        "Infinity" => Some(Bson::Double(Double([0, 0, 0, 0, 0, 0, 0xf0, 0x7f]))),
        "-Infinity" => Some(Bson::Double(Double([0, 0, 0, 0, 0, 0, 0xf0, 0xff]))),
        "NaN" => Some(Bson::Double(Double([0, 0, 0, 0, 0, 0, 0xf8, 0x7f]))),
        _ => None,
    }
}

// The binary of subtype 4 that the text of a UUID stands for.
pub(crate) fn uuid(alloc: Global, value: &Bson) -> Result<Option<Bson>, AllocError>
    ensures { IfOk result (λ o. option_map tree_of o ≡ folded.of_text folded.uuid_of_text (tree_of value.now)) }
{
    match text_of(value) {
        Some(text) => uuid_of_text(alloc, text),
        None => Ok(None),
    }
}

fn uuid_of_text(alloc: Global, text: &str) -> Result<Option<Bson>, AllocError>
    ensures { IfOk result (λ o. option_map tree_of o ≡ folded.uuid_of_text text.now) }
{
    match Uuid::parse_str(text) {
        Ok(id) => {
            let bytes = Vec::from_slice(alloc, &id.0)?;
            Ok(Some(Bson::Binary(Binary::from_parts(BinarySubtype(4), bytes))))
        }
        Err(_) => Ok(None),
    }
}

// ---- other values

// The decimal number of sixteen bytes.
pub(crate) fn decimal(value: &Bson) -> Option<Bson>
    ensures { option_map tree_of result ≡ folded.of_plain_bytes folded.decimal_of (tree_of value.now) }
{
    decimal_of(plain_bytes(value)?)
}

fn decimal_of(bytes: &[u8]) -> Option<Bson>
    ensures { option_map tree_of result ≡ folded.decimal_of bytes.now }
{
    match bytes.as_array() {
        Some(bytes) => Some(Bson::Decimal128(Decimal128(*bytes))),
        None => None,
    }
}

// The time of so many milliseconds, or of the text of a date.
pub(crate) fn date(value: &Bson) -> Option<Bson>
    ensures { option_map tree_of result ≡ folded.date_of (tree_of value.now) }
{
    match value {
        Bson::Int64(number) => Some(Bson::DateTime(DateTime::from_millis(*number))),
        Bson::String(text) => match DateTime::parse_rfc3339_str(text) {
            Ok(time) => Some(Bson::DateTime(time)),
            Err(_) => None,
        },
        _ => None,
    }
}

// The least value, where the number one is given.
pub(crate) fn min_key(value: &Bson) -> Option<Bson>
    ensures { option_map tree_of result ≡ folded.of_one trees.min_key (tree_of value.now) }
{
    match value {
        Bson::Int32(1) | Bson::Int64(1) => Some(Bson::MinKey),
        _ => None,
    }
}

// The greatest value, where the number one is given.
pub(crate) fn max_key(value: &Bson) -> Option<Bson>
    ensures { option_map tree_of result ≡ folded.of_one trees.max_key (tree_of value.now) }
{
    match value {
        Bson::Int32(1) | Bson::Int64(1) => Some(Bson::MaxKey),
        _ => None,
    }
}

// The value Undefined, where true is given.
pub(crate) fn undefined(value: &Bson) -> Option<Bson>
    ensures { option_map tree_of result ≡ folded.of_true trees.undefined (tree_of value.now) }
{
    match value {
        Bson::Boolean(true) => Some(Bson::Undefined),
        _ => None,
    }
}

// ---- inner documents

// The binary of base64 and digits, or of bytes and a number.
pub(crate) fn binary(alloc: Global, value: &Bson) -> Result<Option<Bson>, AllocError>
    ensures { IfOk result (λ o. option_map tree_of o ≡ folded.of_pairs folded.binary_of (tree_of value.now)) }
{
    match document_of(value) {
        Some(document) => binary_of(alloc, document),
        None => Ok(None),
    }
}

fn binary_of(alloc: Global, document: &Document) -> Result<Option<Bson>, AllocError>
    ensures { IfOk result (λ o. option_map tree_of o ≡ folded.binary_of (pairs_of document.now)) }
{
    match text_at(document, "base64") {
        Some(text) => binary_of_texts(alloc, text, document),
        None => binary_of_bytes(alloc, document),
    }
}

fn binary_of_texts(
    alloc: Global,
    text: &str,
    document: &Document,
) -> Result<Option<Bson>, AllocError>
    ensures { IfOk result (λ o. option_map tree_of o ≡ folded.binary_of_texts text.now (pairs_of document.now)) }
{
    let Some(bytes) = bytes_of_base64(alloc, text)? else {
        return Ok(None);
    };
    match subtype_of_digits(document) {
        Some(subtype) => Ok(Some(Bson::Binary(Binary::from_parts(BinarySubtype(subtype), bytes)))),
        None => Ok(None),
    }
}

// The bytes that a base64 text stands for.
#[tactic(auto, unfolding(crate::specs::Parsed::bytes_of_base64))]
fn bytes_of_base64(alloc: Global, text: &str) -> Result<Option<Vec<u8>>, AllocError>
    ensures { IfOk result (λ o. option_map (λ v. v.items) o ≡ bytes_of_base64 text.now) }
{
    match STANDARD.decode(alloc, text.as_bytes()) {
        Ok(bytes) => Ok(Some(bytes)),
        Err(DecodeAllocError::OutOfMemory) => Err(AllocError),
        Err(DecodeAllocError::DecodeError(_)) => Ok(None),
    }
}

// The subtype that is given as digits.
fn subtype_of_digits(document: &Document) -> Option<u8>
    ensures { result ≡ option_and_then folded.byte_of_digits (folded.at (codes "subType") folded.text_of (pairs_of document.now)) }
{
    byte_of_digits(text_at(document, "subType")?)
}

// The byte of two hexadecimal digits.
#[tactic(auto, unfolding(crate::specs::Parsed::bytes_of_digits))]
fn byte_of_digits(text: &str) -> Option<u8>
    ensures { result ≡ folded.byte_of_digits text.now }
{
    match <[u8; 1] as FromHex>::from_hex(text) {
        Ok(bytes) => Some(bytes[0]),
        Err(_) => None,
    }
}

fn binary_of_bytes(alloc: Global, document: &Document) -> Result<Option<Bson>, AllocError>
    ensures { IfOk result (λ o. option_map tree_of o ≡ folded.binary_of_bytes (pairs_of document.now)) }
{
    let Some(bytes) = plain_bytes_at(document) else {
        return Ok(None);
    };
    match subtype_of_number(document) {
        Some(subtype) => {
            let bytes = Vec::from_slice(alloc, bytes)?;
            Ok(Some(Bson::Binary(Binary::from_parts(BinarySubtype(subtype), bytes))))
        }
        None => Ok(None),
    }
}

// The bytes that are given as a binary.
fn plain_bytes_at(document: &Document) -> Option<&[u8]>
    ensures { option_map (λ b. b.now) result ≡ folded.at (codes "bytes") folded.plain_bytes (pairs_of document.now) }
{
    plain_bytes(document.get("bytes")?)
}

// The subtype that is given as an Int32.
fn subtype_of_number(document: &Document) -> Option<u8>
    ensures { result ≡ option_and_then folded.byte_of (folded.at (codes "subType") folded.int32_in (pairs_of document.now)) }
{
    byte_of(int32_in(document.get("subType")?)?)
}

fn int32_in(value: &Bson) -> Option<i32>
    ensures { result ≡ folded.int32_in (tree_of value.now) }
{
    match value {
        Bson::Int32(number) => Some(*number),
        _ => None,
    }
}

fn byte_of(number: i32) -> Option<u8>
    ensures { result ≡ folded.byte_of number }
{
    match u8::try_from(number) {
        Ok(byte) => Some(byte),
        Err(_) => None,
    }
}

// The timestamp of two numbers of one kind.
pub(crate) fn timestamp(value: &Bson) -> Option<Bson>
    ensures { option_map tree_of result ≡ folded.of_pairs folded.timestamp_in (tree_of value.now) }
{
    timestamp_in(document_of(value)?)
}

fn timestamp_in(document: &Document) -> Option<Bson>
    ensures { option_map tree_of result ≡ folded.timestamp_in (pairs_of document.now) }
{
    let time = document.get("t")?;
    timestamp_of_kind(time, document.get("i")?)
}

fn timestamp_of_kind(time: &Bson, increment: &Bson) -> Option<Bson>
    ensures { option_map tree_of result ≡ folded.timestamp_of_kind (tree_of time.now) (tree_of increment.now) }
{
    match time {
        Bson::Int32(time) => match increment {
            Bson::Int32(increment) => timestamp_of(i64::from(*time), i64::from(*increment)),
            _ => None,
        },
        Bson::Int64(time) => match increment {
            Bson::Int64(increment) => timestamp_of(*time, *increment),
            _ => None,
        },
        _ => None,
    }
}

fn timestamp_of(time: i64, increment: i64) -> Option<Bson>
    ensures { option_map tree_of result ≡ folded.timestamp_of time increment }
{
    let time = uint32_of(time)?;
    let increment = uint32_of(increment)?;
    Some(Bson::Timestamp(Timestamp { time, increment }))
}

fn uint32_of(number: i64) -> Option<u32>
    ensures { result ≡ folded.uint32_of number }
{
    match u32::try_from(number) {
        Ok(number) => Some(number),
        Err(_) => None,
    }
}

// The regular expression of a pattern and options.
pub(crate) fn regex(alloc: Global, value: &Bson) -> Result<Option<Bson>, AllocError>
    ensures { IfOk result (λ o. option_map tree_of o ≡ folded.of_pairs folded.regular_expression_in (tree_of value.now)) }
{
    match document_of(value) {
        Some(document) => regex_in(alloc, document),
        None => Ok(None),
    }
}

fn regex_in(alloc: Global, document: &Document) -> Result<Option<Bson>, AllocError>
    ensures { IfOk result (λ o. option_map tree_of o ≡ folded.regular_expression_in (pairs_of document.now)) }
{
    let Some(pattern) = text_at(document, "pattern") else {
        return Ok(None);
    };
    let Some(options) = text_at(document, "options") else {
        return Ok(None);
    };
    let pattern = String::from_str(alloc, pattern)?;
    let options = String::from_str(alloc, options)?;
    Ok(Some(Bson::RegularExpression(Regex::new(alloc, pattern, options)?)))
}

// The reference of a namespace and an ObjectId.
pub(crate) fn db_pointer(alloc: Global, value: &Bson) -> Result<Option<Bson>, AllocError>
    ensures { IfOk result (λ o. option_map tree_of o ≡ folded.of_pairs folded.db_pointer_in (tree_of value.now)) }
{
    match document_of(value) {
        Some(document) => db_pointer_in(alloc, document),
        None => Ok(None),
    }
}

fn db_pointer_in(alloc: Global, document: &Document) -> Result<Option<Bson>, AllocError>
    ensures { IfOk result (λ o. option_map tree_of o ≡ folded.db_pointer_in (pairs_of document.now)) }
{
    let Some(namespace) = text_at(document, "$ref") else {
        return Ok(None);
    };
    match object_id_at(document) {
        Some(id) => {
            let namespace = String::from_str(alloc, namespace)?;
            Ok(Some(Bson::DbPointer(DbPointer { namespace, id })))
        }
        None => Ok(None),
    }
}

// The ObjectId that is given under `$id`.
fn object_id_at(document: &Document) -> Option<ObjectId>
    ensures { option_map (λ id. id.0) result ≡ folded.at (codes "$id") folded.object_id_in (pairs_of document.now) }
{
    object_id_in(document.get("$id")?)
}

fn object_id_in(value: &Bson) -> Option<ObjectId>
    ensures { option_map (λ id. id.0) result ≡ folded.object_id_in (tree_of value.now) }
{
    match value {
        Bson::ObjectId(id) => Some(*id),
        _ => None,
    }
}
