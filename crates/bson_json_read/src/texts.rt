// The values of the wrapper keys whose value is one text, or a number or a boolean.
ghost use Rattle.std.specs.Prelude.{◌≡◌, IfOk, Some};
ghost use Rattle.std.specs.Option.{option_map};
ghost use Rattle.bson_base.specs.BsonView.{tree_of};
ghost use Rattle.bson_base.specs.Folded as folded;
ghost use Rattle.bson_base.specs.Tree as trees;
ghost use Rattle.bson_json_laws.specs.Read as spec;

use crate::numbers::double_of_text;
use crate::parts::text_of;
use bson_base::{
    Binary, BinarySubtype, Bson, DateTime, Decimal128, ObjectId, Uuid, integer_of_text,
};
use bson_decimals::decimal_of_text;
use std::alloc::{AllocError, Global};

// The ObjectId of a text.
pub(crate) fn object_id(value: &Bson) -> Option<Bson>
    ensures { option_map tree_of result ≡ folded.of_text folded.object_id_of_text (tree_of value.now) }
{
    object_id_of_text(text_of(value)?)
}

fn object_id_of_text(text: &str) -> Option<Bson>
    ensures { option_map tree_of result ≡ folded.object_id_of_text text.now }
{
    match ObjectId::parse_str(text) {
        Ok(id) => Some(Bson::ObjectId(id)),
        Err(_) => None,
    }
}

// The symbol, and the code, of a text.
pub(crate) fn symbol(alloc: Global, value: &Bson) -> Result<Option<Bson>, AllocError>
    ensures { IfOk result (λ o. option_map tree_of o ≡ folded.of_text (λ t. Some (trees.symbol t)) (tree_of value.now)) }
{
    match text_of(value) {
        Some(text) => Ok(Some(Bson::Symbol(String::from_str(alloc, text)?))),
        None => Ok(None),
    }
}

pub(crate) fn code(alloc: Global, value: &Bson) -> Result<Option<Bson>, AllocError>
    ensures { IfOk result (λ o. option_map tree_of o ≡ folded.of_text (λ t. Some (trees.javascript_code t)) (tree_of value.now)) }
{
    match text_of(value) {
        Some(text) => Ok(Some(Bson::JavaScriptCode(String::from_str(alloc, text)?))),
        None => Ok(None),
    }
}

// The integer of a text.
pub(crate) fn int32(value: &Bson) -> Option<Bson>
    ensures { option_map tree_of result ≡ folded.of_text folded.int32_of_text (tree_of value.now) }
{
    int32_of(integer_of_text(text_of(value)?)?)
}

fn int32_of(number: i64) -> Option<Bson>
    ensures { option_map tree_of result ≡ folded.int32_of number }
{
    match i32::try_from(number) {
        Ok(number) => Some(Bson::Int32(number)),
        Err(_) => None,
    }
}

pub(crate) fn int64(value: &Bson) -> Option<Bson>
    ensures { option_map tree_of result ≡ folded.of_text folded.int64_of_text (tree_of value.now) }
{
    Some(Bson::Int64(integer_of_text(text_of(value)?)?))
}

// The double of a text.
pub(crate) fn double(value: &Bson) -> Option<Bson>
    ensures { option_map tree_of result ≡ folded.of_text spec.double_tree (tree_of value.now) }
{
    Some(Bson::Double(double_of_text(text_of(value)?)?))
}

// The decimal of a text.
pub(crate) fn decimal(value: &Bson) -> Option<Bson>
    ensures { option_map tree_of result ≡ folded.of_text spec.decimal_tree (tree_of value.now) }
{
    Some(Bson::Decimal128(Decimal128(decimal_of_text(text_of(value)?)?)))
}

// The time of milliseconds or of a text.
pub(crate) fn date(value: &Bson) -> Option<Bson>
    ensures { option_map tree_of result ≡ spec.date_in (tree_of value.now) }
{
    match value {
        Bson::Int64(number) => Some(Bson::DateTime(DateTime::from_millis(*number))),
        Bson::String(text) => match DateTime::parse_rfc3339_str(text) {
            Ok(time) => Some(Bson::DateTime(time)),
            Err(_) => None,
        },
        _ => None,
    }
}

// The binary of the text of a UUID.
pub(crate) fn uuid(alloc: Global, value: &Bson) -> Result<Option<Bson>, AllocError>
    ensures { IfOk result (λ o. option_map tree_of o ≡ folded.of_text folded.uuid_of_text (tree_of value.now)) }
{
    match text_of(value) {
        Some(text) => uuid_of_text(alloc, text),
        None => Ok(None),
    }
}

fn uuid_of_text(alloc: Global, text: &str) -> Result<Option<Bson>, AllocError>
    ensures { IfOk result (λ o. option_map tree_of o ≡ folded.uuid_of_text text.now) }
{
    match Uuid::parse_str(text) {
        Ok(id) => {
            let bytes = Vec::from_slice(alloc, &id.0)?;
            Ok(Some(Bson::Binary(Binary::from_parts(BinarySubtype(4), bytes))))
        }
        Err(_) => Ok(None),
    }
}

// The kinds without a value.
pub(crate) fn min_key(value: &Bson) -> Option<Bson>
    ensures { option_map tree_of result ≡ folded.of_one trees.min_key (tree_of value.now) }
{
    match value {
        Bson::Int32(1) | Bson::Int64(1) => Some(Bson::MinKey),
        _ => None,
    }
}

pub(crate) fn max_key(value: &Bson) -> Option<Bson>
    ensures { option_map tree_of result ≡ folded.of_one trees.max_key (tree_of value.now) }
{
    match value {
        Bson::Int32(1) | Bson::Int64(1) => Some(Bson::MaxKey),
        _ => None,
    }
}

pub(crate) fn undefined(value: &Bson) -> Option<Bson>
    ensures { option_map tree_of result ≡ folded.of_true trees.undefined (tree_of value.now) }
{
    match value {
        Bson::Boolean(true) => Some(Bson::Undefined),
        _ => None,
    }
}
