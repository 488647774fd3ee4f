// The values of the wrapper keys whose value is an object of two keys.
ghost use Rattle.std.specs.Prelude.{◌≡◌, IfOk, codes};
ghost use Rattle.std.specs.Option.{option_map};
ghost use Rattle.bson_base.specs.BsonView.{tree_of};
ghost use Rattle.bson_base.specs.Folded as folded;
ghost use Rattle.bson_base.specs.Parsed.{bytes_of_base64};
ghost use Rattle.bson_json_laws.specs.Read as spec;

use crate::parts::{both, document_of, object_id_in, subtype_in, text_of, uint32_in};
use base64::DecodeAllocError;
use base64::engine::general_purpose::STANDARD;
use bson_base::{Binary, BinarySubtype, Bson, DbPointer, Regex, Timestamp};
use std::alloc::{AllocError, Global};

// A timestamp of two numbers.
pub(crate) fn timestamp(value: &Bson) -> Option<Bson>
    ensures { option_map tree_of result ≡ folded.of_pairs (spec.both (codes "t") (codes "i") spec.timestamp_of) (tree_of value.now) }
{
    let (time, increment) = both(document_of(value)?, "t", "i")?;
    timestamp_of(time, increment)
}

fn timestamp_of(time: &Bson, increment: &Bson) -> Option<Bson>
    ensures { option_map tree_of result ≡ spec.timestamp_of (tree_of time.now) (tree_of increment.now) }
{
    let time = uint32_in(time)?;
    let increment = uint32_in(increment)?;
    Some(Bson::Timestamp(Timestamp { time, increment }))
}

// A binary of two texts.
pub(crate) fn binary(alloc: Global, value: &Bson) -> Result<Option<Bson>, AllocError>
    ensures { IfOk result (λ o. option_map tree_of o ≡ folded.of_pairs (spec.both (codes "base64") (codes "subType") spec.binary_of) (tree_of value.now)) }
{
    let Some(document) = document_of(value) else {
        return Ok(None);
    };
    match both(document, "base64", "subType") {
        Some((base64, subtype)) => binary_of(alloc, base64, subtype),
        None => Ok(None),
    }
}

fn binary_of(alloc: Global, base64: &Bson, subtype: &Bson) -> Result<Option<Bson>, AllocError>
    ensures { IfOk result (λ o. option_map tree_of o ≡ spec.binary_of (tree_of base64.now) (tree_of subtype.now)) }
{
    let Some(text) = text_of(base64) else {
        return Ok(None);
    };
    let Some(bytes) = bytes_of_base64(alloc, text)? else {
        return Ok(None);
    };
    match subtype_in(subtype) {
        Some(subtype) => Ok(Some(Bson::Binary(Binary::from_parts(BinarySubtype(subtype), bytes)))),
        None => Ok(None),
    }
}

#[tactic(auto, unfolding(bson_base::specs::Parsed::bytes_of_base64))]
fn bytes_of_base64(alloc: Global, text: &str) -> Result<Option<Vec<u8>>, AllocError>
    ensures { IfOk result (λ o. option_map (λ v. v.items) o ≡ bytes_of_base64 text.now) }
{
    match STANDARD.decode(alloc, text.as_bytes()) {
        Ok(bytes) => Ok(Some(bytes)),
        Err(DecodeAllocError::OutOfMemory) => Err(AllocError),
        Err(DecodeAllocError::DecodeError(_)) => Ok(None),
    }
}

// A regular expression of two texts.
pub(crate) fn regex(alloc: Global, value: &Bson) -> Result<Option<Bson>, AllocError>
    ensures { IfOk result (λ o. option_map tree_of o ≡ folded.of_pairs (spec.both (codes "pattern") (codes "options") spec.regular_expression_of) (tree_of value.now)) }
{
    let Some(document) = document_of(value) else {
        return Ok(None);
    };
    match both(document, "pattern", "options") {
        Some((pattern, options)) => regex_of(alloc, pattern, options),
        None => Ok(None),
    }
}

fn regex_of(alloc: Global, pattern: &Bson, options: &Bson) -> Result<Option<Bson>, AllocError>
    ensures { IfOk result (λ o. option_map tree_of o ≡ spec.regular_expression_of (tree_of pattern.now) (tree_of options.now)) }
{
    let Some(pattern) = text_of(pattern) else {
        return Ok(None);
    };
    let Some(options) = text_of(options) else {
        return Ok(None);
    };
    let pattern = String::from_str(alloc, pattern)?;
    let options = String::from_str(alloc, options)?;
    Ok(Some(Bson::RegularExpression(Regex::new(alloc, pattern, options)?)))
}

// A reference to a document, of a text and an ObjectId.
pub(crate) fn pointer(alloc: Global, value: &Bson) -> Result<Option<Bson>, AllocError>
    ensures { IfOk result (λ o. option_map tree_of o ≡ folded.of_pairs (spec.both (codes "$ref") (codes "$id") spec.db_pointer_of) (tree_of value.now)) }
{
    let Some(document) = document_of(value) else {
        return Ok(None);
    };
    match both(document, "$ref", "$id") {
        Some((namespace, id)) => pointer_of(alloc, namespace, id),
        None => Ok(None),
    }
}

fn pointer_of(alloc: Global, namespace: &Bson, id: &Bson) -> Result<Option<Bson>, AllocError>
    ensures { IfOk result (λ o. option_map tree_of o ≡ spec.db_pointer_of (tree_of namespace.now) (tree_of id.now)) }
{
    let Some(namespace) = text_of(namespace) else {
        return Ok(None);
    };
    match object_id_in(id) {
        Some(id) => {
            let namespace = String::from_str(alloc, namespace)?;
            Ok(Some(Bson::DbPointer(DbPointer { namespace, id })))
        }
        None => Ok(None),
    }
}
