// Binaries that documents with a wrapper key stand for.
ghost use Rattle.std.specs.Prelude.{option_map};
ghost use Rattle.bson_base.specs.Tree as tree;
ghost use Rattle.bson_values.specs.Refusal.{under};
ghost use Rattle.bson_laws.specs.Wrapped.{meaning};
ghost use Rattle.bson_met.specs.Gives.{Reaches};
ghost use Rattle.bson_met.specs.PieceView.{str_piece};
ghost use Rattle.bson_wrapped.specs.Bodies.{body_of, valid_tree};

use crate::fields::two_fields;
use crate::values::binary_of_texts;
use bson_base::{BinarySubtype, Uuid};
use bson_met::{Met, Reading, Step, refused};
use bson_texts::own_text;
use bson_values::{Cause, Wrapper};
use std::alloc::Global;

/// The binary that a document with the key `$binary` stands for, read from the value at the key.
///
/// # Errors
///
/// As [`read_body`](crate::read_body).
pub fn read_binary(alloc: Global, step: &Step<'_>) -> Reading<(BinarySubtype, Vec<u8>)>
    ensures exact { Reaches (λ p. tree.binary p.0.0 p.1.items) result
        (under (str_piece step.now.key).bytes (valid_tree Wrapper.Binary (body_of (meaning Wrapper.Binary)) step.now.value)) }
{
    match valid_binary(alloc, &step.value) {
        Ok(binary) => Ok(binary),
        Err(stop) => Err(stop.under_key(step.key.text)),
    }
}

/// The same, without the key.
fn valid_binary(alloc: Global, value: &Met<'_>) -> Reading<(BinarySubtype, Vec<u8>)>
    ensures exact { Reaches (λ p. tree.binary p.0.0 p.1.items) result
        (valid_tree Wrapper.Binary (body_of (meaning Wrapper.Binary)) value.now) }
{
    match binary(alloc, value)? {
        Some(binary) => Ok(binary),
        None => Err(refused(alloc, Cause::BadBody(Wrapper::Binary))),
    }
}

/// A binary: base64, and the digits of its subtype; `None` where these stand for none.
pub(crate) fn binary(alloc: Global, value: &Met<'_>) -> Reading<Option<(BinarySubtype, Vec<u8>)>>
    ensures exact { Reaches (λ o. option_map (λ p. tree.binary p.0.0 p.1.items) o) result
        (body_of (meaning Wrapper.Binary) value.now) }
{
    let (base64, subtype): (String, String) = two_fields(alloc, "base64", "subType", value)?;
    Ok(binary_of_texts(alloc, base64.as_str(), subtype.as_str())?)
}

/// The UUID whose binary a document with the key `$uuid` stands for, read from the value at the key.
///
/// # Errors
///
/// As [`read_body`](crate::read_body).
pub fn read_uuid(alloc: Global, step: &Step<'_>) -> Reading<Uuid>
    ensures exact { Reaches (λ id. tree.binary 4 id.0) result
        (under (str_piece step.now.key).bytes (valid_tree Wrapper.Uuid (body_of (meaning Wrapper.Uuid)) step.now.value)) }
{
    match valid_uuid(alloc, &step.value) {
        Ok(id) => Ok(id),
        Err(stop) => Err(stop.under_key(step.key.text)),
    }
}

/// The same, without the key.
fn valid_uuid(alloc: Global, value: &Met<'_>) -> Reading<Uuid>
    ensures exact { Reaches (λ id. tree.binary 4 id.0) result (valid_tree Wrapper.Uuid (body_of (meaning Wrapper.Uuid)) value.now) }
{
    let text = own_text(alloc, value)?;
    match Uuid::parse_str(text.as_str()) {
        Ok(id) => Ok(id),
        Err(_) => Err(refused(alloc, Cause::BadBody(Wrapper::Uuid))),
    }
}
