// The keys of maps: the text that a value is as a key, and the refusal of one that is no text.
ghost use Rattle.std.specs.Prelude.{◌≡◌, encode_utf8, pos, IfOk};
ghost use Rattle.std.specs.Option.{option_map};
ghost use Rattle.bson_base.specs.BsonView.{tree_of};
ghost use Rattle.bson_base.specs.Tree.{string, binary};
ghost use Rattle.bson_values.specs.Refusal.{invalid_cstring, invalid_document_key};
ghost use Rattle.bson_datum.specs.View.{view};
ghost use Rattle.bson_laws.specs.Means.{number_of, key_text};
ghost use Rattle.bson_laws.specs.Spell.{or_null, carried, spell_key};
ghost use Rattle.bson_writing.specs.Halting.{Gives, IsHereOrMemory};

use crate::halt::Halt;
use bson_base::{Binary, BinarySubtype, Bson, Document, has_zero};
use bson_datum::Datum;
use bson_kinds::ElementType;
use bson_values::ser::Fault;
use std::alloc::{AllocError, Global};

/// The text of a key of a map, borrowed by the key: it takes no memory.
///
/// # Errors
///
/// The refusal of a key that is no text, or that has a zero character; or out of memory for what the refusal carries.
pub fn written_key<'a>(alloc: Global, key: &'a Datum<'_>) -> Result<&'a str, Halt>
    ensures key { Gives 0 0 (λ text. text.now) result (spell_key (view key.now)) }
{
    match key_text(key) {
        None => Err(no_text(alloc, key)),
        Some(text) if has_zero(text) => Err(zero_in(alloc, text)),
        Some(text) => Ok(text),
    }
}

/// The refusal of a name that has a zero character; or memory ran out.
pub fn zero_in(alloc: Global, name: &str) -> Halt
    ensures { IsHereOrMemory (invalid_cstring name.now) result }
{
    match String::from_str(alloc, name) {
        Ok(name) => Halt::here(alloc, Fault::InvalidCString(name)),
        Err(e) => Halt::from(e),
    }
}

// The text that a value is as a key: a text itself, the name of a unit variant, what some value and a newtype hold, and the readable
// form of a value with two. Others are no keys.
#[cycle(text)]
#[inline(always)]
fn key_text<'a>(key: &'a Datum<'_>) -> Option<&'a str>
    ensures text { option_map (λ text. text.now) result ≡ key_text (view key.now) }
{
    match key {
        Datum::Str(text) => Some(text.as_str()),
        Datum::UnitVariant { variant } => Some(variant.as_str()),
        Datum::Some(content) => inner_key_text(content),
        Datum::NewtypeStruct { value, .. } => inner_key_text(value),
        Datum::Mode { readable, .. } => inner_key_text(readable),
        Datum::Bool(_)
        | Datum::I8(_)
        | Datum::I16(_)
        | Datum::I32(_)
        | Datum::I64(_)
        | Datum::U8(_)
        | Datum::U16(_)
        | Datum::U32(_)
        | Datum::U64(_)
        | Datum::Double(_)
        | Datum::Char(_)
        | Datum::Bytes(_)
        | Datum::None
        | Datum::Unit
        | Datum::UnitStruct { .. }
        | Datum::NewtypeVariant { .. }
        | Datum::Seq(_)
        | Datum::Tuple(_)
        | Datum::TupleStruct { .. }
        | Datum::TupleVariant { .. }
        | Datum::Map(_)
        | Datum::Struct { .. }
        | Datum::StructVariant { .. }
        | Datum::RawDocument(_)
        | Datum::RawArray(_) => None,
    }
}

// The text that what is in some value, a newtype or a value with two forms is as a key. It is a function of its own, since `key_text`
// is inlined.
#[cycle(text)]
#[inline(never)]
fn inner_key_text<'a>(content: &'a Datum<'_>) -> Option<&'a str>
    ensures text { option_map (λ text. text.now) result ≡ key_text (view content.now) }
{
    key_text(content)
}

// The refusal of a key that is no text.
fn no_text(alloc: Global, key: &Datum<'_>) -> Halt
    ensures { IsHereOrMemory (invalid_document_key (carried (view key.now))) result }
{
    match carried(alloc, key) {
        Ok(value) => Halt::here(alloc, Fault::InvalidDocumentKey(value)),
        Err(e) => Halt::from(e),
    }
}

// The value that the refusal of a key carries: a scalar as it would be written, null for nothing and for a number that is not
// written, what it holds for some value and for a newtype, the readable form of a value with two, an empty array for a sequence, a
// tuple, a tuple variant and an array in its bytes, an empty document for every other value.
#[tactic(auto, using(bson_base::proofs::Rows::row_items, bson_base::proofs::Rows::row_pairs))]
fn carried(alloc: Global, key: &Datum<'_>) -> Result<Bson, AllocError>
    ensures value { IfOk result (λ value. tree_of value ≡ carried (view key.now)) }
{
    match key {
        Datum::Bool(b) => Ok(Bson::Boolean(*b)),
        Datum::I8(n) => Ok(Bson::Int32(i32::from(*n))),
        Datum::I16(n) => Ok(Bson::Int32(i32::from(*n))),
        Datum::I32(n) => Ok(Bson::Int32(*n)),
        Datum::I64(n) => Ok(Bson::Int64(*n)),
        Datum::U8(n) => Ok(Bson::Int32(i32::from(*n))),
        Datum::U16(n) => Ok(Bson::Int32(i32::from(*n))),
        Datum::U32(n) => Ok(Bson::Int64(i64::from(*n))),
        Datum::U64(n) => Ok(carried_u64(*n)),
        Datum::Double(number) => Ok(Bson::Double(*number)),
        Datum::Char(c) => carried_char(alloc, *c),
        Datum::Str(text) | Datum::UnitVariant { variant: text } => {
            Ok(Bson::String(String::from_str(alloc, text.as_str())?))
        }
        Datum::Bytes(bytes) => carried_bytes(alloc, bytes.as_bytes()),
        Datum::None | Datum::Unit | Datum::UnitStruct { .. } => Ok(Bson::Null),
        Datum::Some(content) => carried(alloc, content),
        Datum::NewtypeStruct { value, .. } => carried(alloc, value),
        Datum::Mode { readable, .. } => carried(alloc, readable),
        Datum::Seq(_) | Datum::Tuple(_) | Datum::TupleVariant { .. } | Datum::RawArray(_) => {
            Ok(Bson::Array(Vec::new(alloc)))
        }
        Datum::NewtypeVariant { .. }
        | Datum::TupleStruct { .. }
        | Datum::Map(_)
        | Datum::Struct { .. }
        | Datum::StructVariant { .. }
        | Datum::RawDocument(_) => Ok(Bson::Document(Document::new(alloc))),
    }
}

// A number of 64 bits without a sign: an Int64, or null where none holds it.
fn carried_u64(number: u64) -> Bson
    ensures { tree_of result ≡ or_null (number_of ElementType.Int64 (pos number)) }
{
    match i64::try_from(number) {
        Ok(signed) => Bson::Int64(signed),
        Err(_) => Bson::Null,
    }
}

// A character: the text of it alone.
fn carried_char(alloc: Global, c: char) -> Result<Bson, AllocError>
    ensures value { IfOk result (λ value. tree_of value ≡ string (encode_utf8 c)) }
{
    let mut buffer = [0; 4];
    Ok(Bson::String(String::from_str(alloc, c.encode_utf8(&mut buffer))?))
}

// A byte string: a binary of subtype 0.
fn carried_bytes(alloc: Global, bytes: &[u8]) -> Result<Bson, AllocError>
    ensures value { IfOk result (λ value. tree_of value ≡ binary 0 bytes.now) }
{
    let bytes = bytes.to_vec(alloc)?;
    Ok(Bson::Binary(Binary::from_parts(BinarySubtype(0), bytes)))
}
