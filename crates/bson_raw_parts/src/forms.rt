// The forms of values that first keys have, and of the values in them. Nothing here takes memory.
ghost use Rattle.std.specs.Prelude.{◌≡◌};
ghost use Rattle.std.specs.Option.{option_map};
ghost use Rattle.bson_base.specs.BsonView.{tree_of, binary_of, pairs_of};
ghost use Rattle.bson_base.specs.Folded as folded;
ghost use Rattle.bson_base.specs.Folded.{at};
ghost use Rattle.bson_laws.specs.FirstKeys.{number_in, byte_in, uint32_in, bytes_in, is_boolean, is_in_int32, id_given};

use bson_base::{Binary, Bson, Decimal128, Document, ObjectId};

/// The text that a value is.
pub fn text_of(value: &Bson) -> Option<&str>
    ensures { option_map (λ t. t.now) result ≡ folded.text_of (tree_of value.now) }
{
    match value {
        Bson::String(text) => Some(text.as_str()),
        _ => None,
    }
}

/// The document that a value is.
#[tactic(auto, using(bson_base::proofs::Rows::row_items, bson_base::proofs::Rows::row_pairs))]
pub fn document_of(value: &Bson) -> Option<&Document>
    ensures { option_map (λ d. pairs_of d.now) result ≡ folded.pairs_in (tree_of value.now) }
{
    match value {
        Bson::Document(document) => Some(document),
        _ => None,
    }
}

/// The number of an Int32 or an Int64.
pub fn number_of(value: &Bson) -> Option<i64>
    ensures { result ≡ number_in (tree_of value.now) }
{
    match value {
        Bson::Int32(number) => Some(i64::from(*number)),
        Bson::Int64(number) => Some(*number),
        _ => None,
    }
}

/// The bytes of a binary of subtype 0.
fn plain_bytes(value: &Bson) -> Option<&[u8]>
    ensures { option_map (λ b. b.now) result ≡ folded.plain_bytes (tree_of value.now) }
{
    match value {
        Bson::Binary(binary) => bytes_of_subtype_0(binary),
        _ => None,
    }
}

fn bytes_of_subtype_0(binary: &Binary) -> Option<&[u8]>
    ensures { option_map (λ b. b.now) result ≡ folded.plain_bytes (binary_of binary.now) }
{
    if binary.subtype.0 != 0 {
        return None;
    }
    Some(&binary.bytes)
}

/// The decimal number of sixteen bytes.
pub fn decimal_of(value: &Bson) -> Option<Decimal128>
    ensures { option_map (λ d. d.0) result ≡ bytes_in 16 (tree_of value.now) }
{
    match plain_bytes(value)?.as_array() {
        Some(bytes) => Some(Decimal128(*bytes)),
        None => None,
    }
}

/// Whether it is a boolean.
pub fn is_boolean(value: &Bson) -> bool
    ensures { result ≡ is_boolean (tree_of value.now) }
{
    match value {
        Bson::Boolean(_) => true,
        _ => false,
    }
}

/// Whether it is a number in the range of an Int32.
pub fn is_in_int32(value: &Bson) -> bool
    ensures { result ≡ is_in_int32 (tree_of value.now) }
{
    match number_of(value) {
        Some(number) => is_int32(number),
        None => false,
    }
}

fn is_int32(number: i64) -> bool
    ensures { result ≡ folded.is_int32 number }
{
    i32::try_from(number).is_ok()
}

// ---- ids

/// The ObjectId of a text of digits or of twelve bytes.
pub fn id_given(value: &Bson) -> Option<ObjectId>
    ensures { option_map (λ id. id.0) result ≡ id_given (tree_of value.now) }
{
    match value {
        Bson::String(text) => ObjectId::parse_str(text).ok(),
        Bson::Binary(_) => id_of_bytes(value),
        _ => None,
    }
}

fn id_of_bytes(value: &Bson) -> Option<ObjectId>
    ensures { option_map (λ id. id.0) result ≡ bytes_in 12 (tree_of value.now) }
{
    match plain_bytes(value)?.as_array() {
        Some(bytes) => Some(ObjectId(*bytes)),
        None => None,
    }
}

// ---- values at keys

/// The text at a key.
pub fn text_at<'a>(document: &'a Document, key: &str) -> Option<&'a str>
    ensures { option_map (λ t. t.now) result ≡ at key.now folded.text_of (pairs_of document.now) }
{
    text_of(document.get(key)?)
}

/// The bytes of a binary of subtype 0 at a key.
pub fn plain_bytes_at<'a>(document: &'a Document, key: &str) -> Option<&'a [u8]>
    ensures { option_map (λ b. b.now) result ≡ at key.now folded.plain_bytes (pairs_of document.now) }
{
    plain_bytes(document.get(key)?)
}

/// The number at a key, where it lies in a byte.
pub fn byte_at(document: &Document, key: &str) -> Option<u8>
    ensures { result ≡ at key.now byte_in (pairs_of document.now) }
{
    byte_of(number_of(document.get(key)?)?)
}

fn byte_of(number: i64) -> Option<u8>
    ensures { result ≡ folded.byte_of number }
{
    u8::try_from(number).ok()
}

/// The number at a key, where it lies in 32 bits without a sign.
pub fn uint32_at(document: &Document, key: &str) -> Option<u32>
    ensures { result ≡ at key.now uint32_in (pairs_of document.now) }
{
    uint32_of(number_of(document.get(key)?)?)
}

fn uint32_of(number: i64) -> Option<u32>
    ensures { result ≡ folded.uint32_of number }
{
    u32::try_from(number).ok()
}
