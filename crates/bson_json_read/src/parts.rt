// The parts of the values at wrapper keys.
ghost use Rattle.std.specs.Prelude.{◌≡◌, option_and_then};
ghost use Rattle.std.specs.Option.{option_map};
ghost use Rattle.bson_base.specs.BsonView.{tree_of, pairs_of};
ghost use Rattle.bson_base.specs.Folded as folded;
ghost use Rattle.bson_json_laws.specs.Read as spec;
ghost use Rattle.bson_json_read.specs.Both.{AreBoth};

use bson_base::{Bson, Document, ObjectId};
use hex::FromHex;

// The text that a value is.
pub(crate) fn text_of(value: &Bson) -> Option<&str>
    ensures { option_map (λ t. t.now) result ≡ folded.text_of (tree_of value.now) }
{
    match value {
        Bson::String(text) => Some(text.as_str()),
        _ => None,
    }
}

// The document that a value is.
#[tactic(auto, using(bson_base::proofs::Rows::row_items, bson_base::proofs::Rows::row_pairs))]
pub(crate) fn document_of(value: &Bson) -> Option<&Document>
    ensures { option_map (λ d. pairs_of d.now) result ≡ folded.pairs_in (tree_of value.now) }
{
    match value {
        Bson::Document(document) => Some(document),
        _ => None,
    }
}

// The ObjectId that a value is.
pub(crate) fn object_id_in(value: &Bson) -> Option<ObjectId>
    ensures { option_map (λ id. id.0) result ≡ folded.object_id_in (tree_of value.now) }
{
    match value {
        Bson::ObjectId(id) => Some(*id),
        _ => None,
    }
}

// The number from 0 to 2^32 - 1 that a value is.
pub(crate) fn uint32_in(value: &Bson) -> Option<u32>
    ensures { result ≡ spec.uint32_in (tree_of value.now) }
{
    match value {
        Bson::Int32(number) => uint32_of(i64::from(*number)),
        Bson::Int64(number) => uint32_of(*number),
        _ => None,
    }
}

fn uint32_of(number: i64) -> Option<u32>
    ensures { result ≡ folded.uint32_of number }
{
    u32::try_from(number).ok()
}

// The subtype whose two hexadecimal digits a value is.
pub(crate) fn subtype_in(value: &Bson) -> Option<u8>
    ensures { result ≡ option_and_then folded.byte_of_digits (folded.text_of (tree_of value.now)) }
{
    byte_of_digits(text_of(value)?)
}

#[tactic(auto, unfolding(bson_base::specs::Parsed::bytes_of_digits))]
fn byte_of_digits(text: &str) -> Option<u8>
    ensures { result ≡ folded.byte_of_digits text.now }
{
    match <[u8; 1] as FromHex>::from_hex(text) {
        Ok(bytes) => Some(bytes[0]),
        Err(_) => None,
    }
}

// The values of exactly these two keys, in the order of the words.
pub(crate) fn both<'a>(
    document: &'a Document,
    first: &str,
    second: &str,
) -> Option<(&'a Bson, &'a Bson)>
    ensures { AreBoth first.now second.now (pairs_of document.now) (option_map (λ p. (tree_of p.0.now, tree_of p.1.now)) result) }
{
    let mut pairs = document.iter();
    let (key, value) = pairs.next()?;
    let (other, next) = pairs.next()?;
    if pairs.next().is_some() {
        return None;
    }
    if key.as_str() == first && other.as_str() == second {
        return Some((value, next));
    }
    if key.as_str() == second && other.as_str() == first {
        return Some((next, value));
    }
    None
}
