// The list of keys and values that each kind takes, and what it says.
ghost use Rattle.std.specs.Prelude.{◌≡◌, IsSome, IfSome, option_map, option_and_then};
ghost use Rattle.bson_base.specs.Instant.{millis};
ghost use Rattle.bson_base.specs.Tree as tree;
ghost use Rattle.bson_laws.specs.Unwrap as unwrap;
ghost use Rattle.bson_reserved.specs.ListView.{parts_view};
ghost use Rattle.bson_reserved.specs.AcceptedView.{accepted_view, accepted_kind, base64_view};

use crate::accepted::Accepted;
use crate::list::Part;
use crate::parts::{
    end_as, next_byte, next_bytes, next_key, next_key_of, next_text, next_unsigned,
};
use bson_base::{
    BinarySubtype, DateTime, Decimal128, ObjectId, Timestamp, integer_of_text, subtype_of_text,
};
use bson_kinds::ElementType;

// 24 hexadecimal digits.
pub(crate) fn object_id_list(list: &[Part<'_, '_>]) -> Option<ObjectId>
    ensures { option_map (λ id. id.0) result ≡ unwrap.object_id_list (parts_view list.now) }
{
    let value = next_key("$oid", list)?;
    let (digits, rest) = next_text(value)?;
    let id = ObjectId::parse_str(digits).ok()?;
    end_as(id, rest)
}

// Milliseconds.
pub(crate) fn date_time_list(list: &[Part<'_, '_>]) -> Option<DateTime>
    ensures { option_map millis result ≡ unwrap.date_time_list (parts_view list.now) }
{
    let body = next_key("$date", list)?;
    let value = next_key("$numberLong", body)?;
    let (text, rest) = next_text(value)?;
    let milliseconds = integer_of_text(text)?;
    end_as(DateTime::from_millis(milliseconds), rest)
}

// A time and an increment.
pub(crate) fn timestamp_list(list: &[Part<'_, '_>]) -> Option<Timestamp>
    ensures { option_map (λ t. (t.time, t.increment)) result ≡ unwrap.timestamp_list (parts_view list.now) }
{
    let body = next_key("$timestamp", list)?;
    let first = next_key("t", body)?;
    let (time, second) = next_unsigned(first)?;
    let value = next_key("i", second)?;
    let (increment, rest) = next_unsigned(value)?;
    end_as(Timestamp { time, increment }, rest)
}

// A text under this key.
pub(crate) fn text_list<'a>(name: &str, list: &[Part<'a, '_>]) -> Option<&'a str>
    ensures { option_map (λ text. text.now) result ≡ unwrap.text_list name.now (parts_view list.now) }
{
    let value = next_key(name, list)?;
    let (text, rest) = next_text(value)?;
    end_as(text, rest)
}

// A subtype and bytes: as base64 and digits, or as they are.
pub(crate) fn binary_list<'a>(list: &[Part<'a, '_>]) -> Option<Accepted<'a>>
    ensures accepted { option_and_then accepted_view result ≡ option_map (λ p. tree.binary p.0 p.1) (unwrap.binary_list (parts_view list.now)) }
    ensures base64 { option_and_then base64_view result ≡ unwrap.base64_given ElementType.Binary (parts_view list.now) }
    ensures kind { IfSome result (λ accepted. accepted_kind accepted ≡ ElementType.Binary) }
{
    let body = next_key("$binary", list)?;
    let value = next_key_of("base64", "bytes", body)?;
    match base64_parts(value) {
        Some((subtype, text)) => Some(Accepted::Base64 { subtype, text }),
        None => {
            let (subtype, bytes) = bytes_list(value)?;
            Some(Accepted::Binary { subtype, bytes })
        }
    }
}

// A subtype and a text, which is to be base64 of bytes.
fn base64_parts<'a>(list: &[Part<'a, '_>]) -> Option<(BinarySubtype, &'a str)>
    ensures value { option_map (λ p. (p.0.0, p.1.now)) result ≡ unwrap.base64_parts (parts_view list.now) }
    ensures text { IsSome result → unwrap.bytes_list (parts_view list.now) ≡ None }
{
    let (text, more) = next_text(list)?;
    let value = next_key("subType", more)?;
    let (digits, rest) = next_text(value)?;
    let subtype = BinarySubtype(subtype_of_text(digits)?);
    end_as((subtype, text), rest)
}

// A subtype and bytes, given as they are.
fn bytes_list<'a>(list: &[Part<'a, '_>]) -> Option<(BinarySubtype, &'a [u8])>
    ensures { option_map (λ p. (p.0.0, p.1.now)) result ≡ unwrap.bytes_list (parts_view list.now) }
{
    let (bytes, more) = next_bytes(list)?;
    let value = next_key("subType", more)?;
    let (subtype, rest) = next_byte(value)?;
    end_as((BinarySubtype(subtype), bytes), rest)
}

// A pattern and options.
pub(crate) fn regular_expression_list<'a>(list: &[Part<'a, '_>]) -> Option<(&'a str, &'a str)>
    ensures { option_map (λ p. (p.0.now, p.1.now)) result ≡ unwrap.regular_expression_list (parts_view list.now) }
{
    let body = next_key("$regularExpression", list)?;
    let first = next_key("pattern", body)?;
    let (pattern, more) = next_text(first)?;
    let second = next_key("options", more)?;
    let (options, rest) = next_text(second)?;
    end_as((pattern, options), rest)
}

// A namespace and an id.
pub(crate) fn db_pointer_list<'a>(list: &[Part<'a, '_>]) -> Option<(&'a str, ObjectId)>
    ensures { option_map (λ p. (p.0.now, p.1.0)) result ≡ unwrap.db_pointer_list (parts_view list.now) }
{
    let body = next_key("$dbPointer", list)?;
    let first = next_key("$ref", body)?;
    let (namespace, more) = next_text(first)?;
    let second = next_key("$id", more)?;
    let value = next_key("$oid", second)?;
    let (digits, rest) = next_text(value)?;
    let id = ObjectId::parse_str(digits).ok()?;
    end_as((namespace, id), rest)
}

// Sixteen bytes.
pub(crate) fn decimal128_list(list: &[Part<'_, '_>]) -> Option<Decimal128>
    ensures { option_map (λ d. d.0) result ≡ unwrap.decimal128_list (parts_view list.now) }
{
    let value = next_key_of("$numberDecimal", "$numberDecimalBytes", list)?;
    let (bytes, rest) = next_bytes(value)?;
    let bits = <[u8; 16]>::try_from(bytes).ok()?;
    end_as(Decimal128(bits), rest)
}
