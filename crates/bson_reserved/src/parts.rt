// The first part of a list of keys and values, and the rest of the list; `None` where the list begins otherwise.
ghost use Rattle.std.specs.Prelude.{◌≡◌, ◌≤◌, IfSome, option_map};
ghost use Rattle.bson_datum.specs.View.{view};
ghost use Rattle.bson_laws.specs.Unwrap as unwrap;
ghost use Rattle.bson_reserved.specs.ListView.{parts_view};
ghost use Rattle.bson_reserved.specs.AcceptedView.{IsScope};
ghost use Rattle.bson_reserved.specs.Prover.Sized.{parts_size, IsWithin};

use crate::list::Part;
use bson_datum::Datum;

// This key.
pub(crate) fn next_key<'p, 'a, 'b>(
    name: &str,
    list: &'p [Part<'a, 'b>],
) -> Option<&'p [Part<'a, 'b>]>
    ensures taken { option_map (λ rest. parts_view rest.now) result ≡ unwrap.next_key name.now (parts_view list.now) }
    ensures size { IfSome result (λ rest. parts_size rest.now ≤ parts_size list.now) }
{
    let (first, rest) = list.split_first()?;
    match *first {
        Part::Key(key) if key == name => Some(rest),
        _ => None,
    }
}

// One of these keys.
pub(crate) fn next_key_of<'p, 'a, 'b>(
    name: &str,
    other: &str,
    list: &'p [Part<'a, 'b>],
) -> Option<&'p [Part<'a, 'b>]>
    ensures taken { option_map (λ rest. parts_view rest.now) result ≡ unwrap.next_key_of name.now other.now (parts_view list.now) }
{
    let (first, rest) = list.split_first()?;
    match *first {
        Part::Key(key) if key == name || key == other => Some(rest),
        _ => None,
    }
}

// A text.
pub(crate) fn next_text<'p, 'a, 'b>(
    list: &'p [Part<'a, 'b>],
) -> Option<(&'a str, &'p [Part<'a, 'b>])>
    ensures taken { option_map (λ next. (next.0.now, parts_view next.1.now)) result ≡ unwrap.next_text (parts_view list.now) }
    ensures size { IfSome result (λ next. parts_size next.1.now ≤ parts_size list.now) }
{
    let (first, rest) = list.split_first()?;
    match *first {
        Part::Value(Datum::Str(text)) => Some((text.as_str(), rest)),
        _ => None,
    }
}

// A byte string.
pub(crate) fn next_bytes<'p, 'a, 'b>(
    list: &'p [Part<'a, 'b>],
) -> Option<(&'a [u8], &'p [Part<'a, 'b>])>
    ensures taken { option_map (λ next. (next.0.now, parts_view next.1.now)) result ≡ unwrap.next_bytes (parts_view list.now) }
{
    let (first, rest) = list.split_first()?;
    match *first {
        Part::Value(Datum::Bytes(bytes)) => Some((bytes.as_bytes(), rest)),
        _ => None,
    }
}

// A number of `u8`.
pub(crate) fn next_byte<'p, 'a, 'b>(list: &'p [Part<'a, 'b>]) -> Option<(u8, &'p [Part<'a, 'b>])>
    ensures taken { option_map (λ next. (next.0, parts_view next.1.now)) result ≡ unwrap.next_byte (parts_view list.now) }
{
    let (first, rest) = list.split_first()?;
    match *first {
        Part::Value(Datum::U8(number)) => Some((*number, rest)),
        _ => None,
    }
}

// A number of `i64` that is one of 32 bits without a sign.
pub(crate) fn next_unsigned<'p, 'a, 'b>(
    list: &'p [Part<'a, 'b>],
) -> Option<(u32, &'p [Part<'a, 'b>])>
    ensures taken { option_map (λ next. (next.0, parts_view next.1.now)) result ≡ unwrap.next_unsigned (parts_view list.now) }
{
    let (first, rest) = list.split_first()?;
    match *first {
        Part::Value(Datum::I64(number)) => match u32::try_from(*number) {
            Ok(number) => Some((number, rest)),
            Err(_) => None,
        },
        _ => None,
    }
}

// A map, or a document in its bytes: what a scope is given as.
pub(crate) fn next_scope<'p, 'a, 'b>(
    list: &'p [Part<'a, 'b>],
) -> Option<(&'a Datum<'b>, &'p [Part<'a, 'b>])>
    ensures taken { option_map (λ next. (view next.0.now, parts_view next.1.now)) result ≡ unwrap.next_scope (parts_view list.now) }
    ensures scope { IfSome result (λ next. IsScope (view next.0.now)) }
    ensures size { IfSome result (λ next. IsWithin (parts_size list.now) next.0.now) }
{
    let (first, rest) = list.split_first()?;
    match *first {
        Part::Value(value) if matches!(value, Datum::Map(_) | Datum::RawDocument(_)) => {
            Some((value, rest))
        }
        _ => None,
    }
}

// The end of the list, which is accepted as this.
pub(crate) fn end_as<T: Copy>(accepted: T, list: &[Part<'_, '_>]) -> Option<T>
    ensures taken { result ≡ unwrap.end_as accepted (parts_view list.now) }
{
    list.is_empty().then_some(accepted)
}
