// What a part of the list of a struct's fields has to be.
ghost use Rattle.std.specs.Prelude.{◌≡◌};
ghost use Rattle.bson_values.specs.Value as values;
ghost use Rattle.bson_datum.specs.View.{view};
ghost use Rattle.bson_laws.specs.Unwrap.{a_key, a_value};
ghost use Rattle.bson_ser_parts.specs.Places.{takes};
ghost use Rattle.bson_ser_parts.specs.PlaceView.{place_view};

use crate::base64_text::is_base64;
use bson_base::{ObjectId, integer_of_text, subtype_of_text};
use bson_datum::Datum;

// What a part of a list has to be: a key, or a value.
#[derive(Clone, Copy)]
pub(crate) enum Place {
    // This key.
    Key(&'static str),
    // One of these keys.
    KeyOf(&'static str, &'static str),
    // A text of 24 hexadecimal digits.
    ObjectId,
    // A text of a number of 64 bits.
    Number,
    // A text of standard base64.
    Base64,
    // A text of hexadecimal digits, of which the first two are a subtype.
    Subtype,
    // A text.
    Text,
    // A byte string.
    Bytes,
    // Sixteen bytes.
    Decimal,
    // A number of `u8`.
    Byte,
    // A number of `i64` that is one of 32 bits without a sign.
    Unsigned,
    // A map, or a document in its bytes.
    Scope,
}

impl Place {
    // Whether this key is what has to be here.
    pub(crate) fn takes_key(self, key: &str) -> bool
        ensures { result ≡ takes (place_view self) (a_key key.now) }
    {
        match self {
            Place::Key(name) => key == name,
            Place::KeyOf(name, other) => key == name || key == other,
            _ => false,
        }
    }

    // Whether this value, which is no struct and has one form, is what has to be here.
    pub(crate) fn takes_value(self, value: &Datum<'_>) -> bool
        ensures { result ≡ takes (place_view self) (a_value (view value.now) (view value.now)) }
    {
        match value {
            Datum::Str(text) => self.takes_text(text.as_str()),
            Datum::Bytes(bytes) => self.takes_bytes(bytes.as_bytes()),
            Datum::U8(_) => matches!(self, Place::Byte),
            Datum::I64(number) => self.takes_i64(*number),
            Datum::Map(_) | Datum::RawDocument(_) => matches!(self, Place::Scope),
            _ => false,
        }
    }

    fn takes_text(self, text: &str) -> bool
        ensures { result ≡ takes (place_view self) (a_value (values.str text.now) (values.str text.now)) }
    {
        match self {
            Place::ObjectId => ObjectId::parse_str(text).is_ok(),
            Place::Number => integer_of_text(text).is_some(),
            Place::Base64 => is_base64(text),
            Place::Subtype => subtype_of_text(text).is_some(),
            Place::Text => true,
            _ => false,
        }
    }

    fn takes_bytes(self, bytes: &[u8]) -> bool
        ensures { result ≡ takes (place_view self) (a_value (values.bytes bytes.now) (values.bytes bytes.now)) }
    {
        match self {
            Place::Bytes => true,
            Place::Decimal => bytes.len() == 16,
            _ => false,
        }
    }

    fn takes_i64(self, number: i64) -> bool
        ensures { result ≡ takes (place_view self) (let v = values.integer values.i64 number in a_value v v) }
    {
        match self {
            Place::Unsigned => u32::try_from(number).is_ok(),
            _ => false,
        }
    }
}
