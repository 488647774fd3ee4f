ghost use Rattle.std.specs.Prelude.{◌≡◌};
ghost use Rattle.std.specs.Option.{option_map};
ghost use Rattle.bson_datum.specs.Access as access;
ghost use Rattle.bson_datum.specs.View.{view, items_view, entries_view, fields_view};

use crate::{Datum, Entry, Field};
use bson_base::Double;

/// What is asked of a value whose form the caller knows. Each result is borrowed or a number, and takes no memory.
///
/// None of them looks through an optional value or a newtype struct: match `Datum::Some` and `Datum::NewtypeStruct` first.
impl<'a> Datum<'a> {
    /// The value of a field of a struct, or of a variant with fields, by its name; `None` where no field has it, and at every other form.
    pub fn field(&self, name: &str) -> Option<&Datum<'a>>
        ensures field { option_map (λ d. view d.now) result ≡ access.field name.now (view self.now) }
    {
        match self {
            Datum::Struct { fields, .. } => field_named(name, fields),
            Datum::StructVariant { fields, .. } => field_named(name, fields),
            _ => None,
        }
    }

    /// The value at a key of a map: of the first entry whose key is this text; `None` where no entry has it, and at every other form.
    #[tactic(auto, using(crate::proofs::Views::entry_rows_items))]
    pub fn get(&self, key: &str) -> Option<&Datum<'a>>
        ensures get { option_map (λ d. view d.now) result ≡ access.get key.now (view self.now) }
    {
        match self {
            Datum::Map(entries) => value_at(key, entries),
            _ => None,
        }
    }

    /// The text of a `Str`, whoever owns it; `None` at every other form.
    pub fn as_str(&self) -> Option<&str>
        ensures text { option_map (λ t. t.now) result ≡ access.as_str (view self.now) }
    {
        match self {
            Datum::Str(text) => Some(text.as_str()),
            _ => None,
        }
    }

    /// The truth value of a `Bool`; `None` at every other form.
    pub fn as_bool(&self) -> Option<bool>
        ensures boolean { result ≡ access.as_bool (view self.now) }
    {
        match self {
            Datum::Bool(truth) => Some(*truth),
            _ => None,
        }
    }

    /// The number of a `Double`; `None` at every other form.
    pub fn as_double(&self) -> Option<Double>
        ensures double { option_map (λ d. d.0) result ≡ access.as_double (view self.now) }
    {
        match self {
            Datum::Double(number) => Some(*number),
            _ => None,
        }
    }

    /// The number of an integer of any type; `None` at a `U64` above 9223372036854775807, and at every other form.
    pub fn as_i64(&self) -> Option<i64>
        ensures number { result ≡ access.as_i64 (view self.now) }
    {
        match self {
            Datum::I8(number) => Some(i64::from(*number)),
            Datum::I16(number) => Some(i64::from(*number)),
            Datum::I32(number) => Some(i64::from(*number)),
            Datum::I64(number) => Some(*number),
            Datum::U8(number) => Some(i64::from(*number)),
            Datum::U16(number) => Some(i64::from(*number)),
            Datum::U32(number) => Some(i64::from(*number)),
            Datum::U64(number) => i64::try_from(*number).ok(),
            _ => None,
        }
    }

    /// The bytes of a `Bytes`, whoever owns them; `None` at every other form.
    pub fn as_bytes(&self) -> Option<&[u8]>
        ensures bytes { option_map (λ b. b.now) result ≡ access.as_bytes (view self.now) }
    {
        match self {
            Datum::Bytes(bytes) => Some(bytes.as_bytes()),
            _ => None,
        }
    }

    /// The items of a `Seq`, or of a tuple, a tuple struct or a variant with values by their positions; `None` at every other form.
    #[tactic(auto, using(crate::proofs::Views::item_rows_items))]
    pub fn as_seq(&self) -> Option<&[Datum<'a>]>
        ensures items { option_map (λ is. items_view is.now) result ≡ access.as_seq (view self.now) }
    {
        match self {
            Datum::Seq(items) => Some(items),
            Datum::Tuple(items) => Some(items),
            Datum::TupleStruct { items, .. } => Some(items),
            Datum::TupleVariant { items, .. } => Some(items),
            _ => None,
        }
    }
}

// The value of the first field of this name.
fn field_named<'d, 'a>(name: &str, fields: &'d [Field<'a>]) -> Option<&'d Datum<'a>>
    ensures { option_map (λ d. view d.now) result ≡ access.field_named name.now (fields_view fields.now) }
{
    for field in fields {
        if name == field.name.as_str() {
            return Some(&field.value);
        }
    }
    None
}

// The value of the first entry whose key is this text.
fn value_at<'d, 'a>(key: &str, entries: &'d [Entry<'a>]) -> Option<&'d Datum<'a>>
    ensures { option_map (λ d. view d.now) result ≡ access.value_at key.now (entries_view entries.now) }
{
    for entry in entries {
        if is_text(key, &entry.key) {
            return Some(&entry.value);
        }
    }
    None
}

// Whether a key is this text.
fn is_text(key: &str, datum: &Datum<'_>) -> bool
    ensures { result ≡ access.is_text key.now (view datum.now) }
{
    match datum {
        Datum::Str(text) => key == text.as_str(),
        _ => false,
    }
}
