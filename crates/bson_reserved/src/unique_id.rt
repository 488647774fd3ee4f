ghost use Rattle.std.specs.Prelude.{◌≡◌, IfSome, option_map};
ghost use Rattle.bson_shape.specs.Makers.{is_reserved_newtype};
ghost use Rattle.bson_datum.specs.View.{view};
ghost use Rattle.bson_reserved.specs.AcceptedView.{uuid_view, is_of_text};
ghost use Rattle.bson_laws.specs.UuidBytes as uuid;

use bson_base::Uuid;
use bson_datum::Datum;

/// The bytes that the newtype of a UUID holds.
#[derive(Clone, Copy)]
pub enum UuidBytes<'a> {
    /// Those that its text stands for.
    Uuid(Uuid),
    /// Those that are given as they are.
    Bytes(&'a [u8]),
}

/// The bytes that the newtype of a UUID holds, where `value` is what is in it: the bytes of a byte string, or in the readable form those that a
/// text stands for; some value, newtypes of no reserved name and values with two forms may be around them. `None` where it holds none.
///
/// Source: the newtype names of MongoDB's crate `bson`, version 2, and serde's `is_human_readable`.
pub fn uuid_bytes<'a>(readable: bool, value: &'a Datum<'_>) -> Option<UuidBytes<'a>>
    ensures value { option_map uuid_view result ≡ uuid.uuid_bytes readable (view value.now) }
    // In the readable form they are those of a text, and in the compact form those of a byte string.
    ensures form { IfSome result (λ bytes. is_of_text bytes ≡ readable) }
{
    match value {
        Datum::Some(content) => uuid_bytes(readable, content),
        Datum::NewtypeStruct { name, .. } if is_reserved_newtype(name.as_str()) => None,
        Datum::NewtypeStruct { value: content, .. } => uuid_bytes(readable, content),
        Datum::Mode { readable: form, .. } if readable => uuid_bytes(readable, form),
        Datum::Mode { compact: form, .. } => uuid_bytes(readable, form),
        Datum::Str(text) if readable => match Uuid::parse_str(text.as_str()) {
            Ok(id) => Some(UuidBytes::Uuid(id)),
            Err(_) => None,
        },
        Datum::Bytes(bytes) if !readable => Some(UuidBytes::Bytes(bytes.as_bytes())),
        _ => None,
    }
}

// Whether a newtype's name is reserved: for UUIDs, and for marks of how a value is given.
fn is_reserved_newtype(name: &str) -> bool
    ensures { result ≡ is_reserved_newtype name.now }
{
    matches!(
        name,
        "$__bson_private_uuid" | "$__bson_private_human_readable" | "$__bson_private_utf8_lossy"
    )
}
