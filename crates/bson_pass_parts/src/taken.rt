// What the pass takes of a value, before any of it is written.
ghost use Rattle.std.specs.Prelude.{◌≡◌};
ghost use Rattle.bson_pass_parts.specs.Free.{takes_keys};

use crate::named::named_variant;
use crate::owned::borrows_nothing_in;
use bson_base::BinarySubtype;
use bson_kinds::ElementType;
use bson_laws::Reader;
use bson_rawdoc::RawBsonRef;
use bson_rawdoc::reading::inside;
use bson_shape::{FieldShape, Form, Leaf, Shape, VariantContent, VariantShape};

/// Whether the pass takes a value at a shape, as far as the shape and the kind of the value tell. It answers for the cost alone: any answer is right.
#[cycle(taken)]
pub fn is_taken(reader: &Reader<'_>, shape: &Shape, value: &RawBsonRef<'_>) -> bool {
    match shape.form() {
        Form::Leaf(leaf) => is_taken_at(leaf, value),
        Form::Option(inner) => match value {
            RawBsonRef::Null => true,
            _ => is_taken(reader, inner, value),
        },
        Form::Newtype(_, inner) => is_taken(reader, inner, value),
        Form::Seq(_) | Form::Tuple(_) | Form::TupleStruct(_, _) => {
            matches!(value, RawBsonRef::Array(_))
        }
        Form::Map(key, _) => match key.form() {
            Form::Leaf(key) => takes_keys(key) && matches!(value, RawBsonRef::Document(_)),
            _ => false,
        },
        Form::Struct(_, _) | Form::ClosedStruct(_, _) => matches!(value, RawBsonRef::Document(_)),
        Form::UnitStruct(_) => matches!(value, RawBsonRef::Null),
        Form::Enum(variants) => match value {
            RawBsonRef::String(_) => true,
            RawBsonRef::Document(document) => names_taken(variants, document.as_bytes()),
            _ => false,
        },
        Form::Lossy(inner) => {
            borrows_nothing_in(reader.table, inner) && is_taken(reader, inner, value)
        }
        Form::Reference(name) => is_reference_taken(reader, name, value),
        Form::Definitions(table, inner) => is_taken_inside(reader, table, inner, value),
        Form::Readable(_) | Form::Mode(_, _) => false,
    }
}

// The same at a reference: its definition is looked up.
#[cycle(taken)]
fn is_reference_taken(reader: &Reader<'_>, name: &str, value: &RawBsonRef<'_>) -> bool {
    match reader.definition(name) {
        Some(definition) => is_taken(&definition.reader, definition.shape, value),
        None => false,
    }
}

// The same at a shape in these definitions.
#[cycle(taken)]
fn is_taken_inside(
    reader: &Reader<'_>,
    table: &[FieldShape],
    inner: &Shape,
    value: &RawBsonRef<'_>,
) -> bool {
    is_taken(&reader.inside(table), inner, value)
}

/// The same for the document in these bytes at an enum: its first key names a variant with contents of the kind of its value.
pub fn names_taken(variants: &[VariantShape], bytes: &[u8]) -> bool {
    if bytes.len() < 5 {
        return false;
    }
    let Some((variant, kind, _)) = named_variant(variants, inside(bytes)) else {
        return false;
    };
    match variant.content {
        VariantContent::Unit => false,
        VariantContent::Newtype(_) => true,
        VariantContent::Tuple(_) => matches!(kind, ElementType::Array),
        VariantContent::Struct(_) => matches!(kind, ElementType::EmbeddedDocument),
    }
}

/// The same at a leaf.
#[inline(always)]
pub(crate) fn is_taken_at(leaf: Leaf, value: &RawBsonRef<'_>) -> bool {
    match value {
        RawBsonRef::Int32(_) | RawBsonRef::Int64(_) => is_integer(leaf),
        RawBsonRef::String(_) => takes_keys(leaf),
        RawBsonRef::ObjectId(_) => matches!(leaf, Leaf::ObjectId),
        RawBsonRef::DateTime(_) => matches!(leaf, Leaf::DateTime),
        RawBsonRef::Decimal128(_) => matches!(leaf, Leaf::Decimal128),
        RawBsonRef::Timestamp(_) => matches!(leaf, Leaf::Timestamp),
        RawBsonRef::Binary { subtype, .. } => is_binary(leaf, *subtype),
        RawBsonRef::Boolean(_) => matches!(leaf, Leaf::Bool),
        RawBsonRef::Double(_) => matches!(leaf, Leaf::Double),
        RawBsonRef::Null => matches!(leaf, Leaf::Unit),
        _ => false,
    }
}

/// Whether a leaf is of an integer type.
#[inline(always)]
pub fn is_integer(leaf: Leaf) -> bool {
    matches!(
        leaf,
        Leaf::I8 | Leaf::I16 | Leaf::I32 | Leaf::I64 | Leaf::U8 | Leaf::U16 | Leaf::U32 | Leaf::U64
    )
}

/// Whether a leaf takes binaries of a subtype as they are. The old subtype 2 has a second length.
fn is_binary(leaf: Leaf, subtype: BinarySubtype) -> bool {
    match leaf {
        Leaf::Binary => subtype.0 != 2,
        Leaf::Bytes | Leaf::ByteBuf => subtype.0 == 0,
        Leaf::Uuid => subtype.0 == 4,
        _ => false,
    }
}

/// Whether a leaf takes every key as it is.
pub fn takes_keys(key: Leaf) -> bool
    ensures { result ≡ takes_keys key }
{
    matches!(key, Leaf::Str | Leaf::String)
}
