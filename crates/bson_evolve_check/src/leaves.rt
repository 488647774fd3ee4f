// Which leaves have each value of another.
ghost use Rattle.std.specs.Prelude.{◌≡◌};
ghost use Rattle.bson_evolve_laws.specs.Rows as rows;
ghost use Rattle.bson_laws.specs.Leaves.{extended_values, leaf_kind, numbers, of_kind, texts};
ghost use Rattle.bson_values.specs.Value.{i32, i64};
ghost use Rattle.bson_kinds.specs.declared.element_type.ElementType.TheVariants as kinds;

use bson_shape::Leaf;

/// Whether a value of the leaf is one without a shape.
pub(crate) fn is_free(leaf: Leaf) -> bool
    ensures { result ≡ rows.is_free (leaf_kind leaf) }
{
    match leaf {
        Leaf::Any
        | Leaf::Bool
        | Leaf::I8
        | Leaf::I16
        | Leaf::I32
        | Leaf::I64
        | Leaf::U8
        | Leaf::U16
        | Leaf::U32
        | Leaf::U64
        | Leaf::Double
        | Leaf::Char
        | Leaf::Str
        | Leaf::String
        | Leaf::Bytes
        | Leaf::ByteBuf
        | Leaf::Unit => true,
        Leaf::Ignored
        | Leaf::ObjectId
        | Leaf::DateTime
        | Leaf::Binary
        | Leaf::Timestamp
        | Leaf::Regex
        | Leaf::CodeWithScope
        | Leaf::Decimal128
        | Leaf::DbPointer
        | Leaf::Uuid
        | Leaf::Bson
        | Leaf::Document
        | Leaf::RawDocument
        | Leaf::RawArray
        | Leaf::RawBson => false,
    }
}

/// Whether the leaf is null.
pub(crate) fn is_units(leaf: Leaf) -> bool
    ensures { result ≡ rows.is_units (leaf_kind leaf) }
{
    matches!(leaf, Leaf::Unit)
}

/// Whether the leaf is a text of any length.
pub(crate) fn is_text(leaf: Leaf) -> bool
    ensures { result ≡ rows.is_texts (leaf_kind leaf) }
{
    matches!(leaf, Leaf::Str | Leaf::String)
}

/// Whether a text has each value of the leaf.
pub(crate) fn is_in_texts(leaf: Leaf) -> bool
    ensures { result ≡ rows.leaf_in (leaf_kind leaf) texts }
{
    matches!(leaf, Leaf::Char | Leaf::Str | Leaf::String)
}

/// Whether the new leaf has each value of the old one.
pub(crate) fn is_in(old: Leaf, new: Leaf) -> bool
    ensures { result ≡ rows.leaf_in (leaf_kind old) (leaf_kind new) }
{
    match new {
        Leaf::Any => is_free(old),
        Leaf::Bool => matches!(old, Leaf::Bool),
        Leaf::I8 => matches!(old, Leaf::I8),
        Leaf::I16 => matches!(old, Leaf::I8 | Leaf::I16 | Leaf::U8),
        Leaf::I32 => is_in_i32(old),
        Leaf::I64 => is_in_i64(old),
        Leaf::U8 => matches!(old, Leaf::U8),
        Leaf::U16 => matches!(old, Leaf::U8 | Leaf::U16),
        Leaf::U32 => matches!(old, Leaf::U8 | Leaf::U16 | Leaf::U32),
        Leaf::U64 => matches!(old, Leaf::U8 | Leaf::U16 | Leaf::U32 | Leaf::U64),
        Leaf::Double => matches!(old, Leaf::Double),
        Leaf::Char => matches!(old, Leaf::Char),
        Leaf::Str | Leaf::String => is_in_texts(old),
        Leaf::Bytes | Leaf::ByteBuf => matches!(old, Leaf::Bytes | Leaf::ByteBuf),
        Leaf::Unit => is_units(old),
        Leaf::ObjectId => matches!(old, Leaf::ObjectId),
        Leaf::DateTime => matches!(old, Leaf::DateTime),
        Leaf::Binary => is_in_binaries(old),
        Leaf::Timestamp => matches!(old, Leaf::Timestamp),
        Leaf::Regex => matches!(old, Leaf::Regex),
        Leaf::CodeWithScope => matches!(old, Leaf::CodeWithScope),
        Leaf::Decimal128 => matches!(old, Leaf::Decimal128),
        Leaf::DbPointer => matches!(old, Leaf::DbPointer),
        Leaf::Uuid => matches!(old, Leaf::Uuid),
        Leaf::Bson => true,
        Leaf::Document => matches!(old, Leaf::Document),
        Leaf::Ignored | Leaf::RawDocument | Leaf::RawArray | Leaf::RawBson => false,
    }
}

fn is_in_i32(old: Leaf) -> bool
    ensures { result ≡ rows.leaf_in (leaf_kind old) (numbers i32) }
{
    matches!(old, Leaf::I8 | Leaf::I16 | Leaf::I32 | Leaf::U8 | Leaf::U16)
}

fn is_in_i64(old: Leaf) -> bool
    ensures { result ≡ rows.leaf_in (leaf_kind old) (numbers i64) }
{
    matches!(
        old,
        Leaf::I8 | Leaf::I16 | Leaf::I32 | Leaf::I64 | Leaf::U8 | Leaf::U16 | Leaf::U32 | Leaf::U64
    )
}

fn is_in_binaries(old: Leaf) -> bool
    ensures { result ≡ rows.leaf_in (leaf_kind old) (extended_values (of_kind kinds.Binary)) }
{
    matches!(old, Leaf::Bytes | Leaf::ByteBuf | Leaf::Binary | Leaf::Uuid)
}
