// Values at leaves: those of the kinds that a leaf takes as they are, and numbers.
ghost use Rattle.std.specs.Prelude.{◌≡◌, ◌++◌, IfSome, Some};
ghost use Rattle.std.specs.Int.{w64, cast_unsigned};
ghost use Rattle.bson_base.specs.Tree.{string, int32, int64, le64};
ghost use Rattle.bson_rawdoc.specs.Node as nodes;
ghost use Rattle.bson_kinds.specs.declared.element_type.ElementType.TheVariants as kinds;
ghost use Rattle.bson_rawdoc.specs.Node.{value_node, inner_node, node_in};
ghost use Rattle.bson_kinds.specs.Piece.{borrowed};
ghost use Rattle.bson_rawdoc.specs.ValueView.{raw_value};
ghost use Rattle.bson_shape.specs.Form as form;
ghost use Rattle.bson_pass_parts.specs.Put.{recast_node, IsPut};

use crate::binary::recast_binary;
use crate::bytes::put;
use crate::extended::{recast_decimal, recast_object_id, recast_time, recast_timestamp};
use bson_kinds::ElementType;
use bson_rawdoc::RawBsonRef;
use bson_rawdoc::reading::{int32_in, int64_in};
use bson_shape::Leaf;

/// The value at a leaf.
pub fn recast_leaf(
    made: &mut Vec<u8>,
    leaf: Leaf,
    levels: u32,
    value: &RawBsonRef<'_>,
) -> Option<ElementType>
    ensures put { IfSome result (IsPut (recast_node (form.leaf leaf) levels (value_node (inner_node levels) (raw_value value.now)))
        made.old.items made.new.items) }
{
    match value {
        RawBsonRef::Int32(number) => recast_number(made, leaf, levels, i64::from(*number)),
        RawBsonRef::Int64(number) => recast_number(made, leaf, levels, *number),
        RawBsonRef::String(text) => recast_text(made, leaf, levels, text),
        RawBsonRef::ObjectId(id) => recast_object_id(made, leaf, levels, *id),
        RawBsonRef::DateTime(time) => recast_time(made, leaf, levels, time.timestamp_millis()),
        RawBsonRef::Decimal128(decimal) => recast_decimal(made, leaf, levels, *decimal),
        RawBsonRef::Timestamp(stamp) => recast_timestamp(made, leaf, levels, *stamp),
        RawBsonRef::Binary { subtype, bytes } => {
            recast_binary(made, leaf, levels, *subtype, bytes)
        }
        RawBsonRef::Boolean(truth) => match leaf {
            Leaf::Bool => {
                put(made, &[u8::from(*truth)])?;
                Some(ElementType::Boolean)
            }
            _ => None,
        },
        RawBsonRef::Double(double) => match leaf {
            Leaf::Double => {
                put(made, &double.0)?;
                Some(ElementType::Double)
            }
            _ => None,
        },
        RawBsonRef::Null => match leaf {
            Leaf::Unit => Some(ElementType::Null),
            _ => None,
        },
        _ => None,
    }
}

/// A text at a leaf that takes texts.
fn recast_text(made: &mut Vec<u8>, leaf: Leaf, levels: u32, text: &str) -> Option<ElementType>
    ensures { IfSome result (IsPut (recast_node (form.leaf leaf) levels (nodes.string (borrowed text.now))) made.old.items made.new.items) }
{
    match leaf {
        Leaf::Str => put_text(made, text),
        Leaf::String => put_text(made, text),
        _ => None,
    }
}

/// A text: its length with the zero behind it, the text, the zero.
#[tactic(auto, unfolding(bson_base::specs::Tree::le32))]
pub(crate) fn put_text(made: &mut Vec<u8>, text: &str) -> Option<ElementType>
    ensures { IfSome result (IsPut (Some (string text.now)) made.old.items made.new.items) }
{
    let length = u32::try_from(text.len() + 1).ok()?;
    put(made, &length.to_le_bytes())?;
    put(made, text.as_bytes())?;
    put(made, &[0])?;
    Some(ElementType::String)
}

/// A number at a leaf that takes numbers of an integer type.
fn recast_number(made: &mut Vec<u8>, leaf: Leaf, levels: u32, number: i64) -> Option<ElementType>
    ensures in_four { IfSome result (IsPut (recast_node (form.leaf leaf) levels (nodes.int32 number)) made.old.items made.new.items) }
    ensures in_eight { IfSome result (IsPut (recast_node (form.leaf leaf) levels (nodes.int64 number)) made.old.items made.new.items) }
{
    match leaf {
        Leaf::I8 => put_int32(made, i32::from(i8::try_from(number).ok()?)),
        Leaf::I16 => put_int32(made, i32::from(i16::try_from(number).ok()?)),
        Leaf::I32 => put_int32(made, i32::try_from(number).ok()?),
        Leaf::U8 => put_int32(made, i32::from(u8::try_from(number).ok()?)),
        Leaf::U16 => put_int32(made, i32::from(u16::try_from(number).ok()?)),
        Leaf::U32 => put_int64(made, i64::from(u32::try_from(number).ok()?)),
        Leaf::I64 => put_int64(made, number),
        Leaf::U64 if number >= 0 => put_int64(made, number),
        _ => None,
    }
}

/// The Int32 in these bytes at a leaf.
pub fn recast_int32(
    made: &mut Vec<u8>,
    leaf: Leaf,
    levels: u32,
    bytes: &[u8],
) -> Option<ElementType>
    ensures { IfSome result (IsPut (recast_node (form.leaf leaf) levels (node_in levels kinds.Int32 bytes.now)) made.old.items made.new.items) }
{
    if bytes.len() < 4 {
        return None;
    }
    recast_number(made, leaf, levels, i64::from(int32_in(bytes)))
}

/// The Int64 in these bytes at a leaf.
pub fn recast_int64(
    made: &mut Vec<u8>,
    leaf: Leaf,
    levels: u32,
    bytes: &[u8],
) -> Option<ElementType>
    ensures { IfSome result (IsPut (recast_node (form.leaf leaf) levels (node_in levels kinds.Int64 bytes.now)) made.old.items made.new.items) }
{
    if bytes.len() < 8 {
        return None;
    }
    recast_number(made, leaf, levels, int64_in(bytes))
}

/// A number in four bytes.
#[tactic(auto, unfolding(bson_base::specs::Tree::le32))]
fn put_int32(made: &mut Vec<u8>, number: i32) -> Option<ElementType>
    ensures { IfSome result (IsPut (Some (int32 number)) made.old.items made.new.items) }
{
    put(made, &number.to_le_bytes())?;
    Some(ElementType::Int32)
}

/// A number in eight bytes.
fn put_int64(made: &mut Vec<u8>, number: i64) -> Option<ElementType>
    ensures { IfSome result (IsPut (Some (int64 number)) made.old.items made.new.items) }
{
    put_eight(made, number)?;
    Some(ElementType::Int64)
}

/// The eight bytes of a number.
#[tactic(auto, unfolding(bson_base::specs::Tree::le64))]
pub(crate) fn put_eight(made: &mut Vec<u8>, number: i64) -> Option<()>
    ensures { IfSome result (λ _. made.new.items ≡ made.old.items ++ le64 (cast_unsigned w64 number)) }
{
    put(made, &number.to_le_bytes())
}
