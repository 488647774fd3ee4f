// Values at shapes without inner shapes.
ghost use Rattle.std.specs.Prelude.{◌≡◌, false, option_map};
ghost use Rattle.bson_shape.specs.Form as form;
ghost use Rattle.bson_datum.specs.MarkedView.{marked};
ghost use Rattle.bson_laws.specs.Leaves.{leaf_kind};
ghost use Rattle.bson_laws.specs.Reads.{reads};
ghost use Rattle.bson_met.specs.Gives.{Reaches};
ghost use Rattle.bson_leaves.specs.Extended as leaves;
ghost use Rattle.bson_texts.specs.Leaves.{number_as, reads_number, null_at};

use crate::any::any_leaf;
use bson_datum::Datum;
use bson_met::{Met, Reading, Value, refused};
use bson_shape::Leaf;
use bson_texts::{borrow_bytes, borrow_text, buffer, character_leaf, ignore, own_text};
use bson_values::{ByteStr, Cause, Text};
use std::alloc::Global;

/// Whether serde's data model lacks the values of a leaf.
#[inline(always)]
pub fn is_extended(leaf: Leaf) -> bool
    ensures { result ≡ leaves.is_extended leaf }
{
    matches!(
        leaf,
        Leaf::ObjectId
            | Leaf::DateTime
            | Leaf::Binary
            | Leaf::Timestamp
            | Leaf::Regex
            | Leaf::CodeWithScope
            | Leaf::Decimal128
            | Leaf::DbPointer
            | Leaf::Uuid
            | Leaf::Bson
            | Leaf::Document
            | Leaf::RawDocument
            | Leaf::RawArray
            | Leaf::RawBson
    )
}

/// The value at a leaf of serde's data model. At `str` and `bytes` it is borrowed, at `any` what is a part of the input is; all else is
/// copied.
#[inline(always)]
pub fn read_leaf<'de>(alloc: Global, leaf: Leaf, value: &Met<'de>) -> Reading<Datum<'de>>
    requires { leaves.is_extended leaf ≡ false }
    ensures exact { Reaches marked result (reads (form.leaf leaf) value.now) }
{
    match leaf {
        Leaf::I8
        | Leaf::I16
        | Leaf::I32
        | Leaf::I64
        | Leaf::U8
        | Leaf::U16
        | Leaf::U32
        | Leaf::U64 => number(alloc, leaf, value),
        Leaf::String => owned_string(alloc, value),
        Leaf::Str => borrowed_str(alloc, value),
        Leaf::Any => any_leaf(alloc, value),
        Leaf::Bool => boolean(alloc, value),
        Leaf::Double => double(alloc, value),
        Leaf::Char => character_leaf(alloc, value),
        Leaf::Bytes => borrowed_bytes(alloc, value),
        Leaf::ByteBuf => byte_buf(alloc, value),
        Leaf::Ignored => ignored(alloc, value),
        Leaf::Unit => unit(alloc, value),
        _ => unreachable!(),
    }
}

/// The boolean that a value is.
#[inline(never)]
fn boolean<'de>(alloc: Global, value: &Met<'de>) -> Reading<Datum<'de>>
    ensures exact { Reaches marked result (reads (form.leaf Leaf.Bool) value.now) }
{
    match value.judge(alloc)? {
        Value::Boolean(boolean) => Ok(Datum::Bool(boolean)),
        other => Err(refused(alloc, Cause::InvalidType(other.kind()))),
    }
}

/// The double that a value is.
#[inline(never)]
fn double<'de>(alloc: Global, value: &Met<'de>) -> Reading<Datum<'de>>
    ensures exact { Reaches marked result (reads (form.leaf Leaf.Double) value.now) }
{
    match value.judge(alloc)? {
        Value::Double(double) => Ok(Datum::Double(double)),
        other => Err(refused(alloc, Cause::InvalidType(other.kind()))),
    }
}

/// A copy of the text that a value is.
fn owned_string<'de>(alloc: Global, value: &Met<'de>) -> Reading<Datum<'de>>
    ensures exact { Reaches marked result (reads (form.leaf Leaf.String) value.now) }
{
    let text = own_text(alloc, value)?;
    Ok(Datum::Str(Text::Owned(text)))
}

/// The text that a value is, borrowed.
fn borrowed_str<'de>(alloc: Global, value: &Met<'de>) -> Reading<Datum<'de>>
    ensures exact { Reaches marked result (reads (form.leaf Leaf.Str) value.now) }
{
    let text = borrow_text(alloc, value)?;
    Ok(Datum::Str(Text::Borrowed(text)))
}

/// The bytes that a value is, borrowed.
#[inline(never)]
fn borrowed_bytes<'de>(alloc: Global, value: &Met<'de>) -> Reading<Datum<'de>>
    ensures exact { Reaches marked result (reads (form.leaf Leaf.Bytes) value.now) }
{
    let bytes = borrow_bytes(alloc, value)?;
    Ok(Datum::Bytes(ByteStr::Borrowed(bytes)))
}

/// A copy of the bytes that a value is, or the bytes that the numbers of an array are.
#[inline(never)]
fn byte_buf<'de>(alloc: Global, value: &Met<'de>) -> Reading<Datum<'de>>
    ensures exact { Reaches marked result (reads (form.leaf Leaf.ByteBuf) value.now) }
{
    let bytes = buffer(alloc, value)?;
    Ok(Datum::Bytes(ByteStr::Owned(bytes)))
}

/// The unit, where a value is null.
#[inline(never)]
fn unit<'de>(alloc: Global, value: &Met<'de>) -> Reading<Datum<'de>>
    ensures exact { Reaches marked result (reads (form.leaf Leaf.Unit) value.now) }
{
    match null(alloc, value) {
        Ok(()) => Ok(Datum::Unit),
        Err(stop) => Err(stop),
    }
}

/// The unit, where a value can be walked to its end.
#[inline(never)]
fn ignored<'de>(alloc: Global, value: &Met<'de>) -> Reading<Datum<'de>>
    ensures exact { Reaches marked result (reads (form.leaf Leaf.Ignored) value.now) }
{
    match ignore(alloc, value) {
        Ok(()) => Ok(Datum::Unit),
        Err(stop) => Err(stop),
    }
}

/// Nothing, where a value is null.
pub fn null(alloc: Global, value: &Met<'_>) -> Reading<()>
    ensures { Reaches (λ u. u) result (null_at value.now) }
{
    match value.judge(alloc)? {
        Value::Null => Ok(()),
        other => Err(refused(alloc, Cause::InvalidType(other.kind()))),
    }
}

/// The number that a value is, at a leaf that takes numbers of an integer type.
fn number<'de>(alloc: Global, leaf: Leaf, value: &Met<'_>) -> Reading<Datum<'de>>
    ensures exact { Reaches marked result (reads_number (leaf_kind leaf) value.now) }
{
    let number = value.integer(alloc)?;
    match narrowed(leaf, number) {
        Some(datum) => Ok(datum),
        None => Err(refused(alloc, Cause::OutOfRange(number))),
    }
}

/// The number as a value of the leaf's type, where it lies in its range.
fn narrowed<'de>(leaf: Leaf, number: i64) -> Option<Datum<'de>>
    ensures exact { option_map marked result ≡ number_as (leaf_kind leaf) number }
{
    match leaf {
        Leaf::I8 => Some(Datum::I8(i8::try_from(number).ok()?)),
        Leaf::I16 => Some(Datum::I16(i16::try_from(number).ok()?)),
        Leaf::I32 => Some(Datum::I32(i32::try_from(number).ok()?)),
        Leaf::I64 => Some(Datum::I64(number)),
        Leaf::U8 => Some(Datum::U8(u8::try_from(number).ok()?)),
        Leaf::U16 => Some(Datum::U16(u16::try_from(number).ok()?)),
        Leaf::U32 => Some(Datum::U32(u32::try_from(number).ok()?)),
        Leaf::U64 => Some(Datum::U64(u64::try_from(number).ok()?)),
        _ => None,
    }
}
