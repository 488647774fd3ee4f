// Numbers as values of integer types.
ghost use Rattle.std.specs.Prelude.{◌≡◌, is_some, IfSome};
ghost use Rattle.std.specs.Option.{option_map};
ghost use Rattle.bson_datum.specs.Borrowed.{IsOwned};
ghost use Rattle.bson_datum.specs.View.{view};
ghost use Rattle.bson_laws.specs.Leaves.{leaf_kind};
ghost use Rattle.bson_base.specs.BsonView.{tree_of};
ghost use Rattle.bson_moved.specs.Numbers as numbers;
ghost use Rattle.bson_moved.specs.Numbers.{integer_in, number_at, number_view};

use bson_base::Bson;
use bson_datum::Datum;
use bson_shape::Leaf;

/// Whether a tree is a number at a leaf of numbers that lies in the leaf's range.
pub(crate) fn is_number(leaf: Leaf, value: &Bson) -> bool
    ensures { result ≡ is_some (number_view (leaf_kind leaf) (tree_of value.now)) }
{
    match integer_in(value) {
        Some(number) => is_in_range(leaf, number),
        None => false,
    }
}

// Whether the number lies in the range of the leaf's type.
fn is_in_range(leaf: Leaf, number: i64) -> bool
    ensures { result ≡ is_some (number_at (leaf_kind leaf) number) }
{
    match leaf {
        Leaf::I8 => i8::try_from(number).is_ok(),
        Leaf::I16 => i16::try_from(number).is_ok(),
        Leaf::I32 => i32::try_from(number).is_ok(),
        Leaf::I64 => true,
        Leaf::U8 => u8::try_from(number).is_ok(),
        Leaf::U16 => u16::try_from(number).is_ok(),
        Leaf::U32 => u32::try_from(number).is_ok(),
        Leaf::U64 => number >= 0,
        _ => false,
    }
}

// The number as a value of the leaf's type, where it lies in its range.
fn narrowed<'x>(leaf: Leaf, number: i64) -> Option<Datum<'x>>
    ensures exact { option_map view result ≡ number_at (leaf_kind leaf) number }
    ensures owned { IfSome result IsOwned }
{
    match leaf {
        Leaf::I8 => Some(Datum::I8(i8::try_from(number).ok()?)),
        Leaf::I16 => Some(Datum::I16(i16::try_from(number).ok()?)),
        Leaf::I32 => Some(Datum::I32(i32::try_from(number).ok()?)),
        Leaf::I64 => Some(Datum::I64(number)),
        Leaf::U8 => Some(Datum::U8(u8::try_from(number).ok()?)),
        Leaf::U16 => Some(Datum::U16(u16::try_from(number).ok()?)),
        Leaf::U32 => Some(Datum::U32(u32::try_from(number).ok()?)),
        Leaf::U64 => Some(Datum::U64(u64::try_from(number).ok()?)),
        _ => None,
    }
}

// The number of an Int32 or an Int64; `None` for every other tree.
fn integer_in(value: &Bson) -> Option<i64>
    ensures { result ≡ integer_in (tree_of value.now) }
{
    match value {
        Bson::Int32(number) => Some(i64::from(*number)),
        Bson::Int64(number) => Some(*number),
        _ => None,
    }
}

/// The number that a tree is at a leaf of numbers, where it lies in the leaf's range.
pub(crate) fn number<'x>(leaf: Leaf, value: &Bson) -> Option<Datum<'x>>
    ensures exact { option_map view result ≡ number_view (leaf_kind leaf) (tree_of value.now) }
    ensures owned { IfSome result IsOwned }
{
    narrowed(leaf, integer_in(value)?)
}

// Whether a tree is null.
pub(crate) fn is_null(value: &Bson) -> bool
    ensures { result ≡ numbers.is_null (tree_of value.now) }
{
    match value {
        Bson::Null => true,
        _ => false,
    }
}
