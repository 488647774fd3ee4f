// The reason of parts that are neither two structs nor two enums.
ghost use Rattle.std.specs.Prelude.{◌≡◌};
ghost use Rattle.bson_evolve_differences.specs.Mismatch as mismatch;
ghost use Rattle.bson_evolve_differences.specs.Views.{reason_view};

use crate::difference::Reason;
use bson_shape::{Form, Leaf, Shape};

/// Why two parts pass no row, which are neither two structs nor two enums.
pub(crate) fn reason_of(old: &Shape, new: &Shape) -> Reason
    ensures { reason_view result ≡ mismatch.reason old.now new.now }
{
    if is_nullable(old) {
        return Reason::MayBeNull;
    }
    if is_integer(old) && is_integer(new) {
        return Reason::Narrower;
    }
    if is_tuple(old) && is_tuple(new) {
        return Reason::OtherLength;
    }
    if has_keys(old) && is_map(new) {
        return Reason::OtherKeys;
    }
    Reason::NoRow
}

// Whether the shape is null or an option.
fn is_nullable(shape: &Shape) -> bool
    ensures { result ≡ mismatch.is_nullable shape.now }
{
    matches!(
        shape.form(),
        Form::Leaf(Leaf::Unit) | Form::Option(_) | Form::UnitStruct(_)
    )
}

fn is_integer(shape: &Shape) -> bool
    ensures { result ≡ mismatch.is_integer shape.now }
{
    matches!(
        shape.form(),
        Form::Leaf(
            Leaf::I8
                | Leaf::I16
                | Leaf::I32
                | Leaf::I64
                | Leaf::U8
                | Leaf::U16
                | Leaf::U32
                | Leaf::U64
        )
    )
}

fn is_tuple(shape: &Shape) -> bool
    ensures { result ≡ mismatch.is_tuple shape.now }
{
    matches!(shape.form(), Form::Tuple(_) | Form::TupleStruct(_, _))
}

// Whether the shape is one of documents that have keys of their own.
fn has_keys(shape: &Shape) -> bool
    ensures { result ≡ mismatch.has_keys shape.now }
{
    matches!(
        shape.form(),
        Form::Map(_, _) | Form::Struct(_, _) | Form::ClosedStruct(_, _) | Form::Leaf(Leaf::Document)
    )
}

fn is_map(shape: &Shape) -> bool
    ensures { result ≡ mismatch.is_map shape.now }
{
    matches!(shape.form(), Form::Map(_, _))
}
