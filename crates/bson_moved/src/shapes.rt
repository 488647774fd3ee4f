// The shapes at which values are moved out of a tree.
ghost use Rattle.std.specs.Prelude.{◌≡◌};
ghost use Rattle.bson_shape.specs.ShapeView.{fields_of};
ghost use Rattle.bson_kinds.specs.Text as texts;
ghost use Rattle.bson_moved.specs.Simple as simple;

use bson_base::has_zero;
use bson_kinds::begins_with_dollar;
use bson_shape::{FieldShape, Form, Leaf, Shape};

/// Whether a shape is made of numbers, booleans, texts, options, sequences and structs of free names alone. A struct that denies unknown fields is none.
#[cycle(simple)]
pub fn is_simple(shape: &Shape) -> bool
    ensures { result ≡ simple.is_simple shape.now }
{
    match shape.form() {
        Form::Leaf(leaf) => is_simple_leaf(leaf),
        Form::Option(inner) | Form::Seq(inner) => is_simple(inner),
        Form::Struct(name, fields) => is_free_name(name) && are_simple(fields),
        _ => false,
    }
}

// Whether the fields of a struct have free names and simple shapes.
#[cycle(simple)]
fn are_simple(fields: &[FieldShape]) -> bool
    ensures { result ≡ simple.are_simple (fields_of fields.now) }
{
    for field in fields {
        if !is_free_name(field.name.as_str()) || !is_simple(&field.shape) {
            return false;
        }
    }
    true
}

// Whether a leaf takes numbers, booleans or texts, which are owned.
fn is_simple_leaf(leaf: Leaf) -> bool
    ensures { result ≡ simple.is_simple_leaf leaf }
{
    matches!(
        leaf,
        Leaf::Bool
            | Leaf::I8
            | Leaf::I16
            | Leaf::I32
            | Leaf::I64
            | Leaf::U8
            | Leaf::U16
            | Leaf::U32
            | Leaf::U64
            | Leaf::Double
            | Leaf::String
    )
}

// Whether a name does not begin with `$` and holds no zero character.
pub(crate) fn is_free_name(name: &str) -> bool
    ensures { result ≡ texts.is_free_name name.now }
{
    !has_zero(name) && !begins_with_dollar(name)
}
