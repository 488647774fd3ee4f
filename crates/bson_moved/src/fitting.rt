// Whether a tree is a value at a shape.
ghost use Rattle.std.specs.Prelude.{◌≡◌, true, is_some, IsTrue};
ghost use Rattle.std.specs.Option.{option_map};
ghost use Rattle.bson_shape.specs.ShapeView.{fields_of};
ghost use Rattle.bson_base.specs.BsonView.{tree_of, trees_of, pairs_of};
ghost use Rattle.bson_laws.specs.Views.{views, views_at, views_fields, views_items, views_leaf, absent};
ghost use Rattle.bson_laws.specs.Leaves.{leaf_kind};

use crate::numbers::{is_null, is_number};
use bson_base::{Bson, Document};
use bson_shape::{FieldShape, Form, Leaf, Shape};

/// The most pairs of a document that is taken apart: each pair that is taken moves those behind it.
const MOST_PAIRS: usize = 32;

/// Whether a tree is a value at a simple shape. `false` tells nothing: it is also the answer at a shape that is not simple, and where a struct is read from a
/// document of more than 32 pairs.
#[cycle(fitting)]
#[tactic(auto, using(crate::proofs::Present::optional_present, crate::proofs::Present::structure_present, bson_base::proofs::Rows::row_items, bson_base::proofs::Rows::row_pairs))]
pub fn has_view(shape: &Shape, value: &Bson) -> bool
    ensures { IsTrue result → is_some (views shape.now (tree_of value.now)) ≡ true }
{
    match shape.form() {
        Form::Leaf(leaf) => leaf_has_view(leaf, value),
        Form::Option(inner) => is_null(value) || has_view(inner, value),
        Form::Seq(item) => match value {
            Bson::Array(values) => have_views(item, values),
            _ => false,
        },
        Form::Struct(_, fields) => match value {
            Bson::Document(document) => {
                document.len() <= MOST_PAIRS && fields_have_views(fields, document)
            }
            _ => false,
        },
        _ => false,
    }
}

// Whether each of these values is one at the shape.
#[cycle(fitting)]
#[tactic(auto, using(crate::proofs::Present::item_present))]
fn have_views(item: &Shape, values: &[Bson]) -> bool
    ensures { IsTrue result → is_some (views_items (views item.now) (trees_of values.now)) ≡ true }
{
    for value in values {
        if !has_view(item, value) {
            return false;
        }
    }
    true
}

// Whether each field has a value in the document, or may be missing.
#[cycle(fitting)]
#[tactic(auto, using(crate::proofs::Present::field_present))]
fn fields_have_views(fields: &[FieldShape], document: &Document) -> bool
    ensures { IsTrue result → is_some (views_fields (fields_of fields.now) (pairs_of document.now)) ≡ true }
{
    for field in fields {
        if !field_has_view(&field.shape, document.get(field.name.as_str())) {
            return false;
        }
    }
    true
}

// Whether the value at the name of a field is one at its shape, or the field may be missing.
#[cycle(fitting)]
fn field_has_view(shape: &Shape, value: Option<&Bson>) -> bool
    ensures { IsTrue result → is_some (views_at (views shape.now) (absent shape.now) (option_map (λ b. tree_of b.now) value.entry)) ≡ true }
{
    match value {
        Some(value) => has_view(shape, value),
        None => matches!(shape.form(), Form::Option(_)),
    }
}

// Whether a tree is a value at a leaf.
#[tactic(auto, using(crate::proofs::NumberViews::number_present))]
fn leaf_has_view(leaf: Leaf, value: &Bson) -> bool
    ensures { IsTrue result → is_some (views_leaf (leaf_kind leaf) (tree_of value.now)) ≡ true }
{
    match leaf {
        Leaf::Bool => matches!(value, Bson::Boolean(_)),
        Leaf::Double => matches!(value, Bson::Double(_)),
        Leaf::String => matches!(value, Bson::String(_)),
        _ => is_number(leaf, value),
    }
}
