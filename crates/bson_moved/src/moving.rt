// Values that are moved out of a tree.
ghost use Rattle.std.specs.Prelude.{◌≡◌, true, Some, is_some, string_bytes, IfOk};
ghost use Rattle.bson_base.specs.BsonView.{tree_of, trees_of, pairs_of};
ghost use Rattle.bson_base.specs.Pairs.{lookup, without};
ghost use Rattle.bson_base.specs.Tree as trees;
ghost use Rattle.bson_shape.specs.Form.{optional, structure, dropped};
ghost use Rattle.bson_shape.specs.Makers.{AreDistinct};
ghost use Rattle.bson_shape.specs.ShapeView.{fields_of};
ghost use Rattle.bson_values.specs.TextView.{text_view};
ghost use Rattle.bson_datum.specs.Borrowed.{IsOwned, NoneBorrowed, items_borrowed, fields_borrowed, field_borrowed};
ghost use Rattle.bson_datum.specs.View.{view, items_view, fields_view};
ghost use Rattle.bson_laws.specs.Leaves.{leaf_kind};
ghost use Rattle.bson_laws.specs.Views.{views, views_at, views_leaf, views_items, views_fields, absent};
ghost use Rattle.bson_moved.specs.Numbers.{number_view};
ghost use Rattle.bson_moved.specs.Simple as simple;

use crate::numbers::{is_null, number};
use bson_base::{Bson, Document};
use bson_datum::{Datum, Field};
use bson_growing::{boxed, push};
use bson_shape::{FieldShape, Form, Leaf, Shape};
use bson_values::Text;
use std::alloc::{AllocError, Global};

/// The value that a tree is at a simple shape. Its texts, and the keys of the fields that are there, are moved out of the tree; the names of structs and of missing
/// fields are copied from the shape.
///
/// # Errors
///
/// Memory ran out.
#[cycle(take)]
#[tactic(auto, using(bson_base::proofs::Rows::row_items, bson_base::proofs::Rows::row_pairs, bson_datum::proofs::Views::item_rows_items, bson_datum::proofs::BorrowedRows::item_rows_are_borrowed))]
pub fn take<'x>(alloc: Global, shape: &Shape, value: Bson) -> Result<Datum<'x>, AllocError>
    requires simple { simple.is_simple shape.now ≡ true }
    requires view { is_some (views shape.now (tree_of value)) ≡ true }
    ensures value { IfOk result (λ d. views shape.now (tree_of value) ≡ Some (view d)) }
    ensures owned { IfOk result IsOwned }
{
    shape.known();
    match shape.form() {
        Form::Leaf(leaf) => Ok(take_leaf(leaf, value)),
        Form::Option(inner) => take_option(alloc, inner, value),
        Form::Seq(item) => match value {
            Bson::Array(values) => Ok(Datum::Seq(take_items(alloc, item, values)?)),
            _ => unreachable!(),
        },
        Form::Struct(name, fields) => match value {
            Bson::Document(document) => take_struct(alloc, name, fields, document),
            _ => unreachable!(),
        },
        _ => unreachable!(),
    }
}

// A value at a leaf.
fn take_leaf<'x>(leaf: Leaf, value: Bson) -> Datum<'x>
    requires simple { simple.is_simple_leaf leaf ≡ true }
    requires view { is_some (views_leaf (leaf_kind leaf) (tree_of value)) ≡ true }
    ensures value { views_leaf (leaf_kind leaf) (tree_of value) ≡ Some (view result) }
    ensures owned { IsOwned result }
{
    match leaf {
        Leaf::Bool => match value {
            Bson::Boolean(truth) => Datum::Bool(truth),
            _ => unreachable!(),
        },
        Leaf::Double => match value {
            Bson::Double(number) => Datum::Double(number),
            _ => unreachable!(),
        },
        Leaf::String => match value {
            Bson::String(text) => Datum::Str(Text::Owned(text)),
            _ => unreachable!(),
        },
        _ => take_number(leaf, value),
    }
}

// A number at a leaf of numbers.
fn take_number<'x>(leaf: Leaf, value: Bson) -> Datum<'x>
    requires view { is_some (number_view (leaf_kind leaf) (tree_of value)) ≡ true }
    ensures value { number_view (leaf_kind leaf) (tree_of value) ≡ Some (view result) }
    ensures owned { IsOwned result }
{
    let number = number(leaf, &value);
    drop(value);
    match number {
        Some(datum) => datum,
        None => unreachable!(),
    }
}

// A value at an option.
#[cycle(take)]
fn take_option<'x>(alloc: Global, inner: &Shape, value: Bson) -> Result<Datum<'x>, AllocError>
    requires simple { simple.is_simple inner.now ≡ true }
    requires view { is_some (views (optional inner.now) (tree_of value)) ≡ true }
    ensures value { IfOk result (λ d. views (optional inner.now) (tree_of value) ≡ Some (view d)) }
    ensures owned { IfOk result IsOwned }
{
    if is_null(&value) {
        drop(value);
        return Ok(Datum::None);
    }
    let value = take(alloc, inner, value)?;
    Ok(Datum::Some(boxed(alloc, value)?))
}

// The values of an array.
#[cycle(take)]
fn take_items<'x>(
    alloc: Global,
    item: &Shape,
    values: Vec<Bson>,
) -> Result<Vec<Datum<'x>>, AllocError>
    requires simple { simple.is_simple item.now ≡ true }
    requires views { is_some (views_items (views item.now) (trees_of values.items)) ≡ true }
    ensures values { IfOk result (λ v. views_items (views item.now) (trees_of values.items) ≡ Some (items_view v.items)) }
    ensures owned { IfOk result (λ v. NoneBorrowed (items_borrowed v.items)) }
{
    let mut items = Vec::with_capacity(alloc, values.len())?;
    for value in values {
        push(&mut items, take(alloc, item, value)?)?;
    }
    Ok(items)
}

// A struct of these fields.
#[cycle(take)]
#[tactic(auto, using(bson_datum::proofs::Views::rows_items, bson_datum::proofs::BorrowedRows::rows_are_borrowed))]
fn take_struct<'x>(
    alloc: Global,
    name: &str,
    fields: &[FieldShape],
    document: Document,
) -> Result<Datum<'x>, AllocError>
    requires distinct { AreDistinct (fields_of fields.now) }
    requires simple { simple.are_simple (fields_of fields.now) ≡ true }
    requires views { is_some (views_fields (fields_of fields.now) (pairs_of document)) ≡ true }
    ensures value { IfOk result (λ d. views (structure dropped name.now (fields_of fields.now)) (trees.document (pairs_of document)) ≡ Some (view d)) }
    ensures owned { IfOk result IsOwned }
{
    let fields = take_fields(alloc, fields, document)?;
    let name = Text::Owned(String::from_str(alloc, name)?);
    Ok(Datum::Struct { name, fields })
}

// The fields of a struct with their values.
#[cycle(take)]
fn take_fields<'x>(
    alloc: Global,
    fields: &[FieldShape],
    document: Document,
) -> Result<Vec<Field<'x>>, AllocError>
    requires distinct { AreDistinct (fields_of fields.now) }
    requires simple { simple.are_simple (fields_of fields.now) ≡ true }
    requires views { is_some (views_fields (fields_of fields.now) (pairs_of document)) ≡ true }
    ensures values { IfOk result (λ v. views_fields (fields_of fields.now) (pairs_of document) ≡ Some (fields_view v.items)) }
    ensures owned { IfOk result (λ v. NoneBorrowed (fields_borrowed v.items)) }
{
    let mut left = document;
    let mut taken = Vec::with_capacity(alloc, fields.len())?;
    for field in fields {
        push(&mut taken, take_field(alloc, field, &mut left)?)?;
    }
    Ok(taken)
}

// A field of a struct with its value; both are removed from the document.
#[cycle(take)]
fn take_field<'x>(
    alloc: Global,
    field: &FieldShape,
    document: &mut Document,
) -> Result<Field<'x>, AllocError>
    requires simple { simple.is_simple field.now.shape ≡ true }
    requires view { is_some (views_at (views field.now.shape) (absent field.now.shape) (lookup (string_bytes field.now.name) (pairs_of document.old))) ≡ true }
    ensures name { IfOk result (λ f. text_view f.name ≡ string_bytes field.now.name) }
    ensures value { IfOk result (λ f. views_at (views field.now.shape) (absent field.now.shape) (lookup (string_bytes field.now.name) (pairs_of document.old)) ≡ Some (view f.value)) }
    ensures rest { IfOk result (λ f. pairs_of document.new ≡ without (string_bytes field.now.name) (pairs_of document.old)) }
    ensures owned { IfOk result (λ f. NoneBorrowed (field_borrowed f)) }
{
    match document.remove_entry(field.name.as_str()) {
        Some((name, value)) => {
            let value = take(alloc, &field.shape, value)?;
            Ok(Field {
                name: Text::Owned(name),
                value,
            })
        }
        None => {
            let name = Text::Owned(String::from_str(alloc, field.name.as_str())?);
            Ok(Field {
                name,
                value: Datum::None,
            })
        }
    }
}
