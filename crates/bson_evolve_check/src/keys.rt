// Whether each key of an old document is one of a new map.
ghost use Rattle.std.specs.Prelude.{◌≡◌, false};
ghost use Rattle.bson_shape.specs.Form as form;
ghost use Rattle.bson_shape.specs.Makers.{has_repeat, variant_names};
ghost use Rattle.bson_shape.specs.ShapeView.{fields_of, variants_of};
ghost use Rattle.bson_shape.specs.declared.leaf.Leaf.{Leaf};
ghost use Rattle.bson_laws.specs.Variants as variants;
ghost use Rattle.bson_evolve_laws.specs.Rows as rows;

use crate::content::content_of;
use crate::leaves::is_text;
use crate::variants::is_unit;
use bson_shape::{FieldShape, Form, Shape, VariantShape};
use bson_slots::NameIndex;
use std::alloc::Global;

/// Whether keys of this shape are texts of any length.
pub(crate) fn are_texts(key: &Shape) -> bool
    ensures { (k : Leaf) → result ≡ rows.keys_pass (form.leaf k) key.now }
{
    match key.form() {
        Form::Leaf(leaf) => is_text(leaf),
        _ => false,
    }
}

/// Whether each key of a map with the old keys is one of a map with the new keys.
pub(crate) fn keys_pass(alloc: Global, old: &Shape, new: &Shape) -> bool
    ensures { result ≡ rows.keys_pass old.now new.now }
{
    new.known();
    match new.form() {
        Form::Leaf(leaf) => is_text(leaf),
        Form::Enum(units) => match old.form() {
            Form::Enum(names) => names_in(alloc, names, units),
            _ => false,
        },
        _ => false,
    }
}

/// Whether each name of a field is a key of a map with these keys.
pub(crate) fn names_pass(alloc: Global, fields: &[FieldShape], keys: &Shape) -> bool
    ensures { result ≡ rows.names_pass (fields_of fields.now) keys.now }
{
    keys.known();
    match keys.form() {
        Form::Leaf(leaf) => is_text(leaf),
        Form::Enum(units) => fields_in(alloc, fields, units),
        _ => false,
    }
}

// Whether each variant has the name of a unit variant of the others.
fn names_in(alloc: Global, names: &[VariantShape], units: &[VariantShape]) -> bool
    requires { has_repeat (variant_names (variants_of units.now)) ≡ false }
    ensures { result ≡ rows.names_in (variants_of names.now) (variants_of units.now) }
{
    let mut index = NameIndex::new(units);
    for variant in names {
        if !is_unit_name(alloc, &mut index, variant.name.as_str()) {
            return false;
        }
    }
    true
}

// Whether each field has the name of a unit variant.
fn fields_in(alloc: Global, fields: &[FieldShape], units: &[VariantShape]) -> bool
    requires { has_repeat (variant_names (variants_of units.now)) ≡ false }
    ensures { result ≡ rows.fields_in (fields_of fields.now) (variants_of units.now) }
{
    let mut index = NameIndex::new(units);
    for field in fields {
        if !is_unit_name(alloc, &mut index, field.name.as_str()) {
            return false;
        }
    }
    true
}

// Whether this is the name of a unit variant.
fn is_unit_name(alloc: Global, index: &mut NameIndex<'_, VariantShape>, name: &str) -> bool
    ensures is { result ≡ rows.is_unit_name (variants.content_of (variants_of index.old.items.now) name.now) }
    ensures items { index.new.items ≡ index.old.items }
{
    match content_of(alloc, index, name) {
        Some(content) => is_unit(content),
        None => false,
    }
}
