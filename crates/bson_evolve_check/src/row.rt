// The rows of compatibility, by the new shape. Both shapes are seen through.
ghost use Rattle.std.specs.Prelude.{◌≡◌, false, [], Some, IfOk};
ghost use Rattle.bson_shape.specs.Form.{leaf as leaf_form, optional};
ghost use Rattle.bson_shape.specs.Makers.{has_repeat, variant_names, AreDistinct, AreVariants};
ghost use Rattle.bson_shape.specs.ShapeView.{fields_of, parts_of, variants_of};
ghost use Rattle.bson_shape.specs.declared.leaf.Leaf.TheVariants as leaves;
ghost use Rattle.bson_laws.specs.Leaves.{leaf_kind};
ghost use Rattle.bson_evolve_laws.specs.Rows as rows;
ghost use Rattle.bson_evolve_check.specs.Steps.{answer_view, answered, is_leaf_in, steps_view};

use crate::content::{
    are_known, push_each_content, push_each_field, push_each_item, push_enum, push_items,
    push_struct,
};
use crate::keys::{are_texts, keys_pass, names_pass};
use crate::leaves::{is_free, is_in, is_in_texts, is_units};
use crate::step::{Answer, Step, Way, needs, passes_if};
use crate::variants::{are_units, no_units};
use bson_shape::{FieldShape, Form, Leaf, Shape, VariantShape};
use std::alloc::{AllocError, Global};

/// The key in the path to the values of a map.
const ANY_KEY: &str = "*";

/// The pairs of parts that must pass so that this one does; `None` where no row names it. The last shape is `bson`, which the values of a `document` are.
///
/// # Errors
///
/// Memory ran out.
pub fn row_of<'s>(
    alloc: Global,
    old: &'s Shape,
    new: &'s Shape,
    bson: &'s Shape,
) -> Result<Answer<'s>, AllocError>
    requires { bson.now ≡ leaf_form leaves.Bson }
    ensures { IfOk result (λ a. answer_view a ≡ rows.row old.now new.now) }
{
    new.known();
    match new.form() {
        Form::Leaf(leaf) => to_leaf(alloc, old, new, leaf),
        Form::Option(value) => to_option(alloc, old, new, value),
        Form::UnitStruct(_) => to_unit(alloc, old, new),
        Form::Seq(item) => to_seq(alloc, old, item),
        Form::Tuple(items) | Form::TupleStruct(_, items) => to_tuple(alloc, old, items),
        Form::Map(key, value) => to_map(alloc, old, key, value, bson),
        Form::Struct(_, fields) => to_struct(alloc, old, fields),
        Form::ClosedStruct(_, fields) => to_closed(alloc, old, fields),
        Form::Enum(variants) => to_enum(alloc, old, variants),
        Form::Lossy(_)
        | Form::Readable(_)
        | Form::Mode(_, _)
        | Form::Newtype(_, _)
        | Form::Reference(_)
        | Form::Definitions(_, _) => Ok(None),
    }
}

// A leaf, which is the new shape.
fn to_leaf<'s>(
    alloc: Global,
    old: &'s Shape,
    new: &'s Shape,
    leaf: Leaf,
) -> Result<Answer<'s>, AllocError>
    requires { new.now ≡ leaf_form leaf }
    ensures { IfOk result (λ a. answer_view a ≡ rows.to_leaf old.now new.now (leaf_kind leaf)) }
{
    match leaf {
        Leaf::Bson => Ok(passes_if(alloc, true)),
        Leaf::Document => Ok(passes_if(alloc, is_in_documents(old))),
        Leaf::Any => to_any(alloc, old, new),
        Leaf::Unit => to_unit(alloc, old, new),
        Leaf::Str | Leaf::String => Ok(passes_if(alloc, is_in_text(old))),
        leaf => Ok(passes_if(alloc, is_leaf_in(old, leaf))),
    }
}

// Whether the old shape is a leaf whose values the new leaf has.
fn is_leaf_in(old: &Shape, new: Leaf) -> bool
    ensures { result ≡ is_leaf_in old.now new }
{
    match old.form() {
        Form::Leaf(leaf) => is_in(leaf, new),
        _ => false,
    }
}

// `any`.
fn to_any<'s>(alloc: Global, old: &'s Shape, new: &'s Shape) -> Result<Answer<'s>, AllocError>
    requires { new.now ≡ leaf_form leaves.Any }
    ensures { IfOk result (λ a. answer_view a ≡ rows.to_any old.now) }
{
    match old.form() {
        Form::Leaf(leaf) => Ok(passes_if(alloc, is_free(leaf))),
        Form::Option(value) => needs(alloc, Way::here(), value, new),
        Form::UnitStruct(_) => Ok(passes_if(alloc, true)),
        Form::Seq(item) => needs(alloc, Way::index(0), item, new),
        Form::Tuple(items) | Form::TupleStruct(_, items) => each_item(alloc, items, new),
        Form::Map(_, value) => needs(alloc, Way::key(ANY_KEY), value, new),
        Form::Struct(_, fields) | Form::ClosedStruct(_, fields) => each_field(alloc, fields, new),
        Form::Enum(variants) => each_content(alloc, variants, new),
        Form::Lossy(_)
        | Form::Readable(_)
        | Form::Mode(_, _)
        | Form::Newtype(_, _)
        | Form::Reference(_)
        | Form::Definitions(_, _) => Ok(None),
    }
}

// `unit` or a unit struct, which is the new shape.
fn to_unit<'s>(alloc: Global, old: &'s Shape, new: &'s Shape) -> Result<Answer<'s>, AllocError>
    ensures { IfOk result (λ a. answer_view a ≡ rows.to_unit old.now new.now) }
{
    match old.form() {
        Form::Leaf(leaf) => Ok(passes_if(alloc, is_units(leaf))),
        Form::Option(value) => needs(alloc, Way::here(), value, new),
        Form::UnitStruct(_) => Ok(passes_if(alloc, true)),
        Form::Lossy(_)
        | Form::Readable(_)
        | Form::Mode(_, _)
        | Form::Newtype(_, _)
        | Form::Seq(_)
        | Form::Tuple(_)
        | Form::TupleStruct(_, _)
        | Form::Map(_, _)
        | Form::Struct(_, _)
        | Form::ClosedStruct(_, _)
        | Form::Enum(_)
        | Form::Reference(_)
        | Form::Definitions(_, _) => Ok(None),
    }
}

// Whether each value of the old shape is a text.
fn is_in_text(old: &Shape) -> bool
    ensures { rows.passes_if result ≡ rows.to_texts old.now }
{
    match old.form() {
        Form::Leaf(leaf) => is_in_texts(leaf),
        Form::Enum(variants) => are_units(variants),
        _ => false,
    }
}

// Whether each value of the old shape is a document.
fn is_in_documents(old: &Shape) -> bool
    ensures { rows.passes_if result ≡ rows.to_document old.now }
{
    match old.form() {
        Form::Leaf(leaf) => is_in(leaf, Leaf::Document),
        Form::Map(_, _) | Form::Struct(_, _) | Form::ClosedStruct(_, _) => true,
        Form::Enum(variants) => no_units(variants),
        _ => false,
    }
}

// An option of a value, which is the new shape.
fn to_option<'s>(
    alloc: Global,
    old: &'s Shape,
    new: &'s Shape,
    value: &'s Shape,
) -> Result<Answer<'s>, AllocError>
    requires { new.now ≡ optional value.now }
    ensures { IfOk result (λ a. answer_view a ≡ rows.to_optional old.now value.now) }
{
    match old.form() {
        Form::Leaf(leaf) => {
            if is_units(leaf) {
                return Ok(passes_if(alloc, true));
            }
            needs(alloc, Way::here(), old, value)
        }
        Form::Option(inner) => needs(alloc, Way::here(), inner, new),
        Form::UnitStruct(_) => Ok(passes_if(alloc, true)),
        Form::Lossy(_)
        | Form::Readable(_)
        | Form::Mode(_, _)
        | Form::Newtype(_, _)
        | Form::Seq(_)
        | Form::Tuple(_)
        | Form::TupleStruct(_, _)
        | Form::Map(_, _)
        | Form::Struct(_, _)
        | Form::ClosedStruct(_, _)
        | Form::Enum(_)
        | Form::Reference(_)
        | Form::Definitions(_, _) => needs(alloc, Way::here(), old, value),
    }
}

// A sequence.
fn to_seq<'s>(alloc: Global, old: &'s Shape, item: &'s Shape) -> Result<Answer<'s>, AllocError>
    ensures { IfOk result (λ a. answer_view a ≡ rows.to_sequence old.now item.now) }
{
    match old.form() {
        Form::Seq(inner) => needs(alloc, Way::index(0), inner, item),
        Form::Tuple(items) | Form::TupleStruct(_, items) => each_item(alloc, items, item),
        _ => Ok(None),
    }
}

// A tuple or a tuple struct.
fn to_tuple<'s>(alloc: Global, old: &'s Shape, new: &'s [Shape]) -> Result<Answer<'s>, AllocError>
    ensures { IfOk result (λ a. answer_view a ≡ rows.to_tuple old.now (parts_of new.now)) }
{
    match old.form() {
        Form::Tuple(items) | Form::TupleStruct(_, items) => to_items(alloc, items, new),
        _ => Ok(None),
    }
}

// The items of a tuple, of those of another one.
fn to_items<'s>(alloc: Global, old: &'s [Shape], new: &'s [Shape]) -> Result<Answer<'s>, AllocError>
    ensures { IfOk result (λ a. answer_view a ≡ rows.parts_row [] 0 (parts_of old.now) (parts_of new.now)) }
{
    let mut steps = Vec::new(alloc);
    let passes = push_items(None, old, new, &mut steps)?;
    Ok(steps_if(passes, steps))
}

// A map.
fn to_map<'s>(
    alloc: Global,
    old: &'s Shape,
    key: &'s Shape,
    value: &'s Shape,
    bson: &'s Shape,
) -> Result<Answer<'s>, AllocError>
    requires { bson.now ≡ leaf_form leaves.Bson }
    ensures { IfOk result (λ a. answer_view a ≡ rows.to_map old.now key.now value.now) }
{
    match old.form() {
        Form::Map(names, inner) => {
            if keys_pass(alloc, names, key) {
                return needs(alloc, Way::key(ANY_KEY), inner, value);
            }
            Ok(None)
        }
        Form::Struct(_, fields) | Form::ClosedStruct(_, fields) => {
            if names_pass(alloc, fields, key) {
                return each_field(alloc, fields, value);
            }
            Ok(None)
        }
        Form::Leaf(Leaf::Document) => {
            if are_texts(key) {
                return needs(alloc, Way::key(ANY_KEY), bson, value);
            }
            Ok(None)
        }
        _ => Ok(None),
    }
}

// A struct.
fn to_struct<'s>(
    alloc: Global,
    old: &'s Shape,
    new: &'s [FieldShape],
) -> Result<Answer<'s>, AllocError>
    ensures { IfOk result (λ a. answer_view a ≡ rows.to_struct old.now (fields_of new.now)) }
{
    old.known();
    match old.form() {
        Form::Struct(_, fields) | Form::ClosedStruct(_, fields) => { to_fields(alloc, fields, new) }
        _ => Ok(None),
    }
}

// A struct that denies unknown fields.
fn to_closed<'s>(
    alloc: Global,
    old: &'s Shape,
    new: &'s [FieldShape],
) -> Result<Answer<'s>, AllocError>
    requires { AreDistinct (fields_of new.now) }
    ensures { IfOk result (λ a. answer_view a ≡ rows.to_closed old.now (fields_of new.now)) }
{
    old.known();
    match old.form() {
        Form::Struct(_, fields) | Form::ClosedStruct(_, fields) => {
            if are_known(alloc, fields, new) {
                return to_fields(alloc, fields, new);
            }
            Ok(None)
        }
        _ => Ok(None),
    }
}

// The fields of a struct, of those of another one.
fn to_fields<'s>(
    alloc: Global,
    old: &'s [FieldShape],
    new: &'s [FieldShape],
) -> Result<Answer<'s>, AllocError>
    requires { AreDistinct (fields_of old.now) }
    ensures { IfOk result (λ a. answer_view a ≡ rows.struct_row [] (fields_of old.now) (fields_of new.now)) }
{
    let mut steps = Vec::new(alloc);
    let passes = push_struct(alloc, None, old, new, &mut steps)?;
    Ok(steps_if(passes, steps))
}

// An enum.
fn to_enum<'s>(
    alloc: Global,
    old: &'s Shape,
    new: &'s [VariantShape],
) -> Result<Answer<'s>, AllocError>
    requires { has_repeat (variant_names (variants_of new.now)) ≡ false }
    ensures { IfOk result (λ a. answer_view a ≡ rows.to_enum old.now (variants_of new.now)) }
{
    old.known();
    match old.form() {
        Form::Enum(variants) => to_variants(alloc, variants, new),
        _ => Ok(None),
    }
}

// The variants of an enum, of those of another one.
fn to_variants<'s>(
    alloc: Global,
    old: &'s [VariantShape],
    new: &'s [VariantShape],
) -> Result<Answer<'s>, AllocError>
    requires old { AreVariants (variants_of old.now) }
    requires new { has_repeat (variant_names (variants_of new.now)) ≡ false }
    ensures { IfOk result (λ a. answer_view a ≡ rows.enum_row (variants_of old.now) (variants_of new.now)) }
{
    let mut steps = Vec::new(alloc);
    let passes = push_enum(alloc, old, new, &mut steps)?;
    Ok(steps_if(passes, steps))
}

fn steps_if<'s>(passes: bool, steps: Vec<Step<'s>>) -> Answer<'s>
    ensures { answer_view result ≡ answered passes (steps_view steps.entry.items) }
{
    if passes { Some(steps) } else { None }
}

fn each_item<'s>(alloc: Global, old: &'s [Shape], new: &'s Shape) -> Result<Answer<'s>, AllocError>
    ensures { IfOk result (λ a. answer_view a ≡ Some (rows.each_part [] 0 (parts_of old.now) new.now)) }
{
    let mut steps = Vec::new(alloc);
    push_each_item(None, old, new, &mut steps)?;
    Ok(Some(steps))
}

fn each_field<'s>(
    alloc: Global,
    old: &'s [FieldShape],
    new: &'s Shape,
) -> Result<Answer<'s>, AllocError>
    ensures { IfOk result (λ a. answer_view a ≡ Some (rows.each_field [] (fields_of old.now) new.now)) }
{
    let mut steps = Vec::new(alloc);
    push_each_field(None, old, new, &mut steps)?;
    Ok(Some(steps))
}

fn each_content<'s>(
    alloc: Global,
    old: &'s [VariantShape],
    new: &'s Shape,
) -> Result<Answer<'s>, AllocError>
    ensures { IfOk result (λ a. answer_view a ≡ Some (rows.each_content (variants_of old.now) new.now)) }
{
    let mut steps = Vec::new(alloc);
    push_each_content(old, new, &mut steps)?;
    Ok(Some(steps))
}
