// The pairs of the parts of structs, tuples and variants. Each is pushed behind those before it.
ghost use Rattle.std.specs.Prelude.{◌≡◌, ◌++◌, false, option_and_then, option_copied, option_map, string_bytes, IfOk, OnOk, Some};
ghost use Rattle.bson_shape.specs.Makers.{has_repeat, AreDistinct, AreVariants, IsContent, variant_names};
ghost use Rattle.bson_shape.specs.ShapeView as view;
ghost use Rattle.bson_shape.specs.ShapeView.{fields_of, parts_of, variants_of};
ghost use Rattle.bson_laws.specs.Variants.{content_of};
ghost use Rattle.bson_laws.specs.Named as named;
ghost use Rattle.bson_evolve_laws.specs.Rows as rows;
ghost use Rattle.bson_evolve_check.specs.Steps.{answered, behind, gone, is_option, steps_view, variant_path};

use crate::step::Step;
use bson_shape::{FieldShape, Form, Shape, VariantContent, VariantShape};
use bson_slots::NameIndex;
use std::alloc::{AllocError, Global};

/// Whether each field of the old struct has its name in the new one.
pub(crate) fn are_known(alloc: Global, old: &[FieldShape], new: &[FieldShape]) -> bool
    requires { AreDistinct (fields_of new.now) }
    ensures { result ≡ rows.are_known (fields_of old.now) (fields_of new.now) }
{
    let mut index = NameIndex::new(new);
    for field in old {
        if !is_field(alloc, &mut index, field.name.as_str()) {
            return false;
        }
    }
    true
}

/// Whether a field has the name.
pub fn is_field(alloc: Global, index: &mut NameIndex<'_, FieldShape>, name: &str) -> bool
    ensures is { result ≡ named.has (fields_of index.old.items.now) name.now }
    ensures items { index.new.items ≡ index.old.items }
{
    match index.place_of(alloc, name) {
        Some(_) => true,
        None => false,
    }
}

/// The shape of the field of a name.
pub fn shape_of<'s>(
    alloc: Global,
    index: &mut NameIndex<'s, FieldShape>,
    name: &str,
) -> Option<&'s Shape>
    ensures found { option_copied result ≡ named.form_of (fields_of index.old.items.now) name.now }
    ensures items { index.new.items ≡ index.old.items }
{
    let items = index.items;
    match index.place_of(alloc, name) {
        Some(place) => Some(&items[place].shape),
        None => None,
    }
}

/// The content of the variant of a name.
pub fn content_of<'s>(
    alloc: Global,
    index: &mut NameIndex<'s, VariantShape>,
    name: &str,
) -> Option<&'s VariantContent>
    ensures found { option_map view.content_of (option_copied result) ≡ content_of (variants_of index.old.items.now) name.now }
    ensures items { index.new.items ≡ index.old.items }
{
    let items = index.items;
    match index.place_of(alloc, name) {
        Some(place) => Some(&items[place].content),
        None => None,
    }
}

/// Each field of the new struct with that of its name in the old one. Whether each that the old one lacks is an option.
///
/// # Errors
///
/// Memory ran out.
pub(crate) fn push_struct<'s>(
    alloc: Global,
    variant: Option<&'s str>,
    old: &'s [FieldShape],
    new: &'s [FieldShape],
    steps: &mut Vec<Step<'s>>,
) -> Result<bool, AllocError>
    requires { AreDistinct (fields_of old.now) }
    ensures { IfOk result (λ passes. answered passes (steps_view steps.new.items) ≡ behind (steps_view steps.old.items) (rows.struct_row (variant_path variant.entry) (fields_of old.now) (fields_of new.now))) }
{
    let mut index = NameIndex::new(old);
    for field in new {
        if !push_field(alloc, variant, &mut index, field, steps)? {
            return Ok(false);
        }
    }
    Ok(true)
}

// A field of the new struct with that of its name in the old one. Whether the old one has it, or it is an option.
fn push_field<'s>(
    alloc: Global,
    variant: Option<&'s str>,
    index: &mut NameIndex<'s, FieldShape>,
    field: &'s FieldShape,
    steps: &mut Vec<Step<'s>>,
) -> Result<bool, AllocError>
    ensures row { IfOk result (λ passes. (others : rows.Answer) → gone passes (steps_view steps.new.items) others ≡ behind (steps_view steps.old.items)
        (option_and_then (rows.field_row (variant_path variant.entry) (string_bytes field.now.name) (named.form_of (fields_of index.old.items.now) (string_bytes field.now.name)) field.now.shape) others)) }
    ensures items { index.new.items ≡ index.old.items }
{
    let name = field.name.as_str();
    match shape_of(alloc, index, name) {
        Some(shape) => {
            steps.push(Step::at_key(variant, name, shape, &field.shape))?;
            Ok(true)
        }
        None => Ok(is_option(&field.shape)),
    }
}

/// Whether the shape is an option itself.
pub fn is_option(shape: &Shape) -> bool
    ensures { result ≡ is_option shape.now }
{
    matches!(shape.form(), Form::Option(_))
}

/// The items one by one. Whether there are as many of the one as of the other.
///
/// # Errors
///
/// Memory ran out.
pub(crate) fn push_items<'s>(
    variant: Option<&'s str>,
    old: &'s [Shape],
    new: &'s [Shape],
    steps: &mut Vec<Step<'s>>,
) -> Result<bool, AllocError>
    ensures { IfOk result (λ passes. answered passes (steps_view steps.new.items) ≡ behind (steps_view steps.old.items) (rows.parts_row (variant_path variant.entry) 0 (parts_of old.now) (parts_of new.now))) }
{
    if old.len() != new.len() {
        return Ok(false);
    }
    for (i, shape) in old.iter().enumerate() {
        steps.push(Step::at_index(variant, i, shape, &new[i]))?;
    }
    Ok(true)
}

/// Each item with one new part.
///
/// # Errors
///
/// Memory ran out.
pub(crate) fn push_each_item<'s>(
    variant: Option<&'s str>,
    old: &'s [Shape],
    new: &'s Shape,
    steps: &mut Vec<Step<'s>>,
) -> Result<(), AllocError>
    ensures { OnOk result (steps_view steps.new.items ≡ steps_view steps.old.items ++ rows.each_part (variant_path variant.entry) 0 (parts_of old.now) new.now) }
{
    for (i, shape) in old.iter().enumerate() {
        steps.push(Step::at_index(variant, i, shape, new))?;
    }
    Ok(())
}

/// Each field with one new part.
///
/// # Errors
///
/// Memory ran out.
pub(crate) fn push_each_field<'s>(
    variant: Option<&'s str>,
    old: &'s [FieldShape],
    new: &'s Shape,
    steps: &mut Vec<Step<'s>>,
) -> Result<(), AllocError>
    ensures { OnOk result (steps_view steps.new.items ≡ steps_view steps.old.items ++ rows.each_field (variant_path variant.entry) (fields_of old.now) new.now) }
{
    for field in old {
        steps.push(Step::at_key(variant, field.name.as_str(), &field.shape, new))?;
    }
    Ok(())
}

/// The content of each old variant with that of the new one of its name. Whether each has one, of the same class.
///
/// # Errors
///
/// Memory ran out.
pub(crate) fn push_enum<'s>(
    alloc: Global,
    old: &'s [VariantShape],
    new: &'s [VariantShape],
    steps: &mut Vec<Step<'s>>,
) -> Result<bool, AllocError>
    requires old { AreVariants (variants_of old.now) }
    requires new { has_repeat (variant_names (variants_of new.now)) ≡ false }
    ensures { IfOk result (λ passes. answered passes (steps_view steps.new.items) ≡ behind (steps_view steps.old.items) (rows.enum_row (variants_of old.now) (variants_of new.now))) }
{
    let mut index = NameIndex::new(new);
    for variant in old {
        if !push_variant(alloc, &mut index, variant, steps)? {
            return Ok(false);
        }
    }
    Ok(true)
}

// The content of an old variant with that of the new one of its name. Whether there is one, of the same class, and they pass.
fn push_variant<'s>(
    alloc: Global,
    index: &mut NameIndex<'s, VariantShape>,
    variant: &'s VariantShape,
    steps: &mut Vec<Step<'s>>,
) -> Result<bool, AllocError>
    requires { IsContent (view.content_of variant.now.content) }
    ensures row { IfOk result (λ passes. (others : rows.Answer) → gone passes (steps_view steps.new.items) others ≡ behind (steps_view steps.old.items)
        (rows.and_also (rows.content_row (string_bytes variant.now.name) (view.content_of variant.now.content) (content_of (variants_of index.old.items.now) (string_bytes variant.now.name))) others)) }
    ensures items { index.new.items ≡ index.old.items }
{
    let name = variant.name.as_str();
    match content_of(alloc, index, name) {
        Some(content) => {
            let passes = push_content(alloc, name, &variant.content, content, steps)?;
            Ok(passes)
        }
        None => Ok(false),
    }
}

/// The parts of the content of a variant of this name, one by one. Whether both are of the same class, and pass.
///
/// # Errors
///
/// Memory ran out.
pub fn push_content<'s>(
    alloc: Global,
    name: &'s str,
    old: &'s VariantContent,
    new: &'s VariantContent,
    steps: &mut Vec<Step<'s>>,
) -> Result<bool, AllocError>
    requires { IsContent (view.content_of old.now) }
    ensures { IfOk result (λ passes. answered passes (steps_view steps.new.items) ≡ behind (steps_view steps.old.items) (rows.content_row name.now (view.content_of old.now) (Some (view.content_of new.now)))) }
{
    match old {
        VariantContent::Unit => Ok(matches!(new, VariantContent::Unit)),
        VariantContent::Newtype(inner) => match new {
            VariantContent::Newtype(value) => {
                steps.push(Step::in_variant(name, inner, value))?;
                Ok(true)
            }
            VariantContent::Unit | VariantContent::Tuple(_) | VariantContent::Struct(_) => {
                Ok(false)
            }
        },
        VariantContent::Tuple(items) => match new {
            VariantContent::Tuple(parts) => push_items(Some(name), items, parts, steps),
            VariantContent::Unit | VariantContent::Newtype(_) | VariantContent::Struct(_) => {
                Ok(false)
            }
        },
        VariantContent::Struct(fields) => match new {
            VariantContent::Struct(news) => push_struct(alloc, Some(name), fields, news, steps),
            VariantContent::Unit | VariantContent::Newtype(_) | VariantContent::Tuple(_) => {
                Ok(false)
            }
        },
    }
}

/// Each part of each content with one new part.
///
/// # Errors
///
/// Memory ran out.
pub(crate) fn push_each_content<'s>(
    old: &'s [VariantShape],
    new: &'s Shape,
    steps: &mut Vec<Step<'s>>,
) -> Result<(), AllocError>
    ensures { OnOk result (steps_view steps.new.items ≡ steps_view steps.old.items ++ rows.each_content (variants_of old.now) new.now) }
{
    for variant in old {
        push_each_part(variant.name.as_str(), &variant.content, new, steps)?;
    }
    Ok(())
}

// Each part of the content of a variant of this name with one new part.
fn push_each_part<'s>(
    name: &'s str,
    old: &'s VariantContent,
    new: &'s Shape,
    steps: &mut Vec<Step<'s>>,
) -> Result<(), AllocError>
    ensures { OnOk result (steps_view steps.new.items ≡ steps_view steps.old.items ++ rows.each_in_content name.now (view.content_of old.now) new.now) }
{
    match old {
        VariantContent::Unit => Ok(()),
        VariantContent::Newtype(inner) => {
            steps.push(Step::in_variant(name, inner, new))?;
            Ok(())
        }
        VariantContent::Tuple(items) => push_each_item(Some(name), items, new, steps),
        VariantContent::Struct(fields) => push_each_field(Some(name), fields, new, steps),
    }
}
