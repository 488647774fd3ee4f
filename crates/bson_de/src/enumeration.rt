// Enums.
ghost use Rattle.std.specs.Prelude.{string_bytes};
ghost use Rattle.bson_shape.specs.Form as form;
ghost use Rattle.bson_shape.specs.Makers.{AreDistinct, AreVariants, IsContent};
ghost use Rattle.bson_shape.specs.ShapeView.{content_of, fields_of, parts_of, variants_of};
ghost use Rattle.bson_shape.specs.declared.leaf.Leaf.TheVariants as leaves;
ghost use Rattle.bson_datum.specs.MarkedView.{marked};
ghost use Rattle.bson_laws.specs.FromTree.{element_at, unit_content_at};
ghost use Rattle.bson_laws.specs.ReadsFrom.{reads_from, reads_for, slots_for, variant_for, content_for};
ghost use Rattle.bson_laws.specs.Scopes.{formed_content};
ghost use Rattle.bson_laws.specs.declared.origin.Origin.TheVariants as origins;
ghost use Rattle.bson_met.specs.Gives.{Reaches};
ghost use Rattle.bson_slots.specs.FieldSlots.{fields_marked};
ghost use Rattle.bson_de_parts.specs.Enums.{reads_contents};
ghost use Rattle.bson_de_parts.specs.TreeContents.{content_fields};

use crate::structure::{read_by_key, read_fields};
use crate::tuple::read_parts;
use crate::value::read_for;
use bson_datum::{Datum, Field};
use bson_de_parts::{at_key, content_elements, content_items, naming_element, unit_named};
use bson_laws::{Origin, Reader};
use bson_leaves::variant_of;
use bson_met::{Elements, Met, Reading, Step, Value, refused};
use bson_raw_builder::read_extended;
use bson_shape::{FieldShape, Leaf, Shape, VariantContent, VariantShape};
use bson_slots::named_struct_variant;
use bson_values::{Cause, Text};
use std::alloc::Global;

/// The value at an enum with these variants: a text names a unit variant, the first key of a document another one.
#[cycle(read)]
#[inline(never)]
pub(crate) fn read_enum<'de>(
    alloc: Global,
    reader: &Reader<'_>,
    variants: &[VariantShape],
    value: &Met<'de>,
) -> Reading<Datum<'de>>
    requires { AreVariants (variants_of variants.now) }
    ensures exact { Reaches marked result
        (reads_for reader.now (form.enumeration (variants_of variants.now)) value.now) }
{
    match value.judge(alloc)? {
        Value::String(name) => {
            let name = name.to_text(alloc)?;
            unit_named(alloc, reader.origin, variants, name.as_str())
        }
        other => {
            let elements = other.document(alloc)?;
            read_variant(alloc, reader, variants, elements)
        }
    }
}

/// The variant that the first key of a document names, with its contents. In bytes further elements stay unread; in a tree there is none.
#[cycle(read)]
fn read_variant<'de>(
    alloc: Global,
    reader: &Reader<'_>,
    variants: &[VariantShape],
    elements: Elements<'de>,
) -> Reading<Datum<'de>>
    requires { AreVariants (variants_of variants.now) }
    ensures exact { Reaches marked result
        (element_at reader.now.origin (variant_for reader.now (variants_of variants.now)) elements.entry) }
{
    let step = naming_element(alloc, reader.origin, elements)?;
    let variant = variant_of(alloc, variants, step.key.text)?;
    read_content(alloc, reader, variant, &step)
}

/// The variant with its contents, which are the value of an element. In bytes a unit variant has none, and is refused before the value is
/// looked at.
#[cycle(read)]
fn read_content<'de>(
    alloc: Global,
    reader: &Reader<'_>,
    variant: &VariantShape,
    step: &Step<'de>,
) -> Reading<Datum<'de>>
    requires { IsContent (content_of variant.now.content) }
    ensures exact { Reaches marked result
        (content_for reader.now (string_bytes variant.now.name) (content_of variant.now.content) step.now.value) }
{
    let name = variant.name.as_str();
    let value = &step.value;
    match &variant.content {
        VariantContent::Unit => unit_content(alloc, reader.origin, name, value),
        VariantContent::Newtype(shape) => {
            at_key(
                name,
                read_newtype_variant(alloc, reader, name, shape, value),
            )
        }
        VariantContent::Tuple(parts) => at_key(
            name,
            read_tuple_variant(alloc, reader, name, parts, value),
        ),
        VariantContent::Struct(fields) => {
            at_key(
                name,
                read_struct_variant(alloc, reader, name, fields, value),
            )
        }
    }
}

/// What is under the name of a unit variant: refused in bytes, dropped in a tree.
fn unit_content<'de>(
    alloc: Global,
    origin: Origin,
    name: &str,
    value: &Met<'de>,
) -> Reading<Datum<'de>>
    ensures exact { Reaches marked result
        (unit_content_at origin name.now (reads_from origin (form.leaf leaves.Bson) value.now)) }
{
    match origin {
        Origin::Bytes => Err(refused(alloc, Cause::UnitInDocument)),
        Origin::Tree => read_unit_content(alloc, name, value),
    }
}

/// The unit variant of this name, whose contents in a tree are read at `bson` and dropped.
#[inline(never)]
fn read_unit_content<'de>(alloc: Global, name: &str, value: &Met<'de>) -> Reading<Datum<'de>>
    ensures exact { Reaches marked result
        (unit_content_at origins.Tree name.now (reads_from origins.Tree (form.leaf leaves.Bson) value.now)) }
{
    drop(at_key(name, read_extended(alloc, Leaf::Bson, value))?);
    let variant = Text::Owned(String::from_str(alloc, name)?);
    Ok(Datum::UnitVariant { variant })
}

/// The newtype variant of this name, whose value has this shape.
#[cycle(read)]
fn read_newtype_variant<'de>(
    alloc: Global,
    reader: &Reader<'_>,
    name: &str,
    shape: &Shape,
    value: &Met<'de>,
) -> Reading<Datum<'de>>
    ensures exact { Reaches marked result
        (reads_contents reader.now.origin name.now (formed_content reader.now (form.newtype_content shape.now)) value.now) }
{
    let value = read_for(alloc, reader, shape, value)?;
    let value = Box::new(alloc, value)?;
    let variant = Text::Owned(String::from_str(alloc, name)?);
    Ok(Datum::NewtypeVariant { variant, value })
}

/// The tuple variant of this name, whose parts have these shapes.
#[cycle(read)]
fn read_tuple_variant<'de>(
    alloc: Global,
    reader: &Reader<'_>,
    name: &str,
    parts: &[Shape],
    value: &Met<'de>,
) -> Reading<Datum<'de>>
    ensures exact { Reaches marked result
        (reads_contents reader.now.origin name.now (formed_content reader.now (form.tuple_content (parts_of parts.now))) value.now) }
{
    let elements = content_items(alloc, reader.origin, value)?;
    let items = read_parts(alloc, reader, parts, elements)?;
    let variant = Text::Owned(String::from_str(alloc, name)?);
    Ok(Datum::TupleVariant { variant, items })
}

/// The struct variant of this name with these fields.
#[cycle(read)]
fn read_struct_variant<'de>(
    alloc: Global,
    reader: &Reader<'_>,
    name: &str,
    fields: &[FieldShape],
    value: &Met<'de>,
) -> Reading<Datum<'de>>
    requires { AreDistinct (fields_of fields.now) }
    ensures exact { Reaches marked result
        (reads_contents reader.now.origin name.now (formed_content reader.now (form.struct_content (fields_of fields.now))) value.now) }
{
    let fields = read_content_fields(alloc, reader, fields, value)?;
    Ok(named_struct_variant(alloc, name, fields)?)
}

/// The fields of a struct variant with their values.
#[cycle(read)]
fn read_content_fields<'de>(
    alloc: Global,
    reader: &Reader<'_>,
    fields: &[FieldShape],
    value: &Met<'de>,
) -> Reading<Vec<Field<'de>>>
    requires { AreDistinct (fields_of fields.now) }
    ensures exact { Reaches (λ v. fields_marked v.items) result
        (content_fields reader.now.origin (slots_for reader.now (fields_of fields.now)) value.now) }
{
    match reader.origin {
        Origin::Bytes => read_fields(alloc, reader, fields, value),
        Origin::Tree => read_tree_fields(alloc, reader, fields, value),
    }
}

/// The same of a value of a tree, which is a document.
#[cycle(read)]
fn read_tree_fields<'de>(
    alloc: Global,
    reader: &Reader<'_>,
    fields: &[FieldShape],
    value: &Met<'de>,
) -> Reading<Vec<Field<'de>>>
    requires { AreDistinct (fields_of fields.now) }
    ensures exact { Reaches (λ v. fields_marked v.items) result
        (content_fields Origin.Tree (slots_for reader.now (fields_of fields.now)) value.now) }
{
    let elements = content_elements(alloc, value)?;
    read_by_key(alloc, reader, false, fields, elements)
}
