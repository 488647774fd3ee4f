// The rows of a tree in memory: enums, whose documents have one key, and the contents of their variants.
ghost use Rattle.bson_datum.specs.MarkedView.{marked};
ghost use Rattle.bson_shape.specs.ShapeView.{variants_of};
ghost use Rattle.bson_laws.specs.FromTree.{only_of, tree_unit_of};
ghost use Rattle.bson_laws.specs.Variants.{content_of};
ghost use Rattle.bson_met.specs.ContainerView.{array_items};
ghost use Rattle.bson_met.specs.Gives.{Reaches};
ghost use Rattle.bson_de_parts.specs.Enums.{end_at, pair_of};
ghost use Rattle.bson_de_parts.specs.TreeContents.{document_elements_of, filled_items_of, not_ended};

use bson_datum::Datum;
use bson_kinds::ElementType;
use bson_leaves::variant_of;
use bson_met::{Elements, Items, Met, MetArray, Reading, Step, Value, refused};
use bson_shape::{VariantContent, VariantShape};
use bson_values::{Cause, Stop, Text, de};
use std::alloc::Global;

/// The unit variant that a text of a tree names. Where the variant has contents, the text ends before them.
#[inline(never)]
pub(crate) fn tree_unit_of<'de>(
    alloc: Global,
    variants: &[VariantShape],
    name: &str,
) -> Reading<Datum<'de>>
    ensures exact { Reaches marked result
        (tree_unit_of name.now (content_of (variants_of variants.now) name.now)) }
{
    match &variant_of(alloc, variants, name)?.content {
        VariantContent::Unit => {
            let variant = Text::Owned(String::from_str(alloc, name)?);
            Ok(Datum::UnitVariant { variant })
        }
        VariantContent::Newtype(_) | VariantContent::Tuple(_) | VariantContent::Struct(_) => {
            Err(Stop::here(alloc, de::Fault::EndOfStream))
        }
    }
}

/// The one element of a document of a tree.
#[inline(never)]
pub(crate) fn only_element<'de>(alloc: Global, mut elements: Elements<'de>) -> Reading<Step<'de>>
    ensures exact { Reaches pair_of result (only_of elements.entry) }
{
    let mut step = elements.start();
    if elements.advance(alloc, &mut step)? {
        end_of(alloc, elements)?;
        return Ok(step);
    }
    Err(refused(alloc, Cause::EmptyEnum))
}

// Nothing, where no element is left.
fn end_of(alloc: Global, mut rest: Elements<'_>) -> Reading<()>
    ensures exact { Reaches (λ u. u) result (end_at rest.entry) }
{
    let mut other = rest.start();
    if rest.advance(alloc, &mut other)? {
        let key = String::from_str(alloc, other.key.text)?;
        return Err(refused(alloc, Cause::ExtraKey(key)));
    }
    Ok(())
}

/// The elements of an array of a tree that is the contents of a tuple variant, and is not empty.
#[inline(never)]
pub(crate) fn filled_items<'de>(alloc: Global, value: &Met<'de>) -> Reading<Items<'de>>
    ensures exact { Reaches (λ e. e) result (filled_items_of value.now) }
{
    match value.judge(alloc)? {
        Value::Array(array) => items_of(alloc, array),
        other => Err(refused(alloc, Cause::InvalidType(other.kind()))),
    }
}

// The elements of an array, which is not empty.
fn items_of<'de>(alloc: Global, array: MetArray<'de>) -> Reading<Items<'de>>
    ensures exact { Reaches (λ e. e) result (not_ended (array_items array.entry)) }
{
    let mut rest = Items::of_array(array);
    let mut first = rest.start();
    if rest.advance(alloc, &mut first)? {
        return Ok(Items::of_array(array));
    }
    Err(refused(alloc, Cause::InvalidType(ElementType::Null)))
}

/// The elements of a document of a tree that is the contents of a struct variant.
#[inline(never)]
pub fn content_elements<'de>(alloc: Global, value: &Met<'de>) -> Reading<Elements<'de>>
    ensures exact { Reaches (λ e. e) result (document_elements_of value.now) }
{
    match value.judge(alloc)? {
        Value::Document(document) => Ok(Elements::of_document(document)),
        other => Err(refused(alloc, Cause::InvalidType(other.kind()))),
    }
}
