// Enums: the element that names a variant, and what its contents are read from, in bytes and in a tree.
ghost use Rattle.bson_datum.specs.MarkedView.{marked};
ghost use Rattle.bson_laws.specs.Containers.{first_of};
ghost use Rattle.bson_laws.specs.FromTree as laws;
ghost use Rattle.bson_laws.specs.Variants as contents;
ghost use Rattle.bson_met.specs.Gives.{Reaches};
ghost use Rattle.bson_shape.specs.ShapeView.{variants_of};
ghost use Rattle.bson_de_parts.specs.AtKey.{IsAtKey};
ghost use Rattle.bson_de_parts.specs.Enums.{element_of, pair_of};
ghost use Rattle.bson_de_parts.specs.TreeContents.{content_items_of};

use crate::from_tree::{filled_items, only_element, tree_unit_of};
use bson_datum::Datum;
use bson_laws::Origin;
use bson_leaves::unit_of;
use bson_met::{Elements, Items, Met, Reading, Step};
use bson_shape::VariantShape;
use bson_values::{Stop, de};
use std::alloc::Global;

/// The unit variant that a text names.
pub fn unit_named<'de>(
    alloc: Global,
    origin: Origin,
    variants: &[VariantShape],
    name: &str,
) -> Reading<Datum<'de>>
    ensures exact { Reaches marked result
        (laws.unit_named origin name.now (contents.content_of (variants_of variants.now) name.now)) }
{
    match origin {
        Origin::Bytes => unit_of(alloc, variants, name),
        Origin::Tree => tree_unit_of(alloc, variants, name),
    }
}

/// The element that names the variant: the first one of a document, which in a tree is the only one.
pub fn naming_element<'de>(
    alloc: Global,
    origin: Origin,
    elements: Elements<'de>,
) -> Reading<Step<'de>>
    ensures { Reaches pair_of result (element_of origin elements.entry) }
{
    match origin {
        Origin::Bytes => first_element(alloc, elements),
        Origin::Tree => only_element(alloc, elements),
    }
}

/// The first element of a document.
fn first_element<'de>(alloc: Global, mut elements: Elements<'de>) -> Reading<Step<'de>>
    ensures { Reaches pair_of result (first_of elements.entry) }
{
    let mut step = elements.start();
    if elements.advance(alloc, &mut step)? {
        return Ok(step);
    }
    Err(Stop::here(alloc, de::Fault::EndOfStream))
}

/// What is read of the value at a key, seen from the document that has the key.
pub fn at_key<'de>(key: &str, reading: Reading<Datum<'de>>) -> Reading<Datum<'de>>
    ensures { IsAtKey key.now reading.entry result }
{
    match reading {
        Ok(value) => Ok(value),
        Err(stop) => Err(stop.under_key(key)),
    }
}

/// The elements of the array that is the contents of a tuple variant.
pub fn content_items<'de>(alloc: Global, origin: Origin, value: &Met<'de>) -> Reading<Items<'de>>
    ensures exact { Reaches (λ e. e) result (content_items_of origin value.now) }
{
    match origin {
        Origin::Bytes => value.array(alloc),
        Origin::Tree => filled_items(alloc, value),
    }
}
