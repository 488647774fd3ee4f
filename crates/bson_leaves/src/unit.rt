// Variants by their names, and unit variants.
ghost use Rattle.bson_shape.specs.ShapeView.{variants_of};
ghost use Rattle.bson_datum.specs.MarkedView.{marked};
ghost use Rattle.bson_laws.specs.Containers as reads;
ghost use Rattle.bson_laws.specs.Variants.{content_of};
ghost use Rattle.bson_met.specs.Gives.{Reaches};
ghost use Rattle.bson_leaves.specs.Named.{variant_named};

use bson_datum::Datum;
use bson_met::{Reading, refused};
use bson_shape::{VariantContent, VariantShape};
use bson_slots::scan;
use bson_values::{Cause, Text};
use std::alloc::Global;

/// The unit variant that a text names.
#[inline(never)]
pub fn unit_of<'de>(alloc: Global, variants: &[VariantShape], name: &str) -> Reading<Datum<'de>>
    ensures exact { Reaches marked result
        (reads.unit_of name.now (content_of (variants_of variants.now) name.now)) }
{
    match &variant_of(alloc, variants, name)?.content {
        VariantContent::Unit => {
            let variant = Text::Owned(String::from_str(alloc, name)?);
            Ok(Datum::UnitVariant { variant })
        }
        VariantContent::Newtype(_) | VariantContent::Tuple(_) | VariantContent::Struct(_) => {
            Err(refused(alloc, Cause::ContentsWanted))
        }
    }
}

/// The variant that has the name.
pub fn variant_of<'s>(
    alloc: Global,
    variants: &'s [VariantShape],
    name: &str,
) -> Reading<&'s VariantShape>
    ensures { Reaches (λ v. v.now) result (variant_named variants.now name.now) }
{
    match scan(variants, name) {
        Some(place) => Ok(&variants[place]),
        None => {
            let cause = Cause::UnknownVariant(String::from_str(alloc, name)?);
            Err(refused(alloc, cause))
        }
    }
}
