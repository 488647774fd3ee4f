// Which variants of an enum have their names alone.
ghost use Rattle.std.specs.Prelude.{◌≡◌};
ghost use Rattle.bson_shape.specs.Makers as makers;
ghost use Rattle.bson_shape.specs.ShapeView.{content_of, variants_of};
ghost use Rattle.bson_evolve_laws.specs.Rows as rows;

use bson_shape::{VariantContent, VariantShape};

/// Whether a variant with this content has its name alone.
pub(crate) fn is_unit(content: &VariantContent) -> bool
    ensures { result ≡ makers.is_unit (content_of content.now) }
{
    matches!(content, VariantContent::Unit)
}

/// Whether each variant has its name alone.
pub(crate) fn are_units(variants: &[VariantShape]) -> bool
    ensures { result ≡ makers.are_units (variants_of variants.now) }
{
    for variant in variants {
        if !is_unit(&variant.content) {
            return false;
        }
    }
    true
}

/// Whether each variant has more than its name.
pub(crate) fn no_units(variants: &[VariantShape]) -> bool
    ensures { result ≡ rows.no_units (variants_of variants.now) }
{
    for variant in variants {
        if is_unit(&variant.content) {
            return false;
        }
    }
    true
}
