// Texts at enums.
ghost use Rattle.std.specs.Prelude.{◌≡◌, IfSome};
ghost use Rattle.bson_rawdoc.specs.Node as nodes;
ghost use Rattle.bson_kinds.specs.Piece.{borrowed};
ghost use Rattle.bson_shape.specs.Form.{enumeration};
ghost use Rattle.bson_shape.specs.ShapeView.{variants_of};
ghost use Rattle.bson_laws.specs.declared.origin.Reader.{Reader};
ghost use Rattle.bson_pass_parts.specs.Free.{names_unit};
ghost use Rattle.bson_pass_parts.specs.Put.{recast_for, IsPut};

use crate::leaf::put_text;
use bson_kinds::ElementType;
use bson_shape::{VariantContent, VariantShape};

/// A text at an enum: the name of a unit variant.
pub fn recast_variant(
    made: &mut Vec<u8>,
    variants: &[VariantShape],
    levels: u32,
    name: &str,
) -> Option<ElementType>
    ensures { (r : Reader) → IfSome result (IsPut (recast_for r (enumeration (variants_of variants.now)) levels (nodes.string (borrowed name.now))) made.old.items made.new.items) }
{
    if !names_unit(variants, name) {
        return None;
    }
    put_text(made, name)
}

/// Whether the variant of a name has its name alone.
fn names_unit(variants: &[VariantShape], name: &str) -> bool
    ensures { result ≡ names_unit name.now variants.now }
{
    for variant in variants {
        if variant.name.as_str() == name {
            return matches!(variant.content, VariantContent::Unit);
        }
    }
    false
}
