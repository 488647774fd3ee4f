// Documents at enums: one pair, whose key names a variant, and whose value is its contents.
ghost use Rattle.std.specs.Prelude.{◌≡◌, false, IfSome};
ghost use Rattle.bson_kinds.specs.declared.element_type.ElementType.TheVariants as kinds;
ghost use Rattle.bson_rawdoc.specs.Node.{inner_node, node_in, nodes_with};
ghost use Rattle.bson_rawdoc.specs.Walk.{walk_elements};
ghost use Rattle.bson_shape.specs.Form as form;
ghost use Rattle.bson_shape.specs.Makers.{AreVariants, IsContent, has_repeat, variant_names};
ghost use Rattle.bson_shape.specs.ShapeView.{content_of, variants_of};
ghost use Rattle.bson_laws.specs.Scopes.{laid_variants, laid_content};
ghost use Rattle.bson_pass_parts.specs.Put.{recast_for, recast_content, IsPut, IsElementPut, AreInsidePut};
ghost use Rattle.bson_pass_parts.specs.Run.{IsHead, element_of};

use crate::array::recast_known;
use crate::structure::recast_struct;
use crate::tuple::recast_tuple;
use bson_kinds::ElementType;
use bson_laws::Reader;
use bson_pass_parts::{
    MOST_NESTED, close, named_front, named_len, named_variant, put, put_run, set_kind,
};
use bson_rawdoc::reading::{inside, is_closed};
use bson_shape::{VariantContent, VariantShape};

/// The document in these bytes at an enum with these variants.
#[inline(never)]
#[cycle(recast)]
pub(crate) fn recast_enum(
    made: &mut Vec<u8>,
    reader: &Reader<'_>,
    variants: &[VariantShape],
    levels: u32,
    bytes: &[u8],
) -> Option<ElementType>
    requires distinct { has_repeat (variant_names (variants_of variants.now)) ≡ false }
    requires shapes { AreVariants (variants_of variants.now) }
    ensures seen { IfSome result (IsPut (recast_for reader.now (form.enumeration (variants_of variants.now)) levels (inner_node levels kinds.EmbeddedDocument bytes.now))
        made.old.items made.new.items) }
    ensures met { IfSome result (IsPut (recast_for reader.now (form.enumeration (variants_of variants.now)) levels (node_in levels kinds.EmbeddedDocument bytes.now))
        made.old.items made.new.items) }
{
    if levels == 0 || bytes.len() < 5 || !is_closed(bytes) {
        return None;
    }
    let start = made.len();
    put(made, &[0; 4])?;
    recast_pair(made, reader, variants, levels - 1, inside(bytes))?;
    close(made, start)?;
    Some(ElementType::EmbeddedDocument)
}

/// The variant that the first key names, with its contents. Further elements stay unread.
#[cycle(recast)]
fn recast_pair(
    made: &mut Vec<u8>,
    reader: &Reader<'_>,
    variants: &[VariantShape],
    levels: u32,
    elements: &[u8],
) -> Option<()>
    requires distinct { has_repeat (variant_names (variants_of variants.now)) ≡ false }
    requires shapes { AreVariants (variants_of variants.now) }
    ensures { IfSome result (λ _. AreInsidePut (form.enumeration (laid_variants reader.now (variants_of variants.now))) levels (nodes_with (node_in levels) (walk_elements elements.now))
        made.old.items made.new.items) }
{
    let Some((variant, kind, value)) = named_variant(variants, elements) else {
        return None;
    };
    let name = variant.name.as_str();
    recast_content(
        made,
        reader,
        &variant.content,
        levels,
        elements,
        name,
        kind,
        value,
    )
}

/// The element of this kind, this key and this value that begins these bytes: its key names a variant, and its value is the contents.
#[cycle(recast)]
fn recast_content(
    made: &mut Vec<u8>,
    reader: &Reader<'_>,
    content: &VariantContent,
    levels: u32,
    bytes: &[u8],
    key: &str,
    kind: ElementType,
    value: &[u8],
) -> Option<()>
    requires head { IsHead bytes.now (element_of kind key.now value.now) }
    requires shape { IsContent (content_of content.now) }
    ensures { IfSome result (λ _. IsElementPut (recast_content (laid_content reader.now (content_of content.now)) levels (node_in levels kind value.now)) key.now
        made.old.items made.new.items) }
{
    if let VariantContent::Newtype(shape) = content {
        let behind = named_len(bytes, kind, key, value);
        let from = recast_known(
            made,
            reader,
            shape,
            levels,
            MOST_NESTED,
            bytes,
            0,
            0,
            key,
            kind,
            value,
        )?;
        put_run(made, bytes, from, behind)?;
        return Some(());
    }
    let place = made.len();
    put(made, named_front(bytes, kind, key, value))?;
    let kind = recast_inside(made, reader, content, levels, kind, value)?;
    set_kind(made, place, kind);
    Some(())
}

/// A value of the kind in these bytes as the contents of a tuple variant or of a struct variant.
#[cycle(recast)]
fn recast_inside(
    made: &mut Vec<u8>,
    reader: &Reader<'_>,
    content: &VariantContent,
    levels: u32,
    kind: ElementType,
    bytes: &[u8],
) -> Option<ElementType>
    requires shape { IsContent (content_of content.now) }
    ensures { IfSome result (IsPut (recast_content (laid_content reader.now (content_of content.now)) levels (node_in levels kind bytes.now)) made.old.items made.new.items) }
{
    match content {
        VariantContent::Tuple(parts) => match kind {
            ElementType::Array => recast_tuple(made, reader, parts, levels, bytes),
            _ => None,
        },
        VariantContent::Struct(fields) => match kind {
            ElementType::EmbeddedDocument => recast_struct(
                made, reader, "", fields, false, levels, bytes,
            ),
            _ => None,
        },
        _ => None,
    }
}
