// Values that are written at a shape as they were read: they are looked at once, and a caller copies their bytes.
ghost use Rattle.std.specs.Prelude.{◌≡◌, ◌≤◌, [], false, true, None, length, IsTrue};
ghost use Rattle.bson_kinds.specs.Reserved.{reserved_kind};
ghost use Rattle.bson_base.specs.Sound.{max_bytes};
ghost use Rattle.bson_kinds.specs.Text.{AreBytes};
ghost use Rattle.bson_kinds.specs.declared.element_type.ElementType.TheVariants as kinds;
ghost use Rattle.bson_rawdoc.specs.Envelope.{is_closed};
ghost use Rattle.bson_rawdoc.specs.Node.{node_in, nodes_with};
ghost use Rattle.bson_rawdoc.specs.Walk.{walk_elements};
ghost use Rattle.bson_shape.specs.Form as form;
ghost use Rattle.bson_shape.specs.Form.{UnknownFields};
ghost use Rattle.bson_shape.specs.Makers.{AreDistinct, AreVariants, IsContent, has_repeat, is_reserved_newtype, variant_names};
ghost use Rattle.bson_shape.specs.ShapeView.{content_of, fields_of, parts_of, variants_of};
ghost use Rattle.bson_laws.specs.Leaves.{extended_values, leaf_kind, of_kind};
ghost use Rattle.bson_laws.specs.Scopes.{laid, laid_content, laid_fields, laid_parts, laid_variants};
ghost use Rattle.bson_itself.specs.Encoded.{IsFrame, IsTextValue, IsTrueOrFalse};
ghost use Rattle.bson_pass_parts.specs.Put.{recast_items, recast_parts, recast_fields, recast_content, IsPut, AreItemsPut, ArePairsPut, AreInsidePut};
ghost use Rattle.bson_pass_parts.specs.ReadsUnrolled.{slots_of};
ghost use Rattle.bson_pass_parts.specs.Run.{IsKept, IsUuid};

use crate::named::{named_len, named_variant, value_under};
use crate::owned::borrows_nothing_in;
use bson_io::MOST;
use bson_itself::{UntypedLeaf, boolean_len, frame_len, is_itself, text_len};
use bson_kinds::ElementType;
use bson_laws::Reader;
use bson_rawdoc::reading::{inside, is_closed, known_bytes, uint32_in};
use bson_shape::{FieldShape, Form, Leaf, Shape, VariantContent, VariantShape};
use std::alloc::Global;

/// Documents and arrays are looked at up to so many inside one another, since they are looked at again by those around them.
pub const MOST_NESTED: u32 = 2;

/// Whether a value of the kind in these bytes is written at a shape as these bytes, with so many levels left. Of documents and arrays so many inside one another
/// are looked at.
///
/// `false` says nothing of the value.
#[inline(always)]
#[cycle(kept)]
pub fn is_kept(
    alloc: Global,
    reader: &Reader<'_>,
    shape: &Shape,
    levels: u32,
    nested: u32,
    kind: ElementType,
    bytes: &[u8],
) -> bool
    ensures { IsTrue result → IsKept (laid reader.now shape.now) levels kind bytes.now }
{
    match shape.form() {
        Form::Leaf(leaf) => is_leaf_kept(alloc, leaf, levels, kind, bytes),
        _ => is_form_kept(alloc, reader, shape, levels, nested, kind, bytes),
    }
}

// The same for the forms that are no leaves.
#[inline(never)]
#[cycle(kept)]
fn is_form_kept(
    alloc: Global,
    reader: &Reader<'_>,
    shape: &Shape,
    levels: u32,
    nested: u32,
    kind: ElementType,
    bytes: &[u8],
) -> bool
    ensures { IsTrue result → IsKept (laid reader.now shape.now) levels kind bytes.now }
{
    shape.known();
    match shape.form() {
        Form::Option(inner) => match kind {
            ElementType::Null => bytes.is_empty(),
            _ => is_kept(alloc, reader, inner, levels, nested, kind, bytes),
        },
        Form::Newtype(name, inner) => {
            is_newtype_kept(alloc, reader, name, inner, levels, nested, kind, bytes)
        }
        Form::Lossy(inner) => is_marked_kept(alloc, reader, inner, levels, nested, kind, bytes),
        Form::Seq(item) => match kind {
            ElementType::Array if nested > 0 => {
                is_array_kept(alloc, reader, item, levels, nested - 1, bytes)
            }
            _ => false,
        },
        Form::Struct(name, fields) | Form::ClosedStruct(name, fields) => match kind {
            ElementType::EmbeddedDocument if nested > 0 => {
                is_struct_kept(alloc, reader, name, fields, levels, nested - 1, bytes)
            }
            _ => false,
        },
        Form::Tuple(parts) => match kind {
            ElementType::Array if nested > 0 => {
                is_tuple_kept(alloc, reader, parts, levels, nested - 1, bytes)
            }
            _ => false,
        },
        Form::Enum(variants) => match kind {
            ElementType::EmbeddedDocument if nested > 0 => {
                is_enum_kept(alloc, reader, variants, levels, nested - 1, bytes)
            }
            _ => false,
        },
        Form::Reference(name) if nested > 0 => {
            is_reference_kept(alloc, reader, name, levels, nested, kind, bytes)
        }
        _ => false,
    }
}

// The same at a reference: its definition is looked up.
#[inline(never)]
#[cycle(kept)]
fn is_reference_kept(
    alloc: Global,
    reader: &Reader<'_>,
    name: &str,
    levels: u32,
    nested: u32,
    kind: ElementType,
    bytes: &[u8],
) -> bool
    ensures { IsTrue result → IsKept (laid reader.now (form.reference name.now)) levels kind bytes.now }
{
    match reader.definition(name) {
        Some(definition) => {
            is_kept(
                alloc,
                &definition.reader,
                definition.shape,
                levels,
                nested,
                kind,
                bytes,
            )
        }
        None => false,
    }
}

// The same at a newtype, which is written as its value.
#[inline(always)]
#[cycle(kept)]
fn is_newtype_kept(
    alloc: Global,
    reader: &Reader<'_>,
    name: &str,
    inner: &Shape,
    levels: u32,
    nested: u32,
    kind: ElementType,
    bytes: &[u8],
) -> bool
    requires free { is_reserved_newtype name.now ≡ false }
    ensures { IsTrue result → IsKept (laid reader.now (form.newtype name.now inner.now)) levels kind bytes.now }
{
    is_kept(alloc, reader, inner, levels, nested, kind, bytes)
}

// The same at a mark: nothing is mended, since each text is UTF-8.
#[inline(always)]
#[cycle(kept)]
fn is_marked_kept(
    alloc: Global,
    reader: &Reader<'_>,
    inner: &Shape,
    levels: u32,
    nested: u32,
    kind: ElementType,
    bytes: &[u8],
) -> bool
    ensures { IsTrue result → IsKept (laid reader.now (form.lossy inner.now)) levels kind bytes.now }
{
    borrows_nothing_in(reader.table, inner)
        && is_kept(alloc, reader, inner, levels, nested, kind, bytes)
}

/// Whether a value of the kind in these bytes is written at a leaf as these bytes.
#[inline(always)]
pub fn is_leaf_kept(alloc: Global, leaf: Leaf, levels: u32, kind: ElementType, bytes: &[u8]) -> bool
    ensures { IsTrue result → IsKept (form.leaf leaf) levels kind bytes.now }
{
    known_bytes(bytes);
    match (leaf, kind) {
        (Leaf::Str, ElementType::String) => is_text(bytes),
        (Leaf::String, ElementType::String) => is_text(bytes),
        (Leaf::Bool, ElementType::Boolean) => is_boolean(bytes),
        (Leaf::Double, ElementType::Double) => bytes.len() == 8,
        (Leaf::I32, ElementType::Int32) => bytes.len() == 4,
        (Leaf::I64, ElementType::Int64) => bytes.len() == 8,
        (Leaf::ObjectId, ElementType::ObjectId) => bytes.len() == 12,
        (Leaf::DateTime, ElementType::DateTime) => bytes.len() == 8,
        (Leaf::Decimal128, ElementType::Decimal128) => bytes.len() == 16,
        (Leaf::Uuid, ElementType::Binary) => is_uuid(bytes),
        (Leaf::Any, _) => is_itself(alloc, UntypedLeaf::Any, kind, bytes, levels),
        (Leaf::Bson, _) => is_itself(alloc, UntypedLeaf::Bson, kind, bytes, levels),
        (Leaf::Document, ElementType::EmbeddedDocument) => {
            is_itself(alloc, UntypedLeaf::Bson, kind, bytes, levels)
        }
        (Leaf::RawDocument, ElementType::EmbeddedDocument) => is_one_level(levels, bytes),
        (Leaf::RawArray, ElementType::Array) => is_one_level(levels, bytes),
        (Leaf::RawBson, _) => is_raw_kept(alloc, levels, kind, bytes),
        (Leaf::Timestamp, ElementType::Timestamp) => {
            is_extended_kept(alloc, leaf, levels, kind, bytes)
        }
        (Leaf::Binary, ElementType::Binary) => {
            is_extended_kept(alloc, leaf, levels, kind, bytes)
        }
        (Leaf::Regex, ElementType::RegularExpression) => {
            is_extended_kept(alloc, leaf, levels, kind, bytes)
        }
        (Leaf::CodeWithScope, ElementType::JavaScriptCodeWithScope) => {
            is_extended_kept(alloc, leaf, levels, kind, bytes)
        }
        (Leaf::DbPointer, ElementType::DbPointer) => {
            is_extended_kept(alloc, leaf, levels, kind, bytes)
        }
        _ => false,
    }
}

// The same for an extended value at a leaf of its kind.
#[inline(never)]
fn is_extended_kept(alloc: Global, leaf: Leaf, levels: u32, kind: ElementType, bytes: &[u8]) -> bool
    requires kind { leaf_kind leaf ≡ extended_values (of_kind kind) }
    ensures { IsTrue result → IsKept (form.leaf leaf) levels kind bytes.now }
{
    is_itself(alloc, UntypedLeaf::Bson, kind, bytes, levels)
}

// The same for a value at `rawbson`: a document and an array are not looked into.
#[inline(never)]
fn is_raw_kept(alloc: Global, levels: u32, kind: ElementType, bytes: &[u8]) -> bool
    ensures { IsTrue result → IsKept (form.leaf Leaf.RawBson) levels kind bytes.now }
{
    match kind {
        ElementType::EmbeddedDocument => is_one_level(levels, bytes),
        ElementType::Array => is_one_level(levels, bytes),
        ElementType::JavaScriptCodeWithScope => false,
        _ => is_itself(alloc, UntypedLeaf::Bson, kind, bytes, levels),
    }
}

// Whether a document or an array in these bytes is closed, and a level is left for it.
#[inline(always)]
fn is_one_level(levels: u32, bytes: &[u8]) -> bool
    ensures level { IsTrue result → 1 ≤ levels }
    ensures closed { IsTrue result → is_closed bytes.now ≡ true }
{
    levels > 0 && bytes.len() >= 5 && is_closed(bytes)
}

// Whether these bytes are a text, its length in front and a zero behind it.
#[inline(always)]
fn is_text(bytes: &[u8]) -> bool
    ensures text { IsTrue result → IsTextValue bytes.now }
    ensures few { IsTrue result → length bytes.now ≤ max_bytes }
{
    match text_len(bytes) {
        Some(len) => len == bytes.len() && len <= MOST,
        None => false,
    }
}

/// Whether these bytes are a boolean.
#[inline(always)]
pub(crate) fn is_boolean(bytes: &[u8]) -> bool
    ensures boolean { IsTrue result → IsTrueOrFalse bytes.now }
    ensures one { IsTrue result → length bytes.now ≡ 1 }
{
    match boolean_len(bytes) {
        Some(len) => len == bytes.len(),
        None => false,
    }
}

// Whether these bytes are a binary of sixteen bytes and subtype 4.
#[inline(always)]
fn is_uuid(bytes: &[u8]) -> bool
    requires bytes { AreBytes bytes.now }
    ensures uuid { IsTrue result → IsUuid bytes.now }
    ensures few { IsTrue result → length bytes.now ≡ 21 }
{
    if bytes.len() != 21 {
        return false;
    }
    uint32_in(bytes) == 16 && bytes[4] == 4
}

// Whether these bytes are a document or an array, with its length in front and a zero behind it.
#[inline(always)]
fn is_frame(bytes: &[u8]) -> bool
    ensures many { IsTrue result → 5 ≤ length bytes.now }
    ensures closed { IsTrue result → is_closed bytes.now ≡ true }
    ensures frame { IsTrue result → IsFrame bytes.now }
{
    match frame_len(bytes) {
        Some(len) => len == bytes.len() && is_closed(bytes),
        None => false,
    }
}

// Whether the array in these bytes is written as these bytes, with its values at a shape.
#[inline(never)]
#[cycle(kept)]
fn is_array_kept(
    alloc: Global,
    reader: &Reader<'_>,
    item: &Shape,
    levels: u32,
    nested: u32,
    bytes: &[u8],
) -> bool
    ensures { IsTrue result → IsKept (laid reader.now (form.sequence item.now)) levels kinds.Array bytes.now }
{
    if levels == 0 || !is_frame(bytes) {
        return false;
    }
    are_items_kept(alloc, reader, item, levels - 1, nested, inside(bytes))
}

// Whether the elements of an array are written as these bytes: their keys are their indexes.
#[inline(always)]
#[cycle(kept)]
fn are_items_kept(
    alloc: Global,
    reader: &Reader<'_>,
    item: &Shape,
    levels: u32,
    nested: u32,
    elements: &[u8],
) -> bool
    ensures { IsTrue result → AreItemsPut (recast_items (laid reader.now item.now) levels 0 (nodes_with (node_in levels) (walk_elements elements.now))) 0 [] elements.now }
{
    let mut digits = itoa::Buffer::new();
    let mut index: u64 = 0;
    let mut at = 0;
    while at < elements.len() {
        let key = digits.format(index);
        let Some((kind, value)) = value_under(&elements[at..], key) else {
            return false;
        };
        if !is_kept(alloc, reader, item, levels, nested, kind, value) {
            return false;
        }
        at += named_len(&elements[at..], kind, key, value);
        let Some(more) = index.checked_add(1) else {
            return false;
        };
        index = more;
    }
    true
}

// Whether the document in these bytes is written as these bytes, with these fields: each of its keys is the name of one, so that it does not count whether the struct
// is closed.
#[inline(never)]
#[cycle(kept)]
fn is_struct_kept(
    alloc: Global,
    reader: &Reader<'_>,
    name: &str,
    fields: &[FieldShape],
    levels: u32,
    nested: u32,
    bytes: &[u8],
) -> bool
    requires free { reserved_kind name.now ≡ None }
    requires distinct { AreDistinct (fields_of fields.now) }
    ensures drops { IsTrue result → IsKept (laid reader.now (form.structure form.dropped name.now (fields_of fields.now))) levels kinds.EmbeddedDocument bytes.now }
    ensures denies { IsTrue result → IsKept (laid reader.now (form.structure form.denied name.now (fields_of fields.now))) levels kinds.EmbeddedDocument bytes.now }
{
    if levels == 0 || !is_frame(bytes) {
        return false;
    }
    are_fields_kept(alloc, reader, fields, levels - 1, nested, inside(bytes))
}

// Whether the elements of a document are written as these bytes: they are those of the fields, in their order.
#[inline(always)]
#[cycle(kept)]
fn are_fields_kept(
    alloc: Global,
    reader: &Reader<'_>,
    fields: &[FieldShape],
    levels: u32,
    nested: u32,
    elements: &[u8],
) -> bool
    requires distinct { AreDistinct (fields_of fields.now) }
    ensures { IsTrue result → (unknown : UnknownFields) → ArePairsPut (recast_fields unknown (slots_of (laid_fields reader.now (fields_of fields.now))) levels
        (nodes_with (node_in levels) (walk_elements elements.now))) [] elements.now }
{
    let mut place = 0;
    let mut at = 0;
    while at < elements.len() {
        let Some(field) = fields.get(place) else {
            return false;
        };
        let name = field.name.as_str();
        let Some((kind, value)) = value_under(&elements[at..], name) else {
            return false;
        };
        if !is_kept(alloc, reader, &field.shape, levels, nested, kind, value) {
            return false;
        }
        at += named_len(&elements[at..], kind, name, value);
        place += 1;
    }
    place == fields.len()
}

// Whether the array in these bytes is written as these bytes, with its parts at shapes.
#[inline(never)]
#[cycle(kept)]
fn is_tuple_kept(
    alloc: Global,
    reader: &Reader<'_>,
    parts: &[Shape],
    levels: u32,
    nested: u32,
    bytes: &[u8],
) -> bool
    ensures { IsTrue result → IsKept (laid reader.now (form.tuple (parts_of parts.now))) levels kinds.Array bytes.now }
{
    if levels == 0 || !is_frame(bytes) {
        return false;
    }
    are_parts_kept(alloc, reader, parts, levels - 1, nested, inside(bytes))
}

// Whether the elements of an array are written as these bytes: they are one for each part, and their keys are their indexes.
#[inline(always)]
#[cycle(kept)]
fn are_parts_kept(
    alloc: Global,
    reader: &Reader<'_>,
    parts: &[Shape],
    levels: u32,
    nested: u32,
    elements: &[u8],
) -> bool
    ensures { IsTrue result → AreItemsPut (recast_parts (laid_parts reader.now (parts_of parts.now)) levels 0 (nodes_with (node_in levels) (walk_elements elements.now))) 0 [] elements.now }
{
    let mut digits = itoa::Buffer::new();
    let mut index: u64 = 0;
    let mut at = 0;
    for part in parts {
        let name = digits.format(index);
        let Some((kind, value)) = value_under(&elements[at..], name) else {
            return false;
        };
        if !is_kept(alloc, reader, part, levels, nested, kind, value) {
            return false;
        }
        at += named_len(&elements[at..], kind, name, value);
        let Some(more) = index.checked_add(1) else {
            return false;
        };
        index = more;
    }
    at == elements.len()
}

// Whether the document in these bytes is written at an enum as these bytes.
#[inline(never)]
#[cycle(kept)]
fn is_enum_kept(
    alloc: Global,
    reader: &Reader<'_>,
    variants: &[VariantShape],
    levels: u32,
    nested: u32,
    bytes: &[u8],
) -> bool
    requires distinct { has_repeat (variant_names (variants_of variants.now)) ≡ false }
    requires shapes { AreVariants (variants_of variants.now) }
    ensures { IsTrue result → IsKept (laid reader.now (form.enumeration (variants_of variants.now))) levels kinds.EmbeddedDocument bytes.now }
{
    if levels == 0 || !is_frame(bytes) {
        return false;
    }
    is_pair_kept(alloc, reader, variants, levels - 1, nested, inside(bytes))
}

// Whether the elements of a document are written at an enum as these bytes: they are one, whose key names a variant.
#[inline(always)]
#[cycle(kept)]
fn is_pair_kept(
    alloc: Global,
    reader: &Reader<'_>,
    variants: &[VariantShape],
    levels: u32,
    nested: u32,
    elements: &[u8],
) -> bool
    requires distinct { has_repeat (variant_names (variants_of variants.now)) ≡ false }
    requires shapes { AreVariants (variants_of variants.now) }
    ensures { IsTrue result → AreInsidePut (form.enumeration (laid_variants reader.now (variants_of variants.now))) levels (nodes_with (node_in levels) (walk_elements elements.now))
        [] elements.now }
{
    let Some((variant, kind, value)) = named_variant(variants, elements) else {
        return false;
    };
    let name = variant.name.as_str();
    if named_len(elements, kind, name, value) < elements.len() {
        return false;
    }
    is_content_kept(alloc, reader, &variant.content, levels, nested, kind, value)
}

// Whether a value of the kind in these bytes is written as the contents of a variant as these bytes.
#[inline(always)]
#[cycle(kept)]
fn is_content_kept(
    alloc: Global,
    reader: &Reader<'_>,
    content: &VariantContent,
    levels: u32,
    nested: u32,
    kind: ElementType,
    bytes: &[u8],
) -> bool
    requires shape { IsContent (content_of content.now) }
    ensures { IsTrue result → IsPut (recast_content (laid_content reader.now (content_of content.now)) levels (node_in levels kind bytes.now)) [] bytes.now kind }
{
    match content {
        VariantContent::Newtype(shape) => is_kept(
            alloc, reader, shape, levels, nested, kind, bytes,
        ),
        VariantContent::Tuple(parts) => match kind {
            ElementType::Array if nested > 0 => {
                is_tuple_kept(alloc, reader, parts, levels, nested - 1, bytes)
            }
            _ => false,
        },
        VariantContent::Struct(fields) => match kind {
            ElementType::EmbeddedDocument if nested > 0 => {
                is_struct_kept(alloc, reader, "", fields, levels, nested - 1, bytes)
            }
            _ => false,
        },
        VariantContent::Unit => false,
    }
}
