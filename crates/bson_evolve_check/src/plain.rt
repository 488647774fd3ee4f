// Whether a shape is plain.
ghost use Rattle.std.specs.Prelude.{◌≡◌, ◌↔◌, true, IsTrue};
ghost use Rattle.bson_laws.specs.Leaves.{leaf_kind};
ghost use Rattle.bson_laws.specs.Plain.{IsPlain};
ghost use Rattle.bson_shape.specs.ShapeView.{content_of, fields_of, parts_of, variants_of};
ghost use Rattle.bson_kinds.specs.Text as texts;
ghost use Rattle.bson_evolve_laws.specs.PlainTest as plain;

use crate::leaves::is_text;
use crate::place::no_definitions;
use crate::variants::are_units;
use bson_base::has_zero;
use bson_shape::{FieldShape, Form, Leaf, Shape, VariantContent, VariantShape, definition};

/// The innermost definitions around a shape.
#[derive(Clone, Copy)]
struct Around<'s> {
    definitions: &'s [FieldShape],
    // No text is borrowed in them.
    own_texts: bool,
}

impl<'s> Around<'s> {
    fn new(definitions: &'s [FieldShape]) -> Around<'s>
        ensures definitions { result.definitions ≡ definitions.entry }
        ensures own_texts { result.own_texts ≡ plain.fields_own_texts true (fields_of definitions.now) }
    {
        Around {
            definitions,
            own_texts: fields_own_texts(true, definitions),
        }
    }
}

/// Whether the shape is plain: what is written at it is read back.
///
/// Each name of a newtype, a struct, a field and a variant is free: it does not begin with `$` and holds no zero character. Nothing is ignored or kept in its bytes,
/// each map has texts or unit variants as its keys, and nothing depends on whether the reader is human. Where texts are mended none is borrowed, and
/// each reference has its definition.
pub fn is_plain(shape: &Shape) -> bool
    ensures { IsTrue result ↔ IsPlain shape.now }
{
    is_plain_in(Around::new(no_definitions()), shape)
}

// Whether a shape in definitions is plain.
#[cycle(plain)]
fn is_plain_in(around: Around<'_>, shape: &Shape) -> bool
    requires { around.own_texts ≡ plain.fields_own_texts true (fields_of around.definitions.now) }
    ensures { result ≡ plain.is_plain_in (fields_of around.entry.definitions.now) shape.now }
{
    match shape.form() {
        Form::Leaf(leaf) => is_kept(leaf),
        Form::Option(inner) | Form::Seq(inner) => is_plain_in(around, inner),
        Form::Lossy(inner) => owns_texts(around.own_texts, inner) && is_plain_in(around, inner),
        Form::Readable(_) | Form::Mode(_, _) => false,
        Form::Map(key, value) => {
            is_plain_key(key) && is_plain_in(around, key) && is_plain_in(around, value)
        }
        Form::Tuple(items) | Form::TupleStruct(_, items) => are_plain_items(around, items),
        Form::Newtype(name, inner) => is_free(name) && is_plain_in(around, inner),
        Form::UnitStruct(_) => true,
        Form::Struct(name, fields) | Form::ClosedStruct(name, fields) => {
            is_free(name) && are_plain_fields(around, fields)
        }
        Form::Enum(variants) => are_plain_variants(around, variants),
        Form::Reference(name) => definition(around.definitions, name).is_some(),
        Form::Definitions(definitions, body) => {
            let inner = Around::new(definitions);
            are_plain_definitions(inner, definitions) && is_plain_in(inner, body)
        }
    }
}

// Whether the name does not begin with `$` and holds no zero character.
fn is_free(name: &str) -> bool
    ensures { result ≡ texts.is_free_name name.now }
{
    !has_zero(name) && !name.starts_with('$')
}

// Whether a leaf keeps what it reads, and keeps nothing in its bytes.
fn is_kept(leaf: Leaf) -> bool
    ensures { result ≡ plain.is_kept (leaf_kind leaf) }
{
    !matches!(
        leaf,
        Leaf::Ignored | Leaf::RawDocument | Leaf::RawArray | Leaf::RawBson
    )
}

// Whether the keys of a map are texts, or the names of unit variants.
fn is_plain_key(key: &Shape) -> bool
    ensures { result ≡ plain.is_plain_key key.now }
{
    match key.form() {
        Form::Leaf(leaf) => is_text(leaf),
        Form::Enum(variants) => are_units(variants),
        _ => false,
    }
}

#[cycle(plain)]
fn are_plain_items(around: Around<'_>, items: &[Shape]) -> bool
    requires { around.own_texts ≡ plain.fields_own_texts true (fields_of around.definitions.now) }
    ensures { result ≡ plain.are_parts_plain_in (fields_of around.entry.definitions.now) (parts_of items.now) }
{
    for item in items {
        if !is_plain_in(around, item) {
            return false;
        }
    }
    true
}

#[cycle(plain)]
fn are_plain_fields(around: Around<'_>, fields: &[FieldShape]) -> bool
    requires { around.own_texts ≡ plain.fields_own_texts true (fields_of around.definitions.now) }
    ensures { result ≡ plain.are_fields_plain_in (fields_of around.entry.definitions.now) (fields_of fields.now) }
{
    for field in fields {
        if !is_free(field.name.as_str()) || !is_plain_in(around, &field.shape) {
            return false;
        }
    }
    true
}

#[cycle(plain)]
fn are_plain_definitions(around: Around<'_>, definitions: &[FieldShape]) -> bool
    requires { around.own_texts ≡ plain.fields_own_texts true (fields_of around.definitions.now) }
    ensures { result ≡ plain.are_definitions_plain_in (fields_of around.entry.definitions.now) (fields_of definitions.now) }
{
    for definition in definitions {
        if !is_plain_in(around, &definition.shape) {
            return false;
        }
    }
    true
}

#[cycle(plain)]
fn are_plain_variants(around: Around<'_>, variants: &[VariantShape]) -> bool
    requires { around.own_texts ≡ plain.fields_own_texts true (fields_of around.definitions.now) }
    ensures { result ≡ plain.are_variants_plain_in (fields_of around.entry.definitions.now) (variants_of variants.now) }
{
    for variant in variants {
        if !is_free(variant.name.as_str()) || !is_plain_content(around, &variant.content) {
            return false;
        }
    }
    true
}

#[cycle(plain)]
fn is_plain_content(around: Around<'_>, content: &VariantContent) -> bool
    requires { around.own_texts ≡ plain.fields_own_texts true (fields_of around.definitions.now) }
    ensures { result ≡ plain.is_content_plain_in (fields_of around.entry.definitions.now) (content_of content.now) }
{
    match content {
        VariantContent::Unit => true,
        VariantContent::Newtype(shape) => is_plain_in(around, shape),
        VariantContent::Tuple(items) => are_plain_items(around, items),
        VariantContent::Struct(fields) => are_plain_fields(around, fields),
    }
}

// Whether no text is borrowed in a shape, where the definitions around it own theirs or not.
#[cycle(owned)]
fn owns_texts(around: bool, shape: &Shape) -> bool
    ensures { result ≡ plain.owns_texts around shape.now }
{
    match shape.form() {
        Form::Leaf(leaf) => leaf != Leaf::Str,
        Form::Option(inner)
        | Form::Lossy(inner)
        | Form::Readable(inner)
        | Form::Newtype(_, inner)
        | Form::Seq(inner) => owns_texts(around, inner),
        Form::Mode(first, second) | Form::Map(first, second) => {
            owns_texts(around, first) && owns_texts(around, second)
        }
        Form::UnitStruct(_) => true,
        Form::Tuple(items) | Form::TupleStruct(_, items) => items_own_texts(around, items),
        Form::Struct(_, fields) | Form::ClosedStruct(_, fields) => fields_own_texts(around, fields),
        Form::Enum(variants) => variants_own_texts(around, variants),
        Form::Reference(_) => around,
        Form::Definitions(definitions, body) => {
            fields_own_texts(true, definitions) && owns_texts(true, body)
        }
    }
}

#[cycle(owned)]
fn items_own_texts(around: bool, items: &[Shape]) -> bool
    ensures { result ≡ plain.parts_own_texts around (parts_of items.now) }
{
    for item in items {
        if !owns_texts(around, item) {
            return false;
        }
    }
    true
}

#[cycle(owned)]
fn fields_own_texts(around: bool, fields: &[FieldShape]) -> bool
    ensures { result ≡ plain.fields_own_texts around (fields_of fields.now) }
{
    for field in fields {
        if !owns_texts(around, &field.shape) {
            return false;
        }
    }
    true
}

#[cycle(owned)]
fn variants_own_texts(around: bool, variants: &[VariantShape]) -> bool
    ensures { result ≡ plain.variants_own_texts around (variants_of variants.now) }
{
    for variant in variants {
        if !content_owns_texts(around, &variant.content) {
            return false;
        }
    }
    true
}

#[cycle(owned)]
fn content_owns_texts(around: bool, content: &VariantContent) -> bool
    ensures { result ≡ plain.content_owns_texts around (content_of content.now) }
{
    match content {
        VariantContent::Unit => true,
        VariantContent::Newtype(shape) => owns_texts(around, shape),
        VariantContent::Tuple(items) => items_own_texts(around, items),
        VariantContent::Struct(fields) => fields_own_texts(around, fields),
    }
}
