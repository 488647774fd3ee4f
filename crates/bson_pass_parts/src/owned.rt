// Shapes that borrow nothing: what is read at one is read of the value whose texts are mended, too.
ghost use Rattle.std.specs.Prelude.{IsTrue};
ghost use Rattle.bson_shape.specs.Form as form;
ghost use Rattle.bson_shape.specs.ShapeView.{content_of, fields_of, parts_of, variants_of};
ghost use Rattle.bson_laws.specs.Owned.{IsOwned, AreFieldsOwned, ArePartsOwned, AreVariantsOwned, IsContentOwned};

use bson_shape::{FieldShape, Form, Leaf, Shape, VariantContent, VariantShape};

/// Whether a shape in definitions borrows nothing, nor do these.
pub fn borrows_nothing_in(table: &[FieldShape], shape: &Shape) -> bool
    ensures table { IsTrue result → AreFieldsOwned (fields_of table.now) }
    ensures shape { IsTrue result → IsOwned shape.now }
{
    fields_borrow_nothing(table) && borrows_nothing(shape)
}

/// Whether a shape borrows nothing: it has neither `str` nor `bytes`.
#[cycle(owned)]
pub fn borrows_nothing(shape: &Shape) -> bool
    ensures { IsTrue result → IsOwned shape.now }
{
    match shape.form() {
        Form::Leaf(leaf) => is_owned(leaf),
        Form::Option(inner) => borrows_nothing(inner),
        Form::Lossy(inner) => borrows_nothing(inner),
        Form::Readable(inner) => borrows_nothing(inner),
        Form::Mode(readable, compact) => borrows_nothing(readable) && borrows_nothing(compact),
        Form::Seq(item) => borrows_nothing(item),
        Form::Map(key, value) => borrows_nothing(key) && borrows_nothing(value),
        Form::Tuple(parts) => parts_borrow_nothing(parts),
        Form::TupleStruct(_, parts) => parts_borrow_nothing(parts),
        Form::Newtype(_, inner) => borrows_nothing(inner),
        Form::UnitStruct(_) | Form::Reference(_) => true,
        Form::Struct(_, fields) => fields_borrow_nothing(fields),
        Form::ClosedStruct(_, fields) => fields_borrow_nothing(fields),
        Form::Enum(variants) => variants_borrow_nothing(variants),
        Form::Definitions(table, inner) => {
            fields_borrow_nothing(table) && borrows_nothing(inner)
        }
    }
}

// Whether a leaf borrows neither texts nor byte strings.
#[inline(always)]
fn is_owned(leaf: Leaf) -> bool
    ensures { IsTrue result → IsOwned (form.leaf leaf) }
{
    match leaf {
        Leaf::Str => false,
        Leaf::Bytes => false,
        _ => true,
    }
}

// The same of the parts of a tuple.
#[cycle(owned)]
fn parts_borrow_nothing(parts: &[Shape]) -> bool
    ensures { IsTrue result → ArePartsOwned (parts_of parts.now) }
{
    for part in parts {
        if !borrows_nothing(part) {
            return false;
        }
    }
    true
}

// The same of the fields of a struct.
#[cycle(owned)]
fn fields_borrow_nothing(fields: &[FieldShape]) -> bool
    ensures { IsTrue result → AreFieldsOwned (fields_of fields.now) }
{
    for field in fields {
        if !borrows_nothing(&field.shape) {
            return false;
        }
    }
    true
}

// The same of the variants of an enum.
#[cycle(owned)]
fn variants_borrow_nothing(variants: &[VariantShape]) -> bool
    ensures { IsTrue result → AreVariantsOwned (variants_of variants.now) }
{
    for variant in variants {
        if !content_borrows_nothing(&variant.content) {
            return false;
        }
    }
    true
}

// The same of the contents of a variant.
#[cycle(owned)]
fn content_borrows_nothing(content: &VariantContent) -> bool
    ensures { IsTrue result → IsContentOwned (content_of content.now) }
{
    match content {
        VariantContent::Unit => true,
        VariantContent::Newtype(shape) => borrows_nothing(shape),
        VariantContent::Tuple(parts) => parts_borrow_nothing(parts),
        VariantContent::Struct(fields) => fields_borrow_nothing(fields),
    }
}
