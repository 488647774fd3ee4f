ghost use Rattle.std.specs.Prelude.{◌≡◌, ◌↔◌, IsTrue};
ghost use Rattle.bson_shape.specs.Same.{same, same_fields, same_parts, same_variants, same_content};
ghost use Rattle.bson_shape.specs.ShapeView.{fields_of, parts_of, variants_of, content_of};

use crate::{FieldShape, Form, Shape, VariantContent, VariantShape};

/// Two shapes are equal exactly where their forms are.
impl PartialEq for Shape {
    ghost use Rattle.bson_shape.specs.Same.{same};
    ghost use Rattle.bson_shape.specs.Prover.Decided.{same_laws};

    ghost eq = { same };

    ghost laws = { same_laws };

    fn eq(&self, other: &Shape) -> bool
        ensures value { result ≡ same self.now other.now }
        ensures equal { IsTrue result ↔ (self.now ≡ other.now) }
    {
        is_same(self, other)
    }
}

#[cycle(same)]
fn is_same(a: &Shape, b: &Shape) -> bool
    ensures { result ≡ same a.now b.now }
{
    let other = b.form();
    match a.form() {
        Form::Leaf(leaf) => matches!(other, Form::Leaf(l) if leaf == l),
        Form::Option(inner) => matches!(other, Form::Option(i) if is_same(inner, i)),
        Form::Lossy(inner) => matches!(other, Form::Lossy(i) if is_same(inner, i)),
        Form::Readable(inner) => matches!(other, Form::Readable(i) if is_same(inner, i)),
        Form::Seq(item) => matches!(other, Form::Seq(i) if is_same(item, i)),
        Form::Map(key, value) => {
            matches!(other, Form::Map(k, v) if is_same(key, k) && is_same(value, v))
        }
        Form::Mode(readable, compact) => {
            matches!(other, Form::Mode(r, c) if is_same(readable, r) && is_same(compact, c))
        }
        Form::Tuple(parts) => matches!(other, Form::Tuple(p) if are_same_parts(parts, p)),
        Form::TupleStruct(name, parts) => {
            matches!(other, Form::TupleStruct(n, p) if name == n && are_same_parts(parts, p))
        }
        Form::Newtype(name, inner) => {
            matches!(other, Form::Newtype(n, i) if name == n && is_same(inner, i))
        }
        Form::UnitStruct(name) => matches!(other, Form::UnitStruct(n) if name == n),
        Form::Struct(name, fields) => {
            matches!(other, Form::Struct(n, f) if name == n && are_same(fields, f))
        }
        Form::ClosedStruct(name, fields) => {
            matches!(other, Form::ClosedStruct(n, f) if name == n && are_same(fields, f))
        }
        Form::Enum(variants) => matches!(other, Form::Enum(v) if are_same_variants(variants, v)),
        Form::Reference(name) => matches!(other, Form::Reference(n) if name == n),
        Form::Definitions(table, body) => {
            matches!(other, Form::Definitions(t, b) if are_same(table, t) && is_same(body, b))
        }
    }
}

#[cycle(same)]
fn are_same(a: &[FieldShape], b: &[FieldShape]) -> bool
    ensures { result ≡ same_fields (fields_of a.now) (fields_of b.now) }
{
    if a.len() != b.len() {
        return false;
    }
    for (i, field) in a.iter().enumerate() {
        let other = &b[i];
        if field.name.as_str() != other.name.as_str() || !is_same(&field.shape, &other.shape) {
            return false;
        }
    }
    true
}

#[cycle(same)]
fn are_same_parts(a: &[Shape], b: &[Shape]) -> bool
    ensures { result ≡ same_parts (parts_of a.now) (parts_of b.now) }
{
    if a.len() != b.len() {
        return false;
    }
    for (i, part) in a.iter().enumerate() {
        if !is_same(part, &b[i]) {
            return false;
        }
    }
    true
}

#[cycle(same)]
fn are_same_variants(a: &[VariantShape], b: &[VariantShape]) -> bool
    ensures { result ≡ same_variants (variants_of a.now) (variants_of b.now) }
{
    if a.len() != b.len() {
        return false;
    }
    for (i, variant) in a.iter().enumerate() {
        let other = &b[i];
        if variant.name.as_str() != other.name.as_str()
            || !is_same_content(&variant.content, &other.content)
        {
            return false;
        }
    }
    true
}

#[cycle(same)]
fn is_same_content(a: &VariantContent, b: &VariantContent) -> bool
    ensures { result ≡ same_content (content_of a.now) (content_of b.now) }
{
    match a {
        VariantContent::Unit => matches!(b, VariantContent::Unit),
        VariantContent::Newtype(shape) => {
            matches!(b, VariantContent::Newtype(s) if is_same(shape, s))
        }
        VariantContent::Tuple(parts) => {
            matches!(b, VariantContent::Tuple(p) if are_same_parts(parts, p))
        }
        VariantContent::Struct(fields) => {
            matches!(b, VariantContent::Struct(f) if are_same(fields, f))
        }
    }
}
