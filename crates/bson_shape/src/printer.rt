// Writing the notation of a shape.
ghost use Rattle.std.specs.Prelude.{◌≡◌, ◌<◌, ◌++◌, ◌∷◌, [], IfOk, OnOk, string_bytes, encode_utf8};
ghost use Rattle.bson_shape.specs.Form as form;
ghost use Rattle.bson_shape.specs.Notation as notation;
ghost use Rattle.bson_shape.specs.ShapeView.{fields_of, parts_of, variants_of, content_of};
ghost use Rattle.bson_shape.specs.PrinterView.{comma_at};

use crate::name::is_bare;
use crate::{FieldShape, Form, Shape, VariantContent, VariantShape};
use std::alloc::{AllocError, Global};

/// Appends the name with a backslash before each quote and each backslash.
fn put_escaped(out: &mut String, name: &str) -> Result<(), AllocError>
    ensures { OnOk result (string_bytes out.new ≡ string_bytes out.old ++ notation.escaped name.now) }
{
    for c in name.chars() {
        put_escaped_character(out, c)?;
    }
    Ok(())
}

#[tactic(auto, using(crate::proofs::Printed::escaped_encode))]
fn put_escaped_character(out: &mut String, c: char) -> Result<(), AllocError>
    ensures { OnOk result (string_bytes out.new ≡ string_bytes out.old ++ notation.escaped (encode_utf8 c)) }
{
    if c == '"' || c == '\\' {
        out.push('\\')?;
        out.push(c)?;
        return Ok(());
    }
    out.push(c)?;
    Ok(())
}

/// Appends a name: a bare one as it is, every other one between quotes.
fn put_name(out: &mut String, name: &str) -> Result<(), AllocError>
    ensures { OnOk result (string_bytes out.new ≡ string_bytes out.old ++ notation.name_text name.now) }
{
    if is_bare(name) {
        return out.push_str(name);
    }
    out.push('"')?;
    put_escaped(out, name)?;
    out.push('"')?;
    Ok(())
}

/// Appends the name of a struct; the empty one is not written.
fn put_struct_name(out: &mut String, name: &str) -> Result<(), AllocError>
    ensures { OnOk result (string_bytes out.new ≡ string_bytes out.old ++ notation.struct_name_text name.now) }
{
    if name.is_empty() {
        return Ok(());
    }
    put_name(out, name)
}

/// Appends the comma before each but the first of a list.
fn put_comma(out: &mut String, i: usize) -> Result<(), AllocError>
    ensures { OnOk result (string_bytes out.new ≡ string_bytes out.old ++ comma_at i) }
{
    if i > 0 {
        out.push(',')?;
    }
    Ok(())
}

/// Appends the comma before a field or a definition, where one is needed, its name, and what divides that from its form.
fn put_field_name(out: &mut String, i: usize, name: &str, divider: char) -> Result<(), AllocError>
    requires { divider < 128 }
    ensures { OnOk result (string_bytes out.new ≡ string_bytes out.old ++ (comma_at i ++ (notation.name_text name.now ++ divider ∷ []))) }
{
    put_comma(out, i)?;
    put_name(out, name)?;
    out.push(divider)?;
    Ok(())
}

/// Appends the comma before a variant, where one is needed, and its name.
fn put_variant_name(out: &mut String, i: usize, name: &str) -> Result<(), AllocError>
    ensures { OnOk result (string_bytes out.new ≡ string_bytes out.old ++ (comma_at i ++ notation.name_text name.now)) }
{
    put_comma(out, i)?;
    put_name(out, name)
}

/// Appends the notation of a shape.
#[cycle(put)]
fn put(out: &mut String, shape: &Shape) -> Result<(), AllocError>
    ensures { OnOk result (string_bytes out.new ≡ string_bytes out.old ++ notation.text shape.now) }
{
    match shape.form() {
        Form::Leaf(leaf) => out.push_str(leaf.word()),
        Form::Option(inner) => put_marked(out, '?', inner),
        Form::Lossy(inner) => put_marked(out, '~', inner),
        Form::Readable(inner) => put_marked(out, '^', inner),
        Form::Seq(item) => {
            out.push('[')?;
            put(out, item)?;
            out.push(']')?;
            Ok(())
        }
        Form::Map(key, value) => put_map(out, key, value),
        Form::Mode(readable, compact) => put_forms(out, readable, compact),
        Form::Tuple(parts) => put_parts(out, parts),
        Form::TupleStruct(name, parts) => {
            put_name(out, name)?;
            put_parts(out, parts)
        }
        Form::Newtype(name, inner) => {
            put_name(out, name)?;
            put_marked(out, '=', inner)
        }
        Form::UnitStruct(name) => {
            put_name(out, name)?;
            out.push('!')?;
            Ok(())
        }
        Form::Struct(name, fields) => put_struct(out, name, "{", fields),
        Form::ClosedStruct(name, fields) => put_struct(out, name, "{!", fields),
        Form::Enum(variants) => put_variants(out, variants),
        Form::Reference(name) => {
            out.push('@')?;
            put_name(out, name)
        }
        Form::Definitions(table, body) => {
            put_fields(out, "&(", table, '=', ')')?;
            put(out, body)
        }
    }
}

/// Appends the notation of a shape behind this mark.
#[cycle(put)]
fn put_marked(out: &mut String, mark: char, shape: &Shape) -> Result<(), AllocError>
    requires mark { mark < 128 }
    ensures { OnOk result (string_bytes out.new ≡ string_bytes out.old ++ mark ∷ notation.text shape.now) }
{
    out.push(mark)?;
    put(out, shape)
}

/// Appends the name of a struct, and its fields between what opens them and a brace.
#[cycle(put)]
fn put_struct(
    out: &mut String,
    name: &str,
    opening: &str,
    fields: &[FieldShape],
) -> Result<(), AllocError>
    ensures { OnOk result (string_bytes out.new ≡ string_bytes out.old ++ (notation.struct_name_text name.now ++ (opening.now ++ (notation.listed (notation.field_texts (fields_of fields.now)) ++ notation.close_brace ∷ [])))) }
{
    put_struct_name(out, name)?;
    put_fields(out, opening, fields, ':', '}')
}

/// Appends the key and the value of a map between brackets.
#[cycle(put)]
fn put_map(out: &mut String, key: &Shape, value: &Shape) -> Result<(), AllocError>
    ensures { OnOk result (string_bytes out.new ≡ string_bytes out.old ++ notation.text (form.map key.now value.now)) }
{
    out.push('[')?;
    put(out, key)?;
    out.push(':')?;
    put(out, value)?;
    out.push(']')?;
    Ok(())
}

/// Appends two forms between parentheses behind a percent sign.
#[cycle(put)]
fn put_forms(out: &mut String, readable: &Shape, compact: &Shape) -> Result<(), AllocError>
    ensures { OnOk result (string_bytes out.new ≡ string_bytes out.old ++ notation.text (form.by_mode readable.now compact.now)) }
{
    out.push('%')?;
    out.push('(')?;
    put(out, readable)?;
    out.push(',')?;
    put(out, compact)?;
    out.push(')')?;
    Ok(())
}

/// Appends fields or definitions between what opens and what closes them; the divider is between a name and its form.
#[cycle(put)]
fn put_fields(
    out: &mut String,
    opening: &str,
    fields: &[FieldShape],
    divider: char,
    closing: char,
) -> Result<(), AllocError>
    requires divider { divider < 128 }
    requires closing { closing < 128 }
    ensures { OnOk result (string_bytes out.new ≡ string_bytes out.old ++ (opening.now ++ (notation.listed (notation.named_texts divider (fields_of fields.now)) ++ closing ∷ []))) }
{
    out.push_str(opening)?;
    for (i, field) in fields.iter().enumerate() {
        put_field_name(out, i, field.name.as_str(), divider)?;
        put(out, &field.shape)?;
    }
    out.push(closing)?;
    Ok(())
}

/// Appends parts between parentheses.
#[cycle(put)]
fn put_parts(out: &mut String, parts: &[Shape]) -> Result<(), AllocError>
    ensures { OnOk result (string_bytes out.new ≡ string_bytes out.old ++ notation.in_parens (notation.part_texts (parts_of parts.now))) }
{
    out.push('(')?;
    for (i, part) in parts.iter().enumerate() {
        put_comma(out, i)?;
        put(out, part)?;
    }
    out.push(')')?;
    Ok(())
}

/// Appends variants between angle brackets.
#[cycle(put)]
fn put_variants(out: &mut String, variants: &[VariantShape]) -> Result<(), AllocError>
    ensures { OnOk result (string_bytes out.new ≡ string_bytes out.old ++ notation.in_angles (notation.variant_texts (variants_of variants.now))) }
{
    out.push('<')?;
    for (i, variant) in variants.iter().enumerate() {
        put_variant_name(out, i, variant.name.as_str())?;
        put_content(out, &variant.content)?;
    }
    out.push('>')?;
    Ok(())
}

/// Appends what a variant has, behind its name.
#[cycle(put)]
fn put_content(out: &mut String, content: &VariantContent) -> Result<(), AllocError>
    ensures { OnOk result (string_bytes out.new ≡ string_bytes out.old ++ notation.content_text (content_of content.now)) }
{
    match content {
        VariantContent::Unit => Ok(()),
        VariantContent::Newtype(shape) => {
            out.push('=')?;
            put(out, shape)
        }
        VariantContent::Tuple(parts) => put_parts(out, parts),
        VariantContent::Struct(fields) => put_fields(out, "{", fields, ':', '}'),
    }
}

impl Shape {
    /// The notation of the shape.
    ///
    /// Reading it gives the shape again.
    ///
    /// # Errors
    ///
    /// Memory ran out.
    pub fn print(&self, alloc: Global) -> Result<String, AllocError>
        ensures text { IfOk result (λ s. string_bytes s ≡ notation.text self.now) }
    {
        let mut out = String::new(alloc);
        put(&mut out, self)?;
        Ok(out)
    }
}
