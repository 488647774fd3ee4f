ghost use Rattle.std.specs.Prelude.{◌≡◌, IfOk, OnOk};
ghost use Rattle.bson_values.specs.TextView.{text_view};
ghost use Rattle.bson_values.specs.Value as value;
ghost use Rattle.bson_datum.specs.View.{view, fields_view};
ghost use Rattle.bson_structs.specs.FieldsAdded.{with_field};

use bson_datum::{Datum, Field};
use bson_growing::{boxed, push};
use bson_values::Text;
use std::alloc::{AllocError, Global};

/// Puts a field of this name and value behind the others.
///
/// # Errors
///
/// Memory ran out.
#[tactic(auto, using(crate::proofs::Added::values_added))]
pub fn add_field<'a>(
    fields: &mut Vec<Field<'a>>,
    name: &'a str,
    value: Datum<'a>,
) -> Result<(), AllocError>
    ensures fields { OnOk result (fields_view fields.new.items ≡ with_field (fields_view fields.old.items) name.now (view value.entry)) }
{
    push(fields, field(name, value))?;
    Ok(())
}

// A field of this name and value.
fn field<'a>(name: &'a str, value: Datum<'a>) -> Field<'a>
    ensures name { text_view result.name ≡ name.now }
    ensures value { view result.value ≡ view value.entry }
{
    Field {
        name: Text::Borrowed(name),
        value,
    }
}

/// The datum of a struct of this name with these fields. It takes no memory.
#[tactic(auto, using(bson_datum::proofs::Views::rows_items))]
pub fn struct_datum<'a>(name: &'a str, fields: Vec<Field<'a>>) -> Datum<'a>
    ensures datum { view result ≡ value.structure name.now (fields_view fields.entry.items) }
{
    Datum::Struct {
        name: Text::Borrowed(name),
        fields,
    }
}

/// The datum of a variant without contents. It takes no memory.
pub fn unit_variant(variant: &str) -> Datum<'_>
    ensures datum { view result ≡ value.unit_variant variant.now }
{
    Datum::UnitVariant {
        variant: Text::Borrowed(variant),
    }
}

/// The datum of a variant around this value.
///
/// # Errors
///
/// Memory ran out.
pub fn newtype_variant<'a>(
    alloc: Global,
    variant: &'a str,
    inner: Datum<'a>,
) -> Result<Datum<'a>, AllocError>
    ensures datum { IfOk result (λ d. view d ≡ value.newtype_variant variant.now (view inner.entry)) }
{
    Ok(Datum::NewtypeVariant {
        variant: Text::Borrowed(variant),
        value: boxed(alloc, inner)?,
    })
}
