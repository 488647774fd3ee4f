// Structs of reserved names, as data.
ghost use Rattle.std.specs.Prelude.{◌≡◌, IfOk, string_bytes};
ghost use Rattle.bson_values.specs.TextView.{text_view};
ghost use Rattle.bson_values.specs.Value.{structure, no_field_values, field_value, str};
ghost use Rattle.bson_datum.specs.View.{view};
ghost use Rattle.bson_values.specs.Same.{same};

use bson_datum::{Datum, Field};
use bson_growing::{push, two};
use bson_values::Text;
use std::alloc::{AllocError, Global};

// A struct of one field.
#[tactic(auto, using(bson_datum::proofs::Views::rows_items))]
pub(crate) fn struct_of_one<'a>(
    alloc: Global,
    name: &'a str,
    key: &'a str,
    value: Datum<'a>,
) -> Result<Datum<'a>, AllocError>
    ensures { IfOk result (λ d. view d ≡ structure name.now (field_value key.now (view value.entry) no_field_values)) }
{
    let mut fields = Vec::new(alloc);
    let name = Text::Borrowed(name);
    push(
        &mut fields,
        Field {
            name: Text::Borrowed(key),
            value,
        },
    )?;
    Ok(Datum::Struct { name, fields })
}

// A struct of two fields.
#[tactic(auto, using(bson_datum::proofs::Views::rows_items))]
pub(crate) fn struct_of_two<'a>(
    alloc: Global,
    name: &'a str,
    first: (&'a str, Datum<'a>),
    second: (&'a str, Datum<'a>),
) -> Result<Datum<'a>, AllocError>
    ensures { IfOk result (λ d. view d ≡ structure name.now (field_value first.entry.0.now (view first.entry.1) (field_value second.entry.0.now (view second.entry.1) no_field_values))) }
{
    let fields = two(alloc, named(first), named(second))?;
    let name = Text::Borrowed(name);
    Ok(Datum::Struct { name, fields })
}

// A field of this name and value.
fn named<'a>(field: (&'a str, Datum<'a>)) -> Field<'a>
    ensures name { text_view result.name ≡ field.entry.0.now }
    ensures value { view result.value ≡ view field.entry.1 }
{
    let (name, value) = field;
    Field {
        name: Text::Borrowed(name),
        value,
    }
}

// A text that is owned.
pub(crate) fn text_of<'x>(text: String) -> Datum<'x>
    ensures text { view result ≡ str (string_bytes text) }
{
    Datum::Str(Text::Owned(text))
}

// Whether a datum is equal to this one, which was made to be compared with it and is dropped.
pub(crate) fn is_equal<'a>(made: Datum<'a>, datum: &Datum<'a>) -> bool
    ensures { result ≡ same (view made.entry) (view datum.now) }
{
    let is_same = made == *datum;
    drop(made);
    is_same
}
