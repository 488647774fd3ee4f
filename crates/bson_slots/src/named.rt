// Fields, structs and struct variants under owned names.
ghost use Rattle.std.specs.Prelude.{◌≡◌, IfOk};
ghost use Rattle.bson_kinds.specs.Piece.{made};
ghost use Rattle.bson_values.specs.Pieces.{text_piece};
ghost use Rattle.bson_datum.specs.MarkedView.{marked};
ghost use Rattle.bson_values.specs.Value as value;
ghost use Rattle.bson_slots.specs.FieldSlots.{fields_marked};

use bson_datum::{Datum, Field};
use bson_values::Text;
use std::alloc::{AllocError, Global};

/// The field of this name with this value. The name is copied.
///
/// # Errors
///
/// Memory ran out.
#[inline(always)]
pub fn named_field<'de>(
    alloc: Global,
    name: &str,
    value: Datum<'de>,
) -> Result<Field<'de>, AllocError>
    ensures name { IfOk result (λ x. text_piece x.name ≡ made name.now) }
    ensures value { IfOk result (λ x. x.value ≡ value.entry) }
{
    match String::from_str(alloc, name) {
        Ok(name) => Ok(Field {
            name: Text::Owned(name),
            value,
        }),
        Err(error) => {
            drop(value);
            Err(error)
        }
    }
}

/// The struct of this name with these fields. The name is copied.
///
/// # Errors
///
/// Memory ran out.
pub fn named_struct<'de>(
    alloc: Global,
    name: &str,
    fields: Vec<Field<'de>>,
) -> Result<Datum<'de>, AllocError>
    ensures marked { IfOk result (λ d. marked d ≡ value.structure (made name.now) (fields_marked fields.entry.items)) }
{
    let name = Text::Owned(String::from_str(alloc, name)?);
    Ok(Datum::Struct { name, fields })
}

/// The struct variant of this name with these fields. The name is copied.
///
/// # Errors
///
/// Memory ran out.
pub fn named_struct_variant<'de>(
    alloc: Global,
    name: &str,
    fields: Vec<Field<'de>>,
) -> Result<Datum<'de>, AllocError>
    ensures marked { IfOk result (λ d. marked d ≡ value.structure_variant (made name.now) (fields_marked fields.entry.items)) }
{
    let variant = Text::Owned(String::from_str(alloc, name)?);
    Ok(Datum::StructVariant { variant, fields })
}
