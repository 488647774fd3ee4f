// A field with its own copy of its name and its value.
ghost use Rattle.std.specs.Prelude.{◌≡◌, OnOk};
ghost use Rattle.bson_datum.specs.View.{view, fields_view};
ghost use Rattle.bson_writing.specs.Joined.{with_field};

use bson_datum::{Datum, Field};
use bson_values::Text;
use std::alloc::{AllocError, Global};

/// Puts a field with its own copy of its name and its value behind others.
///
/// # Errors
///
/// Memory ran out.
#[tactic(auto, using(crate::proofs::Pushed::fields_pushed))]
pub(crate) fn push_owned(
    alloc: Global,
    fields: &mut Vec<Field<'static>>,
    key: &str,
    value: &Datum<'_>,
) -> Result<(), AllocError>
    ensures { OnOk result (fields_view fields.new.items ≡ with_field (fields_view fields.old.items) key.now (view value.now)) }
{
    let name = Text::Owned(String::from_str(alloc, key)?);
    let value = value.try_clone(alloc)?.into_owned(alloc)?;
    fields.push(Field { name, value })?;
    Ok(())
}
