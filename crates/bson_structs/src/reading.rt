ghost use Rattle.std.specs.Prelude.{◌≡◌};
ghost use Rattle.bson_values.specs.Value.{no_field_values};
ghost use Rattle.bson_values.specs.Returned.{Reads};
ghost use Rattle.bson_datum.specs.View.{view, fields_view};
ghost use Rattle.bson_traits.specs.Structs.{struct_fields, next_field, no_field_left};
ghost use Rattle.bson_structs.specs.FieldsLeft.{before, left, IsNext};

use bson_datum::{Datum, Field};
use bson_traits::{Deserialize, not_fitting, refuse};
use bson_values::de;
use std::alloc::Global;

/// The fields of a struct that is read, taken one after another.
///
/// Contracts see it by the fields that are left (`left`).
#[derive(Debug, Drop)]
pub struct StructFields<'de> {
    // The last field first, so that the next one is at the end.
    reversed: Vec<Field<'de>>,
}

impl<'de> StructFields<'de> {
    /// The fields of a struct of this name. It takes no memory.
    ///
    /// # Errors
    ///
    /// `NotFitting` exactly where the datum is anything else.
    #[tactic(auto, using(bson_datum::proofs::Views::rows_items))]
    pub fn of(name: &str, datum: Datum<'de>) -> de::Result<StructFields<'de>>
        ensures fields { Reads left result (struct_fields name.now (view datum.entry)) }
    {
        let (found, fields) = match datum {
            Datum::Struct { name, fields } => (name, fields),
            other => return Err(refuse(other)),
        };
        if found.as_str() != name {
            return Err(not_fitting());
        }
        Ok(over(fields))
    }

    /// The value that the next field gives, which has this name.
    ///
    /// # Errors
    ///
    /// `NotFitting` where no field is left, or the next one has another name; and what the type refuses in its value.
    pub fn next<T: Deserialize<'de>>(&mut self, alloc: Global, name: &str) -> de::Result<T>
        ensures value { Reads (λ x. (T.contents x, left self.new)) result (next_field name.now T.taken (left self.old)) }
    {
        let Some(field) = next_of(&mut self.reversed) else {
            return Err(not_fitting());
        };
        let Field { name: found, value } = field;
        if found.as_str() != name {
            return Err(refuse(value));
        }
        let value = T::from_datum(alloc, value)?;
        Ok(value)
    }

    /// Nothing, where no field is left.
    ///
    /// # Errors
    ///
    /// `NotFitting` exactly where a field is left.
    pub fn end(self) -> de::Result<()>
        ensures end { Reads (λ _. tt) result (no_field_left (left self.entry)) }
    {
        let mut reversed = self.reversed;
        match next_of(&mut reversed) {
            None => Ok(()),
            Some(field) => {
                drop(field);
                Err(not_fitting())
            }
        }
    }
}

// These fields, in order.
#[tactic(auto, using(crate::proofs::Left::left_reversed))]
fn over<'de>(fields: Vec<Field<'de>>) -> StructFields<'de>
    ensures { left result ≡ fields_view fields.entry.items }
{
    let mut reversed = fields;
    reversed.reverse();
    StructFields { reversed }
}

// Takes out the next field.
#[tactic(auto, using(crate::proofs::Left::before_last))]
fn next_of<'de>(reversed: &mut Vec<Field<'de>>) -> Option<Field<'de>>
    ensures { IsNext (before reversed.old.items no_field_values) result (before reversed.new.items no_field_values) }
{
    match reversed.pop() {
        Some(field) => Some(field),
        None => None,
    }
}
