// Numbers of definitions: those of the same names and shapes have one number.
ghost use Rattle.std.specs.Prelude.{◌≡◌, [], IfOk};
ghost use Rattle.bson_shape.specs.Same.{same_fields};
ghost use Rattle.bson_shape.specs.ShapeView.{fields_of};
ghost use Rattle.bson_evolve_check.specs.Placing.{tables_in, AreDifferent, IsMore, IsTable};

use crate::place::Table;
use bson_shape::FieldShape;
use std::alloc::{AllocError, Global};

/// Definitions, each at its number.
#[derive(Drop)]
pub(crate) struct Tables<'s> {
    known: Vec<&'s [FieldShape]>,
}

impl<'s> Tables<'s> {
    /// No definitions have a number.
    pub(crate) fn new(alloc: Global) -> Tables<'s>
        ensures { tables_in result ≡ [] }
    {
        Tables {
            known: Vec::new(alloc),
        }
    }

    /// The definitions with their number. They are given one where they have none.
    ///
    /// # Errors
    ///
    /// Memory ran out.
    pub(crate) fn table(&mut self, definitions: &'s [FieldShape]) -> Result<Table<'s>, AllocError>
        requires { AreDifferent (tables_in self.old) }
        ensures more { IfOk result (λ t. IsMore (tables_in self.old) (tables_in self.new)) }
        ensures number { IfOk result (λ t. IsTable (tables_in self.new) t) }
        ensures definitions { IfOk result (λ t. t.definitions ≡ definitions.entry) }
    {
        for (number, known) in self.known.iter().enumerate() {
            if are_same(known, definitions) {
                return Ok(Table {
                    number,
                    definitions,
                });
            }
        }
        let number = self.known.len();
        self.known.push(definitions)?;
        Ok(Table {
            number,
            definitions,
        })
    }
}

// Whether the definitions have the same names and shapes, in the same order.
fn are_same(a: &[FieldShape], b: &[FieldShape]) -> bool
    ensures { result ≡ same_fields (fields_of a.now) (fields_of b.now) }
{
    if a.len() != b.len() {
        return false;
    }
    for (i, field) in a.iter().enumerate() {
        let other = &b[i];
        if field.name.as_str() != other.name.as_str() || field.shape != other.shape {
            return false;
        }
    }
    true
}
