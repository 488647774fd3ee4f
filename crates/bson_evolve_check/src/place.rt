// Parts of a shape, each with the definitions around it.
ghost use Rattle.std.specs.Prelude.{◌≡◌, []};

use bson_shape::{FieldShape, Shape};

/// Definitions, and their number, which they have in common with all of the same names and shapes.
#[derive(Clone, Copy)]
pub struct Table<'s> {
    pub number: usize,
    pub definitions: &'s [FieldShape],
}

/// A part, and the innermost definitions around it.
#[derive(Clone, Copy)]
pub struct Place<'s> {
    pub table: Table<'s>,
    pub shape: &'s Shape,
}

/// No definitions.
pub(crate) fn no_definitions<'s>() -> &'s [FieldShape]
    ensures { result.now ≡ [] }
{
    &[]
}
