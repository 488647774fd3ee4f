ghost use Rattle.std.specs.Prelude.{◌≡◌, IfOk, codes};
ghost use Rattle.bson_shape.specs.Notation.{text};

use crate::bson::{ParseError, Shape};
use std::alloc::Global;

/// The shape of a person: a name, an age, and an address that may be missing.
pub fn person_shape(alloc: Global) -> Result<Shape, ParseError>
    ensures notation { IfOk result (λ shape. text shape ≡ codes "{name:string,age:u8,email:?string}") }
{
    Shape::parse(alloc, "{name:string,age:u8,email:?string}")
}
