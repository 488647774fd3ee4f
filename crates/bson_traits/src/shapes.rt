// The makers of shapes, by what they say of the levels.
ghost use Rattle.bson_shape.specs.Form as form;
ghost use Rattle.bson_shape.specs.Form.{leaf};
ghost use Rattle.bson_shape.specs.declared.leaf.Leaf.TheVariants as leaves;
ghost use Rattle.bson_values.specs.Returned.{Reads};
ghost use Rattle.bson_traits.specs.ShapeOf.{IsShapeOf, shape_of_type};

use crate::traits::Deserialize;
use bson_shape::{Shape, ShapeError};
use bson_type_data::not_fitting;
use bson_values::de;
use std::alloc::Global;

/// The shape of a type, where it has one.
///
/// # Errors
///
/// `not_fitting` exactly where it would have more than 512 levels, or `NoMemory`.
#[tactic(auto, using(crate::proofs::ShapesMade::shape_is_expected, crate::proofs::ShapesMade::none_is_expected))]
pub fn shape_of<'de, T: Deserialize<'de>>(alloc: Global) -> de::Result<Shape>
    ensures shape { Reads (λ s. s) result (shape_of_type T.form) }
{
    match T::shape(alloc) {
        Ok(shape) => Ok(shape),
        Err(ShapeError::TooDeep) => Err(not_fitting()),
        Err(_) => Err(de::Error::NoMemory),
    }
}

// An option of this shape.
pub(crate) fn optional_shape(alloc: Global, inner: Shape) -> Result<Shape, ShapeError>
    ensures shape { IsShapeOf (form.optional inner) result }
{
    Shape::option(alloc, inner)
}

// A sequence whose items have this shape.
pub(crate) fn sequence_shape(alloc: Global, item: Shape) -> Result<Shape, ShapeError>
    ensures shape { IsShapeOf (form.sequence item) result }
{
    Shape::seq(alloc, item)
}

// A map from texts to values of this shape.
pub(crate) fn map_shape(alloc: Global, value: Shape) -> Result<Shape, ShapeError>
    ensures shape { IsShapeOf (form.map (leaf leaves.String) value) result }
{
    Shape::map(alloc, Shape::string(), value)
}

/// What a type reads for a human reader, in this shape.
///
/// # Errors
///
/// `TooDeep` where it would have more than 512 levels, or `NoMemory`.
pub fn readable_shape(alloc: Global, inner: Shape) -> Result<Shape, ShapeError>
    ensures shape { IsShapeOf (form.human_readable inner) result }
{
    Shape::readable(alloc, inner)
}

/// What a type reads in this shape with its texts mended.
///
/// # Errors
///
/// `TooDeep` where it would have more than 512 levels, or `NoMemory`.
pub fn lossy_shape(alloc: Global, inner: Shape) -> Result<Shape, ShapeError>
    ensures shape { IsShapeOf (form.lossy inner) result }
{
    Shape::lossy(alloc, inner)
}
