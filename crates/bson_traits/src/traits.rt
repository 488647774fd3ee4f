ghost use Rattle.std.specs.Prelude.{◌≡◌, true};
ghost use Rattle.bson_shape.specs.Form.{Form};
ghost use Rattle.bson_values.specs.Value.{Value};
ghost use Rattle.bson_values.specs.Returned.{Reads, Writes};
ghost use Rattle.bson_datum.specs.View.{view};
ghost use Rattle.bson_type_data.specs.Answers.{Reading, Writing};
ghost use Rattle.bson_traits.specs.Laws.{Returns, IsNeverNull};
ghost use Rattle.bson_traits.specs.ShapeOf.{IsShapeOf};

use bson_datum::Datum;
use bson_shape::{Shape, ShapeError};
use bson_values::{de, ser};
use std::alloc::Global;

/// A type whose values are written.
///
/// It stands for serde's `Serialize`: a value is given as a datum, and what writes a datum writes the value.
pub trait Serialize {
    /// The datum of a value, or why it has none.
    ghost written: { Self → Writing Value };

    /// The datum of the value.
    ///
    /// # Errors
    ///
    /// What the type refuses, or `NoMemory`.
    fn to_datum(&self, alloc: Global) -> ser::Result<Datum<'_>>
        ensures datum { Writes view result (written self.now) };
}

/// A type whose values are read, from an input that lives as long as `'de`.
///
/// It stands for serde's `Deserialize`: what is read at the shape of the type is a datum, and the datum gives the value.
pub trait Deserialize<'de>: Sized {
    /// The form of the type's values. The type has a shape where the form has at most 512 levels.
    ghost form: { Form };

    /// What a value of the type contains.
    ghost Contents: { Type 0 };

    /// The contents of a value, as the type names them. Laws compare two values by them; those of a type with [`EqualByContents`] are then `==`.
    ghost contents: { Self → Contents };

    /// The contents that a datum gives, or why it gives none.
    ghost taken: { Value → Reading Contents };

    /// The shape of the type.
    ///
    /// # Errors
    ///
    /// `TooDeep` exactly where it would have more than 512 levels, or `NoMemory`.
    fn shape(alloc: Global) -> Result<Shape, ShapeError>
        ensures shape { IsShapeOf form result };

    /// The value that a datum gives.
    ///
    /// # Errors
    ///
    /// What the type refuses, or `NoMemory`.
    fn from_datum(alloc: Global, datum: Datum<'de>) -> de::Result<Self>
        ensures value { Reads contents result (taken (view datum.entry)) };
}

/// A type whose values are read as they were written.
pub trait RoundTrip<'de>: Serialize + Deserialize<'de> {
    /// What a value of the type is: numbers and bytes in their ranges, texts of UTF-8, the options of regular expressions in order, the keys of each document and map
    /// distinct, those of a `BTreeMap` in order, and so each part.
    ghost is_value: { Self → Type 0 };

    /// Tells a contract that the value is one of the type. It changes nothing; a value with parts is walked to its end.
    fn known(&self)
        ensures value { is_value self.now };

    /// The datum of a value fits the shape of the type, and what is read back of it gives the contents of the value again.
    ghost returns: { (x : Self) → is_value x → Returns Self.form (Self.contents x) Self.taken (Self.written x) };
}

/// A type whose values are never written as Null, so that it may be optional.
pub trait NeverNull<'de>: RoundTrip<'de> {
    /// The tree of a value is not Null.
    ghost not_null: { (x : Self) → Self.is_value x → IsNeverNull (Self.written x) };
}

/// A type whose values are `==` where their contents are equal: what is read of what was written is `==` to it.
///
/// A type that forgets a part of its values, and compares it, cannot have this law; nor can one whose `==` does not hold of a value and itself, as that of `f64` at a NaN.
pub trait EqualByContents<'de>: Deserialize<'de> + PartialEq {
    /// Two values of equal contents are `==`.
    ghost equal: { (x y : Self) → Self.contents x ≡ Self.contents y → Self.eq x y ≡ true };
}
