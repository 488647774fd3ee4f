ghost use Rattle.std.specs.Prelude.{◌≡◌, IfOk};
ghost use Rattle.bson_values.specs.Value.{newtype};
ghost use Rattle.bson_datum.specs.View.{view};
ghost use Rattle.bson_values.specs.Value.{readable_newtype};

use bson_datum::Datum;
use bson_growing::boxed;
use bson_shape::{Shape, ShapeError};
use bson_traits::{
    Deserialize, EqualByContents, NeverNull, RoundTrip, Serialize, lossy_shape, not_fitting,
    readable_shape, refuse,
};
use bson_values::{Text, de, ser};
use std::alloc::{AllocError, Global};

/// A value that is written in its readable form, also in the bytes of a document, and read in that form.
#[derive(Debug, PartialEq, Eq, PartialOrd, Ord, Drop)]
pub struct HumanReadable<T>(pub T);

/// A value whose texts are mended where they are not UTF-8 when it is read. It is written as the value alone.
#[derive(Debug, PartialEq, Eq, PartialOrd, Ord, Drop)]
pub struct Utf8LossyDeserialization<T>(pub T);

impl<T: Serialize> Serialize for HumanReadable<T> {
    ghost use Rattle.bson_helpers.specs.Marks.{written_readable};

    ghost written = { λ x. written_readable T.written x.0 };

    fn to_datum(&self, alloc: Global) -> ser::Result<Datum<'_>> {
        let value = self.0.to_datum(alloc)?;
        Ok(readable(alloc, value)?)
    }
}

impl<'de, T: Deserialize<'de>> Deserialize<'de> for HumanReadable<T> {
    ghost use Rattle.bson_shape.specs.Form as forms;
    ghost use Rattle.bson_helpers.specs.Marks.{taken_readable};

    ghost form = { forms.human_readable T.form };

    ghost Contents = { T.Contents };

    ghost contents = { λ x. T.contents x.0 };

    ghost taken = { taken_readable T.taken };

    fn shape(alloc: Global) -> Result<Shape, ShapeError> {
        readable_shape(alloc, T::shape(alloc)?)
    }

    fn from_datum(alloc: Global, datum: Datum<'de>) -> de::Result<HumanReadable<T>> {
        let (name, value) = match datum {
            Datum::NewtypeStruct { name, value } => (name, value),
            other => return Err(refuse(other)),
        };
        if name.as_str() != "$__bson_private_human_readable" {
            return Err(not_fitting());
        }
        let value = T::from_datum(alloc, Box::into_inner(value))?;
        Ok(HumanReadable(value))
    }
}

impl<'de, T: EqualByContents<'de>> EqualByContents<'de> for HumanReadable<T> {
    ghost equal = { λ x y e. T.equal x.0 y.0 e };
}

impl<T: Serialize> Serialize for Utf8LossyDeserialization<T> {
    ghost written = { λ x. T.written x.0 };

    fn to_datum(&self, alloc: Global) -> ser::Result<Datum<'_>> {
        self.0.to_datum(alloc)
    }
}

impl<'de, T: Deserialize<'de>> Deserialize<'de> for Utf8LossyDeserialization<T> {
    ghost use Rattle.bson_shape.specs.Form as forms;

    ghost form = { forms.lossy T.form };

    ghost Contents = { T.Contents };

    ghost contents = { λ x. T.contents x.0 };

    ghost taken = { T.taken };

    fn shape(alloc: Global) -> Result<Shape, ShapeError> {
        lossy_shape(alloc, T::shape(alloc)?)
    }

    fn from_datum(alloc: Global, datum: Datum<'de>) -> de::Result<Utf8LossyDeserialization<T>> {
        let value = T::from_datum(alloc, datum)?;
        Ok(Utf8LossyDeserialization(value))
    }
}

impl<'de, T: RoundTrip<'de>> RoundTrip<'de> for Utf8LossyDeserialization<T> {
    ghost use Rattle.bson_helpers.specs.Prover.MarksBack.{lossy_returns};

    ghost is_value = { λ x. T.is_value x.0 };

    fn known(&self) {
        self.0.known();
    }

    ghost returns = { λ x h. lossy_returns T.Deserialize.form (T.Deserialize.contents x.0) T.Deserialize.taken (T.Serialize.written x.0) (T.returns x.0 h) };
}

impl<'de, T: NeverNull<'de>> NeverNull<'de> for Utf8LossyDeserialization<T> {
    ghost not_null = { λ x h. T.not_null x.0 h };
}

impl<'de, T: EqualByContents<'de>> EqualByContents<'de> for Utf8LossyDeserialization<T> {
    ghost equal = { λ x y e. T.equal x.0 y.0 e };
}

// The newtype in which a value is written for a human reader.
fn readable<'a>(alloc: Global, value: Datum<'a>) -> Result<Datum<'a>, AllocError>
    ensures { IfOk result (λ d. view d ≡ newtype readable_newtype (view value.entry)) }
{
    Ok(Datum::NewtypeStruct {
        name: Text::Borrowed("$__bson_private_human_readable"),
        value: boxed(alloc, value)?,
    })
}

/// Two values in a mark compare as the two values alone: whether they are equal, and which comes first.
///
/// The call does nothing.
pub fn law_marks_compare<T: Ord>()
    ensures readable_equal { (x y : T) → ⟦<HumanReadable<T> as PartialEq>⟧.eq (record { 0 = x }) (record { 0 = y }) ≡ T.eq x y }
    ensures readable_partly { (x y : T) → ⟦<HumanReadable<T> as PartialOrd>⟧.partial_cmp (record { 0 = x }) (record { 0 = y }) ≡ T.partial_cmp x y }
    ensures readable_ordered { (x y : T) → ⟦<HumanReadable<T> as Ord>⟧.cmp (record { 0 = x }) (record { 0 = y }) ≡ T.cmp x y }
    ensures lossy_equal { (x y : T) → ⟦<Utf8LossyDeserialization<T> as PartialEq>⟧.eq (record { 0 = x }) (record { 0 = y }) ≡ T.eq x y }
    ensures lossy_partly { (x y : T) → ⟦<Utf8LossyDeserialization<T> as PartialOrd>⟧.partial_cmp (record { 0 = x }) (record { 0 = y }) ≡ T.partial_cmp x y }
    ensures lossy_ordered { (x y : T) → ⟦<Utf8LossyDeserialization<T> as Ord>⟧.cmp (record { 0 = x }) (record { 0 = y }) ≡ T.cmp x y }
{}
