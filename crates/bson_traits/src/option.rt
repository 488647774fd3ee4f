use crate::shapes::optional_shape;
use crate::traits::{Deserialize, EqualByContents, NeverNull, RoundTrip, Serialize};
use bson_datum::Datum;
use bson_growing::boxed;
use bson_shape::{Shape, ShapeError};
use bson_type_data::refuse;
use bson_values::{de, ser};
use std::alloc::Global;

impl<T: Serialize> Serialize for Option<T> {
    ghost use Rattle.bson_traits.specs.Options.{written_option};

    ghost written = { written_option T.written };

    fn to_datum(&self, alloc: Global) -> ser::Result<Datum<'_>> {
        match self {
            None => Ok(Datum::None),
            Some(value) => {
                let datum = value.to_datum(alloc)?;
                Ok(Datum::Some(boxed(alloc, datum)?))
            }
        }
    }
}

impl<'de, T: Deserialize<'de>> Deserialize<'de> for Option<T> {
    ghost use Rattle.std.specs.Prelude.{Option};
    ghost use Rattle.std.specs.Option.{option_map};
    ghost use Rattle.bson_shape.specs.Form as forms;
    ghost use Rattle.bson_traits.specs.Options.{taken_option};

    ghost form = { forms.optional T.form };

    ghost Contents = { Option T.Contents };

    ghost contents = { λ o. option_map T.contents o };

    ghost taken = { taken_option T.taken };

    fn shape(alloc: Global) -> Result<Shape, ShapeError> {
        optional_shape(alloc, T::shape(alloc)?)
    }

    fn from_datum(alloc: Global, datum: Datum<'de>) -> de::Result<Option<T>> {
        match datum {
            Datum::None => Ok(None),
            Datum::Some(inner) => {
                let value = T::from_datum(alloc, Box::into_inner(inner))?;
                Ok(Some(value))
            }
            other => Err(refuse(other)),
        }
    }
}

impl<'de, T: NeverNull<'de>> RoundTrip<'de> for Option<T> {
    ghost use Rattle.bson_traits.specs.Options.{IsOptional};
    ghost use Rattle.bson_traits.specs.Prover.OptionsBack.{option_returns};

    ghost is_value = { IsOptional T.is_value };

    fn known(&self) {
        match self {
            None => {}
            Some(value) => value.known(),
        }
    }

    ghost returns = { option_returns T.Serialize.written T.Deserialize.contents T.Deserialize.taken T.Deserialize.form T.is_value T.returns T.not_null };
}

impl<'de, T: EqualByContents<'de>> EqualByContents<'de> for Option<T> {
    ghost use Rattle.bson_traits.specs.Prover.Equal.{option_equal};

    ghost equal = { option_equal T.contents T.eq T.equal };
}
