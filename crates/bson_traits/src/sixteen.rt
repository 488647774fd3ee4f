use crate::traits::{Deserialize, EqualByContents, NeverNull, RoundTrip, Serialize};
use bson_base::{Decimal128, Uuid};
use bson_datum::Datum;
use bson_shape::{Shape, ShapeError};
use bson_type_data::{decimal_datum, decimal_in, known_sixteen, uuid_in, uuid_value};
use bson_values::{de, ser};
use std::alloc::Global;

impl Serialize for Decimal128 {
    ghost use Rattle.std.specs.Prelude.{Ok};
    ghost use Rattle.bson_type_data.specs.Extended.{decimal_datum};

    ghost written = { λ d. Ok (decimal_datum d.0) };

    fn to_datum(&self, alloc: Global) -> ser::Result<Datum<'_>> {
        Ok(decimal_datum(alloc, *self)?)
    }
}

impl<'de> Deserialize<'de> for Decimal128 {
    ghost use Rattle.bson_kinds.specs.Text.{Bytes};
    ghost use Rattle.bson_shape.specs.Form.{leaf};
    ghost use Rattle.bson_shape.specs.declared.leaf.Leaf.TheVariants as leaves;
    ghost use Rattle.bson_type_data.specs.Extended.{taken_decimal};

    ghost form = { leaf leaves.Decimal128 };

    ghost Contents = { Bytes };

    ghost contents = { λ d. d.0 };

    ghost taken = { taken_decimal };

    fn shape(_alloc: Global) -> Result<Shape, ShapeError> {
        Ok(Shape::decimal128())
    }

    fn from_datum(alloc: Global, datum: Datum<'de>) -> de::Result<Decimal128> {
        let value = decimal_in(alloc, &datum);
        drop(datum);
        value
    }
}

impl<'de> RoundTrip<'de> for Decimal128 {
    ghost use Rattle.bson_base.specs.Sound.{HasBytes};
    ghost use Rattle.bson_traits.specs.Prover.ExtendedBack.{decimal_returns};

    ghost is_value = { λ d. HasBytes 16 d.0 };

    fn known(&self) {
        known_sixteen(&self.0);
    }

    ghost returns = { λ d. decimal_returns d.0 };
}

impl<'de> NeverNull<'de> for Decimal128 {
    ghost use Rattle.bson_traits.specs.Prover.ExtendedBack.{decimal_not_null};

    ghost not_null = { λ d. decimal_not_null d.0 };
}

impl<'de> EqualByContents<'de> for Decimal128 {
    ghost use Rattle.bson_traits.specs.Prover.Equal.{bytes_equal};

    ghost equal = { λ x y e. bytes_equal x.0 y.0 e };
}

impl Serialize for Uuid {
    ghost use Rattle.std.specs.Prelude.{Ok};
    ghost use Rattle.bson_type_data.specs.Extended.{uuid_value};

    ghost written = { λ id. Ok (uuid_value id.0) };

    fn to_datum(&self, alloc: Global) -> ser::Result<Datum<'_>> {
        Ok(uuid_value(alloc, *self)?)
    }
}

impl<'de> Deserialize<'de> for Uuid {
    ghost use Rattle.bson_kinds.specs.Text.{Bytes};
    ghost use Rattle.bson_shape.specs.Form.{leaf};
    ghost use Rattle.bson_shape.specs.declared.leaf.Leaf.TheVariants as leaves;
    ghost use Rattle.bson_type_data.specs.Extended.{taken_uuid};

    ghost form = { leaf leaves.Uuid };

    ghost Contents = { Bytes };

    ghost contents = { λ id. id.0 };

    ghost taken = { taken_uuid };

    fn shape(_alloc: Global) -> Result<Shape, ShapeError> {
        Ok(Shape::uuid())
    }

    fn from_datum(alloc: Global, datum: Datum<'de>) -> de::Result<Uuid> {
        let value = uuid_in(alloc, &datum);
        drop(datum);
        value
    }
}

impl<'de> RoundTrip<'de> for Uuid {
    ghost use Rattle.bson_base.specs.Sound.{HasBytes};
    ghost use Rattle.bson_traits.specs.Prover.ExtendedBack.{uuid_returns};

    ghost is_value = { λ id. HasBytes 16 id.0 };

    fn known(&self) {
        known_sixteen(&self.0);
    }

    ghost returns = { λ id. uuid_returns id.0 };
}

impl<'de> NeverNull<'de> for Uuid {
    ghost use Rattle.bson_traits.specs.Prover.ExtendedBack.{uuid_not_null};

    ghost not_null = { λ id _. uuid_not_null id.0 };
}

impl<'de> EqualByContents<'de> for Uuid {
    ghost use Rattle.bson_traits.specs.Prover.Equal.{bytes_equal};

    ghost equal = { λ x y e. bytes_equal x.0 y.0 e };
}
