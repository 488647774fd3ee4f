use crate::traits::{Deserialize, EqualByContents, NeverNull, RoundTrip, Serialize};
use bson_base::Double;
use bson_datum::Datum;
use bson_shape::{Shape, ShapeError};
use bson_type_data::{bool_in, char_in, double_in, known_eight, refuse};
use bson_values::{de, ser};
use std::alloc::Global;

impl Serialize for bool {
    ghost use Rattle.std.specs.Prelude.{Ok};
    ghost use Rattle.bson_values.specs.Value.{boolean};

    ghost written = { λ b. Ok (boolean b) };

    fn to_datum(&self, _alloc: Global) -> ser::Result<Datum<'_>> {
        Ok(Datum::Bool(*self))
    }
}

impl<'de> Deserialize<'de> for bool {
    ghost use Rattle.std.specs.Prelude.{Bool};
    ghost use Rattle.bson_shape.specs.Form.{leaf};
    ghost use Rattle.bson_shape.specs.declared.leaf.Leaf.TheVariants as leaves;
    ghost use Rattle.bson_type_data.specs.Scalars.{taken_bool};

    ghost form = { leaf leaves.Bool };

    ghost Contents = { Bool };

    ghost contents = { λ b. b };

    ghost taken = { taken_bool };

    fn shape(_alloc: Global) -> Result<Shape, ShapeError> {
        Ok(Shape::bool())
    }

    fn from_datum(_alloc: Global, datum: Datum<'de>) -> de::Result<bool> {
        let value = bool_in(&datum);
        drop(datum);
        value
    }
}

impl<'de> RoundTrip<'de> for bool {
    ghost use Rattle.bson_traits.specs.Prover.ScalarsBack.{bool_returns};

    ghost is_value = { λ b. Unit {0} };

    fn known(&self) {}

    ghost returns = { λ b _. bool_returns b };
}

impl<'de> NeverNull<'de> for bool {
    ghost use Rattle.bson_traits.specs.Prover.ScalarsBack.{bool_not_null};

    ghost not_null = { λ b _. bool_not_null b };
}

impl<'de> EqualByContents<'de> for bool {
    ghost use Rattle.bson_traits.specs.Prover.Equal.{bool_equal};

    ghost equal = { bool_equal };
}

impl Serialize for char {
    ghost use Rattle.std.specs.Prelude.{Ok};
    ghost use Rattle.bson_values.specs.Value.{character};

    ghost written = { λ c. Ok (character c) };

    fn to_datum(&self, _alloc: Global) -> ser::Result<Datum<'_>> {
        Ok(Datum::Char(*self))
    }
}

impl<'de> Deserialize<'de> for char {
    ghost use Rattle.std.specs.Prelude.{ℕ};
    ghost use Rattle.bson_shape.specs.Form.{leaf};
    ghost use Rattle.bson_shape.specs.declared.leaf.Leaf.TheVariants as leaves;
    ghost use Rattle.bson_type_data.specs.Scalars.{taken_char};

    ghost form = { leaf leaves.Char };

    ghost Contents = { ℕ };

    ghost contents = { λ c. c };

    ghost taken = { taken_char };

    fn shape(_alloc: Global) -> Result<Shape, ShapeError> {
        Ok(Shape::char())
    }

    fn from_datum(_alloc: Global, datum: Datum<'de>) -> de::Result<char> {
        let value = char_in(&datum);
        drop(datum);
        value
    }
}

impl<'de> RoundTrip<'de> for char {
    ghost use Rattle.std.specs.Char.{IsScalar};
    ghost use Rattle.bson_traits.specs.Prover.ScalarsBack.{char_returns};

    ghost is_value = { λ c. IsScalar c };

    fn known(&self) {
        let _character = *self;
    }

    ghost returns = { char_returns };
}

impl<'de> NeverNull<'de> for char {
    ghost use Rattle.bson_traits.specs.Prover.ScalarsBack.{char_not_null};

    ghost not_null = { λ c _. char_not_null c };
}

impl<'de> EqualByContents<'de> for char {
    ghost use Rattle.bson_traits.specs.Prover.Equal.{nat_equal};

    ghost equal = { nat_equal };
}

impl Serialize for Double {
    ghost use Rattle.std.specs.Prelude.{Ok};
    ghost use Rattle.bson_values.specs.Value.{double};

    ghost written = { λ d. Ok (double d.0) };

    fn to_datum(&self, _alloc: Global) -> ser::Result<Datum<'_>> {
        Ok(Datum::Double(*self))
    }
}

impl<'de> Deserialize<'de> for Double {
    ghost use Rattle.bson_kinds.specs.Text.{Bytes};
    ghost use Rattle.bson_shape.specs.Form.{leaf};
    ghost use Rattle.bson_shape.specs.declared.leaf.Leaf.TheVariants as leaves;
    ghost use Rattle.bson_type_data.specs.Scalars.{taken_double};

    ghost form = { leaf leaves.Double };

    ghost Contents = { Bytes };

    ghost contents = { λ d. d.0 };

    ghost taken = { taken_double };

    fn shape(_alloc: Global) -> Result<Shape, ShapeError> {
        Ok(Shape::double())
    }

    fn from_datum(_alloc: Global, datum: Datum<'de>) -> de::Result<Double> {
        let value = double_in(&datum);
        drop(datum);
        value
    }
}

impl<'de> RoundTrip<'de> for Double {
    ghost use Rattle.bson_base.specs.Sound.{HasBytes};
    ghost use Rattle.bson_traits.specs.Prover.ScalarsBack.{double_returns};

    ghost is_value = { λ d. HasBytes 8 d.0 };

    fn known(&self) {
        known_eight(&self.0);
    }

    ghost returns = { λ d. double_returns d.0 };
}

impl<'de> NeverNull<'de> for Double {
    ghost use Rattle.bson_traits.specs.Prover.ScalarsBack.{double_not_null};

    ghost not_null = { λ d _. double_not_null d.0 };
}

impl<'de> EqualByContents<'de> for Double {
    ghost use Rattle.bson_traits.specs.Prover.Equal.{bytes_equal};

    ghost equal = { λ x y e. bytes_equal x.0 y.0 e };
}

impl Serialize for () {
    ghost use Rattle.std.specs.Prelude.{Ok};
    ghost use Rattle.bson_values.specs.Value.{unit};

    ghost written = { λ _. Ok unit };

    fn to_datum(&self, _alloc: Global) -> ser::Result<Datum<'_>> {
        Ok(Datum::Unit)
    }
}

impl<'de> Deserialize<'de> for () {
    ghost use Rattle.bson_shape.specs.Form.{leaf};
    ghost use Rattle.bson_shape.specs.declared.leaf.Leaf.TheVariants as leaves;
    ghost use Rattle.bson_type_data.specs.Scalars.{taken_unit};

    ghost form = { leaf leaves.Unit };

    ghost Contents = { Unit {0} };

    ghost contents = { λ _. tt };

    ghost taken = { taken_unit };

    fn shape(_alloc: Global) -> Result<Shape, ShapeError> {
        Ok(Shape::unit())
    }

    fn from_datum(_alloc: Global, datum: Datum<'de>) -> de::Result<()> {
        match datum {
            Datum::Unit => Ok(()),
            other => Err(refuse(other)),
        }
    }
}

impl<'de> RoundTrip<'de> for () {
    ghost use Rattle.bson_traits.specs.Prover.ScalarsBack.{unit_returns};

    ghost is_value = { λ _. Unit {0} };

    fn known(&self) {}

    ghost returns = { λ _ _. unit_returns };
}

impl<'de> EqualByContents<'de> for () {
    ghost use Rattle.std.specs.Prelude.{refl};

    ghost equal = { λ x y e. refl };
}
