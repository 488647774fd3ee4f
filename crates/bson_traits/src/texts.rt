ghost use Rattle.bson_shape.specs.Form.{leaf};
ghost use Rattle.bson_shape.specs.declared.leaf.Leaf.TheVariants as leaves;
ghost use Rattle.bson_traits.specs.ShapeOf.{IsShapeOf};

use crate::traits::{Deserialize, EqualByContents, NeverNull, RoundTrip, Serialize};
use bson_datum::Datum;
use bson_shape::{Shape, ShapeError};
use bson_type_data::{known_text, refuse, string_of};
use bson_values::{Text, de, ser};
use std::alloc::Global;

impl Serialize for String {
    ghost use Rattle.std.specs.Prelude.{Ok, string_bytes};
    ghost use Rattle.bson_values.specs.Value.{str};

    ghost written = { λ s. Ok (str (string_bytes s)) };

    fn to_datum(&self, _alloc: Global) -> ser::Result<Datum<'_>> {
        Ok(Datum::Str(Text::Borrowed(self.as_str())))
    }
}

impl<'de> Deserialize<'de> for String {
    ghost use Rattle.std.specs.Prelude.{string_bytes};
    ghost use Rattle.bson_kinds.specs.Text.{Utf8};
    ghost use Rattle.bson_shape.specs.Form.{leaf};
    ghost use Rattle.bson_shape.specs.declared.leaf.Leaf.TheVariants as leaves;
    ghost use Rattle.bson_type_data.specs.Scalars.{taken_text};

    ghost form = { leaf leaves.String };

    ghost Contents = { Utf8 };

    ghost contents = { λ s. string_bytes s };

    ghost taken = { taken_text };

    fn shape(_alloc: Global) -> Result<Shape, ShapeError> {
        Ok(Shape::string())
    }

    fn from_datum(alloc: Global, datum: Datum<'de>) -> de::Result<String> {
        match datum {
            Datum::Str(text) => Ok(string_of(alloc, text)?),
            other => Err(refuse(other)),
        }
    }
}

impl<'de> RoundTrip<'de> for String {
    ghost use Rattle.std.specs.Prelude.{◌≡◌, true, string_bytes};
    ghost use Rattle.std.specs.Str.{is_utf8};
    ghost use Rattle.bson_traits.specs.Prover.ScalarsBack.{string_returns};

    ghost is_value = { λ s. is_utf8 (string_bytes s) ≡ true };

    fn known(&self) {
        known_text(self.as_str());
    }

    ghost returns = { λ s. string_returns (string_bytes s) };
}

impl<'de> NeverNull<'de> for String {
    ghost use Rattle.std.specs.Prelude.{string_bytes};
    ghost use Rattle.bson_traits.specs.Prover.ScalarsBack.{string_not_null};

    ghost not_null = { λ s _. string_not_null (string_bytes s) };
}

impl<'de> EqualByContents<'de> for String {
    ghost use Rattle.bson_traits.specs.Prover.Equal.{string_equal};

    ghost equal = { string_equal };
}

impl<'a> Serialize for Text<'a> {
    ghost use Rattle.std.specs.Prelude.{Ok};
    ghost use Rattle.bson_values.specs.TextView.{text_view};
    ghost use Rattle.bson_values.specs.Value.{str};

    ghost written = { λ t. Ok (str (text_view t)) };

    fn to_datum(&self, _alloc: Global) -> ser::Result<Datum<'_>> {
        Ok(Datum::Str(Text::Borrowed(self.as_str())))
    }
}

impl<'de> Deserialize<'de> for Text<'de> {
    ghost use Rattle.bson_kinds.specs.Text.{Utf8};
    ghost use Rattle.bson_values.specs.TextView.{text_view};
    ghost use Rattle.bson_shape.specs.Form.{leaf};
    ghost use Rattle.bson_shape.specs.declared.leaf.Leaf.TheVariants as leaves;
    ghost use Rattle.bson_type_data.specs.Scalars.{taken_text};

    ghost form = { leaf leaves.Str };

    ghost Contents = { Utf8 };

    ghost contents = { λ t. text_view t };

    ghost taken = { taken_text };

    fn shape(_alloc: Global) -> Result<Shape, ShapeError>
        ensures shape { IsShapeOf (leaf leaves.Str) result }
    {
        Ok(Shape::str())
    }

    fn from_datum(_alloc: Global, datum: Datum<'de>) -> de::Result<Text<'de>> {
        match datum {
            Datum::Str(text) => Ok(text),
            other => Err(refuse(other)),
        }
    }
}

impl<'de> RoundTrip<'de> for Text<'de> {
    ghost use Rattle.std.specs.Prelude.{◌≡◌, true};
    ghost use Rattle.std.specs.Str.{is_utf8};
    ghost use Rattle.bson_values.specs.TextView.{text_view};
    ghost use Rattle.bson_traits.specs.Prover.ScalarsBack.{str_returns};

    ghost is_value = { λ t. is_utf8 (text_view t) ≡ true };

    fn known(&self) {
        known_text(self.as_str());
    }

    ghost returns = { λ t. str_returns (text_view t) };
}

impl<'de> NeverNull<'de> for Text<'de> {
    ghost use Rattle.bson_values.specs.TextView.{text_view};
    ghost use Rattle.bson_traits.specs.Prover.ScalarsBack.{string_not_null};

    ghost not_null = { λ t _. string_not_null (text_view t) };
}

impl<'de> EqualByContents<'de> for Text<'de> {
    ghost use Rattle.bson_values.specs.TextView.{text_view};
    ghost use Rattle.bson_traits.specs.Prover.Equal.{bytes_equal};

    ghost equal = { λ x y e. bytes_equal (text_view x) (text_view y) e };
}
