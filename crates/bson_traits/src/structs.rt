use crate::traits::{Deserialize, EqualByContents, NeverNull, RoundTrip, Serialize};
use bson_base::{DbPointer, Regex};
use bson_datum::Datum;
use bson_shape::{Shape, ShapeError};
use bson_type_data::{known_text, known_twelve, pointer_datum, pointer_of, regex_datum, regex_of};
use bson_values::{de, ser};
use std::alloc::Global;

impl Serialize for DbPointer {
    ghost use Rattle.std.specs.Prelude.{Ok};
    ghost use Rattle.std.specs.Prelude.{string_bytes};
    ghost use Rattle.bson_type_data.specs.Extended.{pointer_datum};

    ghost written = { λ p. Ok (pointer_datum (string_bytes p.namespace, p.id.0)) };

    fn to_datum(&self, alloc: Global) -> ser::Result<Datum<'_>> {
        Ok(pointer_datum(alloc, self.namespace.as_str(), self.id)?)
    }
}

impl<'de> Deserialize<'de> for DbPointer {
    ghost use Rattle.std.specs.Prelude.{string_bytes};
    ghost use Rattle.bson_kinds.specs.Text.{Bytes, Utf8};
    ghost use Rattle.bson_shape.specs.Form.{leaf};
    ghost use Rattle.bson_shape.specs.declared.leaf.Leaf.TheVariants as leaves;
    ghost use Rattle.bson_type_data.specs.Extended.{taken_pointer};

    ghost form = { leaf leaves.DbPointer };

    ghost Contents = { Utf8 × Bytes };

    ghost contents = { λ p. (string_bytes p.namespace, p.id.0) };

    ghost taken = { taken_pointer };

    fn shape(_alloc: Global) -> Result<Shape, ShapeError> {
        Ok(Shape::db_pointer())
    }

    fn from_datum(alloc: Global, datum: Datum<'de>) -> de::Result<DbPointer> {
        let value = pointer_of(alloc, &datum);
        drop(datum);
        value
    }
}

impl<'de> RoundTrip<'de> for DbPointer {
    ghost use Rattle.std.specs.Prelude.{◌≡◌, true, string_bytes};
    ghost use Rattle.std.specs.Str.{is_utf8};
    ghost use Rattle.bson_base.specs.Sound.{HasBytes};
    ghost use Rattle.bson_traits.specs.Prover.ExtendedBack.{pointer_returns};

    ghost is_value = { λ p. (is_utf8 (string_bytes p.namespace) ≡ true) × HasBytes 12 p.id.0 };

    fn known(&self) {
        known_text(self.namespace.as_str());
        known_twelve(&self.id.0);
    }

    ghost returns = { λ p h. pointer_returns (string_bytes p.namespace) p.id.0 h.0 h.1 };
}

impl<'de> NeverNull<'de> for DbPointer {
    ghost use Rattle.std.specs.Prelude.{string_bytes};
    ghost use Rattle.bson_traits.specs.Prover.ExtendedBack.{pointer_not_null};

    ghost not_null = { λ p h. pointer_not_null (string_bytes p.namespace) p.id.0 h.0 h.1 };
}

impl<'de> EqualByContents<'de> for DbPointer {
    ghost use Rattle.std.specs.Prelude.{string_bytes};
    ghost use Rattle.bson_traits.specs.Prover.Equal.{pointer_equal};

    ghost equal = { λ x y e. pointer_equal (string_bytes x.namespace) x.id.0 (string_bytes y.namespace) y.id.0 e };
}

impl Serialize for Regex {
    ghost use Rattle.std.specs.Prelude.{Ok};
    ghost use Rattle.bson_type_data.specs.Extended.{regex_datum};

    ghost written = { λ r. Ok (regex_datum (r.pattern, r.options)) };

    fn to_datum(&self, alloc: Global) -> ser::Result<Datum<'_>> {
        Ok(regex_datum(alloc, self.pattern(), self.options())?)
    }
}

impl<'de> Deserialize<'de> for Regex {
    ghost use Rattle.bson_kinds.specs.Text.{Utf8};
    ghost use Rattle.bson_shape.specs.Form.{leaf};
    ghost use Rattle.bson_shape.specs.declared.leaf.Leaf.TheVariants as leaves;
    ghost use Rattle.bson_type_data.specs.Extended.{taken_regex};

    ghost form = { leaf leaves.Regex };

    ghost Contents = { Utf8 × Utf8 };

    ghost contents = { λ r. (r.pattern, r.options) };

    ghost taken = { taken_regex };

    fn shape(_alloc: Global) -> Result<Shape, ShapeError> {
        Ok(Shape::regex())
    }

    fn from_datum(alloc: Global, datum: Datum<'de>) -> de::Result<Regex> {
        let value = regex_of(alloc, &datum);
        drop(datum);
        value
    }
}

impl<'de> RoundTrip<'de> for Regex {
    ghost use Rattle.std.specs.Prelude.{◌≡◌, true};
    ghost use Rattle.std.specs.Str.{is_utf8};
    ghost use Rattle.bson_base.specs.Sorted.{sorted};
    ghost use Rattle.bson_traits.specs.Prover.ExtendedBack.{regex_returns};

    ghost is_value = { λ r. (is_utf8 r.pattern ≡ true) × (is_utf8 r.options ≡ true) × (sorted r.options ≡ r.options) };

    fn known(&self) {
        known_text(self.pattern());
        known_text(self.options());
    }

    ghost returns = { λ r h. regex_returns r.pattern r.options h.0 h.1 h.2 };
}

impl<'de> NeverNull<'de> for Regex {
    ghost use Rattle.bson_traits.specs.Prover.ExtendedBack.{regex_not_null};

    ghost not_null = { λ r h. regex_not_null r.pattern r.options h.0 h.1 };
}

impl<'de> EqualByContents<'de> for Regex {
    ghost use Rattle.bson_traits.specs.Prover.Equal.{regex_equal};

    ghost equal = { λ x y e. regex_equal x.pattern x.options y.pattern y.options e };
}
