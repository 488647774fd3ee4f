use crate::traits::{Deserialize, EqualByContents, NeverNull, RoundTrip, Serialize};
use bson_base::{DateTime, ObjectId, Timestamp};
use bson_datum::Datum;
use bson_shape::{Shape, ShapeError};
use bson_type_data::{date_datum, date_in, id_datum, id_in, known_twelve, stamp_datum, stamp_of};
use bson_values::{de, ser};
use std::alloc::Global;

impl Serialize for ObjectId {
    ghost use Rattle.std.specs.Prelude.{Ok};
    ghost use Rattle.bson_type_data.specs.Extended.{id_datum};

    ghost written = { λ id. Ok (id_datum id.0) };

    fn to_datum(&self, alloc: Global) -> ser::Result<Datum<'_>> {
        Ok(id_datum(alloc, *self)?)
    }
}

impl<'de> Deserialize<'de> for ObjectId {
    ghost use Rattle.bson_kinds.specs.Text.{Bytes};
    ghost use Rattle.bson_shape.specs.Form.{leaf};
    ghost use Rattle.bson_shape.specs.declared.leaf.Leaf.TheVariants as leaves;
    ghost use Rattle.bson_type_data.specs.Extended.{taken_id};

    ghost form = { leaf leaves.ObjectId };

    ghost Contents = { Bytes };

    ghost contents = { λ id. id.0 };

    ghost taken = { taken_id };

    fn shape(_alloc: Global) -> Result<Shape, ShapeError> {
        Ok(Shape::object_id())
    }

    fn from_datum(alloc: Global, datum: Datum<'de>) -> de::Result<ObjectId> {
        let value = id_in(alloc, &datum);
        drop(datum);
        value
    }
}

impl<'de> RoundTrip<'de> for ObjectId {
    ghost use Rattle.bson_base.specs.Sound.{HasBytes};
    ghost use Rattle.bson_traits.specs.Prover.ExtendedBack.{id_returns};

    ghost is_value = { λ id. HasBytes 12 id.0 };

    fn known(&self) {
        known_twelve(&self.0);
    }

    ghost returns = { λ id. id_returns id.0 };
}

impl<'de> NeverNull<'de> for ObjectId {
    ghost use Rattle.bson_traits.specs.Prover.ExtendedBack.{id_not_null};

    ghost not_null = { λ id. id_not_null id.0 };
}

impl<'de> EqualByContents<'de> for ObjectId {
    ghost use Rattle.bson_traits.specs.Prover.Equal.{bytes_equal};

    ghost equal = { λ x y e. bytes_equal x.0 y.0 e };
}

impl Serialize for DateTime {
    ghost use Rattle.std.specs.Prelude.{Ok};
    ghost use Rattle.bson_base.specs.Instant.{millis};
    ghost use Rattle.bson_type_data.specs.Extended.{date_datum};

    ghost written = { λ time. Ok (date_datum (millis time)) };

    fn to_datum(&self, alloc: Global) -> ser::Result<Datum<'_>> {
        Ok(date_datum(alloc, *self)?)
    }
}

impl<'de> Deserialize<'de> for DateTime {
    ghost use Rattle.std.specs.Prelude.{ℤ};
    ghost use Rattle.bson_base.specs.Instant.{millis};
    ghost use Rattle.bson_shape.specs.Form.{leaf};
    ghost use Rattle.bson_shape.specs.declared.leaf.Leaf.TheVariants as leaves;
    ghost use Rattle.bson_type_data.specs.Extended.{taken_date};

    ghost form = { leaf leaves.DateTime };

    ghost Contents = { ℤ };

    ghost contents = { λ time. millis time };

    ghost taken = { taken_date };

    fn shape(_alloc: Global) -> Result<Shape, ShapeError> {
        Ok(Shape::date_time())
    }

    fn from_datum(alloc: Global, datum: Datum<'de>) -> de::Result<DateTime> {
        let value = date_in(alloc, &datum);
        drop(datum);
        value
    }
}

impl<'de> RoundTrip<'de> for DateTime {
    ghost use Rattle.std.specs.Prelude.{FitsSigned};
    ghost use Rattle.std.specs.Int.{w64};
    ghost use Rattle.bson_base.specs.Instant.{millis};
    ghost use Rattle.bson_traits.specs.Prover.ExtendedBack.{date_returns};

    ghost is_value = { λ time. FitsSigned w64 (millis time) };

    fn known(&self) {
        let _milliseconds = self.timestamp_millis();
    }

    ghost returns = { λ time. date_returns (millis time) };
}

impl<'de> NeverNull<'de> for DateTime {
    ghost use Rattle.bson_base.specs.Instant.{millis};
    ghost use Rattle.bson_traits.specs.Prover.ExtendedBack.{date_not_null};

    ghost not_null = { λ time. date_not_null (millis time) };
}

impl<'de> EqualByContents<'de> for DateTime {
    ghost use Rattle.bson_base.specs.Instant.{millis};
    ghost use Rattle.bson_traits.specs.Prover.Equal.{int_equal};

    ghost equal = { λ x y e. int_equal (millis x) (millis y) e };
}

impl Serialize for Timestamp {
    ghost use Rattle.std.specs.Prelude.{Ok, pos};
    ghost use Rattle.bson_type_data.specs.Extended.{stamp_datum};

    ghost written = { λ stamp. Ok (stamp_datum (pos stamp.time, pos stamp.increment)) };

    fn to_datum(&self, alloc: Global) -> ser::Result<Datum<'_>> {
        Ok(stamp_datum(alloc, *self)?)
    }
}

impl<'de> Deserialize<'de> for Timestamp {
    ghost use Rattle.std.specs.Prelude.{ℤ, pos};
    ghost use Rattle.bson_shape.specs.Form.{leaf};
    ghost use Rattle.bson_shape.specs.declared.leaf.Leaf.TheVariants as leaves;
    ghost use Rattle.bson_type_data.specs.Extended.{taken_stamp};

    ghost form = { leaf leaves.Timestamp };

    ghost Contents = { ℤ × ℤ };

    ghost contents = { λ stamp. (pos stamp.time, pos stamp.increment) };

    ghost taken = { taken_stamp };

    fn shape(_alloc: Global) -> Result<Shape, ShapeError> {
        Ok(Shape::timestamp())
    }

    fn from_datum(alloc: Global, datum: Datum<'de>) -> de::Result<Timestamp> {
        let value = stamp_of(alloc, &datum);
        drop(datum);
        value
    }
}

impl<'de> RoundTrip<'de> for Timestamp {
    ghost use Rattle.std.specs.Prelude.{◌<◌, ◌^◌};
    ghost use Rattle.bson_traits.specs.Prover.ExtendedBack.{stamp_returns};

    ghost is_value = { λ stamp. (stamp.time < 2 ^ 32) × (stamp.increment < 2 ^ 32) };

    fn known(&self) {
        let (_time, _increment) = (self.time, self.increment);
    }

    ghost returns = { λ stamp h. stamp_returns stamp.time stamp.increment h.0 h.1 };
}

impl<'de> NeverNull<'de> for Timestamp {
    ghost use Rattle.bson_traits.specs.Prover.ExtendedBack.{stamp_not_null};

    ghost not_null = { λ stamp h. stamp_not_null stamp.time stamp.increment h.0 h.1 };
}

impl<'de> EqualByContents<'de> for Timestamp {
    ghost use Rattle.bson_traits.specs.Prover.Equal.{stamp_equal};

    ghost equal = { λ x y e. stamp_equal x.time x.increment y.time y.increment e };
}
