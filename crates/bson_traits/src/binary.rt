use crate::traits::{Deserialize, EqualByContents, NeverNull, RoundTrip, Serialize};
use bson_base::Binary;
use bson_datum::Datum;
use bson_rawdoc::reading::known_bytes;
use bson_shape::{Shape, ShapeError};
use bson_type_data::{binary_of, borrowed_binary};
use bson_values::{de, ser};
use std::alloc::Global;

impl Serialize for Binary {
    ghost use Rattle.std.specs.Prelude.{Ok};
    ghost use Rattle.bson_type_data.specs.Extended.{binary_datum};

    ghost written = { λ b. Ok (binary_datum (b.subtype.0, b.bytes.items)) };

    fn to_datum(&self, alloc: Global) -> ser::Result<Datum<'_>> {
        Ok(borrowed_binary(alloc, self)?)
    }
}

impl<'de> Deserialize<'de> for Binary {
    ghost use Rattle.std.specs.Prelude.{ℕ};
    ghost use Rattle.bson_kinds.specs.Text.{Bytes};
    ghost use Rattle.bson_shape.specs.Form.{leaf};
    ghost use Rattle.bson_shape.specs.declared.leaf.Leaf.TheVariants as leaves;
    ghost use Rattle.bson_type_data.specs.Extended.{taken_binary};

    ghost form = { leaf leaves.Binary };

    ghost Contents = { ℕ × Bytes };

    ghost contents = { λ b. (b.subtype.0, b.bytes.items) };

    ghost taken = { taken_binary };

    fn shape(_alloc: Global) -> Result<Shape, ShapeError> {
        Ok(Shape::binary())
    }

    fn from_datum(alloc: Global, datum: Datum<'de>) -> de::Result<Binary> {
        let value = binary_of(alloc, &datum);
        drop(datum);
        value
    }
}

impl<'de> RoundTrip<'de> for Binary {
    ghost use Rattle.std.specs.Prelude.{◌<◌};
    ghost use Rattle.bson_kinds.specs.Text.{AreBytes};
    ghost use Rattle.bson_traits.specs.Prover.ExtendedBack.{binary_returns};

    ghost is_value = { λ b. (b.subtype.0 < 256) × AreBytes b.bytes.items };

    fn known(&self) {
        let _subtype = self.subtype.0;
        known_bytes(&self.bytes);
    }

    ghost returns = { λ b h. binary_returns b.subtype.0 b.bytes.items h.0 h.1 };
}

impl<'de> NeverNull<'de> for Binary {
    ghost use Rattle.bson_traits.specs.Prover.ExtendedBack.{binary_not_null};

    ghost not_null = { λ b h. binary_not_null b.subtype.0 b.bytes.items h.0 h.1 };
}

impl<'de> EqualByContents<'de> for Binary {
    ghost use Rattle.bson_traits.specs.Prover.Equal.{binary_equal};

    ghost equal = { λ x y e. binary_equal x.subtype.0 x.bytes.items y.subtype.0 y.bytes.items e };
}
