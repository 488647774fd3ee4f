use crate::traits::{Deserialize, EqualByContents, NeverNull, RoundTrip, Serialize};
use bson_datum::Datum;
use bson_shape::{Shape, ShapeError};
use bson_type_data::{i8_in, i16_in, i32_in, i64_in, u8_in, u16_in, u32_in, u64_in};
use bson_values::{de, ser};
use std::alloc::Global;

impl Serialize for i8 {
    ghost use Rattle.std.specs.Prelude.{Ok};
    ghost use Rattle.bson_values.specs.Value.{integer, i8};

    ghost written = { λ n. Ok (integer i8 n) };

    fn to_datum(&self, _alloc: Global) -> ser::Result<Datum<'_>> {
        Ok(Datum::I8(*self))
    }
}

impl<'de> Deserialize<'de> for i8 {
    ghost use Rattle.std.specs.Prelude.{ℤ};
    ghost use Rattle.bson_shape.specs.Form.{leaf};
    ghost use Rattle.bson_shape.specs.declared.leaf.Leaf.TheVariants as leaves;
    ghost use Rattle.bson_type_data.specs.Scalars.{taken_i8};

    ghost form = { leaf leaves.I8 };

    ghost Contents = { ℤ };

    ghost contents = { λ n. n };

    ghost taken = { taken_i8 };

    fn shape(_alloc: Global) -> Result<Shape, ShapeError> {
        Ok(Shape::i8())
    }

    fn from_datum(_alloc: Global, datum: Datum<'de>) -> de::Result<i8> {
        let value = i8_in(&datum);
        drop(datum);
        value
    }
}

impl<'de> RoundTrip<'de> for i8 {
    ghost use Rattle.std.specs.Prelude.{FitsSigned};
    ghost use Rattle.std.specs.Int.{w8};
    ghost use Rattle.bson_traits.specs.Prover.ScalarsBack.{i8_returns};

    ghost is_value = { λ n. FitsSigned w8 n };

    fn known(&self) {
        let _number = *self;
    }

    ghost returns = { i8_returns };
}

impl<'de> NeverNull<'de> for i8 {
    ghost use Rattle.bson_traits.specs.Prover.ScalarsBack.{i8_not_null};

    ghost not_null = { λ n _. i8_not_null n };
}

impl<'de> EqualByContents<'de> for i8 {
    ghost use Rattle.bson_traits.specs.Prover.Equal.{int_equal};

    ghost equal = { int_equal };
}

impl Serialize for i16 {
    ghost use Rattle.std.specs.Prelude.{Ok};
    ghost use Rattle.bson_values.specs.Value.{integer, i16};

    ghost written = { λ n. Ok (integer i16 n) };

    fn to_datum(&self, _alloc: Global) -> ser::Result<Datum<'_>> {
        Ok(Datum::I16(*self))
    }
}

impl<'de> Deserialize<'de> for i16 {
    ghost use Rattle.std.specs.Prelude.{ℤ};
    ghost use Rattle.bson_shape.specs.Form.{leaf};
    ghost use Rattle.bson_shape.specs.declared.leaf.Leaf.TheVariants as leaves;
    ghost use Rattle.bson_type_data.specs.Scalars.{taken_i16};

    ghost form = { leaf leaves.I16 };

    ghost Contents = { ℤ };

    ghost contents = { λ n. n };

    ghost taken = { taken_i16 };

    fn shape(_alloc: Global) -> Result<Shape, ShapeError> {
        Ok(Shape::i16())
    }

    fn from_datum(_alloc: Global, datum: Datum<'de>) -> de::Result<i16> {
        let value = i16_in(&datum);
        drop(datum);
        value
    }
}

impl<'de> RoundTrip<'de> for i16 {
    ghost use Rattle.std.specs.Prelude.{FitsSigned};
    ghost use Rattle.std.specs.Int.{w16};
    ghost use Rattle.bson_traits.specs.Prover.ScalarsBack.{i16_returns};

    ghost is_value = { λ n. FitsSigned w16 n };

    fn known(&self) {
        let _number = *self;
    }

    ghost returns = { i16_returns };
}

impl<'de> NeverNull<'de> for i16 {
    ghost use Rattle.bson_traits.specs.Prover.ScalarsBack.{i16_not_null};

    ghost not_null = { λ n _. i16_not_null n };
}

impl<'de> EqualByContents<'de> for i16 {
    ghost use Rattle.bson_traits.specs.Prover.Equal.{int_equal};

    ghost equal = { int_equal };
}

impl Serialize for i32 {
    ghost use Rattle.std.specs.Prelude.{Ok};
    ghost use Rattle.bson_values.specs.Value.{integer, i32};

    ghost written = { λ n. Ok (integer i32 n) };

    fn to_datum(&self, _alloc: Global) -> ser::Result<Datum<'_>> {
        Ok(Datum::I32(*self))
    }
}

impl<'de> Deserialize<'de> for i32 {
    ghost use Rattle.std.specs.Prelude.{ℤ};
    ghost use Rattle.bson_shape.specs.Form.{leaf};
    ghost use Rattle.bson_shape.specs.declared.leaf.Leaf.TheVariants as leaves;
    ghost use Rattle.bson_type_data.specs.Scalars.{taken_i32};

    ghost form = { leaf leaves.I32 };

    ghost Contents = { ℤ };

    ghost contents = { λ n. n };

    ghost taken = { taken_i32 };

    fn shape(_alloc: Global) -> Result<Shape, ShapeError> {
        Ok(Shape::i32())
    }

    fn from_datum(_alloc: Global, datum: Datum<'de>) -> de::Result<i32> {
        let value = i32_in(&datum);
        drop(datum);
        value
    }
}

impl<'de> RoundTrip<'de> for i32 {
    ghost use Rattle.std.specs.Prelude.{FitsSigned};
    ghost use Rattle.std.specs.Int.{w32};
    ghost use Rattle.bson_traits.specs.Prover.ScalarsBack.{i32_returns};

    ghost is_value = { λ n. FitsSigned w32 n };

    fn known(&self) {
        let _number = *self;
    }

    ghost returns = { i32_returns };
}

impl<'de> NeverNull<'de> for i32 {
    ghost use Rattle.bson_traits.specs.Prover.ScalarsBack.{i32_not_null};

    ghost not_null = { λ n _. i32_not_null n };
}

impl<'de> EqualByContents<'de> for i32 {
    ghost use Rattle.bson_traits.specs.Prover.Equal.{int_equal};

    ghost equal = { int_equal };
}

impl Serialize for i64 {
    ghost use Rattle.std.specs.Prelude.{Ok};
    ghost use Rattle.bson_values.specs.Value.{integer, i64};

    ghost written = { λ n. Ok (integer i64 n) };

    fn to_datum(&self, _alloc: Global) -> ser::Result<Datum<'_>> {
        Ok(Datum::I64(*self))
    }
}

impl<'de> Deserialize<'de> for i64 {
    ghost use Rattle.std.specs.Prelude.{ℤ};
    ghost use Rattle.bson_shape.specs.Form.{leaf};
    ghost use Rattle.bson_shape.specs.declared.leaf.Leaf.TheVariants as leaves;
    ghost use Rattle.bson_type_data.specs.Scalars.{taken_i64};

    ghost form = { leaf leaves.I64 };

    ghost Contents = { ℤ };

    ghost contents = { λ n. n };

    ghost taken = { taken_i64 };

    fn shape(_alloc: Global) -> Result<Shape, ShapeError> {
        Ok(Shape::i64())
    }

    fn from_datum(_alloc: Global, datum: Datum<'de>) -> de::Result<i64> {
        let value = i64_in(&datum);
        drop(datum);
        value
    }
}

impl<'de> RoundTrip<'de> for i64 {
    ghost use Rattle.std.specs.Prelude.{FitsSigned};
    ghost use Rattle.std.specs.Int.{w64};
    ghost use Rattle.bson_traits.specs.Prover.ScalarsBack.{i64_returns};

    ghost is_value = { λ n. FitsSigned w64 n };

    fn known(&self) {
        let _number = *self;
    }

    ghost returns = { i64_returns };
}

impl<'de> NeverNull<'de> for i64 {
    ghost use Rattle.bson_traits.specs.Prover.ScalarsBack.{i64_not_null};

    ghost not_null = { λ n _. i64_not_null n };
}

impl<'de> EqualByContents<'de> for i64 {
    ghost use Rattle.bson_traits.specs.Prover.Equal.{int_equal};

    ghost equal = { int_equal };
}

impl Serialize for u8 {
    ghost use Rattle.std.specs.Prelude.{Ok, pos};
    ghost use Rattle.bson_values.specs.Value.{integer, u8};

    ghost written = { λ n. Ok (integer u8 (pos n)) };

    fn to_datum(&self, _alloc: Global) -> ser::Result<Datum<'_>> {
        Ok(Datum::U8(*self))
    }
}

impl<'de> Deserialize<'de> for u8 {
    ghost use Rattle.std.specs.Prelude.{ℕ};
    ghost use Rattle.bson_shape.specs.Form.{leaf};
    ghost use Rattle.bson_shape.specs.declared.leaf.Leaf.TheVariants as leaves;
    ghost use Rattle.bson_type_data.specs.Scalars.{taken_u8};

    ghost form = { leaf leaves.U8 };

    ghost Contents = { ℕ };

    ghost contents = { λ n. n };

    ghost taken = { taken_u8 };

    fn shape(_alloc: Global) -> Result<Shape, ShapeError> {
        Ok(Shape::u8())
    }

    fn from_datum(_alloc: Global, datum: Datum<'de>) -> de::Result<u8> {
        let value = u8_in(&datum);
        drop(datum);
        value
    }
}

impl<'de> RoundTrip<'de> for u8 {
    ghost use Rattle.std.specs.Prelude.{◌<◌, ◌^◌};
    ghost use Rattle.bson_traits.specs.Prover.ScalarsBack.{u8_returns};

    ghost is_value = { λ n. n < 2 ^ 8 };

    fn known(&self) {
        let _number = *self;
    }

    ghost returns = { u8_returns };
}

impl<'de> NeverNull<'de> for u8 {
    ghost use Rattle.bson_traits.specs.Prover.ScalarsBack.{u8_not_null};

    ghost not_null = { λ n _. u8_not_null n };
}

impl<'de> EqualByContents<'de> for u8 {
    ghost use Rattle.bson_traits.specs.Prover.Equal.{nat_equal};

    ghost equal = { nat_equal };
}

impl Serialize for u16 {
    ghost use Rattle.std.specs.Prelude.{Ok, pos};
    ghost use Rattle.bson_values.specs.Value.{integer, u16};

    ghost written = { λ n. Ok (integer u16 (pos n)) };

    fn to_datum(&self, _alloc: Global) -> ser::Result<Datum<'_>> {
        Ok(Datum::U16(*self))
    }
}

impl<'de> Deserialize<'de> for u16 {
    ghost use Rattle.std.specs.Prelude.{ℕ};
    ghost use Rattle.bson_shape.specs.Form.{leaf};
    ghost use Rattle.bson_shape.specs.declared.leaf.Leaf.TheVariants as leaves;
    ghost use Rattle.bson_type_data.specs.Scalars.{taken_u16};

    ghost form = { leaf leaves.U16 };

    ghost Contents = { ℕ };

    ghost contents = { λ n. n };

    ghost taken = { taken_u16 };

    fn shape(_alloc: Global) -> Result<Shape, ShapeError> {
        Ok(Shape::u16())
    }

    fn from_datum(_alloc: Global, datum: Datum<'de>) -> de::Result<u16> {
        let value = u16_in(&datum);
        drop(datum);
        value
    }
}

impl<'de> RoundTrip<'de> for u16 {
    ghost use Rattle.std.specs.Prelude.{◌<◌, ◌^◌};
    ghost use Rattle.bson_traits.specs.Prover.ScalarsBack.{u16_returns};

    ghost is_value = { λ n. n < 2 ^ 16 };

    fn known(&self) {
        let _number = *self;
    }

    ghost returns = { u16_returns };
}

impl<'de> NeverNull<'de> for u16 {
    ghost use Rattle.bson_traits.specs.Prover.ScalarsBack.{u16_not_null};

    ghost not_null = { λ n _. u16_not_null n };
}

impl<'de> EqualByContents<'de> for u16 {
    ghost use Rattle.bson_traits.specs.Prover.Equal.{nat_equal};

    ghost equal = { nat_equal };
}

impl Serialize for u32 {
    ghost use Rattle.std.specs.Prelude.{Ok, pos};
    ghost use Rattle.bson_values.specs.Value.{integer, u32};

    ghost written = { λ n. Ok (integer u32 (pos n)) };

    fn to_datum(&self, _alloc: Global) -> ser::Result<Datum<'_>> {
        Ok(Datum::U32(*self))
    }
}

impl<'de> Deserialize<'de> for u32 {
    ghost use Rattle.std.specs.Prelude.{ℕ};
    ghost use Rattle.bson_shape.specs.Form.{leaf};
    ghost use Rattle.bson_shape.specs.declared.leaf.Leaf.TheVariants as leaves;
    ghost use Rattle.bson_type_data.specs.Scalars.{taken_u32};

    ghost form = { leaf leaves.U32 };

    ghost Contents = { ℕ };

    ghost contents = { λ n. n };

    ghost taken = { taken_u32 };

    fn shape(_alloc: Global) -> Result<Shape, ShapeError> {
        Ok(Shape::u32())
    }

    fn from_datum(_alloc: Global, datum: Datum<'de>) -> de::Result<u32> {
        let value = u32_in(&datum);
        drop(datum);
        value
    }
}

impl<'de> RoundTrip<'de> for u32 {
    ghost use Rattle.std.specs.Prelude.{◌<◌, ◌^◌};
    ghost use Rattle.bson_traits.specs.Prover.ScalarsBack.{u32_returns};

    ghost is_value = { λ n. n < 2 ^ 32 };

    fn known(&self) {
        let _number = *self;
    }

    ghost returns = { u32_returns };
}

impl<'de> NeverNull<'de> for u32 {
    ghost use Rattle.bson_traits.specs.Prover.ScalarsBack.{u32_not_null};

    ghost not_null = { λ n _. u32_not_null n };
}

impl<'de> EqualByContents<'de> for u32 {
    ghost use Rattle.bson_traits.specs.Prover.Equal.{nat_equal};

    ghost equal = { nat_equal };
}

impl Serialize for u64 {
    ghost use Rattle.std.specs.Prelude.{Ok, pos};
    ghost use Rattle.bson_values.specs.Value.{integer, u64};

    ghost written = { λ n. Ok (integer u64 (pos n)) };

    fn to_datum(&self, _alloc: Global) -> ser::Result<Datum<'_>> {
        Ok(Datum::U64(*self))
    }
}

impl<'de> Deserialize<'de> for u64 {
    ghost use Rattle.std.specs.Prelude.{ℕ};
    ghost use Rattle.bson_shape.specs.Form.{leaf};
    ghost use Rattle.bson_shape.specs.declared.leaf.Leaf.TheVariants as leaves;
    ghost use Rattle.bson_type_data.specs.Scalars.{taken_u64};

    ghost form = { leaf leaves.U64 };

    ghost Contents = { ℕ };

    ghost contents = { λ n. n };

    ghost taken = { taken_u64 };

    fn shape(_alloc: Global) -> Result<Shape, ShapeError> {
        Ok(Shape::u64())
    }

    fn from_datum(_alloc: Global, datum: Datum<'de>) -> de::Result<u64> {
        let value = u64_in(&datum);
        drop(datum);
        value
    }
}

impl<'de> RoundTrip<'de> for u64 {
    ghost use Rattle.std.specs.Prelude.{◌<◌, ◌^◌};
    ghost use Rattle.bson_traits.specs.Prover.ScalarsBack.{u64_returns};

    ghost is_value = { λ n. n < 2 ^ 64 };

    fn known(&self) {
        let _number = *self;
    }

    ghost returns = { u64_returns };
}

impl<'de> NeverNull<'de> for u64 {
    ghost use Rattle.bson_traits.specs.Prover.ScalarsBack.{u64_not_null};

    ghost not_null = { λ n _. u64_not_null n };
}

impl<'de> EqualByContents<'de> for u64 {
    ghost use Rattle.bson_traits.specs.Prover.Equal.{nat_equal};

    ghost equal = { nat_equal };
}
