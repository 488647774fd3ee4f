use crate::cat::Cat;
use bson::{
    Datum, Deserialize, EqualByContents, NeverNull, RoundTrip, Serialize, Shape, ShapeError,
    VariantShapes, de, is_unit_variant, newtype_value, newtype_variant, not_fitting, ser,
    unit_variant,
};
use std::alloc::Global;

/// Whom one lives with.
#[derive(Debug, PartialEq, Eq, Drop)]
pub enum Pet {
    /// An animal that comes and goes.
    Stray,
    /// A cat.
    Cat(Cat),
}

impl Serialize for Pet {
    ghost use Rattle.bson_example_types.specs.Pet.{written_pet};

    ghost written = { written_pet };

    fn to_datum(&self, alloc: Global) -> ser::Result<Datum<'_>> {
        match self {
            Pet::Stray => Ok(unit_variant("Stray")),
            Pet::Cat(value) => {
                let value = value.to_datum(alloc)?;
                let datum = newtype_variant(alloc, "Cat", value)?;
                Ok(datum)
            }
        }
    }
}

impl<'de> Deserialize<'de> for Pet {
    ghost use Rattle.bson_example_types.specs.Pet.{pet_form, PetContents, pet_contents, taken_pet};

    ghost form = { pet_form };

    ghost Contents = { PetContents };

    ghost contents = { pet_contents };

    ghost taken = { taken_pet };

    fn shape(alloc: Global) -> Result<Shape, ShapeError> {
        let mut variants = VariantShapes::new(alloc);
        variants.add_unit(alloc, "Stray")?;
        variants.add_newtype(alloc, "Cat", <Cat as Deserialize<'de>>::shape(alloc)?)?;
        variants.into_enum()
    }

    fn from_datum(alloc: Global, datum: Datum<'de>) -> de::Result<Pet> {
        if is_unit_variant(&datum, "Stray") {
            return Ok(Pet::Stray);
        }
        let _datum = match newtype_value(datum, "Cat") {
            Ok(value) => {
                let value = <Cat as Deserialize<'de>>::from_datum(alloc, value)?;
                return Ok(Pet::Cat(value));
            }
            Err(datum) => datum,
        };
        Err(not_fitting())
    }
}

impl<'de> RoundTrip<'de> for Pet {
    ghost use Rattle.bson_example_types.specs.Pet.{IsPet, pet_returns};

    ghost is_value = { IsPet };

    fn known(&self) {
        match self {
            Pet::Stray => {}
            Pet::Cat(value) => value.known(),
        }
    }

    ghost returns = { pet_returns };
}

impl<'de> NeverNull<'de> for Pet {
    ghost use Rattle.bson_example_types.specs.Pet.{pet_not_null};

    ghost not_null = { λ pet _. pet_not_null pet };
}

impl<'de> EqualByContents<'de> for Pet {
    ghost use Rattle.std.specs.Prelude.{refl};
    ghost use Rattle.bson.specs.Equal.{int_equal, string_equal, and_equal};
    ghost use Rattle.bson_example_types.specs.Pet.{pet_equal};

    ghost equal = { λ x y e. pet_equal ⟦<crate::pet::Pet as PartialEq>⟧.eq refl (λ x0 y0 e0. and_equal _ _ (string_equal x0.name y0.name (λ i. (e0 i).0)) (int_equal x0.age y0.age (λ i. (e0 i).1))) x y e };
}
