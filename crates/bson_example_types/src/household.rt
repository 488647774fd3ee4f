use crate::pet::Pet;
use bson::{
    Datum, Deserialize, EqualByContents, FieldShapes, NeverNull, RoundTrip, Serialize, Shape,
    ShapeError, StructFields, add_field, de, ser, struct_datum,
};
use std::alloc::Global;

/// A person, with pets.
#[derive(Debug, PartialEq, Eq, Drop)]
pub struct Person {
    /// The name.
    pub name: String,
    /// The age in years.
    pub age: i64,
    /// Whom the person lives with.
    pub pets: Vec<Pet>,
}

impl Serialize for Person {
    ghost use Rattle.bson_example_types.specs.Person.{written_person};

    ghost written = { written_person };

    fn to_datum(&self, alloc: Global) -> ser::Result<Datum<'_>> {
        let mut fields = Vec::new(alloc);
        add_field(&mut fields, "name", self.name.to_datum(alloc)?)?;
        add_field(&mut fields, "age", self.age.to_datum(alloc)?)?;
        add_field(&mut fields, "pets", self.pets.to_datum(alloc)?)?;
        Ok(struct_datum("Person", fields))
    }
}

impl<'de> Deserialize<'de> for Person {
    ghost use Rattle.bson_example_types.specs.Person.{person_form, PersonContents, person_contents, taken_person};

    ghost form = { person_form };

    ghost Contents = { PersonContents };

    ghost contents = { person_contents };

    ghost taken = { taken_person };

    fn shape(alloc: Global) -> Result<Shape, ShapeError> {
        let mut fields = FieldShapes::new(alloc);
        fields.add(alloc, "name", <String as Deserialize<'de>>::shape(alloc)?)?;
        fields.add(alloc, "age", <i64 as Deserialize<'de>>::shape(alloc)?)?;
        fields.add(alloc, "pets", <Vec<Pet> as Deserialize<'de>>::shape(alloc)?)?;
        fields.into_struct(alloc, "Person")
    }

    fn from_datum(alloc: Global, datum: Datum<'de>) -> de::Result<Person> {
        let mut fields = StructFields::of("Person", datum)?;
        let name = fields.next(alloc, "name")?;
        let age = fields.next(alloc, "age")?;
        let pets = fields.next(alloc, "pets")?;
        fields.end()?;
        Ok(Person { name, age, pets })
    }
}

impl<'de> RoundTrip<'de> for Person {
    ghost use Rattle.bson_example_types.specs.Person.{IsPerson, person_returns};

    ghost is_value = { IsPerson };

    fn known(&self) {
        self.name.known();
        self.age.known();
        self.pets.known();
    }

    ghost returns = { person_returns };
}

impl<'de> NeverNull<'de> for Person {
    ghost use Rattle.bson_example_types.specs.Person.{person_not_null};

    ghost not_null = { λ person _. person_not_null person };
}

impl<'de> EqualByContents<'de> for Person {
    ghost use Rattle.std.specs.Prelude.{refl};
    ghost use Rattle.bson.specs.Equal.{int_equal, string_equal, and_equal, items_equal};
    ghost use Rattle.bson_example_types.specs.Pet.{pet_contents, pet_equal};

    ghost equal = { λ x y e. and_equal _ _ (string_equal x.name y.name (λ i. (e i).0)) (and_equal _ _ (int_equal x.age y.age (λ i. (e i).1.0)) (items_equal pet_contents _ (λ x0 y0 e0. pet_equal ⟦<crate::pet::Pet as PartialEq>⟧.eq refl (λ x0 y0 e0. and_equal _ _ (string_equal x0.name y0.name (λ i. (e0 i).0)) (int_equal x0.age y0.age (λ i. (e0 i).1))) x0 y0 e0) x.pets.items y.pets.items (λ i. (e i).1.1))) };
}
