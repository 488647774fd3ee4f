use bson::{
    Datum, Deserialize, EqualByContents, FieldShapes, NeverNull, RoundTrip, Serialize, Shape,
    ShapeError, StructFields, add_field, de, ser, struct_datum,
};
use std::alloc::Global;

/// A cat.
#[derive(Debug, PartialEq, Eq, Drop)]
pub struct Cat {
    /// Its name.
    pub name: String,
    /// Its age in years.
    pub age: i32,
}

impl Serialize for Cat {
    ghost use Rattle.bson_example_types.specs.Cat.{written_cat};

    ghost written = { written_cat };

    fn to_datum(&self, alloc: Global) -> ser::Result<Datum<'_>> {
        let mut fields = Vec::new(alloc);
        add_field(&mut fields, "name", self.name.to_datum(alloc)?)?;
        add_field(&mut fields, "age", self.age.to_datum(alloc)?)?;
        Ok(struct_datum("Cat", fields))
    }
}

impl<'de> Deserialize<'de> for Cat {
    ghost use Rattle.bson_example_types.specs.Cat.{cat_form, CatContents, cat_contents, taken_cat};

    ghost form = { cat_form };

    ghost Contents = { CatContents };

    ghost contents = { cat_contents };

    ghost taken = { taken_cat };

    fn shape(alloc: Global) -> Result<Shape, ShapeError> {
        let mut fields = FieldShapes::new(alloc);
        fields.add(alloc, "name", <String as Deserialize<'de>>::shape(alloc)?)?;
        fields.add(alloc, "age", <i32 as Deserialize<'de>>::shape(alloc)?)?;
        fields.into_struct(alloc, "Cat")
    }

    fn from_datum(alloc: Global, datum: Datum<'de>) -> de::Result<Cat> {
        let mut fields = StructFields::of("Cat", datum)?;
        let name = fields.next(alloc, "name")?;
        let age = fields.next(alloc, "age")?;
        fields.end()?;
        Ok(Cat { name, age })
    }
}

impl<'de> RoundTrip<'de> for Cat {
    ghost use Rattle.bson_example_types.specs.Cat.{IsCat, cat_returns};

    ghost is_value = { IsCat };

    fn known(&self) {
        self.name.known();
        self.age.known();
    }

    ghost returns = { cat_returns };
}

impl<'de> NeverNull<'de> for Cat {
    ghost use Rattle.bson_example_types.specs.Cat.{cat_not_null};

    ghost not_null = { λ cat _. cat_not_null cat };
}

impl<'de> EqualByContents<'de> for Cat {
    ghost use Rattle.bson.specs.Equal.{int_equal, string_equal, and_equal};

    ghost equal = { λ x y e. and_equal _ _ (string_equal x.name y.name (λ i. (e i).0)) (int_equal x.age y.age (λ i. (e i).1)) };
}
