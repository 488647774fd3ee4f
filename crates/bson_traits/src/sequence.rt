ghost use Rattle.std.specs.Prelude.{map};
ghost use Rattle.bson_values.specs.Returned.{Reads};
ghost use Rattle.bson_datum.specs.View.{items_view};
ghost use Rattle.bson_traits.specs.Sequences.{taken_items};

use crate::shapes::sequence_shape;
use crate::traits::{Deserialize, EqualByContents, NeverNull, RoundTrip, Serialize};
use bson_datum::Datum;
use bson_growing::push;
use bson_shape::{Shape, ShapeError};
use bson_type_data::refuse;
use bson_values::{de, ser};
use std::alloc::Global;

impl<T: Serialize> Serialize for Vec<T> {
    ghost use Rattle.bson_traits.specs.Sequences.{written_sequence};

    ghost written = { λ xs. written_sequence T.written xs.items };

    fn to_datum(&self, alloc: Global) -> ser::Result<Datum<'_>> {
        let mut items = Vec::new(alloc);
        for x in self {
            push(&mut items, x.to_datum(alloc)?)?;
        }
        Ok(Datum::Seq(items))
    }
}

impl<'de, T: Deserialize<'de> + Drop> Deserialize<'de> for Vec<T> {
    ghost use Rattle.std.specs.Prelude.{List, map};
    ghost use Rattle.bson_shape.specs.Form as forms;
    ghost use Rattle.bson_traits.specs.Sequences.{taken_sequence};

    ghost form = { forms.sequence T.form };

    ghost Contents = { List T.Contents };

    ghost contents = { λ xs. map T.contents xs.items };

    ghost taken = { taken_sequence T.taken };

    fn shape(alloc: Global) -> Result<Shape, ShapeError> {
        sequence_shape(alloc, T::shape(alloc)?)
    }

    #[tactic(auto, using(bson_datum::proofs::Views::item_rows_items))]
    fn from_datum(alloc: Global, datum: Datum<'de>) -> de::Result<Vec<T>> {
        match datum {
            Datum::Seq(items) => values_of(alloc, items),
            other => Err(refuse(other)),
        }
    }
}

impl<'de, T: RoundTrip<'de> + Drop> RoundTrip<'de> for Vec<T> {
    ghost use Rattle.std.specs.List.{All};
    ghost use Rattle.bson_traits.specs.Prover.SequencesBack.{sequence_returns};

    ghost is_value = { λ xs. All T.is_value xs.items };

    fn known(&self) {
        for x in self {
            x.known();
        }
    }

    ghost returns = { λ xs all. sequence_returns T.Serialize.written T.Deserialize.contents T.Deserialize.taken T.Deserialize.form T.is_value T.returns xs.items all };
}

impl<'de, T: RoundTrip<'de> + Drop> NeverNull<'de> for Vec<T> {
    ghost use Rattle.bson_traits.specs.Prover.SequencesBack.{sequence_not_null};
    ghost use Rattle.bson_traits.specs.Sequences.{written_items};

    ghost not_null = { λ xs all. sequence_not_null (written_items T.Serialize.written xs.items) };
}

impl<'de, T: EqualByContents<'de> + Drop> EqualByContents<'de> for Vec<T> {
    ghost use Rattle.bson_traits.specs.Prover.Equal.{items_equal};

    ghost equal = { λ xs ys e. items_equal T.contents T.eq T.equal xs.items ys.items e };
}

// The values that data give.
fn values_of<'de, T: Deserialize<'de> + Drop>(
    alloc: Global,
    items: Vec<Datum<'de>>,
) -> de::Result<Vec<T>>
    ensures { Reads (λ xs. map T.contents xs.items) result (taken_items T.taken (items_view items.entry.items)) }
{
    let mut values = Vec::new(alloc);
    for item in items {
        push(&mut values, T::from_datum(alloc, item)?)?;
    }
    Ok(values)
}
