ghost use Rattle.std.specs.Prelude.{◌≡◌, IfOk, string_bytes};
ghost use Rattle.bson_values.specs.Returned.{Reads};
ghost use Rattle.bson_datum.specs.View.{view, entries_view};
ghost use Rattle.bson_traits.specs.Maps.{map_contents, taken_pairs, are_texts, is_text, key_text};

use crate::shapes::map_shape;
use crate::traits::{Deserialize, EqualByContents, NeverNull, RoundTrip, Serialize};
use bson_datum::{Datum, Entry};
use bson_growing::{push, put};
use bson_shape::{Shape, ShapeError};
use bson_type_data::{known_text, not_fitting, refuse, string_of};
use bson_values::{Text, de, ser};
use std::alloc::{AllocError, Global};
use std::collections::BTreeMap;

impl<T: Serialize> Serialize for BTreeMap<String, T> {
    ghost use Rattle.bson_traits.specs.Maps.{written_map};

    ghost written = { λ m. written_map T.written m.entries };

    fn to_datum(&self, alloc: Global) -> ser::Result<Datum<'_>> {
        let mut entries = Vec::new(alloc);
        for (text, part) in self {
            let value = part.to_datum(alloc)?;
            push(
                &mut entries,
                Entry {
                    key: Datum::Str(Text::Borrowed(text.as_str())),
                    value,
                },
            )?;
        }
        Ok(Datum::Map(entries))
    }
}

impl<'de, T: Deserialize<'de> + Drop> Deserialize<'de> for BTreeMap<String, T> {
    ghost use Rattle.std.specs.Prelude.{List};
    ghost use Rattle.bson_kinds.specs.Text.{Utf8};
    ghost use Rattle.bson_shape.specs.Form as forms;
    ghost use Rattle.bson_shape.specs.Form.{leaf};
    ghost use Rattle.bson_shape.specs.declared.leaf.Leaf.TheVariants as leaves;
    ghost use Rattle.bson_traits.specs.Maps.{map_contents, taken_map};

    ghost form = { forms.map (leaf leaves.String) T.form };

    ghost Contents = { List (Utf8 × T.Contents) };

    ghost contents = { λ m. map_contents T.contents m.entries };

    ghost taken = { taken_map T.taken };

    fn shape(alloc: Global) -> Result<Shape, ShapeError> {
        map_shape(alloc, T::shape(alloc)?)
    }

    #[tactic(auto, using(bson_datum::proofs::Views::entry_rows_items))]
    fn from_datum(alloc: Global, datum: Datum<'de>) -> de::Result<BTreeMap<String, T>> {
        match datum {
            Datum::Map(entries) => map_of(alloc, entries),
            other => Err(refuse(other)),
        }
    }
}

impl<'de, T: RoundTrip<'de> + Drop> RoundTrip<'de> for BTreeMap<String, T> {
    ghost use Rattle.bson_traits.specs.Maps.{IsMapOf};
    ghost use Rattle.bson_traits.specs.Prover.MapsBack.{map_returns};

    ghost is_value = { IsMapOf T.is_value };

    fn known(&self) {
        for (text, part) in self {
            known_text(text.as_str());
            part.known();
        }
    }

    ghost returns = { map_returns T.Serialize.written T.Deserialize.contents T.Deserialize.taken T.Deserialize.form T.is_value T.returns };
}

impl<'de, T: RoundTrip<'de> + Drop> NeverNull<'de> for BTreeMap<String, T> {
    ghost use Rattle.bson_traits.specs.Maps.{written_entries};
    ghost use Rattle.bson_traits.specs.Prover.MapsBack.{map_not_null};

    ghost not_null = { λ m h. map_not_null (written_entries T.Serialize.written m.entries) };
}

impl<'de, T: EqualByContents<'de> + Drop> EqualByContents<'de> for BTreeMap<String, T> {
    ghost use Rattle.bson_traits.specs.Prover.Equal.{map_equal};

    ghost equal = { map_equal T.contents T.eq T.equal };
}

// The map that entries give; the last of repeated keys counts.
fn map_of<'de, T: Deserialize<'de> + Drop>(
    alloc: Global,
    entries: Vec<Entry<'de>>,
) -> de::Result<BTreeMap<String, T>>
    ensures { Reads (λ m. map_contents T.contents m.entries) result (taken_pairs T.taken (entries_view entries.entry.items)) }
{
    if !are_texts(&entries) {
        return Err(not_fitting());
    }
    let mut map = BTreeMap::new(alloc);
    for entry in entries {
        let Entry { key, value } = entry;
        let value = T::from_datum(alloc, value)?;
        put(&mut map, key_of(alloc, key)?, value)?;
    }
    Ok(map)
}

// The text of a key.
fn key_of(alloc: Global, key: Datum<'_>) -> Result<String, AllocError>
    ensures { IfOk result (λ s. string_bytes s ≡ key_text (view key.entry)) }
{
    match key {
        Datum::Str(text) => string_of(alloc, text),
        other => {
            drop(other);
            Ok(String::new(alloc))
        }
    }
}

// Whether each key is a text.
fn are_texts(entries: &[Entry<'_>]) -> bool
    ensures { result ≡ are_texts (entries_view entries.now) }
{
    for entry in entries {
        if !is_text(&entry.key) {
            return false;
        }
    }
    true
}

// Whether a key is a text.
fn is_text(key: &Datum<'_>) -> bool
    ensures { result ≡ is_text (view key.now) }
{
    matches!(key, Datum::Str(_))
}
