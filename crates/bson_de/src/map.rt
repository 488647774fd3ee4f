ghost use Rattle.std.specs.Prelude.{◌≡◌, true};
ghost use Rattle.bson_shape.specs.Form as form;
ghost use Rattle.bson_shape.specs.Makers.{is_text_key};
ghost use Rattle.bson_datum.specs.MarkedView.{marked};
ghost use Rattle.bson_values.specs.Refusal.{under};
ghost use Rattle.bson_values.specs.Value.{no_entries};
ghost use Rattle.bson_laws.specs.Containers.{reads_entries, reads_key};
ghost use Rattle.bson_laws.specs.ReadsFrom.{reads_for};
ghost use Rattle.bson_met.specs.Gives.{Reaches};
ghost use Rattle.bson_met.specs.PieceView.{str_piece};
ghost use Rattle.bson_texts.specs.ListsMarked.{entries_marked};

use crate::value::read_for;
use bson_datum::{Datum, Entry};
use bson_laws::Reader;
use bson_leaves::Entries;
use bson_met::{Elements, Met, Reading, Step};
use bson_shape::Shape;
use std::alloc::Global;

/// The value at a map whose keys and values have these shapes.
#[cycle(read)]
#[inline(never)]
pub(crate) fn read_map<'de>(
    alloc: Global,
    reader: &Reader<'_>,
    key: &Shape,
    item: &Shape,
    value: &Met<'de>,
) -> Reading<Datum<'de>>
    requires { is_text_key key.now ≡ true }
    ensures exact { Reaches marked result (reads_for reader.now (form.map key.now item.now) value.now) }
{
    let elements = value.document(alloc)?;
    let entries = read_entries(alloc, reader, key, item, elements)?;
    Ok(Datum::Map(entries))
}

/// The entries of a document, each key and each value at its shape.
#[cycle(read)]
fn read_entries<'de>(
    alloc: Global,
    reader: &Reader<'_>,
    key: &Shape,
    item: &Shape,
    mut elements: Elements<'de>,
) -> Reading<Vec<Entry<'de>>>
    requires { is_text_key key.now ≡ true }
    ensures exact { Reaches (λ v. entries_marked v.items) result
        (reads_entries (reads_key key.now) (reads_for reader.now item.now) elements.entry no_entries) }
{
    let mut entries = Entries::new(alloc, key.form());
    let mut step = elements.start();
    'step: while elements.advance(alloc, &mut step)? {
        let key = entries.read_key(step.key)?;
        match read_at_key(alloc, reader, item, &step) {
            Ok(value) => entries.put(step.key.text, key, value)?,
            Err(stop) => {
                drop(key);
                return Err(stop);
            }
        }
    }
    Ok(entries.finish())
}

/// The value at a shape of an element of a document.
#[cycle(read)]
fn read_at_key<'de>(
    alloc: Global,
    reader: &Reader<'_>,
    shape: &Shape,
    step: &Step<'de>,
) -> Reading<Datum<'de>>
    ensures exact { Reaches marked result
        (under (str_piece step.now.key).bytes (reads_for reader.now shape.now step.now.value)) }
{
    match read_for(alloc, reader, shape, &step.value) {
        Ok(value) => Ok(value),
        Err(stop) => Err(stop.under_key(step.key.text)),
    }
}
