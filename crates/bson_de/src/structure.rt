ghost use Rattle.std.specs.Prelude.{◌≡◌};
ghost use Rattle.bson_shape.specs.Form as form;
ghost use Rattle.bson_shape.specs.Makers.{AreDistinct};
ghost use Rattle.bson_shape.specs.ShapeView.{fields_of};
ghost use Rattle.bson_datum.specs.MarkedView.{marked};
ghost use Rattle.bson_laws.specs.ReadsFrom.{reads_for, slots_for};
ghost use Rattle.bson_laws.specs.Slots as laws;
ghost use Rattle.bson_met.specs.Gives.{Reaches};
ghost use Rattle.bson_met.specs.PieceView.{str_piece};
ghost use Rattle.bson_slots.specs.FieldSlots.{fields_marked};
ghost use Rattle.bson_slots.specs.SlotsView.{slots_view};
ghost use Rattle.bson_slots.specs.FieldsRead.{unknown_of, fields_read, fields_by_key};

use crate::tuple::read_next;
use crate::value::read_for;
use bson_datum::{Datum, Field};
use bson_de_parts::pass_unknown;
use bson_laws::Reader;
use bson_met::{Elements, Items, Met, Reading, Step, Value, refused};
use bson_shape::FieldShape;
use bson_slots::{NameIndex, Slots, named_field, named_struct};
use bson_values::Cause;
use std::alloc::Global;

/// The value at a struct of this name with these fields.
#[cycle(read)]
#[inline(never)]
pub(crate) fn read_struct<'de>(
    alloc: Global,
    reader: &Reader<'_>,
    name: &str,
    fields: &[FieldShape],
    value: &Met<'de>,
) -> Reading<Datum<'de>>
    requires { AreDistinct (fields_of fields.now) }
    ensures exact { Reaches marked result
        (reads_for reader.now (form.structure form.dropped name.now (fields_of fields.now)) value.now) }
{
    let fields = read_fields(alloc, reader, fields, value)?;
    Ok(named_struct(alloc, name, fields)?)
}

/// The value at a closed struct of this name with these fields, which takes no array.
#[cycle(read)]
#[inline(never)]
pub(crate) fn read_closed_struct<'de>(
    alloc: Global,
    reader: &Reader<'_>,
    name: &str,
    fields: &[FieldShape],
    value: &Met<'de>,
) -> Reading<Datum<'de>>
    requires { AreDistinct (fields_of fields.now) }
    ensures exact { Reaches marked result
        (reads_for reader.now (form.structure form.denied name.now (fields_of fields.now)) value.now) }
{
    let elements = value.document(alloc)?;
    let fields = read_by_key(alloc, reader, true, fields, elements)?;
    Ok(named_struct(alloc, name, fields)?)
}

/// The fields with their values: from an array by their places, from a document by their keys.
#[cycle(read)]
pub(crate) fn read_fields<'de>(
    alloc: Global,
    reader: &Reader<'_>,
    fields: &[FieldShape],
    value: &Met<'de>,
) -> Reading<Vec<Field<'de>>>
    requires { AreDistinct (fields_of fields.now) }
    ensures exact { Reaches (λ v. fields_marked v.items) result (fields_read (slots_for reader.now (fields_of fields.now)) value.now) }
{
    match value.judge(alloc)? {
        Value::Array(array) => read_by_place(alloc, reader, fields, Items::of_array(array)),
        other => {
            let elements = other.document(alloc)?;
            read_by_key(alloc, reader, false, fields, elements)
        }
    }
}

/// The fields with their values from the elements of a document, for a struct that is closed or not.
#[cycle(read)]
pub(crate) fn read_by_key<'de>(
    alloc: Global,
    reader: &Reader<'_>,
    closed: bool,
    fields: &[FieldShape],
    mut elements: Elements<'de>,
) -> Reading<Vec<Field<'de>>>
    requires { AreDistinct (fields_of fields.now) }
    ensures exact { Reaches (λ v. fields_marked v.items) result
        (fields_by_key (unknown_of closed) (slots_for reader.now (fields_of fields.now)) elements.entry) }
{
    let mut index = NameIndex::new(fields);
    // The slots have both at one lifetime, so each is borrowed again for them.
    let mut slots = Slots::new(alloc, &*fields, &*reader)?;
    let mut step = elements.start();
    'step: while elements.advance(alloc, &mut step)? {
        fill_one(alloc, closed, &step, &mut index, &mut slots)?;
    }
    slots.finish(alloc)
}

/// One element: its value is read for the field that has its key, or it is unknown where none has.
#[cycle(read)]
fn fill_one<'de>(
    alloc: Global,
    closed: bool,
    step: &Step<'de>,
    index: &mut NameIndex<'_, FieldShape>,
    slots: &mut Slots<'_, 'de>,
) -> Reading<()>
    requires { slots.old.fields.now ≡ index.old.items.now }
    ensures items { index.new.items ≡ index.old.items }
    ensures kept { slots.new.fields ≡ slots.old.fields }
    ensures reader { slots.new.reader ≡ slots.old.reader }
    ensures exact { Reaches (λ _. slots_view slots.new) result
        (laws.put_at (unknown_of closed) (str_piece step.now.key).bytes step.now.value (slots_view slots.old)) }
{
    let key = step.key.text;
    let fields = index.items;
    let Some(place) = index.place_of(alloc, key) else {
        return pass_unknown(alloc, closed, step);
    };
    if slots.is_filled(place) {
        let cause = Cause::DuplicateField(String::from_str(alloc, key)?);
        return Err(refused(alloc, cause));
    }
    let (shape, reader) = (&fields[place].shape, slots.reader);
    match read_for(alloc, reader, shape, &step.value) {
        Ok(value) => {
            slots.put(alloc, place, value)?;
            Ok(())
        }
        Err(stop) => Err(stop.under_key(key)),
    }
}

/// The fields with their values from the elements of an array by their places. Further elements stay unread.
#[cycle(read)]
#[inline(never)]
fn read_by_place<'de>(
    alloc: Global,
    reader: &Reader<'_>,
    fields: &[FieldShape],
    mut elements: Items<'de>,
) -> Reading<Vec<Field<'de>>>
    ensures exact { Reaches (λ v. fields_marked v.items) result
        (laws.reads_places 0 (slots_for reader.now (fields_of fields.now)) elements.entry) }
{
    let mut values = Vec::new(alloc);
    for (place, field) in fields.iter().enumerate() {
        let value = read_next(alloc, reader, &field.shape, place as u64, &mut elements)?;
        values.push(named_field(alloc, field.name.as_str(), value)?)?;
    }
    Ok(values)
}
