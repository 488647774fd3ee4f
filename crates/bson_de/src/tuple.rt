// Tuples and tuple structs.
ghost use Rattle.std.specs.Prelude.{◌≡◌, IfOk};
ghost use Rattle.bson_shape.specs.Form as form;
ghost use Rattle.bson_shape.specs.ShapeView.{parts_of};
ghost use Rattle.bson_datum.specs.MarkedView.{marked};
ghost use Rattle.bson_laws.specs.ReadsFrom.{reads_for, parts_for};
ghost use Rattle.bson_met.specs.Gives.{Reaches};
ghost use Rattle.bson_texts.specs.ListsMarked.{items_marked};
ghost use Rattle.bson_laws.specs.Containers.{next_value, behind_first};

use crate::value::read_item;
use bson_datum::Datum;
use bson_laws::Reader;
use bson_met::{Items, Met, Reading};
use bson_shape::Shape;
use bson_slots::next_part;
use bson_values::Text;
use std::alloc::Global;

/// The value at a tuple whose parts have these shapes.
#[cycle(read)]
#[inline(never)]
pub(crate) fn read_tuple<'de>(
    alloc: Global,
    reader: &Reader<'_>,
    parts: &[Shape],
    value: &Met<'de>,
) -> Reading<Datum<'de>>
    ensures exact { Reaches marked result (reads_for reader.now (form.tuple (parts_of parts.now)) value.now) }
{
    let elements = value.array(alloc)?;
    let items = read_parts(alloc, reader, parts, elements)?;
    Ok(Datum::Tuple(items))
}

/// The value at a tuple struct of this name, whose parts have these shapes.
#[cycle(read)]
#[inline(never)]
pub(crate) fn read_tuple_struct<'de>(
    alloc: Global,
    reader: &Reader<'_>,
    name: &str,
    parts: &[Shape],
    value: &Met<'de>,
) -> Reading<Datum<'de>>
    ensures exact { Reaches marked result
        (reads_for reader.now (form.tuple_structure name.now (parts_of parts.now)) value.now) }
{
    let elements = value.array(alloc)?;
    let items = read_parts(alloc, reader, parts, elements)?;
    let name = Text::Owned(String::from_str(alloc, name)?);
    Ok(Datum::TupleStruct { name, items })
}

/// The values of parts of these shapes from the elements of an array, one each. Further elements stay unread.
#[cycle(read)]
pub(crate) fn read_parts<'de>(
    alloc: Global,
    reader: &Reader<'_>,
    parts: &[Shape],
    mut elements: Items<'de>,
) -> Reading<Vec<Datum<'de>>>
    ensures exact { Reaches (λ v. items_marked v.items) result
        (parts_for reader.now (parts_of parts.now) 0 elements.entry) }
{
    let mut values = Vec::new(alloc);
    for (place, part) in parts.iter().enumerate() {
        let value = read_next(alloc, reader, part, place as u64, &mut elements)?;
        values.push(value)?;
    }
    Ok(values)
}

/// The value at a shape of the next element, which is at this index of an array.
#[cycle(read)]
pub(crate) fn read_next<'de>(
    alloc: Global,
    reader: &Reader<'_>,
    shape: &Shape,
    index: u64,
    elements: &mut Items<'de>,
) -> Reading<Datum<'de>>
    ensures rest { IfOk result (λ _. elements.new ≡ behind_first elements.old) }
    ensures value { Reaches marked result (next_value index (reads_for reader.now shape.now) elements.old) }
{
    let value = next_part(alloc, index, elements)?;
    read_item(alloc, reader, shape, index, &value)
}
