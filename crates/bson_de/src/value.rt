ghost use Rattle.std.specs.Prelude.{false};
ghost use Rattle.bson_shape.specs.Form as form;
ghost use Rattle.bson_shape.specs.ShapeView.{fields_of};
ghost use Rattle.bson_datum.specs.MarkedView.{marked};
ghost use Rattle.bson_values.specs.Refusal.{under_index};
ghost use Rattle.bson_laws.specs.Containers.{reads_items};
ghost use Rattle.bson_laws.specs.Reads.{reads};
ghost use Rattle.bson_laws.specs.ReadsFrom.{reads_for};
ghost use Rattle.bson_laws.specs.Settled.{settled};
ghost use Rattle.bson_laws.specs.Unrolled.{whole};
ghost use Rattle.bson_met.specs.Gives.{Reaches};
ghost use Rattle.bson_texts.specs.ListsMarked.{items_marked};

use crate::enumeration::read_enum;
use crate::leaf::read_leaf_at;
use crate::map::read_map;
use crate::structure::{read_closed_struct, read_struct};
use crate::tuple::{read_tuple, read_tuple_struct};
use bson_datum::Datum;
use bson_laws::{Origin, Reader};
use bson_leaves::null;
use bson_met::{Items, Met, Reading, refused};
use bson_shape::{FieldShape, Form, Shape};
use bson_slots::shape_for_reader;
use bson_values::{Cause, Text};
use std::alloc::Global;

/// The value at a shape, for a reader who is not human: of a document in its bytes (`Met::of_document`), of what is inside one, or of a tree (`Met::of_tree`),
/// which is read by the rules for bytes. `from_bson_at` has the rules for trees.
///
/// What is borrowed is a part of the input; of a tree nothing is.
///
/// # Errors
///
/// `Stop::Refused` with the cause and the segments of the path so far: those of `from_slice_at` of `bson_de_raw`, but for the faults of a whole document's
/// length and last byte. `Stop::NoMemory` where memory ran out. `de::Error::from_stop` makes an error of it.
pub fn read_value<'de>(alloc: Global, shape: &Shape, value: &Met<'de>) -> Reading<Datum<'de>>
    ensures exact { Reaches marked result (reads (settled false (whole shape.now)) value.now) }
{
    read_for(alloc, &Reader::new(false, Origin::Bytes), shape, value)
}

/// The value at a shape, for a reader who is human or not, in the definitions around it: of bytes, or of a tree in memory (`Met::of_tree`), from which nothing
/// is borrowed.
///
/// # Errors
///
/// As [`read_value`]. From a tree these differ:
///
/// - `NotBorrowed`: at `str` and `bytes` every value.
/// - `EmptyEnum` and `ExtraKey`: at an enum a document that has not exactly one key. The contents of a unit variant are read at `bson` and dropped.
/// - `EndOfStream`: at an enum a String that is the name of a variant with contents.
/// - `InvalidType`: at the contents of a tuple variant an empty Array, as `Null`; at those of a struct variant any value but a Document.
/// - Those of `raw_from_bson` of `bson_raw_builder` at `rawdoc`, `rawarray` and `rawbson`.
#[cycle(read)]
pub fn read_for<'de>(
    alloc: Global,
    reader: &Reader<'_>,
    shape: &Shape,
    value: &Met<'de>,
) -> Reading<Datum<'de>>
    ensures exact { Reaches marked result (reads_for reader.now shape.now value.now) }
{
    shape.known();
    match shape.form() {
        Form::Leaf(leaf) => read_leaf_at(alloc, reader.origin, leaf, value),
        Form::Option(inner) => read_option(alloc, reader, inner, value),
        Form::Lossy(inner) => read_mended(alloc, reader, inner, value),
        Form::Readable(inner) => read_human_readable(alloc, reader, inner, value),
        Form::Mode(human, compact) => {
            let shape = shape_for_reader(reader.readable, human, compact);
            read_for(alloc, reader, shape, value)
        }
        Form::Seq(item) => read_sequence(alloc, reader, item, value),
        Form::Map(key, item) => read_map(alloc, reader, key, item, value),
        Form::Tuple(parts) => read_tuple(alloc, reader, parts, value),
        Form::TupleStruct(name, parts) => read_tuple_struct(alloc, reader, name, parts, value),
        Form::Newtype(name, inner) => read_newtype(alloc, reader, name, inner, value),
        Form::UnitStruct(name) => read_unit_struct(alloc, name, value),
        Form::Struct(name, fields) => read_struct(alloc, reader, name, fields, value),
        Form::ClosedStruct(name, fields) => {
            read_closed_struct(alloc, reader, name, fields, value)
        }
        Form::Enum(variants) => read_enum(alloc, reader, variants, value),
        Form::Reference(name) => read_reference(alloc, reader, name, value),
        Form::Definitions(table, inner) => { read_definitions(alloc, reader, table, inner, value) }
    }
}

/// The value at this shape, with its texts mended; those of a tree are texts as they are.
#[cycle(read)]
#[inline(never)]
fn read_mended<'de>(
    alloc: Global,
    reader: &Reader<'_>,
    inner: &Shape,
    value: &Met<'de>,
) -> Reading<Datum<'de>>
    ensures exact { Reaches marked result (reads_for reader.now (form.lossy inner.now) value.now) }
{
    match reader.origin {
        Origin::Bytes => read_for(alloc, reader, inner, &value.mended()),
        Origin::Tree => read_for(alloc, reader, inner, value),
    }
}

/// The value at this shape for a reader who is human, in the newtype that marks it as such.
#[cycle(read)]
#[inline(never)]
fn read_human_readable<'de>(
    alloc: Global,
    reader: &Reader<'_>,
    inner: &Shape,
    value: &Met<'de>,
) -> Reading<Datum<'de>>
    ensures exact { Reaches marked result (reads_for reader.now (form.human_readable inner.now) value.now) }
{
    let human = Reader {
        readable: true,
        origin: reader.origin,
        table: reader.table,
        rounds: reader.rounds,
        steps: reader.steps,
    };
    let name = "$__bson_private_human_readable";
    read_newtype(alloc, &human, name, inner, value)
}

/// The value at an option whose value has this shape. Of a null the kind alone is looked at.
#[cycle(read)]
#[inline(never)]
fn read_option<'de>(
    alloc: Global,
    reader: &Reader<'_>,
    inner: &Shape,
    value: &Met<'de>,
) -> Reading<Datum<'de>>
    ensures exact { Reaches marked result (reads_for reader.now (form.optional inner.now) value.now) }
{
    if value.is_null() {
        return Ok(Datum::None);
    }
    let value = read_for(alloc, reader, inner, value)?;
    Ok(Datum::Some(Box::new(alloc, value)?))
}

/// The value at a newtype of this name, whose value has this shape.
#[cycle(read)]
#[inline(never)]
fn read_newtype<'de>(
    alloc: Global,
    reader: &Reader<'_>,
    name: &str,
    inner: &Shape,
    value: &Met<'de>,
) -> Reading<Datum<'de>>
    ensures exact { Reaches marked result (reads_for reader.now (form.newtype name.now inner.now) value.now) }
{
    let value = read_for(alloc, reader, inner, value)?;
    let value = Box::new(alloc, value)?;
    let name = Text::Owned(String::from_str(alloc, name)?);
    Ok(Datum::NewtypeStruct { name, value })
}

/// The value at a unit struct of this name.
#[inline(never)]
fn read_unit_struct<'de>(alloc: Global, name: &str, value: &Met<'de>) -> Reading<Datum<'de>>
    ensures exact { Reaches marked result (reads (form.unit_structure name.now) value.now) }
{
    null(alloc, value)?;
    let name = Text::Owned(String::from_str(alloc, name)?);
    Ok(Datum::UnitStruct { name })
}

/// The value at a shape in these definitions.
#[cycle(read)]
#[inline(never)]
fn read_definitions<'de>(
    alloc: Global,
    reader: &Reader<'_>,
    table: &[FieldShape],
    inner: &Shape,
    value: &Met<'de>,
) -> Reading<Datum<'de>>
    ensures exact { Reaches marked result
        (reads_for reader.now (form.definitions (fields_of table.now) inner.now) value.now) }
{
    read_for(alloc, &reader.inside(table), inner, value)
}

/// The value at a reference of this name, which is read at its definition.
#[cycle(read)]
#[inline(never)]
fn read_reference<'de>(
    alloc: Global,
    reader: &Reader<'_>,
    name: &str,
    value: &Met<'de>,
) -> Reading<Datum<'de>>
    ensures exact { Reaches marked result (reads_for reader.now (form.reference name.now) value.now) }
{
    match reader.definition(name) {
        Some(definition) => read_for(alloc, &definition.reader, definition.shape, value),
        None => no_definition(alloc, name, value),
    }
}

/// The value at a reference of this name, which has no definition: it is judged, and refused.
#[cold]
#[inline(never)]
fn no_definition<'de>(alloc: Global, name: &str, value: &Met<'de>) -> Reading<Datum<'de>>
    ensures exact { Reaches marked result (reads (form.reference name.now) value.now) }
{
    value.judge(alloc)?;
    let cause = Cause::UnknownReference(String::from_str(alloc, name)?);
    Err(refused(alloc, cause))
}

/// The value at a sequence whose items have this shape.
#[cycle(read)]
#[inline(never)]
fn read_sequence<'de>(
    alloc: Global,
    reader: &Reader<'_>,
    item: &Shape,
    value: &Met<'de>,
) -> Reading<Datum<'de>>
    ensures exact { Reaches marked result (reads_for reader.now (form.sequence item.now) value.now) }
{
    let elements = value.array(alloc)?;
    let items = read_items(alloc, reader, item, elements)?;
    Ok(Datum::Seq(items))
}

/// The items of an array, each at this shape.
#[cycle(read)]
fn read_items<'de>(
    alloc: Global,
    reader: &Reader<'_>,
    item: &Shape,
    mut elements: Items<'de>,
) -> Reading<Vec<Datum<'de>>>
    ensures exact { Reaches (λ v. items_marked v.items) result
        (reads_items (reads_for reader.now item.now) 0 elements.entry) }
{
    let mut items = Vec::new(alloc);
    let mut index = 0;
    let mut value = elements.start();
    'step: while elements.advance(alloc, &mut value)? {
        items.push(read_item(alloc, reader, item, index, &value)?)?;
        index += 1;
    }
    Ok(items)
}

/// The value at a shape of the element at this index of an array.
#[cycle(read)]
pub(crate) fn read_item<'de>(
    alloc: Global,
    reader: &Reader<'_>,
    shape: &Shape,
    index: u64,
    value: &Met<'de>,
) -> Reading<Datum<'de>>
    ensures exact { Reaches marked result (under_index index (reads_for reader.now shape.now value.now)) }
{
    match read_for(alloc, reader, shape, value) {
        Ok(value) => Ok(value),
        Err(stop) => Err(stop.under_index(index)),
    }
}
