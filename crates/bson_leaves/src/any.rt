// Values without a shape.
ghost use Rattle.std.specs.Prelude.{◌≡◌, true, Ok};
ghost use Rattle.bson_kinds.specs.declared.element_type.ElementType.TheVariants as kinds;
ghost use Rattle.bson_rawdoc.specs.DocumentView.{array_bytes, document_bytes};
ghost use Rattle.bson_rawdoc.specs.Node.{node_in, inner_node};
ghost use Rattle.bson_rawdoc.specs.RawValue.{value_in};
ghost use Rattle.bson_rawdoc.specs.ValueView.{raw_value};
ghost use Rattle.bson_datum.specs.MarkedView.{marked};
ghost use Rattle.bson_values.specs.Value as values;
ghost use Rattle.bson_values.specs.Value.{no_entries};
ghost use Rattle.bson_laws.specs.ReadsLeaf as laws;
ghost use Rattle.bson_leaves.specs.Any.{any_at, any_within, is_opened, any_items_at, any_entries_at};
ghost use Rattle.bson_texts.specs.ListsMarked.{items_marked, entries_marked};
ghost use Rattle.bson_leaves.specs.Next.{IsNextElement};
ghost use Rattle.bson_met.specs.Gives.{Reaches};

use crate::entries::Entries;
use bson_datum::{Datum, Entry};
use bson_met::{Elements, Items, Met, Reading, Value, refused};
use bson_rawdoc::{RawArray, RawBsonRef, RawDocument, RawElement, RawIter};
use bson_shape::{Form, Leaf};
use bson_values::{ByteStr, Cause, Text};
use std::alloc::Global;

/// The value at the leaf `any`.
#[inline(never)]
pub(crate) fn any_leaf<'de>(alloc: Global, value: &Met<'de>) -> Reading<Datum<'de>>
    ensures exact { Reaches marked result (any_at value.now) }
{
    read_any(alloc, value)
}

/// A value without a shape. What is in the input has functions of its own, which go from element to element: most values do.
#[cycle(any)]
#[inline(never)]
fn read_any<'de>(alloc: Global, value: &Met<'de>) -> Reading<Datum<'de>>
    ensures exact { Reaches marked result (any_at value.now) }
{
    if let Some((levels, element)) = value.element() {
        return any_element(alloc, levels, element);
    }
    if let Some((levels, document)) = value.raw_document() {
        return Ok(Datum::Map(any_document(alloc, levels, document)?));
    }
    any_elsewhere(alloc, value)
}

/// A value without a shape, wherever it comes from.
#[cycle(any)]
#[inline(never)]
fn any_elsewhere<'de>(alloc: Global, value: &Met<'de>) -> Reading<Datum<'de>>
    ensures exact { Reaches marked result (any_at value.now) }
{
    match value.judge(alloc)? {
        Value::Boolean(boolean) => Ok(Datum::Bool(boolean)),
        Value::Int32(number) => Ok(Datum::I32(number)),
        Value::Int64(number) => Ok(Datum::I64(number)),
        Value::Double(double) => Ok(Datum::Double(double)),
        Value::String(text) => Ok(Datum::Str(text.to_text(alloc)?)),
        Value::Bytes(bytes) => Ok(Datum::Bytes(bytes.to_byte_str(alloc)?)),
        Value::Null => Ok(Datum::Unit),
        Value::Array(array) => Ok(Datum::Seq(any_items(alloc, Items::of_array(array))?)),
        Value::Document(document) => {
            Ok(Datum::Map(any_entries(alloc, Elements::of_document(document))?))
        }
        Value::Extended(value) => {
            Ok(Datum::Map(any_entries(alloc, Elements::of_extended(value))?))
        }
    }
}

/// The values in an array.
#[cycle(any)]
#[inline(never)]
fn any_items<'de>(alloc: Global, mut elements: Items<'de>) -> Reading<Vec<Datum<'de>>>
    ensures exact { Reaches (λ v. items_marked v.items) result (laws.any_items 0 elements.entry) }
{
    let mut items = Vec::new(alloc);
    let mut index = 0;
    let mut item = elements.start();
    'step: while elements.advance(alloc, &mut item)? {
        match read_any(alloc, &item) {
            Ok(value) => items.push(value)?,
            Err(stop) => return Err(stop.under_index(index)),
        }
        index += 1;
    }
    Ok(items)
}

/// The entries of a document, or of the document that a value is opened to. Their keys are borrowed where they are in the input.
#[cycle(any)]
#[inline(never)]
fn any_entries<'de>(alloc: Global, mut elements: Elements<'de>) -> Reading<Vec<Entry<'de>>>
    ensures exact { Reaches (λ v. entries_marked v.items) result
        (laws.any_entries elements.entry no_entries) }
{
    let mut entries = Entries::new(alloc, Form::Leaf(Leaf::Str));
    let mut step = elements.start();
    'step: while elements.advance(alloc, &mut step)? {
        let key = step.key;
        let name = key.to_text(alloc)?;
        match read_any(alloc, &step.value) {
            Ok(value) => entries.put(key.text, Datum::Str(name), value)?,
            Err(stop) => return Err(stop.under_key(key.text)),
        }
    }
    Ok(entries.finish())
}

/// The value of an element of the input without a shape. It is compiled into the loops over elements, so that each value is made where it
/// is wanted.
#[cycle(any)]
#[inline(always)]
fn any_element<'de>(alloc: Global, levels: u32, element: &RawElement<'de>) -> Reading<Datum<'de>>
    ensures exact { Reaches marked result (any_at (node_in levels element.now.kind element.now.value)) }
{
    match element.value() {
        Ok(value) => any_value(alloc, levels, element, value),
        Err(fault) => Err(refused(alloc, Cause::Raw(fault))),
    }
}

/// The same, of an element that has no fault.
#[cycle(any)]
#[inline(always)]
fn any_value<'de>(
    alloc: Global,
    levels: u32,
    element: &RawElement<'de>,
    value: RawBsonRef<'de>,
) -> Reading<Datum<'de>>
    requires value { Ok (raw_value value) ≡ value_in element.now.kind element.now.value }
    ensures exact { Reaches marked result (any_within levels (raw_value value.entry)) }
{
    match value {
        RawBsonRef::Boolean(boolean) => Ok(Datum::Bool(boolean)),
        RawBsonRef::Int32(number) => Ok(Datum::I32(number)),
        RawBsonRef::Int64(number) => Ok(Datum::I64(number)),
        RawBsonRef::Double(double) => Ok(Datum::Double(double)),
        RawBsonRef::String(text) => Ok(Datum::Str(Text::Borrowed(text))),
        RawBsonRef::Binary { subtype, bytes } if subtype.0 == 0 => {
            Ok(Datum::Bytes(ByteStr::Borrowed(bytes)))
        }
        RawBsonRef::Null => Ok(Datum::Unit),
        RawBsonRef::Array(array) => Ok(Datum::Seq(any_array(alloc, levels, array)?)),
        RawBsonRef::Document(document) => Ok(Datum::Map(any_document(alloc, levels, document)?)),
        other => Ok(Datum::Map(any_other(alloc, levels, element, other)?)),
    }
}

/// The entries of the document that such a value is opened to. The element is copied here, so that it stays in registers elsewhere.
#[cycle(any)]
#[inline(always)]
fn any_other<'de>(
    alloc: Global,
    levels: u32,
    element: &RawElement<'de>,
    value: RawBsonRef<'de>,
) -> Reading<Vec<Entry<'de>>>
    requires value { Ok (raw_value value) ≡ value_in element.now.kind element.now.value }
    requires opened { is_opened (raw_value value) ≡ true }
    ensures exact { Reaches (λ v. values.map (entries_marked v.items)) result (any_within levels (raw_value value.entry)) }
{
    any_opened(alloc, levels, element.clone())
}

/// The entries of the document that the value of an element is opened to.
#[cycle(any)]
#[inline(never)]
fn any_opened<'de>(alloc: Global, levels: u32, element: RawElement<'de>) -> Reading<Vec<Entry<'de>>>
    ensures exact { Reaches (λ v. entries_marked v.items) result
        (any_entries_at (node_in levels element.entry.kind element.entry.value)) }
{
    let elements = Met::of_element(levels, element).document(alloc)?;
    any_entries(alloc, elements)
}

/// The values in an array of the input.
#[cycle(any)]
#[inline(never)]
fn any_array<'de>(alloc: Global, levels: u32, array: RawArray<'de>) -> Reading<Vec<Datum<'de>>>
    ensures exact { Reaches (λ v. items_marked v.items) result
        (any_items_at (inner_node levels kinds.Array (array_bytes array.entry))) }
{
    if levels == 0 {
        return Err(refused(alloc, Cause::TooDeep));
    }
    let mut elements = array.as_doc().iter_elements();
    let mut items = Vec::new(alloc);
    let mut index = 0;
    'step: while let Some(element) = next_element(alloc, &mut elements)? {
        match any_element(alloc, levels - 1, &element) {
            Ok(value) => items.push(value)?,
            Err(stop) => return Err(stop.under_index(index)),
        }
        index += 1;
    }
    Ok(items)
}

/// The entries of a document of the input. Their keys are borrowed.
#[cycle(any)]
#[inline(never)]
fn any_document<'de>(
    alloc: Global,
    levels: u32,
    document: RawDocument<'de>,
) -> Reading<Vec<Entry<'de>>>
    ensures exact { Reaches (λ v. entries_marked v.items) result
        (any_entries_at (inner_node levels kinds.EmbeddedDocument (document_bytes document.entry))) }
{
    if levels == 0 {
        return Err(refused(alloc, Cause::TooDeep));
    }
    let mut elements = document.iter_elements();
    let mut entries = Entries::new(alloc, Form::Leaf(Leaf::Str));
    'step: while let Some(element) = next_element(alloc, &mut elements)? {
        let key = element.key();
        match any_element(alloc, levels - 1, &element) {
            Ok(value) => entries.put(key, Datum::Str(Text::Borrowed(key)), value)?,
            Err(stop) => return Err(stop.under_key(key)),
        }
    }
    Ok(entries.finish())
}

/// The next element; a fault that ends the list is a refusal.
#[inline(always)]
fn next_element<'de>(alloc: Global, elements: &mut RawIter<'de>) -> Reading<Option<RawElement<'de>>>
    ensures next { IsNextElement elements.old result elements.new }
{
    match elements.next() {
        Some(Ok(element)) => Ok(Some(element)),
        Some(Err(fault)) => Err(refused(alloc, Cause::Raw(fault))),
        None => Ok(None),
    }
}
