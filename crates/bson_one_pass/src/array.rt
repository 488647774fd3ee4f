// Arrays at a shape of their items.
ghost use Rattle.std.specs.Prelude.{◌≡◌, ◌≤◌, ◌+◌, ◌++◌, ◌∷◌, [], length, drop, IfSome};
ghost use Rattle.bson_kinds.specs.Kind.{byte};
ghost use Rattle.bson_kinds.specs.declared.element_type.ElementType.TheVariants as kinds;
ghost use Rattle.bson_rawdoc.specs.Node.{inner_node, node_in, nodes_with, value_node};
ghost use Rattle.bson_rawdoc.specs.ValueView.{raw_value};
ghost use Rattle.bson_rawdoc.specs.Walk.{Element, walk_elements};
ghost use Rattle.bson_shape.specs.Form.{sequence, reference};
ghost use Rattle.bson_laws.specs.Scopes.{laid};
ghost use Rattle.bson_pass_parts.specs.Put.{recast_for, recast_items, IsPut, AreItemsPut, IsElementPut};
ghost use Rattle.bson_pass_parts.specs.Run.{IsFirst, IsHead, element_of, run, size};

use crate::alone::recast_alone;
use crate::enumeration::recast_enum;
use crate::structure::recast_struct;
use crate::value::recast_value;
use bson_kinds::ElementType;
use bson_laws::Reader;
use bson_pass_parts::{
    MOST_NESTED, close, element_len, is_integer, is_kept, is_taken, named_front, named_len,
    names_taken, put, put_element, put_front, put_run, recast_int32, recast_int64, set_kind,
    value_of, value_under,
};
use bson_rawdoc::reading::{inside, is_closed};
use bson_rawdoc::{RawBsonRef, RawElement, next_element};
use bson_shape::{Form, Shape};

/// The array in these bytes at a sequence: its values, whose keys are their indexes from 0 on.
#[inline(never)]
#[cycle(recast)]
pub(crate) fn recast_array(
    made: &mut Vec<u8>,
    reader: &Reader<'_>,
    item: &Shape,
    levels: u32,
    bytes: &[u8],
) -> Option<ElementType>
    ensures seen { IfSome result (IsPut (recast_for reader.now (sequence item.now) levels (inner_node levels kinds.Array bytes.now)) made.old.items made.new.items) }
    ensures met { IfSome result (IsPut (recast_for reader.now (sequence item.now) levels (node_in levels kinds.Array bytes.now)) made.old.items made.new.items) }
{
    if let Form::Reference(name) = item.form() {
        return recast_array_of(made, reader, name, levels, bytes);
    }
    if levels == 0 || bytes.len() < 5 || !is_closed(bytes) {
        return None;
    }
    let start = made.len();
    put(made, &[0; 4])?;
    recast_items(made, reader, item, levels - 1, inside(bytes))?;
    close(made, start)?;
    Some(ElementType::Array)
}

// The same at references of this name: the definition is looked up once for all items.
#[inline(never)]
#[cycle(recast)]
fn recast_array_of(
    made: &mut Vec<u8>,
    reader: &Reader<'_>,
    name: &str,
    levels: u32,
    bytes: &[u8],
) -> Option<ElementType>
    ensures seen { IfSome result (IsPut (recast_for reader.now (sequence (reference name.now)) levels (inner_node levels kinds.Array bytes.now)) made.old.items made.new.items) }
    ensures met { IfSome result (IsPut (recast_for reader.now (sequence (reference name.now)) levels (node_in levels kinds.Array bytes.now)) made.old.items made.new.items) }
{
    match reader.definition(name) {
        Some(definition) => {
            recast_array(made, &definition.reader, definition.shape, levels, bytes)
        }
        None => None,
    }
}

/// The elements of an array.
#[cycle(recast)]
fn recast_items(
    made: &mut Vec<u8>,
    reader: &Reader<'_>,
    item: &Shape,
    levels: u32,
    elements: &[u8],
) -> Option<()>
    ensures { IfSome result (λ _. AreItemsPut (recast_items (laid reader.now item.now) levels 0 (nodes_with (node_in levels) (walk_elements elements.now))) 0
        made.old.items made.new.items) }
{
    let mut digits = itoa::Buffer::new();
    let mut index: u64 = 0;
    let mut nested = MOST_NESTED;
    let mut from = 0;
    let mut at = 0;
    while at < elements.len() {
        let key = digits.format(index);
        match value_under(&elements[at..], key) {
            Some((kind, value)) => {
                let behind = at + named_len(&elements[at..], kind, key, value);
                from = recast_known(
                    made, reader, item, levels, nested, elements, from, at, key, kind, value,
                )?;
                nested = nested_behind(nested, from == behind);
                at = behind;
            }
            None => {
                at = recast_misnamed(made, reader, item, levels, elements, from, at, key)?;
                from = at;
            }
        }
        index = index.checked_add(1)?;
    }
    put_run(made, elements, from, at)?;
    Some(())
}

// How many documents and arrays inside one another are looked at in the next item. Behind one that was written anew it is none, since the next one is probably like it.
fn nested_behind(nested: u32, changed: bool) -> u32 {
    if changed { 0 } else { nested }
}

/// The element at a place whose key is not this: it is written under this key, behind the run. The answer is the place behind it.
#[inline(never)]
#[cycle(recast)]
pub(crate) fn recast_misnamed(
    made: &mut Vec<u8>,
    reader: &Reader<'_>,
    shape: &Shape,
    levels: u32,
    elements: &[u8],
    from: usize,
    at: usize,
    key: &str,
) -> Option<usize>
    requires order { from ≤ at }
    requires within { at ≤ length elements.now }
    ensures { IfSome result (λ next. (e : Element) × IsHead (drop at elements.now) e × (next ≡ at + size e)
        × IsElementPut (recast_for reader.now shape.now levels (node_in levels e.kind e.value)) key.now (made.old.items ++ run elements.now from at) made.new.items) }
{
    let Some(step) = next_element(&elements[at..]) else {
        return None;
    };
    let Ok((element, _)) = step else {
        return None;
    };
    let behind = at + element_len(&elements[at..], &element);
    put_run(made, elements, from, at)?;
    recast_item(made, reader, shape, levels, &element, key)?;
    Some(behind)
}

/// The element at a place, under the key that it has. Where it is written as it was read, it is left to the run that begins at `from`; else that run and the
/// element are written. The answer is where the run begins that is still to be written.
#[inline(always)]
#[cycle(recast)]
pub(crate) fn recast_next(
    made: &mut Vec<u8>,
    reader: &Reader<'_>,
    shape: &Shape,
    levels: u32,
    nested: u32,
    elements: &[u8],
    from: usize,
    at: usize,
    element: &RawElement<'_>,
) -> Option<usize>
    requires order { from ≤ at }
    requires within { at ≤ length elements.now }
    requires first { IsFirst (drop at elements.now) element.now }
    ensures behind { IfSome result (λ next. next ≤ at + size element.now) }
    ensures put { IfSome result (λ next. IsElementPut (recast_for reader.now shape.now levels (node_in levels element.now.kind element.now.value)) element.now.key
        (made.old.items ++ run elements.now from at) (made.new.items ++ run elements.now next (at + size element.now))) }
{
    recast_known(
        made,
        reader,
        shape,
        levels,
        nested,
        elements,
        from,
        at,
        element.key(),
        element.element_type(),
        element.slice(),
    )
}

/// The same, for the element of this kind, this key and this value.
#[inline(always)]
#[cycle(recast)]
pub(crate) fn recast_known(
    made: &mut Vec<u8>,
    reader: &Reader<'_>,
    shape: &Shape,
    levels: u32,
    nested: u32,
    elements: &[u8],
    from: usize,
    at: usize,
    key: &str,
    kind: ElementType,
    value: &[u8],
) -> Option<usize>
    requires order { from ≤ at }
    requires within { at ≤ length elements.now }
    requires head { IsHead (drop at elements.now) (element_of kind key.now value.now) }
    ensures behind { IfSome result (λ next. next ≤ at + size (element_of kind key.now value.now)) }
    ensures put { IfSome result (λ next. IsElementPut (recast_for reader.now shape.now levels (node_in levels kind value.now)) key.now
        (made.old.items ++ run elements.now from at) (made.new.items ++ run elements.now next (at + size (element_of kind key.now value.now)))) }
{
    if is_kept(
        *made.allocator(),
        reader,
        shape,
        levels,
        nested,
        kind,
        value,
    ) {
        return Some(from);
    }
    let behind = at + named_len(&elements[at..], kind, key, value);
    put_run(made, elements, from, at)?;
    recast_changed(
        made,
        reader,
        shape,
        levels,
        &elements[at..],
        key,
        kind,
        value,
    )?;
    Some(behind)
}

/// The element of this kind, this key and this value that begins these bytes; its value is written anew.
#[cycle(recast)]
fn recast_changed(
    made: &mut Vec<u8>,
    reader: &Reader<'_>,
    shape: &Shape,
    levels: u32,
    bytes: &[u8],
    key: &str,
    kind: ElementType,
    value: &[u8],
) -> Option<()>
    requires head { IsHead bytes.now (element_of kind key.now value.now) }
    ensures { IfSome result (λ _. IsElementPut (recast_for reader.now shape.now levels (node_in levels kind value.now)) key.now made.old.items made.new.items) }
{
    let place = made.len();
    put(made, named_front(bytes, kind, key, value))?;
    let kind = recast_bytes(made, reader, shape, levels, bytes, key, kind, value)?;
    set_kind(made, place, kind);
    Some(())
}

/// The value of the element of this kind and this key that begins these bytes: that of a common kind at once, any other once it is looked at.
#[inline(always)]
#[cycle(recast)]
fn recast_bytes(
    made: &mut Vec<u8>,
    reader: &Reader<'_>,
    shape: &Shape,
    levels: u32,
    bytes: &[u8],
    key: &str,
    kind: ElementType,
    value: &[u8],
) -> Option<ElementType>
    requires head { IsHead bytes.now (element_of kind key.now value.now) }
    ensures { IfSome result (IsPut (recast_for reader.now shape.now levels (node_in levels kind value.now)) made.old.items made.new.items) }
{
    shape.known();
    match (shape.form(), kind) {
        (Form::Leaf(leaf), ElementType::Int32) if is_integer(leaf) => {
            recast_int32(made, leaf, levels, value)
        }
        (Form::Leaf(leaf), ElementType::Int64) if is_integer(leaf) => {
            recast_int64(made, leaf, levels, value)
        }
        (Form::Seq(item), ElementType::Array) => recast_array(made, reader, item, levels, value),
        (Form::Struct(name, fields), ElementType::EmbeddedDocument) => {
            recast_struct(made, reader, name, fields, false, levels, value)
        }
        (Form::ClosedStruct(name, fields), ElementType::EmbeddedDocument) => {
            recast_struct(made, reader, name, fields, true, levels, value)
        }
        (Form::Enum(variants), ElementType::EmbeddedDocument) if names_taken(variants, value) => {
            recast_enum(made, reader, variants, levels, value)
        }
        (Form::Reference(name), _) => {
            recast_referred(made, reader, name, levels, bytes, key, kind, value)
        }
        _ => recast_first(made, reader, shape, levels, bytes),
    }
}

// The same at a reference of this name: it is written at its definition, once it is looked at. It does not call `recast_bytes`, so that this stays a part of its one caller.
#[inline(never)]
#[cycle(recast)]
fn recast_referred(
    made: &mut Vec<u8>,
    reader: &Reader<'_>,
    name: &str,
    levels: u32,
    bytes: &[u8],
    key: &str,
    kind: ElementType,
    value: &[u8],
) -> Option<ElementType>
    requires head { IsHead bytes.now (element_of kind key.now value.now) }
    ensures put { IfSome result (IsPut (recast_for reader.now (reference name.now) levels (node_in levels kind value.now)) made.old.items made.new.items) }
{
    match reader.definition(name) {
        Some(definition) => recast_first(made, &definition.reader, definition.shape, levels, bytes),
        None => None,
    }
}

// The value of the element that begins these bytes, once it is looked at.
#[inline(never)]
#[cycle(recast)]
fn recast_first(
    made: &mut Vec<u8>,
    reader: &Reader<'_>,
    shape: &Shape,
    levels: u32,
    bytes: &[u8],
) -> Option<ElementType>
    ensures { (e : Element) → IsHead bytes.now e → IfSome result (IsPut (recast_for reader.now shape.now levels (node_in levels e.kind e.value)) made.old.items made.new.items) }
{
    let Some(step) = next_element(bytes) else {
        return None;
    };
    let Ok((element, _)) = step else {
        return None;
    };
    recast_other(made, reader, shape, levels, &element)
}

/// The value of an element: that of a common kind from its bytes, any other once it is looked at.
#[inline(always)]
#[cycle(recast)]
fn recast_element(
    made: &mut Vec<u8>,
    reader: &Reader<'_>,
    shape: &Shape,
    levels: u32,
    element: &RawElement<'_>,
) -> Option<ElementType>
    ensures { IfSome result (IsPut (recast_for reader.now shape.now levels (node_in levels element.now.kind element.now.value)) made.old.items made.new.items) }
{
    shape.known();
    match (shape.form(), element.element_type()) {
        (Form::Leaf(leaf), ElementType::Int32) if is_integer(leaf) => {
            recast_int32(made, leaf, levels, element.slice())
        }
        (Form::Leaf(leaf), ElementType::Int64) if is_integer(leaf) => {
            recast_int64(made, leaf, levels, element.slice())
        }
        (Form::Seq(item), ElementType::Array) => {
            recast_array(made, reader, item, levels, element.slice())
        }
        (Form::Struct(name, fields), ElementType::EmbeddedDocument) => {
            recast_struct(made, reader, name, fields, false, levels, element.slice())
        }
        (Form::ClosedStruct(name, fields), ElementType::EmbeddedDocument) => {
            recast_struct(made, reader, name, fields, true, levels, element.slice())
        }
        _ => recast_other(made, reader, shape, levels, element),
    }
}

// The value of an element, once it is looked at; what the pass does not take is read and written by itself. It is separate so that the others pay for none of
// its locals.
#[inline(never)]
#[cycle(recast)]
fn recast_other(
    made: &mut Vec<u8>,
    reader: &Reader<'_>,
    shape: &Shape,
    levels: u32,
    element: &RawElement<'_>,
) -> Option<ElementType>
    ensures { IfSome result (IsPut (recast_for reader.now shape.now levels (node_in levels element.now.kind element.now.value)) made.old.items made.new.items) }
{
    if let Some(value) = value_of(element, levels) {
        if is_taken(reader, shape, &value) {
            return recast_value(made, reader, shape, levels, &value);
        }
    }
    recast_alone(made, reader, shape, levels, element)
}

/// An element whose key is this.
#[cycle(recast)]
pub(crate) fn recast_item(
    made: &mut Vec<u8>,
    reader: &Reader<'_>,
    shape: &Shape,
    levels: u32,
    element: &RawElement<'_>,
    key: &str,
) -> Option<()>
    ensures { IfSome result (λ _. IsElementPut (recast_for reader.now shape.now levels (node_in levels element.now.kind element.now.value)) key.now
        made.old.items made.new.items) }
{
    let (kind, bytes) = (element.element_type(), element.slice());
    if is_kept(
        *made.allocator(),
        reader,
        shape,
        levels,
        MOST_NESTED,
        kind,
        bytes,
    ) {
        return put_element(made, kind, key, bytes);
    }
    let place = made.len();
    put_front(made, key.as_bytes())?;
    let kind = recast_element(made, reader, shape, levels, element)?;
    set_kind(made, place, kind);
    Some(())
}
