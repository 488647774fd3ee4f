// Documents at structs.
ghost use Rattle.std.specs.Prelude.{◌≡◌, ◌+◌, ◌≤◌, ◌++◌, [], length, drop, string_bytes, false, IfSome, None, Some};
ghost use Rattle.bson_kinds.specs.Text.{has_zero};
ghost use Rattle.bson_base.specs.Tree.{element};
ghost use Rattle.bson_kinds.specs.Reserved.{reserved_kind};
ghost use Rattle.bson_kinds.specs.declared.element_type.ElementType.TheVariants as kinds;
ghost use Rattle.bson_rawdoc.specs.Node.{inner_node, node_in, nodes_with};
ghost use Rattle.bson_kinds.specs.Piece.{Piece};
ghost use Rattle.bson_rawdoc.specs.Walk.{walk_elements};
ghost use Rattle.bson_shape.specs.Form.{structure};
ghost use Rattle.bson_shape.specs.Makers.{AreDistinct};
ghost use Rattle.bson_shape.specs.ShapeView.{fields_of};
ghost use Rattle.bson_values.specs.Value.{none};
ghost use Rattle.bson_laws.specs.Scopes.{laid, laid_fields};
ghost use Rattle.bson_laws.specs.declared.origin.Reader.{Reader};
ghost use Rattle.bson_slots.specs.FieldsRead.{unknown_of};
ghost use Rattle.bson_pass_parts.specs.Found.{IsFoundPut, AreFoundPut, AreOthersPut};
ghost use Rattle.bson_pass_parts.specs.Put.{recast_for, recast_fields, IsPut, IsElementPut, ArePairsPut};
ghost use Rattle.bson_pass_parts.specs.ReadsUnrolled.{slots_of, missing_value};
ghost use Rattle.bson_pass_parts.specs.Run.{IsHead, element_of, run, size};

use crate::array::{recast_item, recast_known};
use bson_base::has_zero;
use bson_kinds::ElementType;
use bson_laws::Reader;
use bson_pass_parts::{
    MOST_NESTED, close, drop_value, element_len, find_elements, is_free, named_len, put, put_front,
    put_run, set_kind, value_under,
};
use bson_rawdoc::reading::{inside, is_closed};
use bson_rawdoc::{RawElement, next_element};
use bson_shape::{FieldShape, Form};

/// The most names that a key is compared with. At a struct of more fields a key that is not the next one's name is left to the reader, which has an index.
const MOST_COMPARED: usize = 64;

/// The document in these bytes at a struct of this name with these fields. A closed one takes no key that it does not name.
#[inline(never)]
#[cycle(recast)]
pub(crate) fn recast_struct(
    made: &mut Vec<u8>,
    reader: &Reader<'_>,
    name: &str,
    fields: &[FieldShape],
    closed: bool,
    levels: u32,
    bytes: &[u8],
) -> Option<ElementType>
    requires free { reserved_kind name.now ≡ None }
    requires distinct { AreDistinct (fields_of fields.now) }
    ensures seen { IfSome result (IsPut (recast_for reader.now (structure (unknown_of closed) name.now (fields_of fields.now)) levels (inner_node levels kinds.EmbeddedDocument bytes.now))
        made.old.items made.new.items) }
    ensures met { IfSome result (IsPut (recast_for reader.now (structure (unknown_of closed) name.now (fields_of fields.now)) levels (node_in levels kinds.EmbeddedDocument bytes.now))
        made.old.items made.new.items) }
{
    if levels == 0 || bytes.len() < 5 || !is_closed(bytes) {
        return None;
    }
    let start = made.len();
    put(made, &[0; 4])?;
    recast_fields(made, reader, fields, closed, levels - 1, inside(bytes))?;
    close(made, start)?;
    Some(ElementType::EmbeddedDocument)
}

/// The fields from the elements of a document: as they come while they come in the shape's order, and the others once their elements are found. An element that
/// no field has is dropped where the struct is not closed, and an option that no element has is null.
#[cycle(recast)]
fn recast_fields(
    made: &mut Vec<u8>,
    reader: &Reader<'_>,
    fields: &[FieldShape],
    closed: bool,
    levels: u32,
    elements: &[u8],
) -> Option<()>
    requires distinct { AreDistinct (fields_of fields.now) }
    ensures { IfSome result (λ _. ArePairsPut (recast_fields (unknown_of closed) (slots_of (laid_fields reader.now (fields_of fields.now))) levels (nodes_with (node_in levels) (walk_elements elements.now)))
        made.old.items made.new.items) }
{
    let mut place = 0;
    let mut from = 0;
    let mut at = 0;
    while at < elements.len() {
        if let Some(field) = fields.get(place) {
            let name = field.name.as_str();
            if let Some((kind, value)) = value_under(&elements[at..], name) {
                let behind = at + named_len(&elements[at..], kind, name, value);
                from = put_next(made, reader, field, levels, elements, from, at, kind, value)?;
                place += 1;
                at = behind;
                continue;
            }
        }
        let Some(Ok((element, _))) = next_element(&elements[at..]) else {
            return None;
        };
        if fields.len() > MOST_COMPARED {
            return None;
        }
        put_run(made, elements, from, at)?;
        if !is_free(fields, element.key()) {
            let (front, others) = fields.split_at(place);
            return recast_others(made, reader, front, others, closed, levels, &elements[at..]);
        }
        if closed {
            return None;
        }
        drop_value(levels, &element)?;
        at += element_len(&elements[at..], &element);
        from = at;
    }
    put_run(made, elements, from, at)?;
    while let Some(field) = fields.get(place) {
        put_missing(made, field)?;
        place += 1;
    }
    Some(())
}

/// The next field from the element of its name, of this kind and this value, that is at a place; and the place from which bytes are left to be copied.
#[inline(always)]
#[cycle(recast)]
fn put_next(
    made: &mut Vec<u8>,
    reader: &Reader<'_>,
    field: &FieldShape,
    levels: u32,
    elements: &[u8],
    from: usize,
    at: usize,
    kind: ElementType,
    value: &[u8],
) -> Option<usize>
    requires order { from ≤ at }
    requires within { at ≤ length elements.now }
    requires head { IsHead (drop at elements.now) (element_of kind (string_bytes field.now.name) value.now) }
    ensures behind { IfSome result (λ next. next ≤ at + size (element_of kind (string_bytes field.now.name) value.now)) }
    ensures put { IfSome result (λ next. IsElementPut (recast_for reader.now field.now.shape levels (node_in levels kind value.now)) (string_bytes field.now.name)
        (made.old.items ++ run elements.now from at) (made.new.items ++ run elements.now next (at + size (element_of kind (string_bytes field.now.name) value.now)))) }
{
    recast_known(
        made,
        reader,
        &field.shape,
        levels,
        MOST_NESTED,
        elements,
        from,
        at,
        field.name.as_str(),
        kind,
        value,
    )
}

/// The fields behind those in front, from elements in any order.
#[inline(never)]
#[cycle(recast)]
fn recast_others(
    made: &mut Vec<u8>,
    reader: &Reader<'_>,
    front: &[FieldShape],
    fields: &[FieldShape],
    closed: bool,
    levels: u32,
    elements: &[u8],
) -> Option<()>
    requires distinct { AreDistinct (fields_of (front.now ++ fields.now)) }
    ensures { IfSome result (λ _. AreOthersPut reader.now (unknown_of closed) levels front.now fields.now (walk_elements elements.now) made.old.items made.new.items) }
{
    let found = find_elements(*made.allocator(), front, fields, closed, levels, elements)?;
    put_found(made, reader, fields, levels, &found)
}

/// The element of a field.
#[cycle(recast)]
fn recast_field(
    made: &mut Vec<u8>,
    reader: &Reader<'_>,
    field: &FieldShape,
    levels: u32,
    element: &RawElement<'_>,
) -> Option<()>
    ensures name { IfSome result (λ _. has_zero (string_bytes field.now.name) ≡ false) }
    ensures put { IfSome result (λ _. IsElementPut (recast_for reader.now field.now.shape levels (node_in levels element.now.kind element.now.value))
        (string_bytes field.now.name) made.old.items made.new.items) }
{
    let name = field.name.as_str();
    if has_zero(name) {
        return None;
    }
    recast_item(made, reader, &field.shape, levels, element, name)
}

/// Fields from the elements that were found for them, in the fields' order.
#[cycle(recast)]
fn put_found(
    made: &mut Vec<u8>,
    reader: &Reader<'_>,
    fields: &[FieldShape],
    levels: u32,
    found: &[Option<RawElement<'_>>],
) -> Option<()>
    ensures { IfSome result (λ _. AreFoundPut reader.now levels fields.now found.now made.old.items made.new.items) }
{
    let mut place = 0;
    while let Some(field) = fields.get(place) {
        put_field(made, reader, field, levels, found.get(place)?)?;
        place += 1;
    }
    Some(())
}

/// A field from the element that was found for it, if one was.
#[cycle(recast)]
fn put_field(
    made: &mut Vec<u8>,
    reader: &Reader<'_>,
    field: &FieldShape,
    levels: u32,
    found: &Option<RawElement<'_>>,
) -> Option<()>
    ensures { IfSome result (λ _. IsFoundPut reader.now levels field.now found.now made.old.items made.new.items) }
{
    match found {
        Some(element) => recast_field(made, reader, field, levels, element),
        None => put_missing(made, field),
    }
}

/// A field that no element has: an option is null.
fn put_missing(made: &mut Vec<u8>, field: &FieldShape) -> Option<()>
    ensures name { IfSome result (λ _. has_zero (string_bytes field.now.name) ≡ false) }
    ensures absent { IfSome result (λ _. (r : Reader) → missing_value {T = Piece} (laid r field.now.shape) ≡ Some none) }
    ensures put { IfSome result (λ _. made.new.items ≡ made.old.items ++ element kinds.Null (string_bytes field.now.name) []) }
{
    let name = field.name.as_str();
    if has_zero(name) {
        return None;
    }
    match field.shape.form() {
        Form::Option(_) => {}
        _ => return None,
    }
    let place = made.len();
    put_front(made, name.as_bytes())?;
    set_kind(made, place, ElementType::Null);
    Some(())
}
