// The elements of fields that a document has in another order than the shape.
ghost use Rattle.std.specs.Prelude.{◌≡◌, ◌++◌, None, length, replicate, true, IfSome, IfNone};
ghost use Rattle.bson_rawdoc.specs.Node.{ended, node_in, nodes_with};
ghost use Rattle.bson_rawdoc.specs.Walk.{walk_elements};
ghost use Rattle.bson_shape.specs.Makers.{AreDistinct};
ghost use Rattle.bson_shape.specs.ShapeView.{fields_of};
ghost use Rattle.bson_slots.specs.FieldsRead.{unknown_of};
ghost use Rattle.bson_laws.specs.declared.origin.Reader.{Reader};
ghost use Rattle.bson_pass_parts.specs.Found.{IsField, IsNoted, AreFound};
ghost use Rattle.bson_pass_parts.specs.Free.{is_free};

use crate::dropped::drop_value;
use bson_rawdoc::{RawElement, next_element};
use bson_shape::FieldShape;
use std::alloc::Global;

/// For each of these fields, which are behind those in front, the element that has its name. An element that no field has is dropped where the struct is not closed.
///
/// `None` where an element has the name of a field in front or of one that has an element, where the struct is closed and an element has the name of no field, where
/// something in the elements is at fault, and where memory runs out.
pub fn find_elements<'a>(
    alloc: Global,
    front: &[FieldShape],
    fields: &[FieldShape],
    closed: bool,
    levels: u32,
    elements: &'a [u8],
) -> Option<Vec<Option<RawElement<'a>>>>
    requires distinct { AreDistinct (fields_of (front.now ++ fields.now)) }
    ensures { IfSome result (λ found. (r : Reader) → AreFound r (unknown_of closed) levels front.now fields.now (nodes_with (node_in levels) (walk_elements elements.now)) ended found.items) }
{
    let mut found = none_found(alloc, fields.len())?;
    let mut next = 0;
    let mut rest = elements;
    while let Some(step) = next_element(rest) {
        let Ok((element, behind)) = step else {
            return None;
        };
        next = note_element(&mut found, front, fields, next, closed, levels, element)?;
        rest = behind;
    }
    Some(found)
}

// Notes an element as that of its field, or drops it where the struct is not closed. The place behind that of the field is tried first for the next element.
fn note_element<'a>(
    found: &mut Vec<Option<RawElement<'a>>>,
    front: &[FieldShape],
    fields: &[FieldShape],
    next: usize,
    closed: bool,
    levels: u32,
    element: RawElement<'a>,
) -> Option<usize>
    requires distinct { AreDistinct (fields_of (front.now ++ fields.now)) }
    ensures noted { IfSome result (λ _. (r : Reader) → IsNoted r (unknown_of closed) levels front.now fields.now element.entry found.old.items found.new.items) }
{
    let Some(place) = place_of(fields, next, element.key()) else {
        if closed {
            return None;
        }
        if !is_free(front, element.key()) {
            return None;
        }
        drop_value(levels, &element)?;
        return Some(next);
    };
    match found.get(place) {
        Some(None) => {
            found[place] = Some(element);
            Some(place + 1)
        }
        _ => None,
    }
}

// No element for each of so many fields.
fn none_found<'a>(alloc: Global, count: usize) -> Option<Vec<Option<RawElement<'a>>>>
    ensures { IfSome result (λ found. found.items ≡ replicate count None) }
{
    let mut found = Vec::with_capacity(alloc, count).ok()?;
    while found.len() < count {
        found.push(None).ok()?;
    }
    Some(found)
}

// The place of the field that a key names, from 0. The one that comes next is tried first.
fn place_of(fields: &[FieldShape], next: usize, key: &str) -> Option<usize>
    ensures found { IfSome result (λ i. IsField fields.now i key.now) }
    ensures free { IfNone result (is_free key.now fields.now ≡ true) }
{
    match fields.get(next) {
        Some(field) if field.name.as_str() == key => Some(next),
        _ => scan(fields, key),
    }
}

// The place of the field that a key names, wherever it is.
fn scan(fields: &[FieldShape], key: &str) -> Option<usize>
    ensures found { IfSome result (λ i. IsField fields.now i key.now) }
    ensures free { IfNone result (is_free key.now fields.now ≡ true) }
{
    for (place, field) in fields.iter().enumerate() {
        if field.name.as_str() == key {
            return Some(place);
        }
    }
    None
}

/// Whether a key is the name of no field.
pub fn is_free(fields: &[FieldShape], key: &str) -> bool
    ensures { result ≡ is_free key.now fields.now }
{
    for field in fields {
        if field.name.as_str() == key {
            return false;
        }
    }
    true
}
