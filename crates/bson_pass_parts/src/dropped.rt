// Values that no field takes: they are walked to their end, and dropped.
ghost use Rattle.std.specs.Prelude.{◌≡◌, ◌≤◌, ◌-◌, ℕ, Ok, true, false, IfSome, IsTrue};
ghost use Rattle.std.specs.Str.{is_utf8};
ghost use Rattle.bson_rawdoc.specs.Node.{binary_node, inner_node, node_in, nodes_with, value_node};
ghost use Rattle.bson_kinds.specs.Piece.{borrowed};
ghost use Rattle.bson_rawdoc.specs.ValueView.{raw_value};
ghost use Rattle.bson_laws.specs.Judged.{ignores};
ghost use Rattle.bson_pass_parts.specs.Free.{ArePassed};

use crate::element::value_of;
use crate::kept::is_boolean;
use bson_base::BinarySubtype;
use bson_kinds::ElementType;
use bson_rawdoc::{RawBsonRef, RawElement, RawIter};

/// Whether nothing in a value is at fault, with so many levels left.
#[cycle(dropped)]
pub(crate) fn is_passed(value: &RawBsonRef<'_>, levels: u32) -> bool
    ensures { IsTrue result → ignores (value_node (inner_node levels) (raw_value value.now)) ≡ Ok tt }
{
    match value {
        RawBsonRef::Double(_)
        | RawBsonRef::Boolean(_)
        | RawBsonRef::Null
        | RawBsonRef::Int32(_)
        | RawBsonRef::Int64(_)
        | RawBsonRef::ObjectId(_)
        | RawBsonRef::DateTime(_)
        | RawBsonRef::Timestamp(_)
        | RawBsonRef::Decimal128(_)
        | RawBsonRef::Undefined
        | RawBsonRef::MaxKey
        | RawBsonRef::MinKey => true,
        RawBsonRef::Binary { subtype, bytes } => is_binary(*subtype, bytes),
        RawBsonRef::String(text) => is_text(text),
        RawBsonRef::Symbol(text) => is_text(text),
        RawBsonRef::JavaScriptCode(code) => is_text(code),
        RawBsonRef::RegularExpression { pattern, options } => is_text(pattern) && is_text(options),
        RawBsonRef::DbPointer { namespace, .. } => is_text(namespace),
        RawBsonRef::Document(document) => are_passed(document.iter_elements(), levels),
        RawBsonRef::Array(array) => are_passed(array.as_doc().iter_elements(), levels),
        RawBsonRef::JavaScriptCodeWithScope { code, scope } => {
            is_text(code) && are_passed(scope.iter_elements(), levels)
        }
    }
}

/// Whether nothing in the elements of a document or an array is at fault, which takes one of so many levels.
#[cycle(dropped)]
fn are_passed(elements: RawIter<'_>, levels: u32) -> bool
    ensures level { IsTrue result → 1 ≤ levels }
    ensures passed { IsTrue result → ArePassed (nodes_with (node_in (levels - 1)) elements.entry) }
{
    if levels == 0 {
        return false;
    }
    for element in elements {
        let Ok(element) = element else {
            return false;
        };
        let Some(value) = value_of(&element, levels - 1) else {
            return false;
        };
        if !is_passed(&value, levels - 1) {
            return false;
        }
    }
    true
}

// A text is UTF-8.
fn is_text(text: &str) -> bool
    ensures { is_utf8 text.now ≡ true }
{
    true
}

// Nothing in a binary is at fault.
fn is_binary(subtype: BinarySubtype, bytes: &[u8]) -> bool
    ensures { ignores (binary_node false subtype.0 (borrowed bytes.now)) ≡ Ok tt }
{
    true
}

/// The value of an element that no field has: it is walked to its end, and dropped. `None` where something in it is at fault.
#[inline(always)]
pub fn drop_value(levels: u32, element: &RawElement<'_>) -> Option<()>
    ensures { IfSome result (λ _. ignores (node_in levels element.now.kind element.now.value) ≡ Ok tt) }
{
    if is_harmless(element.element_type(), element.slice()) {
        return Some(());
    }
    drop_other(levels, &element.clone())
}

// The same for a value in which something can be at fault.
#[inline(never)]
fn drop_other(levels: u32, element: &RawElement<'_>) -> Option<()>
    ensures { IfSome result (λ _. ignores (node_in levels element.now.kind element.now.value) ≡ Ok tt) }
{
    let value = value_of(element, levels)?;
    if is_passed(&value, levels) {
        return Some(());
    }
    None
}

// Whether nothing can be at fault in a value of the kind in these bytes, since it is one of so many bytes.
#[inline(always)]
fn is_harmless(kind: ElementType, bytes: &[u8]) -> bool
    ensures { IsTrue result → (levels : ℕ) → ignores (node_in levels kind bytes.now) ≡ Ok tt }
{
    match kind {
        ElementType::Double
        | ElementType::Null
        | ElementType::Int32
        | ElementType::Int64
        | ElementType::ObjectId
        | ElementType::DateTime
        | ElementType::Timestamp
        | ElementType::Decimal128 => true,
        ElementType::Boolean => is_boolean(bytes),
        _ => false,
    }
}
