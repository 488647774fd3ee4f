// Values at the leaves of extended kinds.
ghost use Rattle.std.specs.Prelude.{◌≡◌, true, false};
ghost use Rattle.bson_base.specs.Tree.{Tree};
ghost use Rattle.bson_kinds.specs.Piece.{made};
ghost use Rattle.bson_shape.specs.Form as form;
ghost use Rattle.bson_datum.specs.MarkedView.{marked};
ghost use Rattle.bson_laws.specs.Datum.{datum};
ghost use Rattle.bson_laws.specs.Reads.{reads};
ghost use Rattle.bson_leaves.specs.Extended.{is_extended};
ghost use Rattle.bson_met.specs.Gives.{Reaches};
ghost use Rattle.bson_met.specs.PieceView.{met_text};
ghost use Rattle.bson_trees.specs.Trees.{is_raw};
ghost use Rattle.bson_trees.specs.Leaves.{object_id_from, id_of_digits, id_of_bytes, kind_from, kind_of_tree, documents_from};

use crate::raw::{raw_array, raw_document, raw_value};
use crate::trees::{read_elements, read_entries, read_tree};
use crate::unique_id::uuid;
use bson_datum::Datum;
use bson_kinds::ElementType;
use bson_met::{Elements, Extended, Met, MetText, Reading, Value, refused};
use bson_shape::Leaf;
use bson_values::{Cause, Wrapper};
use bson_wrapped::{data, id_of_text};
use std::alloc::Global;

/// The number of bytes of an ObjectId.
const ID_LENGTH: usize = 12;

/// The value at an extended leaf: an extended value, or a document that stands for one. All texts and byte strings in it are owned; at a raw leaf the bytes of a
/// document and of an array are borrowed, and so are texts and byte strings where they are in the input.
///
/// Source: the extended types of MongoDB's crate `bson`, version 2, and MongoDB's extended JSON, version 2.
///
/// # Errors
///
/// The value is not what the leaf takes, or a document in it has a wrapper key whose value is not valid: the definition of reading (`read_extended`)
/// says when, and for which cause.
#[inline(never)]
pub fn read_extended<'de>(alloc: Global, leaf: Leaf, value: &Met<'de>) -> Reading<Datum<'de>>
    requires extended { is_extended leaf ≡ true }
    ensures exact { Reaches marked result (reads (form.leaf leaf) value.now) }
{
    match leaf {
        Leaf::ObjectId => object_id(alloc, value),
        Leaf::Uuid => uuid(alloc, value),
        Leaf::Bson => read_tree(alloc, value),
        Leaf::Document => document(alloc, value),
        Leaf::DateTime => of_kind(alloc, ElementType::DateTime, value),
        Leaf::Binary => of_kind(alloc, ElementType::Binary, value),
        Leaf::Timestamp => of_kind(alloc, ElementType::Timestamp, value),
        Leaf::Regex => of_kind(alloc, ElementType::RegularExpression, value),
        Leaf::CodeWithScope => of_kind(alloc, ElementType::JavaScriptCodeWithScope, value),
        Leaf::Decimal128 => of_kind(alloc, ElementType::Decimal128, value),
        Leaf::DbPointer => of_kind(alloc, ElementType::DbPointer, value),
        Leaf::RawDocument => raw_document(alloc, value),
        Leaf::RawArray => raw_array(alloc, value),
        Leaf::RawBson => raw_value(alloc, value),
        _ => unreachable!(),
    }
}

/// A value of this kind.
fn of_kind<'de>(alloc: Global, kind: ElementType, value: &Met<'de>) -> Reading<Datum<'de>>
    ensures exact { Reaches marked result (kind_from kind value.now) }
{
    let value = read_tree(alloc, value)?;
    with_kind(alloc, kind, value)
}

/// The value, where it is of this kind.
fn with_kind<'de>(alloc: Global, kind: ElementType, value: Datum<'de>) -> Reading<Datum<'de>>
    ensures exact { (t : Tree) → is_raw t ≡ false → datum made t ≡ marked value.entry → Reaches marked result (kind_of_tree kind t) }
{
    let found = value.element_type();
    if found == kind {
        return Ok(value);
    }
    drop(value);
    Err(refused(alloc, Cause::WrongKind(found)))
}

/// An ObjectId, its digits, its bytes, or a document that stands for one.
fn object_id<'de>(alloc: Global, value: &Met<'de>) -> Reading<Datum<'de>>
    ensures exact { Reaches marked result (object_id_from value.now) }
{
    match value.judge(alloc)? {
        Value::Extended(Extended::ObjectId(id)) => Ok(data::object_id(alloc, id.bytes)?),
        Value::String(text) => digits(alloc, text),
        Value::Bytes(bytes) => id_bytes(alloc, bytes.bytes),
        Value::Document(document) => {
            let value = read_elements(alloc, Elements::of_document(document))?;
            with_kind(alloc, ElementType::ObjectId, value)
        }
        other => Err(refused(alloc, Cause::InvalidType(other.kind()))),
    }
}

/// The ObjectId of 24 hexadecimal digits.
fn digits<'de>(alloc: Global, text: MetText<'_>) -> Reading<Datum<'de>>
    ensures exact { Reaches marked result (id_of_digits (met_text text.entry).bytes) }
{
    let text = text.to_text(alloc)?;
    match id_of_text(alloc, text.as_str())? {
        Some(id) => Ok(id),
        None => Err(refused(alloc, Cause::BadBody(Wrapper::Oid))),
    }
}

/// The ObjectId of twelve bytes.
fn id_bytes<'de>(alloc: Global, id: &[u8]) -> Reading<Datum<'de>>
    ensures exact { Reaches marked result (id_of_bytes id.now) }
{
    if id.len() == ID_LENGTH {
        return Ok(data::object_id(alloc, id)?);
    }
    Err(refused(alloc, Cause::InvalidLength(id.len() as u64)))
}

/// A document, or the refusal of what else the value is as a tree.
fn document<'de>(alloc: Global, value: &Met<'de>) -> Reading<Datum<'de>>
    ensures exact { Reaches marked result (documents_from value.now) }
{
    Ok(Datum::Map(read_entries(alloc, value)?))
}
