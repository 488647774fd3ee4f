// A document in its bytes that adds nothing to what is common to the documents before.
ghost use Rattle.std.specs.Prelude.{◌≡◌, ◌<◌, ◌+◌, IsTrue, IfSome, vec_len};
ghost use Rattle.bson_kinds.specs.Outcome.{result_map};
ghost use Rattle.bson_base.specs.Tree as tree;
ghost use Rattle.bson_rawdoc.specs.DocumentTree.{tree_at, pairs_at, document_pairs};
ghost use Rattle.bson_rawdoc.specs.DocumentView.{document_bytes};
ghost use Rattle.bson_rawdoc.specs.RawValue as raw;
ghost use Rattle.bson_rawdoc.specs.ValueView.{raw_value};
ghost use Rattle.bson_infer_run.specs.Covered.{fields_from, element_tree, IsPlain, Has, Takes, IsCovered};
ghost use Rattle.bson_infer_run.specs.Files.{piece_pairs};
ghost use Rattle.bson_infer_run.specs.SummaryView.{struct_form, IsEven, IsKnown};

use crate::join::is_within;
use crate::sound::{
    MOST, size_of_bytes, size_of_id, size_of_int32, size_of_int64, size_of_key, size_of_text,
    size_of_time, size_of_timestamp,
};
use crate::summary::{Kind, StructSummary, Summary};
use bson_base::MAX_NESTING_LEVEL;
use bson_rawdoc::{RawBsonRef, RawDocument, RawElement};
use bson_shape::Leaf;

/// Whether the bytes are a sound document that adds nothing to a summary. It is a short way: `false` says nothing.
pub(crate) fn is_covered(bytes: &[u8], summary: &Summary) -> bool
    ensures { IsTrue result → IsCovered summary.now (piece_pairs bytes.now) }
{
    if summary.or_null {
        return false;
    }
    let Kind::Structure(fields) = &summary.kind else {
        return false;
    };
    let Ok(document) = RawDocument::from_bytes(bytes) else {
        return false;
    };
    has_document(fields, document)
}

// Whether a document is sound and adds nothing to a struct.
fn has_document(fields: &StructSummary, document: RawDocument<'_>) -> bool
    requires { IsKnown fields.now }
    ensures { IsTrue result → IsCovered (struct_form fields.now) (document_pairs (document_bytes document.entry)) }
{
    size_of_document(fields, document, MAX_NESTING_LEVEL).is_some()
}

// The bytes of a document that has each field of the struct, in their order, and no other.
#[cycle(covered)]
fn size_of_document(fields: &StructSummary, document: RawDocument<'_>, levels: u32) -> Option<usize>
    requires { IsKnown fields.now }
    ensures { Has levels (struct_form fields.now) result (result_map tree.document (pairs_at levels (document_bytes document.entry))) }
{
    let inner = levels.checked_sub(1)?;
    let mut place = 0;
    let mut total = 0;
    for element in document.iter_elements() {
        let Ok(element) = element else {
            return None;
        };
        let size = size_of_element(fields, place, &element, inner)?;
        if size > MOST - total {
            return None;
        }
        total += size;
        place += 1;
    }
    if place != fields.fields.len() {
        return None;
    }
    if total > MOST - 5 {
        return None;
    }
    Some(total + 5)
}

// The bytes of an element whose key is that of the field at an index, which has its value.
#[cycle(covered)]
fn size_of_element(
    fields: &StructSummary,
    place: usize,
    element: &RawElement<'_>,
    levels: u32,
) -> Option<usize>
    requires { IsEven fields.now }
    ensures within { IfSome result (λ n. place < vec_len fields.now.fields) }
    ensures takes { Takes levels (fields_from fields.now place) (fields_from fields.now (place + 1)) element.now.key result (element_tree levels element.now) }
{
    let key = size_of_key(element.key())?;
    if !fields.is_at(element.key(), place) {
        return None;
    }
    let Ok(value) = element.value() else {
        return None;
    };
    let value = size_of_value(&fields.fields[place].summary, value, levels)?;
    Some(key + value)
}

// The bytes of a value that a summary has.
#[cycle(covered)]
fn size_of_value(summary: &Summary, value: RawBsonRef<'_>, levels: u32) -> Option<usize>
    ensures { Has levels summary.now result (tree_at levels (raw_value value.entry)) }
{
    let RawBsonRef::Document(document) = value else {
        return size_of_leaf(summary, value);
    };
    let Kind::Structure(fields) = &summary.kind else {
        return None;
    };
    size_of_document(fields, document, levels)
}

// The bytes of a value without inner values that a summary has.
fn size_of_leaf(summary: &Summary, value: RawBsonRef<'_>) -> Option<usize>
    ensures { Has 0 summary.now result (tree_at 0 (raw_value value.entry)) }
{
    if summary.or_null && is_null(&value) {
        return Some(0);
    }
    let Kind::Leaf(leaf) = &summary.kind else {
        return None;
    };
    let (found, size) = plain(&value)?;
    if !is_within(found, *leaf) {
        return None;
    }
    Some(size)
}

// Whether a value is null.
fn is_null(value: &RawBsonRef<'_>) -> bool
    ensures { IsTrue result → raw_value value.now ≡ raw.null }
{
    matches!(value, RawBsonRef::Null)
}

// The leaf of a value without inner values, and its bytes.
fn plain(value: &RawBsonRef<'_>) -> Option<(Leaf, usize)>
    ensures { IsPlain result (tree_at 0 (raw_value value.now)) }
{
    match value {
        RawBsonRef::Double(number) => Some((Leaf::Double, size_of_bytes(&number.0))),
        RawBsonRef::String(text) => Some((Leaf::String, size_of_text(*text)?)),
        RawBsonRef::Boolean(_) => Some((Leaf::Bool, 1)),
        RawBsonRef::Null => Some((Leaf::Unit, 0)),
        RawBsonRef::Int32(number) => Some((Leaf::I32, size_of_int32(number))),
        RawBsonRef::Int64(number) => Some((Leaf::I64, size_of_int64(number))),
        RawBsonRef::ObjectId(id) => Some((Leaf::ObjectId, size_of_id(id))),
        RawBsonRef::DateTime(time) => Some((Leaf::DateTime, size_of_time(time))),
        RawBsonRef::Timestamp(time) => Some((Leaf::Timestamp, size_of_timestamp(time))),
        RawBsonRef::Decimal128(number) => Some((Leaf::Decimal128, size_of_bytes(&number.0))),
        _ => None,
    }
}
