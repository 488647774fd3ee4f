// A whole document.
ghost use Rattle.std.specs.Prelude.{IfSome};
ghost use Rattle.bson_shape.specs.Form as form;
ghost use Rattle.bson_pass_parts.specs.Recast.{IsRecastAs};

use crate::value::recast_value;
use bson_base::MAX_NESTING_LEVEL;
use bson_io::MOST;
use bson_kinds::ElementType;
use bson_laws::{Origin, Reader};
use bson_pass_parts::{borrows_nothing, is_leaf_kept};
use bson_rawdoc::{RawBsonRef, RawDocument};
use bson_shape::{Form, Leaf, Shape};
use std::alloc::Global;

/// Reads the bytes of a document at a shape, and gives the bytes of what was read, in one pass.
///
/// `None` says nothing of the document: it is for the shapes and documents that the pass does not take, for those that are refused, and where memory runs
/// out. It takes structs, closed or not, those of more than 64 fields where the document has them in the shape's order and nothing else, options, sequences, tuples, tuple
/// structs, newtypes, unit structs, enums, maps of different keys at `str` or `string`, and the leaves `bool`, `double`, `unit`,
/// `str`, `string`, `bytes`, `bytebuf`, `oid`, `datetime`, `timestamp`, `decimal`, `binary`, `uuid` and those of integers, where the value is of the kind of the
/// leaf, and `regex`, `codews` and `dbpointer` where it is written as it was read. At `any`, `bson` and `document` it takes what is written as it was read: values whose arrays have their indexes as keys and whose documents
/// have no key twice, at `any` without an extended value in them, at the others without a wrapper key; at `rawdoc`, `rawarray` and `rawbson` every document and array. Under a mark it takes what borrows nothing, where every text is UTF-8. A value inside the document
/// that it does not take is read and written by itself.
pub fn recast_at_once(alloc: Global, shape: &Shape, bytes: &[u8]) -> Option<Vec<u8>>
    ensures recast { IfSome result (λ v. IsRecastAs shape.now bytes.now v.items) }
{
    if let Form::Leaf(leaf) = shape.form() {
        return keep_document(alloc, leaf, bytes);
    }
    let Ok(document) = RawDocument::from_bytes(bytes) else {
        return None;
    };
    let Ok(mut made) = Vec::with_capacity(alloc, bytes.len()) else {
        return None;
    };
    match recast_value(
        &mut made,
        &Reader::new(false, Origin::Bytes),
        shape,
        MAX_NESTING_LEVEL,
        &RawBsonRef::Document(document),
    )? {
        ElementType::EmbeddedDocument if made.len() <= MOST => Some(made),
        _ => None,
    }
}

/// The same where the texts of the document are mended.
///
/// It takes the shapes that borrow nothing, those without `str` and `bytes`, and documents whose texts are UTF-8.
pub fn recast_at_once_utf8_lossy(alloc: Global, shape: &Shape, bytes: &[u8]) -> Option<Vec<u8>>
    ensures recast { IfSome result (λ v. IsRecastAs (form.lossy shape.now) bytes.now v.items) }
{
    if !borrows_nothing(shape) {
        return None;
    }
    recast_at_once(alloc, shape, bytes)
}

/// A document that is written at a leaf as it was read: a copy of its bytes.
fn keep_document(alloc: Global, leaf: Leaf, bytes: &[u8]) -> Option<Vec<u8>>
    ensures { IfSome result (λ v. IsRecastAs (form.leaf leaf) bytes.now v.items) }
{
    let Ok(document) = RawDocument::from_bytes(bytes) else {
        return None;
    };
    let bytes = document.as_bytes();
    let kind = ElementType::EmbeddedDocument;
    if bytes.len() > MOST || !is_leaf_kept(alloc, leaf, MAX_NESTING_LEVEL, kind, bytes) {
        return None;
    }
    Vec::from_slice(alloc, bytes).ok()
}
