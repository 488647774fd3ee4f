// Raw values, of an element and of trees: the kind and the bytes of each.
use crate::reading::add_given;
use bson_base::{Bson, Document};
use bson_lines::Lines;
use bson_raw_builder::{raw_from_bson, raw_from_element, raw_of_bson};
use bson_rawdoc::RawDocument;
use bson_rawdoc::raw::Error;
use std::alloc::{AllocError, Global};

/// The document with an array under `a`, whose keys are `5` and `7`.
const ARRAY: &[u8] = b"\x1b\0\0\0\x04a\0\x13\0\0\0\x105\0\x01\0\0\0\x107\0\x02\0\0\0\0\0";

/// The document with an empty one under `a`.
const NESTED: &[u8] = b"\x0d\0\0\0\x03a\0\x05\0\0\0\0\0";

/// The document with a binary of subtype 2 under `b`.
const OLD_BINARY: &[u8] = b"\x12\0\0\0\x05b\0\x05\0\0\0\x02\x01\0\0\0\xaa\0";

/// Adds each element of a document as a raw value.
fn add_elements(lines: &mut Lines, document: RawDocument<'_>) {
    for element in document.iter_elements() {
        match element {
            Ok(element) => add_given(lines, "raw_from_element", raw_from_element(&element)),
            Err(fault) => lines.debug("no element", &fault),
        }
    }
}

/// The tree of a document.
fn tree(alloc: Global, bytes: &[u8]) -> Result<Bson, Error> {
    let document = RawDocument::from_bytes(bytes)?.to_document(alloc)?;
    Ok(Bson::Document(document))
}

/// A document whose key holds a zero character.
fn zero(alloc: Global) -> Result<Bson, AllocError> {
    let mut document = Document::new(alloc);
    document.insert(String::from_str(alloc, "a\0")?, Bson::Null)?;
    Ok(Bson::Document(document))
}

/// Adds a tree as a raw value, with the tree kept and not.
fn add_tree(lines: &mut Lines, alloc: Global, tree: Bson) {
    lines.made("raw_of_bson", raw_of_bson(alloc, &tree));
    lines.made("raw_from_bson", raw_from_bson(alloc, tree));
}

/// Adds the tree of a document as a raw value.
fn add_document(lines: &mut Lines, alloc: Global, bytes: &[u8]) {
    match tree(alloc, bytes) {
        Ok(tree) => add_tree(lines, alloc, tree),
        Err(fault) => lines.debug("no tree", &fault),
    }
}

/// Adds the refusal of a key.
fn add_zero(lines: &mut Lines, alloc: Global) {
    match zero(alloc) {
        Ok(tree) => add_tree(lines, alloc, tree),
        Err(error) => lines.text("no tree", &error),
    }
}

/// An element, two documents and a refusal.
pub fn add_raw(lines: &mut Lines, alloc: Global) {
    match RawDocument::from_bytes(ARRAY) {
        Ok(document) => add_elements(lines, document),
        Err(fault) => lines.debug("no document", &fault),
    }
    add_document(lines, alloc, NESTED);
    add_document(lines, alloc, OLD_BINARY);
    add_zero(lines, alloc);
}
