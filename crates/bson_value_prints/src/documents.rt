// Documents are written as bytes, read as trees, owned as bytes and folded, where there is memory; and the texts of the refusals.
use crate::values::add_elements_of;
use bson_base::{Bson, Document, EncodeError};
use bson_lines::Lines;
use bson_rawdoc::raw::Error;
use bson_rawdoc::{RawDocument, RawDocumentBuf};
use std::alloc::{AllocError, Global};

/// The document `{hello: "world"}` of bsonspec.org.
const HELLO: &[u8] = b"\x16\0\0\0\x02hello\0\x06\0\0\0world\0\0";

/// A document of one text.
fn one_text(alloc: Global, key: &str, text: &str) -> Result<Document, AllocError> {
    let mut document = Document::new(alloc);
    let key = String::from_str(alloc, key)?;
    let text = String::from_str(alloc, text)?;
    document.insert(key, Bson::String(text))?;
    Ok(document)
}

/// Adds the bytes of a document of one text, or why it has none.
fn add_written(lines: &mut Lines, alloc: Global, key: &str, text: &str) {
    match one_text(alloc, key, text) {
        Ok(document) => lines.bytes("written", document.to_vec(alloc)),
        Err(error) => lines.text("no document", &error),
    }
}

/// The tree that the bytes of a document are.
fn tree(alloc: Global) -> Result<Document, Error> {
    RawDocument::from_bytes(HELLO)?.to_document(alloc)
}

/// Adds the elements of the tree that the bytes of a document are, and a copy of it.
fn add_tree(lines: &mut Lines, alloc: Global) {
    match tree(alloc) {
        Ok(document) => {
            add_elements_of(lines, &document);
            lines.made("copy", document.try_clone(alloc));
        }
        Err(fault) => lines.debug("no tree", &fault),
    }
}

/// Adds the bytes of a document that owns them.
fn add_owned(lines: &mut Lines, bytes: Vec<u8>) {
    match RawDocumentBuf::from_bytes(bytes) {
        Ok(document) => lines.hex("owned", &document.into_bytes()),
        Err(fault) => lines.debug("no document", &fault),
    }
}

/// The value that a document with a wrapper key becomes.
fn folded(alloc: Global) -> Result<Bson, AllocError> {
    Bson::from_extended_document(alloc, one_text(alloc, "$symbol", "a")?)
}

/// Documents as bytes and as trees, a document that is folded, and the texts of the refusals of writing.
pub fn add_documents(lines: &mut Lines, alloc: Global) {
    add_written(lines, alloc, "hello", "world");
    add_tree(lines, alloc);
    match HELLO.to_vec(alloc) {
        Ok(bytes) => add_owned(lines, bytes),
        Err(error) => lines.text("no bytes", &error),
    }
    lines.made("folded", folded(alloc));
    add_written(lines, alloc, "a\0", "b");
    lines.text("refusal", &EncodeError::BinaryTooLong(16777217));
    lines.text("refusal", &EncodeError::TooLong);
    lines.text("refusal", &EncodeError::NoMemory);
}
