// Documents in memory that are read at shapes, and values that are written as such.
use bson_base::Document;
use bson_datum::Datum;
use bson_de_tree::{DeserializerOptions, from_document_at, from_document_with_options_at};
use bson_rawdoc::RawDocument;
use bson_ser_tree::{SerializerOptions, to_document_at, to_document_with_options_at};
use bson_shape::Shape;
use bson_values::{de, ser};
use std::alloc::Global;

/// The word for a reader and a writer who are not human.
const COMPACT: &str = "compact";

/// The document in these bytes, in memory.
pub fn tree_in(alloc: Global, bytes: &[u8]) -> Option<Document> {
    RawDocument::from_bytes(bytes).ok()?.to_document(alloc).ok()
}

/// The value that a document is at a shape.
pub fn read_tree<'x>(
    alloc: Global,
    shape: &Shape,
    document: Document,
    mode: &str,
) -> de::Result<Datum<'x>> {
    if mode == COMPACT {
        let options = DeserializerOptions::builder()
            .human_readable(Some(false))
            .build();
        return from_document_with_options_at(alloc, shape, document, options);
    }
    from_document_at(alloc, shape, document)
}

/// A value as a document.
pub fn write_tree(alloc: Global, value: &Datum<'_>, mode: &str) -> ser::Result<Document> {
    if mode == COMPACT {
        let options = SerializerOptions::builder()
            .human_readable(Some(false))
            .build();
        return to_document_with_options_at(alloc, value, options);
    }
    to_document_at(alloc, value)
}
