// A map from texts to vectors of optional numbers, as the bytes of a document, as a value in memory and as a document in memory.
use crate::values::add_value;
use bson_base::Bson;
use bson_de_tree::DeserializerOptions;
use bson_io::MemorySource;
use bson_lines::Lines;
use bson_ser_tree::SerializerOptions;
use bson_typed_trees::{
    from_bson, from_bson_with_options, from_document, from_document_with_options, to_bson,
    to_bson_with_options, to_document, to_document_with_options,
};
use bson_types::{
    from_reader, from_reader_utf8_lossy, from_slice, from_slice_utf8_lossy, to_raw_document_buf,
    to_vec,
};
use std::alloc::{AllocError, Global};
use std::collections::BTreeMap;

/// What is written and read.
type Table = BTreeMap<String, Vec<Option<i32>>>;

/// The document `{a: [1, null]}`.
const TABLE: &[u8] = b"\x17\0\0\0\x04a\0\x0f\0\0\0\x100\0\x01\0\0\0\x0a1\0\0\0";

/// The document `{a: 1}`, whose value is no array.
const OTHER: &[u8] = b"\x0c\0\0\0\x10a\0\x01\0\0\0\0";

/// Options for a writer of the compact form.
fn writing() -> SerializerOptions {
    SerializerOptions::builder()
        .human_readable(Some(false))
        .build()
}

/// Options for a reader of the compact form.
fn reading() -> DeserializerOptions {
    DeserializerOptions::builder()
        .human_readable(Some(false))
        .build()
}

/// A source of these bytes, each call of which succeeds.
fn source(alloc: Global, bytes: &[u8]) -> Result<MemorySource, AllocError> {
    let bytes = bytes.to_vec(alloc)?;
    Ok(MemorySource::new(bytes, Vec::new(alloc), Vec::new(alloc)))
}

/// Adds what is read of a source.
fn add_source(lines: &mut Lines, alloc: Global, bytes: &[u8]) {
    match source(alloc, bytes) {
        Ok(mut source) => {
            let read = from_reader::<MemorySource, Table>(alloc, &mut source);
            lines.made("from_reader", read);
        }
        Err(error) => lines.text("no source", &error),
    }
}

/// Adds the same with texts mended.
fn add_mended_source(lines: &mut Lines, alloc: Global, bytes: &[u8]) {
    match source(alloc, bytes) {
        Ok(mut source) => {
            let read = from_reader_utf8_lossy::<MemorySource, Table>(alloc, &mut source);
            lines.made("from_reader_utf8_lossy", read);
        }
        Err(error) => lines.text("no source", &error),
    }
}

/// Adds what is read of bytes with texts mended.
fn add_mended(lines: &mut Lines, alloc: Global, bytes: &[u8]) {
    let read = from_slice_utf8_lossy::<Table>(alloc, bytes);
    lines.made("from_slice_utf8_lossy", read);
}

/// Adds the bytes that a table is written as, and the document that owns them.
fn add_bytes(lines: &mut Lines, alloc: Global, table: &Table) {
    lines.bytes("to_vec", to_vec(alloc, table));
    lines.made("to_raw_document_buf", to_raw_document_buf(alloc, table));
}

/// Adds what is read of a value in memory.
fn add_read(lines: &mut Lines, alloc: Global, value: Bson) {
    lines.made("from_bson", from_bson::<Table>(alloc, value));
}

/// Adds a table as a value in memory, and what is read of it.
fn add_tree(lines: &mut Lines, alloc: Global, table: &Table) {
    match to_bson(alloc, table) {
        Ok(value) => {
            lines.debug("to_bson", &value);
            add_read(lines, alloc, value);
        }
        Err(error) => lines.text("no value", &error),
    }
}

/// Adds the same in the compact form.
fn add_compact_tree(lines: &mut Lines, alloc: Global, table: &Table) {
    match to_bson_with_options(alloc, table, writing()) {
        Ok(value) => {
            lines.debug("to_bson_with_options", &value);
            let read = from_bson_with_options::<Table>(alloc, value, reading());
            lines.made("from_bson_with_options", read);
        }
        Err(error) => lines.text("no value", &error),
    }
}

/// Adds a table as a document in memory, and what is read of it.
fn add_document(lines: &mut Lines, alloc: Global, table: &Table) {
    match to_document(alloc, table) {
        Ok(document) => {
            lines.debug("to_document", &document);
            let read = from_document::<Table>(alloc, document);
            lines.made("from_document", read);
        }
        Err(error) => lines.text("no document", &error),
    }
}

/// Adds the same in the compact form.
fn add_compact_document(lines: &mut Lines, alloc: Global, table: &Table) {
    match to_document_with_options(alloc, table, writing()) {
        Ok(document) => {
            lines.debug("to_document_with_options", &document);
            let read = from_document_with_options::<Table>(alloc, document, reading());
            lines.made("from_document_with_options", read);
        }
        Err(error) => lines.text("no document", &error),
    }
}

/// Adds what is made of a table, and what is read of that.
fn add_table(lines: &mut Lines, alloc: Global, table: &Table) {
    lines.debug("from_slice", table);
    add_value::<BTreeMap<String, Vec<Option<i32>>>>(lines, alloc, table);
    add_bytes(lines, alloc, table);
    add_tree(lines, alloc, table);
    add_compact_tree(lines, alloc, table);
    add_document(lines, alloc, table);
    add_compact_document(lines, alloc, table);
}

/// Adds what is read of the bytes of a document, and what is made of that.
fn add_slice(lines: &mut Lines, alloc: Global, bytes: &[u8]) {
    match from_slice::<Table>(alloc, bytes) {
        Ok(table) => {
            add_table(lines, alloc, &table);
            drop(table);
        }
        Err(error) => lines.text("from_slice", &error),
    }
}

/// Adds a number as a value in memory; it is no document.
fn add_number(lines: &mut Lines, alloc: Global, number: &i32) {
    lines.made("to_bson", to_bson(alloc, number));
    lines.made("to_document", to_document(alloc, number));
}

/// A table that is read and written by each call, and a document and values that are none.
pub fn add_tables(lines: &mut Lines, alloc: Global) {
    add_slice(lines, alloc, TABLE);
    add_slice(lines, alloc, OTHER);
    add_mended(lines, alloc, TABLE);
    add_source(lines, alloc, TABLE);
    add_mended_source(lines, alloc, TABLE);
    add_read(lines, alloc, Bson::Int32(1));
    add_number(lines, alloc, &5);
}
