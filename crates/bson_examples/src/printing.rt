// What the examples return: over the document of a person, over the elements of a document, and over files of documents.
use crate::bson::{Document, Shape};
use crate::files::{at_shape, longest};
use crate::raw_documents::total;
use crate::reading::{age, age_in_memory};
use crate::recasting::upgraded;
use crate::shapes::person_shape;
use crate::writing::{person_bytes, person_document};
use bson_lines::Lines;
use std::alloc::Global;

/// The document `{name: "Ada", age: 36}`.
pub const ADA: &[u8] = b"\x1c\0\0\0\x02name\0\x04\0\0\0Ada\0\x10age\0\x24\0\0\0\0";

/// Adds the bytes of the document of a person, and the person's age there.
fn add_document(lines: &mut Lines, alloc: Global, shape: &Shape, document: Document) {
    lines.bytes("person_document", document.to_vec(alloc));
    lines.made("age_in_memory", age_in_memory(alloc, shape, document));
}

/// Adds what is read and written at the shape of a person.
fn add_person_at(lines: &mut Lines, alloc: Global, shape: &Shape) {
    lines.made("age", age(alloc, shape, ADA));
    lines.bytes("person_bytes", person_bytes(alloc, "Ada", 36));
    match person_document(alloc, "Ada", 36) {
        Ok(document) => add_document(lines, alloc, shape, document),
        Err(error) => lines.text("no person_document", &error),
    }
}

/// A person is read and written.
pub fn add_person(lines: &mut Lines, alloc: Global) {
    match person_shape(alloc) {
        Ok(shape) => add_person_at(lines, alloc, &shape),
        Err(error) => lines.text("no shape", &error),
    }
}

/// Adds a document that is recast at a shape, or left as it is.
fn add_upgraded_at(lines: &mut Lines, alloc: Global, notation: &str) {
    match Shape::parse(alloc, notation) {
        Ok(shape) => lines.bytes("upgraded", upgraded(alloc, &shape, ADA)),
        Err(error) => lines.text("no shape", &error),
    }
}

/// A document is recast, and another is left as it is.
pub fn add_upgraded(lines: &mut Lines, alloc: Global) {
    add_upgraded_at(lines, alloc, "{age:i64}");
    add_upgraded_at(lines, alloc, "{name:u8}");
}

/// Prices are added.
pub fn add_total(lines: &mut Lines) {
    let prices = b"\x1e\0\0\0\x10bread\0\x03\0\0\0\x12milk\0\x02\0\0\0\0\0\0\0\0";
    lines.made("total", total(prices));
}

/// A file of a document and an empty one, and bytes behind them that begin none.
const FILE: &[u8] = b"\x0c\0\0\0\x10n\0\x07\0\0\0\0\x05\0\0\0\0\x04\0";

/// A file is cut.
pub fn add_longest(lines: &mut Lines) {
    lines.debug("longest", &longest(FILE));
    lines.debug("longest", &longest(&FILE[..17]));
}

/// Adds what is written of a file, and the lines of the documents that are not.
fn add_migrated(lines: &mut Lines, alloc: Global, shape: &Shape) {
    match at_shape(alloc, shape, &FILE[..17]) {
        Ok((output, refused)) => {
            lines.hex("at_shape", &output);
            lines.debug("at_shape, refused", &refused);
        }
        Err(_) => lines.line("not migrated"),
    }
}

/// A file is migrated.
pub fn add_file(lines: &mut Lines, alloc: Global) {
    match Shape::parse(alloc, "{n:i32}") {
        Ok(shape) => add_migrated(lines, alloc, &shape),
        Err(error) => lines.text("no shape", &error),
    }
}
