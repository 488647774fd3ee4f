// What the examples return: over the values of a person, documents in memory, and an extended value.
use crate::accessors::{age_of, first_city};
use crate::bson::{Bson, DateTime, Document, ObjectId, Shape, from_slice_at, ser, to_vec_at};
use crate::extended::{event, id_of};
use crate::parts::{person_by_fields, person_tree_by_fields};
use crate::trees::{ada, document_bytes, document_of, first_null};
use bson_lines::Lines;
use std::alloc::{AllocError, Global};

/// The document `{name: "Ada", age: 36}`.
const ADA: &[u8] = b"\x1c\0\0\0\x02name\0\x04\0\0\0Ada\0\x10age\0\x24\0\0\0\0";

/// Adds the age of a person.
fn add_age_at(lines: &mut Lines, alloc: Global, shape: &Shape) {
    match from_slice_at(alloc, shape, ADA) {
        Ok(person) => lines.debug("age_of", &age_of(&person)),
        Err(error) => lines.text("no value", &error),
    }
}

/// The age of a person is found.
pub fn add_age(lines: &mut Lines, alloc: Global) {
    match Shape::parse(alloc, "{name:string,age:u8}") {
        Ok(shape) => add_age_at(lines, alloc, &shape),
        Err(error) => lines.text("no shape", &error),
    }
}

/// A person is written field by field.
pub fn add_parts(lines: &mut Lines, alloc: Global) {
    lines.bytes("person_by_fields", person_by_fields(alloc, "Ada", 36));
    match person_tree_by_fields(alloc, "Ada", 36) {
        Ok(Bson::Document(tree)) => add_tree(lines, alloc, "person_tree_by_fields", &tree),
        Ok(_) => lines.line("no document"),
        Err(error) => lines.text("no person_tree_by_fields", &error),
    }
}

/// Adds the first city of a person.
fn add_city_at(lines: &mut Lines, alloc: Global, shape: &Shape) {
    let bytes = b"\x2e\0\0\0\x04addresses\0\
        \x1e\0\0\0\x030\0\x16\0\0\0\x02city\0\x07\0\0\0London\0\0\0\0";
    match from_slice_at(alloc, shape, bytes) {
        Ok(person) => lines.debug("first_city", &first_city(&person)),
        Err(error) => lines.text("no value", &error),
    }
}

/// A city is found.
pub fn add_city(lines: &mut Lines, alloc: Global) {
    match Shape::parse(alloc, "{addresses:[{city:string}]}") {
        Ok(shape) => add_city_at(lines, alloc, &shape),
        Err(error) => lines.text("no shape", &error),
    }
}

/// The document of the person, with a null behind it.
fn with_null(alloc: Global) -> Result<Document, AllocError> {
    let mut document = ada(alloc)?;
    document.insert(String::from_str(alloc, "email")?, Bson::Null)?;
    Ok(document)
}

/// Adds the bytes of a document in memory.
fn add_tree(lines: &mut Lines, alloc: Global, name: &str, document: &Document) {
    lines.bytes(name, document_bytes(alloc, document));
}

/// Adds the first key of a document whose value is null.
fn add_null(lines: &mut Lines, document: &Result<Document, AllocError>) {
    match document {
        Ok(document) => lines.debug("first_null", &first_null(document)),
        Err(error) => lines.text("no document", error),
    }
}

/// A document in memory is made and written, and read from bytes.
pub fn add_trees(lines: &mut Lines, alloc: Global) {
    let ada = ada(alloc);
    add_null(lines, &ada);
    add_null(lines, &with_null(alloc));
    if let Ok(ada) = &ada {
        add_tree(lines, alloc, "document_bytes", ada);
    }
    match document_of(alloc, ADA) {
        Ok(document) => add_tree(lines, alloc, "document_of", &document),
        Err(error) => lines.text("no document_of", &error),
    }
}

/// The bytes that an event is written as.
fn event_bytes(alloc: Global) -> ser::Result<Vec<u8>> {
    let id = ObjectId(*b"\x50\x7f\x1f\x77\xbc\xf8\x6c\xd7\x99\x43\x90\x11");
    let event = event(alloc, id, DateTime::from_millis(1700000000000))?;
    to_vec_at(alloc, &event)
}

/// Adds the ObjectId of an event that is read from bytes.
fn add_id_at(lines: &mut Lines, alloc: Global, shape: &Shape, bytes: &[u8]) {
    match from_slice_at(alloc, shape, bytes) {
        Ok(event) => lines.debug("id_of", &id_of(&event).map(|id| id.0)),
        Err(error) => lines.text("no event", &error),
    }
}

/// Adds an event's bytes, and the ObjectId that is read of them.
fn add_id(lines: &mut Lines, alloc: Global, bytes: &[u8]) {
    lines.hex("event", bytes);
    match Shape::parse(alloc, "{_id:oid,at:datetime}") {
        Ok(shape) => add_id_at(lines, alloc, &shape, bytes),
        Err(error) => lines.text("no shape", &error),
    }
}

/// An event is written, and its ObjectId read.
pub fn add_event(lines: &mut Lines, alloc: Global) {
    match event_bytes(alloc) {
        Ok(bytes) => add_id(lines, alloc, &bytes),
        Err(error) => lines.text("no event_bytes", &error),
    }
}
