use crate::bson::{Datum, Document, Field, Text, ser, to_document_at, to_vec_at};
use std::alloc::{AllocError, Global};

/// A person, as a value of a struct. The name is borrowed.
pub fn person<'a>(alloc: Global, name: &'a str, age: u8) -> Result<Datum<'a>, AllocError> {
    let name = Field {
        name: Text::Borrowed("name"),
        value: Datum::Str(Text::Borrowed(name)),
    };
    let age = Field {
        name: Text::Borrowed("age"),
        value: Datum::U8(age),
    };
    let fields = vec![in alloc; name, age]?;
    Ok(Datum::Struct {
        name: Text::Borrowed("Person"),
        fields,
    })
}

/// The bytes of the document that a person is written as.
pub fn person_bytes(alloc: Global, name: &str, age: u8) -> ser::Result<Vec<u8>> {
    let person = person(alloc, name, age)?;
    to_vec_at(alloc, &person)
}

/// The same document in memory.
pub fn person_document(alloc: Global, name: &str, age: u8) -> ser::Result<Document> {
    let person = person(alloc, name, age)?;
    to_document_at(alloc, &person)
}
