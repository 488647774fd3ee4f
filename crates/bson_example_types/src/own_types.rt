use crate::{Cat, Pedigree, Person};
use bson::{Document, de, from_document, from_slice, ser, to_document, to_vec};
use std::alloc::Global;

/// The bytes of the document that a cat is, as `{name: "Garfield", age: 43}`.
pub fn cat_bytes(alloc: Global, cat: &Cat) -> ser::Result<Vec<u8>> {
    to_vec(alloc, cat)
}

/// The cat that the bytes of a document are.
pub fn cat_of(alloc: Global, bytes: &[u8]) -> de::Result<Cat> {
    from_slice(alloc, bytes)
}

/// The bytes of the document that a person with pets is.
pub fn household_bytes(alloc: Global, person: &Person) -> ser::Result<Vec<u8>> {
    to_vec(alloc, person)
}

/// The person with pets that the bytes of a document are.
pub fn household_of(alloc: Global, bytes: &[u8]) -> de::Result<Person> {
    from_slice(alloc, bytes)
}

/// The document in memory that a person with pets is.
pub fn household_document(alloc: Global, person: &Person) -> ser::Result<Document> {
    to_document(alloc, person)
}

/// The person with pets that a document in memory is.
pub fn household_in(alloc: Global, document: Document) -> de::Result<Person> {
    from_document(alloc, document)
}

/// The bytes of the document that a pedigree is, as `{Bred: [{Founder: 1}, {Founder: 2}]}`.
pub fn pedigree_bytes(alloc: Global, pedigree: &Pedigree) -> ser::Result<Vec<u8>> {
    to_vec(alloc, pedigree)
}

/// The pedigree that the bytes of a document are.
pub fn pedigree_of(alloc: Global, bytes: &[u8]) -> de::Result<Pedigree> {
    from_slice(alloc, bytes)
}
