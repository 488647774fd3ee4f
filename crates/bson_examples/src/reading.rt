ghost use Rattle.std.specs.Prelude.{IsOk, OnOk};
ghost use Rattle.bson_laws.specs.Reads.{reads_document};

use crate::bson::{Document, Shape, de, from_document_at, from_slice_at};
use std::alloc::Global;

/// The age of the person in the bytes of a document such as `{name: "Ada", age: 36}`.
pub fn age(alloc: Global, shape: &Shape, bytes: &[u8]) -> de::Result<Option<i64>>
    ensures read { OnOk result (IsOk (reads_document shape.now bytes.now)) }
{
    let person = from_slice_at(alloc, shape, bytes)?;
    Ok(person.field("age").and_then(|age| age.as_i64()))
}

/// The age of the person in such a document in memory.
pub fn age_in_memory(alloc: Global, shape: &Shape, person: Document) -> de::Result<Option<i64>> {
    let person = from_document_at(alloc, shape, person)?;
    Ok(person.field("age").and_then(|age| age.as_i64()))
}
