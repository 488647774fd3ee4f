// Why a document is not edited.
ghost use Rattle.bson_editing.specs.Answers.{IsNameTaken};

use bson_rawdoc::raw;
use bson_values::Stop;
use std::alloc::Global;

/// Why a document is not edited.
#[derive(Debug, Drop)]
pub enum EditFault<E> {
    /// The bytes of a document, or one of its elements, have this fault.
    Bytes(raw::Error),
    /// The document has an element of the new name.
    Taken(String),
    /// A document or an array would have more than 2147483647 bytes.
    TooLong,
    /// A value that was missing would have more levels of documents and arrays than it may have: a document has at most 200.
    TooDeep,
    /// A change refuses a value.
    Unchanged(E),
}

// The document has an element of this name.
pub(crate) fn taken<E: Drop>(alloc: Global, name: &str) -> Stop<EditFault<E>>
    ensures { IsNameTaken name.now result }
{
    match String::from_str(alloc, name) {
        Ok(name) => Stop::here(alloc, EditFault::Taken(name)),
        Err(_) => Stop::NoMemory,
    }
}
