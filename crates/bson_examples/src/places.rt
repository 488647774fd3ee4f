use crate::bson::{Segment, Shape, de, from_slice_at};
use std::alloc::{AllocError, Global};

/// What is wrong with the notation of a shape or with a document, in one line; `None` where the document is read.
pub fn refusal(alloc: Global, notation: &str, bytes: &[u8]) -> Result<Option<String>, AllocError> {
    let shape = match Shape::parse(alloc, notation) {
        Ok(shape) => shape,
        Err(error) => {
            let Some(place) = error.place() else {
                return Err(AllocError);
            };
            return Ok(Some(format!(in alloc; "byte {place}: {error}")?));
        }
    };
    match from_slice_at(alloc, &shape, bytes) {
        Ok(_) => Ok(None),
        Err(de::Error::NoMemory) => Err(AllocError),
        Err(error) => Ok(Some(format!(in alloc; "{error}")?)),
    }
}

/// The first key on the way to a value that is refused, as `people` where the error prints `error at people[1].age: ..`.
pub fn refused_key(error: &de::Error) -> Option<&str> {
    let de::Error::WithPath { path, .. } = error else {
        return None;
    };
    match path.segments().first()? {
        Segment::Key(key) => Some(key.as_str()),
        Segment::Index(_) => None,
    }
}
