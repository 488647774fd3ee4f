use crate::ObjectId;

/// A reference to a document of a collection, of the deprecated kind DbPointer.
///
/// Source: bsonspec.org, version 1.1, `element`.
#[derive(Debug, Drop)]
pub struct DbPointer {
    /// The name of the collection, after that of its database and a point.
    pub namespace: String,
    /// What names the document.
    pub id: ObjectId,
}
