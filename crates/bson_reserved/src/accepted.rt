use bson_base::{BinarySubtype, DateTime, Decimal128, ObjectId, Timestamp};

/// What the fields of a struct are accepted as whose name is reserved for a kind.
///
/// Source: the reserved names of MongoDB's crate `bson`, version 2, and the bodies of MongoDB's extended JSON.
#[derive(Clone, Copy)]
pub enum Accepted<'a> {
    /// Twelve bytes that name a document.
    ObjectId(ObjectId),
    /// A time.
    DateTime(DateTime),
    /// A binary, whose bytes are given as base64. It is accepted where the text is base64 of bytes, which is left to the writer.
    Base64 {
        /// What the bytes are.
        subtype: BinarySubtype,
        /// The text that is to be base64 of the bytes.
        text: &'a str,
    },
    /// A binary, whose bytes are given as they are.
    Binary {
        /// What the bytes are.
        subtype: BinarySubtype,
        /// The bytes.
        bytes: &'a [u8],
    },
    /// A time in seconds and an increment.
    Timestamp(Timestamp),
    /// JavaScript code.
    JavaScriptCode(&'a str),
    /// A text of the deprecated kind.
    Symbol(&'a str),
    /// A pattern and its options, in the order in which they are given.
    RegularExpression {
        /// The pattern.
        pattern: &'a str,
        /// The options.
        options: &'a str,
    },
    /// A namespace and an ObjectId.
    DbPointer {
        /// The namespace.
        namespace: &'a str,
        /// The ObjectId.
        id: ObjectId,
    },
    /// A decimal floating point number of 128 bits.
    Decimal128(Decimal128),
    /// The value that is less than every other.
    MinKey,
    /// The value that is greater than every other.
    MaxKey,
    /// The deprecated kind without a value.
    Undefined,
}
