use bson_base::{DateTime, Decimal128, ObjectId, Timestamp};

/// What the value of a document's first key stands for. Texts and bytes are those of the value.
#[derive(Clone, Copy)]
pub enum Body<'a> {
    /// An ObjectId.
    ObjectId(ObjectId),
    /// A text of the kind Symbol.
    Symbol(&'a str),
    /// A decimal number.
    Decimal128(Decimal128),
    /// The pattern and the options of a regular expression.
    RegularExpression(&'a str, &'a str),
    /// The kind without a value.
    Undefined,
    /// The subtype and the bytes of a binary.
    Binary(u8, &'a [u8]),
    /// A time.
    DateTime(DateTime),
    /// A timestamp.
    Timestamp(Timestamp),
    /// The value that is less than every other.
    MinKey,
    /// The value that is greater than every other.
    MaxKey,
    /// The namespace and the id of a reference to a document.
    DbPointer(&'a str, ObjectId),
}
