ghost use Rattle.std.specs.Prelude.{◌≡◌};
ghost use Rattle.bson_rawdoc.specs.RawValue.{kind_of};
ghost use Rattle.bson_rawdoc.specs.ValueView.{raw_value};

use crate::array::RawArray;
use crate::document::RawDocument;
use bson_base::{BinarySubtype, DateTime, Decimal128, Double, ObjectId, Timestamp};
use bson_kinds::ElementType;

/// A value as it is in the bytes of its document.
#[derive(Clone, Copy, Debug)]
pub enum RawBsonRef<'a> {
    /// A floating point number of 64 bits.
    Double(Double),
    /// A UTF-8 text, borrowed from the document.
    String(&'a str),
    /// An array.
    Array(RawArray<'a>),
    /// A document inside another.
    Document(RawDocument<'a>),
    /// True or false.
    Boolean(bool),
    /// No value.
    Null,
    /// A regular expression, borrowed from the document.
    RegularExpression {
        /// The pattern.
        pattern: &'a str,
        /// The options, as they are.
        options: &'a str,
    },
    /// JavaScript code, borrowed from the document.
    JavaScriptCode(&'a str),
    /// JavaScript code with a document of its names, borrowed from the document.
    JavaScriptCodeWithScope {
        /// The code.
        code: &'a str,
        /// The names that the code may use, with their values.
        scope: RawDocument<'a>,
    },
    /// A signed number of 32 bits.
    Int32(i32),
    /// A signed number of 64 bits.
    Int64(i64),
    /// A time in seconds and an increment.
    Timestamp(Timestamp),
    /// Bytes with a subtype, borrowed from the document.
    Binary {
        /// What the bytes are.
        subtype: BinarySubtype,
        /// The bytes. Those of subtype 2 are behind its second length.
        bytes: &'a [u8],
    },
    /// Twelve bytes that name a document.
    ObjectId(ObjectId),
    /// Milliseconds since 1970.
    DateTime(DateTime),
    /// A text of the deprecated kind Symbol, borrowed from the document.
    Symbol(&'a str),
    /// A decimal floating point number of 128 bits.
    Decimal128(Decimal128),
    /// The deprecated kind without a value.
    Undefined,
    /// The value that is greater than every other.
    MaxKey,
    /// The value that is less than every other.
    MinKey,
    /// A namespace and an ObjectId.
    DbPointer {
        /// The namespace, borrowed from the document.
        namespace: &'a str,
        /// The name of a document in it.
        id: ObjectId,
    },
}

impl RawBsonRef<'_> {
    /// The kind of the value.
    pub fn element_type(self) -> ElementType
        ensures kind { result ≡ kind_of (raw_value self.entry) }
    {
        match self {
            RawBsonRef::Double(_) => ElementType::Double,
            RawBsonRef::String(_) => ElementType::String,
            RawBsonRef::Array(_) => ElementType::Array,
            RawBsonRef::Document(_) => ElementType::EmbeddedDocument,
            RawBsonRef::Boolean(_) => ElementType::Boolean,
            RawBsonRef::Null => ElementType::Null,
            RawBsonRef::RegularExpression { .. } => ElementType::RegularExpression,
            RawBsonRef::JavaScriptCode(_) => ElementType::JavaScriptCode,
            RawBsonRef::JavaScriptCodeWithScope { .. } => ElementType::JavaScriptCodeWithScope,
            RawBsonRef::Int32(_) => ElementType::Int32,
            RawBsonRef::Int64(_) => ElementType::Int64,
            RawBsonRef::Timestamp(_) => ElementType::Timestamp,
            RawBsonRef::Binary { .. } => ElementType::Binary,
            RawBsonRef::ObjectId(_) => ElementType::ObjectId,
            RawBsonRef::DateTime(_) => ElementType::DateTime,
            RawBsonRef::Symbol(_) => ElementType::Symbol,
            RawBsonRef::Decimal128(_) => ElementType::Decimal128,
            RawBsonRef::Undefined => ElementType::Undefined,
            RawBsonRef::MaxKey => ElementType::MaxKey,
            RawBsonRef::MinKey => ElementType::MinKey,
            RawBsonRef::DbPointer { .. } => ElementType::DbPointer,
        }
    }
}
