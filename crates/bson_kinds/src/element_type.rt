ghost use Rattle.std.specs.Prelude.{◌≡◌, Some};
ghost use Rattle.bson_kinds.specs.Kind as kind;

use std::fmt;

/// The kind of a BSON value: the byte that is before an element's key.
///
/// Source: bsonspec.org, version 1.1, `element`.
#[derive(Clone, Copy, Debug, PartialEq, Eq)]
pub enum ElementType {
    /// A floating point number of 64 bits.
    Double,
    /// A UTF-8 text.
    String,
    /// A document inside another.
    EmbeddedDocument,
    /// A document whose keys are the decimal indexes from 0.
    Array,
    /// Bytes with a subtype.
    Binary,
    /// The deprecated kind without a value.
    Undefined,
    /// Twelve bytes that name a document.
    ObjectId,
    /// True or false.
    Boolean,
    /// Milliseconds since 1970.
    DateTime,
    /// No value.
    Null,
    /// A pattern and its options.
    RegularExpression,
    /// A namespace and an ObjectId, deprecated.
    DbPointer,
    /// JavaScript code.
    JavaScriptCode,
    /// A text, deprecated.
    Symbol,
    /// JavaScript code with a document of its names, deprecated.
    JavaScriptCodeWithScope,
    /// A signed number of 32 bits.
    Int32,
    /// A time in seconds and an increment.
    Timestamp,
    /// A signed number of 64 bits.
    Int64,
    /// A decimal floating point number of 128 bits.
    Decimal128,
    /// The value that is greater than every other.
    MaxKey,
    /// The value that is less than every other.
    MinKey,
}

impl ElementType {
    /// The byte of the kind.
    pub fn byte(self) -> u8
        ensures byte { result ≡ kind.byte self }
    {
        match self {
            ElementType::Double => 0x01,
            ElementType::String => 0x02,
            ElementType::EmbeddedDocument => 0x03,
            ElementType::Array => 0x04,
            ElementType::Binary => 0x05,
            ElementType::Undefined => 0x06,
            ElementType::ObjectId => 0x07,
            ElementType::Boolean => 0x08,
            ElementType::DateTime => 0x09,
            ElementType::Null => 0x0a,
            ElementType::RegularExpression => 0x0b,
            ElementType::DbPointer => 0x0c,
            ElementType::JavaScriptCode => 0x0d,
            ElementType::Symbol => 0x0e,
            ElementType::JavaScriptCodeWithScope => 0x0f,
            ElementType::Int32 => 0x10,
            ElementType::Timestamp => 0x11,
            ElementType::Int64 => 0x12,
            ElementType::Decimal128 => 0x13,
            ElementType::MaxKey => 0x7f,
            ElementType::MinKey => 0xff,
        }
    }

    /// The kind that a byte stands for; `None` where it stands for none.
    #[inline(always)]
    pub fn from_byte(byte: u8) -> Option<ElementType>
        ensures kind { result ≡ kind.of_byte byte }
    {
        let kind = match byte {
            0x01 => ElementType::Double,
            0x02 => ElementType::String,
            0x03 => ElementType::EmbeddedDocument,
            0x04 => ElementType::Array,
            0x05 => ElementType::Binary,
            0x06 => ElementType::Undefined,
            0x07 => ElementType::ObjectId,
            0x08 => ElementType::Boolean,
            0x09 => ElementType::DateTime,
            0x0a => ElementType::Null,
            0x0b => ElementType::RegularExpression,
            0x0c => ElementType::DbPointer,
            0x0d => ElementType::JavaScriptCode,
            0x0e => ElementType::Symbol,
            0x0f => ElementType::JavaScriptCodeWithScope,
            0x10 => ElementType::Int32,
            0x11 => ElementType::Timestamp,
            0x12 => ElementType::Int64,
            0x13 => ElementType::Decimal128,
            0x7f => ElementType::MaxKey,
            0xff => ElementType::MinKey,
            _ => return None,
        };
        Some(kind)
    }

    /// The name of the kind, as it is printed.
    pub fn name(self) -> &'static str
        ensures name { result.now ≡ kind.name self }
    {
        match self {
            ElementType::Double => "Double",
            ElementType::String => "String",
            ElementType::EmbeddedDocument => "EmbeddedDocument",
            ElementType::Array => "Array",
            ElementType::Binary => "Binary",
            ElementType::Undefined => "Undefined",
            ElementType::ObjectId => "ObjectId",
            ElementType::Boolean => "Boolean",
            ElementType::DateTime => "DateTime",
            ElementType::Null => "Null",
            ElementType::RegularExpression => "RegularExpression",
            ElementType::DbPointer => "DbPointer",
            ElementType::JavaScriptCode => "JavaScriptCode",
            ElementType::Symbol => "Symbol",
            ElementType::JavaScriptCodeWithScope => "JavaScriptCodeWithScope",
            ElementType::Int32 => "Int32",
            ElementType::Timestamp => "Timestamp",
            ElementType::Int64 => "Int64",
            ElementType::Decimal128 => "Decimal128",
            ElementType::MaxKey => "MaxKey",
            ElementType::MinKey => "MinKey",
        }
    }
}

impl fmt::Display for ElementType {
    ghost use Rattle.std.specs.Prelude.{Some};
    ghost use Rattle.bson_kinds.specs.Kind as kind;

    ghost output = { λ k. Some (kind.name k) };

    fn fmt<W: fmt::Write>(&self, f: &mut fmt::Formatter<W>) -> fmt::Result {
        f.write_str(self.name())
    }
}
