use std::alloc::AllocError;
use std::fmt;

/// What is wrong with the bytes of a document, or why they are not made a tree.
///
/// Source: the layouts of bsonspec.org, version 1.1.
#[derive(Clone, Copy, Debug, PartialEq, Eq)]
pub enum Error {
    /// Fewer than five bytes.
    TooShort,
    /// The announced length is not the count of bytes.
    LengthDiffers,
    /// The last byte is not zero.
    NoTerminator,
    /// No zero byte ends a key.
    KeyUnclosed,
    /// A key is not UTF-8.
    KeyNotUtf8,
    /// The byte of an element's kind stands for no kind.
    UnknownKind(u8),
    /// A value does not fit before its document's end, or announces less than its least length.
    BadExtent,
    /// A text is not UTF-8.
    NotUtf8,
    /// The byte of a boolean is neither 0 nor 1.
    BadBoolean(u8),
    /// The last byte of a text is not zero.
    TextUnclosed,
    /// The second length of a binary of subtype 2 is not the count of the bytes behind it, or there is no room for it.
    InnerLength,
    /// The lengths of a code and of its scope do not agree with the total that is announced before them.
    ScopeTotal,
    /// The last byte of an inner document, an array or a scope is not zero.
    ValueUnclosed,
    /// A document, an array or a scope is nested deeper than 200 levels.
    TooDeep,
    /// Out of memory.
    NoMemory,
}

impl From<AllocError> for Error {
    ghost use Rattle.std.specs.Prelude.{◌≡◌};
    ghost use Rattle.bson_faults.specs.declared.raw.Error.TheVariants.{NoMemory as NoMemoryError};

    ghost from_gives = { λ _ e. e ≡ NoMemoryError };

    fn from(_error: AllocError) -> Error {
        Error::NoMemory
    }
}

impl fmt::Display for Error {
    ghost use Rattle.std.specs.Prelude.{Some};
    ghost use Rattle.bson_faults.specs.Printed.{printed_fault};

    ghost output = { λ e. Some (printed_fault e) };

    fn fmt<W: fmt::Write>(&self, f: &mut fmt::Formatter<W>) -> fmt::Result {
        match self {
            Error::TooShort => f.write_str("document too short"),
            Error::LengthDiffers => f.write_str("document length differs"),
            Error::NoTerminator => f.write_str("document not terminated"),
            Error::KeyUnclosed => f.write_str("key not closed"),
            Error::KeyNotUtf8 => f.write_str("key is not UTF-8"),
            Error::UnknownKind(b) => write!(f, "unknown kind {b}"),
            Error::BadExtent => f.write_str("value out of bounds"),
            Error::NotUtf8 => f.write_str("text is not UTF-8"),
            Error::BadBoolean(b) => write!(f, "bad boolean {b}"),
            Error::TextUnclosed => f.write_str("text not terminated"),
            Error::InnerLength => f.write_str("wrong inner length"),
            Error::ScopeTotal => f.write_str("wrong scope length"),
            Error::ValueUnclosed => f.write_str("inner document not terminated"),
            Error::TooDeep => f.write_str("nested deeper than 200 levels"),
            Error::NoMemory => f.write_str("out of memory"),
        }
    }
}

impl std::error::Error for Error {}
