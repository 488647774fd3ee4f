ghost use Rattle.std.specs.Prelude.{◌≡◌};
ghost use Rattle.bson_values.specs.Printed.{what_is_expected};

use crate::wrapper::Wrapper;
use bson_faults::raw;
use bson_kinds::ElementType;
use std::fmt;

/// What is said of a timestamp whose increment would be lost.
const HAS_INCREMENT: &str = "Cannot convert Timestamp with a non-zero increment to u32";

/// Why a value is refused.
#[derive(Debug)]
pub enum Cause {
    /// The bytes have this fault.
    Raw(raw::Error),
    /// A document, an array or a scope is at a level beyond [`MAX_NESTING_LEVEL`](bson_base::MAX_NESTING_LEVEL).
    TooDeep,
    /// The value has this kind, and the shape takes another.
    InvalidType(ElementType),
    /// The number does not fit the shape's type.
    OutOfRange(i64),
    /// The text is not one character.
    NotOneChar,
    /// The bytes of a binary are not UTF-8.
    NotUtf8,
    /// The text or byte string is to be borrowed, and is not a part of the input.
    NotBorrowed,
    /// The array has this many elements, which are fewer than the shape takes.
    InvalidLength(u64),
    /// No element has the name of this field.
    MissingField(String),
    /// Two elements have the name of this field.
    DuplicateField(String),
    /// The enum has no variant of this name.
    UnknownVariant(String),
    /// A key that is no field of a closed struct; or a key other than `$scope` after `$code`, or other than `$code` after `$scope`.
    UnknownField(String),
    /// The shape has no definition of this name.
    UnknownReference(String),
    /// The value of this wrapper key is not valid, or, at `oid` and `uuid`, a text that is no ObjectId or UUID.
    BadBody(Wrapper),
    /// What was read as a tree, of this kind, is not what the shape takes.
    WrongKind(ElementType),
    /// A binary of this subtype, where the shape takes subtype 4.
    Subtype(u8),
    /// A text names a variant that has contents.
    ContentsWanted,
    /// A document names a variant that has no contents.
    UnitInDocument,
    /// An empty document of a tree in memory, where the name of a variant is expected.
    EmptyEnum,
    /// A second key in a document of a tree in memory that names a variant.
    ExtraKey(String),
    /// A key, or a part of a regular expression, holds a zero character.
    ZeroByte,
    /// The value has this kind, where a document is expected.
    TopLevel(ElementType),
    /// A binary of so many bytes, which are more than 16777216.
    BinaryTooLong(u64),
    /// The newtype of a UUID holds neither its bytes nor, in the readable form, its text.
    BadUuid,
    /// The fields of a struct of a reserved name are none of the lists that its name takes.
    BadStep,
    /// The document would have more than 2147483647 bytes.
    TooLong,
    /// The value is made into a BSON value of this kind, where a document is expected.
    NotDocument(ElementType),
    /// A call of the writer was refused before.
    Failed,
    /// The first four bytes announce less than the five of the smallest document.
    TooSmall,
    /// The datum is none that a value of the type is written as.
    NotFitting,
    /// The number is more than an `i32` may be.
    NotI32(u64),
    /// The number is more than an `i64` may be.
    NotI64(u64),
    /// The increment of a timestamp is not zero.
    Increment,
    /// The text is no date.
    NotDate(String),
    /// The text is no ObjectId.
    NotObjectId(String),
    /// The time, in milliseconds since the start of 1970, is outside the years 0 to 9999.
    NoRfc3339(i64),
}

// By hand, so that what drops a cause calls this: a derived drop is repeated at each place where a cause is dropped.
impl Drop for Cause {
    fn drop(self) {
        match self {
            Cause::Raw(_fault) => {}
            Cause::MissingField(_name)
            | Cause::DuplicateField(_name)
            | Cause::UnknownVariant(_name)
            | Cause::UnknownField(_name)
            | Cause::UnknownReference(_name)
            | Cause::ExtraKey(_name)
            | Cause::NotDate(_name)
            | Cause::NotObjectId(_name) => {}
            Cause::InvalidType(_)
            | Cause::WrongKind(_)
            | Cause::TopLevel(_)
            | Cause::NotDocument(_) => {}
            Cause::OutOfRange(_) | Cause::NoRfc3339(_) => {}
            Cause::InvalidLength(_)
            | Cause::BinaryTooLong(_)
            | Cause::NotI32(_)
            | Cause::NotI64(_) => {}
            Cause::BadBody(_) => {}
            Cause::Subtype(_) => {}
            Cause::TooDeep
            | Cause::NotOneChar
            | Cause::NotUtf8
            | Cause::NotBorrowed
            | Cause::ContentsWanted
            | Cause::UnitInDocument
            | Cause::EmptyEnum
            | Cause::ZeroByte
            | Cause::BadUuid
            | Cause::BadStep
            | Cause::TooLong
            | Cause::Failed
            | Cause::TooSmall
            | Cause::NotFitting
            | Cause::Increment => {}
        }
    }
}

impl fmt::Display for Cause {
    ghost use Rattle.std.specs.Prelude.{Some};
    ghost use Rattle.bson_values.specs.ErrorView.{cause_view};
    ghost use Rattle.bson_values.specs.Printed.{printed_cause};

    ghost output = { λ c. Some (printed_cause (cause_view c)) };

    fn fmt<W: fmt::Write>(&self, f: &mut fmt::Formatter<W>) -> fmt::Result {
        match self {
            Cause::Raw(fault) => write!(f, "{fault}"),
            Cause::TooDeep => f.write_str("nested deeper than 200 levels"),
            Cause::InvalidType(kind) => write!(f, "invalid type: {kind}"),
            Cause::OutOfRange(number) => write!(f, "integer {number} out of range"),
            Cause::NotOneChar => f.write_str("not one character"),
            Cause::NotUtf8 => f.write_str("bytes are not UTF-8"),
            Cause::NotBorrowed => f.write_str("cannot be borrowed"),
            Cause::InvalidLength(length) => write!(f, "invalid length {length}"),
            Cause::MissingField(name) => write!(f, "missing field {name}"),
            Cause::DuplicateField(name) => write!(f, "duplicate field {name}"),
            Cause::UnknownVariant(name) => write!(f, "unknown variant {name}"),
            Cause::UnknownField(name) => write!(f, "unknown field {name}"),
            Cause::UnknownReference(name) => write!(f, "unknown reference {name}"),
            Cause::BadBody(body) => write!(f, "bad value for {}{}", body.key(), expected(*body)),
            Cause::WrongKind(kind) => write!(f, "unexpected value: {kind}"),
            Cause::Subtype(subtype) => write!(f, "unexpected binary subtype {subtype}"),
            Cause::ContentsWanted => f.write_str("expected contents, got a text"),
            Cause::UnitInDocument => f.write_str("expected a string enum, got a document instead"),
            Cause::EmptyEnum => f.write_str("empty document, expected variant name"),
            Cause::ExtraKey(key) => write!(f, "extra key {key}"),
            Cause::ZeroByte => f.write_str("zero byte in a key or regex"),
            Cause::TopLevel(kind) => write!(f, "non-document type at the top level: {kind}"),
            Cause::BinaryTooLong(bytes) => write!(f, "binary length {bytes} exceeded maximum size"),
            Cause::BadUuid => f.write_str("expected UUID as bytes or text"),
            Cause::BadStep => f.write_str("wrong steps of a reserved struct"),
            Cause::TooLong => f.write_str("value exceeds maximum length"),
            Cause::NotDocument(got) => write!(f, "could not be serialized to Document, got {got}"),
            Cause::Failed => f.write_str("writer failed before"),
            Cause::TooSmall => f.write_str("document size too small"),
            Cause::NotFitting => f.write_str("value does not fit the type"),
            Cause::NotI32(number) => write!(f, "cannot convert {number} to i32"),
            Cause::NotI64(number) => write!(f, "cannot convert {number} to i64"),
            Cause::Increment => f.write_str(HAS_INCREMENT),
            Cause::NotDate(text) => write!(f, "cannot convert {text} to DateTime"),
            Cause::NotObjectId(text) => write!(f, "cannot convert {text} to ObjectId"),
            Cause::NoRfc3339(millis) => write!(f, "cannot format {millis} as RFC 3339"),
        }
    }
}

/// What is said behind the wrapper key of what its value should have been.
fn expected(wrapper: Wrapper) -> &'static str
    ensures { result.now ≡ what_is_expected wrapper }
{
    match wrapper {
        Wrapper::NumberDouble => ", expected a double",
        _ => "",
    }
}
