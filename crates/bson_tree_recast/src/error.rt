// Why a document is not recast.
ghost use Rattle.std.specs.Prelude.{◌≡◌, Some, option_map};
ghost use Rattle.bson_base.specs.Encoded.{fault_told};
ghost use Rattle.bson_values.specs.ErrorView.{cause_view};
ghost use Rattle.bson_values.specs.Refusal.{bare, unwritable as for_cause};
ghost use Rattle.bson_tree_recast.specs.ByTree.{raw_told, unread_for, unencoded_for};
ghost use Rattle.bson_tree_recast.specs.Recast.{in_writing, stopped};

use bson_base::EncodeError;
use bson_rawdoc::raw;
use bson_values::{Cause, de, ser};
use std::alloc::AllocError;
use std::error::Error;
use std::fmt;

/// Why a document is not recast.
#[derive(Debug, Drop)]
pub enum RecastError {
    /// It is not read at the shape. The error is never `NoMemory`.
    Read(de::Error),
    /// It is read, and its value is not written. The error is never `NoMemory`.
    Write(ser::Error),
    /// Memory ran out.
    NoMemory,
}

impl fmt::Display for RecastError {
    ghost use Rattle.std.specs.Prelude.{Some};
    ghost use Rattle.bson_tree_recast.specs.Printed.{recast_error_text};

    ghost output = { λ e. Some (recast_error_text e) };

    fn fmt<W: fmt::Write>(&self, f: &mut fmt::Formatter<W>) -> fmt::Result {
        match self {
            RecastError::Read(e) => write!(f, "read refused: {e}"),
            RecastError::Write(e) => write!(f, "write refused: {e}"),
            RecastError::NoMemory => f.write_str("out of memory"),
        }
    }
}

impl Error for RecastError {}

impl From<AllocError> for RecastError {
    ghost use Rattle.bson_tree_recast.specs.declared.error.RecastError.TheVariants.{NoMemory as NoMemoryError};

    ghost from_gives = { λ _ e. e ≡ NoMemoryError };

    fn from(_error: AllocError) -> RecastError {
        RecastError::NoMemory
    }
}

impl From<de::Error> for RecastError {
    ghost use Rattle.bson_tree_recast.specs.Recast.{IsReadError};

    ghost from_gives = { λ e r. IsReadError e r };

    fn from(error: de::Error) -> RecastError {
        match error {
            de::Error::NoMemory => RecastError::NoMemory,
            e @ (de::Error::Io
            | de::Error::InvalidUtf8String
            | de::Error::UnrecognizedDocumentElementType { .. }
            | de::Error::EndOfStream
            | de::Error::DeserializationError { .. }
            | de::Error::WithPath { .. }) => RecastError::Read(e),
        }
    }
}

impl From<ser::Error> for RecastError {
    ghost use Rattle.bson_tree_recast.specs.Recast.{IsWriteError};

    ghost from_gives = { λ e r. IsWriteError e r };

    fn from(error: ser::Error) -> RecastError {
        match error {
            ser::Error::NoMemory => RecastError::NoMemory,
            e @ (ser::Error::Io
            | ser::Error::InvalidDocumentKey(_)
            | ser::Error::InvalidCString(_)
            | ser::Error::UnsignedIntegerExceededRange(_)
            | ser::Error::SerializationError { .. }
            | ser::Error::WithPath { .. }) => RecastError::Write(e),
        }
    }
}

/// The error for bytes that have no tree: that they are not read, or that memory ran out.
pub(crate) fn unread(fault: raw::Error) -> RecastError
    ensures { stopped result ≡ option_map unread_for (raw_told fault) }
{
    match fault {
        raw::Error::NoMemory => RecastError::NoMemory,
        other => RecastError::Read(de::Error::DeserializationError {
            cause: Cause::Raw(other),
        }),
    }
}

/// The error for a document that has no bytes: that it is not written, or that memory ran out.
pub(crate) fn unencoded(error: EncodeError) -> RecastError
    ensures { stopped result ≡ option_map unencoded_for (fault_told error) }
{
    match error {
        EncodeError::KeyZero(text) => RecastError::Write(ser::Error::InvalidCString(text)),
        EncodeError::BinaryTooLong(length) => unwritable(Cause::BinaryTooLong(length)),
        EncodeError::TooLong => unwritable(Cause::TooLong),
        EncodeError::NoMemory => RecastError::NoMemory,
    }
}

// A document is not written for this cause.
fn unwritable(cause: Cause) -> RecastError
    ensures { stopped result ≡ Some (in_writing (bare (for_cause (cause_view cause)))) }
{
    RecastError::Write(ser::Error::SerializationError { cause })
}
