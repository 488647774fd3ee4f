// Why a document is refused.
ghost use Rattle.std.specs.Prelude.{◌≡◌, IfOk, string_bytes};
ghost use Rattle.bson_values.specs.ErrorView.{read_failure, write_failure};
ghost use Rattle.bson_buffers.specs.Lists.{printed_front};
ghost use Rattle.bson_buffers.specs.Prover.Listed.{IsReason};

use crate::status::Status;
use bson_recasting::RecastError;
use bson_values::{de, ser};
use std::alloc::{AllocError, Global};

/// Why a document is refused, by the status of its recast and by a text.
#[derive(Drop)]
pub struct Reason {
    /// `ReadRefused` or `WriteRefused`.
    pub status: Status,
    /// What is said of it.
    pub text: String,
    /// What of the text is before the cause.
    pub front: String,
}

// What is printed of an error of reading before its cause.
fn read_front(alloc: Global, error: &de::Error) -> Result<String, AllocError>
    ensures { IfOk result (λ t. string_bytes t ≡ printed_front (read_failure error.now)) }
{
    match error {
        de::Error::WithPath { path, .. } => format!(in alloc; "error at {path}: "),
        de::Error::Io
        | de::Error::InvalidUtf8String
        | de::Error::UnrecognizedDocumentElementType { .. }
        | de::Error::EndOfStream
        | de::Error::DeserializationError { .. }
        | de::Error::NoMemory => Ok(String::new(alloc)),
    }
}

// What is printed of an error of writing before its cause.
fn write_front(alloc: Global, error: &ser::Error) -> Result<String, AllocError>
    ensures { IfOk result (λ t. string_bytes t ≡ printed_front (write_failure error.now)) }
{
    match error {
        ser::Error::WithPath { path, .. } => format!(in alloc; "error at {path}: "),
        ser::Error::Io
        | ser::Error::InvalidDocumentKey(_)
        | ser::Error::InvalidCString(_)
        | ser::Error::UnsignedIntegerExceededRange(_)
        | ser::Error::SerializationError { .. }
        | ser::Error::NoMemory => Ok(String::new(alloc)),
    }
}

/// The reason that an error of a recast tells. An error means out of memory, which is no reason.
pub fn reason_of(alloc: Global, error: &RecastError) -> Result<Reason, AllocError>
    ensures { IfOk result (λ r. IsReason error.now r) }
{
    match error {
        RecastError::Read(e) => Ok(Reason {
            status: Status::ReadRefused,
            text: format!(in alloc; "{e}")?,
            front: read_front(alloc, e)?,
        }),
        RecastError::Write(e) => Ok(Reason {
            status: Status::WriteRefused,
            text: format!(in alloc; "{e}")?,
            front: write_front(alloc, e)?,
        }),
        RecastError::NoMemory => Err(AllocError),
    }
}
