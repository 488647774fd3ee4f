//! The errors of writing.

ghost use Rattle.std.specs.Prelude.{◌≡◌};
ghost use Rattle.bson_values.specs.Refusal.{bare};
ghost use Rattle.bson_values.specs.Stop.{stop_view, IsPlaced};
ghost use Rattle.bson_values.specs.ErrorView.{write_fault, write_failure};

use crate::cause::Cause;
use crate::path::Path;
use crate::stop::Stop;
use bson_base::Bson;
use std::alloc::{AllocError, Global};
use std::fmt;

/// What a datum is refused for, without its path.
#[derive(Debug, Drop)]
pub enum Fault {
    /// A map has a key that is no text. This is what is told of the key: a scalar itself, an empty array or document for
    /// what holds values.
    InvalidDocumentKey(Bson),
    /// A zero character is in this name, which is written as a key.
    InvalidCString(String),
    /// This number is greater than 9223372036854775807, the greatest that an Int64 holds.
    UnsignedIntegerExceededRange(u64),
    /// A value is refused for this cause.
    Cause(Cause),
}

/// Why a datum is not written.
#[derive(Debug, Drop)]
pub enum Error {
    /// A call of the sink failed. Nothing returns this variant, which is there for its name.
    Io,
    /// A map has a key that is no text. This is what is told of the key: a scalar itself, an empty array or document for
    /// what holds values.
    InvalidDocumentKey(Bson),
    /// A zero character is in this name, which is written as a key.
    InvalidCString(String),
    /// This number is greater than 9223372036854775807, the greatest that an Int64 holds.
    UnsignedIntegerExceededRange(u64),
    /// A value is refused for this cause.
    SerializationError {
        /// The cause.
        cause: Cause,
    },
    /// An error, with the path of the value that it is about.
    WithPath {
        /// Where the value is.
        path: Path,
        /// What is wrong with it.
        source: Box<Error>,
    },
    /// Memory ran out.
    NoMemory,
}

impl Error {
    /// The fault with its path, `WithPath`; or `NoMemory`.
    pub fn from_stop(alloc: Global, stop: Stop<Fault>) -> Error
        ensures placed { IsPlaced (stop_view write_fault stop) (write_failure result) }
    {
        let Stop::Refused(refused) = stop else {
            return Error::NoMemory;
        };
        let refused = Box::into_inner(refused);
        match Box::new(alloc, Error::from_fault(refused.fault)) {
            Ok(source) => Error::WithPath {
                path: Path::from_innermost(refused.segments),
                source,
            },
            Err(_) => Error::NoMemory,
        }
    }

    /// The fault, without a path.
    pub fn from_fault(fault: Fault) -> Error
        ensures bare { write_failure result ≡ bare (write_fault fault) }
    {
        match fault {
            Fault::InvalidDocumentKey(key) => Error::InvalidDocumentKey(key),
            Fault::InvalidCString(name) => Error::InvalidCString(name),
            Fault::UnsignedIntegerExceededRange(number) => {
                Error::UnsignedIntegerExceededRange(number)
            }
            Fault::Cause(cause) => Error::SerializationError { cause },
        }
    }
}

impl From<AllocError> for Error {
    ghost use Rattle.bson_values.specs.declared.ser.Error.TheVariants.{NoMemory as NoMemoryError};

    ghost from_gives = { λ _ e. e ≡ NoMemoryError };

    fn from(_error: AllocError) -> Error {
        Error::NoMemory
    }
}

impl std::error::Error for Error {}

/// The result of a writer.
pub type Result<T> = std::result::Result<T, Error>;

impl fmt::Display for Error {
    ghost use Rattle.std.specs.Prelude.{Some};
    ghost use Rattle.bson_values.specs.ErrorView.{write_failure};
    ghost use Rattle.bson_values.specs.Printed.{printed_failure, printed_write_fault};

    ghost output = { λ e. Some (printed_failure printed_write_fault (write_failure e)) };

    fn fmt<W: fmt::Write>(&self, f: &mut fmt::Formatter<W>) -> fmt::Result {
        match self {
            Error::Io => f.write_str("i/o fault"),
            Error::InvalidDocumentKey(key) => {
                let kind = key.element_type();
                write!(f, "invalid map key type: {kind}")
            }
            Error::InvalidCString(_) => f.write_str("cstrings cannot contain null bytes"),
            Error::UnsignedIntegerExceededRange(number) => write!(
                f,
                "unsigned integer {number} does not fit a signed 64-bit integer"
            ),
            Error::SerializationError { cause } => write!(f, "{cause}"),
            Error::WithPath { path, source } => {
                write!(f, "error at {path}: ")?;
                (**source).fmt(f)
            }
            Error::NoMemory => f.write_str("out of memory"),
        }
    }
}
