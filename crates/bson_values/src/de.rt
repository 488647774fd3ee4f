//! The errors of reading.

ghost use Rattle.std.specs.Prelude.{◌≡◌};
ghost use Rattle.bson_values.specs.Refusal.{bare};
ghost use Rattle.bson_values.specs.Stop.{stop_view, IsPlaced};
ghost use Rattle.bson_values.specs.ErrorView.{read_fault, read_failure};

use crate::cause::Cause;
use crate::path::Path;
use crate::stop::Stop;
use bson_faults::raw;
use std::alloc::{AllocError, Global};
use std::fmt;

/// What a value is refused for, without its path.
#[derive(Debug, Drop)]
pub enum Fault {
    /// An empty document, where the name of a variant is expected; or a text in a tree in memory, where the contents of a variant are expected.
    EndOfStream,
    /// A value is refused for this cause.
    Cause(Cause),
}

/// Why a document is not read.
#[derive(Debug, Drop)]
pub enum Error {
    /// A call of the source failed.
    Io,
    /// A text is not UTF-8. Nothing returns this variant, which is there for its name: such a text is a `DeserializationError`.
    InvalidUtf8String,
    /// No value has this element type. Nothing returns this variant, which is there for its name: such an element is a `DeserializationError`.
    UnrecognizedDocumentElementType {
        /// The key of the element.
        key: String,
        /// The byte that its element type would be.
        element_type: u8,
    },
    /// An empty document, where the name of a variant is expected; a text in a tree in memory, where the contents of a variant are expected; or the source ended before the length
    /// of a document.
    EndOfStream,
    /// A value is refused for this cause.
    DeserializationError {
        /// The cause.
        cause: Cause,
    },
    /// An error, with the path of the value that it is about.
    WithPath {
        /// Where the value is.
        path: Path,
        /// What is wrong with it.
        source: Box<Error>,
    },
    /// Memory ran out.
    NoMemory,
}

impl Error {
    /// The fault with its path, `WithPath`; or `NoMemory`.
    pub fn from_stop(alloc: Global, stop: Stop<Fault>) -> Error
        ensures placed { IsPlaced (stop_view read_fault stop) (read_failure result) }
    {
        let Stop::Refused(refused) = stop else {
            return Error::NoMemory;
        };
        let refused = Box::into_inner(refused);
        match Box::new(alloc, Error::from_fault(refused.fault)) {
            Ok(source) => Error::WithPath {
                path: Path::from_innermost(refused.segments),
                source,
            },
            Err(_) => Error::NoMemory,
        }
    }

    /// The fault, without a path.
    pub fn from_fault(fault: Fault) -> Error
        ensures bare { read_failure result ≡ bare (read_fault fault) }
    {
        match fault {
            Fault::EndOfStream => Error::EndOfStream,
            Fault::Cause(cause) => Error::DeserializationError { cause },
        }
    }
}

impl From<raw::Error> for Error {
    ghost use Rattle.std.specs.Prelude.{◌≡◌};
    ghost use Rattle.bson_values.specs.ErrorView.{raw_failure, read_failure};

    ghost from_gives = { λ fault e. read_failure e ≡ raw_failure fault };

    fn from(fault: raw::Error) -> Error {
        match fault {
            raw::Error::NoMemory => Error::NoMemory,
            other => Error::DeserializationError {
                cause: Cause::Raw(other),
            },
        }
    }
}

impl From<AllocError> for Error {
    ghost use Rattle.bson_values.specs.declared.de.Error.TheVariants.{NoMemory as NoMemoryError};

    ghost from_gives = { λ _ e. e ≡ NoMemoryError };

    fn from(_error: AllocError) -> Error {
        Error::NoMemory
    }
}

impl std::error::Error for Error {}

/// The result of a reader.
pub type Result<T> = std::result::Result<T, Error>;

impl fmt::Display for Error {
    ghost use Rattle.std.specs.Prelude.{Some};
    ghost use Rattle.bson_values.specs.ErrorView.{read_failure};
    ghost use Rattle.bson_values.specs.Printed.{printed_failure, printed_read_fault};

    ghost output = { λ e. Some (printed_failure printed_read_fault (read_failure e)) };

    fn fmt<W: fmt::Write>(&self, f: &mut fmt::Formatter<W>) -> fmt::Result {
        match self {
            Error::Io => f.write_str("i/o fault"),
            Error::InvalidUtf8String => f.write_str("invalid UTF-8"),
            Error::UnrecognizedDocumentElementType { key, element_type } => {
                write!(f, "unrecognized element type {element_type} for key {key}")
            }
            Error::EndOfStream => f.write_str("end of stream"),
            Error::DeserializationError { cause } => write!(f, "{cause}"),
            Error::WithPath { path, source } => {
                write!(f, "error at {path}: ")?;
                (**source).fmt(f)
            }
            Error::NoMemory => f.write_str("out of memory"),
        }
    }
}
