use std::error::Error;
use std::fmt;

/// Why no shape is inferred from documents.
#[derive(Debug, Drop, PartialEq, Eq)]
pub enum InferError {
    /// The document of this number, counted from 0, is the first that is not sound.
    NotSound(usize),
    /// The memory that the call asked for was refused.
    NoMemory,
}

impl fmt::Display for InferError {
    ghost use Rattle.std.specs.Prelude.{Some};
    ghost use Rattle.bson_infer_run.specs.Lines.{infer_error_text};

    ghost output = { λ e. Some (infer_error_text e) };

    fn fmt<W: fmt::Write>(&self, f: &mut fmt::Formatter<W>) -> fmt::Result {
        match self {
            InferError::NotSound(number) => write!(f, "document {number}: not sound"),
            InferError::NoMemory => f.write_str("out of memory"),
        }
    }
}

impl Error for InferError {}
