ghost use Rattle.std.specs.Prelude.{◌≡◌};
ghost use Rattle.std.specs.Process.{exit_status};
ghost use Rattle.bson_infer_run.specs.Number.{number_of};

use std::process::ExitCode;

/// How an inference ended.
#[derive(Clone, Copy, Debug, PartialEq, Eq)]
pub enum InferStatus {
    /// The shape was written.
    Done,
    /// A document has a fault, or is not sound.
    DocumentRefused,
    /// The input is no file of documents, or is too long.
    Broken,
    /// There are words.
    Usage,
    /// The input failed.
    SourceFault,
    /// One of the outputs failed.
    SinkFault,
    /// Memory ran out.
    NoMemory,
}

impl InferStatus {
    /// The number that the program ends with: 0 to 6 in the order above.
    pub fn number(self) -> u8
        ensures number { result ≡ number_of self }
    {
        match self {
            InferStatus::Done => 0,
            InferStatus::DocumentRefused => 1,
            InferStatus::Broken => 2,
            InferStatus::Usage => 3,
            InferStatus::SourceFault => 4,
            InferStatus::SinkFault => 5,
            InferStatus::NoMemory => 6,
        }
    }

    /// What the program ends with: its number.
    pub fn code(self) -> ExitCode
        ensures code { exit_status result ≡ number_of self }
    {
        ExitCode::from(self.number())
    }
}
