ghost use Rattle.std.specs.Prelude.{◌≡◌};
ghost use Rattle.std.specs.Process.{exit_status};
ghost use Rattle.bson_recast_run.specs.Number.{number_of};

use std::process::ExitCode;

/// How a run ended.
#[derive(Clone, Copy, Debug, PartialEq, Eq)]
pub enum Status {
    /// The document was written.
    Done,
    /// The input is no document that can be read at the shape.
    ReadRefused,
    /// What was read cannot be written.
    WriteRefused,
    /// The words are no legal list, or the shape word is no shape.
    Usage,
    /// The input failed.
    SourceFault,
    /// The output failed.
    SinkFault,
    /// Memory ran out.
    NoMemory,
}

impl Status {
    /// The number that the program ends with: 0 to 6 in the order above.
    pub fn number(self) -> u8
        ensures number { result ≡ number_of self }
    {
        match self {
            Status::Done => 0,
            Status::ReadRefused => 1,
            Status::WriteRefused => 2,
            Status::Usage => 3,
            Status::SourceFault => 4,
            Status::SinkFault => 5,
            Status::NoMemory => 6,
        }
    }

    /// What the program ends with: its number.
    pub fn code(self) -> ExitCode
        ensures code { exit_status result ≡ number_of self }
    {
        ExitCode::from(self.number())
    }
}
