ghost use Rattle.std.specs.Prelude.{◌≡◌};
ghost use Rattle.std.specs.Process.{exit_status};
ghost use Rattle.bson_evolve_run.specs.Number.{number_of};

use std::process::ExitCode;

/// How a comparison of two shapes ended.
#[derive(Clone, Copy, Debug, PartialEq, Eq)]
pub enum CheckStatus {
    /// Each sound document that is written at the old shape is read at the new one.
    Yes,
    /// It need not be.
    No,
    /// The words are not two plain shapes.
    Usage,
    /// One of the outputs failed.
    SinkFault,
    /// Memory ran out.
    NoMemory,
}

impl CheckStatus {
    /// The number that the program ends with: 0, 1, 3, 5 and 6 in the order above.
    pub fn number(self) -> u8
        ensures number { result ≡ number_of self }
    {
        match self {
            CheckStatus::Yes => 0,
            CheckStatus::No => 1,
            CheckStatus::Usage => 3,
            CheckStatus::SinkFault => 5,
            CheckStatus::NoMemory => 6,
        }
    }

    /// What the program ends with: its number.
    pub fn code(self) -> ExitCode
        ensures code { exit_status result ≡ number_of self }
    {
        ExitCode::from(self.number())
    }
}
