ghost use Rattle.std.specs.Prelude.{◌≡◌};
ghost use Rattle.std.specs.Process.{exit_status};
ghost use Rattle.bson_migrate_run.specs.Number.{number_of};

use std::process::ExitCode;

/// How a migration ended.
#[derive(Clone, Copy, Debug, PartialEq, Eq)]
pub enum MigrateStatus {
    /// Every document was written.
    Done,
    /// Some documents were refused; the others were written.
    SomeRefused,
    /// The input is no file of documents, or is too long.
    Broken,
    /// The words are not the notation of one shape.
    Usage,
    /// The input failed.
    SourceFault,
    /// One of the outputs failed.
    SinkFault,
    /// Memory ran out.
    NoMemory,
}

impl MigrateStatus {
    /// The number that the program ends with: 0 to 6 in the order above.
    pub fn number(self) -> u8
        ensures number { result ≡ number_of self }
    {
        match self {
            MigrateStatus::Done => 0,
            MigrateStatus::SomeRefused => 1,
            MigrateStatus::Broken => 2,
            MigrateStatus::Usage => 3,
            MigrateStatus::SourceFault => 4,
            MigrateStatus::SinkFault => 5,
            MigrateStatus::NoMemory => 6,
        }
    }

    /// What the program ends with: its number.
    pub fn code(self) -> ExitCode
        ensures code { exit_status result ≡ number_of self }
    {
        ExitCode::from(self.number())
    }
}
