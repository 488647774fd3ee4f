ghost use Rattle.std.specs.Prelude.{◌≡◌};
ghost use Rattle.bson_buffers.specs.declared.status.Status.TheVariants as statuses;

use crate::status::Status;

/// How a call ended, and what it did with its buffers.
#[derive(Clone, Copy, Debug, PartialEq, Eq)]
pub struct Report {
    /// How the call ended.
    pub status: Status,
    /// At `ShapeRefused` the place in the shape's bytes, at `Broken` that in the file, each counted from 0; else 0.
    pub place: usize,
    /// How many bytes of output were written to its buffer.
    pub written: usize,
    /// How many bytes the whole output takes; 0 where there is none.
    pub needed: usize,
    /// How many bytes of text were written to its buffer: as many of the first ones as fit.
    pub text_written: usize,
    /// How many bytes the whole text takes; 0 where there is none.
    pub text_needed: usize,
}

impl Report {
    /// Memory ran out, and nothing was written.
    pub(crate) fn no_memory() -> Report
        ensures { result ≡ record { status = statuses.NoMemory; place = 0; written = 0; needed = 0; text_written = 0; text_needed = 0 } }
    {
        Report {
            status: Status::NoMemory,
            place: 0,
            written: 0,
            needed: 0,
            text_written: 0,
            text_needed: 0,
        }
    }
}

/// How a migration ended that lists the refused documents in an array.
#[derive(Clone, Copy, Debug, PartialEq, Eq)]
pub struct MigrationReport {
    /// How the call ended, and what it did with its two buffers.
    pub report: Report,
    /// How many records were written to their array: as many of the first ones as fit.
    pub refusals_written: usize,
    /// How many records there are in all, one for each refused document.
    pub refusals_needed: usize,
}
