// What the calls return: structs that cross the border, with a status as its number.
ghost use Rattle.std.specs.Prelude.{◌≡◌};
ghost use Rattle.bson_c.specs.Crossing.{IsCrossed, IsCrossedFound, IsCrossedMigration};

use bson_buffers::{Found, Status};

/// How a call ended, and what it did with its buffers.
#[repr(C)]
#[derive(Clone, Copy, Debug, PartialEq, Eq)]
pub struct Report {
    /// The number of the status.
    pub status: u32,
    /// At `ShapeRefused` the place in the shape's bytes, at `Broken` that in the file, each counted from 0; else 0.
    pub place: usize,
    /// How many bytes of output were written to its buffer.
    pub written: usize,
    /// How many bytes the whole output takes; 0 where there is none.
    pub needed: usize,
    /// How many bytes of text were written to its buffer: as many of the first ones as fit.
    pub text_written: usize,
    /// How many bytes the whole text takes; 0 where there is none.
    pub text_needed: usize,
}

impl Report {
    /// A report of the library, as it crosses.
    pub(crate) fn crossed(report: bson_buffers::Report) -> Report
        ensures { IsCrossed report result }
    {
        Report {
            status: report.status.number(),
            place: report.place,
            written: report.written,
            needed: report.needed,
            text_written: report.text_written,
            text_needed: report.text_needed,
        }
    }
}

/// How a migration ended that lists the refused documents in an array.
#[repr(C)]
#[derive(Clone, Copy, Debug, PartialEq, Eq)]
pub struct MigrationReport {
    /// How the call ended, and what it did with its two buffers.
    pub report: Report,
    /// How many records were written to their array: as many of the first ones as fit.
    pub refusals_written: usize,
    /// How many records there are in all, one for each refused document.
    pub refusals_needed: usize,
}

impl MigrationReport {
    /// A report of the library, as it crosses.
    pub(crate) fn crossed(migration: bson_buffers::MigrationReport) -> MigrationReport
        ensures { IsCrossedMigration migration result }
    {
        MigrationReport {
            report: Report::crossed(migration.report),
            refusals_written: migration.refusals_written,
            refusals_needed: migration.refusals_needed,
        }
    }
}

/// What is at a place of a file.
#[repr(C)]
#[derive(Clone, Copy, Debug, PartialEq, Eq)]
pub struct NextDocument {
    /// The number of the status: `Done` where a document is found, `End` or `Broken`.
    pub status: u32,
    /// How many bytes the document takes; 0 where none is found.
    pub length: usize,
}

impl NextDocument {
    /// What the library found, as it crosses.
    pub(crate) fn crossed(found: Found) -> NextDocument
        ensures { IsCrossedFound found result }
    {
        let (status, length) = match found {
            Found::Document(length) => (Status::Done, length),
            Found::End => (Status::End, 0),
            Found::Broken => (Status::Broken, 0),
        };
        NextDocument {
            status: status.number(),
            length,
        }
    }
}
