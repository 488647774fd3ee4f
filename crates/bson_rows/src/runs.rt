// What a row gives: runs of the programs over ends in memory, and documents that are written.
use crate::row::{Program, Row};
use crate::trees::{read_tree, tree_in, write_tree};
use bson_base::Document;
use bson_datum::Datum;
use bson_de_raw::from_slice_at;
use bson_evolve_run::run_check;
use bson_infer_run::run_infer;
use bson_io::{MemorySink, MemorySource};
use bson_migrate_run::run_migrate;
use bson_recast_run::{Status, run};
use bson_ser_stream::to_vec_at;
use bson_shape::Shape;
use bson_values::{Text, ser};
use std::alloc::{AllocError, Global};
use std::fmt;

/// What came of a row.
#[derive(Drop)]
pub struct Run {
    status: u8,
    output: Vec<u8>,
    errors: Vec<u8>,
}

impl Run {
    /// Whether it is what the row says.
    pub fn is_as_in(&self, row: &Row) -> bool {
        self.status == row.status
            && self.output == row.output
            && self.errors.as_slice() == row.errors.as_bytes()
    }
}

impl fmt::Display for Run {
    fn fmt<W: fmt::Write>(&self, f: &mut fmt::Formatter<W>) -> fmt::Result {
        let Run {
            status,
            output,
            errors,
        } = self;
        write!(f, "ended with {status}, wrote {output:?}, told {errors:?}")
    }
}

/// The outputs of a program.
#[derive(Drop)]
struct Sinks {
    out: MemorySink,
    err: MemorySink,
}

impl Sinks {
    /// Sinks with ample room, of which no call fails.
    fn new(alloc: Global) -> Result<Sinks, AllocError> {
        let out = MemorySink::new(alloc, 9999, Vec::new(alloc), Vec::new(alloc))?;
        let err = MemorySink::new(alloc, 9999, Vec::new(alloc), Vec::new(alloc))?;
        Ok(Sinks { out, err })
    }

    /// What was written, with the number of the status.
    fn ended(&self, alloc: Global, status: u8) -> Result<Run, AllocError> {
        let output = self.out.written().to_vec(alloc)?;
        let errors = self.err.written().to_vec(alloc)?;
        Ok(Run {
            status,
            output,
            errors,
        })
    }
}

/// Runs the program of a row.
pub fn run_row(alloc: Global, row: &Row) -> Result<Run, AllocError> {
    match row.program {
        Program::Recast => run_recast(alloc, row),
        Program::Migrate => run_migration(alloc, row),
        Program::Infer => run_inference(alloc, row),
        Program::Evolve => run_comparison(alloc, row),
        Program::Write => write_row(alloc, row),
        Program::Tree => tree_row(alloc, row),
    }
}

/// The input of a row, of which no call fails.
fn input_of(alloc: Global, row: &Row) -> Result<MemorySource, AllocError> {
    let bytes = row.input.clone()?;
    Ok(MemorySource::new(bytes, Vec::new(alloc), Vec::new(alloc)))
}

/// Runs the recast.
fn run_recast(alloc: Global, row: &Row) -> Result<Run, AllocError> {
    let mut input = input_of(alloc, row)?;
    let mut ends = Sinks::new(alloc)?;
    let status = run(alloc, &row.words, &mut input, &mut ends.out, &mut ends.err);
    ends.ended(alloc, status.number())
}

/// Runs the migration.
fn run_migration(alloc: Global, row: &Row) -> Result<Run, AllocError> {
    let mut input = input_of(alloc, row)?;
    let mut ends = Sinks::new(alloc)?;
    let status = run_migrate(alloc, &row.words, &mut input, &mut ends.out, &mut ends.err);
    ends.ended(alloc, status.number())
}

/// Runs the inference.
fn run_inference(alloc: Global, row: &Row) -> Result<Run, AllocError> {
    let mut input = input_of(alloc, row)?;
    let mut ends = Sinks::new(alloc)?;
    let status = run_infer(alloc, &row.words, &mut input, &mut ends.out, &mut ends.err);
    ends.ended(alloc, status.number())
}

/// Runs the comparison of two shapes.
fn run_comparison(alloc: Global, row: &Row) -> Result<Run, AllocError> {
    let mut ends = Sinks::new(alloc)?;
    let status = run_check(alloc, &row.words, &mut ends.out, &mut ends.err);
    ends.ended(alloc, status.number())
}

/// Reads the document of a row, renames its struct, and writes it.
fn write_row(alloc: Global, row: &Row) -> Result<Run, AllocError> {
    let [shape, name] = row.words.as_slice() else {
        return ended(alloc, Status::Usage, "not two words");
    };
    match Shape::parse(alloc, shape.as_str()) {
        Ok(shape) => write_at(alloc, &shape, &row.input, name.as_str()),
        Err(_) => ended(alloc, Status::Usage, "not a shape"),
    }
}

/// Reads a document at a shape, renames its struct, and writes it.
fn write_at(alloc: Global, shape: &Shape, bytes: &[u8], name: &str) -> Result<Run, AllocError> {
    match from_slice_at(alloc, shape, bytes) {
        Ok(mut document) => {
            rename(&mut document, name);
            written(alloc, &document)
        }
        Err(_) => ended(alloc, Status::ReadRefused, "not read"),
    }
}

/// What writing a document gives.
fn written(alloc: Global, document: &Datum<'_>) -> Result<Run, AllocError> {
    match to_vec_at(alloc, document) {
        Ok(output) => done(alloc, output),
        Err(error) => not_written(alloc, error),
    }
}

/// An end at a value that is not written.
fn not_written(alloc: Global, error: ser::Error) -> Result<Run, AllocError> {
    let line = format!(in alloc; "{error}\n")?;
    ended(alloc, Status::WriteRefused, line.as_str())
}

/// Reads the document of a row as a tree, and writes what is read as a tree.
fn tree_row(alloc: Global, row: &Row) -> Result<Run, AllocError> {
    let [shape, mode] = row.words.as_slice() else {
        return ended(alloc, Status::Usage, "not two words");
    };
    let (Ok(shape), Some(document)) = (
        Shape::parse(alloc, shape.as_str()),
        tree_in(alloc, &row.input),
    ) else {
        return ended(alloc, Status::Usage, "no shape or no document");
    };
    match read_tree(alloc, &shape, document, mode.as_str()) {
        Ok(value) => tree_written(alloc, &value, mode.as_str()),
        Err(error) => {
            let line = format!(in alloc; "{error}\n")?;
            ended(alloc, Status::ReadRefused, line.as_str())
        }
    }
}

/// What writing a value as a tree gives.
fn tree_written(alloc: Global, value: &Datum<'_>, mode: &str) -> Result<Run, AllocError> {
    match write_tree(alloc, value, mode) {
        Ok(document) => encoded(alloc, &document),
        Err(error) => not_written(alloc, error),
    }
}

/// The bytes of a document.
fn encoded(alloc: Global, document: &Document) -> Result<Run, AllocError> {
    match document.to_vec(alloc) {
        Ok(output) => done(alloc, output),
        Err(error) => {
            let line = format!(in alloc; "{error}\n")?;
            ended(alloc, Status::WriteRefused, line.as_str())
        }
    }
}

/// An end with this output.
fn done(alloc: Global, output: Vec<u8>) -> Result<Run, AllocError> {
    Ok(Run {
        status: Status::Done.number(),
        output,
        errors: Vec::new(alloc),
    })
}

/// Gives the struct under the first key of a document this name.
fn rename<'a>(document: &mut Datum<'a>, name: &'a str) {
    if let Datum::Struct { fields, .. } = document
        && let Some(field) = fields.first_mut()
        && let Datum::Struct { name: old, .. } = &mut field.value
    {
        *old = Text::Borrowed(name);
    }
}

/// An end without output.
fn ended(alloc: Global, status: Status, errors: &str) -> Result<Run, AllocError> {
    Ok(Run {
        status: status.number(),
        output: Vec::new(alloc),
        errors: errors.as_bytes().to_vec(alloc)?,
    })
}
