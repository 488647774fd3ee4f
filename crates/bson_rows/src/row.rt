// A row: what is run and the number of the status that it ends with, what the row shows, the bytes of the input, those of the output, the lines of the
// error output, and the words.
use hex::FromHexError;
use std::alloc::{AllocError, AllocFailed, Global};

/// What is run at a row.
#[derive(Clone, Copy)]
pub enum Program {
    /// `bson_recast`, with the words as its command line.
    Recast,
    /// `bson_migrate`, with the words as its command line.
    Migrate,
    /// `bson_infer`, with the words as its command line.
    Infer,
    /// `bson_evolve`, with the words as its command line.
    Evolve,
    /// The document is read at the first word, and written after the struct under its first key was given the second word as its name.
    Write,
    /// The document, as a tree in memory, is read at the first word, and what is read is written as a tree again: for a human, or at the second word `compact` not.
    Tree,
}

/// A row of the table.
#[derive(Drop)]
pub struct Row {
    /// What is run.
    pub program: Program,
    /// The number of the status that it ends with.
    pub status: u8,
    /// The bytes of the input.
    pub input: Vec<u8>,
    /// The bytes that are written.
    pub output: Vec<u8>,
    /// The lines of the error output.
    pub errors: String,
    /// The words.
    pub words: Vec<String>,
}

/// A line is no row: a cell is missing, or one is not what it has to be; or memory ran out.
#[derive(Drop)]
pub struct NoRow;

impl From<AllocError> for NoRow {
    fn from(_: AllocError) -> NoRow {
        NoRow
    }
}

impl From<AllocFailed<String>> for NoRow {
    fn from(_: AllocFailed<String>) -> NoRow {
        NoRow
    }
}

impl From<FromHexError> for NoRow {
    fn from(_: FromHexError) -> NoRow {
        NoRow
    }
}

impl Row {
    /// The row of a line.
    pub fn parse(alloc: Global, line: &str) -> Result<Row, NoRow> {
        let mut cells = line.split(" | ");
        let (Some(program), Some(_shows)) = (cells.next(), cells.next()) else {
            return Err(NoRow);
        };
        let (Some(input), Some(output), Some(errors)) = (cells.next(), cells.next(), cells.next())
        else {
            return Err(NoRow);
        };
        let mut words = Vec::new(alloc);
        for word in cells {
            words.push(word_of(alloc, word)?)?;
        }
        Row::of_cells(alloc, program, (input, output), errors, words)
    }

    /// The row of these cells.
    fn of_cells(
        alloc: Global,
        program: &str,
        bytes: (&str, &str),
        errors: &str,
        words: Vec<String>,
    ) -> Result<Row, NoRow> {
        let (program, status) = program_of(program).ok_or(NoRow)?;
        let (input, output) = both_of(alloc, bytes.0, bytes.1)?;
        let errors = lines_of(alloc, errors)?;
        Ok(Row {
            program,
            status,
            input,
            output,
            errors,
            words,
        })
    }
}

/// The word of a cell, in which `␀` is a zero character.
fn word_of(alloc: Global, cell: &str) -> Result<String, AllocError> {
    cell.replace(alloc, "\u{2400}", "\0")
}

/// The bytes of the cells of the input and of the output; `=` is an output that is the input.
fn both_of(alloc: Global, input: &str, output: &str) -> Result<(Vec<u8>, Vec<u8>), NoRow> {
    let input = bytes_of(alloc, input)?;
    let output = match output {
        "=" => input.clone()?,
        digits => bytes_of(alloc, digits)?,
    };
    Ok((input, output))
}

/// The program of a cell and its status: a name, a space and a number.
fn program_of(cell: &str) -> Option<(Program, u8)> {
    let (name, status) = cell.split_once(' ')?;
    let program = match name {
        "recast" => Program::Recast,
        "migrate" => Program::Migrate,
        "infer" => Program::Infer,
        "evolve" => Program::Evolve,
        "write" => Program::Write,
        "tree" => Program::Tree,
        _ => return None,
    };
    Some((program, status.parse::<u8>().ok()?))
}

/// The bytes of a cell: hexadecimal digits in groups, a text behind a `'`, or `-` for none.
fn bytes_of(alloc: Global, cell: &str) -> Result<Vec<u8>, NoRow> {
    if let Some(text) = cell.strip_prefix("'") {
        return Ok(text_of(alloc, text)?.into_bytes());
    }
    let mut bytes = Vec::new(alloc);
    if cell != "-" {
        for group in cell.split_whitespace() {
            bytes.extend_from_slice(&hex::decode(alloc, group)?)?;
        }
    }
    Ok(bytes)
}

/// The text of a cell, in which `␊`, `␍` and `␉` are a line feed, a carriage return and a tab.
fn text_of(alloc: Global, cell: &str) -> Result<String, AllocError> {
    let text = cell.replace(alloc, "\u{240A}", "\n")?;
    let text = text.as_str().replace(alloc, "\u{240D}", "\r")?;
    text.as_str().replace(alloc, "\u{2409}", "\t")
}

/// The lines of a cell, with ` / ` between them, or `-` for none.
fn lines_of(alloc: Global, cell: &str) -> Result<String, AllocError> {
    let mut lines = String::new(alloc);
    if cell != "-" {
        for line in cell.split(" / ") {
            lines.push_str(line)?;
            lines.push('\n')?;
        }
    }
    Ok(lines)
}
