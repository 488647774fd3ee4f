// Structs of reserved names, written in a document at once and field by field.
use crate::fields::{BETWEEN, push_fields};
use crate::outputs::{add_output, output};
use crate::refusals::under_x;
use bson_datum::{Datum, Field};
use bson_io::{Out, Steps, Tally};
use bson_lines::Lines;
use bson_ser_parts::ValueWriter;
use bson_ser_stream::{to_buf, to_vec_at};
use bson_values::Text;
use std::alloc::Global;

/// Adds what a writer field by field answers.
fn add_answers(lines: &mut Lines, writer: &mut ValueWriter<'_>, fields: &[Field<'_>]) {
    let mut steps = Steps::<Tally>::new();
    lines.debug("kind", &writer.element_type());
    for field in fields {
        let answer = writer.field(field.name.as_str(), &field.value, &mut steps);
        lines.made("field", answer);
    }
    lines.made("end", writer.end(&mut steps));
}

/// Adds what the writer of a struct behind an output answers.
fn add_writer(lines: &mut Lines, out: &mut Out, name: &str, fields: &[Field<'_>]) {
    let mut steps = Steps::<Tally>::new();
    match ValueWriter::start(out, name, &mut steps) {
        Ok(mut writer) => add_answers(lines, &mut writer, fields),
        Err(error) => lines.text("start", &error),
    }
}

/// Adds a struct that is given field by field, and what the output holds then.
fn add_by_fields(lines: &mut Lines, alloc: Global, name: &str, fields: &[Field<'_>]) {
    let mut out = output(alloc);
    add_writer(lines, &mut out, name, fields);
    add_output(lines, &out);
}

/// Adds a document that is written behind an output.
fn add_appended(lines: &mut Lines, out: &mut Out, document: &Datum<'_>) {
    let mut steps = Steps::<Tally>::new();
    lines.made("to_buf", to_buf(document, out, &mut steps));
    add_output(lines, out);
}

/// Adds a document that is written at once.
fn add_document(lines: &mut Lines, alloc: Global, document: &Datum<'_>) {
    lines.bytes("to_vec_at", to_vec_at(alloc, document));
    add_appended(lines, &mut output(alloc), document);
}

/// Adds a struct in a document, which is written at once.
fn add_at_once<'l>(lines: &mut Lines, alloc: Global, name: &'l str, fields: Vec<Field<'l>>) {
    let name = Text::Borrowed(name);
    match under_x(alloc, Datum::Struct { name, fields }) {
        Ok(document) => {
            add_document(lines, alloc, &document);
            drop(document);
        }
        Err(error) => lines.text("no document", &error),
    }
}

/// Adds a struct of this name and these fields.
fn add_fields<'l>(lines: &mut Lines, alloc: Global, name: &'l str, fields: Vec<Field<'l>>) {
    add_by_fields(lines, alloc, name, &fields);
    add_at_once(lines, alloc, name, fields);
}

/// Adds a struct of this name, and of the fields of these cells.
fn add_cells<'l>(lines: &mut Lines, alloc: Global, name: &'l str, cells: &'l str) {
    let mut fields = Vec::new(alloc);
    if !cells.is_empty() && !push_fields(alloc, &mut fields, cells) {
        lines.line("no fields");
    }
    add_fields(lines, alloc, name, fields);
}

/// The first cell of several, and the others, which may be none.
fn first_cell(cells: &str) -> (&str, &str) {
    match cells.split_once(BETWEEN) {
        Some((first, rest)) => (first, rest),
        None => (cells, ""),
    }
}

/// Adds the struct of a line: what it shows, its name, and its fields.
pub fn add_struct(lines: &mut Lines, alloc: Global, line: &str) {
    if line.is_empty() || line.starts_with('#') {
        return;
    }
    let (shows, rest) = first_cell(line);
    let (name, cells) = first_cell(rest);
    lines.line(shows);
    add_cells(lines, alloc, name, cells);
}
