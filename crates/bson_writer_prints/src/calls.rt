// The calls of the writers of documents, arrays and variants, part by part, and what the output holds behind them: where their parts are taken, where one is refused, and where a
// call of the wrong form is made.
use crate::outputs::{add_output, output};
use bson_datum::Datum;
use bson_io::{Out, Steps, Tally};
use bson_lines::Lines;
use bson_ser_parts::{DocumentWriter, VariantWriter};
use bson_values::Text;
use std::alloc::Global;

/// What a writer of several parts is asked to take.
#[derive(Clone, Copy)]
enum Part {
    /// An element of an array.
    Element,
    /// An entry of a document, under this key.
    Entry(&'static str),
    /// An entry of a document, whose key is no text.
    EntryOfNumber,
}

/// Adds what the writer of a document answers to an entry of this key.
fn add_entry(
    lines: &mut Lines,
    writer: &mut DocumentWriter<'_>,
    key: Datum<'_>,
    value: &Datum<'_>,
) {
    let mut steps = Steps::<Tally>::new();
    lines.made("entry", writer.entry(&key, value, &mut steps));
    drop(key);
}

/// Adds what the writer of a document answers to a part.
fn add_part(lines: &mut Lines, writer: &mut DocumentWriter<'_>, part: Part, value: &Datum<'_>) {
    let mut steps = Steps::<Tally>::new();
    match part {
        Part::Element => lines.made("element", writer.element(value, &mut steps)),
        Part::Entry(key) => add_entry(lines, writer, Datum::Str(Text::Borrowed(key)), value),
        Part::EntryOfNumber => add_entry(lines, writer, Datum::I32(1), value),
    }
}

/// Adds what the writer of a document or an array behind an output answers.
fn add_writer(lines: &mut Lines, out: &mut Out, is_array: bool, parts: &[Part], value: &Datum<'_>) {
    let mut steps = Steps::<Tally>::new();
    match DocumentWriter::start(out, is_array, false, &mut steps) {
        Ok(mut writer) => {
            for part in parts {
                add_part(lines, &mut writer, *part, value);
            }
            lines.made("end", writer.end(&mut steps));
        }
        Err(error) => lines.text("start", &error),
    }
}

/// Adds what the writer of a document answers, and what the output holds then.
fn add_document(lines: &mut Lines, alloc: Global, parts: &[Part], value: &Datum<'_>) {
    let mut out = output(alloc);
    lines.line("document");
    add_writer(lines, &mut out, false, parts, value);
    add_output(lines, &out);
}

/// Adds what the writer of an array answers, and what the output holds then.
fn add_array(lines: &mut Lines, alloc: Global, parts: &[Part], value: &Datum<'_>) {
    let mut out = output(alloc);
    lines.line("array");
    add_writer(lines, &mut out, true, parts, value);
    add_output(lines, &out);
}

/// Adds what the writer of a variant answers to a part. The keys of its entries are texts.
fn add_variant_part(
    lines: &mut Lines,
    writer: &mut VariantWriter<'_>,
    part: Part,
    value: &Datum<'_>,
) {
    let mut steps = Steps::<Tally>::new();
    match part {
        Part::Element => lines.made("element", writer.element(value, &mut steps)),
        Part::Entry(key) => lines.made("entry", writer.entry(key, value, &mut steps)),
        Part::EntryOfNumber => {}
    }
}

/// Adds what the writer of a variant behind an output answers.
fn add_variant_writer(
    lines: &mut Lines,
    out: &mut Out,
    variant: &str,
    is_tuple: bool,
    parts: &[Part],
    value: &Datum<'_>,
) {
    let mut steps = Steps::<Tally>::new();
    match VariantWriter::start(out, variant, is_tuple, false, &mut steps) {
        Ok(mut writer) => {
            for part in parts {
                add_variant_part(lines, &mut writer, *part, value);
            }
            lines.made("end", writer.end(&mut steps));
        }
        Err(error) => lines.text("start", &error),
    }
}

/// Adds what the writer of a tuple variant answers, and what the output holds then.
fn add_tuple_variant(
    lines: &mut Lines,
    alloc: Global,
    variant: &str,
    parts: &[Part],
    value: &Datum<'_>,
) {
    let mut out = output(alloc);
    lines.line("tuple variant");
    add_variant_writer(lines, &mut out, variant, true, parts, value);
    add_output(lines, &out);
}

/// Adds what the writer of a struct variant answers, and what the output holds then.
fn add_struct_variant(lines: &mut Lines, alloc: Global, parts: &[Part], value: &Datum<'_>) {
    let mut out = output(alloc);
    lines.line("struct variant");
    add_variant_writer(lines, &mut out, "T", false, parts, value);
    add_output(lines, &out);
}

/// Adds what each writer answers.
fn add_writers(
    lines: &mut Lines,
    alloc: Global,
    entries: &[Part],
    elements: &[Part],
    value: &Datum<'_>,
) {
    add_document(lines, alloc, entries, value);
    add_array(lines, alloc, elements, value);
    add_tuple_variant(lines, alloc, "T", elements, value);
    add_struct_variant(lines, alloc, entries, value);
}

/// Entries with an element between them.
const ENTRIES: [Part; 3] = [Part::Entry("i"), Part::Element, Part::Entry("j")];

/// Elements with an entry between them.
const ELEMENTS: [Part; 3] = [Part::Element, Part::Entry("i"), Part::Element];

/// Adds what each writer answers to parts of this value.
fn add_parts(
    lines: &mut Lines,
    alloc: Global,
    entries: &[Part],
    elements: &[Part],
    value: Datum<'_>,
) {
    add_writers(lines, alloc, entries, elements, &value);
    drop(value);
}

/// Each writer takes its part; refuses a value, and then what it has to take; and refuses a part of the wrong form, and then what it has to take.
fn add_each(lines: &mut Lines, alloc: Global) {
    let number = Datum::I32(1);
    add_parts(lines, alloc, &ENTRIES[..1], &ELEMENTS[..1], number);
    add_parts(lines, alloc, &ENTRIES, &ELEMENTS, Datum::U64(u64::MAX));
    add_parts(lines, alloc, &ENTRIES, &ELEMENTS, Datum::I32(1));
}

/// Adds a key that is no text, a key with a zero character, and the name of a variant with one.
fn add_names(lines: &mut Lines, alloc: Global, value: Datum<'_>) {
    add_document(lines, alloc, &[Part::EntryOfNumber], &value);
    add_struct_variant(lines, alloc, &[Part::Entry("i\0")], &value);
    add_tuple_variant(lines, alloc, "T\0", &[], &value);
    drop(value);
}

/// The calls of each writer.
pub fn add_calls(lines: &mut Lines, alloc: Global) {
    add_each(lines, alloc);
    add_names(lines, alloc, Datum::Bool(true));
}
