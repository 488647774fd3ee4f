// What the programs are made of: the shape of a word, the input, the shape that documents have in common, and the comparison of two shapes.
use bson_base::Document;
use bson_evolve_check::check;
use bson_evolve_differences::{Difference, differences};
use bson_growing::two;
use bson_infer_run::{InferError, infer};
use bson_io::MemorySource;
use bson_lines::Lines;
use bson_program::{InputEndings, read_input, shape_of_word};
use bson_rawdoc::RawDocument;
use bson_rawdoc::raw::Error;
use bson_shape::{ParseError, Shape};
use std::alloc::{AllocError, Global};

/// The document `{i: 1}`.
const ONE: &[u8] = b"\x0c\0\0\0\x10i\0\x01\0\0\0\0";

/// The empty document.
const EMPTY: &[u8] = b"\x05\0\0\0\0";

/// The statuses of an input that is not read to its end.
const ENDINGS: InputEndings<u8> = InputEndings {
    source_fault: 4,
    too_long: 1,
    too_long_line: "too long\n",
};

/// Adds the shape of a word, or the line that refuses it.
fn add_word(lines: &mut Lines, alloc: Global, word: &str) {
    match shape_of_word(alloc, word) {
        Ok(Ok(shape)) => lines.written("shape_of_word", &shape.print(alloc)),
        Ok(Err(line)) => lines.named("shape_of_word", &line),
        Err(error) => lines.text("shape_of_word", &error),
    }
}

/// A source of a document, whose call of this number fails, counted from 1.
fn source(alloc: Global, failing: u64) -> Result<MemorySource, AllocError> {
    let failing = [failing].to_vec(alloc)?;
    Ok(MemorySource::new(ONE.to_vec(alloc)?, failing, Vec::new(alloc)))
}

/// Adds what is read of an input, or the answer to one that failed.
fn add_read(lines: &mut Lines, alloc: Global, input: &mut MemorySource) {
    match read_input(alloc, ENDINGS, input) {
        Ok(Ok(bytes)) => lines.hex("read_input", &bytes),
        Ok(Err(answer)) => lines.named("read_input", &answer.lines),
        Err(error) => lines.text("read_input", &error),
    }
}

/// Adds what is read of an input whose call of this number fails.
fn add_input(lines: &mut Lines, alloc: Global, failing: u64) {
    match source(alloc, failing) {
        Ok(mut input) => add_read(lines, alloc, &mut input),
        Err(error) => lines.text("no source", &error),
    }
}

/// A document in memory.
fn document(alloc: Global, bytes: &[u8]) -> Result<Document, Error> {
    RawDocument::from_bytes(bytes)?.to_document(alloc)
}

/// Two documents in memory.
fn documents(alloc: Global) -> Result<Vec<Document>, Error> {
    let one = document(alloc, ONE)?;
    let empty = document(alloc, EMPTY)?;
    Ok(two(alloc, one, empty)?)
}

/// Adds a shape that was inferred.
fn add_inferred(lines: &mut Lines, alloc: Global, inferred: Result<Shape, InferError>) {
    match inferred {
        Ok(shape) => lines.written("infer", &shape.print(alloc)),
        Err(error) => lines.text("infer", &error),
    }
}

/// Adds the shape that documents have in common.
fn add_documents(lines: &mut Lines, alloc: Global) {
    match documents(alloc) {
        Ok(documents) => {
            add_inferred(lines, alloc, infer(alloc, &documents));
            drop(documents);
        }
        Err(fault) => lines.debug("no documents", &fault),
    }
}

/// Adds whether a shape is compatible with an older one.
fn add_check(lines: &mut Lines, alloc: Global, old: &Shape, new: &Shape) {
    lines.made("check", check(alloc, old, new));
}

/// Adds a difference: where it is, both parts, and the text of its reason.
fn add_difference(lines: &mut Lines, difference: &Difference) {
    lines.text("at", &difference.path);
    lines.named("old", &difference.old);
    lines.named("new", &difference.new);
    lines.text("since", &difference.reason);
}

/// Adds all differences of two shapes.
fn add_differences(lines: &mut Lines, alloc: Global, old: &Shape, new: &Shape) {
    match differences(alloc, old, new) {
        Ok(found) => {
            for difference in &found {
                add_difference(lines, difference);
            }
        }
        Err(error) => lines.text("no differences", &error),
    }
}

/// An old shape whose parts differ from those of the new one in each way that there is.
const OLD: &str = "{a:?i32,b:i64,c:(i32,i32),d:{x:i32},e:i32,f:<A,B(i32),C{x:i32}>,g:{x:i32}}";

/// The new one.
const NEW: &str =
    "{a:i32,b:i32,c:(i32),d:[<y>:i32],e:string,f:<B(i32,i32),C{y:i32}>,g:{!y:?i32},h:bool}";

/// Adds the differences of shapes that differ in many ways.
fn add_all_ways(lines: &mut Lines, alloc: Global) {
    match two_shapes(alloc, OLD, NEW) {
        Ok((old, new)) => add_differences(lines, alloc, &old, &new),
        Err(error) => lines.text("no shapes", &error),
    }
}

/// Two shapes.
fn two_shapes(alloc: Global, old: &str, new: &str) -> Result<(Shape, Shape), ParseError> {
    let old = Shape::parse(alloc, old)?;
    let new = Shape::parse(alloc, new)?;
    Ok((old, new))
}

/// Adds a shape and a wider one, compared in both ways.
fn add_checks(lines: &mut Lines, alloc: Global) {
    match two_shapes(alloc, "{i:i32}", "{i:i64}") {
        Ok((narrow, wide)) => {
            add_check(lines, alloc, &narrow, &wide);
            add_check(lines, alloc, &wide, &narrow);
        }
        Err(error) => lines.text("no shapes", &error),
    }
}

/// Words, inputs, documents and shapes.
pub fn add_programs(lines: &mut Lines, alloc: Global) {
    add_word(lines, alloc, "{i:i32}");
    add_word(lines, alloc, "i33");
    add_input(lines, alloc, 0);
    add_input(lines, alloc, 1);
    add_documents(lines, alloc);
    add_checks(lines, alloc);
    add_all_ways(lines, alloc);
}
