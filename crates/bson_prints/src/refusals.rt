// What the writer refuses where there is memory.
use bson_base::MAX_BINARY;
use bson_datum::Datum;
use bson_de_raw::from_slice_at;
use bson_lines::Lines;
use bson_ser_stream::to_vec_at;
use bson_shape::Shape;
use std::alloc::{AllocError, Global};

/// Adds the bytes that a datum is written as, or why it is refused.
pub fn add_written(lines: &mut Lines, alloc: Global, datum: &Datum<'_>) {
    lines.bytes("to_vec_at", to_vec_at(alloc, datum));
}

/// The front of a document with a binary of one byte too many under `x`.
const LONG: &[u8] = b"\x0e\0\0\x01\x05x\0\x01\0\0\x01\0";

/// The same of a binary of the old subtype 2, in which four bytes less may be.
const LONG_OLD: &[u8] = b"\x0e\0\0\x01\x05x\0\x01\0\0\x01\x02\xfd\xff\xff\0";

/// Bytes with zeros behind them, to this length.
fn padded(alloc: Global, front: &[u8], len: usize) -> Result<Vec<u8>, AllocError> {
    let mut bytes = front.to_vec(alloc)?;
    bytes.resize(len, 0)?;
    Ok(bytes)
}

/// Adds what a document that is read at a shape is written as, or why it is refused.
fn add_read(lines: &mut Lines, alloc: Global, shape: &Shape, bytes: &[u8]) {
    match from_slice_at(alloc, shape, bytes) {
        Ok(datum) => {
            add_written(lines, alloc, &datum);
            drop(datum);
        }
        Err(error) => lines.text("not read", &error),
    }
}

/// Adds the refusal of the binary of a document with this front and this length.
fn add_long(lines: &mut Lines, alloc: Global, shape: &Shape, front: &[u8], len: usize) {
    match padded(alloc, front, len) {
        Ok(bytes) => add_read(lines, alloc, shape, &bytes),
        Err(error) => lines.text("no document", &error),
    }
}

/// Adds the refusals of long binaries.
fn add_binaries(lines: &mut Lines, alloc: Global) {
    match Shape::parse(alloc, "{x:binary}") {
        Ok(shape) => {
            add_long(lines, alloc, &shape, LONG, MAX_BINARY + 14);
            add_long(lines, alloc, &shape, LONG_OLD, MAX_BINARY + 14);
        }
        Err(error) => lines.text("no shape", &error),
    }
}

/// The document with an array without elements under `a`.
const ARRAY: &[u8] = b"\x0d\0\0\0\x04a\0\x05\0\0\0\0\0";

/// Adds the refusal of an array in its bytes where a document is to be written.
fn add_array(lines: &mut Lines, alloc: Global, document: &Datum<'_>) {
    match document.field("a") {
        Some(array) => add_written(lines, alloc, array),
        None => lines.line("no array"),
    }
}

/// Adds the refusal of the array of a document that is read at a shape.
fn add_raw_array(lines: &mut Lines, alloc: Global, shape: &Shape) {
    match from_slice_at(alloc, shape, ARRAY) {
        Ok(document) => {
            add_array(lines, alloc, &document);
            drop(document);
        }
        Err(error) => lines.text("not read", &error),
    }
}

/// The refusals of long binaries, and of an array in its bytes.
pub fn add_refusals(lines: &mut Lines, alloc: Global) {
    add_binaries(lines, alloc);
    match Shape::parse(alloc, "{a:rawarray}") {
        Ok(shape) => add_raw_array(lines, alloc, &shape),
        Err(error) => lines.text("no shape", &error),
    }
}
