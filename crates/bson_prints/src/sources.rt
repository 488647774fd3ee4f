// Documents that are read from sources: what is taken, and what is left behind it.
use bson_de_source::{from_reader_at, from_reader_utf8_lossy_at};
use bson_io::{MemorySource, Source};
use bson_lines::Lines;
use bson_shape::Shape;
use bson_source::{TakeFault, take_document, take_up_to};
use std::alloc::{AllocError, Global};

/// The empty document, with a byte behind it.
const DOCUMENT: &[u8] = &[5, 0, 0, 0, 0, 255];

/// A source that gives these bytes one by one, and whose call of this number fails, counted from 1.
fn source(alloc: Global, bytes: &[u8], failing: u64) -> Result<MemorySource, AllocError> {
    let bytes = bytes.to_vec(alloc)?;
    let failing = [failing].to_vec(alloc)?;
    let limits = [1; 9].to_vec(alloc)?;
    Ok(MemorySource::new(bytes, failing, limits))
}

/// Adds what is left in a source, or the first byte of it.
fn add_left(lines: &mut Lines, source: &mut MemorySource) {
    let mut rest = [0; 2];
    lines.debug("left", &source.read(&mut rest));
    lines.hex("left", &rest);
}

/// Adds what is read of a source at a shape, and what is left in it.
fn add_read(lines: &mut Lines, alloc: Global, shape: &Shape, source: &mut MemorySource) {
    lines.made("from_reader_at", from_reader_at(alloc, shape, source));
    add_left(lines, source);
}

/// Adds what is read of a source of these bytes.
fn add_bytes(lines: &mut Lines, alloc: Global, shape: &Shape, bytes: &[u8], failing: u64) {
    match source(alloc, bytes, failing) {
        Ok(mut source) => add_read(lines, alloc, shape, &mut source),
        Err(error) => lines.text("no source", &error),
    }
}

/// Adds the bytes that are taken of a source, and what is left in it.
fn add_taken(lines: &mut Lines, alloc: Global) {
    match source(alloc, DOCUMENT, 0) {
        Ok(mut source) => {
            lines.bytes("take_document", take_document(alloc, &mut source));
            add_left(lines, &mut source);
        }
        Err(error) => lines.text("no source", &error),
    }
}

/// The first three bytes of a source.
fn first_three(alloc: Global, source: &mut MemorySource) -> Result<Vec<u8>, TakeFault> {
    let mut bytes = Vec::new(alloc);
    take_up_to(&mut bytes, 3, source)?;
    Ok(bytes)
}

/// Adds the first three bytes of a source, and one that is left in it.
fn add_first(lines: &mut Lines, alloc: Global) {
    match source(alloc, DOCUMENT, 0) {
        Ok(mut source) => {
            lines.debug("take_up_to", &first_three(alloc, &mut source));
            add_left(lines, &mut source);
        }
        Err(error) => lines.text("no source", &error),
    }
}

/// Adds what is read of a source with texts mended.
fn add_mended(lines: &mut Lines, alloc: Global, shape: &Shape) {
    match source(alloc, DOCUMENT, 0) {
        Ok(mut source) => {
            let read = from_reader_utf8_lossy_at(alloc, shape, &mut source);
            lines.made("from_reader_utf8_lossy_at", read);
        }
        Err(error) => lines.text("no source", &error),
    }
}

/// Adds what is read at a shape of the document, of a length that no document has, of a length that is cut off, and of the document where the first call fails.
fn add_each(lines: &mut Lines, alloc: Global, shape: &Shape) {
    add_bytes(lines, alloc, shape, DOCUMENT, 0);
    add_bytes(lines, alloc, shape, &[4, 0, 0, 0], 0);
    add_bytes(lines, alloc, shape, &[4, 0], 0);
    add_bytes(lines, alloc, shape, DOCUMENT, 1);
}

/// What is taken and read of sources.
pub fn add_sources(lines: &mut Lines, alloc: Global) {
    add_taken(lines, alloc);
    add_first(lines, alloc);
    match Shape::parse(alloc, "S{}") {
        Ok(shape) => {
            add_each(lines, alloc, &shape);
            add_mended(lines, alloc, &shape);
        }
        Err(error) => lines.text("no shape", &error),
    }
}
